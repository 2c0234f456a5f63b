//! A machine of its own that stands for a user among others: a line in a world of several users, a
//! deck with a number of all their files, and a message.
ghost use Rattle.std.specs.Prelude.{◌≡◌, IfOk, OnOk};
ghost use Rattle.s370_channel.specs.Reading.{as_reached};
ghost use Rattle.cp_console.specs.ConsoleLine.{characters_of};
ghost use Rattle.machine_devices.specs.Life.{Deck as Gets, Leaves, Message as Hears};
ghost use Rattle.machine_devices.specs.Life.{Purge as Purges};
ghost use Rattle.machine_devices.specs.Lines.{IsLine};

use crate::bare::Bare;
use cp_console::console_line::ConsoleLine;
use cp_console::responses::Response;
use machine_devices::{LineOutcome, UserDirectory};
use std::alloc::{AllocError, Global};
use unit_record::{Card, Sender};

impl Bare {
    /// Does what a typed line asks, with the users that `world` names, and returns its outcome;
    /// what it sends is delivered to nobody, and a file that it closes gets no number.
    ///
    /// Both are for whoever knows the other users. If memory is refused, nothing is said of the
    /// machine.
    ///
    /// # Errors
    ///
    /// `AllocError` if memory is refused; what this is then is not specified.
    pub fn line_among<W: UserDirectory>(
        &mut self,
        alloc: Global,
        world: &W,
        typed: &[u8],
    ) -> Result<LineOutcome, AllocError>
        ensures line { IfOk result
            (λ reported. IsLine (W.known world.now) typed.now self.old.equipped reported
            self.new.equipped) }
        ensures files { self.new.files ≡ self.old.files }
    {
        self.answer(alloc, world, typed)
    }

    /// Appends a deck of these cards, with this number and this sender, to the queue of the reader.
    ///
    /// The number is among the files of all users. If memory is refused, nothing is said of the
    /// machine.
    ///
    /// # Errors
    ///
    /// `AllocError` if memory is refused; what this is then is not specified.
    pub fn take_deck(
        &mut self,
        number: u64,
        sender: Sender,
        cards: Vec<Card>,
    ) -> Result<(), AllocError>
        ensures taken { OnOk result (Leaves as_reached
            (Gets (record { label = number; sender = sender; cards = cards.items }))
            self.old.equipped self.new.equipped) }
        ensures files { self.new.files ≡ self.old.files }
    {
        self.devices.deck(&mut self.queues, number, sender, cards)
    }

    /// Withdraws the deck of this number from the queue of the reader, unless it is current.
    pub fn withdraw(&mut self, id: u64)
        ensures left { Leaves as_reached (Purges id) self.old.equipped self.new.equipped }
        ensures files { self.new.files ≡ self.old.files }
    {
        self.devices.purge(&mut self.queues, id);
    }

    /// Appends a message as a whole line to those that the console has printed.
    ///
    /// If memory is refused, nothing is said of the machine.
    ///
    /// # Errors
    ///
    /// `AllocError` if memory is refused; what this is then is not specified.
    pub fn hear(&mut self, line: ConsoleLine) -> Result<(), AllocError>
        ensures heard { OnOk result
            (Leaves as_reached (Hears (characters_of line)) self.old.equipped self.new.equipped) }
        ensures files { self.new.files ≡ self.old.files }
    {
        self.machine.make_room(1)?;
        self.machine.print(&Response::Written(line));
        Ok(())
    }
}
