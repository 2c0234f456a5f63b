//! The card punch.
ghost use Rattle.std.specs.Prelude.{◌≡◌};
ghost use Rattle.unit_record.specs.Punch.{punch_new, punch_reset, punch_emptied};

use crate::front::{COMMAND_REJECT, NO_OPERATION, is_sense};
use crate::output::{Entry, Output};
use crate::record::RecordBytes;
use s370_walk::{Answer, Device, Order, UnitStatus};
use std::alloc::{AllocError, Global};
use std::marker::Model;
use std::mem;

/// Bytes of a card.
const CARD_LENGTH: usize = 80;
/// The command that punches a card.
const PUNCH: u8 = 0x01;
/// What is in columns that nothing was punched into.
const BLANK: u8 = 0x40;

/// A card punch: the cards of its open file.
#[derive(Drop)]
pub struct Punch {
    pub(crate) output: Output,
    pub(crate) sense: u8,
    pub(crate) is_punching: bool,
    pub(crate) card: RecordBytes,
}

impl Model for Punch {
    ghost use Rattle.std.specs.Prelude.{◌≡◌, ◌<◌, true};
    ghost use Rattle.unit_record.specs.Punch.{PunchState};

    ghost Value = { PunchState };

    ghost view = { λ p. record {
      entries = p.output.entries;
      sense = p.sense;
      is_punching = p.is_punching;
      card = p.card;
    } };

    // A card that is being punched has its room.
    ghost invariant = { λ p. p.is_punching ≡ true → 0 < p.output.room };
}

impl Device for Punch {
    ghost use Rattle.unit_record.specs.Punch.{punch_machine, punch_needs_memory};

    ghost machine = { punch_machine };

    ghost needs_memory = { punch_needs_memory };

    /// Begins a punch, which takes memory for its card, or a sense; does a no-operation, and
    /// rejects any other command.
    fn command(&mut self, order: Order) -> Result<Answer, AllocError> {
        match order.command.code {
            PUNCH => {
                self.output.reserve()?;
                self.is_punching = true;
                self.card = RecordBytes::new();
                Ok(Answer::Output(80))
            }
            NO_OPERATION => Ok(Answer::Immediate),
            _ if is_sense(order) => Ok(Answer::Input(1)),
            _ => {
                self.sense = COMMAND_REJECT;
                Ok(Answer::Refused(UnitStatus::UNIT_CHECK))
            }
        }
    }

    /// Returns false: no command ends before the bytes that it announced.
    fn is_done(&self) -> bool {
        false
    }

    /// Returns the greatest number: only the count ends a command.
    fn ready(&self) -> u32 {
        u32::MAX
    }

    /// Returns the sense byte.
    fn give(&mut self) -> u8 {
        self.sense
    }

    /// Appends a byte to the card that is being punched, or drops it past 80 bytes.
    fn take(&mut self, byte: u8) {
        if self.card.len() < CARD_LENGTH {
            self.card.push(byte);
        }
    }

    /// Ends the command; a punch adds its card, with blanks at its end, to the open file.
    fn finish(&mut self) -> UnitStatus {
        if self.is_punching {
            self.card.pad_to(CARD_LENGTH, BLANK);
            let card = mem::replace(&mut self.card, RecordBytes::new());
            self.output.add(Entry::new(PUNCH, card));
            self.is_punching = false;
        }
        UnitStatus::NONE
    }
}

impl Punch {
    /// Returns a punch that has punched nothing.
    pub fn new(alloc: Global) -> Punch
        ensures { result ≡ punch_new }
    {
        Punch {
            output: Output::new(alloc),
            sense: 0,
            is_punching: false,
            card: RecordBytes::new(),
        }
    }

    /// Drops the card that is being punched and clears the sense; the open file stays.
    pub fn reset(&mut self)
        ensures { self.new ≡ punch_reset self.old }
    {
        self.sense = 0;
        self.is_punching = false;
        self.card = RecordBytes::new();
    }

    /// Removes all cards from the open file and returns them, to be closed; a card that is being
    /// punched is dropped.
    ///
    /// This takes no memory.
    pub fn take_entries(&mut self, alloc: Global) -> Vec<Entry>
        ensures taken { result.items ≡ self.old.entries }
        ensures after { self.new ≡ punch_emptied self.old }
    {
        self.is_punching = false;
        self.card = RecordBytes::new();
        self.output.take(alloc)
    }

    /// Borrows the cards of the open file, in order.
    pub fn entries(&self) -> &[Entry]
        ensures { result.now ≡ self.now.entries }
    {
        self.output.entries()
    }

    /// Returns the sense byte of the last unit check.
    pub fn sense(&self) -> u8
        ensures { result ≡ self.now.sense }
    {
        // Exhaustive: a new field fails to compile here.
        let Punch {
            output: _,
            sense,
            is_punching: _,
            card: _,
        } = self;
        *sense
    }
}
