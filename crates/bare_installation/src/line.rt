//! A line that is typed, and what comes of it.
ghost use Rattle.std.specs.Prelude.{◌++◌, ◌∷◌, [], ◌≡◌, ◌<◌, ◌-◌, ℕ, IfOk, IsSome, OnErr, OnOk};
ghost use Rattle.std.specs.Prelude.{length, slice_get};
ghost use Rattle.s370_channel.specs.Reading.{as_reached};
ghost use Rattle.machine_devices.specs.Comes.{HasClosed, LineMay, NeedsMemory};
ghost use Rattle.machine_devices.specs.Coming.{comes_by_line, coming_of};
ghost use Rattle.machine_devices.specs.Life.{Leaves, Lives};
ghost use Rattle.machine_devices.specs.Lines.{IsLine, files_closed};
ghost use Rattle.machine_devices.specs.Notes.{next_file, noted, stands_in};
ghost use Rattle.machine_devices.specs.Replies.{delivered_by, delivery_to, punched, receiver_of};
ghost use Rattle.bare_installation.specs.Bare.{IsTyped, alone, world_of};

use crate::alone::Alone;
use crate::bare::Bare;
use cp_console::console_line::ConsoleLine;
use machine_devices::{
    ClosedFiles, Delivered, Delivery, Ended, FileKind, FileNote, LineOutcome, Reply, TypedLine,
    UserDirectory, is_logged_on, said_to_line,
};
use machine_panel::LineError;
use std::alloc::{AllocError, Global};
use unit_record::{Sender, Target};
use user_names::UserNo;

/// How many users its world has.
const USERS: u8 = 1;

impl Bare {
    /// Does what a line asks that is typed, numbers the files that it closed, delivers what it
    /// sends to the user himself, and returns the reply.
    ///
    /// Memory is refused only where it closes a file, sends a message, resets or loads the machine,
    /// waits for the console, or is one for which a machine makes room; nothing is said of the
    /// machine then.
    ///
    /// # Errors
    ///
    /// `AllocError` if memory is refused; what this is then is not specified.
    pub fn line(&mut self, alloc: Global, typed: &[u8]) -> Result<Reply, AllocError>
        ensures ended { IfOk result (λ reply. reply.ended ≡ Ended.Done) }
        ensures typed { IfOk result (λ reply. IsTyped typed.now self.old reply self.new) }
        ensures lines { IfOk result
            (λ reply. reply.lines
            ≡ length self.new.equipped.machine.output - length self.old.equipped.machine.output) }
        ensures memory { OnErr result (LineMay (world_of self.old) typed.now self.old.equipped) }
    {
        let printed = self.printed();
        let number = self.next_file();
        let world = self.world();
        let reported = self.answer(alloc, &world, typed)?;
        let delivered = self.follow(&reported)?;
        Ok(Reply {
            ended: Ended::Done,
            said: said_to_line(number, &reported),
            lines: self.printed().saturating_sub(printed),
            delivered,
        })
    }

    /// Returns the list of the machine's only user, and whether he is logged on.
    fn world(&self) -> Alone
        ensures { alone result.on ≡ world_of self.now }
    {
        Alone {
            on: is_logged_on(self.machine.mode()),
        }
    }

    /// Does what a typed line asks, with the users that `world` names, and returns its outcome;
    /// files are not numbered and nothing is delivered yet.
    ///
    /// If memory is refused, nothing is said of the machine.
    pub(crate) fn answer<W: UserDirectory>(
        &mut self,
        alloc: Global,
        world: &W,
        typed: &[u8],
    ) -> Result<LineOutcome, AllocError>
        ensures line { IfOk result
            (λ reported. IsLine (W.known world.now) typed.now self.old.equipped reported
            self.new.equipped) }
        ensures files { self.new.files ≡ self.old.files }
        ensures memory { OnErr result
            (LineMay (W.known world.now) typed.now self.old.equipped) }
    {
        let line = TypedLine {
            typed,
            users: world,
        };
        let reported = self.devices.line(
            alloc,
            &mut self.queues,
            &mut self.machine,
            &mut self.storage,
            &mut self.channels,
            &line,
        );
        match reported {
            Ok(reported) => Ok(reported),
            Err(LineError::Memory) => Err(AllocError),
            // Every page of its storage is present.
            Err(LineError::FramesOut) => unreachable!(),
        }
    }

    /// Numbers each file that a line closed, delivers the deck or the message that is for the only
    /// user, and returns what was delivered, if anything was.
    fn follow(&mut self, reported: &LineOutcome) -> Result<Option<Delivered>, AllocError>
        ensures delivered { let before = stands_in (files_closed reported.now).punched
            self.old.equipped.devices.punched in
            IfOk result (λ delivered. delivered
            ≡ delivered_by 1 (next_file self.old.files) before reported.now self.old.equipped) }
        ensures come { let before = stands_in (files_closed reported.now).punched
            self.old.equipped.devices.punched in
            IfOk result (λ delivered.
            Lives as_reached (coming_of (comes_by_line 0 before self.old.equipped) delivered)
            self.old.equipped self.new.equipped) }
        ensures files { OnOk result
            (self.new.files ≡ self.old.files ++ noted 0 (files_closed reported.now)) }
        ensures memory { OnErr result (NeedsMemory reported.now) }
    {
        let number = self.next_file();
        let closed = reported.closed();
        self.note_closed(closed)?;
        match reported {
            LineOutcome::Sent(to, line) => self.send(*to, *line),
            _ => self.deliver_punched(closed.punched, number),
        }
    }

    /// Appends these closed files to the list of files, that of the punch first, which numbers
    /// them.
    fn note_closed(&mut self, closed: ClosedFiles) -> Result<(), AllocError>
        ensures ok { OnOk result
            (self.new ≡ record self.old { files = self.old.files ++ noted 0 closed }) }
        ensures memory { OnErr result (HasClosed closed) }
    {
        if let Some(place) = closed.punched {
            self.number_file(FileKind::Punch(place))?;
        }
        if let Some(place) = closed.printed {
            self.number_file(FileKind::Printer(place))?;
        }
        Ok(())
    }

    /// Appends a file of this kind to the list of files, by which it has the next number.
    fn number_file(&mut self, kind: FileKind) -> Result<(), AllocError>
        ensures { OnOk result (self.new ≡ record self.old {
          files = self.old.files ++ record { user = 0; kind = kind } ∷ [];
        }) }
    {
        self.files.push(FileNote {
            user: UserNo::new(0),
            kind,
        })?;
        Ok(())
    }

    /// Prints a message on the console, if it is for the machine's own user, number 0, and returns
    /// what was delivered.
    fn send(&mut self, to: u8, line: ConsoleLine) -> Result<Option<Delivered>, AllocError>
        ensures delivered { IfOk result
            (λ delivered. delivered ≡ delivery_to 1 to (Delivery.Message line)) }
        ensures come { (index : ℕ) → IfOk result
            (λ delivered. Lives as_reached
            (coming_of (comes_by_line 0 index self.old.equipped) delivered)
            self.old.equipped self.new.equipped) }
        ensures files { self.new.files ≡ self.old.files }
    {
        if to >= USERS {
            return Ok(None);
        }
        self.hear(line)?;
        Ok(Some(Delivered {
            to: UserNo::new(to),
            what: Delivery::Message(line),
        }))
    }

    /// Appends the punch's closed file at this place, which the punch keeps, to the reader's queue,
    /// as a deck with this number, if it is for the machine's own user; returns what was delivered.
    fn deliver_punched(
        &mut self,
        place: Option<usize>,
        number: u64,
    ) -> Result<Option<Delivered>, AllocError>
        ensures delivered { let index = stands_in place self.old.equipped.devices.punched in
            IfOk result (λ delivered. delivered ≡ punched 1 number index self.old.equipped) }
        ensures come { let index = stands_in place self.old.equipped.devices.punched in
            IfOk result (λ delivered.
            Lives as_reached (coming_of (comes_by_line 0 index self.old.equipped) delivered)
            self.old.equipped self.new.equipped) }
        ensures files { self.new.files ≡ self.old.files }
        ensures memory { OnErr result (IsSome place) }
    {
        let Some(index) = place else {
            return Ok(None);
        };
        match self.receiver_of(index) {
            Some(to) if to < USERS => {
                self.deliver(index, number)?;
                Ok(Some(Delivered {
                    to: UserNo::new(to),
                    what: Delivery::Deck(number),
                }))
            }
            _ => Ok(None),
        }
    }

    /// Returns the number of the user for whom the punch's closed file of this index is, if it is
    /// for one.
    fn receiver_of(&self, index: usize) -> Option<u8>
        ensures { result ≡ receiver_of (slice_get self.now.equipped.devices.punched index) }
    {
        match self.queues.punched(self.devices.user(), index) {
            Some(file) => match file.target() {
                Target::User(to) => Some(to),
                Target::System => None,
            },
            None => None,
        }
    }

    /// Appends the punch's closed file of this index to the reader's queue, as a deck with this
    /// number.
    fn deliver(&mut self, index: usize, number: u64) -> Result<(), AllocError>
        requires { index < length self.old.equipped.devices.punched }
        ensures equipped { OnOk result (Leaves as_reached
            (comes_by_line 0 index self.old.equipped (Delivery.Deck number)) self.old.equipped
            self.new.equipped) }
        ensures files { self.new.files ≡ self.old.files }
    {
        let user = self.devices.user();
        match self
            .queues
            .deliver(user, index, user, number, Sender::User(0))
        {
            Ok(()) => Ok(()),
            Err(_) => Err(AllocError),
        }
    }
}
