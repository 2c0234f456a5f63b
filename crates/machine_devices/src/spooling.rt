//! Files and decks: what SPOOL, CLOSE, PURGE and LOGOFF do with the devices.
ghost use Rattle.std.specs.Prelude.{◌≡◌, ◌+◌, ◌<◌, ◌≤◌, is_some, length, slice_index, IfOk, OnOk};
ghost use Rattle.std.specs.Prelude.{OnErr};
ghost use Rattle.machine_devices.specs.Comes.{HasClosed};
ghost use Rattle.unit_record.specs.Reader.{queued_at};
ghost use Rattle.cp_spool.specs.Queues.{HasRoom, deck_of, files_of};
ghost use Rattle.machine_devices.specs.Lent.{KeepsOtherUsers, devices_on};
ghost use Rattle.machine_devices.specs.Spooling.{devices_logged_off, open_files, place_of};
ghost use Rattle.machine_devices.specs.Spooling.{with_deck_purged, with_deck_put_back};
ghost use Rattle.machine_devices.specs.Spooling.{with_deck_queued, with_printer_closed};
ghost use Rattle.machine_devices.specs.Spooling.{with_punch_closed};

use crate::devices::Devices;
use crate::files::ClosedFiles;
use cp_spool::Queues;
use std::alloc::{AllocError, Global};
use unit_record::{Card, Entry, Sender, Target};
use user_names::UserNo;

impl Devices {
    /// Sets the target of the punch's files that are closed from now on, also of the open one.
    pub(crate) fn set_punch_target(&mut self, to: Target)
        ensures { self.new ≡ record self.old { target = to } }
    {
        self.target = to;
    }

    /// Returns the indices that the open files of punch and printer will have among their closed
    /// ones; None for a device without one.
    pub(crate) fn open_files(&self, queues: &Queues) -> ClosedFiles
        ensures { result ≡ open_files (devices_on self.now queues.now) }
    {
        ClosedFiles {
            punched: place_of(self.punch.entries(), queues.punched_count(self.user)),
            printed: place_of(self.printer.entries(), queues.printed_count(self.user)),
        }
    }

    /// Closes the punch's open file, if it has an entry, for the punch's target; a card that is
    /// being punched is dropped.
    ///
    /// Where memory is refused all stays. No card is copied.
    ///
    /// # Errors
    ///
    /// `AllocError` if memory is refused; nothing has changed.
    pub fn close_punch(&mut self, alloc: Global, queues: &mut Queues) -> Result<(), AllocError>
        requires { self.old.user < length queues.old.users }
        ensures closed { OnOk result
            (devices_on self.new queues.new ≡ with_punch_closed (devices_on self.old queues.old)) }
        ensures err { OnErr result
            (devices_on self.new queues.new ≡ devices_on self.old queues.old) }
        ensures other_users { KeepsOtherUsers self.old queues.old self.new queues.new }
    {
        if queues.make_room(self.user).is_err() {
            return Err(AllocError);
        }
        self.close_punch_reserved(alloc, queues);
        Ok(())
    }

    /// Closes the printer's open file, if it has an entry, for the operator; a line that is being
    /// printed is dropped.
    ///
    /// Where memory is refused all stays. No line is copied.
    ///
    /// # Errors
    ///
    /// `AllocError` if memory is refused; nothing has changed.
    pub fn close_printer(&mut self, alloc: Global, queues: &mut Queues) -> Result<(), AllocError>
        requires { self.old.user < length queues.old.users }
        ensures closed { OnOk result
            (devices_on self.new queues.new
            ≡ with_printer_closed (devices_on self.old queues.old)) }
        ensures err { OnErr result
            (devices_on self.new queues.new ≡ devices_on self.old queues.old) }
        ensures other_users { KeepsOtherUsers self.old queues.old self.new queues.new }
    {
        if queues.make_room(self.user).is_err() {
            return Err(AllocError);
        }
        self.close_printer_reserved(alloc, queues);
        Ok(())
    }

    /// Closes the punch's open file, if it has an entry, for the punch's target, in memory that was
    /// reserved; a card that is being punched is dropped.
    fn close_punch_reserved(&mut self, alloc: Global, queues: &mut Queues)
        requires user { self.old.user < length queues.old.users }
        requires files { 0 < length self.old.punch.entries → 1 ≤ queues.old.room.files }
        requires room { 0 < length self.old.punch.entries
            → 1 ≤ slice_index queues.old.room.punched self.old.user }
        ensures closed { devices_on self.new queues.new
            ≡ with_punch_closed (devices_on self.old queues.old) }
        ensures other_users { KeepsOtherUsers self.old queues.old self.new queues.new }
        ensures files { queues.old.room.files ≤ queues.new.room.files + 1 }
        ensures printed { queues.new.room.printed ≡ queues.old.room.printed }
    {
        let entries = self.punch.take_entries(alloc);
        if !entries.is_empty() {
            queues.close_punched(self.user, self.target, entries);
        }
    }

    /// Closes the printer's open file, if it has an entry, for the operator, in memory that was
    /// reserved; a line that is being printed is dropped.
    fn close_printer_reserved(&mut self, alloc: Global, queues: &mut Queues)
        requires user { self.old.user < length queues.old.users }
        requires files { 0 < length self.old.printer.entries → 1 ≤ queues.old.room.files }
        requires room { 0 < length self.old.printer.entries
            → 1 ≤ slice_index queues.old.room.printed self.old.user }
        ensures closed { devices_on self.new queues.new
            ≡ with_printer_closed (devices_on self.old queues.old) }
        ensures other_users { KeepsOtherUsers self.old queues.old self.new queues.new }
    {
        let entries = self.printer.take_entries(alloc);
        if !entries.is_empty() {
            queues.close_printed(self.user, Target::System, entries);
        }
    }

    /// Reserves memory for the files that LOGOFF closes, if punch or printer has one open.
    fn make_room_for_open(&self, queues: &mut Queues) -> Result<(), AllocError>
        ensures users { queues.new.users ≡ queues.old.users }
        ensures room { OnOk result (HasClosed (open_files (devices_on self.now queues.old))
            → HasRoom self.now.user queues.new.room) }
        ensures asked { OnErr result (HasClosed (open_files (devices_on self.now queues.old))) }
    {
        let open = self.open_files(queues);
        if open.punched.is_none() && open.printed.is_none() {
            return Ok(());
        }
        match queues.make_room(self.user) {
            Ok(()) => Ok(()),
            Err(_) => Err(AllocError),
        }
    }

    /// Closes the open files of punch and printer, and makes the reader's current deck wait again,
    /// as LOGOFF does.
    ///
    /// Where memory is refused all stays.
    ///
    /// # Errors
    ///
    /// `AllocError` if memory is refused; nothing has changed.
    pub fn close_for_logoff(&mut self, alloc: Global, queues: &mut Queues) -> Result<(), AllocError>
        requires { self.old.user < length queues.old.users }
        ensures after { OnOk result
            (devices_on self.new queues.new ≡ devices_logged_off (devices_on self.old queues.old)) }
        ensures err { OnErr result
            (devices_on self.new queues.new ≡ devices_on self.old queues.old) }
        ensures asked { OnErr result (HasClosed (open_files (devices_on self.old queues.old))) }
        ensures other_users { KeepsOtherUsers self.old queues.old self.new queues.new }
    {
        self.make_room_for_open(queues)?;
        self.close_punch_reserved(alloc, queues);
        self.close_printer_reserved(alloc, queues);
        self.put_back(queues);
        Ok(())
    }

    /// Appends a deck of these cards with this label and sender to the reader's queue.
    ///
    /// If memory is refused all stays, and the cards are gone.
    ///
    /// # Errors
    ///
    /// `AllocError` if memory is refused; nothing has changed.
    pub fn deck(
        &self,
        queues: &mut Queues,
        label: u64,
        sender: Sender,
        cards: Vec<Card>,
    ) -> Result<(), AllocError>
        requires { self.now.user < length queues.old.users }
        ensures kept { OnOk result (devices_on self.now queues.new
            ≡ with_deck_queued (devices_on self.now queues.old)
            (record { label = label; sender = sender; cards = cards.items })) }
        ensures err { OnErr result
            (devices_on self.now queues.new ≡ devices_on self.now queues.old) }
        ensures other_users { KeepsOtherUsers self.now queues.old self.now queues.new }
    {
        match queues.append(self.user, label, sender, cards) {
            Ok(()) => Ok(()),
            Err(_) => Err(AllocError),
        }
    }

    /// Appends the file of this index that the punch of `from` closed to the reader's queue, as a
    /// deck with this label.
    ///
    /// Where memory is refused all stays. No card is copied.
    ///
    /// # Errors
    ///
    /// `AllocError` if memory is refused; nothing has changed.
    pub fn receive(
        &self,
        queues: &mut Queues,
        from: UserNo,
        index: usize,
        label: u64,
    ) -> Result<(), AllocError>
        requires index { index < length (files_of queues.old.users from).punched }
        requires user { self.now.user < length queues.old.users }
        ensures kept { OnOk result (devices_on self.now queues.new
            ≡ with_deck_queued (devices_on self.now queues.old)
            (deck_of (files_of queues.old.users from).punched index label (Sender.User from))) }
        ensures err { OnErr result
            (devices_on self.now queues.new ≡ devices_on self.now queues.old) }
        ensures other_users { KeepsOtherUsers self.now queues.old self.now queues.new }
    {
        match queues.deliver(from, index, self.user, label, Sender::User(from.number())) {
            Ok(()) => Ok(()),
            Err(_) => Err(AllocError),
        }
    }

    /// Removes the first deck of this number that is not current from the reader's queue, and
    /// returns whether there was one.
    pub fn purge(&self, queues: &mut Queues, id: u64) -> bool
        requires { self.now.user < length queues.old.users }
        ensures found { result ≡ is_some (queued_at (devices_on self.now queues.old).reader id) }
        ensures after { devices_on self.now queues.new
            ≡ with_deck_purged (devices_on self.now queues.old) id }
        ensures other_users { KeepsOtherUsers self.now queues.old self.now queues.new }
    {
        queues.purge(self.user, id).is_ok()
    }

    /// Makes the reader's current deck, if there is one, wait again: it is read from its first card
    /// next.
    pub fn put_back(&self, queues: &mut Queues)
        requires { self.now.user < length queues.old.users }
        ensures after { devices_on self.now queues.new
            ≡ with_deck_put_back (devices_on self.now queues.old) }
        ensures other_users { KeepsOtherUsers self.now queues.old self.now queues.new }
    {
        queues.put_back(self.user);
    }
}

/// Returns the index that an open file of these entries will have after so many closed ones; None
/// if it has no entry.
fn place_of(entries: &[Entry], closed: usize) -> Option<usize>
    ensures { result ≡ place_of entries.now closed }
{
    if entries.is_empty() {
        None
    } else {
        Some(closed)
    }
}

/// Returns a new copy of these cards.
///
/// # Errors
///
/// `AllocError` if memory is refused.
pub fn copy_of(alloc: Global, cards: &[Card]) -> Result<Vec<Card>, AllocError>
    ensures { IfOk result (λ copy. copy.items ≡ cards.now) }
{
    let copy = cards.to_vec(alloc)?;
    Ok(copy)
}
