//! The files of all users.
ghost use Rattle.std.specs.Prelude.{◌≡◌, ◌≢◌, ◌↔◌, ◌+◌, ◌<◌, ◌≤◌, [], Err, None, Some, is_ok};
ghost use Rattle.std.specs.Prelude.{is_some, length, replicate, slice_get, slice_index, IfSome};
ghost use Rattle.std.specs.Prelude.{IfOk, OnOk, OnErr};
ghost use Rattle.std.specs.Option.{option_copied, option_map};
ghost use Rattle.unit_record.specs.Reader.{currents};
ghost use Rattle.cp_spool.specs.File.{closed_file};
ghost use Rattle.cp_spool.specs.Queues.{HasRoom, deck_of, file_of, files_of, no_files, purged};
ghost use Rattle.cp_spool.specs.Queues.{put_back, read_on, waiting, waiting_at, with_deck};
ghost use Rattle.cp_spool.specs.Queues.{with_files};
ghost use Rattle.cp_spool.specs.Queues.{with_place, with_printed, with_punched, without_deck};
ghost use Rattle.cp_spool.specs.Queues.{without_first};

use crate::error::SpoolError;
use crate::file::{Contents, SpoolFile};
use crate::keeping::{
    discard, empty_queues, place_reader, push_printed, push_punched, push_waiting, queue_at,
    reserve_closed, take_waiting,
};
use crate::progress::ReaderProgress;
use crate::queue::{UserQueue, Waiting};
use crate::seen::SeenDeck;
use slab::Slab;
use std::alloc::{AllocError, Global};
use std::marker::Model;
use unit_record::{Card, Entry, Sender, Target};
use user_names::UserNo;

/// The spool files of all users: the decks in their readers, and the files that their punches and
/// printers closed.
#[derive(Drop)]
pub struct Queues {
    pub(crate) files: Slab<SpoolFile>,
    pub(crate) users: Vec<UserQueue>,
}

impl Model for Queues {
    ghost use Rattle.std.specs.Prelude.{◌-◌, map};
    ghost use Rattle.slab.specs.Slab.{slab_len};
    ghost use Rattle.cp_spool.specs.Queues.{QueuesValue};
    ghost use Rattle.cp_spool.specs.Keys.{IsSound, user_files};

    ghost Value = { QueuesValue };

    ghost view = { λ q. record {
      users = map (user_files q.files) q.users.items;
      room = record {
        files = q.files.capacity - slab_len q.files;
        punched = map (λ queue. queue.punch_room) q.users.items;
        printed = map (λ queue. queue.print_room) q.users.items;
      };
    } };

    ghost invariant = { λ q. IsSound q.files q.users.items };
}

impl Queues {
    /// Returns the queues of this many users, without files.
    ///
    /// # Errors
    ///
    /// `AllocError` if memory is refused.
    pub fn new(alloc: Global, users: usize) -> Result<Queues, AllocError>
        ensures { IfOk result (λ queues. queues.users ≡ replicate users no_files) }
    {
        Ok(Queues {
            files: Slab::new(alloc),
            users: empty_queues(alloc, users)?,
        })
    }

    /// Returns how many users there are queues for.
    pub fn users(&self) -> usize
        ensures { result ≡ length self.now.users }
    {
        // Exhaustive: a new field fails to compile here.
        let Queues { files: _, users } = self;
        users.len()
    }

    /// Keeps these cards as a new file, and appends it as a deck to the queue of this user's
    /// reader.
    ///
    /// # Errors
    ///
    /// A `SpoolError`: refused memory, or no such user or file. The lists of files are as they
    /// were.
    pub fn append(
        &mut self,
        user: UserNo,
        label: u64,
        sender: Sender,
        cards: Vec<Card>,
    ) -> Result<(), SpoolError>
        ensures ok { OnOk result (self.new.users
            ≡ with_files user (with_deck
            (record { label = label; sender = sender; cards = cards.items })
            (files_of self.old.users user)) self.old.users) }
        ensures err { OnErr result (self.new.users ≡ self.old.users) }
        ensures no_user { (result ≡ Err SpoolError.NoSuchUser) ↔ (length self.old.users ≤ user) }
        ensures no_file { result ≢ Err SpoolError.NoSuchFile }
    {
        if user.index() >= self.users.len() {
            return Err(SpoolError::NoSuchUser);
        }
        match self.give(user, label, sender, cards) {
            Ok(()) => Ok(()),
            Err(_) => Err(SpoolError::Memory),
        }
    }

    /// Keeps these cards as a new file, and appends it as a deck to the reader's queue of a user
    /// who has to be there.
    fn give(
        &mut self,
        user: UserNo,
        label: u64,
        sender: Sender,
        cards: Vec<Card>,
    ) -> Result<(), AllocError>
        requires { user < length self.old.users }
        ensures ok { OnOk result (self.new.users
            ≡ with_files user (with_deck
            (record { label = label; sender = sender; cards = cards.items })
            (files_of self.old.users user)) self.old.users) }
        ensures err { OnErr result (self.new.users ≡ self.old.users) }
    {
        self.files.reserve(1)?;
        let key = self.files.vacant_key();
        push_waiting(&mut self.users, user, Waiting { label, sender, key })?;
        let to = Target::User(user.number());
        let _key = self
            .files
            .insert_reserved(SpoolFile::new(to, Contents::Cards(cards)));
        Ok(())
    }

    /// Reserves memory for one file that this user's punch closes, and for one that his printer
    /// closes.
    ///
    /// These are what LOGOFF closes: so both can be closed without memory.
    ///
    /// # Errors
    ///
    /// A `SpoolError`: refused memory, or no such user or file.
    pub fn make_room(&mut self, user: UserNo) -> Result<(), SpoolError>
        ensures users { self.new.users ≡ self.old.users }
        ensures room { OnOk result (HasRoom user self.new.room) }
        ensures no_user { (result ≡ Err SpoolError.NoSuchUser) ↔ (length self.old.users ≤ user) }
        ensures no_file { result ≢ Err SpoolError.NoSuchFile }
    {
        if user.index() >= self.users.len() {
            return Err(SpoolError::NoSuchUser);
        }
        match self.reserve(user) {
            Ok(()) => Ok(()),
            Err(_) => Err(SpoolError::Memory),
        }
    }

    /// Reserves memory for the two files that LOGOFF closes, of a user who has to be there.
    fn reserve(&mut self, user: UserNo) -> Result<(), AllocError>
        requires { user < length self.old.users }
        ensures users { self.new.users ≡ self.old.users }
        ensures room { OnOk result (HasRoom user self.new.room) }
    {
        self.files.reserve(2)?;
        reserve_closed(&mut self.users, user)?;
        Ok(())
    }

    /// Keeps these entries as a new file for this target, the last that this user's punch closed.
    ///
    /// The memory for it was reserved, and no entry is copied.
    pub fn close_punched(&mut self, user: UserNo, to: Target, entries: Vec<Entry>)
        requires files { 1 ≤ self.old.room.files }
        requires room { 1 ≤ slice_index self.old.room.punched user }
        ensures users { self.new.users
            ≡ with_files user (with_punched (file_of to entries.items)
            (files_of self.old.users user)) self.old.users }
        ensures files { self.new.room.files + 1 ≡ self.old.room.files }
        ensures printed { self.new.room.printed ≡ self.old.room.printed }
    {
        let key = self
            .files
            .insert_reserved(SpoolFile::new(to, Contents::Entries(entries)));
        push_punched(&mut self.users, user, key);
    }

    /// Keeps these entries as a new file for this target, the last that this user's printer closed.
    ///
    /// The memory for it was reserved, and no entry is copied.
    pub fn close_printed(&mut self, user: UserNo, to: Target, entries: Vec<Entry>)
        requires files { 1 ≤ self.old.room.files }
        requires room { 1 ≤ slice_index self.old.room.printed user }
        ensures users { self.new.users
            ≡ with_files user (with_printed (file_of to entries.items)
            (files_of self.old.users user)) self.old.users }
        ensures files { self.new.room.files + 1 ≡ self.old.room.files }
        ensures punched { self.new.room.punched ≡ self.old.room.punched }
    {
        let key = self
            .files
            .insert_reserved(SpoolFile::new(to, Contents::Entries(entries)));
        push_printed(&mut self.users, user, key);
    }

    /// Appends the file of this index that the punch of `from` closed to the reader's queue of
    /// `to`, as a deck with this label and this sender.
    ///
    /// No card is copied, and the file stays among the closed ones.
    ///
    /// # Errors
    ///
    /// A `SpoolError`: refused memory, or no such user or file. The lists of files are as they
    /// were.
    pub fn deliver(
        &mut self,
        from: UserNo,
        index: usize,
        to: UserNo,
        label: u64,
        sender: Sender,
    ) -> Result<(), SpoolError>
        ensures ok { OnOk result (self.new.users
            ≡ with_files to (with_deck
            (deck_of (files_of self.old.users from).punched index label sender)
            (files_of self.old.users to)) self.old.users) }
        ensures err { OnErr result (self.new.users ≡ self.old.users) }
        ensures no_user { (result ≡ Err SpoolError.NoSuchUser) ↔ (length self.old.users ≤ to) }
        ensures no_file { result ≡ Err SpoolError.NoSuchFile
            → length (files_of self.old.users from).punched ≤ index }
    {
        if to.index() >= self.users.len() {
            return Err(SpoolError::NoSuchUser);
        }
        if index >= self.punched_count(from) {
            return Err(SpoolError::NoSuchFile);
        }
        match self.send(from, index, to, label, sender) {
            Ok(()) => Ok(()),
            Err(_) => Err(SpoolError::Memory),
        }
    }

    /// Appends a file that the punch of `from` closed to the reader's queue of `to`, as a deck; the
    /// file and both users have to be there.
    fn send(
        &mut self,
        from: UserNo,
        index: usize,
        to: UserNo,
        label: u64,
        sender: Sender,
    ) -> Result<(), AllocError>
        requires index { index < length (files_of self.old.users from).punched }
        requires to { to < length self.old.users }
        ensures ok { OnOk result (self.new.users
            ≡ with_files to (with_deck
            (deck_of (files_of self.old.users from).punched index label sender)
            (files_of self.old.users to)) self.old.users) }
        ensures err { OnErr result (self.new.users ≡ self.old.users) }
    {
        let key = match queue_at(&self.users, from).punched(index) {
            Some(key) => key,
            None => unreachable!(),
        };
        push_waiting(&mut self.users, to, Waiting { label, sender, key })?;
        Ok(())
    }

    /// Removes from the queue of this user's reader the first deck of this label that is not
    /// current, or returns an error if there is none.
    ///
    /// # Errors
    ///
    /// A `SpoolError`: refused memory, or no such user or file. The lists of files are as they
    /// were.
    pub fn purge(&mut self, user: UserNo, label: u64) -> Result<(), SpoolError>
        ensures found { is_ok result ≡ is_some (waiting_at (files_of self.old.users user) label) }
        ensures after { self.new.users
            ≡ with_files user (purged (waiting_at (files_of self.old.users user) label)
            (files_of self.old.users user)) self.old.users }
        ensures err { OnErr result (self.new.users ≡ self.old.users) }
        ensures no_user { (result ≡ Err SpoolError.NoSuchUser) ↔ (length self.old.users ≤ user) }
        ensures memory { result ≢ Err SpoolError.Memory }
    {
        if user.index() >= self.users.len() {
            return Err(SpoolError::NoSuchUser);
        }
        match self.waiting_at(user, label) {
            Some(index) => {
                self.take_out(user, index);
                Ok(())
            }
            None => Err(SpoolError::NoSuchFile),
        }
    }

    /// Returns the first deck of this label that is not current in the queue of this user's reader,
    /// if there is one.
    pub fn waiting(&self, user: UserNo, label: u64) -> Option<SeenDeck<'_>>
        ensures { result ≡ waiting (files_of self.now.users user) label }
    {
        let index = self.waiting_at(user, label)?;
        match self.deck(user, index) {
            Some(deck) => Some(deck),
            None => unreachable!(),
        }
    }

    /// Returns the index of the first deck of this label that is not current in this user's queue,
    /// if there is one.
    fn waiting_at(&self, user: UserNo, label: u64) -> Option<usize>
        ensures value { result ≡ waiting_at (files_of self.now.users user) label }
        ensures inside { IfSome result
            (λ index. index < length (files_of self.now.users user).decks) }
    {
        for index in self.currents(user)..self.decks(user) {
            let Some(deck) = self.deck(user, index) else {
                return None;
            };
            if deck.label() == label {
                return Some(index);
            }
        }
        None
    }

    /// Returns how many of a user's decks are current: 1 or 0.
    fn currents(&self, user: UserNo) -> usize
        ensures { result ≡ currents (files_of self.now.users user).place }
    {
        match self.cards_read(user) {
            None => 0,
            Some(_) => 1,
        }
    }

    /// Returns how many cards of this user's current deck were read; None if he has none, or is not
    /// there.
    pub fn cards_read(&self, user: UserNo) -> Option<usize>
        ensures { result ≡ (files_of self.now.users user).place }
    {
        if user.index() < self.users.len() {
            queue_at(&self.users, user).place()
        } else {
            None
        }
    }

    /// Returns how many decks the queue of a user's reader has, a current one included; 0 if he is
    /// not there.
    pub fn decks(&self, user: UserNo) -> usize
        ensures { result ≡ length (files_of self.now.users user).decks }
    {
        if user.index() < self.users.len() {
            queue_at(&self.users, user).len()
        } else {
            0
        }
    }

    /// Returns the deck of this index in the queue of a user's reader, if there is one; a current
    /// one is the first.
    pub fn deck(&self, user: UserNo, index: usize) -> Option<SeenDeck<'_>>
        ensures value { result ≡ slice_get (files_of self.now.users user).decks index }
        ensures inside { IfSome result (λ _. index < length (files_of self.now.users user).decks) }
        ensures fits { IfSome result (λ _. index < usize.MAX) }
    {
        if user.index() >= self.users.len() {
            return None;
        }
        let waiting = queue_at(&self.users, user).deck(index)?;
        match self.files.get(waiting.key) {
            Some(file) => Some(SeenDeck::new(waiting.label, waiting.sender, file)),
            None => None,
        }
    }

    /// Returns the first deck in the queue of this user's reader, from which it feeds: it is
    /// current, or is so once a card is read.
    ///
    /// # Errors
    ///
    /// A `SpoolError`: refused memory, or no such user or file.
    pub fn next_deck(&self, user: UserNo) -> Result<SeenDeck<'_>, SpoolError>
        ensures ok { IfOk result
            (λ deck. slice_get (files_of self.now.users user).decks 0 ≡ Some deck) }
        ensures no_user { (result ≡ Err SpoolError.NoSuchUser) ↔ (length self.now.users ≤ user) }
        ensures no_file { result ≡ Err SpoolError.NoSuchFile
            → slice_get (files_of self.now.users user).decks 0 ≡ None }
        ensures memory { result ≢ Err SpoolError.Memory }
    {
        if user.index() >= self.users.len() {
            return Err(SpoolError::NoSuchUser);
        }
        match self.deck(user, 0) {
            Some(deck) => Ok(deck),
            None => Err(SpoolError::NoSuchFile),
        }
    }

    /// Returns how many files this user's punch closed; 0 if there is no such user.
    pub fn punched_count(&self, user: UserNo) -> usize
        ensures { result ≡ length (files_of self.now.users user).punched }
    {
        if user.index() < self.users.len() {
            queue_at(&self.users, user).punched_count()
        } else {
            0
        }
    }

    /// Returns how many files this user's printer closed; 0 if there is no such user.
    pub fn printed_count(&self, user: UserNo) -> usize
        ensures { result ≡ length (files_of self.now.users user).printed }
    {
        if user.index() < self.users.len() {
            queue_at(&self.users, user).printed_count()
        } else {
            0
        }
    }

    /// Returns the file of this index among those that this user's punch closed, if there is one.
    pub fn punched(&self, user: UserNo, index: usize) -> Option<&SpoolFile>
        ensures { option_map closed_file (option_copied result)
            ≡ slice_get (files_of self.now.users user).punched index }
    {
        if user.index() >= self.users.len() {
            return None;
        }
        match queue_at(&self.users, user).punched(index) {
            Some(key) => self.files.get(key),
            None => None,
        }
    }

    /// Returns the file of this index among those that this user's printer closed, if there is one.
    pub fn printed(&self, user: UserNo, index: usize) -> Option<&SpoolFile>
        ensures { option_map closed_file (option_copied result)
            ≡ slice_get (files_of self.now.users user).printed index }
    {
        if user.index() >= self.users.len() {
            return None;
        }
        match queue_at(&self.users, user).printed(index) {
            Some(key) => self.files.get(key),
            None => None,
        }
    }

    /// Makes this user's current deck, if he has one, wait again: it is read from its first card
    /// next.
    pub fn put_back(&mut self, user: UserNo)
        ensures { self.new.users
            ≡ with_files user (put_back (files_of self.old.users user)) self.old.users }
    {
        self.set_place(user, None);
    }

    /// Sets how many cards of this user's first deck were read, if there is such a user; with None
    /// it is not current.
    pub(crate) fn set_place(&mut self, user: UserNo, place: Option<usize>)
        ensures { self.new.users
            ≡ with_files user (with_place place (files_of self.old.users user)) self.old.users }
    {
        if user.index() < self.users.len() {
            place_reader(&mut self.users, user, place);
        }
    }

    /// Removes the decks that a reader of this user has read to their ends, and sets how many cards
    /// of the next one it has read.
    pub fn remove_read(&mut self, user: UserNo, progress: ReaderProgress)
        ensures { self.new.users ≡ with_files user
            (read_on progress.ended progress.place (files_of self.old.users user)) self.old.users }
    {
        for _done in 0..progress.ended {
            self.end_deck(user);
        }
        self.set_place(user, progress.place);
    }

    /// Removes the first deck of this user from the queue, if there is one; one that was given is
    /// dropped.
    fn end_deck(&mut self, user: UserNo)
        ensures { self.new.users
            ≡ with_files user (without_first (files_of self.old.users user)) self.old.users }
    {
        if self.decks(user) > 0 {
            self.take_out(user, 0);
        }
    }

    /// Removes the deck of this index from the queue of this user's reader; one that was given is
    /// dropped.
    fn take_out(&mut self, user: UserNo, index: usize)
        requires { index < length (files_of self.old.users user).decks }
        ensures { self.new.users
            ≡ with_files user (without_deck index (files_of self.old.users user)) self.old.users }
    {
        let key = take_waiting(&mut self.users, user, index);
        discard(&mut self.files, key);
    }
}
