//! What is kept of one user: the queue of his reader, and what his punch and his printer closed.
ghost use Rattle.std.specs.Prelude.{◌≡◌, ◌<◌, ◌≤◌, [], ◌∷◌, ◌++◌, length, map, slice_get};
ghost use Rattle.std.specs.Prelude.{slice_index_or, None, IfSome, OnOk, OnErr};
ghost use Rattle.unit_record.specs.Reader.{currents};
ghost use Rattle.cp_spool.specs.Forgotten.{has_key};
ghost use Rattle.cp_spool.specs.Keys.{no_keys, with_printed_key, with_punched_key, with_waiting};
ghost use Rattle.cp_spool.specs.Keys.{without_waiting};

use std::alloc::{AllocError, Global};
use std::collections::VecDeque;
use std::marker::Model;
use unit_record::Sender;

/// A deck in a queue: its label, from whom it comes, and the key of its file.
#[derive(Clone, Copy)]
pub(crate) struct Waiting {
    pub(crate) label: u64,
    pub(crate) sender: Sender,
    pub(crate) key: usize,
}

/// One user's decks, in order, and how many cards of the first were read, None where it is not
/// current; and the keys of the files that his punch and his printer closed.
#[derive(Drop)]
pub(crate) struct UserQueue {
    decks: VecDeque<Waiting>,
    place: Option<usize>,
    punched: Vec<usize>,
    printed: Vec<usize>,
}

impl Model for UserQueue {
    ghost use Rattle.std.specs.Prelude.{◌-◌, vec_capacity, vec_len};
    ghost use Rattle.cp_spool.specs.Keys.{QueueKeys};

    ghost Value = { QueueKeys };

    ghost view = { λ q. record {
      decks = q.decks.items;
      place = q.place;
      punched = q.punched.items;
      printed = q.printed.items;
      punch_room = vec_capacity q.punched - vec_len q.punched;
      print_room = vec_capacity q.printed - vec_len q.printed;
    } };
}

impl UserQueue {
    /// Returns the queue of a user who has no decks and no closed files.
    pub(crate) fn new(alloc: Global) -> UserQueue
        ensures decks { result.decks ≡ [] }
        ensures place { result.place ≡ None }
        ensures punched { result.punched ≡ [] }
        ensures printed { result.printed ≡ [] }
    {
        UserQueue {
            decks: VecDeque::new(alloc),
            place: None,
            punched: Vec::new(alloc),
            printed: Vec::new(alloc),
        }
    }

    /// Appends a deck to the queue of the reader.
    pub(crate) fn push(&mut self, waiting: Waiting) -> Result<(), AllocError>
        ensures ok { OnOk result (self.new ≡ with_waiting waiting self.old) }
        ensures err { OnErr result (self.new ≡ self.old) }
    {
        self.decks.push_back(waiting)?;
        Ok(())
    }

    /// Reserves memory for the key of one more file that the punch closes, and of one that the
    /// printer closes.
    pub(crate) fn reserve(&mut self) -> Result<(), AllocError>
        ensures rest { self.new ≡ record
            self.old { punch_room = self.new.punch_room; print_room = self.new.print_room } }
        ensures punched { OnOk result (1 ≤ self.new.punch_room) }
        ensures printed { OnOk result (1 ≤ self.new.print_room) }
    {
        self.punched.reserve(1)?;
        self.printed.reserve(1)
    }

    /// Appends the key of a file that the punch closed, for which memory was reserved.
    pub(crate) fn push_punched(&mut self, key: usize)
        requires { 1 ≤ self.old.punch_room }
        ensures { self.new ≡ with_punched_key key self.old }
    {
        self.punched.push_reserved(key);
    }

    /// Appends the key of a file that the printer closed, for which memory was reserved.
    pub(crate) fn push_printed(&mut self, key: usize)
        requires { 1 ≤ self.old.print_room }
        ensures { self.new ≡ with_printed_key key self.old }
    {
        self.printed.push_reserved(key);
    }

    /// Removes the deck of this index from the queue of the reader, and returns the key of its
    /// file.
    pub(crate) fn remove(&mut self, index: usize) -> usize
        requires { index < length self.old.decks }
        ensures key { result ≡ slice_index_or (map (λ deck. deck.key) self.old.decks) index 0 }
        ensures after { self.new ≡ without_waiting index self.old }
    {
        match self.decks.remove(index) {
            // Exhaustive: a new field fails to compile here.
            Some(
                Waiting {
                    label: _,
                    sender: _,
                    key,
                },
            ) => key,
            None => unreachable!(),
        }
    }

    /// Sets how many cards of the first deck were read; with None it is not current.
    pub(crate) fn set_place(&mut self, place: Option<usize>)
        ensures { self.new ≡ record self.old { place = place } }
    {
        self.place = place;
    }

    /// Returns how many cards of the first deck were read; None if it is not current.
    pub(crate) fn place(&self) -> Option<usize>
        ensures { result ≡ self.now.place }
    {
        // Exhaustive: a new field fails to compile here.
        let UserQueue {
            decks: _,
            place,
            punched: _,
            printed: _,
        } = self;
        *place
    }

    /// Returns how many decks the queue of the reader has, a current one included.
    pub(crate) fn len(&self) -> usize
        ensures { result ≡ length self.now.decks }
    {
        self.decks.len()
    }

    /// Returns the deck of this index in the queue of the reader, if there is one.
    pub(crate) fn deck(&self, index: usize) -> Option<Waiting>
        ensures value { result ≡ slice_get self.now.decks index }
        ensures inside { IfSome result (λ _. index < length self.now.decks) }
        ensures fits { IfSome result (λ _. index < usize.MAX) }
    {
        if index < self.decks.len() {
            self.decks.get(index).copied()
        } else {
            None
        }
    }

    /// Returns whether a deck in the queue of the reader has the file of this key.
    pub(crate) fn has_key(&self, key: usize) -> bool
        ensures { result ≡ has_key key self.now }
    {
        for index in 0..self.len() {
            let Some(deck) = self.deck(index) else {
                return false;
            };
            if deck.key == key {
                return true;
            }
        }
        false
    }

    /// Returns the key of the file of this index among those that the punch closed, if there is
    /// one.
    pub(crate) fn punched(&self, index: usize) -> Option<usize>
        ensures value { result ≡ slice_get self.now.punched index }
        ensures inside { IfSome result (λ _. index < length self.now.punched) }
    {
        self.punched.get(index).copied()
    }

    /// Returns the key of the file of this index among those that the printer closed, if there is
    /// one.
    pub(crate) fn printed(&self, index: usize) -> Option<usize>
        ensures value { result ≡ slice_get self.now.printed index }
        ensures inside { IfSome result (λ _. index < length self.now.printed) }
    {
        self.printed.get(index).copied()
    }

    /// Returns how many files the punch closed.
    pub(crate) fn punched_count(&self) -> usize
        ensures { result ≡ length self.now.punched }
    {
        self.punched.len()
    }

    /// Returns how many files the printer closed.
    pub(crate) fn printed_count(&self) -> usize
        ensures { result ≡ length self.now.printed }
    {
        self.printed.len()
    }
}
