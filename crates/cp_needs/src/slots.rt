//! Numbers of slots, of which few have one.
ghost use Rattle.std.specs.Prelude.{◌≡◌, ◌<◌, OnErr, OnOk, length, replicate, slice_index};
ghost use Rattle.std.specs.Prelude.{slice_set};

use std::alloc::{AllocError, Global};
use std::collections::HashMap;
use std::marker::Model;

/// The number of each of so many slots: zero until it is set. It takes room for those alone that
/// were set, so that a small program in a large storage costs little.
#[derive(Drop)]
pub struct Slots {
    count: usize,
    held: HashMap<usize, u32>,
}

impl Model for Slots {
    ghost use Rattle.std.specs.Prelude.{List, nat_eq, ℕ};
    ghost use Rattle.std.specs.HashMap.{get};
    ghost use Rattle.cp_needs.specs.Slots.{numbers};

    ghost Value = { List ℕ };

    ghost view = { λ s. numbers 0 s.count (get nat_eq s.held) };
}

impl Slots {
    /// Returns this many slots, each with the number zero. It takes no memory.
    pub fn new(alloc: Global, count: usize) -> Slots
        ensures { result ≡ replicate count 0 }
    {
        Slots {
            count,
            held: HashMap::new(alloc),
        }
    }

    /// Returns how many slots there are.
    pub fn count(&self) -> usize
        ensures { result ≡ length self.now }
    {
        self.count
    }

    /// Returns the number of a slot; zero if none was set.
    pub fn get(&self, slot: usize) -> u32
        requires { slot < length self.now }
        ensures { result ≡ slice_index self.now slot }
    {
        match self.held.get(&slot) {
            Some(number) => *number,
            None => 0,
        }
    }

    /// Sets the number of a slot, in place of the one that it has; if memory is refused, nothing
    /// changes.
    ///
    /// # Errors
    ///
    /// `AllocError` if memory is refused; nothing has changed.
    pub fn set(&mut self, slot: usize, number: u32) -> Result<(), AllocError>
        requires { slot < length self.old }
        ensures ok { OnOk result (self.new ≡ slice_set self.old slot number) }
        ensures err { OnErr result (self.new ≡ self.old) }
    {
        match self.held.insert(slot, number) {
            Ok(_) => Ok(()),
            Err(_) => Err(AllocError),
        }
    }
}
