//! Bytes that a device gives.
ghost use Rattle.std.specs.Prelude.{◌≡◌, ◌∷◌, [], drop, slice_index, length};

use crate::record::RecordBytes;
use std::marker::Model;

/// The bytes of a record that are still to be given.
#[derive(Drop)]
pub struct Outgoing {
    bytes: RecordBytes,
    given: usize,
}

impl Model for Outgoing {
    ghost use Rattle.std.specs.Prelude.{ℕ, List, drop, length, ◌≤◌};

    ghost Value = { List ℕ };

    ghost view = { λ o. drop o.given o.bytes };

    ghost invariant = { λ o. o.given ≤ length o.bytes };
}

impl Outgoing {
    /// Returns a buffer with no byte to give.
    pub fn new() -> Outgoing
        ensures { result ≡ [] }
    {
        Outgoing {
            bytes: RecordBytes::new(),
            given: 0,
        }
    }

    /// Returns a buffer that gives the bytes of this record, from its first on.
    pub fn of(bytes: RecordBytes) -> Outgoing
        ensures { result ≡ bytes }
    {
        Outgoing { bytes, given: 0 }
    }

    /// Returns a buffer with a copy of the bytes that are left to give.
    pub fn copy(&self) -> Outgoing
        ensures { result ≡ self.now }
    {
        Outgoing::of(RecordBytes::of(&self.bytes.as_slice()[self.given..]))
    }

    /// Borrows the bytes that are left to give.
    pub(crate) fn left(&self) -> &[u8]
        ensures { result.now ≡ self.now }
    {
        // Exhaustive: a new field fails to compile here.
        let Outgoing { bytes, given } = self;
        &bytes.as_slice()[*given..]
    }

    /// Returns how many bytes are left to give.
    pub fn len(&self) -> usize
        ensures { result ≡ length self.now }
    {
        self.bytes.len() - self.given
    }

    /// Returns the next byte and moves on past it, or returns zero if none is left.
    pub fn give(&mut self) -> u8
        ensures byte { result ≡ slice_index self.old 0 }
        ensures after { self.new ≡ drop 1 self.old }
    {
        let byte = self.bytes.byte(self.given);
        if self.given < self.bytes.len() {
            self.given += 1;
        }
        byte
    }
}
