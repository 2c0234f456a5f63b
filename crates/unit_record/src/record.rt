//! A record: what one command gives or takes.
ghost use Rattle.std.specs.Prelude.{◌≡◌, ◌+◌, ◌-◌, ◌<◌, ◌≤◌, ◌==◌, [], ◌∷◌, ◌++◌, length};
ghost use Rattle.std.specs.Prelude.{replicate, slice_index};

use arrayvec::ArrayVec;
use std::marker::Model;

/// The most bytes of a record.
pub const RECORD_LENGTH: usize = 132;

/// At most [`RECORD_LENGTH`] bytes: a card, or a line of a printer or a console.
#[derive(Drop)]
pub struct RecordBytes {
    bytes: ArrayVec<u8, 132>,
}

impl Model for RecordBytes {
    ghost use Rattle.std.specs.Prelude.{ℕ, List, ◌≤◌, length};

    ghost Value = { List ℕ };

    ghost view = { λ r. r.bytes.items };

    ghost invariant = { λ r. length r.bytes.items ≤ 132 };
}

impl RecordBytes {
    /// Returns a record without bytes.
    pub fn new() -> RecordBytes
        ensures { result ≡ [] }
    {
        RecordBytes {
            bytes: ArrayVec::new(),
        }
    }

    /// Returns a record of these bytes, of which there are at most 132.
    pub fn of(bytes: &[u8]) -> RecordBytes
        requires { length bytes.now ≤ RECORD_LENGTH }
        ensures { result ≡ bytes.now }
    {
        let mut made = RecordBytes::new();
        for byte in bytes {
            made.push(*byte);
        }
        made
    }

    /// Returns how many bytes the record has.
    pub fn len(&self) -> usize
        ensures value { result ≡ length self.now }
        ensures bound { result ≤ RECORD_LENGTH }
    {
        self.bytes.len()
    }

    /// Returns whether the record has no byte.
    pub fn is_empty(&self) -> bool
        ensures { result ≡ (length self.now == 0) }
    {
        self.bytes.is_empty()
    }

    /// Appends a byte to the record, which has to have room for it.
    pub fn push(&mut self, byte: u8)
        requires { length self.old < RECORD_LENGTH }
        ensures { self.new ≡ self.old ++ byte ∷ [] }
    {
        self.bytes.push(byte);
    }

    /// Appends this byte until the record has this length, unless it has that or more already.
    pub fn pad_to(&mut self, wanted: usize, byte: u8)
        requires { wanted ≤ RECORD_LENGTH }
        ensures { self.new ≡ self.old ++ replicate (wanted - length self.old) byte }
    {
        let missing = wanted.saturating_sub(self.len());
        for _added in 0..missing {
            self.push(byte);
        }
    }

    /// Returns the byte at this index, or zero past the end.
    pub fn byte(&self, index: usize) -> u8
        ensures { result ≡ slice_index self.now index }
    {
        match self.bytes.as_slice().get(index) {
            Some(byte) => *byte,
            None => 0,
        }
    }

    /// Borrows the bytes of the record.
    pub fn as_slice(&self) -> &[u8]
        ensures value { result.now ≡ self.now }
        ensures bound { length result.now ≤ RECORD_LENGTH }
    {
        self.bytes.as_slice()
    }
}
