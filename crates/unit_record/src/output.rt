//! What a punch or a printer has made.
ghost use Rattle.std.specs.Prelude.{◌≡◌, ◌<◌, ◌≤◌, [], ◌∷◌, ◌++◌, OnOk};

use crate::record::RecordBytes;
use std::alloc::{AllocError, Global};
use std::marker::Model;
use std::mem;

/// For whom a closed file is.
#[derive(Clone, Copy, Debug, PartialEq, Eq)]
pub enum Target {
    /// The operator.
    System,
    /// A user, by his number in the directory.
    User(u8),
}

/// What one command punched or printed: the command's code, and its bytes.
#[derive(Drop)]
pub struct Entry {
    code: u8,
    bytes: RecordBytes,
}

impl Model for Entry {
    ghost use Rattle.unit_record.specs.Output.{EntryValue};

    ghost Value = { EntryValue };

    ghost view = { λ e. record { code = e.code; bytes = e.bytes } };
}

impl Entry {
    /// Returns an entry with this command code and these bytes.
    pub fn new(code: u8, bytes: RecordBytes) -> Entry
        ensures code { result.code ≡ code }
        ensures bytes { result.bytes ≡ bytes }
    {
        Entry { code, bytes }
    }

    /// Returns the code of the command that made the entry.
    pub fn code(&self) -> u8
        ensures { result ≡ self.now.code }
    {
        // Exhaustive: a new field fails to compile here.
        let Entry { code, bytes: _ } = self;
        *code
    }

    /// Borrows the bytes of the entry, as they were in storage.
    pub fn bytes(&self) -> &[u8]
        ensures { result.now ≡ self.now.bytes }
    {
        self.bytes.as_slice()
    }
}

/// An open file.
#[derive(Drop)]
pub(crate) struct Output {
    entries: Vec<Entry>,
}

impl Model for Output {
    ghost use Rattle.std.specs.Prelude.{◌-◌, vec_len, vec_capacity};
    ghost use Rattle.unit_record.specs.Output.{OutputValue};

    ghost Value = { OutputValue };

    ghost view = { λ o. record {
      entries = o.entries.items;
      room = vec_capacity o.entries - vec_len o.entries;
    } };
}

impl Output {
    /// Returns an output whose open file has no entry.
    pub fn new(alloc: Global) -> Output
        ensures { result.entries ≡ [] }
    {
        Output {
            entries: Vec::new(alloc),
        }
    }

    /// Returns an output whose open file has these entries.
    pub fn of(entries: Vec<Entry>) -> Output
        ensures { result.entries ≡ entries.items }
    {
        Output { entries }
    }

    /// Makes room in the open file for one more entry.
    ///
    /// # Errors
    ///
    /// `AllocError` if memory is refused; the entries stay.
    pub fn reserve(&mut self) -> Result<(), AllocError>
        ensures entries { self.new.entries ≡ self.old.entries }
        ensures room { OnOk result (0 < self.new.room) }
        ensures kept { self.old.room ≤ self.new.room }
    {
        self.entries.reserve(1)
    }

    /// Appends an entry to the open file, which has to have room for it.
    ///
    /// This takes no memory.
    pub fn add(&mut self, entry: Entry)
        requires { 0 < self.old.room }
        ensures { self.new.entries ≡ self.old.entries ++ entry ∷ [] }
    {
        self.entries.push_reserved(entry);
    }

    /// Removes all entries from the open file and returns them.
    ///
    /// This takes no memory.
    pub fn take(&mut self, alloc: Global) -> Vec<Entry>
        ensures taken { result.items ≡ self.old.entries }
        ensures entries { self.new.entries ≡ [] }
    {
        mem::replace(&mut self.entries, Vec::new(alloc))
    }

    /// Borrows the entries of the open file, in order.
    pub fn entries(&self) -> &[Entry]
        ensures { result.now ≡ self.now.entries }
    {
        // Exhaustive: a new field fails to compile here.
        let Output { entries } = self;
        entries.as_slice()
    }
}
