//! The size of a user's storage.
ghost use Rattle.std.specs.Prelude.{◌≡◌, ◌≤◌, ◌*◌, Option, Some, None};
ghost use Rattle.cp_directory.specs.Sizes.{pages_of};

use std::marker::Model;

/// The size of a user's storage: 2 to 1024 pages of 4096 bytes.
#[derive(Clone, Copy, Debug, PartialEq, Eq)]
pub struct StorageSize {
    pages: u32,
}

impl Model for StorageSize {
    ghost use Rattle.std.specs.Prelude.{◌≤◌, ℕ};

    ghost Value = { ℕ };

    ghost view = { λ s. s.pages };

    ghost invariant = { λ s. (2 ≤ s.pages) × (s.pages ≤ 1024) };

    ghost inverse = { λ pages. record { pages = pages } };
}

impl StorageSize {
    /// Returns the size of this many kilobytes: 8 to 4096, in steps of 4; None of another number.
    pub fn from_kilobytes(kilobytes: u32) -> Option<StorageSize>
        ensures { result ≡ pages_of kilobytes }
    {
        if kilobytes % 4 == 0 && 8 <= kilobytes && kilobytes <= 4096 {
            Some(StorageSize {
                pages: kilobytes / 4,
            })
        } else {
            None
        }
    }

    /// Returns how many pages of 4096 bytes the storage has.
    pub fn pages(self) -> u32
        ensures pages { result ≡ self }
        ensures least { 2 ≤ result }
        ensures most { result ≤ 1024 }
    {
        self.pages
    }

    /// Returns how many blocks of 2048 bytes the storage has, each with a key of its own.
    pub fn blocks(self) -> u32
        ensures { result ≡ 2 * self }
    {
        2 * self.pages
    }

    /// Returns how many bytes the storage has.
    pub fn bytes(self) -> u32
        ensures { result ≡ 4096 * self }
    {
        4096 * self.pages
    }
}
