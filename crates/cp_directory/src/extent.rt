//! Extents: cylinders of a volume that one minidisk has.
ghost use Rattle.std.specs.Prelude.{◌≡◌, ◌+◌, ◌<◌, ◌≤◌, Option, Some, None, if◌then◌else◌};
ghost use Rattle.cp_directory.specs.Extents.{conflicts, extent_of, is_read_only, is_volser};
ghost use Rattle.cp_directory.specs.Extents.{mode_of, padded};
ghost use Rattle.cp_directory.specs.Extents.{shares_cylinder};

use crate::name::is_letter_or_digit;
use std::marker::Model;

/// The most cylinders of a volume.
pub const MOST_CYLINDERS: u32 = 808;

/// Whether a minidisk may be written to.
#[derive(Clone, Copy, Debug, PartialEq, Eq)]
pub enum DiskMode {
    ReadOnly,
    Writable,
}

impl DiskMode {
    /// Returns the mode that a word spells: `R` is read-only, `W` writable; None of another word.
    pub fn new(word: &[u8]) -> Option<DiskMode>
        ensures { result ≡ mode_of word.now }
    {
        match word {
            b"R" => Some(DiskMode::ReadOnly),
            b"W" => Some(DiskMode::Writable),
            _ => None,
        }
    }

    /// Returns whether a minidisk of this mode is only read.
    pub fn is_read_only(self) -> bool
        ensures { result ≡ is_read_only self }
    {
        self == DiskMode::ReadOnly
    }
}

/// The serial number of a volume: one to six of `A` to `Z` and `0` to `9`.
#[derive(Clone, Copy, Debug, PartialEq, Eq)]
pub struct Volser {
    bytes: [u8; 6],
    len: usize,
}

impl Model for Volser {
    ghost use Rattle.std.specs.Prelude.{◌≤◌, ◌≡◌, ℕ, List, length, take, true};
    ghost use Rattle.cp_directory.specs.Extents.{is_volser, padded};

    ghost Value = { List ℕ };

    ghost view = { λ v. take v.len v.bytes };

    ghost invariant = { λ v. (v.len ≤ 6)
        × (is_volser (take v.len v.bytes) ≡ true)
        × (v.bytes ≡ padded (take v.len v.bytes)) };

    ghost use Rattle.cp_directory.specs.Volsers.{given_back};

    ghost inverse = { λ word. record { bytes = padded word; len = length word } };

    ghost inverse_ok = { given_back };
}

impl Volser {
    ghost use Rattle.std.specs.Prelude.{true};

    /// Returns the serial number that a word spells; None if it is not one to six upper-case
    /// letters and digits.
    pub fn new(word: &[u8]) -> Option<Volser>
        ensures { result ≡ (if is_volser word.now then Some word.now else None) }
    {
        if !is_volser(word) {
            return None;
        }
        let mut bytes = [b' '; 6];
        bytes[..word.len()].copy_from_slice(word);
        Some(Volser {
            bytes,
            len: word.len(),
        })
    }

    /// Returns the characters of the volume's serial number.
    pub fn as_bytes(&self) -> &[u8]
        ensures bytes { result.now ≡ self.now }
        ensures lawful { is_volser result.now ≡ true }
    {
        &self.bytes[..self.len]
    }

    /// Returns the six characters of the serial number as they are on the volume, filled with
    /// blanks.
    pub fn padded(&self) -> [u8; 6]
        ensures { result ≡ padded self.now }
    {
        self.bytes
    }
}

/// Returns whether a word is one to six characters of `A` to `Z` and `0` to `9`.
fn is_volser(word: &[u8]) -> bool
    ensures { result ≡ is_volser word.now }
{
    if word.is_empty() || word.len() > 6 {
        return false;
    }
    word.iter().all(|c| is_letter_or_digit(*c))
}

/// An extent as it is spelled: of any numbers of four digits.
#[derive(Drop)]
pub struct SpelledExtent {
    pub volser: Volser,
    pub start: u32,
    pub count: u32,
    pub mode: DiskMode,
}

impl Model for SpelledExtent {
    ghost use Rattle.cp_directory.specs.Extents.{Extent};

    ghost Value = { Extent };

    ghost view = { λ e. record {
      volser = e.volser;
      start = e.start;
      count = e.count;
      mode = e.mode;
    } };
}

/// At least one cylinder of a volume, of those with the numbers 0 to 807, and whether they may be
/// written to.
#[derive(Clone, Copy, Debug, PartialEq, Eq)]
pub struct DiskExtent {
    volser: Volser,
    start: u16,
    count: u16,
    mode: DiskMode,
}

impl Model for DiskExtent {
    ghost use Rattle.std.specs.Prelude.{◌+◌, ◌<◌, ◌≤◌};
    ghost use Rattle.cp_directory.specs.Extents.{Extent};

    ghost Value = { Extent };

    ghost view = { λ e. record {
      volser = e.volser;
      start = e.start;
      count = e.count;
      mode = e.mode;
    } };

    ghost invariant = { λ e. (0 < e.count) × (e.start + e.count ≤ 808) };

    ghost inverse = { λ e. record {
      volser = e.volser;
      start = e.start;
      count = e.count;
      mode = e.mode;
    } };
}

impl DiskExtent {
    /// Returns the extent that is spelled; None if it has no cylinder, or one past 807.
    pub fn new(spelled: SpelledExtent) -> Option<DiskExtent>
        ensures { result ≡ extent_of spelled }
    {
        let SpelledExtent {
            volser,
            start,
            count,
            mode,
        } = spelled;
        if count == 0 || count > MOST_CYLINDERS || start > MOST_CYLINDERS - count {
            return None;
        }
        Some(DiskExtent {
            volser,
            start: start as u16,
            count: count as u16,
            mode,
        })
    }

    /// Returns the serial number of the volume.
    pub fn volser(&self) -> Volser
        ensures { result ≡ self.now.volser }
    {
        self.volser
    }

    /// Returns the first cylinder of the extent.
    pub fn start(&self) -> u16
        ensures value { result ≡ self.now.start }
        ensures within { result + self.now.count ≤ MOST_CYLINDERS }
    {
        self.start
    }

    /// Returns how many cylinders the extent has.
    pub fn count(&self) -> u16
        ensures value { result ≡ self.now.count }
        ensures some { 0 < result }
        ensures within { self.now.start + result ≤ MOST_CYLINDERS }
    {
        self.count
    }

    /// Returns whether the cylinders of the extent may be written to.
    pub fn mode(&self) -> DiskMode
        ensures { result ≡ self.now.mode }
    {
        // Exhaustive: a new field fails to compile here.
        let DiskExtent {
            volser: _,
            start: _,
            count: _,
            mode,
        } = self;
        *mode
    }

    /// Returns whether two extents are of one volume and share a cylinder, and not both are
    /// read-only.
    pub fn conflicts_with(&self, other: &DiskExtent) -> bool
        ensures { result ≡ conflicts self.now other.now }
    {
        self.volser.as_bytes() == other.volser.as_bytes()
            && self.shares_cylinder(other)
            && !(self.mode.is_read_only() && other.mode.is_read_only())
    }

    /// Returns whether both extents have a cylinder of the same number, on whichever volumes.
    fn shares_cylinder(&self, other: &DiskExtent) -> bool
        ensures { result ≡ shares_cylinder self.now other.now }
    {
        let first = self.start.max(other.start);
        let end = (self.start + self.count).min(other.start + other.count);
        first < end
    }
}
