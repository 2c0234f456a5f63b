//! The faults of a directory.
ghost use Rattle.std.specs.Prelude.{◌≡◌};

use thiserror::Error;

/// Why a directory is not read. A line's number counts from 1; it is the first faulty line, and the
/// fault is that line's first in the order of docs/FORMATS.md.
#[derive(Clone, Copy, Debug, PartialEq, Eq, Drop, Error)]
pub enum DirError {
    /// The allocator refused a growth.
    #[error("no memory is left for the directory")]
    Memory,
    /// The line's words do not have the form of their statement, or state a device before any user.
    #[error("line {0}: the operands are not those of the statement")]
    Syntax(usize),
    /// The line's first word names no statement.
    #[error("line {0}: no such statement")]
    UnknownStatement(usize),
    /// An earlier line states a user of this name.
    #[error("line {0}: an earlier line has a user of this name")]
    DuplicateUser(usize),
    /// The user has a device at this address.
    #[error("line {0}: the user has this device already")]
    DuplicateDevice(usize),
    /// The storage is not one that a user may have.
    #[error("line {0}: storage is 8K to 4096K in steps of 4K, or 1M to 4M")]
    BadStorage(usize),
    /// There is no cylinder, or one that no volume has.
    #[error("line {0}: no volume has these cylinders")]
    BadExtent(usize),
    /// The extent shares a cylinder with that of an earlier line, reported first, and not both are
    /// read-only.
    #[error("line {1}: the cylinders overlap those of line {0}")]
    Overlap(usize, usize),
    /// A limit on users or devices is passed.
    #[error("line {0}: this is past the limit, which is 64 users, 32 devices of a user and one of a kind but disks")]
    TooMany(usize),
}

/// A fault of one line.
#[derive(Clone, Copy, Debug, PartialEq, Eq, Drop)]
pub enum LineFault {
    UnknownStatement,
    Syntax,
    DuplicateUser,
    DuplicateDevice,
    BadStorage,
    BadExtent,
    /// The number of the earliest line whose extent this one overlaps.
    Overlap(usize),
    TooMany,
}

/// Why a line is not read.
#[derive(Clone, Copy, Debug, PartialEq, Eq, Drop)]
pub enum StatementError {
    /// The allocator refused a growth.
    Memory,
    /// The line's first fault.
    Fault(LineFault),
}

impl LineFault {
    ghost use Rattle.cp_directory.specs.Directories.{reported};

    /// Returns the error of a directory whose line of this number has this fault.
    pub fn at(self, line: usize) -> DirError
        ensures { result ≡ reported line self }
    {
        match self {
            LineFault::UnknownStatement => DirError::UnknownStatement(line),
            LineFault::Syntax => DirError::Syntax(line),
            LineFault::DuplicateUser => DirError::DuplicateUser(line),
            LineFault::DuplicateDevice => DirError::DuplicateDevice(line),
            LineFault::BadStorage => DirError::BadStorage(line),
            LineFault::BadExtent => DirError::BadExtent(line),
            LineFault::Overlap(first) => DirError::Overlap(first, line),
            LineFault::TooMany => DirError::TooMany(line),
        }
    }
}
