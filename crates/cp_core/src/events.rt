//! Why the system refuses an event, and why it was not booted.

use cp_directory::Volser;
use s370_num::DevAddr;
use thiserror::Error;
use user_names::UserNo;

/// Why an event was refused.
#[derive(Debug, Drop, Error, PartialEq, Eq)]
pub enum CpError {
    /// A growth was refused. The system is spent from then on.
    #[error("no memory is left")]
    Memory,
    /// The system is spent.
    #[error("the system is spent")]
    Spent,
    /// The directory has no such user. Nothing has happened.
    #[error("the directory has no such user")]
    NoSuchUser,
    /// The directory gives the user no device of this address, or has no user whose reader could
    /// get the deck that is to be moved. Nothing has happened.
    #[error("the user has no such device, or the deck no such receiver")]
    NoSuchDevice,
}

/// Why a system was not booted.
#[derive(Debug, Drop, Error, PartialEq, Eq)]
pub enum BootError {
    /// A growth was refused.
    #[error("no memory is left")]
    Memory,
    /// A system has at least 16 frames.
    #[error("fewer than 16 frames")]
    TooFewFrames,
    /// Two volumes have one serial number.
    #[error("two volumes have one serial number")]
    DuplicateVolume,
    /// There is no volume of this serial number, of which a user has a minidisk.
    #[error("a volume of the directory is not there")]
    NoVolume(Volser),
    /// The minidisk of this user, at this address, ends past the last cylinder of its volume.
    #[error("a minidisk ends past the last cylinder of its volume")]
    ExtentPastEnd(UserNo, DevAddr),
    /// Two devices of a user have one address.
    #[error("two devices of a user have one address")]
    DuplicateDevice,
}
