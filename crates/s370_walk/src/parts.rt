//! What channel, storage and devices hand to each other, and where a channel program is.

use crate::bits::{ChannelStatus, CommandCode, Flags, UnitStatus};

/// A command word in whatever form it is written, with the places of the words after it.
#[derive(Clone, Copy, Debug, PartialEq, Eq)]
pub struct Ccw {
    /// What is to be done.
    pub command: CommandCode,
    /// Where the data lie, or with IDA the list of their addresses; of a transfer in channel, where
    /// it leads.
    pub address: u32,
    /// How.
    pub flags: Flags,
    /// How many bytes.
    pub count: u16,
    /// Where the next word is; of a transfer in channel, where it leads.
    pub next: u32,
    /// Where the word after the next one is.
    pub skipped: u32,
}

/// A command as the channel hands it to a device.
#[derive(Clone, Copy, PartialEq, Eq)]
pub struct Order {
    /// What is to be done.
    pub command: CommandCode,
    /// Whether it is the first command of its program.
    pub first: bool,
    /// The flags of its word.
    pub flags: Flags,
}

/// What a device answers to a command.
#[derive(Clone, Copy, Debug, PartialEq, Eq)]
pub enum Answer {
    /// It does not begin, and says so by its status, which has unit check or unit exception.
    Refused(UnitStatus),
    /// It is done, with no byte.
    Immediate,
    /// It gives so many bytes.
    Input(u32),
    /// It takes exactly so many bytes, or fewer where it says so on the way.
    Output(u32),
    /// It takes at most so many bytes.
    OutputUpTo(u32),
}

/// Which way bytes go.
#[derive(Clone, Copy, PartialEq, Eq)]
pub enum Direction {
    /// The device gives.
    Gives,
    /// The device takes exactly as many as it said.
    Takes,
    /// The device takes at most as many as it said.
    TakesUpTo,
}

/// A command that is being carried out, and what the device still has or wants.
#[derive(Clone, Copy, PartialEq, Eq)]
pub struct Transfer {
    /// The command.
    pub command: CommandCode,
    /// Which way its bytes go.
    pub kind: Direction,
    /// How many bytes are left of those that the device said.
    pub left: u32,
}

/// Where the next word is fetched, and in which role.
#[derive(Clone, Copy, PartialEq, Eq)]
pub struct NextCcw {
    /// Where the word is.
    pub at: u32,
    /// The transfer that the word continues, or None where it is a command.
    pub role: Option<Transfer>,
    /// Whether no transfer in channel may be here: the word is the first, or one led here.
    pub jumped: bool,
    /// How many commands were started.
    pub started: u32,
}

/// A word whose bytes are being moved.
#[derive(Clone, Copy, PartialEq, Eq)]
pub struct Position {
    /// Where the word is.
    pub at: u32,
    /// How many commands were started.
    pub started: u32,
    /// The word.
    pub word: Ccw,
    /// How many bytes the word still counts.
    pub count: u16,
    /// Where the byte before the next one lies, if one was moved.
    pub before: Option<u32>,
    /// The command that it belongs to.
    pub transfer: Transfer,
}

/// How a program ended.
#[derive(Clone, Copy, PartialEq, Eq)]
pub struct Ending {
    /// Where the last word that was used is, or the one that failed.
    pub at: u32,
    /// The status of the device.
    pub unit: UnitStatus,
    /// The status of the channel.
    pub channel: ChannelStatus,
    /// The count that is left in the last word.
    pub count: u16,
}

/// What a word leads to.
#[derive(Clone, Copy, PartialEq, Eq)]
pub enum Progress {
    /// Another word.
    At(NextCcw),
    /// The end of the program.
    Ended(Ending),
}
