//! What a control unit keeps of the command that it carries out.

use s370_walk::UnitStatus;

/// Where the head is on the track.
#[derive(Clone, Copy, Debug, PartialEq, Eq)]
pub enum Orientation {
    /// At the index point.
    Index,
    /// Before this record.
    Gap(usize),
    /// After the count of this record.
    Count(usize),
    /// After the key of this record.
    Key(usize),
}

/// What the command that was started last gives the right to write.
#[derive(Clone, Copy, PartialEq, Eq)]
pub enum WriteAccess {
    /// Nothing.
    Nothing,
    /// It found the home address.
    Home,
    /// It found the id of the record.
    Id,
    /// It found the key of the record.
    Key,
    /// It wrote a whole record.
    Record,
}

/// How a record's id has to be to the one that is searched.
#[derive(Clone, Copy, PartialEq, Eq)]
pub enum Comparison {
    /// The same.
    Equal,
    /// Higher.
    High,
    /// The same or higher.
    EqualOrHigh,
}

/// What is still to do when the bytes of a command are there.
#[derive(Clone, Copy, PartialEq, Eq)]
pub enum PendingCommand {
    /// Nothing.
    Nothing,
    /// The bytes of an input are given; this status ends it.
    Give(UnitStatus),
    /// The file mask is set.
    SetMask,
    /// The arm is moved.
    Seek,
    /// The home address is compared.
    SearchHome,
    /// The id of this record is compared.
    SearchId(Comparison, usize),
    /// The key of this record is compared.
    SearchKey(usize),
    /// The data of this record are written.
    WriteData(usize),
    /// Key and data of this record are written.
    WriteBoth(usize),
    /// A whole record is written before this one.
    WriteRecord(usize),
}

/// The first two sense bytes; the others are zero.
#[derive(Clone, Copy, PartialEq, Eq)]
pub struct Sense {
    /// Sense byte 0.
    pub first: u8,
    /// Sense byte 1.
    pub second: u8,
}

/// Which records a command looks for.
#[derive(Clone, Copy, PartialEq, Eq)]
pub enum Wanted {
    /// All.
    Any,
    /// Those with a key.
    Keyed,
    /// Those with the number 1.
    First,
}

/// What a look for a record comes to.
#[derive(Clone, Copy, PartialEq, Eq)]
pub enum Found {
    /// By the head, the record, and the index points then.
    There(usize, usize, u8),
    /// By the head, and the second sense byte.
    Lost(usize, u8),
}
