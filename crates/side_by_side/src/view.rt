//! What is seen of a machine, and why two machines are not the same.
use cp_core::CpError;
use cp_directory::DirError;
use machine_devices::AttachError;
use std::alloc::AllocError;
use std::fmt;
use thiserror::Error;

/// What is seen of a machine.
#[derive(Clone, Copy, Debug, PartialEq, Eq)]
pub enum View {
    /// What an event is answered.
    Answer,
    /// The general registers.
    General,
    /// The control registers.
    Control,
    /// The PSW.
    Psw,
    /// Whether the machine is on, and whether it runs.
    Mode,
    /// The external conditions that are pending.
    Pending,
    /// The lines that the console has printed.
    Console,
    /// The keys of the blocks.
    Keys,
    /// The bytes of storage.
    Storage,
    /// The subchannels: what each device is about, and its status.
    Subchannels,
    /// The lines that wait at the console.
    Waiting,
    /// The decks of the reader.
    Reader,
    /// What was punched, and for whom.
    Punch,
    /// What was printed by the line printer.
    Printer,
    /// The sense byte of a device.
    Sense,
    /// The arm of a disk, and its sense.
    Arm,
    /// The tracks of a disk.
    Tracks,
}

impl fmt::Display for View {
    /// Writes the name of the view.
    fn fmt<W: fmt::Write>(&self, f: &mut fmt::Formatter<W>) -> fmt::Result {
        let name = match self {
            View::Answer => "the answer",
            View::General => "the general registers",
            View::Control => "the control registers",
            View::Psw => "the PSW",
            View::Mode => "the mode",
            View::Pending => "what is pending",
            View::Console => "the console",
            View::Keys => "the keys",
            View::Storage => "storage",
            View::Subchannels => "the subchannels",
            View::Waiting => "the lines that wait",
            View::Reader => "the reader's decks",
            View::Punch => "what was punched",
            View::Printer => "what the printer printed",
            View::Sense => "a sense byte",
            View::Arm => "the arm of a disk",
            View::Tracks => "the tracks of a disk",
        };
        write!(f, "{name}")
    }
}

/// Why an event was not given to both machines, or how they differ.
#[derive(Debug, Drop, Error)]
pub enum SideError {
    /// The user does not see what the bare machine shows.
    #[error("not the same: {0}")]
    Differs(View),
    /// A growth was refused.
    #[error("no memory is left")]
    Memory(#[from(alloc)] AllocError),
    /// The bare machine has no such devices.
    #[error("{0}")]
    Devices(#[from] AttachError),
    /// The directory is refused.
    #[error("{0}")]
    Directory(#[from] DirError),
    /// The system is not booted.
    #[error("the system is not booted")]
    NotBooted,
    /// The system refuses the event.
    #[error("{0}")]
    Event(#[from] CpError),
    /// The directory has no such user.
    #[error("the directory has no such user")]
    NoSuchUser,
}
