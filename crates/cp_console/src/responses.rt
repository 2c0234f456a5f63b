//! The responses of the control program to a line, and its notices.
ghost use Rattle.std.specs.Prelude.{◌≡◌};
ghost use Rattle.cp_console.specs.Responses.{is_panel};

use crate::console_line::ConsoleLine;
use s370_num::{Addr24, Register, StorageKey, Word};

/// What the control program says on a console.
#[derive(Clone, Copy, Debug, PartialEq, Eq)]
pub enum Response {
    /// The user is logged on from now on.
    LogonOk,
    /// The user is logged off from now on.
    LogoffOk,
    /// The user was logged on already.
    AlreadyLoggedOn,
    /// A line of a user who is not logged on.
    NotLoggedOn,
    /// The machine was reset.
    SystemReset,
    /// The 64 bits of the PSW.
    Psw(u64),
    /// The contents of a general register.
    General(Register, Word),
    /// The contents of a control register.
    Control(Register, Word),
    /// An address of storage, and the key of the block in which it lies.
    Key(Addr24, StorageKey),
    /// An address of storage, and the sixteen bytes at that address rounded down to a multiple of
    /// sixteen.
    Storage(Addr24, [u8; 16]),
    /// What was to be stored was.
    Stored,
    /// A byte to be displayed or stored lies past the end of storage.
    AddressPastStorage,
    /// The first word of the text is no command.
    UnknownCommand,
    /// The first word that is wrong, missing or surplus, counted from 1 after the command's name.
    BadOperand(u64),
    /// A line for a machine that runs and has no console.
    NoConsole,
    /// The machine has no device at the address that can do what was asked for.
    DeviceNotFound,
    /// No user has the name.
    UserNotFound,
    /// The user of the name is not logged on.
    UserNotLoggedOn,
    /// The files of the punch go to the user who was named.
    Spooled,
    /// Nothing was written to the device since its last file was closed.
    NoFile,
    /// The file of this number was closed.
    FileClosed(u64),
    /// The reader has no files.
    NoFiles,
    /// How many users are logged on.
    Users(u64),
    /// The file was dropped.
    Purged,
    /// No file that can be dropped has the number.
    FileNotFound,
    /// The text was sent to the user who was named.
    Sent,
    /// The machine was not loaded.
    IplFailed,
    /// A notice: a line that was typed for the machine's console is lost.
    LineLost,
    /// A notice: the machine stopped, since it waits and can take no interruption.
    StoppedDisabledWait,
    /// A notice: the machine stopped at a PSW of extended control mode.
    StoppedEcMode,
    /// A line that a program, or another user, wrote on the console.
    Written(ConsoleLine),
}

impl Response {
    /// Returns whether a response is one that a machine's console prints and keeps in its output.
    pub fn is_panel(&self) -> bool
        ensures { result ≡ is_panel self.now }
    {
        match self {
            Response::SystemReset
            | Response::Psw(_)
            | Response::General(_, _)
            | Response::Control(_, _)
            | Response::Key(_, _)
            | Response::Storage(_, _)
            | Response::Stored
            | Response::AddressPastStorage
            | Response::IplFailed
            | Response::LineLost
            | Response::StoppedDisabledWait
            | Response::StoppedEcMode
            | Response::Written(_) => true,
            Response::LogonOk
            | Response::LogoffOk
            | Response::AlreadyLoggedOn
            | Response::NotLoggedOn
            | Response::UnknownCommand
            | Response::BadOperand(_)
            | Response::DeviceNotFound
            | Response::UserNotFound
            | Response::UserNotLoggedOn
            | Response::Spooled
            | Response::NoFile
            | Response::FileClosed(_)
            | Response::NoFiles
            | Response::Users(_)
            | Response::Purged
            | Response::FileNotFound
            | Response::Sent
            | Response::NoConsole => false,
        }
    }
}
