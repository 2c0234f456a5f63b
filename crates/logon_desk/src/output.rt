//! What the desk has done: the host does all of it, in order.
ghost use Rattle.std.specs.Prelude.{◌≡◌, ◌++◌, ◌∷◌, []};
ghost use Rattle.std.specs.Result.{OnOk};

use crate::account::KeptLine;
use std::alloc::{AllocError, Global};
use std::marker::Model;
use terminal_lines::{Bytes, Guess};
use user_names::UserNo;

/// The desk's own texts.
#[derive(Clone, Copy, Drop)]
pub enum Notice {
    /// What is to be typed.
    Online,
    /// That was no logon.
    TypeLogon,
    /// The password is awaited, and is not to be seen.
    EnterPassword,
    /// What is typed is to be seen again.
    PasswordTaken,
    /// That was no password, and what is typed is to be seen again.
    NoPassword,
    /// Name and password are wrong.
    Refused,
    /// He has not logged on in time.
    TooLate,
    /// The user's machine is on already.
    Reconnected,
    /// The user has logged on elsewhere.
    TakesOver,
    /// Somebody is there.
    IsThere,
}

/// A line for the journal. It has no byte that anybody typed.
#[derive(Clone, Copy, Drop)]
pub enum JournalEntry {
    /// A user logs on.
    LogsOn {
        /// The user.
        user: UserNo,
        /// Where.
        connection: usize,
    },
    /// A user whose machine is on is back.
    IsBack {
        /// The user.
        user: UserNo,
        /// Where.
        connection: usize,
    },
    /// A user leaves his terminal.
    Leaves {
        /// The user.
        user: UserNo,
        /// Where.
        connection: usize,
    },
    /// A wrong password was given.
    WrongPassword {
        /// The user whose name was given, if there is one.
        user: Option<UserNo>,
        /// Where.
        connection: usize,
    },
}

/// What is to be done.
#[derive(Drop)]
pub enum DeskAction {
    /// A connection is given a text of the desk's own.
    Says {
        /// The connection.
        connection: usize,
        /// The text.
        notice: Notice,
    },
    /// A connection is given the answer to a command of telnet.
    Declines {
        /// The connection.
        connection: usize,
        /// WONT or DONT.
        command: u8,
        /// The option.
        option: u8,
    },
    /// A connection is given a line of a user.
    Shows {
        /// The connection.
        connection: usize,
        /// The user.
        user: UserNo,
        /// The line.
        line: Bytes,
    },
    /// A connection is given a line of a user once more.
    ShowsAgain {
        /// The connection.
        connection: usize,
        /// The user.
        user: UserNo,
        /// The line.
        line: KeptLine,
    },
    /// A line is typed at a user's terminal: it is one of the script.
    Types {
        /// The user.
        user: UserNo,
        /// The line.
        line: Bytes,
    },
    /// The host is asked whether a name and a password are right.
    Asks {
        /// The connection.
        connection: usize,
        /// The name and the password.
        guess: Guess,
    },
    /// A connection is closed.
    Ends {
        /// The connection.
        connection: usize,
    },
    /// The journal gets a line.
    Notes(JournalEntry),
}

/// All that is to be done, in order.
#[derive(Drop)]
pub struct Outputs {
    outputs: Vec<DeskAction>,
}

impl Model for Outputs {
    ghost use Rattle.std.specs.Prelude.{List};
    ghost use Rattle.logon_desk.specs.declared.output.DeskAction.{DeskAction};

    ghost Value = { List DeskAction };

    ghost view = { λ o. o.outputs.items };
}

impl Outputs {
    /// Returns an empty list of actions.
    pub fn new(alloc: Global) -> Outputs
        ensures { result ≡ [] }
    {
        Outputs {
            outputs: Vec::new(alloc),
        }
    }

    /// Appends an action.
    ///
    /// # Errors
    ///
    /// `AllocError` if memory is refused; what this is then is not specified.
    pub fn push(&mut self, output: DeskAction) -> Result<(), AllocError>
        ensures { OnOk result (self.new ≡ self.old ++ output ∷ []) }
    {
        self.outputs.push(output)?;
        Ok(())
    }

    /// Returns the actions that are to be done, in order.
    pub fn as_slice(&self) -> &[DeskAction]
        ensures { result.now ≡ self.now }
    {
        &self.outputs
    }

    /// Removes all actions, after they were done.
    pub fn clear(&mut self)
        ensures { self.new ≡ [] }
    {
        self.outputs.clear();
    }
}
