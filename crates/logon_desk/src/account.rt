//! A user of the directory, and what his terminal has shown lately.
ghost use Rattle.std.specs.Prelude.{◌≡◌, ◌++◌, ◌∷◌, [], IfOk};
ghost use Rattle.std.specs.Result.{OnOk};
ghost use Rattle.logon_desk.specs.Account.{last_lines, new_account};

use std::alloc::{AllocError, Global};
use std::marker::Model;
use terminal_lines::Bytes;
use user_names::Named;

/// How many lines are kept for a user.
pub const KEPT_LINES: usize = 24;

/// A line that was typed or shown at a user's terminal.
#[derive(Drop)]
pub struct KeptLine {
    /// When, to the minute.
    pub minute: Bytes,
    /// The line.
    pub text: Bytes,
}

impl KeptLine {
    /// Returns a new copy of the line and its minute.
    ///
    /// # Errors
    ///
    /// `AllocError` if memory is refused.
    pub fn copy(&self, alloc: Global) -> Result<KeptLine, AllocError>
        ensures { IfOk result (λ copy. copy ≡ self.now) }
    {
        Ok(KeptLine {
            minute: Bytes::of(alloc, self.minute.as_slice())?,
            text: Bytes::of(alloc, self.text.as_slice())?,
        })
    }
}

/// The last lines of a terminal, the oldest first.
#[derive(Drop)]
pub struct KeptLines {
    lines: Vec<KeptLine>,
}

impl Model for KeptLines {
    ghost use Rattle.std.specs.Prelude.{List};
    ghost use Rattle.logon_desk.specs.declared.account.KeptLine.{KeptLine};

    ghost Value = { List KeptLine };

    ghost view = { λ k. k.lines.items };
}

impl KeptLines {
    /// Returns an empty list of lines.
    pub fn new(alloc: Global) -> KeptLines
        ensures { result ≡ [] }
    {
        KeptLines {
            lines: Vec::new(alloc),
        }
    }

    /// Appends a line, and removes the oldest if there are more than 24.
    ///
    /// # Errors
    ///
    /// `AllocError` if memory is refused; what this is then is not specified.
    pub fn keep(&mut self, line: KeptLine) -> Result<(), AllocError>
        ensures { OnOk result (self.new ≡ last_lines (self.old ++ line ∷ [])) }
    {
        self.lines.push(line)?;
        if self.lines.len() > KEPT_LINES {
            self.lines.remove(0);
        }
        Ok(())
    }

    /// Removes all lines.
    pub fn clear(&mut self)
        ensures { self.new ≡ [] }
    {
        self.lines.clear();
    }

    /// Returns the lines, the oldest first.
    pub fn as_slice(&self) -> &[KeptLine]
        ensures { result.now ≡ self.now }
    {
        &self.lines
    }
}

/// A user.
#[derive(Drop)]
pub struct Account {
    /// His name.
    pub name: Bytes,
    /// The connection that is his terminal.
    pub terminal: Option<usize>,
    /// Whether his machine is on.
    pub is_on: bool,
    /// Whether it runs.
    pub is_running: bool,
    /// Whether a line of his is being done.
    pub is_busy: bool,
    /// What his terminal has shown lately.
    pub kept: KeptLines,
}

impl Named for Account {
    ghost name = { λ a. a.name };

    /// Returns the user's name.
    fn name(&self) -> &[u8] {
        self.name.as_slice()
    }
}

impl Account {
    /// Returns the account of a user of this name, whose machine is off and who has no terminal.
    pub fn new(alloc: Global, name: Bytes) -> Account
        ensures { result ≡ new_account name }
    {
        Account {
            name,
            terminal: None,
            is_on: false,
            is_running: false,
            is_busy: false,
            kept: KeptLines::new(alloc),
        }
    }
}
