//! The desk.
ghost use Rattle.std.specs.Prelude.{◌≡◌, ◌<◌, ◌≤◌, ◌^◌, ◌++◌, ◌∷◌, [], IfNone, IfOk, IfSome};
ghost use Rattle.std.specs.Prelude.{count_by, false};
ghost use Rattle.std.specs.Prelude.{length, map, not, replicate, take};
ghost use Rattle.std.specs.List.{All};
ghost use Rattle.logon_desk.specs.Strangers.{IsBusiest, is_stranger};
ghost use Rattle.std.specs.Result.{OnOk};
ghost use Rattle.logon_desk.specs.Account.{new_account};
ghost use Rattle.logon_desk.specs.Connection.{gone};
ghost use Rattle.logon_desk.specs.Desk.{Answers, Closes, Comes, Does, Finishes, IsStep, Keeps};
ghost use Rattle.logon_desk.specs.Desk.{Opens, Prints};
ghost use Rattle.logon_desk.specs.Desk.{Takes, Turns, Wakes, account_of, after_decoded};
ghost use Rattle.logon_desk.specs.Desk.{after_first};
ghost use Rattle.logon_desk.specs.Desk.{after_line_at, answered, comes_to, connection_at, ended};
ghost use Rattle.logon_desk.specs.Desk.{farewell};
ghost use Rattle.logon_desk.specs.Desk.{greeting, guess_waits, is_gone, is_taking};
ghost use Rattle.logon_desk.specs.Desk.{leaving};
ghost use Rattle.logon_desk.specs.Desk.{logged_on};
ghost use Rattle.logon_desk.specs.Desk.{logon_line, new_desk, after_pause, same_guess, shown};
ghost use Rattle.logon_desk.specs.Desk.{terminal_of};
ghost use Rattle.logon_desk.specs.Desk.{typed_line, wrong_guess};

use crate::account::{Account, KeptLine};
use crate::connection::{Connection, LogonStep, Stage, after_line};
use crate::guesses::Guesses;
use crate::output::{DeskAction, JournalEntry, Notice, Outputs};
use crate::strangers::{busiest, strangers};
use std::alloc::{AllocError, Global};
use std::marker::Model;
use std::mem;
use terminal_lines::{Bytes, Decoded, Guess, in_capitals, printable, said_of, script_line};
use user_names::{UserNo, user_of};

/// The most bytes that wait at a connection.
pub const MOST_WAITING: usize = 4096;

/// The most characters of a line that are shown.
pub const LONGEST_SHOWN: usize = 1024;

/// The wrong guesses after which a connection is closed.
const MOST_TRIES: u8 = 3;

/// The connections, the users and the names that were guessed at.
#[derive(Drop)]
pub struct LogonDesk {
    pub(crate) connections: Vec<Connection>,
    accounts: Vec<Account>,
    pub(crate) guesses: Guesses,
}

impl Model for LogonDesk {
    ghost use Rattle.std.specs.Prelude.{◌≤◌, length};
    ghost use Rattle.logon_desk.specs.Desk.{Desk};

    ghost Value = { Desk };

    ghost view = { λ d. record {
      connections = d.connections.items;
      accounts = d.accounts.items;
      guesses = d.guesses;
    } };

    ghost invariant = { λ d. length d.accounts.items ≤ 64 };
}

impl LogonDesk {
    /// Returns a desk for users of these names, with so many empty places for connections.
    ///
    /// # Errors
    ///
    /// `AllocError` if memory is refused.
    pub fn new(alloc: Global, names: &[Bytes], connections: usize) -> Result<LogonDesk, AllocError>
        requires { length names.now ≤ 64 }
        ensures { IfOk result (λ desk. desk ≡ new_desk names.now connections) }
    {
        Ok(LogonDesk {
            connections: places_of(alloc, connections)?,
            accounts: accounts_of(alloc, names)?,
            guesses: Guesses::new(alloc),
        })
    }

    /// Returns how many places there are for connections.
    pub fn connections(&self) -> usize
        ensures { result ≡ length self.now.connections }
    {
        self.connections.len()
    }

    /// Returns how many users there are.
    pub fn users(&self) -> usize
        ensures value { result ≡ length self.now.accounts }
        ensures bound { result ≤ 64 }
    {
        self.accounts.len()
    }

    /// Returns how many connections there are at which nobody has logged on yet.
    pub fn strangers(&self) -> usize
        ensures { result ≡ count_by is_stranger self.now.connections }
    {
        strangers(&self.connections)
    }

    /// Returns a connection without a user, from the address that has most of these, if any, and of
    /// these one with the latest deadline.
    pub fn busiest(&self) -> Option<usize>
        ensures within { IfSome result (λ c. c < length self.now.connections) }
        ensures busiest { IfSome result (λ c. IsBusiest self.now.connections c) }
        ensures none { IfNone result
            (All (λ connection. is_stranger connection ≡ false) self.now.connections) }
    {
        busiest(&self.connections)
    }

    /// Returns whether there is a connection at a place.
    pub fn is_open(&self, connection: usize) -> bool
        requires { connection < length self.now.connections }
        ensures { result ≡ not (is_gone (connection_at self.now connection).stage) }
    {
        !matches!(self.connections[connection].stage, Stage::Gone)
    }

    /// Puts a new connection from an address at a place, and shows its first text there.
    ///
    /// # Errors
    ///
    /// `AllocError` if memory is refused; what this is then is not specified.
    pub fn open(
        &mut self,
        alloc: Global,
        connection: usize,
        address: u64,
        now: u64,
        out: &mut Outputs,
    ) -> Result<(), AllocError>
        requires within { connection < length self.old.connections }
        requires now { now < 2 ^ 62 }
        ensures { OnOk result (IsStep self.old (Opens connection address now) out.old self.new
            out.new) }
    {
        self.connections[connection] = Connection::opened(alloc, address, now);
        say(connection, Notice::Online, out)
    }

    /// Appends bytes to those that wait at a connection, or ends it if more than 4096 would wait.
    ///
    /// # Errors
    ///
    /// `AllocError` if memory is refused; what this is then is not specified.
    pub fn receive(
        &mut self,
        alloc: Global,
        connection: usize,
        bytes: &[u8],
        out: &mut Outputs,
    ) -> Result<(), AllocError>
        requires within { connection < length self.old.connections }
        ensures { OnOk result (IsStep self.old (Comes connection bytes.now) out.old self.new
            out.new) }
    {
        let place = &mut self.connections[connection];
        if bytes.len() > MOST_WAITING || place.waiting.len() > MOST_WAITING - bytes.len() {
            return self.end(alloc, connection, out);
        }
        place.waiting.add(bytes)
    }

    /// Takes a connection's first waiting byte, if one is taken now, and does what it completes.
    ///
    /// # Errors
    ///
    /// `AllocError` if memory is refused; what this is then is not specified.
    pub fn take(
        &mut self,
        alloc: Global,
        connection: usize,
        now: u64,
        out: &mut Outputs,
    ) -> Result<(), AllocError>
        requires within { connection < length self.old.connections }
        requires now { now < 2 ^ 62 }
        ensures { OnOk result (IsStep self.old (Takes connection now) out.old self.new out.new) }
    {
        if self.is_taking(connection) && self.waiting(connection) > 0 {
            self.take_first(alloc, connection, now, out)
        } else {
            Ok(())
        }
    }

    /// Takes the first byte that waits at a connection, if any, and does what it completes.
    fn take_first(
        &mut self,
        alloc: Global,
        connection: usize,
        now: u64,
        out: &mut Outputs,
    ) -> Result<(), AllocError>
        requires within { connection < length self.old.connections }
        requires some { 0 < length (connection_at self.old connection).waiting }
        requires now { now < 2 ^ 62 }
        ensures { OnOk result (Does
            (after_first self.old connection (connection_at self.old connection).waiting now)
            out.old self.new out.new) }
    {
        let place = &mut self.connections[connection];
        let Some(byte) = place.waiting.take() else {
            return Ok(());
        };
        let decoded = place.decoder.take(alloc, byte)?;
        self.after_decoded(alloc, connection, decoded, now, out)
    }

    /// Returns whether bytes of a connection are taken now: if a name or a password is asked for,
    /// or its user is on there and no line of his is being done.
    pub fn is_taking(&self, connection: usize) -> bool
        requires { connection < length self.now.connections }
        ensures { result ≡ is_taking self.now connection (connection_at self.now connection).stage }
    {
        match &self.connections[connection].stage {
            Stage::Naming | Stage::Asking(_) => true,
            Stage::On(user) => self.is_ready(connection, *user),
            _ => false,
        }
    }

    /// Returns whether a connection is its user's terminal, and no line of his is being done.
    fn is_ready(&self, connection: usize, user: UserNo) -> bool
        ensures { result ≡ is_taking self.now connection (Stage.On user) }
    {
        match self.accounts.get(user.index()) {
            Some(account) => is_terminal(account.terminal, connection) && !account.is_busy,
            None => false,
        }
    }

    /// Returns how many bytes have come from a connection and were not taken yet.
    pub fn waiting(&self, connection: usize) -> usize
        requires { connection < length self.now.connections }
        ensures { result ≡ length (connection_at self.now connection).waiting }
    {
        self.connections[connection].waiting.len()
    }

    /// Handles what a byte has completed: a line, a refused option, "are you there", or nothing.
    fn after_decoded(
        &mut self,
        alloc: Global,
        connection: usize,
        decoded: Decoded,
        now: u64,
        out: &mut Outputs,
    ) -> Result<(), AllocError>
        requires within { connection < length self.old.connections }
        requires now { now < 2 ^ 62 }
        ensures { OnOk result (Does (after_decoded self.old connection decoded now) out.old self.new
            out.new) }
    {
        match decoded {
            Decoded::Nothing => Ok(()),
            Decoded::Line(line) => self.after_line(alloc, connection, line, now, out),
            Decoded::Declines { command, option } => out.push(DeskAction::Declines {
                connection,
                command,
                option,
            }),
            Decoded::AreYouThere => say(connection, Notice::IsThere, out),
        }
    }

    /// Types a line for the user who is on at a connection, or takes it as part of a logon.
    fn after_line(
        &mut self,
        alloc: Global,
        connection: usize,
        line: Bytes,
        now: u64,
        out: &mut Outputs,
    ) -> Result<(), AllocError>
        requires within { connection < length self.old.connections }
        requires now { now < 2 ^ 62 }
        ensures { OnOk result (Does (after_line_at self.old connection line now) out.old self.new
            out.new) }
    {
        match &self.connections[connection].stage {
            Stage::On(user) => {
                let user = *user;
                self.type_line(alloc, user, line.as_slice(), out)
            }
            _ => self.logon_line(alloc, connection, &line, now, out),
        }
    }

    /// Adds the action that a line of a user is typed in the script, and marks him as busy.
    fn type_line(
        &mut self,
        alloc: Global,
        user: UserNo,
        line: &[u8],
        out: &mut Outputs,
    ) -> Result<(), AllocError>
        ensures { OnOk result (Does (typed_line self.old user line.now) out.old self.new out.new) }
    {
        let line = script_line(alloc, self.is_running(user), line)?;
        if let Some(account) = self.accounts.get_mut(user.index()) {
            account.is_busy = true;
        }
        out.push(DeskAction::Types { user, line })
    }

    /// Returns whether the machine of a user runs; false if there is no such user.
    fn is_running(&self, user: UserNo) -> bool
        ensures { result ≡ (account_of self.now user).is_running }
    {
        match self.accounts.get(user.index()) {
            Some(account) => account.is_running,
            None => false,
        }
    }

    /// Takes a line of a logon: moves its connection to the next stage, and shows a text, if any.
    fn logon_line(
        &mut self,
        alloc: Global,
        connection: usize,
        line: &Bytes,
        now: u64,
        out: &mut Outputs,
    ) -> Result<(), AllocError>
        requires within { connection < length self.old.connections }
        requires now { now < 2 ^ 62 }
        ensures { OnOk result (Does
            (logon_line self.old connection (connection_at self.old connection) line.now now)
            out.old self.new out.new) }
    {
        let capitals = in_capitals(alloc, line.as_slice())?;
        let said = said_of(alloc, capitals.as_slice())?;
        let place = &mut self.connections[connection];
        let answer = after_line(mem::replace(&mut place.stage, Stage::Gone), said);
        self.answered(connection, answer, now, out)
    }

    /// Moves a connection to the stage of this step, and shows its text, if there is one.
    fn answered(
        &mut self,
        connection: usize,
        answer: LogonStep,
        now: u64,
        out: &mut Outputs,
    ) -> Result<(), AllocError>
        requires within { connection < length self.old.connections }
        requires now { now < 2 ^ 62 }
        ensures { OnOk result (Does
            (answered self.old connection (connection_at self.old connection) answer now) out.old
            self.new out.new) }
    {
        let LogonStep { stage, notice } = answer;
        self.come_to(connection, stage, now);
        match notice {
            Some(notice) => say(connection, notice, out),
            None => Ok(()),
        }
    }

    /// Moves a connection to a stage; a guess waits from now on.
    pub(crate) fn come_to(&mut self, connection: usize, stage: Stage, now: u64)
        requires within { connection < length self.old.connections }
        requires now { now < 2 ^ 62 }
        ensures { self.new ≡ comes_to self.old connection (connection_at self.old connection) stage
            now }
    {
        match stage {
            Stage::Waiting(guess) => self.guess_waits(connection, guess, now),
            stage => self.connections[connection].stage = stage,
        }
    }

    /// Makes a guess wait for its turn from now on.
    fn guess_waits(&mut self, connection: usize, guess: Guess, now: u64)
        requires { connection < length self.old.connections }
        ensures { self.new ≡ guess_waits self.old connection (connection_at self.old connection)
            guess now }
    {
        let place = &mut self.connections[connection];
        place.patience = place.patience.begun(now);
        place.stage = Stage::Waiting(guess);
    }

    /// Does what is due for a connection at this time: ends it if it is too late, or if its user is
    /// on elsewhere or has logged off; asks the host about a guess, or answers a wrong one.
    ///
    /// # Errors
    ///
    /// `AllocError` if memory is refused; what this is then is not specified.
    pub fn wake(
        &mut self,
        alloc: Global,
        connection: usize,
        now: u64,
        out: &mut Outputs,
    ) -> Result<(), AllocError>
        requires within { connection < length self.old.connections }
        requires now { now < 2 ^ 62 }
        ensures { OnOk result (IsStep self.old (Wakes connection now) out.old self.new out.new) }
    {
        let place = &mut self.connections[connection];
        match &place.stage {
            Stage::Naming | Stage::Asking(_) if place.patience.deadline <= now => {
                say(connection, Notice::TooLate, out)?;
                self.end(alloc, connection, out)
            }
            Stage::Waiting(guess) => {
                let guess = guess.copy(alloc)?;
                self.ask(alloc, connection, &guess, now, out)
            }
            Stage::Refused if place.patience.due <= now => self.after_pause(
                alloc, connection, now, out,
            ),
            Stage::On(user) => {
                let user = *user;
                self.leave_behind(alloc, connection, user, out)
            }
            _ => Ok(()),
        }
    }

    /// Shows a refusal, and lets a guesser try again, or ends his connection at the third one.
    fn after_pause(
        &mut self,
        alloc: Global,
        connection: usize,
        now: u64,
        out: &mut Outputs,
    ) -> Result<(), AllocError>
        requires within { connection < length self.old.connections }
        requires now { now < 2 ^ 62 }
        ensures { OnOk result (Does
            (after_pause self.old connection (connection_at self.old connection) now) out.old
            self.new out.new) }
    {
        say(connection, Notice::Refused, out)?;
        let place = &mut self.connections[connection];
        if place.patience.tries >= MOST_TRIES {
            return self.end(alloc, connection, out);
        }
        place.stage = Stage::Naming;
        place.patience = place.patience.again(now);
        Ok(())
    }

    /// Ends a connection whose user has logged off or, after a notice, is on elsewhere.
    fn leave_behind(
        &mut self,
        alloc: Global,
        connection: usize,
        user: UserNo,
        out: &mut Outputs,
    ) -> Result<(), AllocError>
        requires within { connection < length self.old.connections }
        ensures { OnOk result (Does
            (Rattle.logon_desk.specs.Desk.wake_by self.old connection
            (connection_at self.old connection) (Stage.On user) 0) out.old self.new out.new) }
    {
        let terminal = self.last_terminal(user);
        if is_terminal(terminal, connection) {
            return Ok(());
        }
        if terminal.is_some() {
            say(connection, Notice::TakesOver, out)?;
        }
        self.end(alloc, connection, out)
    }

    /// Returns the last connection at which a user logged on, if he has not logged off.
    fn last_terminal(&self, user: UserNo) -> Option<usize>
        ensures { result ≡ (account_of self.now user).terminal }
    {
        match self.accounts.get(user.index()) {
            Some(account) => account.terminal,
            None => None,
        }
    }

    /// Logs a user on or refuses his guess, as the host answers, if that answer is awaited there.
    ///
    /// # Errors
    ///
    /// `AllocError` if memory is refused; what this is then is not specified.
    pub fn answer(
        &mut self,
        alloc: Global,
        connection: usize,
        guess: &Guess,
        is_right: bool,
        now: u64,
        out: &mut Outputs,
    ) -> Result<(), AllocError>
        requires within { connection < length self.old.connections }
        requires now { now < 2 ^ 62 }
        ensures { OnOk result (IsStep self.old (Answers connection guess.now is_right now) out.old
            self.new out.new) }
    {
        let is_awaited = match &self.connections[connection].stage {
            Stage::Judged(other) => is_same(other, guess),
            _ => false,
        };
        if !is_awaited {
            return Ok(());
        }
        match user_of(&self.accounts, guess.name.as_slice()) {
            Some(user) if is_right => self.log_on(alloc, connection, guess, user, now, out),
            user => self.wrong_guess(connection, user, now, out),
        }
    }

    /// Logs a user on at a connection, which is then his terminal, no longer remembers his right
    /// guess, and marks him as busy if his machine is off.
    fn log_on(
        &mut self,
        alloc: Global,
        connection: usize,
        guess: &Guess,
        user: UserNo,
        now: u64,
        out: &mut Outputs,
    ) -> Result<(), AllocError>
        requires within { connection < length self.old.connections }
        requires user { user < length self.old.accounts }
        requires now { now < 2 ^ 62 }
        ensures { OnOk result (Does (logged_on self.old connection guess.now user now) out.old
            self.new out.new) }
    {
        greet(alloc, connection, user, &self.accounts[user.index()], out)?;
        let place = &mut self.connections[connection];
        place.stage = Stage::On(user);
        self.guesses
            .remove_right_guess(guess.name.as_slice(), place.address, now);
        let account = &mut self.accounts[user.index()];
        account.terminal = Some(connection);
        account.is_busy = account.is_busy || !account.is_on;
        Ok(())
    }

    /// Refuses a wrong guess: counts it, adds a journal entry, and makes its connection wait.
    fn wrong_guess(
        &mut self,
        connection: usize,
        user: Option<UserNo>,
        now: u64,
        out: &mut Outputs,
    ) -> Result<(), AllocError>
        requires within { connection < length self.old.connections }
        requires now { now < 2 ^ 62 }
        ensures { OnOk result (Does (wrong_guess self.old connection user now) out.old self.new
            out.new) }
    {
        let place = &mut self.connections[connection];
        place.stage = Stage::Refused;
        place.patience = place.patience.refused(now);
        out.push(DeskAction::Notes(JournalEntry::WrongPassword { user, connection }))
    }

    /// Makes a place empty, adds that its connection ends, and for a terminal a journal entry.
    ///
    /// # Errors
    ///
    /// `AllocError` if memory is refused; what this is then is not specified.
    pub fn close(
        &mut self,
        alloc: Global,
        connection: usize,
        out: &mut Outputs,
    ) -> Result<(), AllocError>
        requires within { connection < length self.old.connections }
        ensures { OnOk result (IsStep self.old (Closes connection) out.old self.new out.new) }
    {
        if let Stage::On(user) = &self.connections[connection].stage {
            let user = *user;
            if is_terminal(self.last_terminal(user), connection) {
                out.push(DeskAction::Notes(JournalEntry::Leaves { user, connection }))?;
            }
        }
        self.end(alloc, connection, out)
    }

    /// Makes a place empty, and adds that its connection ends, also if there was none.
    fn end(&mut self, alloc: Global, connection: usize, out: &mut Outputs) -> Result<(), AllocError>
        requires within { connection < length self.old.connections }
        ensures { OnOk result (Does (ended self.old connection []) out.old self.new out.new) }
    {
        self.connections[connection] = Connection::gone(alloc);
        out.push(DeskAction::Ends { connection })
    }

    /// Adds the action that shows a user a line, cut to 1024 characters, at his terminal, if any.
    ///
    /// # Errors
    ///
    /// `AllocError` if memory is refused; what was passed may have changed in part.
    pub fn print(
        &self,
        alloc: Global,
        user: UserNo,
        line: &[u8],
        out: &mut Outputs,
    ) -> Result<(), AllocError>
        ensures { OnOk result (IsStep self.now (Prints user line.now) out.old self.now out.new) }
    {
        match self.terminal_of(user) {
            Some(connection) => out.push(DeskAction::Shows {
                connection,
                user,
                line: shown(alloc, line)?,
            }),
            None => Ok(()),
        }
    }

    /// Returns the connection at which a user is on, if he is on at one.
    pub fn terminal_of(&self, user: UserNo) -> Option<usize>
        ensures { result ≡ terminal_of self.now user }
    {
        let connection = self.last_terminal(user)?;
        match self.connections.get(connection) {
            Some(place) if is_user(&place.stage, user) => Some(connection),
            _ => None,
        }
    }

    /// Keeps a line, cut to 1024 characters, for when its user is back: the last 24 of them.
    ///
    /// # Errors
    ///
    /// `AllocError` if memory is refused; what this is then is not specified.
    pub fn keep(&mut self, alloc: Global, user: UserNo, line: &KeptLine) -> Result<(), AllocError>
        requires { user < length self.old.accounts }
        ensures { OnOk result (IsStep self.old (Keeps user line.now) [] self.new []) }
    {
        let line = KeptLine {
            minute: shown(alloc, line.minute.as_slice())?,
            text: shown(alloc, line.text.as_slice())?,
        };
        self.accounts[user.index()].kept.keep(line)
    }

    /// Sets whether a user's machine is on and runs; if off, his terminal and kept lines go.
    pub fn set_mode(&mut self, user: UserNo, is_on: bool, is_running: bool)
        requires { user < length self.old.accounts }
        ensures { IsStep self.old (Turns user is_on is_running) [] self.new [] }
    {
        let account = &mut self.accounts[user.index()];
        account.is_on = is_on;
        account.is_running = is_running;
        if !is_on {
            account.terminal = None;
            account.kept.clear();
        }
    }

    /// Marks a user's typed line as done; if his machine is off, he has no terminal any more.
    pub fn end_typed_line(&mut self, user: UserNo)
        requires { user < length self.old.accounts }
        ensures { IsStep self.old (Finishes user) [] self.new [] }
    {
        let account = &mut self.accounts[user.index()];
        account.is_busy = false;
        if !account.is_on {
            account.terminal = None;
        }
    }
}

/// Returns a new list of so many places without connections.
fn places_of(alloc: Global, connections: usize) -> Result<Vec<Connection>, AllocError>
    ensures { IfOk result (λ places. places.items ≡ replicate connections gone) }
{
    let mut places = Vec::new(alloc);
    for _ in 0..connections {
        places.push(Connection::gone(alloc))?;
    }
    Ok(places)
}

/// Returns a new list of the accounts of users of these names, whose machines are off.
fn accounts_of(alloc: Global, names: &[Bytes]) -> Result<Vec<Account>, AllocError>
    ensures { IfOk result (λ accounts. accounts.items ≡ map new_account names.now) }
{
    let mut accounts = Vec::new(alloc);
    for name in names {
        accounts.push(Account::new(alloc, Bytes::of(alloc, name.as_slice())?))?;
    }
    Ok(accounts)
}

/// Adds the action that a connection is shown a text of the desk's own.
fn say(connection: usize, notice: Notice, out: &mut Outputs) -> Result<(), AllocError>
    ensures { OnOk result (out.new ≡ out.old ++ DeskAction.Says connection notice ∷ []) }
{
    out.push(DeskAction::Says { connection, notice })
}

/// Adds a journal entry and the action that types `LOGON` for a user, or, if he is on or a line of
/// his is under way, a notice and his last lines.
fn greet(
    alloc: Global,
    connection: usize,
    user: UserNo,
    account: &Account,
    out: &mut Outputs,
) -> Result<(), AllocError>
    ensures { OnOk result (out.new ≡ out.old ++ greeting connection user account.now) }
{
    if !account.is_on && !account.is_busy {
        out.push(DeskAction::Notes(JournalEntry::LogsOn { user, connection }))?;
        return out.push(DeskAction::Types {
            user,
            line: Bytes::of(alloc, b"LOGON")?,
        });
    }
    out.push(DeskAction::Notes(JournalEntry::IsBack { user, connection }))?;
    say(connection, Notice::Reconnected, out)?;
    show_again(alloc, connection, user, account.kept.as_slice(), out)
}

/// Adds the actions that a connection is shown these lines of its user once more.
fn show_again(
    alloc: Global,
    connection: usize,
    user: UserNo,
    lines: &[KeptLine],
    out: &mut Outputs,
) -> Result<(), AllocError>
    ensures { OnOk result (out.new ≡ out.old
        ++ map (λ line. DeskAction.ShowsAgain connection user line) lines.now) }
{
    for line in lines {
        out.push(DeskAction::ShowsAgain {
            connection,
            user,
            line: line.copy(alloc)?,
        })?;
    }
    Ok(())
}

/// Returns whether this connection is a user's terminal, if he has one.
fn is_terminal(terminal: Option<usize>, connection: usize) -> bool
    ensures { result ≡ Rattle.logon_desk.specs.Desk.is_terminal terminal connection }
{
    match terminal {
        Some(other) => other == connection,
        None => false,
    }
}

/// Returns whether a stage is that of being logged on as this user.
fn is_user(stage: &Stage, user: UserNo) -> bool
    ensures { result ≡ Rattle.logon_desk.specs.Desk.is_user stage.now user }
{
    match stage {
        Stage::On(other) => other.index() == user.index(),
        _ => false,
    }
}

/// Returns whether two guesses have the same name and password.
fn is_same(one: &Guess, other: &Guess) -> bool
    ensures { result ≡ same_guess one.now other.now }
{
    one.name.as_slice() == other.name.as_slice()
        && one.password.as_slice() == other.password.as_slice()
}

/// Returns a copy of a line as it is shown: its first 1024 characters, with blanks for those that a
/// terminal could take for anything else.
fn shown(alloc: Global, line: &[u8]) -> Result<Bytes, AllocError>
    ensures { IfOk result (λ copy. copy ≡ shown line.now) }
{
    let line = first_characters(line);
    Ok(Bytes::owning(line.iter().map(|c| printable(*c)).collect(alloc)?))
}

/// Returns the first 1024 characters of a line, or all if it has fewer.
fn first_characters(line: &[u8]) -> &[u8]
    ensures { result.now ≡ take 1024 line.now }
{
    if line.len() > LONGEST_SHOWN {
        &line[..LONGEST_SHOWN]
    } else {
        line
    }
}
