//! A connection, and how far whoever is there has come.
ghost use Rattle.std.specs.Prelude.{◌≡◌, ◌<◌, ◌≤◌, ◌^◌};
ghost use Rattle.logon_desk.specs.Connection.{after_line, again, begun, gone, opened, pause_of};
ghost use Rattle.logon_desk.specs.Connection.{refused};

use crate::output::Notice;
use crate::waiting::WaitingBytes;
use std::alloc::Global;
use terminal_lines::{Bytes, Guess, LineDecoder, Said};
use user_names::UserNo;

/// The milliseconds in which one has to log on; what he waits for the desk is not counted.
pub const TIME_TO_LOG_ON: u64 = 60_000;

/// How far whoever is at a connection has come.
#[derive(Drop)]
pub enum Stage {
    /// There is no connection.
    Gone,
    /// He is to log on.
    Naming,
    /// He has given this name, and its password is asked for.
    Asking(Bytes),
    /// He has given a name and a password, which wait for their turn.
    Waiting(Guess),
    /// The host is asked whether they are right.
    Judged(Guess),
    /// They are wrong, and he is told so after a while.
    Refused,
    /// He has logged on as this user.
    On(UserNo),
}

/// The times of a connection, in milliseconds since the desk was made.
#[derive(Clone, Copy, Drop)]
pub struct Patience {
    /// Until when he may log on.
    pub deadline: u64,
    /// How much time he had left when he had made his guess.
    pub left: u64,
    /// Since when his guess waits, or when he is told that one is wrong.
    pub due: u64,
    /// His wrong guesses.
    pub tries: u8,
}

/// A connection.
#[derive(Drop)]
pub struct Connection {
    /// How far it has come.
    pub stage: Stage,
    /// The line that is being typed.
    pub decoder: LineDecoder,
    /// The bytes that were not taken.
    pub waiting: WaitingBytes,
    /// Its times.
    pub patience: Patience,
    /// A number for where it comes from.
    pub address: u64,
}

impl Connection {
    /// Returns the state of a place without a connection.
    pub fn gone(alloc: Global) -> Connection
        ensures { result ≡ gone }
    {
        Connection {
            stage: Stage::Gone,
            decoder: LineDecoder::new(alloc),
            waiting: WaitingBytes::new(alloc),
            patience: Patience {
                deadline: 0,
                left: 0,
                due: 0,
                tries: 0,
            },
            address: 0,
        }
    }

    /// Returns a new connection from an address, at which one has a minute from `now` on to log on.
    pub fn opened(alloc: Global, address: u64, now: u64) -> Connection
        requires { now < 2 ^ 62 }
        ensures { result ≡ opened address now }
    {
        Connection {
            stage: Stage::Naming,
            decoder: LineDecoder::new(alloc),
            waiting: WaitingBytes::new(alloc),
            patience: Patience {
                deadline: now + TIME_TO_LOG_ON,
                left: 0,
                due: 0,
                tries: 0,
            },
            address,
        }
    }
}

/// What comes of a line of somebody who is about to log on.
#[derive(Drop)]
pub struct LogonStep {
    /// How far he has come by that.
    pub stage: Stage,
    /// What he is told.
    pub notice: Option<Notice>,
}

/// Returns the stage to which a line moves somebody who is about to log on, and the text that he is
/// shown, if there is one.
pub fn after_line(stage: Stage, said: Said) -> LogonStep
    ensures { result ≡ after_line stage said }
{
    match (stage, said) {
        (Stage::Naming, Said::Both(guess)) => LogonStep {
            stage: Stage::Waiting(guess),
            notice: None,
        },
        (Stage::Naming, Said::Name(name)) => LogonStep {
            stage: Stage::Asking(name),
            notice: Some(Notice::EnterPassword),
        },
        (Stage::Naming, _) => LogonStep {
            stage: Stage::Naming,
            notice: Some(Notice::TypeLogon),
        },
        (Stage::Asking(name), Said::Word(password)) => LogonStep {
            stage: Stage::Waiting(Guess { name, password }),
            notice: Some(Notice::PasswordTaken),
        },
        (Stage::Asking(_), _) => LogonStep {
            stage: Stage::Naming,
            notice: Some(Notice::NoPassword),
        },
        (stage, _) => LogonStep {
            stage,
            notice: None,
        },
    }
}

impl Patience {
    /// Returns these times with a guess that waits from now on: how much time is left to log on,
    /// and since when the guess waits.
    pub fn begun(self, now: u64) -> Patience
        ensures { result ≡ begun self now }
    {
        Patience {
            left: self.deadline.saturating_sub(now),
            due: now,
            ..self
        }
    }

    /// Returns these times with one more wrong guess, and with the time when its answer is due.
    pub fn refused(self, now: u64) -> Patience
        requires { now < 2 ^ 62 }
        ensures { result ≡ refused self now }
    {
        Patience {
            due: now + pause(self.tries),
            tries: self.tries.saturating_add(1),
            ..self
        }
    }

    /// Returns these times with a new deadline, so that the guesser has the time that he had left,
    /// at most a minute.
    pub fn again(self, now: u64) -> Patience
        requires { now < 2 ^ 62 }
        ensures { result ≡ again self now }
    {
        Patience {
            deadline: now + self.left.min(TIME_TO_LOG_ON),
            ..self
        }
    }
}

/// Returns how many milliseconds the answer to a wrong guess waits, after so many other wrong ones.
fn pause(tries: u8) -> u64
    ensures value { result ≡ pause_of tries }
    ensures bounded { result ≤ 2000 }
{
    match tries {
        0 => 500,
        1 => 1000,
        _ => 2000,
    }
}
