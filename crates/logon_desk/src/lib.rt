//! The logon desk: who is let in to whose machine.
//!
//! People come by connections, and type bytes, by telnet or plain. The desk makes lines of them
//! (`terminal_lines`), asks for a name and a password, and asks the host whether these are right;
//! from then on each line that is typed there is one of the script for that user, and each line of
//! the transcript for him is shown there. It has no socket, no clock, no file and no password: each
//! call of [`LogonDesk`] is told what has happened, and adds to [`Outputs`] what is to be done.
//!
//! One theorem ([`keeps_its_promises`]), over whatever happens: a line is typed for a user, and his
//! lines are shown, only where somebody has given the name and the password of his since the
//! connection was opened, and the host has said that they are right; each line is typed and shown
//! there; no byte is lost, read twice or left from another connection; nothing but the question to
//! the host has a password; a guess waits only for those at its name from its address, one after
//! another, and for four seconds at most after the last; and all that is kept has bounds. Each call is exact on what it changes and adds, so nothing
//! else is done.
//!
//! ```
//! use logon_desk::{LogonDesk, Outputs};
//! use terminal_lines::{Bytes, Guess};
//! use user_names::UserNo;
//!
//! let names = [Bytes::of(alloc, b"ALICE")?];
//! let mut desk = LogonDesk::new(alloc, &names, 2)?;
//! let mut out = Outputs::new(alloc);
//! desk.open(alloc, 0, 7, 1000, &mut out)?;
//! desk.receive(alloc, 0, b"logon alice wonder\r", &mut out)?;
//! for _ in 0..19 {
//!     desk.take(alloc, 0, 1000, &mut out)?;
//! }
//! desk.wake(alloc, 0, 1000, &mut out)?;
//! let guess = Guess {
//!     name: Bytes::of(alloc, b"ALICE")?,
//!     password: Bytes::of(alloc, b"WONDER")?,
//! };
//! desk.answer(alloc, 0, &guess, true, 1000, &mut out)?;
//! assert_eq!(rt; desk.terminal_of(UserNo::new(0)), Some(0));
//! ```
#![tactic(auto)]

mod account;
mod connection;
mod desk;
mod guesses;
mod laws;
mod output;
mod strangers;
mod turns;
mod waiting;

pub use account::{Account, KEPT_LINES, KeptLine, KeptLines};
pub use connection::{Connection, LogonStep, Patience, Stage, TIME_TO_LOG_ON, after_line};
pub use desk::{LONGEST_SHOWN, LogonDesk, MOST_WAITING};
pub use guesses::{
    GuessedName, Guesses, LONGEST_REMEMBERED, LONGEST_WAIT, MOST_GUESSED, REMEMBERED,
};
pub use laws::keeps_its_promises;
pub use output::{DeskAction, JournalEntry, Notice, Outputs};
pub use waiting::WaitingBytes;
