//! The program `bare370`: one machine of its own with its devices, as a session's installation.
//!
//! The events and turns of a script happen to the machine one after another, and what is written is
//! their transcript, or on any error a beginning of it (`sessions`). Scripts are those of the
//! control program with one user, [`BARE`](bare_installation::BARE); what the machine does is what
//! [`Bare`](bare_installation::Bare) does ([`OneMachine`], as
//! [`Installation`](sessions::Installation)), and the transcript has the same lines. If a script
//! names one user, both programs print the same, but for the user's name.
//!
//! ```
//! use bare370::machine_of;
//! use sessions::{Detail, Follower, Part};
//!
//! let mut transcript = Vec::new(alloc);
//! let machine = machine_of(alloc, 4, Vec::new(alloc))?; // 8 KiB, and no volume
//! let follower = Follower::begin(alloc, machine, Detail::Whole)?;
//! let follower = match follower.part(alloc, b"LINE BARE LOGON\nLINE BARE STORE 100 0A07\n", &mut transcript)? {
//!     Part::Done(follower) => follower,
//!     Part::Refused(_, line) => return Err(line)?,
//! };
//! let machine = follower.close(&mut transcript)?;
//! assert_eq!(rt; transcript.as_slice(), b"BARE: LOGON OK\nBARE: STORED\n".as_slice());
//! assert_eq!(rt; machine.machine().storage()[0x100], 0x0A);
//! ```
#![tactic(auto)]

pub mod arguments;
pub mod follow_arguments;
mod installation;
mod laws;
pub mod program;
pub mod runs;

pub use arguments::{BareOptions, bare_arguments};
pub use installation::{OneMachine, machine_of};
pub use laws::sessions_are_histories;
pub use program::bare_program;
