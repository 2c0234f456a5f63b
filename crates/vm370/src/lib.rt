//! The program `vm370`: the machines of many users on one system, as a session's installation.
//!
//! What a session writes is what the control program answered to the events that the script names
//! and to the slices and serves that its turns deal ([`SharedMachines`], as
//! [`Installation`](sessions::Installation)), and each reply is what a bare machine says: the
//! events of a session are a history of the system ([`sessions_are_histories`]).
//!
//! ```
//! use cp_core::{Sizes, System};
//! use cp_directory::read_directory;
//! use s370_num::host::Bytes;
//! use sessions::session::session;
//! use vm370::SharedMachines;
//!
//! let directory = read_directory(alloc, b"USER A PW 8K\nUSER B PW 8K\n")?;
//! let sizes = Sizes::new(16, 0).ok_or("too many frames")?;
//! let mut machines = SharedMachines::new(System::boot(alloc, directory, Vec::new(alloc), sizes)?);
//! let mut transcript = Vec::new(alloc);
//! let mut script = Bytes::new(b"LINE A LOGON\nLINE B LOGON\nLINE A STORE 100 0A07\n");
//! session(alloc, &mut machines, &mut script, &mut transcript)?;
//! assert_eq!(rt; transcript.as_slice(), b"A: LOGON OK\nB: LOGON OK\nA: STORED\n".as_slice());
//! ```
#![tactic(auto)]

pub mod arguments;
pub mod boot_faults;
pub mod follow_arguments;
mod installation;
mod laws;
pub mod program;
pub mod runs;

pub use installation::SharedMachines;
pub use laws::{boots_are_of_one_base, sessions_are_histories, transcripts_are_one};
