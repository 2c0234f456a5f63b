//! The program `logondesk [FILE]`: lines with what happens come from a file or at standard input,
//! and lines with what is to be done then go to standard output. `frame.rt` has the ones,
//! `printing.rt` the others. A [`Session`] has what is kept between two lines.
//!
//! ```
//! use logon_desk_cli::Session;
//!
//! let mut session = Session::new(alloc);
//! assert!(rt; session.take(alloc, b"USER 0 414C494345")?);
//! assert!(rt; session.take(alloc, b"ROOM 0 4")?);
//! assert_eq!(rt; session.printed(), b"THAT 0000\n".as_slice());
//! ```
#![tactic(auto)]

mod faults;
mod frame;
mod laws;
mod printing;
pub mod program;

pub use faults::DeskFailure;
pub use laws::are_one_history;
pub use program::Session;
