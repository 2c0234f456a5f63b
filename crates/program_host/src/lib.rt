//! What the programs ask of their host, and how they end: words of the command line, files, standard
//! streams, exit statuses.
//!
//! A program asks for all of that through a [`ProgramHost`], so that a clause can say what it asked
//! for, in which order, and what was done. [`finish`] tells a failure and makes the program's end,
//! which has the exit status.
//!
//! ```
//! use program_host::{UsageError, usage};
//! use std::string::String;
//!
//! let told = usage(String::from_str(alloc, "a path is missing\n").ok());
//! let UsageError::Usage(text) = told else { return Err("no text".into()) };
//! assert_eq!(rt; text.as_str(), "a path is missing\n");
//! ```
#![tactic(auto)]

mod ends;
mod host;
mod images;
pub mod words;

pub use ends::{ProgramEnd, ProgramFailure, finish, wrong_use};
pub use host::{ProcessHost, ProgramHost};
pub use words::{UsageError, usage};
