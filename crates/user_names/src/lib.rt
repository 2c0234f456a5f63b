//! The users of the system: their numbers, and how a text names them.
//!
//! A user's number is its place in the directory, from 0, and less than [`MOST_USERS`]. In a
//! contract a [`UserNo`] is that number itself. A name is that of the first user who has it
//! ([`user_of`]), and a number leads back to the name ([`name_of`]).
//!
//! ```
//! use user_names::{UserNo, name_of, user_of};
//!
//! let users = [b"ALPHA".as_slice(), b"OPER".as_slice()];
//! assert_eq!(rt; user_of(&users, b"OPER"), Some(UserNo::new(1)));
//! assert_eq!(rt; user_of(&users, b"BETA"), None);
//! assert_eq!(rt; name_of(&users, UserNo::new(0)), b"ALPHA".as_slice());
//! ```
#![tactic(auto)]

mod named;
mod number;

pub use named::{Named, name_of, user_of};
pub use number::{MOST_USERS, UserNo};
