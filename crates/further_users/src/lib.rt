//! A state with further users: what a system is that is saved as the state of another one, with the
//! users that a boot over a longer directory has more.
//!
//! An installation that takes users while people are on puts the bytes of these users, as a program
//! saves them at its boot, behind those of the users who are there, and has a program over the
//! longer directory restore that. What it restores is saved as these bytes, or is refused. So the
//! law here says what it is: everybody of before with his machine, devices, minidisks and storage
//! exactly as they were, and after them users as the boot has them.
//!
//! ```
//! use cp_core::{Sizes, System};
//! use cp_directory::read_directory;
//! use further_users::further_users_change_nobody;
//! use user_names::UserNo;
//!
//! let sizes = Sizes::new(16, 0).ok_or("too many frames")?;
//! let directory = read_directory(alloc, b"USER A PW 8K\n")?;
//! let longer = read_directory(alloc, b"USER A PW 8K\nUSER B PW 8K\n")?;
//! let system = System::boot(alloc, directory, Vec::new(alloc), sizes)?;
//! let booted = System::boot(alloc, longer, Vec::new(alloc), sizes)?;
//! let mut before = Vec::new(alloc);
//! system.save_user(UserNo::new(0), &mut before)?;
//! let mut after = Vec::new(alloc);
//! booted.save_user(UserNo::new(0), &mut after)?;
//! assert!(rt; before.as_slice() == after.as_slice());
//! further_users_change_nobody();
//! ```
#![tactic(auto)]

mod laws;

pub use laws::{further_users_change_nobody, further_users_take_no_turn};
