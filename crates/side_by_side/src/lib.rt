//! A system of the control program, and next to each of its users a bare machine that is given that
//! user's own events.
//!
//! It is for programs that look whether a user sees what the bare machine shows: [`SideBySide`]
//! gives each event to both, and what it delivers to the bare machine of whom it is for, and
//! reports the first [`View`] in which they differ. An event that is out of frames is none of the
//! bare machine, or a run of so many units fewer. Nothing is promised of it but safety; what it
//! compares is what the public calls of `cp_core` and `bare_installation` show.
//!
//! ```
//! use cp_core::Sizes;
//! use user_names::UserNo;
//! use side_by_side::SideBySide;
//!
//! let sizes = Sizes::new(16, 0).ok_or("too many frames")?;
//! let mut machines = SideBySide::boot(alloc, b"USER A PW 8K\n", sizes)?;
//! let a = UserNo::new(0);
//! machines.line(alloc, a, b"LOGON")?;
//! machines.line(alloc, a, b"BEGIN 100")?;
//! assert_eq!(rt; machines.run(a, 1)?.units, 1);
//! machines.compare(a)?;
//! ```
#![tactic(auto)]

mod compare;
mod devices;
mod disks;
mod lines;
mod machines;
mod pages;
mod sequence;
mod view;
mod world;

pub use machines::SideBySide;
pub use sequence::Sequence;
pub use view::{SideError, View};
