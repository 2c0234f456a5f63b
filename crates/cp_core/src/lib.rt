//! The control program: many users on one System/370.
//!
//! Its one theorem: whatever the events, each user has the machine that a bare System/370 is after
//! that user's own events ([`System::apply`], clause `views`, and [`each_is_bare`] for whole
//! histories); each reply says what a bare machine says, or that it is out of frames (`reported`);
//! and only pages that the event needs are brought into frames, where others are given up to slots
//! for them, and both are given back where the machine is switched on (`supplied`). What is written
//! to a frame that is borrowed ([`System::frame_mut`]) is the content of the page that is in it,
//! and all else stays.
//!
//! It is given a directory, the volumes of its minidisks, and the numbers of frames and slots
//! ([`System::boot`]), and then one event after another.
//!
//! ```
//! use cp_console::responses::Response;
//! use cp_core::{Event, Sizes, System};
//! use machine_devices::UserResponse;
//! use cp_directory::read_directory;
//! use user_names::UserNo;
//!
//! let directory = read_directory(alloc, b"USER A PW 8K\nUSER B PW 8K\n")?;
//! let sizes = Sizes::new(16, 0).ok_or("too many frames")?;
//! let mut system = System::boot(alloc, directory, Vec::new(alloc), sizes)?;
//! let (a, b) = (UserNo::new(0), UserNo::new(1));
//! let reply = system.apply(&Event::Line(a, b"LOGON"))?;
//! assert_eq!(rt; reply.said, UserResponse::Said(Response::LogonOk));
//! system.apply(&Event::Line(b, b"LOGON"))?;
//! system.apply(&Event::Line(a, b"STORE G1 0000002A"))?;
//! let first = |user| system.registers(user).map(|general| general[1]);
//! assert_eq!(rt; (first(a), first(b)), (Some(42), Some(0)));
//! ```
#![tactic(auto)]

mod boot;
mod delivery;
mod events;
mod forgetting;
mod laws;
mod lines;
mod loan;
mod ready;
mod saved;
mod serving;
mod system;
mod user_machine;
mod views;
mod work;
mod world;

pub use boot::Sizes;
pub use cp_frames::{FRAME_SIZE, FrameNo};
pub use cp_volumes::SeenDisk;
pub use events::{BootError, CpError};
pub use forgetting::printed_lines_do_not_matter;
pub use laws::{a_reply_is_one, each_equals_a_bare_machine};
pub use machine_devices::Event;
pub use saved::one_by_saved;
pub use system::{System, each_is_bare};
