//! A machine of its own with its devices: a console, a card reader, a card punch, a line printer
//! and disks.
//!
//! Its one theorem: what [`Bare`] does when it is let run, when a line is typed, at a tick of its
//! timer, when a device is served and when a deck is given ([`Bare::apply`]) is what `specs/`
//! defines (docs/MACHINE.md, docs/COMMANDS.md); and whatever happens, the machine is what its own
//! events leave, in order ([`each_is_life`]). Nobody else is there: its user is `BARE`, to whom
//! messages and punched files go. What it answers is a [`Reply`](machine_devices::Reply), as that
//! of many users is.
//!
//! ```
//! use bare_installation::Bare;
//! use cp_console::responses::Response;
//! use machine_devices::UserResponse;
//! use s370_store::PlainStorage;
//!
//! let mut machine = Bare::without_devices(alloc, PlainStorage::new(alloc, 4)?)?;
//! assert_eq!(rt; machine.line(alloc, b"LOGON")?.said, UserResponse::Said(Response::LogonOk));
//! machine.line(alloc, b"STORE 100 47F00100")?; // a branch to itself
//! machine.line(alloc, b"BEGIN 100")?;
//! assert_eq!(rt; machine.units(100).ran.units, 100);
//! assert_eq!(rt; machine.psw().address().get(), 0x100);
//! ```
#![tactic(auto)]

mod alone;
mod among;
mod bare;
mod forgetting;
mod line;

pub use alone::BARE;
pub use bare::{Bare, attention_agrees_throughout, each_is_life};
pub use forgetting::printed_lines_do_not_matter;
