//! The parts of the devices of one machine: a console, a card reader, a card punch and a line
//! printer. Its disks are those of the channels on which its programs run.
//!
//! Their one theorem: each call makes of all the parts what a definition of `specs/` says, and a
//! part that it does not name stays as it was. Where memory is refused all stay.
//!
//! ```
//! use machine_devices::{Devices, AttachedDevice, Places};
//! use cp_spool::Queues;
//! use user_names::UserNo;
//! use s370_num::DevAddr;
//! use unit_record::Target;
//!
//! let places = Places { printer: Some(DevAddr::new(0x00E)), ..Places::NONE };
//! let mut devices = Devices::new(alloc, places, UserNo::new(0));
//! assert!(rt; devices.part_at(0x00E) == Some(AttachedDevice::Printer));
//! assert!(rt; devices.part_at(0x00D).is_none());
//! let mut queues = Queues::new(alloc, 1)?;
//! devices.close_for_logoff(alloc, &mut queues)?;
//! assert_eq!(rt; queues.printed_count(UserNo::new(0)), 0); // nothing was printed
//! assert_eq!(rt; devices.target(), Target::System);
//! ```
#![tactic(auto)]

mod attaching;
mod devices;
mod event;
mod feeding;
mod files;
mod ipl;
mod laws;
mod line;
mod loading;
mod obey;
mod places;
mod reply;
mod request;
pub mod saved;
mod seen;
mod serve;
mod spooling;
mod world;

pub use attaching::AttachError;
pub use devices::Devices;
pub use event::Event;
pub use files::{ClosedFiles, FileKind, FileNote, deck_line};
pub use laws::{
    a_life_comes_to_one_end, attention_agrees, only_lines_turn, printed_lines_do_not_matter,
    what_works_has_a_program, written_files_do_not_matter,
};
pub use line::{LineOutcome, TypedLine};
pub use places::{AttachedDevice, Places};
pub use reply::{Delivered, Delivery, Ended, Reply, UserResponse, said_to_line};
pub use seen::SeenDevices;
pub use spooling::copy_of;
pub use world::{UserDirectory, is_logged_on};
