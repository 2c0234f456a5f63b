//! Interruptions and units of operation: what a running processor does next, and one unit after
//! another.
//!
//! Its one theorem: [`run_units`] does what `run` in `specs/` defines: before each unit the
//! processor looks, and then it stops, accepts external conditions, or does an instruction with the
//! interruption, or the answer of a device, that it ends in (IBM System/370 Principles of
//! Operation, GA22-7000, "Interruptions"). It is written once, over any storage that can bring its
//! absent pages ([`s370_store::Supply`]) and for any [`Processor`]: a real one, and the virtual one
//! of a guest. If there is no room for a page, the run is exactly after the units that it says, and
//! only pages that its units need were brought; and these are few: a unit needs at most nine
//! ([`a_unit_needs_at_most_nine_pages`]).
//!
//! ```
//! use s370_intr::{Pending, RealCpu, Reason, run_units};
//! use s370_psw::Psw;
//! use s370_rows::Cpu;
//! use s370_store::{PlainStorage, load_doubleword, store_doubleword, store_halfword};
//! use s370_subchannels::Subchannels;
//!
//! let mut cpu = Cpu { general: [0; 16], control: [0; 16], psw: Psw::from_word(0x1000) };
//! let (mut pending, mut devices) = (Pending::NOTHING, Subchannels::new(alloc));
//! let mut storage = PlainStorage::new(alloc, 4)?;
//! store_halfword(&mut storage, 0x1000, 0x0A07); // SVC 7
//! store_doubleword(&mut storage, 0x60, 0x0002_0000_0000_0000); // its new PSW waits
//! let ran = run_units::<RealCpu, _>(&mut cpu, &mut pending, &mut devices, &mut storage, 100);
//! assert!(rt; ran.reason == Reason::DisabledWait);
//! assert_eq!(rt; ran.units, 1);
//! assert_eq!(rt; load_doubleword(&storage, 0x20), 0x0000_0007_4000_1002); // the old PSW
//! ```
#![tactic(auto)]

mod class;
mod code_blocks;
mod input_output;
mod laws;
mod left_out;
mod next;
mod pending;
mod psw_swap;
mod run;
mod timer;
mod unit;

pub use class::Class;
pub use laws::a_unit_needs_at_most_nine_pages;
pub use next::{Next, Reason, look};
pub use pending::Pending;
pub use psw_swap::swap;
pub use run::{Ran, run_units};
pub use timer::tick;
pub use unit::{Processor, RealCpu, accept, accept_status, instruct};
