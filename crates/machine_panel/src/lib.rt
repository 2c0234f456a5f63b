//! The machine with its operator's panel, but for its storage: what both a bare machine and a user
//! of the control program have, written once.
//!
//! Its one theorem: what a [`Machine`] does when it is let run ([`Machine::run`]), when a line asks
//! something of it alone ([`Machine::answer`]) and at a tick of its timer ([`Machine::tick`]) is
//! what `specs/` defines (docs/MACHINE.md, docs/COMMANDS.md), over any storage that can bring its
//! absent pages; and it brings only pages that these need. If there is no room for one, a run is
//! after the units that it says, and a line or a tick has done nothing.
//!
//! ```
//! use machine_panel::{Machine, Mode, PanelLine};
//! use s370_intr::RealCpu;
//! use s370_num::Addr24;
//! use s370_store::{PlainStorage, store_word};
//! use s370_subchannels::Subchannels;
//!
//! let mut storage = PlainStorage::new(alloc, 4)?;
//! let mut machine = Machine::new(alloc, Subchannels::new(alloc));
//! machine.switch_on(&mut storage);
//! store_word(&mut storage, 0x100, 0x47F0_0100); // a branch to itself
//! machine.answer(&mut storage, PanelLine::Begin(Some(Addr24::wrapping(0x100))))?;
//! assert_eq!(rt; machine.run::<RealCpu, _>(&mut storage, 100).units, 100);
//! machine.answer(&mut storage, PanelLine::Stop)?;
//! assert!(rt; machine.mode() == Mode::Stopped);
//! ```
#![tactic(auto)]

mod commands;
mod display_store;
mod hands;
mod laws;
mod line;
mod machine;
mod ready;
mod run;
mod saved;
mod tick;

pub use display_store::{change, display};
pub use laws::printed_lines_do_not_matter;
pub use line::{LineError, PanelLine};
pub use machine::{Machine, Mode};
pub use run::{MachineRan, notice_of};
