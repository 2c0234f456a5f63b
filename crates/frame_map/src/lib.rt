//! The program `framemap [--frames N] [--slots N] [--save] [--state FILE] DIRECTORY SCRIPT
//! [VOLUME]...`, which says who has which frame and which slot: the map of a system's places, for
//! people (docs/FORMATS.md, "Frame maps").
//!
//! It runs a script as `vm370` does, and then prints the map ([`frame_map`]) in place of the
//! transcript.
//!
//! ```
//! use cp_core::{Sizes, System};
//! use cp_directory::read_directory;
//! use frame_map::frame_map;
//!
//! let directory = read_directory(alloc, b"USER A PW 8K\n")?;
//! let sizes = Sizes::new(16, 0).ok_or("too many frames")?;
//! let system = System::boot(alloc, directory, Vec::new(alloc), sizes)?;
//! let map = frame_map(alloc, &system, sizes)?;
//! assert!(rt; map.as_slice().starts_with(b"FREE FRAMES 16 OF 16\n"));
//! ```
#![tactic(auto)]

mod arguments;
mod map;
mod nowhere;
mod places;
pub mod program;

pub use map::frame_map;
