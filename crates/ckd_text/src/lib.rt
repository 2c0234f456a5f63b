//! Volumes as texts.
//!
//! A text states a volume (docs/FORMATS.md, "Volume texts"), and [`make_volume`] makes exactly the
//! volume that it states, or says its first wrong line ([`reads_grammar`] says so of the grammar);
//! [`mkvol`] is the program that does so with files. [`track_map`] says what a volume has
//! (docs/FORMATS.md, "Track maps"), and [`trackmap`] is its program.
//!
//! ```
//! use ckd_text::{TextError, make_volume, track_map};
//!
//! let volume = make_volume(alloc, b"VOLUME WORK01 10\nREC 0 0 0000000001 - C1C2\n")?;
//! assert_eq!(rt; volume.count(), 10);
//! assert_eq!(rt; volume.cylinder(0).track(0).record(0).content, [0xC1, 0xC2].as_slice());
//! let map = track_map(alloc, &volume)?;
//! assert!(rt; map.as_slice().starts_with(b"VOLUME WORK01 CYLINDERS 10\n"));
//! assert!(rt; make_volume(alloc, b"VOLUME WORK01 10\nREC\n").err() == Some(TextError::Line(2)));
//! ```
#![tactic(auto)]

pub mod arguments;
pub mod faults;
mod fields;
mod map;
pub mod mkvol;
mod reader;
mod statement;
pub mod trackmap;

pub use faults::ToolFailure;
pub use map::track_map;
pub use reader::{TextError, make_volume, reads_grammar};
