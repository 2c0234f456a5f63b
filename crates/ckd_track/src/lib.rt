//! A track of a disk with count, key and data.
//!
//! Its one theorem: a [`Track`] is its home address and the list of its records. A call changes
//! what it names and nothing else; a record is refused exactly where its key has more than 255
//! bytes or the track would cost more than it holds ([`Track::push`]); and no call takes memory
//! after [`Track::blank`], which allots the track whole.
//!
//! ```
//! use ckd_track::{Track, TrackFull};
//!
//! let mut track = Track::blank(alloc, [0, 0, 0, 0, 0])?;
//! track.push([0, 0, 0, 0, 1], &[], b"data")?;
//! assert_eq!(rt; track.record(0).content, b"data".as_slice());
//! assert_eq!(rt; track.push([0, 0, 0, 0, 2], &[0; 256], &[]), Err(TrackFull));
//! assert_eq!(rt; track.len(), 1);
//! ```
#![tactic(auto)]

mod entry;
mod track;

pub use entry::Record;
pub use track::{Track, TrackFull};
