//! Volumes as the bytes of a saved state, and back.
//!
//! Its one theorem: the bytes that are written are those of one volume ([`one_by_saved`]). What is
//! read is not proved to be the volume that was written: who reads it writes it again and compares.
//!
//! ```
//! use ckd_saved::{put_volume, volume_of};
//! use ckd_volume::Volume;
//! use saved_bytes::Input;
//!
//! let mut volume = Volume::blank(alloc, *b"VOL001", 2)?;
//! let track = volume.track_mut(1, 18).ok_or("no track")?;
//! track.push([0, 1, 0, 18, 1], b"KEY", b"DATA")?;
//! let mut out = Vec::new(alloc);
//! put_volume(&mut out, &volume)?;
//! let read = volume_of(alloc, &mut Input::new(&out))?;
//! let mut again = Vec::new(alloc);
//! put_volume(&mut again, &read)?;
//! assert!(rt; again.as_slice() == out.as_slice());
//! assert!(rt; read.cylinder(1).track(18).record(0).content == b"DATA".as_slice());
//! let short = out.len() - 1;
//! assert!(rt; volume_of(alloc, &mut Input::new(&out[..short])).is_err());
//! ```
#![tactic(auto)]

mod read;
mod write;

pub use read::volume_of;
pub use write::{one_by_saved, put_volume};
