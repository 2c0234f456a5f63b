//! Minidisks: extents of a volume, each of which its user sees as a disk of its own.
//!
//! A [`Minidisk`] is what a minidisk has of its own: extent, arm and sense. The cylinders are on
//! the volume, under a unit that is shared. [`Minidisk::mount_on`] makes of both a device of its
//! own, [`Mounted`], which relocates each seek at its end; [`Mounted::dismount`] gives the unit and
//! the minidisk back. None of this takes memory or copies a cylinder.
//!
//! Its one theorem: a user's channel program, as it is, walks on it as on the disk that its user
//! sees, and no other cylinder of the volume changes ([`a_part_walks_as_its_disk`]).
//!
//! ```
//! use ckd_volume::{Arm, Sense, Unit, Volume};
//! use cp_minidisk::{Extent, Minidisk};
//! use s370_walk::{CommandCode, Device, Flags, Order};
//!
//! let sense = Sense { first: 0, second: 0 };
//! let arm = Arm { cylinder: 0, head: 0, home: 0, writable: true, sense };
//! let unit = Unit::new(alloc, Volume::blank(alloc, *b"VOL1  ", 6)?, arm)?;
//! let minidisk = Minidisk::new(Extent::new(3, 2, true).ok_or("no extent")?); // cylinders 3 and 4
//! let mut mounted = minidisk.mount_on(unit);
//! let seek = Order { command: CommandCode { code: 0x07 }, first: true, flags: Flags::NONE };
//! mounted.command(seek)?;
//! mounted.take_bytes(&[0, 0, 0, 1, 0, 0]);
//! mounted.finish();
//! let (unit, minidisk) = mounted.dismount();
//! assert_eq!(rt; (minidisk.cylinder(), unit.arm().cylinder), (1, 4));
//! ```
#![tactic(auto)]

mod extent;
mod laws;
mod minidisk;
mod mounted;

pub use extent::Extent;
pub use laws::{a_part_is_seen_as_its_disk, a_part_keeps_its_extent, a_part_walks_as_its_disk};
pub use minidisk::Minidisk;
pub use mounted::Mounted;
