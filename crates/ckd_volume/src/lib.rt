//! A disk volume, and the control unit that reads and writes it.
//!
//! Its one theorem: a [`Unit`] is the device that `specs/Table.antt` and `specs/Unit.antt` define,
//! for every command, every place of the head and every file mask: how each command begins, which
//! bytes it gives or wants, and what it leaves of volume, arm and sense (docs/MACHINE.md, "Disks").
//! A command changes no other track than the one under its head.
//!
//! A [`Volume`] is its serial number and the list of its cylinders, each of 19 tracks, all allotted
//! by [`Volume::blank`]: what is written later takes no memory. Each group of commands has a file
//! of its own, here and in `specs/`, with the commands in the same order.
//!
//! ```
//! use ckd_volume::{Arm, Sense, Unit, Volume};
//! use s370_walk::{Answer, CommandCode, Device, Flags, Order};
//!
//! let mut volume = Volume::blank(alloc, *b"SYSRES", 5)?;
//! let track = volume.track_mut(0, 0).ok_or("no track")?;
//! track.push([0, 0, 0, 0, 1], &[], b"data")?;
//! let sense = Sense { first: 0, second: 0 };
//! let arm = Arm { cylinder: 0, head: 0, home: 0, writable: true, sense };
//! let mut unit = Unit::new(alloc, volume, arm)?;
//! let read_data = Order { command: CommandCode { code: 0x06 }, first: true, flags: Flags::NONE };
//! assert_eq!(rt; unit.command(read_data)?, Answer::Input(4));
//! assert_eq!(rt; unit.give(), b'd');
//! ```
#![tactic(auto)]

mod control;
mod cylinder;
mod orientation;
mod panel;
mod parts;
mod read;
mod search;
mod slices;
mod table;
mod trial;
mod unit;
mod volume;
mod write;

pub use control::Seek;
pub use cylinder::{Cylinder, HEADS};
pub use parts::Sense;
pub use trial::UnitTrial;
pub use unit::{Arm, Unit};
pub use volume::{MOST_CYLINDERS, Volume, VolumeError};
