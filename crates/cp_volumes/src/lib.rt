//! Volumes that users share, and their minidisks, which take turns at the units of these volumes.
//!
//! Its one theorem: a user's channel program, and that of an IPL, leaves of his minidisk and of
//! storage what it would leave of a disk of his own ([`UserDisks::run_disk`],
//! [`UserDisks::load_disk`]); every extent on which he may not write is as it was (their clause
//! `others`). No cylinder is copied, and no program takes memory.
//!
//! [`Volumes`] has each volume once, on a unit of its own. [`SharedDisk`] is what a minidisk has
//! next to its cylinders. [`UserDisks`] joins the two while something is done for one user. Begin
//! with `user_disks.rt`.
//!
//! ```
//! use ckd_volume::Volume;
//! use cp_dat::Dat;
//! use cp_frames::Frames;
//! use cp_minidisk::Extent;
//! use user_names::UserNo;
//! use cp_volumes::{SharedDisk, UserDisks, Volumes};
//! use s370_channel::Caw;
//! use s370_num::{DevAddr, StorageKey};
//! use s370_store::{Page, Storage, store_doubleword};
//!
//! let mut frames = Frames::new(alloc, 16, 0, vec![in alloc; 2]?)?; // one user of two pages
//! let mut keys = [StorageKey::ZERO; 4];
//! let mut storage = Dat::new(&mut frames, &mut keys, UserNo::new(0));
//! storage.bring(Page(0))?;
//! store_doubleword(&mut storage, 0x800, 0x0700_0840_0000_0006); // a seek
//! storage.store(0x840, &[0, 0, 0, 1, 0, 0]); // to cylinder 1
//! let volumes = Volumes::new(alloc, vec![in alloc; Volume::blank(alloc, *b"VOL1  ", 6)?]?)?;
//! let extent = Extent::new(3, 2, true).ok_or("no extent")?; // cylinders 3 and 4 of the volume
//! let disk = SharedDisk::new(DevAddr::new(0x191), 0, extent);
//! let mut disks = UserDisks::new(volumes, vec![in alloc; disk]?);
//! let index = disks.disk_at(0x191).ok_or("no disk")?;
//! disks.run_disk(alloc, &mut storage, Caw::from_word(0x800).ok_or("no address")?, index)?;
//! let (_volumes, minidisks) = disks.into_parts();
//! assert_eq!(rt; minidisks[0].minidisk().cylinder(), 1);
//! ```
#![tactic(auto)]

mod running;
mod seen;
mod shared_disk;
mod user_disks;
mod volumes;

pub use seen::SeenDisk;
pub use shared_disk::SharedDisk;
pub use user_disks::UserDisks;
pub use volumes::Volumes;
