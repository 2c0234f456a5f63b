//! The channels of a machine: who runs the programs of its devices, and has its disks.
//!
//! Its one theorem: whoever runs a program, what it leaves is the walk of that program, read as
//! [`Channels`] says, and what is next to the disks stays; and so for [`DedicatedChannels`], in
//! which each word is read when it is reached, and next to whose disks nothing is.
//!
//! ```
//! use machine_channels::{Channels, DedicatedChannels, UnitRecord};
//! use s370_channel::Caw;
//! use s370_store::{PlainStorage, Storage, store_doubleword};
//! use s370_walk::UnitStatus;
//! use unit_record::Printer;
//!
//! let mut storage = PlainStorage::new(alloc, 4)?;
//! store_doubleword(&mut storage, 0x800, 0x0900_0840_0000_0005); // write five bytes from 840
//! storage.store(0x840, &[0xC8, 0xC5, 0xD3, 0xD3, 0xD6]); // HELLO
//! let start = Caw::from_word(0x800).ok_or("no address")?;
//! let (mut channels, mut printer) = (DedicatedChannels::new(Vec::new(alloc)), Printer::new(alloc)); // no disks
//! let ending = channels.run(&mut storage, start, UnitRecord::Printer, &mut printer)?;
//! assert!(rt; ending.unit == UnitStatus::ENDED);
//! assert_eq!(rt; printer.entries()[0].bytes(), [0xC8, 0xC5, 0xD3, 0xD3, 0xD6].as_slice());
//! ```
#![tactic(auto)]

mod channels;
mod disks;
mod none;
mod own;
mod running;

pub use channels::{Channels, Disks, UnitRecord};
pub use disks::AttachedDisk;
pub use none::NoDisks;
pub use own::DedicatedChannels;
