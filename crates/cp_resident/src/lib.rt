//! Channels of users: a program runs as a whole or not at all, with the pages that it needs, and on
//! volumes that users share.
//!
//! A program that no input can change runs over its own pages, which are held until it has run, and
//! is kept; any other, and that of a loading, is tried first, and then runs over the pages that it
//! touches.
//!
//! Its one theorem ([`GuestChannels`], as [`Channels`](machine_channels::Channels)): what runs is
//! the walk of its user's bytes as they were; only pages that it needs are brought; and where there
//! is no room for one, nothing has happened.
//!
//! ```
//! use machine_channels::{Channels, UnitRecord};
//! use cp_dat::Dat;
//! use cp_frames::Frames;
//! use cp_resident::{GuestChannels, Reuse};
//! use user_names::UserNo;
//! use cp_volumes::Volumes;
//! use s370_channel::Caw;
//! use s370_num::StorageKey;
//! use s370_store::{Page, store_doubleword};
//! use unit_record::Printer;
//!
//! let mut frames = Frames::new(alloc, 16, 0, vec![in alloc; 3]?)?; // one user of three pages
//! let mut keys = [StorageKey::ZERO; 6];
//! let mut storage = Dat::new(&mut frames, &mut keys, UserNo::new(0));
//! storage.bring(Page(0))?;
//! store_doubleword(&mut storage, 0x800, 0x0900_2000_0000_0005); // write five bytes of page 2
//! let (mut volumes, mut minidisks) = (Volumes::none(alloc), Vec::new(alloc)); // no disks
//! let mut reuse = Reuse::empty(alloc, 0)?;
//! let mut channels = GuestChannels::take_from(alloc, &mut volumes, &mut minidisks, &mut reuse);
//! let (start, mut printer) = (Caw::from_word(0x800).ok_or("no address")?, Printer::new(alloc));
//! channels.run(&mut storage, start, UnitRecord::Printer, &mut printer)?;
//! channels.run(&mut storage, start, UnitRecord::Printer, &mut printer)?;
//! channels.return_to(&mut volumes, &mut minidisks, &mut reuse);
//! assert_eq!(rt; printer.entries().len(), 2);
//! assert_eq!(rt; reuse.reuses(), 1); // the second run was of the program that was kept
//! ```
#![tactic(auto)]

mod resident;
mod reuse;

pub use resident::GuestChannels;
pub use reuse::Reuse;
