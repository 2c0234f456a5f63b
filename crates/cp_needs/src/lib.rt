//! A guest's channel program: its words, copied from his storage, and which pages it needs.
//!
//! The copy ([`copy`]) walks as the guest's program does with its words as they were when it was
//! copied. Given a storage and the address of a command word, it leaves each word that the program
//! can reach (by the next word under chaining, by the word after it under command chaining, by a
//! transfer in channel) at a place of its own, once for each role in which it is reached: as a
//! command of its own, or as one that continues the data area of the word before.
//!
//! ```
//! use cp_needs::{CopyError, copy};
//! use s370_store::{PlainStorage, store_doubleword};
//!
//! let mut storage = PlainStorage::new(alloc, 4)?;
//! store_doubleword(&mut storage, 0x800, 0x0100_0900_4000_0050); // punch a card, and chain
//! store_doubleword(&mut storage, 0x808, 0x0800_0800_0000_0000); // a transfer back to 800
//! let copied = match copy(alloc, &storage, 0x800) {
//!     Ok(copied) => copied,
//!     Err(CopyError::Memory) => return Err("no memory")?,
//!     Err(CopyError::Absent(page)) => return Err(page)?,
//! };
//! assert_eq!(rt; copied.places.len(), 3);
//! // the word after the next one, which the device could choose
//! assert!(rt; copied.places.iter().any(|place| place.address == 0x810));
//! ```
//!
//! The pages that a program needs are those with a byte of a word that the program can reach, of
//! the list of its area, or of the area. A program whose inputs could change one of its own words
//! may come to words that nobody could see before. By [`fixed_programs_need_their_pages`], where no
//! area that an input may fill has a byte of a word or a list, whatever the device answers, the
//! program walks by the words with which it began, and needs no page but those. So [`analyze`] says
//! a page of the program that is not present, or that there is such an area, or the words of the
//! program; and where it says these, [`run_held`] never stops at an absent page.
//!
//! ```
//! use cp_needs::{Analysis, analyze, run_held};
//! use s370_channel::{Limits, MOST_COMMANDS};
//! use s370_num::AccessKey;
//! use s370_store::{Page, PlainStorage, store_doubleword};
//! use unit_record::Printer;
//!
//! let mut storage = PlainStorage::new(alloc, 4)?;
//! store_doubleword(&mut storage, 0x800, 0x0200_0800_0000_0050); // reads a card over its own word
//! assert!(rt; matches!(&analyze(alloc, &storage, 0x800)?, Analysis::SelfModifying));
//! store_doubleword(&mut storage, 0x800, 0x0900_1000_0000_0005); // writes five bytes of page 1
//! let Analysis::Fixed(_, pages) = analyze(alloc, &storage, 0x800)? else { return Err("it is fixed")? };
//! assert_eq!(rt; pages.as_slice(), [Page(1)].as_slice());
//! let limits = Limits { key: AccessKey::ZERO, commands: MOST_COMMANDS, prefix: 0 };
//! run_held(&mut storage, 0x800, &limits, &mut Printer::new(alloc))?;
//! ```
#![tactic(auto)]

mod areas;
mod copying;
mod demand;
mod fixed;
mod index;
mod kept;
mod laws;
mod lists;
mod notes;
mod pages;
mod program;
mod running;
mod slots;
mod words;

pub use copying::copy;
pub use kept::{Analysis, WordAt, analyze, stands};
pub use laws::fixed_programs_need_their_pages;
pub use program::{Copied, CopyError, Node};
pub use running::run_held;
