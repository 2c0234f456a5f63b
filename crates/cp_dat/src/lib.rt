//! One user's storage, lent from the frames.
//!
//! [`Dat`] lends one user's pages, with his keys, as a `Storage` over which a processor runs, as a
//! `Supply`, which brings his absent pages and pins them, and as a `UnitSupply`, which takes the
//! pins away when a unit ends.
//!
//! Its one theorem: what is done to a storage that is borrowed is done to its user's bytes and
//! keys, and to nobody else's. What comes into frames is reported as units, each of them pages that
//! came one after another, and none of them twice ([`a_page_comes_once_for_a_unit`]).
//!
//! ```
//! use cp_dat::Dat;
//! use cp_frames::Frames;
//! use user_names::UserNo;
//! use s370_num::{AccessKey, StorageKey};
//! use s370_store::{Access, Fault, Page, Range, Storage, load_byte};
//!
//! let mut frames = Frames::new(alloc, 16, 0, vec![in alloc; 4]?)?; // one user of four pages
//! let mut keys = [StorageKey::ZERO; 8];
//! let mut storage = Dat::new(&mut frames, &mut keys, UserNo::new(0));
//! let range = Range { start: 0x3000, count: 3 };
//! let absent = storage.check(range, Access::Store, AccessKey::ZERO);
//! assert_eq!(rt; absent, Err(Fault::Absent(Page(3))));
//! storage.bring(Page(3))?;
//! storage.check(range, Access::Store, AccessKey::ZERO)?;
//! storage.store(0x3000, &[1, 2, 3]);
//! assert_eq!(rt; load_byte(&storage, 0x3001), 2);
//! ```
#![tactic(auto)]

mod copies;
mod dat;
mod laws;
mod sparse;

pub use dat::Dat;
pub use laws::a_page_comes_once_for_a_unit;
pub use sparse::SparseBytes;
