//! Real storage: frames of 4096 bytes, slots for pages that are given up, and which page of which
//! user is in each.
//!
//! Its one theorem: each user has a storage of his own. A store changes the bytes that it names of
//! the storage of the user who makes it, and no other byte of any user; bringing a page into a
//! frame, and giving up another for it, changes no byte of anyone; and a page that is nowhere is
//! all zero, so whoever is given a frame finds nothing of the one who had it before.
//!
//! [`Frames`] is all of real storage, allotted once by [`Frames::new`]: no call after it takes
//! memory. A contract sees it as the storage of each user, a list of bytes, and as its supply: the
//! page in each frame and in each slot, which frames are pinned, the order in which their pages
//! came, and how many have come. If no frame is free for a page that is wanted, the page longest in
//! its frame among those not pinned is given up for it.
//!
//! ```
//! use cp_frames::Frames;
//! use user_names::UserNo;
//! use s370_store::Page;
//!
//! let (a, b) = (UserNo::new(0), UserNo::new(1));
//! let sizes = vec![in alloc; 4, 4]?; // four pages each
//! let mut frames = Frames::new(alloc, 64, 256, sizes)?;
//! let frame = frames.bring(a, Page(3))?;
//! frames.store(a, 0x3000, &[1, 2, 3]);
//! assert!(rt; frames.frame_of(a, Page(3)) == Some(frame));
//! assert_eq!(rt; frames.byte(a, 0x3001), Some(2));
//! assert_eq!(rt; frames.byte(b, 0x3001), Some(0)); // it is nowhere
//! ```
#![tactic(auto)]

mod frame;
mod numbers;
mod order;
mod owners;
mod paging;
mod pins;
mod pool;
mod saved;
mod table;

pub use numbers::{FRAME_SIZE, FrameNo, UserPage};
pub use pool::Frames;
pub use saved::one_pool_by_saved;
