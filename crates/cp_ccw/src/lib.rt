//! A guest's channel program, copied and given real addresses, and its run over real storage.
//!
//! Its one theorem ([`run_kept`]): a program no input of which can change its words, and whose
//! pages are in frames, is copied with real addresses ([`cache_program`]) and runs over shared
//! frames, and reaches the end to which it comes over the guest's own storage: the same ending with
//! the guest's addresses, the same device, the same storage byte for byte. Nothing of another
//! user's is changed.
//!
//! ```
//! use cp_ccw::{cache_program, reusable, run_kept};
//! use cp_dat::Dat;
//! use cp_frames::Frames;
//! use cp_needs::{Analysis, analyze};
//! use user_names::UserNo;
//! use s370_channel::{Caw, Limits, MOST_COMMANDS};
//! use s370_num::StorageKey;
//! use s370_store::{Page, store_doubleword};
//! use unit_record::Printer;
//!
//! let mut frames = Frames::new(alloc, 16, 0, vec![in alloc; 3]?)?; // one user of three pages
//! let mut keys = [StorageKey::ZERO; 6];
//! let mut storage = Dat::new(&mut frames, &mut keys, UserNo::new(0));
//! storage.bring(Page(0))?;
//! store_doubleword(&mut storage, 0x800, 0x0900_0840_0000_0005); // write five bytes from 840
//! let start = Caw::from_word(0x800).ok_or("no address")?;
//! let Analysis::Fixed(words, _) = analyze(alloc, &storage, 0x800)? else { return Err("it is fixed")? };
//! let kept = cache_program(alloc, &storage, start, words)?;
//! let limits = Limits { key: start.key, commands: MOST_COMMANDS, prefix: 0 };
//! let ending = run_kept(&kept, &mut storage, start, &limits, &mut Printer::new(alloc))?;
//! assert_eq!(rt; ending.at, 0x800); // the guest's address
//! assert!(rt; reusable(&kept, &storage, start));
//! store_doubleword(&mut storage, 0x800, 0x0900_0840_0000_0004);
//! assert!(rt; !reusable(&kept, &storage, start));
//! ```
//!
//! Real storage ([`Real`]) is what the channel sees while one user's program runs: the pool's
//! frames from address 0, and after them the control program's own area. What is written to a
//! frame is written to the page of the user that is in it, and to nothing of any other user;
//! frames of others, and free ones, are never present.
//!
//! ```
//! use cp_ccw::Real;
//! use cp_dat::Dat;
//! use cp_frames::Frames;
//! use user_names::UserNo;
//! use s370_num::StorageKey;
//! use s370_store::{Page, load_word, store_word};
//!
//! let mut frames = Frames::new(alloc, 16, 0, vec![in alloc; 3]?)?; // one user of three pages
//! let mut keys = [StorageKey::ZERO; 6];
//! let mut storage = Dat::new(&mut frames, &mut keys, UserNo::new(0));
//! let frame = storage.bring(Page(2))?;
//! let mut area = [0; 8];
//! let mut real = Real { dat: &mut storage, frames: 16, area: &mut area };
//! store_word(&mut real, 4096 * u32::from(frame.0), 0x1234_5678);
//! store_word(&mut real, 4096 * 16, 0x9ABC_DEF0); // behind the frames
//! assert_eq!(rt; load_word(&storage, 0x2000), 0x1234_5678);
//! assert_eq!(rt; area, [0x9A, 0xBC, 0xDE, 0xF0, 0, 0, 0, 0]);
//! ```
#![tactic(auto)]

mod direct;
mod kept;
mod known;
mod laws;
mod real;
mod reuse;
mod running;
mod table;

pub use direct::{is_valid, know};
pub use kept::{CachedProgram, PageInFrame};
pub use known::CachedPages;
pub use laws::{held_programs_are_mapped, real_storage_is_mapped};
pub use real::Real;
pub use reuse::{cache_program, reusable, run_kept};
pub use running::run_translated;
pub use table::Table;
