//! Channel programs: their words, the test of a start, and their run over any storage, device and
//! form of words.
//!
//! Its one theorem: what [`run`] leaves of storage and device, and the ending that it answers, are
//! those of the walk of `s370_walk`, step by step; and where it stops for a page that is not
//! present, the walk comes to a step which needs that page, and where it stops for lack of memory,
//! to a command that needs memory (GA22-7000, "Execution of Input/Output Operations"). [`run_ipl`]
//! does the same for the program of an initial program loading, whose first command is in no
//! storage.
//!
//! ```
//! use s370_channel::{Csw, Guest, Limits, MOST_COMMANDS, check_start, run};
//! use s370_store::{PlainStorage, Storage, store_doubleword};
//! use unit_record::Printer;
//!
//! let mut storage = PlainStorage::new(alloc, 4)?;
//! store_doubleword(&mut storage, 0x800, 0x0900_0840_0000_0005); // write five bytes from 840
//! storage.store(0x840, &[0xC8, 0xC5, 0xD3, 0xD3, 0xD6]); // HELLO
//! let mut printer = Printer::new(alloc);
//! let start = check_start(&Guest, &storage, 0x800)?.ok_or("no program")?;
//! let limits = Limits { key: start.key, commands: MOST_COMMANDS, prefix: 0 };
//! let ending = run(&Guest, &mut storage, start.address.get(), &limits, &mut printer)?;
//! // the word ends at 808; channel end and device end, and no byte is left
//! assert_eq!(rt; Csw::of_ending(start.key, ending).to_bytes(), [0, 0, 8, 8, 0x0C, 0, 0, 0]);
//! ```
#![tactic(auto)]

mod endings;
mod guest;
mod judging;
mod limits;
mod loading;
mod moving;
mod pieces;
mod room;
mod running;
mod starting;
mod supplied;
mod words;

pub use guest::{Guest, fetch_block, fetch_word};
pub use judging::{Verdict, judge};
pub use limits::Limits;
pub use loading::run_ipl;
pub use room::AmpleSupply;
pub use running::{ChannelError, run};
pub use starting::{MOST_COMMANDS, check_start};
pub use supplied::{load_supplied, run_supplied};
pub use words::{Caw, Csw, StoredCcw};
