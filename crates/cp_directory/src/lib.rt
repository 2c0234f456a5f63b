//! The directory: the text that names the users of the program, and the storage and the devices
//! that each has.
//!
//! A text of the grammar of docs/FORMATS.md is read as exactly the users that it states, and every
//! other text is refused by its first faulty line and that line's first fault ([`read_directory`]).
//! What the grammar says is proved of the reader by [`reads_grammar`]. The users that are read are
//! at most 64, their names differ, and each has a storage that a user may have and at most 32
//! devices of different addresses. No two minidisks of a directory share a cylinder, unless both
//! are read-only.
//!
//! ```
//! use cp_directory::{DirError, read_directory};
//! use user_names::{UserNo, user_of};
//! use s370_num::DevAddr;
//!
//! let directory = read_directory(alloc, b"USER ALPHA SECRET 4M\nUSER B2 X 12K\n")?;
//! assert_eq!(rt; user_of(directory.users(), b"B2"), Some(UserNo::new(1)));
//! assert_eq!(rt; directory.users()[1].storage().pages(), 3);
//! let fault = read_directory(alloc, b"USER ALPHA SECRET 5M\n").err();
//! assert_eq!(rt; fault, Some(DirError::BadStorage(1)));
//! let directory = read_directory(alloc, b"USER A P 8K\nCONSOLE 009 3215\nMDISK 191 3330 5 10 VOL1 W\n")?;
//! let user = &directory.users()[0];
//! assert_eq!(rt; user.devices().console, Some(DevAddr::new(0x009)));
//! let extent = &user.minidisks()[0].extent; // cylinders 5 to 14 of VOL1
//! assert_eq!(rt; (extent.start(), extent.count()), (5, 10));
//! ```
//!
//! A line is judged in two steps. [`spelling`] and [`device_spelling`] read what its words state,
//! whatever is before it. [`reader`] then finds the statement's place among the lines before it, by
//! a list of faults in the order in which they are reported. A new statement is a case in each.
#![tactic(auto)]

mod device_spelling;
mod devices;
mod directory;
mod extent;
mod faults;
mod minidisk;
mod name;
mod reader;
mod spelling;
mod storage;

pub use devices::{DeviceKind, UserDevices};
pub use directory::{Directory, MOST_DEVICES, User};
pub use extent::{DiskExtent, DiskMode, MOST_CYLINDERS, SpelledExtent, Volser};
pub use faults::DirError;
pub use minidisk::MinidiskStatement;
pub use name::UserName;
pub use reader::{read_directory, reads_grammar};
pub use spelling::storage_of;
pub use storage::StorageSize;
