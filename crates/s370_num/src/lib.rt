//! What every part of the system stands on: storage addresses, words, device addresses, register
//! numbers, keys and condition codes, each a type of its own that agrees with the whole number
//! which it stands for; EBCDIC; and files of the host whose failures are counted.
//!
//! What is written in EBCDIC is read back as it was. What passes through a file of the host is what
//! was given: `write_all` appends all the bytes or a beginning of them, `read_all` gives all that
//! is left, and each failure of the host is counted and reported by its number.
//!
//! ```
//! use s370_num::ebcdic::{ebcdic_of, printable};
//! use s370_num::{Addr24, Word};
//!
//! assert_eq!(rt; Addr24::wrapping(0x100_0010).get(), 0x10); // an address has 24 bits
//! assert_eq!(rt; Word::from_signed(-1).unsigned(), 0xFFFF_FFFF);
//! assert_eq!(rt; ebcdic_of(b'A'), Some(0xC1));
//! assert_eq!(rt; printable(0xC1), b'A');
//! ```
#![tactic(auto)]

mod address;
pub mod ebcdic;
pub mod host;
mod keys;
mod register;

pub use address::{Addr24, DevAddr, Word};
pub use keys::{AccessKey, ConditionCode, StorageKey};
pub use register::Register;
