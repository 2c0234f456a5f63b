//! The program status word: each of its fields is its bits of the 64 in storage, and a PSW that is
//! stored and loaded again is the same PSW.
//!
//! ```
//! use s370_psw::{Ilc, Psw};
//!
//! let psw = Psw::from_word(0x0041_0000_2000_1000);
//! assert_eq!(rt; (psw.key().get(), psw.condition().get()), (4, 2));
//! assert!(rt; psw.is_problem());
//! assert_eq!(rt; psw.address().get(), 0x1000);
//! // as SVC 7 stores it, an instruction of one halfword
//! assert_eq!(rt; psw.to_word(7, Ilc::ONE), 0x0041_0007_6000_1000);
//! ```
#![tactic(auto)]

mod length;
mod program;
mod psw;

pub use length::Ilc;
pub use program::ProgramCode;
pub use psw::{Psw, fields_in_range, storing_and_loading};
