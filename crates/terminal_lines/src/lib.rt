//! What is typed at a terminal: its bytes as lines, and what a line says.
//!
//! A terminal sends bytes, by telnet or plain; [`LineDecoder`] makes lines of them, as RFC 854 has
//! it. One who logs on types LOGON, a name and a password ([`said_of`]); what others type is one of
//! a script, its command in capitals ([`script_line`]). Each function is exactly its definition.
//!
//! ```
//! use terminal_lines::{Decoded, LineDecoder, script_line};
//!
//! let mut decoder = LineDecoder::new(alloc);
//! for byte in b"query\x08y \xff\xf9files" {
//!     assert!(rt; matches!(decoder.take(alloc, *byte)?, Decoded::Nothing));
//! }
//! let Decoded::Line(line) = decoder.take(alloc, b'\r')? else {
//!     return Err("no line")?;
//! };
//! let script = script_line(alloc, false, line.as_slice())?;
//! assert_eq!(rt; script.as_slice(), b"QUERY FILES".as_slice());
//! ```
#![tactic(auto)]

mod bytes;
mod decoder;
mod script;
mod words;

pub use bytes::Bytes;
pub use decoder::{Decoded, Expects, LINE_LENGTH, LineDecoder, printable};
pub use script::script_line;
pub use words::{Guess, Said, in_capitals, said_of};
