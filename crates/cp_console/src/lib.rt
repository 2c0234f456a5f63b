//! The console of a user: the lines typed at it, the commands that they give, and the responses.
//!
//! One theorem: a text is read as exactly the command that the grammar of `docs/COMMANDS.md` gives
//! it, and a text that the grammar refuses is reported by its first wrong, missing or surplus word
//! ([`commands::read_command`], [`commands::reads_grammar`]).
//!
//! Before that a line is cut and cleaned ([`lines::ConsoleText`]), and its first word says whether
//! it speaks to the control program ([`lines::asked_of`]). What a response says is one text
//! ([`printing::reply`]).
//!
//! ```
//! use cp_console::commands::{Command, CommandError, DisplayItem, read_command};
//! use cp_console::lines::{Asked, ConsoleText, asked_of};
//! use cp_console::printing::reply;
//! use cp_console::responses::Response;
//! use s370_num::Addr24;
//!
//! let line = ConsoleText::new(b"#CP DISPLAY 20");
//! assert!(rt; asked_of(line.as_slice()) == Asked::Command(b"DISPLAY 20"));
//! let place = DisplayItem::Storage(Addr24::wrapping(0x20));
//! assert_eq!(rt; read_command(b"DISPLAY 20"), Ok(Command::Display(place)));
//! assert_eq!(rt; read_command(b"DISPLAY G16"), Err(CommandError::Operand(1)));
//! assert_eq!(rt; reply(alloc, &Response::BadOperand(1))?.as_slice(), b"BAD OPERAND 1".as_slice());
//! ```
#![tactic(auto)]

pub mod commands;
pub mod console_line;
pub mod device_commands;
pub mod line_part;
pub mod lines;
mod operands;
pub mod output;
pub mod printing;
mod reading;
pub mod responses;
mod texts;

pub use operands::StoredBytes;
