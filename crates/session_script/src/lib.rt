//! Scripts: which texts say what happens to machines, and the events that they say.
//!
//! A script's bytes name events exactly where they are a text of the grammar of docs/FORMATS.md,
//! and any other text is refused at its first line that the grammar does not have
//! ([`reads_grammar`] carries that law, [`read_script`] keeps it). A script is judged for the users
//! that there are and the devices that each of them has, which whoever reads it says
//! ([`ScriptUsers`]); what the events do is no matter of this crate. The cards of a deck are lines
//! of the script, and are made when they are asked for ([`Cards::to_vec`]).
//!
//! ```
//! use session_script::{ScriptError, ScriptEvent, ScriptUser, read_script};
//! use user_names::UserNo;
//!
//! let users: &[ScriptUser<'_>] = &[ScriptUser { name: b"A", devices: &[0x191] }];
//! let events = read_script(alloc, &users, b"RUN A 1\nSERVE A 191\n")?;
//! assert!(rt; events[0] == ScriptEvent::Run(UserNo::new(0), 1));
//! assert!(rt; events[1] == ScriptEvent::Serve(UserNo::new(0), 0x191));
//! let refused = read_script(alloc, &users, b"RUN A 1\nSERVE A 192\n").err();
//! assert_eq!(rt; refused, Some(ScriptError::Line(2)));
//! ```
#![tactic(auto)]

mod cards;
mod event;
mod punch;
mod reader;
mod user;

pub use cards::Cards;
pub use event::ScriptEvent;
pub use reader::{ScriptError, read_script, reads_grammar};
pub use user::{ScriptUser, ScriptUsers};
