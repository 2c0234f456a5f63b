//! A session: from a script's bytes to exactly its transcript's bytes, for any installation.
//!
//! What a session writes is what the installation answered to the events that the script names and
//! to the slices and serves that its turns deal ([`session::session`]). After any failure it is a
//! beginning of that. A script may also be given part by part, and is followed
//! ([`follow::Follower`]): the parts joined are one session. A session also goes on from a saved
//! state ([`restored_sessions_go_on`]).
//!
//! A script's bytes name events exactly where they are a text of the grammar of docs/FORMATS.md,
//! and any other text is refused at its first line that the grammar does not have
//! ([`session_script::reads_grammar`] carries that law, [`session_script::read_script`] keeps it).
//! The lines that the transcript has for an event are those of that document, in its order.
//!
//! ```
//! use bare370::machine_of;
//! use s370_num::host::Bytes;
//! use sessions::session::session;
//!
//! let mut machine = machine_of(alloc, 4, Vec::new(alloc))?;
//! let mut transcript = Vec::new(alloc);
//! let mut script = Bytes::new(b"LINE BARE LOGON\nLINE BARE DISPLAY G1\n");
//! session(alloc, &mut machine, &mut script, &mut transcript)?;
//! assert_eq!(rt; transcript.as_slice(), b"BARE: LOGON OK\nBARE: GPR 1 = 00000000\n".as_slice());
//! ```
#![tactic(auto)]

mod acts;
mod alike;
mod answers;
pub mod faults;
pub mod files;
pub mod follow;
mod held;
pub mod installation;
mod joining;
mod known;
mod laws;
mod news;
mod readers;
pub mod schedule;
pub mod seek;
pub mod session;
mod starts;
pub mod transcript;

pub use alike::transcripts_agree;
pub use faults::{PlayError, SessionError};
pub use follow::{Follower, Part, Seeking, parts_are_a_session};
pub use installation::{Installation, Refused};
pub use joining::starts_are_in_order;
pub use laws::{
    a_transcript_is_one, queue_has_who_is_on, restored_sessions_go_on, serve_queue_has_what_works,
    sessions_are_fair,
};
pub use schedule::Detail;
pub use transcript::cuts_back;
