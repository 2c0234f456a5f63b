//! The decks of all users' readers.
ghost use Rattle.std.specs.Prelude.{◌≡◌, ◌<◌, IfOk, length};
ghost use Rattle.sessions.specs.Readers.{reader_lines};
ghost use Rattle.sessions.specs.Transcript.{ended};

use crate::installation::Installation;
use crate::transcript::{append_decks, names};
use std::alloc::{AllocError, Global};
use user_names::UserNo;

/// Returns the lines that `QUERY FILES` shows each user, in the order of their numbers, each ended
/// by LF.
///
/// ```text
/// A: FILE 0012 FROM B CARDS 3
/// ```
pub(crate) fn reader_lines<I: Installation>(
    alloc: Global,
    installation: &I,
) -> Result<Vec<u8>, AllocError>
    ensures { IfOk result (λ text. text.items
        ≡ ended (reader_lines (I.goes.seen installation.now)
        (length (I.goes.seen installation.now).users))) }
{
    let names = names(alloc, installation)?;
    let mut text = Vec::new(alloc);
    for number in 0..installation.users() {
        let user = UserNo::new(number as u8);
        append_decks(alloc, &mut text, installation, &names, user)?;
    }
    Ok(text)
}
