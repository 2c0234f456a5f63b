//! What is found of a program before it runs.
ghost use Rattle.std.specs.Prelude.{◌≡◌, ◌%◌, IfOk, length};
ghost use Rattle.cp_needs.specs.Judged.{AreNotes, IfAbsent, IfNotes, IfOpen};
ghost use Rattle.cp_needs.specs.Needs.{IsClash, IsFixed, IsHeld, IsProgramPage};
ghost use Rattle.s370_store.specs.Access.{IsAbsent};

use crate::fixed::meet;
use crate::notes::{Notes, notes_of};
use crate::words::words_of;
use s370_store::{Page, Storage};
use std::alloc::{AllocError, Global};

/// What is found of a program.
#[derive(Drop)]
pub(crate) enum Judged {
    /// A page is not present that it needs.
    Page(Page),
    /// Its pages are present, and no input can change it.
    Fixed(Notes),
    /// Its pages are present, and an input could change one of its words or lists.
    SelfModifying,
}

/// Returns what is found of the program at an address: an absent page that it needs, that an input
/// could change it, or its notes, whose words ascend.
pub(crate) fn judge<S: Storage>(
    alloc: Global,
    storage: &S,
    start: u32,
) -> Result<Judged, AllocError>
    requires even { start % 8 ≡ 0 }
    ensures absent { IfOk result
        (λ reported. IfAbsent reported
        (IsAbsent (length (S.memory storage.now).bytes) (S.present storage.now))) }
    ensures needed { IfOk result
        (λ reported. IfAbsent reported (IsProgramPage (S.memory storage.now) start)) }
    ensures fixed { IfOk result
        (λ reported. IfNotes reported (λ notes. IsFixed (S.memory storage.now) start)) }
    ensures held { IfOk result
        (λ reported. IfNotes reported
        (λ notes. IsHeld (S.memory storage.now) start (S.present storage.now))) }
    ensures noted { IfOk result
        (λ reported. IfNotes reported (λ notes. AreNotes (S.memory storage.now) start notes)) }
    ensures open { IfOk result
        (λ reported. IfOpen reported (IsClash (S.memory storage.now) start)) }
{
    let words = match words_of(alloc, storage, start)? {
        Ok(words) => words,
        Err(page) => return Ok(Judged::Page(page)),
    };
    let mut notes = notes_of(alloc, storage, &words)?;
    notes.text.sort_unstable();
    if meet(&notes.text, &notes.filled, storage.size()) {
        return Ok(Judged::SelfModifying);
    }
    Ok(Judged::Fixed(notes))
}
