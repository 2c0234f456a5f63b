//! A program's words as they were, and whether they are so still.
ghost use Rattle.std.specs.Prelude.{◌≡◌, ◌+◌, ◌*◌, ◌%◌, ◌<◌, ◌≤◌, All, Contains, IfOk, OnOk, false};
ghost use Rattle.std.specs.Prelude.{length, true, ℕ};
ghost use Rattle.s370_store.specs.Access.{IsAbsent, IsGranted};
ghost use Rattle.cp_needs.specs.Kept.{IsAdded, IfFound, IfOpen, IfPages, IfText, IsAsItStood};
ghost use Rattle.cp_needs.specs.Kept.{IsPaged, IsPagedOnly, IsText, IsTextOnly, fullword_at};
ghost use Rattle.cp_needs.specs.declared.kept.WordAt.{WordAt};
ghost use Rattle.cp_needs.specs.Needs.{IsClash, IsFixed, IsHeld, IsProgramPage};

use crate::demand::{Judged, judge};
use s370_num::AccessKey;
use s370_store::{Access, Page, Range, Storage};
use std::alloc::{AllocError, Global};

/// A fullword in which a part of a program's words or lists lies, as it was.
#[derive(Clone, Copy, PartialEq, Eq)]
pub struct WordAt {
    /// The address of its first byte.
    pub start: u32,
    /// Its bytes.
    pub bytes: [u8; 4],
}

/// Returns whether a fullword has the same bytes in storage as it had, on a page that is present.
fn is_as_it_stood<S: Storage>(storage: &S, word: &WordAt) -> bool
    ensures as_it_stood { result ≡ true
        → IsAsItStood (S.memory storage.now).bytes (S.present storage.now) word.now }
    ensures other { IsAsItStood (S.memory storage.now).bytes (S.present storage.now) word.now
        → result ≡ true }
{
    // Exhaustive: a new field fails to compile here.
    let WordAt {
        start,
        bytes: as_stood,
    } = word;
    match storage.check(
        Range {
            start: *start,
            count: 4,
        },
        Access::Fetch,
        AccessKey::ZERO,
    ) {
        Ok(()) => {}
        Err(_) => return false,
    }
    let mut bytes = [0u8; 4];
    storage.load(*start, &mut bytes);
    bytes == *as_stood
}

/// Returns whether each of these fullwords has the same bytes in storage as it had, on a page that
/// is present.
pub fn stands<S: Storage>(storage: &S, text: &[WordAt]) -> bool
    ensures as_it_stood { result ≡ true
        → All (IsAsItStood (S.memory storage.now).bytes (S.present storage.now)) text.now }
    ensures other { All (IsAsItStood (S.memory storage.now).bytes (S.present storage.now)) text.now
        → result ≡ true }
{
    for word in text {
        if !is_as_it_stood(storage, word) {
            return false;
        }
    }
    true
}

/// Returns the fullword at this address, with the bytes that it has in storage.
fn fullword_from<S: Storage>(storage: &S, start: u32) -> WordAt
    requires { IsGranted (length (S.memory storage.now).bytes) (S.present storage.now) start 4 }
    ensures { result ≡ fullword_at (S.memory storage.now).bytes start }
{
    let mut bytes = [0u8; 4];
    storage.load(start, &mut bytes);
    WordAt { start, bytes }
}

/// Appends the fullword of a number, a fourth of its address, with the bytes that it has in
/// storage; one that is not whole in storage is left out.
fn add<S: Storage>(storage: &S, number: u32, text: &mut Vec<WordAt>) -> Result<(), AllocError>
    requires { number * 4 + 4 ≤ length (S.memory storage.now).bytes
        → IsGranted (length (S.memory storage.now).bytes) (S.present storage.now) (number * 4) 4 }
    ensures { OnOk result
        (IsAdded (S.memory storage.now).bytes (S.present storage.now) number text.old.items
        text.new.items) }
{
    let start = u64::from(number) * 4;
    if start + 4 > u64::from(storage.size()) {
        return Ok(());
    }
    text.push(fullword_from(storage, start as u32))?;
    Ok(())
}

/// Returns the fullwords of these numbers, each a fourth of an address, with the bytes that they
/// have in storage; those that are not whole in storage are left out.
fn fullwords<S: Storage>(
    alloc: Global,
    storage: &S,
    numbers: &[u32],
) -> Result<Vec<WordAt>, AllocError>
    requires here { (n : ℕ) → Contains numbers.now n
        → n * 4 + 4 ≤ length (S.memory storage.now).bytes
        → IsGranted (length (S.memory storage.now).bytes) (S.present storage.now) (n * 4) 4 }
    ensures all { IfOk result (λ text. (n : ℕ) → Contains numbers.now n
        → n * 4 + 4 ≤ length (S.memory storage.now).bytes
        → Contains text.items (fullword_at (S.memory storage.now).bytes (n * 4))) }
    ensures stands { IfOk result
        (λ text. All (IsAsItStood (S.memory storage.now).bytes (S.present storage.now))
        text.items) }
    ensures only { IfOk result (λ text. (w : WordAt) → Contains text.items w
        → (n : ℕ) × Contains numbers.now n
        × (w ≡ fullword_at (S.memory storage.now).bytes (n * 4))) }
{
    let mut text = Vec::new(alloc);
    for number in numbers {
        add(storage, *number, &mut text)?;
    }
    Ok(text)
}

/// What is found of a program before it runs, and its words where no input can change them.
#[derive(Drop)]
pub enum Analysis {
    /// A page is not present that it needs.
    Page(Page),
    /// Its pages are present, and no input can change these fullwords, in which its words and lists
    /// lie; their areas lie on these pages.
    Fixed(Vec<WordAt>, Vec<Page>),
    /// Its pages are present, and an input could change one of its words or lists.
    SelfModifying,
}

/// Returns what is found of the program from an address on: its first page that is not present,
/// else that an input could change it, or its words and the pages of its areas.
///
/// Pages are looked at breadth first from the start: of each word its own page first and then those
/// of its area upwards.
///
/// # Errors
///
/// `AllocError` if memory is refused.
pub fn analyze<S: Storage>(alloc: Global, storage: &S, start: u32) -> Result<Analysis, AllocError>
    requires even { start % 8 ≡ 0 }
    requires whole { length (S.memory storage.now).bytes % 4 ≡ 0 }
    ensures absent { IfOk result (λ found. IfFound found
        (IsAbsent (length (S.memory storage.now).bytes) (S.present storage.now))) }
    ensures needed { IfOk result
        (λ found. IfFound found (IsProgramPage (S.memory storage.now) start)) }
    ensures fixed { IfOk result
        (λ found. IfText found (λ text. IsFixed (S.memory storage.now) start)) }
    ensures held { IfOk result (λ found. IfText found
        (λ text. IsHeld (S.memory storage.now) start (S.present storage.now))) }
    ensures text { IfOk result (λ found. IfText found (IsText (S.memory storage.now) start)) }
    ensures only { IfOk result (λ found. IfText found (IsTextOnly (S.memory storage.now) start)) }
    ensures stands { IfOk result (λ found. IfText found
        (All (IsAsItStood (S.memory storage.now).bytes (S.present storage.now)))) }
    ensures pages { IfOk result (λ found. IfPages found (IsPaged (S.memory storage.now) start)) }
    ensures pages_only { IfOk result
        (λ found. IfPages found (IsPagedOnly (S.memory storage.now) start)) }
    ensures open { IfOk result (λ found. IfOpen found (IsClash (S.memory storage.now) start)) }
{
    let notes = match judge(alloc, storage, start)? {
        Judged::Page(page) => return Ok(Analysis::Page(page)),
        Judged::SelfModifying => return Ok(Analysis::SelfModifying),
        Judged::Fixed(notes) => notes,
    };
    let text = fullwords(alloc, storage, &notes.text)?;
    Ok(Analysis::Fixed(text, notes.pages))
}
