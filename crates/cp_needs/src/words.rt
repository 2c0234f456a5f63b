//! The words of a program, and the first of its pages that is not present.
ghost use Rattle.std.specs.Prelude.{◌≡◌, ◌+◌, ◌*◌, ◌/◌, ◌%◌, ◌<◌, ◌≤◌, IfErr, IfNone, IfOk, IfSome};
ghost use Rattle.std.specs.Prelude.{OnOk, length, true, vec_len, ℕ};
ghost use Rattle.cp_needs.specs.Marks.{unmarked};
ghost use Rattle.cp_needs.specs.Needs.{IsHeld, IsProgramPage};
ghost use Rattle.cp_needs.specs.Words.{AreSeen, AreSteps, AreWords, IsAmong, IsFollowed, IsPageAt};
ghost use Rattle.cp_needs.specs.Words.{IsVisited};
ghost use Rattle.s370_store.specs.Access.{IsAbsent};

use crate::areas::absent_in_area;
use crate::copying::{leads_on, may_skip};
use crate::pages::absent_at;
use crate::slots::Slots;
use s370_channel::fetch_word;
use s370_store::{Page, Storage};
use std::alloc::{AllocError, Global};

/// Appends an address to `words` and marks it in `seen`, if `leads` is true, a page of storage has
/// it and it is not marked.
fn follow(
    words: &mut Vec<u32>,
    seen: &mut Slots,
    leads: bool,
    address: u32,
) -> Result<(), AllocError>
    requires even { leads ≡ true → address % 8 ≡ 0 }
    requires known { AreSeen words.old.items seen.old }
    ensures words { OnOk result (IsFollowed leads address words.old.items words.new.items) }
    ensures found { OnOk result
        (leads ≡ true → address / 8 < length seen.new → IsAmong words.new.items address) }
    ensures known { OnOk result (AreSeen words.new.items seen.new) }
    ensures count { OnOk result
        (vec_len words.new + unmarked seen.new ≡ vec_len words.old + unmarked seen.old) }
    ensures size { length seen.new ≡ length seen.old }
{
    let slot = address as usize / 8;
    if !leads || slot >= seen.count() || seen.get(slot) != 0 {
        return Ok(());
    }
    words.push(address)?;
    seen.set(slot, 1)?;
    Ok(())
}

/// Appends the addresses to which the word at an address leads, and returns the first page that is
/// not present of the word, its list and its area, if there is one.
fn visit<S: Storage>(
    storage: &S,
    words: &mut Vec<u32>,
    seen: &mut Slots,
    address: u32,
) -> Result<Option<Page>, AllocError>
    requires even { address % 8 ≡ 0 }
    requires known { AreSeen words.old.items seen.old }
    ensures absent { IfOk result
        (λ found. IfSome found (λ page.
        IsAbsent (length (S.memory storage.now).bytes) (S.present storage.now) page.0)) }
    ensures asked { IfOk result
        (λ found. IfSome found (λ page. IsPageAt (S.memory storage.now) address page.0)) }
    ensures steps { IfOk result (λ found. IfNone found
        (AreSteps (S.memory storage.now) address words.old.items words.new.items)) }
    ensures visited { IfOk result (λ found. IfNone found
        (IsVisited (S.memory storage.now) (S.present storage.now) (length seen.new) words.new.items
        address)) }
    ensures known { IfOk result (λ found. IfNone found (AreSeen words.new.items seen.new)) }
    ensures count { IfOk result (λ found. IfNone found
        (vec_len words.new + unmarked seen.new ≡ vec_len words.old + unmarked seen.old)) }
    ensures size { length seen.new ≡ length seen.old }
{
    if let Some(page) = absent_at(storage, address) {
        return Ok(Some(page));
    }
    let found = match fetch_word(storage, address) {
        Ok(found) => found,
        Err(page) => return Ok(Some(page)),
    };
    let Some(word) = found else {
        return Ok(None);
    };
    follow(words, seen, leads_on(&word), word.next)?;
    follow(words, seen, may_skip(&word), word.skipped)?;
    Ok(absent_in_area(storage, &word))
}

/// Returns the addresses of the words that the program from an address on can reach, on pages of
/// storage; or the first page that it needs and that is not present.
pub(crate) fn words_of<S: Storage>(
    alloc: Global,
    storage: &S,
    start: u32,
) -> Result<Result<Vec<u32>, Page>, AllocError>
    requires even { start % 8 ≡ 0 }
    ensures words { IfOk result
        (λ found. IfOk found (λ words. AreWords (S.memory storage.now) start words.items)) }
    ensures held { IfOk result (λ found. IfOk found
        (λ words. IsHeld (S.memory storage.now) start (S.present storage.now))) }
    ensures absent { IfOk result (λ found. IfErr found
        (λ page. IsAbsent (length (S.memory storage.now).bytes) (S.present storage.now) page.0)) }
    ensures needed { IfOk result
        (λ found. IfErr found (λ page. IsProgramPage (S.memory storage.now) start page.0)) }
{
    let mut seen = Slots::new(alloc, (storage.size() as usize + 4095) / 4096 * 512);
    let mut words = Vec::new(alloc);
    follow(&mut words, &mut seen, true, start)?;
    let mut done = 0usize;
    'words: while done < words.len() {
        let address = words[done];
        if let Some(page) = visit(storage, &mut words, &mut seen, address)? {
            return Ok(Err(page));
        }
        done += 1;
    }
    Ok(Ok(words))
}
