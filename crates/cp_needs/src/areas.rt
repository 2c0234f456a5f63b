//! The pages of a word's list and area (GA22-7000, "Channel Indirect Data Addressing").
ghost use Rattle.std.specs.Prelude.{◌≡◌, ◌≤◌, ◌<◌, ◌+◌, ◌*◌, ◌/◌, ◌%◌, ◌^◌, IfErr, IfNone, IfOk};
ghost use Rattle.std.specs.Prelude.{IfSome, length, true, ℕ};
ghost use Rattle.cp_needs.specs.Closure.{IsEntryPage};
ghost use Rattle.cp_needs.specs.Words.{IsAreaPage, IsPresent};
ghost use Rattle.s370_channel.specs.Guest.{area_block, later};
ghost use Rattle.s370_store.specs.Access.{IsAbsent};
ghost use Rattle.s370_walk.specs.Walk.{is_indirect};

use crate::lists::has_area;
use crate::pages::absent_at;
use s370_channel::fetch_block;
use s370_store::{Page, Storage};
use s370_walk::{Ccw, Flags};

/// Returns the address of entry `number` of a word's list, which wraps at 16 megabytes.
pub(crate) fn list_address(word: &Ccw, number: u32) -> u32
    ensures { result ≡ later word.now.address (4 * number) }
{
    ((u64::from(word.address) + 4 * u64::from(number)) % 0x100_0000) as u32
}

/// Returns how many of `left` bytes from `start` on lie in the same block of 2048 bytes as the
/// first.
pub(crate) fn bytes_in_block(start: u32, left: u32) -> u32
    requires { 0 < left }
    ensures some { 0 < result }
    ensures within { result ≤ left }
    ensures block { start % 2048 + result ≤ 2048 }
    ensures whole { result < left → start % 2048 + result ≡ 2048 }
{
    let room = 2048 - start % 2048;
    if room < left { room } else { left }
}

/// Returns where block `number` of a word's data area begins, or None if its list does not say; the
/// error is the page of that list word or of that block, if it is not present.
pub(crate) fn block_here<S: Storage>(
    storage: &S,
    word: &Ccw,
    number: u32,
) -> Result<Option<u32>, Page>
    requires { number ≤ 64 }
    ensures block { IfOk result (λ said. said ≡ area_block (S.memory storage.now) word.now number) }
    ensures listed { IfOk result (λ _. is_indirect word.now ≡ true
        → IsPresent (length (S.memory storage.now).bytes) (S.present storage.now)
        (later word.now.address (4 * number) / 4096)) }
    ensures present { IfOk result
        (λ said. IfSome said
        (λ start. IsPresent (length (S.memory storage.now).bytes) (S.present storage.now)
        (start / 4096))) }
    ensures low { IfOk result (λ said. IfSome said (λ start. start < 2 ^ 32)) }
    ensures absent { IfErr result
        (λ page. IsAbsent (length (S.memory storage.now).bytes) (S.present storage.now) page.0) }
    ensures asked { IfErr result
        (λ page. IsEntryPage (S.memory storage.now) word.now number page.0) }
{
    if word.flags.has(Flags::INDIRECT) {
        if let Some(page) = absent_at(storage, list_address(word, number)) {
            return Err(page);
        }
    }
    let Some(start) = fetch_block(storage, word, number)? else {
        return Ok(None);
    };
    match absent_at(storage, start) {
        Some(page) => Err(page),
        None => Ok(Some(start)),
    }
}

/// Returns the first page that is not present of those of a word's list and data area, if there is
/// one.
pub(crate) fn absent_in_area<S: Storage>(storage: &S, word: &Ccw) -> Option<Page>
    ensures absent { IfSome result
        (λ page. IsAbsent (length (S.memory storage.now).bytes) (S.present storage.now) page.0) }
    ensures asked { IfSome result (λ page. IsAreaPage (S.memory storage.now) word.now page.0) }
    ensures present { IfNone result
        ((page : ℕ) → IsAreaPage (S.memory storage.now) word.now page
        → IsPresent (length (S.memory storage.now).bytes) (S.present storage.now) page) }
{
    if !has_area(word) {
        return None;
    }
    let count = u32::from(word.count);
    let mut byte = 0u32;
    'blocks: while byte < count {
        match block_here(storage, word, (byte + 2047) / 2048) {
            Err(page) => return Some(page),
            Ok(None) => return None,
            Ok(Some(start)) => byte += bytes_in_block(start, count - byte),
        }
    }
    None
}
