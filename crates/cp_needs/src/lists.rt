//! The addresses that serve the bytes of a word (GA22-7000, "Channel Indirect Data Addressing").
ghost use Rattle.std.specs.Prelude.{◌≡◌, ◌≤◌, IfErr, IfOk, Some, length};
ghost use Rattle.s370_walk.specs.Tracks as tracks;
ghost use Rattle.cp_needs.specs.Closure.{IfAbsent, IsDataPage, IsEntryPage};
ghost use Rattle.cp_needs.specs.Table.{AllPresent, HasListOf, IsPresent};
ghost use Rattle.s370_channel.specs.Guest.{area_block};
ghost use Rattle.s370_store.specs.Access.{IsAbsent};

use crate::program::CopyError;
use s370_channel::fetch_block;
use s370_num::AccessKey;
use s370_store::{Access, Fault, Page, Range, Storage};
use s370_walk::{Ccw, Flags};
use std::alloc::Global;

/// Returns whether a word has a data area: a transfer in channel has none, and neither has a word
/// whose list is off a word boundary.
pub fn has_area(word: &Ccw) -> bool
    ensures { result ≡ tracks.has_area word.now }
{
    !word.command.is_transfer_in_channel()
        && !(word.flags.has(Flags::INDIRECT) && word.address % 4 != 0)
}

/// Returns where block `number` of a word's data area begins, or None if that cannot be found out;
/// the error is the absent page of that list word or of that block.
fn entry<S: Storage>(storage: &S, word: &Ccw, number: u32) -> Result<Option<u32>, Page>
    requires { number ≤ 64 }
    ensures block { IfOk result (λ said. said ≡ area_block (S.memory storage.now) word.now number) }
    ensures present { IfOk result
        (IsPresent (length (S.memory storage.now).bytes) (S.present storage.now)) }
    ensures absent { IfErr result
        (λ page. IsAbsent (length (S.memory storage.now).bytes) (S.present storage.now) page.0) }
    ensures asked { IfErr result
        (λ page. IsEntryPage (S.memory storage.now) word.now number page.0) }
{
    let Some(address) = fetch_block(storage, word, number)? else {
        return Ok(None);
    };
    match storage.check(
        Range {
            start: address,
            count: 1,
        },
        Access::Fetch,
        AccessKey::ZERO,
    ) {
        Err(Fault::Absent(page)) => Err(page),
        Err(Fault::Addressing) => Ok(Some(address)),
        Err(Fault::Protection) => Ok(Some(address)),
        Ok(()) => Ok(Some(address)),
    }
}

/// Returns where each block of a word's data area begins, up to the first for which that cannot be
/// found out; none if the word has no area or a count of zero.
///
/// So no page is asked for which the program does not need.
pub(crate) fn list_for<S: Storage>(
    alloc: Global,
    storage: &S,
    word: &Ccw,
) -> Result<Vec<Option<u32>>, CopyError>
    ensures list { IfOk result
        (λ list. HasListOf (S.memory storage.now) (Some word.now) list.items) }
    ensures present { IfOk result
        (λ list. AllPresent (length (S.memory storage.now).bytes) (S.present storage.now)
        list.items) }
    ensures absent { IfErr result
        (IfAbsent (λ page. IsAbsent (length (S.memory storage.now).bytes)
        (S.present storage.now) page
        × IsDataPage (S.memory storage.now) word.now page)) }
{
    let mut list = Vec::new(alloc);
    if !has_area(word) || word.count == 0 {
        return Ok(list);
    }
    let first = match entry(storage, word, 0) {
        Ok(said) => said,
        Err(page) => return Err(CopyError::Absent(page)),
    };
    match list.push(first) {
        Ok(_) => {}
        Err(_) => return Err(CopyError::Memory),
    }
    let Some(start) = first else {
        return Ok(list);
    };
    let last = (start % 2048 + (word.count as u32 - 1)) / 2048;
    'blocks: while list.len() <= last as usize {
        let said = match entry(storage, word, list.len() as u32) {
            Ok(said) => said,
            Err(page) => return Err(CopyError::Absent(page)),
        };
        match list.push(said) {
            Ok(_) => {}
            Err(_) => return Err(CopyError::Memory),
        }
        if said.is_none() {
            return Ok(list);
        }
    }
    Ok(list)
}
