//! Copies the words that a program can reach.
ghost use Rattle.std.specs.List.{All};
ghost use Rattle.std.specs.Prelude.{◌≡◌, ℕ, ◌+◌, ◌*◌, ◌/◌, ◌%◌, ◌<◌, ◌≤◌, ◌^◌, IfErr, IfOk, length};
ghost use Rattle.std.specs.Prelude.{true, vec_len};
ghost use Rattle.s370_walk.specs.Copy.{IsCopyOf, IsPlace, guest_of};
ghost use Rattle.s370_walk.specs.Mapped.{Named};
ghost use Rattle.cp_needs.specs.Closure.{IfAbsent, IsReachedPlace, IsServed, IsWordPage};
ghost use Rattle.cp_needs.specs.Marks.{IsIndexed, unmarked};
ghost use Rattle.cp_needs.specs.Table.{AllPresent, Grows, IsRow, leads_next, leads_skipped};
ghost use Rattle.cp_needs.specs.Table.{program_of, role_after};
ghost use Rattle.s370_channel.specs.Guest.{guest_text, guest_written};
ghost use Rattle.s370_store.specs.Access.{IsAbsent};
ghost use Rattle.s370_walk.specs.Walk.{live};

use crate::index::link;
use crate::lists::list_for;
use crate::program::{Copied, CopyError, Node};
use crate::slots::Slots;
use s370_channel::fetch_word;
use s370_store::Storage;
use s370_walk::{Ccw, CcwLocation, Flags};
use std::alloc::Global;

/// Returns a copy of the word at a place, if there is one, with its list and its links; places to
/// which it leads, if they are new, are added to `places` and `index`.
fn copy_word<S: Storage>(
    alloc: Global,
    storage: &S,
    places: &mut Vec<CcwLocation>,
    index: &mut Slots,
    place: CcwLocation,
) -> Result<Node, CopyError>
    requires even { place.address % 8 ≡ 0 }
    requires room { length index.old ≡ length (S.memory storage.now).bytes / 8 * 2 }
    requires known { IsIndexed places.old.items index.old }
    requires few { vec_len places.old + unmarked index.old ≤ 2147483648 }
    ensures row { IfOk result (IsRow places.new.items (S.memory storage.now) place.address) }
    ensures present { IfOk result (λ node. AllPresent (length (S.memory storage.now).bytes)
        (S.present storage.now) node.list.items) }
    ensures grown { IfOk result (λ _. Grows places.old.items places.new.items) }
    ensures reached { IfOk result (λ _. (start : ℕ)
        → IsReachedPlace (S.memory storage.now) start place
        → All (IsReachedPlace (S.memory storage.now) start) places.old.items
        → All (IsReachedPlace (S.memory storage.now) start) places.new.items) }
    ensures known { IfOk result (λ _. IsIndexed places.new.items index.new) }
    ensures count { IfOk result
        (λ _. vec_len places.new + unmarked index.new ≡ vec_len places.old + unmarked index.old) }
    ensures size { length index.new ≡ length index.old }
    ensures absent { IfErr result
        (IfAbsent (λ page. IsAbsent (length (S.memory storage.now).bytes)
        (S.present storage.now) page
        × IsWordPage (S.memory storage.now) place.address page)) }
{
    let found = match fetch_word(storage, place.address) {
        Ok(found) => found,
        Err(page) => return Err(CopyError::Absent(page)),
    };
    let Some(word) = found else {
        return Ok(Node {
            word: None,
            list: Vec::new(alloc),
        });
    };
    let next = match link(
        storage,
        places,
        index,
        leads_on(&word),
        next_of(&word, place),
    ) {
        Ok(next) => next,
        Err(_) => return Err(CopyError::Memory),
    };
    let skipped = match link(
        storage,
        places,
        index,
        may_skip(&word),
        CcwLocation {
            address: word.skipped,
            continues: false,
        },
    ) {
        Ok(skipped) => skipped,
        Err(_) => return Err(CopyError::Memory),
    };
    let list = match list_for(alloc, storage, &word) {
        Ok(list) => list,
        Err(error) => return Err(error),
    };
    Ok(Node {
        word: Some(Ccw {
            next,
            skipped,
            command: word.command,
            address: word.address,
            flags: word.flags,
            count: word.count,
        }),
        list,
    })
}

/// Returns whether a word leads to another: by chaining to the next one, or by a transfer in
/// channel to a doubleword's address.
pub fn leads_on(word: &Ccw) -> bool
    ensures { result ≡ leads_next word.now }
{
    if word.command.is_transfer_in_channel() {
        word.address % 8 == 0
    } else {
        word.flags.has(Flags::CHAIN_DATA) || word.flags.has(Flags::CHAIN_COMMAND)
    }
}

/// Returns whether a word may lead to the one after the next: if it chains commands and not data.
pub fn may_skip(word: &Ccw) -> bool
    ensures { result ≡ leads_skipped word.now }
{
    !word.command.is_transfer_in_channel()
        && word.flags.has(Flags::CHAIN_COMMAND)
        && !word.flags.has(Flags::CHAIN_DATA)
}

/// Returns the place to which a word leads, and whether the word there continues a data chain; a
/// transfer in channel keeps that of `place`.
fn next_of(word: &Ccw, place: CcwLocation) -> CcwLocation
    ensures address { result.address ≡ word.now.next }
    ensures role { result.continues ≡ role_after word.now place.continues }
{
    let continues = if word.command.is_transfer_in_channel() {
        place.continues
    } else {
        word.flags.has(Flags::CHAIN_DATA)
    };
    CcwLocation {
        address: word.next,
        continues,
    }
}

/// Returns a copy of the words that the program from an address on can reach, as they are in a
/// storage, with the addresses that serve their bytes.
///
/// `start` is the address of a doubleword of storage, in bytes. Each address of storage that the
/// copy names lies on a page that is present; where one does not, its page, which the program
/// needs, is reported as [`CopyError::Absent`]. A bad word is copied as it is: it fails when it is
/// reached, and never before.
///
/// # Errors
///
/// A `CopyError`: an absent page that the program needs, or refused memory.
pub fn copy<S: Storage>(alloc: Global, storage: &S, start: u32) -> Result<Copied, CopyError>
    requires even { start % 8 ≡ 0 }
    requires low { start < 2 ^ 24 }
    ensures copy { IfOk result
        (λ c. IsCopyOf c.places.items (program_of c.nodes.items) (live guest_written)
        (S.memory storage.now)) }
    ensures start { IfOk result (λ c. guest_of c.places.items c.start ≡ start) }
    ensures place { IfOk result
        (λ c. IsPlace c.places.items (guest_text (S.memory storage.now)) c.start) }
    ensures held { IfOk result
        (λ c. (a : ℕ) → Named (program_of c.nodes.items) a → a < length (S.memory storage.now).bytes
        → S.present storage.now (a / 4096) ≡ true) }
    ensures absent { IfErr result
        (IfAbsent (λ page. IsAbsent (length (S.memory storage.now).bytes)
        (S.present storage.now) page
        × IsServed (S.memory storage.now) start page)) }
{
    let mut places = Vec::new(alloc);
    let mut index = Slots::new(alloc, storage.size() as usize / 8 * 2);
    let mut nodes = Vec::new(alloc);
    let first = match link(
        storage,
        &mut places,
        &mut index,
        true,
        CcwLocation {
            address: start,
            continues: false,
        },
    ) {
        Ok(first) => first,
        Err(_) => return Err(CopyError::Memory),
    };
    'places: while nodes.len() < places.len() {
        let place = places[nodes.len()];
        let node = match copy_word(alloc, storage, &mut places, &mut index, place) {
            Ok(node) => node,
            Err(error) => return Err(error),
        };
        match nodes.push(node) {
            Ok(_) => {}
            Err(_) => return Err(CopyError::Memory),
        }
    }
    Ok(Copied {
        start: first,
        places,
        nodes,
    })
}
