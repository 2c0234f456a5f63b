//! The places of a copied program, and the index in which they are found.
ghost use Rattle.std.specs.Prelude.{◌≡◌, ◌+◌, ◌*◌, ◌/◌, ◌%◌, ◌<◌, ◌≤◌, ◌^◌, IfOk, length};
ghost use Rattle.std.specs.Prelude.{slice_index_or, true, vec_len};
ghost use Rattle.s370_walk.specs.Copy.{past};
ghost use Rattle.cp_needs.specs.Marks.{IsIndexed, slot_of, unmarked};
ghost use Rattle.cp_needs.specs.Table.{IsFollowed, IsLinked};
ghost use Rattle.s370_channel.specs.Guest.{guest_text};

use crate::slots::Slots;
use s370_store::Storage;
use s370_walk::CcwLocation;
use std::alloc::AllocError;

/// Links past the places: each stands for an address of the guest at which he has no word.
const PAST: u32 = 0x8000_0000;

/// Returns the index of a place's slot: there are two for each doubleword, the second for a
/// continued data chain.
fn slot(place: CcwLocation) -> usize
    ensures { result ≡ slot_of place }
{
    let half = if place.continues { 1 } else { 0 };
    place.address as usize / 8 * 2 + half
}

/// Returns the number of a place, which is added to `places` and to `index` if it is new.
fn number_or_add(
    places: &mut Vec<CcwLocation>,
    index: &mut Slots,
    place: CcwLocation,
) -> Result<u32, AllocError>
    requires even { place.address % 8 ≡ 0 }
    requires room { slot_of place < length index.old }
    requires known { IsIndexed places.old.items index.old }
    requires few { vec_len places.old + unmarked index.old ≤ 2147483648 }
    ensures within { IfOk result (λ number. number < vec_len places.new) }
    ensures found { IfOk result
        (λ number. slice_index_or places.new.items number (past number) ≡ place) }
    ensures followed { IfOk result (λ _. IsFollowed true place places.old.items places.new.items) }
    ensures known { IfOk result (λ _. IsIndexed places.new.items index.new) }
    ensures count { IfOk result
        (λ _. vec_len places.new + unmarked index.new ≡ vec_len places.old + unmarked index.old) }
    ensures size { length index.new ≡ length index.old }
{
    let slot = slot(place);
    let known = index.get(slot);
    if known != 0 {
        return Ok(known - 1);
    }
    let number = places.len();
    places.push(place)?;
    index.set(slot, number as u32 + 1)?;
    Ok(number as u32)
}

/// Returns the number of a place, which is added if it is new; or a link past all places, if
/// `leads` is false or the storage has no doubleword there.
pub(crate) fn link<S: Storage>(
    storage: &S,
    places: &mut Vec<CcwLocation>,
    index: &mut Slots,
    leads: bool,
    place: CcwLocation,
) -> Result<u32, AllocError>
    requires even { leads ≡ true → place.address % 8 ≡ 0 }
    requires low { place.address < 2 ^ 24 }
    requires room { length index.old ≡ length (S.memory storage.now).bytes / 8 * 2 }
    requires known { IsIndexed places.old.items index.old }
    requires few { vec_len places.old + unmarked index.old ≤ 2147483648 }
    ensures linked { IfOk result
        (IsLinked places.new.items (guest_text (S.memory storage.now)) leads place.address) }
    ensures followed { IfOk result (λ _. IsFollowed leads place places.old.items places.new.items) }
    ensures known { IfOk result (λ _. IsIndexed places.new.items index.new) }
    ensures count { IfOk result
        (λ _. vec_len places.new + unmarked index.new ≡ vec_len places.old + unmarked index.old) }
    ensures size { length index.new ≡ length index.old }
{
    if leads && place.address as u64 + 8 <= storage.size() as u64 {
        return number_or_add(places, index, place);
    }
    Ok(PAST + place.address)
}
