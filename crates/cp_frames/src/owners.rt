//! Which page is in each frame, or in each slot.
ghost use Rattle.std.specs.Prelude.{◌≡◌, ◌<◌, ℕ, List, Option, Some, None, length};
ghost use Rattle.std.specs.Prelude.{slice_index, slice_index_or, slice_set, take, IsSome, IfOk};
ghost use Rattle.std.specs.Prelude.{IfSome, IfNone, All, replicate};
ghost use Rattle.cp_frames.specs.declared.numbers.UserPage.{UserPage};
ghost use Rattle.cp_frames.specs.Layout.{without, cleared_of, frame_entry, slot_entry, ArePages};
ghost use Rattle.cp_frames.specs.Layout.{IsMapped, IsTabled};

use crate::UserPage;
use crate::table::{ABSENT, clear_user_slots, entry_of, frame_in, unmap_page};
use s370_store::Page;
use std::alloc::{AllocError, Global};
use user_names::UserNo;

/// Returns a new list of which page is in each of this many frames or slots: none in any.
///
/// # Errors
///
/// `AllocError` if memory is refused.
pub fn no_owners(alloc: Global, count: usize) -> Result<Vec<Option<UserPage>>, AllocError>
    ensures { IfOk result (λ owners. owners.items ≡ replicate count None) }
{
    Ok(vec![in alloc; None; count]?)
}

/// Returns the first slot from `low` on with no page in it, if there is one.
pub fn first_free(owners: &[Option<UserPage>], low: usize) -> Option<usize>
    requires { All IsSome (take low owners.now) }
    ensures within { IfSome result (λ slot. slot < length owners.now) }
    ensures free { IfSome result (λ slot. slice_index_or owners.now slot None ≡ None) }
    ensures before { IfSome result (λ slot. All IsSome (take slot owners.now)) }
    ensures none { IfNone result (All IsSome owners.now) }
{
    for slot in low..owners.len() {
        if owners[slot].is_none() {
            return Some(slot);
        }
    }
    None
}

/// Returns the bound below which each slot is taken: `slot` if that is free now and below `low`,
/// else `low`.
pub fn low_after(low: usize, slot: usize, owner: Option<UserPage>) -> usize
    ensures { (owners : List (Option UserPage)) → All IsSome (take low owners)
        → All IsSome (take result (slice_set owners slot owner)) }
{
    if owner.is_none() && slot < low {
        slot
    } else {
        low
    }
}

/// Removes each page of a user from its frame, and maps it to no frame in `tables` and in `lookup`.
pub fn free_user_frames(
    owners: &mut Vec<Option<UserPage>>,
    tables: &mut Vec<u8>,
    lookup: &mut Vec<u32>,
    sizes: &[u32],
    user: UserNo,
)
    requires pages { ArePages owners.old.items sizes.now }
    requires mapped { IsMapped owners.old.items sizes.now tables.old.items }
    requires looked { IsTabled frame_entry owners.old.items sizes.now lookup.old.items }
    ensures owners { owners.new.items ≡ cleared_of user owners.old.items }
    ensures mapped { IsMapped owners.new.items sizes.now tables.new.items }
    ensures looked { IsTabled frame_entry owners.new.items sizes.now lookup.new.items }
{
    for page in 0..pages_of(sizes, user) {
        let entry = lookup[entry_of(user, page)];
        if entry != ABSENT {
            owners[frame_in(entry, page)] = None;
            unmap_page(
                tables,
                lookup,
                Some(UserPage {
                    user,
                    page: Page(page),
                }),
            );
        }
    }
}

/// Returns how many pages a user's storage has, or 0 if there is no such user.
fn pages_of(sizes: &[u32], user: UserNo) -> u32
    ensures { result ≡ slice_index sizes.now user }
{
    let user = user.index();
    if user < sizes.len() { sizes[user] } else { 0 }
}

/// Removes each page of a user from its slot, also in the table; without slots it does nothing.
pub fn free_user_slots(owners: &mut Vec<Option<UserPage>>, table: &mut Vec<u32>, user: UserNo)
    ensures owners { owners.new.items ≡ cleared_of user owners.old.items }
    ensures tabled { (sizes : List ℕ) → IsTabled slot_entry owners.old.items sizes table.old.items
        → IsTabled slot_entry owners.new.items sizes table.new.items }
{
    if owners.is_empty() {
        return;
    }
    remove_user_pages(owners, user);
    clear_user_slots(table, user.index());
}

/// Removes each page of a user from the list of the pages in slots.
fn remove_user_pages(owners: &mut Vec<Option<UserPage>>, user: UserNo)
    ensures { owners.new.items ≡ cleared_of user owners.old.items }
{
    for owner in owners.iter_mut() {
        *owner = kept(*owner, user);
    }
}

/// Returns the page in a slot, or None if it is a page of the user who leaves.
fn kept(owner: Option<UserPage>, user: UserNo) -> Option<UserPage>
    ensures { result ≡ without user owner }
{
    match owner {
        Some(there) => if there.user.number() == user.number() {
            None
        } else {
            Some(there)
        },
        None => None,
    }
}
