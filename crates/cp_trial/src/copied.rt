//! A program that is looked at on a copy of its user's bytes.
ghost use Rattle.std.specs.Prelude.{◌≡◌, ℕ, ◌%◌, ◌*◌, ◌<◌, ◌≤◌, IfNone, IfOk, IfSome, length};
ghost use Rattle.cp_dat.specs.Copies.{is_wanted};
ghost use Rattle.cp_dat.specs.Lent.{lent_bytes, lent_memory};
ghost use Rattle.cp_needs.specs.Needs.{IsClash, IsFixed, IsProgramPage};
ghost use Rattle.cp_trial.specs.Trial.{is_touched, trial_bytes, trial_flags, trial_memory};
ghost use Rattle.cp_trial.specs.Trial.{untouched_count};
ghost use Rattle.s370_store.specs.Access.{IsAbsent};

use crate::flags::flags_of;
use crate::storage::TrialStorage;
use cp_dat::Dat;
use cp_needs::{Analysis, analyze};
use s370_store::{FramesOut, PAGE_SIZE, Page, Storage, Supply};
use std::alloc::{AllocError, Global};

/// How many pages are copied one by one, as the analysis of a program comes to them.
///
/// If it comes to more, all are copied, so that it is not begun again for each.
const FEW_PAGES: u32 = 16;

/// Makes a page of a copy present that is not.
fn touch(copy: &mut TrialStorage<'_>, page: Page)
    requires { IsAbsent (length (trial_bytes copy.old)) (is_touched copy.old) page.0 }
    ensures memory { trial_memory copy.new ≡ trial_memory copy.old }
    ensures fewer { untouched_count (trial_flags copy.new)
        < untouched_count (trial_flags copy.old) }
{
    match Supply::bring(copy, page) {
        Ok(()) => {}
        // There is always room.
        Err(FramesOut) => unreachable!(),
    }
}

/// Makes each page of a copy present.
fn touch_all_pages(copy: &mut TrialStorage<'_>)
    ensures memory { trial_memory copy.new ≡ trial_memory copy.old }
    ensures no_more { untouched_count (trial_flags copy.new)
        ≤ untouched_count (trial_flags copy.old) }
{
    for page in 0..copy.size() / PAGE_SIZE {
        if !copy.is_touched(Page(page)) {
            touch(copy, Page(page));
        }
    }
}

/// Returns a flag for each page of the storage: whether the program from an address on needs it;
/// None if an input could change one of its words or lists.
pub(crate) fn pages_on_copy(
    alloc: Global,
    storage: &Dat<'_>,
    address: u32,
) -> Result<Option<Vec<bool>>, AllocError>
    requires { address % 8 ≡ 0 }
    ensures open { IfOk result (λ found. IfNone found (IsClash (lent_memory storage.now) address)) }
    ensures fixed { IfOk result
        (λ found. IfSome found (λ flags. IsFixed (lent_memory storage.now) address)) }
    ensures size { IfOk result
        (λ found. IfSome found (λ flags. length flags.items * 4096
        ≡ length (lent_bytes storage.now))) }
    ensures all { IfOk result (λ found. IfSome found
        (λ flags. (page : ℕ) → IsProgramPage (lent_memory storage.now) address page
        → is_wanted flags.items page)) }
    ensures only { IfOk result (λ found. IfSome found
        (λ flags. (page : ℕ) → is_wanted flags.items page
        → IsProgramPage (lent_memory storage.now) address page)) }
{
    let mut copy = TrialStorage::new(alloc, storage)?;
    let mut few = FEW_PAGES;
    loop {
        match analyze(alloc, &copy, address)? {
            Analysis::Fixed(text, pages) => {
                let flags = flags_of(alloc, copy.size() / PAGE_SIZE, &text, &pages)?;
                return Ok(Some(flags));
            }
            Analysis::SelfModifying => return Ok(None),
            Analysis::Page(page) => touch(&mut copy, page),
        }
        if few == 0 {
            touch_all_pages(&mut copy);
        } else {
            few -= 1;
        }
    }
}
