//! The pages on which a program and its areas lie, as flags.
ghost use Rattle.std.specs.Prelude.{◌≡◌, ℕ, ◌*◌, ◌/◌, ◌<◌, ◌⊎◌, IfOk, length};
ghost use Rattle.cp_dat.specs.Copies.{is_wanted};
ghost use Rattle.cp_trial.specs.Flags.{AreFlagged};
ghost use Rattle.cp_needs.specs.Kept.{IsPaged, IsPagedOnly, IsText, IsTextOnly};
ghost use Rattle.cp_needs.specs.Needs.{IsProgramPage};
ghost use Rattle.s370_store.specs.Memory.{Memory};

use cp_needs::WordAt;
use s370_store::{PAGE_SIZE, Page};
use std::alloc::{AllocError, Global};

/// Sets the flag of a page, if there is one for it.
fn mark(wanted: &mut Vec<bool>, page: u32)
    ensures size { length wanted.new.items ≡ length wanted.old.items }
    ensures stays { (other : ℕ) → is_wanted wanted.old.items other
        → is_wanted wanted.new.items other }
    ensures marked { page < length wanted.old.items → is_wanted wanted.new.items page }
    ensures only { (other : ℕ) → is_wanted wanted.new.items other
        → is_wanted wanted.old.items other ⊎ (other ≡ page) }
{
    let place = page as usize;
    if place < wanted.len() {
        wanted[place] = true;
    }
}

/// Sets the flags of the pages on which these fullwords are.
fn mark_words(wanted: &mut Vec<bool>, words: &[WordAt])
    ensures { AreFlagged (λ w. w.start / 4096) words.now wanted.old.items wanted.new.items }
{
    for word in words {
        mark(wanted, word.start / PAGE_SIZE);
    }
}

/// Sets the flags of these pages.
fn mark_pages(wanted: &mut Vec<bool>, pages: &[Page])
    ensures { AreFlagged (λ page. page.0) pages.now wanted.old.items wanted.new.items }
{
    for page in pages {
        mark(wanted, page.0);
    }
}

/// Returns a new list of flags, one for each of `count` pages: whether one of these fullwords is on
/// it, or it is one of these pages.
pub(crate) fn flags_of(
    alloc: Global,
    count: u32,
    text: &[WordAt],
    pages: &[Page],
) -> Result<Vec<bool>, AllocError>
    ensures size { IfOk result (λ flags. length flags.items ≡ count) }
    ensures all { IfOk result
        (λ flags. (m : Memory) → (start page : ℕ) → length m.bytes ≡ count * 4096
        → IsText m start text.now → IsPaged m start pages.now → IsProgramPage m start page
        → is_wanted flags.items page) }
    ensures only { IfOk result
        (λ flags. (m : Memory) → (start page : ℕ) → length m.bytes ≡ count * 4096
        → IsTextOnly m start text.now → IsPagedOnly m start pages.now → is_wanted flags.items page
        → IsProgramPage m start page) }
{
    let mut flags = vec![in alloc; false; count as usize]?;
    mark_words(&mut flags, text);
    mark_pages(&mut flags, pages);
    Ok(flags)
}
