//! When a program that was known may run again where it is.
ghost use Rattle.std.specs.Prelude.{◌≡◌, ◌%◌, ◌*◌, ◌+◌, ◌≤◌, All, Contains, IfOk, OnOk, length};
ghost use Rattle.std.specs.Prelude.{true};
ghost use Rattle.cp_dat.specs.Lent.{is_lent_page, lent_bytes, lent_memory};
ghost use Rattle.cp_needs.specs.Kept.{IsAsItStood, IsPaged, IsPagedOnly, IsText, IsTextOnly};
ghost use Rattle.cp_needs.specs.Needs.{IsFixed, IsHeld};
ghost use Rattle.cp_needs.specs.Words.{IsFixedStill};
ghost use Rattle.cp_ccw.specs.CachedProgram.{IsFrame};
ghost use Rattle.cp_ccw.specs.CachedPages.{ArePlaced, ArePlacedOnly, IsAsKnown};
ghost use Rattle.cp_ccw.specs.Placed.{IsPlacedOne};

use crate::kept::PageInFrame;
use crate::known::CachedPages;
use crate::reuse::are_in_frames;
use cp_dat::Dat;
use cp_needs::{WordAt, stands};
use s370_channel::Caw;
use s370_store::{Page, Storage};
use std::alloc::{AllocError, Global};

/// Appends a page, which has to be in a frame, and its frame to a list, if the page is whole in
/// storage.
fn place(dat: &Dat, page: Page, held: &mut Vec<PageInFrame>) -> Result<(), AllocError>
    requires { page.0 * 4096 + 4096 ≤ length (lent_bytes dat.now)
        → is_lent_page dat.now page.0 ≡ true }
    ensures placed { OnOk result (IsPlacedOne dat.now page held.old.items held.new.items) }
{
    if u64::from(page.0) * 4096 + 4096 > u64::from(dat.size()) {
        return Ok(());
    }
    match dat.frame_of(page) {
        Some(frame) => {
            held.push(PageInFrame { page, frame })?;
            Ok(())
        }
        // Each of them is in a frame.
        None => unreachable!(),
    }
}

/// Returns these pages, each with the frame that it has to be in; those that are not whole in
/// storage are left out.
fn places_of(alloc: Global, dat: &Dat, pages: &[Page]) -> Result<Vec<PageInFrame>, AllocError>
    requires { (page : Page) → Contains pages.now page
        → page.0 * 4096 + 4096 ≤ length (lent_bytes dat.now)
        → is_lent_page dat.now page.0 ≡ true }
    ensures placed { IfOk result
        (λ held. ArePlaced (length (lent_bytes dat.now)) pages.now held.items) }
    ensures only { IfOk result (λ held. ArePlacedOnly pages.now held.items) }
    ensures stand { IfOk result (λ held. All (IsFrame dat.now) held.items) }
{
    let mut held = Vec::new(alloc);
    for page in pages {
        place(dat, *page, &mut held)?;
    }
    Ok(held)
}

/// Returns what has to be known to run a program again that no input can change: its address word,
/// the size of storage, its words and lists, and its pages with their frames.
///
/// [`cp_needs::analyze`] finds words and pages; all of them are in frames.
///
/// # Errors
///
/// `AllocError` if memory is refused.
pub fn know(
    alloc: Global,
    dat: &Dat,
    caw: Caw,
    text: Vec<WordAt>,
    pages: &[Page],
) -> Result<CachedPages, AllocError>
    requires fixed { IsFixed (lent_memory dat.now) caw.address }
    requires held { IsHeld (lent_memory dat.now) caw.address (is_lent_page dat.now) }
    requires text { IsText (lent_memory dat.now) caw.address text.items }
    requires only { IsTextOnly (lent_memory dat.now) caw.address text.items }
    requires stands { All (IsAsItStood (lent_bytes dat.now) (is_lent_page dat.now)) text.items }
    requires pages { IsPaged (lent_memory dat.now) caw.address pages.now }
    requires pages_only { IsPagedOnly (lent_memory dat.now) caw.address pages.now }
    ensures { IfOk result (λ known. IsAsKnown known dat.now caw) }
{
    let held = places_of(alloc, dat, pages)?;
    Ok(CachedPages {
        caw,
        size: dat.size(),
        text,
        held,
    })
}

/// Returns whether address word, size of storage, words and lists, and the frames of the areas are
/// as they were cached.
fn is_as_cached(known: &CachedPages, dat: &Dat, caw: Caw) -> bool
    ensures as_cached { result ≡ true → IsAsKnown known.now dat.now caw }
    ensures other { IsAsKnown known.now dat.now caw → result ≡ true }
{
    // Exhaustive: a new field fails to compile here.
    let CachedPages {
        caw: started,
        size,
        text,
        held,
    } = known;
    if *started != caw {
        return false;
    }
    if *size != dat.size() {
        return false;
    }
    if !stands(dat, text) {
        return false;
    }
    are_in_frames(dat, held)
}

/// Returns whether a program may run again where it is, for this address word: whether all that is
/// known of it is as it was.
///
/// That is the address word, the size of storage, the words and lists, each on a page that is in a
/// frame, and the frames of its areas.
pub fn is_valid(known: &CachedPages, dat: &Dat, caw: Caw) -> bool
    ensures as_cached { result ≡ true → IsAsKnown known.now dat.now caw }
    ensures other { IsAsKnown known.now dat.now caw → result ≡ true }
    ensures still { result ≡ true
        → IsFixedStill (lent_memory dat.now) (is_lent_page dat.now) caw.address }
{
    // What is always so of it.
    let _size = known.size;
    is_as_cached(known, dat, caw)
}
