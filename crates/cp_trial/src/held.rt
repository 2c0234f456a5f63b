//! A program's pages are brought, and held.
ghost use Rattle.std.specs.Prelude.{◌≡◌, ℕ, ◌%◌, ◌*◌, ◌≤◌, ◌<◌, ◌⊎◌, All, Err, IfNone, IfOk};
ghost use Rattle.std.specs.Prelude.{IfSome, List, OnErr, OnOk, length, false, true};
ghost use Rattle.cp_dat.specs.Copies.{is_wanted};
ghost use Rattle.cp_dat.specs.Lent.{is_lent_page, lent_bytes, lent_memory, lent_pool, user_of};
ghost use Rattle.cp_dat.specs.Supplied.{Supplied};
ghost use Rattle.cp_frames.specs.Paging.{IsRefused};
ghost use Rattle.cp_trial.specs.Holding.{ArePagesHeld, HoldNeeds, IfFixed, IfSelfModifying};
ghost use Rattle.cp_trial.specs.Holding.{IsFixedProgram};
ghost use Rattle.cp_needs.specs.Needs.{IsClash, IsFixed, IsProgramPage};
ghost use Rattle.cp_trial.specs.declared.DryRunError.TheVariants as errors;
ghost use Rattle.s370_channel.specs.Supplied.{AllSuch};

use crate::DryRunError;
use crate::copied::pages_on_copy;
use cp_dat::Dat;
use cp_needs::{Analysis, WordAt, analyze};
use s370_store::{FramesOut, Page, Storage, Supply};
use std::alloc::Global;

/// What is found of a program before it runs.
#[derive(Drop)]
pub enum LockedProgram {
    /// No input can change these fullwords, in which its words and lists lie; its areas lie on
    /// these pages. All of it is in frames.
    Fixed(Vec<WordAt>, Vec<Page>),
    /// An input could change one of its words or lists, or it starts at no doubleword.
    SelfModifying,
}

/// Returns the first wanted page that is in no frame, if there is one.
fn lacking(storage: &Dat<'_>, wanted: &[bool]) -> Option<Page>
    requires { length wanted.now * 4096 ≤ length (lent_bytes storage.now) }
    ensures wanted { IfSome result (λ page. is_wanted wanted.now page.0) }
    ensures inside { IfSome result (λ page. page.0 * 4096 < length (lent_bytes storage.now)) }
    ensures absent { IfSome result (λ page. is_lent_page storage.now page.0 ≡ false) }
    ensures there { IfNone result
        ((page : ℕ) → is_wanted wanted.now page → is_lent_page storage.now page ≡ true) }
{
    // What is always so of it.
    let _size = storage.size();
    let mut page = 0u32;
    while (page as usize) < wanted.len() {
        if wanted[page as usize] && storage.frame_of(Page(page)).is_none() {
            return Some(Page(page));
        }
        page += 1;
    }
    None
}

/// Pages in and pins each wanted page that is in no frame, and ends with an error at the first for
/// which there is no room.
fn bring_wanted(storage: &mut Dat<'_>, wanted: &[bool]) -> Result<(), FramesOut>
    requires { length wanted.now * 4096 ≤ length (lent_bytes storage.old) }
    ensures there { OnOk result
        ((page : ℕ) → is_wanted wanted.now page → is_lent_page storage.new page ≡ true) }
    ensures short { OnErr result ((page : ℕ) × is_wanted wanted.now page
        × IsRefused (lent_pool storage.new).supply (user_of storage.new) page) }
    ensures supply { (pages : List ℕ) × Supplied storage.old pages storage.new
        × AllSuch (is_wanted wanted.now) pages }
    ensures memory { lent_memory storage.new ≡ lent_memory storage.old }
{
    loop {
        match lacking(storage, wanted) {
            Some(page) => Supply::bring(storage, page)?,
            None => return Ok(()),
        }
    }
}

/// Pages in and pins the absent pages of the program at an address and returns its words and pages;
/// or returns that it is self-modifying, also if the address is not on a doubleword.
///
/// A program that starts at no doubleword counts as self-modifying too. Whoever calls it unpins the
/// pages, also after an error.
///
/// # Errors
///
/// A `DryRunError`: refused memory, or no room for a page that is needed.
pub fn lock_pages(
    alloc: Global,
    storage: &mut Dat<'_>,
    address: u32,
) -> Result<LockedProgram, DryRunError>
    ensures fixed { IfOk result (λ found. IfFixed found
        (IsFixedProgram (lent_memory storage.old) address (is_lent_page storage.new))) }
    ensures open { IfOk result
        (λ found. IfSelfModifying found
        (address % 8 ≡ 0 → IsClash (lent_memory storage.old) address)) }
    ensures untouched { IfOk result (λ found. IfSelfModifying found (storage.new ≡ storage.old)) }
    ensures out { result ≡ Err errors.FramesOut
        → ((page : ℕ) × HoldNeeds (lent_memory storage.old) address page
        × IsRefused (lent_pool storage.new).supply (user_of storage.new) page) }
    ensures roomy { result ≡ Err errors.Memory → (storage.new ≡ storage.old)
        ⊎ ArePagesHeld (lent_memory storage.old) address storage.new }
    ensures supply { (pages : List ℕ) × Supplied storage.old pages storage.new
        × AllSuch (HoldNeeds (lent_memory storage.old) address) pages }
    ensures memory { lent_memory storage.new ≡ lent_memory storage.old }
{
    // No program is started elsewhere.
    if address % 8 != 0 {
        return Ok(LockedProgram::SelfModifying);
    }
    match analyze(alloc, storage, address) {
        Ok(Analysis::Fixed(text, pages)) => return Ok(LockedProgram::Fixed(text, pages)),
        Ok(Analysis::SelfModifying) => return Ok(LockedProgram::SelfModifying),
        Ok(Analysis::Page(_)) => {}
        Err(_) => return Err(DryRunError::Memory),
    }
    match pages_on_copy(alloc, storage, address) {
        Ok(Some(wanted)) => lock_wanted(alloc, storage, address, &wanted),
        Ok(None) => Ok(LockedProgram::SelfModifying),
        Err(_) => Err(DryRunError::Memory),
    }
}

/// Pages in and pins those of these pages of a program that are in no frame, and returns its words
/// and pages; no input must be able to change it.
fn lock_wanted(
    alloc: Global,
    storage: &mut Dat<'_>,
    address: u32,
    wanted: &[bool],
) -> Result<LockedProgram, DryRunError>
    requires even { address % 8 ≡ 0 }
    requires fixed { IsFixed (lent_memory storage.old) address }
    requires size { length wanted.now * 4096 ≡ length (lent_bytes storage.old) }
    requires all { (page : ℕ) → IsProgramPage (lent_memory storage.old) address page
        → is_wanted wanted.now page }
    requires only { (page : ℕ) → is_wanted wanted.now page
        → IsProgramPage (lent_memory storage.old) address page }
    ensures fixed { IfOk result (λ found. IfFixed found
        (IsFixedProgram (lent_memory storage.old) address (is_lent_page storage.new))) }
    ensures found { IfOk result (λ found. IfSelfModifying found ⊥) }
    ensures out { result ≡ Err errors.FramesOut
        → ((page : ℕ) × HoldNeeds (lent_memory storage.old) address page
        × IsRefused (lent_pool storage.new).supply (user_of storage.new) page) }
    ensures roomy { result ≡ Err errors.Memory
        → (page : ℕ) → is_wanted wanted.now page → is_lent_page storage.new page ≡ true }
    ensures supply { (pages : List ℕ) × Supplied storage.old pages storage.new
        × AllSuch (HoldNeeds (lent_memory storage.old) address) pages }
    ensures memory { lent_memory storage.new ≡ lent_memory storage.old }
{
    match bring_wanted(storage, wanted) {
        Ok(()) => {}
        Err(FramesOut) => return Err(DryRunError::FramesOut),
    }
    match analyze(alloc, storage, address) {
        Ok(Analysis::Fixed(text, pages)) => Ok(LockedProgram::Fixed(text, pages)),
        // No input can change it, and its pages are in frames.
        Ok(Analysis::SelfModifying) => unreachable!(),
        Ok(Analysis::Page(_)) => unreachable!(),
        Err(_) => Err(DryRunError::Memory),
    }
}
