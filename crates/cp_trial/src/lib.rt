//! Channel programs that run as a whole or not at all, on storage that is borrowed from frames, and
//! the pages of one that no input can change.
//!
//! A program is tried first, on copies of the pages to which it comes and with what is seen of its
//! device: nothing has happened then, and it is known which pages the program touches. These are
//! placed; where there is no room for one, this is reported: only paging has happened. Then the
//! program runs with its device, on copies again, and the bytes are put back.
//!
//! Its one theorem: a program that is refused for lack of room touches a page for which there is
//! none; what is brought are pages that the program touches; and what runs is the walk of the
//! storage as it was.
//!
//! ```
//! use cp_dat::Dat;
//! use cp_frames::Frames;
//! use cp_trial::{run_tried, try_device};
//! use user_names::UserNo;
//! use s370_channel::Caw;
//! use s370_num::StorageKey;
//! use s370_store::{Page, store_doubleword};
//! use unit_record::Printer;
//!
//! let mut frames = Frames::new(alloc, 16, 0, vec![in alloc; 3]?)?; // one user of three pages
//! let mut keys = [StorageKey::ZERO; 6];
//! let mut storage = Dat::new(&mut frames, &mut keys, UserNo::new(0));
//! storage.bring(Page(0))?;
//! store_doubleword(&mut storage, 0x800, 0x0900_2000_0000_0005); // write five bytes of page 2
//! let (start, mut printer) = (Caw::from_word(0x800).ok_or("no address")?, Printer::new(alloc));
//! let tried = try_device(alloc, &storage, start, &printer)?;
//! assert_eq!(rt; tried.touched(), [true, false, true].as_slice());
//! assert!(rt; printer.entries().is_empty() && storage.frame_of(Page(2)).is_none());
//! run_tried(alloc, &mut storage, start, &mut printer, &tried)?;
//! assert!(rt; printer.entries().len() == 1 && storage.frame_of(Page(2)).is_some());
//! ```
//!
//! A program that no input can change needs no dry run: its pages are held in frames until it has
//! run ([`lock_pages`]). It is looked at where it is; where a page of it is absent, it is looked at
//! on a copy of its user's bytes, for which nothing is brought. So one walk says all its pages, or
//! that an input could change it. What is reported to be fixed is in frames whole; pages are
//! brought of a fixed program alone, and only those that it needs; and one that is refused has no
//! room next to the program's own pages.
//!
//! ```
//! use cp_dat::Dat;
//! use cp_frames::Frames;
//! use cp_trial::{LockedProgram, lock_pages};
//! use user_names::UserNo;
//! use s370_num::StorageKey;
//! use s370_store::{Page, store_doubleword};
//!
//! let mut frames = Frames::new(alloc, 16, 0, vec![in alloc; 3]?)?; // one user of three pages
//! let mut keys = [StorageKey::ZERO; 6];
//! let mut storage = Dat::new(&mut frames, &mut keys, UserNo::new(0));
//! storage.bring(Page(0))?;
//! store_doubleword(&mut storage, 0x800, 0x0900_2000_0000_0005); // write five bytes of page 2
//! let LockedProgram::Fixed(_, pages) = lock_pages(alloc, &mut storage, 0x800)? else { return Err("it is fixed")? };
//! assert_eq!(rt; pages.as_slice(), [Page(2)].as_slice());
//! assert!(rt; storage.frame_of(Page(1)).is_none() && storage.frame_of(Page(2)).is_some());
//! ```
#![tactic(auto)]

mod copied;
mod flags;
mod held;
mod open;
mod storage;

ghost use Rattle.std.specs.Prelude.{◌≡◌, ℕ, Bool, false, Err, IfOk, OnErr};
ghost use Rattle.s370_channel.specs.Guest.{guest_written};
ghost use Rattle.s370_channel.specs.Loading.{loading, loading_limits};
ghost use Rattle.s370_channel.specs.Progress.{setting};
ghost use Rattle.s370_channel.specs.Reading.{as_reached};
ghost use Rattle.s370_channel.specs.Runs.{Walks, begun, limited};
ghost use Rattle.s370_walk.specs.declared.parts.Order.{Order};
ghost use Rattle.s370_walk.specs.Walk.{Over, Reaches, live};
ghost use Rattle.cp_dat.specs.Copies.{CameOnly, StandAll, is_wanted};
ghost use Rattle.cp_dat.specs.Lent.{lent_pool, lent_memory};
ghost use Rattle.cp_dat.specs.Supplied.{IsBetweenUnits};
ghost use Rattle.cp_trial.specs.Trial.{touched_flags, tried_bytes};
ghost use Rattle.channel_trial.specs.DryRun.{IsLoadingTried, IsProgramTried};
ghost use Rattle.cp_trial.specs.DryRun.{EndsSomehow, LacksSuch};
ghost use Rattle.cp_trial.specs.declared.DryRunError.TheVariants as errors;

use channel_trial::{DryRun, TriedLoading, limits_of};
use cp_dat::Dat;
pub use held::{LockedProgram, lock_pages};
pub use open::{fetch_again, fetch_first, load_open, run_open};
use s370_channel::{Caw, load_supplied, run_supplied};
use s370_store::FramesOut;
use s370_walk::{Device, Ending};
use std::alloc::{AllocError, Global};
pub use storage::TouchedPages;
use storage::TrialStorage;

/// Why a program that was tried does not run.
#[derive(Clone, Copy, Debug, PartialEq, Eq)]
pub enum DryRunError {
    /// Memory was refused.
    Memory,
    /// There is no room for a page that it touches.
    FramesOut,
}

/// Makes a dry run of the program with this start, with the device `trial`, which changes; returns
/// the pages that it touched. The storage stays, and no page is paged in.
///
/// # Errors
///
/// `AllocError` if memory is refused; what was passed may have changed in part.
pub fn try_program<T: Device>(
    alloc: Global,
    storage: &Dat<'_>,
    start: Caw,
    trial: &mut T,
) -> Result<TouchedPages, AllocError>
    ensures { IfOk result (λ tried. IsProgramTried T.machine start
        (lent_memory storage.now) trial.old (tried_bytes storage.now tried) (touched_flags tried)) }
{
    let mut copy = TrialStorage::new(alloc, storage)?;
    channel_trial::try_program(&mut copy, start, trial)?;
    Ok(copy.into_pages())
}

/// Makes a dry run of the program with this start, with a copy of the device, and returns the pages
/// that it touched. The storage stays, and no page is paged in.
///
/// # Errors
///
/// `AllocError` if memory is refused.
pub fn try_device<D: DryRun>(
    alloc: Global,
    storage: &Dat<'_>,
    start: Caw,
    device: &D,
) -> Result<TouchedPages, AllocError>
    ensures { IfOk result (λ tried. IsProgramTried D.Device.machine start
        (lent_memory storage.now) device.now (tried_bytes storage.now tried)
        (touched_flags tried)) }
{
    let mut copy = TrialStorage::new(alloc, storage)?;
    device.dry_run(&mut copy, start)?;
    Ok(copy.into_pages())
}

/// Runs the program with this start after its dry run, as a whole if there is room for the pages
/// that it touches, else not at all.
///
/// # Errors
///
/// A `DryRunError`: refused memory, or no room for a page that is needed.
pub fn run_tried<D: Device>(
    alloc: Global,
    storage: &mut Dat<'_>,
    start: Caw,
    device: &mut D,
    tried: &TouchedPages,
) -> Result<Ending, DryRunError>
    requires tried { IsProgramTried D.machine start (lent_memory storage.old)
        device.old (tried_bytes storage.old tried.now) (touched_flags tried.now) }
    requires between { IsBetweenUnits (lent_pool storage.old).supply }
    ensures walk { IfOk result
        (λ ending. Walks as_reached D.machine start (lent_memory storage.old) device.old ending
        (lent_memory storage.new) device.new) }
    ensures unchanged_without_frames { result ≡ Err errors.FramesOut
        → (lent_memory storage.new ≡ lent_memory storage.old)
        × (device.new ≡ device.old) }
    ensures spared { ((d : D) (o : Order) → D.needs_memory d o ≡ false) → result ≡ Err errors.Memory
        → device.new ≡ device.old }
    ensures lacking { result ≡ Err errors.FramesOut
        → LacksSuch (is_wanted (touched_flags tried.now)) storage.new }
    ensures roomy { result ≡ Err errors.Memory → StandAll storage.new (touched_flags tried.now) }
    ensures paged_in { CameOnly storage.old (is_wanted (touched_flags tried.now)) 2 storage.new }
    ensures between { IsBetweenUnits (lent_pool storage.new).supply }
{
    match storage.page_in_wanted(tried.touched()) {
        Ok(()) => {}
        Err(FramesOut) => return Err(DryRunError::FramesOut),
    }
    let ran = run_on_copy(alloc, storage, start, device);
    let Ok(ending) = ran else {
        return Err(DryRunError::Memory);
    };
    storage.put_back(tried.bytes(), tried.touched());
    Ok(ending)
}

/// Runs the program with this start on its device, but on copies of pages, which are dropped, and
/// returns how it ended.
fn run_on_copy<D: Device>(
    alloc: Global,
    storage: &Dat<'_>,
    start: Caw,
    device: &mut D,
) -> Result<Ending, AllocError>
    ensures spared { ((d : D) (o : Order) → D.needs_memory d o ≡ false)
        → OnErr result (device.new ≡ device.old) }
    ensures ends { IfOk result (λ ending. EndsSomehow (limited D.machine start)
        (begun start (lent_memory storage.now) device.old) ending device.new) }
{
    let mut copy = TrialStorage::new(alloc, storage)?;
    match run_supplied(&mut copy, start.address.get(), &limits_of(start), device) {
        Ok(ending) => Ok(ending),
        Err(_) => Err(AllocError),
    }
}

/// Makes a dry run of the program of an initial program loading, with the device `trial`, which
/// changes; returns the pages that it touched. The storage stays.
///
/// # Errors
///
/// `AllocError` if memory is refused; what was passed may have changed in part.
pub fn try_loading<T: Device>(
    alloc: Global,
    storage: &Dat<'_>,
    trial: &mut T,
) -> Result<TouchedPages, AllocError>
    ensures { IfOk result (λ tried. IsLoadingTried T.machine
        (lent_memory storage.now) trial.old (tried_bytes storage.now tried) (touched_flags tried)) }
{
    let mut copy = TrialStorage::new(alloc, storage)?;
    channel_trial::try_loading(&mut copy, trial)?;
    Ok(copy.into_pages())
}

/// Makes a dry run of the program of an initial program loading, with a copy of the device, and
/// returns the pages that it touched. The storage stays.
///
/// # Errors
///
/// `AllocError` if memory is refused.
pub fn try_load<D: TriedLoading>(
    alloc: Global,
    storage: &Dat<'_>,
    device: &D,
) -> Result<TouchedPages, AllocError>
    ensures { IfOk result (λ tried. IsLoadingTried D.Device.machine
        (lent_memory storage.now) device.now (tried_bytes storage.now tried)
        (touched_flags tried)) }
{
    let mut copy = TrialStorage::new(alloc, storage)?;
    device.try_load(&mut copy)?;
    Ok(copy.into_pages())
}

/// Runs the program of an initial program loading after its dry run, as a whole if there is room
/// for the pages that it touches, else not at all.
///
/// # Errors
///
/// A `DryRunError`: refused memory, or no room for a page that is needed.
pub fn load_tried<D: Device>(
    alloc: Global,
    storage: &mut Dat<'_>,
    device: &mut D,
    tried: &TouchedPages,
) -> Result<Ending, DryRunError>
    requires tried { IsLoadingTried D.machine (lent_memory storage.old)
        device.old (tried_bytes storage.old tried.now) (touched_flags tried.now) }
    requires between { IsBetweenUnits (lent_pool storage.old).supply }
    ensures walk { IfOk result
        (λ ending. Reaches (live guest_written) (setting D.machine loading_limits)
        (loading D.machine (lent_memory storage.old) device.old)
        (Over ending (lent_memory storage.new) device.new)) }
    ensures unchanged_without_frames { result ≡ Err errors.FramesOut
        → (lent_memory storage.new ≡ lent_memory storage.old)
        × (device.new ≡ device.old) }
    ensures spared { ((d : D) (o : Order) → D.needs_memory d o ≡ false) → result ≡ Err errors.Memory
        → device.new ≡ device.old }
    ensures lacking { result ≡ Err errors.FramesOut
        → LacksSuch (is_wanted (touched_flags tried.now)) storage.new }
    ensures roomy { result ≡ Err errors.Memory → StandAll storage.new (touched_flags tried.now) }
    ensures paged_in { CameOnly storage.old (is_wanted (touched_flags tried.now)) 2 storage.new }
    ensures between { IsBetweenUnits (lent_pool storage.new).supply }
{
    match storage.page_in_wanted(tried.touched()) {
        Ok(()) => {}
        Err(FramesOut) => return Err(DryRunError::FramesOut),
    }
    let ran = load_on_copy(alloc, storage, device);
    let Ok(ending) = ran else {
        return Err(DryRunError::Memory);
    };
    storage.put_back(tried.bytes(), tried.touched());
    Ok(ending)
}

/// Runs the program of an initial program loading on its device, but on copies of pages, which are
/// dropped, and returns how it ended.
fn load_on_copy<D: Device>(
    alloc: Global,
    storage: &Dat<'_>,
    device: &mut D,
) -> Result<Ending, AllocError>
    ensures spared { ((d : D) (o : Order) → D.needs_memory d o ≡ false)
        → OnErr result (device.new ≡ device.old) }
    ensures ends { IfOk result (λ ending. EndsSomehow (setting D.machine loading_limits)
        (loading D.machine (lent_memory storage.now) device.old) ending device.new) }
{
    let mut copy = TrialStorage::new(alloc, storage)?;
    match load_supplied(&mut copy, device) {
        Ok(ending) => Ok(ending),
        Err(_) => Err(AllocError),
    }
}
