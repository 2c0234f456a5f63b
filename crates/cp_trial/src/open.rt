//! Programs that are tried, and then run.
ghost use Rattle.std.specs.Prelude.{◌≡◌, ◌⊎◌, ◌<◌, [], Err, IfOk, OnOk, length, true};
ghost use Rattle.s370_channel.specs.Guest.{guest_written};
ghost use Rattle.s370_channel.specs.Loading.{loading, loading_limits};
ghost use Rattle.s370_channel.specs.Progress.{setting};
ghost use Rattle.s370_channel.specs.Reading.{as_reached};
ghost use Rattle.s370_channel.specs.Runs.{Walks, begun, limited};
ghost use Rattle.s370_channel.specs.Supplied.{IsTouched};
ghost use Rattle.s370_walk.specs.Walk.{Over, Reaches, live};
ghost use Rattle.cp_dat.specs.Copies.{CameOnly};
ghost use Rattle.cp_dat.specs.Lent.{is_lent_page, lent_bytes, lent_pool, user_of, lent_memory};
ghost use Rattle.cp_dat.specs.Supplied.{IsBetweenUnits, Stands};
ghost use Rattle.cp_trial.specs.DryRun.{HadRoom, HadRoomAfterFirst, LacksSuch, LoadTouches};
ghost use Rattle.cp_trial.specs.declared.DryRunError.TheVariants as errors;

use crate::{DryRunError, load_tried, run_tried, try_device, try_load};
use channel_trial::{DryRun, TriedLoading};
use cp_dat::Dat;
use s370_channel::Caw;
use s370_store::{FramesOut, Page, Storage};
use s370_walk::Ending;
use std::alloc::Global;

/// Makes a dry run of the program with this start, and runs it as a whole if there is room for the
/// pages that it touches, else not at all.
///
/// # Errors
///
/// A `DryRunError`: refused memory, or no room for a page that is needed.
pub fn run_open<D: DryRun>(
    alloc: Global,
    storage: &mut Dat<'_>,
    start: Caw,
    device: &mut D,
) -> Result<Ending, DryRunError>
    requires { IsBetweenUnits (lent_pool storage.old).supply }
    ensures walk { IfOk result (λ ending. Walks as_reached D.Device.machine start
        (lent_memory storage.old) device.old ending (lent_memory storage.new) device.new) }
    ensures unchanged_without_frames { result ≡ Err errors.FramesOut
        → (lent_memory storage.new ≡ lent_memory storage.old)
        × (device.new ≡ device.old) }
    ensures lacking { result ≡ Err errors.FramesOut → LacksSuch (IsTouched guest_written
        (limited D.Device.machine start) (begun start (lent_memory storage.old) device.old))
        storage.new }
    ensures roomy { result ≡ Err errors.Memory
        → HadRoom _ D.Device.machine storage.old start device.old storage.new }
    ensures paged_in { CameOnly storage.old
        (IsTouched guest_written (limited D.Device.machine start)
        (begun start (lent_memory storage.old) device.old)) 2 storage.new }
    ensures between { IsBetweenUnits (lent_pool storage.new).supply }
{
    let again = Caw {
        key: start.key,
        address: start.address,
    };
    match try_device(alloc, storage, again, device) {
        Ok(tried) => run_tried(alloc, storage, start, device, &tried),
        Err(_) => Err(DryRunError::Memory),
    }
}

/// Makes a dry run of the program of an initial program loading, and runs it if there is room for
/// the pages that it touches; page 0 is paged in before it and after it.
///
/// # Errors
///
/// A `DryRunError`: refused memory, or no room for a page that is needed.
pub fn load_open<D: TriedLoading>(
    alloc: Global,
    storage: &mut Dat<'_>,
    device: &mut D,
) -> Result<Ending, DryRunError>
    requires { IsBetweenUnits (lent_pool storage.old).supply }
    ensures walk { IfOk result
        (λ ending. Reaches (live guest_written) (setting D.Device.machine loading_limits)
        (loading D.Device.machine (lent_memory storage.old) device.old)
        (Over ending (lent_memory storage.new) device.new)) }
    ensures unchanged_without_frames { result ≡ Err errors.FramesOut
        → (lent_memory storage.new ≡ lent_memory storage.old)
        × (device.new ≡ device.old) }
    ensures lacking { result ≡ Err errors.FramesOut → LacksSuch (LoadTouches D.Device.machine
        (lent_memory storage.old) device.old) storage.new }
    ensures roomy { result ≡ Err errors.Memory
        → HadRoomAfterFirst _ D.Device.machine storage.old device.old storage.new }
    ensures paged_in { CameOnly storage.old (LoadTouches D.Device.machine
        (lent_memory storage.old) device.old) 4 storage.new }
    ensures there { OnOk result (is_lent_page storage.new 0 ≡ true) }
    ensures between { IsBetweenUnits (lent_pool storage.new).supply }
{
    fetch_first(storage)?;
    let tried = match try_load(alloc, storage, device) {
        Ok(tried) => tried,
        Err(_) => return Err(DryRunError::Memory),
    };
    let ending = load_tried(alloc, storage, device, &tried)?;
    fetch_again(storage);
    Ok(ending)
}

/// Pages in page 0 if it is in no frame, before a loading; a storage without bytes is refused as
/// out of memory.
///
/// # Errors
///
/// A `DryRunError`: refused memory, or no room for a page that is needed.
pub fn fetch_first(storage: &mut Dat<'_>) -> Result<(), DryRunError>
    requires { IsBetweenUnits (lent_pool storage.old).supply }
    ensures some { OnOk result (0 < length (lent_bytes storage.new)) }
    ensures there { OnOk result (is_lent_page storage.new 0 ≡ true) }
    ensures lacking { result ≡ Err errors.FramesOut → LacksSuch (λ page. page ≡ 0) storage.new }
    ensures roomy { result ≡ Err errors.Memory → lent_bytes storage.old ≡ [] }
    ensures untouched { result ≡ Err errors.Memory → storage.new ≡ storage.old }
    ensures paged_in { CameOnly storage.old (λ page. page ≡ 0) 1 storage.new }
    ensures between { IsBetweenUnits (lent_pool storage.new).supply }
    ensures memory { lent_memory storage.new ≡ lent_memory storage.old }
{
    // No machine is without storage.
    if storage.size() == 0 {
        return Err(DryRunError::Memory);
    }
    match storage.page_in_unpinned(Page(0)) {
        Ok(()) => Ok(()),
        Err(FramesOut) => Err(DryRunError::FramesOut),
    }
}

/// Pages in page 0 if it is in no frame, after a loading: it is in a slot then, and never refused.
pub fn fetch_again(storage: &mut Dat<'_>)
    requires some { 0 < length (lent_bytes storage.old) }
    requires stands { Stands (lent_pool storage.old).supply (user_of storage.old) 0 }
    requires between { IsBetweenUnits (lent_pool storage.old).supply }
    ensures there { is_lent_page storage.new 0 ≡ true }
    ensures paged_in { CameOnly storage.old (λ page. page ≡ 0) 1 storage.new }
    ensures between { IsBetweenUnits (lent_pool storage.new).supply }
    ensures memory { lent_memory storage.new ≡ lent_memory storage.old }
{
    match storage.page_in_unpinned(Page(0)) {
        Ok(()) => {}
        // It is somewhere.
        Err(FramesOut) => unreachable!(),
    }
}
