//! Programs of a minidisk that is mounted on the unit of its volume: one that was tried runs to its
//! end or not at all, one whose pages are held to its end.
ghost use Rattle.std.specs.Prelude.{◌≡◌, IfOk, OnErr, Err};
ghost use Rattle.s370_channel.specs.Reading.{as_reached};
ghost use Rattle.s370_channel.specs.Runs.{Walks};
ghost use Rattle.ckd_volume.specs.Unit.{disk_machine};
ghost use Rattle.machine_channels.specs.Channels.{WalksLoading};
ghost use Rattle.cp_dat.specs.Copies.{CameOnly, StandAll, is_wanted};
ghost use Rattle.cp_dat.specs.Lent.{lent_pool, lent_memory};
ghost use Rattle.cp_dat.specs.Supplied.{IsBetweenUnits};
ghost use Rattle.cp_trial.specs.Trial.{touched_flags, tried_bytes};
ghost use Rattle.channel_trial.specs.DryRun.{IsLoadingTried, IsProgramTried};
ghost use Rattle.cp_trial.specs.DryRun.{LacksSuch};
ghost use Rattle.cp_trial.specs.declared.DryRunError.TheVariants as errors;
ghost use Rattle.cp_needs.specs.Words.{IsFixedStill};
ghost use Rattle.cp_volumes.specs.Running.{KeepsVolume};

use cp_dat::Dat;
use cp_minidisk::Mounted;
use cp_needs::run_held;
use cp_trial::{DryRunError, TouchedPages, load_tried, run_tried};
use s370_channel::{Caw, Limits, MOST_COMMANDS};
use s370_store::Storage;
use s370_walk::Ending;
use std::alloc::Global;

/// Runs the program with this start, which no input can change, on a mounted minidisk, and returns
/// how it ended; the storage has to have the pages which it needs.
pub(crate) fn run_mounted_held<S: Storage>(
    mounted: &mut Mounted,
    storage: &mut S,
    start: Caw,
) -> Ending
    requires { IsFixedStill (S.memory storage.old) (S.present storage.old) start.address }
    ensures walk { Walks as_reached disk_machine start (S.memory storage.old)
        mounted.old.disk result (S.memory storage.new) mounted.new.disk }
    ensures volume { KeepsVolume mounted.old mounted.new }
    ensures rest { S.Keeps storage.old storage.new }
{
    let limits = Limits {
        key: start.key,
        commands: MOST_COMMANDS,
        prefix: 0,
    };
    match run_held(storage, start.address.get(), &limits, mounted) {
        Ok(ending) => ending,
        // No command of a disk needs memory.
        Err(_) => unreachable!(),
    }
}

/// Runs the program with this start on a mounted minidisk, after its dry run: as a whole if there
/// is room for the pages that it touches, else not at all.
pub(crate) fn run_mounted(
    alloc: Global,
    mounted: &mut Mounted,
    storage: &mut Dat<'_>,
    start: Caw,
    tried: &TouchedPages,
) -> Result<Ending, DryRunError>
    requires tried { IsProgramTried disk_machine start (lent_memory storage.old)
        mounted.old.disk (tried_bytes storage.old tried.now) (touched_flags tried.now) }
    requires between { IsBetweenUnits (lent_pool storage.old).supply }
    ensures walk { IfOk result (λ ending. Walks as_reached disk_machine start
        (lent_memory storage.old) mounted.old.disk ending (lent_memory storage.new)
        mounted.new.disk) }
    ensures unchanged_on_error { OnErr result (mounted.new ≡ mounted.old) }
    ensures memory { result ≡ Err errors.FramesOut
        → lent_memory storage.new ≡ lent_memory storage.old }
    ensures lacking { result ≡ Err errors.FramesOut
        → LacksSuch (is_wanted (touched_flags tried.now)) storage.new }
    ensures roomy { result ≡ Err errors.Memory → StandAll storage.new (touched_flags tried.now) }
    ensures volume { KeepsVolume mounted.old mounted.new }
    ensures paged_in { CameOnly storage.old (is_wanted (touched_flags tried.now)) 2 storage.new }
    ensures between { IsBetweenUnits (lent_pool storage.new).supply }
{
    run_tried(alloc, storage, start, mounted, tried)
}

/// Runs the program of an initial program loading on a mounted minidisk, after its dry run: as a
/// whole if there is room for the pages that it touches, else not at all.
pub(crate) fn load_mounted(
    alloc: Global,
    mounted: &mut Mounted,
    storage: &mut Dat<'_>,
    tried: &TouchedPages,
) -> Result<Ending, DryRunError>
    requires tried { IsLoadingTried disk_machine (lent_memory storage.old)
        mounted.old.disk (tried_bytes storage.old tried.now) (touched_flags tried.now) }
    requires between { IsBetweenUnits (lent_pool storage.old).supply }
    ensures walk { IfOk result
        (λ ending. WalksLoading disk_machine (lent_memory storage.old) mounted.old.disk ending
        (lent_memory storage.new) mounted.new.disk) }
    ensures unchanged_on_error { OnErr result (mounted.new ≡ mounted.old) }
    ensures memory { result ≡ Err errors.FramesOut
        → lent_memory storage.new ≡ lent_memory storage.old }
    ensures lacking { result ≡ Err errors.FramesOut
        → LacksSuch (is_wanted (touched_flags tried.now)) storage.new }
    ensures roomy { result ≡ Err errors.Memory → StandAll storage.new (touched_flags tried.now) }
    ensures volume { KeepsVolume mounted.old mounted.new }
    ensures paged_in { CameOnly storage.old (is_wanted (touched_flags tried.now)) 2 storage.new }
    ensures between { IsBetweenUnits (lent_pool storage.new).supply }
{
    load_tried(alloc, storage, mounted, tried)
}
