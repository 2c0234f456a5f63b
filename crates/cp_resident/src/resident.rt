//! Channels of users: a program runs as a whole, or not at all, with the pages that it needs.
ghost use Rattle.std.specs.Prelude.{◌≡◌, ◌<◌, IfErr, IfOk, List, is_ok, length};
ghost use Rattle.s370_channel.specs.Reading.{as_reached};
ghost use Rattle.s370_channel.specs.Runs.{Walks};
ghost use Rattle.s370_channel.specs.declared.running.ChannelError.TheVariants as errors;
ghost use Rattle.machine_channels.specs.Channels.{WalksDisk};
ghost use Rattle.cp_dat.specs.Lent.{KeepsStored, is_lent_page, lent_memory};
ghost use Rattle.cp_trial.specs.Holding.{IsFixedProgram};
ghost use Rattle.s370_store.specs.declared.Page.{Page};
ghost use Rattle.cp_ccw.specs.CachedProgram.{IsAtBase};
ghost use Rattle.cp_resident.specs.GuestChannels.{KeepsHung, disks_on, reuse_of, told_by, error_of};
ghost use Rattle.cp_resident.specs.Reuse.{KeepsCopy, KeepsKnown};

use crate::reuse::Reuse;
use channel_trial::{DryRun, TriedLoading};
use cp_ccw::{CachedProgram, cache_program, know, run_kept};
use cp_dat::Dat;
use cp_needs::WordAt;
use cp_trial::{
    DryRunError, LockedProgram, fetch_again, fetch_first, load_open, lock_pages, run_open,
};
use cp_volumes::{SharedDisk, UserDisks, Volumes};
use machine_channels::{Channels, Disks, UnitRecord};
use s370_channel::{Caw, ChannelError, Limits, MOST_COMMANDS};
use s370_store::{Page, UnitSupply};
use s370_walk::{Device, Ending};
use std::alloc::Global;
use std::mem::replace;

/// A program that no input can change runs where the pages that it needs are in frames: those of
/// its words, of their lists and of their areas. They are brought, and held until it has run; where
/// there is no room for one, nothing has happened. It is copied, with the real addresses of those
/// pages, and the copy runs.
///
/// Of any other program each word is read when it is reached. It is tried first, so that the pages
/// that it touches can be placed before it runs; where there is no room for one, nothing has
/// happened. So is the program of a loading.
///
/// The copy is kept for its device, and runs again as long as all that it was copied from is as it
/// was: its address word, its words and lists, and the frames of the pages of its data. Of a
/// minidisk's program, which is not copied, the same is kept, so that it need not be looked at
/// again. A system reset, a loading, LOGON and LOGOFF drop what is kept.
#[derive(Drop)]
pub struct GuestChannels {
    disks: UserDisks,
    reuse: Reuse,
    alloc: Global,
}

impl GuestChannels {
    ghost use Rattle.cp_resident.specs.GuestChannels.{hung_on, reuse_of};
    ghost use Rattle.cp_volumes.specs.Shared.{IsUsers, placements_of};

    /// Moves a user's minidisks, all volumes and his cached programs into new channels, which
    /// leaves none in their places. It takes no memory.
    pub fn take_from(
        alloc: Global,
        volumes: &mut Volumes,
        minidisks: &mut Vec<SharedDisk>,
        reuse: &mut Reuse,
    ) -> GuestChannels
        requires { IsUsers volumes.old (placements_of minidisks.old.items) }
        ensures hung { hung_on result
            ≡ record { volumes = volumes.old; minidisks = minidisks.old.items } }
        ensures kept { reuse_of result ≡ reuse.old }
    {
        let taken = replace(volumes, Volumes::none(alloc));
        let disks = replace(minidisks, Vec::new(alloc));
        GuestChannels {
            disks: UserDisks::new(taken, disks),
            reuse: reuse.take(alloc),
            alloc,
        }
    }

    /// Moves minidisks, volumes and cached programs from the channels back into these places. It
    /// takes no memory.
    pub fn return_to(
        self,
        volumes: &mut Volumes,
        minidisks: &mut Vec<SharedDisk>,
        reuse: &mut Reuse,
    )
        ensures volumes { volumes.new ≡ (hung_on self).volumes }
        ensures minidisks { minidisks.new.items ≡ (hung_on self).minidisks }
        ensures kept { reuse.new ≡ reuse_of self }
    {
        let (taken, disks) = self.disks.into_parts();
        *volumes = taken;
        *minidisks = disks;
        *reuse = self.reuse;
    }
}

impl Disks for GuestChannels {
    ghost use Rattle.cp_resident.specs.GuestChannels.{Forgets, KeepsHung, disks_on, hung_further};
    ghost use Rattle.cp_resident.specs.GuestChannels.{hung_same};

    ghost disks = { disks_on };

    ghost KeepsOthers = { KeepsHung };

    ghost Forgets = { Forgets };

    /// Returns the index of the first minidisk with this address, if there is one.
    fn disk_at(&self, device: u16) -> Option<usize> {
        self.disks.disk_at(device)
    }

    /// Drops the cached programs, and resets the disks: the arms stay.
    fn reset_disks(&mut self) {
        self.reuse.clear();
        self.disks.reset();
    }

    /// Drops the cached programs, and clears the disks: the arms are at their first tracks.
    fn clear_disks(&mut self) {
        self.reuse.clear();
        self.disks.clear();
    }

    ghost others_same = { hung_same };

    ghost others_on = { hung_further };
}

impl<'a> Channels<Dat<'a>> for GuestChannels {
    ghost use Rattle.std.specs.Prelude.{true};
    ghost use Rattle.s370_channel.specs.Reading.{as_reached};
    ghost use Rattle.cp_dat.specs.Lent.{lent_pool, user_of};
    ghost use Rattle.cp_dat.specs.Letting as laws;
    ghost use Rattle.cp_dat.specs.Supplied.{HasNoRoom, IsBetweenUnits};
    ghost use Rattle.cp_resident.specs.GuestChannels.{PagedIn, HadRoom, IsFilled, came_further};
    ghost use Rattle.cp_resident.specs.GuestChannels.{came_nowhere, reuse_of};
    ghost use Rattle.cp_resident.specs.Reuse.{HasReused, HasReusedDisk};
    ghost use Rattle.cp_trial.specs.Holding.{HoldNeeds};
    ghost use Rattle.cp_trial.specs.DryRun.{HadRoomAfterFirst};

    ghost reads = { as_reached };

    ghost is_whole = { true };

    ghost holds = { HoldNeeds };

    ghost IsReady = { λ d. IsBetweenUnits (lent_pool d).supply };

    ghost IsOut = { λ d page. HasNoRoom (lent_pool d).supply (user_of d) page };

    ghost IsFilled = { λ d page. IsFilled (lent_pool d).supply (user_of d) page };

    ghost Came = { PagedIn };

    ghost HadRoom = { HadRoom };

    ghost HadRoomToLoad = { HadRoomAfterFirst };

    ghost Reuses = { λ r d start unit done s.
        HasReused (reuse_of r) d start unit done (reuse_of s) };

    ghost ReusesDisk = { λ r d start index done s.
        HasReusedDisk (reuse_of r) d start index done (reuse_of s) };

    /// Runs the program with this start for a device that is no disk: its valid cached copy, which
    /// is counted, or a new copy, which is cached; or after a dry run, uncached, if an input could
    /// change it.
    fn run<D: DryRun>(
        &mut self,
        storage: &mut Dat<'a>,
        start: Caw,
        unit: UnitRecord,
        device: &mut D,
    ) -> Result<Ending, ChannelError> {
        if let Some(kept) = self.reuse.of_unit(unit, storage, &start) {
            let ended = run_again(kept, storage, &start, device);
            self.reuse.count_reuse();
            return ended;
        }
        match lock_pages(self.alloc, storage, start.address.get()) {
            Ok(LockedProgram::Fixed(text, _)) => {
                let ended = run_copied(
                    &mut self.reuse,
                    self.alloc,
                    storage,
                    &start,
                    unit,
                    text,
                    device,
                );
                storage.let_go();
                ended
            }
            Ok(LockedProgram::SelfModifying) => {
                self.reuse.put_unit(unit, None);
                reported(run_open(self.alloc, storage, start, device))
            }
            Err(error) => {
                storage.let_go();
                Err(error_of(error))
            }
        }
    }

    /// Runs the program with this start for the disk of this index: at once, which is counted, if
    /// its cache is valid, else with its pages pinned and cached; or after a dry run, uncached, if
    /// an input could change it.
    fn run_disk(
        &mut self,
        storage: &mut Dat<'a>,
        start: Caw,
        index: usize,
    ) -> Result<Ending, ChannelError> {
        if self.reuse.is_disk_valid(index, storage, &start) {
            self.reuse.count_reuse();
            return Ok(self.disks.run_held(storage, start, index));
        }
        match lock_pages(self.alloc, storage, start.address.get()) {
            Ok(LockedProgram::Fixed(text, pages)) => {
                let ended = run_known(self, storage, start, index, text, &pages);
                storage.let_go();
                ended
            }
            Ok(LockedProgram::SelfModifying) => {
                self.reuse.put_disk(index, None);
                reported(self.disks.run_disk(self.alloc, storage, start, index))
            }
            Err(error) => {
                storage.let_go();
                Err(error_of(error))
            }
        }
    }

    /// Makes a dry run of the loading program of a device that is no disk, and runs it if there is
    /// room for its pages; what is cached stays.
    fn load<D: TriedLoading>(
        &mut self,
        storage: &mut Dat<'a>,
        device: &mut D,
    ) -> Result<Ending, ChannelError> {
        reported(load_open(self.alloc, storage, device))
    }

    /// Makes a dry run of the loading program of the disk of this index, and runs it on reset disks
    /// if there is room for its pages; then drops what is cached.
    fn load_disk(&mut self, storage: &mut Dat<'a>, index: usize) -> Result<Ending, ChannelError> {
        match fetch_first(storage) {
            Ok(()) => {}
            Err(error) => return Err(error_of(error)),
        }
        match self.disks.load_disk(self.alloc, storage, index) {
            Ok(ending) => {
                self.reuse.clear();
                fetch_again(storage);
                Ok(ending)
            }
            Err(error) => Err(error_of(error)),
        }
    }

    ghost came_none = { came_nowhere };

    ghost came_kept = { came_further };

    ghost ready_kept = { λ s t k. laws.between_kept s t k.rest };

    ghost came_size = { λ n s t units paged_in. paged_in.paged_in.kept.same_size };

    ghost came_keys = { λ n s t units paged_in. paged_in.keys };
}

/// Returns the channel error for an error of a dry run: if there is no room, `Absent` with page 0,
/// whichever page it was.
fn error_of(error: DryRunError) -> ChannelError
    ensures { result ≡ error_of error }
{
    match error {
        DryRunError::Memory => ChannelError::Memory,
        DryRunError::FramesOut => ChannelError::Absent(Page(0)),
    }
}

/// Returns how a program ended, or the channel's error for that of its dry run.
fn reported(ran: Result<Ending, DryRunError>) -> Result<Ending, ChannelError>
    ensures { result ≡ told_by ran }
{
    match ran {
        Ok(ending) => Ok(ending),
        Err(error) => Err(error_of(error)),
    }
}

/// Copies a program that no input can change and whose pages are in frames, runs the copy on its
/// device, and caches it.
///
/// It stops only if memory is refused.
fn run_copied<D: Device>(
    reuse: &mut Reuse,
    alloc: Global,
    storage: &mut Dat<'_>,
    start: &Caw,
    unit: UnitRecord,
    text: Vec<WordAt>,
    device: &mut D,
) -> Result<Ending, ChannelError>
    requires fixed { (pages : List Page)
        × IsFixedProgram (lent_memory storage.old) start.now.address (is_lent_page storage.old)
        text.items pages }
    ensures walk { IfOk result
        (λ ending. Walks as_reached D.machine start.now (lent_memory storage.old) device.old ending
        (lent_memory storage.new) device.new) }
    ensures memory { IfErr result (λ error. error ≡ errors.Memory) }
    ensures rest { KeepsStored storage.old storage.new }
    ensures kept { KeepsCopy reuse.old storage.old start.now unit (is_ok result) reuse.new }
{
    match cache_program(alloc, storage, copy_of(start), text) {
        Ok(kept) => {
            let ended = run_again(&kept, storage, start, device);
            reuse.put_unit(unit, Some(kept));
            ended
        }
        Err(_) => Err(ChannelError::Memory),
    }
}

/// Caches what has to be known to run a minidisk's program again, and runs it where it is; no input
/// must be able to change it, and its pages have to be in frames.
///
/// It stops only if memory is refused.
fn run_known(
    channels: &mut GuestChannels,
    storage: &mut Dat<'_>,
    start: Caw,
    index: usize,
    text: Vec<WordAt>,
    pages: &[Page],
) -> Result<Ending, ChannelError>
    requires inside { index < length (disks_on channels.old) }
    requires fixed { IsFixedProgram (lent_memory storage.old) start.address
        (is_lent_page storage.old) text.items
        pages.now }
    ensures walk { IfOk result
        (λ ending. WalksDisk as_reached start (lent_memory storage.old) (disks_on channels.old)
        index ending
        (lent_memory storage.new) (disks_on channels.new)) }
    ensures memory { IfErr result (λ error. error ≡ errors.Memory) }
    ensures others { KeepsHung channels.old channels.new }
    ensures rest { KeepsStored storage.old storage.new }
    ensures kept { KeepsKnown (reuse_of channels.old) storage.old start index (is_ok result)
        (reuse_of channels.new) }
{
    match know(channels.alloc, storage, copy_of(&start), text, pages) {
        Ok(known) => {
            channels.reuse.put_disk(index, Some(known));
            Ok(channels.disks.run_held(storage, start, index))
        }
        Err(_) => Err(ChannelError::Memory),
    }
}

/// Returns a copy of the address word.
fn copy_of(start: &Caw) -> Caw
    ensures { result ≡ start.now }
{
    *start
}

/// Runs the copy of a cached program, all from which it was made being unchanged, on its device,
/// and returns how it ended.
fn run_again<D: Device>(
    kept: &CachedProgram,
    storage: &mut Dat<'_>,
    start: &Caw,
    device: &mut D,
) -> Result<Ending, ChannelError>
    requires { IsAtBase kept.now storage.old start.now }
    ensures walk { IfOk result (λ ending. Walks as_reached D.machine start.now
        (lent_memory storage.old) device.old ending (lent_memory storage.new) device.new) }
    ensures memory { IfErr result (λ error. error ≡ errors.Memory) }
    ensures rest { KeepsStored storage.old storage.new }
{
    let limits = Limits {
        key: start.key,
        commands: MOST_COMMANDS,
        prefix: 0,
    };
    run_kept(kept, storage, *start, &limits, device)
}
