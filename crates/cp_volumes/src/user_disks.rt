//! The minidisks of one user, with the volumes on which they are.
ghost use Rattle.std.specs.Prelude.{◌≡◌, ◌==◌, ◌<◌, Err, IfOk, IfSome, OnErr, length, map};
ghost use Rattle.std.specs.Prelude.{slice_get};
ghost use Rattle.std.specs.List.{position};
ghost use Rattle.s370_channel.specs.Reading.{as_reached};
ghost use Rattle.machine_channels.specs.Channels.{DiskHadRoom, DiskHadRoomToLoad, LoadsDisk};
ghost use Rattle.machine_channels.specs.Channels.{WalksDisk};
ghost use Rattle.machine_channels.specs.Disks.{cleared_disk, is_disk_at, reset_disk};
ghost use Rattle.cp_dat.specs.Copies.{CameOnly};
ghost use Rattle.cp_dat.specs.Lent.{lent_pool, lent_memory};
ghost use Rattle.cp_dat.specs.Supplied.{IsBetweenUnits};
ghost use Rattle.cp_trial.specs.DryRun.{HadRoom, HadRoomToLoad, LacksSuch};
ghost use Rattle.cp_trial.specs.declared.DryRunError.TheVariants as errors;
ghost use Rattle.cp_needs.specs.Words.{IsFixedStill};
ghost use Rattle.cp_volumes.specs.Running.{DiskLoadTouches, DiskTouches};
ghost use Rattle.cp_volumes.specs.Shared.{IsUsers, KeepsOtherDisks, cleared_minidisk};
ghost use Rattle.cp_volumes.specs.Shared.{reset_minidisk, seen, placements_of};

use crate::shared_disk::SharedDisk;
use crate::volumes::Volumes;
use cp_dat::Dat;
use cp_trial::DryRunError;
use s370_channel::Caw;
use s370_store::Storage;
use s370_walk::Ending;
use std::alloc::Global;
use std::marker::Model;

/// The minidisks of a user on volumes that others share: no two of his are where one of them is
/// written.
#[derive(Drop)]
pub struct UserDisks {
    volumes: Volumes,
    minidisks: Vec<SharedDisk>,
}

impl Model for UserDisks {
    ghost use Rattle.cp_volumes.specs.Shared.{DisksValue, IsUsers, placements_of};

    ghost Value = { DisksValue };

    ghost view = { λ d. record { volumes = d.volumes; minidisks = d.minidisks.items } };

    ghost invariant = { λ d. IsUsers d.volumes (placements_of d.minidisks.items) };
}

impl UserDisks {
    /// Returns the disks of a user: these minidisks on these volumes.
    pub fn new(volumes: Volumes, minidisks: Vec<SharedDisk>) -> UserDisks
        requires { IsUsers volumes (placements_of minidisks.items) }
        ensures { result ≡ record { volumes = volumes; minidisks = minidisks.items } }
    {
        UserDisks { volumes, minidisks }
    }

    /// Returns the volumes, and the minidisks without their cylinders.
    pub fn into_parts(self) -> (Volumes, Vec<SharedDisk>)
        ensures volumes { result.0 ≡ self.volumes }
        ensures minidisks { result.1.items ≡ self.minidisks }
        ensures users { IsUsers result.0 (placements_of result.1.items) }
    {
        (self.volumes, self.minidisks)
    }

    /// Returns the index of the first of the minidisks at this address, if there is one.
    pub fn disk_at(&self, device: u16) -> Option<usize>
        ensures index { result ≡ position (is_disk_at device) (seen self.now) }
        ensures inside { IfSome result (λ index. index < length (seen self.now)) }
    {
        index_of(&self.minidisks, device)
    }

    /// Resets the minidisks: they have no sense, and the arms stay.
    pub fn reset(&mut self)
        ensures reset { seen self.new ≡ map reset_disk (seen self.old) }
        ensures others { KeepsOtherDisks self.old self.new }
    {
        reset_each(&mut self.minidisks);
    }

    /// Clears the minidisks, as for a LOGON: they have no sense, and the arms are at their first
    /// tracks.
    pub fn clear(&mut self)
        ensures cleared { seen self.new ≡ map cleared_disk (seen self.old) }
        ensures others { KeepsOtherDisks self.old self.new }
    {
        clear_each(&mut self.minidisks);
    }

    /// Runs the program with this start, which no input can change, on the minidisk of this index,
    /// and returns how it ended; the storage has to have the pages which it needs.
    pub fn run_held<S: Storage>(&mut self, storage: &mut S, start: Caw, index: usize) -> Ending
        requires inside { index < length (seen self.old) }
        requires still { IsFixedStill (S.memory storage.old) (S.present storage.old) start.address }
        ensures walk { WalksDisk as_reached start (S.memory storage.old)
            (seen self.old) index result (S.memory storage.new) (seen self.new) }
        ensures others { KeepsOtherDisks self.old self.new }
        ensures rest { S.Keeps storage.old storage.new }
    {
        self.volumes
            .run_held(&mut self.minidisks[index], storage, start)
    }

    /// Runs the program with this start on the minidisk of this index, as a whole if there is room
    /// for the pages that it touches, else not at all.
    ///
    /// # Errors
    ///
    /// A `DryRunError`: refused memory, or no room for a page that is needed.
    pub fn run_disk(
        &mut self,
        alloc: Global,
        storage: &mut Dat<'_>,
        start: Caw,
        index: usize,
    ) -> Result<Ending, DryRunError>
        requires inside { index < length (seen self.old) }
        requires between { IsBetweenUnits (lent_pool storage.old).supply }
        ensures walk { IfOk result (λ ending. WalksDisk as_reached start
            (lent_memory storage.old) (seen self.old) index ending (lent_memory storage.new)
            (seen self.new)) }
        ensures unchanged_on_error { OnErr result (self.new ≡ self.old) }
        ensures memory { result ≡ Err errors.FramesOut
            → lent_memory storage.new ≡ lent_memory storage.old }
        ensures lacking { result ≡ Err errors.FramesOut → LacksSuch (DiskTouches start
            (lent_memory storage.old) (slice_get (seen self.old) index)) storage.new }
        ensures roomy { result ≡ Err errors.Memory → DiskHadRoom HadRoom storage.old start
            (slice_get (seen self.old) index) storage.new }
        ensures paged_in { CameOnly storage.old (DiskTouches start
            (lent_memory storage.old) (slice_get (seen self.old) index)) 2 storage.new }
        ensures between { IsBetweenUnits (lent_pool storage.new).supply }
        ensures others { KeepsOtherDisks self.old self.new }
    {
        let mut seat = self.minidisks[index];
        match self.volumes.run(alloc, &mut seat, storage, start) {
            Ok(ending) => {
                self.minidisks[index] = seat;
                Ok(ending)
            }
            Err(error) => Err(error),
        }
    }

    /// Resets all minidisks and runs the program of an initial program loading on that of this
    /// index, if there is room for the pages that it touches; else does neither.
    ///
    /// # Errors
    ///
    /// A `DryRunError`: refused memory, or no room for a page that is needed.
    pub fn load_disk(
        &mut self,
        alloc: Global,
        storage: &mut Dat<'_>,
        index: usize,
    ) -> Result<Ending, DryRunError>
        requires inside { index < length (seen self.old) }
        requires between { IsBetweenUnits (lent_pool storage.old).supply }
        ensures walk { IfOk result (λ ending. LoadsDisk
            (lent_memory storage.old) (map reset_disk (seen self.old)) index ending
            (lent_memory storage.new) (seen self.new)) }
        ensures unchanged_on_error { OnErr result (self.new ≡ self.old) }
        ensures memory { result ≡ Err errors.FramesOut
            → lent_memory storage.new ≡ lent_memory storage.old }
        ensures lacking { result ≡ Err errors.FramesOut → LacksSuch (DiskLoadTouches
            (lent_memory storage.old) (slice_get (map reset_disk (seen self.old)) index))
            storage.new }
        ensures roomy { result ≡ Err errors.Memory → DiskHadRoomToLoad HadRoomToLoad storage.old
            (slice_get (map reset_disk (seen self.old)) index) storage.new }
        ensures paged_in { CameOnly storage.old (DiskLoadTouches
            (lent_memory storage.old) (slice_get (map reset_disk (seen self.old)) index))
            2 storage.new }
        ensures between { IsBetweenUnits (lent_pool storage.new).supply }
        ensures others { KeepsOtherDisks self.old self.new }
    {
        let mut seat = self.minidisks[index];
        seat.reset();
        match self.volumes.load(alloc, &mut seat, storage) {
            Ok(ending) => {
                reset_each(&mut self.minidisks);
                self.minidisks[index] = seat;
                Ok(ending)
            }
            Err(error) => Err(error),
        }
    }
}

/// Returns the index of the first of these minidisks at this address, if there is one.
fn index_of(minidisks: &[SharedDisk], device: u16) -> Option<usize>
    ensures index { result ≡ position (λ disk. disk.address == device) minidisks.now }
    ensures inside { IfSome result (λ index. index < length minidisks.now) }
{
    minidisks
        .iter()
        .position(|disk| disk.address().get() == device)
}

/// Resets each of these minidisks: the arms stay.
fn reset_each(minidisks: &mut [SharedDisk])
    ensures { minidisks.new ≡ map reset_minidisk minidisks.old }
{
    for disk in minidisks.iter_mut() {
        disk.reset();
    }
}

/// Clears each of these minidisks, as for a LOGON: the arms are at their first tracks.
fn clear_each(minidisks: &mut [SharedDisk])
    ensures { minidisks.new ≡ map cleared_minidisk minidisks.old }
{
    for disk in minidisks.iter_mut() {
        disk.clear();
    }
}
