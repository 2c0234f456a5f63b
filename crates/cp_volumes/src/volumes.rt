//! The volumes of a system, each once and on a unit of its own.
ghost use Rattle.std.specs.Prelude.{◌≡◌, ◌<◌, [], ◌∷◌, Err, IfOk, IfSome, OnErr, OnOk, length};
ghost use Rattle.std.specs.Prelude.{slice_get, slice_set, Some, option_copied};
ghost use Rattle.s370_channel.specs.Guest.{guest_written};
ghost use Rattle.s370_channel.specs.Loading.{loading, loading_limits};
ghost use Rattle.s370_channel.specs.Progress.{setting};
ghost use Rattle.s370_channel.specs.Reading.{as_reached};
ghost use Rattle.s370_channel.specs.Runs.{begun, limited};
ghost use Rattle.s370_channel.specs.Supplied.{IsTouched};
ghost use Rattle.ckd_volume.specs.Unit.{disk_machine, rested, volume_of};
ghost use Rattle.machine_channels.specs.Channels.{RestsAfter, RestsLoaded};
ghost use Rattle.cp_dat.specs.Copies.{CameOnly};
ghost use Rattle.cp_dat.specs.Lent.{lent_pool, lent_memory};
ghost use Rattle.cp_dat.specs.Supplied.{IsBetweenUnits};
ghost use Rattle.cp_minidisk.specs.Minidisk.{users_disk};
ghost use Rattle.cp_minidisk.specs.Part.{minidisk_of, part_on, unit_of};
ghost use Rattle.cp_trial.specs.Trial.{touched_flags, tried_bytes};
ghost use Rattle.channel_trial.specs.DryRun.{IsLoadingTried, IsProgramTried};
ghost use Rattle.cp_trial.specs.DryRun.{HadRoom, HadRoomToLoad, LacksSuch};
ghost use Rattle.cp_trial.specs.declared.DryRunError.TheVariants as errors;
ghost use Rattle.cp_needs.specs.Words.{IsFixedStill};
ghost use Rattle.cp_volumes.specs.Shared.{AreThere, IsConfined, IsSeated, disk_on, no_volume};
ghost use Rattle.cp_volumes.specs.Shared.{placement_of, volume_at, volume_or_none};

use crate::running::{load_mounted, run_mounted, run_mounted_held};
use crate::shared_disk::SharedDisk;
use ckd_volume::{Arm, Sense, Unit, UnitTrial, Volume};
use cp_dat::Dat;
use cp_minidisk::Mounted;
use cp_trial::{DryRunError, TouchedPages, try_loading, try_program};
use s370_channel::Caw;
use s370_store::Storage;
use s370_walk::Ending;
use std::alloc::{AllocError, Global};
use std::marker::Model;

/// Volumes, each on a unit at which the minidisks on it take turns.
#[derive(Drop)]
pub struct Volumes {
    /// A unit is away only while a program runs on it.
    units: Vec<Option<Unit>>,
}

impl Model for Volumes {
    ghost use Rattle.std.specs.Prelude.{List, map};
    ghost use Rattle.ckd_volume.specs.Volume.{VolumeFormat};
    ghost use Rattle.cp_volumes.specs.Shared.{volume_in};

    ghost Value = { List VolumeFormat };

    ghost view = { λ v. map volume_in v.units.items };
}

/// An arm that nobody has moved.
const RESTING: Arm = Arm {
    cylinder: 0,
    head: 0,
    home: 0,
    writable: false,
    sense: Sense {
        first: 0,
        second: 0,
    },
};

impl Volumes {
    /// Returns a list of these volumes, in their order, each on a unit of its own.
    ///
    /// # Errors
    ///
    /// `AllocError` if memory is refused.
    pub fn new(alloc: Global, volumes: Vec<Volume>) -> Result<Volumes, AllocError>
        ensures volumes { IfOk result (λ made. made ≡ volumes.items) }
        ensures there { OnOk result (AreThere volumes.items) }
    {
        let mut units = Vec::with_capacity(alloc, volumes.len())?;
        for volume in volumes {
            // Each has a cylinder.
            let _cylinders = volume.count();
            let unit = Unit::new(alloc, volume, RESTING)?;
            units.push(Some(unit))?;
        }
        Ok(Volumes { units })
    }

    /// Returns a list without volumes. It takes no memory.
    pub fn none(alloc: Global) -> Volumes
        ensures { result ≡ [] }
    {
        Volumes {
            units: Vec::new(alloc),
        }
    }

    /// Returns how many volumes there are.
    pub fn count(&self) -> usize
        ensures { result ≡ length self.now }
    {
        // Exhaustive: a new field fails to compile here.
        let Volumes { units } = self;
        units.len()
    }

    /// Returns the volume of this index, if there is one and no program runs on it.
    pub fn volume(&self, index: usize) -> Option<&Volume>
        ensures volume { IfSome result (λ volume. slice_get self.now index ≡ Some volume.now) }
        ensures at { volume_at self.now index ≡ volume_or_none (option_copied result) }
        ensures there { AreThere self.now → option_copied result ≡ slice_get self.now index }
    {
        match self.units.get(index) {
            Some(Some(unit)) => Some(unit.volume()),
            _ => None,
        }
    }

    /// Returns the copy of a minidisk on which a program is tried, as its user sees the minidisk.
    fn trial(&self, alloc: Global, disk: &SharedDisk) -> Result<UnitTrial<'_>, AllocError>
        requires { IsSeated self.now (placement_of disk.now) }
        ensures { IfOk result (λ trial. trial ≡ (disk_on self.now disk.now).unit) }
    {
        let extent = disk.minidisk.extent();
        let arm = Arm {
            cylinder: disk.minidisk.cylinder(),
            head: disk.minidisk.head(),
            home: 0,
            writable: extent.is_writable(),
            sense: disk.minidisk.sense(),
        };
        let count = usize::from(extent.count());
        match self.volume(disk.volume) {
            Some(volume) => volume.trial(alloc, usize::from(extent.start()), count, arm),
            // A volume on which nothing is has no extent.
            None => unreachable!(),
        }
    }

    /// Makes a dry run of the program with this start on a copy of a minidisk and of a storage, and
    /// returns that storage.
    fn try_run(
        &self,
        alloc: Global,
        disk: &SharedDisk,
        storage: &Dat<'_>,
        start: Caw,
    ) -> Result<TouchedPages, AllocError>
        requires { IsSeated self.now (placement_of disk.now) }
        ensures { IfOk result (λ tried. IsProgramTried disk_machine start
            (lent_memory storage.now) (disk_on self.now disk.now).unit
            (tried_bytes storage.now tried) (touched_flags tried)) }
    {
        let mut trial = self.trial(alloc, disk)?;
        try_program(alloc, storage, start, &mut trial)
    }

    /// Makes a dry run of the program of an initial program loading on a copy of a minidisk and of
    /// a storage, and returns that storage.
    fn try_load(
        &self,
        alloc: Global,
        disk: &SharedDisk,
        storage: &Dat<'_>,
    ) -> Result<TouchedPages, AllocError>
        requires { IsSeated self.now (placement_of disk.now) }
        ensures { IfOk result (λ tried. IsLoadingTried disk_machine
            (lent_memory storage.now) (disk_on self.now disk.now).unit
            (tried_bytes storage.now tried) (touched_flags tried)) }
    {
        let mut trial = self.trial(alloc, disk)?;
        try_loading(alloc, storage, &mut trial)
    }

    /// Runs the program with this start, which no input can change, on a minidisk, which is at rest
    /// after it; the storage has to have the pages which it needs.
    pub(crate) fn run_held<S: Storage>(
        &mut self,
        disk: &mut SharedDisk,
        storage: &mut S,
        start: Caw,
    ) -> Ending
        requires seated { IsSeated self.old (placement_of disk.old) }
        requires enough { IsFixedStill (S.memory storage.old) (S.present storage.old)
            start.address }
        ensures walk { RestsAfter as_reached start (S.memory storage.old)
            (disk_on self.old disk.old) result (S.memory storage.new) (disk_on self.new disk.new) }
        ensures placements { placement_of disk.new ≡ placement_of disk.old }
        ensures confined { IsConfined (placement_of disk.old ∷ []) self.old self.new }
        ensures rest { S.Keeps storage.old storage.new }
    {
        let mut mounted = self.mount(disk);
        let ending = run_mounted_held(&mut mounted, storage, start);
        self.dismount(disk, mounted);
        ending
    }

    /// Runs the program with this start on a minidisk, which is at rest after it, as a whole if
    /// there is room for the pages that it touches, else not at all.
    pub(crate) fn run(
        &mut self,
        alloc: Global,
        disk: &mut SharedDisk,
        storage: &mut Dat<'_>,
        start: Caw,
    ) -> Result<Ending, DryRunError>
        requires seated { IsSeated self.old (placement_of disk.old) }
        requires between { IsBetweenUnits (lent_pool storage.old).supply }
        ensures walk { IfOk result (λ ending. RestsAfter as_reached start
            (lent_memory storage.old) (disk_on self.old disk.old) ending
            (lent_memory storage.new) (disk_on self.new disk.new)) }
        ensures unchanged_on_error { OnErr result (self.new ≡ self.old) }
        ensures memory { result ≡ Err errors.FramesOut
            → lent_memory storage.new ≡ lent_memory storage.old }
        ensures lacking { result ≡ Err errors.FramesOut
            → LacksSuch (IsTouched guest_written (limited disk_machine start)
            (begun start (lent_memory storage.old) (disk_on self.old disk.old).unit)) storage.new }
        ensures roomy { result ≡ Err errors.Memory → HadRoom _ disk_machine storage.old start
            (disk_on self.old disk.old).unit storage.new }
        ensures placements { placement_of disk.new ≡ placement_of disk.old }
        ensures confined { IsConfined (placement_of disk.old ∷ []) self.old self.new }
        ensures paged_in { CameOnly storage.old
            (IsTouched guest_written (limited disk_machine start)
            (begun start (lent_memory storage.old) (disk_on self.old disk.old).unit))
            2 storage.new }
        ensures between { IsBetweenUnits (lent_pool storage.new).supply }
    {
        let again = Caw {
            key: start.key,
            address: start.address,
        };
        let tried = match self.try_run(alloc, disk, storage, again) {
            Ok(tried) => tried,
            Err(_) => return Err(DryRunError::Memory),
        };
        let mut mounted = self.mount(disk);
        match run_mounted(alloc, &mut mounted, storage, start, &tried) {
            Ok(ending) => {
                self.dismount(disk, mounted);
                Ok(ending)
            }
            Err(error) => {
                self.dismount(disk, mounted);
                Err(error)
            }
        }
    }

    /// Runs the program of an initial program loading on a minidisk, as a whole if there is room
    /// for the pages that it touches, else not at all.
    pub(crate) fn load(
        &mut self,
        alloc: Global,
        disk: &mut SharedDisk,
        storage: &mut Dat<'_>,
    ) -> Result<Ending, DryRunError>
        requires seated { IsSeated self.old (placement_of disk.old) }
        requires between { IsBetweenUnits (lent_pool storage.old).supply }
        ensures walk { IfOk result
            (λ ending. RestsLoaded (lent_memory storage.old) (disk_on self.old disk.old) ending
            (lent_memory storage.new) (disk_on self.new disk.new)) }
        ensures unchanged_on_error { OnErr result (self.new ≡ self.old) }
        ensures memory { result ≡ Err errors.FramesOut
            → lent_memory storage.new ≡ lent_memory storage.old }
        ensures lacking { result ≡ Err errors.FramesOut
            → LacksSuch (IsTouched guest_written (setting disk_machine loading_limits)
            (loading disk_machine (lent_memory storage.old) (disk_on self.old disk.old).unit))
            storage.new }
        ensures roomy { result ≡ Err errors.Memory → HadRoomToLoad _ disk_machine storage.old
            (disk_on self.old disk.old).unit storage.new }
        ensures placements { placement_of disk.new ≡ placement_of disk.old }
        ensures confined { IsConfined (placement_of disk.old ∷ []) self.old self.new }
        ensures paged_in { CameOnly storage.old (IsTouched guest_written
            (setting disk_machine loading_limits) (loading disk_machine (lent_memory storage.old)
            (disk_on self.old disk.old).unit)) 2 storage.new }
        ensures between { IsBetweenUnits (lent_pool storage.new).supply }
    {
        let tried = match self.try_load(alloc, disk, storage) {
            Ok(tried) => tried,
            Err(_) => return Err(DryRunError::Memory),
        };
        let mut mounted = self.mount(disk);
        match load_mounted(alloc, &mut mounted, storage, &tried) {
            Ok(ending) => {
                self.dismount(disk, mounted);
                Ok(ending)
            }
            Err(error) => {
                self.dismount(disk, mounted);
                Err(error)
            }
        }
    }

    /// Takes the unit of a minidisk's volume out of the list, and mounts the minidisk on it.
    fn mount(&mut self, disk: &SharedDisk) -> Mounted
        requires { IsSeated self.old (placement_of disk.now) }
        ensures mounted { result ≡ part_on (volume_at self.old disk.now.volume) disk.now.minidisk }
        ensures moved_out { self.new ≡ slice_set self.old disk.now.volume no_volume }
        ensures inside { disk.now.volume < length self.old }
    {
        let _cylinders = disk.minidisk.extent().count();
        match self.units[disk.volume].take() {
            Some(unit) => disk.minidisk.mount_on(unit),
            // A volume on which nothing is has no extent.
            None => unreachable!(),
        }
    }

    /// Puts the unit of a volume back into the list, and gives the minidisk the arm and the sense
    /// that it had there.
    fn dismount(&mut self, disk: &mut SharedDisk, mounted: Mounted)
        requires { disk.old.volume < length self.old }
        ensures volumes { self.new
            ≡ slice_set self.old disk.old.volume (volume_of (unit_of mounted)) }
        ensures disk { disk.new ≡ record disk.old { minidisk = minidisk_of mounted } }
        ensures left { users_disk (volume_of (unit_of mounted)) (minidisk_of mounted)
            ≡ rested mounted.disk }
    {
        let (unit, minidisk) = mounted.dismount();
        self.units[disk.volume] = Some(unit);
        disk.minidisk = minidisk;
    }
}
