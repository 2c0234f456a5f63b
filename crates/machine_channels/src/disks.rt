//! The disks of a machine, each at its address.
ghost use Rattle.std.specs.Prelude.{◌≡◌, IfErr, IfOk, length, map};
ghost use Rattle.s370_channel.specs.Reading.{as_reached};
ghost use Rattle.s370_channel.specs.Runs.{ReportsAbsent};
ghost use Rattle.machine_channels.specs.Channels.{LacksPage, RestsAfter, RestsLoaded, StopsForPage};
ghost use Rattle.machine_channels.specs.Disks.{cleared_disk, reset_disk};
ghost use Rattle.ckd_volume.specs.Unit.{disk_machine};

use crate::running::run_live;
use ckd_volume::Unit;
use s370_channel::{Caw, ChannelError, Guest, run_ipl};
use s370_num::DevAddr;
use s370_store::Storage;
use s370_walk::Ending;
use std::marker::Model;

/// A disk unit, and its address.
#[derive(Drop)]
pub struct AttachedDisk {
    pub(crate) address: DevAddr,
    pub(crate) unit: Unit,
}

impl Model for AttachedDisk {
    ghost use Rattle.machine_channels.specs.Disks.{DiskAt};

    ghost Value = { DiskAt };

    ghost view = { λ d. record { address = d.address; unit = d.unit } };
}

impl AttachedDisk {
    /// Returns a disk that is this unit at this address.
    pub fn new(address: DevAddr, unit: Unit) -> AttachedDisk
        ensures { result ≡ record { address = address; unit = unit } }
    {
        AttachedDisk { address, unit }
    }

    /// Returns the address of the disk.
    pub fn address(&self) -> DevAddr
        ensures { result ≡ self.now.address }
    {
        self.address
    }

    /// Returns the unit of the disk.
    pub fn unit(&self) -> &Unit
        ensures { result.now ≡ self.now.unit }
    {
        &self.unit
    }

    /// Runs the program with this start on the unit, each word read when it is reached, and returns
    /// how it ended; the unit is at rest after it, unless there is an error.
    pub(crate) fn run<S: Storage>(
        &mut self,
        storage: &mut S,
        start: Caw,
    ) -> Result<Ending, ChannelError>
        ensures walk { IfOk result
            (λ ending. RestsAfter as_reached start
            (S.memory storage.old) self.old ending
            (S.memory storage.new) self.new) }
        ensures absent { IfErr result (ReportsAbsent (S.present storage.old)) }
        ensures stopped { IfErr result
            (StopsForPage disk_machine (S.present storage.old) start
            (S.memory storage.old) self.old.unit) }
        ensures rest { S.Keeps storage.old storage.new }
    {
        let ending = run_live(storage, start, &mut self.unit)?;
        self.unit.rest();
        Ok(ending)
    }

    /// Runs the program of an initial program loading on the unit, and returns how it ended; the
    /// unit is at rest after it, unless there is an error.
    #[tactic(auto, using(crate::proofs::Staying::disk_lacks))]
    pub(crate) fn load<S: Storage>(&mut self, storage: &mut S) -> Result<Ending, ChannelError>
        ensures walk { IfOk result
            (λ ending. RestsLoaded (S.memory storage.old) self.old ending
            (S.memory storage.new) self.new) }
        ensures lacks { IfErr result
            (LacksPage (length (S.memory storage.old).bytes) (S.present storage.old)) }
        ensures rest { S.Keeps storage.old storage.new }
    {
        let ending = run_ipl(&Guest, storage, &mut self.unit)?;
        self.unit.rest();
        Ok(ending)
    }

    /// Resets the disk: it has no sense and no command under way, and the arm stays.
    pub(crate) fn reset(&mut self)
        ensures { self.new ≡ reset_disk self.old }
    {
        self.unit.reset();
    }

    /// Clears the disk, as for a LOGON: it is reset, and the arm is over cylinder 0, with head 0
    /// chosen.
    pub(crate) fn clear(&mut self)
        ensures { self.new ≡ cleared_disk self.old }
    {
        self.unit.clear();
    }
}

/// Resets each of these disks: the arms stay.
pub(crate) fn reset_each(disks: &mut [AttachedDisk])
    ensures { disks.new ≡ map reset_disk disks.old }
{
    for disk in disks.iter_mut() {
        disk.reset();
    }
}

/// Clears each of these disks, as for a LOGON: the arms are over cylinder 0, with head 0 chosen.
pub(crate) fn clear_each(disks: &mut [AttachedDisk])
    ensures { disks.new ≡ map cleared_disk disks.old }
{
    for disk in disks.iter_mut() {
        disk.clear();
    }
}
