//! A minidisk as a device of its own, on the unit of its volume.
ghost use Rattle.std.specs.Prelude.{◌≡◌, ◌+◌, ◌≤◌, length, IsOk, IfOk, OnOk};
ghost use Rattle.ckd_volume.specs.Unit.{volume_of, rested};
ghost use Rattle.cp_minidisk.specs.Minidisk.{HasExtent, users_disk};
ghost use Rattle.cp_minidisk.specs.Part.{minidisk_of, part_machine, part_on, relocating, unit_of};

use crate::extent::Extent;
use crate::minidisk::Minidisk;
use ckd_volume::{Arm, Unit};
use s370_walk::{Answer, Device, Order, UnitStatus};
use std::alloc::AllocError;
use std::marker::Model;

/// A minidisk on the unit of its volume, as the disk that its user sees: it begins and ends each
/// command as that disk does, and reaches no other cylinder of the volume.
///
/// ```
/// let mut mounted = minidisk.mount_on(unit);
/// // the user's program as it is, run for `mounted`
/// let (unit, minidisk) = mounted.dismount();
/// ```
#[derive(Drop)]
pub struct Mounted {
    unit: Unit,
    extent: Extent,
}

impl Model for Mounted {
    ghost use Rattle.cp_minidisk.specs.Part.{Part, Serves, part_of};

    ghost Value = { Part };

    ghost view = { λ m. part_of m.extent m.unit };

    ghost invariant = { λ m. Serves m.unit m.extent };
}

impl Minidisk {
    /// Returns the minidisk as a device of its own, on the unit of its volume, whose arm and sense
    /// are set to its own. It takes no memory.
    pub fn mount_on(&self, unit: Unit) -> Mounted
        requires { HasExtent unit.cylinders self.now.extent }
        ensures { result ≡ part_on (volume_of unit) self.now }
    {
        let mut unit = unit;
        let extent = self.extent();
        let start = usize::from(extent.start());
        let _cylinders = extent.count();
        unit.set_arm(Arm {
            cylinder: start + self.cylinder(),
            head: self.head(),
            home: start,
            writable: extent.is_writable(),
            sense: self.sense(),
        });
        Mounted { unit, extent }
    }
}

impl Mounted {
    /// Returns the unit of the volume, and the minidisk with the arm and the sense that the unit
    /// has now.
    ///
    /// Mounted again it is the disk as it was left, at rest. It takes no memory.
    pub fn dismount(self) -> (Unit, Minidisk)
        ensures unit { result.0 ≡ unit_of self }
        ensures minidisk { result.1 ≡ minidisk_of self }
        ensures left { users_disk (volume_of result.0) result.1 ≡ rested self.disk }
    {
        let mut minidisk = Minidisk::new(self.extent);
        minidisk.dismount(&self.unit);
        (self.unit, minidisk)
    }
}

/// Replaces the argument of a seek that has all its bytes by its place on the volume; if none is
/// under way, it does nothing.
fn relocate_seek(extent: Extent, unit: &mut Unit)
    ensures { unit.new ≡ relocating extent unit.old }
{
    if let Some(argument) = unit.argument() {
        unit.set_argument(extent.relocate_argument(argument));
    }
}

impl Device for Mounted {
    ghost use Rattle.s370_walk.specs.Short.{nothing_needed};
    ghost use Rattle.cp_minidisk.specs.Part.{part_machine};

    ghost machine = { part_machine };

    ghost needs_memory = { nothing_needed };

    /// Begins a command on the unit of the volume, or refuses it.
    ///
    /// It is never refused memory.
    fn command(&mut self, order: Order) -> Result<Answer, AllocError>
        ensures ready { IsOk result }
        ensures answer { IfOk result (λ answer. answer ≡ part_machine.answer self.old order) }
        ensures after { OnOk result (self.new ≡ part_machine.started self.old order) }
    {
        self.unit.command(order)
    }

    /// Returns whether the unit's command is a Write Count, Key and Data that has all its bytes.
    fn is_done(&self) -> bool {
        self.unit.is_done()
    }

    /// Returns the next byte that the unit gives and moves on past it, or returns zero if none is
    /// left.
    fn give(&mut self) -> u8 {
        self.unit.give()
    }

    /// Passes a byte to the unit.
    fn take(&mut self, byte: u8) {
        self.unit.take(byte);
    }

    /// Returns how many bytes at least the unit will give or take before it is done.
    fn ready(&self) -> u32 {
        self.unit.ready()
    }

    /// Fills `into` with the next bytes that the unit gives, and with zeros after the last.
    fn give_bytes(&mut self, into: &mut [u8]) {
        self.unit.give_bytes(into);
    }

    /// Passes bytes to the unit.
    fn take_bytes(&mut self, from: &[u8]) {
        self.unit.take_bytes(from);
    }

    /// Relocates the argument of a seek, if one is under way, then ends the command and returns its
    /// status.
    fn finish(&mut self) -> UnitStatus {
        relocate_seek(self.extent, &mut self.unit);
        self.unit.finish()
    }
}
