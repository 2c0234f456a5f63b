//! The unit: a volume under an arm, as a device of a channel.
ghost use Rattle.std.specs.Prelude.{◌≡◌, ◌≤◌, ◌<◌, [], length, ◌+◌, ◌*◌, ◌==◌, Some, None};
ghost use Rattle.std.specs.Prelude.{slice_index, slice_index_or, IsOk, IfOk, OnOk};
ghost use Rattle.ckd_volume.specs.Front as front;
ghost use Rattle.ckd_volume.specs.Control.{halfword, sought};
ghost use Rattle.ckd_volume.specs.declared.parts.Orientation.TheVariants as places;
ghost use Rattle.ckd_volume.specs.declared.parts.WriteAccess.TheVariants as rights;
ghost use Rattle.ckd_volume.specs.declared.parts.PendingCommand.TheVariants as jobs;

use crate::cylinder::HEADS;
use crate::panel::ControlUnit;
use crate::parts::{Orientation, PendingCommand, Sense};
use crate::volume::Volume;
use s370_walk::{Answer, Device, Order, UnitStatus};
use std::alloc::{AllocError, Global};
use std::marker::Model;

/// What outlasts a channel program next to the volume.
#[derive(Clone, Copy, PartialEq, Eq)]
pub struct Arm {
    /// The cylinder under the arm.
    pub cylinder: usize,
    /// The head that is chosen.
    pub head: usize,
    /// The cylinder to which Read IPL moves the arm.
    pub home: usize,
    /// Whether the disk may be written.
    pub writable: bool,
    /// What a Sense command says.
    pub sense: Sense,
}

/// A disk: a volume, the arm over it, and the control unit.
#[derive(Drop)]
pub struct Unit {
    volume: Volume,
    cylinder: usize,
    home: usize,
    panel: ControlUnit,
}

impl Model for Unit {
    ghost use Rattle.std.specs.Prelude.{◌<◌, ◌≤◌, length};
    ghost use Rattle.ckd_volume.specs.Unit.{Disk};

    ghost Value = { Disk };

    ghost view = { λ u. record {
      volser = u.volume.volser;
      cylinders = u.volume.cylinders;
      cylinder = u.cylinder;
      home = u.home;
      front = u.panel;
    } };

    ghost invariant = { λ u. (u.cylinder < length u.volume.cylinders)
        × (u.home < length u.volume.cylinders) };
}

impl Unit {
    ghost use Rattle.ckd_volume.specs.Unit.{idle, begins, aimed, started, ending, after, finished};
    ghost use Rattle.ckd_volume.specs.Unit.{status, seek_of, seek_status, moved, keeps};
    ghost use Rattle.ckd_volume.specs.Unit.{argument_held, disk_machine, volume_of, disk_reset};
    ghost use Rattle.ckd_volume.specs.Unit.{disk_cleared, rested};

    /// Returns a unit over this volume with this arm, and allocates room for the longest command.
    ///
    /// # Errors
    ///
    /// `AllocError` if memory is refused.
    pub fn new(alloc: Global, volume: Volume, arm: Arm) -> Result<Unit, AllocError>
        requires cylinder { arm.cylinder < length volume.cylinders }
        requires home { arm.home < length volume.cylinders }
        requires head { arm.head < 19 }
        ensures { IfOk result (λ unit. unit ≡ idle volume arm) }
    {
        let panel = ControlUnit::new(alloc, arm.writable, arm.head, arm.sense)?;
        Ok(Unit {
            volume,
            cylinder: arm.cylinder,
            home: arm.home,
            panel,
        })
    }

    /// Borrows the volume under the arm.
    pub fn volume(&self) -> &Volume
        ensures volser { result.now.volser ≡ self.now.volser }
        ensures cylinders { result.now.cylinders ≡ self.now.cylinders }
    {
        // Exhaustive: a new field fails to compile here.
        let Unit {
            volume,
            cylinder: _,
            home: _,
            panel: _,
        } = self;
        volume
    }

    /// Returns what outlasts a channel program: cylinder, head, home cylinder, mode and sense.
    pub fn arm(&self) -> Arm
        ensures cylinder { result.cylinder ≡ self.now.cylinder }
        ensures head { result.head ≡ self.now.front.head }
        ensures home { result.home ≡ self.now.home }
        ensures writable { result.writable ≡ self.now.front.writable }
        ensures sense { result.sense ≡ self.now.front.sense }
        ensures inside { result.cylinder < length self.now.cylinders }
        ensures home_inside { result.home < length self.now.cylinders }
        ensures heads { result.head < 19 }
    {
        let panel = &self.panel;
        Arm {
            cylinder: self.cylinder,
            head: panel.head,
            home: self.home,
            writable: panel.writable,
            sense: panel.sense,
        }
    }

    /// Makes the unit as before a program, with the cylinder, head, home, mode and sense of this
    /// arm.
    ///
    /// So disks that are parts of one volume take turns at its unit, each with an arm and a sense
    /// of its own. It takes no memory.
    pub fn set_arm(&mut self, arm: Arm)
        requires cylinder { arm.cylinder < length self.old.cylinders }
        requires home { arm.home < length self.old.cylinders }
        requires head { arm.head < 19 }
        ensures { self.new ≡ idle (volume_of self.old) arm }
    {
        self.panel.restart(arm.writable, arm.head, arm.sense);
        self.cylinder = arm.cylinder;
        self.home = arm.home;
    }

    /// Drops the command under way, moves to the index, and clears file mask and sense; the arm
    /// stays.
    pub fn reset(&mut self)
        ensures { self.new ≡ disk_reset self.old }
    {
        self.panel.reset();
    }

    /// Drops the command under way, clears file mask and sense, and moves the arm to cylinder 0 and
    /// head 0.
    pub fn clear(&mut self)
        ensures { self.new ≡ disk_cleared self.old }
    {
        self.panel.reset();
        self.panel.choose_first_head();
        self.cylinder = 0;
    }

    /// Drops the command under way, moves to the index and clears the file mask; the arm and the
    /// sense stay.
    ///
    /// The next program does not see the difference, since its first command begins so.
    pub fn rest(&mut self)
        ensures { self.new ≡ rested self.old }
    {
        self.panel.start(true);
    }

    /// Returns the six bytes of the Seek that is under way, or `None` if there is none or it has
    /// fewer.
    pub fn argument(&self) -> Option<[u8; 6]>
        ensures { result ≡ argument_held self.now.front }
    {
        self.panel.argument()
    }

    /// Replaces all bytes that the command under way has taken by these six, so that a seek ends
    /// elsewhere.
    ///
    /// It takes no memory.
    pub fn set_argument(&mut self, argument: [u8; 6])
        ensures { self.new ≡ keeps self.old (record (self.old.front) { bytes = argument }) }
    {
        self.panel.set_argument(argument);
    }

    /// Moves the arm to its home cylinder and head 0 if `is_ipl` is true; else does nothing.
    fn aim(&mut self, is_ipl: bool)
        ensures { self.new ≡ aimed self.old is_ipl }
    {
        if is_ipl {
            self.cylinder = self.home;
            self.panel.choose_first_head();
        }
    }

    /// Begins a command over the arm's cylinder; a first Read IPL moves the arm to its home first.
    ///
    /// It takes no memory.
    fn begin(&mut self, order: Order) -> Answer
        ensures answer { result ≡ disk_machine.answer self.old order }
        ensures after { self.new ≡ started self.old order }
    {
        self.aim(order.first && order.command.code == 0x02);
        let cylinder = self.volume.cylinder(self.cylinder);
        self.panel.begin(cylinder, order)
    }

    /// Ends Seek (07): moves the arm to the track that its bytes name, or fails with command reject
    /// if there is no such track.
    fn seek(&mut self) -> UnitStatus
        ensures status { result ≡ seek_status (seek_of self.old) }
        ensures after { self.new ≡ moved self.old (seek_of self.old) }
    {
        match self.panel.sought(self.volume.count()) {
            Some(seek) => {
                self.cylinder = seek.cylinder;
                self.panel.end_seek(seek.head)
            }
            None => self.panel.fail(0x80, 0),
        }
    }
}

impl Device for Unit {
    ghost use Rattle.s370_walk.specs.Short.{nothing_needed};
    ghost use Rattle.ckd_volume.specs.Unit.{disk_machine};

    ghost machine = { disk_machine };

    ghost needs_memory = { nothing_needed };

    /// Begins a command over the arm's cylinder, for which memory is never refused; a first Read
    /// IPL moves the arm to its home first.
    fn command(&mut self, order: Order) -> Result<Answer, AllocError>
        ensures ready { IsOk result }
        ensures answer { IfOk result (λ answer. answer ≡ disk_machine.answer self.old order) }
        ensures after { OnOk result (self.new ≡ disk_machine.started self.old order) }
    {
        Ok(self.begin(order))
    }

    /// Returns whether the command is a Write Count, Key and Data that has all its bytes.
    fn is_done(&self) -> bool {
        self.panel.is_done()
    }

    /// Returns the next byte that the command gives and moves on past it, or returns zero if none
    /// is left.
    fn give(&mut self) -> u8 {
        self.panel.give()
    }

    /// Appends a byte to those that the command has taken, or drops it if there is no room.
    fn take(&mut self, byte: u8) {
        self.panel.take(byte);
    }

    /// Returns a number of bytes that are sure to be given or taken before the command wants no
    /// more.
    #[tactic(auto, using(crate::proofs::Moves::done_giving, crate::proofs::Moves::done_taking))]
    fn ready(&self) -> u32 {
        self.panel.ready()
    }

    /// Fills `into` with the next bytes that the command gives, and with zeros after the last.
    #[tactic(auto, using(crate::proofs::Moves::given_slice, crate::proofs::Moves::after_giving_slice))]
    fn give_bytes(&mut self, into: &mut [u8]) {
        if self.panel.has(into.len()) {
            return self.panel.give_slice(into);
        }
        'bytes: for slot in into.iter_mut() {
            *slot = self.give();
        }
    }

    /// Appends bytes to those that the command has taken, as far as there is room, and drops the
    /// others.
    #[tactic(auto, using(crate::proofs::Moves::after_taking_slice))]
    fn take_bytes(&mut self, from: &[u8]) {
        self.panel.take_slice(from);
    }

    /// Ends the pending command, a Seek or one over the arm's cylinder, on which a write then
    /// writes, and returns the unit status.
    fn finish(&mut self) -> UnitStatus {
        if self.panel.is_seeking() {
            return self.seek();
        }
        let cylinder = self.volume.cylinder_mut(self.cylinder);
        self.panel.finish(cylinder)
    }
}
