//! What a control unit keeps next to the volume: where its head is, its mask, its sense, and the
//! bytes of the command.
ghost use Rattle.std.specs.Prelude.{◌≡◌, ◌≤◌, ◌<◌, ◌+◌, ◌++◌, ◌∷◌, [], length, slice_index, true};
ghost use Rattle.std.specs.Prelude.{IfOk};
ghost use Rattle.s370_walk.specs.declared.parts.Answer.TheVariants as answers;
ghost use Rattle.ckd_volume.specs.declared.parts.PendingCommand.TheVariants as jobs;
ghost use Rattle.ckd_volume.specs.declared.parts.Orientation.TheVariants as places;
ghost use Rattle.ckd_volume.specs.declared.parts.WriteAccess.TheVariants as rights;
ghost use Rattle.ckd_volume.specs.Front as front;
ghost use Rattle.ckd_volume.specs.Begin as table;
ghost use Rattle.ckd_volume.specs.End as table_end;
ghost use Rattle.ckd_volume.specs.Unit as unit;

use crate::parts::{Orientation, PendingCommand, Sense, WriteAccess};
use s370_walk::{Answer, UnitStatus};
use std::alloc::{AllocError, Global};
use std::marker::Model;

/// The most bytes of a command: a count, a key and data.
pub(crate) const LONGEST: usize = 65798;

/// All that a unit keeps but the volume and the cylinder of its arm.
#[derive(Drop)]
pub struct ControlUnit {
    pub(crate) writable: bool,
    pub(crate) head: usize,
    pub(crate) place: Orientation,
    pub(crate) mask: u8,
    pub(crate) points: u8,
    pub(crate) right: WriteAccess,
    pub(crate) sense: Sense,
    pub(crate) job: PendingCommand,
    pub(crate) bytes: Vec<u8>,
    pub(crate) given: usize,
}

impl Model for ControlUnit {
    ghost use Rattle.std.specs.Prelude.{◌≤◌, ◌<◌, length};
    ghost use Rattle.std.specs.Vec.{vec_capacity};
    ghost use Rattle.ckd_volume.specs.Front.{Front, next_at};

    ghost Value = { Front };

    ghost view = { λ p. record {
      writable = p.writable;
      head = p.head;
      place = p.place;
      mask = p.mask;
      points = p.points;
      right = p.right;
      sense = p.sense;
      job = p.job;
      bytes = p.bytes.items;
      given = p.given;
    } };

    ghost invariant = { λ p. (65798 ≤ vec_capacity p.bytes) × (length p.bytes.items ≤ 65798)
        × (p.head < 19)
        × (next_at p.place ≤ 97) };
}

impl ControlUnit {
    /// Returns a control unit with this mode, head and sense, at the index of a track, and
    /// allocates room for the longest command.
    pub(crate) fn new(
        alloc: Global,
        writable: bool,
        head: usize,
        sense: Sense,
    ) -> Result<ControlUnit, AllocError>
        requires { head < 19 }
        ensures { IfOk result (λ p. p
            ≡ record {
              writable = writable;
              head = head;
              place = places.Index;
              mask = 0;
              points = 0;
              right = rights.Nothing;
              sense = sense;
              job = jobs.Nothing;
              bytes = [];
              given = 0;
            }) }
    {
        let bytes = Vec::with_capacity(alloc, LONGEST)?;
        Ok(ControlUnit {
            writable,
            head,
            place: Orientation::Index,
            mask: 0,
            points: 0,
            right: WriteAccess::Nothing,
            sense,
            job: PendingCommand::Nothing,
            bytes,
            given: 0,
        })
    }

    /// Drops the pending command, its bytes and the right to write; for the first command of a
    /// program, also moves to the index and clears the file mask.
    pub(crate) fn start(&mut self, first: bool)
        ensures { self.new ≡ table.starting self.old first }
    {
        if first {
            self.place = Orientation::Index;
            self.mask = 0;
            self.points = 0;
        }
        self.right = WriteAccess::Nothing;
        self.job = PendingCommand::Nothing;
        self.bytes.clear();
        self.given = 0;
    }

    /// Drops the pending command and its bytes, moves to the index, and clears file mask, right to
    /// write and sense; head and mode stay.
    pub(crate) fn reset(&mut self)
        ensures { self.new ≡ record (table.starting self.old true) { sense = table.sense_of 0 0 } }
    {
        self.start(true);
        self.sense = Sense {
            first: 0,
            second: 0,
        };
    }

    /// Drops the pending command, its bytes and the right to write, moves to the index, clears the
    /// file mask, and sets mode, head and sense.
    pub(crate) fn restart(&mut self, writable: bool, head: usize, sense: Sense)
        requires { head < 19 }
        ensures { self.new ≡ record
            (table.starting self.old true) { writable = writable; head = head; sense = sense } }
    {
        self.start(true);
        self.writable = writable;
        self.head = head;
        self.sense = sense;
    }

    /// Sets the two sense bytes and returns that the command is refused with unit check.
    pub(crate) fn refuse(&mut self, first: u8, second: u8) -> Answer
        ensures answer { result ≡ (table.refused self.old first second).answer }
        ensures after { self.new ≡ (table.refused self.old first second).front }
    {
        self.sense = Sense { first, second };
        Answer::Refused(UnitStatus::UNIT_CHECK)
    }

    /// Sets the sense to command reject and returns that the command is refused with unit check.
    pub(crate) fn reject(&mut self) -> Answer
        ensures answer { result ≡ (table.rejected self.old).answer }
        ensures after { self.new ≡ (table.rejected self.old).front }
    {
        self.refuse(0x80, 0)
    }

    /// Selects this head, sets the sense to zeros but this second byte, and returns that the command
    /// is refused with unit check.
    pub(crate) fn lose(&mut self, head: usize, second: u8) -> Answer
        requires { head < 19 }
        ensures answer { result ≡ (table.lost self.old head second).answer }
        ensures after { self.new ≡ (table.lost self.old head second).front }
    {
        self.head = head;
        self.refuse(0, second)
    }

    /// Sets the head, the count of index points and the place on the track.
    pub(crate) fn go(&mut self, head: usize, points: u8, place: Orientation)
        requires head { head < 19 }
        requires place { front.next_at place ≤ 97 }
        ensures { self.new ≡ table.at self.old head points place }
    {
        self.head = head;
        self.place = place;
        self.points = points;
    }

    /// Sets the pending command and returns that it takes `count` bytes.
    pub(crate) fn take_for(&mut self, count: u32, job: PendingCommand) -> Answer
        ensures answer { result ≡ (table.takes self.old count job).answer }
        ensures after { self.new ≡ (table.takes self.old count job).front }
    {
        self.job = job;
        Answer::Output(count)
    }

    /// Appends bytes to those that are held for the command, for which there has to be room.
    pub(crate) fn hold(&mut self, bytes: &[u8])
        requires { length self.old.bytes + length bytes.now ≤ 65798 }
        ensures { self.new ≡ record (self.old) { bytes = self.old.bytes ++ bytes.now } }
    {
        match self.bytes.extend_from_slice(bytes) {
            Ok(()) => {}
            Err(_) => unreachable!(),
        }
    }

    /// Makes giving the held bytes the pending command, which ends with this status, and returns
    /// how many they are.
    pub(crate) fn give_held(&mut self, status: UnitStatus) -> Answer
        ensures answer { result ≡ (table.gives self.old status self.old.bytes).answer }
        ensures after { self.new ≡ (table.gives self.old status self.old.bytes).front }
    {
        self.job = PendingCommand::Give(status);
        Answer::Input(self.bytes.len() as u32)
    }

    /// Makes giving the held bytes the pending command, as `give_held` does, or refuses the command
    /// with this status if there are none.
    pub(crate) fn give_data_held(&mut self, status: UnitStatus) -> Answer
        ensures answer { result ≡ (table.gives_data self.old status self.old.bytes).answer }
        ensures after { self.new ≡ (table.gives_data self.old status self.old.bytes).front }
    {
        if self.bytes.is_empty() {
            return Answer::Refused(status);
        }
        self.give_held(status)
    }

    /// Returns the next held byte and moves on past it, or returns zero if none is left.
    pub(crate) fn give(&mut self) -> u8
        ensures byte { result ≡ slice_index self.old.bytes self.old.given }
        ensures after { self.new ≡ unit.gave self.old }
    {
        if self.given < self.bytes.len() {
            let byte = self.bytes[self.given];
            self.given += 1;
            byte
        } else {
            0
        }
    }

    /// Appends a byte to those that the command has taken, or drops it if there is no room.
    pub(crate) fn take(&mut self, byte: u8)
        ensures { self.new ≡ unit.took self.old byte }
    {
        if self.bytes.len() < LONGEST {
            match self.bytes.push(byte) {
                Ok(()) => {}
                Err(_) => unreachable!(),
            }
        }
    }

    /// Ends the pending command: drops its bytes and returns this status.
    pub(crate) fn end(&mut self, status: UnitStatus) -> UnitStatus
        ensures status { result ≡ status }
        ensures after { self.new ≡ table_end.resting self.old }
    {
        self.job = PendingCommand::Nothing;
        self.bytes.clear();
        self.given = 0;
        status
    }

    /// Sets the two sense bytes, ends the pending command and returns unit check.
    pub(crate) fn fail(&mut self, first: u8, second: u8) -> UnitStatus
        ensures status { result ≡ (table_end.fails self.old first second).status }
        ensures after { self.new ≡ (table_end.fails self.old first second).front }
    {
        self.sense = Sense { first, second };
        self.end(UnitStatus::UNIT_CHECK)
    }
}
