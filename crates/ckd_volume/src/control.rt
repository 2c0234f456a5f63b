//! Commands that move no data of records: Sense, Seek and Set File Mask.
ghost use Rattle.std.specs.Prelude.{◌≡◌, ◌<◌, ◌≤◌, ◌+◌, [], length, Some, None};
ghost use Rattle.ckd_volume.specs.Begin as begin;
ghost use Rattle.ckd_volume.specs.Control as table;
ghost use Rattle.ckd_volume.specs.End as table_end;
ghost use Rattle.ckd_volume.specs.Unit as unit;
ghost use Rattle.ckd_volume.specs.declared.parts.Orientation.TheVariants as places;

use crate::cylinder::HEADS;
use crate::panel::ControlUnit;
use crate::parts::{Orientation, PendingCommand};
use s370_walk::{Answer, Order, UnitStatus};

/// A track, as a seek names it.
#[derive(Clone, Copy, PartialEq, Eq)]
pub struct Seek {
    /// Its cylinder, the first of the disk being 0.
    pub cylinder: usize,
    /// Its head, the first being 0.
    pub head: usize,
}

/// Returns the bytes at indexes `k` and `k + 1` as one number.
fn halfword(bytes: &[u8], k: usize) -> usize
    requires { k + 1 < length bytes.now }
    ensures { result ≡ table.halfword bytes.now k }
{
    256 * usize::from(bytes[k]) + usize::from(bytes[k + 1])
}

impl ControlUnit {
    /// Begins Sense (04), which gives 24 bytes, if it is the first command of a program and does
    /// not chain; else rejects it.
    pub(crate) fn begin_sense(&mut self, order: Order) -> Answer
        requires empty { self.old.bytes ≡ [] }
        ensures answer { result ≡ (table.begin_sense self.old order).answer }
        ensures after { self.new ≡ (table.begin_sense self.old order).front }
    {
        if order.first && order.flags.bits & 0xC0 == 0 {
            let mut bytes = [0; 24];
            bytes[0] = self.sense.first;
            bytes[1] = self.sense.second;
            self.hold(&bytes);
            self.give_held(UnitStatus::NONE)
        } else {
            self.reject()
        }
    }

    /// Begins Seek (07), which takes six bytes, or refuses it as file protected if bits 3-4 of the
    /// file mask are not 00.
    pub(crate) fn begin_seek(&mut self) -> Answer
        ensures answer { result ≡ (table.begin_seek self.old).answer }
        ensures after { self.new ≡ (table.begin_seek self.old).front }
    {
        if self.mask & 0x18 == 0 {
            self.take_for(6, PendingCommand::Seek)
        } else {
            self.refuse(0, 0x04)
        }
    }

    /// Ends Set File Mask (1F): sets the file mask from its byte, or fails with command reject if
    /// that is missing or invalid.
    pub(crate) fn set_mask(&mut self) -> UnitStatus
        ensures status { result ≡ (table.mask_set self.old self.old.bytes).status }
        ensures after { self.new ≡ (table.mask_set self.old self.old.bytes).front }
    {
        if self.bytes.is_empty() || self.bytes[0] & 0x27 != 0 {
            return self.fail(0x80, 0);
        }
        self.mask = self.bytes[0];
        self.end(UnitStatus::NONE)
    }

    /// Returns the track that the six bytes of a seek name; `None` if there are fewer, the first two
    /// are not zero, or a disk of so many cylinders has no such track.
    pub(crate) fn sought(&self, cylinders: usize) -> Option<Seek>
        ensures { result ≡ table.sought cylinders self.now.bytes }
    {
        if self.bytes.len() < 6 || halfword(&self.bytes, 0) != 0 {
            return None;
        }
        let cylinder = halfword(&self.bytes, 2);
        let head = halfword(&self.bytes, 4);
        if cylinder < cylinders && head < HEADS {
            return Some(Seek { cylinder, head });
        }
        None
    }

    /// Returns whether the command under way is Seek.
    pub(crate) fn is_seeking(&self) -> bool
        ensures { result ≡ unit.is_seeking self.now.job }
    {
        match self.job {
            PendingCommand::Seek => true,
            _ => false,
        }
    }

    /// Returns the six bytes of the Seek that is under way, or `None` if there is none or it has
    /// fewer.
    pub(crate) fn argument(&self) -> Option<[u8; 6]>
        ensures { result ≡ unit.argument_held self.now }
    {
        // Exhaustive: a new field fails to compile here.
        let ControlUnit {
            writable: _,
            head: _,
            place: _,
            mask: _,
            points: _,
            right: _,
            sense: _,
            job: _,
            bytes,
            given: _,
        } = self;
        if self.is_seeking() && bytes.len() >= 6 {
            return Some([bytes[0], bytes[1], bytes[2], bytes[3], bytes[4], bytes[5]]);
        }
        None
    }

    /// Replaces all bytes that are held for the command by these six.
    pub(crate) fn set_argument(&mut self, argument: [u8; 6])
        ensures { self.new ≡ record (self.old) { bytes = argument } }
    {
        self.bytes.clear();
        self.hold(&argument);
    }

    /// Ends a seek: selects this head and moves to the index of its track.
    pub(crate) fn end_seek(&mut self, head: usize) -> UnitStatus
        requires { head < 19 }
        ensures status { result ≡ begin.no_status }
        ensures after { self.new ≡ table_end.resting
            (record (self.old) { head = head; place = places.Index; points = 0 }) }
    {
        self.go(head, 0, Orientation::Index);
        self.end(UnitStatus::NONE)
    }

    /// Selects head 0; cylinder and place stay.
    pub(crate) fn choose_first_head(&mut self)
        ensures { self.new ≡ record (self.old) { head = 0 } }
    {
        self.head = 0;
    }
}
