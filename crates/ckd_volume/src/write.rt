//! Writes: who may write, and what is on the track then.
ghost use Rattle.std.specs.Prelude.{◌≡◌, ◌<◌, ◌≤◌, ◌+◌, ◌++◌, not, ◌||◌, length};
ghost use Rattle.std.specs.Vec.{vec_capacity};
ghost use Rattle.ckd_volume.specs.Front as front;
ghost use Rattle.ckd_volume.specs.End as table_end;
ghost use Rattle.ckd_volume.specs.End.{stands};
ghost use Rattle.ckd_volume.specs.Write as table;
ghost use Rattle.ckd_volume.specs.Begin as begin;
ghost use Rattle.ckd_volume.specs.declared.parts.Orientation.TheVariants as places;
ghost use Rattle.ckd_volume.specs.declared.parts.WriteAccess.TheVariants as rights;

use crate::cylinder::Cylinder;
use crate::panel::{ControlUnit, LONGEST};
use crate::parts::{Orientation, PendingCommand, WriteAccess};
use crate::read::exception;
use s370_walk::{Answer, UnitStatus};

/// Makes a list of bytes `count` long: cuts it, or appends zeros, for which there has to be room.
#[tactic(auto, using(crate::proofs::Ends::zero_on, crate::proofs::Ends::padded_long))]
fn pad(bytes: &mut Vec<u8>, count: usize)
    requires { count ≤ vec_capacity bytes.old }
    ensures bytes { bytes.new.items ≡ table_end.padded count bytes.old.items }
    ensures long { length bytes.new.items ≡ count }
    ensures capacity { vec_capacity bytes.old ≤ vec_capacity bytes.new }
{
    bytes.truncate(count);
    while bytes.len() < count {
        match bytes.push(0) {
            Ok(()) => {}
            Err(_) => unreachable!(),
        }
    }
}

impl ControlUnit {
    /// Returns whether the file mask or the right to write forbids the write command with this
    /// code.
    fn is_barred(&self, right: WriteAccess, code: u8) -> bool
        ensures { result ≡ (table.mask_bars self.now.mask code || not (table.grants right code)) }
    {
        let write = self.mask & 0xC0;
        if write == 0x40 || (write == 0x80 && code == 0x1D) {
            return true;
        }
        match right {
            WriteAccess::Nothing => true,
            WriteAccess::Home => code != 0x1D,
            WriteAccess::Id => false,
            WriteAccess::Key => code == 0x0D,
            WriteAccess::Record => code != 0x1D,
        }
    }

    /// Begins Write Data (05) over record `i`: moves past it and takes as many bytes as its data
    /// have, with unit exception if they have none; or refuses the command.
    ///
    /// It is refused on a read-only disk, if the mask or the right to write forbids it, without
    /// such a record, and for a record without data.
    pub(crate) fn begin_write_data(
        &mut self,
        right: WriteAccess,
        cylinder: &Cylinder,
        i: usize,
    ) -> Answer
        ensures answer { result ≡
            (table.if_writes self.old right 5 (table.data_written self.old cylinder.now i)).answer }
        ensures after { self.new ≡
            (table.if_writes self.old right 5 (table.data_written self.old cylinder.now i)).front }
    {
        if !self.writable {
            return self.refuse(0, 0x02);
        }
        if self.is_barred(right, 0x05) {
            return self.reject();
        }
        let track = cylinder.track(self.head);
        if i >= track.len() {
            return self.reject();
        }
        let count = track.record(i).content.len();
        let head = self.head;
        self.go(head, 0, Orientation::Gap(i + 1));
        if count == 0 {
            return Answer::Refused(UnitStatus::UNIT_EXCEPTION);
        }
        self.take_for(count as u32, PendingCommand::WriteData(i))
    }

    /// Begins Write Key and Data (0D) over record `i`: moves past it and takes as many bytes as
    /// both have, with unit exception if they have none; or refuses the command.
    ///
    /// It is refused on a read-only disk, if the mask or the right to write forbids it, without
    /// such a record, and for a record with neither.
    pub(crate) fn begin_write_both(
        &mut self,
        right: WriteAccess,
        cylinder: &Cylinder,
        i: usize,
    ) -> Answer
        ensures answer { result ≡
            (table.if_writes self.old right 13
            (table.both_written self.old cylinder.now i)).answer }
        ensures after { self.new ≡
            (table.if_writes self.old right 13 (table.both_written self.old cylinder.now i)).front }
    {
        if !self.writable {
            return self.refuse(0, 0x02);
        }
        if self.is_barred(right, 0x0D) {
            return self.reject();
        }
        let track = cylinder.track(self.head);
        if i >= track.len() {
            return self.reject();
        }
        let there = track.record(i);
        let count = there.key.len() + there.content.len();
        let head = self.head;
        self.go(head, 0, Orientation::Gap(i + 1));
        if count == 0 {
            return Answer::Refused(UnitStatus::UNIT_EXCEPTION);
        }
        self.take_for(count as u32, PendingCommand::WriteBoth(i))
    }

    /// Begins Write Count, Key and Data (1D) after the first `i` records, or refuses it on a
    /// read-only disk or if mask or right forbids it.
    pub(crate) fn begin_write_record(&mut self, right: WriteAccess, i: usize) -> Answer
        ensures answer { result ≡
            (table.if_writes self.old right 29 (table.whole_written self.old i)).answer }
        ensures after { self.new
            ≡ (table.if_writes self.old right 29 (table.whole_written self.old i)).front }
    {
        if !self.writable {
            return self.refuse(0, 0x02);
        }
        if self.is_barred(right, 0x1D) {
            return self.reject();
        }
        self.take_for(LONGEST as u32, PendingCommand::WriteRecord(i))
    }

    /// Ends Write Data (05): overwrites the data of record `i` with the bytes that it took, and
    /// with zeros for missing ones; fails without such a record.
    pub(crate) fn end_write_data(&mut self, cylinder: &mut Cylinder, i: usize) -> UnitStatus
        ensures status { result ≡
            (table.data_ended self.old (front.track_at cylinder.old self.old.head) i
            (front.record_at cylinder.old self.old.head i)).status }
        ensures after { self.new ≡
            (table.data_ended self.old (front.track_at cylinder.old self.old.head) i
            (front.record_at cylinder.old self.old.head i)).front }
        ensures written { cylinder.new
            ≡ stands cylinder.old self.old.head
            (table.data_ended self.old (front.track_at cylinder.old self.old.head) i
            (front.record_at cylinder.old self.old.head i)).written }
    {
        if i >= cylinder.track(self.head).len() {
            return self.fail(0x80, 0);
        }
        let count = cylinder.track(self.head).record(i).content.len();
        pad(&mut self.bytes, count);
        cylinder.track_mut(self.head).write_content(i, &self.bytes);
        self.end(UnitStatus::NONE)
    }

    /// Ends Write Key and Data (0D): overwrites both of record `i` with the bytes that it took, and
    /// with zeros for missing ones; returns unit exception if the data are empty, and fails without
    /// such a record.
    pub(crate) fn end_write_both(&mut self, cylinder: &mut Cylinder, i: usize) -> UnitStatus
        ensures status { result ≡
            (table.both_ended self.old (front.track_at cylinder.old self.old.head) i
            (front.record_at cylinder.old self.old.head i)).status }
        ensures after { self.new ≡
            (table.both_ended self.old (front.track_at cylinder.old self.old.head) i
            (front.record_at cylinder.old self.old.head i)).front }
        ensures written { cylinder.new
            ≡ stands cylinder.old self.old.head
            (table.both_ended self.old (front.track_at cylinder.old self.old.head) i
            (front.record_at cylinder.old self.old.head i)).written }
    {
        if i >= cylinder.track(self.head).len() {
            return self.fail(0x80, 0);
        }
        let there = cylinder.track(self.head).record(i);
        let status = exception(there.content);
        pad(&mut self.bytes, there.key.len() + there.content.len());
        cylinder
            .track_mut(self.head)
            .write_key_and_content(i, &self.bytes);
        self.end(status)
    }

    /// Returns whether a Write Count, Key and Data has all the bytes that its first eight announce.
    pub(crate) fn is_whole(&self) -> bool
        ensures { result ≡ table.is_whole self.now.bytes }
    {
        if self.bytes.len() < 8 {
            return false;
        }
        let content = 256 * usize::from(self.bytes[6]) + usize::from(self.bytes[7]);
        8 + usize::from(self.bytes[5]) + content <= self.bytes.len()
    }

    /// Ends Write Count, Key and Data (1D): erases all records after the first `i` and writes this
    /// one, with zeros for missing bytes; fails if the count is short or the track is full.
    #[tactic(auto, using(crate::proofs::Ends::set_own))]
    pub(crate) fn end_write_record(&mut self, cylinder: &mut Cylinder, i: usize) -> UnitStatus
        ensures status { result ≡
            (table.whole_ended self.old (front.track_at cylinder.old self.old.head) i).status }
        ensures after { self.new
            ≡ (table.whole_ended self.old (front.track_at cylinder.old self.old.head) i).front }
        ensures written { cylinder.new
            ≡ stands cylinder.old self.old.head
            (table.whole_ended self.old (front.track_at cylinder.old self.old.head) i).written }
    {
        if self.bytes.len() < 8 {
            return self.fail(0x80, 0);
        }
        let key = usize::from(self.bytes[5]);
        let content = 256 * usize::from(self.bytes[6]) + usize::from(self.bytes[7]);
        pad(&mut self.bytes, 8 + key + content);
        if i > cylinder.track(self.head).len() {
            return self.fail(0, 0x40);
        }
        let mut id = [0; 5];
        id.copy_from_slice(&self.bytes[..5]);
        let (count_and_key, content) = self.bytes.split_at(8 + key);
        match cylinder
            .track_mut(self.head)
            .write_after(i, id, &count_and_key[8..], content)
        {
            Ok(()) => self.end_written(i + 1),
            Err(_) => self.fail(0, 0x40),
        }
    }

    /// Ends a command that wrote a whole record: moves to the gap before record `next`, and gives
    /// the right to write further records.
    fn end_written(&mut self, next: usize) -> UnitStatus
        requires { next ≤ 97 }
        ensures status { result ≡ begin.no_status }
        ensures after { self.new ≡ table_end.resting
            (record (self.old) { place = places.Gap next; points = 0; right = rights.Record }) }
    {
        self.place = Orientation::Gap(next);
        self.points = 0;
        self.right = WriteAccess::Record;
        self.end(UnitStatus::NONE)
    }
}
