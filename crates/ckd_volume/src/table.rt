//! The table of commands, in the order of docs/MACHINE.md: how each begins, and how it ends.
ghost use Rattle.std.specs.Prelude.{◌≡◌, ◌≤◌, ◌<◌, [], length, drop};
ghost use Rattle.ckd_volume.specs.Front as front;
ghost use Rattle.ckd_volume.specs.Begin as begin;
ghost use Rattle.ckd_volume.specs.End.{stands};
ghost use Rattle.ckd_volume.specs.Orientation as orientation;
ghost use Rattle.ckd_volume.specs.Table as table;
ghost use Rattle.ckd_volume.specs.Unit as unit;
ghost use Rattle.ckd_volume.specs.declared.parts.Wanted.TheVariants as wanted;
ghost use Rattle.ckd_volume.specs.declared.parts.PendingCommand.TheVariants as jobs;

use crate::cylinder::Cylinder;
use crate::orientation::{counted_at, first_numbered_one, here_at, next_at};
use crate::panel::ControlUnit;
use crate::parts::{Comparison, Found, PendingCommand, Wanted, WriteAccess};
use crate::search::id_right;
use s370_walk::{Answer, Order, UnitStatus};

impl ControlUnit {
    /// Returns the record that is next at the place, or the one that is found after it, or that it
    /// is lost.
    fn next(&self, code: u8, cylinder: &Cylinder) -> Found
        ensures found { result ≡ orientation.found code (front.wants wanted.Any) cylinder.now
            self.now
            (front.next_at self.now.place) }
        ensures there { front.IsIn cylinder.now result }
    {
        let i = next_at(self.place);
        self.found(code, Wanted::Any, cylinder, i)
    }

    /// Returns the record whose count or key was just passed, or else the next that is found, or
    /// that it is lost.
    fn here(&self, code: u8, cylinder: &Cylinder) -> Found
        ensures found { result ≡ orientation.found code (front.wants wanted.Any) cylinder.now
            self.now
            (front.here_at self.now.place) }
        ensures there { front.IsIn cylinder.now result }
    {
        let i = here_at(self.place);
        self.found(code, Wanted::Any, cylinder, i)
    }

    /// Returns the record whose count was just passed, or else the next, that is of the wanted
    /// kind, or that it is lost.
    fn counted(&self, code: u8, looked_for: Wanted, cylinder: &Cylinder) -> Found
        ensures found { result ≡ orientation.found code (front.wants looked_for) cylinder.now
            self.now
            (front.counted_at self.now.place) }
        ensures there { front.IsIn cylinder.now result }
    {
        let i = counted_at(self.place);
        self.found(code, looked_for, cylinder, i)
    }

    /// Begins a command over this cylinder and returns whether it gives or takes bytes, or is
    /// refused; drops what an earlier command left.
    pub(crate) fn begin(&mut self, cylinder: &Cylinder, order: Order) -> Answer
        ensures answer { result ≡
            (table.begun (begin.starting self.old order.first)
            (begin.right_found self.old order.first) cylinder.now order).answer }
        ensures after { self.new ≡
            (table.begun (begin.starting self.old order.first)
            (begin.right_found self.old order.first) cylinder.now order).front }
    {
        let right = self.right_found(order.first);
        self.start(order.first);
        self.obey(right, cylinder, order)
    }

    /// Returns the right to write that the command before this one gave, or none for the first
    /// command of a program.
    fn right_found(&self, is_first: bool) -> WriteAccess
        ensures { result ≡ begin.right_found self.now is_first }
    {
        if is_first {
            WriteAccess::Nothing
        } else {
            self.right
        }
    }

    /// Begins the command of this code, with this right to write, and returns whether it gives or
    /// takes bytes, or is refused.
    ///
    /// An unknown code is rejected.
    fn obey(&mut self, right: WriteAccess, cylinder: &Cylinder, order: Order) -> Answer
        requires { self.old.bytes ≡ [] }
        ensures answer { result ≡ (table.begun self.old right cylinder.now order).answer }
        ensures after { self.new ≡ (table.begun self.old right cylinder.now order).front }
    {
        let code = order.command.code;
        match code {
            0x03 => Answer::Immediate,
            0x04 => self.begin_sense(order),
            0x07 => self.begin_seek(),
            0x1F => self.take_for(1, PendingCommand::SetMask),
            0x1A => {
                let found = self.find_index(0x1A);
                self.home_read(cylinder, found)
            }
            0x39 | 0xB9 => {
                let found = self.find_index(code);
                self.home_searched(found)
            }
            0x31 | 0xB1 => {
                let found = self.next(code, cylinder);
                self.id_searched(Comparison::Equal, cylinder, found)
            }
            0x51 | 0xD1 => {
                let found = self.next(code, cylinder);
                self.id_searched(Comparison::High, cylinder, found)
            }
            0x71 | 0xF1 => {
                let found = self.next(code, cylinder);
                self.id_searched(Comparison::EqualOrHigh, cylinder, found)
            }
            0x29 | 0xA9 => {
                let found = self.counted(code, Wanted::Keyed, cylinder);
                self.key_searched(cylinder, found)
            }
            0x12 => {
                let found = self.next(0x12, cylinder);
                self.count_read(cylinder, found)
            }
            0x06 => {
                let found = self.here(0x06, cylinder);
                self.data_read(cylinder, found)
            }
            0x0E => {
                let found = self.counted(0x0E, Wanted::Any, cylinder);
                self.read_key_data(cylinder, found)
            }
            0x1E => {
                let found = self.next(0x1E, cylinder);
                self.read_count_key_data(cylinder, found)
            }
            0x02 => {
                let found = first_numbered_one(cylinder, self.head);
                self.ipl_read(cylinder, order, found)
            }
            0x05 => {
                let i = here_at(self.place);
                self.begin_write_data(right, cylinder, i)
            }
            0x0D => {
                let i = here_at(self.place);
                self.begin_write_both(right, cylinder, i)
            }
            0x1D => {
                let i = next_at(self.place);
                self.begin_write_record(right, i)
            }
            _ => self.reject(),
        }
    }

    /// Returns whether the command is a Write Count, Key and Data that has all its bytes.
    pub(crate) fn is_done(&self) -> bool
        ensures { result ≡ unit.is_done self.now self.now.job }
    {
        match self.job {
            PendingCommand::WriteRecord(_) => self.is_whole(),
            _ => false,
        }
    }

    /// Ends the pending command over this cylinder, on which a write then writes its bytes, and
    /// returns the unit status; a seek, which needs the whole volume, fails with command reject.
    ///
    /// A Seek fails here.
    pub(crate) fn finish(&mut self, cylinder: &mut Cylinder) -> UnitStatus
        ensures status { result ≡ (table.ended self.old cylinder.old self.old.job).status }
        ensures after { self.new ≡ (table.ended self.old cylinder.old self.old.job).front }
        ensures written { cylinder.new
            ≡ stands cylinder.old self.old.head
            (table.ended self.old cylinder.old self.old.job).written }
    {
        match self.job {
            PendingCommand::Nothing => self.end(UnitStatus::NONE),
            PendingCommand::Give(status) => self.end(status),
            PendingCommand::SetMask => self.set_mask(),
            PendingCommand::Seek => self.fail(0x80, 0),
            PendingCommand::SearchHome => self.end_search_home(cylinder),
            PendingCommand::SearchId(comparison, i) => self.end_search_id(cylinder, comparison, i),
            PendingCommand::SearchKey(i) => self.end_search_key(cylinder, i),
            PendingCommand::WriteData(i) => self.end_write_data(cylinder, i),
            PendingCommand::WriteBoth(i) => self.end_write_both(cylinder, i),
            PendingCommand::WriteRecord(i) => self.end_write_record(cylinder, i),
        }
    }

    /// Ends Search Home Address Equal (39, B9): if the track's home address is as the bytes taken,
    /// gives the right to write and returns status modifier.
    fn end_search_home(&mut self, cylinder: &Cylinder) -> UnitStatus
        ensures status { result ≡ (table.ended self.old cylinder.now jobs.SearchHome).status }
        ensures after { self.new ≡ (table.ended self.old cylinder.now jobs.SearchHome).front }
    {
        let home = cylinder.track(self.head).home();
        let is_satisfied = self.fits(Comparison::Equal, &home[1..]);
        self.end_search(WriteAccess::Home, is_satisfied)
    }

    /// Ends Search Identifier (31, 51, 71, B1, D1, F1): if the id of record `i` fits the bytes
    /// taken, returns status modifier and, for Equal, gives the right to write.
    #[tactic(auto, using(crate::proofs::Ends::at_past))]
    fn end_search_id(&mut self, cylinder: &Cylinder, comparison: Comparison, i: usize) -> UnitStatus
        ensures status { result ≡
            (table.ended self.old cylinder.now (jobs.SearchId comparison i)).status }
        ensures after { self.new
            ≡ (table.ended self.old cylinder.now (jobs.SearchId comparison i)).front }
    {
        let right = id_right(comparison);
        let track = cylinder.track(self.head);
        if i >= track.len() {
            let is_satisfied = self.fits(comparison, &[]);
            return self.end_search(right, is_satisfied);
        }
        let id = track.record(i).id;
        let is_satisfied = self.fits(comparison, &id);
        self.end_search(right, is_satisfied)
    }

    /// Ends Search Key Equal (29, A9): if the key of record `i` is as the bytes taken, gives the
    /// right to write and returns status modifier.
    #[tactic(auto, using(crate::proofs::Ends::at_past))]
    fn end_search_key(&mut self, cylinder: &Cylinder, i: usize) -> UnitStatus
        ensures status { result ≡ (table.ended self.old cylinder.now (jobs.SearchKey i)).status }
        ensures after { self.new ≡ (table.ended self.old cylinder.now (jobs.SearchKey i)).front }
    {
        let track = cylinder.track(self.head);
        if i >= track.len() {
            let is_satisfied = self.fits(Comparison::Equal, &[]);
            return self.end_search(WriteAccess::Key, is_satisfied);
        }
        let key = track.record(i).key;
        let is_satisfied = self.fits(Comparison::Equal, key);
        self.end_search(WriteAccess::Key, is_satisfied)
    }
}
