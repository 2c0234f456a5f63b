//! Reads: all bytes of a read are held at its start.
ghost use Rattle.std.specs.Prelude.{◌≡◌, ◌<◌, ◌≤◌, ◌+◌, ◌++◌, ◌∷◌, ◌/◌, ◌%◌, [], length};
ghost use Rattle.ckd_volume.specs.Front as front;
ghost use Rattle.ckd_volume.specs.Front.{IsIn};
ghost use Rattle.ckd_volume.specs.Begin as begin;
ghost use Rattle.ckd_volume.specs.Read as table;

use crate::cylinder::Cylinder;
use crate::panel::ControlUnit;
use crate::parts::{Found, Orientation};
use ckd_track::Record;
use s370_walk::{Answer, Order, UnitStatus};

/// Returns unit exception if a record's data are empty, else no status.
pub(crate) fn exception(content: &[u8]) -> UnitStatus
    ensures { result ≡ begin.exception_of content.now }
{
    if content.is_empty() {
        UnitStatus::UNIT_EXCEPTION
    } else {
        UnitStatus::NONE
    }
}

/// Returns the last three bytes of a record's count: the length of its key, and in two bytes that
/// of its data.
fn lengths(there: Record<'_>) -> [u8; 3]
    requires key { length there.key.now ≤ 255 }
    requires content { length there.content.now ≤ 65535 }
    ensures { result ≡ length there.entry.key.now ∷ length there.entry.content.now / 256
        ∷ length there.entry.content.now % 256 ∷ [] }
{
    let content = there.content.len();
    [
        there.key.len() as u8,
        (content / 256) as u8,
        (content % 256) as u8,
    ]
}

impl ControlUnit {
    /// Begins Read Home Address (1A): moves past the home address that was found and gives it, or
    /// refuses the command if it is lost.
    pub(crate) fn home_read(&mut self, cylinder: &Cylinder, found: Found) -> Answer
        requires empty { self.old.bytes ≡ [] }
        requires head { front.head_of found < 19 }
        ensures answer { result ≡ (table.home_read self.old cylinder.now found).answer }
        ensures after { self.new ≡ (table.home_read self.old cylinder.now found).front }
    {
        match found {
            Found::Lost(head, second) => self.lose(head, second),
            Found::There(head, _, _) => {
                let home = cylinder.track(head).home();
                self.go(head, 0, Orientation::Gap(0));
                self.hold(&home);
                self.give_held(UnitStatus::NONE)
            }
        }
    }

    /// Begins Read Count (12): moves past the count that was found and gives it, or refuses the
    /// command if it is lost.
    pub(crate) fn count_read(&mut self, cylinder: &Cylinder, found: Found) -> Answer
        requires empty { self.old.bytes ≡ [] }
        requires there { IsIn cylinder.now found }
        ensures answer { result ≡ (table.count_read self.old cylinder.now found).answer }
        ensures after { self.new ≡ (table.count_read self.old cylinder.now found).front }
    {
        match found {
            Found::Lost(head, second) => self.lose(head, second),
            Found::There(head, i, _) => {
                let there = cylinder.track(head).record(i);
                let id = there.id;
                let lengths = lengths(there);
                self.go(head, 0, Orientation::Count(i));
                self.hold(&id);
                self.hold(&lengths);
                self.give_held(UnitStatus::NONE)
            }
        }
    }

    /// Begins Read Data (06): moves past the record that was found and gives its data, or refuses
    /// the command if it is lost or has no data.
    pub(crate) fn data_read(&mut self, cylinder: &Cylinder, found: Found) -> Answer
        requires empty { self.old.bytes ≡ [] }
        requires there { IsIn cylinder.now found }
        ensures answer { result ≡ (table.data_read self.old cylinder.now found).answer }
        ensures after { self.new ≡ (table.data_read self.old cylinder.now found).front }
    {
        match found {
            Found::Lost(head, second) => self.lose(head, second),
            Found::There(head, i, _) => {
                let content = cylinder.track(head).record(i).content;
                self.go(head, 0, Orientation::Gap(i + 1));
                self.hold(content);
                self.give_data_held(exception(content))
            }
        }
    }

    /// Begins Read Key and Data (0E): moves past the record that was found and gives both, or
    /// refuses the command if it is lost or has neither; if only the data are empty, it ends with
    /// unit exception.
    pub(crate) fn read_key_data(&mut self, cylinder: &Cylinder, found: Found) -> Answer
        requires empty { self.old.bytes ≡ [] }
        requires there { IsIn cylinder.now found }
        ensures answer { result ≡ (table.read_key_data self.old cylinder.now found).answer }
        ensures after { self.new ≡ (table.read_key_data self.old cylinder.now found).front }
    {
        match found {
            Found::Lost(head, second) => self.lose(head, second),
            Found::There(head, i, _) => {
                let there = cylinder.track(head).record(i);
                self.go(head, 0, Orientation::Gap(i + 1));
                self.hold(there.key);
                self.hold(there.content);
                self.give_data_held(exception(there.content))
            }
        }
    }

    /// Begins Read Count, Key and Data (1E): moves past the record that was found and gives all
    /// three, or refuses the command if it is lost; if the data are empty, it ends with unit
    /// exception.
    #[tactic(auto, using(crate::proofs::Ends::append_all))]
    pub(crate) fn read_count_key_data(&mut self, cylinder: &Cylinder, found: Found) -> Answer
        requires empty { self.old.bytes ≡ [] }
        requires there { IsIn cylinder.now found }
        ensures answer { result ≡ (table.read_count_key_data self.old cylinder.now found).answer }
        ensures after { self.new ≡ (table.read_count_key_data self.old cylinder.now found).front }
    {
        match found {
            Found::Lost(head, second) => self.lose(head, second),
            Found::There(head, i, _) => {
                let there = cylinder.track(head).record(i);
                let id = there.id;
                let lengths = lengths(there);
                self.go(head, 0, Orientation::Gap(i + 1));
                self.hold(&id);
                self.hold(&lengths);
                self.hold(there.key);
                self.hold(there.content);
                self.give_held(exception(there.content))
            }
        }
    }

    /// Begins Read IPL (02) as Read Data of the record that was found, if it is the first command
    /// of a program; else rejects it.
    ///
    /// The arm is on its first track then.
    pub(crate) fn ipl_read(&mut self, cylinder: &Cylinder, order: Order, found: Found) -> Answer
        requires empty { self.old.bytes ≡ [] }
        requires there { IsIn cylinder.now found }
        ensures answer { result ≡ (table.ipl_read self.old cylinder.now order found).answer }
        ensures after { self.new ≡ (table.ipl_read self.old cylinder.now order found).front }
    {
        if order.first {
            return self.data_read(cylinder, found);
        }
        self.reject()
    }
}
