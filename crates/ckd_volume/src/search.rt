//! Searches: what they look for, and when they are satisfied.
ghost use Rattle.std.specs.Prelude.{◌≡◌, ◌<◌, ◌≤◌, length};
ghost use Rattle.ckd_volume.specs.Front as front;
ghost use Rattle.ckd_volume.specs.Front.{IsIn};
ghost use Rattle.ckd_volume.specs.Search as table;

use crate::cylinder::Cylinder;
use crate::panel::ControlUnit;
use crate::parts::{Comparison, Found, Orientation, PendingCommand, WriteAccess};
use s370_walk::{Answer, UnitStatus};

impl ControlUnit {
    /// Begins Search Home Address Equal (39, B9), which takes four bytes, past the home address
    /// that was found, or refuses it if that is lost.
    pub(crate) fn home_searched(&mut self, found: Found) -> Answer
        requires { front.head_of found < 19 }
        ensures answer { result ≡ (table.home_searched self.old found).answer }
        ensures after { self.new ≡ (table.home_searched self.old found).front }
    {
        match found {
            Found::Lost(head, second) => self.lose(head, second),
            Found::There(head, _, points) => {
                self.go(head, points, Orientation::Gap(0));
                self.take_for(4, PendingCommand::SearchHome)
            }
        }
    }

    /// Begins Search Identifier (31, 51, 71, B1, D1, F1), which takes five bytes, past the count
    /// that was found, or refuses it if that is lost.
    pub(crate) fn id_searched(
        &mut self,
        comparison: Comparison,
        cylinder: &Cylinder,
        found: Found,
    ) -> Answer
        requires { IsIn cylinder.now found }
        ensures answer { result ≡ (table.id_searched self.old comparison found).answer }
        ensures after { self.new ≡ (table.id_searched self.old comparison found).front }
    {
        match found {
            Found::Lost(head, second) => self.lose(head, second),
            Found::There(head, i, points) => {
                let _few = cylinder.track(head).len();
                self.go(head, points, Orientation::Count(i));
                self.take_for(5, PendingCommand::SearchId(comparison, i))
            }
        }
    }

    /// Begins Search Key Equal (29, A9), which takes as many bytes as the key that was found has,
    /// and moves past that, or refuses it if it is lost.
    pub(crate) fn key_searched(&mut self, cylinder: &Cylinder, found: Found) -> Answer
        requires { IsIn cylinder.now found }
        ensures answer { result ≡ (table.key_searched self.old cylinder.now found).answer }
        ensures after { self.new ≡ (table.key_searched self.old cylinder.now found).front }
    {
        match found {
            Found::Lost(head, second) => self.lose(head, second),
            Found::There(head, i, points) => {
                let key = cylinder.track(head).record(i).key;
                self.go(head, points, Orientation::Key(i));
                self.take_for(key.len() as u32, PendingCommand::SearchKey(i))
            }
        }
    }

    /// Returns whether a field of the track compares with the bytes that a search took as it wants,
    /// over as many bytes as it took; false if it took none.
    pub(crate) fn fits(&self, comparison: Comparison, there: &[u8]) -> bool
        ensures { result ≡ table.fits comparison self.now.bytes there.now }
    {
        let count = self.bytes.len();
        if count == 0 {
            return false;
        }
        let taken = self.bytes.as_slice();
        let cut = if count < there.len() {
            &there[..count]
        } else {
            there
        };
        let order = cut.cmp(&taken);
        match comparison {
            Comparison::Equal => order.is_eq(),
            Comparison::High => order.is_gt(),
            Comparison::EqualOrHigh => order.is_ge(),
        }
    }

    /// Ends a search: if it is satisfied, sets the right to write and returns status modifier, else
    /// returns no status.
    pub(crate) fn end_search(&mut self, right: WriteAccess, is_satisfied: bool) -> UnitStatus
        ensures status { result ≡ (table.satisfied self.old right is_satisfied).status }
        ensures after { self.new ≡ (table.satisfied self.old right is_satisfied).front }
    {
        if is_satisfied {
            self.right = right;
            return self.end(UnitStatus::STATUS_MODIFIER);
        }
        self.end(UnitStatus::NONE)
    }
}

/// Returns the right to write that a satisfied search for an id gives: one for an equal id, and
/// none for the others.
pub(crate) fn id_right(comparison: Comparison) -> WriteAccess
    ensures { result ≡ table.id_right comparison }
{
    match comparison {
        Comparison::Equal => WriteAccess::Id,
        Comparison::High => WriteAccess::Nothing,
        Comparison::EqualOrHigh => WriteAccess::Nothing,
    }
}
