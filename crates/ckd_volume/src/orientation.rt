//! Orientation: which record is next, past index points and over the heads of a cylinder.
ghost use Rattle.std.specs.Prelude.{◌≡◌, ◌≤◌, ◌<◌, ◌+◌, Some, None, length, IfSome};
ghost use Rattle.ckd_volume.specs.Front as front;
ghost use Rattle.ckd_volume.specs.Front.{IsIn};
ghost use Rattle.ckd_volume.specs.Orientation as orientation;
ghost use Rattle.ckd_volume.specs.declared.parts.Wanted.TheVariants as wanted;

use crate::cylinder::Cylinder;
use crate::panel::ControlUnit;
use crate::parts::{Found, Orientation, Wanted};
use ckd_track::{Record, Track};

/// Second sense byte of what is not found.
const NO_RECORD_FOUND: u8 = 0x08;

const FILE_PROTECTED: u8 = 0x04;

const END_OF_CYLINDER: u8 = 0x20;

/// Returns the index of the record that is next at a place, even if the track has no such record.
pub(crate) fn next_at(place: Orientation) -> usize
    requires { front.next_at place ≤ 97 }
    ensures { result ≡ front.next_at place }
{
    match place {
        Orientation::Index => 0,
        Orientation::Gap(i) => i,
        Orientation::Count(i) => i + 1,
        Orientation::Key(i) => i + 1,
    }
}

/// Returns the index of the record whose count or key was just passed, or else of the next one.
pub(crate) fn here_at(place: Orientation) -> usize
    ensures { result ≡ front.here_at place }
{
    match place {
        Orientation::Index => 0,
        Orientation::Gap(i) => i,
        Orientation::Count(i) => i,
        Orientation::Key(i) => i,
    }
}

/// Returns the index of the record whose count was just passed, or else of the next one.
pub(crate) fn counted_at(place: Orientation) -> usize
    requires { front.next_at place ≤ 97 }
    ensures { result ≡ front.counted_at place }
{
    match place {
        Orientation::Index => 0,
        Orientation::Gap(i) => i,
        Orientation::Count(i) => i,
        Orientation::Key(i) => i + 1,
    }
}

/// Returns whether a record is of the wanted kind: any, one with a key, or one with number 1.
fn is_wanted(wanted: Wanted, there: Record<'_>) -> bool
    requires { length there.id ≡ 5 }
    ensures { result ≡ front.wants wanted
        (record {
          id = there.entry.id;
          key = there.entry.key.now;
          content = there.entry.content.now;
        }) }
{
    match wanted {
        Wanted::Any => true,
        Wanted::Keyed => !there.key.is_empty(),
        Wanted::First => there.id[4] == 1,
    }
}

/// Returns the index of the first record of the wanted kind on a track from `start` on, if there is
/// one.
fn first_from(wanted: Wanted, track: &Track, start: usize) -> Option<usize>
    ensures found { result ≡ orientation.first_from (front.wants wanted) track.now.records start }
    ensures there { IfSome result (λ i. i < length track.now.records) }
{
    for i in start..track.len() {
        if is_wanted(wanted, track.record(i)) {
            return Some(i);
        }
    }
    None
}

/// Returns the record that a command finds on one track from `start` on, also past the index once,
/// or that no record is found.
fn on_track(wanted: Wanted, cylinder: &Cylinder, head: usize, points: u8, start: usize) -> Found
    requires { head < 19 }
    ensures found { result ≡ orientation.on_track (front.wants wanted)
        (front.records_at cylinder.now head) head points
        (orientation.first_from (front.wants wanted) (front.records_at cylinder.now head) start) }
    ensures there { IsIn cylinder.now result }
{
    let track = cylinder.track(head);
    match first_from(wanted, track, start) {
        Some(i) => Found::There(head, i, points),
        None => {
            if points >= 1 {
                return Found::Lost(head, NO_RECORD_FOUND);
            }
            match first_from(wanted, track, 0) {
                Some(i) => Found::There(head, i, points + 1),
                None => Found::Lost(head, NO_RECORD_FOUND),
            }
        }
    }
}

/// Returns the record that a multitrack search finds on at most `more` heads after this one, or
/// that it is file protected or at the end of the cylinder.
#[tactic(auto, using(crate::proofs::Finding::switched_last, crate::proofs::Finding::switched_on))]
fn over_heads(wanted: Wanted, cylinder: &Cylinder, mask: u8, head: usize, more: usize) -> Found
    requires { head + more ≡ 18 }
    ensures found { result ≡ orientation.switched (front.wants wanted) cylinder.now mask head more }
    ensures there { IsIn cylinder.now result }
{
    if mask & 24 == 24 {
        return Found::Lost(head, FILE_PROTECTED);
    }
    if more == 0 {
        return Found::Lost(head, END_OF_CYLINDER);
    }
    match first_from(wanted, cylinder.track(head + 1), 0) {
        Some(i) => Found::There(head + 1, i, 0),
        None => over_heads(wanted, cylinder, mask, head + 1, more - 1),
    }
}

/// Returns the first record with number 1 on the track under this head, or that no record is found.
pub(crate) fn first_numbered_one(cylinder: &Cylinder, head: usize) -> Found
    requires { head < 19 }
    ensures found { result ≡ orientation.once_round head 0
        (orientation.first_from (front.wants wanted.First) (front.records_at cylinder.now head) 0) }
    ensures there { IsIn cylinder.now result }
{
    match first_from(Wanted::First, cylinder.track(head), 0) {
        Some(i) => Found::There(head, i, 0),
        None => Found::Lost(head, NO_RECORD_FOUND),
    }
}

impl ControlUnit {
    /// Returns the record that a command finds from record `i` on, or that it is lost; if bit 0 of
    /// the code is one, it goes on to the next heads.
    pub(crate) fn found(&self, code: u8, wanted: Wanted, cylinder: &Cylinder, i: usize) -> Found
        ensures found { result ≡ orientation.found code (front.wants wanted) cylinder.now self.now
            i }
        ensures there { IsIn cylinder.now result }
    {
        if code < 128 {
            return on_track(wanted, cylinder, self.head, self.points, i);
        }
        match first_from(wanted, cylinder.track(self.head), i) {
            Some(i) => Found::There(self.head, i, self.points),
            None => over_heads(wanted, cylinder, self.mask, self.head, 18 - self.head),
        }
    }

    /// Returns the index that a command goes to, of this track or for a multitrack code of the next
    /// head's, or that it is lost.
    pub(crate) fn find_index(&self, code: u8) -> Found
        ensures found { result ≡ orientation.to_index code self.now self.now.place }
        ensures head { front.head_of result < 19 }
    {
        if self.place == Orientation::Index {
            return Found::There(self.head, 0, self.points);
        }
        if code < 128 {
            if self.points >= 1 {
                return Found::Lost(self.head, NO_RECORD_FOUND);
            }
            return Found::There(self.head, 0, self.points + 1);
        }
        if self.mask & 24 == 24 {
            return Found::Lost(self.head, FILE_PROTECTED);
        }
        if self.head >= 18 {
            return Found::Lost(self.head, END_OF_CYLINDER);
        }
        Found::There(self.head + 1, 0, 0)
    }
}
