//! Extents of a volume, and the seeks of a minidisk.
ghost use Rattle.std.specs.Prelude.{◌≡◌, ◌≤◌, ◌<◌, ◌+◌, Bool, true, length, nat_le, IfSome, IsSome};
ghost use Rattle.std.specs.Prelude.{◌↔◌};
ghost use Rattle.cp_minidisk.specs.Extent.{IsExtent, IsWithin, relocated, relocated_argument};

use ckd_volume::{MOST_CYLINDERS, Seek, Volume};
use std::marker::Model;

/// The extent of a minidisk: so many cylinders of a volume, from one of them on, and whether they
/// may be written.
///
/// ```
/// let extent = Extent::new(100, 5, true)?; // cylinders 100 to 104
/// let place = extent.relocate(Seek { cylinder: 4, head: 18 })?; // cylinder 104, head 18
/// ```
#[derive(Clone, Copy)]
pub struct Extent {
    start: u16,
    count: u16,
    writable: bool,
}

impl Model for Extent {
    ghost use Rattle.cp_minidisk.specs.Extent.{ExtentValue, IsExtent};

    ghost Value = { ExtentValue };

    ghost view = { λ e. record { start = e.start; count = e.count; writable = e.writable } };

    ghost invariant = { λ e.
        IsExtent (record { start = e.start; count = e.count; writable = e.writable }) };

    ghost inverse = { λ v. record { start = v.start; count = v.count; writable = v.writable } };
}

impl Extent {
    /// Returns the extent of `count` cylinders from `start` on; None if it has none, or one past
    /// 807, the last that a volume can have.
    pub fn new(start: u16, count: u16, writable: bool) -> Option<Extent>
        ensures some { IsSome result ↔ IsExtent
            (record { start = start; count = count; writable = writable }) }
        ensures extent { IfSome result
            (λ e. e ≡ record { start = start; count = count; writable = writable }) }
    {
        if count == 0 || count > MOST_CYLINDERS || start > MOST_CYLINDERS - count {
            return None;
        }
        Some(Extent {
            start,
            count,
            writable,
        })
    }

    /// Returns the cylinder of the volume that is cylinder 0 of the minidisk.
    pub fn start(self) -> u16
        ensures start { result ≡ self.start }
        ensures inside { result + self.count ≤ 808 }
    {
        self.start
    }

    /// Returns how many cylinders the minidisk has.
    pub fn count(self) -> u16
        ensures count { result ≡ self.count }
        ensures some { 0 < result }
        ensures inside { self.start + result ≤ 808 }
    {
        self.count
    }

    /// Returns whether the minidisk may be written.
    pub fn is_writable(self) -> bool
        ensures { result ≡ self.writable }
    {
        self.writable
    }

    /// Returns whether a volume has all cylinders of the extent.
    pub fn fits(self, volume: &Volume) -> bool
        ensures { result ≡ nat_le (self.start + self.count) (length volume.now.cylinders) }
    {
        usize::from(self.start) + usize::from(self.count) <= volume.count()
    }

    /// Returns the place on the volume of a track of the minidisk; None if the minidisk has no such
    /// cylinder; the head is not checked.
    pub fn relocate(self, seek: Seek) -> Option<Seek>
        ensures place { result ≡ relocated self seek }
        ensures stays { IfSome result (λ place. IsWithin self place.cylinder) }
    {
        if seek.cylinder < usize::from(self.count) {
            let cylinder = usize::from(self.start) + seek.cylinder;
            return Some(Seek {
                cylinder,
                head: seek.head,
            });
        }
        None
    }

    /// Returns the argument that a seek of the minidisk has on the volume, or one that no disk
    /// accepts if the minidisk has no such cylinder.
    ///
    /// What becomes of such a seek is in docs/MACHINE.md, "Disks", code 07.
    pub fn relocate_argument(self, bytes: [u8; 6]) -> [u8; 6]
        ensures { result ≡ relocated_argument self bytes }
    {
        let cylinder = 256 * usize::from(bytes[2]) + usize::from(bytes[3]);
        match self.relocate(Seek { cylinder, head: 0 }) {
            Some(place) => [
                bytes[0],
                bytes[1],
                (place.cylinder / 256) as u8,
                (place.cylinder % 256) as u8,
                bytes[4],
                bytes[5],
            ],
            None => [0xFF, 0xFF, 0, 0, 0, 0],
        }
    }
}
