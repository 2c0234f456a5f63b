//! The disks of users: parts of volumes for bare machines, and whether a minidisk and a part are
//! the same.
ghost use Rattle.std.specs.Prelude.{◌≡◌};

use crate::machines::same;
use crate::view::{SideError, View};
use ckd_track::Track;
use ckd_volume::{Arm, Cylinder, HEADS, Sense, Unit, Volume};
use cp_core::SeenDisk;
use cp_directory::{DiskExtent, User};
use machine_channels::AttachedDisk;
use std::alloc::Global;

/// Returns the arm of a disk that no program has used: it is over cylinder 0, and may write if the
/// extent may be written.
fn first_track(extent: &DiskExtent) -> Arm
    ensures cylinder { result.cylinder ≡ 0 }
    ensures home { result.home ≡ 0 }
    ensures head { result.head ≡ 0 }
{
    Arm {
        cylinder: 0,
        head: 0,
        home: 0,
        writable: !extent.mode().is_read_only(),
        sense: Sense {
            first: 0,
            second: 0,
        },
    }
}

/// Returns a new volume with the cylinders of an extent, copied from the first of these volumes
/// with its serial number; an error if there is none or it is too short.
fn part_of(alloc: Global, extent: &DiskExtent, volumes: &[Volume]) -> Result<Volume, SideError> {
    let serial = extent.volser().padded();
    let Some(volume) = volumes.iter().find(|volume| volume.volser() == serial) else {
        return Err(SideError::NotBooted);
    };
    let (start, count) = (usize::from(extent.start()), usize::from(extent.count()));
    if volume.count() < start + count {
        return Err(SideError::NotBooted);
    }
    Ok(volume.slice(alloc, start, count)?)
}

/// Returns the disks of a user's bare machine: for each of his minidisks one with a copy of its
/// cylinders.
pub(crate) fn disks_of(
    alloc: Global,
    user: &User,
    volumes: &[Volume],
) -> Result<Vec<AttachedDisk>, SideError> {
    let mut disks = Vec::new(alloc);
    for minidisk in user.minidisks() {
        let part = part_of(alloc, &minidisk.extent, volumes)?;
        let unit = Unit::new(alloc, part, first_track(&minidisk.extent))?;
        disks.push(AttachedDisk::new(minidisk.address, unit))?;
    }
    Ok(disks)
}

/// Returns whether two tracks have the same home address and the same records.
fn is_same_track(one: &Track, other: &Track) -> bool {
    if one.home() != other.home() || one.len() != other.len() {
        return false;
    }
    for i in 0..one.len() {
        if i >= other.len() {
            return false;
        }
        let (one, other) = (one.record(i), other.record(i));
        if one.id != other.id || one.key != other.key || one.content != other.content {
            return false;
        }
    }
    true
}

/// Returns whether two cylinders have the same tracks.
fn is_same_cylinder(one: &Cylinder, other: &Cylinder) -> bool {
    for head in 0..HEADS {
        if !is_same_track(one.track(head), other.track(head)) {
            return false;
        }
    }
    true
}

/// Returns whether the cylinders of a volume from `start` on are the same as all those of `part`.
fn has_part(volume: &Volume, start: usize, part: &Volume) -> bool {
    for number in 0..part.count() {
        let place = start.saturating_add(number);
        if place >= volume.count() {
            return false;
        }
        if !is_same_cylinder(volume.cylinder(place), part.cylinder(number)) {
            return false;
        }
    }
    true
}

/// Returns whether a minidisk has the same cylinders as the disk of a bare machine.
fn has_tracks(seen: &SeenDisk<'_>, part: &Volume) -> bool {
    let extent = seen.extent();
    match seen.volume() {
        Some(volume) => {
            usize::from(extent.count()) == part.count()
                && has_part(volume, usize::from(extent.start()), part)
        }
        None => false,
    }
}

/// Compares a minidisk with the disk of a bare machine, arm and sense first, then each track; the
/// error is the view that differs.
pub(crate) fn compare_disk(seen: &SeenDisk<'_>, unit: &Unit) -> Result<(), SideError> {
    let is_same_arm = seen.arm() == unit.arm();
    let is_same_content = has_tracks(seen, unit.volume());
    same(is_same_arm, View::Arm)?;
    same(is_same_content, View::Tracks)
}
