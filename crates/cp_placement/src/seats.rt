//! The minidisks of users, each at its place on its volume.
ghost use Rattle.std.specs.Prelude.{◌≡◌, ◌<◌, false, true, IfOk};
ghost use Rattle.std.specs.List.{list_any, position};
ghost use Rattle.cp_directory.specs.Extents.{is_volser};
ghost use Rattle.cp_placement.specs.Seating.{AreLawful, IsLawful, extent_in, has_volser};
ghost use Rattle.cp_placement.specs.Seating.{lacks_volume, seat_of, seats_of};

use ckd_volume::Volume;
use cp_directory::{DiskExtent, MinidiskStatement, Volser};
use cp_minidisk::Extent;
use cp_volumes::SharedDisk;
use std::alloc::{AllocError, Global};

/// Returns a new list of a user's minidisks on these volumes, in their order, as no program has
/// used them.
///
/// No cylinder is copied.
///
/// # Errors
///
/// `AllocError` if memory is refused.
pub fn seats_of(
    alloc: Global,
    volumes: &[Volume],
    minidisks: &[MinidiskStatement],
) -> Result<Vec<SharedDisk>, AllocError>
    requires there { list_any (lacks_volume volumes.now) minidisks.now ≡ false }
    ensures seats { IfOk result (λ seats. seats.items ≡ seats_of volumes.now minidisks.now) }
    ensures lawful { IfOk result (λ seats. AreLawful minidisks.now) }
{
    let mut seats = Vec::with_capacity(alloc, minidisks.len())?;
    for minidisk in minidisks {
        seats.push(seat_of(volumes, minidisk))?;
    }
    Ok(seats)
}

/// Returns a minidisk on its volume, which has to be among these, as no program has used it.
#[tactic(auto, using(crate::proofs::Found::unplaced, crate::proofs::Found::placed))]
fn seat_of(volumes: &[Volume], minidisk: &MinidiskStatement) -> SharedDisk
    requires { lacks_volume volumes.now minidisk.now ≡ false }
    ensures seat { result ≡ seat_of volumes.now minidisk.now }
    ensures lawful { IsLawful minidisk.now }
{
    let extent = extent_in(&minidisk.extent);
    match place_of(volumes, volser_of(&minidisk.extent)) {
        Some(volume) => SharedDisk::new(minidisk.address, volume, extent),
        None => unreachable!(),
    }
}

/// Returns the index of the first of these volumes that has this serial number, if there is one.
fn place_of(volumes: &[Volume], volser: Volser) -> Option<usize>
    ensures { result ≡ position (has_volser volser) volumes.now }
{
    volumes
        .iter()
        .position(|volume| volume.volser() == volser.padded())
}

/// Returns the serial number of the volume that an extent is on.
fn volser_of(extent: &DiskExtent) -> Volser
    ensures value { result ≡ extent.now.volser }
    ensures lawful { is_volser result ≡ true }
{
    let volser = extent.volser();
    // Of which characters each serial number is made is seen here.
    let _ = volser.as_bytes();
    volser
}

/// Returns the extent of a directory as the extent of a minidisk.
fn extent_in(extent: &DiskExtent) -> Extent
    ensures value { result ≡ extent_in extent.now }
    ensures some { 0 < extent.now.count }
{
    let writable = !extent.mode().is_read_only();
    match Extent::new(extent.start(), extent.count(), writable) {
        Some(extent) => extent,
        None => unreachable!(),
    }
}
