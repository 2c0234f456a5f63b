//! Volumes as bytes.
ghost use Rattle.std.specs.Prelude.{◌≡◌, ◌++◌, OnOk};
ghost use Rattle.saved_bytes.specs.Codes.{each};
ghost use Rattle.ckd_saved.specs.Saved.{IsOneBySaved, cylinder_bytes, record_bytes, track_bytes};
ghost use Rattle.ckd_saved.specs.Saved.{volume_bytes};

use ckd_track::Track;
use ckd_volume::{Cylinder, Volume};
use saved_bytes::{put_bytes, put_number, put_one, put_zero};
use std::alloc::AllocError;

/// Appends the id, the key and the data of a record, each with its length.
fn put_record(out: &mut Vec<u8>, id: &[u8], key: &[u8], content: &[u8]) -> Result<(), AllocError>
    ensures { OnOk result (out.new.items ≡ out.old.items
        ++ record_bytes (record { id = id.now; key = key.now; content = content.now })) }
{
    put_bytes(out, id)?;
    put_bytes(out, key)?;
    put_bytes(out, content)
}

/// Appends the records of a track to `out`, in order, each after a byte of 1, and then a byte of 0.
fn put_records(out: &mut Vec<u8>, track: &Track) -> Result<(), AllocError>
    ensures { OnOk result (out.new.items ≡ out.old.items ++ each record_bytes track.now.records) }
{
    for index in 0..track.len() {
        put_one(out)?;
        let record = track.record(index);
        put_record(out, &record.id, record.key, record.content)?;
    }
    put_zero(out)
}

/// Appends the home address and the records of a track.
fn put_track(out: &mut Vec<u8>, track: &Track) -> Result<(), AllocError>
    ensures { OnOk result (out.new.items ≡ out.old.items ++ track_bytes track.now) }
{
    put_bytes(out, &track.home())?;
    put_records(out, track)
}

/// Appends the tracks of a cylinder to `out`, in order, each after a byte of 1, and then a byte of
/// 0.
fn put_cylinder(out: &mut Vec<u8>, cylinder: &Cylinder) -> Result<(), AllocError>
    ensures { OnOk result (out.new.items ≡ out.old.items ++ cylinder_bytes cylinder.now) }
{
    for head in 0..cylinder.heads() {
        put_one(out)?;
        put_track(out, cylinder.track(head))?;
    }
    put_zero(out)
}

/// Appends the cylinders of a volume to `out`, in order, each after a byte of 1, and then a byte of
/// 0.
fn put_cylinders(out: &mut Vec<u8>, volume: &Volume) -> Result<(), AllocError>
    ensures { OnOk result (out.new.items ≡ out.old.items
        ++ each cylinder_bytes volume.now.cylinders) }
{
    for index in 0..volume.count() {
        put_one(out)?;
        put_cylinder(out, volume.cylinder(index))?;
    }
    put_zero(out)
}

/// Appends the serial number, the number of cylinders and the cylinders of a volume, from which it
/// can be restored.
///
/// # Errors
///
/// `AllocError` if memory is refused; `out` may have a part of it then.
pub fn put_volume(out: &mut Vec<u8>, volume: &Volume) -> Result<(), AllocError>
    ensures { OnOk result (out.new.items ≡ out.old.items ++ volume_bytes volume.now) }
{
    put_bytes(out, &volume.volser())?;
    put_number(out, volume.count() as u64)?;
    put_cylinders(out, volume)
}

/// States that no two volumes are saved as the same bytes.
pub fn one_by_saved()
    ensures { IsOneBySaved }
{}
