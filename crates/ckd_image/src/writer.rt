//! The image of a volume.
ghost use Rattle.std.specs.Prelude.{◌≡◌, ◌<◌, ◌≤◌, ◌+◌, ◌*◌, ◌++◌, ◌∷◌, [], length, OnOk, OnErr};
ghost use Rattle.std.specs.Prelude.{IfOk};
ghost use Rattle.std.specs.Io.KnownBytes.{Appends};
ghost use Rattle.s370_num.specs.Host.{AppendsFront, Counts};
ghost use Rattle.ckd_image.specs.Faults.{CountsWriting};
ghost use Rattle.ckd_track.specs.Track.{record_in};
ghost use Rattle.ckd_image.specs.Image.{record_bytes, track_bytes, tracks_bytes, tracks_total};
ghost use Rattle.ckd_image.specs.Image.{cylinders_bytes, cylinders_total, image_of};

use crate::faults::ImageError;
use ckd_track::Track;
use ckd_volume::{Cylinder, Volume};
use s370_num::host::{HostFault, HostWriter, write_all};
use std::alloc::{AllocError, Global};

/// Appends a record to `out`: its count, its key and its data.
#[tactic(auto, using(crate::proofs::Parts::append_four))]
fn put_record(out: &mut Vec<u8>, track: &Track, i: usize) -> Result<(), AllocError>
    requires { i < length track.now.records }
    ensures { OnOk result (out.new.items ≡ out.old.items ++ record_bytes (record_in track.now i)) }
{
    let record = track.record(i);
    let id = record.id;
    let content = record.content.len();
    let lengths = [
        record.key.len() as u8,
        (content / 256) as u8,
        (content % 256) as u8,
    ];
    out.extend_from_slice(&id)?;
    out.extend_from_slice(&lengths)?;
    out.extend_from_slice(record.key)?;
    out.extend_from_slice(record.content)?;
    Ok(())
}

/// Appends a track to `out`: its home address, the number of its records, and each of them.
#[tactic(auto, using(crate::proofs::Parts::records_on, crate::proofs::Parts::append_two))]
fn put_track(out: &mut Vec<u8>, track: &Track) -> Result<(), AllocError>
    ensures { OnOk result (out.new.items ≡ out.old.items ++ track_bytes track.now) }
{
    let home = track.home();
    let count = [track.len() as u8];
    out.extend_from_slice(&home)?;
    out.extend_from_slice(&count)?;
    for i in 0..track.len() {
        put_record(out, track, i)?;
    }
    Ok(())
}

/// Appends all tracks of a cylinder to `out`.
#[tactic(auto, using(crate::proofs::Parts::tracks_on))]
fn put_cylinder(out: &mut Vec<u8>, cylinder: &Cylinder) -> Result<(), AllocError>
    ensures { OnOk result (out.new.items ≡ out.old.items ++ tracks_bytes cylinder.now) }
{
    for head in 0..cylinder.heads() {
        put_track(out, cylinder.track(head))?;
    }
    Ok(())
}

/// Appends all cylinders of a volume to `out`, with their tracks.
#[tactic(auto, using(crate::proofs::Parts::cylinders_on))]
fn put_cylinders(out: &mut Vec<u8>, volume: &Volume) -> Result<(), AllocError>
    ensures { OnOk result (out.new.items ≡ out.old.items ++ cylinders_bytes volume.now.cylinders) }
{
    for number in 0..volume.count() {
        put_cylinder(out, volume.cylinder(number))?;
    }
    Ok(())
}

/// Returns how many records the tracks of a cylinder have together.
#[tactic(auto, using(crate::proofs::Parts::tracks_total_on))]
fn records_of(cylinder: &Cylinder) -> u32
    ensures total { result ≡ tracks_total cylinder.now }
    ensures few { result ≤ 1843 }
{
    let mut total = 0;
    for head in 0..cylinder.heads() {
        total += cylinder.track(head).len() as u32;
    }
    total
}

/// Returns how many records the tracks of a volume have together.
#[tactic(auto, using(crate::proofs::Parts::cylinders_total_on))]
pub fn total_of(volume: &Volume) -> u32
    ensures { result ≡ cylinders_total volume.now.cylinders }
{
    let mut total = 0;
    for number in 0..volume.count() {
        total += records_of(volume.cylinder(number));
    }
    total
}

/// Returns the image of a volume, of version 2, in a new vector.
///
/// # Errors
///
/// `AllocError` if memory is refused.
#[tactic(auto, using(crate::proofs::Parts::image_parts))]
pub fn image(alloc: Global, volume: &Volume) -> Result<Vec<u8>, AllocError>
    ensures { IfOk result (λ made. made.items ≡ image_of volume.now) }
{
    let mut out = Vec::new(alloc);
    let volser = volume.volser();
    let count = volume.count();
    let total = total_of(volume);
    out.extend_from_slice(b"CKD2")?;
    out.extend_from_slice(&volser)?;
    out.extend_from_slice(&[(count / 256) as u8, (count % 256) as u8])?;
    put_cylinders(&mut out, volume)?;
    let bytes = [
        (total / 0x100_0000) as u8,
        (total / 0x1_0000 % 256) as u8,
        (total / 256 % 256) as u8,
        (total % 256) as u8,
    ];
    out.extend_from_slice(&bytes)?;
    Ok(out)
}

/// Appends the image of a volume to a file and flushes it; if that fails, the file may have a front
/// part of the image.
///
/// # Errors
///
/// An `ImageError`: a failure of the file, or refused memory. The file may have a beginning of the
/// image.
#[tactic(auto, using(crate::proofs::Parts::nothing_appended))]
pub fn write_image<W: HostWriter>(
    alloc: Global,
    volume: &Volume,
    writer: &mut W,
) -> Result<(), ImageError>
    ensures ok { OnOk result
        (Appends (W.contents writer.old) (W.contents writer.new) (image_of volume.now)) }
    ensures flushed { OnOk result (W.held writer.new ≡ []) }
    ensures err { OnErr result
        (AppendsFront (W.contents writer.old) (W.contents writer.new) (image_of volume.now)) }
    ensures counts { CountsWriting (W.HostFile.failures writer.old) (W.HostFile.failures writer.new)
        result }
{
    let Ok(bytes) = image(alloc, volume) else {
        return Err(ImageError::Memory);
    };
    match write_and_flush(writer, &bytes) {
        Ok(()) => Ok(()),
        Err(HostFault::Memory) => Err(ImageError::Memory),
        Err(HostFault::Device(number)) => Err(ImageError::Device(number)),
    }
}

/// Appends all the bytes to a file and flushes it; if that fails, the file may have a front part of
/// them.
#[tactic(auto, using(crate::proofs::Parts::appended_kept, crate::proofs::Parts::whole_front))]
fn write_and_flush<W: HostWriter>(writer: &mut W, bytes: &[u8]) -> Result<(), HostFault>
    ensures ok { OnOk result (Appends (W.contents writer.old) (W.contents writer.new) bytes.now) }
    ensures flushed { OnOk result (W.held writer.new ≡ []) }
    ensures err { OnErr result
        (AppendsFront (W.contents writer.old) (W.contents writer.new) bytes.now) }
    ensures counts { Counts (W.HostFile.failures writer.old) (W.HostFile.failures writer.new)
        result }
{
    write_all(writer, bytes)?;
    writer.flush()?;
    Ok(())
}
