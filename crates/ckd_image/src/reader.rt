//! Images that are read: the volume of the bytes, or what is wrong with them.
ghost use Rattle.std.specs.Prelude.{◌≡◌, ◌<◌, ◌≤◌, ◌+◌, ◌*◌, ◌++◌, [], length, drop};
ghost use Rattle.std.specs.Prelude.{slice_index_or, OnOk, IfOk, IfErr, IfSome, IfNone};
ghost use Rattle.ckd_volume.specs.Front.{track_at};
ghost use Rattle.ckd_volume.specs.Volume.{blank_cylinders};
ghost use Rattle.ckd_image.specs.Faults.{CountsImage};
ghost use Rattle.ckd_image.specs.Image as writing;
ghost use Rattle.ckd_image.specs.Reading as image;
ghost use Rattle.ckd_image.specs.Reading.{IsReadingOrMemory, ReadsImage};
ghost use Rattle.ckd_image.specs.Parts as parts;

use crate::faults::ImageError;
use crate::header::{HEADER_LENGTH, Version, read_header};
use crate::writer::total_of;
use byteorder::{BigEndian, ByteOrder};
use ckd_track::{Record, Track};
use ckd_volume::{HEADS, Volume};
use s370_num::host::{HostFault, HostReader, read_all};
use std::alloc::Global;

/// Returns the record at the front of the bytes and the bytes after it, or `None` if they end
/// before it is whole.
fn read_record(bytes: &[u8]) -> Option<(Record<'_>, &[u8])>
    ensures some { IfSome result
        (λ found. parts.BeginsRecord bytes.now
        (parts.record_with found.0.id found.0.key.now found.0.content.now) found.1.now) }
    ensures none { IfNone result (parts.IsCutRecord bytes.now) }
{
    if bytes.len() < 8 {
        return None;
    }
    let key = usize::from(bytes[5]);
    let content = usize::from(BigEndian::read_u16(&bytes[6..8]));
    let end = 8 + key + content;
    if bytes.len() < end {
        return None;
    }
    let id = [bytes[0], bytes[1], bytes[2], bytes[3], bytes[4]];
    let record = Record {
        id,
        key: &bytes[8..8 + key],
        content: &bytes[8 + key..end],
    };
    Some((record, &bytes[end..]))
}

/// Appends `count` records to an empty track, as far as they fit, and returns whether all fit and
/// the bytes after them; `None` if the bytes end before that.
fn read_records<'a>(track: &mut Track, count: u8, bytes: &'a [u8]) -> Option<(bool, &'a [u8])>
    requires { track.old.records ≡ [] }
    ensures some { IfSome result
        (λ found. parts.ReadRecords track.old track.new count bytes.now found.0 found.1.now) }
    ensures none { IfNone result (parts.EndsInRecord count bytes.now) }
{
    let mut rest = bytes;
    let mut fits = true;
    for _ in 0..count {
        let (record, behind) = read_record(rest)?;
        fits = fits && track.push(record.id, record.key, record.content).is_ok();
        rest = behind;
    }
    Some((fits, rest))
}

/// What is wrong with a track.
#[derive(Clone, Copy, PartialEq, Eq)]
pub enum TrackFault {
    /// The bytes end before it is whole.
    Cut,
    /// It has more records than it has room for.
    Full,
}

/// Sets the home address of an empty track, appends its records, and returns the bytes after it, or
/// that bytes are missing or do not fit.
fn read_track<'a>(track: &mut Track, bytes: &'a [u8]) -> Result<&'a [u8], TrackFault>
    requires { track.old.records ≡ [] }
    ensures ok { IfOk result (λ rest. image.IsGood track.new
        × (bytes.now ≡ writing.track_bytes track.new ++ rest.now)) }
    ensures err { IfErr result (parts.IsTrackFault bytes.now) }
{
    if bytes.len() < 6 {
        return Err(TrackFault::Cut);
    }
    let home = [bytes[0], bytes[1], bytes[2], bytes[3], bytes[4]];
    track.set_home(home);
    match read_records(track, bytes[5], &bytes[6..]) {
        Some((true, rest)) => Ok(rest),
        Some((false, _)) => Err(TrackFault::Full),
        None => Err(TrackFault::Cut),
    }
}

/// Reads a track of a volume, which has no record yet, and returns the bytes after it, or that
/// bytes are missing or do not fit.
fn read_track_of<'a>(
    volume: &mut Volume,
    cylinder: usize,
    head: usize,
    bytes: &'a [u8],
) -> Result<&'a [u8], TrackFault>
    requires cylinder { cylinder < length volume.old.cylinders }
    requires head { head < 19 }
    requires blank { (track_at (slice_index_or volume.old.cylinders cylinder []) head).records
        ≡ [] }
    ensures ok { IfOk result
        (λ rest. parts.ReadTrack volume.old volume.new cylinder head bytes.now rest.now) }
    ensures err { IfErr result (parts.IsTrackFault bytes.now) }
{
    match volume.track_mut(cylinder, head) {
        Some(track) => read_track(track, bytes),
        None => unreachable!(),
    }
}

/// Reads all tracks of a volume, which have no records yet, and returns the bytes after them, or
/// the error of the first bad track.
fn read_tracks<'a>(volume: &mut Volume, bytes: &'a [u8]) -> Result<&'a [u8], ImageError>
    requires { volume.old.cylinders ≡ blank_cylinders 0 (length volume.old.cylinders) }
    ensures ok { IfOk result (λ rest.
        parts.ReadTracks volume.old volume.new (19 * length volume.old.cylinders) bytes.now
        rest.now) }
    ensures err { IfErr result (parts.IsTracksFault (length volume.old.cylinders) bytes.now) }
{
    let mut rest = bytes;
    for number in 0..HEADS * volume.count() {
        let cylinder = number / HEADS;
        let head = number % HEADS;
        rest = match read_track_of(volume, cylinder, head, rest) {
            Ok(behind) => behind,
            Err(TrackFault::Cut) => return Err(ImageError::Truncated),
            Err(TrackFault::Full) => {
                return Err(ImageError::BadTrack(cylinder as u16, head as u8));
            }
        };
    }
    Ok(rest)
}

/// Returns the bytes after a total of four bytes, or the error if these are missing or differ from
/// `total`.
fn check_total(total: u32, bytes: &[u8]) -> Result<&[u8], ImageError>
    ensures ok { IfOk result (λ rest. bytes.now ≡ writing.four_bytes total ++ rest.now) }
    ensures err { IfErr result (parts.IsTotalFault total bytes.now) }
{
    if bytes.len() < 4 {
        return Err(ImageError::Truncated);
    }
    if BigEndian::read_u32(bytes) != total {
        return Err(ImageError::BadTotal);
    }
    Ok(&bytes[4..])
}

/// Returns an error if what follows the tracks is wrong: in version 2 not the total of all records,
/// or any byte after that.
fn check_end(version: Version, total: u32, bytes: &[u8]) -> Result<(), ImageError>
    ensures ok { OnOk result (bytes.now ≡ image.end_of version total) }
    ensures err { IfErr result (parts.IsEndFault version total bytes.now) }
{
    let rest = match version {
        Version::One => bytes,
        Version::Two => check_total(total, bytes)?,
    };
    if !rest.is_empty() {
        return Err(ImageError::Trailing);
    }
    Ok(())
}

/// Returns a new volume of which these bytes are an image of version 1 or 2, or the error of their
/// first fault.
///
/// Memory is taken, and can be refused, only if their header is good.
///
/// # Errors
///
/// An `ImageError`: the first fault of the bytes, or refused memory.
pub fn volume_of(alloc: Global, bytes: &[u8]) -> Result<Volume, ImageError>
    ensures { IsReadingOrMemory bytes.now result }
{
    let header = read_header(bytes)?;
    let mut volume = match Volume::blank(alloc, header.volser, header.cylinders) {
        Ok(volume) => volume,
        Err(_) => return Err(ImageError::Memory),
    };
    let rest = read_tracks(&mut volume, &bytes[HEADER_LENGTH..])?;
    check_end(header.version, total_of(&volume), rest)?;
    Ok(volume)
}

/// Reads a file to its end and returns a new volume of which it is an image of version 1 or 2, or
/// the error of its first fault.
///
/// # Errors
///
/// `Device` if the file fails, `Memory` if a growth is refused, else what is wrong with the bytes.
///
/// # Examples
///
/// ```
/// use ckd_image::{read_image, write_image};
/// use ckd_volume::Volume;
/// use s370_num::host::Bytes;
///
/// let mut file = Vec::new(alloc);
/// write_image(alloc, &Volume::blank(alloc, *b"WORK01", 2)?, &mut file)?;
/// let read = read_image(alloc, &mut Bytes::new(&file))?;
/// assert_eq!(rt; read.volser(), *b"WORK01");
/// ```
pub fn read_image<R: HostReader>(alloc: Global, reader: &mut R) -> Result<Volume, ImageError>
    ensures reads { ReadsImage (R.remaining reader.old) (R.remaining reader.new) result }
    ensures counts { CountsImage (R.HostFile.failures reader.old) (R.HostFile.failures reader.new)
        result }
{
    match read_all(alloc, reader) {
        Ok(bytes) => volume_of(alloc, &bytes),
        Err(HostFault::Memory) => Err(ImageError::Memory),
        Err(HostFault::Device(number)) => Err(ImageError::Device(number)),
    }
}
