//! Volumes of bytes. What comes may be anything.
ghost use Rattle.std.specs.Prelude.{◌≡◌, length};

use ckd_track::{Track, TrackFull};
use ckd_volume::{HEADS, Volume, VolumeError};
use saved_bytes::{Input, RestoreError};
use std::alloc::Global;

/// Reads a string of five bytes from the input.
///
/// # Errors
///
/// `Malformed` if it has another length.
fn five_of(input: &mut Input<'_>) -> Result<[u8; 5], RestoreError> {
    let bytes = input.bytes()?;
    let mut five = [0u8; 5];
    if bytes.len() != five.len() {
        return Err(RestoreError::Malformed);
    }
    five.copy_from_slice(bytes);
    Ok(five)
}

/// Reads a serial number of six bytes from the input.
///
/// # Errors
///
/// `Malformed` if it has another length.
fn volser_of(input: &mut Input<'_>) -> Result<[u8; 6], RestoreError> {
    let bytes = input.bytes()?;
    let mut volser = [0u8; 6];
    if bytes.len() != volser.len() {
        return Err(RestoreError::Malformed);
    }
    volser.copy_from_slice(bytes);
    Ok(volser)
}

/// Reads a record from the input and appends it to a track.
///
/// # Errors
///
/// `Malformed` if it is none, or does not fit.
fn take_record(track: &mut Track, input: &mut Input<'_>) -> Result<(), RestoreError> {
    let id = five_of(input)?;
    let key = input.bytes()?;
    let content = input.bytes()?;
    match track.push(id, key, content) {
        Ok(()) => Ok(()),
        Err(TrackFull) => Err(RestoreError::Malformed),
    }
}

/// Reads a home address and records from the input into a track that has no record.
///
/// # Errors
///
/// `Malformed` if they are none, or do not fit.
fn take_track(track: &mut Track, input: &mut Input<'_>) -> Result<(), RestoreError> {
    track.set_home(five_of(input)?);
    for _ in 0..u64::MAX {
        if !input.flag()? {
            break;
        }
        take_record(track, input)?;
    }
    Ok(())
}

/// Reads the tracks of a cylinder from the input into one without records.
///
/// # Errors
///
/// `Malformed` if they are none, or do not fit.
fn take_cylinder(
    volume: &mut Volume,
    cylinder: usize,
    input: &mut Input<'_>,
) -> Result<(), RestoreError> {
    for head in 0..HEADS {
        if !input.flag()? {
            return Err(RestoreError::Malformed);
        }
        match volume.track_mut(cylinder, head) {
            Some(track) => take_track(track, input)?,
            None => return Err(RestoreError::Malformed),
        }
    }
    if input.flag()? {
        Err(RestoreError::Malformed)
    } else {
        Ok(())
    }
}

/// Returns a volume without records.
///
/// # Errors
///
/// `Malformed` if no volume has so many cylinders, `Memory` if memory is refused.
fn blank_volume(alloc: Global, volser: [u8; 6], count: u16) -> Result<Volume, RestoreError> {
    match Volume::blank(alloc, volser, count) {
        Ok(volume) => Ok(volume),
        Err(VolumeError::Cylinders) => Err(RestoreError::Malformed),
        Err(VolumeError::Memory) => Err(RestoreError::Memory),
    }
}

/// Reads a volume from the input.
///
/// # Errors
///
/// `Malformed` if it is none, `Memory` if memory is refused.
pub fn volume_of(alloc: Global, input: &mut Input<'_>) -> Result<Volume, RestoreError> {
    let volser = volser_of(input)?;
    let count = input.next_u16()?;
    let mut volume = blank_volume(alloc, volser, count)?;
    for cylinder in 0..usize::from(count) {
        if !input.flag()? {
            return Err(RestoreError::Malformed);
        }
        take_cylinder(&mut volume, cylinder, input)?;
    }
    if input.flag()? {
        Err(RestoreError::Malformed)
    } else {
        Ok(volume)
    }
}
