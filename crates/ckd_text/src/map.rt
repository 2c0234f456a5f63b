//! What a volume has, as a text for people.
ghost use Rattle.std.specs.Prelude.{◌≡◌, ◌<◌, ◌≤◌, ◌+◌, ◌*◌, ◌++◌, [], length, slice_index_or};
ghost use Rattle.std.specs.Prelude.{string_bytes, IfOk, OnOk};
ghost use Rattle.ckd_track.specs.Track.{cost, cost_of, record_in};
ghost use Rattle.ckd_volume.specs.Volume.{home_of};
ghost use Rattle.ckd_text.specs.Map as map;

use ckd_track::Track;
use ckd_volume::{Cylinder, Volume};
use std::alloc::{AllocError, Global};
use text_words::words::cut_word;

/// Returns the map of a volume in a new vector: its name, each track that is not blank with its
/// records, and the number of blank tracks.
///
/// docs/FORMATS.md, "Track maps".
///
/// # Errors
///
/// `AllocError` if memory is refused.
#[tactic(auto, using(crate::proofs::Maps::append_three))]
pub fn track_map(alloc: Global, volume: &Volume) -> Result<Vec<u8>, AllocError>
    ensures { IfOk result (λ made. made.items ≡ map.map_of volume.now) }
{
    let mut out = Vec::new(alloc);
    put_name(alloc, &mut out, volume)?;
    put_tracks(alloc, &mut out, volume)?;
    let blank = blank_line(alloc, volume)?;
    out.extend_from_slice(blank.as_bytes())?;
    Ok(out)
}

/// Returns the line with the number of blank tracks of a volume.
fn blank_line(alloc: Global, volume: &Volume) -> Result<String, AllocError>
    ensures { IfOk result (λ line. string_bytes line
        ≡ map.blank_line (map.blank_count 0 volume.now.cylinders)) }
{
    let count = blank_count(volume);
    format!(in alloc; "BLANK TRACKS {count}\n")
}

/// Appends to `out` the line with the volume's serial number and its number of cylinders.
#[tactic(auto, using(crate::proofs::Maps::append_three))]
fn put_name(alloc: Global, out: &mut Vec<u8>, volume: &Volume) -> Result<(), AllocError>
    ensures { OnOk result (out.new.items ≡ out.old.items ++ map.volume_line volume.now) }
{
    let serial = volume.volser();
    let (serial, _blanks) = cut_word(&serial);
    let cylinders = cylinders_text(alloc, volume)?;
    out.extend_from_slice(b"VOLUME ")?;
    out.extend_from_slice(serial)?;
    out.extend_from_slice(cylinders.as_bytes())?;
    Ok(())
}

/// Returns the rest of the volume's line, with its number of cylinders and a line end.
fn cylinders_text(alloc: Global, volume: &Volume) -> Result<String, AllocError>
    ensures { IfOk result (λ text. string_bytes text ≡ map.cylinders_text volume.now) }
{
    let count = volume.count();
    format!(in alloc; " CYLINDERS {count}\n")
}

/// Appends to `out` the lines of all tracks of a volume that are not blank.
#[tactic(auto, using(crate::proofs::Maps::cylinders_on))]
fn put_tracks(alloc: Global, out: &mut Vec<u8>, volume: &Volume) -> Result<(), AllocError>
    ensures { OnOk result (out.new.items ≡ out.old.items
        ++ map.volume_lines 0 volume.now.cylinders) }
{
    for number in 0..volume.count() {
        put_cylinder(alloc, out, number, volume.cylinder(number))?;
    }
    Ok(())
}

/// Appends to `out` the lines of all tracks of a cylinder that are not blank.
#[tactic(auto, using(crate::proofs::Maps::tracks_on))]
fn put_cylinder(
    alloc: Global,
    out: &mut Vec<u8>,
    number: usize,
    cylinder: &Cylinder,
) -> Result<(), AllocError>
    requires { number < 808 }
    ensures { OnOk result (out.new.items ≡ out.old.items
        ++ map.cylinder_lines number 0 cylinder.now) }
{
    for head in 0..cylinder.heads() {
        put_track(alloc, out, number, head, cylinder.track(head))?;
    }
    Ok(())
}

/// Appends to `out` the line of a track and those of its records, or nothing if the track is blank.
fn put_track(
    alloc: Global,
    out: &mut Vec<u8>,
    cylinder: usize,
    head: usize,
    track: &Track,
) -> Result<(), AllocError>
    requires cylinder { cylinder < 808 }
    requires head { head < 19 }
    ensures { OnOk result (out.new.items ≡ out.old.items
        ++ map.track_lines cylinder head track.now) }
{
    if is_blank(cylinder, head, track) {
        return Ok(());
    }
    let line = track_line(alloc, cylinder, head, track)?;
    out.extend_from_slice(line.as_bytes())?;
    put_records(alloc, out, track)
}

/// Appends to `out` a line for each record of a track.
#[tactic(auto, using(crate::proofs::Maps::records_on))]
fn put_records(alloc: Global, out: &mut Vec<u8>, track: &Track) -> Result<(), AllocError>
    ensures { OnOk result (out.new.items ≡ out.old.items ++ map.record_lines track.now.records) }
{
    for i in 0..track.len() {
        let line = record_line(alloc, track, i)?;
        out.extend_from_slice(line.as_bytes())?;
    }
    Ok(())
}

/// Returns the line of a track: cylinder, head, home address, number of records and capacity used.
fn track_line(
    alloc: Global,
    cylinder: usize,
    head: usize,
    track: &Track,
) -> Result<String, AllocError>
    ensures { IfOk result (λ line. string_bytes line ≡ map.track_line cylinder head track.now) }
{
    let home = hex::encode_upper(alloc, track.home())?;
    let records = track.len();
    let fill = fill_of(track);
    format!(in alloc;
        "TRACK {cylinder} {head} HOME {home} RECORDS {records} FILL {fill} OF 13165\n"
    )
}

/// Returns the line of record `i` of a track: its id, lengths of key and data, and capacity used.
fn record_line(alloc: Global, track: &Track, i: usize) -> Result<String, AllocError>
    requires { i < length track.now.records }
    ensures { IfOk result (λ line. string_bytes line ≡ map.record_line (record_in track.now i)) }
{
    let record = track.record(i);
    let id = hex::encode_upper(alloc, record.id)?;
    let key = record.key.len();
    let content = record.content.len();
    let cost = record_cost(track, i);
    format!(in alloc; "  {id} KEY {key} DATA {content} COST {cost}\n")
}

/// Returns how many bytes of its track's capacity record `i` takes.
fn record_cost(track: &Track, i: usize) -> usize
    requires { i < length track.now.records }
    ensures cost { result ≡ cost_of (record_in track.now i) }
    ensures small { result ≤ 13221 }
{
    let record = track.record(i);
    if record.key.is_empty() {
        135 + record.content.len()
    } else {
        191 + record.key.len() + record.content.len()
    }
}

/// Returns how many bytes of a track's capacity all its records take.
#[tactic(auto, using(crate::proofs::Maps::cost_on))]
fn fill_of(track: &Track) -> usize
    ensures { result ≡ cost track.now.records }
{
    let mut fill = 0;
    for i in 0..track.len() {
        fill += record_cost(track, i);
    }
    fill
}

/// Returns whether a track has no record and the usual home address of its cylinder and head.
fn is_blank(cylinder: usize, head: usize, track: &Track) -> bool
    requires cylinder { cylinder < 808 }
    requires head { head < 19 }
    ensures { result ≡ map.is_blank cylinder head track.now }
{
    track.len() == 0 && track.home() == own_home(cylinder, head)
}

/// Returns the usual home address of a track: flag 00, cylinder and head.
fn own_home(cylinder: usize, head: usize) -> [u8; 5]
    requires cylinder { cylinder < 808 }
    requires head { head < 19 }
    ensures { result ≡ home_of cylinder head }
{
    [
        0,
        (cylinder / 256) as u8,
        (cylinder % 256) as u8,
        0,
        head as u8,
    ]
}

/// Returns how many tracks of a volume are blank.
#[tactic(auto, using(crate::proofs::Maps::count_on))]
fn blank_count(volume: &Volume) -> usize
    ensures { result ≡ map.blank_count 0 volume.now.cylinders }
{
    let mut count = 0;
    for number in 0..volume.count() {
        count += blank_heads(number, volume.cylinder(number));
    }
    count
}

/// Returns how many tracks of a cylinder are blank.
#[tactic(auto, using(crate::proofs::Maps::heads_on))]
fn blank_heads(number: usize, cylinder: &Cylinder) -> usize
    requires { number < 808 }
    ensures count { result ≡ map.blank_heads number 0 cylinder.now }
    ensures few { result ≤ 19 }
{
    let mut count = 0;
    for head in 0..cylinder.heads() {
        if is_blank(number, head, cylinder.track(head)) {
            count += 1;
        }
    }
    count
}
