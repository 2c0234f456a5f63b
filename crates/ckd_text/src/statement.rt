//! What a line of a volume text states.
ghost use Rattle.std.specs.Prelude.{◌≡◌, IfOk, IsSomeAnd, OnErr, codes, true};
ghost use Rattle.std.specs.Option.{option_map};
ghost use Rattle.std.specs.Str.{bytes_eq};
ghost use Rattle.ckd_text.specs.Stated.{blank_of, placed, record_in, stated};
ghost use Rattle.ckd_text.specs.Text.{add_by, first_of, home_by, placed_of, record_of, stated_by};
ghost use Rattle.ckd_text.specs.Text.{LineTakesMemory, RecordTakesMemory, stated_of, volume_by};

use crate::fields::{bytes_of, five_of, serial_of};
use ckd_volume::MOST_CYLINDERS;
use std::alloc::{AllocError, Global};
use text_words::numbers::decimal_of;
use text_words::words::cut_word;

/// The most decimal digits of a number.
const DIGITS: usize = 7;

/// What the first line states: a volume without records.
#[derive(Clone, Copy)]
pub struct StatedVolume {
    /// The serial number, with blanks after it.
    pub serial: [u8; 6],
    /// How many cylinders, 1 to 808.
    pub cylinders: u16,
}

/// A cylinder and a head, and the words that follow them.
#[derive(Clone, Copy)]
pub struct TrackOperands<'a> {
    pub cylinder: u32,
    pub head: u32,
    pub rest: &'a [u8],
}

/// A record as a line states it.
#[derive(Drop)]
pub struct StatedRecord {
    pub id: [u8; 5],
    pub key: Vec<u8>,
    pub content: Vec<u8>,
}

/// What a line after the first states of the track under this head of this cylinder.
#[derive(Drop)]
pub enum VolumeStatement {
    /// Its home address.
    Home(u32, u32, [u8; 5]),
    /// A record after those that it has.
    Add(u32, u32, StatedRecord),
}

/// Returns the serial number and cylinders that the first line of a text states, or `None` if it is
/// bad.
pub fn read_header(line: &[u8]) -> Option<StatedVolume>
    ensures { option_map blank_of result ≡ first_of line.now }
{
    let (verb, operands) = cut_word(line);
    if verb == b"VOLUME".as_slice() {
        read_volume(operands?)
    } else {
        None
    }
}

/// Returns the serial number and cylinders in the operands of a `VOLUME` line, or `None` if they
/// are bad.
fn read_volume(operands: &[u8]) -> Option<StatedVolume>
    ensures { option_map blank_of result ≡ volume_by operands.now }
{
    let (serial, digits) = cut_word(operands);
    let serial = serial_of(serial)?;
    let cylinders = decimal_of(DIGITS, digits?)?;
    if 1 <= cylinders && cylinders <= u32::from(MOST_CYLINDERS) {
        Some(StatedVolume {
            serial,
            cylinders: cylinders as u16,
        })
    } else {
        None
    }
}

/// Returns what a line after the first states, a home address or a record of a track, or `None` if
/// it is bad.
///
/// # Errors
///
/// `AllocError` if memory is refused.
pub fn read_statement(alloc: Global, line: &[u8]) -> Result<Option<VolumeStatement>, AllocError>
    ensures ok { IfOk result (λ found. option_map stated found ≡ stated_of line.now) }
    ensures memory { OnErr result (LineTakesMemory line.now) }
{
    let (verb, operands) = cut_word(line);
    match operands {
        Some(operands) => read_operands(alloc, verb, operands),
        None => Ok(None),
    }
}

/// Returns what a line with this first word and these operands states, or `None` if it is bad.
fn read_operands(
    alloc: Global,
    verb: &[u8],
    operands: &[u8],
) -> Result<Option<VolumeStatement>, AllocError>
    ensures ok { IfOk result (λ found. option_map stated found ≡ stated_by verb.now operands.now) }
    ensures memory { OnErr result ((bytes_eq verb.now (codes "REC") ≡ true)
        × IsSomeAnd (placed_of operands.now) (λ at. RecordTakesMemory at.rest)) }
{
    let Some(place) = read_place(operands) else {
        return Ok(None);
    };
    if verb == b"HOME".as_slice() {
        Ok(read_home(place))
    } else if verb == b"REC".as_slice() {
        read_add(alloc, place)
    } else {
        Ok(None)
    }
}

/// Returns the cylinder and head in the first two words and the text after them, or `None` if one
/// is missing or bad.
fn read_place(operands: &[u8]) -> Option<TrackOperands<'_>>
    ensures { option_map placed result ≡ placed_of operands.now }
{
    let (cylinder, more) = cut_word(operands);
    let cylinder = decimal_of(DIGITS, cylinder)?;
    let (head, rest) = cut_word(more?);
    let head = decimal_of(DIGITS, head)?;
    let rest = rest?;
    Some(TrackOperands {
        cylinder,
        head,
        rest,
    })
}

/// Returns the statement of a `HOME` line from its place and the home address after that, or `None`
/// if that is bad.
fn read_home(place: TrackOperands<'_>) -> Option<VolumeStatement>
    ensures { option_map stated result ≡ home_by (placed place.entry) }
{
    let home = five_of(place.rest)?;
    Some(VolumeStatement::Home(place.cylinder, place.head, home))
}

/// Returns the statement of a `REC` line from its place and the record after that, or `None` if
/// that is bad.
fn read_add(alloc: Global, place: TrackOperands<'_>) -> Result<Option<VolumeStatement>, AllocError>
    ensures ok { IfOk result (λ found. option_map stated found ≡ add_by (placed place.entry)) }
    ensures memory { OnErr result (RecordTakesMemory place.entry.rest.now) }
{
    match read_record(alloc, place.rest)? {
        Some(record) => Ok(Some(VolumeStatement::Add(place.cylinder, place.head, record))),
        None => Ok(None),
    }
}

/// Returns the record that id, key and data in a line spell, or `None` if they are bad.
fn read_record(alloc: Global, fields: &[u8]) -> Result<Option<StatedRecord>, AllocError>
    ensures ok { IfOk result (λ found. option_map record_in found ≡ record_of fields.now) }
    ensures memory { OnErr result (RecordTakesMemory fields.now) }
{
    let (id, more) = cut_word(fields);
    let (Some(id), Some(more)) = (five_of(id), more) else {
        return Ok(None);
    };
    let (key, content) = cut_word(more);
    let Some(key) = bytes_of(alloc, key)? else {
        return Ok(None);
    };
    let Some(content) = content else {
        return Ok(None);
    };
    let Some(content) = bytes_of(alloc, content)? else {
        return Ok(None);
    };
    Ok(Some(StatedRecord { id, key, content }))
}
