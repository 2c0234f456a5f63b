//! The reader of volume texts: line by line.
ghost use Rattle.std.specs.Prelude.{◌≡◌, ◌<◌, ◌≤◌, ◌+◌, IfOk, IfErr, OnOk, OnErr, Some, None, Ok};
ghost use Rattle.std.specs.Prelude.{Err, IsSome, length};
ghost use Rattle.text_words.specs.Lines.{lines_of, read_lines};
ghost use Rattle.ckd_text.specs.Grammar.{ReadsGrammar};
ghost use Rattle.ckd_text.specs.Stated.{record_in, stated};
ghost use Rattle.ckd_text.specs.Text as said;
ghost use Rattle.ckd_text.specs.Text.{first_of, line_step, reported, volume_of, with_stated};
ghost use Rattle.ckd_text.specs.Text.{BeginsRight, IsRefusal, MayRefuseMemory};

use crate::statement::{StatedRecord, VolumeStatement, read_header, read_statement};
use ckd_volume::Volume;
use std::alloc::Global;
use text_words::lines::cut_line;
use thiserror::Error;

/// Why no volume is made of a text.
#[derive(Clone, Copy, Debug, PartialEq, Eq, Drop, Error)]
pub enum TextError {
    /// A growth was refused.
    #[error("no memory for the volume")]
    Memory,
    /// The first line, counted from 1, that is refused.
    #[error("line {0} of the text is misspelled, or the volume has no place for what it states")]
    Line(u64),
}

/// The volume has no such track, or the track no room for the record.
#[derive(Clone, Copy, Drop)]
struct NoPlace;

/// Returns a new volume with what a text states, or the error of its first bad line; an empty text
/// is bad in line 1.
///
/// docs/FORMATS.md, "Volume texts". A text is read to its first bad line.
///
/// # Errors
///
/// A `TextError`: the number of the first bad line, or refused memory.
///
/// # Examples
///
/// ```
/// use ckd_text::{TextError, make_volume};
///
/// let volume = make_volume(alloc, b"VOLUME WORK01 10\nREC 0 0 0000000001 - C1C2\n")?;
/// assert_eq!(rt; volume.count(), 10);
/// assert!(rt; make_volume(alloc, b"VOLUME WORK01 10\nREC\n").err() == Some(TextError::Line(2)));
/// ```
pub fn make_volume(alloc: Global, text: &[u8]) -> Result<Volume, TextError>
    ensures ok { IfOk result (λ volume. volume_of text.now ≡ Ok volume) }
    ensures err { IfErr result (IsRefusal (volume_of text.now)) }
    ensures memory { result ≡ Err TextError.Memory → BeginsRight (lines_of text.now) }
{
    if text.is_empty() {
        return Err(TextError::Line(1));
    }
    let (first, lines) = cut_line(text);
    let volume = match blank_volume(alloc, first) {
        Ok(volume) => volume,
        Err(error) => return Err(error),
    };
    filled(alloc, volume, lines)
}

/// Proves that a volume is made of just those texts that the grammar allows, and that the line
/// reported is the first bad one; it has no effect.
pub fn reads_grammar()
    ensures { ReadsGrammar }
{}

/// Returns a new volume without records, as the first line of a text states it, or the error of
/// line 1.
fn blank_volume(alloc: Global, line: &[u8]) -> Result<Volume, TextError>
    ensures ok { IfOk result (λ volume. first_of line.now ≡ Some volume) }
    ensures err { IfErr result (IsRefusal (reported 1 (first_of line.now))) }
    ensures memory { result ≡ Err TextError.Memory → IsSome (first_of line.now) }
{
    let Some(header) = read_header(line) else {
        return Err(TextError::Line(1));
    };
    // its number of cylinders is one that a volume may have, so that no other error is left
    match Volume::blank(alloc, header.serial, header.cylinders) {
        Ok(volume) => Ok(volume),
        Err(_) => Err(TextError::Memory),
    }
}

/// Returns the volume with the home addresses and records that the lines from the second on state,
/// or the error of the first bad line.
fn filled(alloc: Global, blank: Volume, lines: &[u8]) -> Result<Volume, TextError>
    ensures ok { IfOk result
        (λ volume. read_lines line_step 2 blank (lines_of lines.now) ≡ Ok volume) }
    ensures err { IfErr result (IsRefusal (read_lines line_step 2 blank (lines_of lines.now))) }
    ensures memory { result ≡ Err TextError.Memory
        → MayRefuseMemory blank (lines_of lines.now) }
{
    let mut volume = blank;
    let mut rest = lines;
    let mut number = 2;
    while !rest.is_empty() {
        let (line, after) = cut_line(rest);
        match read_statement(alloc, line) {
            Ok(Some(statement)) => {
                if fill(&mut volume, &statement).is_err() {
                    return Err(TextError::Line(number));
                }
            }
            Ok(None) => return Err(TextError::Line(number)),
            Err(_) => return Err(TextError::Memory),
        }
        rest = after;
        number += 1;
    }
    Ok(volume)
}

/// Sets a home address or appends a record in the volume, as a line states, or reports that the
/// volume has no place for it.
fn fill(volume: &mut Volume, statement: &VolumeStatement) -> Result<(), NoPlace>
    ensures ok { OnOk result (with_stated volume.old (stated statement.now) ≡ Some volume.new) }
    ensures err { OnErr result (with_stated volume.old (stated statement.now) ≡ None) }
{
    match statement {
        VolumeStatement::Home(cylinder, head, home) => set_home(volume, *cylinder, *head, *home),
        VolumeStatement::Add(cylinder, head, record) => add(volume, *cylinder, *head, record),
    }
}

/// Replaces the home address of a track, or reports that the volume has no such track.
fn set_home(volume: &mut Volume, cylinder: u32, head: u32, home: [u8; 5]) -> Result<(), NoPlace>
    ensures ok { OnOk result
        (with_stated volume.old (said.Home cylinder head home) ≡ Some volume.new) }
    ensures err { OnErr result (with_stated volume.old (said.Home cylinder head home) ≡ None) }
{
    match volume.track_mut(cylinder as usize, head as usize) {
        Some(track) => {
            track.set_home(home);
            Ok(())
        }
        None => Err(NoPlace),
    }
}

/// Appends a record to a track, or reports that the volume has no such track or the track no room.
fn add(volume: &mut Volume, cylinder: u32, head: u32, wanted: &StatedRecord) -> Result<(), NoPlace>
    ensures ok { OnOk result (with_stated volume.old (said.Add cylinder head (record_in wanted.now))
        ≡ Some volume.new) }
    ensures err { OnErr result
        (with_stated volume.old (said.Add cylinder head (record_in wanted.now)) ≡ None) }
{
    match volume.track_mut(cylinder as usize, head as usize) {
        Some(track) => match track.push(wanted.id, &wanted.key, &wanted.content) {
            Ok(()) => Ok(()),
            Err(_) => Err(NoPlace),
        },
        None => Err(NoPlace),
    }
}
