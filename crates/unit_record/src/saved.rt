//! Devices that are no disks as the bytes of a saved state, and back.
ghost use Rattle.std.specs.Prelude.{◌≡◌, ◌++◌, length, IfSome, OnOk};
ghost use Rattle.saved_bytes.specs.Codes.{bytes, each, number, optional};
ghost use Rattle.unit_record.specs.Saved.{console_bytes, console_command_bytes};
ghost use Rattle.unit_record.specs.Saved.{console_lines_bytes, entries_bytes, entry_bytes};
ghost use Rattle.unit_record.specs.Saved.{printer_bytes, punch_bytes, sender_bytes, target_bytes};

use crate::console::Console;
use crate::outgoing::Outgoing;
use crate::output::{Entry, Output, Target};
use crate::printer::Printer;
use crate::punch::Punch;
use crate::reader::{Card, Sender};
use crate::record::{RECORD_LENGTH, RecordBytes};
use saved_bytes::{Input, RestoreError, put_bytes, put_flag, put_number, put_one, put_zero};
use std::alloc::{AllocError, Global};
use std::collections::VecDeque;

/// Appends to `out` whom a file is for: a byte of 0 for the system, or a byte of 1 and the user's
/// number.
///
/// # Errors
///
/// `AllocError` if memory is refused; `out` may have a part of it then.
pub fn put_target(out: &mut Vec<u8>, target: Target) -> Result<(), AllocError>
    ensures { OnOk result (out.new.items ≡ out.old.items ++ target_bytes target) }
{
    match target {
        Target::System => put_zero(out),
        Target::User(user) => {
            put_one(out)?;
            put_number(out, u64::from(user))
        }
    }
}

/// Takes from `input` whom a file is for and returns it.
///
/// # Errors
///
/// `Malformed` if that is not there or bad.
pub fn target_of(input: &mut Input<'_>) -> Result<Target, RestoreError> {
    if input.flag()? {
        Ok(Target::User(input.next_u8()?))
    } else {
        Ok(Target::System)
    }
}

/// Appends to `out` whom a deck is from: a byte of 0 for the system, or a byte of 1 and the user's
/// number.
///
/// # Errors
///
/// `AllocError` if memory is refused; `out` may have a part of it then.
pub fn put_sender(out: &mut Vec<u8>, sender: Sender) -> Result<(), AllocError>
    ensures { OnOk result (out.new.items ≡ out.old.items ++ sender_bytes sender) }
{
    match sender {
        Sender::System => put_zero(out),
        Sender::User(user) => {
            put_one(out)?;
            put_number(out, u64::from(user))
        }
    }
}

/// Takes from `input` whom a deck is from and returns it.
///
/// # Errors
///
/// `Malformed` if that is not there or bad.
pub fn sender_of(input: &mut Input<'_>) -> Result<Sender, RestoreError> {
    if input.flag()? {
        Ok(Sender::User(input.next_u8()?))
    } else {
        Ok(Sender::System)
    }
}

/// Takes a card from `input`, with its length before it, and returns it.
///
/// # Errors
///
/// `Malformed` if it is not there or not 80 bytes long.
pub fn card_of(input: &mut Input<'_>) -> Result<Card, RestoreError> {
    let bytes = input.bytes()?;
    let mut card = [0u8; 80];
    if bytes.len() != card.len() {
        return Err(RestoreError::Malformed);
    }
    card.copy_from_slice(bytes);
    Ok(card)
}

/// Takes a record from `input`, with its length before it, and returns it.
///
/// # Errors
///
/// `Malformed` if it is not there or too long.
pub fn record_of(input: &mut Input<'_>) -> Result<RecordBytes, RestoreError> {
    let bytes = input.bytes()?;
    if bytes.len() > RECORD_LENGTH {
        return Err(RestoreError::Malformed);
    }
    Ok(RecordBytes::of(bytes))
}

/// Appends to `out` the code of an entry, the number of its bytes and these bytes.
fn put_entry(out: &mut Vec<u8>, entry: &Entry) -> Result<(), AllocError>
    ensures { OnOk result (out.new.items ≡ out.old.items ++ entry_bytes entry.now) }
{
    put_number(out, u64::from(entry.code()))?;
    put_bytes(out, entry.bytes())
}

/// Appends entries to `out`, each after a byte of 1, and then a byte of 0.
///
/// # Errors
///
/// `AllocError` if memory is refused; `out` may have a part of it then.
pub fn put_entries(out: &mut Vec<u8>, entries: &[Entry]) -> Result<(), AllocError>
    ensures { OnOk result (out.new.items ≡ out.old.items ++ entries_bytes entries.now) }
{
    for entry in entries {
        put_one(out)?;
        put_entry(out, entry)?;
    }
    put_zero(out)
}

/// Takes entries from `input` and returns them in a new vector.
///
/// # Errors
///
/// `Malformed` if they are bad, `Memory` if memory is refused.
pub fn entries_of(alloc: Global, input: &mut Input<'_>) -> Result<Vec<Entry>, RestoreError> {
    let mut entries = Vec::new(alloc);
    for _ in 0..u64::MAX {
        if !input.flag()? {
            break;
        }
        let code = input.next_u8()?;
        let bytes = record_of(input)?;
        entries.push(Entry::new(code, bytes))?;
    }
    Ok(entries)
}

/// Appends records to `out`, each after a byte of 1 and its length, and then a byte of 0.
fn put_records(out: &mut Vec<u8>, records: &[RecordBytes]) -> Result<(), AllocError>
    ensures { OnOk result (out.new.items ≡ out.old.items ++ each bytes records.now) }
{
    for line in records {
        put_one(out)?;
        put_bytes(out, line.as_slice())?;
    }
    put_zero(out)
}

/// Takes records from `input` and appends them to `lines`.
///
/// # Errors
///
/// `Malformed` if one is bad, `Memory` if memory is refused, perhaps after appending some.
fn take_lines(lines: &mut Vec<RecordBytes>, input: &mut Input<'_>) -> Result<(), RestoreError> {
    for _ in 0..u64::MAX {
        if !input.flag()? {
            break;
        }
        lines.push(record_of(input)?)?;
    }
    Ok(())
}

/// Takes records from `input` and appends them to `waiting`.
///
/// # Errors
///
/// `Malformed` if one is bad, `Memory` if memory is refused, perhaps after appending some.
fn take_waiting(
    waiting: &mut VecDeque<RecordBytes>,
    input: &mut Input<'_>,
) -> Result<(), RestoreError> {
    for _ in 0..u64::MAX {
        if !input.flag()? {
            break;
        }
        waiting.push_back(record_of(input)?)?;
    }
    Ok(())
}

/// Appends to `out` a byte of 1 and the code of the command under way, or a byte of 0 if there is
/// none.
fn put_command(out: &mut Vec<u8>, command: Option<u8>) -> Result<(), AllocError>
    ensures { OnOk result (out.new.items ≡ out.old.items ++ optional number command) }
{
    match command {
        Some(code) => {
            put_one(out)?;
            put_number(out, u64::from(code))
        }
        None => put_zero(out),
    }
}

/// Takes from `input` the code of the command under way, if there is one, and returns it.
///
/// # Errors
///
/// `Malformed` if the input is bad.
fn command_of(input: &mut Input<'_>) -> Result<Option<u8>, RestoreError> {
    if input.flag()? {
        Ok(Some(input.next_u8()?))
    } else {
        Ok(None)
    }
}

impl Console {
    /// Appends to `out` all of a console: its finished, unfinished and waiting lines, its sense and
    /// the command under way.
    ///
    /// # Errors
    ///
    /// `AllocError` if memory is refused; `out` may have a part of it then.
    pub fn save(&self, out: &mut Vec<u8>) -> Result<(), AllocError>
        ensures { OnOk result (out.new.items ≡ out.old.items ++ console_bytes self.now) }
    {
        // Exhaustive: a new field fails to compile here.
        let Console {
            lines: _,
            unfinished: _,
            waiting: _,
            sense,
            wanted: _,
            ends_line: _,
            giving: _,
        } = self;
        self.put_lines(out)?;
        put_number(out, u64::from(*sense))?;
        self.put_command(out)
    }

    /// Appends to `out` the finished lines, the unfinished line and the waiting lines.
    fn put_lines(&self, out: &mut Vec<u8>) -> Result<(), AllocError>
        ensures { OnOk result (out.new.items ≡ out.old.items ++ console_lines_bytes self.now) }
    {
        put_records(out, &self.lines)?;
        put_bytes(out, self.unfinished())?;
        self.put_waiting(out)
    }

    /// Appends to `out` what is left of the command under way: bytes to write, whether it ends the
    /// line, and bytes to give.
    fn put_command(&self, out: &mut Vec<u8>) -> Result<(), AllocError>
        ensures { OnOk result (out.new.items ≡ out.old.items ++ console_command_bytes self.now) }
    {
        put_number(out, self.wanted as u64)?;
        put_flag(out, self.ends_line)?;
        put_bytes(out, self.giving.left())
    }

    /// Appends the waiting lines to `out`, each after a byte of 1 and its length, and then a byte
    /// of 0.
    fn put_waiting(&self, out: &mut Vec<u8>) -> Result<(), AllocError>
        ensures { OnOk result (out.new.items ≡ out.old.items ++ each bytes self.now.waiting) }
    {
        for index in 0..self.waiting() {
            put_one(out)?;
            match self.waiting_line(index) {
                Some(line) => put_bytes(out, line.as_slice())?,
                None => unreachable!(),
            }
        }
        put_zero(out)
    }

    /// Restores a console, on which nothing was written or typed, from `input`.
    ///
    /// # Errors
    ///
    /// `Malformed` if the input is bad, `Memory` if memory is refused, perhaps after restoring a
    /// part.
    pub fn restore(&mut self, input: &mut Input<'_>) -> Result<(), RestoreError> {
        // Nothing is being written until there is room for it.
        self.ends_line = false;
        self.wanted = 0;
        take_lines(&mut self.lines, input)?;
        self.unfinished = record_of(input)?;
        take_waiting(&mut self.waiting, input)?;
        self.sense = input.next_u8()?;
        let wanted = input.next_usize()?;
        if wanted > RECORD_LENGTH {
            return Err(RestoreError::Malformed);
        }
        let ends_line = input.flag()?;
        self.giving = Outgoing::of(record_of(input)?);
        self.lines.reserve(2)?;
        self.wanted = wanted;
        self.ends_line = ends_line;
        Ok(())
    }
}

impl Punch {
    /// Appends to `out` all of a punch: the open file, the sense and the card that is being
    /// punched.
    ///
    /// # Errors
    ///
    /// `AllocError` if memory is refused; `out` may have a part of it then.
    pub fn save(&self, out: &mut Vec<u8>) -> Result<(), AllocError>
        ensures { OnOk result (out.new.items ≡ out.old.items ++ punch_bytes self.now) }
    {
        // Exhaustive: a new field fails to compile here.
        let Punch {
            output,
            sense,
            is_punching,
            card,
        } = self;
        put_entries(out, output.entries())?;
        put_number(out, u64::from(*sense))?;
        put_flag(out, *is_punching)?;
        put_bytes(out, card.as_slice())
    }

    /// Replaces all of a punch from `input`.
    ///
    /// # Errors
    ///
    /// `Malformed` if the input is bad, `Memory` if memory is refused, perhaps after replacing a
    /// part.
    pub fn restore(&mut self, alloc: Global, input: &mut Input<'_>) -> Result<(), RestoreError> {
        // No card is being punched until there is room for it.
        self.is_punching = false;
        self.output = Output::of(entries_of(alloc, input)?);
        self.sense = input.next_u8()?;
        let is_punching = input.flag()?;
        self.card = record_of(input)?;
        self.output.reserve()?;
        self.is_punching = is_punching;
        Ok(())
    }
}

impl Printer {
    /// Appends to `out` all of a printer: the open file, the sense and the line that is being
    /// printed.
    ///
    /// # Errors
    ///
    /// `AllocError` if memory is refused; `out` may have a part of it then.
    pub fn save(&self, out: &mut Vec<u8>) -> Result<(), AllocError>
        ensures { OnOk result (out.new.items ≡ out.old.items ++ printer_bytes self.now) }
    {
        // Exhaustive: a new field fails to compile here.
        let Printer {
            output,
            sense,
            printing,
            line,
        } = self;
        put_entries(out, output.entries())?;
        put_number(out, u64::from(*sense))?;
        put_command(out, *printing)?;
        put_bytes(out, line.as_slice())
    }

    /// Replaces all of a printer from `input`.
    ///
    /// # Errors
    ///
    /// `Malformed` if the input is bad, `Memory` if memory is refused, perhaps after replacing a
    /// part.
    pub fn restore(&mut self, alloc: Global, input: &mut Input<'_>) -> Result<(), RestoreError> {
        // No line is being printed until there is room for it.
        self.printing = None;
        self.output = Output::of(entries_of(alloc, input)?);
        self.sense = input.next_u8()?;
        let printing = command_of(input)?;
        self.line = record_of(input)?;
        self.output.reserve()?;
        self.printing = printing;
        Ok(())
    }
}
