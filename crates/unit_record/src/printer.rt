//! The line printer.
ghost use Rattle.std.specs.Prelude.{◌≡◌};
ghost use Rattle.unit_record.specs.Printer.{printer_new, printer_reset, printer_emptied, is_write};
ghost use Rattle.unit_record.specs.Printer.{is_space};

use crate::front::{COMMAND_REJECT, NO_OPERATION, is_sense};
use crate::output::{Entry, Output};
use crate::record::{RECORD_LENGTH, RecordBytes};
use s370_walk::{Answer, Device, Order, UnitStatus};
use std::alloc::{AllocError, Global};
use std::marker::Model;
use std::mem;

/// A line printer: the entries of its open file.
#[derive(Drop)]
pub struct Printer {
    pub(crate) output: Output,
    pub(crate) sense: u8,
    pub(crate) printing: Option<u8>,
    pub(crate) line: RecordBytes,
}

impl Model for Printer {
    ghost use Rattle.std.specs.Prelude.{◌≡◌, ◌<◌, true, is_some};
    ghost use Rattle.unit_record.specs.Printer.{PrinterState};

    ghost Value = { PrinterState };

    ghost view = { λ p. record {
      entries = p.output.entries;
      sense = p.sense;
      printing = p.printing;
      line = p.line;
    } };

    // A line that is being printed has its room.
    ghost invariant = { λ p. is_some p.printing ≡ true → 0 < p.output.room };
}

impl Device for Printer {
    ghost use Rattle.unit_record.specs.Printer.{printer_machine, printer_needs_memory};

    ghost machine = { printer_machine };

    ghost needs_memory = { printer_needs_memory };

    /// Begins a write, which takes memory for its entry, or a sense; adds the entry of a space
    /// command at once, does a no-operation, and rejects any other command.
    fn command(&mut self, order: Order) -> Result<Answer, AllocError> {
        match order.command.code {
            code if is_write(code) => {
                self.output.reserve()?;
                self.printing = Some(code);
                self.line = RecordBytes::new();
                Ok(Answer::OutputUpTo(132))
            }
            code if is_space(code) => {
                self.output.reserve()?;
                self.output.add(Entry::new(code, RecordBytes::new()));
                self.printing = None;
                Ok(Answer::Immediate)
            }
            NO_OPERATION => Ok(Answer::Immediate),
            _ if is_sense(order) => Ok(Answer::Input(1)),
            _ => {
                self.sense = COMMAND_REJECT;
                Ok(Answer::Refused(UnitStatus::UNIT_CHECK))
            }
        }
    }

    /// Returns false: no command ends before the bytes that it announced.
    fn is_done(&self) -> bool {
        false
    }

    /// Returns the greatest number: only the count ends a command.
    fn ready(&self) -> u32 {
        u32::MAX
    }

    /// Returns the sense byte.
    fn give(&mut self) -> u8 {
        self.sense
    }

    /// Appends a byte to the line that is being printed, or drops it past 132 bytes.
    fn take(&mut self, byte: u8) {
        if self.line.len() < RECORD_LENGTH {
            self.line.push(byte);
        }
    }

    /// Ends the command; a write adds its entry, with its code and its bytes, to the open file.
    fn finish(&mut self) -> UnitStatus {
        if let Some(code) = self.printing {
            let line = mem::replace(&mut self.line, RecordBytes::new());
            self.output.add(Entry::new(code, line));
            self.printing = None;
        }
        UnitStatus::NONE
    }
}

impl Printer {
    /// Returns a printer that has printed nothing.
    pub fn new(alloc: Global) -> Printer
        ensures { result ≡ printer_new }
    {
        Printer {
            output: Output::new(alloc),
            sense: 0,
            printing: None,
            line: RecordBytes::new(),
        }
    }

    /// Drops the line that is being printed and clears the sense; the open file stays.
    pub fn reset(&mut self)
        ensures { self.new ≡ printer_reset self.old }
    {
        self.sense = 0;
        self.printing = None;
        self.line = RecordBytes::new();
    }

    /// Removes all entries from the open file and returns them, to be closed; a line that is being
    /// printed is dropped.
    ///
    /// This takes no memory.
    pub fn take_entries(&mut self, alloc: Global) -> Vec<Entry>
        ensures taken { result.items ≡ self.old.entries }
        ensures after { self.new ≡ printer_emptied self.old }
    {
        self.printing = None;
        self.line = RecordBytes::new();
        self.output.take(alloc)
    }

    /// Borrows the entries of the open file, in order.
    pub fn entries(&self) -> &[Entry]
        ensures { result.now ≡ self.now.entries }
    {
        self.output.entries()
    }

    /// Returns the sense byte of the last unit check.
    pub fn sense(&self) -> u8
        ensures { result ≡ self.now.sense }
    {
        // Exhaustive: a new field fails to compile here.
        let Printer {
            output: _,
            sense,
            printing: _,
            line: _,
        } = self;
        *sense
    }
}

/// Returns whether the command code prints a line, and then spaces 0 to 3 lines or skips to channel
/// 1.
fn is_write(code: u8) -> bool
    ensures { result ≡ is_write code }
{
    matches!(code, 0x01 | 0x09 | 0x11 | 0x19 | 0x89)
}

/// Returns whether the command code spaces 1 to 3 lines or skips to channel 1, without printing.
fn is_space(code: u8) -> bool
    ensures { result ≡ is_space code }
{
    matches!(code, 0x0B | 0x13 | 0x1B | 0x8B)
}
