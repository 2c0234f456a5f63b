//! The typewriter console.
ghost use Rattle.std.specs.Prelude.{◌≡◌, ◌≤◌, ◌==◌, length, IfOk, OnOk, OnErr, map, slice_get};
ghost use Rattle.std.specs.Prelude.{if◌then◌else◌};
ghost use Rattle.std.specs.Option.{option_copied};
ghost use Rattle.unit_record.specs.declared.console.Arrival.TheVariants.{Kept, Lost};
ghost use Rattle.unit_record.specs.Console.{console_new, console_reset, without_lines, is_write};
ghost use Rattle.unit_record.specs.Console.{has_room, typed_byte, with_typed, wants_attention};

use crate::front::{COMMAND_REJECT, NO_OPERATION, is_sense};
use crate::outgoing::Outgoing;
use crate::record::{RECORD_LENGTH, RecordBytes};
use s370_num::ebcdic::{ebcdic_of, printable};
use s370_walk::{Answer, Device, Order, UnitStatus};
use std::alloc::{AllocError, Global};
use std::collections::VecDeque;
use std::marker::Model;
use std::mem;

/// The most lines that wait.
pub const WAITING_LINES: usize = 16;

/// The command that writes and ends the line.
const WRITE_LINE: u8 = 0x09;
/// The command that reads a waiting line.
const READ: u8 = 0x0A;
/// What stands for a character that has no byte.
const BLANK: u8 = 0x40;

/// What became of a line that was typed.
#[derive(Clone, Copy, Debug, PartialEq, Eq)]
pub enum Arrival {
    /// It waits to be read.
    Kept,
    /// It was dropped, since too many wait.
    Lost,
}

/// A typewriter console: the lines that were written, and those that wait to be read.
#[derive(Drop)]
pub struct Console {
    pub(crate) lines: Vec<RecordBytes>,
    pub(crate) unfinished: RecordBytes,
    pub(crate) waiting: VecDeque<RecordBytes>,
    pub(crate) sense: u8,
    pub(crate) wanted: usize,
    pub(crate) ends_line: bool,
    pub(crate) giving: Outgoing,
}

impl Model for Console {
    ghost use Rattle.std.specs.Prelude.{length, vec_len, vec_capacity};
    ghost use Rattle.unit_record.specs.Console.{ConsoleState};

    ghost Value = { ConsoleState };

    ghost use Rattle.unit_record.specs.ConsoleRoom.{HasRoom};

    ghost view = { λ c. record {
      lines = c.lines.items;
      unfinished = c.unfinished;
      waiting = c.waiting.items;
      sense = c.sense;
      wanted = c.wanted;
      ends_line = c.ends_line;
      giving = c.giving;
    } };

    // What is being written has its room.
    ghost invariant = { λ c. HasRoom (vec_len c.lines) (vec_capacity c.lines)
        (length c.unfinished) c.wanted c.ends_line };
}

impl Device for Console {
    ghost use Rattle.unit_record.specs.Console.{console_machine, console_needs_memory};

    ghost machine = { console_machine };

    ghost needs_memory = { console_needs_memory };

    /// Begins a write, which takes memory for two lines, a read, which takes the first waiting
    /// line, or a sense; does a no-operation, and rejects any other command.
    fn command(&mut self, order: Order) -> Result<Answer, AllocError> {
        match order.command.code {
            code if is_write(code) => {
                // A write finishes two lines at most: one that its characters fill, and the one
                // that it ends.
                self.lines.reserve(2)?;
                self.wanted = RECORD_LENGTH;
                self.ends_line = code == WRITE_LINE;
                Ok(Answer::OutputUpTo(132))
            }
            READ => Ok(self.read()),
            NO_OPERATION => Ok(Answer::Immediate),
            _ if is_sense(order) => {
                self.giving = Outgoing::of(RecordBytes::of(&[self.sense]));
                Ok(Answer::Input(1))
            }
            _ => {
                self.sense = COMMAND_REJECT;
                Ok(Answer::Refused(UnitStatus::UNIT_CHECK))
            }
        }
    }

    /// Returns false: no command ends before the bytes that it announced.
    fn is_done(&self) -> bool {
        false
    }

    /// Returns the greatest number: only the count ends a command.
    fn ready(&self) -> u32 {
        u32::MAX
    }

    /// Returns the next byte of the line or sense that is read and moves on past it, or returns
    /// zero if none is left.
    fn give(&mut self) -> u8 {
        self.giving.give()
    }

    /// Appends the character of a written byte to the unfinished line, after finishing that if it
    /// is full; drops it past 132 characters of a write.
    fn take(&mut self, byte: u8) {
        if self.wanted == 0 {
            return;
        }
        if self.unfinished.len() == RECORD_LENGTH {
            let line = mem::replace(&mut self.unfinished, RecordBytes::new());
            self.lines.push_reserved(line);
        }
        self.unfinished.push(printable(byte));
        self.wanted -= 1;
    }

    /// Ends the command; a write that ends its line finishes the line.
    fn finish(&mut self) -> UnitStatus {
        if self.ends_line {
            let line = mem::replace(&mut self.unfinished, RecordBytes::new());
            self.lines.push_reserved(line);
            self.ends_line = false;
        }
        self.wanted = 0;
        UnitStatus::NONE
    }
}

impl Console {
    ghost use Rattle.unit_record.specs.Console.{read_answer, read_started};

    /// Returns a console on which nothing was written or typed.
    pub fn new(alloc: Global) -> Console
        ensures { result ≡ console_new }
    {
        Console {
            lines: Vec::new(alloc),
            unfinished: RecordBytes::new(),
            waiting: VecDeque::new(alloc),
            sense: 0,
            wanted: 0,
            ends_line: false,
            giving: Outgoing::new(),
        }
    }

    /// Takes the first waiting line, to be given, and returns how many bytes it has, or refuses the
    /// read if no line waits.
    fn read(&mut self) -> Answer
        ensures answer { result ≡ read_answer self.old.waiting }
        ensures after { self.new ≡ read_started self.old self.old.waiting }
    {
        match self.waiting.pop_front() {
            None => Answer::Refused(UnitStatus::UNIT_EXCEPTION),
            Some(line) => {
                let bytes = line.len();
                self.giving = Outgoing::of(line);
                Answer::Input(bytes as u32)
            }
        }
    }

    /// Appends a typed line to those that wait to be read, and returns whether it was kept, or lost
    /// because too many wait.
    ///
    /// # Errors
    ///
    /// `AllocError` if memory is refused; nothing has changed.
    pub fn line(&mut self, text: &[u8]) -> Result<Arrival, AllocError>
        requires { length text.now ≤ RECORD_LENGTH }
        ensures arrival { IfOk result
            (λ arrival. arrival ≡ (if has_room self.old then Kept else Lost)) }
        ensures kept { OnOk result (self.new ≡ with_typed self.old text.now) }
        ensures err { OnErr result (self.new ≡ self.old) }
    {
        if self.waiting.len() >= WAITING_LINES {
            return Ok(Arrival::Lost);
        }
        self.waiting.push_back(typed(text))?;
        Ok(Arrival::Kept)
    }

    /// Returns whether the console wants attention, which it does while a line waits.
    pub fn attention(&self) -> bool
        ensures { result ≡ wants_attention self.now }
    {
        self.waiting.len() > 0
    }

    /// Removes the waiting lines, drops the command under way and clears the sense; what was
    /// written stays.
    pub fn reset(&mut self)
        ensures { self.new ≡ console_reset self.old }
    {
        self.waiting.clear();
        self.sense = 0;
        self.wanted = 0;
        self.ends_line = false;
        self.giving = Outgoing::new();
    }

    /// Borrows the finished lines, in characters.
    pub fn lines(&self) -> &[RecordBytes]
        ensures { result.now ≡ self.now.lines }
    {
        self.lines.as_slice()
    }

    /// Removes the finished lines; the room for what is being written stays.
    pub fn forget_lines(&mut self)
        ensures { self.new ≡ without_lines self.old }
    {
        self.lines.clear();
    }

    /// Borrows the characters of the line that is not finished.
    pub fn unfinished(&self) -> &[u8]
        ensures { result.now ≡ self.now.unfinished }
    {
        self.unfinished.as_slice()
    }

    /// Returns how many lines wait to be read.
    pub fn waiting(&self) -> usize
        ensures { result ≡ length self.now.waiting }
    {
        self.waiting.len()
    }

    /// Borrows the waiting line at this index, as the bytes that a read would give, if there is
    /// one.
    pub fn waiting_line(&self, index: usize) -> Option<&RecordBytes>
        ensures { option_copied result ≡ slice_get self.now.waiting index }
    {
        self.waiting.get(index)
    }

    /// Returns the sense byte of the last unit check.
    pub fn sense(&self) -> u8
        ensures { result ≡ self.now.sense }
    {
        // Exhaustive: a new field fails to compile here.
        let Console {
            lines: _,
            unfinished: _,
            waiting: _,
            sense,
            wanted: _,
            ends_line: _,
            giving: _,
        } = self;
        *sense
    }
}

/// Returns whether the command code is that of a write.
fn is_write(code: u8) -> bool
    ensures { result ≡ is_write code }
{
    matches!(code, 0x01 | 0x09)
}

/// Returns a typed line as EBCDIC bytes, with blanks for characters that EBCDIC does not have.
fn typed(text: &[u8]) -> RecordBytes
    requires { length text.now ≤ RECORD_LENGTH }
    ensures { result ≡ map typed_byte text.now }
{
    let mut bytes = RecordBytes::new();
    for character in text {
        bytes.push(typed_byte(*character));
    }
    bytes
}

/// Returns the EBCDIC byte of a character, or a blank if it has none.
fn typed_byte(character: u8) -> u8
    ensures { result ≡ typed_byte character }
{
    ebcdic_of(character).unwrap_or(BLANK)
}
