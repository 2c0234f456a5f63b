//! What a console has printed.
ghost use Rattle.std.specs.Prelude.{◌≡◌, ◌+◌, ◌<◌, ◌≤◌, ◌==◌, ◌++◌, [], ◌∷◌, length, OnOk, OnErr};
ghost use Rattle.std.specs.Prelude.{slice_get, slice_index_or, slice_range};
ghost use Rattle.std.specs.Option.{option_map};
ghost use Rattle.cp_console.specs.Responses.{text_of};
ghost use Rattle.cp_console.specs.Saved.{printed_bytes};

use crate::console_line::MOST_CHARACTERS;
use crate::responses::Response;
use crate::texts::add_text;
use saved_bytes::{Input, RestoreError, put_bytes, put_one, put_zero};
use std::alloc::{AllocError, Global};
use std::marker::Model;

/// The lines that a console has printed, the oldest first, and room for more. A line takes its
/// characters and eight bytes.
///
/// A machine that stops says so and may take no memory for it: the room for that line is made
/// before the machine runs.
#[derive(Drop)]
pub struct ConsoleOutput {
    /// The characters of all lines, one line after the other.
    text: Vec<u8>,
    /// Where each line ends among them.
    ends: Vec<usize>,
    /// For how many lines of [`MOST_CHARACTERS`] both have capacity.
    room: usize,
}

impl Model for ConsoleOutput {
    ghost use Rattle.std.specs.Prelude.{◌+◌, ◌*◌, ◌≤◌, length, vec_len, vec_capacity};
    ghost use Rattle.cp_console.specs.Output.{Printed, IsCut, lines_from};

    ghost Value = { Printed };

    ghost view = { λ o. record { lines = lines_from 0 o.text.items o.ends.items; room = o.room } };

    ghost invariant = { λ o. IsCut 0 o.ends.items (length o.text.items)
        × (vec_len o.text + o.room * 144 ≤ vec_capacity o.text)
        × (vec_len o.ends + o.room ≤ vec_capacity o.ends) };
}

impl ConsoleOutput {
    /// Returns an output of no lines, without room for any.
    pub fn new(alloc: Global) -> ConsoleOutput
        ensures { result.lines ≡ [] }
    {
        ConsoleOutput {
            text: Vec::new(alloc),
            ends: Vec::new(alloc),
            room: 0,
        }
    }

    /// Makes room for at least so many more lines by allocating memory, if there is less; the
    /// printed lines stay.
    ///
    /// # Errors
    ///
    /// `AllocError` if memory is refused; lines and room are then not less than before.
    pub fn make_room(&mut self, lines: usize) -> Result<(), AllocError>
        ensures lines { self.new.lines ≡ self.old.lines }
        ensures ok { OnOk result (lines ≤ self.new.room) }
        ensures room { self.old.room ≤ self.new.room }
        ensures err { OnErr result (self.old.room < lines) }
    {
        if self.room >= lines {
            return Ok(());
        }
        let Some(characters) = lines.checked_mul(MOST_CHARACTERS) else {
            return Err(AllocError);
        };
        self.text.reserve(characters)?;
        self.ends.reserve(lines)?;
        self.room = lines;
        Ok(())
    }

    /// Appends a response as a printed line, and uses up the room for one line, which there has to
    /// be.
    ///
    /// This takes no memory.
    pub fn print(&mut self, response: &Response)
        requires { 0 < self.old.room }
        ensures lines { self.new.lines ≡ self.old.lines ++ text_of response.now ∷ [] }
        ensures room { self.new.room + 1 ≡ self.old.room }
    {
        add_text(&mut self.text, response);
        self.ends.push_reserved(self.text.len());
        self.room -= 1;
    }

    /// Removes all printed lines and gives back their memory; the room for further lines stays.
    pub fn forget(&mut self)
        ensures lines { self.new.lines ≡ [] }
        ensures room { self.new.room ≡ self.old.room }
    {
        self.text.clear();
        self.ends.clear();
        self.text.shrink_to(self.room * MOST_CHARACTERS);
        self.ends.shrink_to(self.room);
    }

    /// Returns how many printed lines there are.
    pub fn len(&self) -> usize
        ensures { result ≡ length self.now.lines }
    {
        self.ends.len()
    }

    /// Returns whether there is no printed line.
    pub fn is_empty(&self) -> bool
        ensures { result ≡ (length self.now.lines == 0) }
    {
        // Exhaustive: a new field fails to compile here.
        let ConsoleOutput {
            text: _,
            ends,
            room: _,
        } = self;
        ends.is_empty()
    }

    /// Returns the text of the printed line at this index, if there is one.
    pub fn get(&self, line: usize) -> Option<&[u8]>
        ensures { option_map (λ text. text.now) result ≡ slice_get self.now.lines line }
    {
        let Some(end) = self.ends.get(line) else {
            return None;
        };
        let start = start_of(&self.ends, line);
        Some(part_of(&self.text, start, *end))
    }
}

/// Returns the bytes of a text from one index to another.
fn part_of(text: &[u8], start: usize, end: usize) -> &[u8]
    requires start { start ≤ end }
    requires end { end ≤ length text.now }
    ensures { result.now ≡ slice_range text.now start end }
{
    &text[start..end]
}

/// Returns the index at which a line starts, which is where the line before it ends.
fn start_of(ends: &[usize], line: usize) -> usize
    requires { line < length ends.now }
    ensures { result ≡ slice_index_or (0 ∷ ends.now) line 0 }
{
    if line == 0 {
        return 0;
    }
    ends[line - 1]
}

impl ConsoleOutput {
    /// Appends the printed lines to `out`, each after a byte of 1 and its length, and then a byte
    /// of 0.
    ///
    /// # Errors
    ///
    /// `AllocError` if memory is refused; `out` may have a part of it then.
    pub fn save(&self, out: &mut Vec<u8>) -> Result<(), AllocError>
        ensures { OnOk result (out.new.items ≡ out.old.items ++ printed_bytes self.now.lines) }
    {
        for line in 0..self.len() {
            put_one(out)?;
            match self.get(line) {
                Some(text) => put_bytes(out, text)?,
                None => unreachable!(),
            }
        }
        put_zero(out)
    }

    /// Takes lines from `input` and appends them to the printed lines.
    ///
    /// After a line was appended, there is no room for others.
    ///
    /// # Errors
    ///
    /// `Malformed` if the input is bad, `Memory` if memory is refused, perhaps after appending
    /// some.
    pub fn restore(&mut self, input: &mut Input<'_>) -> Result<(), RestoreError> {
        for _ in 0..u64::MAX {
            if !input.flag()? {
                break;
            }
            let text = input.bytes()?;
            self.add_line(text)?;
        }
        Ok(())
    }

    /// Appends a printed line, which takes memory, and leaves no room for others.
    fn add_line(&mut self, text: &[u8]) -> Result<(), AllocError> {
        self.ends.reserve(1)?;
        self.room = 0;
        self.text.extend_from_slice(text)?;
        self.ends.push_reserved(self.text.len());
        Ok(())
    }
}
