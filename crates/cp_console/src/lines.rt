//! A line as it was typed, and whom it speaks to.
ghost use Rattle.std.specs.Prelude.{◌≡◌, ◌≤◌, length, take};
ghost use Rattle.cp_console.specs.Lines.{character_of, cleaned};
ghost use Rattle.cp_console.specs.Asked.{asked, asked_of};

use s370_num::ebcdic::is_printable;
use std::marker::Model;
use text_words::words::next_word;

/// The most characters of a line that are taken.
pub const LINE_LENGTH: usize = 130;

/// A line as the program takes it: at most [`LINE_LENGTH`] characters, each of the EBCDIC alphabet.
#[derive(Drop)]
pub struct ConsoleText {
    characters: [u8; 130],
    count: usize,
}

impl Model for ConsoleText {
    ghost use Rattle.std.specs.Prelude.{ℕ, ◌≤◌, List, take};

    ghost Value = { List ℕ };

    ghost view = { λ t. take t.count t.characters };

    ghost invariant = { λ t. t.count ≤ 130 };
}

impl ConsoleText {
    /// Returns a line of at most the first [`LINE_LENGTH`] characters, with a blank for each that
    /// EBCDIC does not have.
    pub fn new(typed: &[u8]) -> ConsoleText
        ensures { result ≡ cleaned typed.now }
    {
        let taken = first_characters(typed);
        let mut characters = [b' '; 130];
        for (place, c) in taken.iter().enumerate() {
            characters[place] = character_of(*c);
        }
        let count = taken.len();
        ConsoleText { characters, count }
    }

    /// Borrows the characters of the line.
    pub fn as_slice(&self) -> &[u8]
        ensures value { result.now ≡ self.now }
        ensures bound { length result.now ≤ LINE_LENGTH }
    {
        &self.characters[..self.count]
    }
}

/// Returns the first [`LINE_LENGTH`] characters of a line, or all if there are fewer.
fn first_characters(typed: &[u8]) -> &[u8]
    ensures value { result.now ≡ take 130 typed.now }
    ensures bound { length result.now ≤ 130 }
{
    if typed.len() > LINE_LENGTH {
        &typed[..LINE_LENGTH]
    } else {
        typed
    }
}

/// Returns the character itself, or a blank in place of one that the EBCDIC alphabet does not have.
fn character_of(c: u8) -> u8
    ensures { result ≡ character_of c }
{
    if is_printable(c) { c } else { b' ' }
}

/// What a line asks for.
#[derive(Clone, Copy, PartialEq, Eq, Drop)]
pub enum Asked<'a> {
    /// `#CP` alone: the machine stops, and nothing is said.
    Stop,
    /// `#CP` and a command's text.
    Command(&'a [u8]),
    /// Any other line: a command to a machine that is stopped, a console line to one that runs.
    Plain(&'a [u8]),
}

/// Returns whether a line is `#CP` only (a stop), `#CP` and a command, or a plain line.
///
/// The line is one that was cut and cleaned.
pub fn asked_of(line: &[u8]) -> Asked<'_>
    ensures { asked result ≡ asked_of line.now }
{
    let Some((first, rest)) = next_word(line) else {
        return Asked::Plain(line);
    };
    if first != b"#CP".as_slice() {
        return Asked::Plain(line);
    }
    if next_word(rest).is_none() {
        Asked::Stop
    } else {
        Asked::Command(rest)
    }
}
