//! The lines of a text.
ghost use Rattle.std.specs.Prelude.{◌≡◌, ◌<◌, ◌∷◌, length, ◌==◌};
ghost use Rattle.std.specs.List.{position};
ghost use Rattle.text_words.specs.Lines.{lines_of, is_comment};

use std::marker::Model;

/// Returns the index of the first `byte` among `bytes`, if there is one.
pub fn place_of(byte: u8, bytes: &[u8]) -> Option<usize>
    ensures { result ≡ position (λ c. c == byte) bytes.now }
{
    bytes.iter().position(|c| *c == byte)
}

/// Returns the text before its first LF and the text after that, or all of it and nothing if it has
/// no LF.
pub fn cut_line(text: &[u8]) -> (&[u8], &[u8])
    requires { 0 < length text.now }
    ensures lines { lines_of text.now ≡ result.0.now ∷ lines_of result.1.now }
    ensures shorter { length result.1.now < length text.now }
{
    match place_of(b'\n', text) {
        Some(at) => (&text[..at], &text[at + 1..]),
        None => (text, &[]),
    }
}

/// A line of a text, without its LF.
#[derive(Clone, Copy)]
pub struct NumberedLine<'a> {
    /// The line's number, from 1.
    pub number: usize,
    /// The line's characters.
    pub text: &'a [u8],
}

/// The lines of a text that are left to be read, in order.
#[derive(Drop)]
pub struct NumberedLines<'a> {
    number: usize,
    rest: &'a [u8],
}

impl<'a> Model for NumberedLines<'a> {
    ghost use Rattle.std.specs.Prelude.{◌+◌, ◌^◌, ◌<◌, length};
    ghost use Rattle.text_words.specs.Lines.{LinesLeft, lines_of};

    ghost Value = { LinesLeft };

    ghost view = { λ l. record { number = l.number; lines = lines_of l.rest.now } };

    ghost invariant = { λ l. l.number + length l.rest.now < 2 ^ 64 };
}

/// Returns an iterator over the lines of a text and their numbers, from 1 on.
///
/// ```text
/// for line in numbered_lines(b"USER A PW 8K\n*\n") {
///     read(line.text).map_err(|fault| fault.at(line.number))?;
/// }
/// ```
pub fn numbered_lines(text: &[u8]) -> NumberedLines<'_>
    ensures { result ≡ record { number = 1; lines = lines_of text.now } }
{
    NumberedLines {
        number: 1,
        rest: text,
    }
}

impl<'a> Iterator for NumberedLines<'a> {
    type Item = NumberedLine<'a>;

    ghost use Rattle.std.specs.Prelude.{length};
    ghost use Rattle.std.specs.Iterator.{at_most};
    ghost use Rattle.text_words.specs.Lines.{YieldsLine};

    ghost next_gives = { YieldsLine };

    ghost remaining = { λ l. at_most (length l.lines) };

    /// Returns the next line, without its LF, and its number, or `None` at the end of the text.
    fn next(&mut self) -> Option<NumberedLine<'a>> {
        if self.rest.is_empty() {
            return None;
        }
        let number = self.number;
        let (text, rest) = cut_line(self.rest);
        self.number += 1;
        self.rest = rest;
        Some(NumberedLine { number, text })
    }
}

/// Returns whether the first character of a line is `*`.
pub fn is_comment(line: &[u8]) -> bool
    ensures { result ≡ is_comment line.now }
{
    match line {
        [] => false,
        [first, ..] => *first == b'*',
    }
}
