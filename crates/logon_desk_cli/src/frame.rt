//! The lines that the program reads.
ghost use Rattle.std.specs.Prelude.{◌≡◌, ◌<◌, ◌^◌, ◌∷◌, [], IfOk, MatchOption};
ghost use Rattle.std.specs.Result.{OnOk};
ghost use Rattle.logon_desk_cli.specs.Read.{IsRead, after_first, byte_of, bytes_at, bytes_of};
ghost use Rattle.logon_desk_cli.specs.Read.{frame_of, frame_with, keep_of, more_digit, number_at};
ghost use Rattle.logon_desk_cli.specs.Read.{number_from, pairs_of, says_of, verb_of};

use logon_desk::KeptLine;
use std::alloc::{AllocError, Global};
use std::marker::Model;
use terminal_lines::{Bytes, Guess};
use text_words::numbers::digit_value;
use text_words::words::{cut_word, next_word};

/// No time is later than this, in milliseconds.
const LATEST: u64 = 1 << 61;

/// What a line says.
#[derive(Drop)]
pub enum Frame {
    /// `USER 0 NAME`: somebody who logs on.
    User(Bytes),
    /// `ROOM 0 PLACES`: all users were named, and there are so many places for connections.
    Room(usize),
    /// `OPEN TIME PLACE ADDRESS`: a connection has come.
    Open {
        /// Its place.
        place: usize,
        /// A number for where it comes from.
        address: u64,
    },
    /// `CAME TIME PLACE BYTES`: bytes have come.
    Came {
        /// Where.
        place: usize,
        /// The bytes.
        bytes: Bytes,
    },
    /// `GONE TIME PLACE`: a connection has ended.
    Gone(usize),
    /// `TIME TIME`: time has passed.
    Passed,
    /// `SHOW TIME USER TEXT`: a line for a user, which is on the disk.
    Show {
        /// Whose.
        user: usize,
        /// The line.
        text: Bytes,
    },
    /// `KEEP TIME USER MINUTE TEXT`: a line of a user is kept.
    Keep {
        /// Whose.
        user: usize,
        /// The line.
        line: KeptLine,
    },
    /// `TURN TIME USER STATE`: a machine is off (0), is stopped (1) or runs (2).
    Turn {
        /// Whose.
        user: usize,
        /// Its state.
        state: u64,
    },
    /// `DONE TIME USER`: the line that was typed for a user is done.
    Done(usize),
    /// `SAYS TIME PLACE ANSWER NAME PASSWORD`: these are right (1) or wrong (0).
    Says {
        /// Where they were given.
        place: usize,
        /// Whether they are right.
        is_right: bool,
        /// The name and the password.
        guess: Guess,
    },
}

/// Why a line was not read.
#[derive(Drop)]
pub enum FrameError {
    /// Out of memory.
    Memory,
    /// It says nothing.
    Faulty,
}

impl From<AllocError> for FrameError {
    ghost use Rattle.logon_desk_cli.specs.declared.frame.FrameError.TheVariants.{Memory};
    ghost use Rattle.std.specs.Prelude.{◌≡◌};

    ghost from_gives = { λ _ e. e ≡ Memory };

    /// Returns the error that memory was refused.
    fn from(_: AllocError) -> FrameError {
        FrameError::Memory
    }
}

/// A frame and its time.
#[derive(Drop)]
pub struct TimedFrame {
    /// Its time, in milliseconds.
    pub time: u64,
    /// The frame.
    pub frame: Frame,
}

/// The first word of a line.
#[derive(Clone, Copy, Drop)]
enum Verb {
    User,
    Room,
    Open,
    Came,
    Gone,
    Time,
    Show,
    Keep,
    Turn,
    Done,
    Says,
}

/// The words of a line that were not read.
#[derive(Drop)]
struct Words<'a> {
    rest: &'a [u8],
}

impl<'a> Model for Words<'a> {
    ghost use Rattle.std.specs.Prelude.{ℕ, List};
    ghost use Rattle.text_words.specs.Words.{words_of};

    ghost Value = { List (List ℕ) };

    ghost view = { λ w. words_of w.rest.now };
}

impl<'a> Words<'a> {
    /// Removes and returns the next word of a line, if there is one.
    fn next(&mut self) -> Option<&'a [u8]>
        ensures { MatchOption result (self.old ≡ []) (λ word. self.old ≡ word.now ∷ self.new) }
    {
        let (word, rest) = next_word(self.rest)?;
        self.rest = rest;
        Some(word)
    }

    /// Removes the next word of a line, and returns the number that its hexadecimal digits, with
    /// letters in upper case, spell; a fault if it spells none.
    fn number(&mut self) -> Result<u64, FrameError>
        ensures value { IsRead result (number_at self.old) }
        ensures rest { OnOk result (self.new ≡ after_first self.old) }
    {
        match self.next() {
            Some(word) => number_of(word).ok_or(FrameError::Faulty),
            None => Err(FrameError::Faulty),
        }
    }

    /// Removes the next word of a line, and returns the number of a place or a user that it spells;
    /// a fault if it spells none.
    fn place(&mut self) -> Result<usize, FrameError>
        ensures value { IsRead result (number_at self.old) }
        ensures rest { OnOk result (self.new ≡ after_first self.old) }
    {
        Ok(self.number()? as usize)
    }

    /// Removes the next word of a line, and returns the bytes that its pairs of hexadecimal digits,
    /// with letters in upper case, spell, none for `-`; a fault if it spells none.
    fn bytes(&mut self, alloc: Global) -> Result<Bytes, FrameError>
        ensures value { IsRead result (bytes_at self.old) }
        ensures rest { OnOk result (self.new ≡ after_first self.old) }
    {
        match self.next() {
            Some(word) => bytes_of(alloc, word),
            None => Err(FrameError::Faulty),
        }
    }
}

/// Returns the number that hexadecimal digits, with letters in upper case, spell, zero for no
/// digit; None if one of them is no digit or it has more than 64 bits.
fn number_of(digits: &[u8]) -> Option<u64>
    ensures { result ≡ number_from 0 digits.now }
{
    let mut number: u64 = 0;
    for digit in digits {
        number = more_digit(number, digit_value(*digit)?)?;
    }
    Some(number)
}

/// Returns a number with one more hexadecimal digit; None if it has more than 64 bits.
fn more_digit(number: u64, digit: u8) -> Option<u64>
    ensures { result ≡ more_digit number digit }
{
    number.checked_mul(16)?.checked_add(u64::from(digit))
}

/// Returns the bytes that pairs of hexadecimal digits, with letters in upper case, spell, none for
/// `-`; a fault if the word is anything else.
fn bytes_of(alloc: Global, digits: &[u8]) -> Result<Bytes, FrameError>
    ensures { IsRead result (bytes_of digits.now) }
{
    if digits == b"-".as_slice() {
        return Ok(Bytes::new(alloc));
    }
    pairs_of(alloc, digits)
}

/// Returns the bytes that pairs of hexadecimal digits, with letters in upper case, spell, none for
/// no digit; a fault if a byte is no digit or one is left over.
fn pairs_of(alloc: Global, digits: &[u8]) -> Result<Bytes, FrameError>
    ensures { IsRead result (pairs_of digits.now) }
{
    let mut bytes = Bytes::new(alloc);
    let mut rest = digits;
    while let [high, low, after @ ..] = rest {
        bytes.push(byte_of(*high, *low)?)?;
        rest = after;
    }
    if rest.is_empty() {
        Ok(bytes)
    } else {
        Err(FrameError::Faulty)
    }
}

/// Returns the byte that two hexadecimal digits, with letters in upper case, spell; a fault if one
/// of them is no digit.
fn byte_of(high: u8, low: u8) -> Result<u8, FrameError>
    ensures { IsRead result (byte_of high low) }
{
    let high = digit_value(high).ok_or(FrameError::Faulty)?;
    let low = digit_value(low).ok_or(FrameError::Faulty)?;
    Ok(high * 16 + low)
}

/// Returns the frame that a line is, and its time, at most `LATEST`, and ignores words after those
/// of the frame; a fault if it is none.
///
/// # Errors
///
/// A `FrameError`: a faulty line, or refused memory.
pub fn frame_of(alloc: Global, line: &[u8]) -> Result<TimedFrame, FrameError>
    ensures value { IsRead result (frame_of line.now) }
    ensures time { IfOk result (λ found. found.time < 2 ^ 62) }
{
    let (word, rest) = cut_word(line);
    let verb = verb_of(word).ok_or(FrameError::Faulty)?;
    let mut words = Words {
        rest: rest.unwrap_or(&[]),
    };
    let time = words.number()?.min(LATEST);
    let frame = read(alloc, verb, &mut words)?;
    Ok(TimedFrame { time, frame })
}

/// Returns the verb that the first word of a line names; None if it names none.
fn verb_of(word: &[u8]) -> Option<Verb>
    ensures { result ≡ verb_of word.now }
{
    match word {
        b"USER" => Some(Verb::User),
        b"ROOM" => Some(Verb::Room),
        b"OPEN" => Some(Verb::Open),
        b"CAME" => Some(Verb::Came),
        b"GONE" => Some(Verb::Gone),
        b"TIME" => Some(Verb::Time),
        b"SHOW" => Some(Verb::Show),
        b"KEEP" => Some(Verb::Keep),
        b"TURN" => Some(Verb::Turn),
        b"DONE" => Some(Verb::Done),
        b"SAYS" => Some(Verb::Says),
        _ => None,
    }
}

/// Returns the frame of a verb with the next words of a line, which it removes; a fault if they are
/// malformed.
fn read(alloc: Global, verb: Verb, words: &mut Words) -> Result<Frame, FrameError>
    ensures { IsRead result (frame_with verb words.old) }
{
    match verb {
        Verb::User => Ok(Frame::User(words.bytes(alloc)?)),
        Verb::Room => Ok(Frame::Room(words.place()?)),
        Verb::Open => Ok(Frame::Open {
            place: words.place()?,
            address: words.number()?,
        }),
        Verb::Came => Ok(Frame::Came {
            place: words.place()?,
            bytes: words.bytes(alloc)?,
        }),
        Verb::Gone => Ok(Frame::Gone(words.place()?)),
        Verb::Time => Ok(Frame::Passed),
        Verb::Show => Ok(Frame::Show {
            user: words.place()?,
            text: words.bytes(alloc)?,
        }),
        Verb::Keep => keep_of(alloc, words),
        Verb::Turn => Ok(Frame::Turn {
            user: words.place()?,
            state: words.number()?,
        }),
        Verb::Done => Ok(Frame::Done(words.place()?)),
        Verb::Says => says_of(alloc, words),
    }
}

/// Returns the frame that a line of a user is kept, with the next words of a line, which it
/// removes; a fault if they are malformed.
fn keep_of(alloc: Global, words: &mut Words) -> Result<Frame, FrameError>
    ensures { IsRead result (keep_of words.old) }
{
    let user = words.place()?;
    let minute = words.bytes(alloc)?;
    let text = words.bytes(alloc)?;
    Ok(Frame::Keep {
        user,
        line: KeptLine { minute, text },
    })
}

/// Returns the frame of the host's answer to a guess, with the next words of a line, which it
/// removes; a fault if they are malformed.
fn says_of(alloc: Global, words: &mut Words) -> Result<Frame, FrameError>
    ensures { IsRead result (says_of words.old) }
{
    let place = words.place()?;
    let is_right = words.number()? == 1;
    let name = words.bytes(alloc)?;
    let password = words.bytes(alloc)?;
    Ok(Frame::Says {
        place,
        is_right,
        guess: Guess { name, password },
    })
}
