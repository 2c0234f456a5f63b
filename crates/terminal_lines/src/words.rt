//! The words of somebody who is about to log on.
ghost use Rattle.std.specs.Prelude.{◌≡◌, IfOk, if◌then◌else◌, map};
ghost use Rattle.text_words.specs.Words.{words_of};
ghost use Rattle.terminal_lines.specs.Words.{capital, said_by};

use crate::bytes::Bytes;
use std::alloc::{AllocError, Global};
use text_words::words::next_word;

/// A name with a password that may be his.
#[derive(Drop)]
pub struct Guess {
    /// The name.
    pub name: Bytes,
    /// The password.
    pub password: Bytes,
}

impl Guess {
    /// Returns a new copy of the name and the password.
    ///
    /// # Errors
    ///
    /// `AllocError` if memory is refused.
    pub fn copy(&self, alloc: Global) -> Result<Guess, AllocError>
        ensures { IfOk result (λ copy. copy ≡ self.now) }
    {
        Ok(Guess {
            name: Bytes::of(alloc, self.name.as_slice())?,
            password: Bytes::of(alloc, self.password.as_slice())?,
        })
    }
}

/// What a line says.
#[derive(Drop)]
pub enum Said {
    /// LOGON, a name and a password.
    Both(Guess),
    /// LOGON and a name.
    Name(Bytes),
    /// One word, which may be a password.
    Word(Bytes),
    /// Anything else.
    Other,
}

/// Returns what a line in capitals says: LOGON with a name and perhaps a password, one word, or
/// anything else.
///
/// # Errors
///
/// `AllocError` if memory is refused.
pub fn said_of(alloc: Global, line: &[u8]) -> Result<Said, AllocError>
    ensures { IfOk result (λ said. said ≡ said_by (words_of line.now)) }
{
    let Some((first, rest)) = next_word(line) else {
        return Ok(Said::Other);
    };
    let Some((name, rest)) = next_word(rest) else {
        return Ok(Said::Word(Bytes::of(alloc, first)?));
    };
    let is_logon = first == b"LOGON".as_slice();
    let Some((password, rest)) = next_word(rest) else {
        return named(alloc, is_logon, name);
    };
    match next_word(rest) {
        Some(_) => Ok(Said::Other),
        None => both(alloc, is_logon, name, password),
    }
}

/// Returns what a line of two words says: a name to log on with if the first was LOGON, else
/// anything else.
fn named(alloc: Global, is_logon: bool, name: &[u8]) -> Result<Said, AllocError>
    ensures { IfOk result (λ said. said ≡ (if is_logon then Said.Name name.now else Said.Other)) }
{
    if !is_logon {
        return Ok(Said::Other);
    }
    Ok(Said::Name(Bytes::of(alloc, name)?))
}

/// Returns what a line of three words says: a name and a password if the first was LOGON, else
/// anything else.
fn both(alloc: Global, is_logon: bool, name: &[u8], password: &[u8]) -> Result<Said, AllocError>
    ensures { IfOk result (λ said. said
        ≡ (if is_logon then Said.Both (record { name = name.now; password = password.now })
        else Said.Other)) }
{
    if !is_logon {
        return Ok(Said::Other);
    }
    Ok(Said::Both(Guess {
        name: Bytes::of(alloc, name)?,
        password: Bytes::of(alloc, password)?,
    }))
}

/// Returns a new copy of the line in capitals.
///
/// # Errors
///
/// `AllocError` if memory is refused.
pub fn in_capitals(alloc: Global, line: &[u8]) -> Result<Bytes, AllocError>
    ensures { IfOk result (λ capitals. capitals ≡ map capital line.now) }
{
    Ok(Bytes::owning(line.iter().map(|c| capital(*c)).collect(alloc)?))
}

/// Returns a letter as a capital, and any other byte as it is.
fn capital(c: u8) -> u8
    ensures { result ≡ capital c }
{
    if c >= b'a' && c <= b'z' { c - 32 } else { c }
}
