//! The name of a user.
ghost use Rattle.std.specs.Prelude.{◌≡◌, if◌then◌else◌, Option, Some, None};
ghost use Rattle.cp_directory.specs.Names.{is_letter, is_letter_or_digit, is_name, is_short_word};

use std::marker::Model;
use text_words::numbers::is_digit;

/// A user's name: one to eight of `A` to `Z` and `0` to `9`, the first a letter, and not `SYSTEM`.
#[derive(Debug, Drop)]
pub struct UserName {
    bytes: [u8; 8],
    len: usize,
}

impl Model for UserName {
    ghost use Rattle.std.specs.Prelude.{◌≤◌, ◌≡◌, ℕ, List, take, true};
    ghost use Rattle.cp_directory.specs.Names.{is_name};

    ghost Value = { List ℕ };

    ghost view = { λ n. take n.len n.bytes };

    ghost invariant = { λ n. (n.len ≤ 8) × (is_name (take n.len n.bytes) ≡ true) };
}

impl UserName {
    ghost use Rattle.std.specs.Prelude.{true};

    /// Returns the user's name that a word spells; None if it is not one to eight upper-case
    /// letters and digits, begins with a digit, or is `SYSTEM`.
    pub fn new(word: &[u8]) -> Option<UserName>
        ensures { result ≡ (if is_name word.now then Some word.now else None) }
    {
        if !is_name(word) {
            return None;
        }
        let mut bytes = [0; 8];
        for (i, byte) in word.iter().enumerate() {
            bytes[i] = *byte;
        }
        Some(UserName {
            bytes,
            len: word.len(),
        })
    }

    /// Returns the characters of the name.
    pub fn as_bytes(&self) -> &[u8]
        ensures bytes { result.now ≡ self.now }
        ensures lawful { is_name result.now ≡ true }
    {
        &self.bytes[..self.len]
    }
}

/// Returns whether a word can be a user's name: one to eight upper-case letters and digits, a
/// letter first, and not `SYSTEM`.
fn is_name(word: &[u8]) -> bool
    ensures { result ≡ is_name word.now }
{
    if !is_short_word(word) || word == b"SYSTEM".as_slice() {
        return false;
    }
    is_letter(word[0])
}

/// Returns whether a word is one to eight characters of `A` to `Z` and `0` to `9`, as a password
/// is.
pub fn is_short_word(word: &[u8]) -> bool
    ensures { result ≡ is_short_word word.now }
{
    if word.is_empty() || word.len() > 8 {
        return false;
    }
    word.iter().all(|c| is_letter_or_digit(*c))
}

/// Returns whether this is one of `A` to `Z` and `0` to `9`.
pub fn is_letter_or_digit(c: u8) -> bool
    ensures { result ≡ is_letter_or_digit c }
{
    is_letter(c) || is_digit(c)
}

/// Returns whether a byte is one of `A` to `Z`.
fn is_letter(c: u8) -> bool
    ensures { result ≡ is_letter c }
{
    b'A' <= c && c <= b'Z'
}
