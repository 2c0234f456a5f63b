//! The operands of commands: addresses, registers and the bytes that are stored.
ghost use Rattle.std.specs.Prelude.{◌≡◌, ◌+◌, ◌*◌, ◌-◌, if◌then◌else◌, ◌<◌, ◌≤◌, ◌++◌, ◌∷◌, []};
ghost use Rattle.std.specs.Prelude.{length, IfSome, IfNone, Option, Some, None};
ghost use Rattle.text_words.specs.Numbers.{is_digit};
ghost use Rattle.cp_console.specs.Operands.{address_of, byte_of, bytes_of, bytes_spelled};
ghost use Rattle.cp_console.specs.Operands.{contents_of, device_of, file_of, in_64_bits};
ghost use Rattle.cp_console.specs.Operands.{register_of};

use s370_num::{Addr24, DevAddr, Register, Word};
use std::marker::Model;
use text_words::numbers::{digit_value, hexadecimal_of, is_digit};

/// The bytes that a command stores: at most sixteen.
#[derive(Clone, Copy, Debug, PartialEq, Eq)]
pub struct StoredBytes {
    bytes: [u8; 16],
    count: usize,
}

impl Model for StoredBytes {
    ghost use Rattle.std.specs.Prelude.{◌≡◌, ℕ, ◌-◌, ◌≤◌, ◌++◌, List, length, take, replicate};
    ghost use Rattle.cp_console.specs.StoredBytes.{IsPadded};

    ghost Value = { List ℕ };

    ghost view = { λ s. take s.count s.bytes };

    ghost invariant = { λ s. IsPadded s.bytes s.count };

    ghost inverse = { λ xs. record {
      bytes = xs ++ replicate (16 - length xs) 0;
      count = length xs;
    } };
}

impl StoredBytes {
    /// Returns a buffer of no bytes, which has room for sixteen.
    fn new() -> StoredBytes
        ensures { result ≡ [] }
    {
        StoredBytes {
            bytes: [0; 16],
            count: 0,
        }
    }

    /// Returns these bytes with one more at their end; there have to be fewer than sixteen.
    fn with(self, byte: u8) -> StoredBytes
        requires { length self < 16 }
        ensures { result ≡ self ++ byte ∷ [] }
    {
        let mut bytes = self.bytes;
        bytes[self.count] = byte;
        StoredBytes {
            bytes,
            count: self.count + 1,
        }
    }

    /// Borrows the bytes in the order in which they are stored.
    pub fn as_slice(&self) -> &[u8]
        ensures value { result.now ≡ self.now }
        ensures bound { length result.now ≤ 16 }
    {
        &self.bytes[..self.count]
    }
}

/// Returns the storage address that 1 to 6 hexadecimal digits, with letters in upper case, spell,
/// or `None` if the word is anything else.
pub fn address_of(word: &[u8]) -> Option<Addr24>
    ensures { result ≡ address_of word.now }
{
    Addr24::new(hexadecimal_of(1, 6, word)?)
}

/// Returns the word of 32 bits that 8 hexadecimal digits, with letters in upper case, spell, or
/// `None` if `word` is anything else.
pub fn contents_of(word: &[u8]) -> Option<Word>
    ensures { result ≡ contents_of word.now }
{
    Some(Word::from_unsigned(hexadecimal_of(8, 8, word)?))
}

/// Returns the register that a decimal number from 0 to 15, without a leading zero, names, or
/// `None`.
pub fn register_of(word: &[u8]) -> Option<Register>
    ensures { result ≡ register_of word.now }
{
    match word {
        [units @ b'0'..=b'9'] => Some(Register::new(*units - b'0')),
        [b'1', units @ b'0'..=b'5'] => Some(Register::new(*units - b'0' + 10)),
        _ => None,
    }
}

/// Returns the device address that three hexadecimal digits, with letters in upper case, spell, or
/// `None` if the word is anything else.
pub fn device_of(word: &[u8]) -> Option<DevAddr>
    ensures { result ≡ device_of word.now }
{
    Some(DevAddr::new(hexadecimal_of(3, 3, word)? as u16))
}

/// Returns the file number that decimal digits spell, or `None` if there is none or it exceeds 64
/// bits.
///
/// Leading zeros are allowed.
#[tactic(auto, using(crate::proofs::FileNumbers::fits))]
pub fn file_of(word: &[u8]) -> Option<u64>
    ensures { result ≡ file_of word.now }
{
    if word.is_empty() {
        return None;
    }
    let mut number = 0;
    for digit in word {
        number = with_digit(number, *digit)?;
    }
    Some(number)
}

/// Returns the number with one more decimal digit at its right, or `None` if it is no digit or the
/// number exceeds 64 bits.
fn with_digit(number: u64, digit: u8) -> Option<u64>
    ensures { result ≡ (if is_digit digit then in_64_bits (number * 10 + (digit - 48)) else None) }
{
    if !is_digit(digit) {
        return None;
    }
    number.checked_mul(10)?.checked_add(u64::from(digit - b'0'))
}

/// Returns the bytes, at most sixteen, that pairs of hexadecimal digits, with letters in upper
/// case, spell, or `None` if a digit is bad or has no pair.
fn bytes_spelled(word: &[u8]) -> Option<StoredBytes>
    requires { length word.now ≤ 32 }
    ensures { result ≡ bytes_spelled word.now }
{
    let mut bytes = StoredBytes::new();
    let mut rest = word;
    'pairs: while let Some((left, right, after)) = cut_pair(rest) {
        bytes = bytes.with(byte_of(left, right)?);
        rest = after;
    }
    if rest.is_empty() { Some(bytes) } else { None }
}

/// Returns the first two digits and the digits after them, or `None` if there are fewer than two.
fn cut_pair(digits: &[u8]) -> Option<(u8, u8, &[u8])>
    ensures found { IfSome result (λ cut. digits.now ≡ cut.0 ∷ cut.1 ∷ cut.2.now) }
    ensures none { IfNone result (length digits.now < 2) }
{
    match digits {
        [left, right, rest @ ..] => Some((*left, *right, rest)),
        _ => None,
    }
}

/// Returns the 1 to 16 bytes that pairs of hexadecimal digits, with letters in upper case, spell,
/// or `None` if the word is anything else.
pub fn bytes_of(word: &[u8]) -> Option<StoredBytes>
    ensures { result ≡ bytes_of word.now }
{
    if word.len() < 2 || word.len() > 32 {
        return None;
    }
    bytes_spelled(word)
}

/// Returns the byte that two hexadecimal digits, with letters in upper case, spell, or `None` if
/// one is no such digit.
fn byte_of(left: u8, right: u8) -> Option<u8>
    ensures { result ≡ byte_of left right }
{
    let high = digit_value(left)?;
    let low = digit_value(right)?;
    Some(high * 16 + low)
}
