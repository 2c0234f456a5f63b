//! The fields of a line: serial numbers and bytes.
ghost use Rattle.std.specs.Prelude.{◌≡◌, ◌<◌, ◌≤◌, IfOk, OnErr, length};
ghost use Rattle.std.specs.Option.{option_map};
ghost use Rattle.std.specs.List.{list_all};
ghost use Rattle.ckd_text.specs.Fields.{TakesMemory, bytes_of, five_of, is_hexadecimal};
ghost use Rattle.ckd_text.specs.Fields.{is_letter_or_digit};
ghost use Rattle.ckd_text.specs.Fields.{is_serial, serial_of, spelled_of};

use hex::FromHexError;
use std::alloc::{AllocError, Global};
use text_words::numbers::{digit_value, is_digit};

/// Returns the serial number that one to six upper-case letters and digits spell, with blanks at
/// its end, or `None` if the word is anything else.
pub fn serial_of(word: &[u8]) -> Option<[u8; 6]>
    ensures { result ≡ serial_of word.now }
{
    if !is_serial(word) {
        return None;
    }
    let mut serial = [b' '; 6];
    serial[..word.len()].copy_from_slice(word);
    Some(serial)
}

/// Returns whether a word is one to six upper-case letters and digits.
fn is_serial(word: &[u8]) -> bool
    ensures { result ≡ is_serial word.now }
{
    if word.is_empty() || word.len() > 6 {
        return false;
    }
    word.iter().all(|c| is_letter_or_digit(*c))
}

/// Returns whether a byte is an upper-case letter or a digit.
fn is_letter_or_digit(c: u8) -> bool
    ensures { result ≡ is_letter_or_digit c }
{
    b'A' <= c && c <= b'Z' || is_digit(c)
}

/// Returns the five bytes that ten hexadecimal digits, with letters in upper case, spell, or `None`
/// if the word is anything else.
pub fn five_of(word: &[u8]) -> Option<[u8; 5]>
    ensures { result ≡ five_of word.now }
{
    if !are_hexadecimal(word) {
        return None;
    }
    let mut bytes = [0; 5];
    match hex::decode_to_slice(word, &mut bytes) {
        Ok(()) => Some(bytes),
        Err(_) => None,
    }
}

/// Returns, in a new vector, the bytes that pairs of hexadecimal digits, with letters in upper
/// case, spell, or none for `-`; `None` if the word is anything else.
///
/// # Errors
///
/// `AllocError` if memory is refused.
pub fn bytes_of(alloc: Global, word: &[u8]) -> Result<Option<Vec<u8>>, AllocError>
    ensures ok { IfOk result
        (λ found. option_map (λ bytes. bytes.items) found ≡ bytes_of word.now) }
    ensures memory { OnErr result (TakesMemory word.now) }
{
    if word == b"-".as_slice() {
        return Ok(Some(Vec::new(alloc)));
    }
    if word.is_empty() {
        return Ok(None);
    }
    spelled_of(alloc, word)
}

/// Returns, in a new vector, the bytes that pairs of hexadecimal digits, with letters in upper
/// case, spell, or `None` if the word is anything else.
fn spelled_of(alloc: Global, word: &[u8]) -> Result<Option<Vec<u8>>, AllocError>
    ensures ok { IfOk result
        (λ found. option_map (λ bytes. bytes.items) found ≡ spelled_of word.now) }
    ensures memory { OnErr result (TakesMemory word.now) }
{
    if !are_hexadecimal(word) {
        return Ok(None);
    }
    match hex::decode(alloc, word) {
        Ok(bytes) => Ok(Some(bytes)),
        Err(FromHexError::OutOfMemory) => Err(AllocError),
        Err(_) => Ok(None),
    }
}

/// Returns whether all bytes are hexadecimal digits, with letters in upper case.
fn are_hexadecimal(word: &[u8]) -> bool
    ensures { result ≡ list_all is_hexadecimal word.now }
{
    word.iter().all(|c| is_hexadecimal(*c))
}

/// Returns whether a byte is a hexadecimal digit, with letters in upper case.
fn is_hexadecimal(c: u8) -> bool
    ensures { result ≡ is_hexadecimal c }
{
    digit_value(c).is_some()
}
