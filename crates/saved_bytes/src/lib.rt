//! The bytes of a saved state.
//!
//! Its one theorem: no value's bytes begin another's (`IsCode` in `specs/Codes.antt`), so bytes are
//! those of one value. A type's code is made of these: numbers, flags, texts, options and lists.
//! What is written is proved to be the code, and a number, a flag or a text that was written is
//! read. Of other bytes nothing is proved: who reads a state writes it again and compares.
//!
//! ```
//! use saved_bytes::{Input, RestoreError, put_bytes, put_flag, put_number, put_one, put_zero};
//!
//! let mut out = Vec::new(alloc);
//! put_number(&mut out, 0x0102)?;
//! put_flag(&mut out, true)?;
//! put_bytes(&mut out, b"AB")?;
//! put_one(&mut out)?;
//! put_number(&mut out, 300)?;
//! put_zero(&mut out)?;
//! let mut input = Input::new(&out);
//! assert!(rt; input.next_u16() == Ok(0x0102));
//! assert!(rt; input.flag() == Ok(true));
//! assert!(rt; input.bytes() == Ok(b"AB".as_slice()));
//! assert!(rt; input.flag() == Ok(true));
//! assert!(rt; input.next_u8() == Err(RestoreError::Malformed)); // 300 does not fit 8 bits
//! assert!(rt; input.flag() == Ok(false));
//! assert!(rt; input.is_empty() && input.number() == Err(RestoreError::Malformed));
//! let mut words = Input::new(&out);
//! assert!(rt; words.next_u32() == Ok(0x0102));
//! assert!(rt; words.take(1) == Ok([1u8].as_slice()) && words.next_usize() == Ok(2));
//! ```
#![tactic(auto)]

ghost use Rattle.std.specs.Prelude.{◌≡◌, ◌++◌, ◌∷◌, ◌<◌, ◌^◌, ℕ, Bool, List, [], length};
ghost use Rattle.std.specs.Prelude.{IfOk, IsOkAnd, OnOk};
ghost use Rattle.saved_bytes.specs.Codes.{bytes, flag, number};
ghost use Rattle.saved_bytes.specs.Reading.{IsRead};

use std::alloc::{AllocError, AllocFailed};
use std::marker::Model;
use thiserror::Error;

/// Why a value cannot be restored from the bytes of a saved state.
#[derive(Clone, Copy, Debug, PartialEq, Eq, Error)]
pub enum RestoreError {
    /// The bytes are not those of such a value.
    #[error("the state is malformed")]
    Malformed,
    /// Memory was refused.
    #[error("no memory is left")]
    Memory,
}

impl From<AllocError> for RestoreError {
    ghost use Rattle.saved_bytes.specs.declared.RestoreError.TheVariants.{Memory};
    ghost use Rattle.std.specs.Prelude.{◌≡◌};

    ghost from_gives = { λ _ error. error ≡ Memory };

    /// Returns `RestoreError::Memory`, whatever the allocation was for.
    fn from(_error: AllocError) -> RestoreError {
        RestoreError::Memory
    }
}

impl<T: Drop> From<AllocFailed<T>> for RestoreError {
    ghost use Rattle.saved_bytes.specs.declared.RestoreError.TheVariants.{Memory};
    ghost use Rattle.std.specs.Prelude.{◌≡◌};

    ghost from_gives = { λ _ error. error ≡ Memory };

    /// Returns `RestoreError::Memory`; what was not taken is dropped.
    fn from(_refused: AllocFailed<T>) -> RestoreError {
        RestoreError::Memory
    }
}

/// Appends a number to `out` as eight bytes, the highest first.
///
/// # Errors
///
/// `AllocError` if memory is refused; `out` may have a part of it then.
#[tactic(auto, unfolding(crate::specs::Codes::number))]
pub fn put_number(out: &mut Vec<u8>, value: u64) -> Result<(), AllocError>
    ensures { OnOk result (out.new.items ≡ out.old.items ++ number value) }
{
    let eight = [
        (value / 0x100_0000_0000_0000) as u8,
        (value / 0x1_0000_0000_0000 % 256) as u8,
        (value / 0x100_0000_0000 % 256) as u8,
        (value / 0x1_0000_0000 % 256) as u8,
        (value / 0x100_0000 % 256) as u8,
        (value / 0x1_0000 % 256) as u8,
        (value / 256 % 256) as u8,
        (value % 256) as u8,
    ];
    out.extend_from_slice(&eight)?;
    Ok(())
}

/// Appends a flag to `out` as one byte: 1 if it is set, else 0.
///
/// # Errors
///
/// `AllocError` if memory is refused; `out` may have a part of it then.
pub fn put_flag(out: &mut Vec<u8>, value: bool) -> Result<(), AllocError>
    ensures { OnOk result (out.new.items ≡ out.old.items ++ flag value) }
{
    if value { put_one(out) } else { put_zero(out) }
}

/// Appends one byte of 1 to `out`, the mark that something follows.
///
/// # Errors
///
/// `AllocError` if memory is refused; `out` may have a part of it then.
pub fn put_one(out: &mut Vec<u8>) -> Result<(), AllocError>
    ensures { OnOk result (out.new.items ≡ out.old.items ++ 1 ∷ []) }
{
    out.push(1)?;
    Ok(())
}

/// Appends one byte of 0 to `out`, the mark that nothing follows.
///
/// # Errors
///
/// `AllocError` if memory is refused; `out` may have a part of it then.
pub fn put_zero(out: &mut Vec<u8>) -> Result<(), AllocError>
    ensures { OnOk result (out.new.items ≡ out.old.items ++ 0 ∷ []) }
{
    out.push(0)?;
    Ok(())
}

/// Appends to `out` how many bytes `value` has, as eight bytes, and then those bytes.
///
/// # Errors
///
/// `AllocError` if memory is refused; `out` may have a part of it then.
pub fn put_bytes(out: &mut Vec<u8>, value: &[u8]) -> Result<(), AllocError>
    ensures { OnOk result (out.new.items ≡ out.old.items ++ bytes value.now) }
{
    put_number(out, value.len() as u64)?;
    out.extend_from_slice(value)?;
    Ok(())
}

/// Returns the number in eight bytes, highest first.
#[tactic(auto, unfolding(crate::specs::Codes::number))]
fn number_in(eight: &[u8]) -> u64
    requires { length eight.now ≡ 8 }
    ensures { (n : ℕ) → n < 2 ^ 64 → eight.now ≡ number n → result ≡ n }
{
    u64::from(eight[0]) * 0x100_0000_0000_0000
        + u64::from(eight[1]) * 0x1_0000_0000_0000
        + u64::from(eight[2]) * 0x100_0000_0000
        + u64::from(eight[3]) * 0x1_0000_0000
        + u64::from(eight[4]) * 0x100_0000
        + u64::from(eight[5]) * 0x1_0000
        + u64::from(eight[6]) * 0x100
        + u64::from(eight[7])
}

/// The bytes of a saved state that are left to be read.
#[derive(Drop)]
pub struct Input<'a> {
    rest: &'a [u8],
}

impl<'a> Model for Input<'a> {
    ghost use Rattle.std.specs.Prelude.{ℕ, List};

    ghost Value = { List ℕ };

    ghost view = { λ input. input.rest.now };
}

impl<'a> Input<'a> {
    /// Returns an input that reads these bytes from the first one on.
    pub fn new(rest: &'a [u8]) -> Input<'a>
        ensures { result ≡ rest.now }
    {
        Input { rest }
    }

    /// Returns whether no byte is left.
    pub fn is_empty(&self) -> bool {
        self.rest.is_empty()
    }

    /// Takes the next `count` bytes and returns them.
    ///
    /// # Errors
    ///
    /// `Malformed` if fewer are left; then none is taken.
    pub fn take(&mut self, count: usize) -> Result<&'a [u8], RestoreError>
        ensures long { IfOk result (λ taken. length taken.now ≡ count) }
        ensures reads { (text rest : List ℕ) → length text ≡ count → self.old ≡ text ++ rest
            → IsOkAnd result (λ taken. taken.now ≡ text) × (self.new ≡ rest) }
    {
        if self.rest.len() < count {
            return Err(RestoreError::Malformed);
        }
        let (front, rest) = self.rest.split_at(count);
        self.rest = rest;
        Ok(front)
    }

    /// Takes eight bytes and returns the number in them, highest first.
    ///
    /// # Errors
    ///
    /// `Malformed` if fewer are left; then none is taken.
    #[tactic(auto, using(crate::proofs::Codes::number_long))]
    pub fn number(&mut self) -> Result<u64, RestoreError>
        ensures reads { (n : ℕ) (rest : List ℕ) → n < 2 ^ 64 → self.old ≡ number n ++ rest
            → IsRead result self.new n rest }
    {
        let eight = self.take(8)?;
        Ok(number_in(eight))
    }

    /// Takes one byte and returns whether it is 1.
    ///
    /// # Errors
    ///
    /// `Malformed` if it is neither 0 nor 1 (it is taken even then), or if none is left.
    pub fn flag(&mut self) -> Result<bool, RestoreError>
        ensures reads { (b : Bool) (rest : List ℕ) → self.old ≡ flag b ++ rest
            → IsRead result self.new b rest }
    {
        let one = self.take(1)?;
        match one[0] {
            0 => Ok(false),
            1 => Ok(true),
            _ => Err(RestoreError::Malformed),
        }
    }

    /// Takes a count of eight bytes and then as many bytes, and returns these.
    ///
    /// # Errors
    ///
    /// `Malformed` if too few are left; the count is taken even then.
    pub fn bytes(&mut self) -> Result<&'a [u8], RestoreError>
        ensures reads { (text rest : List ℕ) → length text < 2 ^ 64 → self.old ≡ bytes text ++ rest
            → IsOkAnd result (λ taken. taken.now ≡ text) × (self.new ≡ rest) }
    {
        let count = self.next_usize()?;
        self.take(count)
    }

    /// Takes an eight-byte number and returns it.
    ///
    /// # Errors
    ///
    /// `Malformed` if it does not fit 32 bits (it is taken even then), or if it is not there.
    pub fn next_u32(&mut self) -> Result<u32, RestoreError>
        ensures reads { (n : ℕ) (rest : List ℕ) → n < 2 ^ 32 → self.old ≡ number n ++ rest
            → IsRead result self.new n rest }
    {
        let number = self.number()?;
        match u32::try_from(number) {
            Ok(number) => Ok(number),
            Err(_) => Err(RestoreError::Malformed),
        }
    }

    /// Takes an eight-byte number and returns it.
    ///
    /// # Errors
    ///
    /// `Malformed` if it does not fit 16 bits (it is taken even then), or if it is not there.
    pub fn next_u16(&mut self) -> Result<u16, RestoreError>
        ensures reads { (n : ℕ) (rest : List ℕ) → n < 2 ^ 16 → self.old ≡ number n ++ rest
            → IsRead result self.new n rest }
    {
        let number = self.number()?;
        match u16::try_from(number) {
            Ok(number) => Ok(number),
            Err(_) => Err(RestoreError::Malformed),
        }
    }

    /// Takes an eight-byte number and returns it.
    ///
    /// # Errors
    ///
    /// `Malformed` if it does not fit 8 bits (it is taken even then), or if it is not there.
    pub fn next_u8(&mut self) -> Result<u8, RestoreError>
        ensures reads { (n : ℕ) (rest : List ℕ) → n < 2 ^ 8 → self.old ≡ number n ++ rest
            → IsRead result self.new n rest }
    {
        let number = self.number()?;
        match u8::try_from(number) {
            Ok(number) => Ok(number),
            Err(_) => Err(RestoreError::Malformed),
        }
    }

    /// Takes an eight-byte number and returns it.
    ///
    /// # Errors
    ///
    /// `Malformed` if it does not fit a `usize` (it is taken even then), or if it is not there.
    pub fn next_usize(&mut self) -> Result<usize, RestoreError>
        ensures reads { (n : ℕ) (rest : List ℕ) → n < 2 ^ 64 → self.old ≡ number n ++ rest
            → IsRead result self.new n rest }
    {
        let number = self.number()?;
        match usize::try_from(number) {
            Ok(number) => Ok(number),
            Err(_) => Err(RestoreError::Malformed),
        }
    }
}
