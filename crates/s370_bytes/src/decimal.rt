//! Numbers of 15 decimal digits and a sign.
ghost use Rattle.std.specs.Prelude.{◌≡◌, ℕ, ◌^◌, ◌<◌, length, IfSome};
ghost use Rattle.s370_rows.specs.State.{state_of};
ghost use Rattle.s370_rows.specs.Reach.{MeetsBy};
ghost use Rattle.s370_rows.specs.Rows.{MeetsRow};
ghost use Rattle.s370_bytes.specs.Decimal.{MeetsEnded, rebased, decimal_value, signed_value};
ghost use Rattle.s370_bytes.specs.Decimal.{binary_left, binary_loaded, decimal_of, decimal_stored};

use s370_num::Register;
use s370_psw::ProgramCode;
use s370_rows::{Completion, Cpu, Instruction, Reach, Refusal, grant};
use s370_store::{Access, Range, Storage, load_doubleword};

/// Returns the number that 15 packed decimal digits are, or `None` if one of them is no digit.
fn decimal_value(digits: u64) -> Option<u64>
    ensures value { result ≡ decimal_value digits }
    ensures below { IfSome result (λ n. n < 10 ^ 15) }
{
    let mut rest = digits;
    let mut value = 0;
    let mut scale = 1;
    for _k in 0..15u32 {
        let digit = rest % 16;
        if digit > 9 {
            return None;
        }
        value += digit * scale;
        scale *= 10;
        rest /= 16;
    }
    Some(value)
}

/// Returns the number that 15 packed decimal digits and a sign are, or `None` if a digit or the
/// sign is invalid.
#[inline]
fn signed_value(doubleword: u64) -> Option<i64>
    ensures { result ≡ signed_value doubleword }
{
    let sign = doubleword % 16;
    if sign < 10 {
        return None;
    }
    let value = decimal_value(doubleword / 16)? as i64;
    Some(if sign == 11 || sign == 13 {
        -value
    } else {
        value
    })
}

/// Loads the low 32 bits of a packed decimal number into a register; returns a divide exception if
/// it does not fit, and an error if a digit or the sign is invalid.
#[inline]
fn load_binary(
    cpu: &mut Cpu,
    register: Register,
    doubleword: u64,
) -> Result<Completion, ProgramCode>
    ensures { MeetsEnded (binary_left cpu.old register (signed_value doubleword)) cpu.old result
        cpu.new }
{
    match signed_value(doubleword) {
        None => Err(ProgramCode::Data),
        Some(number) => {
            cpu.general[register.index()] = (number.cast_unsigned() & 0xFFFF_FFFF) as u32;
            if number >= -0x8000_0000 && number <= 0x7FFF_FFFF {
                Ok(Completion::Done)
            } else {
                Ok(Completion::Interrupted(ProgramCode::FixedPointDivide))
            }
        }
    }
}

/// Does CVB (4F): loads a packed decimal doubleword into a register in binary; if it does not fit,
/// its low bits are loaded and the result is a divide exception.
///
/// # Errors
///
/// A `Refusal`: the program interruption, or an absent page that has to be brought first. Nothing
/// has changed.
pub fn binary_row<S: Storage>(
    cpu: &mut Cpu,
    storage: &S,
    i: Instruction,
) -> Result<Completion, Refusal>
    ensures { let before = state_of cpu.old (S.memory storage.now) in
        let after = state_of cpu.new (S.memory storage.now) in
        MeetsRow (binary_loaded before i) (S.present storage.now) before result after }
{
    let at = cpu.indexed(i.r2(), i.second_half).get();
    grant(
        cpu,
        storage,
        Range {
            start: at,
            count: 8,
        },
        Access::Fetch,
    )?;
    let doubleword = load_doubleword(storage, at);
    match load_binary(cpu, i.r1(), doubleword) {
        Ok(ending) => Ok(ending),
        Err(code) => Err(Refusal::Program(code)),
    }
}

/// Returns the 15 packed decimal digits of a number below ten to the fifteenth.
fn decimal_digits(number: u64) -> u64
    ensures value { result ≡ rebased 16 10 15 number }
    ensures below { result < 2 ^ 60 }
{
    let mut rest = number;
    let mut value = 0;
    let mut scale = 1;
    for _k in 0..15u32 {
        // The other digits are zero.
        if rest == 0 {
            return value;
        }
        value += rest % 10 * scale;
        scale *= 16;
        rest /= 10;
    }
    value
}

/// Returns a word, taken as a signed number, as 15 packed decimal digits and a sign.
#[inline]
#[tactic(auto, unfolding(crate::specs::Decimal::decimal_of))]
fn decimal_of(word: u32) -> u64
    ensures { result ≡ decimal_of word }
{
    let number = word.cast_signed();
    let sign = if number < 0 { 13 } else { 12 };
    decimal_digits(number.unsigned_abs() as u64) * 16 + sign
}

/// Does CVD (4E): stores a register, taken as a signed number, as a packed decimal doubleword.
///
/// # Errors
///
/// What `R` says of an operand that is refused. Nothing has changed.
#[inline(always)]
pub fn decimal_row<S: Storage, R: Reach<S>>(
    cpu: &Cpu,
    storage: &mut S,
    i: Instruction,
    reach: &mut R,
) -> Result<Completion, R::Refused>
    requires ready { R.IsReady storage.old cpu.now.psw.key reach.old }
    ensures row { let before = state_of cpu.now (S.memory storage.old) in
        let after = state_of cpu.now (S.memory storage.new) in
        MeetsBy R.Refused R.Refuses (decimal_stored before i) (S.present storage.old) before result
        after }
    ensures rest { S.Keeps storage.old storage.new }
    ensures ready { R.IsReady storage.old cpu.now.psw.key reach.new }
{
    let start = cpu.indexed(i.r2(), i.second_half);
    let span = reach.stored(cpu, storage, start, 8)?;
    let decimal = decimal_of(cpu.general[i.r1().index()]);
    R::store(storage, span, start.get(), &decimal.to_be_bytes());
    Ok(Completion::Done)
}
