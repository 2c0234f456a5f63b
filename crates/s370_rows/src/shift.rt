//! Shifts of a register and of a pair.
ghost use Rattle.std.specs.Prelude.{◌≡◌, ℕ, ◌+◌, ◌*◌, ◌%◌, ◌/◌, ◌^◌, ◌<◌, ◌≤◌, ◌*ℤ◌, pos};
ghost use Rattle.s370_rows.specs.Shift.{right_word, right_pair, left_word, left_pair, word_shift};
ghost use Rattle.s370_rows.specs.Shift.{word_shifted, pair_shift, pair_shifted, plain_pair};

use crate::arithmetic::{Computed, kept, sign_of};
use crate::cpu::Cpu;
use crate::ending::Completion;
use crate::rows::overflow_ending;
use s370_num::{ConditionCode, Register};

/// Where bits are shifted to, and whether the sign stays.
#[derive(Clone, Copy, PartialEq, Eq)]
pub enum Shift {
    Right,
    Left,
    RightLogical,
    LeftLogical,
}

/// A new value of a pair, a condition code, and whether a signed result did not fit.
#[derive(Clone, Copy, PartialEq, Eq)]
pub struct ComputedPair {
    pub value: u64,
    pub condition: ConditionCode,
    pub overflows: bool,
}

/// Returns a signed number times 2 to the power `count`.
#[inline(always)]
fn scaled(number: i32, count: u8) -> i64
    requires { count < 32 }
    ensures { result ≡ number *ℤ pos (2 ^ count) }
{
    number as i64 * (1u32 << count) as i64
}

/// Returns a word shifted right with copies of its sign, and the condition code of the result.
#[inline(always)]
fn shift_right(a: u32, count: u8) -> Computed
    requires { count < 64 }
    ensures { result ≡ right_word a count }
{
    let number = (a.cast_signed() as i64) >> count;
    kept((number as i32).cast_unsigned(), sign_of(number))
}

/// Returns a word shifted left under its sign by less than 32 bits, with its condition code, or
/// with code 3 and overflow if a significant bit is lost.
#[inline(always)]
fn shift_left_near(a: u32, count: u8) -> Computed
    requires { count < 32 }
    ensures { result ≡ left_word a count }
{
    let number = scaled(a.cast_signed(), count);
    if number >= -0x8000_0000 && number <= 0x7FFF_FFFF {
        kept((number as i32).cast_unsigned(), sign_of(number))
    } else {
        let low = (a as u64) << count;
        Computed {
            value: a / 0x8000_0000 * 0x8000_0000 + (low % 0x8000_0000) as u32,
            condition: ConditionCode::THREE,
            overflows: true,
        }
    }
}

/// Returns a word shifted left under its sign by 32 bits or more: all its significant bits are
/// lost, unless it is zero.
#[inline(always)]
fn shift_left_far(a: u32, count: u8) -> Computed
    requires far { 32 ≤ count }
    requires short { count < 64 }
    ensures { result ≡ left_word a count }
{
    if a == 0 {
        return kept(0, ConditionCode::ZERO);
    }
    Computed {
        value: a / 0x8000_0000 * 0x8000_0000,
        condition: ConditionCode::THREE,
        overflows: true,
    }
}

/// Returns a word shifted left under its sign, with its condition code, or with code 3 and overflow
/// if a significant bit is lost.
#[inline(always)]
fn shift_left(a: u32, count: u8) -> Computed
    requires { count < 64 }
    ensures { result ≡ left_word a count }
{
    if count < 32 {
        shift_left_near(a, count)
    } else {
        shift_left_far(a, count)
    }
}

/// Returns what a shift makes of a word and of the condition code, which logical shifts keep.
#[inline(always)]
fn shift_word(shift: Shift, condition: ConditionCode, a: u32, count: u8) -> Computed
    requires { count < 64 }
    ensures { result ≡ word_shift shift condition a count }
{
    match shift {
        Shift::Right => shift_right(a, count),
        Shift::Left => shift_left(a, count),
        Shift::RightLogical => kept(((a as u64) >> count) as u32, condition),
        Shift::LeftLogical => kept((((a as u64) << count) & 0xFFFF_FFFF) as u32, condition),
    }
}

/// Does SRL (88), SLL (89), SRA (8A) and SLA (8B): shifts a register; SRA and SLA set the condition
/// code, and SLA may overflow.
#[inline(always)]
pub fn shift_row(shift: Shift, cpu: &mut Cpu, register: Register, count: u8) -> Completion
    requires { count < 64 }
    ensures { word_shifted shift cpu.old register count
        ≡ record { ending = result; cpu = cpu.new } }
{
    let a = cpu.general[register.index()];
    let computed = shift_word(shift, cpu.psw.condition(), a, count);
    cpu.general[register.index()] = computed.value;
    cpu.psw.set_condition(computed.condition);
    overflow_ending(cpu, computed.overflows)
}

/// Returns a 64-bit result with this value and this condition code, and no overflow.
#[inline(always)]
fn kept_pair(value: u64, condition: ConditionCode) -> ComputedPair
    ensures { result ≡ plain_pair value condition }
{
    ComputedPair {
        value,
        condition,
        overflows: false,
    }
}

/// Returns 64 bits shifted right with copies of their sign, and the condition code of the result.
#[inline(always)]
fn shift_right_pair(a: u64, count: u8) -> ComputedPair
    requires { count < 64 }
    ensures { result ≡ right_pair a count }
{
    let number = a.cast_signed() >> count;
    kept_pair(number.cast_unsigned(), sign_of(number))
}

/// Returns the distance of a signed number of 64 bits from zero, or from -1 if it is negative: its
/// bits, each of them changed if the sign is one.
#[inline(always)]
fn unsigned_bits(a: u64) -> u64
    ensures positive { a < 2 ^ 63 → result ≡ a }
    ensures negative { 2 ^ 63 ≤ a → result + a + 1 ≡ 2 ^ 64 }
{
    if a < 0x8000_0000_0000_0000 { a } else { !a }
}

/// Returns 64 bits shifted left under their sign, with their condition code, or with code 3 and
/// overflow if a significant bit is lost.
#[inline(always)]
fn shift_left_pair(a: u64, count: u8) -> ComputedPair
    requires { count < 64 }
    ensures { result ≡ left_pair a count }
{
    let low = a << count;
    if unsigned_bits(a) >> (63 - count) == 0 {
        return kept_pair(low, sign_of(a.cast_signed()));
    }
    ComputedPair {
        value: a / 0x8000_0000_0000_0000 * 0x8000_0000_0000_0000 + low % 0x8000_0000_0000_0000,
        condition: ConditionCode::THREE,
        overflows: true,
    }
}

/// Returns what a shift makes of 64 bits and of the condition code, which logical shifts keep.
#[inline(always)]
fn shift_pair(shift: Shift, condition: ConditionCode, a: u64, count: u8) -> ComputedPair
    requires { count < 64 }
    ensures { result ≡ pair_shift shift condition a count }
{
    match shift {
        Shift::Right => shift_right_pair(a, count),
        Shift::Left => shift_left_pair(a, count),
        Shift::RightLogical => kept_pair(a >> count, condition),
        Shift::LeftLogical => kept_pair(a << count, condition),
    }
}

/// Does SRDL (8C), SLDL (8D), SRDA (8E) and SLDA (8F): shifts a register pair; SRDA and SLDA set
/// the condition code, and SLDA may overflow.
#[inline(always)]
pub fn shift_pair_row(shift: Shift, cpu: &mut Cpu, register: Register, count: u8) -> Completion
    requires register { register < 15 }
    requires count { count < 64 }
    ensures { pair_shifted shift cpu.old register count
        ≡ record { ending = result; cpu = cpu.new } }
{
    let a = cpu.pair(register);
    let computed = shift_pair(shift, cpu.psw.condition(), a, count);
    cpu.set_pair(register, computed.value);
    cpu.psw.set_condition(computed.condition);
    overflow_ending(cpu, computed.overflows)
}
