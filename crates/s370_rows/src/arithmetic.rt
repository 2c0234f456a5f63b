//! The operations on a register and another operand: of a register, a word or a halfword.
ghost use Rattle.std.specs.Prelude.{◌≡◌, ℕ, ◌+◌, ◌/◌, ◌%◌, ◌^◌, ◌==◌, nat_lt};
ghost use Rattle.s370_rows.specs.Arithmetic.{computed, plain, exact, exact_number, sign_code};
ghost use Rattle.s370_rows.specs.Arithmetic.{order_code, zero_code, carry_code};

use s370_num::ConditionCode;

/// An operation on a register and another operand.
#[derive(Clone, Copy, PartialEq, Eq)]
pub enum Arithmetic {
    Load,
    LoadAndTest,
    LoadPositive,
    LoadNegative,
    LoadComplement,
    Compare,
    CompareLogical,
    Add,
    Subtract,
    AddLogical,
    SubtractLogical,
    And,
    Or,
    ExclusiveOr,
}

/// What an operation makes: the new contents of its register, the condition code, and whether a
/// signed result did not fit.
#[derive(Clone, Copy, PartialEq, Eq)]
pub struct Computed {
    pub value: u32,
    pub condition: ConditionCode,
    pub overflows: bool,
}

/// Returns what an operation on `a` and `b` gives: a register's new contents, the condition code,
/// and whether it overflows.
///
/// Loads other than LTR, LPR, LNR and LCR keep the condition code that is passed.
#[inline(always)]
pub fn compute(operation: Arithmetic, condition: ConditionCode, a: u32, b: u32) -> Computed
    ensures { result ≡ computed operation condition a b }
{
    let x = a.cast_signed() as i64;
    let y = b.cast_signed() as i64;
    match operation {
        Arithmetic::Load => kept(b, condition),
        Arithmetic::LoadAndTest => kept(b, sign_of(y)),
        Arithmetic::LoadPositive => judged_number(b.cast_signed().unsigned_abs() as i64),
        Arithmetic::LoadNegative => judged_number(-(b.cast_signed().unsigned_abs() as i64)),
        Arithmetic::LoadComplement => judged_number(-y),
        Arithmetic::Compare => kept(a, sign_of(x - y)),
        Arithmetic::CompareLogical => kept(a, order_of(a, b)),
        Arithmetic::Add => judged(a.wrapping_add(b), x + y),
        Arithmetic::Subtract => judged(a.wrapping_sub(b), x - y),
        Arithmetic::AddLogical => carried(a as u64 + b as u64),
        Arithmetic::SubtractLogical => carried(a as u64 + (0x1_0000_0000 - b as u64)),
        Arithmetic::And => tested(a & b),
        Arithmetic::Or => tested(a | b),
        Arithmetic::ExclusiveOr => tested(a ^ b),
    }
}

/// Returns a result with this value and this condition code, and no overflow.
#[inline(always)]
pub fn kept(value: u32, condition: ConditionCode) -> Computed
    ensures { result ≡ plain value condition }
{
    Computed {
        value,
        condition,
        overflows: false,
    }
}

/// Returns the condition code of a signed number: 0 for zero, 1 for negative, 2 for positive.
#[inline(always)]
pub fn sign_of(number: i64) -> ConditionCode
    ensures { result ≡ sign_code number }
{
    if number < 0 {
        ConditionCode::ONE
    } else if number == 0 {
        ConditionCode::ZERO
    } else {
        ConditionCode::TWO
    }
}

/// Returns the condition code of comparing two unsigned numbers: 0 if equal, 1 if `a` is low, 2 if
/// it is high.
#[inline(always)]
pub fn order_of(a: u32, b: u32) -> ConditionCode
    ensures { result ≡ order_code a b }
{
    if a == b {
        ConditionCode::ZERO
    } else if a < b {
        ConditionCode::ONE
    } else {
        ConditionCode::TWO
    }
}

/// Returns `value` with the condition code of the sign of `number`, the exact result, or with code
/// 3 and overflow if that does not fit 32 bits.
#[inline(always)]
fn judged(value: u32, number: i64) -> Computed
    ensures { result ≡ exact value number }
{
    if number >= -0x8000_0000 && number <= 0x7FFF_FFFF {
        kept(value, sign_of(number))
    } else {
        Computed {
            value,
            condition: ConditionCode::THREE,
            overflows: true,
        }
    }
}

/// Returns the low 32 bits of a signed number with the condition code of its sign, or with code 3
/// and overflow if it does not fit.
#[inline(always)]
fn judged_number(number: i64) -> Computed
    ensures { result ≡ exact_number number }
{
    judged((number.cast_unsigned() & 0xFFFF_FFFF) as u32, number)
}

/// Returns the low 32 bits of an unsigned sum, with the condition code of zero and carry.
#[inline(always)]
fn carried(sum: u64) -> Computed
    ensures { result ≡ plain (sum % 2 ^ 32) (carry_code sum) }
{
    let value = (sum & 0xFFFF_FFFF) as u32;
    let low: u8 = if value == 0 { 0 } else { 1 };
    let high: u8 = if sum < 0x1_0000_0000 { 0 } else { 2 };
    kept(value, ConditionCode::new(low + high))
}

/// Returns condition code 0 for zero, and 1 for any other value.
#[inline(always)]
pub fn zero_of(value: u32) -> ConditionCode
    ensures { result ≡ zero_code value }
{
    if value == 0 {
        ConditionCode::ZERO
    } else {
        ConditionCode::ONE
    }
}

/// Returns a result with this value, and condition code 0 if it is zero, else 1.
#[inline(always)]
fn tested(value: u32) -> Computed
    ensures { result ≡ plain value (zero_code value) }
{
    kept(value, zero_of(value))
}
