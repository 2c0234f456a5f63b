//! Products and quotients.
ghost use Rattle.std.specs.Prelude.{◌≡◌, ℕ, ◌<◌};
ghost use Rattle.s370_rows.specs.Product.{product, multiplied, multiplied_halfword, MeetsDivision};
ghost use Rattle.s370_rows.specs.Product.{divided, quotient_left};
ghost use Rattle.s370_rows.specs.Results.{MeetsEnded};

use crate::cpu::Cpu;
use crate::ending::Completion;
use s370_num::Register;
use s370_psw::ProgramCode;

/// A quotient towards zero, and a remainder with the dividend's sign.
#[derive(Clone, Copy, PartialEq, Eq)]
pub struct Quotient {
    pub quotient: i32,
    pub remainder: i32,
}

/// Returns the signed product of two words as 64 bits.
#[inline(always)]
fn product(a: u32, b: u32) -> u64
    ensures { result ≡ product a b }
{
    (a.cast_signed() as i64 * b.cast_signed() as i64).cast_unsigned()
}

/// Does MR (1C) and M (5C): sets a register pair to the signed product of its second register and a
/// word.
#[inline(always)]
pub fn multiply_row(cpu: &mut Cpu, register: Register, b: u32) -> Completion
    requires { register < 15 }
    ensures { multiplied cpu.old register b ≡ record { ending = result; cpu = cpu.new } }
{
    let value = product(cpu.general[register.index() + 1], b);
    cpu.set_pair(register, value);
    Completion::Done
}

/// Does MH (4C): sets a register to the low 32 bits of the signed product of it and an operand.
#[inline(always)]
pub fn multiply_halfword_row(cpu: &mut Cpu, register: Register, b: u32) -> Completion
    ensures { multiplied_halfword cpu.old register b ≡ record { ending = result; cpu = cpu.new } }
{
    let value = product(cpu.general[register.index()], b);
    cpu.general[register.index()] = (value & 0xFFFF_FFFF) as u32;
    Completion::Done
}

/// Returns signed quotient and remainder, or `None` if the divisor is zero or the quotient does not
/// fit 32 bits.
#[inline(always)]
fn quotient_of(dividend: i64, divisor: i32) -> Option<Quotient>
    ensures { MeetsDivision (divided dividend divisor) result }
{
    let quotient = dividend.checked_div(divisor as i64)?;
    if quotient < -0x8000_0000 || quotient > 0x7FFF_FFFF {
        return None;
    }
    let remainder = dividend % divisor as i64;
    Some(Quotient {
        quotient: quotient as i32,
        remainder: remainder as i32,
    })
}

/// Does DR (1D) and D (5D): divides a signed register pair by a word and sets it to remainder and
/// quotient, if that fits.
///
/// # Errors
///
/// The code of the program interruption; nothing has changed.
#[inline(always)]
pub fn divide_row(cpu: &mut Cpu, register: Register, b: u32) -> Result<Completion, ProgramCode>
    requires { register < 15 }
    ensures { MeetsEnded (quotient_left cpu.old register b) cpu.old result cpu.new }
{
    let dividend = cpu.pair(register).cast_signed();
    match quotient_of(dividend, b.cast_signed()) {
        None => Err(ProgramCode::FixedPointDivide),
        Some(
            Quotient {
                quotient,
                remainder,
            },
        ) => {
            cpu.general[register.index()] = remainder.cast_unsigned();
            cpu.general[register.index() + 1] = quotient.cast_unsigned();
            Ok(Completion::Done)
        }
    }
}
