//! The rows that access no storage.
ghost use Rattle.std.specs.Prelude.{◌≡◌, ℕ, ◌<◌, ◌==◌, not, Ok, false, slice_index, true};
ghost use Rattle.s370_rows.specs.declared.place.Place.{Place};
ghost use Rattle.s370_rows.specs.Branches.{conditional_branch, counted_branch};
ghost use Rattle.s370_rows.specs.Formats.{indexed_address, r1_of, r2_of};
ghost use Rattle.s370_rows.specs.Load.{address_loaded};
ghost use Rattle.s370_rows.specs.Product.{multiplied, quotient_left};
ghost use Rattle.s370_rows.specs.Shift.{pair_shifted};
ghost use Rattle.s370_rows.specs.Registers.{arithmetic};
ghost use Rattle.s370_rows.specs.Results.{MeetsEnded};
ghost use Rattle.s370_cpu.specs.RegisterRows.{branched, register_row, shift_count, with_even};

use crate::opcodes::{Branching, RegisterRow};
use s370_psw::ProgramCode;
use s370_rows::{
    Arithmetic, Completion, Cpu, Instruction, Place, Shift, arithmetic_row, branch_and_link,
    branch_on_condition, branch_on_count, branch_on_index, divide_row, load_address_row,
    multiply_row, set_program_mask_row, shift_pair_row, shift_row,
};

/// Does BALR or BAL (05, 45), BCTR or BCT (06, 46), or BCR or BC (07, 47), and returns a branch to
/// `target` only if `may` is true.
#[inline(always)]
fn branch_row(
    kind: Branching,
    cpu: &mut Cpu,
    place: Place,
    i: Instruction,
    may: bool,
    target: u32,
) -> Completion
    ensures { branched kind cpu.old place i may target ≡ record { ending = result; cpu = cpu.new } }
{
    match kind {
        Branching::Count => branch_on_count(cpu, i.r1(), may, target),
        Branching::Condition => branch_on_condition(cpu, i.r1().number(), may, target),
        Branching::Link => branch_and_link(cpu, place, i.r1(), may, target),
    }
}

/// Returns by how many bits to shift: the low six bits of the second operand's address.
#[inline(always)]
fn shift_count(cpu: &Cpu, i: Instruction) -> u8
    ensures value { result ≡ shift_count cpu.now i }
    ensures below { result < 64 }
{
    (cpu.based(i.second_half).get() % 64) as u8
}

/// Does MR (1C): sets pair R1 to the product of its second register and `b`; an odd R1 is refused.
#[inline(always)]
fn multiply(cpu: &mut Cpu, i: Instruction, b: u32) -> Result<Completion, ProgramCode>
    ensures { MeetsEnded (with_even (r1_of i) (Ok (multiplied cpu.old (r1_of i) b))) cpu.old result
        cpu.new }
{
    if i.r1().number() % 2 != 0 {
        return Err(ProgramCode::Specification);
    }
    Ok(multiply_row(cpu, i.r1(), b))
}

/// Does DR (1D): divides pair R1 by `b` and sets it to remainder and quotient; an odd R1 is
/// refused.
#[inline(always)]
fn divide(cpu: &mut Cpu, i: Instruction, b: u32) -> Result<Completion, ProgramCode>
    ensures { MeetsEnded (with_even (r1_of i) (quotient_left cpu.old (r1_of i) b)) cpu.old result
        cpu.new }
{
    if i.r1().number() % 2 != 0 {
        return Err(ProgramCode::Specification);
    }
    divide_row(cpu, i.r1(), b)
}

/// Does SRDL (8C), SLDL (8D), SRDA (8E) or SLDA (8F): shifts pair R1; an odd R1 is refused.
#[inline(always)]
fn shift_pair(shift: Shift, cpu: &mut Cpu, i: Instruction) -> Result<Completion, ProgramCode>
    ensures { MeetsEnded (with_even (r1_of i)
        (Ok (pair_shifted shift cpu.old (r1_of i) (shift_count cpu.old i)))) cpu.old result
        cpu.new }
{
    if i.r1().number() % 2 != 0 {
        return Err(ProgramCode::Specification);
    }
    let count = shift_count(cpu, i);
    Ok(shift_pair_row(shift, cpu, i.r1(), count))
}

/// Does BC (47): returns a branch to the second operand's address if the mask selects the condition
/// code; nothing changes.
#[inline(always)]
fn branch_if_selected(cpu: &Cpu, i: Instruction) -> Completion
    ensures { conditional_branch cpu.now (r1_of i) true
        (indexed_address cpu.now (r2_of i) i.second_half)
        ≡ record { ending = result; cpu = cpu.now } }
{
    if i.r1().number() >> (3 - cpu.psw.condition().get()) & 1 != 1 {
        return Completion::Done;
    }
    Completion::Branch(cpu.indexed(i.r2(), i.second_half).get())
}

/// Does BCT (46): counts R1 down, and returns a branch to the second operand's address unless that
/// makes it zero.
#[inline(always)]
fn count_and_branch(cpu: &mut Cpu, i: Instruction) -> Completion
    ensures { counted_branch cpu.old (r1_of i) true
        (indexed_address cpu.old (r2_of i) i.second_half)
        ≡ record { ending = result; cpu = cpu.new } }
{
    if cpu.general[i.r1().index()] == 1 {
        return branch_on_count(cpu, i.r1(), false, 0);
    }
    let target = cpu.indexed(i.r2(), i.second_half).get();
    branch_on_count(cpu, i.r1(), true, target)
}

/// Does BAL (45), BCT (46) or BC (47): sets R1 for BAL and BCT, and returns a branch to the second
/// operand's address if it is taken.
///
/// The address is made up only for a branch that is taken. So the real processor foretells which
/// instruction comes next, and does not wait for the count or the condition to choose between two
/// addresses.
#[inline(always)]
pub fn branch_to(kind: Branching, cpu: &mut Cpu, place: Place, i: Instruction) -> Completion
    ensures { branched kind cpu.old place i true (indexed_address cpu.old (r2_of i) i.second_half)
        ≡ record { ending = result; cpu = cpu.new } }
{
    match kind {
        Branching::Count => count_and_branch(cpu, i),
        Branching::Condition => branch_if_selected(cpu, i),
        Branching::Link => {
            let target = cpu.indexed(i.r2(), i.second_half).get();
            branch_and_link(cpu, place, i.r1(), true, target)
        }
    }
}

/// Does LA (41): sets R1 to the address of the second operand.
#[inline(always)]
pub fn load_address(cpu: &mut Cpu, i: Instruction) -> Completion
    ensures { address_loaded cpu.old (r1_of i) (indexed_address cpu.old (r2_of i) i.second_half)
        ≡ record { ending = result; cpu = cpu.new } }
{
    let address = cpu.indexed(i.r2(), i.second_half);
    load_address_row(cpu, i.r1(), address)
}

/// Does an instruction that accesses no storage; the caller sets the next address.
///
/// # Errors
///
/// The code of the program interruption; nothing has changed.
// The compiler drops `inline(always)` without a word from a function that takes more than some 7,000
// LLVM instructions, and then each row is a call, several times slower (tests/inlined/run).
#[inline(always)]
pub fn register_row(
    row: RegisterRow,
    cpu: &mut Cpu,
    place: Place,
    i: Instruction,
) -> Result<Completion, ProgramCode>
    ensures { MeetsEnded (register_row row cpu.old place i) cpu.old result cpu.new }
{
    let second = cpu.general[i.r2().index()];
    match row {
        RegisterRow::SetProgramMask => Ok(set_program_mask_row(cpu, i.r1())),
        RegisterRow::Register(operation) => Ok(arithmetic_row(operation, cpu, i.r1(), second)),
        RegisterRow::Multiply => multiply(cpu, i, second),
        RegisterRow::Divide => divide(cpu, i, second),
        RegisterRow::LoadAddress => Ok(load_address(cpu, i)),
        RegisterRow::ShiftWord(shift) => {
            let count = shift_count(cpu, i);
            Ok(shift_row(shift, cpu, i.r1(), count))
        }
        RegisterRow::ShiftPair(shift) => shift_pair(shift, cpu, i),
        RegisterRow::BranchRegister(kind) => {
            Ok(branch_row(kind, cpu, place, i, i.r2().number() != 0, second))
        }
        RegisterRow::BranchTo(kind) => Ok(branch_to(kind, cpu, place, i)),
        RegisterRow::BranchOnIndex(kind) => {
            let target = cpu.based(i.second_half).get();
            Ok(branch_on_index(kind, cpu, i.r1(), i.r2(), target))
        }
    }
}
