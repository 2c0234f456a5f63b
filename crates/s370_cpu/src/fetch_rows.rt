//! The rows that fetch their operands, and change registers alone.
ghost use Rattle.std.specs.Prelude.{◌≡◌, ℕ, slice_index};
ghost use Rattle.s370_rows.specs.Reach.{FindsOperand, MeetsBy};
ghost use Rattle.s370_rows.specs.State.{state_of};
ghost use Rattle.s370_rows.specs.Rows.{fetch_test};
ghost use Rattle.s370_cpu.specs.FetchRows.{byte_tested, character_inserted};
ghost use Rattle.s370_cpu.specs.FetchRows.{fetch_row, half_of, halfword_multiplied};
ghost use Rattle.s370_cpu.specs.FetchRows.{halfword_operation, operand_of, word_divided};
ghost use Rattle.s370_cpu.specs.FetchRows.{word_multiplied, word_of, word_operation};

use crate::opcodes::FetchRow;
use s370_bytes::{
    binary_row, compare_characters_row, compare_long_row, compare_row, insert_characters_row,
    load_multiple_row, translate_test_row,
};
use s370_num::Addr24;
use s370_psw::ProgramCode;
use s370_rows::{
    Arithmetic, ByteTest, Completion, Cpu, Instruction, Reach, Refusal, arithmetic_row, byte_at,
    divide_row, halfword_at, halfword_operand, insert_byte_row, multiply_halfword_row,
    multiply_row, test_byte, word_at,
};
use s370_store::Storage;

/// Returns the word of storage that is the second operand, addressed with an index.
#[inline(always)]
fn fetched_word<S: Storage, R: Reach<S>>(
    cpu: &Cpu,
    storage: &S,
    i: Instruction,
    reach: &mut R,
) -> Result<u32, R::Refused>
    requires ready { R.IsReady storage.now cpu.now.psw.key reach.old }
    ensures operand { let m = state_of cpu.now (S.memory storage.now) in
        FindsOperand R.Refused R.Refuses m (S.present storage.now) (fetch_test (operand_of m i) 4)
        (word_of m i) result }
    ensures ready { R.IsReady storage.now cpu.now.psw.key reach.new }
{
    let start = cpu.indexed(i.r2(), i.second_half);
    let span = reach.fetched(cpu, storage, start, 4)?;
    Ok(word_at::<S, R>(storage, span, start.get()))
}

/// Returns the halfword of storage that is the second operand, its sign extended.
#[inline(always)]
fn fetched_halfword<S: Storage, R: Reach<S>>(
    cpu: &Cpu,
    storage: &S,
    i: Instruction,
    reach: &mut R,
) -> Result<u32, R::Refused>
    requires ready { R.IsReady storage.now cpu.now.psw.key reach.old }
    ensures operand { let m = state_of cpu.now (S.memory storage.now) in
        FindsOperand R.Refused R.Refuses m (S.present storage.now) (fetch_test (operand_of m i) 2)
        (half_of m i) result }
    ensures ready { R.IsReady storage.now cpu.now.psw.key reach.new }
{
    let start = cpu.indexed(i.r2(), i.second_half);
    let span = reach.fetched(cpu, storage, start, 2)?;
    Ok(halfword_operand(halfword_at::<S, R>(storage, span, start.get())))
}

/// Returns the byte at an address.
#[inline(always)]
fn fetched_byte<S: Storage, R: Reach<S>>(
    cpu: &Cpu,
    storage: &S,
    start: Addr24,
    reach: &mut R,
) -> Result<u8, R::Refused>
    requires ready { R.IsReady storage.now cpu.now.psw.key reach.old }
    ensures operand { let m = state_of cpu.now (S.memory storage.now) in
        FindsOperand R.Refused R.Refuses m (S.present storage.now) (fetch_test start 1)
        (slice_index m.bytes start) result }
    ensures ready { R.IsReady storage.now cpu.now.psw.key reach.new }
{
    let span = reach.fetched(cpu, storage, start, 1)?;
    Ok(byte_at::<S, R>(storage, span, start.get()))
}

/// Does an operation on register R1 and a word of storage: sets R1, the condition code, or both, as
/// the operation says.
///
/// It serves N 54, CL 55, O 56, X 57, L 58, C 59, A 5A, S 5B, AL 5E and SL 5F. CL and C keep R1,
/// and L keeps the condition code.
#[inline(always)]
fn word_row<S: Storage, R: Reach<S>>(
    operation: Arithmetic,
    cpu: &mut Cpu,
    storage: &S,
    i: Instruction,
    reach: &mut R,
) -> Result<Completion, R::Refused>
    requires ready { R.IsReady storage.now cpu.old.psw.key reach.old }
    ensures row { let before = state_of cpu.old (S.memory storage.now) in
        let after = state_of cpu.new (S.memory storage.now) in
        MeetsBy R.Refused R.Refuses (word_operation operation before i) (S.present storage.now)
        before result after }
    ensures ready { R.IsReady storage.now cpu.old.psw.key reach.new }
{
    let b = fetched_word(cpu, storage, i, reach)?;
    Ok(arithmetic_row(operation, cpu, i.r1(), b))
}

/// Does LH (48), CH (49), AH (4A) or SH (4B) on register R1 and a halfword of storage: sets R1 and,
/// except for LH, the condition code.
#[inline(always)]
fn halfword_row<S: Storage, R: Reach<S>>(
    operation: Arithmetic,
    cpu: &mut Cpu,
    storage: &S,
    i: Instruction,
    reach: &mut R,
) -> Result<Completion, R::Refused>
    requires ready { R.IsReady storage.now cpu.old.psw.key reach.old }
    ensures row { let before = state_of cpu.old (S.memory storage.now) in
        let after = state_of cpu.new (S.memory storage.now) in
        MeetsBy R.Refused R.Refuses (halfword_operation operation before i) (S.present storage.now)
        before result after }
    ensures ready { R.IsReady storage.now cpu.old.psw.key reach.new }
{
    let b = fetched_halfword(cpu, storage, i, reach)?;
    Ok(arithmetic_row(operation, cpu, i.r1(), b))
}

/// Does MH (4C): sets R1 to the low 32 bits of the product of R1 and a halfword of storage.
#[inline(always)]
fn multiply_halfword<S: Storage, R: Reach<S>>(
    cpu: &mut Cpu,
    storage: &S,
    i: Instruction,
    reach: &mut R,
) -> Result<Completion, R::Refused>
    requires ready { R.IsReady storage.now cpu.old.psw.key reach.old }
    ensures row { let before = state_of cpu.old (S.memory storage.now) in
        let after = state_of cpu.new (S.memory storage.now) in
        MeetsBy R.Refused R.Refuses (halfword_multiplied before i) (S.present storage.now)
        before result after }
    ensures ready { R.IsReady storage.now cpu.old.psw.key reach.new }
{
    let b = fetched_halfword(cpu, storage, i, reach)?;
    Ok(multiply_halfword_row(cpu, i.r1(), b))
}

/// Does M (5C): sets pair R1 to the product of its second register and a word of storage.
#[inline(always)]
fn multiply_word<S: Storage, R: Reach<S>>(
    cpu: &mut Cpu,
    storage: &S,
    i: Instruction,
    reach: &mut R,
) -> Result<Completion, R::Refused>
    requires ready { R.IsReady storage.now cpu.old.psw.key reach.old }
    ensures row { let before = state_of cpu.old (S.memory storage.now) in
        let after = state_of cpu.new (S.memory storage.now) in
        MeetsBy R.Refused R.Refuses (word_multiplied before i) (S.present storage.now)
        before result after }
    ensures ready { R.IsReady storage.now cpu.old.psw.key reach.new }
{
    if i.r1().number() % 2 != 0 {
        return Err(R::told(Refusal::Program(ProgramCode::Specification)));
    }
    let b = fetched_word(cpu, storage, i, reach)?;
    Ok(multiply_row(cpu, i.r1(), b))
}

/// Does D (5D): divides pair R1 by a word of storage, and sets the pair to remainder and quotient.
#[inline(always)]
fn divide_word<S: Storage, R: Reach<S>>(
    cpu: &mut Cpu,
    storage: &S,
    i: Instruction,
    reach: &mut R,
) -> Result<Completion, R::Refused>
    requires ready { R.IsReady storage.now cpu.old.psw.key reach.old }
    ensures row { let before = state_of cpu.old (S.memory storage.now) in
        let after = state_of cpu.new (S.memory storage.now) in
        MeetsBy R.Refused R.Refuses (word_divided before i) (S.present storage.now)
        before result after }
    ensures ready { R.IsReady storage.now cpu.old.psw.key reach.new }
{
    if i.r1().number() % 2 != 0 {
        return Err(R::told(Refusal::Program(ProgramCode::Specification)));
    }
    let b = fetched_word(cpu, storage, i, reach)?;
    match divide_row(cpu, i.r1(), b) {
        Ok(ending) => Ok(ending),
        Err(code) => Err(R::told(Refusal::Program(code))),
    }
}

/// Does IC (43): sets the rightmost byte of R1 from a byte of storage.
#[inline(always)]
fn insert_character<S: Storage, R: Reach<S>>(
    cpu: &mut Cpu,
    storage: &S,
    i: Instruction,
    reach: &mut R,
) -> Result<Completion, R::Refused>
    requires ready { R.IsReady storage.now cpu.old.psw.key reach.old }
    ensures row { let before = state_of cpu.old (S.memory storage.now) in
        let after = state_of cpu.new (S.memory storage.now) in
        MeetsBy R.Refused R.Refuses (character_inserted before i) (S.present storage.now)
        before result after }
    ensures ready { R.IsReady storage.now cpu.old.psw.key reach.new }
{
    let byte = fetched_byte(cpu, storage, cpu.indexed(i.r2(), i.second_half), reach)?;
    Ok(insert_byte_row(cpu, i.r1(), byte))
}

/// Does TM (91) or CLI (95): sets the condition code from a byte of storage and the immediate byte.
#[inline(always)]
fn test_byte_row<S: Storage, R: Reach<S>>(
    test: ByteTest,
    cpu: &mut Cpu,
    storage: &S,
    i: Instruction,
    reach: &mut R,
) -> Result<Completion, R::Refused>
    requires ready { R.IsReady storage.now cpu.old.psw.key reach.old }
    ensures row { let before = state_of cpu.old (S.memory storage.now) in
        let after = state_of cpu.new (S.memory storage.now) in
        MeetsBy R.Refused R.Refuses (byte_tested test before i) (S.present storage.now)
        before result after }
    ensures ready { R.IsReady storage.now cpu.old.psw.key reach.new }
{
    let byte = fetched_byte(cpu, storage, cpu.based(i.second_half), reach)?;
    cpu.psw.set_condition(test_byte(test, byte, i.second_byte));
    Ok(Completion::Done)
}

/// Does an instruction that fetches operands from storage and stores none; the caller sets the next
/// address.
///
/// # Errors
///
/// What `R` says of an operand that is refused. Nothing has changed.
#[inline(always)]
pub fn fetch_row<S: Storage, R: Reach<S>, const CODE: u8, const WAY: u8>(
    row: FetchRow,
    cpu: &mut Cpu,
    storage: &S,
    i: Instruction,
    reach: &mut R,
) -> Result<Completion, R::Refused>
    requires ready { R.IsReady storage.now cpu.old.psw.key reach.old }
    ensures row { let before = state_of cpu.old (S.memory storage.now) in
        let after = state_of cpu.new (S.memory storage.now) in
        MeetsBy R.Refused R.Refuses (fetch_row row before i) (S.present storage.now)
        before result after }
    ensures ready { R.IsReady storage.now cpu.old.psw.key reach.new }
{
    let tested = match row {
        FetchRow::Word(operation) => return word_row(operation, cpu, storage, i, reach),
        FetchRow::Halfword(operation) => return halfword_row(operation, cpu, storage, i, reach),
        FetchRow::MultiplyWord => return multiply_word(cpu, storage, i, reach),
        FetchRow::MultiplyHalfword => return multiply_halfword(cpu, storage, i, reach),
        FetchRow::DivideWord => return divide_word(cpu, storage, i, reach),
        FetchRow::InsertCharacter => return insert_character(cpu, storage, i, reach),
        FetchRow::TestByte(test) => return test_byte_row(test, cpu, storage, i, reach),
        FetchRow::InsertCharacters => return insert_characters_row(cpu, storage, i, reach),
        FetchRow::CompareCharacters => return compare_characters_row(cpu, storage, i, reach),
        FetchRow::LoadMultiple => return load_multiple_row(cpu, storage, i, reach),
        FetchRow::CompareStrings => return compare_row(cpu, storage, i, reach),
        FetchRow::ScanString => return translate_test_row(cpu, storage, i, reach),
        FetchRow::ConvertToBinary => binary_row(cpu, storage, i),
        FetchRow::CompareLong => compare_long_row(cpu, storage, i),
    };
    match tested {
        Ok(ending) => Ok(ending),
        Err(refusal) => Err(R::told(refusal)),
    }
}
