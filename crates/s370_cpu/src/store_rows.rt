//! The rows that store an operand.
ghost use Rattle.std.specs.Prelude.{◌≡◌, ℕ, length};
ghost use Rattle.s370_rows.specs.Reach.{MeetsBy};
ghost use Rattle.s370_rows.specs.State.{state_of};
ghost use Rattle.s370_cpu.specs.StoreRows.{byte_changed, character_stored, doubleword_swapped};
ghost use Rattle.s370_cpu.specs.StoreRows.{halfword_stored, store_row, word_stored, word_swapped};

use crate::opcodes::StoreRow;
use s370_bytes::{
    Combine, combine_row, decimal_row, layout_row, move_long_row, move_row, store_characters_row,
    store_multiple_row, translate_row,
};
use s370_psw::ProgramCode;
use s370_rows::{
    ByteChange, Completion, Cpu, Instruction, Reach, Refusal, byte_at, change_byte,
    compare_and_swap, compare_and_swap_pair, doubleword_at, word_at,
};
use s370_store::Storage;

/// Does ST (50): stores register R1 in the word of the second operand.
#[inline(always)]
fn store_word_row<S: Storage, R: Reach<S>>(
    cpu: &Cpu,
    storage: &mut S,
    i: Instruction,
    reach: &mut R,
) -> Result<Completion, R::Refused>
    requires ready { R.IsReady storage.old cpu.now.psw.key reach.old }
    ensures row { let before = state_of cpu.now (S.memory storage.old) in
        let after = state_of cpu.now (S.memory storage.new) in
        MeetsBy R.Refused R.Refuses (word_stored before i) (S.present storage.old)
        before result after }
    ensures rest { S.Keeps storage.old storage.new }
    ensures ready { R.IsReady storage.old cpu.now.psw.key reach.new }
{
    let start = cpu.indexed(i.r2(), i.second_half);
    let span = reach.stored(cpu, storage, start, 4)?;
    let word = cpu.general[i.r1().index()];
    R::store(storage, span, start.get(), &word.to_be_bytes());
    Ok(Completion::Done)
}

/// Does STH (40): stores the right half of register R1 in two bytes of storage.
#[inline(always)]
fn store_halfword_row<S: Storage, R: Reach<S>>(
    cpu: &Cpu,
    storage: &mut S,
    i: Instruction,
    reach: &mut R,
) -> Result<Completion, R::Refused>
    requires ready { R.IsReady storage.old cpu.now.psw.key reach.old }
    ensures row { let before = state_of cpu.now (S.memory storage.old) in
        let after = state_of cpu.now (S.memory storage.new) in
        MeetsBy R.Refused R.Refuses (halfword_stored before i) (S.present storage.old)
        before result after }
    ensures rest { S.Keeps storage.old storage.new }
    ensures ready { R.IsReady storage.old cpu.now.psw.key reach.new }
{
    let start = cpu.indexed(i.r2(), i.second_half);
    let span = reach.stored(cpu, storage, start, 2)?;
    let half = (cpu.general[i.r1().index()] & 0xFFFF) as u16;
    R::store(storage, span, start.get(), &half.to_be_bytes());
    Ok(Completion::Done)
}

/// Does STC (42): stores the rightmost byte of register R1 in a byte of storage.
#[inline(always)]
fn store_character_row<S: Storage, R: Reach<S>>(
    cpu: &Cpu,
    storage: &mut S,
    i: Instruction,
    reach: &mut R,
) -> Result<Completion, R::Refused>
    requires ready { R.IsReady storage.old cpu.now.psw.key reach.old }
    ensures row { let before = state_of cpu.now (S.memory storage.old) in
        let after = state_of cpu.now (S.memory storage.new) in
        MeetsBy R.Refused R.Refuses (character_stored before i) (S.present storage.old)
        before result after }
    ensures rest { S.Keeps storage.old storage.new }
    ensures ready { R.IsReady storage.old cpu.now.psw.key reach.new }
{
    let start = cpu.indexed(i.r2(), i.second_half);
    let span = reach.stored(cpu, storage, start, 1)?;
    let byte = (cpu.general[i.r1().index()] & 0xFF) as u8;
    R::store(storage, span, start.get(), &[byte]);
    Ok(Completion::Done)
}

/// Does MVI (92), TS (93), NI (94), OI (96) or XI (97): changes a byte of storage and, except for
/// MVI, sets the condition code.
#[inline(always)]
fn change_byte_row<S: Storage, R: Reach<S>>(
    change: ByteChange,
    cpu: &mut Cpu,
    storage: &mut S,
    i: Instruction,
    reach: &mut R,
) -> Result<Completion, R::Refused>
    requires ready { R.IsReady storage.old cpu.old.psw.key reach.old }
    ensures row { let before = state_of cpu.old (S.memory storage.old) in
        let after = state_of cpu.new (S.memory storage.new) in
        MeetsBy R.Refused R.Refuses (byte_changed change before i) (S.present storage.old)
        before result after }
    ensures rest { S.Keeps storage.old storage.new }
    ensures ready { R.IsReady storage.old cpu.old.psw.key reach.new }
{
    let start = cpu.based(i.second_half);
    let span = reach.stored(cpu, storage, start, 1)?;
    let byte = byte_at::<S, R>(storage, span, start.get());
    let changed = change_byte(change, cpu.psw.condition(), byte, i.second_byte);
    cpu.psw.set_condition(changed.condition);
    R::store(storage, span, start.get(), &[changed.byte]);
    Ok(Completion::Done)
}

/// Does CS (BA): stores R3 if R1 equals a word of storage, else loads that word into R1; sets the
/// condition code.
#[inline(always)]
fn swap_word_row<S: Storage, R: Reach<S>>(
    cpu: &mut Cpu,
    storage: &mut S,
    i: Instruction,
    reach: &mut R,
) -> Result<Completion, R::Refused>
    requires ready { R.IsReady storage.old cpu.old.psw.key reach.old }
    ensures row { let before = state_of cpu.old (S.memory storage.old) in
        let after = state_of cpu.new (S.memory storage.new) in
        MeetsBy R.Refused R.Refuses (word_swapped before i) (S.present storage.old)
        before result after }
    ensures rest { S.Keeps storage.old storage.new }
    ensures ready { R.IsReady storage.old cpu.old.psw.key reach.new }
{
    let start = cpu.based(i.second_half);
    if start.get() % 4 != 0 {
        return Err(R::told(Refusal::Program(ProgramCode::Specification)));
    }
    let span = reach.stored(cpu, storage, start, 4)?;
    let word = word_at::<S, R>(storage, span, start.get());
    match compare_and_swap(cpu, i.r1(), i.r2(), word) {
        Some(taken) => R::store(storage, span, start.get(), &taken.to_be_bytes()),
        None => {}
    }
    Ok(Completion::Done)
}

/// Does CDS (BB): stores pair R3 if pair R1 equals a doubleword of storage, else loads that into
/// pair R1; sets the condition code.
#[inline(always)]
fn swap_doubleword_row<S: Storage, R: Reach<S>>(
    cpu: &mut Cpu,
    storage: &mut S,
    i: Instruction,
    reach: &mut R,
) -> Result<Completion, R::Refused>
    requires ready { R.IsReady storage.old cpu.old.psw.key reach.old }
    ensures row { let before = state_of cpu.old (S.memory storage.old) in
        let after = state_of cpu.new (S.memory storage.new) in
        MeetsBy R.Refused R.Refuses (doubleword_swapped before i) (S.present storage.old)
        before result after }
    ensures rest { S.Keeps storage.old storage.new }
    ensures ready { R.IsReady storage.old cpu.old.psw.key reach.new }
{
    let start = cpu.based(i.second_half);
    if i.r1().number() % 2 != 0 || i.r2().number() % 2 != 0 || start.get() % 8 != 0 {
        return Err(R::told(Refusal::Program(ProgramCode::Specification)));
    }
    let span = reach.stored(cpu, storage, start, 8)?;
    let doubleword = doubleword_at::<S, R>(storage, span, start.get());
    match compare_and_swap_pair(cpu, i.r1(), i.r2(), doubleword) {
        Some(taken) => R::store(storage, span, start.get(), &taken.to_be_bytes()),
        None => {}
    }
    Ok(Completion::Done)
}

/// Does an instruction that stores an operand in storage; the caller sets the next address.
///
/// # Errors
///
/// What `R` says of an operand that is refused. Nothing has changed.
#[inline(always)]
pub fn store_row<S: Storage, R: Reach<S>, const CODE: u8, const WAY: u8>(
    row: StoreRow,
    cpu: &mut Cpu,
    storage: &mut S,
    i: Instruction,
    reach: &mut R,
) -> Result<Completion, R::Refused>
    requires ready { R.IsReady storage.old cpu.old.psw.key reach.old }
    ensures row { let before = state_of cpu.old (S.memory storage.old) in
        let after = state_of cpu.new (S.memory storage.new) in
        MeetsBy R.Refused R.Refuses (store_row row before i) (S.present storage.old) before result
        after }
    ensures rest { S.Keeps storage.old storage.new }
    ensures ready { R.IsReady storage.old cpu.old.psw.key reach.new }
{
    let tested = match row {
        StoreRow::StoreWord => return store_word_row(cpu, storage, i, reach),
        StoreRow::StoreHalfword => return store_halfword_row(cpu, storage, i, reach),
        StoreRow::StoreCharacter => return store_character_row(cpu, storage, i, reach),
        StoreRow::ChangeByte(change) => return change_byte_row(change, cpu, storage, i, reach),
        StoreRow::SwapWord => return swap_word_row(cpu, storage, i, reach),
        StoreRow::SwapDoubleword => return swap_doubleword_row(cpu, storage, i, reach),
        StoreRow::StoreCharacters => return store_characters_row(cpu, storage, i, reach),
        StoreRow::StoreMultiple => return store_multiple_row(cpu, storage, i, reach),
        StoreRow::ConvertToDecimal => return decimal_row(cpu, storage, i, reach),
        StoreRow::CombineStrings(Combine::Move) => return move_row(cpu, storage, i, reach),
        StoreRow::CombineStrings(operation) => {
            return combine_row(operation, cpu, storage, i, reach)
        }
        StoreRow::Translate => return translate_row(cpu, storage, i, reach),
        StoreRow::LayOut(layout) => layout_row(layout, cpu, storage, i),
        StoreRow::MoveLong => move_long_row(cpu, storage, i),
    };
    match tested {
        Ok(ending) => Ok(ending),
        Err(refusal) => Err(R::told(refusal)),
    }
}
