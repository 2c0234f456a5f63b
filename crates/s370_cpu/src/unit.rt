//! One unit of a processor: an instruction, or the program interruption that comes in its place.
ghost use Rattle.std.specs.Prelude.{◌≡◌, ℕ, ◌+◌, ◌%◌, ◌≤◌, Bool, Ok, false, length, slice_index};
ghost use Rattle.std.specs.Prelude.{true};
ghost use Rattle.s370_store.specs.Access.{IsGranted};
ghost use Rattle.s370_store.specs.Blocks.{MayFetch};
ghost use Rattle.s370_rows.specs.State.{state_of};
ghost use Rattle.s370_rows.specs.Reach.{MeetsBy};
ghost use Rattle.s370_rows.specs.Rows.{MeetsRow};
ghost use Rattle.s370_cpu.specs.Fetch.{fetched, halfwords_of, instruction_at};
ghost use Rattle.s370_cpu.specs.Opcodes.{opcode_at};
ghost use Rattle.s370_cpu.specs.Table.{MeetsStep, is_signed, is_steady, is_supervised};
ghost use Rattle.s370_cpu.specs.Table.{may_overflow, row_of};
ghost use Rattle.s370_cpu.specs.Unit.{Carries, place_at};

use crate::conclude::{Stop, conclude};
use crate::execute::{EXECUTE, target_of};
use crate::fetch::{fetch, length_of, may_fetch_longest};
use crate::fetch_rows::fetch_row;
use crate::known::{load_known, load_known_in};
use crate::opcodes::{FetchRow, Opcode, RegisterRow, opcode_of};
use crate::register_rows::register_row;
use crate::store_rows::store_row;
use s370_num::Addr24;
use s370_psw::{Ilc, ProgramCode};
use s370_rows::{Arithmetic, Completion, Cpu, Instruction, Place, Reach, Refusal, Shift, Tested};
use s370_store::{Block, Storage, load_byte, load_byte_in};

/// Does a fetched instruction that is not privileged, but refuses EX with an execute exception; the
/// caller sets the next address.
///
/// The operation code is passed next to the instruction, so that where it is a constant all but
/// that instruction's row is left out of the code.
///
/// # Errors
///
/// What `R` says of an instruction that is refused. Nothing has changed.
#[inline(always)]
pub(crate) fn perform<S: Storage, R: Reach<S>, const CODE: u8, const WAY: u8>(
    cpu: &mut Cpu,
    storage: &mut S,
    place: Place,
    opcode: u8,
    i: Instruction,
    reach: &mut R,
) -> Result<Completion, R::Refused>
    requires same { i.opcode ≡ opcode }
    requires plain { is_supervised (opcode_at i.opcode) ≡ false }
    requires ready { R.IsReady storage.old cpu.old.psw.key reach.old }
    ensures row { let before = state_of cpu.old (S.memory storage.old) in
        let after = state_of cpu.new (S.memory storage.new) in
        MeetsBy R.Refused R.Refuses (row_of before place i) (S.present storage.old) before result
        after }
    ensures rest { S.Keeps storage.old storage.new }
    ensures ready { R.IsReady storage.old cpu.old.psw.key reach.new }
{
    let code = match opcode_of(opcode) {
        Opcode::Invalid => ProgramCode::Operation,
        Opcode::Supervised(_) => unreachable!(),
        Opcode::SupervisorCall => return Ok(Completion::SupervisorCall(i.second_byte)),
        Opcode::Execute => ProgramCode::Execute,
        Opcode::Computes(row) => match register_row(row, cpu, place, i) {
            Ok(ending) => return Ok(ending),
            Err(code) => code,
        },
        Opcode::Fetches(row) => { return fetch_row::<S, R, CODE, WAY>(row, cpu, storage, i, reach) }
        Opcode::Stores(row) => { return store_row::<S, R, CODE, WAY>(row, cpu, storage, i, reach) }
    };
    Err(R::told(Refusal::Program(code)))
}

/// Does a fetched instruction that is not privileged, with tests of each operand; the caller sets
/// the next address.
///
/// # Errors
///
/// A `Refusal`: the program interruption, or an absent page that has to be brought first. Nothing
/// has changed.
#[inline(always)]
pub(crate) fn perform_tested<S: Storage, const CODE: u8>(
    cpu: &mut Cpu,
    storage: &mut S,
    place: Place,
    opcode: u8,
    i: Instruction,
) -> Result<Completion, Refusal>
    requires same { i.opcode ≡ opcode }
    requires plain { is_supervised (opcode_at i.opcode) ≡ false }
    ensures row { let before = state_of cpu.old (S.memory storage.old) in
        let after = state_of cpu.new (S.memory storage.new) in
        MeetsRow (row_of before place i) (S.present storage.old) before result after }
    ensures rest { S.Keeps storage.old storage.new }
{
    perform::<S, Tested, CODE, 0>(cpu, storage, place, opcode, i, &mut Tested)
}

/// Does the instruction at the instruction address and returns how it ended; no PSW is swapped for
/// an interruption, and a privileged instruction is only fetched and returned.
#[inline]
pub fn step<S: Storage>(cpu: &mut Cpu, storage: &mut S) -> Stop
    ensures unit { let before = state_of cpu.old (S.memory storage.old) in
        let after = state_of cpu.new (S.memory storage.new) in
        MeetsStep (S.present storage.old) before result after }
    ensures rest { S.Keeps storage.old storage.new }
{
    let start = cpu.psw.address().get();
    if !may_fetch_longest(cpu, storage, start, cpu.psw.key()) {
        return step_by_parts(cpu, storage);
    }
    let opcode = load_byte(storage, start);
    carry_known(cpu, storage, start, opcode)
}

/// Does the instruction at the instruction address, as [`step`] does, from a block that
/// `find_block` returned for fetches with the PSW's key.
///
/// It is at an even address there, with room for the longest instruction.
#[inline(always)]
pub fn step_in<S: Storage>(cpu: &mut Cpu, storage: &mut S, start: Addr24, block: Block) -> Stop
    requires here { start ≡ cpu.old.psw.address }
    requires may_fetch { MayFetch (length (S.memory storage.old).bytes) (S.memory storage.old).keys
        (S.present storage.old) cpu.old.psw.key block.first }
    requires placed { S.IsPlaced storage.old block }
    requires begins { block.first ≤ start }
    requires ends { start ≤ block.first + 2042 }
    requires even { start % 2 ≡ 0 }
    ensures unit { let before = state_of cpu.old (S.memory storage.old) in
        let after = state_of cpu.new (S.memory storage.new) in
        MeetsStep (S.present storage.old) before result after }
    ensures rest { S.Keeps storage.old storage.new }
{
    carry_in(cpu, storage, start, block)
}

/// Fetches the instruction at `start` from a block that `find_block` returned, and does it as
/// [`step`] does.
#[inline(always)]
fn carry_in<S: Storage>(cpu: &mut Cpu, storage: &mut S, start: Addr24, block: Block) -> Stop
    requires here { start ≡ cpu.old.psw.address }
    requires found { let m = state_of cpu.old (S.memory storage.old) in
        (fetched m start).result ≡ Ok (instruction_at (S.memory storage.old).bytes start) }
    requires placed { S.IsPlaced storage.old block }
    requires begins { block.first ≤ start }
    requires ends { start ≤ block.first + 2042 }
    ensures unit { let before = state_of cpu.old (S.memory storage.old) in
        let after = state_of cpu.new (S.memory storage.new) in
        MeetsStep (S.present storage.old) before result after }
    ensures rest { S.Keeps storage.old storage.new }
{
    let opcode = load_byte_in(storage, block, start.get());
    let first = load_known_in(storage, block, start.get(), opcode);
    carry(cpu, storage, opcode, first)
}

/// Fetches the instruction with tests of each part and does it as [`step`] does; a fetch that fails
/// changes nothing.
#[inline(never)]
fn step_by_parts<S: Storage>(cpu: &mut Cpu, storage: &mut S) -> Stop
    ensures unit { let before = state_of cpu.old (S.memory storage.old) in
        let after = state_of cpu.new (S.memory storage.new) in
        MeetsStep (S.present storage.old) before result after }
    ensures rest { S.Keeps storage.old storage.new }
{
    match fetch(cpu, storage, cpu.psw.address()) {
        Ok(first) => carry(cpu, storage, first.opcode, first),
        Err(Refusal::Program(code)) => Stop::Program(code, Ilc::ZERO),
        Err(Refusal::Absent(page)) => Stop::Absent(page),
    }
}

/// Fetches the six bytes at `start`, which are known to be granted, and does the instruction as
/// [`step`] does.
#[inline(always)]
fn carry_known<S: Storage>(cpu: &mut Cpu, storage: &mut S, start: u32, opcode: u8) -> Stop
    requires here { start ≡ cpu.old.psw.address }
    requires found { let m = state_of cpu.old (S.memory storage.old) in
        (fetched m start).result ≡ Ok (instruction_at (S.memory storage.old).bytes start) }
    requires granted { IsGranted (length (S.memory storage.old).bytes) (S.present storage.old) start
        6 }
    requires known { opcode ≡ slice_index (S.memory storage.old).bytes start }
    ensures unit { let before = state_of cpu.old (S.memory storage.old) in
        let after = state_of cpu.new (S.memory storage.new) in
        MeetsStep (S.present storage.old) before result after }
    ensures rest { S.Keeps storage.old storage.new }
{
    let first = load_known(storage, start, opcode);
    carry(cpu, storage, opcode, first)
}

/// Does a fetched instruction as [`step`] does; for EX its target.
#[inline(always)]
fn carry<S: Storage>(cpu: &mut Cpu, storage: &mut S, opcode: u8, first: Instruction) -> Stop
    requires same { first.opcode ≡ opcode }
    requires found { let m = state_of cpu.old (S.memory storage.old) in
        (fetched m cpu.old.psw.address).result ≡ Ok first }
    ensures unit { let before = state_of cpu.old (S.memory storage.old) in
        let after = state_of cpu.new (S.memory storage.new) in
        MeetsStep (S.present storage.old) before result after }
    ensures rest { S.Keeps storage.old storage.new }
{
    let ilc = length_of(opcode);
    let next = cpu.psw.address().wrapping_add(2 * ilc.get() as u32);
    if opcode == EXECUTE {
        return carry_target(cpu, storage, Place { next, ilc }, first);
    }
    finish(cpu, storage, Place { next, ilc }, opcode, first)
}

/// Fetches the target of EX and does it, or ends EX with the refusal of that fetch.
#[inline(never)]
fn carry_target<S: Storage>(
    cpu: &mut Cpu,
    storage: &mut S,
    place: Place,
    first: Instruction,
) -> Stop
    requires found { let m = state_of cpu.old (S.memory storage.old) in
        (fetched m cpu.old.psw.address).result ≡ Ok first }
    requires length_code { place.ilc ≡ halfwords_of first.opcode }
    requires next { let m = state_of cpu.old (S.memory storage.old) in
        place ≡ place_at m place.ilc }
    ensures unit { let before = state_of cpu.old (S.memory storage.old) in
        let after = state_of cpu.new (S.memory storage.new) in
        MeetsStep (S.present storage.old) before result after }
    ensures rest { S.Keeps storage.old storage.new }
{
    match target_of(cpu, storage, first) {
        Ok(i) => finish(cpu, storage, place, i.opcode, i),
        Err(refusal) => conclude(cpu, place, Err(refusal)),
    }
}

/// Does a fetched instruction and sets the next address, or returns it undone if it is privileged.
#[inline(always)]
fn finish<S: Storage>(
    cpu: &mut Cpu,
    storage: &mut S,
    place: Place,
    opcode: u8,
    i: Instruction,
) -> Stop
    requires same { i.opcode ≡ opcode }
    requires carried { Carries (state_of cpu.old (S.memory storage.old)) place.ilc i }
    requires next { let m = state_of cpu.old (S.memory storage.old) in
        place ≡ place_at m place.ilc }
    ensures unit { let before = state_of cpu.old (S.memory storage.old) in
        let after = state_of cpu.new (S.memory storage.new) in
        MeetsStep (S.present storage.old) before result after }
    ensures rest { S.Keeps storage.old storage.new }
{
    let Place { next, ilc } = place;
    if is_supervised(opcode) {
        return Stop::Privileged(i, ilc);
    }
    let outcome = perform_tested::<S, 0>(cpu, storage, Place { next, ilc }, opcode, i);
    conclude(cpu, Place { next, ilc }, outcome)
}

/// Returns whether an operation code is that of a privileged instruction.
#[inline(always)]
fn is_supervised(code: u8) -> bool
    ensures { result ≡ is_supervised (opcode_at code) }
{
    match opcode_of(code) {
        Opcode::Supervised(_) => true,
        _ => false,
    }
}

/// Returns false for operation codes of privileged instructions, SVC and CVB, and true for all
/// others.
///
/// An instruction of the others, if it is carried out and does not overflow, lets the processor go
/// on and changes nobody's rights.
#[inline(always)]
pub fn is_steady(code: u8) -> bool
    ensures steady { result ≡ is_steady (opcode_at code) }
    ensures plain { result ≡ true → is_supervised (opcode_at code) ≡ false }
{
    match opcode_of(code) {
        Opcode::Supervised(_) | Opcode::SupervisorCall => false,
        Opcode::Fetches(FetchRow::ConvertToBinary) => false,
        _ => true,
    }
}

/// Returns true for each operation code whose instruction can end with a fixed-point overflow, and
/// for LNR (11), which cannot.
#[inline(always)]
pub fn may_overflow(code: u8) -> bool
    ensures { result ≡ may_overflow (opcode_at code) }
{
    match opcode_of(code) {
        Opcode::Computes(RegisterRow::Register(operation)) => is_signed(operation),
        Opcode::Fetches(FetchRow::Word(operation)) => is_signed(operation),
        Opcode::Fetches(FetchRow::Halfword(operation)) => is_signed(operation),
        Opcode::Computes(RegisterRow::ShiftWord(Shift::Left)) => true,
        Opcode::Computes(RegisterRow::ShiftPair(Shift::Left)) => true,
        _ => false,
    }
}

/// Returns whether the result of an operation is tested for overflow: load positive, negative and
/// complement, add and subtract; load negative never overflows.
#[inline(always)]
fn is_signed(operation: Arithmetic) -> bool
    ensures { result ≡ is_signed operation }
{
    match operation {
        Arithmetic::LoadPositive | Arithmetic::LoadNegative | Arithmetic::LoadComplement => true,
        Arithmetic::Add | Arithmetic::Subtract => true,
        _ => false,
    }
}
