//! Instructions, each done in one go if nothing keeps it from being done.
ghost use Rattle.std.specs.Prelude.{◌≡◌, ◌+◌, ◌*◌, ◌%◌, ◌<◌, ◌≤◌, Ok, Some, false, true, length};
ghost use Rattle.std.specs.Prelude.{nat_le, slice_index};
ghost use Rattle.s370_store.specs.Blocks.{MayFetch};
ghost use Rattle.s370_rows.specs.Ending.{GoesOn};
ghost use Rattle.s370_rows.specs.State.{state_of};
ghost use Rattle.s370_rows.specs.Reach.{AreHeld};
ghost use Rattle.s370_rows.specs.Rows.{MeetsRow};
ghost use Rattle.s370_rows.specs.declared.ending.Completion.TheVariants as endings;
ghost use Rattle.s370_cpu.specs.declared.conclude.Stop.TheVariants as stops;
ghost use Rattle.s370_cpu.specs.Fetch.{fetched, halfwords_of, instruction_at};
ghost use Rattle.s370_cpu.specs.Held.{DoesUnits, FollowsIn, IsAt, IsLongMoveAt};
ghost use Rattle.s370_cpu.specs.Held.{MeetsAtOnce, MeetsSteady, StepsOrStays, next_after};
ghost use Rattle.s370_cpu.specs.Opcodes.{opcode_at};
ghost use Rattle.s370_cpu.specs.Table.{is_supervised, may_overflow, row_of};
ghost use Rattle.s370_cpu.specs.Unit.{Carries, place_at, stopped};

use crate::execute::{EXECUTE, target_of};
use crate::fetch::length_of;
use crate::held_codes::{finish_target, step_found};
use crate::known::load_known_in;
use crate::opcodes::{FetchRow, Opcode, StoreRow, opcode_of};
use crate::stepped::Stepped;
use crate::unit::{is_steady, may_overflow, perform};
use s370_bytes::{
    Combine, combine_row, compare_row, move_long_parts, move_row, translate_row, translate_test_row,
};
use s370_num::Addr24;
use s370_rows::{Completion, Cpu, HeldBlock, Instruction, Place, Tested};
use s370_store::{Block, Storage};

/// The way of an instruction whose turn it is.
const IN_TURN: u8 = 0;

/// The way of the target of an EX. It has instances of its own of all that is compiled for one
/// operation code: LLVM takes a function into its caller, however large, if it has no other.
const UNDER_EX: u8 = 1;

/// Does one instruction and returns where the next one is, if it is one of the frequent ones, is
/// done and the processor goes on; else changes only `held`.
///
/// It is at an even address in a block that was found for fetches with the processor's key, with
/// room after it for the longest instruction. That block is not the last of 16 MiB, so that no
/// address that follows wraps round.
///
/// The address of the next instruction says that it was done. So a loop over instructions has no
/// stop to say from others; what it has looked at before (all that only the supervisor state can
/// change, the key among it) it need not look at again; and the address it holds itself, since what
/// was just stored into the PSW would be waited for.
///
/// An operand is fetched from the block that is held for fetches, or stored into the one that is
/// held for stores, where it lies in it; else in the block of its own that is found, which is held
/// from then on. So an operand near the last one is looked up no more.
#[inline(always)]
pub fn step_held<S: Storage>(
    cpu: &mut Cpu,
    storage: &mut S,
    start: Addr24,
    block: Block,
    held: &mut HeldBlock,
) -> Stepped
    requires here { start ≡ cpu.old.psw.address }
    requires may_fetch { MayFetch (length (S.memory storage.old).bytes) (S.memory storage.old).keys
        (S.present storage.old) cpu.old.psw.key block.first }
    requires placed { S.IsPlaced storage.old block }
    requires low { block.first + 2048 < 16777216 }
    requires begins { block.first ≤ start }
    requires ends { start ≤ block.first + 2042 }
    requires even { start % 2 ≡ 0 }
    requires operands { AreHeld (S.IsPlaced storage.old) (S.memory storage.old)
        (S.present storage.old) cpu.old.psw.key held.old }
    ensures step { let before = state_of cpu.old (S.memory storage.old) in
        let after = state_of cpu.new (S.memory storage.new) in
        StepsOrStays (S.present storage.old) before (next_after result) after }
    ensures follows { FollowsIn start result }
    ensures rest { S.Keeps storage.old storage.new }
    ensures operands { AreHeld (S.IsPlaced storage.old) (S.memory storage.old)
        (S.present storage.old) cpu.old.psw.key held.new }
{
    step_found(cpu, storage, start, block, held)
}

/// Does parts of the MVCL at the instruction address by one copy, at most `limit`, and returns how
/// many; if 0, nothing has changed.
///
/// Each part has all its 256 bytes, changes nothing of the MVCL, and is not the last. The same MVCL
/// is the next instruction, so a loop over parts need not fetch it again.
#[inline(always)]
pub fn move_granted_parts<S: Storage>(
    cpu: &mut Cpu,
    storage: &mut S,
    start: Addr24,
    second_byte: u8,
    limit: u32,
) -> u32
    requires same_start { start ≡ cpu.old.psw.address }
    requires stands { IsLongMoveAt (state_of cpu.old (S.memory storage.old)) (S.present storage.old)
        start second_byte }
    ensures done { let before = state_of cpu.old (S.memory storage.old) in
        let after = state_of cpu.new (S.memory storage.new) in
        DoesUnits result (S.present storage.old) before after }
    ensures within { result ≤ limit }
    ensures same_start { start ≡ cpu.new.psw.address }
    ensures stands { IsLongMoveAt (state_of cpu.new (S.memory storage.new)) (S.present storage.new)
        start second_byte }
    ensures rest { S.Keeps storage.old storage.new }
{
    move_long_parts(cpu, storage, start, second_byte, limit)
}

/// Does the instruction at `start`, whose operation code is `CODE`, if the processor goes on; else
/// changes only `held`.
#[inline(always)]
pub(crate) fn carry_held<S: Storage, const CODE: u8>(
    cpu: &mut Cpu,
    storage: &mut S,
    start: Addr24,
    block: Block,
    held: &mut HeldBlock,
) -> Stepped
    requires here { start ≡ cpu.old.psw.address }
    requires found { let m = state_of cpu.old (S.memory storage.old) in
        (fetched m start).result ≡ Ok (instruction_at (S.memory storage.old).bytes start) }
    requires placed { S.IsPlaced storage.old block }
    requires low { block.first + 2048 < 16777216 }
    requires begins { block.first ≤ start }
    requires ends { start ≤ block.first + 2042 }
    requires known { CODE ≡ slice_index (S.memory storage.old).bytes start }
    requires operands { AreHeld (S.IsPlaced storage.old) (S.memory storage.old)
        (S.present storage.old) cpu.old.psw.key held.old }
    ensures step { let before = state_of cpu.old (S.memory storage.old) in
        let after = state_of cpu.new (S.memory storage.new) in
        StepsOrStays (S.present storage.old) before (next_after result) after }
    ensures follows { FollowsIn start result }
    ensures rest { S.Keeps storage.old storage.new }
    ensures operands { AreHeld (S.IsPlaced storage.old) (S.memory storage.old)
        (S.present storage.old) cpu.old.psw.key held.new }
{
    let first = load_known_in(storage, block, start.get(), CODE);
    let ilc = length_of(CODE);
    let next = start.wrapping_add(2 * ilc.get() as u32);
    if CODE == EXECUTE {
        return execute_held(cpu, storage, Place { next, ilc }, first, held);
    }
    finish_held::<S, CODE, IN_TURN>(cpu, storage, Place { next, ilc }, first, held)
}

/// Does the instruction at `start`, in a function that is not inlined, if the processor goes on; else
/// changes only `held`.
///
/// A call is little next to what these instructions do, and the loop keeps its registers for those
/// that it inlines.
#[inline(never)]
pub(crate) fn carry_called<S: Storage, const CODE: u8>(
    cpu: &mut Cpu,
    storage: &mut S,
    start: Addr24,
    block: Block,
    held: &mut HeldBlock,
) -> Stepped
    requires here { start ≡ cpu.old.psw.address }
    requires found { let m = state_of cpu.old (S.memory storage.old) in
        (fetched m start).result ≡ Ok (instruction_at (S.memory storage.old).bytes start) }
    requires placed { S.IsPlaced storage.old block }
    requires low { block.first + 2048 < 16777216 }
    requires begins { block.first ≤ start }
    requires ends { start ≤ block.first + 2042 }
    requires known { CODE ≡ slice_index (S.memory storage.old).bytes start }
    requires operands { AreHeld (S.IsPlaced storage.old) (S.memory storage.old)
        (S.present storage.old) cpu.old.psw.key held.old }
    ensures step { let before = state_of cpu.old (S.memory storage.old) in
        let after = state_of cpu.new (S.memory storage.new) in
        StepsOrStays (S.present storage.old) before (next_after result) after }
    ensures follows { FollowsIn start result }
    ensures rest { S.Keeps storage.old storage.new }
    ensures operands { AreHeld (S.IsPlaced storage.old) (S.memory storage.old)
        (S.present storage.old) cpu.old.psw.key held.new }
{
    carry_held::<S, CODE>(cpu, storage, start, block, held)
}

/// Fetches the target of EX and does it, if it may be fetched, is a frequent one and the processor
/// goes on; else changes only `held`.
#[inline(always)]
fn execute_held<S: Storage>(
    cpu: &mut Cpu,
    storage: &mut S,
    place: Place,
    first: Instruction,
    held: &mut HeldBlock,
) -> Stepped
    requires found { let m = state_of cpu.old (S.memory storage.old) in
        (fetched m cpu.old.psw.address).result ≡ Ok first }
    requires length_code { place.ilc ≡ halfwords_of first.opcode }
    requires next { let m = state_of cpu.old (S.memory storage.old) in
        place ≡ place_at m place.ilc }
    requires operands { AreHeld (S.IsPlaced storage.old) (S.memory storage.old)
        (S.present storage.old) cpu.old.psw.key held.old }
    ensures step { let before = state_of cpu.old (S.memory storage.old) in
        let after = state_of cpu.new (S.memory storage.new) in
        StepsOrStays (S.present storage.old) before (next_after result) after }
    ensures follows { IsAt place.next result }
    ensures rest { S.Keeps storage.old storage.new }
    ensures operands { AreHeld (S.IsPlaced storage.old) (S.memory storage.old)
        (S.present storage.old) cpu.old.psw.key held.new }
{
    match target_of(cpu, storage, first) {
        Ok(i) => finish_target(cpu, storage, place, i, held),
        Err(_) => Stepped::LeftOut,
    }
}

/// Does the target of an EX, in a function that is not inlined, if the processor goes on; else
/// changes only `held`.
#[inline(never)]
pub(crate) fn finish_called<S: Storage, const CODE: u8>(
    cpu: &mut Cpu,
    storage: &mut S,
    place: Place,
    i: Instruction,
    held: &mut HeldBlock,
) -> Stepped
    requires same { i.opcode ≡ CODE }
    requires carried { Carries (state_of cpu.old (S.memory storage.old)) place.ilc i }
    requires next { let m = state_of cpu.old (S.memory storage.old) in
        place ≡ place_at m place.ilc }
    requires operands { AreHeld (S.IsPlaced storage.old) (S.memory storage.old)
        (S.present storage.old) cpu.old.psw.key held.old }
    ensures step { let before = state_of cpu.old (S.memory storage.old) in
        let after = state_of cpu.new (S.memory storage.new) in
        StepsOrStays (S.present storage.old) before (next_after result) after }
    ensures follows { IsAt place.next result }
    ensures rest { S.Keeps storage.old storage.new }
    ensures operands { AreHeld (S.IsPlaced storage.old) (S.memory storage.old)
        (S.present storage.old) cpu.old.psw.key held.new }
{
    finish_held::<S, CODE, UNDER_EX>(cpu, storage, place, i, held)
}

/// Does a fetched instruction and sets the next address, if the processor goes on; else changes only
/// `held`.
#[inline(always)]
fn finish_held<S: Storage, const CODE: u8, const WAY: u8>(
    cpu: &mut Cpu,
    storage: &mut S,
    place: Place,
    i: Instruction,
    held: &mut HeldBlock,
) -> Stepped
    requires same { i.opcode ≡ CODE }
    requires carried { Carries (state_of cpu.old (S.memory storage.old)) place.ilc i }
    requires next { let m = state_of cpu.old (S.memory storage.old) in
        place ≡ place_at m place.ilc }
    requires operands { AreHeld (S.IsPlaced storage.old) (S.memory storage.old)
        (S.present storage.old) cpu.old.psw.key held.old }
    ensures step { let before = state_of cpu.old (S.memory storage.old) in
        let after = state_of cpu.new (S.memory storage.new) in
        StepsOrStays (S.present storage.old) before (next_after result) after }
    ensures follows { IsAt place.next result }
    ensures rest { S.Keeps storage.old storage.new }
    ensures operands { AreHeld (S.IsPlaced storage.old) (S.memory storage.old)
        (S.present storage.old) cpu.old.psw.key held.new }
{
    let Place { next, ilc } = place;
    match perform_steady::<S, CODE, WAY>(cpu, storage, Place { next, ilc }, i, held) {
        Some(ending) => go_on(cpu, Place { next, ilc }, ending),
        None => Stepped::LeftOut,
    }
}

/// Sets the instruction address by how an instruction ended, unless that is to be done again, and
/// returns where the next one is.
///
/// Each way sets it by itself, so that a branch is one for the processor too.
#[inline(always)]
pub(crate) fn go_on(cpu: &mut Cpu, place: Place, ending: Completion) -> Stepped
    requires { GoesOn ending }
    ensures stop { stopped (Ok ending) place cpu.old ≡ record { stop = stops.Done; cpu = cpu.new } }
    ensures next { next_after result ≡ Some cpu.new.psw.address }
    ensures follows { IsAt place.next result }
{
    match ending {
        Completion::Done => {
            cpu.psw.set_address(place.next);
            Stepped::Follows(place.next)
        }
        Completion::Branch(address) => {
            let target = Addr24::wrapping(address);
            cpu.psw.set_address(target);
            Stepped::Elsewhere(target)
        }
        Completion::Again => Stepped::Elsewhere(cpu.psw.address()),
        Completion::Interrupted(_)
        | Completion::SupervisorCall(_)
        | Completion::InputOutput(_, _) => { unreachable!() }
    }
}

/// Returns whether the instruction can overflow and the program mask lets an overflow interrupt.
#[inline(always)]
fn overflow_interrupts<const CODE: u8>(cpu: &Cpu) -> bool
    ensures { result ≡ false
        → may_overflow (opcode_at CODE) ≡ true → nat_le 8 cpu.now.psw.program_mask ≡ false }
{
    if may_overflow(CODE) {
        return cpu.psw.program_mask() >= 8;
    }
    false
}

/// Does a fetched instruction if the processor goes on after it, or else returns `None` and changes
/// only `held`; the caller sets the next address.
///
/// Its operands lie in blocks that may be accessed. Its operation code is a constant of the
/// function's own, so that each of them is compiled by itself. An instruction whose overflow would
/// interrupt is left to the unit, as is one that may change rights.
#[inline(always)]
fn perform_steady<S: Storage, const CODE: u8, const WAY: u8>(
    cpu: &mut Cpu,
    storage: &mut S,
    place: Place,
    i: Instruction,
    held: &mut HeldBlock,
) -> Option<Completion>
    requires same { i.opcode ≡ CODE }
    requires operands { AreHeld (S.IsPlaced storage.old) (S.memory storage.old)
        (S.present storage.old) cpu.old.psw.key held.old }
    ensures row { let before = state_of cpu.old (S.memory storage.old) in
        let after = state_of cpu.new (S.memory storage.new) in
        MeetsSteady (row_of before place i) (S.present storage.old) before result after }
    ensures rest { S.Keeps storage.old storage.new }
    ensures operands { AreHeld (S.IsPlaced storage.old) (S.memory storage.old)
        (S.present storage.old) cpu.old.psw.key held.new }
{
    if !is_steady(CODE) {
        return None;
    }
    if overflow_interrupts::<CODE>(cpu) {
        return None;
    }
    perform_held::<S, CODE, WAY>(cpu, storage, place, i, held)
}

/// Does a fetched instruction over the held blocks, or strings with tests of each, or returns `None`
/// and changes only `held`; the caller sets the next address.
#[inline(always)]
fn perform_held<S: Storage, const CODE: u8, const WAY: u8>(
    cpu: &mut Cpu,
    storage: &mut S,
    place: Place,
    i: Instruction,
    held: &mut HeldBlock,
) -> Option<Completion>
    requires same { i.opcode ≡ CODE }
    requires plain { is_supervised (opcode_at CODE) ≡ false }
    requires operands { AreHeld (S.IsPlaced storage.old) (S.memory storage.old)
        (S.present storage.old) cpu.old.psw.key held.old }
    ensures row { let before = state_of cpu.old (S.memory storage.old) in
        let after = state_of cpu.new (S.memory storage.new) in
        MeetsAtOnce (row_of before place i) (S.present storage.old) before result after }
    ensures rest { S.Keeps storage.old storage.new }
    ensures operands { AreHeld (S.IsPlaced storage.old) (S.memory storage.old)
        (S.present storage.old) cpu.old.psw.key held.new }
{
    match perform::<S, HeldBlock, CODE, WAY>(cpu, storage, place, CODE, i, held) {
        Ok(ending) => return Some(ending),
        Err(()) => {}
    }
    let (second_byte, second_half, third_half) = (i.second_byte, i.second_half, i.third_half);
    if is_string(CODE)
        && perform_string::<S, CODE>(cpu, storage, second_byte, second_half, third_half)
    {
        return Some(Completion::Done);
    }
    None
}

/// Returns whether an operation code is that of an instruction on strings, of which long ones often
/// lie in two blocks: to leave the loop for them would cost more than the tests.
#[inline(always)]
fn is_string(code: u8) -> bool {
    match opcode_of(code) {
        Opcode::Fetches(FetchRow::CompareStrings | FetchRow::ScanString) => true,
        Opcode::Stores(StoreRow::CombineStrings(_) | StoreRow::Translate) => true,
        _ => false,
    }
}

/// Does an instruction on strings with tests of each and returns true, or returns false and changes
/// nothing.
///
/// It is given the parts of the instruction, so that the loop need not write it to memory.
#[inline(never)]
fn perform_string<S: Storage, const CODE: u8>(
    cpu: &mut Cpu,
    storage: &mut S,
    second_byte: u8,
    second_half: u16,
    third_half: u16,
) -> bool
    ensures done { (place : Place) → result ≡ true
        → let before = state_of cpu.old (S.memory storage.old) in
        let after = state_of cpu.new (S.memory storage.new) in
        let i : Instruction = record {
          opcode = CODE;
          second_byte = second_byte;
          second_half = second_half;
          third_half = third_half;
        } in
        MeetsRow (row_of before place i) (S.present storage.old) before (Ok endings.Done) after }
    ensures still { let before = state_of cpu.old (S.memory storage.old) in
        let after = state_of cpu.new (S.memory storage.new) in
        result ≡ false → after ≡ before }
    ensures rest { S.Keeps storage.old storage.new }
{
    let i = Instruction {
        opcode: CODE,
        second_byte,
        second_half,
        third_half,
    };
    let reach = &mut Tested;
    match opcode_of(CODE) {
        Opcode::Fetches(FetchRow::CompareStrings) => {
            match compare_row(cpu, storage, i, reach) {
                Ok(_) => true,
                Err(_) => false,
            }
        }
        Opcode::Fetches(FetchRow::ScanString) => {
            match translate_test_row(cpu, storage, i, reach) {
                Ok(_) => true,
                Err(_) => false,
            }
        }
        Opcode::Stores(StoreRow::CombineStrings(Combine::Move)) => {
            match move_row(cpu, storage, i, reach) {
                Ok(_) => true,
                Err(_) => false,
            }
        }
        Opcode::Stores(StoreRow::CombineStrings(operation)) => {
            match combine_row(operation, cpu, storage, i, reach) {
                Ok(_) => true,
                Err(_) => false,
            }
        }
        Opcode::Stores(StoreRow::Translate) => match translate_row(cpu, storage, i, reach) {
            Ok(_) => true,
            Err(_) => false,
        },
        _ => false,
    }
}
