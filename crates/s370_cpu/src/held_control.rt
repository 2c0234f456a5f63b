//! Privileged instructions that set no storage key and ask no device, each done in one go if nothing
//! keeps it from being done.
ghost use Rattle.std.specs.Prelude.{◌≡◌, ◌+◌, ◌%◌, ◌≤◌, IfSome, Ok, length, slice_index};
ghost use Rattle.s370_store.specs.Blocks.{MayFetch};
ghost use Rattle.s370_rows.specs.Ending.{GoesOn};
ghost use Rattle.s370_rows.specs.State.{state_of};
ghost use Rattle.s370_rows.specs.Reach.{AreHeld};
ghost use Rattle.s370_cpu.specs.Fetch.{fetched, instruction_at};
ghost use Rattle.s370_cpu.specs.Table.{row_of};
ghost use Rattle.s370_cpu.specs.Unit.{Carries, place_at};
ghost use Rattle.s370_cpu.specs.Held.{MeetsAtOnce, SupervisesOrStays};

use crate::control::perform_control;
use crate::execute::EXECUTE;
use crate::fetch::length_of;
use crate::held::go_on;
use crate::known::load_known_in;
use crate::opcodes::{Control, Opcode, opcode_of};
use s370_num::Addr24;
use s370_rows::{Completion, Cpu, HeldBlock, Instruction, Place};
use s370_store::{Block, Keyed, load_byte_in};

/// Does one privileged instruction and returns the next instruction's address, if it is one that
/// sets no storage key and asks no device, the processor is in the supervisor state, and nothing
/// interrupts; else returns `None` and changes only `held`.
///
/// It is where [`step_held`](crate::step_held) takes instructions from. It may change all of
/// the PSW and control registers, so the caller has to look before the next one. Blocks may be
/// accessed as before, unless the PSW has another key. It is not inlined, so that the loop keeps its
/// registers for more frequent instructions.
#[inline(never)]
pub fn supervise_held<S: Keyed>(
    cpu: &mut Cpu,
    storage: &mut S,
    start: Addr24,
    block: Block,
    held: &mut HeldBlock,
) -> Option<Addr24>
    requires here { start ≡ cpu.old.psw.address }
    requires may_fetch { MayFetch (length (S.Storage.memory storage.old).bytes)
        (S.Storage.memory storage.old).keys
        (S.Storage.present storage.old) cpu.old.psw.key block.first }
    requires placed { S.Storage.IsPlaced storage.old block }
    requires begins { block.first ≤ start }
    requires ends { start ≤ block.first + 2042 }
    requires even { start % 2 ≡ 0 }
    requires operands { AreHeld (S.Storage.IsPlaced storage.old) (S.Storage.memory storage.old)
        (S.Storage.present storage.old) cpu.old.psw.key held.old }
    ensures step { let before = state_of cpu.old (S.Storage.memory storage.old) in
        let after = state_of cpu.new (S.Storage.memory storage.new) in
        SupervisesOrStays (S.Storage.present storage.old) before result after }
    ensures rest { S.Storage.Keeps storage.old storage.new }
    ensures operands { AreHeld (S.Storage.IsPlaced storage.old) (S.Storage.memory storage.old)
        (S.Storage.present storage.old) cpu.old.psw.key held.new }
{
    supervise_found(cpu, storage, start, block, held)
}

/// Does the instruction at `start` by its operation code and returns the next address, if it is
/// privileged, sets no storage key, asks no device and is not refused; else returns `None` and
/// changes only `held`.
#[inline(always)]
fn supervise_found<S: Keyed>(
    cpu: &mut Cpu,
    storage: &mut S,
    start: Addr24,
    block: Block,
    held: &mut HeldBlock,
) -> Option<Addr24>
    requires here { start ≡ cpu.old.psw.address }
    requires found { let m = state_of cpu.old (S.Storage.memory storage.old) in
        (fetched m start).result ≡ Ok (instruction_at (S.Storage.memory storage.old).bytes start) }
    requires placed { S.Storage.IsPlaced storage.old block }
    requires begins { block.first ≤ start }
    requires ends { start ≤ block.first + 2042 }
    requires operands { AreHeld (S.Storage.IsPlaced storage.old) (S.Storage.memory storage.old)
        (S.Storage.present storage.old) cpu.old.psw.key held.old }
    ensures step { let before = state_of cpu.old (S.Storage.memory storage.old) in
        let after = state_of cpu.new (S.Storage.memory storage.new) in
        SupervisesOrStays (S.Storage.present storage.old) before result after }
    ensures rest { S.Storage.Keeps storage.old storage.new }
    ensures operands { AreHeld (S.Storage.IsPlaced storage.old) (S.Storage.memory storage.old)
        (S.Storage.present storage.old) cpu.old.psw.key held.new }
{
    match load_byte_in(storage, block, start.get()) {
        0x09 => carry_control::<S, 0x09>(cpu, storage, start, block, held),
        0x80 => carry_control::<S, 0x80>(cpu, storage, start, block, held),
        0x82 => carry_control::<S, 0x82>(cpu, storage, start, block, held),
        0xAC => carry_control::<S, 0xAC>(cpu, storage, start, block, held),
        0xAD => carry_control::<S, 0xAD>(cpu, storage, start, block, held),
        0xB6 => carry_control::<S, 0xB6>(cpu, storage, start, block, held),
        0xB7 => carry_control::<S, 0xB7>(cpu, storage, start, block, held),
        _ => None,
    }
}

/// Does the privileged instruction at `start`, whose operation code is `CODE`, and returns the next
/// address, if it sets no storage key, asks no device and is not refused; else returns `None` and
/// changes only `held`.
#[inline(always)]
fn carry_control<S: Keyed, const CODE: u8>(
    cpu: &mut Cpu,
    storage: &mut S,
    start: Addr24,
    block: Block,
    held: &mut HeldBlock,
) -> Option<Addr24>
    requires here { start ≡ cpu.old.psw.address }
    requires found { let m = state_of cpu.old (S.Storage.memory storage.old) in
        (fetched m start).result ≡ Ok (instruction_at (S.Storage.memory storage.old).bytes start) }
    requires placed { S.Storage.IsPlaced storage.old block }
    requires begins { block.first ≤ start }
    requires ends { start ≤ block.first + 2042 }
    requires known { CODE ≡ slice_index (S.Storage.memory storage.old).bytes start }
    requires operands { AreHeld (S.Storage.IsPlaced storage.old) (S.Storage.memory storage.old)
        (S.Storage.present storage.old) cpu.old.psw.key held.old }
    ensures step { let before = state_of cpu.old (S.Storage.memory storage.old) in
        let after = state_of cpu.new (S.Storage.memory storage.new) in
        SupervisesOrStays (S.Storage.present storage.old) before result after }
    ensures rest { S.Storage.Keeps storage.old storage.new }
    ensures operands { AreHeld (S.Storage.IsPlaced storage.old) (S.Storage.memory storage.old)
        (S.Storage.present storage.old) cpu.old.psw.key held.new }
{
    if CODE == EXECUTE {
        return None;
    }
    let i = load_known_in(storage, block, start.get(), CODE);
    let ilc = length_of(CODE);
    let next = start.wrapping_add(2 * ilc.get() as u32);
    finish_control::<S, CODE>(cpu, storage, Place { next, ilc }, i, held)
}

/// Does a fetched instruction as [`supervise_held`] does, sets the next address and returns it;
/// or returns `None` and changes only `held`.
#[inline(always)]
fn finish_control<S: Keyed, const CODE: u8>(
    cpu: &mut Cpu,
    storage: &mut S,
    place: Place,
    i: Instruction,
    held: &mut HeldBlock,
) -> Option<Addr24>
    requires same { i.opcode ≡ CODE }
    requires carried { Carries (state_of cpu.old (S.Storage.memory storage.old)) place.ilc i }
    requires next { let m = state_of cpu.old (S.Storage.memory storage.old) in
        place ≡ place_at m place.ilc }
    requires operands { AreHeld (S.Storage.IsPlaced storage.old) (S.Storage.memory storage.old)
        (S.Storage.present storage.old) cpu.old.psw.key held.old }
    ensures step { let before = state_of cpu.old (S.Storage.memory storage.old) in
        let after = state_of cpu.new (S.Storage.memory storage.new) in
        SupervisesOrStays (S.Storage.present storage.old) before result after }
    ensures rest { S.Storage.Keeps storage.old storage.new }
    ensures operands { AreHeld (S.Storage.IsPlaced storage.old) (S.Storage.memory storage.old)
        (S.Storage.present storage.old) cpu.old.psw.key held.new }
{
    let Place { next, ilc } = place;
    match perform_supervised::<S, CODE>(cpu, storage, Place { next, ilc }, i, held) {
        Some(ending) => go_on(cpu, Place { next, ilc }, ending).next(),
        None => None,
    }
}

/// Does a fetched instruction over the held blocks if it is privileged, sets no storage key, asks no
/// device and is not refused, or returns `None` and changes only `held`; the caller sets the next
/// address.
#[inline(always)]
fn perform_supervised<S: Keyed, const CODE: u8>(
    cpu: &mut Cpu,
    storage: &mut S,
    place: Place,
    i: Instruction,
    held: &mut HeldBlock,
) -> Option<Completion>
    requires same { i.opcode ≡ CODE }
    requires operands { AreHeld (S.Storage.IsPlaced storage.old) (S.Storage.memory storage.old)
        (S.Storage.present storage.old) cpu.old.psw.key held.old }
    ensures row { let before = state_of cpu.old (S.Storage.memory storage.old) in
        let after = state_of cpu.new (S.Storage.memory storage.new) in
        MeetsAtOnce (row_of before place i) (S.Storage.present storage.old) before result after }
    ensures goes_on { IfSome result GoesOn }
    ensures rest { S.Storage.Keeps storage.old storage.new }
    ensures operands { AreHeld (S.Storage.IsPlaced storage.old) (S.Storage.memory storage.old)
        (S.Storage.present storage.old) cpu.old.psw.key held.new }
{
    match opcode_of(CODE) {
        Opcode::Supervised(Control::SetStorageKey | Control::InputOutput(_)) => None,
        Opcode::Supervised(control) => match perform_control(control, cpu, storage, i, held) {
            Ok(ending) => Some(ending),
            Err(()) => None,
        },
        _ => None,
    }
}
