//! Instructions that the loop leaves out, from the block in which they are: what changes rights,
//! interrupts, or asks a device, and what has operands in two blocks.
ghost use Rattle.std.specs.Prelude.{◌≡◌, ◌+◌, ◌%◌, ◌≤◌, Ok, length, slice_index, true};
ghost use Rattle.s370_store.specs.Blocks.{MayFetch};
ghost use Rattle.s370_rows.specs.State.{state_of};
ghost use Rattle.s370_cpu.specs.Fetch.{fetched};
ghost use Rattle.s370_intr.specs.InputOutput.{configuration_of};
ghost use Rattle.s370_intr.specs.Units.{IsDoneIf, MeetsInstruction};

use crate::class::Class;
use crate::unit::{Processor, follow, instruct_control};
use s370_cpu::{Stop, load_known_in, step_in};
use s370_num::{AccessKey, Addr24};
use s370_psw::Ilc;
use s370_rows::{Cpu, Instruction};
use s370_store::{Access, Block, Keyed, Page, Range, Storage};
use s370_subchannels::Subchannels;

/// 0A SVC.
pub const SUPERVISOR_CALL: u8 = 0x0A;

/// Returns whether page 0, in which interruptions store and load the PSW, is present.
#[inline(always)]
fn has_first_page<S: Storage>(storage: &S) -> bool
    requires { 8192 ≤ length (S.memory storage.now).bytes }
    ensures { result ≡ true → S.present storage.now 0 ≡ true }
{
    let first = Range { start: 0, count: 1 };
    match storage.check(first, Access::Fetch, AccessKey::ZERO) {
        Ok(()) => true,
        Err(_) => false,
    }
}

/// Does SVC, which was fetched from `start`, and its interruption, or returns page 0 if that is
/// absent, and nothing has changed.
#[inline(always)]
fn call_supervisor<P: Processor, S: Keyed>(
    cpu: &mut Cpu,
    subchannels: &Subchannels,
    storage: &mut S,
    start: Addr24,
    call: Instruction,
) -> Result<(), Page>
    requires size { 8192 ≤ length (S.Storage.memory storage.old).bytes }
    requires here { start ≡ cpu.old.psw.address }
    requires called { call.opcode ≡ SUPERVISOR_CALL }
    requires found { let m = state_of cpu.old (S.Storage.memory storage.old) in
        (fetched m start).result ≡ Ok call }
    ensures instruction { let before = configuration_of
        (state_of cpu.old (S.Storage.memory storage.old)) subchannels.now in
        let after = configuration_of
        (state_of cpu.new (S.Storage.memory storage.new)) subchannels.now in
        MeetsInstruction (S.Storage.present storage.old) before result after }
    ensures rest { S.Storage.Keeps storage.old storage.new }
{
    let number = u16::from(call.second_byte);
    cpu.psw.set_address(start.wrapping_add(2));
    match P::interrupt(cpu, storage, Class::SupervisorCall, number, Ilc::ONE) {
        Ok(()) => Ok(()),
        Err(page) => {
            cpu.psw.set_address(start);
            Err(page)
        }
    }
}

/// Does the SVC at `start` with its interruption and returns true; or returns false and changes
/// nothing, if page 0 is absent.
///
/// The instruction lies in `block`, with room for the longest. All blocks may be accessed as before,
/// unless the PSW has another key.
#[inline(never)]
pub fn call_supervisor_in<P: Processor, S: Keyed>(
    cpu: &mut Cpu,
    subchannels: &Subchannels,
    storage: &mut S,
    start: Addr24,
    block: Block,
) -> bool
    requires size { 8192 ≤ length (S.Storage.memory storage.old).bytes }
    requires here { start ≡ cpu.old.psw.address }
    requires may_fetch { MayFetch (length (S.Storage.memory storage.old).bytes)
        (S.Storage.memory storage.old).keys
        (S.Storage.present storage.old) cpu.old.psw.key block.first }
    requires placed { S.Storage.IsPlaced storage.old block }
    requires begins { block.first ≤ start }
    requires ends { start ≤ block.first + 2042 }
    requires even { start % 2 ≡ 0 }
    requires called { slice_index (S.Storage.memory storage.old).bytes start ≡ SUPERVISOR_CALL }
    ensures instruction { let before = configuration_of
        (state_of cpu.old (S.Storage.memory storage.old)) subchannels.now in
        let after = configuration_of
        (state_of cpu.new (S.Storage.memory storage.new)) subchannels.now in
        IsDoneIf result before after }
    ensures rest { S.Storage.Keeps storage.old storage.new }
{
    let call = load_known_in(storage, block, start.get(), SUPERVISOR_CALL);
    match call_supervisor::<P, S>(cpu, subchannels, storage, start, call) {
        Ok(()) => true,
        Err(_) => false,
    }
}

/// Does the instruction at `start`, with the interruption or the device's answer that it ends in,
/// and returns true; or returns false and changes nothing, if a page is absent.
///
/// The instruction lies in `block`, with room for the longest.
#[inline(always)]
pub fn instruct_in<P: Processor, S: Keyed>(
    cpu: &mut Cpu,
    subchannels: &mut Subchannels,
    storage: &mut S,
    start: Addr24,
    block: Block,
) -> bool
    requires size { 8192 ≤ length (S.Storage.memory storage.old).bytes }
    requires here { start ≡ cpu.old.psw.address }
    requires may_fetch { MayFetch (length (S.Storage.memory storage.old).bytes)
        (S.Storage.memory storage.old).keys
        (S.Storage.present storage.old) cpu.old.psw.key block.first }
    requires placed { S.Storage.IsPlaced storage.old block }
    requires begins { block.first ≤ start }
    requires ends { start ≤ block.first + 2042 }
    requires even { start % 2 ≡ 0 }
    ensures instruction { let before = configuration_of
        (state_of cpu.old (S.Storage.memory storage.old)) subchannels.old in
        let after = configuration_of
        (state_of cpu.new (S.Storage.memory storage.new)) subchannels.new in
        IsDoneIf result before after }
    ensures rest { S.KeepsRest storage.old storage.new }
{
    if !has_first_page(storage) {
        return false;
    }
    let stop = step_in(cpu, storage, start, block);
    match stop {
        Stop::Done => return true,
        Stop::Absent(_) => return false,
        Stop::Privileged(i, ilc) => {
            return match instruct_control::<P, S>(cpu, subchannels, storage, i, ilc) {
                Ok(()) => true,
                Err(_) => false,
            };
        }
        _ => {}
    }
    match follow::<P, S>(cpu, subchannels, storage, stop) {
        Ok(()) => true,
        // What interrupts needs page 0 alone.
        Err(_) => unreachable!(),
    }
}
