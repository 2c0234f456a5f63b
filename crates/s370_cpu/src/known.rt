//! An instruction that may be fetched, whose operation code is known: GA22-7000, "Instruction
//! Formats".
ghost use Rattle.std.specs.Prelude.{◌≡◌, ℕ, ◌+◌, ◌≤◌, List, length, slice_index, slice_range};
ghost use Rattle.std.specs.Prelude.{if◌then◌else◌};
ghost use Rattle.std.specs.Int.{w16, from_be_bytes};
ghost use Rattle.s370_store.specs.Access.{IsGranted};
ghost use Rattle.s370_cpu.specs.Fetch.{instruction_at};

use s370_rows::Instruction;
use s370_store::{Block, Storage};

/// Returns two bytes as a halfword, or zero if `past` is true: the halfword is past the
/// instruction's end.
#[inline(always)]
fn half(past: bool, bytes: [u8; 2]) -> u16
    ensures { result ≡ (if past then 0 else from_be_bytes w16 bytes) }
{
    if past { 0 } else { u16::from_be_bytes(bytes) }
}

/// Returns the instruction in the front of six bytes, whose operation code is passed and sets its
/// length.
#[inline(always)]
fn instruction_in(bytes: &[u8; 6], opcode: u8) -> Instruction
    ensures instruction { (storage : List ℕ) → (start : ℕ)
        → bytes.now ≡ slice_range storage start (start + 6)
        → opcode ≡ slice_index storage start → result ≡ instruction_at storage start }
    ensures same_opcode { result.opcode ≡ opcode }
{
    Instruction {
        opcode,
        second_byte: bytes[1],
        second_half: half(opcode < 0x40, [bytes[2], bytes[3]]),
        third_half: half(opcode < 0xC0, [bytes[4], bytes[5]]),
    }
}

/// Returns the instruction at an address from which six bytes may be loaded; its operation code is
/// passed.
#[inline(always)]
pub fn load_known<S: Storage>(storage: &S, start: u32, opcode: u8) -> Instruction
    requires granted { IsGranted (length (S.memory storage.now).bytes) (S.present storage.now) start
        6 }
    requires known { opcode ≡ slice_index (S.memory storage.now).bytes start }
    ensures instruction { result ≡ instruction_at (S.memory storage.now).bytes start }
    ensures same_opcode { result.opcode ≡ opcode }
{
    let mut bytes = [0u8; 6];
    storage.load(start, &mut bytes);
    instruction_in(&bytes, opcode)
}

/// Returns the instruction at an address in a block that `find_block` returned; its operation code
/// is passed.
#[inline(always)]
pub fn load_known_in<S: Storage>(storage: &S, block: Block, start: u32, opcode: u8) -> Instruction
    requires placed { S.IsPlaced storage.now block }
    requires begins { block.first ≤ start }
    requires ends { start ≤ block.first + 2042 }
    requires known { opcode ≡ slice_index (S.memory storage.now).bytes start }
    ensures instruction { result ≡ instruction_at (S.memory storage.now).bytes start }
    ensures same_opcode { result.opcode ≡ opcode }
{
    let mut bytes = [0u8; 6];
    storage.load_in(block, start, &mut bytes);
    instruction_in(&bytes, opcode)
}
