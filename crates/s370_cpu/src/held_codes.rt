//! The way of each operation code.
ghost use Rattle.std.specs.Prelude.{◌≡◌, ◌+◌, ◌<◌, ◌≤◌, Ok};
ghost use Rattle.s370_rows.specs.State.{state_of};
ghost use Rattle.s370_rows.specs.Reach.{AreHeld};
ghost use Rattle.s370_cpu.specs.Fetch.{fetched, instruction_at};
ghost use Rattle.s370_cpu.specs.Unit.{Carries, place_at};
ghost use Rattle.s370_cpu.specs.Held.{FollowsIn, IsAt, StepsOrStays, next_after};

use crate::held::{carry_called, carry_held, finish_called};
use crate::stepped::Stepped;
use s370_num::Addr24;
use s370_rows::{Cpu, HeldBlock, Instruction, Place};
use s370_store::{Block, Storage, load_byte_in};

/// Does what an operation code says, which is then a constant: `$near` for those that are inlined,
/// `$far` for the others of the loop, and nothing for those that it leaves out.
///
/// Every operation code but the last has an arm, those that are left out too, and the last answers
/// otherwise than they: so LLVM knows that no code is outside the table, and the jump has no test.
macro_rules! by_code {
    ($code:expr, $near:ident, $far:ident, $arguments:tt) => {
        by_code!(
            $code, $arguments;
            $near:
            0x04 0x05 0x06 0x07
            0x10 0x11 0x12 0x13 0x14 0x15 0x16 0x17 0x18 0x19 0x1A 0x1B 0x1C 0x1E 0x1F
            0x40 0x41 0x42 0x43 0x45 0x46 0x47 0x48 0x49 0x4A 0x4B
            0x50 0x54 0x55 0x56 0x57 0x58 0x59 0x5A 0x5B 0x5E 0x5F
            0x86 0x87 0x88 0x89 0x8A 0x8B 0x8C 0x8D
            0x91 0x92 0x94 0x95 0x96 0x97
            0xD2;
            $far:
            0x0F
            0x1D
            0x44 0x4C 0x4E
            0x5C 0x5D
            0x8E 0x8F
            0x90 0x93 0x98
            0xBA 0xBB 0xBD 0xBE 0xBF
            0xD1 0xD3 0xD4 0xD5 0xD6 0xD7 0xDC 0xDD
            0xF1 0xF2 0xF3;
            left out:
            0x00 0x01 0x02 0x03 0x08 0x09 0x0A 0x0B 0x0C 0x0D 0x0E
            0x20 0x21 0x22 0x23 0x24 0x25 0x26 0x27 0x28 0x29 0x2A 0x2B 0x2C 0x2D 0x2E 0x2F
            0x30 0x31 0x32 0x33 0x34 0x35 0x36 0x37 0x38 0x39 0x3A 0x3B 0x3C 0x3D 0x3E 0x3F
            0x4D 0x4F
            0x51 0x52 0x53
            0x60 0x61 0x62 0x63 0x64 0x65 0x66 0x67 0x68 0x69 0x6A 0x6B 0x6C 0x6D 0x6E 0x6F
            0x70 0x71 0x72 0x73 0x74 0x75 0x76 0x77 0x78 0x79 0x7A 0x7B 0x7C 0x7D 0x7E 0x7F
            0x80 0x81 0x82 0x83 0x84 0x85
            0x99 0x9A 0x9B 0x9C 0x9D 0x9E 0x9F
            0xA0 0xA1 0xA2 0xA3 0xA4 0xA5 0xA6 0xA7 0xA8 0xA9 0xAA 0xAB 0xAC 0xAD 0xAE 0xAF
            0xB0 0xB1 0xB2 0xB3 0xB4 0xB5 0xB6 0xB7 0xB8 0xB9 0xBC
            0xC0 0xC1 0xC2 0xC3 0xC4 0xC5 0xC6 0xC7 0xC8 0xC9 0xCA 0xCB 0xCC 0xCD 0xCE 0xCF
            0xD0 0xD8 0xD9 0xDA 0xDB 0xDE 0xDF
            0xE0 0xE1 0xE2 0xE3 0xE4 0xE5 0xE6 0xE7 0xE8 0xE9 0xEA 0xEB 0xEC 0xED 0xEE 0xEF
            0xF0 0xF4 0xF5 0xF6 0xF7 0xF8 0xF9 0xFA 0xFB 0xFC 0xFD 0xFE
        )
    };
    (
        $code:expr, $arguments:tt;
        $near:ident: $($inlined:literal)*;
        $far:ident: $($called:literal)*;
        left out: $($left:literal)*
    ) => {
        match $code {
            $($inlined => $near::<S, $inlined> $arguments,)*
            $($called => $far::<S, $called> $arguments,)*
            $($left => Stepped::LeftOut,)*
            _ => Stepped::Unassigned,
        }
    };
}

/// Does the instruction at `start` by its operation code, if it is a frequent one and the processor
/// goes on; else changes only `held`.
#[inline(always)]
pub(crate) fn step_found<S: Storage>(
    cpu: &mut Cpu,
    storage: &mut S,
    start: Addr24,
    block: Block,
    held: &mut HeldBlock,
) -> Stepped
    requires here { start ≡ cpu.old.psw.address }
    requires found { let m = state_of cpu.old (S.memory storage.old) in
        (fetched m start).result ≡ Ok (instruction_at (S.memory storage.old).bytes start) }
    requires placed { S.IsPlaced storage.old block }
    requires low { block.first + 2048 < 16777216 }
    requires begins { block.first ≤ start }
    requires ends { start ≤ block.first + 2042 }
    requires operands { AreHeld (S.IsPlaced storage.old) (S.memory storage.old)
        (S.present storage.old) cpu.old.psw.key held.old }
    ensures step { let before = state_of cpu.old (S.memory storage.old) in
        let after = state_of cpu.new (S.memory storage.new) in
        StepsOrStays (S.present storage.old) before (next_after result) after }
    ensures follows { FollowsIn start result }
    ensures rest { S.Keeps storage.old storage.new }
    ensures operands { AreHeld (S.IsPlaced storage.old) (S.memory storage.old)
        (S.present storage.old) cpu.old.psw.key held.new }
{
    // One jump, after which all is compiled for the one operation code.
    by_code!(
        load_byte_in(storage, block, start.get()),
        carry_held,
        carry_called,
        (cpu, storage, start, block, held)
    )
}

/// Does the target of an EX by its operation code, if it is a frequent one and the processor goes
/// on; else changes only `held`.
#[inline(always)]
pub(crate) fn finish_target<S: Storage>(
    cpu: &mut Cpu,
    storage: &mut S,
    place: Place,
    i: Instruction,
    held: &mut HeldBlock,
) -> Stepped
    requires carried { Carries (state_of cpu.old (S.memory storage.old)) place.ilc i }
    requires next { let m = state_of cpu.old (S.memory storage.old) in
        place ≡ place_at m place.ilc }
    requires operands { AreHeld (S.IsPlaced storage.old) (S.memory storage.old)
        (S.present storage.old) cpu.old.psw.key held.old }
    ensures step { let before = state_of cpu.old (S.memory storage.old) in
        let after = state_of cpu.new (S.memory storage.new) in
        StepsOrStays (S.present storage.old) before (next_after result) after }
    ensures follows { IsAt place.next result }
    ensures rest { S.Keeps storage.old storage.new }
    ensures operands { AreHeld (S.IsPlaced storage.old) (S.memory storage.old)
        (S.present storage.old) cpu.old.psw.key held.new }
{
    by_code!(
        i.opcode,
        finish_called,
        finish_called,
        (cpu, storage, place, i, held)
    )
}
