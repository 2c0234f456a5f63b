//! What registers and the PSW take of a value, an address or a byte.
ghost use Rattle.std.specs.Prelude.{◌≡◌, ℕ};
ghost use Rattle.s370_rows.specs.Load.{program_mask_set, address_loaded, byte_inserted};

use crate::cpu::Cpu;
use crate::ending::Completion;
use s370_num::{Addr24, ConditionCode, Register};

/// Does SPM (04): sets the condition code and the program mask from bits 2 to 7 of a register.
#[inline(always)]
pub fn set_program_mask_row(cpu: &mut Cpu, register: Register) -> Completion
    ensures { program_mask_set cpu.old register ≡ record { ending = result; cpu = cpu.new } }
{
    let a = cpu.general[register.index()];
    cpu.psw
        .set_condition(ConditionCode::new((a >> 28 & 3) as u8));
    cpu.psw.set_program_mask((a >> 24 & 0xF) as u8);
    Completion::Done
}

/// Does LA (41): sets a register to an address, whose high byte is zero.
#[inline(always)]
pub fn load_address_row(cpu: &mut Cpu, register: Register, address: Addr24) -> Completion
    ensures { address_loaded cpu.old register address ≡ record { ending = result; cpu = cpu.new } }
{
    cpu.general[register.index()] = address.get();
    Completion::Done
}

/// Does IC (43): replaces the rightmost byte of a register.
#[inline(always)]
pub fn insert_byte_row(cpu: &mut Cpu, register: Register, byte: u8) -> Completion
    ensures { byte_inserted cpu.old register byte ≡ record { ending = result; cpu = cpu.new } }
{
    let a = cpu.general[register.index()];
    cpu.general[register.index()] = a / 256 * 256 + byte as u32;
    Completion::Done
}
