//! Compare and swap, on values: what storage takes is for the caller to store.
ghost use Rattle.std.specs.Prelude.{◌≡◌, ℕ, ◌<◌};
ghost use Rattle.s370_rows.specs.Swap.{compared_swap, compared_swap_pair};

use crate::cpu::Cpu;
use s370_num::{ConditionCode, Register};

/// Does CS (BA) on registers: returns R3, which is to be stored, if R1 equals the word of storage,
/// else loads that word into R1; sets the condition code.
#[inline(always)]
pub fn compare_and_swap(cpu: &mut Cpu, first: Register, third: Register, word: u32) -> Option<u32>
    ensures { compared_swap cpu.old first third word ≡ record { cpu = cpu.new; stored = result } }
{
    if cpu.general[first.index()] == word {
        cpu.psw.set_condition(ConditionCode::ZERO);
        Some(cpu.general[third.index()])
    } else {
        cpu.general[first.index()] = word;
        cpu.psw.set_condition(ConditionCode::ONE);
        None
    }
}

/// Does CDS (BB) on registers: returns pair R3, which is to be stored, if pair R1 equals the
/// doubleword of storage, else loads that into pair R1; sets the condition code.
#[inline(always)]
pub fn compare_and_swap_pair(
    cpu: &mut Cpu,
    first: Register,
    third: Register,
    doubleword: u64,
) -> Option<u64>
    requires first { first < 15 }
    requires third { third < 15 }
    ensures { compared_swap_pair cpu.old first third doubleword
        ≡ record { cpu = cpu.new; stored = result } }
{
    if cpu.pair(first) == doubleword {
        cpu.psw.set_condition(ConditionCode::ZERO);
        Some(cpu.pair(third))
    } else {
        cpu.set_pair(first, doubleword);
        cpu.psw.set_condition(ConditionCode::ONE);
        None
    }
}
