//! Instructions over registers and operand values.
ghost use Rattle.std.specs.Prelude.{◌≡◌, ℕ};
ghost use Rattle.s370_rows.specs.Registers.{arithmetic, overflow_ending};

use crate::arithmetic::{Arithmetic, compute};
use crate::cpu::Cpu;
use crate::ending::Completion;
use s370_num::Register;
use s370_psw::ProgramCode;

/// Does an operation on a register and an operand: sets the register, the condition code, or both
/// as the operation says, and returns an overflow exception if one is enabled.
///
/// It serves LPR 10, LNR 11, LTR 12, LCR 13, LR 18, L 58 and LH 48, of which the first four set the
/// condition code; CR 19, C 59, CH 49, CLR 15 and CL 55; AR 1A, A 5A, AH 4A, SR 1B, S 5B and SH 4B;
/// ALR 1E, AL 5E, SLR 1F and SL 5F; NR 14, N 54, OR 16, O 56, XR 17 and X 57.
#[inline(always)]
pub fn arithmetic_row(
    operation: Arithmetic,
    cpu: &mut Cpu,
    register: Register,
    b: u32,
) -> Completion
    ensures { arithmetic operation cpu.old register b ≡ record { ending = result; cpu = cpu.new } }
{
    let a = cpu.general[register.index()];
    let computed = compute(operation, cpu.psw.condition(), a, b);
    cpu.general[register.index()] = computed.value;
    cpu.psw.set_condition(computed.condition);
    overflow_ending(cpu, computed.overflows)
}

/// Returns a fixed-point overflow exception if a result overflows and the program mask enables it,
/// else `Done`.
#[inline(always)]
pub fn overflow_ending(cpu: &Cpu, overflows: bool) -> Completion
    ensures { result ≡ overflow_ending cpu.now overflows }
{
    if overflows && cpu.psw.program_mask() >= 8 {
        Completion::Interrupted(ProgramCode::FixedPointOverflow)
    } else {
        Completion::Done
    }
}
