//! The privileged instructions of a guest.
ghost use Rattle.std.specs.Prelude.{◌≡◌, ◌↔◌, true, length, IsTrue};
ghost use Rattle.s370_rows.specs.State.{state_of};
ghost use Rattle.s370_cpu.specs.Opcodes.{opcode_at};
ghost use Rattle.s370_cpu.specs.Unit.{MeetsUnit};
ghost use Rattle.s370_cpu.specs.Table.{is_supervised, supervised};
ghost use Rattle.cp_trap.specs.Trap.{stop_of};

use s370_cpu::{Stop, supervise};
use s370_psw::{Ilc, ProgramCode};
use s370_rows::{Cpu, Instruction, IoOperation};
use s370_store::{Keyed, Page};

/// What became of a privileged instruction of a guest.
#[derive(Clone, Copy, PartialEq, Eq)]
pub enum Simulated {
    /// It is done, on the virtual registers and the guest's storage.
    Done,
    /// It is refused: the guest is to be interrupted with this code, and has the next address
    /// already.
    Refused(ProgramCode),
    /// The guest's own device of this address, or its channel, is asked, and the guest has the next
    /// address already; the condition code is still to be set.
    InputOutput(IoOperation, u16),
    /// It has to access this page, which is not present. Nothing is changed.
    Absent(Page),
}

/// Simulates a privileged instruction on a guest's virtual registers and storage, or returns why it
/// is not done: refused, an I/O operation, or an absent page.
///
/// It was handed back with this length code. In the virtual problem state, and only there, it is
/// refused as a privileged operation.
#[inline]
pub fn simulate<S: Keyed>(
    cpu: &mut Cpu,
    storage: &mut S,
    instruction: Instruction,
    ilc: Ilc,
) -> Simulated
    requires { is_supervised (opcode_at instruction.opcode) ≡ true }
    ensures simulated { let before = state_of cpu.old (S.Storage.memory storage.old) in
        let after = state_of cpu.new (S.Storage.memory storage.new) in
        MeetsUnit (supervised before instruction ilc)
        (S.Storage.present storage.old) before (stop_of result ilc) after }
    ensures refused { (result ≡ Simulated.Refused ProgramCode.PrivilegedOperation) ↔ IsTrue
        cpu.old.psw.problem }
    ensures rest { S.KeepsRest storage.old storage.new }
{
    match supervise(cpu, storage, instruction, ilc) {
        Stop::Done => Simulated::Done,
        Stop::Program(code, _) => Simulated::Refused(code),
        Stop::InputOutput(operation, device) => Simulated::InputOutput(operation, device),
        Stop::Absent(page) => Simulated::Absent(page),
        // No privileged instruction calls the supervisor, or is handed back once more.
        Stop::Svc(_, _) => unreachable!(),
        Stop::Privileged(_, _) => unreachable!(),
    }
}
