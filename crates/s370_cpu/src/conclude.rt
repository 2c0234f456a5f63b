//! How a unit ends.
ghost use Rattle.std.specs.Prelude.{◌≡◌, ℕ};
ghost use Rattle.s370_cpu.specs.Unit.{stopped};

use s370_num::Addr24;
use s370_psw::{Ilc, ProgramCode};
use s370_rows::{Completion, Cpu, Instruction, IoOperation, Place, Refusal};
use s370_store::Page;

/// How a unit ends.
#[derive(Clone, Copy, PartialEq, Eq)]
pub enum Stop {
    /// The instruction is done, or a part of it; the program status word has the address of the
    /// next one.
    Done,
    /// The program is interrupted with this code and instruction length. The program status word
    /// has the address that the interruption stores.
    Program(ProgramCode, Ilc),
    /// The program called the supervisor with this number. The program status word has the next
    /// address.
    Svc(u8, Ilc),
    /// The device of this address, or its channel, is asked: the machine that has the devices
    /// answers by the condition code. The program status word has the next address.
    InputOutput(IoOperation, u16),
    /// An instruction for the supervisor state only: the one that is carried out, so under EX the
    /// target. It was fetched, and nothing is changed, the address neither.
    Privileged(Instruction, Ilc),
    /// The unit has to access this page, which is not present. Nothing is changed.
    Absent(Page),
}

/// Sets the instruction address by how an instruction ended, and returns how the step ends; if the
/// instruction is to be done again or a page is absent, nothing changes.
#[inline(always)]
pub fn conclude(cpu: &mut Cpu, place: Place, outcome: Result<Completion, Refusal>) -> Stop
    ensures { stopped outcome place cpu.old ≡ record { stop = result; cpu = cpu.new } }
{
    // Nearly every instruction ends in one of these two: a test of its own is cheaper than one jump
    // more.
    if let Ok(Completion::Done) = outcome {
        cpu.psw.set_address(place.next);
        return Stop::Done;
    }
    if let Ok(Completion::Branch(address)) = outcome {
        cpu.psw.set_address(Addr24::wrapping(address));
        return Stop::Done;
    }
    match outcome {
        Ok(Completion::Done) => {
            cpu.psw.set_address(place.next);
            Stop::Done
        }
        Ok(Completion::Branch(address)) => {
            cpu.psw.set_address(Addr24::wrapping(address));
            Stop::Done
        }
        Ok(Completion::Again) => Stop::Done,
        Ok(Completion::Interrupted(code)) => {
            cpu.psw.set_address(place.next);
            Stop::Program(code, place.ilc)
        }
        Ok(Completion::SupervisorCall(number)) => {
            cpu.psw.set_address(place.next);
            Stop::Svc(number, place.ilc)
        }
        Ok(Completion::InputOutput(operation, device)) => {
            cpu.psw.set_address(place.next);
            Stop::InputOutput(operation, device)
        }
        Err(Refusal::Program(code)) => {
            cpu.psw.set_address(place.next);
            Stop::Program(code, place.ilc)
        }
        Err(Refusal::Absent(page)) => Stop::Absent(page),
    }
}
