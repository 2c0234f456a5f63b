//! The processor of a guest.
use crate::reflection::reflect;
use crate::simulation::{Simulated, simulate};
use s370_cpu::Stop;
use s370_intr::{Class, Processor};
use s370_psw::Ilc;
use s370_rows::{Cpu, Instruction};
use s370_store::{Keyed, Page};

/// The processor that a guest has, and believes to be a real one.
///
/// Its registers may say that it is in the supervisor state. The real machine is in the problem
/// state whenever it runs the guest, so the instructions for the supervisor state are simulated,
/// and interruptions are reflected.
pub struct VirtualCpu;

impl Processor for VirtualCpu {
    /// Simulates a privileged instruction of a guest, and returns how it ended as the processor
    /// reports it.
    #[inline(always)]
    fn control<S: Keyed>(cpu: &mut Cpu, storage: &mut S, i: Instruction, ilc: Ilc) -> Stop {
        match simulate(cpu, storage, i, ilc) {
            Simulated::Done => Stop::Done,
            Simulated::Refused(code) => Stop::Program(code, ilc),
            Simulated::InputOutput(operation, device) => Stop::InputOutput(operation, device),
            Simulated::Absent(page) => Stop::Absent(page),
        }
    }

    /// Interrupts a guest: stores his virtual PSW in his page 0, and loads the new PSW of this
    /// class from there; the error is that page, if it is absent.
    #[inline(always)]
    fn interrupt<S: Keyed>(
        cpu: &mut Cpu,
        storage: &mut S,
        class: Class,
        code: u16,
        ilc: Ilc,
    ) -> Result<(), Page> {
        reflect(cpu, storage, class, code, ilc)
    }
}
