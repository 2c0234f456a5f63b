//! Units of operation.
ghost use Rattle.std.specs.Prelude.{◌≡◌, ℕ, ◌≤◌, ◌⊎◌, true, length};
ghost use Rattle.s370_rows.specs.State.{state_of};
ghost use Rattle.s370_cpu.specs.Opcodes.{opcode_at};
ghost use Rattle.s370_cpu.specs.Table.{MeetsStep, is_supervised, supervised};
ghost use Rattle.s370_cpu.specs.Unit.{MeetsUnit};
ghost use Rattle.s370_intr.specs.Swap.{MeetsSwap, swapped};
ghost use Rattle.s370_intr.specs.InputOutput.{configuration_of};
ghost use Rattle.s370_intr.specs.Units.{MeetsFollowed, MeetsInstruction, MeetsPresented};
ghost use Rattle.s370_intr.specs.Units.{MeetsUnitAt, core_of};
ghost use Rattle.s370_intr.specs.declared.next.Next.TheVariants as next;
ghost use Rattle.s370_cpu.specs.declared.conclude.Stop.TheVariants as stops;

use crate::class::Class;
use crate::input_output::answer_asked;
use crate::pending::Pending;
use crate::psw_swap::swap;
use s370_cpu::{Stop, step, supervise};
use s370_num::AccessKey;
use s370_psw::Ilc;
use s370_rows::{Cpu, Instruction};
use s370_store::{Access, Keyed, Page, Range, Storage};
use s370_subchannels::{DeviceState, Status, Subchannels, store_csw};

/// How the instructions for the supervisor state and the interruptions of a processor are carried
/// out: by the processor itself, or for a guest by the control program.
pub trait Processor {
    /// Completes a privileged instruction that `step` returned, and returns how it ended.
    fn control<S: Keyed>(cpu: &mut Cpu, storage: &mut S, i: Instruction, ilc: Ilc) -> Stop
        requires { is_supervised (opcode_at i.opcode) ≡ true }
        ensures unit { let before = state_of cpu.old (S.Storage.memory storage.old) in
            let after = state_of cpu.new (S.Storage.memory storage.new) in
            MeetsUnit (supervised before i ilc) (S.Storage.present storage.old) before result
            after }
        ensures rest { S.KeepsRest storage.old storage.new };

    /// Interrupts the processor: stores the old PSW of the class, with this code and length code,
    /// and loads the new one.
    ///
    /// If page 0 is absent, nothing is changed.
    ///
    /// # Errors
    ///
    /// A page that is needed and absent; nothing has changed.
    fn interrupt<S: Keyed>(
        cpu: &mut Cpu,
        storage: &mut S,
        class: Class,
        code: u16,
        ilc: Ilc,
    ) -> Result<(), Page>
        requires { 8192 ≤ length (S.Storage.memory storage.old).bytes }
        ensures swap { let before = state_of cpu.old (S.Storage.memory storage.old) in
            let after = state_of cpu.new (S.Storage.memory storage.new) in
            MeetsSwap (swapped before class code ilc) (S.Storage.present storage.old) before result
            after }
        ensures rest { S.Storage.Keeps storage.old storage.new };
}

/// A processor of its own, which carries out the instructions for the supervisor state itself.
pub struct RealCpu;

impl Processor for RealCpu {
    /// Completes a privileged instruction as [`supervise`] does.
    #[inline(always)]
    fn control<S: Keyed>(cpu: &mut Cpu, storage: &mut S, i: Instruction, ilc: Ilc) -> Stop {
        supervise(cpu, storage, i, ilc)
    }

    /// Stores the old PSW of the class and loads the new one, as [`swap`] does.
    #[inline(always)]
    fn interrupt<S: Keyed>(
        cpu: &mut Cpu,
        storage: &mut S,
        class: Class,
        code: u16,
        ilc: Ilc,
    ) -> Result<(), Page> {
        swap(cpu, storage, class, code, ilc)
    }
}

/// Completes a privileged instruction and the interruption or device's answer that it ends in; if a
/// page is absent, nothing has changed.
///
/// It is not inlined, so that the loop over units is for the others.
#[inline(never)]
pub(crate) fn instruct_control<P: Processor, S: Keyed>(
    cpu: &mut Cpu,
    subchannels: &mut Subchannels,
    storage: &mut S,
    i: Instruction,
    ilc: Ilc,
) -> Result<(), Page>
    requires size { 8192 ≤ length (S.Storage.memory storage.old).bytes }
    requires handed { let m = state_of cpu.old (S.Storage.memory storage.old) in
        MeetsStep (S.Storage.present storage.old) m (stops.Privileged i ilc) m }
    ensures instruction { let before = configuration_of
        (state_of cpu.old (S.Storage.memory storage.old)) subchannels.old in
        let after = configuration_of
        (state_of cpu.new (S.Storage.memory storage.new)) subchannels.new in
        MeetsInstruction (S.Storage.present storage.old) before result after }
    ensures rest { S.KeepsRest storage.old storage.new }
{
    let psw = cpu.psw;
    let stop = P::control(cpu, storage, i, ilc);
    match stop {
        Stop::Absent(page) => return Err(page),
        _ => {}
    }
    match follow::<P, S>(cpu, subchannels, storage, stop) {
        Ok(()) => Ok(()),
        Err(page) => {
            // What interrupts, or asks a device, has changed the instruction address alone.
            cpu.psw = psw;
            Err(page)
        }
    }
}

/// Does one instruction and the interruption or the device's answer that it ends in; if a page is
/// absent, nothing has changed.
///
/// # Errors
///
/// A page that is needed and absent; nothing has changed.
pub fn instruct<P: Processor, S: Keyed>(
    cpu: &mut Cpu,
    subchannels: &mut Subchannels,
    storage: &mut S,
) -> Result<(), Page>
    requires { 8192 ≤ length (S.Storage.memory storage.old).bytes }
    ensures instruction { let before = configuration_of
        (state_of cpu.old (S.Storage.memory storage.old)) subchannels.old in
        let after = configuration_of
        (state_of cpu.new (S.Storage.memory storage.new)) subchannels.new in
        MeetsInstruction (S.Storage.present storage.old) before result after }
    ensures rest { S.KeepsRest storage.old storage.new }
{
    let mut spare = *cpu;
    instruct_saving::<P, S>(cpu, &mut spare, subchannels, storage)
}

/// Does one instruction as [`instruct`] does; `spare` may be overwritten with a copy of the
/// registers.
#[inline(always)]
pub(crate) fn instruct_saving<P: Processor, S: Keyed>(
    cpu: &mut Cpu,
    spare: &mut Cpu,
    subchannels: &mut Subchannels,
    storage: &mut S,
) -> Result<(), Page>
    requires { 8192 ≤ length (S.Storage.memory storage.old).bytes }
    ensures instruction { let before = configuration_of
        (state_of cpu.old (S.Storage.memory storage.old)) subchannels.old in
        let after = configuration_of
        (state_of cpu.new (S.Storage.memory storage.new)) subchannels.new in
        MeetsInstruction (S.Storage.present storage.old) before result after }
    ensures rest { S.KeepsRest storage.old storage.new }
{
    save_if_page_0_absent(cpu, spare, storage);
    let stop = step(cpu, storage);
    match stop {
        Stop::Done => return Ok(()),
        Stop::Absent(page) => return Err(page),
        Stop::Privileged(i, ilc) => {
            return instruct_control::<P, S>(cpu, subchannels, storage, i, ilc);
        }
        _ => {}
    }
    match follow::<P, S>(cpu, subchannels, storage, stop) {
        Ok(()) => Ok(()),
        Err(page) => {
            // What interrupts has changed registers alone.
            *cpu = *spare;
            Err(page)
        }
    }
}

/// Copies the registers to `spare` if page 0 is absent, so that an interruption can be undone; else
/// does nothing.
#[inline(always)]
fn save_if_page_0_absent<S: Storage>(cpu: &Cpu, spare: &mut Cpu, storage: &S)
    requires { 8192 ≤ length (S.memory storage.now).bytes }
    ensures { (S.present storage.now 0 ≡ true) ⊎ (spare.new ≡ cpu.now) }
{
    let first = Range { start: 0, count: 1 };
    match storage.check(first, Access::Fetch, AccessKey::ZERO) {
        Ok(()) => {}
        Err(_) => *spare = *cpu,
    }
}

/// Does what follows an instruction: its interruption, or the answer of the device that it asks;
/// nothing for any other stop.
#[inline(always)]
pub(crate) fn follow<P: Processor, S: Keyed>(
    cpu: &mut Cpu,
    subchannels: &mut Subchannels,
    storage: &mut S,
    stop: Stop,
) -> Result<(), Page>
    requires { 8192 ≤ length (S.Storage.memory storage.old).bytes }
    ensures followed { let before = configuration_of
        (state_of cpu.old (S.Storage.memory storage.old)) subchannels.old in
        let after = configuration_of
        (state_of cpu.new (S.Storage.memory storage.new)) subchannels.new in
        MeetsFollowed stop (S.Storage.present storage.old) before result after }
    ensures rest { S.Storage.Keeps storage.old storage.new }
{
    match stop {
        Stop::Program(code, ilc) => P::interrupt(cpu, storage, Class::Program, code.number(), ilc),
        Stop::Svc(number, ilc) => {
            P::interrupt(cpu, storage, Class::SupervisorCall, u16::from(number), ilc)
        }
        Stop::InputOutput(operation, device) => {
            answer_asked(cpu, subchannels, storage, operation, device)
        }
        Stop::Done | Stop::Privileged(_, _) | Stop::Absent(_) => Ok(()),
    }
}

/// Interrupts the processor for the external conditions `taken`, which are then pending no longer.
///
/// If page 0 is absent, nothing has changed. No device takes part.
///
/// # Errors
///
/// A page that is needed and absent; nothing has changed.
#[inline(never)]
pub fn accept<P: Processor, S: Keyed>(
    taken: Pending,
    cpu: &mut Cpu,
    pending: &mut Pending,
    _subchannels: &Subchannels,
    storage: &mut S,
) -> Result<(), Page>
    requires { 8192 ≤ length (S.Storage.memory storage.old).bytes }
    ensures unit { let before = core_of
        (state_of cpu.old (S.Storage.memory storage.old)) pending.old _subchannels.now in
        let after = core_of (state_of cpu.new (S.Storage.memory storage.new)) pending.new
        _subchannels.now in
        MeetsUnitAt (next.Accepts taken) (S.Storage.present storage.old) before result after }
    ensures rest { S.Storage.Keeps storage.old storage.new }
{
    P::interrupt(cpu, storage, Class::External, taken.code(), Ilc::ZERO)?;
    *pending = pending.without(taken);
    Ok(())
}

/// Stores a device's channel status word, interrupts the processor for input/output, and makes the
/// device idle.
///
/// If page 0 is absent, nothing has changed.
///
/// # Errors
///
/// A page that is needed and absent; nothing has changed.
#[inline(never)]
pub fn accept_status<P: Processor, S: Keyed>(
    status: Status,
    cpu: &mut Cpu,
    subchannels: &mut Subchannels,
    storage: &mut S,
) -> Result<(), Page>
    requires { 8192 ≤ length (S.Storage.memory storage.old).bytes }
    ensures status { let before = configuration_of
        (state_of cpu.old (S.Storage.memory storage.old)) subchannels.old in
        let after = configuration_of
        (state_of cpu.new (S.Storage.memory storage.new)) subchannels.new in
        MeetsPresented status (S.Storage.present storage.old) before result after }
    ensures rest { S.Storage.Keeps storage.old storage.new }
{
    match store_csw(storage, status.csw) {
        Ok(()) => {}
        Err(page) => return Err(page),
    }
    match P::interrupt(cpu, storage, Class::InputOutput, status.device, Ilc::ZERO) {
        Ok(()) => {}
        // Page 0 is present: the channel status word was stored there.
        Err(_) => unreachable!(),
    }
    subchannels.set_state(status.device, DeviceState::Idle);
    Ok(())
}
