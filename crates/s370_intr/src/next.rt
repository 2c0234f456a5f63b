//! What a running processor does next.
ghost use Rattle.std.specs.Prelude.{◌≡◌, true};
ghost use Rattle.s370_store.specs.Memory.{Memory};
ghost use Rattle.s370_rows.specs.State.{state_of};
ghost use Rattle.s370_intr.specs.Units.{core_of, look, offered, waits};
ghost use Rattle.s370_intr.specs.declared.next.Next.TheVariants.{Instructs};

use crate::pending::Pending;
use s370_psw::Psw;
use s370_rows::Cpu;
use s370_subchannels::{Status, Subchannels};

/// Why a run did no further unit.
#[derive(Clone, Copy, Debug, PartialEq, Eq)]
pub enum Reason {
    /// The machine does not run.
    Stopped,
    /// All the units that were asked for are done.
    Count,
    /// The PSW left basic control mode; the machine stopped.
    EcMode,
    /// The machine waits for an interruption.
    Wait,
    /// The machine waits, and nothing can interrupt it; it stopped.
    DisabledWait,
    /// The next unit needs a page that is not present, and there is no room for it.
    FramesOut,
}

/// What a running processor does next.
#[derive(Clone, Copy, PartialEq, Eq)]
pub enum Next {
    /// It does no unit.
    Stops(Reason),
    /// It accepts these external conditions together.
    Accepts(Pending),
    /// It accepts this status of a device.
    AcceptsStatus(Status),
    /// It does an instruction.
    Instructs,
}

/// Returns whether a running processor surely does an instruction next; if false, [`look`] decides,
/// and may still return an instruction.
#[inline(always)]
pub fn is_plain(cpu: &Cpu, pending: Pending, subchannels: &Subchannels) -> bool
    ensures { (m : Memory) → result ≡ true
        → look (core_of (state_of cpu.now m) pending subchannels.now) ≡ Instructs }
{
    if cpu.psw.is_ec() {
        return false;
    }
    if cpu.psw.waits() {
        return false;
    }
    if pending.is_any() {
        return false;
    }
    subchannels.is_quiet(&cpu.psw)
}

/// Returns what a running processor does next: an instruction if `is_plain` is true, else what
/// [`look`] returns.
#[inline(always)]
pub fn next_of(is_plain: bool, cpu: &Cpu, pending: Pending, subchannels: &Subchannels) -> Next
    requires { (m : Memory) → is_plain ≡ true
        → look (core_of (state_of cpu.now m) pending subchannels.now) ≡ Instructs }
    ensures { (m : Memory) → result ≡ look (core_of (state_of cpu.now m) pending subchannels.now) }
{
    if is_plain {
        Next::Instructs
    } else {
        look(cpu, pending, subchannels)
    }
}

/// Returns what a running processor does next: stop, accept external conditions or a device's
/// status, or an instruction.
#[inline(always)]
pub fn look(cpu: &Cpu, pending: Pending, subchannels: &Subchannels) -> Next
    ensures { (m : Memory) → result ≡ look (core_of (state_of cpu.now m) pending subchannels.now) }
{
    if cpu.psw.is_ec() {
        return Next::Stops(Reason::EcMode);
    }
    // Before nearly every unit nothing is pending, which two tests say.
    if pending.is_any() {
        let enabled = pending.enabled(cpu);
        if enabled.is_any() {
            return Next::Accepts(enabled);
        }
    }
    if subchannels.is_quiet(&cpu.psw) {
        return wait_or_instruct(&cpu.psw);
    }
    accept_status_or_wait(subchannels.first_status(&cpu.psw), &cpu.psw)
}

/// Returns that the processor accepts the status, if there is one, else whether it waits or does an
/// instruction.
#[inline(always)]
fn accept_status_or_wait(status: Option<Status>, psw: &Psw) -> Next
    ensures { result ≡ offered status psw.now }
{
    match status {
        Some(status) => Next::AcceptsStatus(status),
        None => wait_or_instruct(psw),
    }
}

/// Returns that the processor stops if its PSW is in the wait state, else that it does an
/// instruction.
#[inline(always)]
fn wait_or_instruct(psw: &Psw) -> Next
    ensures { result ≡ waits psw.now }
{
    if !psw.waits() {
        Next::Instructs
    } else if psw.is_disabled() {
        Next::Stops(Reason::DisabledWait)
    } else {
        Next::Stops(Reason::Wait)
    }
}
