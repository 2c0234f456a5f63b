//! Units of a machine.
ghost use Rattle.std.specs.Prelude.{◌≡◌, ℕ, ◌+◌, ◌≤◌, List, Option, length};
ghost use Rattle.s370_store.specs.Memory.{Memory};
ghost use Rattle.s370_intr.specs.Laws.{begun};
ghost use Rattle.s370_intr.specs.Run.{EachBrings};
ghost use Rattle.machine_panel.specs.Machine.{machine_of};
ghost use Rattle.machine_panel.specs.Run.{TellsRun, halted, notice_of};

use crate::machine::{Machine, Mode};
use cp_console::responses::Response;
use s370_intr::{Processor, Ran, Reason, run_units};
use s370_store::UnitSupply;

/// What a run of a machine says: how many units it did, why it did no more, and the notice that it
/// printed, if it stopped.
#[derive(Clone, Copy, PartialEq, Eq)]
pub struct MachineRan {
    pub ran: Ran,
    pub notice: Option<Response>,
}

/// Returns the notice that is printed when a machine stops by itself for this reason, or `None` for
/// any other.
#[inline]
pub fn notice_of(reason: Reason) -> Option<Response>
    ensures { result ≡ notice_of reason }
{
    match reason {
        Reason::EcMode => Some(Response::StoppedEcMode),
        Reason::DisabledWait => Some(Response::StoppedDisabledWait),
        Reason::Stopped | Reason::Count | Reason::Wait | Reason::FramesOut => None,
    }
}

impl MachineRan {
    /// Returns a run together with the notice of its reason, if there is one.
    pub fn reported(ran: Ran) -> MachineRan
        ensures ran { result.ran ≡ ran }
        ensures notice { result.notice ≡ notice_of ran.reason }
    {
        MachineRan {
            ran,
            notice: notice_of(ran.reason),
        }
    }
}

impl Machine {
    /// Runs a machine that is running for at most `count` units, and stops it with a printed notice
    /// on a disabled wait or EC mode.
    ///
    /// The notice is [`notice_of`] the reason. This takes no memory.
    pub fn run<P: Processor, S: UnitSupply>(&mut self, storage: &mut S, count: u32) -> Ran
        requires large { 8192 ≤ length (S.Storage.memory storage.old).bytes }
        requires between { S.IsBetween storage.old }
        ensures reported { let before = machine_of self.old (S.Storage.memory storage.old) in
            let after = machine_of self.new (S.Storage.memory storage.new) in
            TellsRun count before
            (record {
              machine = after;
              units = result.units;
              reason = result.reason;
              notice = notice_of result.reason;
            })
            (S.IsOut storage.new) }
        ensures supply { let before = machine_of self.old (S.Storage.memory storage.old) in
            (units : List (List ℕ)) × S.Came storage.old units storage.new
            × EachBrings before.core 0 units
            × (length units ≤ begun result.units result.reason) }
        ensures between { S.IsBetween storage.new }
        ensures room { length self.new.output + self.new.room
            ≡ length self.old.output + self.old.room }
    {
        match self.mode {
            Mode::Running => {}
            Mode::Off | Mode::Stopped => {
                return Ran {
                    units: 0,
                    reason: Reason::Stopped,
                };
            }
        }
        let ran = run_units::<P, S>(
            &mut self.cpu,
            &mut self.pending,
            &mut self.subchannels,
            storage,
            count,
        );
        self.halt(notice_of(ran.reason));
        ran
    }

    /// Sets the mode to stopped and prints the notice, if there is one; else does nothing.
    fn halt(&mut self, notice: Option<Response>)
        requires { 1 ≤ self.old.room }
        ensures machine { (m : Memory)
            → machine_of self.new m ≡ halted notice (machine_of self.old m) }
        ensures room { length self.new.output + self.new.room
            ≡ length self.old.output + self.old.room }
    {
        match notice {
            Some(notice) => {
                self.mode = Mode::Stopped;
                self.output.print(&notice);
            }
            None => {}
        }
    }
}
