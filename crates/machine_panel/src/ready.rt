//! Whether a machine would do something with a slice of the processor.
ghost use Rattle.std.specs.Prelude.{◌≡◌};
ghost use Rattle.s370_store.specs.Memory.{Memory};
ghost use Rattle.s370_rows.specs.State.{state_of};
ghost use Rattle.s370_intr.specs.Units.{core_of};
ghost use Rattle.machine_panel.specs.Machine.{machine_of};
ghost use Rattle.machine_panel.specs.Ready.{does_something, has_work, is_ready};

use crate::machine::{Machine, Mode};
use s370_intr::{Next, Reason, look};

/// Returns false if a run that ends for this reason only finds the machine stopped or waiting, else
/// true.
fn does_something(reason: Reason) -> bool
    ensures { result ≡ does_something reason }
{
    match reason {
        Reason::Stopped | Reason::Wait => false,
        Reason::Count | Reason::EcMode | Reason::DisabledWait | Reason::FramesOut => true,
    }
}

/// Returns whether a running processor that does this next does something, be it only to stop the
/// machine; false if it waits.
fn has_work(next: Next) -> bool
    ensures { result ≡ has_work next }
{
    match next {
        Next::Stops(reason) => does_something(reason),
        Next::Accepts(_) | Next::AcceptsStatus(_) | Next::Instructs => true,
    }
}

impl Machine {
    /// Returns whether a run of one unit would do something: the machine runs and does not wait for
    /// an interruption.
    ///
    /// A machine that would stop by itself is ready. Nothing is done.
    pub fn is_ready(&self) -> bool
        ensures { (m : Memory) → result ≡ is_ready (machine_of self.now m) }
    {
        match self.mode {
            Mode::Running => {}
            Mode::Off | Mode::Stopped => return false,
        }
        has_work(look(&self.cpu, self.pending, &self.subchannels))
    }
}
