//! Devices of which a program can be tried.
ghost use Rattle.std.specs.Prelude.{◌≡◌, ℕ, Bool, List, false, OnOk};
ghost use Rattle.s370_channel.specs.declared.words.Caw.{Caw};
ghost use Rattle.s370_channel.specs.Start.{most_commands};
ghost use Rattle.s370_store.specs.Memory.{Memory};
ghost use Rattle.s370_walk.specs.Hardware.{Machine};
ghost use Rattle.s370_walk.specs.Viewed.{IsViewed};
ghost use Rattle.channel_trial.specs.DryRun.{IsLoadingTried, IsProgramTried};

use crate::TrialSupply;
use s370_channel::{Caw, Limits, MOST_COMMANDS, load_supplied, run_supplied};
use s370_walk::Device;
use std::alloc::AllocError;
use unit_record::{Console, Printer, Punch};

/// A device of which a program can be tried: it stays as it is.
pub trait DryRun: Device {
    /// Runs the program with this start on `copy`, of which no page was touched; the device stays,
    /// and only the bytes and touched pages of `copy` tell what a run leaves.
    ///
    /// # Errors
    ///
    /// `AllocError` if memory is refused; what was passed may have changed in part.
    fn dry_run<S: TrialSupply>(&self, copy: &mut S, start: Caw) -> Result<(), AllocError>
        requires between { S.IsBetween copy.old }
        requires ample { S.IsAmple copy.old }
        requires untouched { (page : ℕ) → S.present copy.old page ≡ false }
        ensures tried { OnOk result (IsProgramTried Self.machine start
            (S.memory copy.old) self.now (S.memory copy.new).bytes (S.flags copy.new)) };
}

/// A device of which the program of an initial program loading can be tried: it stays as it is.
pub trait TriedLoading: Device {
    /// Runs the program of an initial program loading on a copy of storage, no page of which was
    /// touched, and leaves the device as it is.
    ///
    /// The copy then has the bytes and the touched pages that a run leaves.
    ///
    /// # Errors
    ///
    /// `AllocError` if memory is refused; what was passed may have changed in part.
    fn try_load<S: TrialSupply>(&self, copy: &mut S) -> Result<(), AllocError>
        requires between { S.IsBetween copy.old }
        requires ample { S.IsAmple copy.old }
        requires untouched { (page : ℕ) → S.present copy.old page ≡ false }
        ensures tried { OnOk result (IsLoadingTried Self.machine
            (S.memory copy.old) self.now (S.memory copy.new).bytes (S.flags copy.new)) };
}

impl DryRun for Console {
    /// Runs the program on a copy of storage, with a console for a dry run.
    fn dry_run<S: TrialSupply>(&self, copy: &mut S, start: Caw) -> Result<(), AllocError> {
        try_program(copy, start, &mut self.trial())
    }
}

impl DryRun for Punch {
    /// Runs the program on a copy of storage, with a punch for a dry run.
    fn dry_run<S: TrialSupply>(&self, copy: &mut S, start: Caw) -> Result<(), AllocError> {
        try_program(copy, start, &mut self.trial())
    }
}

impl DryRun for Printer {
    /// Runs the program on a copy of storage, with a printer for a dry run.
    fn dry_run<S: TrialSupply>(&self, copy: &mut S, start: Caw) -> Result<(), AllocError> {
        try_program(copy, start, &mut self.trial())
    }
}

/// Returns the limits of a program with this start: its key, and the most commands that a program
/// may start.
pub fn limits_of(start: Caw) -> Limits
    ensures { result ≡ record { key = start.key; commands = most_commands; prefix = 0 } }
{
    Limits {
        key: start.key,
        commands: MOST_COMMANDS,
        prefix: 0,
    }
}

/// Runs the program with this start on a copy of storage, over `trial`, a device for a dry run;
/// both change.
///
/// # Errors
///
/// `AllocError` if memory is refused; what was passed may have changed in part.
pub fn try_program<S: TrialSupply, T: Device>(
    copy: &mut S,
    start: Caw,
    trial: &mut T,
) -> Result<(), AllocError>
    requires between { S.IsBetween copy.old }
    requires ample { S.IsAmple copy.old }
    requires untouched { (page : ℕ) → S.present copy.old page ≡ false }
    ensures tried { OnOk result (IsProgramTried T.machine start
        (S.memory copy.old) trial.old (S.memory copy.new).bytes (S.flags copy.new)) }
{
    match run_supplied(copy, start.address.get(), &limits_of(start), trial) {
        Ok(_) => Ok(()),
        Err(_) => Err(AllocError),
    }
}

/// Runs the program of an initial program loading on a copy of storage, over `trial`, a device for
/// a dry run; both change.
///
/// # Errors
///
/// `AllocError` if memory is refused; what was passed may have changed in part.
pub fn try_loading<S: TrialSupply, T: Device>(copy: &mut S, trial: &mut T) -> Result<(), AllocError>
    requires between { S.IsBetween copy.old }
    requires ample { S.IsAmple copy.old }
    requires untouched { (page : ℕ) → S.present copy.old page ≡ false }
    ensures tried { OnOk result (IsLoadingTried T.machine
        (S.memory copy.old) trial.old (S.memory copy.new).bytes (S.flags copy.new)) }
{
    match load_supplied(copy, trial) {
        Ok(_) => Ok(()),
        Err(_) => Err(AllocError),
    }
}

/// Proves that a dry run over a view of a device touches and stores what one over the device does;
/// it has no effect.
pub fn a_view_is_tried_for_its_device<D: Device, E: Device>()
    ensures program { (machine : Machine D) (small : Machine E) (view : D → E) (start : Caw)
        (m : Memory) (d : D)
        (bytes : List ℕ) (touched : List Bool) → IsViewed machine small view
        → IsProgramTried small start m (view d) bytes touched
        → IsProgramTried machine start m d bytes touched }
    ensures loading { (machine : Machine D) (small : Machine E) (view : D → E) (m : Memory) (d : D)
        (bytes : List ℕ)
        (touched : List Bool) → IsViewed machine small view
        → IsLoadingTried small m (view d) bytes touched
        → IsLoadingTried machine m d bytes touched }
{}
