//! How a part of the program ends.
ghost use Rattle.std.specs.Prelude.{◌≡◌};
ghost use Rattle.std.specs.Process.{exit_status};
ghost use Rattle.ckd_text.specs.Faults.{status_of as tool_status};
ghost use Rattle.ckd_text.specs.declared.faults.ToolFailure.{ToolFailure};
ghost use Rattle.logon_desk_cli.specs.Faults.{status_of as desk_status};
ghost use Rattle.logon_desk_cli.specs.declared.faults.DeskFailure.{DeskFailure};
ghost use Rattle.program_host.specs.Ends.{outcome_of};
ghost use Rattle.program_host.specs.declared.ends.ProgramEnd.{ProgramEnd};
ghost use Rattle.programs.specs.Faults.{status_of};
ghost use Rattle.programs.specs.declared.faults.Failure.{Failure};

use ckd_text::ToolFailure;
use logon_desk_cli::DeskFailure;
use program_host::ProgramEnd;
use programs::Failure;
use std::process::{ExitCode, Termination};

/// How a part ended, as the part says it.
#[derive(Drop)]
pub enum PartEnd {
    /// The end of `vm370`, `bare370` or `framemap`.
    Session(ProgramEnd<Failure>),
    /// The end of `mkvol` or `trackmap`.
    Volume(ProgramEnd<ToolFailure>),
    /// The end of `logondesk`.
    Desk(ProgramEnd<DeskFailure>),
    /// No part was named.
    NoPart,
}

/// The exit status where no part is named: that of a wrong use.
const WRONG_USE: u8 = 2;

impl Termination for PartEnd {
    /// Reports the end as its part does, and returns that part's exit status; 2 where there is none.
    fn report<R: Eprint>(self, rt: &R) -> ExitCode
        ensures session { (end : ProgramEnd Failure) → self ≡ PartEnd.Session end
            → exit_status result ≡ outcome_of status_of end.ended }
        ensures volume { (end : ProgramEnd ToolFailure) → self ≡ PartEnd.Volume end
            → exit_status result ≡ outcome_of tool_status end.ended }
        ensures desk { (end : ProgramEnd DeskFailure) → self ≡ PartEnd.Desk end
            → exit_status result ≡ outcome_of desk_status end.ended }
        ensures no_part { self ≡ PartEnd.NoPart → exit_status result ≡ 2 }
    {
        match self {
            PartEnd::Session(end) => end.report(rt),
            PartEnd::Volume(end) => end.report(rt),
            PartEnd::Desk(end) => end.report(rt),
            PartEnd::NoPart => ExitCode::from(WRONG_USE),
        }
    }
}
