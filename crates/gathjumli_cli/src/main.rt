//! The program of all commands. Its first argument names the part that is run, which takes the
//! arguments after it as its own: `vm370`, `bare370`, `framemap`, `mkvol`, `trackmap` or
//! `logondesk`. Nothing of the other parts is run.
#![tactic(auto)]

mod ends;
mod parts;

use crate::ends::PartEnd;
use crate::parts::{Part, named_part};
use program_host::ProcessHost;
use std::io::IsTerminal;

/// What is reported where no part is named.
const USAGE: &str = "Usage: vm370 [--frames N] [--slots N] [--save] DIRECTORY SCRIPT [VOLUME]...
       bare370 [--save] STORAGE SCRIPT [VOLUME]...
       framemap [--frames N] [--slots N] [--save] [--state FILE] DIRECTORY SCRIPT [VOLUME]...
       mkvol OUT TEXT
       trackmap IMAGE
       logondesk [FILE]
";

/// Runs the part that the first argument names. `vm370` and `bare370` write their transcript as its
/// lines come if standard output is a terminal. Where no part is named, that is a wrong use.
fn main(rt: HostRuntime) -> PartEnd {
    let alloc = rt.alloc();
    let is_watched = rt.stdout().is_terminal();
    let mut host = ProcessHost::new(&rt);
    match named_part(&rt) {
        Some(Part::Vm370) => {
            PartEnd::Session(vm370::program::program(alloc, &mut host, is_watched))
        }
        Some(Part::Bare370) => PartEnd::Session(bare370::bare_program(
            alloc, &mut host, is_watched,
        )),
        Some(Part::FrameMap) => PartEnd::Session(frame_map::program::program(alloc, &mut host)),
        Some(Part::Mkvol) => PartEnd::Volume(ckd_text::mkvol::program(alloc, &mut host)),
        Some(Part::Trackmap) => PartEnd::Volume(ckd_text::trackmap::program(alloc, &mut host)),
        Some(Part::LogonDesk) => PartEnd::Desk(logon_desk_cli::program::program(&rt)),
        None => {
            let _ = rt.eprint(USAGE);
            PartEnd::NoPart
        }
    }
}
