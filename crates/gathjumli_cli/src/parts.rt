//! Which part of the program is run.
ghost use Rattle.std.specs.Prelude.{◌≡◌};
ghost use Rattle.gathjumli_cli.specs.Parts.{part_of};

use std::rt::Env;

/// The most bytes of a part's name.
const LONGEST_NAME: usize = 9;

/// A part of the program.
pub enum Part {
    /// `vm370`: the machines of many users on one system.
    Vm370,
    /// `bare370`: one machine of its own.
    Bare370,
    /// `framemap`: who has which frame and which slot.
    FrameMap,
    /// `mkvol`: the image of a volume from a text.
    Mkvol,
    /// `trackmap`: what a volume has.
    Trackmap,
    /// `logondesk`: who is let in to whose machine.
    LogonDesk,
}

/// Returns the part that the first argument of the command line names, if it names one. It allocates
/// nothing.
pub fn named_part<R: Env>(rt: &R) -> Option<Part> {
    let mut name = [0u8; LONGEST_NAME];
    let Ok(length) = rt.arg(1, &mut name) else {
        return None;
    };
    part_of(str::from_utf8(&name[..length]).ok()?)
}

/// Returns the part of this name, if there is one.
fn part_of(name: &str) -> Option<Part>
    ensures { result ≡ part_of name.now }
{
    if name == "vm370" {
        Some(Part::Vm370)
    } else if name == "bare370" {
        Some(Part::Bare370)
    } else if name == "framemap" {
        Some(Part::FrameMap)
    } else if name == "mkvol" {
        Some(Part::Mkvol)
    } else if name == "trackmap" {
        Some(Part::Trackmap)
    } else if name == "logondesk" {
        Some(Part::LogonDesk)
    } else {
        None
    }
}
