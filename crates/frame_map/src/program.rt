//! The program `framemap [--frames N] [--slots N] [--save] [--state FILE] DIRECTORY SCRIPT
//! [VOLUME]...`: the script is done as `vm370` does it, from a state if one is named, and then the
//! map of frames and slots is printed.
//!
//! Its refusals and its exit statuses are those of `vm370`; what that would print is not kept.
ghost use Rattle.std.specs.Prelude.{◌≡◌, ◌⊎◌, ◌∷◌, [], IfErr, IfOk, None, OnOk};
ghost use Rattle.cp_core.specs.System.{SystemView};
ghost use Rattle.program_host.specs.Deeds.{Adds, Opens};
ghost use Rattle.sessions.specs.Follow.{Became, is_whole};
ghost use Rattle.sessions.specs.Schedule.{Scene};
ghost use Rattle.vm370.specs.Goes.{system_goes};
ghost use Rattle.frame_map.specs.Maps.{ComesToNothing, IsFileAt, IsFollowedAt, IsNoState};
ghost use Rattle.frame_map.specs.Maps.{IsRefusedPart, IsRestoredAt, IsUnfollowed, Never, with_end};
ghost use Rattle.frame_map.specs.Printed.{IsMapPrinted};

use crate::arguments::{MapOptions, arguments};
use crate::map::frame_map;
use crate::nowhere::Nowhere;
use cp_core::{Sizes, System};
use program_host::{ProgramEnd, ProgramHost, finish, wrong_use};
use programs::{Failure, save_images, saved_paths};
use s370_num::host::{HostWriter, read_all, write_all};
use sessions::session::session;
use sessions::{Detail, Follower, Part};
use std::alloc::{AllocError, Global};
use vm370::SharedMachines;
use vm370::runs::read_system;

/// The program's name, as it says it.
const PROGRAM: &str = "framemap";

/// What is reported after a usage text: what is printed, an example, and the exit statuses.
const USAGE_NOTE: &str = "
Prints who has which frame and which slot after the script, in place of what the terminals show.
A state has the bytes that vm370 answers to SAVE.

Example:
  printf 'USER A PW 8K\\n' > users
  printf 'LINE A LOGON\\nLINE A STORE 1000 0A07\\n' > script
  framemap users script

The map goes to standard output, a fault as one line to standard error. Exit statuses:
  0  the script was done to its end, and the map is printed
  1  the directory, an image, the boot, the script or the state was refused; the line tells where
  2  wrong words, or --help
  3  a file could not be opened, read or written
  4  there was not memory enough
";

/// Runs the whole program: plays the script that its arguments name, prints the map of frames and
/// slots that it leaves, and saves the volumes if `--save` is given; reports a failure on standard
/// error.
pub fn program<H: ProgramHost>(alloc: Global, host: &mut H) -> ProgramEnd<Failure> {
    let ended = run(alloc, host);
    finish(alloc, host, ended)
}

/// Reads the arguments, the directory, the images and the script, plays the script, writes the map,
/// and saves the volumes if `--save` is given.
///
/// A wrong use is reported here.
fn run<H: ProgramHost>(alloc: Global, host: &mut H) -> Result<(), Failure> {
    let words = match host.words(alloc) {
        Ok(words) => words,
        Err(error) => return Err(wrong_use(host, &error, "")),
    };
    let options = match arguments(alloc, PROGRAM, words.as_slice()) {
        Ok(options) => options,
        Err(error) => return Err(wrong_use(host, &error, USAGE_NOTE)),
    };
    let run = &options.run;
    let volumes = run.volumes.as_slice();
    let machines = read_system(alloc, host, run.directory, volumes, run.sizes)?;
    let machines = run_script(alloc, host, machines, &options)?;
    print_map(alloc, host, machines.system(), run.sizes)?;
    save_images(alloc, host, &machines, saved_paths(run.save, volumes))
}

/// Prints the map of a system that has so many frames and slots on standard output.
fn print_map<H: ProgramHost>(
    alloc: Global,
    host: &mut H,
    system: &System,
    sizes: Sizes,
) -> Result<(), Failure>
    ensures { OnOk result (IsMapPrinted H.prints H.Output.contents H.Output.held system.now sizes
        (H.deeds host.old) (H.deeds host.new)) }
{
    let map = frame_map(alloc, system, sizes)?;
    let mut output = host.output(false)?;
    write_all(&mut output, &map)?;
    output.flush()?;
    Ok(())
}

/// Plays the script, from the state if one is named, without keeping its transcript, and returns
/// the machines that it leaves.
fn run_script<H: ProgramHost>(
    alloc: Global,
    host: &mut H,
    machines: SharedMachines,
    options: &MapOptions<'_>,
) -> Result<SharedMachines, Failure> {
    if let Some(state) = options.state {
        let begun = Follower::begin(alloc, machines, Detail::Whole)?;
        let follower = restored(alloc, host, begun, state)?;
        return follow(alloc, host, follower, options.run.script);
    }
    let mut machines = machines;
    let mut script = host.open(options.run.script)?;
    session(alloc, &mut machines, &mut script, &mut Nowhere)?;
    Ok(machines)
}

/// Reads the state at this path, and returns the follower that it restores; a failure if it is none
/// of this follower.
fn restored<H: ProgramHost>(
    alloc: Global,
    host: &mut H,
    follower: Follower<SharedMachines>,
    state: &str,
) -> Result<Follower<SharedMachines>, Failure>
    ensures ok { IfOk result (IsRestoredAt H.gives H.File.remaining state.now follower) }
    ensures deeds { OnOk result
        (Adds (H.deeds host.old) (H.deeds host.new) (Opens state.now ∷ [])) }
    ensures err { IfErr result
        (ComesToNothing H.gives H.File.HostFile.failures state.now
        (IsNoState H.gives H.File.remaining state.now) (H.deeds host.old) (H.deeds host.new)) }
{
    let bytes = read_file(alloc, host, state)?;
    let restored = follower.restored(alloc, &bytes)?;
    Ok(restored)
}

/// Does the script at this path, whose last line need not be ended, as one part, and returns the
/// machines that it leaves.
fn follow<H: ProgramHost>(
    alloc: Global,
    host: &mut H,
    follower: Follower<SharedMachines>,
    script: &str,
) -> Result<SharedMachines, Failure>
    ensures ok { IfOk result (IsFollowedAt H.gives H.File.remaining script.now follower) }
    ensures deeds { OnOk result
        (Adds (H.deeds host.old) (H.deeds host.new) (Opens script.now ∷ [])) }
    ensures err { IfErr result
        (ComesToNothing H.gives H.File.HostFile.failures script.now
        (IsUnfollowed H.gives H.File.remaining script.now follower) (H.deeds host.old)
        (H.deeds host.new)) }
{
    let bytes = read_file(alloc, host, script)?;
    let text = with_end(bytes)?;
    do_part(alloc, follower, &text)
}

/// Reads the file at a path to its end.
fn read_file<H: ProgramHost>(alloc: Global, host: &mut H, path: &str) -> Result<Vec<u8>, Failure>
    ensures ok { IfOk result (λ bytes. IsFileAt H.gives H.File.remaining path.now bytes.items) }
    ensures deeds { OnOk result
        (Adds (H.deeds host.old) (H.deeds host.new) (Opens path.now ∷ [])) }
    ensures err { IfErr result
        (ComesToNothing H.gives H.File.HostFile.failures path.now Never (H.deeds host.old)
        (H.deeds host.new)) }
{
    let mut file = host.open(path)?;
    let bytes = read_all(alloc, &mut file)?;
    Ok(bytes)
}

/// Returns the text with the end of its last line, if it lacks that.
fn with_end(text: Vec<u8>) -> Result<Vec<u8>, AllocError>
    ensures { IfOk result (λ ended. ended.items ≡ with_end text.items) }
{
    let mut text = text;
    if !is_ended(&text) {
        text.push(b'\n')?;
    }
    Ok(text)
}

/// Returns whether the last line of a text is ended, or the text is empty.
fn is_ended(text: &[u8]) -> bool
    ensures { result ≡ is_whole text.now }
{
    match text {
        [.., last] => *last == b'\n',
        [] => true,
    }
}

/// Does this part of a script, and returns the machines that it leaves.
fn do_part(
    alloc: Global,
    follower: Follower<SharedMachines>,
    text: &[u8],
) -> Result<SharedMachines, Failure>
    ensures ok { IfOk result (λ machines. (last : Scene SystemView)
        × Became system_goes text.now follower (Part.Done last) None None
        × (machines ≡ last.world)) }
    ensures err { IfErr result (λ failure. (failure ≡ Failure.Memory)
        ⊎ IsRefusedPart text.now follower failure) }
{
    let part = follower.part(alloc, text, &mut Nowhere)?;
    match part {
        Part::Done(follower) => {
            let machines = follower.close(&mut Nowhere)?;
            Ok(machines)
        }
        Part::Refused(_same, line) => Err(Failure::Script(line)),
    }
}
