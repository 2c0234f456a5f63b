//! The program `vm370 [--frames N] [--slots N] [--save] DIRECTORY SCRIPT [VOLUME]...`: its words,
//! its files, its session, and what it says of a failure. With `--follow` there is no `SCRIPT`, and
//! standard input has its parts.
//!
//! The transcript goes to standard output. A failure is one line on standard error, and its kind is
//! the exit status; of an image that is not saved a second line has the path.
ghost use Rattle.std.specs.Prelude.{◌≡◌, ◌⊎◌, ℕ, [], IfErr, List, OnOk, map, string_bytes};
ghost use Rattle.program_host.specs.Ends.{IsEnd};
ghost use Rattle.programs.specs.Arguments.{IsUnbegun};
ghost use Rattle.programs.specs.Faults.{fault_text, unsaved_path};
ghost use Rattle.programs.specs.Whole.{streams_of};
ghost use Rattle.vm370.specs.Runs.{IsFailedProgram, IsFailedProgramFollowing};
ghost use Rattle.vm370.specs.Runs.{IsProgramFollowing, IsWholeProgram};

use crate::arguments::arguments;
use crate::follow_arguments::follow_arguments;
use crate::runs::{follow_system, run_files};
use program_host::{ProgramEnd, ProgramHost, finish, wrong_use};
use programs::Failure;
use programs::words::asks_to_follow;
use std::alloc::Global;

/// The program's name, as it says it.
const PROGRAM: &str = "vm370";

/// What is reported after a usage text: an example, and the exit statuses.
const USAGE_NOTE: &str = "
Example:
  printf 'USER A PW 8K\\n' > users
  printf 'LINE A LOGON\\nLINE A DISPLAY PSW\\n' > script
  vm370 users script

The transcript goes to standard output, a fault as one line to standard error. Exit statuses:
  0  the script was done to its end
  1  the directory, an image, the boot or the script was refused; the line tells where
  2  wrong words, or --help
  3  a file could not be opened, read or written
  4  there was not memory enough
";

/// Runs the whole program: plays a script or, with `--follow`, follows one, writes the transcript,
/// as its lines come if `is_watched` is true, and saves the volumes if `--save` is given. A failure
/// is reported on standard error.
pub fn program<H: ProgramHost>(alloc: Global, host: &mut H, is_watched: bool) -> ProgramEnd<Failure>
    ensures { IsEnd fault_text unsaved_path (λ failure. failure ≡ Failure.Memory)
        (λ failure. failure ≡ Failure.Usage) (H.has_words host.old)
        (IsUnbegun [] (H.has_no_text host.old))
        (λ words. IsWholeProgram (streams_of H.gives H.File.remaining H.File.HostFile.failures
        H.listens H.Input.remaining H.Input.HostFile.failures
        H.prints H.Output.contents H.Output.held H.Output.HostFile.failures)
        words is_watched)
        (λ words. IsFailedProgram (streams_of H.gives H.File.remaining H.File.HostFile.failures
        H.listens H.Input.remaining H.Input.HostFile.failures
        H.prints H.Output.contents H.Output.held H.Output.HostFile.failures)
        words is_watched)
        (H.deeds host.old) (H.deeds host.new) result.ended }
{
    let ended = run(alloc, host, is_watched);
    finish(alloc, host, ended)
}

/// Reads the arguments, and does what they ask: plays a script, or follows one whose parts are read
/// from standard input if `--follow` is given.
///
/// It reads the directory, the images and the script, writes the transcript, and saves the volumes
/// if `--save` is given. A wrong use is reported here.
fn run<H: ProgramHost>(alloc: Global, host: &mut H, is_watched: bool) -> Result<(), Failure>
    ensures ok { OnOk result ((words : List (List ℕ)) × H.has_words host.old words
        × IsWholeProgram (streams_of H.gives H.File.remaining H.File.HostFile.failures
        H.listens H.Input.remaining H.Input.HostFile.failures
        H.prints H.Output.contents H.Output.held H.Output.HostFile.failures)
        words is_watched (H.deeds host.old) (H.deeds host.new)) }
    ensures err { IfErr result (λ failure.
        IsUnbegun [] (H.has_no_text host.old) (H.deeds host.old) (H.deeds host.new) failure
        ⊎ ((words : List (List ℕ)) × H.has_words host.old words
        × IsFailedProgram (streams_of H.gives H.File.remaining H.File.HostFile.failures
        H.listens H.Input.remaining H.Input.HostFile.failures
        H.prints H.Output.contents H.Output.held H.Output.HostFile.failures)
        words is_watched (H.deeds host.old) (H.deeds host.new)
        failure)) }
{
    let words = match host.words(alloc) {
        Ok(words) => words,
        Err(error) => return Err(wrong_use(host, &error, "")),
    };
    obey(alloc, host, words.as_slice(), is_watched)
}

/// Does what these words of the command line ask.
fn obey<H: ProgramHost>(
    alloc: Global,
    host: &mut H,
    words: &[String],
    is_watched: bool,
) -> Result<(), Failure>
    ensures ok { OnOk result
        (IsWholeProgram (streams_of H.gives H.File.remaining H.File.HostFile.failures
        H.listens H.Input.remaining H.Input.HostFile.failures
        H.prints H.Output.contents H.Output.held H.Output.HostFile.failures)
        (map string_bytes words.now) is_watched (H.deeds host.old) (H.deeds host.new)) }
    ensures err { IfErr result
        (IsFailedProgram (streams_of H.gives H.File.remaining H.File.HostFile.failures
        H.listens H.Input.remaining H.Input.HostFile.failures
        H.prints H.Output.contents H.Output.held H.Output.HostFile.failures)
        (map string_bytes words.now) is_watched (H.deeds host.old) (H.deeds host.new)) }
{
    if asks_to_follow(words) {
        return follow(alloc, host, words);
    }
    let options = match arguments(alloc, PROGRAM, words) {
        Ok(options) => options,
        Err(error) => return Err(wrong_use(host, &error, USAGE_NOTE)),
    };
    let mut output = host.output(is_watched)?;
    run_files(alloc, host, &options, &mut output)
}

/// Follows a script whose parts are read from standard input, writes its transcript to standard
/// output, and at its end saves the volumes if `--save` is given; a usage error is printed here.
fn follow<H: ProgramHost>(alloc: Global, host: &mut H, words: &[String]) -> Result<(), Failure>
    ensures ok { OnOk result
        (IsProgramFollowing (streams_of H.gives H.File.remaining H.File.HostFile.failures
        H.listens H.Input.remaining H.Input.HostFile.failures
        H.prints H.Output.contents H.Output.held H.Output.HostFile.failures)
        (map string_bytes words.now) (H.deeds host.old) (H.deeds host.new)) }
    ensures err { IfErr result
        (IsFailedProgramFollowing (streams_of H.gives H.File.remaining H.File.HostFile.failures
        H.listens H.Input.remaining H.Input.HostFile.failures
        H.prints H.Output.contents H.Output.held H.Output.HostFile.failures)
        (map string_bytes words.now) (H.deeds host.old) (H.deeds host.new)) }
{
    let options = match follow_arguments(alloc, PROGRAM, words) {
        Ok(options) => options,
        Err(error) => return Err(wrong_use(host, &error, USAGE_NOTE)),
    };
    let mut input = host.input()?;
    let mut output = host.output(false)?;
    follow_system(alloc, host, &options, &mut input, &mut output)
}
