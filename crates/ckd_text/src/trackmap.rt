//! The program `trackmap IMAGE`: what the volume of an image has.
ghost use Rattle.std.specs.Prelude.{◌≡◌, ◌⊎◌, ℕ, IfErr, List, None, OnOk, map, string_bytes};
ghost use Rattle.program_host.specs.Ends.{IsEnd};
ghost use Rattle.ckd_text.specs.Faults.{fault_text};
ghost use Rattle.ckd_text.specs.Hosts.{opening, printing};
ghost use Rattle.ckd_text.specs.Mapped.{IsMapped, IsUnmapped};
ghost use Rattle.ckd_text.specs.Runs.{IsMappedNamed, IsUnbegun, IsUnmappedNamed};

use crate::arguments::image_path;
use crate::faults::ToolFailure;
use crate::map::track_map;
use ckd_image::read_image;
use program_host::{ProgramEnd, ProgramHost, finish, wrong_use};
use s370_num::host::{HostWriter, write_all};
use std::alloc::Global;

/// What is reported after a usage text: an example, and the exit statuses.
const USAGE_NOTE: &str = "
Example:
  printf 'VOLUME WORK01 10\\nREC 0 0 0000000001 - C1C2\\n' > text
  mkvol image text
  trackmap image

The map goes to standard output, a fault as one line to standard error. Exit statuses:
  0  the map is printed
  1  the image was refused
  2  wrong words, or --help
  3  a file could not be opened, read or written
  4  there was not memory enough
";

/// Runs `trackmap`: prints the map of an image, and prints a failure on standard error.
pub fn program<H: ProgramHost>(alloc: Global, host: &mut H) -> ProgramEnd<ToolFailure>
    ensures { IsEnd fault_text (λ _. None) (λ failure. failure ≡ ToolFailure.Memory)
        (λ failure. failure ≡ ToolFailure.Usage) (H.has_words host.old)
        (IsUnbegun (H.has_no_text host.old))
        (IsMappedNamed (opening H.gives) (printing H.prints) H.File.remaining H.Output.contents
        H.Output.held)
        (IsUnmappedNamed (opening H.gives) (printing H.prints) H.File.remaining
        H.File.HostFile.failures H.Output.contents H.Output.HostFile.failures)
        (H.deeds host.old) (H.deeds host.new) result.ended }
{
    let ended = run(alloc, host);
    finish(alloc, host, ended)
}

/// Reads the words of the command line, and does what they ask.
fn run<H: ProgramHost>(alloc: Global, host: &mut H) -> Result<(), ToolFailure>
    ensures ok { OnOk result ((words : List (List ℕ)) × H.has_words host.old words
        × IsMappedNamed (opening H.gives) (printing H.prints) H.File.remaining H.Output.contents
        H.Output.held
        words (H.deeds host.old) (H.deeds host.new)) }
    ensures err { IfErr result (λ failure.
        IsUnbegun (H.has_no_text host.old) (H.deeds host.old) (H.deeds host.new) failure
        ⊎ ((words : List (List ℕ)) × H.has_words host.old words
        × IsUnmappedNamed (opening H.gives) (printing H.prints) H.File.remaining
        H.File.HostFile.failures H.Output.contents H.Output.HostFile.failures
        words (H.deeds host.old) (H.deeds host.new) failure)) }
{
    let words = match host.words(alloc) {
        Ok(words) => words,
        Err(error) => return Err(wrong_use(host, &error, "")),
    };
    obey(alloc, host, words.as_slice())
}

/// Does what these words of `trackmap` ask: prints the map of an image. A usage error is printed here.
fn obey<H: ProgramHost>(alloc: Global, host: &mut H, words: &[String]) -> Result<(), ToolFailure>
    ensures ok { OnOk result
        (IsMappedNamed (opening H.gives) (printing H.prints) H.File.remaining H.Output.contents
        H.Output.held
        (map string_bytes words.now) (H.deeds host.old) (H.deeds host.new)) }
    ensures err { IfErr result
        (IsUnmappedNamed (opening H.gives) (printing H.prints) H.File.remaining
        H.File.HostFile.failures H.Output.contents H.Output.HostFile.failures
        (map string_bytes words.now) (H.deeds host.old) (H.deeds host.new)) }
{
    let path = match image_path(alloc, words) {
        Ok(path) => path,
        Err(error) => return Err(wrong_use(host, &error, USAGE_NOTE)),
    };
    print_map(alloc, host, path)
}

/// Reads the image at a path, and prints the map of its volume on standard output.
///
/// # Errors
///
/// A `ToolFailure`: the first fault of the image, a failure of a file, or refused memory.
pub fn print_map<H: ProgramHost>(alloc: Global, host: &mut H, path: &str) -> Result<(), ToolFailure>
    ensures ok { OnOk result
        (IsMapped (opening H.gives) (printing H.prints) H.File.remaining H.Output.contents
        H.Output.held path.now
        (H.deeds host.old) (H.deeds host.new)) }
    ensures err { IfErr result
        (IsUnmapped (opening H.gives) (printing H.prints) H.File.remaining
        H.File.HostFile.failures H.Output.contents H.Output.HostFile.failures
        path.now (H.deeds host.old) (H.deeds host.new)) }
{
    let mut file = host.open(path)?;
    let volume = read_image(alloc, &mut file)?;
    let map = track_map(alloc, &volume)?;
    let mut output = host.output(false)?;
    write_all(&mut output, &map)?;
    output.flush()?;
    Ok(())
}
