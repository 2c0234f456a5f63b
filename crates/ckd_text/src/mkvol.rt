//! The program `mkvol OUT TEXT`: the image of the volume that a text states.
ghost use Rattle.std.specs.Prelude.{◌≡◌, ◌⊎◌, ℕ, IfErr, List, None, OnOk, map, string_bytes};
ghost use Rattle.program_host.specs.Ends.{IsEnd};
ghost use Rattle.ckd_text.specs.Faults.{fault_text};
ghost use Rattle.ckd_text.specs.Hosts.{creating, opening};
ghost use Rattle.ckd_text.specs.Made.{IsMade, IsUnmade};
ghost use Rattle.ckd_text.specs.Runs.{IsMadeNamed, IsUnbegun, IsUnmadeNamed};

use crate::arguments::{VolumePaths, volume_paths};
use crate::faults::ToolFailure;
use crate::reader::make_volume;
use ckd_image::write_image;
use program_host::{ProgramEnd, ProgramHost, finish, wrong_use};
use s370_num::host::read_all;
use std::alloc::Global;

/// What is reported after a usage text: an example, and the exit statuses.
const USAGE_NOTE: &str = "
Example:
  printf 'VOLUME WORK01 10\\nREC 0 0 0000000001 - C1C2\\n' > text
  mkvol image text

A fault is one line on standard error. Exit statuses:
  0  the image is written
  1  the text was refused; the line tells where, and no image is made
  2  wrong words, or --help
  3  a file could not be opened, made, read or written
  4  there was not memory enough
";

/// Runs `mkvol`: makes the image of a text, and prints a failure on standard error.
pub fn program<H: ProgramHost>(alloc: Global, host: &mut H) -> ProgramEnd<ToolFailure>
    ensures { IsEnd fault_text (λ _. None) (λ failure. failure ≡ ToolFailure.Memory)
        (λ failure. failure ≡ ToolFailure.Usage) (H.has_words host.old)
        (IsUnbegun (H.has_no_text host.old))
        (IsMadeNamed (opening H.gives) (creating H.creates) H.File.remaining H.Image.contents
        H.Image.held)
        (IsUnmadeNamed (opening H.gives) (creating H.creates) H.File.remaining
        H.File.HostFile.failures H.Image.contents H.Image.HostFile.failures)
        (H.deeds host.old) (H.deeds host.new) result.ended }
{
    let ended = run(alloc, host);
    finish(alloc, host, ended)
}

/// Reads the words of the command line, and does what they ask.
fn run<H: ProgramHost>(alloc: Global, host: &mut H) -> Result<(), ToolFailure>
    ensures ok { OnOk result ((words : List (List ℕ)) × H.has_words host.old words
        × IsMadeNamed (opening H.gives) (creating H.creates) H.File.remaining H.Image.contents
        H.Image.held
        words (H.deeds host.old) (H.deeds host.new)) }
    ensures err { IfErr result (λ failure.
        IsUnbegun (H.has_no_text host.old) (H.deeds host.old) (H.deeds host.new) failure
        ⊎ ((words : List (List ℕ)) × H.has_words host.old words
        × IsUnmadeNamed (opening H.gives) (creating H.creates) H.File.remaining
        H.File.HostFile.failures H.Image.contents H.Image.HostFile.failures
        words (H.deeds host.old) (H.deeds host.new) failure)) }
{
    let words = match host.words(alloc) {
        Ok(words) => words,
        Err(error) => return Err(wrong_use(host, &error, "")),
    };
    obey(alloc, host, words.as_slice())
}

/// Does what these words of `mkvol` ask: makes the image of a text. A usage error is printed here.
fn obey<H: ProgramHost>(alloc: Global, host: &mut H, words: &[String]) -> Result<(), ToolFailure>
    ensures ok { OnOk result
        (IsMadeNamed (opening H.gives) (creating H.creates) H.File.remaining H.Image.contents
        H.Image.held
        (map string_bytes words.now) (H.deeds host.old) (H.deeds host.new)) }
    ensures err { IfErr result
        (IsUnmadeNamed (opening H.gives) (creating H.creates) H.File.remaining
        H.File.HostFile.failures H.Image.contents H.Image.HostFile.failures
        (map string_bytes words.now) (H.deeds host.old) (H.deeds host.new)) }
{
    let paths = match volume_paths(alloc, words) {
        Ok(paths) => paths,
        Err(error) => return Err(wrong_use(host, &error, USAGE_NOTE)),
    };
    make_image(alloc, host, &paths)
}

/// Reads the text at its path, creates the file at the path of the image, and writes the image of
/// the volume that the text states to it.
///
/// The text is tested first: if it is refused, no file is created.
///
/// # Errors
///
/// A `ToolFailure`: the first fault of the text or the image, a failure of a file, or refused
/// memory.
pub fn make_image<H: ProgramHost>(
    alloc: Global,
    host: &mut H,
    paths: &VolumePaths<'_>,
) -> Result<(), ToolFailure>
    ensures ok { OnOk result
        (IsMade (opening H.gives) (creating H.creates) H.File.remaining H.Image.contents
        H.Image.held paths.now
        (H.deeds host.old) (H.deeds host.new)) }
    ensures err { IfErr result
        (IsUnmade (opening H.gives) (creating H.creates) H.File.remaining
        H.File.HostFile.failures H.Image.contents H.Image.HostFile.failures
        paths.now (H.deeds host.old) (H.deeds host.new)) }
{
    let mut file = host.open(paths.text)?;
    let text = read_all(alloc, &mut file)?;
    let volume = make_volume(alloc, &text)?;
    let mut image = host.create(paths.out)?;
    write_image(alloc, &volume, &mut image)?;
    Ok(())
}
