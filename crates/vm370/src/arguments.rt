//! The words of the program: how much it has, and which files it is to read and to write.
ghost use Rattle.std.specs.Prelude.{◌≡◌, IfOk, IfErr, IfSome, OnOk, IsSome, Some, codes, map};
ghost use Rattle.std.specs.Prelude.{false, true};
ghost use Rattle.clap.specs.Words.{app_of, first_of, found_of, rows_of, rule_of};
ghost use Rattle.cp_core.specs.Sizes.{SystemSizes};
ghost use Rattle.program_host.specs.Ends.{TellsUse};
ghost use Rattle.program_host.specs.Words.{HasNoFault, is_taken, rows_named};
ghost use Rattle.vm370.specs.Options.{IsNamed, IsSized, command_of, directory_rule, frames_rule};
ghost use Rattle.vm370.specs.Options.{gives_paths, number_or, slots_rule};

use clap::{Arg, ArgAction, ArgMatches, Command};
use cp_core::Sizes;
use program_host::words::{UsageError, is_given, matched, paths_of, text_of, usage};
use programs::words::{save, script, volumes};
use std::alloc::{AllocError, Global};
use std::convert::AsStr;
use text_words::numbers::decimal_of;

/// How many frames the machine has where the words name no number.
const FRAMES: u32 = 64;
/// How many slots for pages it has where the words name no number.
const SLOTS: u32 = 256;
/// What is reported of frames or slots that are too many or no numbers.
pub const WRONG_SIZES: &str =
    "there are at most 4096 frames and 65536 slots, each a decimal number\n";
/// What is reported where a path is missing.
pub const NO_PATH: &str = "a path is missing\n";
/// The most digits of a number of frames or slots.
const MOST_DIGITS: usize = 7;

/// What the words of the program name: `vm370 [--frames N] [--slots N] [--save] DIRECTORY SCRIPT
/// [VOLUME]...`.
#[derive(Drop)]
pub struct Options<'a> {
    /// How many frames and slots the machine has.
    pub sizes: Sizes,
    /// The images of the volumes are written back at the end.
    pub save: bool,
    /// The path of the directory.
    pub directory: &'a str,
    /// The path of the script.
    pub script: &'a str,
    /// The paths of the volumes' images, in order.
    pub volumes: Vec<&'a str>,
}

/// Returns the options that the words of a command line name, of which the first is the name that
/// the program was started by; `program` is its name in a usage text.
///
/// Words are read as `clap` reads them: `--` before the paths is allowed, and `--help` is a request
/// for the text of [`UsageError::Usage`].
///
/// # Errors
///
/// A `UsageError`: the text that says what is wrong with the arguments, or refused memory.
pub fn arguments<'a, S: AsStr>(
    alloc: Global,
    program: &'a str,
    words: &'a [S],
) -> Result<Options<'a>, UsageError>
    ensures ok { IfOk result
        (IsNamed (rows_named (command_of program.entry.now) (map S.text words.entry.now))) }
    ensures taken { OnOk result
        (HasNoFault (command_of program.entry.now) (map S.text words.entry.now)) }
    ensures err { (sizes : SystemSizes)
        → is_taken (command_of program.entry.now) (map S.text words.entry.now) ≡ true →
        gives_paths (rows_named (command_of program.entry.now) (map S.text words.entry.now))
        ≡ true →
        IsSized (rows_named (command_of program.entry.now) (map S.text words.entry.now)) sizes →
        IfErr result (λ error. error ≡ UsageError.Memory) }
{
    let matches = matched(alloc, command(alloc, program)?, words)?;
    options_of(alloc, &matches)
}

/// Returns the options that `clap` has found in words, for a command with the arguments of
/// [`command`].
///
/// # Errors
///
/// A `UsageError`: the text that says what is wrong with the arguments, or refused memory.
pub fn options_of<'a>(alloc: Global, matches: &ArgMatches<'a>) -> Result<Options<'a>, UsageError>
    ensures ok { IfOk result (IsNamed (rows_of (found_of matches.now))) }
    ensures err { (sizes : SystemSizes) → gives_paths (rows_of (found_of matches.now)) ≡ true →
        IsSized (rows_of (found_of matches.now)) sizes →
        IfErr result (λ error. error ≡ UsageError.Memory) }
    ensures sizes { ((sizes : SystemSizes) → IsSized (rows_of (found_of matches.now)) sizes → ⊥)
        → IfErr result (TellsUse WRONG_SIZES.now) }
    ensures path { (sizes : SystemSizes) → IsSized (rows_of (found_of matches.now)) sizes
        → IfErr result (TellsUse NO_PATH.now) }
{
    let Some(sizes) = sizes_in(matches) else {
        return Err(usage(String::from_str(alloc, WRONG_SIZES).ok()));
    };
    let Some((directory, script)) = paths_in(matches) else {
        return Err(usage(String::from_str(alloc, NO_PATH).ok()));
    };
    let volumes = paths_of(alloc, matches, "VOLUME")?;
    Ok(Options {
        sizes,
        save: is_given(matches, "save"),
        directory,
        script,
        volumes,
    })
}

/// Returns how many frames and slots are asked for, or the usual numbers; None if too many or
/// malformed.
pub(crate) fn sizes_in(matches: &ArgMatches<'_>) -> Option<Sizes>
    ensures some { IfSome result (IsSized (rows_of (found_of matches.now))) }
    ensures none { (sizes : SystemSizes) → IsSized (rows_of (found_of matches.now)) sizes
        → IsSome result }
{
    let frames = number_in(matches, "frames", FRAMES)?;
    let slots = number_in(matches, "slots", SLOTS)?;
    Sizes::new(frames, slots)
}

/// Returns the decimal number that was given for an option, or `default` if none was; None if
/// malformed or of too many digits.
fn number_in(matches: &ArgMatches<'_>, id: &str, default: u32) -> Option<u32>
    ensures { result ≡ number_or default (first_of id.now (rows_of (found_of matches.now))) }
{
    match text_of(matches, id) {
        Some(text) => decimal_of(MOST_DIGITS, text.as_bytes()),
        None => Some(default),
    }
}

/// Returns the paths of the directory and of the script; None if one of them is missing.
fn paths_in<'a>(matches: &ArgMatches<'a>) -> Option<(&'a str, &'a str)>
    ensures directory { IfSome result
        (λ paths. first_of (codes "DIRECTORY") (rows_of (found_of matches.now))
        ≡ Some paths.0.now) }
    ensures script { IfSome result
        (λ paths. first_of (codes "SCRIPT") (rows_of (found_of matches.now)) ≡ Some paths.1.now) }
    ensures none { gives_paths (rows_of (found_of matches.now)) ≡ true → IsSome result }
{
    let directory = text_of(matches, "DIRECTORY")?;
    let script = text_of(matches, "SCRIPT")?;
    Some((directory, script))
}

/// Returns the description of the program's command line for `clap`.
///
/// # Errors
///
/// `AllocError` if memory is refused.
pub fn command<'a>(alloc: Global, program: &'a str) -> Result<Command<'a>, AllocError>
    ensures { IfOk result (λ c. app_of c ≡ command_of program.entry.now) }
{
    let command = Command::new(alloc, program)
        .about("Runs many System/370 machines at once, and prints what their terminals show")
        .arg(frames(alloc))?
        .arg(slots(alloc))?
        .arg(save(alloc))?
        .arg(directory(alloc))?
        .arg(script(alloc))?
        .arg(volumes(alloc))?;
    Ok(command)
}

/// Returns the description of the option `--frames N` for `clap`.
pub(crate) fn frames<'a>(alloc: Global) -> Arg<'a>
    ensures rule { rule_of result ≡ frames_rule }
    ensures local { result.global ≡ false }
{
    Arg::new(alloc, "frames")
        .long("frames")
        .action(ArgAction::Set)
        .help(
            "How many frames of 4096 bytes the users share, 16 to 4096; 64 where no number is given",
        )
}

/// Returns the description of the option `--slots N` for `clap`.
pub(crate) fn slots<'a>(alloc: Global) -> Arg<'a>
    ensures rule { rule_of result ≡ slots_rule }
    ensures local { result.global ≡ false }
{
    Arg::new(alloc, "slots")
        .long("slots")
        .action(ArgAction::Set)
        .help(
            "How many slots there are for pages that are in no frame, at most 65536; 256 where no number is given",
        )
}

/// Returns the description of the argument `DIRECTORY`, the path of the directory, for `clap`.
pub(crate) fn directory<'a>(alloc: Global) -> Arg<'a>
    ensures rule { rule_of result ≡ directory_rule }
    ensures local { result.global ≡ false }
{
    Arg::new(alloc, "DIRECTORY").required(true).help(
        "The users, and the storage and the devices of each (docs/FORMATS.md)",
    )
}
