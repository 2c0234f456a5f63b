//! The words of the program: its machine's storage, its script and its volumes.
ghost use Rattle.std.specs.Prelude.{◌≡◌, ◌≤◌, ℕ, IfErr, IfOk, None, OnOk, Some, codes, false};
ghost use Rattle.std.specs.Prelude.{length, map, true};
ghost use Rattle.clap.specs.Words.{all_of, app_of, found_of, rows_of, rule_of};
ghost use Rattle.program_host.specs.Ends.{TellsUse};
ghost use Rattle.program_host.specs.Words.{HasNoFault, is_taken, rows_named, texts_of};
ghost use Rattle.programs.specs.Arguments.{script_rule, volume_rule};
ghost use Rattle.bare370.specs.Options.{IsNamed, command_of, gives_script};
ghost use Rattle.bare370.specs.Options.{storage_named, storage_rule};

use clap::{Arg, ArgAction, ArgMatches, Command};
use cp_directory::{StorageSize, storage_of};
use program_host::words::{UsageError, is_given, matched, paths_of, text_of, usage};
use programs::words::save;
use std::alloc::{AllocError, Global};
use std::convert::AsStr;

/// The most volumes that a machine has.
pub const MOST_VOLUMES: usize = 16;
/// What is reported of more volumes.
pub(crate) const MANY_VOLUMES: &str = "a machine has at most 16 volumes\n";
/// What is reported where a path is missing.
const NO_PATH: &str = "a path is missing\n";
/// What is reported of a size of storage that no machine has.
pub(crate) const WRONG_STORAGE: &str = "STORAGE is 8K to 4096K in steps of 4K, or 1M to 4M\n";

/// What the words of the program name: `bare370 [--save] STORAGE SCRIPT [VOLUME]...`.
#[derive(Debug, Drop)]
pub struct BareOptions<'a> {
    /// The images of the volumes are written back at the end.
    pub save: bool,
    /// The size of the machine's storage.
    pub storage: StorageSize,
    /// The path of the script.
    pub script: &'a str,
    /// The paths of the volumes' images, at most [`MOST_VOLUMES`].
    pub volumes: Vec<&'a str>,
}

/// Returns the options that the words of a command line name, of which the first is the name that
/// the program was started by; `program` is its name in a usage text.
///
/// Words are read as `clap` reads them: `--` before the paths is allowed, and `--help` is a request
/// for the text of [`UsageError::Usage`]. The storage is written as in a directory.
///
/// # Errors
///
/// A `UsageError`: the text that says what is wrong with the arguments, or refused memory.
pub fn bare_arguments<'a, S: AsStr>(
    alloc: Global,
    program: &'a str,
    words: &'a [S],
) -> Result<BareOptions<'a>, UsageError>
    ensures ok { IfOk result (IsNamed (rows_named (command_of program.entry.now)
        (map S.text words.entry.now))) }
    ensures few { IfOk result (λ options. length options.volumes.items ≤ 16) }
    ensures taken { OnOk result (HasNoFault (command_of program.entry.now)
        (map S.text words.entry.now)) }
    ensures err { (pages : ℕ) →
        let rows = rows_named (command_of program.entry.now) (map S.text words.entry.now) in
        is_taken (command_of program.entry.now) (map S.text words.entry.now) ≡ true →
        gives_script rows ≡ true →
        storage_named rows ≡ Some pages →
        length (texts_of (all_of (codes "VOLUME") rows)) ≤ 16 →
        IfErr result (λ error. error ≡ UsageError.Memory) }
{
    let command = command(alloc, program)?;
    let matches = matched(alloc, command, words)?;
    options_in(alloc, &matches)
}

/// Returns the options that `clap` has found in words; a usage error if one is missing, malformed
/// or too many.
fn options_in<'a>(alloc: Global, matches: &ArgMatches<'a>) -> Result<BareOptions<'a>, UsageError>
    ensures ok { IfOk result (IsNamed (rows_of (found_of matches.now))) }
    ensures few { IfOk result (λ options. length options.volumes.items ≤ 16) }
    ensures err { (pages : ℕ) → gives_script (rows_of (found_of matches.now)) ≡ true →
        storage_named (rows_of (found_of matches.now)) ≡ Some pages →
        length (texts_of (all_of (codes "VOLUME") (rows_of (found_of matches.now))))
        ≤ 16 →
        IfErr result (λ error. error ≡ UsageError.Memory) }
    ensures path { gives_script (rows_of (found_of matches.now)) ≡ false
        → IfErr result (TellsUse NO_PATH.now) }
    ensures storage { gives_script (rows_of (found_of matches.now)) ≡ true
        → storage_named (rows_of (found_of matches.now)) ≡ None
        → IfErr result (TellsUse WRONG_STORAGE.now) }
    ensures many { (pages : ℕ) → gives_script (rows_of (found_of matches.now)) ≡ true
        → storage_named (rows_of (found_of matches.now)) ≡ Some pages
        → IfErr result (TellsUse MANY_VOLUMES.now) }
{
    let Some(script) = text_of(matches, "SCRIPT") else {
        return Err(usage(String::from_str(alloc, NO_PATH).ok()));
    };
    let Some(storage) = storage_in(matches) else {
        return Err(usage(String::from_str(alloc, WRONG_STORAGE).ok()));
    };
    let volumes = paths_of(alloc, matches, "VOLUME")?;
    if volumes.len() > MOST_VOLUMES {
        return Err(usage(String::from_str(alloc, MANY_VOLUMES).ok()));
    }
    Ok(BareOptions {
        save: is_given(matches, "save"),
        storage,
        script,
        volumes,
    })
}

/// Returns the size of storage that was given; None if it is missing, malformed, or one that no
/// machine has.
pub(crate) fn storage_in(matches: &ArgMatches<'_>) -> Option<StorageSize>
    ensures { result ≡ storage_named (rows_of (found_of matches.now)) }
{
    storage_of(text_of(matches, "STORAGE")?.as_bytes())
}

/// Returns the description of the program's command line for `clap`.
fn command<'a>(alloc: Global, program: &'a str) -> Result<Command<'a>, AllocError>
    ensures { IfOk result (λ c. app_of c ≡ command_of program.entry.now) }
{
    let command = Command::new(alloc, program)
        .about("Runs one System/370 machine, and prints what its terminal shows")
        .arg(save(alloc))?
        .arg(storage(alloc))?
        .arg(script(alloc))?
        .arg(volumes(alloc))?;
    Ok(command)
}

/// Returns the description of the argument `STORAGE`, the size of the storage, for `clap`.
pub(crate) fn storage<'a>(alloc: Global) -> Arg<'a>
    ensures rule { rule_of result ≡ storage_rule }
    ensures local { result.global ≡ false }
{
    Arg::new(alloc, "STORAGE")
        .required(true)
        .help("The size of the machine's storage, as 8K or 1M")
}

/// Returns the description of the argument `SCRIPT`, the path of the script, for `clap`.
fn script<'a>(alloc: Global) -> Arg<'a>
    ensures rule { rule_of result ≡ script_rule }
    ensures local { result.global ≡ false }
{
    Arg::new(alloc, "SCRIPT").required(true).help(
        "What happens to the machine, one event a line (docs/FORMATS.md)",
    )
}

/// Returns the description of the arguments `VOLUME`, the paths of images, for `clap`.
pub(crate) fn volumes<'a>(alloc: Global) -> Arg<'a>
    ensures rule { rule_of result ≡ volume_rule }
    ensures local { result.global ≡ false }
{
    Arg::new(alloc, "VOLUME").action(ArgAction::Append).help(
        "The images of the disks 190, 191 and so on (docs/FORMATS.md)",
    )
}
