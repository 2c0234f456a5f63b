//! The words of the program where it follows a script that it is given part by part.
ghost use Rattle.std.specs.Prelude.{◌≡◌, ◌≤◌, ℕ, IfErr, IfOk, None, OnOk, Some, codes, length};
ghost use Rattle.std.specs.Prelude.{map, true};
ghost use Rattle.clap.specs.Words.{all_of, app_of, found_of, rows_of};
ghost use Rattle.program_host.specs.Ends.{TellsUse};
ghost use Rattle.program_host.specs.Words.{HasNoFault, is_taken, rows_named, texts_of};
ghost use Rattle.bare370.specs.FollowOptions.{IsNamed, command_of};
ghost use Rattle.bare370.specs.Options.{storage_named};

use crate::arguments::{MANY_VOLUMES, MOST_VOLUMES, WRONG_STORAGE, storage, storage_in, volumes};
use clap::{ArgMatches, Command};
use cp_directory::StorageSize;
use program_host::words::{UsageError, is_given, matched, paths_of, usage};
use programs::words::{follow, save, terminals};
use std::alloc::{AllocError, Global};
use std::convert::AsStr;

/// What the words of the program name: `bare370 [--save] [--terminals] --follow STORAGE
/// [VOLUME]...`.
#[derive(Drop)]
pub struct MachineFollowOptions<'a> {
    /// The images of the volumes are written back at the end.
    pub save: bool,
    /// How turns ended is left out.
    pub terminals: bool,
    /// The size of the machine's storage.
    pub storage: StorageSize,
    /// The paths of the volumes' images, at most [`MOST_VOLUMES`].
    pub volumes: Vec<&'a str>,
}

/// Returns the options that the words of a command line with `--follow` name, of which the first is
/// the name that the program was started by; `program` is its name in a usage text.
///
/// # Errors
///
/// A `UsageError`: the text that says what is wrong with the arguments, or refused memory.
pub fn follow_arguments<'a, S: AsStr>(
    alloc: Global,
    program: &'a str,
    words: &'a [S],
) -> Result<MachineFollowOptions<'a>, UsageError>
    ensures ok { IfOk result (IsNamed (rows_named (command_of program.entry.now)
        (map S.text words.entry.now))) }
    ensures few { IfOk result (λ options. length options.volumes.items ≤ 16) }
    ensures taken { OnOk result (HasNoFault (command_of program.entry.now)
        (map S.text words.entry.now)) }
    ensures err { (pages : ℕ) →
        let rows = rows_named (command_of program.entry.now) (map S.text words.entry.now) in
        is_taken (command_of program.entry.now) (map S.text words.entry.now) ≡ true →
        storage_named rows ≡ Some pages →
        length (texts_of (all_of (codes "VOLUME") rows)) ≤ 16 →
        IfErr result (λ error. error ≡ UsageError.Memory) }
{
    let command = command(alloc, program)?;
    let matches = matched(alloc, command, words)?;
    options_in(alloc, &matches)
}

/// Returns the options that `clap` has found in words; a usage error if one is missing, malformed
/// or too many.
fn options_in<'a>(
    alloc: Global,
    matches: &ArgMatches<'a>,
) -> Result<MachineFollowOptions<'a>, UsageError>
    ensures ok { IfOk result (IsNamed (rows_of (found_of matches.now))) }
    ensures few { IfOk result (λ options. length options.volumes.items ≤ 16) }
    ensures err { (pages : ℕ) → storage_named (rows_of (found_of matches.now)) ≡ Some pages →
        length (texts_of (all_of (codes "VOLUME") (rows_of (found_of matches.now))))
        ≤ 16 →
        IfErr result (λ error. error ≡ UsageError.Memory) }
    ensures storage { storage_named (rows_of (found_of matches.now)) ≡ None
        → IfErr result (TellsUse WRONG_STORAGE.now) }
    ensures many { (pages : ℕ) → storage_named (rows_of (found_of matches.now)) ≡ Some pages
        → IfErr result (TellsUse MANY_VOLUMES.now) }
{
    let Some(storage) = storage_in(matches) else {
        return Err(usage(String::from_str(alloc, WRONG_STORAGE).ok()));
    };
    let volumes = paths_of(alloc, matches, "VOLUME")?;
    if volumes.len() > MOST_VOLUMES {
        return Err(usage(String::from_str(alloc, MANY_VOLUMES).ok()));
    }
    Ok(MachineFollowOptions {
        save: is_given(matches, "save"),
        terminals: is_given(matches, "terminals"),
        storage,
        volumes,
    })
}

/// Returns the description of the program's command line with `--follow` for `clap`.
fn command<'a>(alloc: Global, program: &'a str) -> Result<Command<'a>, AllocError>
    ensures { IfOk result (λ c. app_of c ≡ command_of program.entry.now) }
{
    let command = Command::new(alloc, program)
        .about("Runs one System/370 machine, by a script that it is given part by part")
        .arg(save(alloc))?
        .arg(terminals(alloc))?
        .arg(follow(alloc))?
        .arg(storage(alloc))?
        .arg(volumes(alloc))?;
    Ok(command)
}
