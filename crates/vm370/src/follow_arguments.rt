//! The words of the program where it follows a script that it is given part by part.
ghost use Rattle.std.specs.Prelude.{◌≡◌, IfErr, IfOk, OnOk, map, true};
ghost use Rattle.clap.specs.Words.{app_of, found_of, rows_of};
ghost use Rattle.cp_core.specs.Sizes.{SystemSizes};
ghost use Rattle.program_host.specs.Ends.{TellsUse};
ghost use Rattle.program_host.specs.Words.{HasNoFault, is_taken, rows_named};
ghost use Rattle.vm370.specs.Options.{IsSized};
ghost use Rattle.vm370.specs.FollowOptions.{IsNamed, command_of, gives_directory};

use crate::arguments::{NO_PATH, WRONG_SIZES, directory, frames, sizes_in, slots};
use clap::{ArgMatches, Command};
use cp_core::Sizes;
use program_host::words::{UsageError, is_given, matched, paths_of, text_of, usage};
use programs::words::{follow, save, terminals, volumes};
use std::alloc::{AllocError, Global};
use std::convert::AsStr;

/// What the words of the program name:
/// `vm370 [--frames N] [--slots N] [--save] [--terminals] --follow DIRECTORY [VOLUME]...`.
#[derive(Drop)]
pub struct SystemFollowOptions<'a> {
    /// How many frames and slots the machine has.
    pub sizes: Sizes,
    /// The images of the volumes are written back at the end.
    pub save: bool,
    /// How turns ended is left out.
    pub terminals: bool,
    /// The path of the directory.
    pub directory: &'a str,
    /// The paths of the volumes' images, in order.
    pub volumes: Vec<&'a str>,
}

/// Returns the options that the words of a command line with `--follow` name, of which the first is
/// the name that the program was started by; `program` is its name in a usage text.
///
/// # Errors
///
/// A `UsageError`: the text that says what is wrong with the arguments, or refused memory.
pub fn follow_arguments<'a, S: AsStr>(
    alloc: Global,
    program: &'a str,
    words: &'a [S],
) -> Result<SystemFollowOptions<'a>, UsageError>
    ensures ok { IfOk result
        (IsNamed (rows_named (command_of program.entry.now) (map S.text words.entry.now))) }
    ensures taken { OnOk result
        (HasNoFault (command_of program.entry.now) (map S.text words.entry.now)) }
    ensures err { (sizes : SystemSizes)
        → is_taken (command_of program.entry.now) (map S.text words.entry.now) ≡ true →
        gives_directory (rows_named (command_of program.entry.now) (map S.text words.entry.now))
        ≡ true →
        IsSized (rows_named (command_of program.entry.now) (map S.text words.entry.now)) sizes →
        IfErr result (λ error. error ≡ UsageError.Memory) }
{
    let matches = matched(alloc, command(alloc, program)?, words)?;
    options_in(alloc, &matches)
}

/// Returns the options that `clap` has found in words.
fn options_in<'a>(
    alloc: Global,
    matches: &ArgMatches<'a>,
) -> Result<SystemFollowOptions<'a>, UsageError>
    ensures ok { IfOk result (IsNamed (rows_of (found_of matches.now))) }
    ensures err { (sizes : SystemSizes) → gives_directory (rows_of (found_of matches.now)) ≡ true →
        IsSized (rows_of (found_of matches.now)) sizes →
        IfErr result (λ error. error ≡ UsageError.Memory) }
    ensures sizes { ((sizes : SystemSizes) → IsSized (rows_of (found_of matches.now)) sizes → ⊥)
        → IfErr result (TellsUse WRONG_SIZES.now) }
    ensures path { (sizes : SystemSizes) → IsSized (rows_of (found_of matches.now)) sizes
        → IfErr result (TellsUse NO_PATH.now) }
{
    let Some(sizes) = sizes_in(matches) else {
        return Err(usage(String::from_str(alloc, WRONG_SIZES).ok()));
    };
    let Some(directory) = text_of(matches, "DIRECTORY") else {
        return Err(usage(String::from_str(alloc, NO_PATH).ok()));
    };
    let volumes = paths_of(alloc, matches, "VOLUME")?;
    Ok(SystemFollowOptions {
        sizes,
        save: is_given(matches, "save"),
        terminals: is_given(matches, "terminals"),
        directory,
        volumes,
    })
}

/// Returns the description of the program's command line with `--follow` for `clap`.
fn command<'a>(alloc: Global, program: &'a str) -> Result<Command<'a>, AllocError>
    ensures { IfOk result (λ c. app_of c ≡ command_of program.entry.now) }
{
    let command = Command::new(alloc, program)
        .about("Runs many System/370 machines at once, by a script that it is given part by part")
        .arg(frames(alloc))?
        .arg(slots(alloc))?
        .arg(save(alloc))?
        .arg(terminals(alloc))?
        .arg(follow(alloc))?
        .arg(directory(alloc))?
        .arg(volumes(alloc))?;
    Ok(command)
}
