//! The words of the program: those of `vm370`, and the state from which the script goes on.
ghost use Rattle.std.specs.Prelude.{◌≡◌, IfErr, IfOk, OnOk, codes, false, map, option_map, true};
ghost use Rattle.clap.specs.Words.{app_of, first_of, found_of, rows_of, rule_of};
ghost use Rattle.cp_core.specs.Sizes.{SystemSizes};
ghost use Rattle.vm370.specs.Options.{IsNamed, IsSized, gives_paths};
ghost use Rattle.program_host.specs.Words.{HasNoFault, is_taken, rows_named};
ghost use Rattle.frame_map.specs.Options.{command_of, state_rule};

use clap::{Arg, ArgAction, ArgMatches, Command};
use program_host::words::{UsageError, matched, text_of};
use std::alloc::{AllocError, Global};
use std::convert::AsStr;
use vm370::arguments::{Options, options_of};

/// What the words of the program name:
/// `framemap [--frames N] [--slots N] [--save] [--state FILE] DIRECTORY SCRIPT [VOLUME]...`.
#[derive(Drop)]
pub struct MapOptions<'a> {
    /// What they name as those of `vm370` do.
    pub run: Options<'a>,
    /// The path of the bytes of the state from which the script goes on, if it does.
    pub state: Option<&'a str>,
}

/// Returns the options that the words of a command line name, of which the first is the name that
/// the program was started by; `program` is its name in a usage text.
///
/// # Errors
///
/// A `UsageError`: the text that says what is wrong with the arguments, or refused memory.
pub fn arguments<'a, S: AsStr>(
    alloc: Global,
    program: &'a str,
    words: &'a [S],
) -> Result<MapOptions<'a>, UsageError>
    ensures run { IfOk result (λ options.
        IsNamed (rows_named (command_of program.entry.now) (map S.text words.entry.now))
        options.run) }
    ensures state { IfOk result (λ options. option_map (λ path. path.now) options.state
        ≡ first_of (codes "state") (rows_named (command_of program.entry.now) (map S.text words.entry.now))) }
    ensures taken { OnOk result
        (HasNoFault (command_of program.entry.now) (map S.text words.entry.now)) }
    ensures err { (sizes : SystemSizes)
        → is_taken (command_of program.entry.now) (map S.text words.entry.now) ≡ true →
        gives_paths (rows_named (command_of program.entry.now) (map S.text words.entry.now))
        ≡ true →
        IsSized (rows_named (command_of program.entry.now) (map S.text words.entry.now)) sizes →
        IfErr result (λ error. error ≡ UsageError.Memory) }
{
    let matches = matched(alloc, command(alloc, program)?, words)?;
    let run = options_of(alloc, &matches)?;
    Ok(MapOptions {
        run,
        state: text_of(&matches, "state"),
    })
}

/// Returns the description of the program's command line for `clap`.
fn command<'a>(alloc: Global, program: &'a str) -> Result<Command<'a>, AllocError>
    ensures { IfOk result (λ c. app_of c ≡ command_of program.entry.now) }
{
    let known = vm370::arguments::command(alloc, program)?;
    let command = known.arg(state(alloc))?;
    Ok(command)
}

/// Returns the description of the option `--state FILE` for `clap`.
fn state<'a>(alloc: Global) -> Arg<'a>
    ensures rule { rule_of result ≡ state_rule }
    ensures local { result.global ≡ false }
{
    Arg::new(alloc, "state")
        .long("state")
        .action(ArgAction::Set)
        .help("The bytes of the state from which the script goes on")
}
