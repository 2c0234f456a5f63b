//! The words of a program, as `clap` reads them.
ghost use Rattle.std.specs.Prelude.{◌≡◌, ◌⊎◌, ◌↔◌, IfErr, IfOk, IfSome, None, OnOk, map};
ghost use Rattle.std.specs.Prelude.{option_map, true};
ghost use Rattle.clap.specs.Words.{all_of, app_of, first_of, found_of, is_simple};
ghost use Rattle.clap.specs.Words.{is_simple_and_free, one_of, rows_of};
ghost use Rattle.clap.specs.Values.{kind_of};
ghost use Rattle.clap.specs.declared.error.kind.ErrorKind.TheVariants.{OutOfMemory};
ghost use Rattle.program_host.specs.Words.{HasNoFault, IsFlag, is_taken, rows_named, texts_of};
ghost use Rattle.program_host.specs.declared.words.UsageError.TheVariants.{Memory};

use clap::error::ErrorKind;
use clap::{ArgMatches, Command, Error as ClapError};
use std::alloc::{AllocError, Global};
use std::convert::AsStr;
use thiserror::Error;

/// Why the words of the program name no options.
#[derive(Debug, Drop, Error)]
pub enum UsageError {
    /// A growth was refused.
    #[error("no memory for the words of the program")]
    Memory,
    /// The words are not those of the program, or ask for its help: the text for the person who
    /// wrote them, of whole lines.
    #[error("{0}")]
    Usage(String),
}

impl From<AllocError> for UsageError {
    ghost from_gives = { λ _ error. error ≡ Memory };

    /// Returns the error that memory was refused.
    fn from(_error: AllocError) -> UsageError {
        UsageError::Memory
    }
}

/// Returns the usage error with this text; `Memory` if there was no memory for the text.
pub fn usage(text: Option<String>) -> UsageError
    ensures usage { IfSome text (λ reported. result ≡ UsageError.Usage reported) }
    ensures memory { text ≡ None → result ≡ UsageError.Memory }
{
    match text {
        Some(text) => UsageError::Usage(text),
        None => UsageError::Memory,
    }
}

/// Returns what `clap` finds in the words of a command line for this command, which has no options
/// that depend on others.
///
/// # Errors
///
/// A `UsageError`: the text that says what is wrong with the words, or refused memory.
pub fn matched<'a, S: AsStr>(
    alloc: Global,
    command: Command<'a>,
    words: &'a [S],
) -> Result<ArgMatches<'a>, UsageError>
    ensures ok { is_simple (app_of command.entry) ≡ true → IfOk result
        (λ m. rows_of (found_of m)
        ≡ rows_named (app_of command.entry) (map S.text words.entry.now)) }
    ensures taken { is_simple_and_free (app_of command.entry) ≡ true
        → OnOk result (HasNoFault (app_of command.entry) (map S.text words.entry.now)) }
    ensures err { is_taken (app_of command.entry) (map S.text words.entry.now) ≡ true
        → IfErr result (λ error. error ≡ UsageError.Memory) }
{
    match command.try_get_matches_from(words) {
        Ok(matches) => Ok(matches),
        Err(error) => Err(refusal(&error, error.to_string(alloc).ok())),
    }
}

/// Returns the first text that was given for an argument, if one was.
pub fn text_of<'a>(matches: &ArgMatches<'a>, id: &str) -> Option<&'a str>
    ensures { option_map (λ s. s.now) result ≡ first_of id.now (rows_of (found_of matches.now)) }
{
    matches.get_str(id)
}

/// Returns whether this flag was given.
pub fn is_given(matches: &ArgMatches<'_>, id: &str) -> bool
    ensures { IsFlag (one_of id.now (rows_of (found_of matches.now))) result }
{
    matches.get_flag(id)
}

/// Returns a new list of the texts that were given for an argument, in order; empty if none was.
///
/// # Errors
///
/// `AllocError` if memory is refused.
pub fn paths_of<'a>(
    alloc: Global,
    matches: &ArgMatches<'a>,
    id: &str,
) -> Result<Vec<&'a str>, AllocError>
    ensures { IfOk result (λ paths. map (λ path. path.now) paths.items
        ≡ texts_of (all_of id.now (rows_of (found_of matches.now)))) }
{
    match texts_in(matches, id) {
        Some(paths) => copied(alloc, paths),
        None => Ok(Vec::new(alloc)),
    }
}

/// Returns the texts that were given for an argument, in order, if some were.
fn texts_in<'b, 'a>(matches: &'b ArgMatches<'a>, id: &str) -> Option<&'b [&'a str]>
    ensures { option_map (λ texts. map (λ text. text.now) texts.now) result
        ≡ all_of id.now (rows_of (found_of matches.now)) }
{
    matches.get_strs(id)
}

/// Returns a new list of the same texts.
fn copied<'a>(alloc: Global, texts: &[&'a str]) -> Result<Vec<&'a str>, AllocError>
    ensures { IfOk result (λ all. map (λ text. text.now) all.items
        ≡ map (λ text. text.now) texts.now) }
{
    texts.iter().copied().collect(alloc)
}

/// Returns the usage error for an error of `clap`, with this text; `Memory` if memory was refused,
/// also for the text.
pub fn refusal(error: &ClapError, text: Option<String>) -> UsageError
    ensures memory { (result ≡ UsageError.Memory) ↔
        ((kind_of error.now ≡ OutOfMemory) ⊎ (text ≡ None)) }
    ensures usage { IfSome text
        (λ reported. (kind_of error.now ≡ OutOfMemory) ⊎ (result ≡ UsageError.Usage reported)) }
{
    if error.kind() == ErrorKind::OutOfMemory {
        return UsageError::Memory;
    }
    usage(text)
}
