//! How a program ends: what it says of a failure, and its exit status.
ghost use Rattle.std.specs.Prelude.{◌≡◌, ℕ, IfOk, List, Option, codes, false, option_map};
ghost use Rattle.std.specs.Prelude.{string_bytes, true};
ghost use Rattle.std.specs.Process.{exit_status};
ghost use Rattle.program_host.specs.Deeds.{Adds};
ghost use Rattle.program_host.specs.Ends.{IsLineTold, IsToldAs, IsUseFailure, outcome_of};
ghost use Rattle.program_host.specs.Ends.{path_complaints, use_complaints};

use crate::host::ProgramHost;
use crate::words::UsageError;
use std::alloc::{AllocError, Global};
use std::process::{ExitCode, Termination};

/// What is printed where there is no memory for the line of a failure: that of refused memory.
const NO_MEMORY: &str = "fault: memory Memory";

/// What is printed before the path of an image that is not saved.
const NOT_SAVED: &str = "not saved: ";

/// Why a program ends before its end.
pub trait ProgramFailure: Drop {
    /// The line that tells it.
    ghost text: { Self → List ℕ };

    /// The exit status of the program.
    ghost code: { Self → ℕ };

    /// The path of an image that is not saved, if it is that.
    ghost unsaved: { Self → Option (List ℕ) };

    /// Memory was refused.
    ghost is_memory: { Self → Type 0 };

    /// The words are not those of the program.
    ghost is_usage: { Self → Type 0 };

    /// The line of refused memory is always the same.
    ghost memory_told: { (failure : Self) → is_memory failure
        → text failure ≡ codes "fault: memory Memory" };

    /// Returns the failure that memory was refused.
    fn no_memory() -> Self
        ensures { is_memory result };

    /// Returns the failure that the words are not those of the program.
    fn wrong_words() -> Self
        ensures { is_usage result };

    /// Returns whether the words are not those of the program.
    fn is_wrong_words(&self) -> bool
        ensures yes { result ≡ true → is_usage self.now }
        ensures no { result ≡ false → is_usage self.now → ⊥ };

    /// Returns the line that tells the failure, without its end.
    ///
    /// # Errors
    ///
    /// `AllocError` if memory is refused.
    fn line(&self, alloc: Global) -> Result<String, AllocError>
        ensures { IfOk result (λ line. string_bytes line ≡ text self.now) };

    /// Returns the exit status of the program.
    fn status(&self) -> u8
        ensures { result ≡ code self.now };

    /// Returns the path of an image that is not saved, if the failure is that.
    fn unsaved_path(&self) -> Option<&str>
        ensures { option_map (λ path. path.now) result ≡ unsaved self.now };
}

/// How a program ended. Only [`finish`] makes one, so that a `main` which returns it has no other
/// exit status to give.
#[derive(Drop)]
pub struct ProgramEnd<F> {
    ended: Result<(), F>,
}

impl<F: ProgramFailure> Termination for ProgramEnd<F> {
    /// Returns the exit status of the program: 0, or that of its failure.
    fn report<R: Eprint>(self, _rt: &R) -> ExitCode
        ensures { exit_status result ≡ outcome_of F.code self.ended }
    {
        ExitCode::from(outcome(&self.ended))
    }
}

/// Returns the exit status of a program that ended so: 0, or that of its failure.
fn outcome<F: ProgramFailure>(ended: &Result<(), F>) -> u8
    ensures { result ≡ outcome_of F.code ended.now }
{
    match ended {
        Ok(()) => 0,
        Err(failure) => failure.status(),
    }
}

/// Prints what a program's failure is, if it has one other than a wrong use, and returns the
/// program's end, which has the exit status.
///
/// If there is no memory for its line, the failure is refused memory.
pub fn finish<F: ProgramFailure, H: ProgramHost>(
    alloc: Global,
    host: &mut H,
    ended: Result<(), F>,
) -> ProgramEnd<F>
    ensures { IsToldAs F.text F.unsaved F.is_memory F.is_usage ended result.ended
        (H.deeds host.old) (H.deeds host.new) }
{
    match ended {
        Ok(()) => ProgramEnd { ended: Ok(()) },
        // a wrong use was told by a longer text
        Err(failure) if failure.is_wrong_words() => ProgramEnd {
            ended: Err(failure),
        },
        Err(failure) => {
            let line = failure.line(alloc);
            ProgramEnd {
                ended: Err(tell(host, failure, line)),
            }
        }
    }
}

/// Prints this line of a failure, and the path of an image that is not saved, and returns the
/// failure, or refused memory if there is none for the line.
fn tell<F: ProgramFailure, H: ProgramHost>(
    host: &mut H,
    failure: F,
    line: Result<String, AllocError>,
) -> F
    ensures { IsLineTold F.is_memory string_bytes (F.unsaved failure) line failure result
        (H.deeds host.old) (H.deeds host.new) }
{
    match line {
        Ok(line) => {
            host.complain_line(&line);
            tell_path(host, failure.unsaved_path());
            failure
        }
        Err(_) => {
            host.complain_line(NO_MEMORY);
            tell_path(host, failure.unsaved_path());
            F::no_memory()
        }
    }
}

/// Prints the path of an image that is not saved, if there is one.
fn tell_path<H: ProgramHost>(host: &mut H, path: Option<&str>)
    ensures { Adds (H.deeds host.old) (H.deeds host.new)
        (path_complaints (option_map (λ at. at.now) path.entry)) }
{
    if let Some(path) = path {
        host.complain(NOT_SAVED);
        host.complain_line(path);
    }
}

/// Prints the text of wrong words and this note, and returns the failure; of refused memory it
/// prints nothing.
pub fn wrong_use<F: ProgramFailure, H: ProgramHost>(
    host: &mut H,
    error: &UsageError,
    note: &str,
) -> F
    ensures failure { IsUseFailure F.is_memory F.is_usage error.now result }
    ensures told { Adds (H.deeds host.old) (H.deeds host.new) (use_complaints error.now note.now) }
{
    match error {
        UsageError::Memory => F::no_memory(),
        UsageError::Usage(text) => {
            host.complain(text);
            host.complain(note);
            F::wrong_words()
        }
    }
}
