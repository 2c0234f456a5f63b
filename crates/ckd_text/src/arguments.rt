//! The words of the programs: which files they are to read and to write.
ghost use Rattle.std.specs.Prelude.{◌≡◌, IfOk, IfErr, IfSome, OnOk, IsSome, Some, codes, map, true};
ghost use Rattle.clap.specs.Words.{app_of, first_of, found_of, rows_of};
ghost use Rattle.program_host.specs.Words.{HasNoFault, is_taken, rows_named};
ghost use Rattle.ckd_text.specs.Options.{AreNamed, gives, mkvol_command, trackmap_command};

use clap::{Arg, ArgMatches, Command};
use program_host::words::{UsageError, matched, text_of, usage};
use std::alloc::{AllocError, Global};
use std::convert::AsStr;

/// What is reported where a path is missing.
const NO_PATH: &str = "a path is missing\n";

/// What the words of `mkvol` name.
#[derive(Drop)]
pub struct VolumePaths<'a> {
    /// The path of the image that is written.
    pub out: &'a str,
    /// The path of the text.
    pub text: &'a str,
}

/// Returns the paths of image and text that the arguments of `mkvol` give, or the usage error.
///
/// The first argument is the name that it was started by. Arguments are read as `clap` reads them:
/// `--` before the paths is allowed, and `--help` is a request for the text of
/// [`UsageError::Usage`].
///
/// # Errors
///
/// A `UsageError`: the text that says what is wrong with the arguments, or refused memory.
pub fn volume_paths<'a, S: AsStr>(
    alloc: Global,
    words: &'a [S],
) -> Result<VolumePaths<'a>, UsageError>
    ensures ok { IfOk result (AreNamed (rows_named mkvol_command (map S.text words.entry.now))) }
    ensures taken { OnOk result (HasNoFault mkvol_command (map S.text words.entry.now)) }
    ensures err { is_taken mkvol_command (map S.text words.entry.now) ≡ true
        → gives (codes "OUT") (rows_named mkvol_command (map S.text words.entry.now)) ≡ true
        → gives (codes "TEXT") (rows_named mkvol_command (map S.text words.entry.now)) ≡ true
        → IfErr result (λ error. error ≡ UsageError.Memory) }
{
    let matches = matched(alloc, mkvol_command(alloc)?, words)?;
    match paths_in(&matches) {
        Some(paths) => Ok(paths),
        None => Err(usage(String::from_str(alloc, NO_PATH).ok())),
    }
}

/// Returns the path of the image that the arguments of `trackmap` give, or the usage error.
///
/// Arguments are read as those of `mkvol`.
///
/// # Errors
///
/// A `UsageError`: the text that says what is wrong with the arguments, or refused memory.
pub fn image_path<'a, S: AsStr>(alloc: Global, words: &'a [S]) -> Result<&'a str, UsageError>
    ensures ok { IfOk result (λ path. first_of (codes "IMAGE") (rows_named trackmap_command (map S.text words.entry.now))
        ≡ Some path.now) }
    ensures taken { OnOk result (HasNoFault trackmap_command (map S.text words.entry.now)) }
    ensures err { is_taken trackmap_command (map S.text words.entry.now) ≡ true
        → gives (codes "IMAGE") (rows_named trackmap_command (map S.text words.entry.now)) ≡ true
        → IfErr result (λ error. error ≡ UsageError.Memory) }
{
    let matches = matched(alloc, trackmap_command(alloc)?, words)?;
    match text_of(&matches, "IMAGE") {
        Some(path) => Ok(path),
        None => Err(usage(String::from_str(alloc, NO_PATH).ok())),
    }
}

/// Returns the paths of image and text among the arguments of `mkvol`, or `None` if one is missing.
fn paths_in<'a>(matches: &ArgMatches<'a>) -> Option<VolumePaths<'a>>
    ensures some { IfSome result (AreNamed (rows_of (found_of matches.now))) }
    ensures none { gives (codes "OUT") (rows_of (found_of matches.now)) ≡ true
        → gives (codes "TEXT") (rows_of (found_of matches.now)) ≡ true → IsSome result }
{
    let out = text_of(matches, "OUT")?;
    let text = text_of(matches, "TEXT")?;
    Some(VolumePaths { out, text })
}

/// Returns the description of the command line of `mkvol` for `clap`: the arguments OUT and TEXT.
fn mkvol_command<'a>(alloc: Global) -> Result<Command<'a>, AllocError>
    ensures { IfOk result (λ c. app_of c ≡ mkvol_command) }
{
    let out = Arg::new(alloc, "OUT")
        .required(true)
        .help("The image that is written");
    let text = Arg::new(alloc, "TEXT")
        .required(true)
        .help("What the volume has (docs/FORMATS.md, \"Volume texts\")");
    let command = Command::new(alloc, "mkvol")
        .about("Makes the image of a volume from a text")
        .arg(out)?
        .arg(text)?;
    Ok(command)
}

/// Returns the description of the command line of `trackmap` for `clap`: the argument IMAGE.
fn trackmap_command<'a>(alloc: Global) -> Result<Command<'a>, AllocError>
    ensures { IfOk result (λ c. app_of c ≡ trackmap_command) }
{
    let image = Arg::new(alloc, "IMAGE").required(true).help(
        "The image of a volume (docs/FORMATS.md, \"Volume images\")",
    );
    let command = Command::new(alloc, "trackmap")
        .about("Prints what a volume has, track by track")
        .arg(image)?;
    Ok(command)
}
