//! The files that were closed for the operator, by their numbers: the last part of a transcript,
//! and what a part of a script has closed.
ghost use Rattle.std.specs.Prelude.{◌≡◌, ◌++◌, ◌∷◌, [], IfOk, OnOk, map};
ghost use Rattle.std.specs.Option.{option_copied, option_map};
ghost use Rattle.cp_spool.specs.File.{closed_file};
ghost use Rattle.user_names.specs.Users.{name_of};
ghost use Rattle.std.specs.String.{string_bytes};
ghost use Rattle.cp_console.specs.Responses.{file_number};
ghost use Rattle.s370_num.specs.Address.{two_digits};
ghost use Rattle.sessions.specs.Files.{closed_in, entry_line, entry_mark, file_lines, found_lines};
ghost use Rattle.sessions.specs.Files.{heading_line, heading_mark, kind_word, lines_since};
ghost use Rattle.sessions.specs.Files.{marked_entry, note_lines, printed_text};
ghost use Rattle.sessions.specs.Installed.{names_of};
ghost use Rattle.sessions.specs.Transcript.{ended};

use crate::installation::Installation;
use cp_spool::SpoolFile;
use machine_devices::{FileKind, FileNote};
use s370_num::ebcdic::printable;
use std::alloc::{AllocError, Global};
use unit_record::{Entry, Target};
use user_names::UserNo;

/// Where the lines of a file are written.
#[derive(Clone, Copy, Debug, PartialEq, Eq)]
pub enum Telling {
    /// In a transcript.
    Transcript,
    /// In the answer to a part of a script: each line after `> `, an entry after `> |`.
    Answer,
}

/// Returns the lines of all files that were closed for the operator, but not of those among the
/// first `since` files, in the order of their numbers, each ended by LF.
pub(crate) fn operator_file_lines<I: Installation>(
    alloc: Global,
    installation: &I,
    telling: Telling,
    since: usize,
) -> Result<Vec<u8>, AllocError>
    ensures { IfOk result (λ text. text.items
        ≡ ended (lines_since telling since (I.goes.seen installation.now))) }
{
    let mut text = Vec::new(alloc);
    for place in since..installation.files() {
        let Some(note) = installation.file(place) else {
            unreachable!();
        };
        append_noted(
            alloc,
            &mut text,
            installation,
            telling,
            place as u64 + 1,
            note,
        )?;
    }
    Ok(text)
}

/// Appends the lines of the file of this number, of which this is the note, if it was closed for
/// the operator.
fn append_noted<I: Installation>(
    alloc: Global,
    out: &mut Vec<u8>,
    installation: &I,
    telling: Telling,
    number: u64,
    note: FileNote,
) -> Result<(), AllocError>
    ensures { OnOk result (out.new.items ≡ out.old.items
        ++ ended (note_lines telling (I.goes.seen installation.now) number note)) }
{
    append_found(
        alloc,
        out,
        telling,
        note.kind,
        number,
        installation.name(note.user),
        closed_file(installation, note.user, note.kind),
    )
}

/// Appends the lines of this file, if there is one and it is for the operator, with its kind, its
/// number and the name of its user.
fn append_found(
    alloc: Global,
    out: &mut Vec<u8>,
    telling: Telling,
    kind: FileKind,
    number: u64,
    name: &[u8],
    file: Option<&SpoolFile>,
) -> Result<(), AllocError>
    ensures { OnOk result (out.new.items ≡ out.old.items
        ++ ended (found_lines telling kind number name.now
        (option_map closed_file (option_copied file.entry)))) }
{
    match file {
        Some(file) => append_file(alloc, out, telling, kind, number, name, file),
        None => Ok(()),
    }
}

/// Returns the file that a user's punch or printer has closed at the place of this kind; None for a
/// deck, or if there is no such user or file.
fn closed_file<I: Installation>(
    installation: &I,
    user: UserNo,
    kind: FileKind,
) -> Option<&SpoolFile>
    ensures { option_map closed_file (option_copied result)
        ≡ closed_in (I.goes.seen installation.now) user kind }
{
    if user.index() >= installation.users() {
        return None;
    }
    let devices = installation.devices(user);
    match kind {
        FileKind::Punch(place) => devices.punched(place),
        FileKind::Printer(place) => devices.printed(place),
        FileKind::Deck => None,
    }
}

/// Appends a heading and a line for each entry of a file, if it is for the operator.
///
/// ```text
/// == PRT 0001 A
/// 09 HELLO
/// ```
fn append_file(
    alloc: Global,
    out: &mut Vec<u8>,
    telling: Telling,
    kind: FileKind,
    number: u64,
    name: &[u8],
    file: &SpoolFile,
) -> Result<(), AllocError>
    ensures { OnOk result (out.new.items ≡ out.old.items
        ++ ended (file_lines telling kind number name.now (closed_file file.now))) }
{
    match file.target() {
        Target::System => {
            append_heading(alloc, out, telling, kind, number, name)?;
            append_entries(alloc, out, telling, kind, file.entries())
        }
        Target::User(_) => Ok(()),
    }
}

/// Returns what is written before the heading of a file: nothing in a transcript, `> ` in an
/// answer.
fn heading_mark(telling: Telling) -> &'static [u8]
    ensures { result.now ≡ heading_mark telling }
{
    match telling {
        Telling::Transcript => &[],
        Telling::Answer => b"> ",
    }
}

/// Returns what is written before an entry of a file: nothing in a transcript, `> |` in an answer.
fn entry_mark(telling: Telling) -> &'static [u8]
    ensures { result.now ≡ entry_mark telling }
{
    match telling {
        Telling::Transcript => &[],
        Telling::Answer => b"> |",
    }
}

/// Appends the heading of a file: a mark, its kind, its number and the name of its user.
fn append_heading(
    alloc: Global,
    out: &mut Vec<u8>,
    telling: Telling,
    kind: FileKind,
    number: u64,
    name: &[u8],
) -> Result<(), AllocError>
    ensures { OnOk result (out.new.items ≡ out.old.items
        ++ ended (heading_line telling kind number name.now ∷ [])) }
{
    let number = number_text(alloc, number)?;
    out.extend_from_slice(heading_mark(telling))?;
    out.extend_from_slice(b"== ")?;
    out.extend_from_slice(kind_word(kind))?;
    out.push(b' ')?;
    out.extend_from_slice(number.as_bytes())?;
    out.push(b' ')?;
    out.extend_from_slice(name)?;
    out.push(b'\n')?;
    Ok(())
}

/// Returns the word for a file of this kind: `PRT` or `PUN`, and no letter for a deck.
fn kind_word(kind: FileKind) -> &'static [u8]
    ensures { result.now ≡ kind_word kind }
{
    match kind {
        FileKind::Printer(_) => b"PRT",
        FileKind::Punch(_) => b"PUN",
        FileKind::Deck => &[],
    }
}

/// Appends a line for each of these entries of a file of this kind.
fn append_entries(
    alloc: Global,
    out: &mut Vec<u8>,
    telling: Telling,
    kind: FileKind,
    entries: &[Entry],
) -> Result<(), AllocError>
    ensures { OnOk result (out.new.items ≡ out.old.items
        ++ ended (map (marked_entry telling kind) entries.now)) }
{
    for entry in entries {
        append_entry(alloc, out, telling, kind, entry)?;
    }
    Ok(())
}

/// Appends the line of an entry; of a printer's file it has the command's code before the bytes.
fn append_entry(
    alloc: Global,
    out: &mut Vec<u8>,
    telling: Telling,
    kind: FileKind,
    entry: &Entry,
) -> Result<(), AllocError>
    ensures { OnOk result (out.new.items ≡ out.old.items
        ++ ended (marked_entry telling kind entry.now ∷ [])) }
{
    out.extend_from_slice(entry_mark(telling))?;
    match kind {
        FileKind::Printer(_) => append_code(alloc, out, entry.code())?,
        FileKind::Punch(_) | FileKind::Deck => {}
    }
    append_printable(out, entry.bytes())?;
    out.push(b'\n')?;
    Ok(())
}

/// Appends the code of a command in two hexadecimal digits, and a blank.
fn append_code(alloc: Global, out: &mut Vec<u8>, code: u8) -> Result<(), AllocError>
    ensures { OnOk result (out.new.items ≡ out.old.items ++ (two_digits code ++ 32 ∷ [])) }
{
    let code = code_text(alloc, code)?;
    out.extend_from_slice(code.as_bytes())?;
    out.push(b' ')?;
    Ok(())
}

/// Returns the code of a command in two hexadecimal digits.
fn code_text(alloc: Global, code: u8) -> Result<String, AllocError>
    ensures { IfOk result (λ text. string_bytes text ≡ two_digits code) }
{
    format!(in alloc; "{code:02X}")
}

/// Returns the number of a file in at least four decimal digits.
fn number_text(alloc: Global, number: u64) -> Result<String, AllocError>
    ensures { IfOk result (λ text. string_bytes text ≡ file_number number) }
{
    format!(in alloc; "{number:04}")
}

/// Appends bytes as the characters that they print as.
fn append_printable(out: &mut Vec<u8>, bytes: &[u8]) -> Result<(), AllocError>
    ensures { OnOk result (out.new.items ≡ out.old.items ++ printed_text bytes.now) }
{
    for byte in bytes {
        out.push(printable(*byte))?;
    }
    Ok(())
}
