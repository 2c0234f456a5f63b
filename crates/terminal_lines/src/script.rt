//! A typed line as it is in the script.
ghost use Rattle.std.specs.Prelude.{◌≡◌, ◌≤◌, IfOk, codes, length};
ghost use Rattle.text_words.specs.Words.{after_first_word};
ghost use Rattle.terminal_lines.specs.Script.{asks_cp, begins_with, command_of, message_of};
ghost use Rattle.terminal_lines.specs.Script.{script_line};

use crate::bytes::Bytes;
use crate::words::in_capitals;
use std::alloc::{AllocError, Global};
use text_words::words::{cut_word, unindented};

/// Returns a copy of a line with its command in capitals, if it is for the control program; the
/// text of a message stays as it is.
///
/// # Errors
///
/// `AllocError` if memory is refused.
pub fn script_line(alloc: Global, is_running: bool, line: &[u8]) -> Result<Bytes, AllocError>
    ensures { IfOk result (λ copy. copy ≡ script_line is_running line.now) }
{
    if is_running && !begins_with(alloc, line, b"#CP")? {
        return Bytes::of(alloc, line);
    }
    let message = message_of(alloc, line)?;
    let mut script = in_capitals(alloc, &line[..line.len().saturating_sub(message.len())])?;
    script.extend(message)?;
    Ok(script)
}

/// Returns whether the first word of a line, in small letters or capitals, is this one of capitals.
fn begins_with(alloc: Global, line: &[u8], word: &[u8]) -> Result<bool, AllocError>
    ensures { IfOk result (λ begins. begins ≡ begins_with word.now line.now) }
{
    let (first, _) = cut_word(unindented(line));
    let first = in_capitals(alloc, first)?;
    Ok(first.as_slice() == word)
}

/// Returns the line without a first word `#CP`, if it has that.
fn command_of(alloc: Global, line: &[u8]) -> Result<&[u8], AllocError>
    ensures { IfOk result (λ command. command.now ≡ command_of line.now) }
{
    if begins_with(alloc, line, b"#CP")? {
        Ok(after_first_word(line))
    } else {
        Ok(line)
    }
}

/// Returns the text of a MSG command, which may follow `#CP`, or an empty slice for any other line.
fn message_of(alloc: Global, line: &[u8]) -> Result<&[u8], AllocError>
    ensures { IfOk result (λ message. message.now ≡ message_of line.now) }
{
    let command = command_of(alloc, line)?;
    if begins_with(alloc, command, b"MSG")? {
        Ok(after_first_word(after_first_word(command)))
    } else {
        Ok(&[])
    }
}

/// Returns what follows the first word of a line, or nothing.
fn after_first_word(line: &[u8]) -> &[u8]
    ensures { result.now ≡ after_first_word line.now }
{
    let (_, rest) = cut_word(unindented(line));
    match rest {
        Some(rest) => rest,
        None => &[],
    }
}
