//! The texts of responses, and lines of files and messages.
ghost use Rattle.std.specs.Prelude.{◌≡◌, IfOk, string_bytes};
ghost use Rattle.cp_console.specs.Responses.{file_start, file_text, text_of, told_text};

use crate::console_line::MOST_CHARACTERS;
use crate::responses::Response;
use crate::texts::add_text;
use std::alloc::{AllocError, Global};

/// Returns the text of a response in a new vector, without the end of a line.
///
/// # Errors
///
/// `AllocError` if memory is refused.
pub fn reply(alloc: Global, response: &Response) -> Result<Vec<u8>, AllocError>
    ensures { IfOk result (λ text. text.items ≡ text_of response.now) }
{
    let mut text = Vec::new(alloc);
    text.reserve(MOST_CHARACTERS)?;
    add_text(&mut text, response);
    Ok(text)
}

/// Returns the line that reports a file, with its number, its sender and its number of cards, in a
/// new vector.
///
/// ```text
/// let line = file_line(alloc, 1, b"A", 3)?; // b"FILE 0001 FROM A CARDS 3"
/// ```
///
/// # Errors
///
/// `AllocError` if memory is refused.
pub fn file_line(
    alloc: Global,
    file: u64,
    sender: &[u8],
    cards: usize,
) -> Result<Vec<u8>, AllocError>
    ensures { IfOk result (λ line. line.items ≡ file_text file sender.now cards) }
{
    let mut line = file_start(alloc, file)?.into_bytes();
    line.extend_from_slice(sender)?;
    let count = format!(in alloc; " CARDS {cards}")?;
    line.extend_from_slice(count.as_bytes())?;
    Ok(line)
}

/// Returns the front of a file's line: `FILE`, its number in at least four digits, and `FROM`.
fn file_start(alloc: Global, file: u64) -> Result<String, AllocError>
    ensures { IfOk result (λ text. string_bytes text ≡ file_start file) }
{
    format!(in alloc; "FILE {file:04} FROM ")
}

/// Returns the line in which a user reads a message, with its sender and its text, in a new vector.
///
/// ```text
/// let line = message_line(alloc, b"A", b"HELLO")?; // b"MSG FROM A: HELLO"
/// ```
///
/// # Errors
///
/// `AllocError` if memory is refused.
pub fn message_line(alloc: Global, sender: &[u8], text: &[u8]) -> Result<Vec<u8>, AllocError>
    ensures { IfOk result (λ line. line.items ≡ told_text sender.now text.now) }
{
    let mut line = b"MSG FROM ".to_vec(alloc)?;
    line.extend_from_slice(sender)?;
    line.extend_from_slice(b": ")?;
    line.extend_from_slice(text)?;
    Ok(line)
}
