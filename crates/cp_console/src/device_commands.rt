//! The commands that concern the devices of a machine, their files and other users.
ghost use Rattle.std.specs.Prelude.{◌≡◌};
ghost use Rattle.cp_console.specs.DeviceCommands.{close_of, device_command_named, ipl_of};
ghost use Rattle.cp_console.specs.DeviceCommands.{message_of, message_text, purge_of, query_of};
ghost use Rattle.cp_console.specs.DeviceCommands.{spool_of};
ghost use Rattle.text_words.specs.Words.{words_of};

use crate::commands::{Command, CommandError};
use crate::line_part::LinePart;
use crate::operands::{device_of, file_of};
use crate::reading::{ended, operand};
use s370_num::DevAddr;
use text_words::words::unindented;

/// A command that no machine obeys by itself: it concerns devices' files or other users.
#[derive(Debug, PartialEq, Eq, Drop)]
pub enum DeviceCommand<'a> {
    /// `QUERY FILES`.
    QueryFiles,
    /// `QUERY USERS`.
    QueryUsers,
    /// `SPOOL`: the files of the punch at this address go to the user of this name.
    Spool(DevAddr, LinePart<'a>),
    /// `CLOSE`: the open file of the device at this address is closed.
    Close(DevAddr),
    /// `PURGE`: the file of this number is dropped.
    Purge(u64),
    /// `MSG`: the user of this name is given this text.
    Message(LinePart<'a>, LinePart<'a>),
}

/// Returns the command `IPL`, `QUERY`, `SPOOL`, `CLOSE`, `PURGE` or `MSG`, or the error of another
/// name or a bad operand.
pub(crate) fn read_device_named<'a>(
    name: &[u8],
    operands: &'a [u8],
) -> Result<Command<'a>, CommandError>
    ensures { result ≡ device_command_named name.now (words_of operands.now)
        (message_text operands.now) }
{
    if name == b"IPL".as_slice() {
        read_ipl(operands)
    } else if name == b"QUERY".as_slice() {
        read_query(operands)
    } else if name == b"SPOOL".as_slice() {
        read_spool(operands)
    } else if name == b"CLOSE".as_slice() {
        read_close(operands)
    } else if name == b"PURGE".as_slice() {
        read_purge(operands)
    } else if name == b"MSG".as_slice() {
        read_message(operands)
    } else {
        Err(CommandError::Unknown)
    }
}

/// Returns the command `IPL` of a device, or its first bad operand.
fn read_ipl(operands: &[u8]) -> Result<Command<'_>, CommandError>
    ensures { result ≡ ipl_of (words_of operands.now) }
{
    let (word, rest) = operand(1, operands)?;
    let device = device_of(word).ok_or(CommandError::Operand(1))?;
    ended(2, Command::Ipl(device), rest)
}

/// Returns the command `QUERY FILES` or `QUERY USERS`, or its first bad operand.
fn read_query(operands: &[u8]) -> Result<Command<'_>, CommandError>
    ensures { result ≡ query_of (words_of operands.now) }
{
    let (word, rest) = operand(1, operands)?;
    if word == b"FILES".as_slice() {
        ended(2, Command::Device(DeviceCommand::QueryFiles), rest)
    } else if word == b"USERS".as_slice() {
        ended(2, Command::Device(DeviceCommand::QueryUsers), rest)
    } else {
        Err(CommandError::Operand(1))
    }
}

/// Returns the command `SPOOL device TO name`, or its first bad operand.
fn read_spool(operands: &[u8]) -> Result<Command<'_>, CommandError>
    ensures { result ≡ spool_of (words_of operands.now) }
{
    let (word, rest) = operand(1, operands)?;
    let device = device_of(word).ok_or(CommandError::Operand(1))?;
    let (word, rest) = operand(2, rest)?;
    if word != b"TO".as_slice() {
        return Err(CommandError::Operand(2));
    }
    let (name, rest) = operand(3, rest)?;
    let spool = DeviceCommand::Spool(device, LinePart::new(name));
    ended(4, Command::Device(spool), rest)
}

/// Returns the command `CLOSE` of a device, or its first bad operand.
fn read_close(operands: &[u8]) -> Result<Command<'_>, CommandError>
    ensures { result ≡ close_of (words_of operands.now) }
{
    let (word, rest) = operand(1, operands)?;
    let device = device_of(word).ok_or(CommandError::Operand(1))?;
    ended(2, Command::Device(DeviceCommand::Close(device)), rest)
}

/// Returns the command `PURGE` of a file's number, or its first bad operand.
fn read_purge(operands: &[u8]) -> Result<Command<'_>, CommandError>
    ensures { result ≡ purge_of (words_of operands.now) }
{
    let (word, rest) = operand(1, operands)?;
    let file = file_of(word).ok_or(CommandError::Operand(1))?;
    ended(2, Command::Device(DeviceCommand::Purge(file)), rest)
}

/// Returns the command `MSG` with a name and the rest of the line as its text, or its first missing
/// operand.
fn read_message(operands: &[u8]) -> Result<Command<'_>, CommandError>
    ensures { result ≡ message_of (words_of operands.now) (message_text operands.now) }
{
    let (name, rest) = operand(1, operands)?;
    let _ = operand(2, rest)?;
    let text = LinePart::new(unindented(rest));
    let message = DeviceCommand::Message(LinePart::new(name), text);
    Ok(Command::Device(message))
}
