//! The commands, and how their texts are read.
ghost use Rattle.std.specs.Prelude.{◌≡◌};
ghost use Rattle.cp_console.specs.Commands.{begin_of, change_of, command_named, command_of};
ghost use Rattle.cp_console.specs.Commands.{display_of, external_of, logoff_of, logon_of};
ghost use Rattle.cp_console.specs.Commands.{numbered_place, place_of, store_of, system_of};
ghost use Rattle.cp_console.specs.DeviceCommands.{message_text};
ghost use Rattle.cp_console.specs.Grammar.{ReadsGrammar};
ghost use Rattle.text_words.specs.Words.{words_of};

use crate::device_commands::{DeviceCommand, read_device_named};
use crate::operands::{StoredBytes, address_of, bytes_of, contents_of, register_of};
use crate::reading::{ended, operand};
use s370_num::{Addr24, DevAddr, Register, Word};
use text_words::words::next_word;
use thiserror::Error;

/// What of a machine is displayed or changed.
#[derive(Clone, Copy, Debug, PartialEq, Eq)]
pub enum DisplayItem {
    /// The PSW.
    Psw,
    /// A general register.
    General(Register),
    /// A control register, which is only displayed.
    Control(Register),
    /// The key of the block of storage in which an address lies, which is only displayed.
    Key(Addr24),
    /// Storage at an address.
    Storage(Addr24),
}

/// What a place is given.
#[derive(Clone, Copy, Debug, PartialEq, Eq)]
pub enum Change {
    /// The 64 bits of the PSW.
    Psw(u64),
    /// The contents of a general register.
    General(Register, Word),
    /// Bytes of storage from an address on.
    Storage(Addr24, StoredBytes),
}

/// A command of the operator of a machine.
#[derive(Debug, PartialEq, Eq, Drop)]
pub enum Command<'a> {
    /// A text without a word, which does nothing.
    Nothing,
    /// `LOGON`.
    Logon,
    /// `LOGOFF`.
    Logoff,
    /// `BEGIN`: the machine runs, at an address where one is given.
    Begin(Option<Addr24>),
    /// `SYSTEM RESET`.
    SystemReset,
    /// `EXTERNAL`: the interrupt key is pressed.
    External,
    /// `DISPLAY`.
    Display(DisplayItem),
    /// `STORE`.
    Store(Change),
    /// `IPL`: the machine is loaded from the device of this address.
    Ipl(DevAddr),
    /// A command that concerns devices' files or other users.
    Device(DeviceCommand<'a>),
}

/// Why a text is no command.
#[derive(Clone, Copy, Debug, PartialEq, Eq, Drop, Error)]
pub enum CommandError {
    /// No memory was left. No command takes any so far.
    #[error("no memory is left")]
    Memory,
    /// The first word is no command.
    #[error("this command does not exist")]
    Unknown,
    /// The first word that is wrong, missing or surplus, counted from 1 after the command's name.
    #[error("operand {0} is wrong, missing or surplus")]
    Operand(u64),
}

/// Returns the command that a text spells, or the error: an unknown command, or its first bad
/// operand.
///
/// A text of blanks is the command `Nothing`.
///
/// # Errors
///
/// A `CommandError`: an unknown command, or its first wrong, missing or surplus operand.
pub fn read_command(text: &[u8]) -> Result<Command<'_>, CommandError>
    ensures { result ≡ command_of text.now }
{
    let Some((name, operands)) = next_word(text) else {
        return Ok(Command::Nothing);
    };
    read_named(name, operands)
}

/// Proves that a text is read as the command that its words spell, or else reported by its first
/// bad word; it has no effect.
///
/// It is the first word if no command has it, or else the first word at which no command goes on.
pub fn reads_grammar()
    ensures { ReadsGrammar }
{}

/// Returns the command with this name and these operands, or the error of an unknown name or bad
/// operand.
fn read_named<'a>(name: &[u8], operands: &'a [u8]) -> Result<Command<'a>, CommandError>
    ensures { result ≡ command_named name.now (words_of operands.now) (message_text operands.now) }
{
    if name == b"LOGON".as_slice() {
        ended(1, Command::Logon, operands)
    } else if name == b"LOGOFF".as_slice() {
        ended(1, Command::Logoff, operands)
    } else if name == b"BEGIN".as_slice() {
        read_begin(operands)
    } else if name == b"SYSTEM".as_slice() {
        read_system(operands)
    } else if name == b"EXTERNAL".as_slice() {
        ended(1, Command::External, operands)
    } else if name == b"DISPLAY".as_slice() {
        read_display(operands)
    } else if name == b"STORE".as_slice() {
        read_store(operands)
    } else {
        read_device_named(name, operands)
    }
}

/// Returns the command `BEGIN`, with the address that the operands may name, or the first bad
/// operand.
fn read_begin(operands: &[u8]) -> Result<Command<'_>, CommandError>
    ensures { result ≡ begin_of (words_of operands.now) }
{
    let Some((word, rest)) = next_word(operands) else {
        return Ok(Command::Begin(None));
    };
    let address = address_of(word).ok_or(CommandError::Operand(1))?;
    ended(2, Command::Begin(Some(address)), rest)
}

/// Returns the command `SYSTEM RESET`, or its first bad operand.
fn read_system(operands: &[u8]) -> Result<Command<'_>, CommandError>
    ensures { result ≡ system_of (words_of operands.now) }
{
    let (word, rest) = operand(1, operands)?;
    if word != b"RESET".as_slice() {
        return Err(CommandError::Operand(1));
    }
    ended(2, Command::SystemReset, rest)
}

/// Returns the command `DISPLAY` of the item that the operand names, or its first bad operand.
fn read_display(operands: &[u8]) -> Result<Command<'_>, CommandError>
    ensures { result ≡ display_of (words_of operands.now) }
{
    let (word, rest) = operand(1, operands)?;
    let place = place_of(word).ok_or(CommandError::Operand(1))?;
    ended(2, Command::Display(place), rest)
}

/// Returns the command `STORE` of an item and its new contents, or its first bad operand, such as a
/// control register or a key.
///
/// Control registers and keys cannot be stored.
fn read_store(operands: &[u8]) -> Result<Command<'_>, CommandError>
    ensures { result ≡ store_of (words_of operands.now) }
{
    let (word, rest) = operand(1, operands)?;
    let place = place_of(word).ok_or(CommandError::Operand(1))?;
    match place {
        DisplayItem::Psw => read_psw(rest),
        DisplayItem::General(register) => read_general(register, rest),
        DisplayItem::Control(_) | DisplayItem::Key(_) => Err(CommandError::Operand(1)),
        DisplayItem::Storage(address) => read_storage(address, rest),
    }
}

/// Returns the command `STORE PSW` with the two words of the new PSW, or its first bad operand.
fn read_psw(operands: &[u8]) -> Result<Command<'_>, CommandError>
    ensures { result ≡ change_of DisplayItem.Psw (words_of operands.now) }
{
    let (word, rest) = operand(2, operands)?;
    let left = contents_of(word).ok_or(CommandError::Operand(2))?;
    let (word, rest) = operand(3, rest)?;
    let right = contents_of(word).ok_or(CommandError::Operand(3))?;
    let psw = u64::from(left.unsigned()) * 0x1_0000_0000 + u64::from(right.unsigned());
    ended(4, Command::Store(Change::Psw(psw)), rest)
}

/// Returns the command `STORE` of a general register and its new contents, or its first bad
/// operand.
fn read_general(register: Register, operands: &[u8]) -> Result<Command<'_>, CommandError>
    ensures { result ≡ change_of (DisplayItem.General register) (words_of operands.now) }
{
    let (word, rest) = operand(2, operands)?;
    let contents = contents_of(word).ok_or(CommandError::Operand(2))?;
    ended(3, Command::Store(Change::General(register, contents)), rest)
}

/// Returns the command `STORE` of bytes from an address on, or its first bad operand.
fn read_storage(address: Addr24, operands: &[u8]) -> Result<Command<'_>, CommandError>
    ensures { result ≡ change_of (DisplayItem.Storage address) (words_of operands.now) }
{
    let (word, rest) = operand(2, operands)?;
    let bytes = bytes_of(word).ok_or(CommandError::Operand(2))?;
    ended(3, Command::Store(Change::Storage(address, bytes)), rest)
}

/// Returns the item that a word names, `PSW`, a register, a key or storage, or `None` if it names
/// none.
fn place_of(word: &[u8]) -> Option<DisplayItem>
    ensures { result ≡ place_of word.now }
{
    if word == b"PSW".as_slice() {
        return Some(DisplayItem::Psw);
    }
    match word {
        [b'G', number @ ..] => Some(DisplayItem::General(register_of(number)?)),
        [b'X', number @ ..] => Some(DisplayItem::Control(register_of(number)?)),
        [b'K', address @ ..] => Some(DisplayItem::Key(address_of(address)?)),
        _ => Some(DisplayItem::Storage(address_of(word)?)),
    }
}
