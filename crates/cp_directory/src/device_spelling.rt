//! What the words of a device's statement state.
ghost use Rattle.std.specs.Prelude.{◌≡◌};
ghost use Rattle.std.specs.Option.{option_map};
ghost use Rattle.text_words.specs.Words.{words_of};
ghost use Rattle.cp_directory.specs.Statements.{address_of, console_of, console_stated, disk_of};
ghost use Rattle.cp_directory.specs.Statements.{disk_stated};
ghost use Rattle.cp_directory.specs.Statements.{extent_spelled, low_address, spool_kind_of};
ghost use Rattle.cp_directory.specs.Statements.{spool_of, spool_stated};
ghost use Rattle.cp_directory.specs.Spelled.{stated};

use crate::devices::DeviceKind;
use crate::extent::{DiskMode, SpelledExtent, Volser};
use crate::spelling::{Statement, last_word};
use s370_num::DevAddr;
use text_words::numbers::{decimal_of, hexadecimal_of};
use text_words::words::next_word;

/// The highest address of a device.
const HIGHEST_ADDRESS: u32 = 0x5FF;

/// Returns what `CONSOLE address 3215` states, of which these are the operands; None if malformed.
pub fn read_console(operands: &[u8]) -> Option<Statement<'_>>
    ensures { option_map stated result ≡ console_stated (words_of operands.now) }
{
    let (address, rest) = next_word(operands)?;
    let model = last_word(rest)?;
    console_of(address, model)
}

/// Returns the statement of a console at this address; None if the address or the model is
/// malformed.
fn console_of<'a>(address: &'a [u8], model: &[u8]) -> Option<Statement<'a>>
    ensures { option_map stated result ≡ console_of address.now model.now }
{
    if model != b"3215".as_slice() {
        return None;
    }
    Some(Statement::Device(DeviceKind::Console, address_of(address)?))
}

/// Returns what `SPOOL address kind` states, of which these are the operands; None if malformed.
pub fn read_spool(operands: &[u8]) -> Option<Statement<'_>>
    ensures { option_map stated result ≡ spool_stated (words_of operands.now) }
{
    let (address, rest) = next_word(operands)?;
    let kind = last_word(rest)?;
    spool_of(address, kind)
}

/// Returns the statement of a device of this kind at this address; None if one of them is
/// malformed.
fn spool_of<'a>(address: &'a [u8], kind: &[u8]) -> Option<Statement<'a>>
    ensures { option_map stated result ≡ spool_of address.now kind.now }
{
    let address = address_of(address)?;
    let kind = spool_kind_of(kind)?;
    Some(Statement::Device(kind, address))
}

/// Returns the kind of device that a word names: `READER`, `PUNCH` or `PRINTER`; None of another
/// word.
fn spool_kind_of(word: &[u8]) -> Option<DeviceKind>
    ensures { result ≡ spool_kind_of word.now }
{
    if word == b"READER".as_slice() {
        Some(DeviceKind::Reader)
    } else if word == b"PUNCH".as_slice() {
        Some(DeviceKind::Punch)
    } else if word == b"PRINTER".as_slice() {
        Some(DeviceKind::Printer)
    } else {
        None
    }
}

/// Returns what `MDISK address 3330 start count volser mode` states, of which these are the
/// operands; None if malformed.
pub fn read_minidisk(operands: &[u8]) -> Option<Statement<'_>>
    ensures { option_map stated result ≡ disk_stated (words_of operands.now) }
{
    let (address, rest) = next_word(operands)?;
    let (model, rest) = next_word(rest)?;
    let (start, rest) = next_word(rest)?;
    let (count, rest) = next_word(rest)?;
    let (volser, rest) = next_word(rest)?;
    let mode = last_word(rest)?;
    disk_of(address, model, extent_spelled(start, count, volser, mode))
}

/// Returns the statement of a minidisk at this address with this extent; None if there is no
/// extent, the address is malformed or above 5FF, or the model is not 3330.
fn disk_of<'a>(
    address: &'a [u8],
    model: &[u8],
    extent: Option<SpelledExtent>,
) -> Option<Statement<'a>>
    ensures { option_map stated result ≡ disk_of address.now model.now extent }
{
    if model != b"3330".as_slice() {
        return None;
    }
    let address = address_of(address)?;
    let extent = extent?;
    Some(Statement::Minidisk(address, extent))
}

/// Returns the extent that these words spell, which a volume need not be able to have; None if one
/// of them is malformed.
fn extent_spelled(start: &[u8], count: &[u8], volser: &[u8], mode: &[u8]) -> Option<SpelledExtent>
    ensures { result ≡ extent_spelled start.now count.now volser.now mode.now }
{
    let volser = Volser::new(volser)?;
    let start = decimal_of(4, start)?;
    let count = decimal_of(4, count)?;
    let mode = DiskMode::new(mode)?;
    Some(SpelledExtent {
        volser,
        start,
        count,
        mode,
    })
}

/// Returns the address that three hexadecimal digits, with letters in upper case, spell; None if
/// malformed or above 5FF.
fn address_of(word: &[u8]) -> Option<DevAddr>
    ensures { result ≡ address_of word.now }
{
    low_address(hexadecimal_of(3, 3, word)?)
}

/// Returns this number as the address of a device; None if it is above 5FF.
fn low_address(address: u32) -> Option<DevAddr>
    ensures { result ≡ low_address address }
{
    if address > HIGHEST_ADDRESS {
        return None;
    }
    Some(DevAddr::new(address as u16))
}
