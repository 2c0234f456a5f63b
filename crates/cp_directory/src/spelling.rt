//! What a line's words state, whatever is before the line.
ghost use Rattle.std.specs.Prelude.{◌≡◌, ◌∷◌, [], MatchOption, None, min};
ghost use Rattle.std.specs.Option.{option_map};
ghost use Rattle.std.specs.List.{list_all};
ghost use Rattle.text_words.specs.Numbers.{is_digit};
ghost use Rattle.text_words.specs.Words.{words_of};
ghost use Rattle.cp_directory.specs.Sizes.{is_number, kilobytes_of, kilobytes_by, pages_of, number};
ghost use Rattle.cp_directory.specs.Sizes.{storage_of, unit_of};
ghost use Rattle.cp_directory.specs.Statements.{stated_by, the_one, user_of, user_stated};
ghost use Rattle.cp_directory.specs.Statements.{well_formed};
ghost use Rattle.cp_directory.specs.Spelled.{kilobytes, kilobytes_in, stated, stated_result};

use crate::device_spelling::{read_console, read_minidisk, read_spool};
use crate::devices::DeviceKind;
use crate::extent::SpelledExtent;
use crate::faults::LineFault;
use crate::name::{UserName, is_short_word};
use crate::storage::StorageSize;
use s370_num::DevAddr;
use text_words::numbers::is_digit;
use text_words::words::next_word;

/// The letter of a size.
#[derive(Clone, Copy)]
pub enum SizeUnit {
    Kilobyte,
    Megabyte,
}

/// A size as it is spelled: a number of any length, and its unit.
#[derive(Clone, Copy)]
pub struct SpelledSize<'a> {
    pub digits: &'a [u8],
    pub unit: SizeUnit,
}

/// What a line states.
#[derive(Drop)]
pub enum Statement<'a> {
    /// A user of this name, with storage of this size.
    User(UserName, SpelledSize<'a>),
    /// A device of this kind at this address.
    Device(DeviceKind, DevAddr),
    /// A minidisk at this address, of this extent.
    Minidisk(DevAddr, SpelledExtent),
}

/// Returns the statement that begins with this word and has these operands, or its fault: an
/// unknown word or malformed operands.
///
/// # Errors
///
/// A `LineFault`: the first fault of the statement.
pub fn read_statement<'a>(verb: &[u8], operands: &'a [u8]) -> Result<Statement<'a>, LineFault>
    ensures { stated_result result ≡ stated_by verb.now (words_of operands.now) }
{
    if verb == b"USER".as_slice() {
        well_formed(read_user(operands))
    } else if verb == b"CONSOLE".as_slice() {
        well_formed(read_console(operands))
    } else if verb == b"SPOOL".as_slice() {
        well_formed(read_spool(operands))
    } else if verb == b"MDISK".as_slice() {
        well_formed(read_minidisk(operands))
    } else {
        Err(LineFault::UnknownStatement)
    }
}

/// Returns the statement, or a fault of syntax if there is none.
fn well_formed(statement: Option<Statement<'_>>) -> Result<Statement<'_>, LineFault>
    ensures { stated_result result ≡ well_formed (option_map stated statement.entry) }
{
    match statement {
        Some(statement) => Ok(statement),
        None => Err(LineFault::Syntax),
    }
}

/// Returns what `USER name password storage` states, of which these are the operands; None if
/// malformed.
fn read_user(operands: &[u8]) -> Option<Statement<'_>>
    ensures { option_map stated result ≡ user_stated (words_of operands.now) }
{
    let (name, rest) = next_word(operands)?;
    let (password, rest) = next_word(rest)?;
    let size = last_word(rest)?;
    user_of(name, password, size)
}

/// Returns the word that a text has; None if it has none, or more than one.
pub fn last_word(text: &[u8]) -> Option<&[u8]>
    ensures { MatchOption result (the_one (words_of text.now) ≡ None)
        (λ word. words_of text.now ≡ word.now ∷ []) }
{
    let (word, rest) = next_word(text)?;
    match next_word(rest) {
        Some(_) => None,
        None => Some(word),
    }
}

/// Returns the statement of a user of this name and size, which leaves out the password after
/// checking it; None if a word is malformed.
fn user_of<'a>(name: &[u8], password: &[u8], size: &'a [u8]) -> Option<Statement<'a>>
    ensures { option_map stated result ≡ user_of name.now password.now size.now }
{
    let name = UserName::new(name)?;
    if !is_short_word(password) {
        return None;
    }
    let size = read_size(size)?;
    Some(Statement::User(name, size))
}

/// Returns the number and the unit that a word such as `4M` spells; None if it is malformed.
fn read_size(word: &[u8]) -> Option<SpelledSize<'_>>
    ensures { option_map kilobytes result ≡ kilobytes_of word.now }
{
    match word {
        [digits @ .., letter] => size_by(digits, *letter),
        [] => None,
    }
}

/// Returns the size of these digits and this letter; None if it is not a number and a unit.
fn size_by(digits: &[u8], letter: u8) -> Option<SpelledSize<'_>>
    ensures { option_map kilobytes result ≡ kilobytes_by digits.now letter }
{
    if !is_number(digits) {
        return None;
    }
    let unit = unit_of(letter)?;
    Some(SpelledSize { digits, unit })
}

/// Returns the unit that a letter names: `K` is kilobytes, `M` megabytes; None of another letter.
fn unit_of(letter: u8) -> Option<SizeUnit>
    ensures { option_map kilobytes_in result ≡ unit_of letter }
{
    match letter {
        b'K' => Some(SizeUnit::Kilobyte),
        b'M' => Some(SizeUnit::Megabyte),
        _ => None,
    }
}

/// Returns whether these are one or more digits, of which the first is not `0`.
fn is_number(digits: &[u8]) -> bool
    ensures { result ≡ is_number digits.now }
{
    match digits {
        [] => false,
        [first, ..] => *first != b'0' && all_digits(digits),
    }
}

/// Returns whether each byte is a digit.
fn all_digits(digits: &[u8]) -> bool
    ensures { result ≡ list_all is_digit digits.now }
{
    digits.iter().all(|c| is_digit(*c))
}

/// Returns the size of storage that a word such as `8K` spells; None if it is malformed, or no user
/// may have that size.
///
/// `storage_of(b"8K")` is a storage of two pages; `8k` and `6K` are none.
pub fn storage_of(word: &[u8]) -> Option<StorageSize>
    ensures { result ≡ storage_of word.now }
{
    size_of(read_size(word)?)
}

/// Returns the size of storage that is spelled; None if no user may have it.
pub fn size_of(spelled: SpelledSize<'_>) -> Option<StorageSize>
    ensures { result ≡ pages_of (kilobytes spelled.entry) }
{
    let number = capped_number(spelled.digits);
    match spelled.unit {
        SizeUnit::Kilobyte => StorageSize::from_kilobytes(number),
        SizeUnit::Megabyte => StorageSize::from_kilobytes(number * 1024),
    }
}

/// Returns the number that digits spell, or 9999 if it is more.
fn capped_number(digits: &[u8]) -> u32
    ensures { result ≡ min 9999 (number 0 digits.now) }
{
    let mut number = 0;
    for digit in digits {
        let value = u32::from(digit.saturating_sub(b'0'));
        number = (number * 10 + value).min(9999);
    }
    number
}
