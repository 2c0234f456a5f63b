//! The texts of responses, added to a text that has room for them: this takes no memory.
ghost use Rattle.std.specs.Prelude.{◌≡◌, ◌+◌, ◌*◌, ◌/◌, ◌<◌, ◌≤◌, ◌++◌, ◌^◌, decimal, length};
ghost use Rattle.std.specs.Prelude.{vec_capacity, vec_len};
ghost use Rattle.s370_num.specs.Address.{address_text, digit_of, two_digits, word_text};
ghost use Rattle.cp_console.specs.Responses.{closed_text, control_text, general_text, key_text};
ghost use Rattle.cp_console.specs.Responses.{psw_text, storage_text, text_of, word_at};

use crate::responses::Response;
use byteorder::{BigEndian, ByteOrder};
use itoa::Buffer;
use s370_num::{Addr24, Register, StorageKey, Word};

/// Appends the text of a response, at most 144 characters, to `text`, which has room for it.
pub(crate) fn add_text(text: &mut Vec<u8>, response: &Response)
    requires { vec_len text.old + 144 ≤ vec_capacity text.old }
    ensures items { text.new.items ≡ text.old.items ++ text_of response.now }
    ensures short { vec_len text.new ≤ vec_len text.old + 144 }
    ensures room { vec_capacity text.old ≤ vec_capacity text.new }
{
    match response {
        Response::LogonOk => add(text, b"LOGON OK"),
        Response::LogoffOk => add(text, b"LOGOFF OK"),
        Response::AlreadyLoggedOn => add(text, b"ALREADY LOGGED ON"),
        Response::NotLoggedOn => add(text, b"NOT LOGGED ON"),
        Response::SystemReset => add(text, b"SYSTEM RESET"),
        Response::Psw(psw) => add_psw(text, *psw),
        Response::General(register, contents) => add_general(text, *register, *contents),
        Response::Control(register, contents) => add_control(text, *register, *contents),
        Response::Key(address, key) => add_key(text, *address, *key),
        Response::Storage(address, bytes) => add_storage(text, *address, bytes),
        Response::Stored => add(text, b"STORED"),
        Response::AddressPastStorage => add(text, b"ADDRESS PAST STORAGE"),
        Response::UnknownCommand => add(text, b"UNKNOWN COMMAND"),
        Response::BadOperand(place) => add_counted(text, b"BAD OPERAND ", *place),
        Response::NoConsole => add(text, b"NO CONSOLE"),
        Response::DeviceNotFound => add(text, b"DEVICE NOT FOUND"),
        Response::UserNotFound => add(text, b"USER NOT FOUND"),
        Response::UserNotLoggedOn => add(text, b"USER NOT LOGGED ON"),
        Response::Spooled => add(text, b"SPOOLED"),
        Response::NoFile => add(text, b"NO FILE"),
        Response::FileClosed(file) => add_closed(text, *file),
        Response::NoFiles => add(text, b"NO FILES"),
        Response::Users(users) => add_counted(text, b"USERS ", *users),
        Response::Purged => add(text, b"PURGED"),
        Response::FileNotFound => add(text, b"FILE NOT FOUND"),
        Response::Sent => add(text, b"SENT"),
        Response::IplFailed => add(text, b"IPL FAILED"),
        Response::LineLost => add(text, b"LINE LOST"),
        Response::StoppedDisabledWait => add(text, b"STOPPED DISABLED WAIT"),
        Response::StoppedEcMode => add(text, b"STOPPED EC MODE"),
        Response::Written(line) => add(text, line.as_slice()),
    }
}

/// Appends bytes to `text`, which has room for them.
fn add(text: &mut Vec<u8>, bytes: &[u8])
    requires { vec_len text.old + length bytes.now ≤ vec_capacity text.old }
    ensures items { text.new.items ≡ text.old.items ++ bytes.now }
    ensures len { vec_len text.new ≡ vec_len text.old + length bytes.now }
    ensures room { vec_capacity text.old ≤ vec_capacity text.new }
{
    match text.extend_from_slice(bytes) {
        Ok(()) => {}
        // There is room.
        Err(_) => unreachable!(),
    }
}

/// Appends a text and then a number in decimal to `text`, which has room for them.
fn add_counted(text: &mut Vec<u8>, word: &[u8], number: u64)
    requires { vec_len text.old + (length word.now + 20) ≤ vec_capacity text.old }
    ensures items { text.new.items ≡ text.old.items ++ (word.now ++ decimal number) }
    ensures short { vec_len text.new ≤ vec_len text.old + (length word.now + 20) }
    ensures room { vec_capacity text.old ≤ vec_capacity text.new }
{
    let mut digits = Buffer::new();
    add(text, word);
    add(text, digits.format(number).as_bytes());
}

/// Appends `PSW` and its two words in hexadecimal to `text`, which has room for them.
#[tactic(auto, using(crate::proofs::Joined::four))]
fn add_psw(text: &mut Vec<u8>, psw: u64)
    requires { vec_len text.old + 21 ≤ vec_capacity text.old }
    ensures items { text.new.items ≡ text.old.items ++ psw_text psw }
    ensures len { vec_len text.new ≡ vec_len text.old + 21 }
    ensures room { vec_capacity text.old ≤ vec_capacity text.new }
{
    add(text, b"PSW ");
    add_word(text, (psw / 0x1_0000_0000) as u32);
    add(text, b" ");
    add_word(text, (psw % 0x1_0000_0000) as u32);
}

/// Appends `GPR`, a general register's number and its contents to `text`, which has room for them.
fn add_general(text: &mut Vec<u8>, register: Register, contents: Word)
    requires { vec_len text.old + 35 ≤ vec_capacity text.old }
    ensures items { text.new.items ≡ text.old.items ++ general_text register contents }
    ensures short { vec_len text.new ≤ vec_len text.old + 35 }
    ensures room { vec_capacity text.old ≤ vec_capacity text.new }
{
    add_counted(text, b"GPR ", u64::from(register.number()));
    add(text, b" = ");
    add_word(text, contents.unsigned());
}

/// Appends `CR`, a control register's number and its contents to `text`, which has room for them.
fn add_control(text: &mut Vec<u8>, register: Register, contents: Word)
    requires { vec_len text.old + 34 ≤ vec_capacity text.old }
    ensures items { text.new.items ≡ text.old.items ++ control_text register contents }
    ensures short { vec_len text.new ≤ vec_len text.old + 34 }
    ensures room { vec_capacity text.old ≤ vec_capacity text.new }
{
    add_counted(text, b"CR ", u64::from(register.number()));
    add(text, b" = ");
    add_word(text, contents.unsigned());
}

/// Appends `KEY`, the address of the block around `address`, and its key to `text`, which has room
/// for them.
fn add_key(text: &mut Vec<u8>, address: Addr24, key: StorageKey)
    requires { vec_len text.old + 15 ≤ vec_capacity text.old }
    ensures items { text.new.items ≡ text.old.items ++ key_text address key }
    ensures len { vec_len text.new ≡ vec_len text.old + 15 }
    ensures room { vec_capacity text.old ≤ vec_capacity text.new }
{
    add(text, b"KEY ");
    add_address(text, address.get() / 2048 * 2048);
    add(text, b" = ");
    add(text, &byte_digits(key.get() * 8));
}

/// Appends the multiple of 16 at or below `address`, and four words, to `text`, which has room for
/// them.
fn add_storage(text: &mut Vec<u8>, address: Addr24, bytes: &[u8; 16])
    requires { vec_len text.old + 42 ≤ vec_capacity text.old }
    ensures items { text.new.items ≡ text.old.items ++ storage_text address bytes.now }
    ensures len { vec_len text.new ≡ vec_len text.old + 42 }
    ensures room { vec_capacity text.old ≤ vec_capacity text.new }
{
    add_address(text, address.get() / 16 * 16);
    add(text, b" ");
    add_word(text, word_at(bytes, 0));
    add(text, b" ");
    add_word(text, word_at(bytes, 4));
    add(text, b" ");
    add_word(text, word_at(bytes, 8));
    add(text, b" ");
    add_word(text, word_at(bytes, 12));
}

/// Returns the word that four bytes from index `at` on are.
fn word_at(bytes: &[u8; 16], at: usize) -> u32
    requires { at + 4 ≤ 16 }
    ensures { result ≡ word_at bytes.now at }
{
    BigEndian::read_u32(&bytes[at..at + 4])
}

/// Appends `FILE`, a file's number in at least four digits and `CLOSED` to `text`, which has room
/// for them.
fn add_closed(text: &mut Vec<u8>, file: u64)
    requires { vec_len text.old + 36 ≤ vec_capacity text.old }
    ensures items { text.new.items ≡ text.old.items ++ closed_text file }
    ensures short { vec_len text.new ≤ vec_len text.old + 36 }
    ensures room { vec_capacity text.old ≤ vec_capacity text.new }
{
    let mut buffer = Buffer::new();
    let digits = buffer.format(file).as_bytes();
    let zeros = 4usize.saturating_sub(digits.len());
    add(text, b"FILE ");
    add(text, &b"0000"[..zeros]);
    add(text, digits);
    add(text, b" CLOSED");
}

/// Appends the eight hexadecimal digits of a word to `text`, which has room for them.
#[tactic(auto, using(crate::proofs::Joined::four))]
fn add_word(text: &mut Vec<u8>, word: u32)
    requires { vec_len text.old + 8 ≤ vec_capacity text.old }
    ensures items { text.new.items ≡ text.old.items ++ word_text word }
    ensures len { vec_len text.new ≡ vec_len text.old + 8 }
    ensures room { vec_capacity text.old ≤ vec_capacity text.new }
{
    add(text, &byte_digits((word / 0x100_0000) as u8));
    add(text, &byte_digits((word / 0x1_0000 % 0x100) as u8));
    add(text, &byte_digits((word / 0x100 % 0x100) as u8));
    add(text, &byte_digits((word % 0x100) as u8));
}

/// Appends the six hexadecimal digits of an address to `text`, which has room for them.
#[tactic(auto, using(crate::proofs::Joined::three))]
fn add_address(text: &mut Vec<u8>, address: u32)
    requires small { address < 2 ^ 24 }
    requires fits { vec_len text.old + 6 ≤ vec_capacity text.old }
    ensures items { text.new.items ≡ text.old.items ++ address_text address }
    ensures len { vec_len text.new ≡ vec_len text.old + 6 }
    ensures room { vec_capacity text.old ≤ vec_capacity text.new }
{
    add(text, &byte_digits((address / 0x1_0000) as u8));
    add(text, &byte_digits((address / 0x100 % 0x100) as u8));
    add(text, &byte_digits((address % 0x100) as u8));
}

/// Returns the two hexadecimal digits of a byte.
fn byte_digits(byte: u8) -> [u8; 2]
    ensures { result ≡ two_digits byte }
{
    [digit(byte / 16), digit(byte % 16)]
}

/// Returns the hexadecimal digit of a value below sixteen.
fn digit(value: u8) -> u8
    requires { value < 16 }
    ensures { result ≡ digit_of value }
{
    if value < 10 { 48 + value } else { 55 + value }
}
