//! The lines that the program writes.
ghost use Rattle.std.specs.Prelude.{◌≡◌, ◌<◌, ◌+◌, ◌/◌, ◌%◌, ◌++◌, ◌∷◌, [], codes};
ghost use Rattle.std.specs.Result.{OnOk};
ghost use Rattle.logon_desk_cli.specs.Printed.{begun, entry_line, field, hex, hex_digit};
ghost use Rattle.logon_desk_cli.specs.Printed.{hex_number, line};
ghost use Rattle.logon_desk_cli.specs.Printed.{notice_text, noted, output_line};

use logon_desk::{DeskAction, JournalEntry, Notice};
use std::alloc::AllocError;
use terminal_lines::Bytes;
use user_names::UserNo;

/// Returns the bytes of one of the desk's own texts.
fn text_of(notice: Notice) -> &'static [u8]
    ensures { result.now ≡ notice_text notice }
{
    match notice {
        Notice::Online => b"GATHJUMLI ONLINE: TYPE LOGON NAME\r\n",
        Notice::TypeLogon => b"TYPE LOGON NAME, AND THEN THE PASSWORD\r\n",
        Notice::EnterPassword => b"ENTER PASSWORD:\r\n\xff\xfb\x01",
        Notice::PasswordTaken => b"\xff\xfc\x01",
        Notice::NoPassword => b"\xff\xfc\x01THAT IS NO PASSWORD: TYPE LOGON NAME\r\n",
        Notice::Refused => b"LOGON REFUSED\r\n",
        Notice::TooLate => b"TOO LATE\r\n",
        Notice::Reconnected => b"RECONNECTED\r\n",
        Notice::TakesOver => b"ANOTHER TERMINAL TAKES OVER\r\n",
        Notice::IsThere => b"[YES]\r\n",
    }
}

/// Appends the line for an action of the desk to `text`.
///
/// # Errors
///
/// `AllocError` if memory is refused; `text` may have a part of it then.
pub fn print(output: &DeskAction, text: &mut Bytes) -> Result<(), AllocError>
    ensures { OnOk result (text.new ≡ text.old ++ output_line output.now) }
{
    match output {
        DeskAction::Says { connection, notice } => give(*connection, text_of(*notice), b"", text),
        DeskAction::Declines {
            connection,
            command,
            option,
        } => give(*connection, &[255, *command, *option], b"", text),
        DeskAction::Shows {
            connection,
            line,
            ..
        } => give(*connection, line.as_slice(), b"\r\n", text),
        DeskAction::ShowsAgain {
            connection,
            line,
            ..
        } => {
            word(b"BACK", *connection, text)?;
            push_bytes(line.minute.as_slice(), b"", text)?;
            push_bytes(line.text.as_slice(), b"", text)?;
            text.push(b'\n')
        }
        DeskAction::Types { user, line } => {
            word(b"TYPE", user.index(), text)?;
            push_bytes(line.as_slice(), b"", text)?;
            text.push(b'\n')
        }
        DeskAction::Asks { connection, guess } => {
            word(b"ASKS", *connection, text)?;
            push_bytes(guess.name.as_slice(), b"", text)?;
            push_bytes(guess.password.as_slice(), b"", text)?;
            text.push(b'\n')
        }
        DeskAction::Ends { connection } => {
            word(b"ENDS", *connection, text)?;
            text.push(b'\n')
        }
        DeskAction::Notes(entry) => note(*entry, text),
    }
}

/// Appends a line of a verb and a number to `text`.
///
/// # Errors
///
/// `AllocError` if memory is refused; `text` may have a part of it then.
pub fn print_number(name: &[u8], number: usize, text: &mut Bytes) -> Result<(), AllocError>
    ensures { OnOk result (text.new ≡ text.old ++ line name.now number []) }
{
    word(name, number, text)?;
    text.push(b'\n')
}

/// Appends the line for an entry of the journal to `text`.
fn note(entry: JournalEntry, text: &mut Bytes) -> Result<(), AllocError>
    ensures { OnOk result (text.new ≡ text.old ++ noted entry) }
{
    match entry {
        JournalEntry::LogsOn { user, connection } => note_of(b"LOGS", Some(user), connection, text),
        JournalEntry::IsBack { user, connection } => note_of(b"BACK", Some(user), connection, text),
        JournalEntry::Leaves { user, connection } => note_of(b"LEFT", Some(user), connection, text),
        JournalEntry::WrongPassword { user, connection } => note_of(
            b"FAIL", user, connection, text,
        ),
    }
}

/// Appends the line for an entry of the journal with this name, this user, if there is one, and
/// this connection to `text`.
fn note_of(
    name: &[u8],
    user: Option<UserNo>,
    connection: usize,
    text: &mut Bytes,
) -> Result<(), AllocError>
    ensures { OnOk result (text.new ≡ text.old ++ entry_line name.now user connection) }
{
    word(b"NOTE", connection, text)?;
    text.push(b' ')?;
    text.extend(name)?;
    text.push(b' ')?;
    match user {
        Some(user) => push_number(user.index(), text)?,
        None => text.push(b'-')?,
    }
    text.push(b'\n')
}

/// Appends the line by which a connection is given these bytes and then `end` to `text`.
fn give(connection: usize, bytes: &[u8], end: &[u8], text: &mut Bytes) -> Result<(), AllocError>
    ensures { OnOk result
        (text.new ≡ text.old ++ line (codes "GIVE") connection (field (bytes.now ++ end.now))) }
{
    word(b"GIVE", connection, text)?;
    push_bytes(bytes, end, text)?;
    text.push(b'\n')
}

/// Appends a verb, a blank and a number to `text`.
fn word(name: &[u8], number: usize, text: &mut Bytes) -> Result<(), AllocError>
    ensures { OnOk result (text.new ≡ text.old ++ begun name.now number) }
{
    text.extend(name)?;
    text.push(b' ')?;
    push_number(number, text)
}

/// Appends the last 16 bits of a number, as four hexadecimal digits, to `text`.
fn push_number(number: usize, text: &mut Bytes) -> Result<(), AllocError>
    ensures { OnOk result (text.new ≡ text.old ++ hex_number number) }
{
    push_byte((number / 256 % 256) as u8, text)?;
    push_byte((number % 256) as u8, text)
}

/// Appends a blank, and then `bytes` and `end` in hexadecimal, or a hyphen if both are empty, to
/// `text`.
fn push_bytes(bytes: &[u8], end: &[u8], text: &mut Bytes) -> Result<(), AllocError>
    ensures { OnOk result (text.new ≡ text.old ++ field (bytes.now ++ end.now)) }
{
    text.push(b' ')?;
    if bytes.is_empty() && end.is_empty() {
        return text.push(b'-');
    }
    push_all(bytes, text)?;
    push_all(end, text)
}

/// Appends each of these bytes in hexadecimal to `text`.
fn push_all(bytes: &[u8], text: &mut Bytes) -> Result<(), AllocError>
    ensures { OnOk result (text.new ≡ text.old ++ hex bytes.now) }
{
    for byte in bytes {
        push_byte(*byte, text)?;
    }
    Ok(())
}

/// Appends a byte in two hexadecimal digits to `text`.
fn push_byte(byte: u8, text: &mut Bytes) -> Result<(), AllocError>
    ensures { OnOk result
        (text.new ≡ text.old ++ hex_digit (byte / 16) ∷ hex_digit (byte % 16) ∷ []) }
{
    text.push(digit(byte / 16))?;
    text.push(digit(byte % 16))
}

/// Returns the character of a hexadecimal digit.
fn digit(value: u8) -> u8
    requires { value < 16 }
    ensures { result ≡ hex_digit value }
{
    if value < 10 {
        b'0' + value
    } else {
        b'A' + (value - 10)
    }
}
