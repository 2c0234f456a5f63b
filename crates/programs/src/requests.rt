//! What an input asks for: parts of a script, states, those of users, what users hold, the decks of
//! their readers, and the end.
ghost use Rattle.std.specs.Prelude.{◌≡◌, ℕ, IfErr, IfNone, IfOk, IfSome, OnErr, Some, length};
ghost use Rattle.std.specs.Prelude.{option_map};
ghost use Rattle.std.specs.Io.KnownBytes.{Consumes};
ghost use Rattle.s370_num.specs.Host.{Counts, ReadsFront};
ghost use Rattle.text_words.specs.Numbers.{decimal_of};
ghost use Rattle.programs.specs.Requests.{GivesByte, GivesLine, GivesNext, GivesSized};
ghost use Rattle.programs.specs.Requests.{FailsToRead, HasNoEnd, IsBadLine, IsMalformed, IsShortOf};
ghost use Rattle.programs.specs.Requests.{IsUnframed, IsUnsized, IsViewLine, ReadAccounts};
ghost use Rattle.programs.specs.Requests.{most_digits};

use s370_num::host::{HostFault, HostReader};
use std::alloc::Global;
use text_words::numbers::decimal_of;

/// The most decimal digits of a size.
const MOST_DIGITS: usize = 9;

/// The fault of an input with a size that is no number, or with bytes that are cut off: it has
/// failed once.
const BROKEN: HostFault = HostFault::Device(1);

/// What an input asks for.
#[derive(Drop)]
pub(crate) enum FollowRequest {
    /// That a part of the script is done.
    Part(Vec<u8>),
    /// The state.
    Save,
    /// What users hold by files that they have not closed.
    Holds,
    /// The decks of the readers of users.
    Files,
    /// The state of the user of this number.
    View(u32),
    /// That single units are run until what is sought is found.
    Seek(Vec<u8>),
    /// That the session goes on from a state.
    State(Vec<u8>),
}

/// What an input has next.
pub(crate) enum NextRequest {
    /// A request.
    Asked(FollowRequest),
    /// The end is asked for.
    End,
    /// Nothing more.
    Nothing,
}

/// Reads the next request of an input: a part, for the state, for that of a user, for what users
/// hold, for the decks of their readers, to seek, to go on from a state, or for the end; or that
/// the input has ended.
pub(crate) fn next_input<R: HostReader>(
    alloc: Global,
    reader: &mut R,
) -> Result<NextRequest, HostFault>
    ensures ok { IfOk result
        (λ next. GivesNext next (R.remaining reader.old) (R.remaining reader.new)) }
    ensures err { IfErr result (FailsToRead IsMalformed (R.remaining reader.old)
        (R.remaining reader.new) (R.HostFile.failures reader.old)
        (R.HostFile.failures reader.new)) }
    ensures why { ReadAccounts result (R.HostFile.failures reader.old)
        (R.HostFile.failures reader.new) }
{
    let Some(word) = next_line(alloc, reader)? else {
        return Ok(NextRequest::Nothing);
    };
    if word.as_slice() == b"END".as_slice() {
        return Ok(NextRequest::End);
    }
    if word.as_slice() == b"SAVE".as_slice() {
        return Ok(NextRequest::Asked(FollowRequest::Save));
    }
    if word.as_slice() == b"HOLDS".as_slice() {
        return Ok(NextRequest::Asked(FollowRequest::Holds));
    }
    if let Some(user) = viewed(&word) {
        return Ok(NextRequest::Asked(FollowRequest::View(user)));
    }
    if word.as_slice() == b"STATE".as_slice() {
        return Ok(NextRequest::Asked(FollowRequest::State(next_framed(alloc, reader)?)));
    }
    if word.as_slice() == b"SEEK".as_slice() {
        return Ok(NextRequest::Asked(FollowRequest::Seek(next_framed(alloc, reader)?)));
    }
    if word.as_slice() == b"FILES".as_slice() {
        return Ok(NextRequest::Asked(FollowRequest::Files));
    }
    Ok(NextRequest::Asked(FollowRequest::Part(next_sized(alloc, reader, &word)?)))
}

/// Returns the number of the user for whose state a line asks, if it does.
fn viewed(line: &[u8]) -> Option<u32>
    ensures some { IfSome result (IsViewLine line.now) }
    ensures none { IfNone result ((user : ℕ) → IsViewLine line.now user → ⊥) }
{
    match line {
        [b'V', b'I', b'E', b'W', b' ', digits @ ..] => decimal_of(2, digits),
        _ => None,
    }
}

/// Reads a line with a size, and then as many bytes.
fn next_framed<R: HostReader>(alloc: Global, reader: &mut R) -> Result<Vec<u8>, HostFault>
    ensures ok { IfOk result
        (λ bytes. GivesSized bytes.items (R.remaining reader.old) (R.remaining reader.new)) }
    ensures err { IfErr result (FailsToRead IsUnframed (R.remaining reader.old)
        (R.remaining reader.new) (R.HostFile.failures reader.old)
        (R.HostFile.failures reader.new)) }
    ensures why { ReadAccounts result (R.HostFile.failures reader.old)
        (R.HostFile.failures reader.new) }
{
    let Some(digits) = next_line(alloc, reader)? else {
        return Err(BROKEN);
    };
    Ok(next_sized(alloc, reader, &digits)?)
}

/// Reads as many bytes as these decimal digits say; a fault if they are no number or the input ends
/// before.
fn next_sized<R: HostReader>(
    alloc: Global,
    reader: &mut R,
    digits: &[u8],
) -> Result<Vec<u8>, HostFault>
    ensures size { IfOk result
        (λ bytes. decimal_of most_digits digits.now ≡ Some (length bytes.items)) }
    ensures ok { IfOk result
        (λ bytes. Consumes (R.remaining reader.old) (R.remaining reader.new) bytes.items) }
    ensures err { IfErr result (FailsToRead (IsUnsized digits.now) (R.remaining reader.old)
        (R.remaining reader.new) (R.HostFile.failures reader.old)
        (R.HostFile.failures reader.new)) }
    ensures why { ReadAccounts result (R.HostFile.failures reader.old)
        (R.HostFile.failures reader.new) }
{
    match decimal_of(MOST_DIGITS, digits) {
        Some(size) => next_bytes(alloc, reader, size),
        None => Err(BROKEN),
    }
}

/// Reads a line of at most nine characters, without its end; None at the end of the input, a fault
/// if the line is longer or not ended.
fn next_line<R: HostReader>(alloc: Global, reader: &mut R) -> Result<Option<Vec<u8>>, HostFault>
    ensures ok { IfOk result
        (λ line. GivesLine (option_map (λ line. line.items) line) (R.remaining reader.old)
        (R.remaining reader.new)) }
    ensures unended { IfOk result
        (λ line. IfSome line (λ line. HasNoEnd line.items)) }
    ensures err { IfErr result (FailsToRead IsBadLine (R.remaining reader.old)
        (R.remaining reader.new) (R.HostFile.failures reader.old)
        (R.HostFile.failures reader.new)) }
    ensures why { ReadAccounts result (R.HostFile.failures reader.old)
        (R.HostFile.failures reader.new) }
{
    let mut line = Vec::new(alloc);
    for _ in 0..=MOST_DIGITS {
        match next_byte(reader)? {
            Some(b'\n') => return Ok(Some(line)),
            Some(byte) => line.extend_from_slice(&[byte])?,
            None if line.is_empty() => return Ok(None),
            None => return Err(BROKEN),
        }
    }
    Err(BROKEN)
}

/// Reads exactly this many bytes; a fault if the input ends before.
fn next_bytes<R: HostReader>(
    alloc: Global,
    reader: &mut R,
    count: u32,
) -> Result<Vec<u8>, HostFault>
    ensures ok { IfOk result
        (λ bytes. Consumes (R.remaining reader.old) (R.remaining reader.new) bytes.items) }
    ensures count { IfOk result (λ bytes. length bytes.items ≡ count) }
    ensures err { IfErr result (FailsToRead (IsShortOf count) (R.remaining reader.old)
        (R.remaining reader.new) (R.HostFile.failures reader.old)
        (R.HostFile.failures reader.new)) }
    ensures why { ReadAccounts result (R.HostFile.failures reader.old)
        (R.HostFile.failures reader.new) }
{
    let mut bytes = Vec::new(alloc);
    let mut block = [0u8; 4096];
    let mut left = count as usize;
    'reads: while left > 0 {
        let most = left.min(block.len());
        let got = reader.read(&mut block[..most])?;
        if got == 0 {
            return Err(BROKEN);
        }
        bytes.extend_from_slice(&block[..got])?;
        left -= got;
    }
    Ok(bytes)
}

/// Reads the next byte; `None` at the end of the input.
fn next_byte<R: HostReader>(reader: &mut R) -> Result<Option<u8>, HostFault>
    ensures ok { IfOk result
        (λ byte. GivesByte byte (R.remaining reader.old) (R.remaining reader.new)) }
    ensures err { OnErr result (ReadsFront (R.remaining reader.old) (R.remaining reader.new)) }
    ensures counts { Counts (R.HostFile.failures reader.old) (R.HostFile.failures reader.new)
        result }
{
    let mut byte = [0u8; 1];
    if reader.read(&mut byte)? == 0 {
        return Ok(None);
    }
    Ok(Some(byte[0]))
}
