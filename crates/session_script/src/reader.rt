//! The script: which texts are scripts, and the events that a script names.
ghost use Rattle.std.specs.Prelude.{◌≡◌, ℕ, ◌<◌, ◌≤◌, ◌+◌, ◌∷◌, List, Option, Some, None, IfOk};
ghost use Rattle.std.specs.Prelude.{IfErr, IfSome, OnOk, All, Ok, Err, [], length, map, true};
ghost use Rattle.std.specs.Option.{option_map};
ghost use Rattle.text_words.specs.Lines.{lines_of};
ghost use Rattle.session_script.specs.Grammar.{ReadsGrammar};
ghost use Rattle.session_script.specs.Script.{Auto, IsOfDevice, IsOfUser, IsRefusal, auto_of};
ghost use Rattle.session_script.specs.Script.{ScriptTakesMemory, takes_memory};
ghost use Rattle.session_script.specs.Script.{deck_of, is_ignored, line_step, run_of, said};
ghost use Rattle.session_script.specs.Script.{receiver_of, said_of, script_of, serve_of, step};
ghost use Rattle.session_script.specs.Script.{tick_of, transfer_of, typed_of};
ghost use Rattle.session_script.specs.Users.{names_of};

use crate::cards::Cards;
use crate::event::ScriptEvent;
use crate::punch::COLUMNS;
use crate::user::{ScriptUsers, user_of};
use std::alloc::Global;
use text_words::lines::cut_line;
use text_words::numbers::{decimal_of, hexadecimal_of};
use text_words::words::cut_word;
use thiserror::Error;
use user_names::MOST_USERS;

/// The most decimal digits of a number in a script.
const DIGITS: usize = 7;

/// The hexadecimal digits of a device's address.
const DEVICE_DIGITS: usize = 3;

/// The most units of one `RUN`.
const MOST_UNITS: u32 = 1_000_000;

/// The most turns of one `AUTO`.
const MOST_TURNS: u32 = 100_000;

/// The most cards of one `DECK`.
const MOST_CARDS: u32 = 1000;

/// Why a script is refused.
#[derive(Clone, Copy, Debug, PartialEq, Eq, Drop, Error)]
pub enum ScriptError {
    /// There was no memory for the events.
    #[error("no memory for the script's events")]
    Memory,
    /// The first line, counted from 1, that is no line of a script: also a `DECK` whose cards are
    /// missing, or a card that is too long.
    #[error("line {0} of the script is misspelled or too long, lacks its cards, or names an unknown user or device")]
    Line(u64),
}

/// Returns the events that a script names, in the order of its lines, or the number of its first
/// line that is no line of a script.
///
/// The events borrow their texts from the script.
///
/// # Errors
///
/// A `ScriptError`: the number of the first faulty line, or refused memory.
pub fn read_script<'a, U: ScriptUsers>(
    alloc: Global,
    users: &U,
    text: &'a [u8],
) -> Result<Vec<ScriptEvent<'a>>, ScriptError>
    requires { length (U.known users.now) ≤ MOST_USERS }
    ensures ok { IfOk result (λ events. script_of (U.known users.now) text.now
        ≡ Ok (map said events.items)) }
    ensures users { IfOk result
        (λ events. All (λ e. IsOfUser (U.known users.now) (said e)) events.items) }
    ensures devices { IfOk result
        (λ events. All (λ e. IsOfDevice (U.known users.now) (said e)) events.items) }
    ensures err { IfErr result (IsRefusal (script_of (U.known users.now) text.now)) }
    ensures memory { result ≡ Err ScriptError.Memory
        → ScriptTakesMemory (U.known users.now) text.now }
{
    let mut events = Vec::new(alloc);
    let mut rest = text;
    let mut number = 1;
    let mut cards = 0;
    while !rest.is_empty() {
        let (line, after) = cut_line(rest);
        cards = read_line(users, number, cards, line, after, &mut events)?;
        rest = after;
        number += 1;
    }
    Ok(events)
}

/// Reads the line of this number and returns how many cards of the last event are left: if there
/// were some, it is one of them, else the event that it names is appended.
fn read_line<'a, U: ScriptUsers>(
    users: &U,
    number: u64,
    cards: usize,
    line: &'a [u8],
    after: &'a [u8],
    events: &mut Vec<ScriptEvent<'a>>,
) -> Result<usize, ScriptError>
    requires { length (U.known users.now) ≤ MOST_USERS }
    ensures ok { IfOk result (λ left.
        step (U.known users.now) number (map said events.old.items) cards line.now
        (lines_of after.now)
        ≡ Ok (record { events = map said events.new.items; cards = left })) }
    ensures users { All (λ e. IsOfUser (U.known users.now) (said e)) events.old.items
        → OnOk result (All (λ e. IsOfUser (U.known users.now) (said e)) events.new.items) }
    ensures devices { All (λ e. IsOfDevice (U.known users.now) (said e)) events.old.items
        → OnOk result (All (λ e. IsOfDevice (U.known users.now) (said e)) events.new.items) }
    ensures err { IfErr result
        (IsRefusal (step (U.known users.now) number (map said events.old.items) cards line.now
        (lines_of after.now))) }
    ensures memory { result ≡ Err ScriptError.Memory
        → takes_memory (U.known users.now) cards line.now (lines_of after.now) ≡ true }
{
    if cards == 0 {
        return read_entry(users, number, line, after, events);
    }
    if line.len() > COLUMNS {
        return Err(ScriptError::Line(number));
    }
    Ok(cards - 1)
}

/// Appends the event that a line names, unless it is empty or a comment, and returns how many of
/// the next lines are its cards.
fn read_entry<'a, U: ScriptUsers>(
    users: &U,
    number: u64,
    line: &'a [u8],
    after: &'a [u8],
    events: &mut Vec<ScriptEvent<'a>>,
) -> Result<usize, ScriptError>
    requires { length (U.known users.now) ≤ MOST_USERS }
    ensures ok { IfOk result (λ left.
        line_step (U.known users.now) number (map said events.old.items) line.now
        (lines_of after.now)
        ≡ Ok (record { events = map said events.new.items; cards = left })) }
    ensures users { All (λ e. IsOfUser (U.known users.now) (said e)) events.old.items
        → OnOk result (All (λ e. IsOfUser (U.known users.now) (said e)) events.new.items) }
    ensures devices { All (λ e. IsOfDevice (U.known users.now) (said e)) events.old.items
        → OnOk result (All (λ e. IsOfDevice (U.known users.now) (said e)) events.new.items) }
    ensures err { IfErr result
        (IsRefusal (line_step (U.known users.now) number (map said events.old.items) line.now
        (lines_of after.now))) }
    ensures memory { result ≡ Err ScriptError.Memory
        → takes_memory (U.known users.now) 0 line.now (lines_of after.now) ≡ true }
{
    if is_ignored(line) {
        return Ok(0);
    }
    let Some(event) = read_event(users, line, after) else {
        return Err(ScriptError::Line(number));
    };
    let cards = event.cards();
    if events.push(event).is_err() {
        return Err(ScriptError::Memory);
    }
    Ok(cards)
}

/// Returns whether a line is empty, or is a comment, which begins with `*`.
fn is_ignored(line: &[u8]) -> bool
    ensures { result ≡ is_ignored line.now }
{
    match line {
        [] => true,
        [first, ..] => *first == b'*',
    }
}

/// Returns the event that a line names by its first word; None if it is no line of a script. The
/// cards of a deck are the first lines of `after`.
fn read_event<'a, U: ScriptUsers>(
    users: &U,
    line: &'a [u8],
    after: &'a [u8],
) -> Option<ScriptEvent<'a>>
    requires { length (U.known users.now) ≤ MOST_USERS }
    ensures users { IfSome result (λ event. IsOfUser (U.known users.now) (said event)) }
    ensures devices { IfSome result (λ event. IsOfDevice (U.known users.now) (said event)) }
    ensures event { option_map said result
        ≡ said_of (U.known users.now) line.now (lines_of after.now) }
{
    let (verb, operands) = cut_word(line);
    let operands = operands?;
    if verb == b"RUN".as_slice() {
        read_run(users, operands)
    } else if verb == b"LINE".as_slice() {
        read_typed(users, operands)
    } else if verb == b"TICK".as_slice() {
        read_tick(users, operands)
    } else if verb == b"SERVE".as_slice() {
        read_serve(users, operands)
    } else if verb == b"AUTO".as_slice() {
        Some(ScriptEvent::Auto(turns_of(operands)?))
    } else if verb == b"DECK".as_slice() {
        read_deck(users, operands, after)
    } else if verb == b"TRANSFER".as_slice() {
        read_transfer(users, operands)
    } else {
        None
    }
}

/// Returns the event of `RUN u n`, given what follows its first word; None if there is no such
/// user, or n is not 1 to 1000000.
fn read_run<'a, U: ScriptUsers>(users: &U, operands: &'a [u8]) -> Option<ScriptEvent<'a>>
    requires { length (U.known users.now) ≤ MOST_USERS }
    ensures users { IfSome result (λ event. IsOfUser (U.known users.now) (said event)) }
    ensures devices { IfSome result (λ event. IsOfDevice (U.known users.now) (said event)) }
    ensures event { option_map said result ≡ run_of (names_of (U.known users.now)) operands.now }
{
    let (name, digits) = cut_word(operands);
    let user = user_of(users, name)?;
    let units = decimal_of(DIGITS, digits?)?;
    if 1 <= units && units <= MOST_UNITS {
        Some(ScriptEvent::Run(user, units))
    } else {
        None
    }
}

/// Returns the event of `LINE u text`, given what follows its first word; None if there is no such
/// user. An empty text may have no blank before it.
fn read_typed<'a, U: ScriptUsers>(users: &U, operands: &'a [u8]) -> Option<ScriptEvent<'a>>
    requires { length (U.known users.now) ≤ MOST_USERS }
    ensures users { IfSome result (λ event. IsOfUser (U.known users.now) (said event)) }
    ensures devices { IfSome result (λ event. IsOfDevice (U.known users.now) (said event)) }
    ensures event { option_map said result ≡ typed_of (names_of (U.known users.now)) operands.now }
{
    let (name, text) = cut_word(operands);
    let user = user_of(users, name)?;
    match text {
        Some(text) => Some(ScriptEvent::Line(user, text)),
        None => Some(ScriptEvent::Line(user, &[])),
    }
}

/// Returns the event of `TICK u`, given what follows its first word; None if there is no such user
/// or more follows.
fn read_tick<'a, U: ScriptUsers>(users: &U, operands: &'a [u8]) -> Option<ScriptEvent<'a>>
    requires { length (U.known users.now) ≤ MOST_USERS }
    ensures users { IfSome result (λ event. IsOfUser (U.known users.now) (said event)) }
    ensures devices { IfSome result (λ event. IsOfDevice (U.known users.now) (said event)) }
    ensures event { option_map said result ≡ tick_of (names_of (U.known users.now)) operands.now }
{
    let (name, more) = cut_word(operands);
    if more.is_some() {
        return None;
    }
    let user = user_of(users, name)?;
    Some(ScriptEvent::Tick(user))
}

/// Returns the event of `SERVE u addr`, given what follows its first word; None if there is no such
/// user, or he has no such device.
fn read_serve<'a, U: ScriptUsers>(users: &U, operands: &'a [u8]) -> Option<ScriptEvent<'a>>
    requires { length (U.known users.now) ≤ MOST_USERS }
    ensures users { IfSome result (λ event. IsOfUser (U.known users.now) (said event)) }
    ensures devices { IfSome result (λ event. IsOfDevice (U.known users.now) (said event)) }
    ensures event { option_map said result ≡ serve_of (U.known users.now) operands.now }
{
    let (name, digits) = cut_word(operands);
    let user = user_of(users, name)?;
    let address = hexadecimal_of(DEVICE_DIGITS, DEVICE_DIGITS, digits?)? as u16;
    if users.has_device(user, address) {
        Some(ScriptEvent::Serve(user, address))
    } else {
        None
    }
}

/// Returns how many turns `AUTO k` names, given what follows its first word; None if k is not 1 to
/// 100000.
fn turns_of(operands: &[u8]) -> Option<u32>
    ensures { option_map Auto result ≡ auto_of operands.now }
{
    let turns = decimal_of(DIGITS, operands)?;
    if 1 <= turns && turns <= MOST_TURNS {
        Some(turns)
    } else {
        None
    }
}

/// Returns the event of `DECK u k`, given what follows its first word, with the first k lines of
/// `after` as cards; None if there is no such user, k is not 1 to 1000, or there are fewer lines.
fn read_deck<'a, U: ScriptUsers>(
    users: &U,
    operands: &'a [u8],
    after: &'a [u8],
) -> Option<ScriptEvent<'a>>
    requires { length (U.known users.now) ≤ MOST_USERS }
    ensures users { IfSome result (λ event. IsOfUser (U.known users.now) (said event)) }
    ensures devices { IfSome result (λ event. IsOfDevice (U.known users.now) (said event)) }
    ensures event { option_map said result
        ≡ deck_of (names_of (U.known users.now)) operands.now (lines_of after.now) }
{
    let (name, digits) = cut_word(operands);
    let user = user_of(users, name)?;
    let count = decimal_of(DIGITS, digits?)?;
    if 1 <= count && count <= MOST_CARDS {
        Some(ScriptEvent::Deck(user, Cards::cut(after, count as usize)?))
    } else {
        None
    }
}

/// Returns the event of `TRANSFER u id v`, given what follows its first word; None if there is no
/// such user.
fn read_transfer<'a, U: ScriptUsers>(users: &U, operands: &'a [u8]) -> Option<ScriptEvent<'a>>
    requires { length (U.known users.now) ≤ MOST_USERS }
    ensures users { IfSome result (λ event. IsOfUser (U.known users.now) (said event)) }
    ensures devices { IfSome result (λ event. IsOfDevice (U.known users.now) (said event)) }
    ensures event { option_map said result
        ≡ transfer_of (names_of (U.known users.now)) operands.now }
{
    let (name, following) = cut_word(operands);
    let user = user_of(users, name)?;
    let (digits, receiver) = cut_word(following?);
    let id = decimal_of(DIGITS, digits)?;
    Some(ScriptEvent::Transfer(user, id, user_of(users, receiver?)?))
}

/// States that a script is read as its events, that nothing else is accepted, and that a text that
/// is no script is refused at its first bad line.
pub fn reads_grammar()
    ensures { ReadsGrammar }
{}
