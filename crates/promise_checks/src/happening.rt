//! What happens next to a user.
use crate::guest::{READY, TEXTS, TYPED};
use s370_num::DevAddr;
use side_by_side::Sequence;
use std::alloc::{AllocError, Global};
use unit_record::Card;
use user_names::UserNo;

/// How many users there are.
pub const USERS: u8 = 16;

/// The devices of a user on his channel: console, reader, punch and printer.
const DEVICES: [u16; 4] = [0x009, 0x00C, 0x00D, 0x00E];

/// What happens to a user.
#[derive(Drop)]
pub enum CheckEvent {
    /// His machine runs for so many units.
    Run(u32),
    /// This device of his is served.
    Serve(DevAddr),
    /// His timer ticks.
    Tick,
    /// The operator gives him these cards.
    Deck(Vec<Card>),
    /// The operator moves the deck of this number from his reader to that of another.
    Transfer(u64, UserNo),
    /// He types this.
    Line(String),
}

/// Returns the channel of a user's devices: 0 or 2.
pub fn channel_of(user: UserNo) -> u16 {
    u16::from(user.number() % 2) * 2
}

/// Returns a text for a user, made of one in which `@` is his channel, and `_` his number in
/// EBCDIC.
pub fn text_for(alloc: Global, user: UserNo, text: &str) -> Result<String, AllocError> {
    let channel = channel_of(user);
    let number = user.number();
    let mut made = String::new(alloc);
    for character in text.chars() {
        let piece = match character {
            '@' => format!(in alloc; "{channel}")?,
            '_' => format!(in alloc; "F{}F{}", number / 10, number % 10)?,
            other => format!(in alloc; "{other}")?,
        };
        made.push_str(piece.as_str())?;
    }
    Ok(made)
}

/// Returns the event that a user types the line of this index of those that make a machine ready.
pub fn ready_line(alloc: Global, user: UserNo, place: usize) -> Result<CheckEvent, AllocError> {
    let text = READY.get(place).copied().unwrap_or("");
    Ok(CheckEvent::Line(text_for(alloc, user, text)?))
}

/// Draws the next event of a user from a sequence, while there are so many files.
pub fn next_happening(
    alloc: Global,
    sequence: &mut Sequence,
    user: UserNo,
    files: u64,
) -> Result<CheckEvent, AllocError> {
    Ok(match sequence.next_number() % 32 {
        0..=9 => CheckEvent::Run(sequence.next_number() % 24 + 1),
        10..=18 => CheckEvent::Serve(next_device(sequence, user)),
        19 => CheckEvent::Tick,
        20 => match sequence.next_number() % 2 {
            0 => next_transfer(sequence, files),
            _ => CheckEvent::Deck(next_cards(alloc, sequence)?),
        },
        21..=25 => CheckEvent::Line(text_for(alloc, user, sequence.pick(&TYPED))?),
        26 => CheckEvent::Line(text_for(alloc, user, sequence.pick(&TEXTS))?),
        other => CheckEvent::Line(next_talk(alloc, sequence, user, other, files)?),
    })
}

/// Draws a move of a deck from a sequence: one of the last eight of so many files, or one that is
/// not there, to any user.
fn next_transfer(sequence: &mut Sequence, files: u64) -> CheckEvent {
    let back = u64::from(sequence.next_number() % 8);
    let to = (sequence.next_number() % u32::from(USERS)) as u8;
    CheckEvent::Transfer(files.saturating_sub(back), UserNo::new(to))
}

/// Draws the address of one of a user's devices from a sequence.
fn next_device(sequence: &mut Sequence, user: UserNo) -> DevAddr {
    let place = sequence.next_number() as usize % 4;
    let first = channel_of(user).wrapping_mul(0x100);
    DevAddr::new(first.wrapping_add(DEVICES[place]))
}

/// Draws one to three cards from a sequence.
fn next_cards(alloc: Global, sequence: &mut Sequence) -> Result<Vec<Card>, AllocError> {
    let mut cards = Vec::new(alloc);
    for _card in 0..sequence.next_number() % 3 + 1 {
        cards.push(next_card(sequence))?;
    }
    Ok(cards)
}

/// Draws a card from a sequence: twenty columns of any bytes, and blanks.
fn next_card(sequence: &mut Sequence) -> Card {
    let mut card = [0x40; 80];
    for column in 0..20 {
        card[column] = (sequence.next_number() % 256) as u8;
    }
    card
}

/// Draws a line from a sequence by which a user sends a message or works with his files.
fn next_talk(
    alloc: Global,
    sequence: &mut Sequence,
    user: UserNo,
    kind: u32,
    files: u64,
) -> Result<String, AllocError> {
    let channel = channel_of(user);
    let other = sequence.next_number() % (u32::from(USERS) + 1);
    let before = sequence.pick(&["#CP ", "#CP ", "#CP ", ""]);
    match kind {
        27 | 28 => {
            let text = sequence.pick(&TEXTS);
            format!(in alloc; "{before}MSG U{other} {text}")
        }
        29 => match sequence.next_number() % 4 {
            0 => format!(in alloc; "{before}SPOOL {channel}0D TO SYSTEM"),
            _ => format!(in alloc; "{before}SPOOL {channel}0D TO U{other}"),
        },
        30 => {
            let device = sequence.pick(&["0D", "0D", "0E", "0C"]);
            format!(in alloc; "{before}CLOSE {channel}{device}")
        }
        _ => {
            let number = u64::from(sequence.next_number()) % (files.saturating_add(1));
            format!(in alloc; "{before}PURGE {number}")
        }
    }
}
