//! Whether two devices are the same.
use crate::machines::same;
use crate::view::{SideError, View};
use cp_spool::{SeenDeck, SpoolFile};
use machine_devices::SeenDevices;
use unit_record::{Console, Entry, RecordBytes};

/// Returns whether two records have the same bytes, or there is neither.
fn is_same_record(one: Option<&RecordBytes>, other: Option<&RecordBytes>) -> bool {
    match (one, other) {
        (Some(one), Some(other)) => one.as_slice() == other.as_slice(),
        (None, None) => true,
        _ => false,
    }
}

/// Compares two consoles: the lines that were written, the one that is not finished, those that
/// wait, and the sense; the error is the first view that differs.
pub(crate) fn compare_console_device(one: &Console, other: &Console) -> Result<(), SideError> {
    same(one.lines().len() == other.lines().len(), View::Console)?;
    for line in 0..other.lines().len() {
        let written = is_same_record(one.lines().get(line), other.lines().get(line));
        same(written, View::Console)?;
    }
    same(one.unfinished() == other.unfinished(), View::Console)?;
    same(one.waiting() == other.waiting(), View::Waiting)?;
    for line in 0..other.waiting() {
        let waits = is_same_record(one.waiting_line(line), other.waiting_line(line));
        same(waits, View::Waiting)?;
    }
    same(one.sense() == other.sense(), View::Sense)
}

/// Returns whether two decks have the same label, sender and cards, or there is neither.
fn is_same_deck(one: Option<SeenDeck<'_>>, other: Option<SeenDeck<'_>>) -> bool {
    match (one, other) {
        (Some(one), Some(other)) => {
            one.label() == other.label()
                && one.sender() == other.sender()
                && one.count() == other.count()
                && are_same_cards(&one, &other)
        }
        (None, None) => true,
        _ => false,
    }
}

/// Returns whether each card of `other` is the same in `one`.
fn are_same_cards(one: &SeenDeck<'_>, other: &SeenDeck<'_>) -> bool {
    for index in 0..other.count() {
        if one.card(index) != other.card(index) {
            return false;
        }
    }
    true
}

/// Compares two readers: their decks, how many cards of the first were read, and the sense; the
/// error is the first view that differs.
pub(crate) fn compare_reader(
    one: &SeenDevices<'_>,
    other: &SeenDevices<'_>,
) -> Result<(), SideError> {
    same(one.decks() == other.decks(), View::Reader)?;
    for deck in 0..other.decks() {
        same(is_same_deck(one.deck(deck), other.deck(deck)), View::Reader)?;
    }
    same(one.place() == other.place(), View::Reader)?;
    same(one.reader_sense() == other.reader_sense(), View::Sense)
}

/// Returns whether two lists have the same entries, with the same codes and bytes.
fn are_same_entries(one: &[Entry], other: &[Entry]) -> bool {
    let are_same = one.iter().zip(other.iter()).all(|(one, other)| one.code() == other.code()
        && one.bytes() == other.bytes());
    one.len() == other.len() && are_same
}

/// Returns whether two closed files have the same target and the same entries, or there is neither.
fn is_same_file(one: Option<&SpoolFile>, other: Option<&SpoolFile>) -> bool {
    match (one, other) {
        (Some(one), Some(other)) => {
            one.target() == other.target() && are_same_entries(one.entries(), other.entries())
        }
        (None, None) => true,
        _ => false,
    }
}

/// Compares two punches: their open files, their closed ones, and the sense; the error is the first
/// view that differs.
pub(crate) fn compare_punch(
    one: &SeenDevices<'_>,
    other: &SeenDevices<'_>,
) -> Result<(), SideError> {
    same(
        are_same_entries(one.punch().entries(), other.punch().entries()),
        View::Punch,
    )?;
    same(one.punched_count() == other.punched_count(), View::Punch)?;
    for file in 0..other.punched_count() {
        same(
            is_same_file(one.punched(file), other.punched(file)),
            View::Punch,
        )?;
    }
    same(one.punch().sense() == other.punch().sense(), View::Sense)
}

/// Compares two printers: their open files, their closed ones, and the sense; the error is the
/// first view that differs.
pub(crate) fn compare_printer(
    one: &SeenDevices<'_>,
    other: &SeenDevices<'_>,
) -> Result<(), SideError> {
    same(
        are_same_entries(one.printer().entries(), other.printer().entries()),
        View::Printer,
    )?;
    same(one.printed_count() == other.printed_count(), View::Printer)?;
    for file in 0..other.printed_count() {
        same(
            is_same_file(one.printed(file), other.printed(file)),
            View::Printer,
        )?;
    }
    same(
        one.printer().sense() == other.printer().sense(),
        View::Sense,
    )
}
