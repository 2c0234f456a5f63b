//! Spool files and what a reader keeps, as the bytes of a saved state, and back.
ghost use Rattle.std.specs.Prelude.{◌≡◌, ◌++◌, length, OnOk};
ghost use Rattle.saved_bytes.specs.Codes.{bytes, each, number, optional};
ghost use Rattle.cp_spool.specs.File.{closed_file};
ghost use Rattle.cp_spool.specs.Queues.{files_of};
ghost use Rattle.cp_spool.specs.Saved.{deck_bytes, file_bytes, files_bytes, reader_bytes};

use crate::file::SpoolFile;
use crate::queues::Queues;
use crate::reader::SpoolReader;
use crate::seen::SeenDeck;
use saved_bytes::{Input, RestoreError, put_bytes, put_number, put_one, put_zero};
use std::alloc::{AllocError, Global};
use unit_record::saved::{
    card_of, entries_of, put_entries, put_sender, put_target, record_of, sender_of, target_of,
};
use unit_record::{Card, Sender};
use user_names::UserNo;

impl SpoolReader {
    /// Appends the sense byte of the reader and the bytes that are still to be given.
    ///
    /// # Errors
    ///
    /// `AllocError` if memory is refused; `out` may have a part of it then.
    pub fn save(&self, out: &mut Vec<u8>) -> Result<(), AllocError>
        ensures { OnOk result (out.new.items ≡ out.old.items ++ reader_bytes self.now) }
    {
        // Exhaustive: a new field fails to compile here.
        let SpoolReader {
            sense,
            bytes,
            given,
        } = self;
        put_number(out, u64::from(*sense))?;
        put_bytes(out, &bytes.as_slice()[*given..])
    }

    /// Reads the sense byte and the bytes to be given from the input and sets them.
    ///
    /// # Errors
    ///
    /// `Malformed` if the input is bad; nothing has changed then.
    pub fn restore(&mut self, input: &mut Input<'_>) -> Result<(), RestoreError> {
        let sense = input.next_u8()?;
        let bytes = record_of(input)?;
        *self = SpoolReader {
            sense,
            bytes,
            given: 0,
        };
        Ok(())
    }
}

/// Appends a deck's cards in the format of states: before each card a one and its length, after
/// the last a zero.
fn put_cards(out: &mut Vec<u8>, deck: &SeenDeck<'_>) -> Result<(), AllocError>
    ensures { OnOk result (out.new.items ≡ out.old.items ++ each bytes deck.now.cards) }
{
    for index in 0..deck.count() {
        put_one(out)?;
        match deck.card(index) {
            Some(card) => put_bytes(out, &card)?,
            None => unreachable!(),
        }
    }
    put_zero(out)
}

/// Appends the label, the sender and the cards of a deck.
fn put_deck(out: &mut Vec<u8>, deck: &SeenDeck<'_>) -> Result<(), AllocError>
    ensures { OnOk result (out.new.items ≡ out.old.items ++ deck_bytes deck.now) }
{
    put_number(out, deck.label())?;
    put_sender(out, deck.sender())?;
    put_cards(out, deck)
}

/// Appends the target and the entries of a closed file.
fn put_file(out: &mut Vec<u8>, file: &SpoolFile) -> Result<(), AllocError>
    ensures { OnOk result (out.new.items ≡ out.old.items ++ file_bytes (closed_file file.now)) }
{
    put_target(out, file.target())?;
    put_entries(out, file.entries())
}

/// Appends how many cards of a deck were read, or that it is not current.
fn put_place(out: &mut Vec<u8>, place: Option<usize>) -> Result<(), AllocError>
    ensures { OnOk result (out.new.items ≡ out.old.items ++ optional number place) }
{
    match place {
        Some(cards) => {
            put_one(out)?;
            put_number(out, cards as u64)
        }
        None => put_zero(out),
    }
}

/// Reads from the input how many cards of a deck were read, or that it is not current.
///
/// # Errors
///
/// `Malformed` if the input is bad.
fn place_of(input: &mut Input<'_>) -> Result<Option<usize>, RestoreError> {
    if input.flag()? {
        Ok(Some(input.next_usize()?))
    } else {
        Ok(None)
    }
}

/// Reads a list of cards from the input.
///
/// # Errors
///
/// `Malformed` if the input is bad, `Memory` if memory is refused.
fn cards_of(alloc: Global, input: &mut Input<'_>) -> Result<Vec<Card>, RestoreError> {
    let mut cards = Vec::new(alloc);
    for _ in 0..u64::MAX {
        if !input.flag()? {
            break;
        }
        cards.push(card_of(input)?)?;
    }
    Ok(cards)
}

impl Queues {
    /// Appends a user's decks, how many cards of the first were read, and the files that his punch
    /// and his printer closed.
    ///
    /// # Errors
    ///
    /// `AllocError` if memory is refused; `out` may have a part of it then.
    pub fn save(&self, user: UserNo, out: &mut Vec<u8>) -> Result<(), AllocError>
        ensures { OnOk result (out.new.items ≡ out.old.items
            ++ files_bytes (files_of self.now.users user)) }
    {
        self.put_decks(user, out)?;
        put_place(out, self.cards_read(user))?;
        self.put_punched(user, out)?;
        self.put_printed(user, out)
    }

    /// Appends the decks of a user's reader, in order, each after a byte of 1, and then a byte of
    /// 0.
    fn put_decks(&self, user: UserNo, out: &mut Vec<u8>) -> Result<(), AllocError>
        ensures { OnOk result (out.new.items
            ≡ out.old.items ++ each deck_bytes (files_of self.now.users user).decks) }
    {
        for index in 0..self.decks(user) {
            put_one(out)?;
            match self.deck(user, index) {
                Some(deck) => put_deck(out, &deck)?,
                None => unreachable!(),
            }
        }
        put_zero(out)
    }

    /// Appends the files that a user's punch closed, in order, each after a byte of 1, and then a
    /// byte of 0.
    fn put_punched(&self, user: UserNo, out: &mut Vec<u8>) -> Result<(), AllocError>
        ensures { OnOk result (out.new.items
            ≡ out.old.items ++ each file_bytes (files_of self.now.users user).punched) }
    {
        for index in 0..self.punched_count(user) {
            put_one(out)?;
            match self.punched(user, index) {
                Some(file) => put_file(out, file)?,
                None => unreachable!(),
            }
        }
        put_zero(out)
    }

    /// Appends the files that a user's printer closed, in order, each after a byte of 1, and then a
    /// byte of 0.
    fn put_printed(&self, user: UserNo, out: &mut Vec<u8>) -> Result<(), AllocError>
        ensures { OnOk result (out.new.items
            ≡ out.old.items ++ each file_bytes (files_of self.now.users user).printed) }
    {
        for index in 0..self.printed_count(user) {
            put_one(out)?;
            match self.printed(user, index) {
                Some(file) => put_file(out, file)?,
                None => unreachable!(),
            }
        }
        put_zero(out)
    }

    /// Reads the decks and the closed files of a user, who has none, from the input and adds them.
    ///
    /// There are as many users as before, also after an error.
    ///
    /// # Errors
    ///
    /// `Malformed` if the input is bad, `Memory` if memory is refused, perhaps after adding some.
    pub fn restore(
        &mut self,
        alloc: Global,
        user: UserNo,
        input: &mut Input<'_>,
    ) -> Result<(), RestoreError>
        ensures { length self.new.users ≡ length self.old.users }
    {
        self.take_decks(alloc, user, input)?;
        let place = place_of(input)?;
        self.set_place(user, place);
        self.take_punched(alloc, user, input)?;
        self.take_printed(alloc, user, input)
    }

    /// Reads decks from the input and appends them to the queue of a user's reader.
    ///
    /// # Errors
    ///
    /// `Malformed` if the input is bad, `Memory` if memory is refused, perhaps after appending
    /// some.
    fn take_decks(
        &mut self,
        alloc: Global,
        user: UserNo,
        input: &mut Input<'_>,
    ) -> Result<(), RestoreError>
        ensures { length self.new.users ≡ length self.old.users }
    {
        for _ in 0..u64::MAX {
            if !input.flag()? {
                break;
            }
            let label = input.number()?;
            let sender: Sender = sender_of(input)?;
            let cards = cards_of(alloc, input)?;
            self.append(user, label, sender, cards)?;
        }
        Ok(())
    }

    /// Reads files from the input and appends them to those that a user's punch closed.
    ///
    /// # Errors
    ///
    /// `Malformed` if the input is bad, `Memory` if memory is refused, perhaps after appending
    /// some.
    fn take_punched(
        &mut self,
        alloc: Global,
        user: UserNo,
        input: &mut Input<'_>,
    ) -> Result<(), RestoreError>
        ensures { length self.new.users ≡ length self.old.users }
    {
        for _ in 0..u64::MAX {
            if !input.flag()? {
                break;
            }
            let target = target_of(input)?;
            let entries = entries_of(alloc, input)?;
            self.make_room(user)?;
            self.close_punched(user, target, entries);
        }
        Ok(())
    }

    /// Reads files from the input and appends them to those that a user's printer closed.
    ///
    /// # Errors
    ///
    /// `Malformed` if the input is bad, `Memory` if memory is refused, perhaps after appending
    /// some.
    fn take_printed(
        &mut self,
        alloc: Global,
        user: UserNo,
        input: &mut Input<'_>,
    ) -> Result<(), RestoreError>
        ensures { length self.new.users ≡ length self.old.users }
    {
        for _ in 0..u64::MAX {
            if !input.flag()? {
                break;
            }
            let target = target_of(input)?;
            let entries = entries_of(alloc, input)?;
            self.make_room(user)?;
            self.close_printed(user, target, entries);
        }
        Ok(())
    }
}
