//! What is noted of a program's words, to see whether an input of it could change one of them.
ghost use Rattle.std.specs.Prelude.{[], ◌≡◌, ◌<◌, ◌≤◌, ◌%◌, IfOk, OnOk, length, slice_index, true};
ghost use Rattle.std.specs.Prelude.{ℕ};
ghost use Rattle.s370_walk.specs.Tracks as tracks;
ghost use Rattle.cp_needs.specs.Areas.{IsAreaByte, IsListByte};
ghost use Rattle.cp_needs.specs.Needs.{IsDataByte, IsTextByte};
ghost use Rattle.cp_needs.specs.Noted.{AreMarked, AreStored, ArePaged, IsDataOf, IsEntryByte};
ghost use Rattle.cp_needs.specs.Noted.{IsFilled, IsFilledAt, IsFilledBy, IsPieceByte, IsTextOf};
ghost use Rattle.cp_needs.specs.Words.{IsAreaPage, IsPresent, IsPageAt};

use crate::areas::{block_here, bytes_in_block, list_address};
use crate::lists::has_area;
use s370_channel::fetch_word;
use s370_store::{PAGE_SIZE, Page, Range, Storage};
use s370_walk::{Ccw, Flags};
use std::alloc::{AllocError, Global};

/// What words of a program say of storage.
#[derive(Drop)]
pub(crate) struct Notes {
    /// The fullwords in which they and their lists lie, each as a fourth of its address.
    pub(crate) text: Vec<u32>,
    /// The pieces that their inputs could fill.
    pub(crate) filled: Vec<Range>,
    /// The pages on which their areas lie, of words that skip too.
    pub(crate) pages: Vec<Page>,
}

/// Appends the entry of this number of a word's list, as a fourth of its address, if the word has a
/// list.
fn note_entry(text: &mut Vec<u32>, word: &Ccw, number: u32) -> Result<(), AllocError>
    requires has { tracks.has_area word.now ≡ true }
    ensures marked { OnOk result
        (AreMarked (IsEntryByte word.now number) text.old.items text.new.items) }
{
    if word.flags.has(Flags::INDIRECT) {
        text.push(list_address(word, number) / 4)?;
    }
    Ok(())
}

/// Appends a piece of a word's data area, unless the word skips its data.
fn note_piece(filled: &mut Vec<Range>, word: &Ccw, piece: Range) -> Result<(), AllocError>
    ensures stored { OnOk result
        (AreStored (IsPieceByte word.now piece) filled.old.items filled.new.items) }
{
    if !word.flags.has(Flags::SKIP) {
        filled.push(piece)?;
    }
    Ok(())
}

/// Adds the list, the data area and its pages of a word to the notes, block by block, up to one
/// that its list does not say; their pages have to be present.
fn note_area<S: Storage>(storage: &S, word: &Ccw, notes: &mut Notes) -> Result<(), AllocError>
    requires here { (page : ℕ) → IsAreaPage (S.memory storage.now) word.now page
        → IsPresent (length (S.memory storage.now).bytes) (S.present storage.now) page }
    ensures marked { OnOk result
        (AreMarked (IsListByte (S.memory storage.now) word.now) notes.old.text.items
        notes.new.text.items) }
    ensures stored { OnOk result
        (AreStored (IsFilled (S.memory storage.now) word.now) notes.old.filled.items
        notes.new.filled.items) }
    ensures paged { OnOk result
        (ArePaged (IsAreaByte (S.memory storage.now) word.now) notes.old.pages.items
        notes.new.pages.items) }
{
    if !has_area(word) {
        return Ok(());
    }
    let count = u32::from(word.count);
    let mut byte = 0u32;
    'blocks: while byte < count {
        let number = (byte + 2047) / 2048;
        note_entry(&mut notes.text, word, number)?;
        let start = match block_here(storage, word, number) {
            Ok(Some(start)) => start,
            // The list says nothing more.
            Ok(None) => return Ok(()),
            // Its pages are present.
            Err(_) => unreachable!(),
        };
        let bytes = bytes_in_block(start, count - byte);
        let piece = Range {
            start,
            count: bytes,
        };
        note_piece(&mut notes.filled, word, piece)?;
        notes.pages.push(Page(start / PAGE_SIZE))?;
        byte += bytes;
    }
    Ok(())
}

/// Adds the two fullwords of the word at an address, its list, its data area and its pages to the
/// notes; all these pages have to be present.
fn note_word<S: Storage>(storage: &S, address: u32, notes: &mut Notes) -> Result<(), AllocError>
    requires even { address % 8 ≡ 0 }
    requires here { (page : ℕ) → IsPageAt (S.memory storage.now) address page
        → IsPresent (length (S.memory storage.now).bytes) (S.present storage.now) page }
    ensures marked { OnOk result
        (AreMarked (IsTextByte (S.memory storage.now) address) notes.old.text.items
        notes.new.text.items) }
    ensures stored { OnOk result
        (AreStored (IsFilledAt (S.memory storage.now) address) notes.old.filled.items
        notes.new.filled.items) }
    ensures paged { OnOk result
        (ArePaged (IsDataByte (S.memory storage.now) address) notes.old.pages.items
        notes.new.pages.items) }
{
    notes.text.push(address / 4)?;
    notes.text.push(address / 4 + 1)?;
    let found = match fetch_word(storage, address) {
        Ok(found) => found,
        // Its page is present.
        Err(_) => unreachable!(),
    };
    match found {
        Some(word) => note_area(storage, &word, notes),
        None => Ok(()),
    }
}

/// Returns the notes of the words at these addresses, with their lists and data areas; their pages
/// have to be present.
pub(crate) fn notes_of<S: Storage>(
    alloc: Global,
    storage: &S,
    words: &[u32],
) -> Result<Notes, AllocError>
    requires even { (i : ℕ) → i < length words.now → slice_index words.now i % 8 ≡ 0 }
    requires here { (i page : ℕ) → i < length words.now
        → IsPageAt (S.memory storage.now) (slice_index words.now i) page
        → IsPresent (length (S.memory storage.now).bytes) (S.present storage.now) page }
    ensures marked { IfOk result
        (λ notes. AreMarked (IsTextOf (S.memory storage.now) words.now (length words.now)) []
        notes.text.items) }
    ensures stored { IfOk result
        (λ notes. AreStored (IsFilledBy (S.memory storage.now) words.now (length words.now)) []
        notes.filled.items) }
    ensures paged { IfOk result
        (λ notes. ArePaged (IsDataOf (S.memory storage.now) words.now (length words.now)) []
        notes.pages.items) }
{
    let mut notes = Notes {
        text: Vec::new(alloc),
        filled: Vec::new(alloc),
        pages: Vec::new(alloc),
    };
    for address in words {
        note_word(storage, *address, &mut notes)?;
    }
    Ok(notes)
}
