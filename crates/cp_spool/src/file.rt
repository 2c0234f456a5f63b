//! Spool files.
ghost use Rattle.std.specs.Prelude.{◌≡◌, ◌<◌, length, slice_get, IfSome};
ghost use Rattle.cp_spool.specs.File.{card_of};

use std::marker::Model;
use unit_record::{Card, Entry, Target};

/// Columns of a card.
const COLUMNS: usize = 80;
/// What is in columns that nothing was punched into.
const BLANK: u8 = 0x40;

/// What a spool file has.
#[derive(Drop)]
pub enum Contents {
    /// Cards, in order: a deck that was given.
    Cards(Vec<Card>),
    /// Entries, in order: what a punch or a printer made.
    Entries(Vec<Entry>),
}

/// A spool file: a deck of cards or what a punch or a printer made, and for whom it is.
#[derive(Drop)]
pub struct SpoolFile {
    target: Target,
    contents: Contents,
}

impl Model for SpoolFile {
    ghost use Rattle.cp_spool.specs.File.{SpoolFileValue, contents_of};

    ghost Value = { SpoolFileValue };

    ghost view = { λ f. record { target = f.target; contents = contents_of f.contents } };
}

impl SpoolFile {
    ghost use Rattle.cp_spool.specs.File.{cards_in, contents_of, entries_in, is_deck};
    ghost use Rattle.cp_spool.specs.Forgotten.{emptied};

    /// Returns a file with this target and these contents.
    pub(crate) fn new(target: Target, contents: Contents) -> SpoolFile
        ensures { result ≡ record { target = target; contents = contents_of contents } }
    {
        SpoolFile { target, contents }
    }

    /// Returns the target of the file: the operator or a user.
    pub fn target(&self) -> Target
        ensures { result ≡ self.now.target }
    {
        // Exhaustive: a new field fails to compile here.
        let SpoolFile {
            target,
            contents: _,
        } = self;
        *target
    }

    /// Returns the file without the entries that a punch or a printer made, whose memory is given
    /// back; a deck that was given keeps its cards.
    pub(crate) fn without_entries(self) -> SpoolFile
        ensures { result ≡ emptied self }
    {
        let SpoolFile { target, contents } = self;
        let contents = match contents {
            Contents::Cards(cards) => Contents::Cards(cards),
            Contents::Entries(mut entries) => {
                entries.clear();
                entries.shrink_to(0);
                Contents::Entries(entries)
            }
        };
        SpoolFile { target, contents }
    }

    /// Returns whether the file is a deck that was given, and not what a punch or a printer made.
    pub(crate) fn is_deck(&self) -> bool
        ensures { result ≡ is_deck self.now.contents }
    {
        match &self.contents {
            Contents::Cards(_) => true,
            Contents::Entries(_) => false,
        }
    }

    /// Returns how many cards the file has as a deck: one for each of its cards or entries.
    pub fn count(&self) -> usize
        ensures { result ≡ length (cards_in self.now.contents) }
    {
        match &self.contents {
            Contents::Cards(cards) => cards.len(),
            Contents::Entries(entries) => entries.len(),
        }
    }

    /// Returns the card of this index, if there is one; of an entry its first 80 bytes, filled with
    /// blanks.
    pub fn card(&self, index: usize) -> Option<Card>
        ensures value { result ≡ slice_get (cards_in self.now.contents) index }
        ensures fits { IfSome result (λ _. index < usize.MAX) }
    {
        match &self.contents {
            Contents::Cards(cards) => {
                if index < cards.len() {
                    Some(cards[index])
                } else {
                    None
                }
            }
            Contents::Entries(entries) => {
                if index < entries.len() {
                    Some(card_of(entries[index].bytes()))
                } else {
                    None
                }
            }
        }
    }

    /// Returns the entries that a punch or a printer made, in order; none of a deck that was given.
    pub fn entries(&self) -> &[Entry]
        ensures { result.now ≡ entries_in self.now.contents }
    {
        match &self.contents {
            Contents::Cards(_) => &[],
            Contents::Entries(entries) => entries.as_slice(),
        }
    }
}

/// Returns the card with the first 80 of these bytes, filled with blanks.
fn card_of(bytes: &[u8]) -> Card
    ensures { result ≡ card_of bytes.now }
{
    let mut card = [BLANK; COLUMNS];
    let punched = COLUMNS.min(bytes.len());
    card[..punched].copy_from_slice(&bytes[..punched]);
    card
}
