//! A deck as it is seen in its queue.
ghost use Rattle.std.specs.Prelude.{◌≡◌, ◌<◌, length, slice_get, IfOk, IfSome};
ghost use Rattle.cp_spool.specs.File.{cards_in};

use crate::file::SpoolFile;
use std::alloc::{AllocError, Global};
use std::marker::Model;
use unit_record::{Card, Sender};

/// A deck in a reader's queue: its label, from whom it comes, and its cards.
#[derive(Drop)]
pub struct SeenDeck<'a> {
    pub(crate) label: u64,
    pub(crate) sender: Sender,
    pub(crate) file: &'a SpoolFile,
}

impl<'a> Model for SeenDeck<'a> {
    ghost use Rattle.unit_record.specs.Reader.{DeckValue};
    ghost use Rattle.cp_spool.specs.File.{cards_in};

    ghost Value = { DeckValue };

    ghost view = { λ d. record {
      label = d.label;
      sender = d.sender;
      cards = cards_in d.file.now.contents;
    } };
}

impl<'a> SeenDeck<'a> {
    /// Returns this file as a deck with this label and this sender.
    pub(crate) fn new(label: u64, sender: Sender, file: &'a SpoolFile) -> SeenDeck<'a>
        ensures label { result.label ≡ label }
        ensures sender { result.sender ≡ sender }
        ensures cards { result.cards ≡ cards_in file.now.contents }
    {
        SeenDeck {
            label,
            sender,
            file,
        }
    }

    /// Returns the label of the deck.
    pub fn label(&self) -> u64
        ensures { result ≡ self.now.label }
    {
        self.label
    }

    /// Returns who sent the deck.
    pub fn sender(&self) -> Sender
        ensures { result ≡ self.now.sender }
    {
        self.sender
    }

    /// Returns how many cards the deck has.
    pub fn count(&self) -> usize
        ensures { result ≡ length self.now.cards }
    {
        self.file.count()
    }

    /// Returns the card of this index of the deck, if there is one.
    pub fn card(&self, index: usize) -> Option<Card>
        ensures value { result ≡ slice_get self.now.cards index }
        ensures fits { IfSome result (λ _. index < usize.MAX) }
    {
        self.file.card(index)
    }

    /// Returns a new copy of the cards of the deck.
    ///
    /// # Errors
    ///
    /// `AllocError` if memory is refused.
    pub fn to_vec(&self, alloc: Global) -> Result<Vec<Card>, AllocError>
        ensures { IfOk result (λ cards. cards.items ≡ self.now.cards) }
    {
        let mut cards = Vec::new(alloc);
        for index in 0..self.count() {
            match self.card(index) {
                Some(card) => cards.push(card)?,
                None => unreachable!(),
            }
        }
        Ok(cards)
    }
}
