//! The card reader.
ghost use Rattle.std.specs.Prelude.{◌≡◌, ◌++◌, ◌∷◌, [], ◌==◌, length, slice_get, is_some, IsOk};
ghost use Rattle.std.specs.Prelude.{IfOk, OnOk, OnErr};
ghost use Rattle.std.specs.Option.{option_copied};
ghost use Rattle.unit_record.specs.Reader.{reader_new, reader_reset, currents, with_deck};
ghost use Rattle.unit_record.specs.Reader.{with_deck_back, queued_at, purged};

use crate::front::{COMMAND_REJECT, INTERVENTION_REQUIRED, NO_OPERATION, is_sense};
use crate::outgoing::Outgoing;
use crate::record::RecordBytes;
use s370_walk::{Answer, Device, Order, UnitStatus};
use std::alloc::{AllocError, Global};
use std::collections::VecDeque;
use std::marker::Model;

/// A card.
pub type Card = [u8; 80];

/// The command that reads a card.
const READ: u8 = 0x02;

/// From whom a deck comes.
#[derive(Clone, Copy, Debug, PartialEq, Eq)]
pub enum Sender {
    /// The operator.
    System,
    /// A user, by his number in the directory.
    User(u8),
}

/// A deck of cards, with a label by which it is found again, and the one from whom it comes.
#[derive(Drop)]
pub struct Deck {
    label: u64,
    sender: Sender,
    cards: Vec<Card>,
}

impl Model for Deck {
    ghost use Rattle.unit_record.specs.Reader.{DeckValue};

    ghost Value = { DeckValue };

    ghost view = { λ d. record { label = d.label; sender = d.sender; cards = d.cards.items } };
}

impl Deck {
    /// Returns a deck with this label, this sender and these cards.
    pub fn new(label: u64, sender: Sender, cards: Vec<Card>) -> Deck
        ensures label { result.label ≡ label }
        ensures sender { result.sender ≡ sender }
        ensures cards { result.cards ≡ cards.items }
    {
        Deck {
            label,
            sender,
            cards,
        }
    }

    /// Returns the label of the deck.
    pub fn label(&self) -> u64
        ensures { result ≡ self.now.label }
    {
        self.label
    }

    /// Returns who sent the deck.
    pub fn sender(&self) -> Sender
        ensures { result ≡ self.now.sender }
    {
        self.sender
    }

    /// Borrows the cards of the deck, in order.
    pub fn cards(&self) -> &[Card]
        ensures { result.now ≡ self.now.cards }
    {
        self.cards.as_slice()
    }
}

/// A card reader: its decks, of which the first may be being read.
#[derive(Drop)]
pub struct Reader {
    decks: VecDeque<Deck>,
    place: Option<usize>,
    sense: u8,
    giving: Outgoing,
}

impl Model for Reader {
    ghost use Rattle.unit_record.specs.Reader.{ReaderState};

    ghost Value = { ReaderState };

    ghost view = { λ r. record {
      decks = r.decks.items;
      place = r.place;
      sense = r.sense;
      giving = r.giving;
    } };
}

impl Device for Reader {
    ghost use Rattle.s370_walk.specs.Short.{nothing_needed};
    ghost use Rattle.unit_record.specs.Reader.{reader_machine};

    ghost machine = { reader_machine };

    ghost needs_memory = { nothing_needed };

    /// Begins a read of the next card, or a sense; does a no-operation, and rejects any other
    /// command; memory is never refused.
    fn command(&mut self, order: Order) -> Result<Answer, AllocError>
        ensures ready { IsOk result }
        ensures answer { IfOk result (λ answer. answer ≡ reader_machine.answer self.old order) }
        ensures after { OnOk result (self.new ≡ reader_machine.started self.old order) }
    {
        Ok(match order.command.code {
            READ => self.read(),
            NO_OPERATION => Answer::Immediate,
            _ if is_sense(order) => {
                self.giving = Outgoing::of(RecordBytes::of(&[self.sense]));
                Answer::Input(1)
            }
            _ => {
                self.sense = COMMAND_REJECT;
                Answer::Refused(UnitStatus::UNIT_CHECK)
            }
        })
    }

    /// Returns false: no command ends before the bytes that it announced.
    fn is_done(&self) -> bool {
        false
    }

    /// Returns the greatest number: only the count ends a command.
    fn ready(&self) -> u32 {
        u32::MAX
    }

    /// Returns the next byte of the card or sense that is read and moves on past it, or returns
    /// zero if none is left.
    fn give(&mut self) -> u8 {
        self.giving.give()
    }

    /// Does nothing: no command of a reader takes bytes.
    fn take(&mut self, _byte: u8) {}

    /// Returns no status beyond the end of the command.
    fn finish(&mut self) -> UnitStatus {
        UnitStatus::NONE
    }
}

impl Reader {
    ghost use Rattle.unit_record.specs.Reader.{next_card, read_answer, read_started};

    /// Returns a reader without decks.
    pub fn new(alloc: Global) -> Reader
        ensures { result ≡ reader_new }
    {
        Reader {
            decks: VecDeque::new(alloc),
            place: None,
            sense: 0,
            giving: Outgoing::new(),
        }
    }

    /// Begins a read of the next card of the first deck, which is then current, or refuses it: at
    /// the deck's end, which removes the deck, or if there is no deck.
    fn read(&mut self) -> Answer
        ensures answer { result ≡ read_answer (next_card self.old) }
        ensures after { self.new ≡ read_started self.old (next_card self.old) }
    {
        let Some(deck) = self.decks.front() else {
            self.sense = INTERVENTION_REQUIRED;
            return Answer::Refused(UnitStatus::UNIT_CHECK);
        };
        let place = self.place.unwrap_or(0);
        let Some(card) = deck.cards().get(place) else {
            let _ended = self.decks.pop_front();
            self.place = None;
            return Answer::Refused(UnitStatus::UNIT_EXCEPTION);
        };
        self.giving = Outgoing::of(RecordBytes::of(card));
        self.place = Some(place + 1);
        Answer::Input(80)
    }

    /// Appends a deck to the queue.
    ///
    /// # Errors
    ///
    /// `AllocError` if memory is refused; nothing has changed.
    pub fn deck(&mut self, deck: Deck) -> Result<(), AllocError>
        ensures kept { OnOk result (self.new ≡ with_deck self.old deck) }
        ensures err { OnErr result (self.new ≡ self.old) }
    {
        self.decks.push_back(deck)?;
        Ok(())
    }

    /// Makes the current deck, if there is one, the first of the queue again, to be read from its
    /// first card.
    pub fn put_back(&mut self)
        ensures { self.new ≡ with_deck_back self.old }
    {
        self.place = None;
    }

    /// Removes the first queued deck with this label and returns whether there was one; the current
    /// deck is not queued.
    pub fn purge(&mut self, label: u64) -> bool
        ensures found { result ≡ is_some (queued_at self.old label) }
        ensures after { self.new ≡ purged self.old (queued_at self.old label) }
    {
        let Some(index) = self.queued_at(label) else {
            return false;
        };
        let _purged = self.decks.remove(index);
        true
    }

    /// Returns the index, among all decks, of the first queued deck with this label, if there is
    /// one.
    fn queued_at(&self, label: u64) -> Option<usize>
        ensures { result ≡ queued_at self.now label }
    {
        for index in self.currents()..self.decks.len() {
            let Some(deck) = self.decks.get(index) else {
                return None;
            };
            if deck.label() == label {
                return Some(index);
            }
        }
        None
    }

    /// Returns how many decks are current: 1 if a card of the first was read, else 0.
    fn currents(&self) -> usize
        ensures { result ≡ currents self.now.place }
    {
        match self.place {
            None => 0,
            Some(_) => 1,
        }
    }

    /// Drops the bytes that are being given and clears the sense; the decks and the place in the
    /// current one stay.
    pub fn reset(&mut self)
        ensures { self.new ≡ reader_reset self.old }
    {
        self.sense = 0;
        self.giving = Outgoing::new();
    }

    /// Returns how many decks the reader has, with a current one.
    pub fn len(&self) -> usize
        ensures { result ≡ length self.now.decks }
    {
        self.decks.len()
    }

    /// Returns whether the reader has no deck.
    pub fn is_empty(&self) -> bool
        ensures { result ≡ (length self.now.decks == 0) }
    {
        self.decks.is_empty()
    }

    /// Borrows the deck at this index, if there is one; a current one is the first.
    pub fn get(&self, index: usize) -> Option<&Deck>
        ensures { option_copied result ≡ slice_get self.now.decks index }
    {
        self.decks.get(index)
    }

    /// Returns how many cards of the current deck were read, or `None` if no deck is current.
    pub fn place(&self) -> Option<usize>
        ensures { result ≡ self.now.place }
    {
        self.place
    }

    /// Returns the sense byte of the last unit check.
    pub fn sense(&self) -> u8
        ensures { result ≡ self.now.sense }
    {
        // Exhaustive: a new field fails to compile here.
        let Reader {
            decks: _,
            place: _,
            sense,
            giving: _,
        } = self;
        *sense
    }
}
