//! The cards of a deck, which are lines of a script.
ghost use Rattle.std.specs.Prelude.{◌≡◌, ◌≤◌, IfOk, length, nat_le};
ghost use Rattle.text_words.specs.Lines.{lines_of};

use crate::punch;
use std::alloc::{AllocError, Global};
use text_words::lines::cut_line;

/// The cards of a deck: lines of the script's text, which take no memory of their own.
///
/// ```text
/// let [ScriptEvent::Deck(user, cards)] = read_script(alloc, &users, b"DECK A 1\nHELLO\n")?.as_slice() else { .. };
/// let cards = cards.to_vec(alloc)?; // one card: C8 C5 D3 D3 D6, and 75 blanks
/// ```
#[derive(Clone, Copy, PartialEq, Eq)]
pub struct Cards<'a> {
    text: &'a [u8],
    count: usize,
    ghost all: { count ≤ length (lines_of text.now) },
}

impl<'a> Cards<'a> {
    ghost use Rattle.std.specs.Option.{option_map};
    ghost use Rattle.session_script.specs.Cards.{cards_in, cards_of};

    /// Returns the first `count` lines of a text, of whatever length, as cards; None if it has
    /// fewer.
    pub(crate) fn cut(text: &'a [u8], count: usize) -> Option<Cards<'a>>
        ensures { option_map cards_of result ≡ cards_in count (lines_of text.now) }
    {
        if has_lines(text, count) {
            Some(Cards { text, count })
        } else {
            None
        }
    }

    /// Returns how many cards the deck has.
    pub fn len(&self) -> usize
        ensures { result ≡ length (cards_of self.now) }
    {
        self.count
    }

    /// Returns the cards, each of the EBCDIC bytes of a line's characters and of blanks after them.
    /// A character that has no byte is a blank.
    ///
    /// # Errors
    ///
    /// `AllocError` if memory is refused.
    pub fn to_vec(&self, alloc: Global) -> Result<Vec<[u8; 80]>, AllocError>
        ensures { IfOk result (λ cards. cards.items ≡ cards_of self.now) }
    {
        let mut cards = Vec::new(alloc);
        let mut rest = self.text;
        let mut left = self.count;
        while left > 0 && !rest.is_empty() {
            let (line, after) = cut_line(rest);
            cards.push(punch::card_of(line))?;
            rest = after;
            left -= 1;
        }
        Ok(cards)
    }
}

/// Returns whether a text has at least this many lines.
fn has_lines(text: &[u8], count: usize) -> bool
    ensures { result ≡ nat_le count (length (lines_of text.now)) }
{
    let mut rest = text;
    let mut found = 0;
    while found < count && !rest.is_empty() {
        let (_, after) = cut_line(rest);
        rest = after;
        found += 1;
    }
    found == count
}
