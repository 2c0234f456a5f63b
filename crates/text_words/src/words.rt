//! The words of a line.
ghost use Rattle.std.specs.Prelude.{◌≡◌, ◌∷◌, [], map, IfOk, IfSome, MatchOption};
ghost use Rattle.std.specs.Option.{option_map};
ghost use Rattle.text_words.specs.Words.{after_first_word, after_word, unindented, word_of};
ghost use Rattle.text_words.specs.Words.{words_of};

use crate::lines::place_of;
use std::alloc::{AllocError, Global};

/// Returns the text before a line's first blank and the text after that, or the whole line and
/// `None` if it has no blank.
pub fn cut_word(line: &[u8]) -> (&[u8], Option<&[u8]>)
    ensures word { result.0.now ≡ word_of line.now }
    ensures rest { option_map (λ rest. rest.now) result.1 ≡ after_word line.now }
{
    match place_of(b' ', line) {
        Some(at) => (&line[..at], Some(&line[at + 1..])),
        None => (line, None),
    }
}

/// Returns the first word of a line and the text after the blank that ends it, or `None` if the
/// line has only blanks.
///
/// Words are separated by any number of blanks.
pub fn next_word(line: &[u8]) -> Option<(&[u8], &[u8])>
    ensures words { MatchOption result (words_of line.now ≡ [])
        (λ cut. words_of line.now ≡ cut.0.now ∷ words_of cut.1.now) }
    ensures rest { IfSome result (λ cut. cut.1.now ≡ after_first_word line.now) }
{
    let line = unindented(line);
    if line.is_empty() {
        return None;
    }
    let (word, rest) = cut_word(line);
    match rest {
        Some(rest) => Some((word, rest)),
        None => Some((word, &[])),
    }
}

/// Returns the line without the blanks at its front.
pub fn unindented(line: &[u8]) -> &[u8]
    ensures { result.now ≡ unindented line.now }
{
    let mut rest = line;
    while let [b' ', after @ ..] = rest {
        rest = after;
    }
    rest
}

/// Returns the words of a line, which any number of blanks separate, in a new vector; no word is
/// empty.
///
/// # Errors
///
/// `AllocError` if memory is refused.
pub fn words_of<'a>(alloc: Global, line: &'a [u8]) -> Result<Vec<&'a [u8]>, AllocError>
    ensures { IfOk result (λ words. map (λ w. w.now) words.items ≡ words_of line.now) }
{
    line.split(|c| *c == b' ')
        .filter(|word| !word.is_empty())
        .collect(alloc)
}
