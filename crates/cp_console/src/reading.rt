//! How the words of a command are read, one after another.
ghost use Rattle.std.specs.Prelude.{◌≡◌, [], ◌∷◌, IfOk, MatchResult};
ghost use Rattle.cp_console.specs.Reading.{ended};
ghost use Rattle.text_words.specs.Words.{after_first_word, words_of};

use crate::commands::{Command, CommandError};
use text_words::words::next_word;

/// Returns the command if no operand is left, or else the error of a bad operand at this place.
pub(crate) fn ended<'a>(
    place: u64,
    command: Command<'a>,
    operands: &[u8],
) -> Result<Command<'a>, CommandError>
    ensures { result ≡ ended place command.entry (words_of operands.now) }
{
    match next_word(operands) {
        None => Ok(command),
        Some(_) => Err(CommandError::Operand(place)),
    }
}

/// Returns the next operand and what follows it, or the error of a bad operand at this place if
/// none is left.
pub(crate) fn operand(place: u64, operands: &[u8]) -> Result<(&[u8], &[u8]), CommandError>
    ensures words { MatchResult result
        (λ cut. words_of operands.now ≡ cut.0.now ∷ words_of cut.1.now)
        (λ error. (words_of operands.now ≡ []) × (error ≡ CommandError.Operand place)) }
    ensures rest { IfOk result (λ cut. cut.1.now ≡ after_first_word operands.now) }
{
    next_word(operands).ok_or(CommandError::Operand(place))
}
