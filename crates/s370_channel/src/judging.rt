//! How a word is judged where it is.
ghost use Rattle.std.specs.Prelude.{◌≡◌};
ghost use Rattle.s370_walk.specs.Walk.{judged, is_bad_word};
ghost use Rattle.s370_channel.specs.Verdicts.{verdict_of};

use s370_walk::{Ccw, Flags, NextCcw};

/// What a word is where it is.
#[derive(Clone, Copy, PartialEq, Eq)]
pub enum Verdict {
    /// A program check.
    Bad,
    /// A transfer in channel.
    Jump,
    /// A word to be obeyed.
    Good,
}

/// Returns whether a word that is no transfer in channel is bad: its count is zero, an invalid flag
/// is set, or its address list is not on a word.
fn is_bad(word: &Ccw) -> bool
    ensures { result ≡ is_bad_word word.now }
{
    word.count == 0
        || word.flags.has(Flags::INVALID)
        || (word.flags.has(Flags::INDIRECT) && word.address % 4 != 0)
}

/// Returns whether a command word is bad, a jump or good at this place in a program of at most
/// `commands` commands.
pub fn judge(commands: u32, spot: &NextCcw, word: &Ccw) -> Verdict
    ensures { verdict_of result ≡ judged commands spot.now word.now }
{
    if word.command.is_transfer_in_channel() {
        return if spot.jumped || word.address % 8 != 0 {
            Verdict::Bad
        } else {
            Verdict::Jump
        };
    }
    if is_bad(word) {
        return Verdict::Bad;
    }
    match spot.role {
        Some(_) => Verdict::Good,
        None => {
            if word.command.is_invalid()
                || (word.command.is_control() && word.flags.has(Flags::CHAIN_DATA))
                || commands <= spot.started
            {
                Verdict::Bad
            } else {
                Verdict::Good
            }
        }
    }
}
