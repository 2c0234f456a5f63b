//! What a script says that happens.
ghost use Rattle.std.specs.Prelude.{◌≡◌};
ghost use Rattle.session_script.specs.Script.{cards_after, said};

use crate::cards::Cards;
use user_names::UserNo;

/// What a line of a script says that happens.
#[derive(Clone, Copy, PartialEq, Eq)]
pub enum ScriptEvent<'a> {
    /// A user's machine runs for at most so many units.
    Run(UserNo, u32),
    /// A user types a line.
    Line(UserNo, &'a [u8]),
    /// The interval timer of a user's machine ticks.
    Tick(UserNo),
    /// The device of this address of a user's machine is served.
    Serve(UserNo, u16),
    /// So many turns are dealt.
    Auto(u32),
    /// The operator gives a user a deck of these cards.
    Deck(UserNo, Cards<'a>),
    /// The operator moves the deck of this number from a user's reader to another's.
    Transfer(UserNo, u32, UserNo),
}

impl<'a> ScriptEvent<'a> {
    /// Returns how many of the script's next lines are cards of the event: none unless it is a
    /// deck.
    pub(crate) fn cards(&self) -> usize
        ensures { result ≡ cards_after (said self.now) }
    {
        match self {
            ScriptEvent::Deck(_, cards) => cards.len(),
            _ => 0,
        }
    }
}
