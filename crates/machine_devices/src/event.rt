//! What happens to the machines of an installation, one event after another.
ghost use Rattle.std.specs.Prelude.{◌≡◌};

use s370_num::DevAddr;
use unit_record::Card;
use user_names::UserNo;

/// What happens to a user's machine: the only one, or that of one user of many.
#[derive(Clone, Copy, Debug, PartialEq, Eq)]
pub enum Event<'a> {
    /// A user's machine is let run for at most so many units.
    Run(UserNo, u32),
    /// A user types a line.
    Line(UserNo, &'a [u8]),
    /// The interval timer of a user's machine ticks.
    Tick(UserNo),
    /// The operator gives a deck of these cards to a user's reader; no cards are no deck.
    Deck(UserNo, &'a [Card]),
    /// The device of this address of a user's machine is served: the channel program that was
    /// started on it runs as a whole.
    Serve(UserNo, DevAddr),
    /// The operator moves the deck with this number, unless it is current, from a user's reader to
    /// the end of another's.
    Transfer(UserNo, u64, UserNo),
}

impl<'a> Event<'a> {
    ghost use Rattle.machine_devices.specs.Events.{user_of};

    /// Returns the user whom the event names.
    pub fn user(&self) -> UserNo
        ensures { result ≡ user_of self.now }
    {
        match self {
            Event::Run(user, _) => *user,
            Event::Line(user, _) => *user,
            Event::Tick(user) => *user,
            Event::Deck(user, _) => *user,
            Event::Serve(user, _) => *user,
            Event::Transfer(user, _, _) => *user,
        }
    }
}
