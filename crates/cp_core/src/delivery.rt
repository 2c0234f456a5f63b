//! What comes to a user by what others do: decks and messages.
ghost use Rattle.std.specs.Prelude.{◌≡◌};

use cp_console::console_line::ConsoleLine;
use machine_devices::Delivery;
use unit_record::{Card, Sender};
use user_names::UserNo;

/// What is to be delivered to a user.
#[derive(Drop)]
pub(crate) enum Parcel {
    /// A deck of these cards, with this number and this sender.
    Deck(u64, Sender, Vec<Card>),
    /// The file of this index that the punch of a user closed, which has this number.
    File(UserNo, usize, u64),
    /// A line for the console.
    Message(ConsoleLine),
}

impl Parcel {
    ghost use Rattle.cp_core.specs.Parcels.{note_of};

    /// Returns what a reply reports of the parcel: the number of its deck, or its message.
    pub(crate) fn to_delivery(&self) -> Delivery
        ensures { result ≡ note_of self.now }
    {
        match self {
            Parcel::Deck(number, _, _) => Delivery::Deck(*number),
            Parcel::File(_, _, number) => Delivery::Deck(*number),
            Parcel::Message(line) => Delivery::Message(*line),
        }
    }
}
