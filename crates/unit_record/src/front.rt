//! What the control units of these devices have in common.
ghost use Rattle.std.specs.Prelude.{◌≡◌};
ghost use Rattle.unit_record.specs.Front.{is_sense};

use s370_walk::{Flags, Order};

/// The sense byte after a command that the device does not know or may not do now.
pub const COMMAND_REJECT: u8 = 0x80;
/// The sense byte after a read without a deck.
pub const INTERVENTION_REQUIRED: u8 = 0x40;

/// The command that does nothing.
pub(crate) const NO_OPERATION: u8 = 0x03;
/// The command that reads the sense byte.
const SENSE: u8 = 0x04;
/// Chain data and chain command.
const CHAINING: Flags = Flags { bits: 0xC0 };

/// Returns whether a command is a Sense that is accepted: the first of its program, without
/// chaining.
pub(crate) fn is_sense(order: Order) -> bool
    ensures { result ≡ is_sense order }
{
    order.command.code == SENSE && order.first && !order.flags.has(CHAINING)
}
