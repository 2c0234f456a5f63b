//! The unit record devices and the console: a card reader, a card punch, a line printer and a
//! typewriter console.
//!
//! Their one theorem: each is a [`Device`](s370_walk::Device) whose machine is the one that
//! `specs/` defines, one small file a device (docs/MACHINE.md, "Unit record devices and console"):
//! no record that a program wrote is lost or changed, and none is read twice. What a device keeps
//! between programs is changed from outside only by the calls named here.
//!
//! A command that keeps a record takes the memory for it when it begins. So lack of memory is
//! reported by `Device::command`, and nothing has happened then.
//!
//! ```
//! use s370_walk::{Answer, CommandCode, Device, Flags, Order};
//! use unit_record::Punch;
//!
//! let mut punch = Punch::new(alloc);
//! let order = Order { command: CommandCode { code: 0x01 }, first: true, flags: Flags::NONE };
//! assert_eq!(rt; punch.command(order)?, Answer::Output(80));
//! punch.take(0xC1);
//! punch.finish();
//! let card = punch.entries()[0].bytes();
//! assert_eq!(rt; (card.len(), card[0], card[79]), (80, 0xC1, 0x40)); // an A, and blanks
//! ```
#![tactic(auto)]

mod console;
mod front;
mod laws;
mod outgoing;
mod output;
mod printer;
mod punch;
mod reader;
mod record;
pub mod saved;
mod trials;

pub use console::{Arrival, Console};
pub use front::{COMMAND_REJECT, INTERVENTION_REQUIRED};
pub use laws::{
    a_punch_adds_one_card, a_write_adds_one_entry, decks_are_read_in_order, written_text_is_kept,
};
pub use output::{Entry, Target};
pub use printer::Printer;
pub use punch::Punch;
pub use reader::{Card, Deck, Reader, Sender};
pub use record::{RECORD_LENGTH, RecordBytes};
pub use trials::{ConsoleTrial, PrinterTrial, PunchTrial, trials_view_their_devices};
