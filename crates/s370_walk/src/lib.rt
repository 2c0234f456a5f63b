//! The walk of a channel program, one step at a time, and what it goes over: devices and forms of
//! words.
//!
//! Its theorems: a walk reaches one end ([`a_walk_comes_to_one_end`]), and to the same one where
//! each word is read as it was when the program began, if the program changes none
//! ([`steady_programs_end_alike`]). What each step does is `next` in `specs/Walk.antt`, which is to
//! be read next to docs/MACHINE.md, "Channel"; the run of a program in `s370_channel` is that walk,
//! for each [`Device`], each [`WordForm`] and each storage.
//!
//! A device is what implements [`Device`]: `device.command(order)` begins a command,
//! `device.give()` and `device.take(byte)` move its bytes, and `device.finish()` says how it went.
//!
//! The words of a guest's program are copied once, its bytes are found by real addresses, and the
//! copy is run. This run is the guest's own ([`real_walks_are_the_guests`]): the copy over real
//! addresses ends as over the guest's ([`real_walks_are_the_copys`]), and that copy walks as the
//! guest's program, whose words are as they were when it was copied. A copy that runs after one
//! more command ends as by itself ([`prefixed_walks_are_walks`]), and over addresses that are
//! present it never needs a page that is not ([`real_walks_are_never_stuck`]). A [`CcwLocation`]
//! is what a copy has in the place of an address of the guest. Two walks are compared step by
//! step, by a `Pairing` of their storages and devices that each step keeps.
//!
//! ```
//! use s370_walk::{Answer, CommandCode, Device, Flags, Order, UnitStatus};
//! use unit_record::Reader;
//!
//! let mut reader = Reader::new(alloc);
//! let read = Order { command: CommandCode { code: 0x02 }, first: true, flags: Flags::NONE };
//! // it has no deck
//! assert_eq!(rt; reader.command(read)?, Answer::Refused(UnitStatus::UNIT_CHECK));
//! ```
#![tactic(auto)]

mod bits;
mod copy_laws;
mod laws;
mod parts;
mod places;
mod traits;

pub use bits::{ChannelStatus, CommandCode, Flags, UnitStatus};
pub use copy_laws::{
    prefixed_walks_are_walks, real_walks_are_never_stuck, real_walks_are_the_copys,
    real_walks_are_the_guests,
};
pub use laws::{a_view_walks_as_its_device, a_walk_comes_to_one_end, steady_programs_end_alike};
pub use parts::{Answer, Ccw, Direction, Ending, NextCcw, Order, Position, Progress, Transfer};
pub use places::CcwLocation;
pub use traits::{Device, WordForm};
