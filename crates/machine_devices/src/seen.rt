//! The devices of one machine as they are seen, with their files.
ghost use Rattle.std.specs.Prelude.{◌≡◌, length, slice_get};
ghost use Rattle.std.specs.Option.{option_copied, option_map};
ghost use Rattle.cp_spool.specs.File.{closed_file};
ghost use Rattle.machine_devices.specs.Lent.{devices_on};
ghost use Rattle.machine_devices.specs.Spooling.{deck_queued};

use crate::devices::Devices;
use crate::places::Places;
use cp_spool::{Queues, SeenDeck, SpoolFile};
use std::marker::Model;
use unit_record::{Console, Printer, Punch, Target};

/// The devices of one machine as they are seen, with the decks of its reader and the files that its
/// punch and its printer closed.
#[derive(Drop)]
pub struct SeenDevices<'a> {
    devices: &'a Devices,
    queues: &'a Queues,
}

impl<'a> Model for SeenDevices<'a> {
    ghost use Rattle.machine_devices.specs.Devices.{DevicesValue};
    ghost use Rattle.machine_devices.specs.Lent.{devices_on};

    ghost Value = { DevicesValue };

    ghost view = { λ s. devices_on s.devices.now s.queues.now };
}

impl<'a> SeenDevices<'a> {
    /// Returns these devices with their files, which are in these queues, as they are seen.
    pub fn new(devices: &'a Devices, queues: &'a Queues) -> SeenDevices<'a>
        ensures { result ≡ devices_on devices.now queues.now }
    {
        SeenDevices { devices, queues }
    }

    /// Returns the addresses of console, reader, punch and printer.
    pub fn places(&self) -> Places
        ensures { result ≡ self.now.places }
    {
        self.devices.places()
    }

    /// Returns the console.
    pub fn console(&self) -> &'a Console
        ensures { result.now ≡ self.now.console }
    {
        self.devices.console()
    }

    /// Returns how many decks the queue of the reader has, a current one included.
    pub fn decks(&self) -> usize
        ensures { result ≡ length self.now.reader.decks }
    {
        self.queues.decks(self.devices.user())
    }

    /// Returns the deck of this index in the queue of the reader, if there is one; a current one is
    /// the first.
    pub fn deck(&self, index: usize) -> Option<SeenDeck<'a>>
        ensures { result ≡ slice_get self.now.reader.decks index }
    {
        self.queues.deck(self.devices.user(), index)
    }

    /// Returns the first deck of this number in the queue of the reader that is not current, if
    /// there is one.
    pub fn queued(&self, id: u64) -> Option<SeenDeck<'a>>
        ensures { result ≡ deck_queued self.now id }
    {
        self.queues.waiting(self.devices.user(), id)
    }

    /// Returns how many cards of the current deck were read, or None if no deck is current.
    pub fn place(&self) -> Option<usize>
        ensures { result ≡ self.now.reader.place }
    {
        self.queues.cards_read(self.devices.user())
    }

    /// Returns the sense byte of the reader: that of its last unit check, or zero.
    pub fn reader_sense(&self) -> u8
        ensures { result ≡ self.now.reader.sense }
    {
        self.devices.reader().sense()
    }

    /// Returns the card punch.
    pub fn punch(&self) -> &'a Punch
        ensures { result.now ≡ self.now.punch }
    {
        self.devices.punch()
    }

    /// Returns the line printer.
    pub fn printer(&self) -> &'a Printer
        ensures { result.now ≡ self.now.printer }
    {
        self.devices.printer()
    }

    /// Returns the target of the punch's open file.
    pub fn target(&self) -> Target
        ensures { result ≡ self.now.target }
    {
        self.devices.target()
    }

    /// Returns how many files the punch closed.
    pub fn punched_count(&self) -> usize
        ensures { result ≡ length self.now.punched }
    {
        self.queues.punched_count(self.devices.user())
    }

    /// Returns how many files the printer closed.
    pub fn printed_count(&self) -> usize
        ensures { result ≡ length self.now.printed }
    {
        self.queues.printed_count(self.devices.user())
    }

    /// Returns the file of this index among those that the punch closed, if there is one.
    pub fn punched(&self, index: usize) -> Option<&'a SpoolFile>
        ensures { option_map closed_file (option_copied result) ≡ slice_get self.now.punched index }
    {
        self.queues.punched(self.devices.user(), index)
    }

    /// Returns the file of this index among those that the printer closed, if there is one.
    pub fn printed(&self, index: usize) -> Option<&'a SpoolFile>
        ensures { option_map closed_file (option_copied result) ≡ slice_get self.now.printed index }
    {
        self.queues.printed(self.devices.user(), index)
    }
}
