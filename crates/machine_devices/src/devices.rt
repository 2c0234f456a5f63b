//! The parts of the devices of one machine.
ghost use Rattle.std.specs.Prelude.{◌≡◌, IfSome};
ghost use Rattle.machine_devices.specs.Devices.{IsAttached, kind_in, place_at};
ghost use Rattle.machine_devices.specs.Lent.{parts_new, parts_reset};

use crate::places::{AttachedDevice, Places, is_there};
use cp_spool::SpoolReader;
use machine_channels::Disks;
use std::alloc::Global;
use std::marker::Model;
use unit_record::{Console, Printer, Punch, Target};
use user_names::UserNo;

/// The parts of the devices of one machine, but for its disks and its files, which are among those
/// of all users ([`Queues`](cp_spool::Queues)) and are lent to each call. Console, reader, punch
/// and printer are there also where no address leads to them.
#[derive(Drop)]
pub struct Devices {
    pub(crate) places: Places,
    pub(crate) console: Console,
    pub(crate) reader: SpoolReader,
    pub(crate) punch: Punch,
    pub(crate) printer: Printer,
    pub(crate) target: Target,
    pub(crate) user: UserNo,
}

impl Model for Devices {
    ghost use Rattle.machine_devices.specs.Lent.{DevicesParts};

    ghost Value = { DevicesParts };

    ghost view = { λ d. record {
      places = d.places;
      console = d.console;
      reader = d.reader;
      punch = d.punch;
      printer = d.printer;
      target = d.target;
      user = d.user;
    } };
}

impl Devices {
    /// Returns devices at these places that have done nothing, whose files are those of this user;
    /// what is punched is for the operator.
    pub fn new(alloc: Global, places: Places, user: UserNo) -> Devices
        ensures { result ≡ parts_new places user }
    {
        Devices {
            places,
            console: Console::new(alloc),
            reader: SpoolReader::new(),
            punch: Punch::new(alloc),
            printer: Printer::new(alloc),
            target: Target::System,
            user,
        }
    }

    /// Returns which of console, reader, punch and printer has this address, if one has.
    pub fn part_at(&self, device: u16) -> Option<AttachedDevice>
        ensures { result ≡ place_at self.now.places device }
    {
        let places = self.places;
        if is_there(places.console, device) {
            Some(AttachedDevice::Console)
        } else if is_there(places.reader, device) {
            Some(AttachedDevice::Reader)
        } else if is_there(places.punch, device) {
            Some(AttachedDevice::Punch)
        } else if is_there(places.printer, device) {
            Some(AttachedDevice::Printer)
        } else {
            None
        }
    }

    /// Returns which of console, reader, punch, printer and these disks has this address, if one
    /// has.
    pub fn kind_at<D: Disks>(&self, disks: &D, device: u16) -> Option<AttachedDevice>
        ensures kind { result ≡ kind_in self.now.places (D.disks disks.now) device }
        ensures inside { IfSome result (IsAttached (D.disks disks.now)) }
    {
        match self.part_at(device) {
            Some(part) => Some(part),
            None => match disks.disk_at(device) {
                Some(index) => Some(AttachedDevice::Disk(index)),
                None => None,
            },
        }
    }

    /// Resets console, reader, punch and printer: no command is under way, no console line waits,
    /// and no device has sense.
    ///
    /// Files, decks, the lines that were written and the punch's target stay.
    pub fn reset(&mut self)
        ensures { self.new ≡ parts_reset self.old }
    {
        self.console.reset();
        self.reader = SpoolReader::new();
        self.punch.reset();
        self.printer.reset();
    }

    /// Resets console, punch and printer, but neither the reader nor the disks.
    pub(crate) fn reset_except_reader(&mut self)
        ensures { self.new ≡ record (parts_reset self.old) { reader = self.old.reader } }
    {
        self.console.reset();
        self.punch.reset();
        self.printer.reset();
    }

    /// Returns the addresses of console, reader, punch and printer.
    pub fn places(&self) -> Places
        ensures { result ≡ self.now.places }
    {
        self.places
    }

    /// Returns the console.
    pub fn console(&self) -> &Console
        ensures { result.now ≡ self.now.console }
    {
        &self.console
    }

    /// Returns the state of the card reader, without its decks: the sense byte and the bytes to be
    /// given.
    pub fn reader(&self) -> &SpoolReader
        ensures { result.now ≡ self.now.reader }
    {
        &self.reader
    }

    /// Returns the user to whom the devices and their files belong.
    pub fn user(&self) -> UserNo
        ensures { result ≡ self.now.user }
    {
        // Exhaustive: a new field fails to compile here.
        let Devices {
            places: _,
            console: _,
            reader: _,
            punch: _,
            printer: _,
            target: _,
            user,
        } = self;
        *user
    }

    /// Returns the card punch.
    pub fn punch(&self) -> &Punch
        ensures { result.now ≡ self.now.punch }
    {
        &self.punch
    }

    /// Returns the line printer.
    pub fn printer(&self) -> &Printer
        ensures { result.now ≡ self.now.printer }
    {
        &self.printer
    }

    /// Returns the target of the punch's open file.
    pub fn target(&self) -> Target
        ensures { result ≡ self.now.target }
    {
        self.target
    }
}
