//! The devices of a user that are no disks.
ghost use Rattle.std.specs.Prelude.{◌≡◌, ◌≤◌, ◌==◌, length};
ghost use Rattle.std.specs.List.{list_any};
ghost use Rattle.std.specs.Option.{option_to_list};
ghost use Rattle.cp_directory.specs.Devices.{place_of, places_of, with_place};

use s370_num::DevAddr;

/// A kind of device of which a user has at most one.
#[derive(Clone, Copy, Debug, PartialEq, Eq)]
pub enum DeviceKind {
    Console,
    Reader,
    Punch,
    Printer,
}

/// The addresses of a user's console, reader, punch and printer; None where the user has no such
/// device.
#[derive(Clone, Copy, Debug, PartialEq, Eq)]
pub struct UserDevices {
    pub console: Option<DevAddr>,
    pub reader: Option<DevAddr>,
    pub punch: Option<DevAddr>,
    pub printer: Option<DevAddr>,
}

impl UserDevices {
    /// None of them.
    pub const NONE: UserDevices = UserDevices {
        console: None,
        reader: None,
        punch: None,
        printer: None,
    };

    /// Returns the address of the device of this kind, if the user has one.
    pub fn place_of(&self, kind: DeviceKind) -> Option<DevAddr>
        ensures { result ≡ place_of self.now kind }
    {
        match kind {
            DeviceKind::Console => self.console,
            DeviceKind::Reader => self.reader,
            DeviceKind::Punch => self.punch,
            DeviceKind::Printer => self.printer,
        }
    }

    /// Returns whether console, reader, punch or printer has this address.
    pub fn has(&self, address: DevAddr) -> bool
        ensures { result ≡ list_any (λ other. other == address) (places_of self.now) }
    {
        // Exhaustive: a new field fails to compile here.
        let UserDevices {
            console,
            reader,
            punch,
            printer,
        } = self;
        is_there(*console, address)
            || is_there(*reader, address)
            || is_there(*punch, address)
            || is_there(*printer, address)
    }

    /// Returns how many of console, reader, punch and printer a user has.
    pub fn count(&self) -> usize
        ensures value { result ≡ length (places_of self.now) }
        ensures few { result ≤ 4 }
    {
        count_of(self.console)
            + count_of(self.reader)
            + count_of(self.punch)
            + count_of(self.printer)
    }

    /// Sets the address of the device of this kind, in place of one that it had.
    pub(crate) fn put(&mut self, kind: DeviceKind, address: DevAddr)
        ensures { self.new ≡ with_place self.old kind address }
    {
        match kind {
            DeviceKind::Console => self.console = Some(address),
            DeviceKind::Reader => self.reader = Some(address),
            DeviceKind::Punch => self.punch = Some(address),
            DeviceKind::Printer => self.printer = Some(address),
        }
    }
}

/// Returns whether a device, if the user has it, has this address.
fn is_there(place: Option<DevAddr>, address: DevAddr) -> bool
    ensures { result ≡ list_any (λ other. other == address) (option_to_list place) }
{
    match place {
        Some(other) => other == address,
        None => false,
    }
}

/// Returns 1 for a device that has an address, and 0 for one that has none.
fn count_of(place: Option<DevAddr>) -> usize
    ensures value { result ≡ length (option_to_list place) }
    ensures few { result ≤ 1 }
{
    match place {
        Some(_) => 1,
        None => 0,
    }
}
