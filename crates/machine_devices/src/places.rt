//! Where the devices of a machine are.
ghost use Rattle.std.specs.Prelude.{◌≡◌, ◌≤◌, length};
ghost use Rattle.std.specs.Option.{option_to_list};
ghost use Rattle.machine_devices.specs.Devices.{is_there, places_of};

use s370_num::DevAddr;

/// The addresses of console, reader, punch and printer; None where the machine has no such device.
#[derive(Clone, Copy, PartialEq, Eq)]
pub struct Places {
    pub console: Option<DevAddr>,
    pub reader: Option<DevAddr>,
    pub punch: Option<DevAddr>,
    pub printer: Option<DevAddr>,
}

impl Places {
    /// A machine that has none of them.
    pub const NONE: Places = Places {
        console: None,
        reader: None,
        punch: None,
        printer: None,
    };

    /// Returns how many of console, reader, punch and printer a machine has.
    pub fn count(&self) -> usize
        ensures count { result ≡ length (places_of self.now) }
        ensures most { result ≤ 4 }
    {
        let Places {
            console,
            reader,
            punch,
            printer,
        } = *self;
        one_if(console) + one_if(reader) + one_if(punch) + one_if(printer)
    }
}

/// Returns one if a device has an address, else zero.
fn one_if(place: Option<DevAddr>) -> usize
    ensures count { result ≡ length (option_to_list place) }
    ensures most { result ≤ 1 }
{
    match place {
        Some(_) => 1,
        None => 0,
    }
}

/// What has an address.
#[derive(Clone, Copy, PartialEq, Eq)]
pub enum AttachedDevice {
    Console,
    Reader,
    Punch,
    Printer,
    /// The disk of this index.
    Disk(usize),
}

/// Returns whether a device, if it has an address, has the address `device`.
pub(crate) fn is_there(place: Option<DevAddr>, device: u16) -> bool
    ensures { result ≡ is_there place device }
{
    match place {
        None => false,
        Some(address) => address.get() == device,
    }
}
