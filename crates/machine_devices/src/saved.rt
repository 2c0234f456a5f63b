//! Devices, and what is noted of files, as bytes, and back.
//!
//! What is saved is exact: no two values have the same bytes. What is restored is lawful whatever
//! the bytes are, and whoever saves it again sees whether it is what was saved.
ghost use Rattle.std.specs.Prelude.{◌≡◌, ◌++◌, OnOk};
ghost use Rattle.machine_devices.specs.Saved.{console_part_bytes, devices_bytes, kind_number};
ghost use Rattle.machine_devices.specs.Saved.{kind_place, note_bytes, owner_bytes, places_bytes};
ghost use Rattle.machine_devices.specs.Saved.{spooled_bytes};
ghost use Rattle.saved_bytes.specs.Codes.{number, optional};

use crate::devices::Devices;
use crate::files::{FileKind, FileNote};
use crate::places::Places;
use s370_num::DevAddr;
use saved_bytes::{Input, RestoreError, put_number, put_one, put_zero};
use std::alloc::{AllocError, Global};
use unit_record::saved::{put_target, target_of};
use user_names::{MOST_USERS, UserNo};

/// Appends the address of a device, or that there is none.
fn put_address(out: &mut Vec<u8>, address: Option<DevAddr>) -> Result<(), AllocError>
    ensures { OnOk result (out.new.items ≡ out.old.items ++ optional number address) }
{
    match address {
        Some(device) => {
            put_one(out)?;
            put_number(out, u64::from(device.get()))
        }
        None => put_zero(out),
    }
}

/// Reads from the input the address of a device, or that there is none.
///
/// # Errors
///
/// `Malformed` if the input is bad.
fn address_of(input: &mut Input<'_>) -> Result<Option<DevAddr>, RestoreError> {
    if input.flag()? {
        Ok(Some(DevAddr::new(input.next_u16()?)))
    } else {
        Ok(None)
    }
}

/// Appends the addresses of console, reader, punch and printer.
fn put_places(out: &mut Vec<u8>, places: Places) -> Result<(), AllocError>
    ensures { OnOk result (out.new.items ≡ out.old.items ++ places_bytes places) }
{
    // Exhaustive: a new field fails to compile here.
    let Places {
        console,
        reader,
        punch,
        printer,
    } = places;
    put_address(out, console)?;
    put_address(out, reader)?;
    put_address(out, punch)?;
    put_address(out, printer)
}

/// Reads from the input the addresses of console, reader, punch and printer.
///
/// # Errors
///
/// `Malformed` if the input is bad.
fn places_of(input: &mut Input<'_>) -> Result<Places, RestoreError> {
    Ok(Places {
        console: address_of(input)?,
        reader: address_of(input)?,
        punch: address_of(input)?,
        printer: address_of(input)?,
    })
}

/// Reads the number of a user from the input.
///
/// # Errors
///
/// `Malformed` if no user can have it, or it is none.
fn user_of(input: &mut Input<'_>) -> Result<UserNo, RestoreError> {
    let number = input.next_u8()?;
    if usize::from(number) < MOST_USERS {
        Ok(UserNo::new(number))
    } else {
        Err(RestoreError::Malformed)
    }
}

impl Devices {
    /// Appends the addresses of the devices, and the state of the console.
    fn put_console(&self, out: &mut Vec<u8>) -> Result<(), AllocError>
        ensures { OnOk result (out.new.items ≡ out.old.items ++ console_part_bytes self.now) }
    {
        put_places(out, self.places)?;
        self.console.save(out)
    }

    /// Appends the states of reader, punch and printer.
    fn put_spooled(&self, out: &mut Vec<u8>) -> Result<(), AllocError>
        ensures { OnOk result (out.new.items ≡ out.old.items ++ spooled_bytes self.now) }
    {
        self.reader.save(out)?;
        self.punch.save(out)?;
        self.printer.save(out)
    }

    /// Appends the target of the punch's files, and the user to whom the devices belong.
    fn put_owner(&self, out: &mut Vec<u8>) -> Result<(), AllocError>
        ensures { OnOk result (out.new.items ≡ out.old.items ++ owner_bytes self.now) }
    {
        put_target(out, self.target)?;
        put_number(out, u64::from(self.user.number()))
    }

    /// Appends the addresses and the states of the devices, the punch's target and their user, but
    /// not the closed files and the decks.
    ///
    /// # Errors
    ///
    /// `AllocError` if memory is refused; `out` may have a part of it then.
    pub fn save(&self, out: &mut Vec<u8>) -> Result<(), AllocError>
        ensures { OnOk result (out.new.items ≡ out.old.items ++ devices_bytes self.now) }
    {
        // Exhaustive: a new field fails to compile here.
        let Devices {
            places: _,
            console: _,
            reader: _,
            punch: _,
            printer: _,
            target: _,
            user: _,
        } = self;
        self.put_console(out)?;
        self.put_spooled(out)?;
        self.put_owner(out)
    }

    /// Reads the state of these devices, which have done nothing, from the input.
    ///
    /// What an error leaves is lawful, and nothing else is said of it.
    ///
    /// # Errors
    ///
    /// `Malformed` if the input is bad, or has the state of devices at other addresses or of
    /// another user; `Memory` if memory is refused. A part may be restored then.
    pub fn restore(&mut self, alloc: Global, input: &mut Input<'_>) -> Result<(), RestoreError>
        ensures places { self.new.places ≡ self.old.places }
        ensures user { self.new.user ≡ self.old.user }
    {
        if places_of(input)? != self.places {
            return Err(RestoreError::Malformed);
        }
        self.console.restore(input)?;
        self.reader.restore(input)?;
        self.punch.restore(alloc, input)?;
        self.printer.restore(alloc, input)?;
        self.target = target_of(input)?;
        if user_of(input)? == self.user {
            Ok(())
        } else {
            Err(RestoreError::Malformed)
        }
    }
}

/// Returns the number by which saved bytes name the kind of a file: 0, 1 or 2.
fn number_of(kind: FileKind) -> u64
    ensures { result ≡ kind_number kind }
{
    match kind {
        FileKind::Deck => 0,
        FileKind::Punch(_) => 1,
        FileKind::Printer(_) => 2,
    }
}

/// Returns the place of a file among those that its device closed; 0 of a deck.
fn place_of(kind: FileKind) -> usize
    ensures { result ≡ kind_place kind }
{
    match kind {
        FileKind::Deck => 0,
        FileKind::Punch(place) => place,
        FileKind::Printer(place) => place,
    }
}

/// Appends the user, the kind and the place of a file.
///
/// # Errors
///
/// `AllocError` if memory is refused; `out` may have a part of it then.
pub fn put_note(out: &mut Vec<u8>, note: FileNote) -> Result<(), AllocError>
    ensures { OnOk result (out.new.items ≡ out.old.items ++ note_bytes note) }
{
    let FileNote { user, kind } = note;
    put_number(out, u64::from(user.number()))?;
    put_number(out, number_of(kind))?;
    put_number(out, place_of(kind) as u64)
}

/// Reads the user, the kind and the place of a file from the input.
///
/// # Errors
///
/// `Malformed` if the input is bad.
pub fn note_of(input: &mut Input<'_>) -> Result<FileNote, RestoreError> {
    let user = user_of(input)?;
    let number = input.next_u8()?;
    let place = input.next_usize()?;
    let kind = match number {
        0 => FileKind::Deck,
        1 => FileKind::Punch(place),
        2 => FileKind::Printer(place),
        _ => return Err(RestoreError::Malformed),
    };
    Ok(FileNote { user, kind })
}
