//! Boot: a system from a directory.
ghost use Rattle.std.specs.Prelude.{◌≡◌, ◌<◌, ◌≤◌, ◌↔◌, ℕ, All, Err, IfOk, IfSome, IsOk, IsSome};
ghost use Rattle.std.specs.Prelude.{List, None, Some, true, length, map, slice_get};
ghost use Rattle.std.specs.List.{find, position};
ghost use Rattle.cp_core.specs.Boot.{IsBooted, boot_error, places_in};
ghost use Rattle.cp_placement.specs.Seating.{AreLawful, IsFirstPast, first_missing, has_twins};
ghost use Rattle.cp_placement.specs.Seating.{minidisks_at, user_is_past, user_lacks};
ghost use Rattle.cp_core.specs.UserMachines.{SeatParts, unowned};
ghost use Rattle.cp_core.specs.Whole.{AreNew};
ghost use Rattle.machine_devices.specs.declared.attaching.AttachError.TheVariants as attaching;
ghost use Rattle.cp_directory.specs.Grammar.{HasLawfulDevices};

use crate::events::BootError;
use crate::system::System;
use crate::user_machine::UserMachine;
use ckd_volume::Volume;
use cp_directory::{Directory, User, UserDevices};
use cp_frames::Frames;
use cp_placement::{has_twins, missing_volume, past_end, seats_of};
use cp_spool::Queues;
use cp_volumes::Volumes;
use machine_devices::{AttachError, Places};
use std::alloc::{AllocError, Global};
use std::marker::Model;
use user_names::UserNo;

/// How many frames and slots a system has.
#[derive(Clone, Copy, Debug, PartialEq, Eq)]
pub struct Sizes {
    frames: u16,
    slots: u32,
}

impl Model for Sizes {
    ghost use Rattle.std.specs.Prelude.{◌≤◌};
    ghost use Rattle.cp_core.specs.Sizes.{SystemSizes};

    ghost Value = { SystemSizes };

    ghost view = { λ s. record { frames = s.frames; slots = s.slots } };

    ghost invariant = { λ s. (s.frames ≤ 4096) × (s.slots ≤ 65536) };

    ghost inverse = { λ v. record { frames = v.frames; slots = v.slots } };
}

impl Sizes {
    /// Returns the sizes of a system with this many frames of real storage and slots for pages;
    /// None if they are more than 4096 frames or 65,536 slots.
    pub fn new(frames: u32, slots: u32) -> Option<Sizes>
        ensures some { IsSome result ↔ ((frames ≤ 4096) × (slots ≤ 65536)) }
        ensures value { IfSome result (λ sizes. sizes ≡ record { frames = frames; slots = slots }) }
    {
        if frames > 4096 {
            return None;
        }
        if slots > 65536 {
            return None;
        }
        Some(Sizes {
            frames: frames as u16,
            slots,
        })
    }

    /// Returns how many frames of real storage there are.
    pub fn frames(self) -> u16
        ensures value { result ≡ self.frames }
        ensures most { result ≤ 4096 }
    {
        self.frames
    }

    /// Returns how many slots for pages there are.
    pub fn slots(self) -> u32
        ensures value { result ≡ self.slots }
        ensures most { result ≤ 65536 }
    {
        self.slots
    }
}

impl System {
    /// Boots the system that a directory states, on these volumes, frames and slots: every user is
    /// off, storage is zero, and each minidisk is on the cylinders of its extent. `DuplicateDevice`
    /// is never returned for a directory that was read, and `ExtentPastEnd` only where every volume
    /// is there.
    ///
    /// # Errors
    ///
    /// A `BootError`: the first reason why these sizes, volumes and this directory make no system.
    ///
    /// # Examples
    ///
    /// ```
    /// use cp_core::{BootError, Sizes, System};
    /// use cp_directory::read_directory;
    ///
    /// let directory = read_directory(alloc, b"USER A PW 8K\n")?;
    /// let sizes = Sizes::new(16, 8).ok_or("too many frames or slots")?;
    /// let system = System::boot(alloc, directory, Vec::new(alloc), sizes)?;
    /// assert_eq!(rt; system.page_ins(), 0);
    /// ```
    pub fn boot(
        alloc: Global,
        directory: Directory,
        volumes: Vec<Volume>,
        sizes: Sizes,
    ) -> Result<System, BootError>
        ensures ok { IfOk result
            (λ system. IsBooted directory volumes.items sizes.frames sizes.slots system) }
        ensures too_few { (result ≡ Err BootError.TooFewFrames) ↔ (sizes.frames < 16) }
        ensures duplicate { (result ≡ Err BootError.DuplicateVolume)
            ↔ ((16 ≤ sizes.frames) × (has_twins volumes.items ≡ true)) }
        ensures no_volume { (volser : List ℕ) → result ≡ Err (BootError.NoVolume volser)
            → first_missing volumes.items (find (user_lacks volumes.items) directory)
            ≡ Some volser }
        ensures past { (user address : ℕ) → result ≡ Err (BootError.ExtentPastEnd user address)
            → IsFirstPast volumes.items directory user address
            × (find (user_lacks volumes.items) directory ≡ None) }
        ensures device { result ≡ Err BootError.DuplicateDevice → All HasLawfulDevices directory
            → ⊥ }
        ensures lacking { IsOk result → find (user_lacks volumes.items) directory ≡ None }
        ensures inside { IsOk result → position (user_is_past volumes.items) directory ≡ None }
    {
        if sizes.frames() < 16 {
            return Err(BootError::TooFewFrames);
        }
        if has_twins(&volumes) {
            return Err(BootError::DuplicateVolume);
        }
        if let Some(volser) = missing_volume(&volumes, directory.users()) {
            return Err(BootError::NoVolume(volser));
        }
        if let Some((user, address)) = past_end(&volumes, directory.users()) {
            return Err(BootError::ExtentPastEnd(user, address));
        }
        let users = match machines_of(alloc, &volumes, directory.users()) {
            Ok(users) => users,
            Err(error) => return Err(boot_error(error)),
        };
        let pages = match pages_of(alloc, directory.users()) {
            Ok(pages) => pages,
            Err(_) => return Err(BootError::Memory),
        };
        let volumes = match Volumes::new(alloc, volumes) {
            Ok(volumes) => volumes,
            Err(_) => return Err(BootError::Memory),
        };
        let queues = match Queues::new(alloc, users.len()) {
            Ok(queues) => queues,
            Err(_) => return Err(BootError::Memory),
        };
        match Frames::new(alloc, sizes.frames(), sizes.slots(), pages) {
            Ok(frames) => Ok(System {
                alloc,
                directory,
                users,
                frames,
                files: Vec::new(alloc),
                queues,
                volumes,
                is_spent: false,
            }),
            Err(_) => Err(BootError::Memory),
        }
    }
}

/// Returns the error of a boot for an error of attaching a user's devices.
fn boot_error(error: AttachError) -> BootError
    ensures { result ≡ boot_error error }
{
    match error {
        AttachError::Memory => BootError::Memory,
        AttachError::Address => BootError::DuplicateDevice,
    }
}

/// Returns the addresses of a user's console, reader, punch and printer, as his machine has them.
fn places_in(devices: UserDevices) -> Places
    ensures { result ≡ places_in devices }
{
    Places {
        console: devices.console,
        reader: devices.reader,
        punch: devices.punch,
        printer: devices.printer,
    }
}

/// Returns a new machine for each user, with his devices, and his minidisks on these volumes.
fn machines_of(
    alloc: Global,
    volumes: &[Volume],
    users: &[User],
) -> Result<Vec<UserMachine>, AttachError>
    requires there { find (user_lacks volumes.now) users.now ≡ None }
    requires inside { position (user_is_past volumes.now) users.now ≡ None }
    requires few { length users.now ≤ 64 }
    ensures new { IfOk result
        (λ machines. AreNew volumes.now (map unowned machines.items) users.now) }
    ensures owners { IfOk result
        (λ machines. (k : ℕ) (s : SeatParts) → slice_get machines.items k ≡ Some s
        → s.devices.user ≡ k) }
    ensures lawful { IfOk result (λ machines. (k : ℕ) → AreLawful (minidisks_at users.now k)) }
    ensures address { result ≡ Err attaching.Address → All HasLawfulDevices users.now → ⊥ }
{
    let mut machines = Vec::new(alloc);
    for user in users {
        let Ok(minidisks) = seats_of(alloc, volumes, user.minidisks()) else {
            return Err(AttachError::Memory);
        };
        let places = places_in(user.devices());
        let number = UserNo::new(machines.len() as u8);
        let machine = UserMachine::new(alloc, number, user.storage().pages(), places, minidisks)?;
        match machines.push(machine) {
            Ok(()) => {}
            Err(_) => return Err(AttachError::Memory),
        }
    }
    Ok(machines)
}

/// Returns a new list of how many pages of storage each user has.
fn pages_of(alloc: Global, users: &[User]) -> Result<Vec<u32>, AllocError>
    ensures pages { IfOk result (λ pages. pages.items ≡ map (λ user. user.pages) users.now) }
    ensures few { IfOk result (λ pages. All (λ count. count ≤ 1024) pages.items) }
{
    let mut pages = Vec::new(alloc);
    for user in users {
        pages.push(user.storage().pages())?;
    }
    Ok(pages)
}
