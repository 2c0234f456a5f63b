//! A machine of its own as sessions know it.
ghost use Rattle.std.specs.Prelude.{◌≡◌, ◌<◌, ◌≤◌, ◌==◌, ◌*◌, ◌++◌, [], Err, IfOk};
ghost use Rattle.std.specs.Prelude.{List, false, length, map, replicate};
ghost use Rattle.std.specs.List.{list_any};
ghost use Rattle.s370_store.specs.Plain.{plain_bytes, plain_memory};
ghost use Rattle.s370_store.specs.Memory.{memory_of};
ghost use Rattle.machine_panel.specs.Machine.{unused};
ghost use Rattle.s370_subchannels.specs.declared.subchannel.Subchannel.{Subchannel};
ghost use Rattle.machine_devices.specs.Devices.{AreAttached, can_attach, devices_new, places_of};
ghost use Rattle.bare370.specs.Goes.{addresses_of, disks_from, first_disk, machine_goes};
ghost use Rattle.bare370.specs.Goes.{usual_places};

use bare_installation::{BARE, Bare, each_is_life, printed_lines_do_not_matter};
use ckd_volume::{Arm, Sense, Unit, Volume};
use machine_channels::AttachedDisk;
use machine_devices::{
    AttachError, Event, FileNote, Places, Reply, SeenDevices, only_lines_turn,
    what_works_has_a_program,
};
use machine_panel::Mode;
use s370_num::DevAddr;
use s370_psw::Psw;
use s370_store::PlainStorage;
use s370_subchannels::Subchannel;
use saved_bytes::{Input, RestoreError};
use sessions::{Installation, Refused};
use std::alloc::{AllocError, Global};
use std::marker::Model;
use user_names::UserNo;

/// The address of the console.
pub const CONSOLE: u16 = 0x009;
/// The address of the card reader.
pub const READER: u16 = 0x00C;
/// The address of the card punch.
pub const PUNCH: u16 = 0x00D;
/// The address of the line printer.
pub const PRINTER: u16 = 0x00E;
/// The address of the first disk.
pub const FIRST_DISK: u16 = 0x190;
/// The most disks.
pub const MOST_DISKS: u16 = 16;

/// The arm of a disk that may be written, as a machine finds it.
const FIRST_CYLINDER: Arm = Arm {
    cylinder: 0,
    head: 0,
    home: 0,
    writable: true,
    sense: Sense {
        first: 0,
        second: 0,
    },
};

/// A machine of its own, whose user is [`BARE`].
#[derive(Drop)]
pub struct OneMachine {
    machine: Bare,
    addresses: Vec<u16>,
}

impl Model for OneMachine {
    ghost use Rattle.bare370.specs.Goes.{Alone};

    ghost Value = { Alone };

    ghost view = { λ m. record { machine = m.machine; addresses = m.addresses.items } };
}

impl OneMachine {
    /// Returns the installation of a machine, whose devices scripts may name.
    ///
    /// # Errors
    ///
    /// `AllocError` if memory is refused.
    pub fn new(alloc: Global, machine: Bare) -> Result<OneMachine, AllocError>
        ensures machine { IfOk result (λ one. one.machine ≡ machine) }
        ensures addresses { IfOk result
            (λ one. one.addresses ≡ addresses_of machine.equipped.machine.core.subchannels) }
    {
        let addresses = addresses(alloc, machine.subchannels())?;
        Ok(OneMachine { machine, addresses })
    }

    /// Returns the machine.
    pub fn machine(&self) -> &Bare
        ensures { result.now ≡ self.now.machine }
    {
        &self.machine
    }
}

impl Installation for OneMachine {
    ghost goes = { machine_goes };

    /// Returns 1: there is one user.
    fn users(&self) -> usize {
        1
    }

    /// Returns `BARE` for user 0, and an empty name for any other.
    fn name(&self, user: UserNo) -> &[u8] {
        if user.number() == 0 { BARE } else { &[] }
    }

    /// Returns whether the machine has a device of this address.
    fn has_device(&self, _user: UserNo, address: u16) -> bool {
        has_address(self.addresses.as_slice(), address)
    }

    /// Returns whether the machine is on, and whether it runs.
    fn mode(&self, _user: UserNo) -> Mode {
        self.machine.mode()
    }

    /// Returns whether the machine is ready for a slice.
    fn is_ready(&self, _user: UserNo) -> bool {
        self.machine.is_ready()
    }

    /// Returns the PSW of the machine.
    fn psw(&self, _user: UserNo) -> Psw {
        self.machine.psw()
    }

    /// Returns the general registers of the machine.
    fn registers(&self, _user: UserNo) -> [u32; 16] {
        *self.machine.general()
    }

    /// Returns a byte of the machine's storage; None past the last.
    fn storage_byte(&self, _user: UserNo, address: u32) -> Option<u8> {
        self.machine.storage().get(address as usize).copied()
    }

    /// Returns the subchannels of the machine.
    fn subchannels(&self, _user: UserNo) -> &[Subchannel] {
        self.machine.subchannels()
    }

    /// Returns the machine's console, reader, punch and printer, with their files.
    fn devices(&self, _user: UserNo) -> SeenDevices<'_> {
        self.machine.devices()
    }

    /// Returns how many lines the console has printed since they were last dropped.
    fn printed(&self, _user: UserNo) -> usize {
        self.machine.printed()
    }

    /// Returns a line that the console has printed; None past the last.
    fn console_output(&self, _user: UserNo, line: usize) -> Option<&[u8]> {
        self.machine.console_output(line)
    }

    /// Returns how many files have a number.
    fn files(&self) -> usize {
        self.machine.files().len()
    }

    /// Returns the owner and the kind of the file of this place, from 0, if there is one.
    fn file(&self, place: usize) -> Option<FileNote> {
        self.machine.files().get(place).copied()
    }

    /// Applies an event to the machine, and returns the reply.
    fn apply_event(&mut self, alloc: Global, event: &Event<'_>) -> Result<Reply, Refused> {
        match self.machine.apply(alloc, event) {
            Ok(reply) => Ok(reply),
            Err(_) => Err(Refused::Memory),
        }
    }

    /// Drops the lines that the console has printed.
    fn forget_printed(&mut self) {
        self.machine.forget_printed();
    }

    /// Drops the entries of the closed files that have a number but of the first `since`.
    fn forget_files(&mut self, since: usize) {
        self.machine.forget_files(since);
    }

    /// Returns false and appends nothing: a machine of its own has no states.
    fn save(&self, _out: &mut Vec<u8>) -> Result<bool, AllocError> {
        Ok(false)
    }

    /// Returns false and appends nothing: a machine of its own has no states.
    fn save_user(&self, _user: UserNo, _out: &mut Vec<u8>) -> Result<bool, AllocError> {
        Ok(false)
    }

    /// Returns `Malformed`: a machine of its own has no states.
    fn restore(self, _input: &mut Input<'_>) -> Result<OneMachine, RestoreError> {
        Err(RestoreError::Malformed)
    }

    /// States that bytes are those of one state of a machine, and that no event changes what it was
    /// made of.
    fn one_by_saved() {}

    /// States that an event turns no machine on or off but that of the user whom it names, and a run
    /// or a serve none; and that it starts no device but that user's.
    fn events_turn_their_own() {
        only_lines_turn();
        what_works_has_a_program();
        each_is_life();
    }

    /// States that lines that were printed before do not matter to what follows.
    fn printed_lines_do_not_matter() {
        printed_lines_do_not_matter();
    }
}

/// Returns a new list of the addresses of these devices.
fn addresses(alloc: Global, devices: &[Subchannel]) -> Result<Vec<u16>, AllocError>
    ensures { IfOk result (λ list. list.items ≡ addresses_of devices.now) }
{
    let mut list = Vec::new(alloc);
    for device in devices {
        list.push(device.address.get())?;
    }
    Ok(list)
}

/// Returns whether `address` is one of these addresses.
fn has_address(addresses: &[u16], address: u16) -> bool
    ensures { result ≡ list_any (λ device. device == address) addresses.now }
{
    addresses.iter().any(|device| *device == address)
}

/// Returns a machine that is off, with this many blocks of 2048 bytes, console, reader, punch and
/// printer, and a disk for each of these volumes, at most [`MOST_DISKS`].
///
/// # Errors
///
/// An `AttachError`: refused memory, or addresses that conflict.
pub fn machine_of(
    alloc: Global,
    blocks: u32,
    volumes: Vec<Volume>,
) -> Result<OneMachine, AttachError>
    requires least { 4 ≤ blocks }
    requires most { blocks ≤ 2048 }
    ensures machine { IfOk result (λ one. (subchannels : List Subchannel)
        × AreAttached (devices_new usual_places) (disks_from FIRST_DISK volumes.items) subchannels
        × (one.machine.equipped.machine
        ≡ unused (memory_of (replicate (2048 * blocks) 0) (replicate blocks 0)) subchannels)) }
    ensures address { result ≡ Err AttachError.Address
        → can_attach (places_of usual_places
        ++ map (λ disk. disk.address) (disks_from FIRST_DISK volumes.items)) ≡ false }
    ensures devices { IfOk result (λ one. one.machine.equipped.devices ≡ devices_new usual_places) }
    ensures files { IfOk result (λ one. one.machine.files ≡ []) }
    ensures addresses { IfOk result
        (λ one. one.addresses ≡ addresses_of one.machine.equipped.machine.core.subchannels) }
    ensures disks { IfOk result
        (λ one. one.machine.equipped.disks ≡ disks_from FIRST_DISK volumes.items) }
{
    let places = Places {
        console: Some(DevAddr::new(CONSOLE)),
        reader: Some(DevAddr::new(READER)),
        punch: Some(DevAddr::new(PUNCH)),
        printer: Some(DevAddr::new(PRINTER)),
    };
    let Ok((storage, disks)) = parts_of(alloc, blocks, volumes) else {
        return Err(AttachError::Memory);
    };
    let machine = Bare::new(alloc, storage, places, disks)?;
    match OneMachine::new(alloc, machine) {
        Ok(machine) => Ok(machine),
        Err(_) => Err(AttachError::Memory),
    }
}

/// Returns the storage of a machine, and its disks.
fn parts_of(
    alloc: Global,
    blocks: u32,
    volumes: Vec<Volume>,
) -> Result<(PlainStorage, Vec<AttachedDisk>), AllocError>
    requires least { 4 ≤ blocks }
    requires most { blocks ≤ 2048 }
    ensures storage { IfOk result
        (λ parts. plain_memory parts.0
        ≡ memory_of (replicate (2048 * blocks) 0) (replicate blocks 0)) }
    ensures size { IfOk result (λ parts. 8192 ≤ length (plain_bytes parts.0)) }
    ensures disks { IfOk result (λ parts. parts.1.items ≡ disks_from FIRST_DISK volumes.items) }
{
    let storage = PlainStorage::new(alloc, blocks)?;
    let disks = disks_of(alloc, volumes)?;
    Ok((storage, disks))
}

/// Returns a disk for each of these volumes, at addresses from [`FIRST_DISK`] on.
fn disks_of(alloc: Global, volumes: Vec<Volume>) -> Result<Vec<AttachedDisk>, AllocError>
    ensures { IfOk result (λ disks. disks.items ≡ disks_from FIRST_DISK volumes.items) }
{
    let mut disks = Vec::new(alloc);
    let mut address = FIRST_DISK;
    for volume in volumes {
        let unit = disk(alloc, volume)?;
        disks.push(AttachedDisk::new(DevAddr::new(address), unit))?;
        address = address.saturating_add(1);
    }
    Ok(disks)
}

/// Returns a disk unit over a volume, with its arm over cylinder 0, that may be written.
fn disk(alloc: Global, volume: Volume) -> Result<Unit, AllocError>
    ensures { IfOk result (λ unit. unit ≡ first_disk volume) }
{
    // A volume has a first cylinder.
    let _cylinders = volume.count();
    Unit::new(alloc, volume, FIRST_CYLINDER)
}
