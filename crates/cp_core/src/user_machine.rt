//! A user's machine with its devices, of which the storage is in frames.
ghost use Rattle.std.specs.Prelude.{◌≡◌, ◌<◌, ◌≤◌, ◌*◌, ◌++◌, ℕ, List, Err, IfOk, OnErr, OnOk};
ghost use Rattle.std.specs.Prelude.{false, length, map, replicate};
ghost use Rattle.s370_channel.specs.Reading.{as_reached};
ghost use Rattle.machine_devices.specs.Devices.{can_attach, devices_new, places_of};
ghost use Rattle.machine_devices.specs.declared.attaching.AttachError.TheVariants as attaching;
ghost use Rattle.machine_devices.specs.Life.{Leaves};
ghost use Rattle.machine_devices.specs.Lent.{KeepsOtherUsers, parts_new};
ghost use Rattle.cp_core.specs.Parcels.{IsThereIn, contents_in};
ghost use Rattle.cp_core.specs.UserMachines.{IsUnused, seat_on, user_with};
ghost use Rattle.ckd_volume.specs.Volume.{VolumeFormat};
ghost use Rattle.cp_volumes.specs.Shared.{disks_on, placements_of};
ghost use Rattle.cp_resident.specs.Reuse.{kept_none};

use crate::delivery::Parcel;
use cp_console::responses::Response;
use cp_resident::Reuse;
use cp_spool::Queues;
use cp_volumes::SharedDisk;
use machine_devices::{AttachError, Devices, Places};
use machine_panel::Machine;
use s370_num::{DevAddr, StorageKey};
use std::alloc::{AllocError, Global};
use std::marker::Model;
use user_names::UserNo;

/// A user's machine with its devices but for the bytes of its storage and the cylinders of its
/// minidisks.
#[derive(Drop)]
pub(crate) struct UserMachine {
    pub(crate) machine: Machine,
    pub(crate) devices: Devices,
    pub(crate) minidisks: Vec<SharedDisk>,
    pub(crate) keys: Vec<StorageKey>,
    pub(crate) reuse: Reuse,
}

impl Model for UserMachine {
    ghost use Rattle.cp_core.specs.UserMachines.{SeatParts};

    ghost Value = { SeatParts };

    ghost view = { λ u. record {
      parts = u.machine;
      devices = u.devices;
      minidisks = u.minidisks.items;
      keys = u.keys.items;
      reuse = u.reuse;
    } };
}

impl UserMachine {
    /// Returns a machine that is off, with zero keys for this many pages of 4096 bytes, devices at
    /// these places, and these minidisks.
    pub(crate) fn new(
        alloc: Global,
        user: UserNo,
        pages: u32,
        places: Places,
        minidisks: Vec<SharedDisk>,
    ) -> Result<UserMachine, AttachError>
        requires { pages ≤ 1024 }
        ensures keys { IfOk result (λ user. user.keys ≡ replicate (pages * 2) 0) }
        ensures parts { (volumes : List VolumeFormat)
            → IfOk result (λ user. IsUnused user.parts (devices_new places)
            (disks_on volumes minidisks.items)) }
        ensures devices { IfOk result (λ seat. seat.devices ≡ parts_new places user) }
        ensures minidisks { IfOk result (λ user. user.minidisks ≡ minidisks.items) }
        ensures kept { IfOk result
            (λ user. user.reuse ≡ kept_none (length (placements_of minidisks.items))) }
        ensures address { result ≡ Err attaching.Address
            → can_attach (places_of places ++ map (λ disk. disk.address) minidisks.items) ≡ false }
    {
        let Ok(keys) = vec![in alloc; StorageKey::ZERO; pages as usize * 2] else {
            return Err(AttachError::Memory);
        };
        let Ok(reuse) = Reuse::empty(alloc, minidisks.len()) else {
            return Err(AttachError::Memory);
        };
        let devices = Devices::new(alloc, places, user);
        let Ok(addresses) = addresses_of(alloc, &minidisks) else {
            return Err(AttachError::Memory);
        };
        match devices.subchannels_at(alloc, &addresses) {
            Ok(subchannels) => Ok(UserMachine {
                machine: Machine::new(alloc, subchannels),
                devices,
                minidisks,
                keys,
                reuse,
            }),
            Err(error) => Err(error),
        }
    }

    /// Appends a deck of a parcel to the user's reader's queue, or its message to the lines that
    /// his console has printed; if memory is refused, his machine stays.
    pub(crate) fn receive(&mut self, queues: &mut Queues, parcel: Parcel) -> Result<(), AllocError>
        requires owner { self.old.devices.user < length queues.old.users }
        requires there { IsThereIn queues.old parcel }
        ensures ok { (volumes : List VolumeFormat) (bytes : List ℕ)
            → OnOk result (Leaves as_reached (contents_in queues.old parcel)
            (user_with (seat_on queues.old self.old) volumes bytes)
            (user_with (seat_on queues.new self.new) volumes bytes)) }
        ensures err { (volumes : List VolumeFormat) (bytes : List ℕ)
            → OnErr result (user_with (seat_on queues.new self.new) volumes bytes
            ≡ user_with (seat_on queues.old self.old) volumes bytes) }
        ensures other_users { KeepsOtherUsers self.old.devices queues.old self.new.devices
            queues.new }
        ensures minidisks { self.new.minidisks ≡ self.old.minidisks }
        ensures keys { self.new.keys ≡ self.old.keys }
        ensures kept { self.new.reuse ≡ self.old.reuse }
    {
        match parcel {
            Parcel::Deck(number, sender, cards) => {
                self.devices.deck(queues, number, sender, cards)
            }
            Parcel::File(from, index, number) => self.devices.receive(queues, from, index, number),
            Parcel::Message(line) => {
                self.machine.make_room(1)?;
                self.machine.print(&Response::Written(line));
                Ok(())
            }
        }
    }
}

/// Returns a new list of the addresses of these minidisks.
fn addresses_of(alloc: Global, minidisks: &[SharedDisk]) -> Result<Vec<DevAddr>, AllocError>
    ensures { IfOk result (λ made. made.items ≡ map (λ disk. disk.address) minidisks.now) }
{
    let mut made = Vec::with_capacity(alloc, minidisks.len())?;
    for disk in minidisks {
        made.push(disk.address())?;
    }
    Ok(made)
}
