//! The subchannels of the devices of one machine.
ghost use Rattle.std.specs.List.{list_any};
ghost use Rattle.std.specs.Prelude.{◌≡◌, ◌==◌, ◌≤◌, ◌++◌, Err, IfOk, IsOk, List, false, length};
ghost use Rattle.std.specs.Prelude.{map, true};
ghost use Rattle.machine_channels.specs.Disks.{DiskAt};
ghost use Rattle.machine_devices.specs.Devices.{AreAttached, attached, can_attach, has_at};
ghost use Rattle.machine_devices.specs.Devices.{places_of};
ghost use Rattle.machine_devices.specs.declared.attaching.AttachError.TheVariants as errors;
ghost use Rattle.s370_subchannels.specs.Subchannels.{can_add};
ghost use Rattle.machine_devices.specs.Lent.{devices_with};
ghost use Rattle.cp_spool.specs.Queues.{UserFiles, no_files};

use crate::devices::Devices;
use machine_channels::AttachedDisk;
use s370_num::DevAddr;
use s370_subchannels::Subchannels;
use std::alloc::{AllocError, Global};
use thiserror::Error;

/// The address above that of every device.
const PAST_DEVICES: u16 = 0x600;

/// Why devices cannot be attached to one machine.
#[derive(Clone, Copy, Debug, Drop, Error, PartialEq, Eq)]
pub enum AttachError {
    #[error("memory is out")]
    Memory,
    #[error("two devices have one address, or there are too many, or a channel is past 5")]
    Address,
}

impl Devices {
    /// Returns new idle subchannels, one for each of these devices and disks, in the order of their
    /// addresses.
    ///
    /// The error `Address` says, and it alone, that one of them has no address of its own on one of
    /// channels 0 to 5, or that they are more than 32.
    ///
    /// # Errors
    ///
    /// An `AttachError`: refused memory, or addresses that conflict.
    pub fn subchannels(
        &self,
        alloc: Global,
        disks: &[AttachedDisk],
    ) -> Result<Subchannels, AttachError>
        ensures ok { (files : UserFiles)
            → IfOk result (AreAttached (devices_with self.now files) disks.now) }
        ensures apart { let addresses = places_of self.now.places
            ++ map (λ disk. disk.address) disks.now in
            IsOk result → can_attach addresses ≡ true }
        ensures address { let addresses = places_of self.now.places
            ++ map (λ disk. disk.address) disks.now in
            result ≡ Err errors.Address → can_attach addresses ≡ false }
    {
        match addresses_of(alloc, disks) {
            Ok(addresses) => self.subchannels_at(alloc, &addresses),
            Err(_) => Err(AttachError::Memory),
        }
    }

    /// Returns new idle subchannels, one for each of these devices and for disks at these
    /// addresses, as [`Devices::subchannels`] does.
    ///
    /// # Errors
    ///
    /// An `AttachError`: refused memory, or addresses that conflict.
    pub fn subchannels_at(
        &self,
        alloc: Global,
        addresses: &[DevAddr],
    ) -> Result<Subchannels, AttachError>
        ensures ok { (files : UserFiles) (disks : List DiskAt)
            → addresses.now ≡ map (λ disk. disk.address) disks
            → IfOk result (AreAttached (devices_with self.now files) disks) }
        ensures apart { IsOk result
            → can_attach (places_of self.now.places ++ addresses.now) ≡ true }
        ensures address { result ≡ Err errors.Address
            → can_attach (places_of self.now.places ++ addresses.now) ≡ false }
    {
        let mut subchannels = Subchannels::new(alloc);
        for address in 0..PAST_DEVICES {
            let is_there = self.has_device(addresses, address);
            attach_if(&mut subchannels, DevAddr::new(address), is_there)?;
        }
        if subchannels.list().len() != self.places().count() + addresses.len() {
            return Err(AttachError::Address);
        }
        Ok(subchannels)
    }

    /// Returns whether one of these devices, or one of disks at these addresses, has the address
    /// `device`.
    fn has_device(&self, addresses: &[DevAddr], device: u16) -> bool
        ensures { result ≡ has_at (devices_with self.now no_files) addresses.now device }
    {
        match self.part_at(device) {
            Some(_) => true,
            None => is_among(addresses, device),
        }
    }
}

/// Returns whether the address `device` is one of these addresses.
fn is_among(addresses: &[DevAddr], device: u16) -> bool
    ensures { result ≡ list_any (λ address. address == device) addresses.now }
{
    addresses.iter().any(|address| address.get() == device)
}

/// Returns a new list of the addresses of these disks.
fn addresses_of(alloc: Global, disks: &[AttachedDisk]) -> Result<Vec<DevAddr>, AllocError>
    ensures { IfOk result (λ made. made.items ≡ map (λ disk. disk.address) disks.now) }
{
    let mut made = Vec::with_capacity(alloc, disks.len())?;
    for disk in disks {
        made.push(disk.address())?;
    }
    Ok(made)
}

/// Adds an idle device if `is_there` is true; its address has to be above all others.
fn attach_if(
    subchannels: &mut Subchannels,
    device: DevAddr,
    is_there: bool,
) -> Result<(), AttachError>
    ensures ok { IfOk result (λ _. subchannels.new ≡ attached is_there device subchannels.old) }
    ensures address { result ≡ Err errors.Address → can_add device subchannels.old ≡ false }
    ensures there { result ≡ Err errors.Address → is_there ≡ true }
    ensures few { length subchannels.old ≤ 32 → length subchannels.new ≤ 32 }
{
    if !is_there {
        return Ok(());
    }
    if !subchannels.can_add(device) {
        return Err(AttachError::Address);
    }
    match subchannels.add(device) {
        Ok(()) => Ok(()),
        Err(_) => Err(AttachError::Memory),
    }
}
