//! A minidisk but for its cylinders, which are on a volume that others share.
ghost use Rattle.std.specs.Prelude.{◌≡◌, ◌++◌, OnOk};
ghost use Rattle.cp_minidisk.specs.Minidisk.{minidisk_new, minidisk_reset};
ghost use Rattle.cp_volumes.specs.Saved.{disk_bytes};
ghost use Rattle.cp_volumes.specs.Shared.{placement_of};

use cp_minidisk::{Extent, Minidisk};
use s370_num::DevAddr;
use saved_bytes::{Input, RestoreError, put_number};
use std::alloc::AllocError;
use std::marker::Model;

/// A user's minidisk at its address, on the volume of this index.
#[derive(Clone, Copy)]
pub struct SharedDisk {
    pub(crate) address: DevAddr,
    pub(crate) volume: usize,
    pub(crate) minidisk: Minidisk,
}

impl Model for SharedDisk {
    ghost use Rattle.cp_volumes.specs.Shared.{SharedMinidisk};

    ghost Value = { SharedMinidisk };

    ghost view = { λ d. record { address = d.address; volume = d.volume; minidisk = d.minidisk } };

    ghost inverse = { λ v. record {
      address = v.address;
      volume = v.volume;
      minidisk = v.minidisk;
    } };
}

impl SharedDisk {
    /// Returns a minidisk that no program has used, at this address, with this extent of the volume
    /// of this index.
    pub fn new(address: DevAddr, volume: usize, extent: Extent) -> SharedDisk
        ensures { result ≡ record {
          address = address;
          volume = volume;
          minidisk = minidisk_new extent;
        } }
    {
        SharedDisk {
            address,
            volume,
            minidisk: Minidisk::new(extent),
        }
    }

    /// Returns the address at which the user finds the disk.
    pub fn address(&self) -> DevAddr
        ensures { result ≡ self.now.address }
    {
        self.address
    }

    /// Returns the index of the volume that the minidisk is on.
    pub fn volume(&self) -> usize
        ensures { result ≡ self.now.volume }
    {
        // Exhaustive: a new field fails to compile here.
        let SharedDisk {
            address: _,
            volume,
            minidisk: _,
        } = self;
        *volume
    }

    /// Returns what the minidisk has of its own: its extent, its arm and its sense.
    pub fn minidisk(&self) -> &Minidisk
        ensures { result.now ≡ self.now.minidisk }
    {
        &self.minidisk
    }

    /// Resets the minidisk: it has no sense, and the arm stays.
    pub(crate) fn reset(&mut self)
        ensures { self.new ≡ record self.old { minidisk = minidisk_reset self.old.minidisk } }
    {
        self.minidisk.reset();
    }

    /// Clears the minidisk, as for a LOGON: it has no sense, and the arm is at its first track.
    pub(crate) fn clear(&mut self)
        ensures { self.new ≡ record self.old { minidisk = minidisk_new self.old.minidisk.extent } }
    {
        self.minidisk.clear();
    }
}

impl SharedDisk {
    /// Appends the address of the minidisk, the index of its volume, its extent, its arm and its
    /// sense.
    ///
    /// # Errors
    ///
    /// `AllocError` if memory is refused; `out` may have a part of it then.
    pub fn save(&self, out: &mut Vec<u8>) -> Result<(), AllocError>
        ensures { OnOk result (out.new.items ≡ out.old.items ++ disk_bytes self.now) }
    {
        // Exhaustive: a new field fails to compile here.
        let SharedDisk {
            address,
            volume,
            minidisk,
        } = self;
        put_number(out, u64::from(address.get()))?;
        put_number(out, *volume as u64)?;
        minidisk.save(out)
    }

    /// Reads an address, a volume, an extent, the arm and the sense from the input, and sets the
    /// last two.
    ///
    /// # Errors
    ///
    /// `Malformed` if they are none, or the minidisk has no such place; nothing has changed then.
    pub fn restore(&mut self, input: &mut Input<'_>) -> Result<(), RestoreError>
        ensures { placement_of self.new ≡ placement_of self.old }
    {
        let _address = input.number()?;
        let _volume = input.number()?;
        self.minidisk.restore(input)
    }
}
