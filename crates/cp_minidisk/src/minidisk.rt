//! What a minidisk has of its own.
ghost use Rattle.std.specs.Prelude.{◌≡◌, ◌<◌, ◌++◌, OnOk};
ghost use Rattle.cp_minidisk.specs.Extent.{IsWithin};
ghost use Rattle.cp_minidisk.specs.Minidisk.{minidisk_new, minidisk_reset, dismounted};
ghost use Rattle.cp_minidisk.specs.Saved.{extent_bytes, minidisk_bytes, sense_bytes};

use crate::extent::Extent;
use ckd_volume::{HEADS, Sense, Unit};
use saved_bytes::{Input, RestoreError, put_flag, put_number};
use std::alloc::AllocError;
use std::marker::Model;

/// A minidisk but for its cylinders, which are on a volume: its extent, where its arm is, and its
/// sense.
#[derive(Clone, Copy)]
pub struct Minidisk {
    extent: Extent,
    cylinder: usize,
    head: usize,
    sense: Sense,
}

impl Model for Minidisk {
    ghost use Rattle.std.specs.Prelude.{◌<◌};
    ghost use Rattle.cp_minidisk.specs.Minidisk.{MinidiskValue};

    ghost Value = { MinidiskValue };

    ghost view = { λ m. record {
      extent = m.extent;
      cylinder = m.cylinder;
      head = m.head;
      sense = m.sense;
    } };

    ghost invariant = { λ m. (m.cylinder < m.extent.count) × (m.head < 19) };

    ghost inverse = { λ v. record {
      extent = v.extent;
      cylinder = v.cylinder;
      head = v.head;
      sense = v.sense;
    } };
}

impl Minidisk {
    /// Returns a minidisk with this extent that no program has used: its arm is at its first track,
    /// and it has no sense.
    pub fn new(extent: Extent) -> Minidisk
        ensures { result ≡ minidisk_new extent }
    {
        let _cylinders = extent.count();
        Minidisk {
            extent,
            cylinder: 0,
            head: 0,
            sense: Sense {
                first: 0,
                second: 0,
            },
        }
    }

    /// Returns which cylinders of its volume the minidisk has.
    pub fn extent(&self) -> Extent
        ensures { result ≡ self.now.extent }
    {
        self.extent
    }

    /// Returns the cylinder under the minidisk's arm, the first of the extent being 0.
    pub fn cylinder(&self) -> usize
        ensures cylinder { result ≡ self.now.cylinder }
        ensures inside { result < self.now.extent.count }
    {
        self.cylinder
    }

    /// Returns the number of the head that is chosen.
    pub fn head(&self) -> usize
        ensures head { result ≡ self.now.head }
        ensures inside { result < 19 }
    {
        self.head
    }

    /// Returns the sense bytes of the minidisk.
    pub fn sense(&self) -> Sense
        ensures { result ≡ self.now.sense }
    {
        // Exhaustive: a new field fails to compile here.
        let Minidisk {
            extent: _,
            cylinder: _,
            head: _,
            sense,
        } = self;
        *sense
    }

    /// Clears the sense, as a system reset does; the arm stays.
    pub fn reset(&mut self)
        ensures { self.new ≡ minidisk_reset self.old }
    {
        self.sense = Sense {
            first: 0,
            second: 0,
        };
    }

    /// Clears the sense, and moves the arm to the first track of the minidisk.
    pub fn clear(&mut self)
        ensures { self.new ≡ minidisk_new self.old.extent }
    {
        *self = Minidisk::new(self.extent);
    }

    /// Copies arm and sense from the unit of the volume, on which the minidisk was mounted.
    pub(crate) fn dismount(&mut self, unit: &Unit)
        requires { IsWithin self.old.extent unit.now.cylinder }
        ensures { self.new ≡ dismounted self.old.extent unit.now }
    {
        let arm = unit.arm();
        self.cylinder = arm.cylinder - usize::from(self.extent.start());
        self.head = arm.head;
        self.sense = arm.sense;
    }
}

/// Appends the start and the count of an extent, and whether it may be written.
fn put_extent(out: &mut Vec<u8>, extent: Extent) -> Result<(), AllocError>
    ensures { OnOk result (out.new.items ≡ out.old.items ++ extent_bytes extent) }
{
    put_number(out, u64::from(extent.start()))?;
    put_number(out, u64::from(extent.count()))?;
    put_flag(out, extent.is_writable())
}

/// Skips an extent in the input.
///
/// # Errors
///
/// `Malformed` if there is none.
fn pass_extent(input: &mut Input<'_>) -> Result<(), RestoreError> {
    let _start = input.number()?;
    let _count = input.number()?;
    let _writable = input.flag()?;
    Ok(())
}

/// Appends the two sense bytes.
fn put_sense(out: &mut Vec<u8>, sense: Sense) -> Result<(), AllocError>
    ensures { OnOk result (out.new.items ≡ out.old.items ++ sense_bytes sense) }
{
    // Exhaustive: a new field fails to compile here.
    let Sense { first, second } = sense;
    put_number(out, u64::from(first))?;
    put_number(out, u64::from(second))
}

impl Minidisk {
    /// Appends the extent, the place of the arm and the sense of the minidisk.
    ///
    /// # Errors
    ///
    /// `AllocError` if memory is refused; `out` may have a part of it then.
    pub fn save(&self, out: &mut Vec<u8>) -> Result<(), AllocError>
        ensures { OnOk result (out.new.items ≡ out.old.items ++ minidisk_bytes self.now) }
    {
        // Exhaustive: a new field fails to compile here.
        let Minidisk {
            extent,
            cylinder,
            head,
            sense,
        } = self;
        put_extent(out, *extent)?;
        put_number(out, *cylinder as u64)?;
        put_number(out, *head as u64)?;
        put_sense(out, *sense)
    }

    /// Reads an extent, the arm's place and the sense from the input, and sets the last two.
    ///
    /// # Errors
    ///
    /// `Malformed` if they are none, or the minidisk has no such place; nothing has changed then.
    pub fn restore(&mut self, input: &mut Input<'_>) -> Result<(), RestoreError>
        ensures { self.new.extent ≡ self.old.extent }
    {
        pass_extent(input)?;
        let cylinder = input.next_usize()?;
        let head = input.next_usize()?;
        if cylinder >= usize::from(self.extent.count()) || head >= HEADS {
            return Err(RestoreError::Malformed);
        }
        let first = input.next_u8()?;
        let second = input.next_u8()?;
        self.cylinder = cylinder;
        self.head = head;
        self.sense = Sense { first, second };
        Ok(())
    }
}
