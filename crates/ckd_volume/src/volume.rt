//! A volume: its serial number, and its cylinders.
ghost use Rattle.std.specs.Prelude.{◌≡◌, ◌<◌, ◌≤◌, ◌+◌, ◌↔◌, Err, [], length, slice_index_or, IfOk};
ghost use Rattle.std.specs.Prelude.{IfSome, OnErr, IsSome};
ghost use Rattle.ckd_volume.specs.Front.{track_at};
ghost use Rattle.ckd_volume.specs.Volume.{blank_cylinders, slice_of, put_back, IsCount};
ghost use Rattle.ckd_volume.specs.declared.volume.VolumeError.TheVariants as errors;

use crate::cylinder::Cylinder;
use ckd_track::Track;
use std::alloc::{AllocError, Global};
use std::marker::Model;
use thiserror::Error;

/// The most cylinders of a volume.
pub const MOST_CYLINDERS: u16 = 808;

/// Why no volume is made.
#[derive(Clone, Copy, Debug, PartialEq, Eq, Drop, Error)]
pub enum VolumeError {
    /// The allocator refused a growth.
    #[error("no memory is left for the volume")]
    Memory,
    /// A volume has 1 to 808 cylinders.
    #[error("a volume has 1 to 808 cylinders")]
    Cylinders,
}

/// A volume, whose tracks are all allotted: what is written later takes no memory.
///
/// # Examples
///
/// ```
/// use ckd_volume::Volume;
///
/// let mut volume = Volume::blank(alloc, *b"WORK01", 10)?;
/// let track = volume.track_mut(0, 3).ok_or("no track")?; // cylinder 0, head 3
/// track.push([0, 0, 0, 3, 1], &[], b"data")?; // a record with the number 1, and no key
/// assert_eq!(rt; volume.cylinder(0).track(3).record(0).content, b"data".as_slice());
/// ```
#[derive(Drop)]
pub struct Volume {
    pub(crate) volser: [u8; 6],
    pub(crate) cylinders: Vec<Cylinder>,
}

impl Model for Volume {
    ghost use Rattle.std.specs.Prelude.{◌<◌, ◌≤◌, length};
    ghost use Rattle.ckd_volume.specs.Volume.{VolumeFormat};

    ghost Value = { VolumeFormat };

    ghost view = { λ v. record { volser = v.volser; cylinders = v.cylinders.items } };

    ghost invariant = { λ v. (0 < length v.cylinders.items) × (length v.cylinders.items ≤ 808) };
}

/// Returns `count` new cylinders, numbered from 0, whose tracks have no record.
#[tactic(auto, using(crate::proofs::Blanks::cylinders_on))]
fn blank_cylinders_of(alloc: Global, count: u16) -> Result<Vec<Cylinder>, AllocError>
    ensures cylinders { IfOk result (λ made. made.items ≡ blank_cylinders 0 count) }
    ensures count { IfOk result (λ made. length made.items ≡ count) }
{
    let mut cylinders = Vec::with_capacity(alloc, usize::from(count))?;
    for number in 0..count {
        let cylinder = Cylinder::blank(alloc, number)?;
        cylinders.push(cylinder)?;
    }
    Ok(cylinders)
}

/// Returns copies of these cylinders.
#[tactic(auto, using(std::proofs::lemmas::List::take_all))]
fn copies_of(alloc: Global, cylinders: &[Cylinder]) -> Result<Vec<Cylinder>, AllocError>
    ensures { IfOk result (λ made. made.items ≡ cylinders.now) }
{
    let mut copies = Vec::with_capacity(alloc, cylinders.len())?;
    for cylinder in cylinders {
        let copy = cylinder.copy(alloc)?;
        copies.push(copy)?;
    }
    Ok(copies)
}

/// Replaces as many cylinders as `part` has, from index `start` on, by those of `part`.
#[tactic(auto, using(crate::proofs::PutBack::put_one, crate::proofs::PutBack::put_none))]
fn put_cylinders(cylinders: &mut [Cylinder], start: usize, part: Vec<Cylinder>)
    requires { start + length part.items ≤ length cylinders.old }
    ensures cylinders { cylinders.new ≡ put_back cylinders.old start part.items }
    ensures count { length cylinders.new ≡ length cylinders.old }
{
    let mut at = start;
    for cylinder in part {
        cylinders[at] = cylinder;
        at += 1;
    }
}

impl Volume {
    ghost use Rattle.std.specs.Borrow.{sem};
    ghost use Rattle.ckd_volume.specs.LendingVolume.{LendsTrackOf, LendsCylinder};

    /// Returns a new volume with so many cylinders, whose tracks have no record and the usual home
    /// addresses: 00, cylinder and head.
    ///
    /// # Errors
    ///
    /// A `VolumeError`: a number of cylinders that no volume has, or refused memory.
    pub fn blank(alloc: Global, volser: [u8; 6], cylinders: u16) -> Result<Volume, VolumeError>
        ensures volume { IfOk result
            (λ made. made ≡ record { volser = volser; cylinders = blank_cylinders 0 cylinders }) }
        ensures ok { IfOk result (λ made. IsCount cylinders) }
        ensures cylinders { OnErr result (IsCount cylinders → result ≡ Err errors.Memory) }
        ensures refused { (IsCount cylinders → ⊥) → result ≡ Err errors.Cylinders }
    {
        if cylinders == 0 || cylinders > MOST_CYLINDERS {
            return Err(VolumeError::Cylinders);
        }
        match blank_cylinders_of(alloc, cylinders) {
            Ok(cylinders) => Ok(Volume { volser, cylinders }),
            Err(_) => Err(VolumeError::Memory),
        }
    }

    /// Returns a new volume with the same serial number and copies of `count` cylinders from
    /// `start` on.
    ///
    /// # Errors
    ///
    /// `AllocError` if memory is refused.
    pub fn slice(&self, alloc: Global, start: usize, count: usize) -> Result<Volume, AllocError>
        requires some { 0 < count }
        requires inside { start + count ≤ length self.now.cylinders }
        ensures { IfOk result (λ part. part
            ≡ record {
              volser = self.now.volser;
              cylinders = slice_of self.now.cylinders start count;
            }) }
    {
        let cylinders = copies_of(alloc, &self.cylinders[start..start + count])?;
        Ok(Volume {
            volser: self.volser,
            cylinders,
        })
    }

    /// Replaces as many cylinders as `part` has, from `start` on, by those of `part`; the others
    /// stay.
    ///
    /// It takes no memory.
    pub fn put_back(&mut self, start: usize, part: Volume)
        requires { start + length part.cylinders ≤ length self.old.cylinders }
        ensures { self.new
            ≡ record {
              volser = self.old.volser;
              cylinders = put_back self.old.cylinders start part.cylinders;
            } }
    {
        put_cylinders(&mut self.cylinders, start, part.cylinders);
    }

    /// Returns the serial number, in ASCII with blanks at its end.
    pub fn volser(&self) -> [u8; 6]
        ensures { result ≡ self.now.volser }
    {
        // Exhaustive: a new field fails to compile here.
        let Volume {
            volser,
            cylinders: _,
        } = self;
        *volser
    }

    /// Returns how many cylinders the volume has.
    pub fn count(&self) -> usize
        ensures count { result ≡ length self.now.cylinders }
        ensures some { 0 < result }
        ensures few { result ≤ 808 }
    {
        self.cylinders.len()
    }

    /// Borrows the cylinder with this number.
    pub fn cylinder(&self, number: usize) -> &Cylinder
        requires { number < length self.now.cylinders }
        ensures { result.now ≡ slice_index_or self.now.cylinders number [] }
    {
        &self.cylinders[number]
    }

    /// Borrows the cylinder with this number for writing.
    pub(crate) fn cylinder_mut(&mut self, number: usize) -> &mut Cylinder
        requires { number < length self.old.cylinders }
        ensures* writes_back { sem 𝓛 (LendsCylinder self.entry number result) }
        ensures value { result.now ≡ slice_index_or self.old.cylinders number [] }
    {
        &mut self.cylinders[number]
    }

    /// Borrows a track for writing, or returns `None` if the volume does not have it.
    pub fn track_mut(&mut self, cylinder: usize, head: usize) -> Option<&mut Track>
        ensures* writes_back { sem 𝓛 (LendsTrackOf self.entry cylinder head result) }
        ensures some { IsSome result ↔ ((cylinder < length self.old.cylinders) × (head < 19)) }
        ensures value { IfSome result
            (λ track. track.now ≡ track_at (slice_index_or self.old.cylinders cylinder []) head) }
    {
        let there = self.cylinders.get_mut(cylinder)?;
        there.head_mut(head)
    }
}
