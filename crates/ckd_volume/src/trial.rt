//! A disk as a program uses it that is only tried: its cylinders are lent from the volume, and stay
//! as they are.
//!
//! A cylinder over which a command begins is copied first, once, and what is written is on the
//! copy: so each command may need memory, and no end of one does.
ghost use Rattle.std.specs.Prelude.{◌≡◌, ◌<◌, ◌≤◌, ◌+◌, [], length, slice_index_or, slice_set};
ghost use Rattle.std.specs.Prelude.{replicate, None, Some, IsSome, IfOk, OnOk, OnErr};
ghost use Rattle.ckd_volume.specs.Begin as begin;
ghost use Rattle.ckd_volume.specs.End.{stands};
ghost use Rattle.ckd_volume.specs.Front.{Cylinder};
ghost use Rattle.ckd_volume.specs.Table as table;
ghost use Rattle.ckd_volume.specs.Trial.{IsReady, overlaid};

use crate::cylinder::Cylinder;
use crate::panel::ControlUnit;
use crate::unit::Arm;
use crate::volume::Volume;
use s370_walk::{Answer, Device, Order, UnitStatus};
use std::alloc::{AllocError, Global};
use std::marker::Model;
use std::mem::replace;

/// A disk on trial, a whole volume or a part of one.
#[derive(Drop)]
pub struct UnitTrial<'a> {
    alloc: Global,
    volser: [u8; 6],
    cylinders: &'a [Cylinder],
    copies: Vec<Option<Cylinder>>,
    cylinder: usize,
    home: usize,
    panel: ControlUnit,
}

impl<'a> Model for UnitTrial<'a> {
    ghost use Rattle.std.specs.Prelude.{◌≡◌, ◌<◌, length};
    ghost use Rattle.ckd_volume.specs.Unit.{Disk};
    ghost use Rattle.ckd_volume.specs.Trial.{IsReady, overlaid};

    ghost Value = { Disk };

    ghost view = { λ u. record {
      volser = u.volser;
      cylinders = overlaid u.cylinders.now u.copies.items;
      cylinder = u.cylinder;
      home = u.home;
      front = u.panel;
    } };

    ghost invariant = { λ u. (length u.copies.items ≡ length u.cylinders.now)
        × (u.cylinder < length u.cylinders.now) × (u.home < length u.cylinders.now)
        × IsReady u.copies.items u.cylinder u.panel.job };
}

/// Copies the cylinder at this index into `copies`, if there is no copy of it yet.
#[tactic(auto, using(crate::proofs::Overlays::copied_same))]
fn copy_cylinder(
    alloc: Global,
    own: &[Cylinder],
    copies: &mut Vec<Option<Cylinder>>,
    index: usize,
) -> Result<(), AllocError>
    requires inside { index < length copies.old.items }
    requires room { length copies.old.items ≡ length own.now }
    ensures copied { OnOk result (IsSome (slice_index_or copies.new.items index None)) }
    ensures overlay_unchanged { overlaid own.now copies.new.items ≡ overlaid own.now
        copies.old.items }
    ensures room { length copies.new.items ≡ length own.now }
    ensures err { OnErr result (copies.new.items ≡ copies.old.items) }
{
    if copies[index].is_some() {
        return Ok(());
    }
    let copy = of_number(own, index).copy(alloc)?;
    copies[index] = Some(copy);
    Ok(())
}

/// Begins a command over the copy of a cylinder, or over the cylinder itself if it has no copy.
#[tactic(auto, using(crate::proofs::Overlays::overlaid_copy, crate::proofs::Overlays::overlaid_own))]
fn begin_over(
    panel: &mut ControlUnit,
    own: &[Cylinder],
    copies: &[Option<Cylinder>],
    cylinder: usize,
    order: Order,
) -> Answer
    requires inside { cylinder < length own.now }
    requires room { length copies.now ≡ length own.now }
    ensures answer { result ≡ (table.begun (begin.starting panel.old order.first)
        (begin.right_found panel.old order.first)
        (slice_index_or (overlaid own.now copies.now) cylinder []) order).answer }
    ensures after { panel.new ≡ (table.begun (begin.starting panel.old order.first)
        (begin.right_found panel.old order.first)
        (slice_index_or (overlaid own.now copies.now) cylinder []) order).front }
{
    match &copies[cylinder] {
        Some(copy) => panel.begin(copy, order),
        None => panel.begin(of_number(own, cylinder), order),
    }
}

/// Ends the pending command over the copy of a cylinder, which it may change; without a copy it
/// only ends it.
#[tactic(auto, using(crate::proofs::Overlays::overlaid_copy, crate::proofs::Overlays::overlaid_own, crate::proofs::Overlays::overlaid_set, crate::proofs::Overlays::same_set))]
fn finish_over(
    panel: &mut ControlUnit,
    _own: &[Cylinder],
    copies: &mut Vec<Option<Cylinder>>,
    cylinder: usize,
) -> UnitStatus
    requires inside { cylinder < length copies.old.items }
    requires room { length copies.old.items ≡ length _own.now }
    requires ready { IsReady copies.old.items cylinder panel.old.job }
    ensures status { result ≡ (table.ended panel.old
        (slice_index_or (overlaid _own.now copies.old.items) cylinder []) panel.old.job).status }
    ensures after { panel.new ≡ (table.ended panel.old
        (slice_index_or (overlaid _own.now copies.old.items) cylinder []) panel.old.job).front }
    ensures written { overlaid _own.now copies.new.items
        ≡ slice_set (overlaid _own.now copies.old.items) cylinder
        (stands (slice_index_or (overlaid _own.now copies.old.items) cylinder []) panel.old.head
        (table.ended panel.old
        (slice_index_or (overlaid _own.now copies.old.items) cylinder []) panel.old.job).written) }
    ensures ready { IsReady copies.new.items cylinder panel.new.job }
    ensures room { length copies.new.items ≡ length _own.now }
{
    match replace(&mut copies[cylinder], None) {
        Some(copy) => {
            let mut there = copy;
            let status = panel.finish(&mut there);
            copies[cylinder] = Some(there);
            status
        }
        // No command is under way.
        None => panel.end(UnitStatus::NONE),
    }
}

/// Returns a list of `count` places for copies of cylinders, all empty.
fn no_copies(alloc: Global, count: usize) -> Result<Vec<Option<Cylinder>>, AllocError>
    ensures { IfOk result (λ made. made.items ≡ replicate count None) }
{
    let mut made = Vec::with_capacity(alloc, count)?;
    let mut added = 0;
    while added < count {
        made.push(None)?;
        added += 1;
    }
    Ok(made)
}

impl Volume {
    ghost use Rattle.std.specs.Prelude.{slice_range};
    ghost use Rattle.ckd_volume.specs.Unit.{idle};

    /// Returns a unit for a dry run over `count` of the cylinders from `first` on, with this arm,
    /// which leaves the volume as it is.
    ///
    /// It is as between programs. Each cylinder that a command reaches is copied.
    ///
    /// # Errors
    ///
    /// `AllocError` if memory is refused.
    #[tactic(auto, using(crate::proofs::Overlays::overlaid_none))]
    pub fn trial(
        &self,
        alloc: Global,
        first: usize,
        count: usize,
        arm: Arm,
    ) -> Result<UnitTrial<'_>, AllocError>
        requires inside { first + count ≤ length self.now.cylinders }
        requires cylinder { arm.cylinder < count }
        requires home { arm.home < count }
        requires head { arm.head < 19 }
        ensures { IfOk result (λ trial. trial
            ≡ idle (record {
              volser = self.now.volser;
              cylinders = slice_range self.now.cylinders first (first + count);
            }) arm) }
    {
        let panel = ControlUnit::new(alloc, arm.writable, arm.head, arm.sense)?;
        let copies = no_copies(alloc, count)?;
        Ok(UnitTrial {
            alloc,
            volser: self.volser(),
            cylinders: &self.cylinders[first..first + count],
            copies,
            cylinder: arm.cylinder,
            home: arm.home,
            panel,
        })
    }
}

/// Borrows the cylinder at this index.
fn of_number(own: &[Cylinder], index: usize) -> &Cylinder
    requires { index < length own.now }
    ensures { result.now ≡ slice_index_or own.now index [] }
{
    &own[index]
}

impl<'a> UnitTrial<'a> {
    ghost use Rattle.ckd_volume.specs.Unit.{moved, seek_of, seek_status};

    /// Ends Seek (07): moves the arm to the track that its bytes name, or fails with command reject
    /// if there is no such track.
    fn seek(&mut self) -> UnitStatus
        ensures status { result ≡ seek_status (seek_of self.old) }
        ensures after { self.new ≡ moved self.old (seek_of self.old) }
    {
        match self.panel.sought(self.cylinders.len()) {
            Some(seek) => {
                self.cylinder = seek.cylinder;
                self.panel.end_seek(seek.head)
            }
            None => self.panel.fail(0x80, 0),
        }
    }
}

impl<'a> Device for UnitTrial<'a> {
    ghost use Rattle.std.specs.Prelude.{true};
    ghost use Rattle.ckd_volume.specs.Unit.{disk_machine};

    ghost machine = { disk_machine };

    ghost needs_memory = { λ disk order. true };

    /// Begins a command over a copy of the arm's cylinder, which is made if there is none; a first
    /// Read IPL moves the arm to its home first.
    fn command(&mut self, order: Order) -> Result<Answer, AllocError> {
        let is_ipl = order.first && order.command.code == 0x02;
        let target = if is_ipl { self.home } else { self.cylinder };
        copy_cylinder(self.alloc, self.cylinders, &mut self.copies, target)?;
        if is_ipl {
            self.cylinder = self.home;
            self.panel.choose_first_head();
        }
        Ok(begin_over(
            &mut self.panel,
            self.cylinders,
            &self.copies,
            self.cylinder,
            order,
        ))
    }

    /// Returns whether the command is a Write Count, Key and Data that has all its bytes.
    fn is_done(&self) -> bool {
        self.panel.is_done()
    }

    /// Returns the next byte that the command gives and moves on past it, or returns zero if none
    /// is left.
    fn give(&mut self) -> u8 {
        self.panel.give()
    }

    /// Appends a byte to those that the command has taken, or drops it if there is no room.
    fn take(&mut self, byte: u8) {
        self.panel.take(byte);
    }

    /// Ends the pending command, a Seek or one over the copy of the arm's cylinder, and returns the
    /// unit status.
    fn finish(&mut self) -> UnitStatus {
        if self.panel.is_seeking() {
            return self.seek();
        }
        finish_over(
            &mut self.panel,
            self.cylinders,
            &mut self.copies,
            self.cylinder,
        )
    }
}
