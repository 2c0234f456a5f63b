//! The programs of a user's devices that are kept from one serve to the next.
ghost use Rattle.std.specs.Prelude.{◌≡◌, IfOk, IfSome, IsSome, None, Some, length, replicate, true};
ghost use Rattle.cp_ccw.specs.CachedProgram.{IsAtBase};
ghost use Rattle.cp_resident.specs.Reuse.{KnowsAgain, RunsAgain, counted, dropped, kept_for};
ghost use Rattle.cp_resident.specs.Reuse.{kept_none, run_again, with_disk, with_unit};
ghost use Rattle.cp_dat.specs.Lent.{is_lent_page, lent_memory};
ghost use Rattle.cp_needs.specs.Words.{IsFixedStill};

use cp_ccw::{CachedPages, CachedProgram, is_valid, reusable};
use cp_dat::Dat;
use machine_channels::UnitRecord;
use s370_channel::Caw;
use std::alloc::{AllocError, Global};
use std::marker::Model;
use std::mem::replace;

/// For each device of a user the last program of it that no input could change, and how often one
/// was run again.
#[derive(Drop)]
pub struct Reuse {
    pub(crate) console: Option<CachedProgram>,
    pub(crate) reader: Option<CachedProgram>,
    pub(crate) punch: Option<CachedProgram>,
    pub(crate) printer: Option<CachedProgram>,
    /// Of the minidisks, in their order.
    pub(crate) disks: Vec<Option<CachedPages>>,
    pub(crate) reuses: u64,
}

impl Model for Reuse {
    ghost use Rattle.cp_resident.specs.Reuse.{ReuseValue};

    ghost Value = { ReuseValue };

    ghost view = { λ r. record {
      console = r.console;
      reader = r.reader;
      punch = r.punch;
      printer = r.printer;
      disks = r.disks.items;
      reuses = r.reuses;
    } };
}

/// Returns a number plus one, or the number itself if it is the greatest.
fn one_more(number: u64) -> u64
    ensures { result ≡ counted number }
{
    if number == u64::MAX {
        number
    } else {
        number + 1
    }
}

impl Reuse {
    /// Returns an empty cache for the devices of a user with this many minidisks.
    ///
    /// # Errors
    ///
    /// `AllocError` if memory is refused.
    pub fn empty(alloc: Global, minidisks: usize) -> Result<Reuse, AllocError>
        ensures { IfOk result (λ made. made ≡ kept_none minidisks) }
    {
        Ok(Reuse {
            console: None,
            reader: None,
            punch: None,
            printer: None,
            disks: places_for(alloc, minidisks)?,
            reuses: 0,
        })
    }

    /// Returns the cached programs of a user, and leaves an empty cache that has no minidisks and
    /// has counted nothing. It takes no memory.
    pub fn take(&mut self, alloc: Global) -> Reuse
        ensures taken { result ≡ self.old }
        ensures left { self.new ≡ kept_none 0 }
    {
        replace(
            self,
            Reuse {
                console: None,
                reader: None,
                punch: None,
                printer: None,
                disks: Vec::new(alloc),
                reuses: 0,
            },
        )
    }

    /// Returns how often a cached program was run again.
    pub fn reuses(&self) -> u64
        ensures { result ≡ self.now.reuses }
    {
        // Exhaustive: a new field fails to compile here.
        let Reuse {
            console: _,
            reader: _,
            punch: _,
            printer: _,
            disks: _,
            reuses,
        } = self;
        *reuses
    }

    /// Adds one to the count of how often a cached program was run again, unless that is at its
    /// greatest value.
    pub fn count_reuse(&mut self)
        ensures { self.new ≡ run_again self.old }
    {
        self.reuses = one_more(self.reuses);
    }

    /// Returns the cached program of a device that is no disk, if it has one that began with this
    /// start and all that it was copied from is as it was.
    pub fn of_unit(
        &self,
        unit: UnitRecord,
        storage: &Dat<'_>,
        start: &Caw,
    ) -> Option<&CachedProgram>
        ensures kept { IfSome result (λ kept. kept_for self.now unit ≡ Some kept.now) }
        ensures base { IfSome result (λ kept. IsAtBase kept.now storage.now start.now) }
        ensures other { RunsAgain self.now unit storage.now start.now → IsSome result }
    {
        let kept = match unit {
            UnitRecord::Console => &self.console,
            UnitRecord::Reader => &self.reader,
            UnitRecord::Punch => &self.punch,
            UnitRecord::Printer => &self.printer,
        };
        match kept {
            Some(kept) => {
                if reusable(kept, storage, *start) {
                    Some(kept)
                } else {
                    None
                }
            }
            None => None,
        }
    }

    /// Returns whether the program of the minidisk of this index may run again: whether one is
    /// cached and all that is known of it is as it was.
    pub fn is_disk_valid(&self, index: usize, storage: &Dat<'_>, start: &Caw) -> bool
        ensures known_again { result ≡ true → KnowsAgain self.now index storage.now start.now }
        ensures other { KnowsAgain self.now index storage.now start.now → result ≡ true }
        ensures still { result ≡ true
            → IsFixedStill (lent_memory storage.now) (is_lent_page storage.now) start.now.address }
    {
        match self.disks.get(index) {
            Some(Some(known)) => is_valid(known, storage, *start),
            _ => false,
        }
    }

    /// Caches a program for a device that is no disk in place of its last one, or with None only
    /// drops that. It takes no memory.
    pub fn put_unit(&mut self, unit: UnitRecord, kept: Option<CachedProgram>)
        ensures { self.new ≡ with_unit self.old unit kept }
    {
        match unit {
            UnitRecord::Console => self.console = kept,
            UnitRecord::Reader => self.reader = kept,
            UnitRecord::Punch => self.punch = kept,
            UnitRecord::Printer => self.printer = kept,
        }
    }

    /// Caches a program for the minidisk of this index, if there is one, in place of its last one,
    /// or with None only drops that.
    pub fn put_disk(&mut self, index: usize, known: Option<CachedPages>)
        ensures { self.new ≡ with_disk self.old index known }
    {
        if index < self.disks.len() {
            self.disks[index] = known;
        }
    }

    /// Drops all cached programs; the count of runs stays. It takes no memory.
    pub fn clear(&mut self)
        ensures { self.new ≡ dropped self.old }
    {
        self.console = None;
        self.reader = None;
        self.punch = None;
        self.printer = None;
        empty_disks(&mut self.disks);
    }
}

/// Returns a new list of this many places for cached programs, all of them empty.
fn places_for(alloc: Global, minidisks: usize) -> Result<Vec<Option<CachedPages>>, AllocError>
    ensures { IfOk result (λ made. made.items ≡ replicate minidisks None) }
{
    let mut disks = Vec::new(alloc);
    'places: while disks.len() < minidisks {
        disks.push(None)?;
    }
    Ok(disks)
}

/// Drops the cached programs of all minidisks.
fn empty_disks(disks: &mut [Option<CachedPages>])
    ensures { disks.new ≡ replicate (length disks.old) None }
{
    let mut place = 0usize;
    'places: while place < disks.len() {
        disks[place] = None;
        place += 1;
    }
}
