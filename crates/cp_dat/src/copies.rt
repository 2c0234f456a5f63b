//! A user's storage as bytes: pages are copied, wherever they are, and put back.
//!
//! So a program can be tried on copies of the pages to which it comes: no page is brought for that.
//! They are placed then, for which there may be no room; and only once they are somewhere are the
//! bytes put back, which nothing refuses.
ghost use Rattle.std.specs.Prelude.{◌≡◌, ◌≢◌, ℕ, ◌+◌, ◌*◌, ◌/◌, ◌%◌, ◌<◌, ◌≤◌, true, length};
ghost use Rattle.std.specs.Prelude.{slice_index, slice_range, IfOk, IfErr, OnOk, OnErr};
ghost use Rattle.s370_store.specs.Access.{put};

use crate::{Dat, SparseBytes};
use s370_num::StorageKey;
use s370_store::{FramesOut, PAGE_SIZE, Page, Storage, Supply, UnitSupply};
use std::alloc::{AllocError, Global};

/// How many bytes are copied at once.
const CHUNK: u32 = 256;

impl<'a> Dat<'a> {
    ghost use Rattle.cp_dat.specs.Copies.{CameOnly, StandAll, is_wanted, written_over};
    ghost use Rattle.cp_dat.specs.Lent.{lent_bytes, lent_keys, lent_memory, lent_pool};
    ghost use Rattle.cp_dat.specs.Lent.{is_lent_page, user_of};
    ghost use Rattle.cp_dat.specs.Supplied.{HasNoRoom, IsBetweenUnits, Stands};

    /// Fills `into` with 256 bytes of one page from `start` on, wherever the page is; with zeros if
    /// it is in no frame and in no slot.
    fn copy_chunk(&self, start: u32, into: &mut [u8])
        requires aligned { start % 256 ≡ 0 }
        requires inside { start + 256 ≤ length (lent_bytes self.now) }
        requires long { length into.old ≡ 256 }
        ensures { into.new ≡ slice_range (lent_bytes self.now) start (start + 256) }
    {
        let page = Page(start / PAGE_SIZE);
        match self.frame_of(page) {
            Some(_) => return self.frames.load(self.user, start, into),
            None => {}
        }
        match self.frames.slot_of(self.user, page) {
            Some(_) => self.copy_bytes(start, into),
            None => into.fill(0),
        }
    }

    /// Fills `into` with 256 bytes of the storage from `start` on, one by one.
    fn copy_bytes(&self, start: u32, into: &mut [u8])
        requires inside { start + 256 ≤ length (lent_bytes self.now) }
        requires long { length into.old ≡ 256 }
        ensures { into.new ≡ slice_range (lent_bytes self.now) start (start + 256) }
    {
        let mut index = 0u32;
        while index < 256 {
            match self.frames.byte(self.user, start + index) {
                Some(byte) => into[index as usize] = byte,
                None => unreachable!(),
            }
            index += 1;
        }
    }

    /// Copies a page, wherever it is, to its place in `into`, which has a byte for each of the
    /// storage.
    pub fn copy_page(&self, page: Page, into: &mut SparseBytes)
        requires inside { page.0 * 4096 < length (lent_bytes self.now) }
        requires long { length into.old ≡ length (lent_bytes self.now) }
        ensures long { length into.new ≡ length (lent_bytes self.now) }
        ensures copied { (address : ℕ) → address / 4096 ≡ page.0
            → slice_index into.new address ≡ slice_index (lent_bytes self.now) address }
        ensures others { (address : ℕ) → address / 4096 ≢ page.0
            → slice_index into.new address ≡ slice_index into.old address }
    {
        let first = page.0 * PAGE_SIZE;
        let mut buffer = [0u8; 256];
        let mut done = 0u32;
        while done < PAGE_SIZE {
            self.copy_chunk(first + done, &mut buffer);
            into.write((first + done) as usize, &buffer);
            done += CHUNK;
        }
    }

    /// Returns a new list of the storage keys, one for each block of 2048 bytes.
    ///
    /// # Errors
    ///
    /// `AllocError` if memory is refused.
    pub fn copy_keys(&self, alloc: Global) -> Result<Vec<StorageKey>, AllocError>
        ensures { IfOk result (λ made. made.items ≡ lent_keys self.now) }
    {
        let mut made = Vec::with_capacity(alloc, self.keys.len())?;
        for key in self.keys.iter() {
            made.push(*key)?;
        }
        Ok(made)
    }

    /// Pages a page in if it is in no frame, and then unpins all frames, also if there was no room;
    /// if it is in a frame, does nothing.
    ///
    /// A page that is in a slot is never refused.
    ///
    /// # Errors
    ///
    /// `FramesOut` if there is no room for a page that is needed; no byte has changed.
    pub fn page_in_unpinned(&mut self, page: Page) -> Result<(), FramesOut>
        requires inside { page.0 * 4096 < length (lent_bytes self.old) }
        requires between { IsBetweenUnits (lent_pool self.old).supply }
        ensures there { OnOk result (is_lent_page self.new page.0 ≡ true) }
        ensures out { OnErr result
            (HasNoRoom (lent_pool self.new).supply (user_of self.new) page.0) }
        ensures nowhere { OnErr result
            (Stands (lent_pool self.old).supply (user_of self.old) page.0 → ⊥) }
        ensures paged_in { CameOnly self.old (λ other. other ≡ page.0) 1 self.new }
        ensures between { IsBetweenUnits (lent_pool self.new).supply }
        ensures memory { lent_memory self.new ≡ lent_memory self.old }
    {
        if self.frame_of(page).is_some() {
            return Ok(());
        }
        let brought = Supply::bring(self, page);
        self.let_go();
        brought
    }

    /// Pages in each wanted page that is in no frame, after which it may be paged out for the next;
    /// ends with an error at the first for which there is no room. No byte changes.
    ///
    /// # Errors
    ///
    /// `FramesOut` if there is no room for a page that is needed; no byte has changed.
    pub fn page_in_wanted(&mut self, wanted: &[bool]) -> Result<(), FramesOut>
        requires inside { length wanted.now * 4096 ≤ length (lent_bytes self.old) }
        requires between { IsBetweenUnits (lent_pool self.old).supply }
        ensures stand { OnOk result (StandAll self.new wanted.now) }
        ensures out { OnErr result ((page : ℕ) × is_wanted wanted.now page
            × HasNoRoom (lent_pool self.new).supply (user_of self.new) page) }
        ensures paged_in { CameOnly self.old (is_wanted wanted.now) 1 self.new }
        ensures between { IsBetweenUnits (lent_pool self.new).supply }
        ensures memory { lent_memory self.new ≡ lent_memory self.old }
    {
        let mut page = 0u32;
        while (page as usize) < wanted.len() {
            if wanted[page as usize] {
                self.page_in_unpinned(Page(page))?;
            }
            page += 1;
        }
        Ok(())
    }

    /// Pages in the page that begins at an address and unpins all frames; does nothing if no page
    /// begins there or it is in a frame.
    ///
    /// At any other address nothing is done: the page of that is in a frame.
    fn fetch_at(&mut self, start: u32)
        requires inside { start < length (lent_bytes self.old) }
        requires stands { Stands (lent_pool self.old).supply (user_of self.old) (start / 4096) }
        requires within { start % 4096 ≢ 0 → is_lent_page self.old (start / 4096) ≡ true }
        requires between { IsBetweenUnits (lent_pool self.old).supply }
        ensures there { is_lent_page self.new (start / 4096) ≡ true }
        ensures paged_in { CameOnly self.old (λ page. page * 4096 ≡ start) 1 self.new }
        ensures between { IsBetweenUnits (lent_pool self.new).supply }
        ensures memory { lent_memory self.new ≡ lent_memory self.old }
    {
        if start % PAGE_SIZE != 0 {
            return;
        }
        match self.page_in_unpinned(Page(start / PAGE_SIZE)) {
            Ok(()) => {}
            // It is somewhere.
            Err(FramesOut) => unreachable!(),
        }
    }

    /// Overwrites each wanted page with its bytes in `from`, after paging it in if it is in no
    /// frame; the other pages stay.
    ///
    /// Each wanted page is in a frame or in a slot, so none is refused.
    pub fn put_back(&mut self, from: &SparseBytes, wanted: &[bool])
        requires long { length from.now ≡ length (lent_bytes self.old) }
        requires flags { length wanted.now * 4096 ≡ length (lent_bytes self.old) }
        requires stand { StandAll self.old wanted.now }
        requires between { IsBetweenUnits (lent_pool self.old).supply }
        ensures bytes { lent_bytes self.new
            ≡ written_over wanted.now (lent_bytes self.old) from.now }
        ensures paged_in { CameOnly self.old (is_wanted wanted.now) 1 self.new }
        ensures between { IsBetweenUnits (lent_pool self.new).supply }
    {
        let mut buffer = [0u8; 256];
        let mut start = 0u32;
        while start < self.size {
            if wanted[(start / PAGE_SIZE) as usize] {
                self.fetch_at(start);
                from.read(start as usize, &mut buffer);
                self.store(start, &buffer);
                start += CHUNK;
            } else {
                start = (start / PAGE_SIZE + 1) * PAGE_SIZE;
            }
        }
    }
}
