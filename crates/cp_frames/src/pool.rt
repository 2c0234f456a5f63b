//! The frames and slots with what is in them.
ghost use Rattle.std.specs.Prelude.{reverse, ◌≡◌, ℕ, ◌+◌, ◌-◌, ◌*◌, ◌/◌, ◌%◌, ◌<◌, ◌≤◌, ◌↔◌, ◌++◌};
ghost use Rattle.std.specs.Prelude.{Option, Some, None, true, false, map, length, slice_index_or};
ghost use Rattle.std.specs.Prelude.{slice_set, slice_get, slice_range, IsSome, is_some, IfOk};
ghost use Rattle.std.specs.Prelude.{IfSome, IfNone, All, replicate};
ghost use Rattle.std.specs.List.{range_with_len};
ghost use Rattle.s370_store.specs.Access.{put, IsGranted};
ghost use Rattle.cp_frames.specs.Layout.{frame_of, number_of, is_there, IsZeroPage, cleared_of};
ghost use Rattle.cp_frames.specs.Layout.{written_frame};
ghost use Rattle.cp_frames.specs.Tables.{segment_entry, page_entry, walk};

use crate::frame::{blank_frames, copy_in, copy_out_at, copy_over};
use crate::order::FrameOrder;
use crate::owners::{free_user_frames, free_user_slots, no_owners};
use crate::pins::FramePins;
use crate::table::{
    ABSENT, INVALID, NO_SEGMENT, NO_SLOT, PAGES, empty_lookup, empty_slot_table, entry_of,
    frame_in, half_at, new_tables, page_place, place_in, segment_place, word_at,
};
use crate::{FRAME_SIZE, FrameNo, UserPage};
use s370_store::{BLOCK_SIZE, PAGE_SIZE, Page};
use std::alloc::{AllocError, Global};
use std::marker::Model;
use user_names::UserNo;

/// The most bytes that are loaded or stored at once.
const LONGEST: usize = 256;

/// All frames of real storage, all slots for pages that are given up, and which page of which user
/// is in each.
///
/// A page that is in neither is all zero. A pin is a mark on a frame that only [`Frames::pin`],
/// [`Frames::unpin`], [`Frames::unpin_all`] and [`Frames::release`] change: the page in a pinned
/// frame is not given up for another.
// Its fields are the crate's for `paging.rt`; whatever writes one has the invariant to prove.
#[derive(Drop)]
pub struct Frames {
    pub(crate) frames: Vec<[u8; FRAME_SIZE]>,
    pub(crate) slots: Vec<[u8; FRAME_SIZE]>,
    pub(crate) owners: Vec<Option<UserPage>>,
    pub(crate) slot_owners: Vec<Option<UserPage>>,
    pub(crate) pins: FramePins,
    pub(crate) order: FrameOrder,
    pub(crate) end: usize,
    pub(crate) low: usize,
    pub(crate) page_ins: u64,
    pub(crate) sizes: Vec<u32>,
    pub(crate) tables: Vec<u8>,
    pub(crate) lookup: Vec<u32>,
    pub(crate) slot_table: Vec<u32>,
}

impl Model for Frames {
    ghost use Rattle.cp_frames.specs.Layout.{Pool, storages_of, IsSound};
    ghost use Rattle.std.specs.Prelude.{◌++◌};

    ghost Value = { Pool };

    ghost view = { λ f. record {
      storages = storages_of (f.frames.items ++ f.slots.items)
          (f.owners.items ++ f.slot_owners.items) f.sizes.items;
      supply = record {
        owners = f.owners.items;
        slots = f.slot_owners.items;
        pins = f.pins;
        order = f.order;
        page_ins = f.page_ins;
      };
    } };

    ghost invariant = { λ f.
        IsSound f.frames.items f.slots.items f.owners.items f.slot_owners.items f.sizes.items
        f.tables.items f.lookup.items f.slot_table.items f.pins f.order f.end f.low };
}

impl Frames {
    ghost use Rattle.cp_frames.specs.Layout.{bytes_of};
    ghost use Rattle.std.specs.Borrow.{sem};
    ghost use Rattle.cp_frames.specs.Lending.{LendsFrame};

    /// Returns a pool of this many free frames and slots, with a storage of zeros for each user,
    /// whose size in pages is in `sizes`.
    ///
    /// # Errors
    ///
    /// `AllocError` if memory is refused.
    pub fn new(
        alloc: Global,
        frames: u16,
        slots: u32,
        sizes: Vec<u32>,
    ) -> Result<Frames, AllocError>
        requires frames { frames ≤ 4096 }
        requires slots { slots ≤ 65536 }
        requires users { length sizes.items ≤ 64 }
        requires pages { All (λ pages. pages ≤ 1024) sizes.items }
        ensures owners { IfOk result (λ made. made.supply.owners ≡ replicate frames None) }
        ensures slots { IfOk result (λ made. made.supply.slots ≡ replicate slots None) }
        ensures pins { IfOk result (λ made. made.supply.pins ≡ replicate frames false) }
        ensures order { IfOk result
            (λ made. made.supply.order ≡ reverse (range_with_len 0 frames)) }
        ensures page_ins { IfOk result (λ made. made.supply.page_ins ≡ 0) }
        ensures storages { IfOk result
            (λ made. made.storages ≡ map (λ pages. replicate (pages * 4096) 0) sizes.items) }
    {
        let frame_count = usize::from(frames);
        let slot_count = slots as usize;
        let owners = no_owners(alloc, frame_count)?;
        let slot_owners = no_owners(alloc, slot_count)?;
        let pins = FramePins::new(alloc, frame_count)?;
        let order = FrameOrder::new(alloc, frames)?;
        let frames = blank_frames(alloc, frame_count)?;
        let slots = blank_frames(alloc, slot_count)?;
        let tables = new_tables(alloc, &sizes)?;
        let entries = PAGES * sizes.len();
        let lookup = empty_lookup(alloc, entries)?;
        let slot_table = empty_slot_table(alloc, entries)?;
        Ok(Frames {
            frames,
            slots,
            owners,
            slot_owners,
            pins,
            order,
            end: frame_count,
            low: 0,
            page_ins: 0,
            sizes,
            tables,
            lookup,
            slot_table,
        })
    }

    /// Returns how many bytes a user's storage has, or 0 if there is no such user.
    pub fn size(&self, user: UserNo) -> u32
        ensures bytes { result ≡ length (bytes_of self.now user) }
        ensures whole { result % 4096 ≡ 0 }
    {
        let user = user.index();
        if user < self.sizes.len() {
            self.sizes[user] * PAGE_SIZE
        } else {
            0
        }
    }

    /// Returns how many frames there are.
    pub fn count(&self) -> u32
        ensures count { result ≡ length self.now.supply.owners }
        ensures few { result ≤ 4096 }
    {
        self.owners.len() as u32
    }

    /// Returns how many pages have been paged in so far. The count stays at its greatest value.
    pub fn page_ins(&self) -> u64
        ensures { result ≡ self.now.supply.page_ins }
    {
        // All that frames keep: no fields but `frames` and `slots` have bytes of users.
        let Frames {
            frames: _,
            slots: _,
            owners: _,
            slot_owners: _,
            pins: _,
            order: _,
            end: _,
            low: _,
            page_ins,
            sizes: _,
            tables: _,
            lookup: _,
            slot_table: _,
        } = self;
        *page_ins
    }

    /// Returns the frame that a user's page is in, if it is in one.
    ///
    /// A page that is in no frame and in no slot is all zero.
    #[inline(always)]
    pub fn frame_of(&self, user: UserNo, page: Page) -> Option<FrameNo>
        requires { page.0 * 4096 < length (bytes_of self.now user) }
        ensures frame { number_of result ≡ frame_of self.now.supply.owners user page.0 }
        ensures within { IfSome result (λ frame. frame.0 < length self.now.supply.owners) }
        ensures apart { IsSome result → frame_of self.now.supply.slots user page.0 ≡ None }
        ensures zero { IfNone result
            (frame_of self.now.supply.slots user page.0 ≡ None
            → IsZeroPage (bytes_of self.now user) page.0) }
    {
        let entry = self.lookup[entry_of(user, page.0)];
        if entry == ABSENT {
            None
        } else {
            Some(FrameNo(frame_in(entry, page.0) as u16))
        }
    }

    /// Returns the place among the bytes of all frames of a user's byte, whose page has to be in a
    /// frame.
    #[inline(always)]
    fn place_with(&self, user: UserNo, start: u32) -> usize
        requires inside { start < length (bytes_of self.now user) }
        requires present { IsSome (frame_of self.now.supply.owners user (start / 4096)) }
        ensures there { frame_of self.now.supply.owners user (start / 4096) ≡ Some (result / 4096) }
        ensures offset { result % 4096 ≡ start % 4096 }
    {
        place_in(self.lookup[entry_of(user, start / PAGE_SIZE)], start)
    }

    /// Returns the slot that a user's page is in, if it is in one.
    ///
    /// A page that is in no slot and in no frame is all zero.
    pub fn slot_of(&self, user: UserNo, page: Page) -> Option<usize>
        requires { page.0 * 4096 < length (bytes_of self.now user) }
        ensures slot { result ≡ frame_of self.now.supply.slots user page.0 }
        ensures within { IfSome result (λ slot. slot < length self.now.supply.slots) }
        ensures apart { IsSome result → frame_of self.now.supply.owners user page.0 ≡ None }
        ensures zero { IfNone result
            (frame_of self.now.supply.owners user page.0 ≡ None
            → IsZeroPage (bytes_of self.now user) page.0) }
    {
        let entry = self.slot_table[entry_of(user, page.0)];
        if entry == NO_SLOT {
            None
        } else {
            Some(entry as usize)
        }
    }

    /// Returns the place of a user's byte among the bytes of all frames; None if its page is in no
    /// frame.
    ///
    /// This is the one look that each access makes.
    #[inline(always)]
    pub fn place_at(&self, user: UserNo, start: u32) -> Option<usize>
        requires { start < length (bytes_of self.now user) }
        ensures there { IfSome result
            (λ place. frame_of self.now.supply.owners user (start / 4096) ≡ Some (place / 4096)) }
        ensures offset { IfSome result (λ place. place % 4096 ≡ start % 4096) }
        ensures within { IfSome result (λ place. place / 4096 < length self.now.supply.owners) }
        ensures few { length self.now.supply.owners ≤ 4096 }
        ensures none { IfNone result (frame_of self.now.supply.owners user (start / 4096) ≡ None) }
    {
        let entry = self.lookup[entry_of(user, start / PAGE_SIZE)];
        if entry == ABSENT {
            None
        } else {
            Some(place_in(entry, start))
        }
    }

    /// Returns whether the page of a user's byte is in a frame. It is out of line, for the second
    /// page of an access.
    #[inline(never)]
    pub fn is_there(&self, user: UserNo, start: u32) -> bool
        requires { start < length (bytes_of self.now user) }
        ensures { result ≡ is_there self.now.supply.owners user (start / 4096) }
    {
        self.place_at(user, start).is_some()
    }

    /// Returns the bytes of the segment and page tables of all users, one after another: 2304 for
    /// each.
    pub fn tables(&self) -> &[u8]
        ensures size { length result.now ≡ 2304 * length self.now.storages }
        ensures map { (user page : ℕ) → user < length self.now.storages → page < 1024
            → walk result.now user page ≡ frame_of self.now.supply.owners user page }
    {
        &self.tables
    }

    /// Returns a user's segment table entry for a segment of 64K; an invalid entry if there is no
    /// such user.
    pub fn segment_entry(&self, user: UserNo, segment: u32) -> u32
        requires { segment < 64 }
        ensures { result ≡ segment_entry user (length (bytes_of self.now user) / 4096) segment }
    {
        if user.index() < self.sizes.len() {
            word_at(&self.tables, segment_place(user.index(), segment))
        } else {
            NO_SEGMENT
        }
    }

    /// Returns a user's page table entry for a page; an invalid entry if there is no such user.
    pub fn page_entry(&self, user: UserNo, page: Page) -> u16
        requires { page.0 < 1024 }
        ensures { result ≡ page_entry (frame_of self.now.supply.owners user page.0) }
    {
        if user.index() < self.sizes.len() {
            half_at(&self.tables, page_place(user.index(), page.0))
        } else {
            INVALID
        }
    }

    /// Returns the page that is in a frame, and whose it is; None if it is free or there is no such
    /// frame.
    pub fn page_in(&self, frame: FrameNo) -> Option<UserPage>
        ensures page { result ≡ slice_index_or self.now.supply.owners frame.0 None }
        ensures once { (p : UserPage) → (result ≡ Some p)
            ↔ (frame_of self.now.supply.owners p.user p.page.0 ≡ Some frame.0) }
        ensures inside { IfSome result (λ p. p.page.0 * 4096 < length (bytes_of self.now p.user)) }
    {
        let frame = frame.0 as usize;
        if frame < self.owners.len() {
            self.owners[frame]
        } else {
            None
        }
    }

    /// Pins a frame if a page is in it: that page is not given up for another until it is unpinned.
    ///
    /// Nothing is done to a free frame, or if there is no such frame.
    pub fn pin(&mut self, frame: FrameNo)
        ensures supply { self.new.supply
            ≡ record self.old.supply {
              pins = slice_set self.old.supply.pins frame.0
                  (is_some (slice_index_or self.old.supply.owners frame.0 None));
            } }
        ensures storages { self.new.storages ≡ self.old.storages }
    {
        let frame = frame.0 as usize;
        if frame < self.pins.len() {
            self.pins.set(frame, self.owners[frame].is_some());
        }
    }

    /// Unpins a frame; nothing is done if there is no such frame.
    pub fn unpin(&mut self, frame: FrameNo)
        ensures supply { self.new.supply
            ≡ record self.old.supply { pins = slice_set self.old.supply.pins frame.0 false } }
        ensures storages { self.new.storages ≡ self.old.storages }
    {
        let frame = frame.0 as usize;
        if frame < self.pins.len() {
            self.pins.set(frame, false);
        }
    }

    /// Unpins all frames.
    pub fn unpin_all(&mut self)
        ensures supply { self.new.supply
            ≡ record self.old.supply { pins = replicate (length self.old.supply.pins) false } }
        ensures storages { self.new.storages ≡ self.old.storages }
    {
        self.pins.clear();
    }

    /// Returns whether a frame is pinned; false if there is no such frame.
    pub fn is_pinned(&self, frame: FrameNo) -> bool
        ensures { result ≡ slice_index_or self.now.supply.pins frame.0 false }
    {
        let frame = frame.0 as usize;
        if frame < self.pins.len() {
            self.pins.is_pinned(frame)
        } else {
            false
        }
    }

    /// Removes all pages of a user from frames and slots, so that his storage is all zero, and
    /// unpins all frames, whoever's pages are in them.
    pub fn release(&mut self, user: UserNo)
        ensures storages { self.new.storages
            ≡ slice_set self.old.storages user (replicate (length (bytes_of self.old user)) 0) }
        ensures supply { self.new.supply
            ≡ record self.old.supply {
              owners = cleared_of user self.old.supply.owners;
              slots = cleared_of user self.old.supply.slots;
              pins = replicate (length self.old.supply.pins) false;
            } }
        ensures unmapped { (page : ℕ) → frame_of self.new.supply.owners user page ≡ None }
        ensures gone_slots { (page : ℕ) → frame_of self.new.supply.slots user page ≡ None }
    {
        self.unpin_all();
        self.end = self.order.len();
        self.low = 0;
        free_user_frames(
            &mut self.owners,
            &mut self.tables,
            &mut self.lookup,
            &self.sizes,
            user,
        );
        free_user_slots(&mut self.slot_owners, &mut self.slot_table, user);
    }

    /// Borrows the bytes of a frame for reading and writing; None if there is no such frame.
    ///
    /// They are the content of the page in the frame, and so is what is written there.
    pub fn frame_mut(&mut self, frame: FrameNo) -> Option<&mut [u8; FRAME_SIZE]>
        ensures* writes_back { sem 𝓛 (LendsFrame self.entry frame.0 result) }
        ensures content { IfSome result
            (λ lent. written_frame self.old frame.0 lent.now ≡ self.old) }
        ensures some { IsSome result ↔ (frame.0 < length self.old.supply.owners) }
    {
        self.frames.get_mut(frame.0 as usize)
    }

    /// Returns a byte of a user's storage, wherever its page is; None past his storage.
    pub fn byte(&self, user: UserNo, address: u32) -> Option<u8>
        ensures { result ≡ slice_get (bytes_of self.now user) address }
    {
        if address >= self.size(user) {
            return None;
        }
        let page = Page(address / PAGE_SIZE);
        match self.frame_of(user, page) {
            Some(frame) => return Some(
                self.frames[frame.0 as usize][(address % PAGE_SIZE) as usize],
            ),
            None => {}
        }
        match self.slot_of(user, page) {
            Some(slot) => Some(self.slots[slot][(address % PAGE_SIZE) as usize]),
            None => Some(0),
        }
    }

    /// Fills `into` with bytes of a user's storage from `start` on, whose pages have to be in
    /// frames.
    #[inline(always)]
    pub fn load(&self, user: UserNo, start: u32, into: &mut [u8])
        requires granted { IsGranted (length (bytes_of self.now user))
            (is_there self.now.supply.owners user) start
            (length into.old) }
        requires short { length into.old ≤ 256 }
        ensures { into.new ≡ slice_range (bytes_of self.now user) start (start + length into.old) }
    {
        if into.is_empty() {
            return;
        }
        if start % BLOCK_SIZE + into.len() as u32 <= BLOCK_SIZE {
            self.load_part(user, start, into);
        } else {
            // By a buffer of its own, so that the caller's bytes can stay in registers.
            let mut buffer = [0u8; LONGEST];
            let part = &mut buffer[..into.len()];
            self.load_pages(user, start, part);
            into.copy_from_slice(part);
        }
    }

    /// Fills `into` with bytes of one page of a user, which has to be in a frame.
    #[inline(always)]
    fn load_part(&self, user: UserNo, start: u32, into: &mut [u8])
        requires within { start + length into.old ≤ length (bytes_of self.now user) }
        requires some { 0 < length into.old }
        requires one_page { start % 4096 + length into.old ≤ 4096 }
        requires present { IsSome (frame_of self.now.supply.owners user (start / 4096)) }
        ensures read { into.new ≡ slice_range (bytes_of self.now user) start
            (start + length into.old) }
        ensures fits { length (bytes_of self.now user) ≤ 4194304 }
    {
        let place = self.place_with(user, start);
        self.load_in(user, place, start, into);
    }

    /// Fills `into` with bytes of one page of a user, of which the first is at `place` among the
    /// bytes of all frames.
    #[inline(always)]
    pub fn load_in(&self, _user: UserNo, place: usize, start: u32, into: &mut [u8])
        requires within { start + length into.old ≤ length (bytes_of self.now _user) }
        requires one_page { start % 4096 + length into.old ≤ 4096 }
        requires there { frame_of self.now.supply.owners _user (start / 4096)
            ≡ Some (place / 4096) }
        requires offset { place % 4096 ≡ start % 4096 }
        ensures read { into.new ≡ slice_range (bytes_of self.now _user) start
            (start + length into.old) }
        ensures fits { length (bytes_of self.now _user) ≤ 4194304 }
    {
        copy_out_at(&self.frames, place, into);
    }

    /// Fills `into` with bytes of a user that may lie in two pages, which have to be in frames.
    #[inline(never)]
    fn load_pages(&self, user: UserNo, start: u32, into: &mut [u8])
        requires granted { IsGranted (length (bytes_of self.now user))
            (is_there self.now.supply.owners user) start
            (length into.old) }
        requires short { length into.old ≤ 256 }
        requires some { 0 < length into.old }
        ensures { into.new ≡ slice_range (bytes_of self.now user) start (start + length into.old) }
    {
        if start % PAGE_SIZE + into.len() as u32 <= PAGE_SIZE {
            self.load_part(user, start, into);
        } else {
            self.load_across(user, start, into);
        }
    }

    /// Fills `into` with bytes of a user that lie in two pages, which have to be in frames.
    fn load_across(&self, user: UserNo, start: u32, into: &mut [u8])
        requires granted { IsGranted (length (bytes_of self.now user))
            (is_there self.now.supply.owners user) start
            (length into.old) }
        requires short { length into.old ≤ 256 }
        requires across { 4096 - start % 4096 < length into.old }
        ensures { into.new ≡ slice_range (bytes_of self.now user) start (start + length into.old) }
    {
        let left = FRAME_SIZE - start as usize % FRAME_SIZE;
        let (first, second) = into.split_at_mut(left);
        self.load_part(user, start, first);
        self.load_part(user, start + left as u32, second);
    }

    /// Copies bytes into a user's storage from `start` on, whose pages have to be in frames.
    ///
    /// No other byte of any user changes.
    #[inline(always)]
    pub fn store(&mut self, user: UserNo, start: u32, from: &[u8])
        requires granted { IsGranted (length (bytes_of self.old user))
            (is_there self.old.supply.owners user) start
            (length from.now) }
        requires short { length from.now ≤ 256 }
        ensures bytes { bytes_of self.new user ≡ put (bytes_of self.old user) start from.now }
        ensures size { length (bytes_of self.new user) ≡ length (bytes_of self.old user) }
        ensures others { self.new.storages
            ≡ slice_set self.old.storages user (bytes_of self.new user) }
        ensures supply { self.new.supply ≡ self.old.supply }
    {
        if from.is_empty() {
            return;
        }
        if start % BLOCK_SIZE + from.len() as u32 <= BLOCK_SIZE {
            self.store_part(user, start, from);
        } else {
            let mut buffer = [0u8; LONGEST];
            let part = &mut buffer[..from.len()];
            part.copy_from_slice(from);
            self.store_pages(user, start, part);
        }
    }

    /// Copies bytes into one page of a user, which has to be in a frame.
    #[inline(always)]
    fn store_part(&mut self, user: UserNo, start: u32, from: &[u8])
        requires within { start + length from.now ≤ length (bytes_of self.old user) }
        requires some { 0 < length from.now }
        requires one_page { start % 4096 + length from.now ≤ 4096 }
        requires present { IsSome (frame_of self.old.supply.owners user (start / 4096)) }
        ensures bytes { bytes_of self.new user ≡ put (bytes_of self.old user) start from.now }
        ensures size { length (bytes_of self.new user) ≡ length (bytes_of self.old user) }
        ensures others { self.new.storages
            ≡ slice_set self.old.storages user (bytes_of self.new user) }
        ensures supply { self.new.supply ≡ self.old.supply }
        ensures fits { length (bytes_of self.old user) ≤ 4194304 }
    {
        let place = self.place_with(user, start);
        self.store_placed(user, place, start, from);
    }

    /// Copies bytes into one page of a user, the first of them to `place` among the bytes of all
    /// frames.
    #[inline(always)]
    pub fn store_placed(&mut self, _user: UserNo, place: usize, start: u32, from: &[u8])
        requires within { start + length from.now ≤ length (bytes_of self.old _user) }
        requires some { 0 < length from.now }
        requires one_page { start % 4096 + length from.now ≤ 4096 }
        requires there { frame_of self.old.supply.owners _user (start / 4096)
            ≡ Some (place / 4096) }
        requires offset { place % 4096 ≡ start % 4096 }
        ensures bytes { bytes_of self.new _user ≡ put (bytes_of self.old _user) start from.now }
        ensures size { length (bytes_of self.new _user) ≡ length (bytes_of self.old _user) }
        ensures others { self.new.storages
            ≡ slice_set self.old.storages _user (bytes_of self.new _user) }
        ensures supply { self.new.supply ≡ self.old.supply }
        ensures fits { length (bytes_of self.old _user) ≤ 4194304 }
    {
        copy_in(
            &mut self.frames[place / FRAME_SIZE],
            place % FRAME_SIZE,
            from,
        );
    }

    /// Copies bytes that lie in one page of a user into the same page or another; both have to be
    /// in frames.
    #[inline(always)]
    fn copy_part(&mut self, user: UserNo, from: u32, to: u32, count: u32)
        requires source { from + count ≤ length (bytes_of self.old user) }
        requires target { to + count ≤ length (bytes_of self.old user) }
        requires some { 0 < count }
        requires short { count ≤ 256 }
        requires page_of_source { from % 4096 + count ≤ 4096 }
        requires page_of_target { to % 4096 + count ≤ 4096 }
        requires source_present { IsSome (frame_of self.old.supply.owners user (from / 4096)) }
        requires target_present { IsSome (frame_of self.old.supply.owners user (to / 4096)) }
        ensures bytes { bytes_of self.new user
            ≡ put (bytes_of self.old user) to
            (slice_range (bytes_of self.old user) from (from + count)) }
        ensures size { length (bytes_of self.new user) ≡ length (bytes_of self.old user) }
        ensures others { self.new.storages
            ≡ slice_set self.old.storages user (bytes_of self.new user) }
        ensures supply { self.new.supply ≡ self.old.supply }
    {
        let source = self.place_with(user, from);
        let target = self.place_with(user, to);
        self.copy_placed(user, source, from, target, to, count);
    }

    /// Copies at most 2048 bytes of a user from one page to the same or another, from `source` to
    /// `target` among the bytes of all frames.
    #[inline(always)]
    pub fn copy_placed(
        &mut self,
        _user: UserNo,
        source: usize,
        from: u32,
        target: usize,
        to: u32,
        count: u32,
    )
        requires source { from + count ≤ length (bytes_of self.old _user) }
        requires target { to + count ≤ length (bytes_of self.old _user) }
        requires some { 0 < count }
        requires short { count ≤ 2048 }
        requires page_of_source { from % 4096 + count ≤ 4096 }
        requires page_of_target { to % 4096 + count ≤ 4096 }
        requires source_there { frame_of self.old.supply.owners _user (from / 4096)
            ≡ Some (source / 4096) }
        requires target_there { frame_of self.old.supply.owners _user (to / 4096)
            ≡ Some (target / 4096) }
        requires source_offset { source % 4096 ≡ from % 4096 }
        requires target_offset { target % 4096 ≡ to % 4096 }
        ensures bytes { bytes_of self.new _user
            ≡ put (bytes_of self.old _user) to
            (slice_range (bytes_of self.old _user) from (from + count)) }
        ensures size { length (bytes_of self.new _user) ≡ length (bytes_of self.old _user) }
        ensures others { self.new.storages
            ≡ slice_set self.old.storages _user (bytes_of self.new _user) }
        ensures supply { self.new.supply ≡ self.old.supply }
    {
        copy_over(
            &mut self.frames,
            source / FRAME_SIZE,
            source % FRAME_SIZE,
            target / FRAME_SIZE,
            target % FRAME_SIZE,
            count as usize,
        );
    }

    /// Copies bytes of a user, which may lie in two pages, to where they may lie in two, by way of
    /// a buffer.
    #[inline(never)]
    fn copy_across(&mut self, user: UserNo, from: u32, to: u32, count: u32)
        requires source { IsGranted (length (bytes_of self.old user))
            (is_there self.old.supply.owners user) from count }
        requires target { IsGranted (length (bytes_of self.old user))
            (is_there self.old.supply.owners user) to count }
        requires short { count ≤ 256 }
        ensures bytes { bytes_of self.new user
            ≡ put (bytes_of self.old user) to
            (slice_range (bytes_of self.old user) from (from + count)) }
        ensures size { length (bytes_of self.new user) ≡ length (bytes_of self.old user) }
        ensures others { self.new.storages
            ≡ slice_set self.old.storages user (bytes_of self.new user) }
        ensures supply { self.new.supply ≡ self.old.supply }
    {
        let mut buffer = [0u8; LONGEST];
        let part = &mut buffer[..count as usize];
        self.load(user, from, part);
        self.store(user, to, part);
    }

    /// Copies bytes of a user, whose pages are in frames, from one place to another, as if all were
    /// read before any is written. No other byte of any user changes.
    #[inline(always)]
    pub fn copy(&mut self, user: UserNo, from: u32, to: u32, count: u32)
        requires source { IsGranted (length (bytes_of self.old user))
            (is_there self.old.supply.owners user) from count }
        requires target { IsGranted (length (bytes_of self.old user))
            (is_there self.old.supply.owners user) to count }
        requires short { count ≤ 256 }
        ensures bytes { bytes_of self.new user
            ≡ put (bytes_of self.old user) to
            (slice_range (bytes_of self.old user) from (from + count)) }
        ensures size { length (bytes_of self.new user) ≡ length (bytes_of self.old user) }
        ensures others { self.new.storages
            ≡ slice_set self.old.storages user (bytes_of self.new user) }
        ensures supply { self.new.supply ≡ self.old.supply }
    {
        if count == 0
            || from % PAGE_SIZE + count > PAGE_SIZE
            || to % PAGE_SIZE + count > PAGE_SIZE
        {
            self.copy_across(user, from, to, count);
        } else {
            self.copy_part(user, from, to, count);
        }
    }

    /// Copies bytes into a user's storage that may lie in two pages, which have to be in frames.
    #[inline(never)]
    fn store_pages(&mut self, user: UserNo, start: u32, from: &[u8])
        requires granted { IsGranted (length (bytes_of self.old user))
            (is_there self.old.supply.owners user) start
            (length from.now) }
        requires short { length from.now ≤ 256 }
        requires some { 0 < length from.now }
        ensures bytes { bytes_of self.new user ≡ put (bytes_of self.old user) start from.now }
        ensures size { length (bytes_of self.new user) ≡ length (bytes_of self.old user) }
        ensures others { self.new.storages
            ≡ slice_set self.old.storages user (bytes_of self.new user) }
        ensures supply { self.new.supply ≡ self.old.supply }
    {
        if start % PAGE_SIZE + from.len() as u32 <= PAGE_SIZE {
            self.store_part(user, start, from);
        } else {
            self.store_across(user, start, from);
        }
    }

    /// Copies bytes into a user's storage that lie in two pages, which have to be in frames.
    fn store_across(&mut self, user: UserNo, start: u32, from: &[u8])
        requires granted { IsGranted (length (bytes_of self.old user))
            (is_there self.old.supply.owners user) start
            (length from.now) }
        requires short { length from.now ≤ 256 }
        requires across { 4096 - start % 4096 < length from.now }
        ensures bytes { bytes_of self.new user ≡ put (bytes_of self.old user) start from.now }
        ensures size { length (bytes_of self.new user) ≡ length (bytes_of self.old user) }
        ensures others { self.new.storages
            ≡ slice_set self.old.storages user (bytes_of self.new user) }
        ensures supply { self.new.supply ≡ self.old.supply }
    {
        let left = FRAME_SIZE - start as usize % FRAME_SIZE;
        let (first, second) = from.split_at(left);
        self.store_part(user, start, first);
        self.store_part(user, start + left as u32, second);
    }
}
