//! How a page comes into a frame, and what is given up for it.
ghost use Rattle.std.specs.Prelude.{◌≡◌, ◌+◌, ◌*◌, ◌<◌, ◌≤◌, Some, None, true, false, length};
ghost use Rattle.std.specs.Prelude.{slice_index, slice_index_or, slice_set, IsSome, IfOk, OnOk};
ghost use Rattle.std.specs.Prelude.{OnErr, IfSome, IfNone, All, drop};
ghost use Rattle.cp_frames.specs.Layout.{frame_of, AreTaken};
ghost use Rattle.cp_frames.specs.Paging.{IsChosen, IsBrought, IsOpen, IsRefused, IsPut, exchanged};
ghost use Rattle.cp_frames.specs.Paging.{filled, paged_in};

use crate::frame::clear;
use crate::order::{free_turn, one_more, open_turn};
use crate::owners::{first_free, low_after};
use crate::table::{clear_slot, map_page, set_slot, unmap_page};
use crate::{FrameNo, Frames, UserPage};
use s370_store::{FramesOut, Page};
use std::mem::swap;
use user_names::UserNo;

impl Frames {
    ghost use Rattle.cp_frames.specs.Layout.{bytes_of};

    /// Returns the frame that a page is in; if it is in none, first pages it in, which may page out
    /// another that is not pinned. No user's bytes change.
    ///
    /// If no frame is free, the page longest in its frame among those not pinned is given up. It
    /// takes a free slot, or the slot that the wanted page leaves.
    ///
    /// # Errors
    ///
    /// `FramesOut` if there is no room for a page that is needed; no byte has changed.
    pub fn bring(&mut self, user: UserNo, page: Page) -> Result<FrameNo, FramesOut>
        requires { page.0 * 4096 < length (bytes_of self.old user) }
        ensures storages { self.new.storages ≡ self.old.storages }
        ensures there { IfOk result
            (λ frame. frame_of self.new.supply.owners user page.0 ≡ Some frame.0) }
        ensures within { IfOk result (λ frame. frame.0 < length self.new.supply.owners) }
        ensures brought { IfOk result
            (λ frame. IsBrought self.old.supply self.new.supply user page.0 frame.0) }
        ensures unpinned { frame_of self.old.supply.owners user page.0 ≡ None
            → IfOk result (λ frame. IsOpen self.old.supply.pins frame.0) }
        ensures refused { OnErr result (IsRefused self.old.supply user page.0) }
        ensures err { OnErr result (self.new ≡ self.old) }
    {
        match self.frame_of(user, page) {
            Some(frame) => return Ok(frame),
            None => {}
        }
        let turn = match self.next_turn() {
            Some(turn) => turn,
            None => return Err(FramesOut),
        };
        let frame = self.frame_in_turn(turn);
        let end = self.end_after(turn);
        match self.put(frame, user, page) {
            Ok(()) => {}
            Err(_) => return Err(FramesOut),
        }
        self.record_page_in(turn, end);
        Ok(FrameNo(frame as u16))
    }

    /// Returns the index in the order of the frame for the next page, if a frame is free or not
    /// pinned. If none is free, the next search for a free frame begins nowhere.
    fn next_turn(&mut self) -> Option<usize>
        ensures unchanged { self.new ≡ self.old }
        ensures within { IfSome result (λ turn. turn < length self.old.supply.order) }
        ensures chosen { IfSome result (λ turn. IsChosen self.old.supply turn) }
        ensures later { IfSome result
            (λ turn. AreTaken self.old.supply.owners (drop (turn + 1) self.old.supply.order)) }
        ensures unpinned { IfSome result
            (λ turn. slice_index_or self.old.supply.pins (slice_index self.old.supply.order turn)
            false ≡ false) }
        ensures full { IfNone result (All IsSome self.old.supply.owners) }
        ensures pinned { IfNone result (All (λ pinned. pinned ≡ true) self.old.supply.pins) }
    {
        match free_turn(&self.order, &self.owners, self.end) {
            Some(turn) => return Some(turn),
            None => {}
        }
        self.end = 0;
        open_turn(&self.order, &self.pins)
    }

    /// Returns the frame at the index `turn` of the order.
    fn frame_in_turn(&self, turn: usize) -> usize
        requires { turn < length self.now.supply.order }
        ensures frame { result ≡ slice_index self.now.supply.order turn }
        ensures within { result < length self.now.supply.owners }
        ensures marked { result < length self.now.supply.pins }
        ensures few { length self.now.supply.owners ≤ 4096 }
    {
        self.order.frame_at(turn) as usize
    }

    /// Returns `turn` if the frame at that index of the order is free, else 0: from there on all
    /// frames are taken once a page is in that frame.
    fn end_after(&self, turn: usize) -> usize
        requires turn { turn < length self.now.supply.order }
        requires chosen { IsChosen self.now.supply turn }
        requires later { AreTaken self.now.supply.owners (drop (turn + 1) self.now.supply.order) }
        ensures within { result ≤ turn }
        ensures taken { (page : UserPage)
            → AreTaken (slice_set self.now.supply.owners (slice_index self.now.supply.order turn)
            (Some page))
            (drop result self.now.supply.order) }
    {
        if self.owners[self.order.frame_at(turn) as usize].is_none() {
            turn
        } else {
            0
        }
    }

    /// Puts a page that is in no frame into this one, and a page that was there into a slot; fails
    /// if that needs a free slot and none is.
    fn put(&mut self, frame: usize, user: UserNo, page: Page) -> Result<(), FramesOut>
        requires inside { page.0 * 4096 < length (bytes_of self.old user) }
        requires frame { frame < length self.old.supply.owners }
        requires unpinned { slice_index_or self.old.supply.pins frame false ≡ false }
        requires absent { frame_of self.old.supply.owners user page.0 ≡ None }
        ensures storages { self.new.storages ≡ self.old.storages }
        ensures put { OnOk result (IsPut self.old.supply self.new.supply user page.0 frame) }
        ensures err { OnErr result (self.new ≡ self.old) }
        ensures held { OnErr result (IsSome (slice_index_or self.old.supply.owners frame None)) }
        ensures full { OnErr result (All IsSome self.old.supply.slots) }
        ensures nowhere { OnErr result (frame_of self.old.supply.slots user page.0 ≡ None) }
    {
        match self.slot_of(user, page) {
            Some(slot) => {
                self.exchange(frame, slot);
                return Ok(());
            }
            None => {}
        }
        if self.owners[frame].is_none() {
            self.fill(frame, user, page);
            return Ok(());
        }
        match self.free_slot() {
            Some(slot) => {
                self.exchange(frame, slot);
                self.fill(frame, user, page);
                Ok(())
            }
            None => Err(FramesOut),
        }
    }

    /// Returns the first slot with no page in it, if there is one, and sets where the next search
    /// begins.
    fn free_slot(&mut self) -> Option<usize>
        ensures unchanged { self.new ≡ self.old }
        ensures within { IfSome result (λ slot. slot < length self.old.supply.slots) }
        ensures free { IfSome result
            (λ slot. slice_index_or self.old.supply.slots slot None ≡ None) }
        ensures none { IfNone result (All IsSome self.old.supply.slots) }
    {
        let found = first_free(&self.slot_owners, self.low);
        self.low = match found {
            Some(slot) => slot,
            None => self.slot_owners.len(),
        };
        found
    }

    /// Exchanges the pages, if any, in a frame and in a slot, and updates the tables and search
    /// bounds.
    pub(crate) fn exchange(&mut self, frame: usize, slot: usize)
        requires frame { frame < length self.old.supply.owners }
        requires slot { slot < length self.old.supply.slots }
        requires unpinned { slice_index_or self.old.supply.pins frame false ≡ false }
        ensures storages { self.new.storages ≡ self.old.storages }
        ensures supply { self.new.supply ≡ exchanged self.old.supply frame slot }
    {
        unmap_page(&mut self.tables, &mut self.lookup, self.owners[frame]);
        map_page(
            &mut self.tables,
            &mut self.lookup,
            self.slot_owners[slot],
            frame,
        );
        clear_slot(&mut self.slot_table, self.slot_owners[slot]);
        set_slot(&mut self.slot_table, self.owners[frame], slot as u32);
        self.low = low_after(self.low, slot, self.owners[frame]);
        self.end = self.order.len();
        swap(&mut self.owners[frame], &mut self.slot_owners[slot]);
        swap(&mut self.frames[frame], &mut self.slots[slot]);
    }

    /// Zeroes a free frame, and maps a page to it that was in no frame and in no slot.
    pub(crate) fn fill(&mut self, frame: usize, user: UserNo, page: Page)
        requires inside { page.0 * 4096 < length (bytes_of self.old user) }
        requires frame { frame < length self.old.supply.owners }
        requires free { slice_index_or self.old.supply.owners frame None ≡ None }
        requires absent { frame_of self.old.supply.owners user page.0 ≡ None }
        requires nowhere { frame_of self.old.supply.slots user page.0 ≡ None }
        ensures storages { self.new.storages ≡ self.old.storages }
        ensures supply { self.new.supply ≡ filled self.old.supply frame user page.0 }
    {
        clear(&mut self.frames[frame]);
        self.owners[frame] = Some(UserPage { user, page });
        map_page(
            &mut self.tables,
            &mut self.lookup,
            Some(UserPage { user, page }),
            frame,
        );
    }

    /// Moves the frame at the index `turn` of the order to its end, sets `end`, from where on all
    /// frames are taken, and counts a page-in.
    fn record_page_in(&mut self, turn: usize, end: usize)
        requires turn { turn < length self.old.supply.order }
        requires end { end ≤ turn }
        requires taken { AreTaken self.old.supply.owners (drop end self.old.supply.order) }
        ensures storages { self.new.storages ≡ self.old.storages }
        ensures supply { self.new.supply ≡ paged_in self.old.supply turn }
    {
        self.order.move_to_end(turn);
        self.end = end;
        self.page_ins = one_more(self.page_ins);
    }
}
