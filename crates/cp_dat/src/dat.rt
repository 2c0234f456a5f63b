//! One user's storage, lent from the frames.
ghost use Rattle.std.specs.Prelude.{◌≡◌, ◌+◌, ◌*◌, ◌/◌, ◌<◌, ◌≤◌, ◌↔◌, ◌%◌, true, length};
ghost use Rattle.std.specs.Prelude.{replicate, slice_index_or, slice_set, is_some, Ok, IfOk};
ghost use Rattle.std.specs.Prelude.{IfSome, IfNone, IsSome, OnErr, Some, None, false, [], ◌∷◌};
ghost use Rattle.s370_store.specs.Access.{IsVerdict, tested};
ghost use Rattle.cp_frames.specs.Layout.{bytes_of, frame_of, number_of, IsZeroPage};
ghost use Rattle.cp_frames.specs.Paging.{IsBrought, IsOpen, IsRefused};
ghost use Rattle.cp_frames.specs.Tables.{segment_entry, page_entry};

use cp_frames::{FrameNo, Frames};
use s370_num::{AccessKey, StorageKey};
use s370_store::{
    Access, BLOCK_SIZE, Block, Fault, FramesOut, KeySlice, Keyed, PAGE_SIZE, Page, Range, Storage,
    Supply, UnitSupply, may_access_block, passes_in_block, test_range,
};
use user_names::UserNo;

/// One user's pages, of which those that are in frames are present, and his storage keys.
///
/// As a `Supply` it brings a page that is absent and pins it, so that it is not given up again
/// before the pins are taken away, as `UnitSupply::let_go` does at the end of a unit. Where each
/// frame is taken, the page longest in its frame among those not pinned is given up; where there is
/// none, or no slot for it, it answers `FramesOut`.
#[derive(Drop)]
pub struct Dat<'a> {
    pub(crate) frames: &'a mut Frames,
    pub(crate) keys: &'a mut [StorageKey],
    pub(crate) user: UserNo,
    pub(crate) size: u32,
    ghost sized: { size ≡ length (bytes_of frames.now user) },
    ghost keyed: { size ≤ 2048 * length keys.now },
    ghost whole: { size % 4096 ≡ 0 },
}

impl<'a> Dat<'a> {
    ghost use Rattle.cp_dat.specs.Lent.{lent_bytes, lent_keys, lent_pool, lent_frame, is_lent_page};
    ghost use Rattle.cp_dat.specs.Lent.{user_of, KeepsFrames};

    /// Returns a storage that borrows a user's pages, with a key for each 2048 bytes; it has no
    /// bytes if there is no such user.
    pub fn new(frames: &'a mut Frames, keys: &'a mut [StorageKey], user: UserNo) -> Dat<'a>
        requires { length (bytes_of frames.old user) ≤ 2048 * length keys.old }
        ensures same_frames { result.frames.ghost_name ≡ frames.entry.ghost_name }
        ensures same_keys { result.keys.ghost_name ≡ keys.entry.ghost_name }
        ensures frames { result.frames.now ≡ frames.old }
        ensures keys { result.keys.now ≡ keys.old }
        ensures user { user_of result ≡ user }
    {
        let size = frames.size(user);
        Dat {
            frames,
            keys,
            user,
            size,
        }
    }

    /// Returns how many frames there are, whoever's pages are in them.
    pub fn frame_count(&self) -> u32
        ensures count { result ≡ length (lent_pool self.now).supply.owners }
        ensures few { result ≤ 4096 }
    {
        self.frames.count()
    }

    /// Returns the frame that a page of this user is in, if it is in one.
    ///
    /// A page that is in no frame and in no slot is all zero.
    pub fn frame_of(&self, page: Page) -> Option<FrameNo>
        requires { page.0 * 4096 < length (lent_bytes self.now) }
        ensures frame { number_of result ≡ lent_frame self.now page.0 }
        ensures zero { IfNone result
            (frame_of (lent_pool self.now).supply.slots (user_of self.now) page.0 ≡ None
            → IsZeroPage (lent_bytes self.now) page.0) }
    {
        self.frames.frame_of(self.user, page)
    }

    /// Returns the entry of a segment of 64K in the user's segment table.
    pub fn segment_entry(&self, segment: u32) -> u32
        requires { segment < 64 }
        ensures { result ≡ segment_entry (user_of self.now) (length (lent_bytes self.now) / 4096)
            segment }
    {
        self.frames.segment_entry(self.user, segment)
    }

    /// Returns the entry of a page in the user's page tables.
    pub fn page_entry(&self, page: Page) -> u16
        requires { page.0 < 1024 }
        ensures { result ≡ page_entry (lent_frame self.now page.0) }
    {
        self.frames.page_entry(self.user, page)
    }

    /// Returns the user's page that is in a frame; None if no page is in it, or another user's.
    pub fn page_in(&self, frame: FrameNo) -> Option<Page>
        ensures once { (p : Page) → (result ≡ Some p) ↔ (lent_frame self.now p.0 ≡ Some frame.0) }
        ensures inside { IfSome result (λ p. p.0 * 4096 < length (lent_bytes self.now)) }
    {
        match self.frames.page_in(frame) {
            Some(there) => if there.user.number() == self.user.number() {
                Some(there.page)
            } else {
                None
            },
            None => None,
        }
    }

    /// Returns the frame that a page is in; if it is in none, first pages it in, which may page out
    /// another that is not pinned. No user's bytes change.
    ///
    /// # Errors
    ///
    /// `FramesOut` if there is no room for a page that is needed; no byte has changed.
    pub fn bring(&mut self, page: Page) -> Result<FrameNo, FramesOut>
        requires { page.0 * 4096 < length (lent_bytes self.old) }
        ensures rest { KeepsFrames self.old self.new }
        ensures storages { (lent_pool self.new).storages ≡ (lent_pool self.old).storages }
        ensures keys { lent_keys self.new ≡ lent_keys self.old }
        ensures there { IfOk result (λ frame. lent_frame self.new page.0 ≡ Some frame.0) }
        ensures brought { IfOk result
            (λ frame. IsBrought (lent_pool self.old).supply (lent_pool self.new).supply
            (user_of self.old) page.0 frame.0) }
        ensures unpinned { is_lent_page self.old page.0 ≡ false
            → IfOk result (λ frame. IsOpen (lent_pool self.old).supply.pins frame.0) }
        ensures refused { OnErr result
            (IsRefused (lent_pool self.old).supply (user_of self.old) page.0) }
        ensures err { OnErr result ((lent_pool self.new).supply ≡ (lent_pool self.old).supply) }
    {
        self.frames.bring(self.user, page)
    }

    /// Pins a frame if a page is in it: that page is not given up for another until it is unpinned.
    pub fn pin(&mut self, frame: FrameNo)
        ensures rest { KeepsFrames self.old self.new }
        ensures storages { (lent_pool self.new).storages ≡ (lent_pool self.old).storages }
        ensures keys { lent_keys self.new ≡ lent_keys self.old }
        ensures supply { (lent_pool self.new).supply
            ≡ record (lent_pool self.old).supply {
              pins = slice_set (lent_pool self.old).supply.pins frame.0
                  (is_some (slice_index_or (lent_pool self.old).supply.owners frame.0 None));
            } }
    {
        self.frames.pin(frame);
    }

    /// Unpins all frames, whoever's pages are in them.
    pub fn unpin_all(&mut self)
        ensures rest { KeepsFrames self.old self.new }
        ensures storages { (lent_pool self.new).storages ≡ (lent_pool self.old).storages }
        ensures keys { lent_keys self.new ≡ lent_keys self.old }
        ensures supply { (lent_pool self.new).supply
            ≡ record (lent_pool self.old).supply {
              pins = replicate
                  (length (lent_pool self.old).supply.pins) false;
            } }
    {
        self.frames.unpin_all();
    }

    /// Returns the place among the bytes of all frames of a range in one block, if size and key let
    /// the access pass and the page is in a frame.
    #[inline(always)]
    fn open_place(&self, range: Range, access: Access, key: AccessKey) -> Option<usize>
        requires some { 0 < range.count }
        requires one_block { range.start % 2048 + range.count ≤ 2048 }
        ensures granted { IsSome result
            → IsVerdict (length (lent_bytes self.now)) (lent_keys self.now) (is_lent_page self.now)
            key
            (tested access range ∷ []) (Ok tt) }
        ensures inside { IsSome result → range.start + range.count ≤ length (lent_bytes self.now) }
        ensures frame { IfSome result
            (λ place. lent_frame self.now (range.start / 4096) ≡ Some (place / 4096)) }
        ensures offset { IfSome result (λ place. place % 4096 ≡ range.start % 4096) }
    {
        // A storage has whole blocks, so one that has a byte of a block has all of it.
        if range.start >= self.size {
            return None;
        }
        if !passes_in_block(&KeySlice { keys: self.keys }, range, access, key) {
            return None;
        }
        self.frames.place_at(self.user, range.start)
    }
}

/// Returns the page that an address is in.
///
/// It is out of line so that the page's number is needed for nothing but the slot's place where the
/// page is present: then the place has one form in the test and in the access that follows it, and
/// the slot is looked at once.
#[inline(never)]
fn page_of(address: u32) -> Page
    ensures { result.0 ≡ address / 4096 }
{
    Page(address / PAGE_SIZE)
}

impl<'a> Storage for Dat<'a> {
    ghost use Rattle.cp_dat.specs.Lent.{lent_memory, is_lent_page, KeepsStored, keeps_stored_same};
    ghost use Rattle.cp_dat.specs.Lent.{keeps_stored_on, keeps_rest_present};
    ghost use Rattle.cp_dat.specs.Blocks.{IsInFrame, in_frame_kept};

    ghost memory = { lent_memory };

    ghost present = { is_lent_page };

    ghost Keeps = { KeepsStored };

    ghost IsPlaced = { IsInFrame };

    /// Returns how many bytes the storage has.
    #[inline]
    fn size(&self) -> u32 {
        self.size
    }

    /// Tests that size and keys let an access of at most 256 bytes pass and that its pages are in
    /// frames, and returns the fault if not; an access to no byte passes.
    #[inline(always)]
    fn check(&self, range: Range, access: Access, key: AccessKey) -> Result<(), Fault> {
        test_range(self.size, &KeySlice { keys: self.keys }, range, access, key)?;
        let Range { start, count } = range;
        if count == 0 {
            return Ok(());
        }
        match self.frames.place_at(self.user, start) {
            Some(_) => {}
            None => return Err(Fault::Absent(page_of(start))),
        }
        if start % BLOCK_SIZE + count <= BLOCK_SIZE {
            return Ok(());
        }
        let last = start + (count - 1);
        if !self.frames.is_there(self.user, last) {
            return Err(Fault::Absent(page_of(last)));
        }
        Ok(())
    }

    /// Copies some bytes of one block to a place in one block and returns true, if both accesses
    /// are allowed and both pages in frames; else returns false.
    #[inline(always)]
    fn copy_at_once(&mut self, from: u32, to: u32, count: u32, key: AccessKey) -> bool {
        if count == 0 {
            return false;
        }
        if to % BLOCK_SIZE + count > BLOCK_SIZE {
            return false;
        }
        if from % BLOCK_SIZE + count > BLOCK_SIZE {
            return false;
        }
        let target = match self.open_place(Range { start: to, count }, Access::Store, key) {
            Some(place) => place,
            None => return false,
        };
        let source = match self.open_place(Range { start: from, count }, Access::Fetch, key) {
            Some(place) => place,
            None => return false,
        };
        self.frames
            .copy_placed(self.user, source, from, target, to, count);
        true
    }

    /// Returns the block of an address, if the size and its key let the access pass and its page is
    /// in a frame.
    #[inline(always)]
    fn find_block(&self, start: u32, access: Access, key: AccessKey) -> Option<Block> {
        if !may_access_block(self.size, &KeySlice { keys: self.keys }, start, access, key) {
            return None;
        }
        let first = start / BLOCK_SIZE * BLOCK_SIZE;
        match self.frames.place_at(self.user, first) {
            Some(place) => Some(Block {
                first,
                place: place.wrapping_sub(first as usize),
            }),
            None => None,
        }
    }

    /// Fills `into` with bytes from `start` on, in a block that was found.
    #[inline(always)]
    fn load_in(&self, block: Block, start: u32, into: &mut [u8]) {
        // The place of an address is one addition, so that the next instruction waits for no more.
        let place = block.place.wrapping_add(start as usize);
        self.frames.load_in(self.user, place, start, into);
    }

    /// Copies bytes into the storage from `start` on, in a block that was found.
    #[inline(always)]
    fn store_in(&mut self, block: Block, start: u32, from: &[u8]) {
        let place = block.place.wrapping_add(start as usize);
        self.frames.store_placed(self.user, place, start, from);
    }

    /// Copies bytes from one block that was found into another or the same, as if all were read
    /// before any is written.
    #[inline(always)]
    fn copy_in(&mut self, source: Block, from: u32, target: Block, to: u32, count: u32) {
        let source_place = source.place.wrapping_add(from as usize);
        let target_place = target.place.wrapping_add(to as usize);
        self.frames
            .copy_placed(self.user, source_place, from, target_place, to, count);
    }

    /// Fills `into` with bytes of the storage from `start` on, whose pages have to be in frames.
    #[inline(always)]
    fn load(&self, start: u32, into: &mut [u8]) {
        self.frames.load(self.user, start, into);
    }

    /// Copies bytes into the storage from `start` on, whose pages have to be in frames.
    #[inline(always)]
    fn store(&mut self, start: u32, from: &[u8]) {
        self.frames.store(self.user, start, from);
    }

    /// Copies bytes from one place of the storage to another, as if all were read before any is
    /// written; their pages have to be in frames.
    #[inline(always)]
    fn copy(&mut self, from: u32, to: u32, count: u32) {
        self.frames.copy(self.user, from, to, count);
    }

    ghost keeps_same = { keeps_stored_same };

    ghost keeps_size = { λ s t k. k.rest.same_size };

    ghost keeps_keys = { λ s t k. k.keys };

    ghost keeps_present = { λ s t k. keeps_rest_present s t k.rest };

    ghost keeps_on = { keeps_stored_on };

    ghost placed_kept = { in_frame_kept };
}

impl<'a> Keyed for Dat<'a> {
    ghost use Rattle.cp_dat.specs.Lent.{KeepsRest, keeps_rest_on, keeps_rest_present};

    ghost KeepsRest = { KeepsRest };

    /// Returns the storage key of a block of 2048 bytes.
    #[inline]
    fn key_of(&self, block: u32) -> StorageKey {
        self.keys[block as usize]
    }

    /// Sets the storage key of a block of 2048 bytes.
    #[inline]
    fn set_key(&mut self, block: u32, key: StorageKey) {
        self.keys[block as usize] = key;
    }

    ghost rest_kept = { λ s t k. k.rest };

    ghost rest_size = { λ s t k. k.same_size };

    ghost rest_present = { keeps_rest_present };

    ghost rest_on = { keeps_rest_on };
}

impl<'a> Supply for Dat<'a> {
    ghost use Rattle.std.proofs.Common.{ap};
    ghost use Rattle.cp_frames.specs.Layout.{FrameSupply};
    ghost use Rattle.cp_dat.specs.Lent.{lent_pool, user_of};
    ghost use Rattle.cp_frames.specs.Paging.{unpinned_count};
    ghost use Rattle.cp_dat.specs.Supplied.{GivesBack, Supplied};
    ghost use Rattle.cp_dat.specs.Bringing.{supplied_none, supplied_on};

    ghost spare = { λ d. unpinned_count (lent_pool d).supply.pins };

    ghost IsShort = { λ d page. IsRefused (lent_pool d).supply (user_of d) page };

    ghost Brought = { Supplied };

    ghost Cleared = { GivesBack };

    /// Makes all bytes and keys zero: the pages leave their frames and slots, and all frames are
    /// unpinned.
    fn clear(&mut self) {
        self.frames.release(self.user);
        self.keys.fill(StorageKey::ZERO);
    }

    /// Pages a page in if it is in no frame, and pins the frame that it is in.
    fn bring(&mut self, page: Page) -> Result<(), FramesOut> {
        match Dat::bring(self, page) {
            Ok(frame) => {
                self.pin(frame);
                Ok(())
            }
            Err(FramesOut) => Err(FramesOut),
        }
    }

    ghost brought_none = { supplied_none };

    ghost brought_on = { supplied_on };

    ghost spare_kept = { λ s t k.
        ap (λ (supply : FrameSupply). unpinned_count supply.pins) k.same_supply };
}

/// What is brought for a unit is held by pins. With 16 frames, and none of them pinned before it, a
/// unit of nine pages finds one to give up as long as there is a slot for it.
impl<'a> UnitSupply for Dat<'a> {
    ghost use Rattle.cp_dat.specs.Lent.{lent_pool, user_of};
    ghost use Rattle.cp_dat.specs.Supplied.{HasNoRoom, IsBetweenUnits, SuppliedUnits, TakesPins};
    ghost use Rattle.cp_dat.specs.Letting as laws;

    ghost IsBetween = { λ d. IsBetweenUnits (lent_pool d).supply };

    ghost IsOut = { λ d page. HasNoRoom (lent_pool d).supply (user_of d) page };

    ghost Came = { SuppliedUnits };

    ghost LetsGo = { TakesPins };

    /// Unpins all frames.
    fn let_go(&mut self) {
        self.unpin_all();
    }

    ghost held = { laws.held };

    ghost let_go_between = { laws.let_go_between };

    ghost let_go_came = { laws.let_go_came };

    ghost let_go_out = { laws.let_go_out };

    ghost between_kept = { laws.between_kept };

    ghost came_none = { laws.came_none };

    ghost came_size = { λ s t units paged_in. paged_in.kept.same_size };

    ghost came_on = { laws.came_on };
}
