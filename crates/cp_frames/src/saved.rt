//! Frames as bytes, and frames of bytes.
//!
//! [`Frames::save`] appends what a contract sees of them, exactly: no two pools have the same
//! bytes. What [`Frames::restore`] makes of bytes is lawful whatever they are, and whoever saves it
//! again sees whether it is what was saved.
ghost use Rattle.std.specs.Prelude.{◌≡◌, ◌++◌, ◌<◌, ◌≤◌, ◌*◌, ◌/◌, length, map, take, drop, IfSome};
ghost use Rattle.std.specs.Prelude.{IfNone, OnOk};
ghost use Rattle.saved_bytes.specs.Codes.{each, flag, number, optional};
ghost use Rattle.cp_frames.specs.Layout.{IsZeroPage};
ghost use Rattle.cp_frames.specs.Saved.{IsOneBySaved, is_zero, packed, page_bytes, pages_bytes};
ghost use Rattle.cp_frames.specs.Saved.{pool_bytes, storage_bytes, supply_bytes};

use crate::frame::whole;
use crate::order::FrameOrder;
use crate::pins::FramePins;
use crate::table::PAGES;
use crate::{FRAME_SIZE, FrameNo, Frames, UserPage};
use s370_store::{PAGE_SIZE, Page};
use saved_bytes::{Input, RestoreError, put_flag, put_number, put_one, put_zero};
use std::alloc::{AllocError, Global};
use user_names::{MOST_USERS, UserNo};

/// Appends the user and the number of a page.
fn put_page(out: &mut Vec<u8>, page: UserPage) -> Result<(), AllocError>
    ensures { OnOk result (out.new.items ≡ out.old.items ++ page_bytes page) }
{
    put_number(out, u64::from(page.user.number()))?;
    put_number(out, u64::from(page.page.0))
}

/// Appends which page is in a frame or slot, or that none is.
fn put_place(out: &mut Vec<u8>, owner: Option<UserPage>) -> Result<(), AllocError>
    ensures { OnOk result (out.new.items ≡ out.old.items ++ optional page_bytes owner) }
{
    match owner {
        Some(page) => {
            put_one(out)?;
            put_page(out, page)
        }
        None => put_zero(out),
    }
}

/// Appends which page, if any, is in each of these frames or slots, each after a byte of 1, and
/// then a byte of 0.
#[tactic(auto, using(saved_bytes::proofs::Codes::each_on))]
fn put_places(out: &mut Vec<u8>, owners: &[Option<UserPage>]) -> Result<(), AllocError>
    ensures { OnOk result (out.new.items ≡ out.old.items ++ each (optional page_bytes) owners.now) }
{
    for owner in owners {
        put_one(out)?;
        put_place(out, *owner)?;
    }
    put_zero(out)
}

/// Appends for each frame a byte of 1 and a flag, whether it is pinned, and after all of them a
/// byte of 0.
#[tactic(auto, using(saved_bytes::proofs::Codes::each_on))]
fn put_pins(out: &mut Vec<u8>, pins: &FramePins) -> Result<(), AllocError>
    ensures { OnOk result (out.new.items ≡ out.old.items ++ each flag pins.now) }
{
    for frame in 0..pins.len() {
        put_one(out)?;
        put_flag(out, pins.is_pinned(frame))?;
    }
    put_zero(out)
}

/// Appends the numbers of these frames, in their order, each after a byte of 1, and then a byte of
/// 0.
#[tactic(auto, using(saved_bytes::proofs::Codes::each_on))]
fn put_order(out: &mut Vec<u8>, order: &FrameOrder) -> Result<(), AllocError>
    ensures { OnOk result (out.new.items ≡ out.old.items ++ each number order.now) }
{
    for turn in 0..order.len() {
        put_one(out)?;
        put_number(out, u64::from(order.frame_at(turn)))?;
    }
    put_zero(out)
}

/// Returns whether each byte is zero.
fn is_zero(content: &[u8]) -> bool
    ensures { result ≡ is_zero content.now }
{
    content.iter().all(|byte| *byte == 0)
}

/// Appends a one and the content of a page, or only a zero if each byte of it is zero.
fn put_content(out: &mut Vec<u8>, content: &[u8]) -> Result<(), AllocError>
    ensures { OnOk result (out.new.items ≡ out.old.items ++ packed content.now) }
{
    if is_zero(content) {
        put_zero(out)
    } else {
        put_one(out)?;
        out.extend_from_slice(content)?;
        Ok(())
    }
}

impl Frames {
    ghost use Rattle.cp_frames.specs.Layout.{bytes_of};

    /// Returns how many users there are.
    fn users(&self) -> usize
        ensures value { result ≡ length self.now.storages }
        ensures few { result ≤ 64 }
    {
        self.sizes.len()
    }

    /// Returns the content of a page, if it is in a frame or in a slot.
    fn content_of(&self, user: UserNo, page: Page) -> Option<&[u8]>
        requires { page.0 * 4096 < length (bytes_of self.now user) }
        ensures content { IfSome result
            (λ content. content.now ≡ take 4096 (drop (page.0 * 4096) (bytes_of self.now user))) }
        ensures zero { IfNone result (IsZeroPage (bytes_of self.now user) page.0) }
    {
        match self.frame_of(user, page) {
            Some(frame) => return Some(whole(&self.frames[frame.0 as usize])),
            None => {}
        }
        match self.slot_of(user, page) {
            Some(slot) => Some(whole(&self.slots[slot])),
            None => None,
        }
    }

    /// Appends where each page is, the pins, the order of frames, the number of page-ins and all
    /// storages.
    ///
    /// # Errors
    ///
    /// `AllocError` if memory is refused; `out` may have a part of it then.
    pub fn save(&self, out: &mut Vec<u8>) -> Result<(), AllocError>
        ensures { OnOk result (out.new.items ≡ out.old.items ++ pool_bytes self.now) }
    {
        self.save_supply(out)?;
        self.save_storages(out)
    }

    /// Appends the pages in frames and slots, the pins, the order of frames and the number of
    /// page-ins.
    ///
    /// # Errors
    ///
    /// `AllocError` if memory is refused; `out` may have a part of it then.
    pub fn save_supply(&self, out: &mut Vec<u8>) -> Result<(), AllocError>
        ensures { OnOk result (out.new.items ≡ out.old.items ++ supply_bytes self.now.supply) }
    {
        // Exhaustive: a new field fails to compile here. What is left out follows from what is
        // saved.
        let Frames {
            frames: _,
            slots: _,
            owners,
            slot_owners,
            pins,
            order,
            end: _,
            low: _,
            page_ins,
            sizes: _,
            tables: _,
            lookup: _,
            slot_table: _,
        } = self;
        put_places(out, owners)?;
        put_places(out, slot_owners)?;
        put_pins(out, pins)?;
        put_order(out, order)?;
        put_number(out, *page_ins)
    }

    /// Appends the storages of all users, each after a byte of 1, and then a byte of 0.
    fn save_storages(&self, out: &mut Vec<u8>) -> Result<(), AllocError>
        ensures { OnOk result (out.new.items ≡ out.old.items
            ++ each storage_bytes self.now.storages) }
    {
        for user in 0..self.users() {
            put_one(out)?;
            self.save_storage(UserNo::new(user as u8), out)?;
        }
        put_zero(out)
    }

    /// Appends the size of a user's storage and the content of each of its pages.
    ///
    /// # Errors
    ///
    /// `AllocError` if memory is refused; `out` may have a part of it then.
    pub fn save_storage(&self, user: UserNo, out: &mut Vec<u8>) -> Result<(), AllocError>
        ensures { OnOk result (out.new.items ≡ out.old.items
            ++ storage_bytes (bytes_of self.now user)) }
    {
        put_number(out, u64::from(self.size(user)))?;
        self.save_pages(user, out)
    }

    /// Appends the content of each page of a user, in order.
    fn save_pages(&self, user: UserNo, out: &mut Vec<u8>) -> Result<(), AllocError>
        ensures { OnOk result (out.new.items ≡ out.old.items
            ++ pages_bytes (length (bytes_of self.now user) / 4096) (bytes_of self.now user)) }
    {
        let count = self.size(user) / PAGE_SIZE;
        for page in 0..count {
            self.save_page(user, Page(page), out)?;
        }
        Ok(())
    }

    /// Appends the content of a user's page, or only a zero if it is all zero.
    fn save_page(&self, user: UserNo, page: Page, out: &mut Vec<u8>) -> Result<(), AllocError>
        requires { page.0 * 4096 < length (bytes_of self.now user) }
        ensures { OnOk result (out.new.items ≡ out.old.items
            ++ packed (take 4096 (drop (page.0 * 4096) (bytes_of self.now user)))) }
    {
        match self.content_of(user, page) {
            Some(content) => put_content(out, content),
            None => put_zero(out),
        }
    }

    /// Maps a page to a free frame, which is zeroed.
    ///
    /// # Errors
    ///
    /// `Malformed` if the frame is not free, or if the page is not the user's or is in a frame or
    /// slot already; nothing has changed then.
    fn seat(&mut self, frame: usize, there: UserPage) -> Result<(), RestoreError>
        ensures sizes { map length self.new.storages ≡ map length self.old.storages }
        ensures pins { self.new.supply.pins ≡ self.old.supply.pins }
        ensures frames { length self.new.supply.owners ≡ length self.old.supply.owners }
    {
        let UserPage { user, page } = there;
        if frame >= self.owners.len() || self.owners[frame].is_some() {
            return Err(RestoreError::Malformed);
        }
        if page.0 >= self.size(user) / PAGE_SIZE {
            return Err(RestoreError::Malformed);
        }
        if self.frame_of(user, page).is_some() || self.slot_of(user, page).is_some() {
            return Err(RestoreError::Malformed);
        }
        self.fill(frame, user, page);
        Ok(())
    }

    /// Puts a page of zeros into a free slot, by way of frame 0, which is left free.
    ///
    /// # Errors
    ///
    /// `Malformed`, perhaps with the page in frame 0, if the page, the slot or the frame does not
    /// allow that.
    fn seat_in_slot(&mut self, slot: usize, there: UserPage) -> Result<(), RestoreError>
        ensures sizes { map length self.new.storages ≡ map length self.old.storages }
        ensures pins { self.new.supply.pins ≡ self.old.supply.pins }
        ensures frames { length self.new.supply.owners ≡ length self.old.supply.owners }
    {
        self.seat(0, there)?;
        if self.owners.is_empty() || self.is_pinned(FrameNo(0)) {
            return Err(RestoreError::Malformed);
        }
        if slot >= self.slot_owners.len() || self.slot_owners[slot].is_some() {
            return Err(RestoreError::Malformed);
        }
        self.exchange(0, slot);
        Ok(())
    }

    /// Puts each of these pages, as zeros, into the slot of its index, by way of frame 0.
    ///
    /// # Errors
    ///
    /// `Malformed` at the first that cannot be put there.
    fn seat_slots(&mut self, slots: &[Option<UserPage>]) -> Result<(), RestoreError>
        ensures sizes { map length self.new.storages ≡ map length self.old.storages }
        ensures pins { self.new.supply.pins ≡ self.old.supply.pins }
        ensures frames { length self.new.supply.owners ≡ length self.old.supply.owners }
    {
        for slot in 0..slots.len() {
            match slots[slot] {
                Some(there) => self.seat_in_slot(slot, there)?,
                None => {}
            }
        }
        Ok(())
    }

    /// Maps each of these pages, as zeros, to the frame of its index.
    ///
    /// # Errors
    ///
    /// `Malformed` at the first that cannot be put there.
    fn seat_frames(&mut self, owners: &[Option<UserPage>]) -> Result<(), RestoreError>
        ensures sizes { map length self.new.storages ≡ map length self.old.storages }
        ensures pins { self.new.supply.pins ≡ self.old.supply.pins }
        ensures frames { length self.new.supply.owners ≡ length self.old.supply.owners }
    {
        for frame in 0..owners.len() {
            match owners[frame] {
                Some(there) => self.seat(frame, there)?,
                None => {}
            }
        }
        Ok(())
    }

    /// Moves the frame at the index `turn` of the order to its end, from which the next search for
    /// a free frame goes backwards.
    fn put_last(&mut self, turn: usize)
        requires { turn < length self.old.supply.order }
        ensures storages { self.new.storages ≡ self.old.storages }
        ensures pins { self.new.supply.pins ≡ self.old.supply.pins }
        ensures owners { self.new.supply.owners ≡ self.old.supply.owners }
    {
        self.end = self.order.len();
        self.order.move_to_end(turn);
    }

    /// Reads frame numbers from the input, and moves each frame to the end of the order.
    ///
    /// # Errors
    ///
    /// `Malformed` if there is no such frame, or the input is bad.
    fn restore_order(&mut self, input: &mut Input<'_>) -> Result<(), RestoreError>
        ensures storages { self.new.storages ≡ self.old.storages }
        ensures pins { self.new.supply.pins ≡ self.old.supply.pins }
        ensures owners { self.new.supply.owners ≡ self.old.supply.owners }
    {
        for _ in 0..u16::MAX {
            if !input.flag()? {
                return Ok(());
            }
            match self.order.turn_of(input.next_u16()?) {
                Some(turn) => self.put_last(turn),
                None => return Err(RestoreError::Malformed),
            }
        }
        Err(RestoreError::Malformed)
    }

    /// Sets the number of page-ins so far.
    fn set_page_ins(&mut self, page_ins: u64)
        ensures storages { self.new.storages ≡ self.old.storages }
        ensures pins { self.new.supply.pins ≡ self.old.supply.pins }
        ensures owners { self.new.supply.owners ≡ self.old.supply.owners }
    {
        self.page_ins = page_ins;
    }

    /// Writes the content of a page into its frame or slot.
    ///
    /// # Errors
    ///
    /// `Malformed` if the page is in neither.
    fn write(&mut self, user: UserNo, page: Page, content: &[u8]) -> Result<(), RestoreError>
        requires inside { page.0 * 4096 < length (bytes_of self.old user) }
        requires full { length content.now ≡ 4096 }
        ensures sizes { map length self.new.storages ≡ map length self.old.storages }
        ensures supply { self.new.supply ≡ self.old.supply }
    {
        match self.frame_of(user, page) {
            Some(frame) => {
                self.frames[frame.0 as usize].copy_from_slice(content);
                return Ok(());
            }
            None => {}
        }
        match self.slot_of(user, page) {
            Some(slot) => {
                self.slots[slot].copy_from_slice(content);
                Ok(())
            }
            None => Err(RestoreError::Malformed),
        }
    }

    /// Reads the content of a page from the input, and writes it to its frame or slot; a page saved
    /// as all zero is left as it is.
    ///
    /// # Errors
    ///
    /// `Malformed` if there is no content, no such page, or it is in no frame and no slot.
    fn restore_page(
        &mut self,
        user: UserNo,
        page: Page,
        input: &mut Input<'_>,
    ) -> Result<(), RestoreError>
        ensures sizes { map length self.new.storages ≡ map length self.old.storages }
        ensures supply { self.new.supply ≡ self.old.supply }
    {
        if !input.flag()? {
            return Ok(());
        }
        if page.0 >= self.size(user) / PAGE_SIZE {
            return Err(RestoreError::Malformed);
        }
        let content = input.take(FRAME_SIZE)?;
        self.write(user, page, content)
    }

    /// Reads a user's storage from the input, and writes its pages.
    ///
    /// # Errors
    ///
    /// `Malformed` if its size is another or the input is bad.
    fn restore_storage(&mut self, user: UserNo, input: &mut Input<'_>) -> Result<(), RestoreError>
        ensures sizes { map length self.new.storages ≡ map length self.old.storages }
        ensures supply { self.new.supply ≡ self.old.supply }
    {
        let size = self.size(user);
        if input.number()? != u64::from(size) {
            return Err(RestoreError::Malformed);
        }
        for page in 0..size / PAGE_SIZE {
            self.restore_page(user, Page(page), input)?;
        }
        Ok(())
    }

    /// Reads all users' storages from the input into pages that are mapped as zeros.
    ///
    /// # Errors
    ///
    /// `Malformed` if their number or a size differs, a page with content is unmapped, or the input
    /// is bad.
    fn restore_storages(&mut self, input: &mut Input<'_>) -> Result<(), RestoreError>
        ensures sizes { map length self.new.storages ≡ map length self.old.storages }
        ensures supply { self.new.supply ≡ self.old.supply }
    {
        for user in 0..self.users() {
            if !input.flag()? {
                return Err(RestoreError::Malformed);
            }
            self.restore_storage(UserNo::new(user as u8), input)?;
        }
        if input.flag()? {
            Err(RestoreError::Malformed)
        } else {
            Ok(())
        }
    }

    /// Reads pages, their places, the order of frames and the number of page-ins from the input
    /// into free frames and slots.
    ///
    /// What an error leaves is lawful, and nothing else is said of it.
    ///
    /// # Errors
    ///
    /// `Malformed` if the input has no such, `Memory` if memory is refused, perhaps after restoring
    /// a part.
    pub fn restore(&mut self, alloc: Global, input: &mut Input<'_>) -> Result<(), RestoreError>
        ensures sizes { map length self.new.storages ≡ map length self.old.storages }
        ensures pins { self.new.supply.pins ≡ self.old.supply.pins }
        ensures frames { length self.new.supply.owners ≡ length self.old.supply.owners }
    {
        let owners = next_places(alloc, input)?;
        let slots = next_places(alloc, input)?;
        self.seat_slots(&slots)?;
        self.seat_frames(&owners)?;
        skip_pins(input)?;
        self.restore_order(input)?;
        let page_ins = input.number()?;
        self.set_page_ins(page_ins);
        self.restore_storages(input)
    }
}

/// Reads from the input which page is in a frame or slot, or that none is.
///
/// # Errors
///
/// `Malformed` if the input is bad.
fn next_place(input: &mut Input<'_>) -> Result<Option<UserPage>, RestoreError> {
    if !input.flag()? {
        return Ok(None);
    }
    let user = input.next_u8()?;
    let page = input.next_u16()?;
    if usize::from(user) >= MOST_USERS || usize::from(page) >= PAGES {
        return Err(RestoreError::Malformed);
    }
    Ok(Some(UserPage {
        user: UserNo::new(user),
        page: Page(u32::from(page)),
    }))
}

/// Reads from the input which page, if any, is in each frame or slot.
///
/// # Errors
///
/// `Malformed` if the input is bad, `Memory` if memory is refused.
fn next_places(
    alloc: Global,
    input: &mut Input<'_>,
) -> Result<Vec<Option<UserPage>>, RestoreError> {
    let mut places = Vec::new(alloc);
    for _ in 0..u64::MAX {
        if !input.flag()? {
            return Ok(places);
        }
        let place = next_place(input)?;
        places.push(place)?;
    }
    Err(RestoreError::Malformed)
}

/// Skips the pins of frames in the input.
///
/// # Errors
///
/// `Malformed` if one of them is set or the input is bad.
fn skip_pins(input: &mut Input<'_>) -> Result<(), RestoreError> {
    for _ in 0..u64::MAX {
        if !input.flag()? {
            return Ok(());
        }
        if input.flag()? {
            return Err(RestoreError::Malformed);
        }
    }
    Err(RestoreError::Malformed)
}

/// States that no two pools have the same bytes, so what saves the same bytes again is what was
/// saved.
pub fn one_pool_by_saved()
    ensures { IsOneBySaved }
{}
