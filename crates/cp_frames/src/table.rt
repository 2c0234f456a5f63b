//! The tables of the frame and of the slot of each page.
//!
//! That of the frames is bytes: 2304 for each user, the segment table and 64 page tables of the
//! architecture, with segments of 64K and pages of 4K (GA22-7000, "Dynamic Address Translation").
//! That of the slots is a list, 1024 entries for each user.
//!
//! Next to the bytes is such a list of the frames too: of a page it says how far the places of its
//! bytes, among those of all frames, are beyond their addresses, so that an access finds the place
//! of a byte by one load and one addition. No entry of the one is written without that of the
//! other, by [`note`] and [`forget`].
ghost use Rattle.std.specs.Prelude.{◌≡◌, ◌≢◌, ℕ, ◌+◌, ◌*◌, ◌/◌, ◌%◌, ◌<◌, ◌≤◌, length, slice_index};
ghost use Rattle.std.specs.Prelude.{IfOk, IfSome, Some, None, replicate};
ghost use Rattle.cp_frames.specs.Layout.{frame_entry, slot_entry, reported};
ghost use Rattle.cp_frames.specs.Tables.{half_at, word_at, page_place, segment_entry};
ghost use Rattle.cp_frames.specs.Tables.{segment_place, first_half, put_half, noted};

use crate::{FRAME_SIZE, UserPage};
use s370_store::PAGE_SIZE;
use std::alloc::{AllocError, Global};
use user_names::UserNo;

/// Entries of a user in a list: the pages of the largest storage.
pub const PAGES: usize = 1024;

/// Bytes of a user in the table of frames: 64 segment entries of 4 bytes, and 64 page tables of 16
/// entries of 2 bytes.
pub const TABLES: usize = 2304;

/// Halfwords of a user in the table of frames.
const HALVES: usize = 1152;

/// The entry of a page that is in no frame: bit 12 is one.
pub const INVALID: u16 = 8;

/// The entry of a segment past the storage: bit 31 is one.
pub const NO_SEGMENT: u32 = 1;

/// The entry in the list of a page that is in no frame. That of any other is a multiple of 4096.
pub const ABSENT: u32 = 1;

/// The entry of a page that is in no slot.
pub const NO_SLOT: u32 = 4294967295;

/// Returns the place, among the bytes of all tables, of a user's entry for a segment.
#[inline]
pub fn segment_place(user: usize, segment: u32) -> usize
    requires { user < 256 }
    ensures { result ≡ segment_place user segment }
{
    user * TABLES + segment as usize * 4
}

/// Returns the place, among the bytes of all tables, of a user's entry for a page.
#[inline(always)]
pub fn page_place(user: usize, page: u32) -> usize
    requires { user < 256 }
    ensures { result ≡ page_place user page }
{
    user * TABLES + 256 + page as usize * 2
}

/// Returns the halfword at a place of the tables.
#[inline(always)]
pub fn half_at(tables: &[u8], place: usize) -> u16
    requires { place + 1 < length tables.now }
    ensures { result ≡ half_at tables.now place }
{
    u16::from_be_bytes([tables[place], tables[place + 1]])
}

/// Returns the word at a place of the tables.
pub fn word_at(tables: &[u8], place: usize) -> u32
    requires { place + 3 < length tables.now }
    ensures { result ≡ word_at tables.now place }
{
    u32::from(half_at(tables, place)) * 65536 + u32::from(half_at(tables, place + 2))
}

/// Writes a halfword at a place of the tables.
fn put_half(tables: &mut Vec<u8>, place: usize, half: u16)
    requires { place + 1 < length tables.old.items }
    ensures { tables.new.items ≡ put_half tables.old.items place half }
{
    tables[place] = (half / 256) as u8;
    tables[place + 1] = (half % 256) as u8;
}

/// Returns the place of an address among the bytes of all frames, from the lookup entry of its
/// page.
#[inline(always)]
pub fn place_in(entry: u32, address: u32) -> usize
    ensures { (frame : ℕ) → frame < 65536 → address < 4194304
        → entry ≡ frame_entry (Some frame) (address / 4096)
        → result ≡ frame * 4096 + address % 4096 }
{
    entry.wrapping_add(address) as usize
}

/// Returns the frame that a page is in, from its entry in the lookup list.
pub fn frame_in(entry: u32, page: u32) -> usize
    requires { page < 1024 }
    ensures { (frame : ℕ) → frame < 65536 → entry ≡ frame_entry (Some frame) page → result ≡ frame }
{
    place_in(entry, page * PAGE_SIZE) / FRAME_SIZE
}

/// Returns the entry in the lookup list for a page that is in this frame.
fn lookup_entry(page: u32, frame: usize) -> u32
    requires { frame < 4096 }
    ensures { result ≡ frame_entry (Some frame) page }
{
    (frame as u32 * PAGE_SIZE).wrapping_sub(page.wrapping_mul(PAGE_SIZE))
}

/// Returns the page table entry for a page that is in this frame.
fn entry_with(frame: usize) -> u16
    requires { frame < 4096 }
    ensures { result ≡ frame * 16 }
{
    frame as u16 * 16
}

/// Returns the segment table entry for a segment of a user who has this many pages.
fn segment_entry(user: usize, pages: u32, segment: usize) -> u32
    requires user { user < 64 }
    requires segment { segment < 64 }
    ensures { result ≡ segment_entry user pages segment }
{
    let first = segment as u32 * 16;
    let left = pages.saturating_sub(first);
    let own = if 15 < left { 16 } else { left };
    if own == 0 {
        return NO_SEGMENT;
    }
    (own - 1) * 0x1000_0000 + page_place(user, first) as u32
}

/// Returns a halfword of the tables of a user who has this many pages, none of them in a frame.
fn first_half(user: usize, pages: u32, half: usize) -> u16
    requires { user < 64 }
    ensures { result ≡ first_half user pages half }
{
    if 128 <= half {
        return INVALID;
    }
    let entry = segment_entry(user, pages, half / 2);
    if half % 2 == 0 {
        (entry / 65536) as u16
    } else {
        (entry % 65536) as u16
    }
}

/// Returns new segment and page tables for users who have these numbers of pages, none in a frame.
///
/// # Errors
///
/// `AllocError` if memory is refused.
pub fn new_tables(alloc: Global, sizes: &[u32]) -> Result<Vec<u8>, AllocError>
    requires { length sizes.now ≤ 64 }
    ensures size { IfOk result (λ tables. length tables.items ≡ 2304 * length sizes.now) }
    ensures halves { IfOk result
        (λ tables. (half : ℕ) → half < 1152 * length sizes.now
        → half_at tables.items (half * 2)
        ≡ first_half (half / 1152) (slice_index sizes.now (half / 1152)) (half % 1152)) }
{
    let mut tables = vec![in alloc; 0; TABLES * sizes.len()]?;
    for half in 0..HALVES * sizes.len() {
        let user = half / HALVES;
        put_half(
            &mut tables,
            half * 2,
            first_half(user, sizes[user], half % HALVES),
        );
    }
    Ok(tables)
}

/// Returns a new lookup list of this many entries, in which no page is in a frame.
///
/// # Errors
///
/// `AllocError` if memory is refused.
pub fn empty_lookup(alloc: Global, count: usize) -> Result<Vec<u32>, AllocError>
    ensures { IfOk result (λ lookup. lookup.items ≡ replicate count 1) }
{
    Ok(vec![in alloc; ABSENT; count]?)
}

/// Returns a new table of this many entries, in which no page is in a slot.
///
/// # Errors
///
/// `AllocError` if memory is refused.
pub fn empty_slot_table(alloc: Global, count: usize) -> Result<Vec<u32>, AllocError>
    ensures { IfOk result (λ table. table.items ≡ replicate count 4294967295) }
{
    Ok(vec![in alloc; NO_SLOT; count]?)
}

/// Returns the index of a user's page in the lookup list, and in the table of slots.
#[inline(always)]
pub fn entry_of(user: UserNo, page: u32) -> usize
    ensures { result ≡ user * 1024 + page }
{
    user.index() * PAGES + page as usize
}

/// Maps a page, if one is given, to this frame, both in the page tables and in the lookup list.
pub fn map_page(tables: &mut Vec<u8>, lookup: &mut Vec<u32>, owner: Option<UserPage>, frame: usize)
    requires tables { IfSome owner (λ p. page_place p.user p.page.0 + 1 < length tables.old.items) }
    requires lookup { IfSome owner (λ p. p.user * 1024 + p.page.0 < length lookup.old.items) }
    requires frame { frame < 4096 }
    ensures tables { tables.new.items ≡ noted owner (frame * 16) tables.old.items }
    ensures lookup { lookup.new.items ≡ reported frame_entry owner (Some frame) lookup.old.items }
{
    if let Some(there) = owner {
        put_half(
            tables,
            page_place(there.user.index(), there.page.0),
            entry_with(frame),
        );
        lookup[entry_of(there.user, there.page.0)] = lookup_entry(there.page.0, frame);
    }
}

/// Maps a page, if one is given, to no frame, both in the page tables and in the lookup list.
pub fn unmap_page(tables: &mut Vec<u8>, lookup: &mut Vec<u32>, owner: Option<UserPage>)
    requires tables { IfSome owner (λ p. page_place p.user p.page.0 + 1 < length tables.old.items) }
    requires lookup { IfSome owner (λ p. p.user * 1024 + p.page.0 < length lookup.old.items) }
    ensures tables { tables.new.items ≡ noted owner 8 tables.old.items }
    ensures lookup { lookup.new.items ≡ reported frame_entry owner None lookup.old.items }
{
    if let Some(there) = owner {
        put_half(
            tables,
            page_place(there.user.index(), there.page.0),
            INVALID,
        );
        lookup[entry_of(there.user, there.page.0)] = ABSENT;
    }
}

/// Sets the slot of a page, if one is given, in the table of slots.
pub fn set_slot(table: &mut Vec<u32>, owner: Option<UserPage>, slot: u32)
    requires { IfSome owner (λ p. p.user * 1024 + p.page.0 < length table.old.items) }
    ensures { table.new.items ≡ reported slot_entry owner (Some slot) table.old.items }
{
    if let Some(there) = owner {
        table[entry_of(there.user, there.page.0)] = slot;
    }
}

/// Sets in the table of slots that a page, if one is given, is in no slot.
pub fn clear_slot(table: &mut Vec<u32>, owner: Option<UserPage>)
    requires { IfSome owner (λ p. p.user * 1024 + p.page.0 < length table.old.items) }
    ensures { table.new.items ≡ reported slot_entry owner None table.old.items }
{
    if let Some(there) = owner {
        table[entry_of(there.user, there.page.0)] = NO_SLOT;
    }
}

/// Sets in the table of slots that each page of a user is in no slot; past the table it does
/// nothing.
pub fn clear_user_slots(table: &mut Vec<u32>, user: usize)
    requires { user < 256 }
    ensures own { (page : ℕ) → page < 1024 → user * 1024 + 1024 ≤ length table.old.items
        → slice_index table.new.items (user * 1024 + page) ≡ 4294967295 }
    ensures others { (entry : ℕ) → entry / 1024 ≢ user
        → slice_index table.new.items entry ≡ slice_index table.old.items entry }
    ensures size { length table.new.items ≡ length table.old.items }
{
    let first = user * PAGES;
    if first + PAGES <= table.len() {
        table[first..first + PAGES].fill(NO_SLOT);
    }
}
