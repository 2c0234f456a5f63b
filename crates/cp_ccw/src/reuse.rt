//! When a copied program that was kept may run again.
ghost use Rattle.std.specs.Prelude.{◌≡◌, ℕ, ◌%◌, ◌*◌, ◌/◌, ◌<◌, ◌^◌, ◌⊎◌, All, Contains, IfErr};
ghost use Rattle.std.specs.Prelude.{IfOk, OnOk, true};
ghost use Rattle.s370_channel.specs.Guest.{guest_written};
ghost use Rattle.s370_channel.specs.declared.running.ChannelError.TheVariants as errors;
ghost use Rattle.s370_walk.specs.Walk.{live};
ghost use Rattle.cp_dat.specs.Lent.{KeepsStored, is_lent_page, lent_bytes, lent_memory};
ghost use Rattle.cp_needs.specs.Table.{program_of};
ghost use Rattle.cp_needs.specs.Kept.{IsAsItStood, IsText, IsTextOnly};
ghost use Rattle.cp_needs.specs.Needs.{IsFixed, IsHeld};
ghost use Rattle.cp_ccw.specs.CachedProgram.{AreNoted, AreNotedOnly, Grows, IsAtBase, IsFrame};
ghost use Rattle.cp_ccw.specs.CachedProgram.{IsNoted, IsOf, IsOfList};
ghost use Rattle.cp_ccw.specs.declared.kept.PageInFrame.{PageInFrame};
ghost use Rattle.cp_ccw.specs.Runs.{IsRunOf};

use crate::kept::{CachedProgram, PageInFrame};
use crate::running::run_lent;
use crate::table::{Table, nodes_to_real};
use cp_dat::Dat;
use cp_needs::{Copied, CopyError, Node, WordAt, copy, stands};
use s370_channel::{Caw, ChannelError, Limits};
use s370_store::{Page, Storage};
use s370_walk::{Device, Ending};
use std::alloc::{AllocError, Global};

/// Adds the page of an address, if one is given, and its frame to a list, if the page is whole in
/// storage and in a frame.
fn note_entry(dat: &Dat, said: Option<u32>, held: &mut Vec<PageInFrame>) -> Result<(), AllocError>
    ensures grows { OnOk result (Grows held.old.items held.new.items) }
    ensures noted { OnOk result (IsNoted dat.now held.new.items said) }
    ensures only { OnOk result
        ((h : PageInFrame) → Contains held.new.items h → Contains held.old.items h ⊎ IsOf said h) }
    ensures stand { OnOk result
        (All (IsFrame dat.now) held.old.items → All (IsFrame dat.now) held.new.items) }
{
    let Some(address) = said else {
        return Ok(());
    };
    let page = address / 4096;
    if page as u64 * 4096 + 4096 > dat.size() as u64 {
        return Ok(());
    }
    let Some(frame) = dat.frame_of(Page(page)) else {
        return Ok(());
    };
    held.push(PageInFrame {
        page: Page(page),
        frame,
    })?;
    Ok(())
}

/// Adds to a list the pages of these addresses that are whole in storage and in frames, each with
/// its frame.
fn note_list(dat: &Dat, list: &[Option<u32>], held: &mut Vec<PageInFrame>) -> Result<(), AllocError>
    ensures grows { OnOk result (Grows held.old.items held.new.items) }
    ensures noted { OnOk result (All (IsNoted dat.now held.new.items) list.now) }
    ensures only { OnOk result
        ((h : PageInFrame) → Contains held.new.items h
        → Contains held.old.items h ⊎ IsOfList list.now h) }
    ensures stand { OnOk result
        (All (IsFrame dat.now) held.old.items → All (IsFrame dat.now) held.new.items) }
{
    for said in list {
        note_entry(dat, *said, held)?;
    }
    Ok(())
}

/// Returns the pages that the lists of a program name, each with its frame; those in no frame are
/// left out.
fn frames_of(alloc: Global, dat: &Dat, nodes: &[Node]) -> Result<Vec<PageInFrame>, AllocError>
    ensures noted { IfOk result (λ held. AreNoted dat.now held.items (program_of nodes.now)) }
    ensures only { IfOk result (λ held. AreNotedOnly held.items (program_of nodes.now)) }
    ensures stand { IfOk result (λ held. All (IsFrame dat.now) held.items) }
{
    let mut held = Vec::new(alloc);
    for node in nodes {
        // Exhaustive: a new field fails to compile here.
        let Node { word: _, list } = node;
        note_list(dat, list, &mut held)?;
    }
    Ok(held)
}

/// Returns whether a page is in the same frame as it was.
fn is_in_frame(dat: &Dat, held: &PageInFrame) -> bool
    ensures in_frame { result ≡ true → IsFrame dat.now held.now }
    ensures other { IsFrame dat.now held.now → result ≡ true }
{
    // Exhaustive: a new field fails to compile here.
    let PageInFrame { page, frame: stood } = held;
    if page.0 as u64 * 4096 >= dat.size() as u64 {
        return false;
    }
    match dat.frame_of(*page) {
        Some(frame) => frame == *stood,
        None => false,
    }
}

/// Returns whether each of these pages is in the same frame as it was.
pub(crate) fn are_in_frames(dat: &Dat, held: &[PageInFrame]) -> bool
    ensures in_frames { result ≡ true → All (IsFrame dat.now) held.now }
    ensures other { All (IsFrame dat.now) held.now → result ≡ true }
{
    for one in held {
        if !is_in_frame(dat, one) {
            return false;
        }
    }
    true
}

/// Returns a copy with real addresses of a program that no input can change, and what has to be as
/// it is to run the copy again.
///
/// [`cp_needs::analyze`] finds the words of such a program; its pages are in frames.
///
/// # Errors
///
/// `AllocError` if memory is refused.
pub fn cache_program(
    alloc: Global,
    dat: &Dat,
    caw: Caw,
    text: Vec<WordAt>,
) -> Result<CachedProgram, AllocError>
    requires even { caw.address % 8 ≡ 0 }
    requires fixed { IsFixed (lent_memory dat.now) caw.address }
    requires held { IsHeld (lent_memory dat.now) caw.address (is_lent_page dat.now) }
    requires text { IsText (lent_memory dat.now) caw.address text.items }
    requires only { IsTextOnly (lent_memory dat.now) caw.address text.items }
    requires stands { All (IsAsItStood (lent_bytes dat.now) (is_lent_page dat.now)) text.items }
    ensures { IfOk result (λ kept. IsAtBase kept dat.now caw) }
{
    let Copied {
        start,
        places,
        mut nodes,
    } = match copy(alloc, dat, caw.address.get()) {
        Ok(copied) => copied,
        Err(CopyError::Memory) => return Err(AllocError),
        // The program would need the page, and those that it needs are in frames.
        Err(CopyError::Absent(_)) => unreachable!(),
    };
    let held = frames_of(alloc, dat, &nodes)?;
    nodes_to_real(dat, &mut nodes);
    Ok(CachedProgram {
        caw,
        size: dat.size(),
        text,
        held,
        table: Table {
            start,
            places,
            nodes,
        },
    })
}

/// Returns whether a cached program may run again for this address word: whether all that it was
/// copied from is as it was.
///
/// That is the address word, the size of storage, the words and lists, each on a page that is in a
/// frame, and the frames of its data.
pub fn reusable(kept: &CachedProgram, dat: &Dat, caw: Caw) -> bool
    ensures at_base { result ≡ true → IsAtBase kept.now dat.now caw }
    ensures other { IsAtBase kept.now dat.now caw → result ≡ true }
{
    // Exhaustive: a new field fails to compile here.
    let CachedProgram {
        caw: started,
        size,
        text,
        held,
        table: _,
    } = kept;
    if *started != caw {
        return false;
    }
    if *size != dat.size() {
        return false;
    }
    if !stands(dat, text) {
        return false;
    }
    are_in_frames(dat, held)
}

/// Runs the copy of a cached program over the frames of a user's storage, and returns how it ended.
///
/// [`reusable`] has to say yes, or it has just been cached: it ends as the program does whose words
/// are read as they are reached. It stops only if memory is refused.
///
/// # Errors
///
/// A `ChannelError`: refused memory that a command or the analysis needs.
pub fn run_kept<D: Device>(
    kept: &CachedProgram,
    storage: &mut Dat<'_>,
    caw: Caw,
    limits: &Limits,
    device: &mut D,
) -> Result<Ending, ChannelError>
    requires { IsAtBase kept.now storage.old caw }
    ensures reaches { IfOk result
        (λ ending. IsRunOf (live guest_written) D.machine limits.now caw.address storage.old
        device.old ending
        storage.new device.new) }
    ensures memory { IfErr result (λ error. error ≡ errors.Memory) }
    ensures rest { KeepsStored storage.old storage.new }
{
    // Exhaustive: a new field fails to compile here.
    let Table {
        start: _,
        places: _,
        nodes: _,
    } = &kept.table;
    run_lent(&kept.table, storage, limits, device)
}
