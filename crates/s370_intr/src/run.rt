//! Units, one after another.
ghost use Rattle.std.specs.Prelude.{◌≡◌, ℕ, ◌<◌, ◌≤◌, List, [], ◌∷◌, IfSome, length, Result};
ghost use Rattle.std.specs.Prelude.{true};
ghost use Rattle.s370_rows.specs.State.{state_of};
ghost use Rattle.s370_rows.specs.Reach.{AreHeld};
ghost use Rattle.s370_cpu.specs.Held.{IsLongMoveAt};
ghost use Rattle.s370_intr.specs.Laws.{begun};
ghost use Rattle.s370_intr.specs.Units.{MeetsUnitAt, NeedsAt, core_of, look};
ghost use Rattle.s370_intr.specs.declared.next.Next.TheVariants as next;
ghost use Rattle.s370_intr.specs.Run.{AllNeeded, DoesInstructions, EachBrings, HasNext, IsFetched};
ghost use Rattle.s370_intr.specs.Run.{RunsTo, SuppliesUnit, TellsRun};

use crate::code_blocks::{CodeBlocks, blocks_at, find_again, other_blocks, stays_in};
use crate::left_out::{SUPERVISOR_CALL, call_supervisor_in, instruct_in};
use crate::next::{Next, Reason, is_plain, next_of};
use crate::pending::Pending;
use crate::unit::{Processor, accept, accept_status, instruct_saving};
use s370_cpu::{Stepped, move_granted_parts, step_held, supervise_held};
use s370_num::{AccessKey, Addr24};
use s370_psw::Psw;
use s370_rows::{Cpu, HeldBlock};
use s370_store::{Block, FramesOut, Keyed, Page, Storage, UnitSupply, load_byte_in};
use s370_subchannels::Subchannels;

/// 0E MVCL.
const LONG_MOVE: u8 = 0x0E;

/// How many units a run did, and why it did no more.
#[derive(Clone, Copy, PartialEq, Eq)]
pub struct Ran {
    pub units: u32,
    pub reason: Reason,
}

/// Does the unit that `said` names, or returns an absent page that it needs, and nothing has
/// changed; for a stop it does nothing.
#[inline(always)]
fn try_unit<P: Processor, S: Keyed>(
    said: Next,
    cpu: &mut Cpu,
    spare: &mut Cpu,
    pending: &mut Pending,
    subchannels: &mut Subchannels,
    storage: &mut S,
) -> Result<(), Page>
    requires { 8192 ≤ length (S.Storage.memory storage.old).bytes }
    ensures unit { let before = core_of
        (state_of cpu.old (S.Storage.memory storage.old)) pending.old subchannels.old in
        let after = core_of (state_of cpu.new (S.Storage.memory storage.new)) pending.new
        subchannels.new in
        MeetsUnitAt said (S.Storage.present storage.old) before result after }
    ensures rest { S.KeepsRest storage.old storage.new }
{
    match said {
        Next::Stops(_) => Ok(()),
        Next::Accepts(taken) => accept::<P, S>(taken, cpu, pending, subchannels, storage),
        Next::AcceptsStatus(status) => accept_status::<P, S>(status, cpu, subchannels, storage),
        Next::Instructs => instruct_saving::<P, S>(cpu, spare, subchannels, storage),
    }
}

/// Does the unit that `said` names, after making each absent page that it needs present and holding
/// it; if there is no room for one, the unit is not done.
fn bring_until_done<P: Processor, S: UnitSupply>(
    said: Next,
    cpu: &mut Cpu,
    spare: &mut Cpu,
    pending: &mut Pending,
    subchannels: &mut Subchannels,
    storage: &mut S,
) -> Result<(), FramesOut>
    requires { 8192 ≤ length (S.Storage.memory storage.old).bytes }
    ensures unit { let before = core_of
        (state_of cpu.old (S.Storage.memory storage.old)) pending.old subchannels.old in
        let after = core_of (state_of cpu.new (S.Storage.memory storage.new)) pending.new
        subchannels.new in
        SuppliesUnit said before result after (S.Supply.IsShort storage.new) }
    ensures supply { let before = core_of
        (state_of cpu.old (S.Storage.memory storage.old)) pending.old subchannels.old in
        (pages : List ℕ) × S.Supply.Brought storage.old pages storage.new
        × AllNeeded (NeedsAt said before) pages
        × (length pages ≤ 9) }
    ensures size { length (S.Storage.memory storage.new).bytes
        ≡ length (S.Storage.memory storage.old).bytes }
{
    loop {
        match try_unit::<P, S>(said, cpu, spare, pending, subchannels, storage) {
            Ok(()) => return Ok(()),
            Err(page) => {
                storage.bring(page)?;
            }
        }
    }
}

/// Does the unit that `said` names, with the absent pages that it needs, as `bring_pages` does, and
/// then ends the hold on them.
///
/// It is not inlined, so that a unit that brings nothing pays nothing for it.
#[inline(never)]
fn bring_and_do_unit<P: Processor, S: UnitSupply>(
    said: Next,
    cpu: &mut Cpu,
    spare: &mut Cpu,
    pending: &mut Pending,
    subchannels: &mut Subchannels,
    storage: &mut S,
) -> Result<(), FramesOut>
    requires large { 8192 ≤ length (S.Storage.memory storage.old).bytes }
    requires between { S.IsBetween storage.old }
    ensures unit { let before = core_of
        (state_of cpu.old (S.Storage.memory storage.old)) pending.old subchannels.old in
        let after = core_of (state_of cpu.new (S.Storage.memory storage.new)) pending.new
        subchannels.new in
        SuppliesUnit said before result after (S.IsOut storage.new) }
    ensures supply { let before = core_of
        (state_of cpu.old (S.Storage.memory storage.old)) pending.old subchannels.old in
        (pages : List ℕ) × S.Came storage.old (pages ∷ []) storage.new
        × AllNeeded (NeedsAt said before) pages
        × (length pages ≤ 9) }
    ensures between { S.IsBetween storage.new }
{
    let done = bring_until_done::<P, S>(said, cpu, spare, pending, subchannels, storage);
    storage.let_go();
    done
}

/// Does the unit that `said` names, and makes the absent pages that it needs present first; if
/// there is no room for one, the unit is not done.
///
/// The pages that were brought for it stay. Nothing is done for a stop.
#[inline(always)]
fn do_unit<P: Processor, S: UnitSupply>(
    said: Next,
    cpu: &mut Cpu,
    spare: &mut Cpu,
    pending: &mut Pending,
    subchannels: &mut Subchannels,
    storage: &mut S,
) -> Result<(), FramesOut>
    requires large { 8192 ≤ length (S.Storage.memory storage.old).bytes }
    requires between { S.IsBetween storage.old }
    ensures unit { let before = core_of
        (state_of cpu.old (S.Storage.memory storage.old)) pending.old subchannels.old in
        let after = core_of (state_of cpu.new (S.Storage.memory storage.new)) pending.new
        subchannels.new in
        SuppliesUnit said before result after (S.IsOut storage.new) }
    ensures supply { let before = core_of
        (state_of cpu.old (S.Storage.memory storage.old)) pending.old subchannels.old in
        (pages : List ℕ) × S.Came storage.old (pages ∷ []) storage.new
        × AllNeeded (NeedsAt said before) pages
        × (length pages ≤ 9) }
    ensures between { S.IsBetween storage.new }
{
    match try_unit::<P, S>(said, cpu, spare, pending, subchannels, storage) {
        Ok(()) => Ok(()),
        Err(_) => bring_and_do_unit::<P, S>(said, cpu, spare, pending, subchannels, storage),
    }
}

/// Does parts of the MVCL at the instruction address, at most `limit`, until one cannot be done
/// quickly, and returns how many it did.
///
/// They have a loop of their own, since each of them moves so much that what is done once for all
/// of them counts.
#[inline(never)]
fn move_parts<S: Storage>(
    cpu: &mut Cpu,
    storage: &mut S,
    start: Addr24,
    second_byte: u8,
    limit: u32,
) -> u32
    requires here { start ≡ cpu.old.psw.address }
    requires stands { IsLongMoveAt (state_of cpu.old (S.memory storage.old)) (S.present storage.old)
        start second_byte }
    ensures done { let before = state_of cpu.old (S.memory storage.old) in
        let after = state_of cpu.new (S.memory storage.new) in
        DoesInstructions result before after }
    ensures within { result ≤ limit }
    ensures rest { S.Keeps storage.old storage.new }
{
    let mut units = 0;
    while units < limit {
        let parts = move_granted_parts(cpu, storage, start, second_byte, limit - units);
        if parts == 0 {
            return units;
        }
        units += parts;
    }
    units
}

/// What the loop did, and where it stopped.
#[derive(Clone, Copy)]
struct Steady {
    units: u32,
    /// The blocks of code, if the loop leaves out the next instruction.
    blocks: Option<CodeBlocks>,
}

/// What a processor did that began with an instruction and nothing pending, and whether that is so
/// again.
#[derive(Clone, Copy)]
struct UnitsDone {
    units: u32,
    is_plain: bool,
}

/// What an instruction did that the loop left out.
#[derive(Clone, Copy)]
struct LeftOut {
    units: u32,
    /// An instruction is surely next.
    is_plain: bool,
    /// The block of the instruction and those of operands may be accessed as before.
    keeps_blocks: bool,
}

/// Does instructions, at most `limit`, until one cannot be done quickly, and returns how many it
/// did and the blocks of that one, if they were found.
///
/// After each of them a look would say what it said before: so the blocks from which they are
/// fetched, at first `blocks`, are looked up once, as long as they stay in them.
#[inline(always)]
fn instruct_held<S: Storage>(
    cpu: &mut Cpu,
    storage: &mut S,
    blocks: CodeBlocks,
    held: &mut HeldBlock,
    limit: u32,
) -> Steady
    requires current { IsFetched (S.IsPlaced storage.old) (S.memory storage.old)
        (S.present storage.old) cpu.old.psw.key blocks.current }
    requires previous { IsFetched (S.IsPlaced storage.old) (S.memory storage.old)
        (S.present storage.old) cpu.old.psw.key blocks.previous }
    requires operands { AreHeld (S.IsPlaced storage.old) (S.memory storage.old)
        (S.present storage.old) cpu.old.psw.key held.old }
    ensures done { let before = state_of cpu.old (S.memory storage.old) in
        let after = state_of cpu.new (S.memory storage.new) in
        DoesInstructions result.units before after }
    ensures within { result.units ≤ limit }
    ensures left { IfSome result.blocks (λ _. result.units < limit) }
    ensures next { IfSome result.blocks (λ blocks. HasNext (S.IsPlaced storage.new)
        (S.memory storage.new) (S.present storage.new) cpu.new blocks.current) }
    ensures previous { IfSome result.blocks (λ blocks. IsFetched (S.IsPlaced storage.new)
        (S.memory storage.new) (S.present storage.new) cpu.new.psw.key blocks.previous) }
    ensures operands { IfSome result.blocks
        (λ _. AreHeld (S.IsPlaced storage.new) (S.memory storage.new)
        (S.present storage.new) cpu.new.psw.key held.new) }
    ensures rest { S.Keeps storage.old storage.new }
{
    let mut next = cpu.psw.address();
    let key = cpu.psw.key();
    let mut blocks = match blocks_at(storage, blocks, next, key) {
        Some(found) => found,
        None => {
            return Steady {
                units: 0,
                blocks: None,
            };
        }
    };
    // It counts down, in each way by itself and last, so that the host compares nothing for it.
    let mut left = limit;
    while left > 0 {
        let start = next;
        let went = step_held(cpu, storage, start, blocks.current, held);
        match went {
            Stepped::Unassigned => {
                return Steady {
                    units: limit - left,
                    blocks: None,
                };
            }
            _ => {}
        }
        next = match went.next() {
            Some(address) => address,
            None => {
                return Steady {
                    units: limit - left,
                    blocks: Some(blocks),
                };
            }
        };
        if stays_in(blocks.current, start, &went, next) {
            left -= 1;
            continue;
        }
        blocks = match other_blocks(storage, blocks, next, key) {
            Some(found) => found,
            None => {
                return Steady {
                    units: limit - (left - 1),
                    blocks: None,
                };
            }
        };
        left -= 1;
    }
    Steady {
        units: limit,
        blocks: None,
    }
}

/// Does the instruction that the loop left out, or for MVCL whole parts of it, at most
/// `limit`, and returns how many units it did and whether an instruction is surely next.
///
/// None is done if a page is absent.
#[inline(never)]
fn instruct_tested<P: Processor, S: Keyed>(
    cpu: &mut Cpu,
    pending: Pending,
    subchannels: &mut Subchannels,
    storage: &mut S,
    block: Block,
    limit: u32,
) -> UnitsDone
    requires size { 8192 ≤ length (S.Storage.memory storage.old).bytes }
    requires plain { let m = state_of cpu.old (S.Storage.memory storage.old) in
        look (core_of m pending subchannels.old) ≡ next.Instructs }
    requires some { 0 < limit }
    requires next { HasNext (S.Storage.IsPlaced storage.old) (S.Storage.memory storage.old)
        (S.Storage.present storage.old) cpu.old block }
    ensures ran { let before = state_of cpu.old (S.Storage.memory storage.old) in
        let after = state_of cpu.new (S.Storage.memory storage.new) in
        RunsTo limit result.units result.is_plain (core_of before pending subchannels.old)
        (core_of after pending subchannels.new) }
    ensures rest { S.KeepsRest storage.old storage.new }
{
    let start = cpu.psw.address();
    if load_byte_in(storage, block, start.get()) == LONG_MOVE {
        let second_byte = load_byte_in(storage, block, start.get() + 1);
        let units = move_parts(cpu, storage, start, second_byte, limit);
        return UnitsDone {
            units,
            is_plain: true,
        };
    }
    if !instruct_in::<P, S>(cpu, subchannels, storage, start, block) {
        return UnitsDone {
            units: 0,
            is_plain: true,
        };
    }
    UnitsDone {
        units: 1,
        is_plain: is_plain(cpu, pending, subchannels),
    }
}

/// Does the instruction that the loop left out, or for MVCL whole parts of it, at most
/// `limit`, and returns what it did and whether the blocks are still what they were.
///
/// SVC, and a privileged instruction that sets no storage key and asks no device, leave them, unless
/// the PSW has another key after it. None is done if a page is absent.
#[inline(always)]
fn instruct_left_out<P: Processor, S: Keyed>(
    cpu: &mut Cpu,
    pending: Pending,
    subchannels: &mut Subchannels,
    storage: &mut S,
    blocks: CodeBlocks,
    held: &mut HeldBlock,
    limit: u32,
) -> LeftOut
    requires size { 8192 ≤ length (S.Storage.memory storage.old).bytes }
    requires plain { let m = state_of cpu.old (S.Storage.memory storage.old) in
        look (core_of m pending subchannels.old) ≡ next.Instructs }
    requires some { 0 < limit }
    requires next { HasNext (S.Storage.IsPlaced storage.old) (S.Storage.memory storage.old)
        (S.Storage.present storage.old) cpu.old blocks.current }
    requires previous { IsFetched (S.Storage.IsPlaced storage.old) (S.Storage.memory storage.old)
        (S.Storage.present storage.old) cpu.old.psw.key blocks.previous }
    requires operands { AreHeld (S.Storage.IsPlaced storage.old) (S.Storage.memory storage.old)
        (S.Storage.present storage.old) cpu.old.psw.key held.old }
    ensures ran { let before = state_of cpu.old (S.Storage.memory storage.old) in
        let after = state_of cpu.new (S.Storage.memory storage.new) in
        RunsTo limit result.units result.is_plain (core_of before pending subchannels.old)
        (core_of after pending subchannels.new) }
    ensures current { result.keeps_blocks ≡ true → IsFetched (S.Storage.IsPlaced storage.new)
        (S.Storage.memory storage.new) (S.Storage.present storage.new) cpu.new.psw.key
        blocks.current }
    ensures previous { result.keeps_blocks ≡ true → IsFetched (S.Storage.IsPlaced storage.new)
        (S.Storage.memory storage.new) (S.Storage.present storage.new) cpu.new.psw.key
        blocks.previous }
    ensures operands { result.keeps_blocks ≡ true
        → AreHeld (S.Storage.IsPlaced storage.new) (S.Storage.memory storage.new)
        (S.Storage.present storage.new) cpu.new.psw.key held.new }
    ensures rest { S.KeepsRest storage.old storage.new }
{
    let block = blocks.current;
    let start = cpu.psw.address();
    let key = cpu.psw.key();
    match load_byte_in(storage, block, start.get()) {
        SUPERVISOR_CALL => {
            if !call_supervisor_in::<P, S>(cpu, subchannels, storage, start, block) {
                return LeftOut {
                    units: 0,
                    is_plain: true,
                    keeps_blocks: false,
                };
            }
            let is_next = is_plain(cpu, pending, subchannels);
            let same_key = has_key(cpu, key);
            return LeftOut {
                units: 1,
                is_plain: is_next,
                keeps_blocks: same_key,
            };
        }
        // ISK, SSM, LPSW, STNSM, STOSM, STCTL and LCTL
        0x09 | 0x80 | 0x82 | 0xAC | 0xAD | 0xB6 | 0xB7 => {}
        _ => {
            let went = instruct_tested::<P, S>(cpu, pending, subchannels, storage, block, limit);
            return LeftOut {
                units: went.units,
                is_plain: went.is_plain,
                keeps_blocks: false,
            };
        }
    }
    match supervise_held(cpu, storage, start, block, held) {
        Some(_) => {
            let plain = is_plain(cpu, pending, subchannels);
            return LeftOut {
                units: 1,
                is_plain: plain,
                keeps_blocks: has_key(cpu, key),
            };
        }
        None => {}
    }
    let went = instruct_tested::<P, S>(cpu, pending, subchannels, storage, block, limit);
    LeftOut {
        units: went.units,
        is_plain: went.is_plain,
        keeps_blocks: false,
    }
}

/// Returns whether the PSW has this key.
#[inline(always)]
fn has_key(cpu: &Cpu, key: AccessKey) -> bool
    ensures { result ≡ true → cpu.now.psw.key ≡ key }
{
    cpu.psw.key().get() == key.get()
}

/// Returns the blocks of code: `blocks` if `keeps_blocks` is true, else twice the one of the next
/// instruction, to which `held` is then reset; or `None` if there is none.
///
/// With a block that is found operands are fetched from it at first, and none is held for stores.
#[inline(always)]
fn blocks_for<S: Storage>(
    keeps_blocks: bool,
    cpu: &Cpu,
    storage: &S,
    blocks: CodeBlocks,
    held: &mut HeldBlock,
) -> Option<CodeBlocks>
    requires current { keeps_blocks ≡ true → IsFetched (S.IsPlaced storage.now)
        (S.memory storage.now) (S.present storage.now) cpu.now.psw.key blocks.current }
    requires previous { keeps_blocks ≡ true → IsFetched (S.IsPlaced storage.now)
        (S.memory storage.now) (S.present storage.now) cpu.now.psw.key blocks.previous }
    requires operands { keeps_blocks ≡ true
        → AreHeld (S.IsPlaced storage.now) (S.memory storage.now)
        (S.present storage.now) cpu.now.psw.key held.old }
    ensures current { IfSome result (λ found. IsFetched (S.IsPlaced storage.now)
        (S.memory storage.now) (S.present storage.now) cpu.now.psw.key found.current) }
    ensures previous { IfSome result (λ found. IsFetched (S.IsPlaced storage.now)
        (S.memory storage.now) (S.present storage.now) cpu.now.psw.key found.previous) }
    ensures operands { IfSome result
        (λ _. AreHeld (S.IsPlaced storage.now) (S.memory storage.now)
        (S.present storage.now) cpu.now.psw.key held.new) }
{
    if keeps_blocks {
        return Some(blocks);
    }
    match find_again(storage, cpu.psw.address(), cpu.psw.key()) {
        Some(found) => {
            *held = HeldBlock {
                fetched: found,
                previous: found,
                stored: Block::NOWHERE,
            };
            Some(CodeBlocks {
                current: found,
                previous: found,
            })
        }
        None => None,
    }
}

/// Does instructions, at most `limit`, until one cannot be done here or may not be next, and
/// returns how many it did and whether an instruction is surely next.
///
/// This has no other unit in it, so that registers are left for what it needs.
#[inline(never)]
fn instruct_many<P: Processor, S: Keyed>(
    cpu: &mut Cpu,
    pending: Pending,
    subchannels: &mut Subchannels,
    storage: &mut S,
    limit: u32,
) -> UnitsDone
    requires size { 8192 ≤ length (S.Storage.memory storage.old).bytes }
    requires plain { let m = state_of cpu.old (S.Storage.memory storage.old) in
        look (core_of m pending subchannels.old) ≡ next.Instructs }
    ensures ran { let before = state_of cpu.old (S.Storage.memory storage.old) in
        let after = state_of cpu.new (S.Storage.memory storage.new) in
        RunsTo limit result.units result.is_plain (core_of before pending subchannels.old)
        (core_of after pending subchannels.new) }
    ensures rest { S.KeepsRest storage.old storage.new }
{
    let mut units = 0;
    let mut keeps_blocks = false;
    let mut blocks = CodeBlocks {
        current: Block::NOWHERE,
        previous: Block::NOWHERE,
    };
    let mut held = HeldBlock {
        fetched: Block::NOWHERE,
        previous: Block::NOWHERE,
        stored: Block::NOWHERE,
    };
    while units < limit {
        let first = match blocks_for(keeps_blocks, cpu, storage, blocks, &mut held) {
            Some(found) => found,
            None => {
                return UnitsDone {
                    units,
                    is_plain: true,
                };
            }
        };
        let steady = instruct_held(cpu, storage, first, &mut held, limit - units);
        units += steady.units;
        blocks = match steady.blocks {
            Some(last) => last,
            None => {
                return UnitsDone {
                    units,
                    is_plain: true,
                };
            }
        };
        let went = instruct_left_out::<P, S>(
            cpu,
            pending,
            subchannels,
            storage,
            blocks,
            &mut held,
            limit - units,
        );
        units += went.units;
        keeps_blocks = went.keeps_blocks;
        if went.units == 0 || !went.is_plain {
            return UnitsDone {
                units,
                is_plain: went.is_plain,
            };
        }
    }
    UnitsDone {
        units,
        is_plain: true,
    }
}

/// Does instructions as `instruct_many` does if `is_plain` is true; else does nothing.
#[inline(always)]
fn instruct_if_plain<P: Processor, S: Keyed>(
    is_plain: bool,
    cpu: &mut Cpu,
    pending: Pending,
    subchannels: &mut Subchannels,
    storage: &mut S,
    limit: u32,
) -> UnitsDone
    requires size { 8192 ≤ length (S.Storage.memory storage.old).bytes }
    requires plain { let m = state_of cpu.old (S.Storage.memory storage.old) in
        is_plain ≡ true → look (core_of m pending subchannels.old) ≡ next.Instructs }
    ensures ran { let before = state_of cpu.old (S.Storage.memory storage.old) in
        let after = state_of cpu.new (S.Storage.memory storage.new) in
        RunsTo limit result.units result.is_plain (core_of before pending subchannels.old)
        (core_of after pending subchannels.new) }
    ensures rest { S.KeepsRest storage.old storage.new }
{
    if is_plain {
        instruct_many::<P, S>(cpu, pending, subchannels, storage, limit)
    } else {
        UnitsDone {
            units: 0,
            is_plain: false,
        }
    }
}

/// Returns registers and a PSW of zeros, which others overwrite before they are read.
fn blank_cpu() -> Cpu {
    Cpu {
        general: [0; 16],
        control: [0; 16],
        psw: Psw::from_word(0),
    }
}

/// Runs at most `count` units of a processor, with the pages that each needs, and returns how many
/// it ran and why it stopped.
///
/// Each brings at most nine pages, and what is brought for one stays until it ends. This takes no
/// memory.
pub fn run_units<P: Processor, S: UnitSupply>(
    cpu: &mut Cpu,
    pending: &mut Pending,
    subchannels: &mut Subchannels,
    storage: &mut S,
    count: u32,
) -> Ran
    requires large { 8192 ≤ length (S.Storage.memory storage.old).bytes }
    requires between { S.IsBetween storage.old }
    ensures reported { let before = core_of
        (state_of cpu.old (S.Storage.memory storage.old)) pending.old subchannels.old in
        let after = core_of (state_of cpu.new (S.Storage.memory storage.new)) pending.new
        subchannels.new in
        TellsRun count before
        (record { core = after; units = result.units; reason = result.reason })
        (S.IsOut storage.new) }
    ensures supply { let before = core_of
        (state_of cpu.old (S.Storage.memory storage.old)) pending.old subchannels.old in
        (units : List (List ℕ)) × S.Came storage.old units storage.new × EachBrings before 0 units
        × (length units ≤ begun result.units result.reason) }
    ensures between { S.IsBetween storage.new }
{
    let plain = is_plain(cpu, *pending, subchannels);
    let mut went = instruct_if_plain::<P, S>(plain, cpu, *pending, subchannels, storage, count);
    let mut units = went.units;
    // A turn that ends here has made up nothing that only other units need.
    if units == count {
        return Ran {
            units,
            reason: Reason::Count,
        };
    }
    let mut spare = blank_cpu();
    while units < count {
        let next = next_of(went.is_plain, cpu, *pending, subchannels);
        match next {
            Next::Stops(reason) => return Ran { units, reason },
            _ => {}
        }
        match do_unit::<P, S>(next, cpu, &mut spare, pending, subchannels, storage) {
            Ok(()) => {}
            Err(FramesOut) => {
                return Ran {
                    units,
                    reason: Reason::FramesOut,
                };
            }
        }
        units += 1;
        let plain = is_plain(cpu, *pending, subchannels);
        went = instruct_if_plain::<P, S>(plain, cpu, *pending, subchannels, storage, count - units);
        units += went.units;
    }
    Ran {
        units: count,
        reason: Reason::Count,
    }
}
