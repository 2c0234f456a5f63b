//! The blocks from which the loop fetches instructions.
ghost use Rattle.std.specs.Prelude.{◌≡◌, ◌+◌, ◌%◌, ◌<◌, ◌≤◌, IfSome, Some, true};
ghost use Rattle.s370_cpu.specs.Held.{FollowsIn, next_after};
ghost use Rattle.s370_intr.specs.Run.{AreAt, IsFetched};

use s370_cpu::Stepped;
use s370_num::{AccessKey, Addr24};
use s370_store::{Access, Block, Storage};

/// The last block of 16 MiB. Instructions in it are left to the unit, so that no address after one
/// that the loop does wraps round to zero.
const LAST_BLOCK: u32 = 0xFF_F800;

/// The highest place in a block at which the longest instruction has room.
const LAST_PLACE: u32 = 2042;

/// The block from which instructions are fetched, and the one from which they were before.
///
/// A caller and what it calls are mostly in two blocks: so both are found once.
#[derive(Clone, Copy)]
pub struct CodeBlocks {
    pub current: Block,
    pub previous: Block,
}

/// Returns the block around an address, if it may be fetched with this key and its page is present.
///
/// It is not inlined, so that the loop over instructions has no more in it than a call.
#[inline(never)]
pub fn find_again<S: Storage>(storage: &S, next: Addr24, key: AccessKey) -> Option<Block>
    ensures { IfSome result
        (λ found. IsFetched (S.IsPlaced storage.now) (S.memory storage.now) (S.present storage.now)
        key found) }
{
    match storage.find_block(next.get(), Access::Fetch, key) {
        Some(found) => if found.first < LAST_BLOCK {
            Some(found)
        } else {
            None
        },
        None => None,
    }
}

/// Returns whether the instruction at `next` lies in the block of the one at `start`, from which a
/// step went there, at an even address and with room for the longest.
///
/// What follows an instruction is at an even address, and not below its block.
#[inline(always)]
pub fn stays_in(block: Block, start: Addr24, went: &Stepped, next: Addr24) -> bool
    requires low { block.first + 2048 < 16777216 }
    requires aligned { block.first % 2048 ≡ 0 }
    requires begins { block.first ≤ start }
    requires even { start % 2 ≡ 0 }
    requires follows { FollowsIn start went.now }
    requires goes { next_after went.now ≡ Some next }
    ensures begins { result ≡ true → block.first ≤ next }
    ensures ends { result ≡ true → next ≤ block.first + 2042 }
    ensures even { result ≡ true → next % 2 ≡ 0 }
{
    match *went {
        Stepped::Follows(_) => next.get() <= block.first + LAST_PLACE,
        _ => block.has_room(next.get()),
    }
}

/// Returns the blocks with the one first in which the instruction at `next` lies, with room for the
/// longest, if that is not the current one; or `None` if there is none or the address is odd.
#[inline(always)]
pub fn other_blocks<S: Storage>(
    storage: &S,
    blocks: CodeBlocks,
    next: Addr24,
    key: AccessKey,
) -> Option<CodeBlocks>
    requires current { IsFetched (S.IsPlaced storage.now) (S.memory storage.now)
        (S.present storage.now) key blocks.current }
    requires previous { IsFetched (S.IsPlaced storage.now) (S.memory storage.now)
        (S.present storage.now) key blocks.previous }
    ensures { IfSome result
        (AreAt (S.IsPlaced storage.now) (S.memory storage.now) (S.present storage.now) key next) }
{
    let left = blocks.current;
    if blocks.previous.has_room(next.get()) {
        return Some(CodeBlocks {
            current: blocks.previous,
            previous: left,
        });
    }
    match find_again(storage, next, key) {
        Some(found) => if found.has_room(next.get()) {
            Some(CodeBlocks {
                current: found,
                previous: left,
            })
        } else {
            None
        },
        None => None,
    }
}

/// Returns the blocks with the one first in which the instruction at `next` lies, with room for the
/// longest; or `None` if there is none or the address is odd.
#[inline(always)]
pub fn blocks_at<S: Storage>(
    storage: &S,
    blocks: CodeBlocks,
    next: Addr24,
    key: AccessKey,
) -> Option<CodeBlocks>
    requires current { IsFetched (S.IsPlaced storage.now) (S.memory storage.now)
        (S.present storage.now) key blocks.current }
    requires previous { IsFetched (S.IsPlaced storage.now) (S.memory storage.now)
        (S.present storage.now) key blocks.previous }
    ensures { IfSome result
        (AreAt (S.IsPlaced storage.now) (S.memory storage.now) (S.present storage.now) key next) }
{
    if blocks.current.has_room(next.get()) {
        return Some(blocks);
    }
    other_blocks(storage, blocks, next, key)
}
