//! The blocks in which the last operands lay.
ghost use Rattle.std.specs.Prelude.{◌≡◌, ◌+◌, ◌<◌, ◌≤◌, [], ◌∷◌, Ok, IfSome, true};
ghost use Rattle.s370_store.specs.Access.{test_of};
ghost use Rattle.s370_rows.specs.State.{state_of};
ghost use Rattle.s370_rows.specs.Rows.{Grants};
ghost use Rattle.s370_store.specs.declared.Access.TheVariants.{Fetch, Store};
ghost use Rattle.s370_rows.specs.Reach.{AreHeld, IsHeld};

use crate::cpu::Cpu;
use s370_num::Addr24;
use s370_store::{Access, Block, Storage};

/// The blocks in which the last operands lay, by the kind of access: what may be fetched from may
/// not be stored into.
#[derive(Clone, Copy, PartialEq, Eq)]
pub struct HeldBlock {
    /// The block from which the last operand was fetched.
    pub fetched: Block,
    /// The block from which operands were fetched before: constants and variables are mostly in two.
    pub previous: Block,
    /// The block into which operands are stored.
    pub stored: Block,
}

/// Returns whether `count` bytes from an address on lie in a block.
#[inline(always)]
fn holds(block: Block, start: Addr24, count: u32) -> bool
    requires far { block.first ≤ 2147483648 }
    requires short { count ≤ 256 }
    ensures low { result ≡ true → block.first < 16777216 }
    ensures begins { result ≡ true → block.first ≤ start }
    ensures ends { result ≡ true → start + count ≤ block.first + 2048 }
{
    // An address below wraps round to one that is far above.
    start.get().wrapping_sub(block.first) <= 2048 - count
}

/// Returns whether the operand lies in the held block, and so may be accessed there.
#[inline(always)]
fn is_in_held<S: Storage>(
    access: Access,
    cpu: &Cpu,
    storage: &S,
    held: Block,
    start: Addr24,
    count: u32,
) -> bool
    requires short { count ≤ 256 }
    requires operands { IsHeld access (S.IsPlaced storage.now) (S.memory storage.now)
        (S.present storage.now) cpu.now.psw.key held }
    ensures placed { result ≡ true → S.IsPlaced storage.now held }
    ensures granted { result ≡ true
        → Grants (state_of cpu.now (S.memory storage.now)) (S.present storage.now)
        (test_of access start count ∷ []) (Ok tt) }
    ensures begins { result ≡ true → held.first ≤ start }
    ensures ends { result ≡ true → start + count ≤ held.first + 2048 }
{
    holds(held, start, count)
}

/// Returns the block that is found for this access, or `None` if the operand lies in two blocks or
/// may not be accessed.
#[inline(always)]
fn found_block<S: Storage>(
    access: Access,
    cpu: &Cpu,
    storage: &S,
    start: Addr24,
    count: u32,
) -> Option<Block>
    requires short { count ≤ 256 }
    ensures operands { IfSome result
        (λ found. IsHeld access (S.IsPlaced storage.now) (S.memory storage.now)
        (S.present storage.now) cpu.now.psw.key found) }
    ensures placed { IfSome result (λ found. S.IsPlaced storage.now found) }
    ensures granted { IfSome result
        (λ _. Grants (state_of cpu.now (S.memory storage.now)) (S.present storage.now)
        (test_of access start count ∷ []) (Ok tt)) }
    ensures begins { IfSome result (λ found. found.first ≤ start) }
    ensures ends { IfSome result (λ found. start + count ≤ found.first + 2048) }
{
    match storage.find_block(start.get(), access, cpu.psw.key()) {
        Some(found) => if holds(found, start, count) {
            Some(found)
        } else {
            None
        },
        None => None,
    }
}

/// Returns the block in which an operand that is fetched lies and holds it for later fetches, or
/// returns `None` if it lies in two blocks or may not be fetched.
#[inline(always)]
pub fn source_block<S: Storage>(
    cpu: &Cpu,
    storage: &S,
    held: &mut HeldBlock,
    start: Addr24,
    count: u32,
) -> Option<Block>
    requires short { count ≤ 256 }
    requires operands { AreHeld (S.IsPlaced storage.now) (S.memory storage.now)
        (S.present storage.now) cpu.now.psw.key held.old }
    ensures operands { AreHeld (S.IsPlaced storage.now) (S.memory storage.now)
        (S.present storage.now) cpu.now.psw.key held.new }
    ensures placed { IfSome result (λ found. S.IsPlaced storage.now found) }
    ensures granted { IfSome result
        (λ _. Grants (state_of cpu.now (S.memory storage.now)) (S.present storage.now)
        (test_of Fetch start count ∷ []) (Ok tt)) }
    ensures begins { IfSome result (λ found. found.first ≤ start) }
    ensures ends { IfSome result (λ found. start + count ≤ found.first + 2048) }
{
    // What is held already is not written again.
    if is_in_held(Access::Fetch, cpu, storage, held.fetched, start, count) {
        return Some(held.fetched);
    }
    let left = held.fetched;
    if is_in_held(Access::Fetch, cpu, storage, held.previous, start, count) {
        held.fetched = held.previous;
        held.previous = left;
        return Some(held.fetched);
    }
    let found = match found_block(Access::Fetch, cpu, storage, start, count) {
        Some(found) => found,
        None => return None,
    };
    held.previous = left;
    held.fetched = found;
    Some(found)
}

/// Returns the block in which an operand that is stored lies and holds it for later stores, or
/// returns `None` if it lies in two blocks or may not be stored.
#[inline(always)]
pub fn target_block<S: Storage>(
    cpu: &Cpu,
    storage: &S,
    held: &mut HeldBlock,
    start: Addr24,
    count: u32,
) -> Option<Block>
    requires short { count ≤ 256 }
    requires operands { AreHeld (S.IsPlaced storage.now) (S.memory storage.now)
        (S.present storage.now) cpu.now.psw.key held.old }
    ensures operands { AreHeld (S.IsPlaced storage.now) (S.memory storage.now)
        (S.present storage.now) cpu.now.psw.key held.new }
    ensures placed { IfSome result (λ found. S.IsPlaced storage.now found) }
    ensures granted { IfSome result
        (λ _. Grants (state_of cpu.now (S.memory storage.now)) (S.present storage.now)
        (test_of Store start count ∷ []) (Ok tt)) }
    ensures begins { IfSome result (λ found. found.first ≤ start) }
    ensures ends { IfSome result (λ found. start + count ≤ found.first + 2048) }
{
    // What is held already is not written again.
    if is_in_held(Access::Store, cpu, storage, held.stored, start, count) {
        return Some(held.stored);
    }
    let found = match found_block(Access::Store, cpu, storage, start, count) {
        Some(found) => found,
        None => return None,
    };
    held.stored = found;
    Some(found)
}
