//! The test of an access by size and keys, the one that each storage makes (GA22-7000,
//! "Protection").
ghost use Rattle.std.specs.Prelude.{◌≡◌, ◌+◌, ◌*◌, ◌/◌, ◌%◌, ◌<◌, ◌≤◌, [], ◌∷◌, true, Ok, length};
ghost use Rattle.std.specs.Prelude.{slice_index, ℕ, List, replicate};
ghost use Rattle.s370_store.specs.Access.{IsVerdict, tested, is_passed, is_permitted};

use crate::{Access, Fault, Range};
use s370_num::{AccessKey, StorageKey};

/// Returns whether key protection lets an access with this key pass at a block with this storage
/// key.
#[inline(always)]
#[tactic(auto, unfolding(crate::specs::Access::is_passed))]
fn passes(access: Access, key: AccessKey, block: StorageKey) -> bool
    ensures { result ≡ is_passed access key block }
{
    let key = key.get();
    let block = block.get();
    match access {
        Access::Fetch => key == 0 || key == block / 2 || block % 2 == 0,
        Access::Store => key == 0 || key == block / 2,
    }
}

/// Keys in storage that can be looked up, however they are kept.
pub trait KeyTable {
    /// The key of each block of 2048 bytes.
    ghost of_blocks: { Self → List ℕ };

    /// Returns the storage key of the block with this number.
    fn key_at(&self, block: u32) -> StorageKey
        requires { block < length (of_blocks self.now) }
        ensures { result ≡ slice_index (of_blocks self.now) block };
}

/// Keys in a list.
#[derive(Clone, Copy)]
pub struct KeySlice<'a> {
    /// A key for each block.
    pub keys: &'a [StorageKey],
}

impl<'a> KeyTable for KeySlice<'a> {
    ghost of_blocks = { λ l. l.keys.now };

    /// Returns the storage key of the block with this number.
    #[inline(always)]
    fn key_at(&self, block: u32) -> StorageKey {
        self.keys[block as usize]
    }
}

/// The key zero for each block: every key fetches, and none but zero stores.
#[derive(Clone, Copy)]
pub struct ZeroKeys {
    /// How many blocks there are.
    pub blocks: u32,
}

impl KeyTable for ZeroKeys {
    ghost of_blocks = { λ o. replicate o.blocks 0 };

    /// Returns storage key zero, whichever the block.
    #[inline(always)]
    fn key_at(&self, _block: u32) -> StorageKey {
        StorageKey::ZERO
    }
}

/// Returns whether key protection lets an access with this key pass at the block with this number.
#[inline(always)]
fn block_passes<K: KeyTable>(keys: &K, block: u32, access: Access, key: AccessKey) -> bool
    requires { block < length (K.of_blocks keys.now) }
    ensures { result ≡ is_passed access key (slice_index (K.of_blocks keys.now) block) }
{
    passes(access, key, keys.key_at(block))
}

/// Returns whether key protection lets an access pass; only the block of the range's first byte is
/// looked at, and no size is tested.
///
/// It is for a storage that knows without the test of the size that the range lies in it.
#[inline(always)]
pub fn passes_in_block<K: KeyTable>(keys: &K, range: Range, access: Access, key: AccessKey) -> bool
    requires inside { range.start < 2048 * length (K.of_blocks keys.now) }
    requires some { 0 < range.count }
    requires one_block { range.start % 2048 + range.count ≤ 2048 }
    ensures { result ≡ is_permitted (K.of_blocks keys.now) key (tested access range) }
{
    if key.get() == 0 {
        return true;
    }
    block_passes(keys, range.start / 2048, access, key)
}

/// Returns whether size and keys let this access, with this key, be made to every byte of the block
/// around an address.
pub fn may_access_block<K: KeyTable>(
    size: u32,
    keys: &K,
    start: u32,
    access: Access,
    key: AccessKey,
) -> bool
    requires keyed { size ≤ 2048 * length (K.of_blocks keys.now) }
    ensures inside { result ≡ true → start / 2048 * 2048 + 2048 ≤ size }
    ensures passed { result ≡ true
        → is_passed access key (slice_index (K.of_blocks keys.now) (start / 2048)) ≡ true }
{
    let block = start / 2048;
    if size / 2048 <= block {
        return false;
    }
    block_passes(keys, block, access, key)
}

/// Returns a fault if size or keys forbid an access to a range of at most 2048 bytes, as if every
/// page were present; an access to no byte passes.
///
/// A body's own `check` makes it first, and then looks for the pages. At most 2048 bytes lie in one
/// block or in two that follow one another, so the key of the first byte decides, or those of the
/// first and the last.
///
/// # Errors
///
/// `Fault::Addressing` before `Fault::Protection`; `Fault::Absent` is never returned.
#[inline(always)]
pub fn test_range<K: KeyTable>(
    size: u32,
    keys: &K,
    range: Range,
    access: Access,
    key: AccessKey,
) -> Result<(), Fault>
    requires keyed { size ≤ 2048 * length (K.of_blocks keys.now) }
    requires short { range.count ≤ 2048 }
    ensures { IsVerdict size (K.of_blocks keys.now) (λ _. true) key (tested access range ∷ [])
        result }
{
    let Range { start, count } = range;
    if count == 0 {
        return Ok(());
    }
    if start as u64 + count as u64 > size as u64 {
        return Err(Fault::Addressing);
    }
    if key.get() == 0 {
        return Ok(());
    }
    if !block_passes(keys, start / 2048, access, key) {
        return Err(Fault::Protection);
    }
    if start % 2048 + count <= 2048 {
        return Ok(());
    }
    if !block_passes(keys, (start + (count - 1)) / 2048, access, key) {
        return Err(Fault::Protection);
    }
    Ok(())
}

/// Returns whether size and keys let an access to a range of at most 2048 bytes pass, as if every
/// page were present; an access to no byte passes.
#[inline(always)]
pub(crate) fn passes_range<K: KeyTable>(
    size: u32,
    keys: &K,
    range: Range,
    access: Access,
    key: AccessKey,
) -> bool
    requires keyed { size ≤ 2048 * length (K.of_blocks keys.now) }
    requires short { range.count ≤ 2048 }
    ensures { result ≡ true → IsVerdict size (K.of_blocks keys.now) (λ _. true) key
        (tested access range ∷ []) (Ok tt) }
{
    match test_range(size, keys, range, access, key) {
        Ok(()) => true,
        Err(_) => false,
    }
}
