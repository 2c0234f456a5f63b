//! Bytes, halfwords, words and doublewords of any storage, and the test of two ranges.
//!
//! Numbers are in storage with their leftmost byte first (GA22-7000, "Information Formats"). Each
//! of these is one `load` or `store`, so what they require is that `check` granted the range.
ghost use Rattle.std.specs.Prelude.{◌≡◌, ◌+◌, ◌≤◌, [], ◌∷◌, length, slice_index, slice_range};
ghost use Rattle.std.specs.Int.{w16, w32, w64, from_be_bytes, to_be_bytes};
ghost use Rattle.s370_store.specs.Access.{tested, IsVerdict, join_of, IsGranted};
ghost use Rattle.s370_store.specs.Memory.{with_stored};

use crate::{Access, Block, Fault, Range, Storage};
use s370_num::AccessKey;

/// Returns the byte at an address, a fetch that `check` has granted.
#[inline(always)]
pub fn load_byte<S: Storage>(storage: &S, start: u32) -> u8
    requires { IsGranted (length (S.memory storage.now).bytes) (S.present storage.now) start 1 }
    ensures { result ≡ slice_index (S.memory storage.now).bytes start }
{
    let mut into = [0u8; 1];
    storage.load(start, &mut into);
    into[0]
}

/// Returns the byte at an address, in a block that `find_block` returned.
#[inline(always)]
pub fn load_byte_in<S: Storage>(storage: &S, block: Block, start: u32) -> u8
    requires placed { S.IsPlaced storage.now block }
    requires begins { block.first ≤ start }
    requires ends { start + 1 ≤ block.first + 2048 }
    ensures { result ≡ slice_index (S.memory storage.now).bytes start }
{
    let mut into = [0u8; 1];
    storage.load_in(block, start, &mut into);
    into[0]
}

/// Returns the two bytes from an address on as a number, a fetch that `check` has granted.
#[inline(always)]
pub fn load_halfword<S: Storage>(storage: &S, start: u32) -> u16
    requires { IsGranted (length (S.memory storage.now).bytes) (S.present storage.now) start 2 }
    ensures { result ≡ from_be_bytes w16
        (slice_range (S.memory storage.now).bytes start (start + 2)) }
{
    let mut into = [0u8; 2];
    storage.load(start, &mut into);
    u16::from_be_bytes(into)
}

/// Returns the four bytes from an address on as a number, a fetch that `check` has granted.
#[inline(always)]
pub fn load_word<S: Storage>(storage: &S, start: u32) -> u32
    requires { IsGranted (length (S.memory storage.now).bytes) (S.present storage.now) start 4 }
    ensures { result ≡ from_be_bytes w32
        (slice_range (S.memory storage.now).bytes start (start + 4)) }
{
    let mut into = [0u8; 4];
    storage.load(start, &mut into);
    u32::from_be_bytes(into)
}

/// Returns the four bytes from an address on as a number, in a block that `find_block` returned.
#[inline(always)]
pub fn load_word_in<S: Storage>(storage: &S, block: Block, start: u32) -> u32
    requires placed { S.IsPlaced storage.now block }
    requires begins { block.first ≤ start }
    requires ends { start + 4 ≤ block.first + 2048 }
    ensures { result ≡ from_be_bytes w32
        (slice_range (S.memory storage.now).bytes start (start + 4)) }
{
    let mut into = [0u8; 4];
    storage.load_in(block, start, &mut into);
    u32::from_be_bytes(into)
}

/// Returns the eight bytes from an address on as a number, a fetch that `check` has granted.
#[inline(always)]
pub fn load_doubleword<S: Storage>(storage: &S, start: u32) -> u64
    requires { IsGranted (length (S.memory storage.now).bytes) (S.present storage.now) start 8 }
    ensures { result ≡ from_be_bytes w64
        (slice_range (S.memory storage.now).bytes start (start + 8)) }
{
    let mut into = [0u8; 8];
    storage.load(start, &mut into);
    u64::from_be_bytes(into)
}

/// Stores a byte at an address, a store that `check` has granted.
#[inline(always)]
pub fn store_byte<S: Storage>(storage: &mut S, start: u32, byte: u8)
    requires { IsGranted (length (S.memory storage.old).bytes) (S.present storage.old) start 1 }
    ensures stored { S.memory storage.new ≡ with_stored (S.memory storage.old) start (byte ∷ []) }
    ensures rest { S.Keeps storage.old storage.new }
{
    storage.store(start, &[byte]);
}

/// Stores two bytes from an address on, the highest first, a store that `check` has granted.
#[inline(always)]
pub fn store_halfword<S: Storage>(storage: &mut S, start: u32, halfword: u16)
    requires { IsGranted (length (S.memory storage.old).bytes) (S.present storage.old) start 2 }
    ensures stored { S.memory storage.new
        ≡ with_stored (S.memory storage.old) start (to_be_bytes w16 halfword) }
    ensures rest { S.Keeps storage.old storage.new }
{
    storage.store(start, &halfword.to_be_bytes());
}

/// Stores four bytes from an address on, the highest first, a store that `check` has granted.
#[inline(always)]
pub fn store_word<S: Storage>(storage: &mut S, start: u32, word: u32)
    requires { IsGranted (length (S.memory storage.old).bytes) (S.present storage.old) start 4 }
    ensures stored { S.memory storage.new
        ≡ with_stored (S.memory storage.old) start (to_be_bytes w32 word) }
    ensures rest { S.Keeps storage.old storage.new }
{
    storage.store(start, &word.to_be_bytes());
}

/// Stores four bytes from an address on, the highest first, in a block that `find_block` returned.
#[inline(always)]
pub fn store_word_in<S: Storage>(storage: &mut S, block: Block, start: u32, word: u32)
    requires placed { S.IsPlaced storage.old block }
    requires begins { block.first ≤ start }
    requires ends { start + 4 ≤ block.first + 2048 }
    ensures stored { S.memory storage.new
        ≡ with_stored (S.memory storage.old) start (to_be_bytes w32 word) }
    ensures rest { S.Keeps storage.old storage.new }
{
    storage.store_in(block, start, &word.to_be_bytes());
}

/// Stores eight bytes from an address on, the highest first, a store that `check` has granted.
#[inline(always)]
pub fn store_doubleword<S: Storage>(storage: &mut S, start: u32, doubleword: u64)
    requires { IsGranted (length (S.memory storage.old).bytes) (S.present storage.old) start 8 }
    ensures stored { S.memory storage.new
        ≡ with_stored (S.memory storage.old) start (to_be_bytes w64 doubleword) }
    ensures rest { S.Keeps storage.old storage.new }
{
    storage.store(start, &doubleword.to_be_bytes());
}

/// Tests two accesses and returns the gravest fault of both: addressing, then protection, then an
/// absent page.
///
/// # Errors
///
/// A `Fault`: addressing before protection, and an absent page if both let the access pass.
#[inline(always)]
pub fn check_two<S: Storage>(
    storage: &S,
    first: Range,
    first_access: Access,
    second: Range,
    second_access: Access,
    key: AccessKey,
) -> Result<(), Fault>
    requires first { first.count ≤ 256 }
    requires second { second.count ≤ 256 }
    ensures { IsVerdict (length (S.memory storage.now).bytes) (S.memory storage.now).keys
        (S.present storage.now) key
        (tested first_access first ∷ tested second_access second ∷ []) result }
{
    let one = storage.check(first, first_access, key);
    let other = storage.check(second, second_access, key);
    graver_fault(one, other)
}

/// Returns the graver of two checks' faults, or the first of two alike: addressing, then
/// protection, then an absent page.
#[inline(always)]
fn graver_fault(first: Result<(), Fault>, second: Result<(), Fault>) -> Result<(), Fault>
    ensures { result ≡ join_of first second }
{
    match first {
        Ok(()) => second,
        Err(Fault::Addressing) => Err(Fault::Addressing),
        Err(Fault::Protection) => match second {
            Err(Fault::Addressing) => second,
            _ => first,
        },
        Err(Fault::Absent(_)) => match second {
            Err(Fault::Addressing) => second,
            Err(Fault::Protection) => second,
            _ => first,
        },
    }
}
