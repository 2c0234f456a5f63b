//! The storage of a processor: bytes, a key for each block of 2048 of them, and pages of 4096 that
//! may be absent.
//!
//! Its one theorem: an access is let through if each of its bytes lies in the storage and the key
//! in storage of that byte's block passes it, and else is refused by addressing before protection;
//! what is stored changes the bytes it names and nothing else, neither of this storage nor of what
//! it is borrowed from (IBM System/370 Principles of Operation, GA22-7000, "Protection" and
//! "Addressing Exception").
//!
//! All code above is written over the trait [`Storage`]: [`PlainStorage`] is the whole storage of a
//! bare machine, and a control program has bodies of its own, lent from the frames that its users
//! share. What has to go on where a page is absent is written over [`Supply`], a storage that
//! brings its absent pages, and over [`UnitSupply`] where that goes on for one unit of operation
//! after another.
//!
//! ```
//! use s370_num::AccessKey;
//! use s370_store::{Access, Fault, PlainStorage, Range, Storage, load_byte, store_word};
//!
//! let mut storage = PlainStorage::new(alloc, 4)?; // four blocks are 8 KiB
//! storage.check(Range { start: 0x1000, count: 4 }, Access::Store, AccessKey::ZERO)?;
//! store_word(&mut storage, 0x1000, 0x1234_5678);
//! assert_eq!(rt; load_byte(&storage, 0x1001), 0x34);
//! let beyond = storage.check(Range { start: 0x1FFE, count: 4 }, Access::Fetch, AccessKey::ZERO);
//! assert_eq!(rt; beyond, Err(Fault::Addressing));
//! ```
#![tactic(auto)]

mod block;
mod paged;
mod place;
mod plain;
mod protection;
mod supply;
mod unit_supply;
mod words;

ghost use Rattle.std.specs.Prelude.{◌≡◌, ℕ, ◌+◌, ◌*◌, ◌/◌, ◌<◌, ◌≤◌, [], ◌∷◌, Bool, true, false};
ghost use Rattle.std.specs.Prelude.{Ok, IfSome, length, slice_index, slice_range};
ghost use Rattle.s370_store.specs.Access.{tested, test_of, IsVerdict, IsGranted};
ghost use Rattle.s370_store.specs.declared.Access.TheVariants.{Fetch, Store};
ghost use Rattle.s370_store.specs.Blocks.{MayAccess};
ghost use Rattle.s370_store.specs.Memory.{Memory, with_key, with_stored};
ghost use Rattle.s370_store.specs.declared.block.Block.{Block};

pub use block::Block;
pub use paged::PagedStorage;
pub use place::{copy_at, put_at};
pub use plain::PlainStorage;
pub use protection::{KeySlice, KeyTable, ZeroKeys, may_access_block, passes_in_block, test_range};
use s370_num::{AccessKey, StorageKey};
pub use supply::{FramesOut, Supply};
use thiserror::Error;
pub use unit_supply::UnitSupply;
pub use words::{
    check_two, load_byte, load_byte_in, load_doubleword, load_halfword, load_word, load_word_in,
    store_byte, store_doubleword, store_halfword, store_word, store_word_in,
};

/// How many bytes a page has.
pub const PAGE_SIZE: u32 = 4096;

/// How many bytes a block has, which is what has a key in storage.
pub const BLOCK_SIZE: u32 = 2048;

/// How many bytes a machine has at least: the assigned locations lie below.
pub const LEAST_STORAGE: u32 = 8192;

/// What is done with a range of bytes.
#[derive(Clone, Copy, PartialEq, Eq)]
pub enum Access {
    /// The bytes are read.
    Fetch,
    /// The bytes are written.
    Store,
}

/// Bytes that follow one another, by their addresses.
#[derive(Clone, Copy, PartialEq, Eq)]
pub struct Range {
    /// The address of the first byte.
    pub start: u32,
    /// How many bytes there are.
    pub count: u32,
}

/// A page of 4096 bytes by its number: page 1 begins at address 4096.
#[derive(Clone, Copy, Debug, PartialEq, Eq)]
pub struct Page(pub u32);

/// Why a range can't be accessed.
///
/// The first two are the architecture's exceptions of these names (GA22-7000, "Program
/// Interruption"). A page that is absent is no exception: whoever lends the storage brings the
/// page, and the access is made again.
#[derive(Clone, Copy, Debug, PartialEq, Eq, Error)]
pub enum Fault {
    /// A byte lies beyond the storage.
    #[error("addressing exception")]
    Addressing,
    /// The key of a byte's block does not let the access pass.
    #[error("protection exception")]
    Protection,
    /// Size and keys let the access pass, and this page of it is not present.
    #[error("page {} is absent", .0.0)]
    Absent(Page),
}

/// Bytes with a key for each 2048 of them, in pages of 4096 that may be absent.
///
/// An access is tested first, and only then made:
///
/// ```
/// storage.check(Range { start, count: 4 }, Access::Store, key)?;
/// store_word(storage, start, word);
/// ```
///
/// A body that is borrowed from a larger whole says by `Keeps` what of that whole stays: code
/// written over any storage promises `Keeps`, and so whoever lent it knows that nobody else's bytes
/// or keys were touched.
pub trait Storage {
    /// Storage as it is: the bytes, also those of pages that are absent, and the key in storage of
    /// each block of 2048 bytes, four bits of access control and a last bit of fetch protection.
    ghost memory: { Self → Memory };

    /// Which pages are present.
    ghost present: { Self → ℕ → Bool };

    /// What a store leaves: the keys, which pages are present, and all else that this storage is
    /// borrowed from.
    ghost Keeps: { Self → Self → Type 0 };

    /// Returns the size of storage in bytes.
    fn size(&self) -> u32
        ensures bytes { result ≡ length (memory self.now).bytes }
        ensures keyed { length (memory self.now).bytes ≤ 2048 * length (memory self.now).keys };

    /// Tests whether an access with this key to at most 256 bytes passes, and returns the fault if
    /// it does not.
    ///
    /// # Errors
    ///
    /// A `Fault`: addressing before protection, and an absent page if both let the access pass.
    fn check(&self, range: Range, access: Access, key: AccessKey) -> Result<(), Fault>
        requires { range.count ≤ 256 }
        ensures { IsVerdict (length (memory self.now).bytes) (memory self.now).keys
            (present self.now) key
            (tested access range ∷ []) result };

    /// A block is where it says.
    ghost IsPlaced: { Self → Block → Type 0 };

    /// Returns the block of 2048 bytes around an address, only if this access with this key may be
    /// made to all of it and its page is present.
    fn find_block(&self, start: u32, access: Access, key: AccessKey) -> Option<Block>
        ensures first { IfSome result (λ block. block.first ≡ start / 2048 * 2048) }
        ensures may_access { IfSome result
            (λ block. MayAccess access (length (memory self.now).bytes) (memory self.now).keys
            (present self.now) key
            block.first) }
        ensures placed { IfSome result (λ block. IsPlaced self.now block) };

    /// Fills `into`, of at least one byte, with the bytes from `start` on, all in a block that
    /// `find_block` returned.
    fn load_in(&self, block: Block, start: u32, into: &mut [u8])
        requires placed { IsPlaced self.now block }
        requires some { 0 < length into.old }
        requires begins { block.first ≤ start }
        requires ends { start + length into.old ≤ block.first + 2048 }
        ensures { into.new ≡ slice_range (memory self.now).bytes start (start + length into.old) };

    /// Overwrites storage from `start` on with the bytes of `from`, at least one, all in a block
    /// that `find_block` returned.
    fn store_in(&mut self, block: Block, start: u32, from: &[u8])
        requires placed { IsPlaced self.old block }
        requires some { 0 < length from.now }
        requires begins { block.first ≤ start }
        requires ends { start + length from.now ≤ block.first + 2048 }
        ensures stored { memory self.new ≡ with_stored (memory self.old) start from.now }
        ensures rest { Keeps self.old self.new };

    /// Copies 1 to 256 bytes from one block that `find_block` returned into another or the same, as
    /// if all were read before any is written.
    #[inline(always)]
    fn copy_in(&mut self, source: Block, from: u32, target: Block, to: u32, count: u32)
        requires source_placed { IsPlaced self.old source }
        requires target_placed { IsPlaced self.old target }
        requires some { 0 < count }
        requires short { count ≤ 256 }
        requires source_begins { source.first ≤ from }
        requires source_ends { from + count ≤ source.first + 2048 }
        requires target_begins { target.first ≤ to }
        requires target_ends { to + count ≤ target.first + 2048 }
        ensures stored { memory self.new
            ≡ with_stored (memory self.old) to
            (slice_range (memory self.old).bytes from (from + count)) }
        ensures rest { Keeps self.old self.new }
    {
        let mut buffer = [0u8; 256];
        let part = &mut buffer[..count as usize];
        self.load_in(source, from, part);
        self.store_in(target, to, part);
    }

    /// Fills `into` with at most 256 bytes of storage from `start` on, a fetch that `check` has
    /// granted.
    fn load(&self, start: u32, into: &mut [u8])
        requires granted { IsGranted (length (memory self.now).bytes) (present self.now) start
            (length into.old) }
        requires short { length into.old ≤ 256 }
        ensures { into.new ≡ slice_range (memory self.now).bytes start (start + length into.old) };

    /// Overwrites storage from `start` on with at most 256 bytes, a store that `check` has granted.
    fn store(&mut self, start: u32, from: &[u8])
        requires granted { IsGranted (length (memory self.old).bytes) (present self.old) start
            (length from.now) }
        requires short { length from.now ≤ 256 }
        ensures stored { memory self.new ≡ with_stored (memory self.old) start from.now }
        ensures rest { Keeps self.old self.new };

    /// Copies at most 256 bytes from one address to another, which `check` has granted, as if all
    /// were read before any is written.
    fn copy(&mut self, from: u32, to: u32, count: u32)
        requires source { IsGranted (length (memory self.old).bytes) (present self.old) from count }
        requires target { IsGranted (length (memory self.old).bytes) (present self.old) to count }
        requires short { count ≤ 256 }
        ensures stored { memory self.new
            ≡ with_stored (memory self.old) to
            (slice_range (memory self.old).bytes from (from + count)) }
        ensures rest { Keeps self.old self.new }
    {
        let mut buffer = [0u8; 256];
        let part = &mut buffer[..count as usize];
        self.load(from, part);
        self.store(to, part);
    }

    /// Copies bytes from one address to another if this storage can at once (by default 1 to 256
    /// bytes) and the test of each range grants it, and returns whether it did.
    ///
    /// All bytes are read before any is written. If the result is false, nothing has changed;
    /// without a body of its own, a storage copies only 1 to 256 bytes.
    #[inline(always)]
    fn copy_at_once(&mut self, from: u32, to: u32, count: u32, key: AccessKey) -> bool
        requires { count ≤ 2048 }
        ensures granted { result ≡ true
            → IsVerdict (length (memory self.old).bytes) (memory self.old).keys (present self.old)
            key
            (test_of Store to count ∷ test_of Fetch from count ∷ []) (Ok tt) }
        ensures moved { result ≡ true
            → memory self.new
            ≡ with_stored (memory self.old) to
            (slice_range (memory self.old).bytes from (from + count)) }
        ensures still { result ≡ false → memory self.new ≡ memory self.old }
        ensures rest { Keeps self.old self.new }
    {
        if count == 0 || count > 256 {
            return false;
        }
        if self
            .check(Range { start: to, count }, Access::Store, key)
            .is_err()
        {
            return false;
        }
        if self
            .check(Range { start: from, count }, Access::Fetch, key)
            .is_err()
        {
            return false;
        }
        self.copy(from, to, count);
        true
    }

    /// All is kept where nothing changes.
    ghost keeps_same: { (s : Self) → Keeps s s };

    /// What is kept has as many bytes.
    ghost keeps_size: { (s t : Self) → Keeps s t
        → length (memory t).bytes ≡ length (memory s).bytes };

    /// What is kept has the same keys.
    ghost keeps_keys: { (s t : Self) → Keeps s t → (memory t).keys ≡ (memory s).keys };

    /// What is kept has the same pages present.
    ghost keeps_present: { (s t : Self) → Keeps s t → present t ≡ present s };

    /// What is kept twice is kept.
    ghost keeps_on: { (s t u : Self) → Keeps s t → Keeps t u → Keeps s u };

    /// What is stored moves no block.
    ghost placed_kept: { (s t : Self) (block : Block) → Keeps s t → IsPlaced s block
        → IsPlaced t block };
}

/// A storage whose keys can be read and set one by one, as a storage with fixed keys can't.
pub trait Keyed: Storage {
    /// What a store leaves or a key that is set: which pages are present, and all else that this
    /// storage is borrowed from.
    ghost KeepsRest: { Self → Self → Type 0 };

    /// Returns the storage key of a block of 2048 bytes, which is given by its number.
    fn key_of(&self, block: u32) -> StorageKey
        requires { block < length (Self.memory self.now).keys }
        ensures { result ≡ slice_index (Self.memory self.now).keys block };

    /// Sets the storage key of a block of 2048 bytes, which is given by its number.
    fn set_key(&mut self, block: u32, key: StorageKey)
        requires { block < length (Self.memory self.old).keys }
        ensures keyed { Self.memory self.new ≡ with_key (Self.memory self.old) block key }
        ensures rest { KeepsRest self.old self.new };

    /// What is kept by a store is kept.
    ghost rest_kept: { (s t : Self) → Self.Keeps s t → KeepsRest s t };

    /// What is kept has as many bytes.
    ghost rest_size: { (s t : Self) → KeepsRest s t
        → length (Self.memory t).bytes ≡ length (Self.memory s).bytes };

    /// What is kept has the same pages present.
    ghost rest_present: { (s t : Self) → KeepsRest s t → Self.present t ≡ Self.present s };

    /// What is kept twice is kept.
    ghost rest_on: { (s t u : Self) → KeepsRest s t → KeepsRest t u → KeepsRest s u };
}
