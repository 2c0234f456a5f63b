//! A storage that is all there: what a bare machine has.
ghost use Rattle.std.specs.Prelude.{◌≡◌, ◌+◌, ◌*◌, ◌≤◌, true, length, replicate, IfOk};

use crate::place::{copy_at, put_at};
use crate::protection::{KeySlice, may_access_block, passes_range, test_range};
use crate::{Access, Block, Fault, Keyed, Range, Storage};
use s370_num::{AccessKey, StorageKey};
use std::alloc::{AllocError, Global};

/// A storage whose pages are all present: up to 4 MiB of bytes, and a key for each 2048 of them.
///
/// `PlainStorage::new(alloc, 32)?` is a storage of 64 KiB.
#[derive(Drop)]
pub struct PlainStorage {
    bytes: Vec<u8>,
    keys: Vec<StorageKey>,
    ghost at_most_4_mib: { length bytes.items ≤ 4194304 },
    ghost a_key_a_block: { length bytes.items ≡ 2048 * length keys.items },
}

impl PlainStorage {
    ghost use Rattle.s370_store.specs.Memory.{cleared_memory};
    ghost use Rattle.s370_store.specs.Plain.{plain_bytes, plain_keys, plain_memory};

    /// Returns a storage of this many blocks of 2048 bytes, all zero, with keys that are all zero.
    ///
    /// # Errors
    ///
    /// `AllocError` if memory is refused.
    pub fn new(alloc: Global, blocks: u32) -> Result<PlainStorage, AllocError>
        requires { blocks ≤ 2048 }
        ensures bytes { IfOk result (λ s. plain_bytes s ≡ replicate (2048 * blocks) 0) }
        ensures keys { IfOk result (λ s. plain_keys s ≡ replicate blocks 0) }
    {
        let bytes = vec![in alloc; 0u8; 2048 * blocks as usize]?;
        let keys = vec![in alloc; StorageKey::ZERO; blocks as usize]?;
        Ok(PlainStorage { bytes, keys })
    }

    /// Borrows all the bytes of storage.
    pub fn bytes(&self) -> &[u8]
        ensures { result.now ≡ plain_bytes self.now }
    {
        &self.bytes
    }

    /// Borrows the list of storage keys, one for each block of 2048 bytes.
    pub fn keys(&self) -> &[StorageKey]
        ensures { result.now ≡ plain_keys self.now }
    {
        &self.keys
    }

    /// Sets all bytes and storage keys to zero.
    pub(crate) fn zero(&mut self)
        ensures { plain_memory self.new ≡ cleared_memory (plain_memory self.old) }
    {
        self.bytes.fill(0);
        self.keys.fill(StorageKey::ZERO);
    }
}

impl Storage for PlainStorage {
    ghost use Rattle.std.specs.Prelude.{refl};
    ghost use Rattle.s370_store.specs.Plain.{plain_bytes, plain_memory, PlainKeeps, plain_keeps_on};
    ghost use Rattle.s370_store.specs.Plain.{plain_placed_kept};

    ghost memory = { plain_memory };

    ghost present = { λ _ _. true };

    ghost Keeps = { PlainKeeps };

    ghost IsPlaced = { λ s block. block.first + 2048 ≤ length (plain_bytes s) };

    /// Returns the size of storage in bytes.
    #[inline(always)]
    fn size(&self) -> u32 {
        self.bytes.len() as u32
    }

    /// Returns a fault if size or keys forbid an access to a range; no page is ever absent, and an
    /// access to no byte passes.
    #[inline(always)]
    fn check(&self, range: Range, access: Access, key: AccessKey) -> Result<(), Fault> {
        let keys = KeySlice { keys: &self.keys };
        test_range(self.bytes.len() as u32, &keys, range, access, key)
    }

    /// Copies bytes from one address to another, if there are any and size and keys let both
    /// accesses pass, and returns whether it did.
    #[inline(always)]
    fn copy_at_once(&mut self, from: u32, to: u32, count: u32, key: AccessKey) -> bool {
        if count == 0 {
            return false;
        }
        let size = self.bytes.len() as u32;
        let keys = KeySlice { keys: &self.keys };
        if !passes_range(size, &keys, Range { start: to, count }, Access::Store, key) {
            return false;
        }
        if !passes_range(
            size,
            &keys,
            Range { start: from, count },
            Access::Fetch,
            key,
        ) {
            return false;
        }
        copy_at(&mut self.bytes, from as usize, to as usize, count as usize);
        true
    }

    /// Returns the block of 2048 bytes around an address, if size and keys let this access pass
    /// there.
    #[inline(always)]
    fn find_block(&self, start: u32, access: Access, key: AccessKey) -> Option<Block> {
        let keys = KeySlice { keys: &self.keys };
        if may_access_block(self.bytes.len() as u32, &keys, start, access, key) {
            let first = start / 2048 * 2048;
            Some(Block {
                first,
                place: first as usize,
            })
        } else {
            None
        }
    }

    /// Fills `into` with the bytes from `start` on; the block is not used.
    #[inline(always)]
    fn load_in(&self, _block: Block, start: u32, into: &mut [u8]) {
        let first = start as usize;
        let end = first + into.len();
        into.copy_from_slice(&self.bytes[first..end]);
    }

    /// Overwrites storage from `start` on with the bytes of `from`; the block is not used.
    #[inline(always)]
    fn store_in(&mut self, _block: Block, start: u32, from: &[u8]) {
        put_at(&mut self.bytes, start as usize, from);
    }

    /// Copies bytes from one address to another, as if all were read before any is written; the
    /// blocks are not used.
    #[inline(always)]
    fn copy_in(&mut self, _source: Block, from: u32, _target: Block, to: u32, count: u32) {
        copy_at(&mut self.bytes, from as usize, to as usize, count as usize);
    }

    /// Fills `into` with the bytes from `start` on.
    #[inline(always)]
    fn load(&self, start: u32, into: &mut [u8]) {
        let first = start as usize;
        let end = first + into.len();
        into.copy_from_slice(&self.bytes[first..end]);
    }

    /// Overwrites storage from `start` on with the bytes of `from`.
    #[inline(always)]
    fn store(&mut self, start: u32, from: &[u8]) {
        put_at(&mut self.bytes, start as usize, from);
    }

    /// Copies bytes from one address to another, as if all were read before any is written.
    #[inline(always)]
    fn copy(&mut self, from: u32, to: u32, count: u32) {
        copy_at(&mut self.bytes, from as usize, to as usize, count as usize);
    }

    ghost keeps_same = { λ s. record { size = refl; keys = refl } };

    ghost keeps_size = { λ s t kept. kept.size };

    ghost keeps_keys = { λ s t kept. kept.keys };

    ghost keeps_present = { λ s t kept. refl };

    ghost keeps_on = { plain_keeps_on };

    ghost placed_kept = { plain_placed_kept };
}

impl Keyed for PlainStorage {
    ghost use Rattle.std.specs.Prelude.{refl};
    ghost use Rattle.s370_store.specs.Plain.{PlainRest, plain_rest_on};

    ghost KeepsRest = { PlainRest };

    /// Returns the storage key of a block of 2048 bytes, which is given by its number.
    #[inline]
    fn key_of(&self, block: u32) -> StorageKey {
        self.keys[block as usize]
    }

    /// Sets the storage key of a block of 2048 bytes, which is given by its number.
    #[inline]
    fn set_key(&mut self, block: u32, key: StorageKey) {
        self.keys[block as usize] = key;
    }

    ghost rest_kept = { λ s t kept. kept.size };

    ghost rest_size = { λ s t rest. rest };

    ghost rest_present = { λ s t rest. refl };

    ghost rest_on = { plain_rest_on };
}
