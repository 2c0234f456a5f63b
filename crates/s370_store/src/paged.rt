//! A storage with absent pages, for the tests of code that is written over any storage.
ghost use Rattle.std.specs.Prelude.{◌≡◌, ◌+◌, ◌*◌, ◌<◌, ◌≤◌, false, length, replicate};
ghost use Rattle.std.specs.Prelude.{slice_index_or, slice_set, IfOk};

use crate::place::put_at;
use crate::protection::{KeySlice, may_access_block, test_range};
use crate::{Access, Block, Fault, Keyed, Page, Range, Storage};
use s370_num::{AccessKey, StorageKey};
use std::alloc::{AllocError, Global};

/// A storage of up to 4 MiB of which pages may be absent: their bytes are kept, and can't be
/// reached.
///
/// The bodies that the product runs on have their own ways to bring a page; here the test that owns
/// it says which are there.
#[derive(Drop)]
pub struct PagedStorage {
    bytes: Vec<u8>,
    keys: Vec<StorageKey>,
    present: Vec<bool>,
    ghost at_most_4_mib: { length bytes.items ≤ 4194304 },
    ghost a_key_a_block: { length bytes.items ≡ 2048 * length keys.items },
    ghost a_flag_a_page: { length bytes.items ≡ 4096 * length present.items },
}

impl PagedStorage {
    ghost use Rattle.s370_store.specs.Paged.{paged_bytes, paged_keys, paged_flags};

    /// Returns a storage of this many pages of 4096 bytes, all zero and all absent, with keys that
    /// are all zero.
    ///
    /// # Errors
    ///
    /// `AllocError` if memory is refused.
    pub fn new(alloc: Global, pages: u32) -> Result<PagedStorage, AllocError>
        requires { pages ≤ 1024 }
        ensures bytes { IfOk result (λ s. paged_bytes s ≡ replicate (4096 * pages) 0) }
        ensures keys { IfOk result (λ s. paged_keys s ≡ replicate (2 * pages) 0) }
        ensures absent { IfOk result (λ s. paged_flags s ≡ replicate pages false) }
    {
        let bytes = vec![in alloc; 0u8; 4096 * pages as usize]?;
        let keys = vec![in alloc; StorageKey::ZERO; 2 * pages as usize]?;
        let present = vec![in alloc; false; pages as usize]?;
        Ok(PagedStorage {
            bytes,
            keys,
            present,
        })
    }

    /// Marks a page as present or absent; its bytes and keys stay.
    pub fn set_present(&mut self, page: Page, present: bool)
        requires { page.0 < length (paged_flags self.old) }
        ensures flags { paged_flags self.new ≡ slice_set (paged_flags self.old) page.0 present }
        ensures bytes { paged_bytes self.new ≡ paged_bytes self.old }
        ensures keys { paged_keys self.new ≡ paged_keys self.old }
    {
        self.present[page.0 as usize] = present;
    }
}

impl Storage for PagedStorage {
    ghost use Rattle.std.specs.Prelude.{refl};
    ghost use Rattle.s370_store.specs.Paged.{paged_bytes, paged_memory, is_present, PagedKeeps};
    ghost use Rattle.s370_store.specs.Paged.{paged_keeps_on, paged_rest_present, paged_placed_kept};

    ghost memory = { paged_memory };

    ghost present = { is_present };

    ghost Keeps = { PagedKeeps };

    ghost IsPlaced = { λ s block. block.first + 2048 ≤ length (paged_bytes s) };

    /// Returns the size of storage in bytes.
    fn size(&self) -> u32 {
        self.bytes.len() as u32
    }

    /// Returns a fault if size or keys forbid an access to a range, or if the page of its first or
    /// last byte is absent; an access to no byte passes.
    fn check(&self, range: Range, access: Access, key: AccessKey) -> Result<(), Fault> {
        let keys = KeySlice { keys: &self.keys };
        test_range(self.bytes.len() as u32, &keys, range, access, key)?;
        let Range { start, count } = range;
        if count == 0 {
            return Ok(());
        }
        let first = start / 4096;
        if !flag_at(&self.present, first) {
            return Err(Fault::Absent(Page(first)));
        }
        let last = (start + (count - 1)) / 4096;
        if !flag_at(&self.present, last) {
            return Err(Fault::Absent(Page(last)));
        }
        Ok(())
    }

    /// Returns the block of 2048 bytes around an address, if size and keys let this access pass
    /// there and its page is present.
    fn find_block(&self, start: u32, access: Access, key: AccessKey) -> Option<Block> {
        let keys = KeySlice { keys: &self.keys };
        if !may_access_block(self.bytes.len() as u32, &keys, start, access, key) {
            return None;
        }
        if !flag_at(&self.present, start / 4096) {
            return None;
        }
        let first = start / 2048 * 2048;
        Some(Block {
            first,
            place: first as usize,
        })
    }

    /// Fills `into` with the bytes from `start` on; the block is not used.
    fn load_in(&self, _block: Block, start: u32, into: &mut [u8]) {
        let first = start as usize;
        let end = first + into.len();
        into.copy_from_slice(&self.bytes[first..end]);
    }

    /// Overwrites storage from `start` on with the bytes of `from`; the block is not used.
    fn store_in(&mut self, _block: Block, start: u32, from: &[u8]) {
        put_at(&mut self.bytes, start as usize, from);
    }

    /// Fills `into` with the bytes from `start` on.
    fn load(&self, start: u32, into: &mut [u8]) {
        let first = start as usize;
        let end = first + into.len();
        into.copy_from_slice(&self.bytes[first..end]);
    }

    /// Overwrites storage from `start` on with the bytes of `from`.
    fn store(&mut self, start: u32, from: &[u8]) {
        put_at(&mut self.bytes, start as usize, from);
    }

    ghost keeps_same = { λ s. record { rest = record { size = refl; flags = refl }; keys = refl } };

    ghost keeps_size = { λ s t kept. kept.rest.size };

    ghost keeps_keys = { λ s t kept. kept.keys };

    ghost keeps_present = { λ s t kept. paged_rest_present s t kept.rest };

    ghost keeps_on = { paged_keeps_on };

    ghost placed_kept = { paged_placed_kept };
}

impl Keyed for PagedStorage {
    ghost use Rattle.s370_store.specs.Paged.{PagedRest, paged_rest_on, paged_rest_present};

    ghost KeepsRest = { PagedRest };

    /// Returns the storage key of a block of 2048 bytes, which is given by its number.
    fn key_of(&self, block: u32) -> StorageKey {
        self.keys[block as usize]
    }

    /// Sets the storage key of a block of 2048 bytes, which is given by its number.
    fn set_key(&mut self, block: u32, key: StorageKey) {
        self.keys[block as usize] = key;
    }

    ghost rest_kept = { λ s t kept. kept.rest };

    ghost rest_size = { λ s t rest. rest.size };

    ghost rest_present = { paged_rest_present };

    ghost rest_on = { paged_rest_on };
}

/// Returns the flag at this index of a list.
fn flag_at(flags: &[bool], place: u32) -> bool
    requires { place < length flags.now }
    ensures { result ≡ slice_index_or flags.now place false }
{
    flags[place as usize]
}
