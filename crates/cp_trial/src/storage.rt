//! A user's storage for a dry run: pages are copied from it when the program comes to them.
//!
//! A page is absent until the program comes to it. Then it is copied, from wherever it is, and is
//! present from then on. No other page is copied, and none takes time.
ghost use Rattle.cp_dat.specs.Copies.{written_over};
ghost use Rattle.cp_dat.specs.Lent.{lent_bytes, lent_memory};
ghost use Rattle.s370_store.specs.Memory.{with_stored};
ghost use Rattle.std.specs.Prelude.{◌≡◌, ℕ, ◌+◌, ◌*◌, ◌/◌, ◌%◌, ◌<◌, ◌≤◌, Bool, true, false};
ghost use Rattle.std.specs.Prelude.{length};
ghost use Rattle.std.specs.Prelude.{slice_index_or, slice_range, slice_set, Ok, IfOk};

use channel_trial::TrialSupply;
use cp_dat::{Dat, SparseBytes};
use s370_channel::AmpleSupply;
use s370_num::{AccessKey, StorageKey};
use s370_store::{
    Access, Block, Fault, FramesOut, KeySlice, Keyed, PAGE_SIZE, Page, Range, Storage, Supply,
    UnitSupply, may_access_block, test_range,
};
use std::alloc::{AllocError, Global};

/// A storage on which a program is tried: copies of the pages that it has touched, and keys.
#[derive(Drop)]
pub struct TrialStorage<'a> {
    source: &'a Dat<'a>,
    /// Room for each page; only those of pages that were touched are written.
    bytes: SparseBytes,
    keys: Vec<StorageKey>,
    touched: Vec<bool>,
    ghost sized: { length bytes ≡ length (lent_bytes source.now) },
    ghost addressable: { length bytes ≤ 4294967295 },
    ghost keyed: { length bytes ≤ 2048 * length keys.items },
    ghost a_flag_a_page: { length bytes ≡ 4096 * length touched.items },
    ghost shown: { length (written_over touched.items (lent_bytes source.now) bytes)
        ≡ length bytes },
}

/// The pages that a dry run touched, with the bytes that it left there.
#[derive(Drop)]
pub struct TouchedPages {
    bytes: SparseBytes,
    touched: Vec<bool>,
    ghost a_flag_a_page: { length bytes ≡ 4096 * length touched.items },
}

impl TouchedPages {
    ghost use Rattle.cp_trial.specs.Trial.{touched_flags};

    /// Borrows the list of flags that say whether each page was touched.
    pub fn touched(&self) -> &[bool]
        ensures flags { result.now ≡ touched_flags self.now }
        ensures size { length self.now.bytes ≡ 4096 * length result.now }
    {
        &self.touched
    }

    /// Borrows as many bytes as the storage has; only those of touched pages have a meaning.
    pub(crate) fn bytes(&self) -> &SparseBytes
        ensures { result.now ≡ self.now.bytes }
    {
        &self.bytes
    }
}

impl<'a> TrialStorage<'a> {
    ghost use Rattle.cp_trial.specs.Trial.{is_touched, trial_bytes, trial_flags, trial_memory};

    /// Returns a storage for a dry run of a program of this storage; no page was touched.
    ///
    /// # Errors
    ///
    /// `AllocError` if memory is refused.
    pub fn new(alloc: Global, source: &'a Dat<'a>) -> Result<TrialStorage<'a>, AllocError>
        ensures memory { IfOk result (λ s. trial_memory s ≡ lent_memory source.now) }
        ensures untouched { IfOk result (λ s. (page : ℕ) → is_touched s page ≡ false) }
    {
        let size = source.size();
        let bytes = SparseBytes::new(alloc, size / PAGE_SIZE)?;
        let keys = source.copy_keys(alloc)?;
        let touched = vec![in alloc; false; (size / PAGE_SIZE) as usize]?;
        Ok(TrialStorage {
            source,
            bytes,
            keys,
            touched,
        })
    }

    /// Returns the pages that were touched, with their bytes.
    pub(crate) fn into_pages(self) -> TouchedPages
        ensures bytes { result.bytes ≡ self.entry.bytes }
        ensures touched { result.touched.items ≡ trial_flags self.entry }
    {
        let TrialStorage {
            source: _,
            bytes,
            keys: _,
            touched,
        } = self;
        TouchedPages { bytes, touched }
    }

    /// Returns whether a page was touched.
    pub(crate) fn is_touched(&self, page: Page) -> bool
        requires { page.0 * 4096 < length (trial_bytes self.now) }
        ensures { result ≡ is_touched self.now page.0 }
    {
        flag_at(&self.touched, page.0)
    }

    /// Overwrites bytes of touched pages from an address on; no test is made.
    fn put(&mut self, start: u32, from: &[u8])
        requires inside { start + length from.now ≤ length (trial_bytes self.old) }
        requires short { length from.now ≤ 4096 }
        requires touched { (address : ℕ) → start ≤ address → address < start + length from.now
            → is_touched self.old (address / 4096) ≡ true }
        ensures stored { trial_memory self.new
            ≡ with_stored (trial_memory self.old) start from.now }
        ensures size { length (trial_bytes self.new) ≡ length (trial_bytes self.old) }
        ensures flags { trial_flags self.new ≡ trial_flags self.old }
    {
        self.bytes.write(start as usize, from);
    }
}

impl<'a> Storage for TrialStorage<'a> {
    ghost use Rattle.cp_trial.specs.Trial.{is_touched, trial_memory, TrialKeeps};
    ghost use Rattle.cp_trial.specs.Trial.{IsTouchedBlock};
    ghost use Rattle.cp_trial.specs.Laws as laws;

    ghost memory = { trial_memory };

    ghost present = { is_touched };

    ghost Keeps = { TrialKeeps };

    ghost IsPlaced = { IsTouchedBlock };

    /// Returns the size of storage in bytes.
    fn size(&self) -> u32 {
        self.bytes.len() as u32
    }

    /// Returns a fault if size or keys forbid an access, or if the page of its first or last byte
    /// was not touched, and so counts as absent; an access to no byte passes.
    fn check(&self, range: Range, access: Access, key: AccessKey) -> Result<(), Fault> {
        let keys = KeySlice { keys: &self.keys };
        test_range(self.bytes.len() as u32, &keys, range, access, key)?;
        let Range { start, count } = range;
        if count == 0 {
            return Ok(());
        }
        let first = start / 4096;
        if !flag_at(&self.touched, first) {
            return Err(Fault::Absent(Page(first)));
        }
        let last = (start + (count - 1)) / 4096;
        if !flag_at(&self.touched, last) {
            return Err(Fault::Absent(Page(last)));
        }
        Ok(())
    }

    /// Returns the block of 2048 bytes around an address, if size and keys let this access pass
    /// there and its page was touched.
    fn find_block(&self, start: u32, access: Access, key: AccessKey) -> Option<Block> {
        let keys = KeySlice { keys: &self.keys };
        if !may_access_block(self.bytes.len() as u32, &keys, start, access, key) {
            return None;
        }
        if !flag_at(&self.touched, start / 4096) {
            return None;
        }
        let first = start / 2048 * 2048;
        Some(Block {
            first,
            place: first as usize,
        })
    }

    /// Fills `into` with the bytes from `start` on; the block is not used.
    fn load_in(&self, _block: Block, start: u32, into: &mut [u8]) {
        self.bytes.read(start as usize, into);
    }

    /// Overwrites storage from `start` on with the bytes of `from`; the block is not used.
    fn store_in(&mut self, _block: Block, start: u32, from: &[u8]) {
        self.put(start, from);
    }

    /// Fills `into` with the bytes from `start` on.
    fn load(&self, start: u32, into: &mut [u8]) {
        self.bytes.read(start as usize, into);
    }

    /// Overwrites storage from `start` on with the bytes of `from`.
    fn store(&mut self, start: u32, from: &[u8]) {
        self.put(start, from);
    }

    ghost keeps_same = { laws.keeps_same };

    ghost keeps_size = { λ s t kept. kept.rest.size };

    ghost keeps_keys = { λ s t kept. kept.keys };

    ghost keeps_present = { laws.keeps_present };

    ghost keeps_on = { laws.keeps_on };

    ghost placed_kept = { laws.placed_kept };
}

impl<'a> Keyed for TrialStorage<'a> {
    ghost use Rattle.cp_trial.specs.Trial.{TrialRest};
    ghost use Rattle.cp_trial.specs.Laws as laws;

    ghost KeepsRest = { TrialRest };

    /// Returns the storage key of a block of 2048 bytes, which is given by its number.
    fn key_of(&self, block: u32) -> StorageKey {
        self.keys[block as usize]
    }

    /// Sets the storage key of a block of 2048 bytes, which is given by its number.
    fn set_key(&mut self, block: u32, key: StorageKey) {
        self.keys[block as usize] = key;
    }

    ghost rest_kept = { λ s t kept. kept.rest };

    ghost rest_size = { λ s t rest. rest.size };

    ghost rest_present = { laws.rest_present };

    ghost rest_on = { laws.rest_on };
}

/// To bring a page is to copy it, for which there is always room.
impl<'a> Supply for TrialStorage<'a> {
    ghost use Rattle.cp_trial.specs.Trial.{TrialBrought, trial_flags, untouched_count};
    ghost use Rattle.cp_trial.specs.Laws as laws;

    ghost spare = { λ s. untouched_count (trial_flags s) };

    ghost IsShort = { λ _ _. ⊥ };

    ghost Brought = { TrialBrought };

    ghost Cleared = { λ _ _. Unit {0} };

    /// Sets all bytes and storage keys to zero; each page counts as touched then.
    fn clear(&mut self) {
        self.bytes.clear();
        self.keys.fill(StorageKey::ZERO);
        self.touched.fill(true);
    }

    /// Copies a page that the program comes to; there is always room.
    fn bring(&mut self, page: Page) -> Result<(), FramesOut> {
        self.source.copy_page(page, &mut self.bytes);
        self.touched[page.0 as usize] = true;
        Ok(())
    }

    ghost brought_none = { laws.brought_none };

    ghost brought_on = { laws.brought_on };

    ghost spare_kept = { laws.spare_kept };
}

impl<'a> UnitSupply for TrialStorage<'a> {
    ghost use Rattle.std.specs.Prelude.{◌≡◌};
    ghost use Rattle.cp_trial.specs.Trial.{TrialCame};
    ghost use Rattle.cp_trial.specs.Laws as laws;

    ghost IsBetween = { λ _. Unit {0} };

    ghost IsOut = { λ _ _. ⊥ };

    ghost Came = { TrialCame };

    ghost LetsGo = { λ s t. t ≡ s };

    /// Does nothing: pages that were touched stay touched.
    fn let_go(&mut self) {}

    ghost held = { λ s t pages page brought listed. brought.held page listed };

    ghost let_go_between = { λ s t u pages between brought let_go. tt };

    ghost let_go_came = { laws.let_go_came };

    ghost let_go_out = { λ s t u pages page between brought few short let_go. short };

    ghost between_kept = { λ s t kept between. tt };

    ghost came_none = { λ s t units between rest. laws.came_none s t units rest };

    ghost came_size = { λ s t units paged_in. paged_in.size };

    ghost came_on = { laws.came_on };
}

/// There is always room.
impl<'a> AmpleSupply for TrialStorage<'a> {
    ghost IsAmple = { λ _. Unit {0} };

    ghost ample_out = { λ s page ample inside out. out };

    ghost ample_kept = { λ s t kept ample. tt };

    ghost ample_brought = { λ s t pages brought size inside ample. tt };

    ghost ample_let_go = { λ s t let_go size ample. tt };
}

impl<'a> TrialSupply for TrialStorage<'a> {
    ghost use Rattle.std.specs.Prelude.{refl};
    ghost use Rattle.cp_trial.specs.Trial.{trial_flags};

    ghost flags = { trial_flags };

    ghost present_flags = { λ s page. refl };

    ghost came_for = { λ s t units paged_in. paged_in.paged_in };

    ghost came_beside = { λ s t units paged_in. paged_in.untouched };
}

/// Returns the flag at this index of a list.
fn flag_at(flags: &[bool], place: u32) -> bool
    requires { place < length flags.now }
    ensures { result ≡ slice_index_or flags.now place false }
{
    flags[place as usize]
}
