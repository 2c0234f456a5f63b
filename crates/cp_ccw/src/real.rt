//! The storage of a channel program that was given real addresses.
ghost use Rattle.std.specs.Prelude.{◌≡◌, ℕ, ◌+◌, ◌*◌, ◌/◌, ◌%◌, ◌<◌, ◌≤◌, Option, Some, None, true};
ghost use Rattle.std.specs.Prelude.{length, slice_index, slice_range, IsSome, IfSome};
ghost use Rattle.cp_dat.specs.Lent.{lent_bytes, lent_pool, lent_keys, user_of};
ghost use Rattle.s370_store.specs.Access.{IsGranted};
ghost use Rattle.s370_store.specs.Memory.{with_stored};
ghost use Rattle.cp_ccw.specs.Layout.{page_of};

use cp_dat::Dat;
use cp_frames::FrameNo;
use s370_num::{AccessKey, StorageKey};
use s370_store::{Access, Block, Fault, KeyTable, Keyed, Page, Range, Storage, put_at, test_range};

/// A user's pages at the addresses of the frames in which they are, and an area of the control
/// program after the frames. Addresses are counted in bytes; frame `f` begins at `4096 * f`.
#[derive(Drop)]
pub struct Real<'a, 'b, 'c> {
    /// Whose pages are seen.
    pub dat: &'b mut Dat<'a>,
    /// The number of all frames.
    pub frames: u32,
    /// The area.
    pub area: &'c mut [u8],
    ghost counted: { frames ≡ length (lent_pool dat.now).supply.owners },
    ghost few: { frames ≤ 4096 },
    ghost small: { length area.now ≤ 2147483648 },
    ghost short: { length (lent_bytes dat.now) ≤ 4294967295 },
}

impl<'a, 'b, 'c> Real<'a, 'b, 'c> {
    ghost use Rattle.cp_ccw.specs.Shown.{real_bytes_of, real_memory_of, is_real_page_of};
    ghost use Rattle.cp_ccw.specs.Shown.{KeepsReal};

    /// Returns the number of the user's page in a frame; None if none is there, or if it is not
    /// whole in his storage.
    fn page_at(&self, frame: u32) -> Option<u32>
        requires { frame < self.now.frames }
        ensures page { result ≡ page_of self.now.dat.now frame }
        ensures whole { IfSome result
            (λ page. page * 4096 + 4096 ≤ length (lent_bytes self.now.dat.now)) }
        ensures low { IfSome result (λ page. page * 4096 + 4096 ≤ 4294967295) }
        ensures keyed { IfSome result (λ page. 2 * page + 1 < length (lent_keys self.now.dat.now)) }
    {
        let there = self.dat.page_in(FrameNo(frame as u16));
        let size = self.dat.size();
        match there {
            Some(page) => if page.0 as u64 * 4096 + 4096 <= size as u64 {
                Some(page.0)
            } else {
                None
            },
            None => None,
        }
    }

    /// Returns the key of a block of the user's storage.
    fn key_of(&self, block: u32) -> StorageKey
        requires { block < length (lent_keys self.now.dat.now) }
        ensures { result ≡ slice_index (lent_keys self.now.dat.now) block }
    {
        self.dat.key_of(block)
    }

    /// Returns whether a page of real storage can be reached: a frame if a page of the user is in
    /// it, and every page of the area.
    fn is_here(&self, page: u32) -> bool
        ensures { result ≡ is_real_page_of self.now page }
    {
        if page < self.frames {
            self.page_at(page).is_some()
        } else {
            true
        }
    }

    /// Fills `into` with bytes of one page of real storage, in a frame or in the area; for a frame
    /// with no page of the user it does nothing.
    fn load_part(&self, start: u32, into: &mut [u8])
        requires some { 0 < length into.old }
        requires short { length into.old ≤ 256 }
        requires one_page { start % 4096 + length into.old ≤ 4096 }
        requires inside { start + length into.old ≤ length (real_bytes_of self.now) }
        requires here { is_real_page_of self.now (start / 4096) ≡ true }
        ensures { into.new ≡ slice_range (real_bytes_of self.now) start (start + length into.old) }
    {
        let frame = start / 4096;
        if frame < self.frames {
            match self.page_at(frame) {
                Some(page) => self.dat.load(page * 4096 + start % 4096, into),
                None => {}
            }
        } else {
            self.load_area(start, into);
        }
    }

    /// Fills `into` with bytes of the area, from the real address `start` on.
    fn load_area(&self, start: u32, into: &mut [u8])
        requires begins { self.now.frames * 4096 ≤ start }
        requires inside { start + length into.old ≤ length (real_bytes_of self.now) }
        ensures { into.new ≡ slice_range (real_bytes_of self.now) start (start + length into.old) }
    {
        let first = (start - self.frames * 4096) as usize;
        let end = first + into.len();
        into.copy_from_slice(&self.area[first..end]);
    }

    /// Copies bytes into the area, from the real address `start` on.
    fn store_area(&mut self, start: u32, from: &[u8])
        requires begins { self.old.frames * 4096 ≤ start }
        requires inside { start + length from.now ≤ length (real_bytes_of self.old) }
        ensures stored { real_memory_of self.new
            ≡ with_stored (real_memory_of self.old) start from.now }
        ensures rest { KeepsReal self.old self.new }
    {
        put_at(self.area, (start - self.frames * 4096) as usize, from);
    }

    /// Copies bytes into one page of real storage, in a frame or in the area; for a frame with no
    /// page of the user it does nothing.
    fn store_part(&mut self, start: u32, from: &[u8])
        requires some { 0 < length from.now }
        requires short { length from.now ≤ 256 }
        requires one_page { start % 4096 + length from.now ≤ 4096 }
        requires inside { start + length from.now ≤ length (real_bytes_of self.old) }
        requires here { is_real_page_of self.old (start / 4096) ≡ true }
        ensures stored { real_memory_of self.new
            ≡ with_stored (real_memory_of self.old) start from.now }
        ensures size { length (real_bytes_of self.new) ≡ length (real_bytes_of self.old) }
        ensures present { is_real_page_of self.new ≡ is_real_page_of self.old }
        ensures rest { KeepsReal self.old self.new }
    {
        let frame = start / 4096;
        if frame < self.frames {
            match self.page_at(frame) {
                Some(page) => self.dat.store(page * 4096 + start % 4096, from),
                None => {}
            }
        } else {
            self.store_area(start, from);
        }
    }
}

/// The keys of real storage.
#[derive(Clone, Copy)]
struct RealKeys<'a, 'b, 'c, 'd> {
    real: &'d Real<'a, 'b, 'c>,
}

impl<'a, 'b, 'c, 'd> KeyTable for RealKeys<'a, 'b, 'c, 'd> {
    ghost use Rattle.cp_ccw.specs.Shown.{real_keys_of};

    ghost of_blocks = { λ k. real_keys_of k.real.now };

    /// Returns the storage key of a block of real storage: that of the user's block there, or zero.
    fn key_at(&self, block: u32) -> StorageKey {
        let frame = block / 2;
        if frame >= self.real.frames {
            return StorageKey::ZERO;
        }
        let Some(page) = self.real.page_at(frame) else {
            return StorageKey::ZERO;
        };
        self.real.key_of(2 * page + block % 2)
    }
}

impl<'a, 'b, 'c> Storage for Real<'a, 'b, 'c> {
    ghost use Rattle.cp_ccw.specs.Shown.{real_memory_of, is_real_page_of, KeepsReal};
    ghost use Rattle.cp_ccw.specs.Shown.{keeps_real_same, keeps_real_size, keeps_real_keys};
    ghost use Rattle.cp_ccw.specs.Shown.{keeps_real_present, keeps_real_on, IsInArea};
    ghost use Rattle.cp_ccw.specs.Shown.{in_area_kept};

    ghost memory = { real_memory_of };

    ghost present = { is_real_page_of };

    ghost Keeps = { KeepsReal };

    ghost IsPlaced = { λ r block. IsInArea r block };

    /// Returns how many bytes real storage has: those of all frames and of the area.
    fn size(&self) -> u32 {
        self.frames * 4096 + self.area.len() as u32
    }

    /// Tests that size and keys let an access pass, and that the pages of its first and last byte
    /// can be reached; returns the fault if not.
    fn check(&self, range: Range, access: Access, key: AccessKey) -> Result<(), Fault> {
        test_range(self.size(), &RealKeys { real: self }, range, access, key)?;
        let Range { start, count } = range;
        if count == 0 {
            return Ok(());
        }
        let first = start / 4096;
        if !self.is_here(first) {
            return Err(Fault::Absent(Page(first)));
        }
        let last = (start + (count - 1)) / 4096;
        if !self.is_here(last) {
            return Err(Fault::Absent(Page(last)));
        }
        Ok(())
    }

    /// Returns None: it finds no block.
    ///
    /// A channel moves each byte once. Only one of the area could be found: it moves at no time.
    fn find_block(&self, _start: u32, _access: Access, _key: AccessKey) -> Option<Block> {
        None
    }

    /// Fills `into` with bytes of the area, from the real address `start` on.
    fn load_in(&self, _block: Block, start: u32, into: &mut [u8]) {
        self.load_area(start, into);
    }

    /// Copies bytes into the area, from the real address `start` on.
    fn store_in(&mut self, _block: Block, start: u32, from: &[u8]) {
        self.store_area(start, from);
    }

    /// Fills `into` with bytes of real storage from `start` on, which may lie in two pages; a part
    /// in a frame with no page of the user is left as it is.
    fn load(&self, start: u32, into: &mut [u8]) {
        if into.is_empty() {
            return;
        }
        let left = 4096 - start as usize % 4096;
        if into.len() <= left {
            self.load_part(start, into);
        } else {
            let (first, second) = into.split_at_mut(left);
            self.load_part(start, first);
            self.load_part(start + left as u32, second);
        }
    }

    /// Copies bytes into real storage from `start` on, which may lie in two pages; those for a
    /// frame with no page of the user are dropped.
    fn store(&mut self, start: u32, from: &[u8]) {
        if from.is_empty() {
            return;
        }
        let left = 4096 - start as usize % 4096;
        if from.len() <= left {
            self.store_part(start, from);
        } else {
            let (first, second) = from.split_at(left);
            self.store_part(start, first);
            self.store_part(start + left as u32, second);
        }
    }

    ghost keeps_same = { keeps_real_same };

    ghost keeps_size = { keeps_real_size };

    ghost keeps_keys = { keeps_real_keys };

    ghost keeps_present = { keeps_real_present };

    ghost keeps_on = { keeps_real_on };

    ghost placed_kept = { in_area_kept };
}
