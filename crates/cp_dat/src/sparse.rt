//! Bytes that are zero until they are written, page by page.
//!
//! A dry run has room for as many bytes as its user has, of which it touches few. So a page takes
//! time only when it is first written; its memory is promised at the start, so that nothing fails
//! later.
ghost use Rattle.std.specs.Prelude.{◌≡◌, ◌+◌, ◌*◌, ◌/◌, ◌%◌, ◌<◌, ◌≤◌, length, replicate};
ghost use Rattle.std.specs.Prelude.{slice_index, slice_range, IfOk};
ghost use Rattle.std.specs.Vec.{vec_capacity};
ghost use Rattle.s370_store.specs.Access.{put};
ghost use Rattle.cp_dat.specs.Sparse.{IsSparse, sparse_bytes};

use s370_store::put_at;
use std::alloc::{AllocError, Global};
use std::marker::Model;

/// How many bytes a page has.
const PAGE: usize = 4096;

/// A fixed number of bytes, all zero at first, in pages of 4096.
///
/// To make it, and to read a page that was never written, costs next to nothing.
#[derive(Drop)]
pub struct SparseBytes {
    /// A page of zeros, and the pages that were written, in that order.
    written: Vec<u8>,
    /// The number of each page among these.
    places: Vec<u32>,
}

impl Model for SparseBytes {
    ghost use Rattle.std.specs.Prelude.{List, ℕ};
    ghost use Rattle.std.specs.Vec.{vec_capacity};
    ghost use Rattle.cp_dat.specs.Sparse.{IsSparse, sparse_bytes};

    ghost Value = { List ℕ };

    ghost view = { λ s. sparse_bytes s.written.items s.places.items };

    ghost invariant = { λ s. IsSparse s.written.items s.places.items (vec_capacity s.written) };
}

impl SparseBytes {
    /// Returns this many pages of zeros.
    ///
    /// # Errors
    ///
    /// `AllocError` if memory is refused.
    pub fn new(alloc: Global, pages: u32) -> Result<SparseBytes, AllocError>
        ensures { IfOk result (λ made. made ≡ replicate (4096 * pages) 0) }
    {
        let mut written = Vec::with_capacity(alloc, (pages as usize + 1) * PAGE)?;
        written.extend_from_slice(&[0u8; PAGE])?;
        let places = vec![in alloc; 0u32; pages as usize]?;
        Ok(SparseBytes { written, places })
    }

    /// Returns how many bytes there are.
    pub fn len(&self) -> usize
        ensures { result ≡ length self.now }
    {
        PAGE * self.places.len()
    }

    /// Fills `into` with the bytes from `start` on.
    pub fn read(&self, start: usize, into: &mut [u8])
        requires inside { start + length into.old ≤ length self.now }
        requires short { length into.old ≤ 4096 }
        ensures { into.new ≡ slice_range self.now start (start + length into.old) }
    {
        if into.is_empty() {
            return;
        }
        let left = PAGE - start % PAGE;
        if into.len() <= left {
            self.read_in_page(start, into);
        } else {
            let (first, second) = into.split_at_mut(left);
            self.read_in_page(start, first);
            self.read_in_page(start + left, second);
        }
    }

    /// Fills `into` with bytes of one page from `start` on.
    fn read_in_page(&self, start: usize, into: &mut [u8])
        requires inside { start + length into.old ≤ length self.now }
        requires one_page { start % 4096 + length into.old ≤ 4096 }
        requires some { 0 < length into.old }
        ensures few { length self.now ≤ 17592186040320 }
        ensures bytes { into.new ≡ slice_range self.now start (start + length into.old) }
    {
        let first = self.places[start / PAGE] as usize * PAGE + start % PAGE;
        let end = first + into.len();
        into.copy_from_slice(&self.written[first..end]);
    }

    /// Overwrites the bytes from `start` on.
    pub fn write(&mut self, start: usize, from: &[u8])
        requires inside { start + length from.now ≤ length self.old }
        requires short { length from.now ≤ 4096 }
        ensures { self.new ≡ put self.old start from.now }
    {
        if from.is_empty() {
            return;
        }
        let left = PAGE - start % PAGE;
        if from.len() <= left {
            self.write_in_page(start, from);
        } else {
            let (first, second) = from.split_at(left);
            self.write_in_page(start, first);
            self.write_in_page(start + left, second);
        }
    }

    /// Overwrites bytes of one page from `start` on.
    fn write_in_page(&mut self, start: usize, from: &[u8])
        requires inside { start + length from.now ≤ length self.old }
        requires one_page { start % 4096 + length from.now ≤ 4096 }
        requires some { 0 < length from.now }
        ensures few { length self.old ≤ 17592186040320 }
        ensures bytes { self.new ≡ put self.old start from.now }
    {
        make_page(&mut self.written, &mut self.places, start / PAGE);
        let first = self.places[start / PAGE] as usize * PAGE + start % PAGE;
        put_at(&mut self.written, first, from);
    }

    /// Makes all bytes zero.
    pub fn clear(&mut self)
        ensures { self.new ≡ replicate (length self.old) 0 }
    {
        self.written.truncate(PAGE);
        self.places.fill(0);
    }
}

/// Makes a page of zeros, if the page was not yet written; no byte changes.
fn make_page(written: &mut Vec<u8>, places: &mut [u32], page: usize)
    requires sparse { IsSparse written.old.items places.old (vec_capacity written.old) }
    requires inside { page < length places.old }
    ensures sparse { IsSparse written.new.items places.new (vec_capacity written.new) }
    ensures bytes { sparse_bytes written.new.items places.new
        ≡ sparse_bytes written.old.items places.old }
    ensures size { length places.new ≡ length places.old }
    ensures made { 0 < slice_index places.new page }
{
    if places[page] != 0 {
        return;
    }
    let place = written.len() / PAGE;
    match written.extend_from_slice(&[0u8; PAGE]) {
        Ok(()) => {}
        // There is room for each page.
        Err(AllocError) => unreachable!(),
    }
    places[page] = place as u32;
}
