//! A guest's channel program with real addresses.
ghost use Rattle.std.specs.Prelude.{◌≡◌, length};
ghost use Rattle.s370_walk.specs.Mapped.{real_place};
ghost use Rattle.cp_ccw.specs.Layout.{real_in};
ghost use Rattle.cp_ccw.specs.Moved.{AreReal, AreRealNodes};
ghost use Rattle.cp_ccw.specs.Translated.{table_written};

use cp_dat::Dat;
use cp_needs::Node;
use s370_store::{Page, Storage};
use s370_walk::{Ccw, CcwLocation, Position, WordForm};

/// A copied program whose lists have real addresses.
#[derive(Drop)]
pub struct Table {
    /// The place of the first word.
    pub start: u32,
    /// The guest's address of each place.
    pub places: Vec<CcwLocation>,
    /// The words, and the real addresses that serve their bytes.
    pub nodes: Vec<Node>,
}

/// Returns the real address of a user's byte, if its page is whole in his storage and in a frame.
fn real_address(dat: &Dat, address: u32) -> Option<u32>
    ensures { result ≡ real_in dat.now address }
{
    let page = address / 4096;
    if page as u64 * 4096 + 4096 > dat.size() as u64 {
        return None;
    }
    let Some(frame) = dat.frame_of(Page(page)) else {
        return None;
    };
    Some(frame.0 as u32 * 4096 + address % 4096)
}

/// Returns the real address of a user's address, if there is one and its page is whole in his
/// storage and in a frame.
fn real_entry(dat: &Dat, said: Option<u32>) -> Option<u32>
    ensures { result ≡ real_place (real_in dat.now) said }
{
    match said {
        Some(address) => real_address(dat, address),
        None => None,
    }
}

/// Replaces each address in a list by its real address, or by None if its page is in no frame or
/// not whole in storage.
fn list_to_real(dat: &Dat, list: &mut Vec<Option<u32>>)
    ensures { AreReal (real_in dat.now) (length list.old.items) list.old.items list.new.items }
{
    let mut count = 0;
    'entries: while count < list.len() {
        list[count] = real_entry(dat, list[count]);
        count += 1;
    }
}

/// Replaces each address in the lists of these words by its real address, or by None if its page is
/// in no frame or not whole in storage.
pub(crate) fn nodes_to_real(dat: &Dat, nodes: &mut Vec<Node>)
    ensures { AreRealNodes (real_in dat.now) nodes.old.items nodes.new.items }
{
    let mut count = 0;
    'nodes: while count < nodes.len() {
        list_to_real(dat, &mut nodes[count].list);
        count += 1;
    }
}

impl WordForm for Table {
    ghost written = { λ t. table_written t.nodes.items };

    /// Returns the word at the place `at` of the table, if there is one; storage is not looked at.
    fn fetch<S: Storage>(&self, _storage: &S, at: u32) -> Result<Option<Ccw>, Page> {
        match self.nodes.get(at as usize) {
            Some(node) => Ok(node.word),
            None => Ok(None),
        }
    }

    /// Returns the real address of block `number` of a word, if the list in the table has one;
    /// storage is not looked at.
    fn block<S: Storage>(
        &self,
        _storage: &S,
        position: &Position,
        number: u32,
    ) -> Result<Option<u32>, Page> {
        let Some(node) = self.nodes.get(position.at as usize) else {
            return Ok(None);
        };
        match node.list.get(number as usize) {
            Some(said) => Ok(*said),
            None => Ok(None),
        }
    }
}
