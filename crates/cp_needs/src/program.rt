//! A copied channel program.
use s370_store::Page;
use s370_walk::{Ccw, CcwLocation};

/// A copied word, and the addresses that serve its bytes.
#[derive(Drop)]
pub struct Node {
    /// The word, whose links are places; None where the guest has no word.
    pub word: Option<Ccw>,
    /// The address of the first byte, and then of each block of 2048 bytes, up to the last that its
    /// count uses or to the first that the guest does not say: None.
    pub list: Vec<Option<u32>>,
}

/// A copied program: the address and role of each of its places, and what is there.
#[derive(Drop)]
pub struct Copied {
    /// The place of the first word.
    pub start: u32,
    /// The guest's address of each place, and whether it continues the word before.
    pub places: Vec<CcwLocation>,
    /// What is at each place.
    pub nodes: Vec<Node>,
}

/// Why a program is not copied.
pub enum CopyError {
    /// Memory was refused.
    Memory,
    /// A page that the program needs, and that is not present.
    Absent(Page),
}
