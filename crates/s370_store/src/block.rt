//! A block of storage that is accessed again and again.
ghost use Rattle.std.specs.Prelude.{◌≡◌, ◌+◌, ◌%◌, ◌<◌, ◌≤◌, true};

/// A block of 2048 bytes that a storage has found, for fetches or for stores.
///
/// What its place is, only the storage knows that found it: whoever fetches one instruction after
/// another from a block, or has operands near one another in it, passes it back with each, and
/// nothing is looked up twice.
#[derive(Clone, Copy, PartialEq, Eq)]
pub struct Block {
    /// The address of its first byte.
    pub first: u32,
    /// Where the storage has it.
    pub place: usize,
}

impl Block {
    /// A block in which no address of 24 bits lies, for where none was found yet.
    pub const NOWHERE: Block = Block {
        first: 0x8000_0000,
        place: 0,
    };

    /// Returns whether `start` is an even address at which an instruction of six bytes would lie in
    /// the block.
    ///
    /// Both are one comparison: turned right by a bit an odd number is greater than any even one.
    #[inline(always)]
    pub fn has_room(self, start: u32) -> bool
        requires low { self.first < 16777216 }
        requires even { self.first % 2 ≡ 0 }
        ensures begins { result ≡ true → self.first ≤ start }
        ensures ends { result ≡ true → start ≤ self.first + 2042 }
        ensures even { result ≡ true → start % 2 ≡ 0 }
    {
        // Six bytes lie in it up to 2042, twice 1021. An address below wraps round to one that is
        // far above.
        start.wrapping_sub(self.first).rotate_right(1) <= 1021
    }
}
