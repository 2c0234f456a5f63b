//! Parts of a line: the names and texts in a command.
ghost use Rattle.std.specs.Prelude.{◌≡◌, nat_eq};
ghost use Rattle.std.specs.Cmp.{partial_equiv_from_equiv};
ghost use Rattle.std.specs.Cmp.Lexicographic.{pointwise, nat_list_eq_equiv};

use std::marker::Model;

/// A part of a line, which is borrowed from it. In a contract it is its characters.
#[derive(Debug, Drop)]
pub struct LinePart<'a> {
    characters: &'a [u8],
}

impl<'a> Model for LinePart<'a> {
    ghost use Rattle.std.specs.Prelude.{ℕ, List};

    ghost Value = { List ℕ };

    ghost view = { λ part. part.characters.now };
}

impl<'a> LinePart<'a> {
    /// Returns the part of a line that has these characters.
    pub fn new(characters: &'a [u8]) -> LinePart<'a>
        ensures { result ≡ characters.now }
    {
        LinePart { characters }
    }

    /// Borrows the characters of the part.
    pub fn as_slice(&self) -> &'a [u8]
        ensures { result.now ≡ self.now }
    {
        self.characters
    }
}

impl<'a> PartialEq for LinePart<'a> {
    ghost eq = { pointwise nat_eq };

    ghost laws = { partial_equiv_from_equiv nat_list_eq_equiv };

    /// Returns whether two parts have the same characters.
    fn eq(&self, other: &Self) -> bool {
        self.characters == other.characters
    }
}

impl<'a> Eq for LinePart<'a> {
    ghost laws = { nat_list_eq_equiv };
}
