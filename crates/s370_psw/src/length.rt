//! The instruction length code.

ghost use Rattle.std.specs.Prelude.{◌≡◌, ℕ, ◌<◌, ◌↔◌, IsSome, IfSome};

use std::marker::Model;

/// An instruction length code: how many halfwords the instruction that was interrupted has, from 1
/// to 3, or 0 where none was fetched.
#[derive(Clone, Copy, PartialEq, Eq, Debug)]
pub struct Ilc {
    halfwords: u8,
}

impl Model for Ilc {
    ghost use Rattle.std.specs.Prelude.{ℕ, ◌<◌};

    ghost Value = { ℕ };

    ghost view = { λ i. i.halfwords };

    ghost invariant = { λ i. i.halfwords < 4 };

    ghost inverse = { λ n. record { halfwords = n } };
}

impl Ilc {
    /// No instruction was fetched.
    pub const ZERO: Ilc = Ilc { halfwords: 0 };
    /// An instruction of two bytes.
    pub const ONE: Ilc = Ilc { halfwords: 1 };
    /// An instruction of four bytes.
    pub const TWO: Ilc = Ilc { halfwords: 2 };
    /// An instruction of six bytes.
    pub const THREE: Ilc = Ilc { halfwords: 3 };

    /// Returns the length code of an instruction of so many halfwords, or `None` if there are more
    /// than three.
    #[inline(always)]
    pub fn new(halfwords: u8) -> Option<Ilc>
        ensures found { IsSome result ↔ (halfwords < 4) }
        ensures value { IfSome result (λ code. code ≡ halfwords) }
    {
        if halfwords < 4 {
            Some(Ilc { halfwords })
        } else {
            None
        }
    }

    /// Returns the length code: how many halfwords the instruction has, 0 to 3.
    #[inline(always)]
    pub fn get(self) -> u8
        ensures value { result ≡ self }
        ensures below { result < 4 }
    {
        self.halfwords
    }
}
