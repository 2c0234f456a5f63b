//! The number of a register.

ghost use Rattle.std.specs.Prelude.{◌≡◌, ℕ, ◌+◌, ◌%◌, ◌<◌};

use std::marker::Model;

/// The number of a general or control register, 0 to 15.
///
/// `Register::new(number & 15)` is the register of a field of four bits.
#[derive(Clone, Copy, PartialEq, Eq, Debug)]
pub struct Register {
    number: u8,
}

impl Model for Register {
    ghost use Rattle.std.specs.Prelude.{ℕ, ◌<◌};

    ghost Value = { ℕ };

    ghost view = { λ r. r.number };

    ghost invariant = { λ r. r.number < 16 };

    ghost inverse = { λ n. record { number = n } };
}

impl Register {
    /// Register 0, which as a base or index names none.
    pub const ZERO: Register = Register { number: 0 };

    /// Returns the register with this number, which is below 16.
    #[inline(always)]
    pub fn new(number: u8) -> Register
        requires { number < 16 }
        ensures { result ≡ number }
    {
        Register { number }
    }

    /// Returns the register's number.
    #[inline(always)]
    pub fn number(self) -> u8
        ensures value { result ≡ self }
        ensures below { result < 16 }
    {
        self.number
    }

    /// Returns the register's number as an index into a list of sixteen.
    #[inline(always)]
    pub fn index(self) -> usize
        ensures value { result ≡ self }
        ensures below { result < 16 }
    {
        self.number as usize
    }

    /// Returns the register with the next number; 0 follows 15.
    #[inline(always)]
    pub fn next(self) -> Register
        ensures { result ≡ (self + 1) % 16 }
    {
        Register {
            number: (self.number + 1) & 15,
        }
    }
}
