//! The number of a user.
ghost use Rattle.std.specs.Prelude.{◌≡◌, ◌<◌};

use std::marker::Model;

/// The most users of one system.
pub const MOST_USERS: usize = 64;

/// The number of a user: its place in the directory, from 0.
#[derive(Clone, Copy, PartialEq, Eq, Debug)]
pub struct UserNo {
    number: u8,
}

impl Model for UserNo {
    ghost use Rattle.std.specs.Prelude.{ℕ, ◌<◌};

    ghost Value = { ℕ };

    ghost view = { λ u. u.number };

    ghost invariant = { λ u. u.number < 64 };

    ghost inverse = { λ n. record { number = n } };
}

impl UserNo {
    /// Returns the user with this number, which is an index into the directory.
    #[inline(always)]
    pub fn new(number: u8) -> UserNo
        requires { number < MOST_USERS }
        ensures { result ≡ number }
    {
        UserNo { number }
    }

    /// Returns the user's number.
    #[inline(always)]
    pub fn number(self) -> u8
        ensures value { result ≡ self }
        ensures below { result < MOST_USERS }
    {
        self.number
    }

    /// Returns the user's number as an index into the directory.
    #[inline(always)]
    pub fn index(self) -> usize
        ensures value { result ≡ self }
        ensures below { result < MOST_USERS }
    {
        self.number as usize
    }
}
