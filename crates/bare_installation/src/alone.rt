//! What a machine knows that is alone.
ghost use Rattle.std.specs.Prelude.{◌≡◌};

use machine_devices::UserDirectory;

/// The name of the only user.
pub const BARE: &[u8] = b"BARE";

/// A world of one user.
#[derive(Clone, Copy)]
pub(crate) struct Alone {
    /// Whether the user is logged on.
    pub(crate) on: bool,
}

impl UserDirectory for Alone {
    ghost use Rattle.bare_installation.specs.Bare.{alone};

    ghost known = { λ a. alone a.on };

    /// Returns 0 for the name `BARE`, that of the only user; None for another name.
    fn user_of(&self, name: &[u8]) -> Option<u8> {
        if name == b"BARE".as_slice() {
            Some(0)
        } else {
            None
        }
    }

    /// Returns `BARE`, the name of the only user.
    fn own_name(&self) -> &[u8] {
        b"BARE"
    }

    /// Returns whether the user of this number is logged on; false of any number but 0.
    fn is_on(&self, user: u8) -> bool {
        user == 0 && self.on
    }

    /// Returns how many users are logged on: 1 or 0.
    fn users_on(&self) -> u64 {
        if self.on { 1 } else { 0 }
    }
}
