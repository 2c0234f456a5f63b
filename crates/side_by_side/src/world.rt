//! The world of one user next to the bare machines of all.
ghost use Rattle.std.specs.Prelude.{◌≤◌, length};

use cp_directory::User;
use machine_devices::UserDirectory;
use user_names::{UserNo, name_of, user_of};

/// The users of the directory, and whose bare machines are on.
#[derive(Clone, Copy)]
pub(crate) struct Others<'a> {
    /// The users of the directory.
    pub(crate) users: &'a [User],
    /// The user whose machine it is.
    pub(crate) own: UserNo,
    /// Of each user, whether his bare machine is on.
    pub(crate) on: &'a [bool],
    ghost few: { length users.now ≤ 64 },
}

impl<'a> UserDirectory for Others<'a> {
    ghost use Rattle.cp_core.specs.System.{world_among};

    ghost known = { λ o. world_among o.users.now o.own o.on.now };

    /// Returns the number of the user of this name, if there is one.
    fn user_of(&self, name: &[u8]) -> Option<u8> {
        match user_of(self.users, name) {
            Some(user) => Some(user.number()),
            None => None,
        }
    }

    /// Returns the name of the user whose machine it is.
    fn own_name(&self) -> &[u8] {
        name_of(self.users, self.own)
    }

    /// Returns whether the bare machine of the user of this number is on; false if there is none.
    fn is_on(&self, user: u8) -> bool {
        match self.on.get(usize::from(user)) {
            Some(on) => *on,
            None => false,
        }
    }

    /// Returns how many bare machines are on.
    fn users_on(&self) -> u64 {
        self.on.iter().filter(|on| **on).count() as u64
    }
}
