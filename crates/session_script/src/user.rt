//! The users whom a script may name.
ghost use Rattle.std.specs.Prelude.{◌≡◌, ◌==◌, ◌<◌, ◌≤◌, IfSome, List, length};
ghost use Rattle.std.specs.List.{list_any};
ghost use Rattle.user_names.specs.Users.{name_of, user_of};
ghost use Rattle.session_script.specs.Users.{KnownUser, has_device, names_of};

use std::marker::Model;
use user_names::{MOST_USERS, Named, UserNo, name_of};

/// The users whom a script may name.
pub trait ScriptUsers {
    /// Their names, and the addresses of their devices.
    ghost known: { Self → List KnownUser };

    /// Returns how many users there are.
    fn users(&self) -> usize
        ensures { result ≡ length (known self.now) };

    /// Returns the name of a user.
    fn name(&self, user: UserNo) -> &[u8]
        ensures { result.now ≡ name_of (names_of (known self.now)) user };

    /// Returns whether a user has a device of this address.
    fn has_device(&self, user: UserNo, address: u16) -> bool
        requires { user < length (known self.now) }
        ensures { result ≡ has_device (known self.now) user address };
}

/// A user of a list, as scripts know him.
#[derive(Drop)]
pub struct ScriptUser<'a> {
    /// The characters of the name.
    pub name: &'a [u8],
    /// The addresses of the devices of the user's machine.
    pub devices: &'a [u16],
}

impl<'a> Model for ScriptUser<'a> {
    ghost use Rattle.session_script.specs.Users.{KnownUser};

    ghost Value = { KnownUser };

    ghost view = { λ user. record { name = user.name.now; devices = user.devices.now } };
}

impl<'a> Named for ScriptUser<'a> {
    ghost name = { λ user. user.name };

    /// Returns the characters of the user's name.
    fn name(&self) -> &[u8] {
        self.name
    }
}

impl<'a> ScriptUser<'a> {
    /// Returns whether the user has a device of this address.
    fn has(&self, address: u16) -> bool
        ensures { result ≡ list_any (λ device. device == address) self.now.devices }
    {
        self.devices.iter().any(|device| *device == address)
    }
}

impl<'a, 'b> ScriptUsers for &'b [ScriptUser<'a>] {
    ghost known = { λ users. users.now };

    /// Returns how many users the list has.
    fn users(&self) -> usize {
        self.len()
    }

    /// Returns the name of a user of the list; empty if there is no such user.
    fn name(&self, user: UserNo) -> &[u8] {
        name_of(*self, user)
    }

    /// Returns whether a user of the list has a device of this address.
    fn has_device(&self, user: UserNo, address: u16) -> bool {
        self[user.index()].has(address)
    }
}

/// Returns the number of the first user with this name, if there is one.
pub(crate) fn user_of<U: ScriptUsers>(users: &U, name: &[u8]) -> Option<UserNo>
    requires { length (U.known users.now) ≤ MOST_USERS }
    ensures within { IfSome result (λ user. user < length (U.known users.now)) }
    ensures value { result ≡ user_of (names_of (U.known users.now)) name.now }
{
    for number in 0..users.users() {
        let user = UserNo::new(number as u8);
        if name == users.name(user) {
            return Some(user);
        }
    }
    None
}
