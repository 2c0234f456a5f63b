//! Users by their names.
ghost use Rattle.std.specs.Prelude.{◌≡◌, ℕ, ◌<◌, ◌≤◌, List, Option, Some, None, IfSome, length};
ghost use Rattle.std.specs.Prelude.{map};
ghost use Rattle.user_names.specs.Users.{name_of, user_of};

use crate::number::{MOST_USERS, UserNo};

/// Somebody whom a text calls by a name.
pub trait Named {
    /// The name's characters.
    ghost name: { Self → List ℕ };

    /// Returns the characters of the user's name.
    fn name(&self) -> &[u8]
        ensures { result.now ≡ name self.now };
}

impl Named for Vec<u8> {
    ghost name = { λ s. s.items };

    /// Returns the vector's bytes as the name.
    fn name(&self) -> &[u8] {
        self
    }
}

impl Named for &[u8] {
    ghost name = { λ s. s.now };

    /// Returns the bytes themselves as the name.
    fn name(&self) -> &[u8] {
        *self
    }
}

/// Returns the number of the first user with this name, if there is one.
pub fn user_of<N: Named>(users: &[N], name: &[u8]) -> Option<UserNo>
    requires { length users.now ≤ MOST_USERS }
    ensures within { IfSome result (λ user. user < length users.now) }
    ensures value { result ≡ user_of (map N.name users.now) name.now }
{
    let place = place_of(users, name)?;
    Some(UserNo::new(place as u8))
}

/// Returns the index of the first user with this name, if there is one.
fn place_of<N: Named>(users: &[N], name: &[u8]) -> Option<usize>
    ensures within { IfSome result (λ user. user < length users.now) }
    ensures value { result ≡ user_of (map N.name users.now) name.now }
{
    users.iter().position(|user| name == user.name())
}

/// Returns the name of the user with this number, or an empty name if there is no such user.
pub fn name_of<N: Named>(users: &[N], user: UserNo) -> &[u8]
    ensures { result.now ≡ name_of (map N.name users.now) user }
{
    match users.get(user.index()) {
        Some(user) => user.name(),
        None => &[],
    }
}
