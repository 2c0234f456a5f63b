//! What a line of one machine may ask of the others.
ghost use Rattle.std.specs.Prelude.{◌≡◌};
ghost use Rattle.user_names.specs.Users.{user_of};
ghost use Rattle.machine_devices.specs.UserDirectory.{UserDirectory as Known, is_logged_on, is_on};
ghost use Rattle.machine_devices.specs.UserDirectory.{users_on};

use machine_panel::Mode;

/// What the control program knows next to one machine: its users, and who of them is logged on.
pub trait UserDirectory {
    /// What is known.
    ghost known: { Self → Known };

    /// Returns the number of the user of this name, if there is one.
    fn user_of(&self, name: &[u8]) -> Option<u8>
        ensures { result ≡ user_of (known self.now).names name.now };

    /// Returns the name of the user to whom the machine of the line belongs.
    fn own_name(&self) -> &[u8]
        ensures { result.now ≡ (known self.now).own };

    /// Returns whether the user of this number is logged on.
    fn is_on(&self, user: u8) -> bool
        ensures { result ≡ is_on (known self.now) user };

    /// Returns how many users are logged on.
    fn users_on(&self) -> u64
        ensures { result ≡ users_on (known self.now) };
}

/// Returns whether the user of a machine in this mode is logged on: in every mode but off.
pub fn is_logged_on(mode: Mode) -> bool
    ensures { result ≡ is_logged_on mode }
{
    match mode {
        Mode::Off => false,
        Mode::Stopped | Mode::Running => true,
    }
}
