//! A program that a channel is to run.
ghost use Rattle.std.specs.Prelude.{◌≡◌};
ghost use Rattle.cp_dispatch.specs.Policy.{is_of};

use s370_num::DevAddr;
use user_names::UserNo;

/// A channel program that was started: whose it is, and at which device.
#[derive(Clone, Copy, PartialEq, Eq, Drop)]
pub struct Program {
    /// The user whose program it is.
    pub user: UserNo,
    /// The device that works for it.
    pub device: DevAddr,
}

impl Program {
    /// Returns whether the program is one of this device of this user.
    pub(crate) fn is_of(&self, user: UserNo, device: DevAddr) -> bool
        ensures { result ≡ is_of user device self.now }
    {
        self.user == user && self.device == device
    }
}
