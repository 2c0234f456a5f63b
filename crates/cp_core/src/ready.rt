//! Which users are ready for a slice of the processor.
ghost use Rattle.std.specs.Prelude.{◌≡◌};
ghost use Rattle.machine_panel.specs.Ready.{is_ready};
ghost use Rattle.cp_core.specs.System.{machine_at};

use crate::system::System;
use user_names::UserNo;

impl System {
    /// Returns whether a user is ready for a slice: whether his machine runs and would do
    /// something, be it only to stop, and not wait for an interruption; false if there is no such
    /// user. This takes no memory.
    pub fn is_ready(&self, user: UserNo) -> bool
        ensures { result ≡ is_ready (machine_at self.now user) }
    {
        match self.user(user) {
            Some(user) => user.machine.is_ready(),
            None => false,
        }
    }
}
