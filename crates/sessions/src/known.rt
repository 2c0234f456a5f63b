//! What scripts know of the users of an installation: their names, and the addresses of their
//! devices.
ghost use Rattle.std.specs.Prelude.{◌≡◌, All, Err, IfErr, IfOk, Ok, map};
ghost use Rattle.session_script.specs.Script.{IsOfDevice, IsOfUser, IsRefusal, ScriptTakesMemory};
ghost use Rattle.session_script.specs.Script.{said, script_of};

use crate::installation::Installation;
use session_script::{ScriptError, ScriptEvent, ScriptUsers, read_script};
use std::alloc::Global;
use user_names::UserNo;

/// The users of an installation, as scripts know them.
#[derive(Drop)]
struct InstalledUsers<'a, I> {
    installation: &'a I,
}

impl<'a, I: Installation> ScriptUsers for InstalledUsers<'a, I> {
    ghost known = { λ users. (I.goes.seen users.installation.now).users };

    /// Returns how many users the installation has.
    fn users(&self) -> usize {
        self.installation.users()
    }

    /// Returns the name of a user of the installation.
    fn name(&self, user: UserNo) -> &[u8] {
        self.installation.name(user)
    }

    /// Returns whether a user of the installation has a device of this address.
    fn has_device(&self, user: UserNo, address: u16) -> bool {
        self.installation.has_device(user, address)
    }
}

/// Returns the events that a script names for the users of an installation and their devices, or
/// the number of its first line that is refused.
pub(crate) fn read_events<'a, I: Installation>(
    alloc: Global,
    installation: &I,
    text: &'a [u8],
) -> Result<Vec<ScriptEvent<'a>>, ScriptError>
    ensures ok { IfOk result
        (λ events. script_of (I.goes.seen installation.now).users text.now
        ≡ Ok (map said events.items)) }
    ensures users { IfOk result
        (λ events. All (λ e. IsOfUser (I.goes.seen installation.now).users (said e))
        events.items) }
    ensures devices { IfOk result
        (λ events. All (λ e. IsOfDevice (I.goes.seen installation.now).users (said e))
        events.items) }
    ensures err { IfErr result
        (IsRefusal (script_of (I.goes.seen installation.now).users text.now)) }
    ensures memory { result ≡ Err ScriptError.Memory
        → ScriptTakesMemory (I.goes.seen installation.now).users text.now }
{
    // There are few users.
    let _users = installation.users();
    read_script(alloc, &InstalledUsers { installation }, text)
}
