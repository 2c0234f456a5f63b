//! What users hold by files that they have not closed.
ghost use Rattle.std.specs.Prelude.{◌≡◌, ◌++◌, ◌∷◌, ◌<◌, [], IfOk, OnOk, length};
ghost use Rattle.sessions.specs.Held.{holds_line, holds_lines};
ghost use Rattle.sessions.specs.Installed.{names_of, user_at};
ghost use Rattle.sessions.specs.Transcript.{ended};
ghost use Rattle.user_names.specs.Users.{name_of};

use crate::installation::Installation;
use machine_devices::SeenDevices;
use std::alloc::{AllocError, Global};
use user_names::UserNo;

/// Returns a line for each user with the entries of the open files of his punch and his printer,
/// each ended by LF.
pub(crate) fn held_lines<I: Installation>(
    alloc: Global,
    installation: &I,
) -> Result<Vec<u8>, AllocError>
    ensures { IfOk result (λ text. text.items
        ≡ ended (holds_lines (I.goes.seen installation.now)
        (length (I.goes.seen installation.now).users))) }
{
    let mut text = Vec::new(alloc);
    for number in 0..installation.users() {
        let user = UserNo::new(number as u8);
        append_held(
            alloc,
            &mut text,
            installation.name(user),
            &installation.devices(user),
        )?;
    }
    Ok(text)
}

/// Appends the line of a user of this name with these devices.
///
/// ```text
/// > HOLDS A 0 1250
/// ```
fn append_held(
    alloc: Global,
    out: &mut Vec<u8>,
    name: &[u8],
    devices: &SeenDevices<'_>,
) -> Result<(), AllocError>
    ensures { OnOk result (out.new.items ≡ out.old.items
        ++ ended (holds_line name.now devices.now ∷ [])) }
{
    let cards = devices.punch().entries().len();
    let lines = devices.printer().entries().len();
    let counts = format!(in alloc; " {cards} {lines}\n")?;
    out.extend_from_slice(b"> HOLDS ")?;
    out.extend_from_slice(name)?;
    out.extend_from_slice(counts.as_bytes())?;
    Ok(())
}
