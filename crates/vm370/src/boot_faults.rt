//! What a system that is not booted is as a failure of the program.
ghost use Rattle.std.specs.Prelude.{◌≡◌, IfOk, map, string_bytes};
ghost use Rattle.std.specs.Str.Lossy.{utf8_lossy};
ghost use Rattle.user_names.specs.Users.{name_of};
ghost use Rattle.programs.specs.Faults.{fault_text, status_of};
ghost use Rattle.vm370.specs.BootFaults.{refusal_status, refusal_text};

use cp_core::BootError;
use cp_directory::User;
use programs::{BootFault, Failure};
use std::alloc::{AllocError, Global};
use user_names::UserNo;

/// Returns a new list of the names of users, as strings.
///
/// They are kept while the system is booted, which takes the directory.
pub(crate) fn names_of(alloc: Global, users: &[User]) -> Result<Vec<String>, AllocError>
    ensures { IfOk result (λ names. map string_bytes names.items
        ≡ map (λ user. utf8_lossy user.name) users.now) }
{
    let mut names = Vec::new(alloc);
    for user in users {
        names.push(String::from_utf8_lossy(alloc, user.name())?)?;
    }
    Ok(names)
}

/// Returns the name of a user out of the names of all; empty if no user has this number.
fn taken(alloc: Global, mut names: Vec<String>, user: UserNo) -> String
    ensures { string_bytes result ≡ name_of (map string_bytes names.items) user }
{
    if user.index() < names.len() {
        names.swap_remove(user.index())
    } else {
        String::new(alloc)
    }
}

/// Returns the failure of a program for the error of a boot, if the users have these names.
pub fn boot_failure(alloc: Global, names: Vec<String>, error: BootError) -> Failure
    ensures line { fault_text result ≡ refusal_text (map string_bytes names.items) error }
    ensures status { status_of result ≡ refusal_status error }
{
    match error {
        BootError::Memory => Failure::Memory,
        BootError::TooFewFrames => Failure::Boot(BootFault::TooFewFrames),
        BootError::DuplicateVolume => Failure::Boot(BootFault::DuplicateVolume),
        BootError::NoVolume(volser) => Failure::Boot(BootFault::NoVolume(volser)),
        BootError::ExtentPastEnd(user, address) => Failure::Boot(BootFault::ExtentPastEnd(
            taken(alloc, names, user),
            address,
        )),
        BootError::DuplicateDevice => Failure::Boot(BootFault::DuplicateDevice),
    }
}
