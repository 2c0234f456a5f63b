//! What keeps a system from being booted with volumes: two of one serial number, or a minidisk that
//! is on none.
ghost use Rattle.std.specs.Prelude.{◌≡◌, ◌<◌, ◌≤◌, IfSome, None, Some, length, true};
ghost use Rattle.std.specs.List.{find, list_any, position};
ghost use Rattle.std.specs.Option.{option_copied};
ghost use Rattle.std.specs.Str.{bytes_eq};
ghost use Rattle.cp_placement.specs.Seating.{IsFirstPast, first_missing, first_past, has_twins};
ghost use Rattle.cp_placement.specs.Seating.{is_past, lacks_volume};
ghost use Rattle.cp_placement.specs.Seating.{user_is_past, user_lacks, volume_named};

use ckd_volume::Volume;
use cp_directory::{MinidiskStatement, User, Volser};
use s370_num::DevAddr;
use user_names::UserNo;

/// Returns whether two of these volumes have one serial number.
pub fn has_twins(volumes: &[Volume]) -> bool
    ensures { result ≡ has_twins volumes.now }
{
    match volumes.split_first() {
        Some((first, others)) => has_volser(others, first.volser()) || has_twins(others),
        None => false,
    }
}

/// Returns whether one of these volumes has this serial number.
fn has_volser(volumes: &[Volume], volser: [u8; 6]) -> bool
    ensures { result ≡ list_any (λ volume. bytes_eq volume.volser volser) volumes.now }
{
    volumes.iter().any(|volume| volume.volser() == volser)
}

/// Returns the first of these volumes that has this serial number, if there is one.
fn volume_named(volumes: &[Volume], volser: Volser) -> Option<&Volume>
    ensures { option_copied result ≡ volume_named volumes.now volser }
{
    volumes
        .iter()
        .find(|volume| volume.volser() == volser.padded())
}

/// Returns whether none of these volumes has the serial number of a minidisk's volume.
fn lacks_volume(volumes: &[Volume], minidisk: &MinidiskStatement) -> bool
    ensures { result ≡ lacks_volume volumes.now minidisk.now }
{
    volume_named(volumes, minidisk.extent.volser()).is_none()
}

/// Returns whether a minidisk ends past the last cylinder of its volume; false if that is not
/// there.
fn is_past(volumes: &[Volume], minidisk: &MinidiskStatement) -> bool
    ensures { result ≡ is_past volumes.now minidisk.now }
{
    match volume_named(volumes, minidisk.extent.volser()) {
        Some(volume) => {
            let extent = minidisk.extent;
            usize::from(extent.start()) + usize::from(extent.count()) > volume.count()
        }
        None => false,
    }
}

/// Returns whether a user has a minidisk whose volume is not among these.
fn user_lacks(volumes: &[Volume], user: &User) -> bool
    ensures { result ≡ user_lacks volumes.now user.now }
{
    user.minidisks()
        .iter()
        .any(|minidisk| lacks_volume(volumes, minidisk))
}

/// Returns whether a user has a minidisk that ends past the last cylinder of its volume.
fn user_is_past(volumes: &[Volume], user: &User) -> bool
    ensures { result ≡ user_is_past volumes.now user.now }
{
    user.minidisks()
        .iter()
        .any(|minidisk| is_past(volumes, minidisk))
}

/// Returns the first user one of whose minidisks is on none of these volumes, if there is one.
fn missing_user<'a>(volumes: &[Volume], users: &'a [User]) -> Option<&'a User>
    ensures { option_copied result ≡ find (user_lacks volumes.now) users.now }
{
    users.iter().find(|user| user_lacks(volumes, user))
}

/// Returns the first of these minidisks that is on none of these volumes, if there is one.
fn missing_minidisk<'a>(
    volumes: &[Volume],
    minidisks: &'a [MinidiskStatement],
) -> Option<&'a MinidiskStatement>
    ensures { option_copied result ≡ find (lacks_volume volumes.now) minidisks.now }
{
    minidisks
        .iter()
        .find(|minidisk| lacks_volume(volumes, minidisk))
}

/// Returns the serial number that the first minidisk that is on none of these volumes names, if
/// there is one.
#[tactic(auto, using(crate::proofs::Found::found_such))]
pub fn missing_volume(volumes: &[Volume], users: &[User]) -> Option<Volser>
    ensures first { result ≡ first_missing volumes.now (find (user_lacks volumes.now) users.now) }
    ensures none { result ≡ None → find (user_lacks volumes.now) users.now ≡ None }
{
    match missing_user(volumes, users) {
        Some(user) => Some(first_missing(volumes, user)),
        None => None,
    }
}

/// Returns the serial number that a user's first minidisk on none of these volumes names; he has to
/// have one.
#[tactic(auto, using(crate::proofs::Found::found_any))]
fn first_missing(volumes: &[Volume], user: &User) -> Volser
    requires { user_lacks volumes.now user.now ≡ true }
    ensures { first_missing volumes.now (Some user.now) ≡ Some result }
{
    match missing_minidisk(volumes, user.minidisks()) {
        Some(minidisk) => minidisk.extent.volser(),
        None => unreachable!(),
    }
}

/// Returns the index of the first user one of whose minidisks ends past its volume, if there is
/// one.
fn past_user(volumes: &[Volume], users: &[User]) -> Option<usize>
    ensures place { result ≡ position (user_is_past volumes.now) users.now }
    ensures inside { IfSome result (λ place. place < length users.now) }
{
    users.iter().position(|user| user_is_past(volumes, user))
}

/// Returns the first of these minidisks that ends past its volume, if there is one.
fn past_minidisk<'a>(
    volumes: &[Volume],
    minidisks: &'a [MinidiskStatement],
) -> Option<&'a MinidiskStatement>
    ensures { option_copied result ≡ find (is_past volumes.now) minidisks.now }
{
    minidisks.iter().find(|minidisk| is_past(volumes, minidisk))
}

/// Returns whose the first minidisk is that ends past the last cylinder of its volume, and its
/// address, if there is one.
#[tactic(auto, using(crate::proofs::Found::position_such))]
pub fn past_end(volumes: &[Volume], users: &[User]) -> Option<(UserNo, DevAddr)>
    requires { length users.now ≤ 64 }
    ensures first { IfSome result (λ found. IsFirstPast volumes.now users.now found.0 found.1) }
    ensures none { result ≡ None → position (user_is_past volumes.now) users.now ≡ None }
{
    match past_user(volumes, users) {
        Some(place) => Some((UserNo::new(place as u8), first_past(volumes, &users[place]))),
        None => None,
    }
}

/// Returns the address of a user's first minidisk that ends past the last cylinder of its volume;
/// he has to have one.
#[tactic(auto, using(crate::proofs::Found::found_any))]
fn first_past(volumes: &[Volume], user: &User) -> DevAddr
    requires { user_is_past volumes.now user.now ≡ true }
    ensures { first_past volumes.now (Some user.now) ≡ Some result }
{
    match past_minidisk(volumes, user.minidisks()) {
        Some(minidisk) => minidisk.address,
        None => unreachable!(),
    }
}
