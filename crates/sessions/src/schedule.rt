//! Who is dealt the slices: the users who are on, of whom some are ready.
ghost use Rattle.std.specs.Prelude.{◌≡◌, ◌<◌, ℕ, IfOk, length, true};
ghost use Rattle.std.specs.List.{position};
ghost use Rattle.sessions.specs.Schedule.{first_lines, is_on, is_user_on, queue_with, ready_in};

use crate::installation::Installation;
use crate::starts::update_serve_queue;
use cp_dispatch::Policy;
use machine_panel::Mode;
use std::alloc::{AllocError, Global};
use user_names::UserNo;

/// How many units a slice has.
pub(crate) const SLICE_UNITS: u32 = 100;

/// Which lines a transcript has of turns.
#[derive(Clone, Copy, Debug, PartialEq, Eq)]
pub enum Detail {
    /// All: how each half of a turn ended, and that a turn had neither.
    Whole,
    /// Those at the users' terminals, and where it was out of frames.
    Terminals,
}

/// Returns whether the user of a machine in this mode is logged on.
fn is_mode_of_user(mode: Mode) -> bool
    ensures { result ≡ is_on mode }
{
    match mode {
        Mode::Off => false,
        Mode::Stopped | Mode::Running => true,
    }
}

/// Returns whether a user is logged on.
pub(crate) fn is_on<I: Installation>(installation: &I, user: UserNo) -> bool
    requires { user < length (I.goes.seen installation.now).users }
    ensures { result ≡ is_user_on (I.goes.seen installation.now) user }
{
    is_mode_of_user(installation.mode(user))
}

/// Puts a user who has logged on at the end of the queue, and removes one who has logged off from
/// it; else it does nothing.
pub(crate) fn update_ready_queue(policy: &mut Policy, user: UserNo, was_on: bool, is_on: bool)
    requires { user < policy.old.most_users }
    ensures { policy.new ≡ record
        policy.old { users = queue_with user was_on is_on policy.old.users } }
{
    if is_on && !was_on {
        policy.join(user);
    }
    if was_on && !is_on {
        policy.leave(user);
    }
}

/// Returns the policy for the users of an installation: those who are on are in the queue by their
/// numbers, and their started programs in the serve queue, for each user by their starts.
pub(crate) fn first_policy<I: Installation>(
    alloc: Global,
    installation: &I,
) -> Result<Policy, AllocError>
    ensures { IfOk result (λ policy. policy ≡ first_lines (I.goes.seen installation.now)) }
{
    let users = installation.users();
    let mut policy = Policy::new(alloc, users)?;
    for number in 0..users {
        let user = UserNo::new(number as u8);
        update_ready_queue(&mut policy, user, false, is_on(installation, user));
        update_serve_queue(alloc, installation, &mut policy, user, 0)?;
    }
    Ok(policy)
}

/// Returns the place of the first of these users who is ready for a slice, if one of them is.
pub(crate) fn first_ready<I: Installation>(installation: &I, users: &[UserNo]) -> Option<usize>
    ensures place { result ≡ position (ready_in (I.goes.seen installation.now)) users.now }
    ensures known { (user : ℕ) → ready_in (I.goes.seen installation.now) user ≡ true
        → user < length (I.goes.seen installation.now).users }
{
    // There are as many users as machines.
    let _users = installation.users();
    users.iter().position(|user| is_ready(installation, *user))
}

/// Returns whether a user of the installation has this number, and is ready for a slice.
fn is_ready<I: Installation>(installation: &I, user: UserNo) -> bool
    ensures { result ≡ ready_in (I.goes.seen installation.now) user }
{
    user.index() < installation.users() && installation.is_ready(user)
}
