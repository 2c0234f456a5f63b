//! The serve queue of the programs that were started: which join it by an event, and which leave
//! it.
ghost use Rattle.std.specs.Prelude.{◌≡◌, ◌<◌, IfOk, OnOk, if◌then◌else◌, length, slice_get};
ghost use Rattle.std.specs.List.{position};
ghost use Rattle.s370_subchannels.specs.Starts.{works};
ghost use Rattle.s370_subchannels.specs.Subchannels.{latest_start, next_start};
ghost use Rattle.session_script.specs.Users.{has_device};
ghost use Rattle.cp_dispatch.specs.Policy.{is_of};
ghost use Rattle.cp_dispatch.specs.Turns.{without};
ghost use Rattle.sessions.specs.Installed.{subchannels_at};
ghost use Rattle.sessions.specs.Schedule.{in_order, is_before, is_joining, joined, line_since};
ghost use Rattle.sessions.specs.Schedule.{started_since, withdrawn};

use crate::installation::Installation;
use cp_dispatch::Policy;
use s370_num::DevAddr;
use s370_subchannels::{DeviceState, Subchannel};
use std::alloc::{AllocError, Global};
use user_names::UserNo;

/// Returns the number that the next start of a user's machine will have.
pub(crate) fn next_start<I: Installation>(installation: &I, user: UserNo) -> u64
    requires { user < length (I.goes.seen installation.now).users }
    ensures { result ≡ next_start (subchannels_at (I.goes.seen installation.now) user) }
{
    latest_start(installation.subchannels(user)).saturating_add(1)
}

/// Removes the programs of a user that have ended or were withdrawn from the serve queue, and
/// appends those that were started with this number or a later one, in the order of their starts.
pub(crate) fn update_serve_queue<I: Installation>(
    alloc: Global,
    installation: &I,
    policy: &mut Policy,
    user: UserNo,
    number: u64,
) -> Result<(), AllocError>
    requires { user < length (I.goes.seen installation.now).users }
    ensures ok { OnOk result (policy.new
        ≡ record policy.old {
          programs = line_since (I.goes.seen installation.now) user number
              policy.old.programs;
        }) }
    ensures rest { policy.new ≡ record policy.old { programs = policy.new.programs } }
{
    let started = started_since(alloc, installation, user, number)?;
    withdraw(policy, user, installation.subchannels(user));
    queue_started(policy, user, &started)
}

/// Returns the number of the latest start of these devices, or 0.
fn latest_start(list: &[Subchannel]) -> u64
    ensures { result ≡ latest_start list.now }
{
    let mut latest = 0;
    for d in list {
        latest = u64::max(latest, d.last_start);
    }
    latest
}

/// Returns a new list of the devices of a user that work and were started with this number or a
/// later one, in the order of their starts.
fn started_since<I: Installation>(
    alloc: Global,
    installation: &I,
    user: UserNo,
    number: u64,
) -> Result<Vec<Subchannel>, AllocError>
    requires { user < length (I.goes.seen installation.now).users }
    ensures { IfOk result (λ started. started.items
        ≡ started_since (I.goes.seen installation.now) user number) }
{
    let list = installation.subchannels(user);
    let mut started = Vec::new(alloc);
    for d in list {
        let joins = is_joining(installation, user, number, d);
        put_if_joining(&mut started, joins, *d)?;
    }
    Ok(started)
}

/// Inserts a device into a list by the order of starts, if it joins the serve queue.
fn put_if_joining(
    started: &mut Vec<Subchannel>,
    joins: bool,
    d: Subchannel,
) -> Result<(), AllocError>
    ensures { OnOk result (started.new.items ≡ if joins then in_order d started.old.items
        else started.old.items) }
{
    if joins {
        return put_in_order(started, d);
    }
    Ok(())
}

/// Returns whether a device of a user joins the serve queue: it works, it was started with this
/// number or a later one, and the user has it.
fn is_joining<I: Installation>(installation: &I, user: UserNo, number: u64, d: &Subchannel) -> bool
    requires { user < length (I.goes.seen installation.now).users }
    ensures { result ≡ is_joining (I.goes.seen installation.now) user number d.now }
{
    works(d.state) && number <= d.last_start && installation.has_device(user, d.address.get())
}

/// Returns whether a device in this state works on a program.
fn works(state: DeviceState) -> bool
    ensures { result ≡ works state }
{
    match state {
        DeviceState::Working(_) => true,
        DeviceState::Idle | DeviceState::Pending(_) => false,
    }
}

/// Inserts a device into a list before the first whose last start was after its own.
fn put_in_order(started: &mut Vec<Subchannel>, d: Subchannel) -> Result<(), AllocError>
    ensures { OnOk result (started.new.items ≡ in_order d started.old.items) }
{
    match place_in_order(started, &d) {
        Some(place) => {
            started.insert(place, d)?;
            Ok(())
        }
        None => {
            started.push(d)?;
            Ok(())
        }
    }
}

/// Returns the index of the first of these devices whose last start was after that of `d`, if there
/// is one.
fn place_in_order(started: &[Subchannel], d: &Subchannel) -> Option<usize>
    ensures { result ≡ position (is_before d.now) started.now }
{
    started
        .iter()
        .position(|other| d.last_start < other.last_start)
}

/// Removes from the serve queue the programs of those of these devices of a user that are not
/// working.
fn withdraw(policy: &mut Policy, user: UserNo, list: &[Subchannel])
    ensures { policy.new ≡ record
        policy.old { programs = withdrawn user list.now policy.old.programs } }
{
    for d in list {
        withdraw_one(policy, user, d);
    }
}

/// Removes the program of a device of a user from the serve queue, if the device is not
/// working.
fn withdraw_one(policy: &mut Policy, user: UserNo, d: &Subchannel)
    ensures { policy.new ≡ record policy.old {
      programs = if works d.now.state then policy.old.programs
          else without (is_of user d.now.address) policy.old.programs;
    } }
{
    if !works(d.state) {
        policy.ended(user, d.address);
    }
}

/// Puts the program of each of these devices of a user at the end of the serve queue, in order:
/// adds it, or moves it there if it is in the queue.
fn queue_started(
    policy: &mut Policy,
    user: UserNo,
    started: &[Subchannel],
) -> Result<(), AllocError>
    ensures ok { OnOk result (policy.new
        ≡ record policy.old { programs = joined user started.now policy.old.programs }) }
    ensures rest { policy.new ≡ record policy.old { programs = policy.new.programs } }
{
    for d in started {
        policy.started(user, d.address)?;
    }
    Ok(())
}
