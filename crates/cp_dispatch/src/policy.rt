//! The policy: the queue of users and the serve queue, which has programs.
ghost use Rattle.std.specs.Prelude.{◌≡◌, ◌<◌, ◌≤◌, ℕ, Bool, [], IfOk, OnErr, OnOk, Some, length};
ghost use Rattle.std.specs.List.{position};
ghost use Rattle.std.specs.Vec.{vec_capacity};
ghost use Rattle.cp_dispatch.specs.Turns.{BringsForward, IsDealt, at_end, without};
ghost use Rattle.cp_dispatch.specs.Policy.{IsFairPolicy, always, is_of, same_user};

use crate::program::Program;
use s370_num::DevAddr;
use std::alloc::{AllocError, Global};
use std::marker::Model;
use user_names::UserNo;

/// Who is dealt the slices, and which programs are served: the users who are logged on and the
/// programs that were started, each in the order in which they are dealt.
#[derive(Drop)]
pub struct Policy {
    pub(crate) users: Vec<UserNo>,
    pub(crate) programs: Vec<Program>,
    pub(crate) most_users: usize,
}

impl Model for Policy {
    ghost use Rattle.std.specs.Prelude.{◌≤◌};
    ghost use Rattle.std.specs.Vec.{vec_capacity};
    ghost use Rattle.cp_dispatch.specs.Policy.{IsQueue, Lines};

    ghost Value = { Lines };

    ghost view = { λ p. record {
      users = p.users.items;
      programs = p.programs.items;
      most_users = p.most_users;
    } };

    ghost invariant = { λ p. IsQueue p.users.items p.most_users
        × (p.most_users ≤ vec_capacity p.users) };
}

impl Policy {
    /// Returns a policy for this many users, with nobody in the queue of users and no program in
    /// the serve queue.
    ///
    /// Of the other calls only [`Policy::started`] takes memory.
    ///
    /// # Errors
    ///
    /// `AllocError` if memory is refused.
    pub fn new(alloc: Global, users: usize) -> Result<Policy, AllocError>
        ensures { IfOk result (λ policy. policy
            ≡ record { users = []; programs = []; most_users = users }) }
    {
        Ok(Policy {
            users: Vec::with_capacity(alloc, users)?,
            programs: Vec::new(alloc),
            most_users: users,
        })
    }

    /// Moves a user who logs on to the end of the queue, or adds him there if he was not in it.
    pub fn join(&mut self, user: UserNo)
        requires { user < self.old.most_users }
        ensures { self.new ≡ record
            self.old { users = at_end (same_user user) user self.old.users } }
    {
        put_user(&mut self.users, user);
    }

    /// Removes a user who logs off from the queue of users, if he is in it.
    pub fn leave(&mut self, user: UserNo)
        ensures { self.new ≡ record self.old { users = without (same_user user) self.old.users } }
    {
        take_out_user(&mut self.users, user);
    }

    /// Moves the program of a user's device to the end of the serve queue, or adds it there if it
    /// was not in it.
    ///
    /// # Errors
    ///
    /// `AllocError` if memory is refused; the program is then not in the serve queue, and nothing
    /// else has changed.
    pub fn started(&mut self, user: UserNo, device: DevAddr) -> Result<(), AllocError>
        ensures ok { OnOk result (self.new ≡ record self.old {
          programs = at_end (is_of user device)
              (record { user = user; device = device }) self.old.programs;
        }) }
        ensures err { OnErr result
            (self.new ≡ record self.old {
              programs = without (is_of user device)
                  self.old.programs;
            }) }
    {
        put_program(&mut self.programs, user, device)
    }

    /// Removes the program of a user's device, which has ended or was withdrawn, from the serve
    /// queue, if it is in it.
    pub fn ended(&mut self, user: UserNo, device: DevAddr)
        ensures { self.new ≡ record
            self.old { programs = without (is_of user device) self.old.programs } }
    {
        take_out_program(&mut self.programs, user, device);
    }

    /// Gives a slice to the user at this place in the queue, the first who is ready, and returns
    /// him; moves all before him, and after them him, to the end.
    pub fn slice(&mut self, place: usize) -> UserNo
        requires { place < length self.old.users }
        ensures dealt { (ready : ℕ → Bool) → position ready self.old.users ≡ Some place
            → IsDealt ready self.old.users (Some result) self.new.users }
        ensures forward { (ready : ℕ → Bool) → position ready self.old.users ≡ Some place
            → BringsForward ready self.old.users (Some result) self.new.users }
        ensures rest { self.new ≡ record self.old { users = self.new.users } }
    {
        let user = self.users[place];
        self.users.rotate_left(place + 1);
        user
    }

    /// Returns the first program in the serve queue, if there is one, and moves it to the end.
    pub fn serve(&mut self) -> Option<Program>
        ensures dealt { IsDealt always self.old.programs result self.new.programs }
        ensures forward { BringsForward always self.old.programs result self.new.programs }
        ensures rest { self.new ≡ record self.old { programs = self.new.programs } }
    {
        if self.programs.is_empty() {
            return None;
        }
        let program = self.programs[0];
        self.programs.rotate_left(1);
        Some(program)
    }

    /// Returns the users in the queue, who are logged on, in the order in which they get slices.
    pub fn users(&self) -> &[UserNo]
        ensures { result.now ≡ self.now.users }
    {
        &self.users
    }

    /// Returns the programs in the serve queue, in the order in which they are served.
    pub fn programs(&self) -> &[Program]
        ensures { result.now ≡ self.now.programs }
    {
        &self.programs
    }
}

/// Removes a user from the queue, if he is in it.
fn take_out_user(users: &mut Vec<UserNo>, user: UserNo)
    ensures items { users.new.items ≡ without (same_user user) users.old.items }
    ensures capacity { vec_capacity users.new ≡ vec_capacity users.old }
{
    if let Some(place) = place_of_user(users, user) {
        users.remove(place);
    }
}

/// Moves a user to the end of the queue, or adds him there if he was not in it.
fn put_user(users: &mut Vec<UserNo>, user: UserNo)
    requires { length (without (same_user user) users.old.items) < vec_capacity users.old }
    ensures items { users.new.items ≡ at_end (same_user user) user users.old.items }
    ensures capacity { vec_capacity users.old ≤ vec_capacity users.new }
{
    take_out_user(users, user);
    if users.push(user).is_err() {
        unreachable!();
    }
}

/// Removes the program of a user's device from the serve queue, if it is in it.
fn take_out_program(programs: &mut Vec<Program>, user: UserNo, device: DevAddr)
    ensures { programs.new.items ≡ without (is_of user device) programs.old.items }
{
    if let Some(place) = place_of_program(programs, user, device) {
        programs.remove(place);
    }
}

/// Moves the program of a user's device to the end of the serve queue, or adds it there if it was
/// not in it.
fn put_program(programs: &mut Vec<Program>, user: UserNo, device: DevAddr) -> Result<(), AllocError>
    ensures ok { OnOk result (programs.new.items
        ≡ at_end (is_of user device) (record { user = user; device = device }) programs.old.items) }
    ensures err { OnErr result
        (programs.new.items ≡ without (is_of user device) programs.old.items) }
{
    take_out_program(programs, user, device);
    programs.push(Program { user, device })?;
    Ok(())
}

/// Returns the index of a user in the queue, if he is in it.
fn place_of_user(users: &[UserNo], user: UserNo) -> Option<usize>
    ensures { result ≡ position (same_user user) users.now }
{
    users.iter().position(|other| user == *other)
}

/// Returns the index of the program of a user's device in the serve queue, if it is in it.
fn place_of_program(programs: &[Program], user: UserNo, device: DevAddr) -> Option<usize>
    ensures { result ≡ position (is_of user device) programs.now }
{
    programs
        .iter()
        .position(|program| program.is_of(user, device))
}

/// States that a user who stays ready, or a program that stays started, with j others before it in
/// its queue has one of the next j + 1 slices or serves.
///
/// So of as many slices as there are users logged on each who is ready has one.
pub fn is_fair()
    ensures { IsFairPolicy }
{}
