//! A policy as the bytes of a saved state, and back.
ghost use Rattle.std.specs.Prelude.{◌≡◌, ◌++◌, ◌<◌, IfOk, OnOk};
ghost use Rattle.saved_bytes.specs.Codes.{each, number};
ghost use Rattle.cp_dispatch.specs.Saved.{IsOneBySaved, lines_bytes, program_bytes};

use crate::policy::Policy;
use crate::program::Program;
use s370_num::DevAddr;
use saved_bytes::{Input, RestoreError, put_number, put_one, put_zero};
use std::alloc::{AllocError, Global};
use user_names::{MOST_USERS, UserNo};

/// Appends the numbers of these users, in order, each after a byte of 1, and then a byte of 0.
#[tactic(auto, using(saved_bytes::proofs::Codes::each_on))]
fn put_users(out: &mut Vec<u8>, users: &[UserNo]) -> Result<(), AllocError>
    ensures { OnOk result (out.new.items ≡ out.old.items ++ each number users.now) }
{
    for user in users {
        put_one(out)?;
        put_number(out, u64::from(user.number()))?;
    }
    put_zero(out)
}

/// Appends the user and the device of a program.
fn put_program(out: &mut Vec<u8>, program: Program) -> Result<(), AllocError>
    ensures { OnOk result (out.new.items ≡ out.old.items ++ program_bytes program) }
{
    put_number(out, u64::from(program.user.number()))?;
    put_number(out, u64::from(program.device.get()))
}

/// Appends the users and the devices of these programs, in order, each program after a byte of 1,
/// and then a byte of 0.
#[tactic(auto, using(saved_bytes::proofs::Codes::each_on))]
fn put_programs(out: &mut Vec<u8>, programs: &[Program]) -> Result<(), AllocError>
    ensures { OnOk result (out.new.items ≡ out.old.items ++ each program_bytes programs.now) }
{
    for program in programs {
        put_one(out)?;
        put_program(out, *program)?;
    }
    put_zero(out)
}

/// Reads the number of a user, below `users`, from the input.
///
/// # Errors
///
/// `Malformed` if it is another number or none.
fn next_user(input: &mut Input<'_>, users: usize) -> Result<UserNo, RestoreError>
    ensures { IfOk result (λ user. user < users) }
{
    let number = input.number()?;
    let few = users.min(MOST_USERS) as u64;
    if number < few {
        Ok(UserNo::new(number as u8))
    } else {
        Err(RestoreError::Malformed)
    }
}

impl Policy {
    /// Appends the queue of users, the serve queue and how many users there may be.
    ///
    /// # Errors
    ///
    /// `AllocError` if memory is refused; `out` may have a part of it then.
    pub fn save(&self, out: &mut Vec<u8>) -> Result<(), AllocError>
        ensures { OnOk result (out.new.items ≡ out.old.items ++ lines_bytes self.now) }
    {
        // Exhaustive: a new field fails to compile here.
        let Policy {
            users,
            programs,
            most_users,
        } = self;
        put_users(out, users)?;
        put_programs(out, programs)?;
        put_number(out, *most_users as u64)
    }

    /// Reads a policy for this many users from the input, whose own number of users is not
    /// compared.
    ///
    /// # Errors
    ///
    /// `Malformed` if the input is bad, `Memory` if memory is refused.
    pub fn read(alloc: Global, users: usize, input: &mut Input<'_>) -> Result<Policy, RestoreError>
        ensures { IfOk result (λ policy. policy.most_users ≡ users) }
    {
        let mut policy = Policy::new(alloc, users)?;
        'users: for _ in 0..u64::MAX {
            if !input.flag()? {
                break 'users;
            }
            policy.join(next_user(input, users)?);
        }
        'programs: for _ in 0..u64::MAX {
            if !input.flag()? {
                break 'programs;
            }
            let user = next_user(input, users)?;
            let device = input.next_u16()?;
            policy.started(user, DevAddr::new(device))?;
        }
        let _users = input.number()?;
        Ok(policy)
    }

    /// Returns the policy for this many users that is saved as exactly these bytes.
    ///
    /// # Errors
    ///
    /// `Malformed` if there is none, `Memory` if memory is refused.
    pub fn restored(alloc: Global, users: usize, bytes: &[u8]) -> Result<Policy, RestoreError>
        ensures { IfOk result (λ policy. lines_bytes policy ≡ bytes.now) }
    {
        let policy = Policy::read(alloc, users, &mut Input::new(bytes))?;
        let mut again = Vec::new(alloc);
        policy.save(&mut again)?;
        if again.as_slice() == bytes {
            Ok(policy)
        } else {
            Err(RestoreError::Malformed)
        }
    }
}

/// States that bytes are those of one policy: the one that is restored is the one that was saved.
pub fn one_by_saved()
    ensures { IsOneBySaved }
{}
