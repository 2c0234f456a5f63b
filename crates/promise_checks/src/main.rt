//! Looks at the great promise from outside: users of the control program and bare machines are
//! given the same events, and what they show is compared.
//!
//! The words of the program are its parts, each of which prints how much agrees, and what does not.
//!
//! - `commands`: scripts of commands of several users, with good and bad operands.
//! - `many-users`: sixty-four users with programs of their own, in turns.
//! - `talking-users`: sixteen users who talk, punch cards for each other, log off and on.
#![tactic(auto)]

mod commands;
mod guest;
mod happening;
mod many_users;
mod program;
mod spelling;
mod talking;

use anyhow::{Result, bail};
use std::env;

/// Runs the parts that the words of the program name, one after another; an error for another word.
fn main(rt: HostRuntime) -> Result<()> {
    for part in env::args(&rt)?.skip(1) {
        match part.as_str() {
            "commands" => commands::play_all(&rt)?,
            "many-users" => many_users::play(&rt)?,
            "talking-users" => talking::play(&rt)?,
            _ => bail!("{part} is no part"),
        }
    }
    Ok(())
}
