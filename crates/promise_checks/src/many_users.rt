//! Sixty-four users, each with a program of its own, run in turns of one to seven units next to
//! sixty-four bare machines.
//!
//! The programs are made of pieces of code, and the events come in the order of a fixed sequence of
//! numbers: mostly a run of some user, and now and then a tick of its timer or a line that its
//! operator types. After each event every view of every user has to be that of the bare machine
//! that was given that user's own events. All users share 16 frames, so that pages are given up and
//! come back all the time.
use crate::program::{DATA, PIECES, TYPED};
use anyhow::{Context, Result, bail};
use cp_core::Sizes;
use side_by_side::{Sequence, SideBySide, SideError};
use std::alloc::{AllocError, Global};
use user_names::UserNo;

/// How many users there are.
const USERS: u8 = 64;

/// How many frames all users share: the fewest that a system has.
const FRAMES: u32 = 16;

/// How many slots for the other pages.
const SLOTS: u32 = 1024;

/// How many events come after the programs were typed.
const EVENTS: u32 = 20_000;

/// How many pieces of code a program has.
const PIECES_EACH: u32 = 40;

/// What happens to a user.
#[derive(Clone, Copy)]
enum CheckEvent {
    /// Its machine runs for so many units.
    Run(u32),
    /// Its operator types this.
    Line(&'static str),
    /// Its timer ticks.
    Tick,
}

/// Draws the next event: one in eight is a typed line, one in eight a tick, and the others are runs
/// of 1 to 7 units.
fn next_happening(sequence: &mut Sequence) -> CheckEvent {
    match sequence.next_number() % 8 {
        0 => CheckEvent::Line(sequence.pick(&TYPED)),
        1 => CheckEvent::Tick,
        _ => CheckEvent::Run(sequence.next_number() % 7 + 1),
    }
}

/// Draws the user to whom the next event happens from a sequence.
fn next_user(sequence: &mut Sequence) -> UserNo {
    UserNo::new((sequence.next_number() % 64) as u8)
}

/// Returns the directory of all users, who have 8 KiB each.
fn directory(alloc: Global) -> Result<String, AllocError> {
    let mut text = String::new(alloc);
    for number in 0..USERS {
        let line = format!(in alloc; "USER U{number} PW 8K\n")?;
        text.push_str(line.as_str())?;
    }
    Ok(text)
}

/// Types lines that store a user's program, of pieces by a sequence, from 400 on, and at its end a
/// branch to 400.
fn type_program(
    alloc: Global,
    machines: &mut SideBySide,
    user: UserNo,
    sequence: &mut Sequence,
) -> Result<()> {
    let mut address = 0x400usize;
    for _ in 0..PIECES_EACH {
        let piece = sequence.pick(&PIECES);
        let line = format!(in alloc; "STORE {address:X} {piece}")?;
        machines.line(alloc, user, line.as_bytes())?;
        address = address.wrapping_add(piece.len() / 2);
    }
    let line = format!(in alloc; "STORE {address:X} 47F00400")?;
    machines.line(alloc, user, line.as_bytes())?;
    Ok(())
}

/// Logs a user on, stores his data, registers and program, and starts his machine at 400.
fn begin(
    alloc: Global,
    machines: &mut SideBySide,
    user: UserNo,
    sequence: &mut Sequence,
) -> Result<()> {
    machines.line(alloc, user, b"LOGON")?;
    for line in DATA {
        machines.line(alloc, user, line.as_bytes())?;
    }
    for register in 0..16u32 {
        let value = sequence.next_number();
        let line = format!(in alloc; "STORE G{register} {value:08X}")?;
        machines.line(alloc, user, line.as_bytes())?;
    }
    type_program(alloc, machines, user, sequence)?;
    machines.line(alloc, user, b"BEGIN 400")?;
    Ok(())
}

/// Returns all users, who are off.
fn all_users(alloc: Global) -> Result<SideBySide> {
    let Some(sizes) = Sizes::new(FRAMES, SLOTS) else {
        bail!("{FRAMES} frames or {SLOTS} slots are too many");
    };
    let directory = directory(alloc)?;
    Ok(SideBySide::boot(alloc, directory.as_bytes(), sizes)?)
}

/// Compares registers, PSW, mode, storage and keys of all users, and how many lines their consoles
/// have printed.
fn compare_all(machines: &SideBySide) -> Result<(), SideError> {
    for number in 0..64u8 {
        let user = UserNo::new(number);
        machines.compare_registers(user)?;
        machines.compare_storage(user)?;
    }
    Ok(())
}

/// Lets an event happen to a user, and compares his new lines and the views of all users.
fn apply_event(
    alloc: Global,
    machines: &mut SideBySide,
    user: UserNo,
    what: CheckEvent,
) -> Result<(), SideError> {
    let printed = machines.bare(user)?.printed();
    match what {
        CheckEvent::Run(units) => {
            machines.run(user, units)?;
        }
        CheckEvent::Line(typed) => {
            machines.line(alloc, user, typed.as_bytes())?;
        }
        CheckEvent::Tick => machines.tick(user)?,
    }
    machines.compare_console(user, printed)?;
    compare_all(machines)
}

/// Starts all users' machines, lets all events happen with all views compared after each, and at
/// the end compares all lines.
fn play_on(alloc: Global, machines: &mut SideBySide) -> Result<()> {
    let mut sequence = Sequence::new(370);
    for number in 0..64u8 {
        begin(alloc, machines, UserNo::new(number), &mut sequence)?;
    }
    for event in 0..EVENTS {
        let user = next_user(&mut sequence);
        let what = next_happening(&mut sequence);
        apply_event(alloc, machines, user, what).context(format_args!("after event {event}"))?;
    }
    for number in 0..64u8 {
        machines.compare_console(UserNo::new(number), 0)?;
    }
    Ok(())
}

/// Plays all events on new machines, and compares all views after each.
fn play_all(alloc: Global) -> Result<()> {
    let mut machines = all_users(alloc)?;
    play_on(alloc, &mut machines)
}

/// Plays all events on new machines and prints how many there were, or fails at the first after
/// which a view differs.
pub fn play<R: AllocGlobal + Print>(rt: &R) -> Result<()> {
    play_all(rt.alloc())?;
    println!(rt; "{EVENTS} events: all views of {USERS} users agree after each")?;
    Ok(())
}
