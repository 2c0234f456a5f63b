//! Scripts of commands, with runs, serves, ticks and decks between them.
use crate::spelling::next_line;
use anyhow::{Result, bail};
use ckd_volume::Volume;
use cp_core::Sizes;
use s370_num::DevAddr;
use side_by_side::{Sequence, SideBySide, SideError, View};
use std::alloc::{AllocError, Global};
use unit_record::Card;
use user_names::UserNo;

/// How many scripts there are, and how many events each has.
const SCRIPTS: u32 = 2000;

const EVENTS: u32 = 24;

/// How many users there are.
const USERS: u32 = 4;

/// Two users with all kinds of devices, one who reads the disk of the first, and one without
/// devices. They have 21 pages of storage.
const DIRECTORY: &str =
    "USER A PW 24K\nCONSOLE 009 3215\nSPOOL 00C READER\nSPOOL 00D PUNCH\nSPOOL 00E PRINTER\n\
    MDISK 190 3330 0 1 SHARED R\nUSER B PW 32K\nCONSOLE 009 3215\nSPOOL 00C READER\nSPOOL 00D PUNCH\n\
    SPOOL 00E PRINTER\nMDISK 191 3330 1 1 SHARED W\nUSER C PW 16K\nSPOOL 00C READER\nSPOOL 10D PUNCH\n\
    MDISK 190 3330 0 1 SHARED R\nUSER DISKLESS PW 12K\n";

/// The devices that are served.
const DEVICES: [u32; 7] = [0x009, 0x00C, 0x00C, 0x00D, 0x00E, 0x190, 0x191];

/// How a card for a loading begins: a PSW, and a word that reads the next card over the words after
/// it.
const LOADER: [u8; 24] = [
    0xFF, 0, 0, 0, 0, 0, 0x02, 0, 0x02, 0, 0x02, 0, 0x60, 0, 0, 0x50, 0x02, 0, 0x08, 0, 0x20, 0, 0,
    0x50,
];

/// What is in storage of those who are first logged on: the code starts reader and punch again and
/// again.
const READY: [&str; 6] = [
    "LOGON",
    "STORE 48 00000800",
    "STORE 200 9C00000C9D00000C9C00000D9D00000D",
    "STORE 210 47F00200",
    "STORE 800 02000900600000500100090020000050",
    "BEGIN 200",
];

/// Returns a volume of two cylinders, each of which has a record on its first track to be loaded
/// from.
fn volume(alloc: Global) -> Result<Volume> {
    let mut volume = Volume::blank(alloc, *b"SHARED", 2)?;
    for cylinder in 0..2usize {
        if let Some(track) = volume.track_mut(cylinder, 0) {
            track.set_home([0; 5]);
            track.push([0, 0, 0, 0, 1], b"", &LOADER)?;
        }
    }
    Ok(volume)
}

/// Returns the users of the directory, who are off, on 16 frames and 3 slots.
fn booted(alloc: Global) -> Result<SideBySide> {
    let Some(sizes) = Sizes::new(16, 3) else {
        bail!("too many frames");
    };
    let volumes = vec![in alloc; volume(alloc)?]?;
    Ok(SideBySide::boot_on(alloc, DIRECTORY.as_bytes(), volumes, sizes)?)
}

/// Types for each user the first lines of those that make a machine ready, from none to all.
fn make_ready(
    alloc: Global,
    sequence: &mut Sequence,
    machines: &mut SideBySide,
) -> Result<(), SideError> {
    for number in 0..4u8 {
        let lines = sequence.below(7) as usize;
        for line in READY.iter().take(lines) {
            machines.line(alloc, UserNo::new(number), line.as_bytes())?;
        }
    }
    Ok(())
}

/// Draws the next cards from a sequence: none to two, each of which begins as one for a loading.
fn next_cards(alloc: Global, sequence: &mut Sequence) -> Result<Vec<Card>, AllocError> {
    let mut cards = Vec::new(alloc);
    for _card in 0..sequence.below(3) {
        let mut card = [0x40; 80];
        for (to, from) in card.iter_mut().zip(LOADER.iter()) {
            *to = *from;
        }
        card[24] = (sequence.below(256)) as u8;
        cards.push(card)?;
    }
    Ok(cards)
}

/// Lets the next event of a sequence happen to a user: a tick, a deck, a run, a serve or a line.
fn next_event(
    alloc: Global,
    sequence: &mut Sequence,
    machines: &mut SideBySide,
    user: UserNo,
) -> Result<(), SideError> {
    match sequence.below(16) {
        0 => machines.tick(user),
        1 => machines.deck(alloc, user, &next_cards(alloc, sequence)?),
        2 | 3 => run(machines, user, sequence.below(40)),
        4 | 5 => serve(machines, user, sequence.one_of(&DEVICES)),
        _ => type_line(alloc, machines, user, next_line(alloc, sequence)?),
    }
}

/// Lets a user's machine run for so many units.
fn run(machines: &mut SideBySide, user: UserNo, units: u32) -> Result<(), SideError> {
    let _ran = machines.run(user, units)?;
    Ok(())
}

/// Serves the device of this address of a user, if he has it.
fn serve(machines: &mut SideBySide, user: UserNo, device: u32) -> Result<(), SideError> {
    let device = DevAddr::new((device % 0x600) as u16);
    let subchannels = machines.bare(user)?.subchannels();
    if !subchannels.iter().any(|one| one.address == device) {
        return Ok(());
    }
    let _is_done = machines.serve(user, device)?;
    Ok(())
}

/// Types a line for a user.
fn type_line(
    alloc: Global,
    machines: &mut SideBySide,
    user: UserNo,
    line: String,
) -> Result<(), SideError> {
    let _response = machines.line(alloc, user, line.as_bytes())?;
    Ok(())
}

/// Compares all views of a user except his disks, and printed lines only from index `printed` on.
fn look(machines: &mut SideBySide, user: UserNo, printed: usize) -> Result<(), SideError> {
    machines.compare_registers(user)?;
    machines.compare_console(user, printed)?;
    machines.compare_devices(user)?;
    machines.compare_pages(user)
}

/// Compares all views of all users; of the lines that a console has printed, only the last.
fn look_at_all(machines: &mut SideBySide) -> Result<(), SideError> {
    for number in 0..4u8 {
        let user = UserNo::new(number);
        let last = machines.bare(user)?.printed().saturating_sub(1);
        look(machines, user, last)?;
        machines.compare_disks(user)?;
    }
    Ok(())
}

/// Lets the next event of a sequence happen to a user, and compares his views, and those of the
/// user to whom it delivered something.
fn apply_event(
    alloc: Global,
    sequence: &mut Sequence,
    machines: &mut SideBySide,
    user: UserNo,
) -> Result<(), SideError> {
    let printed = machines.bare(user)?.printed();
    next_event(alloc, sequence, machines, user)?;
    look(machines, user, printed)?;
    match machines.delivered() {
        Some(delivered) => {
            let last = machines.bare(delivered.to)?.printed().saturating_sub(1);
            look(machines, delivered.to, last)
        }
        None => Ok(()),
    }
}

/// Plays a script: after each event it compares the views of the users whom it concerns, and after
/// each eighth those of all.
fn play(
    alloc: Global,
    sequence: &mut Sequence,
    machines: &mut SideBySide,
) -> Result<(), SideError> {
    make_ready(alloc, sequence, machines)?;
    for event in 1..=EVENTS {
        let user = UserNo::new(sequence.below(USERS) as u8);
        apply_event(alloc, sequence, machines, user)?;
        if event % 8 == 0 {
            look_at_all(machines)?;
        }
    }
    Ok(())
}

/// Plays the script of this number, and returns the first view that differs, if one does.
fn difference(alloc: Global, script: u32) -> Result<Option<View>> {
    let mut machines = booted(alloc)?;
    match play(alloc, &mut Sequence::new(u64::from(script)), &mut machines) {
        Ok(()) => Ok(None),
        Err(SideError::Differs(view)) => Ok(Some(view)),
        Err(error) => Err(error.into()),
    }
}

/// Plays all scripts, and prints those in which users and bare machines differ, and how many agree.
pub fn play_all<R: AllocGlobal + Print>(rt: &R) -> Result<()> {
    let mut agreed = 0u32;
    for script in 1..=SCRIPTS {
        match difference(rt.alloc(), script)? {
            None => agreed = agreed.wrapping_add(1),
            Some(view) => println!(rt; "script {script}: not the same: {view}")?,
        }
    }
    println!(rt; "commands: {agreed} of {SCRIPTS} scripts agree")?;
    Ok(())
}
