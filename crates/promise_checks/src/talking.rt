//! Sixteen users who talk, punch cards for each other, log off and on, next to sixteen bare
//! machines.
//!
//! The events come in the order of a fixed sequence of numbers: runs, serves of all devices, ticks,
//! decks of the operator, and lines by which users change their channel programs, send messages and
//! cards, and work with their files. After each event every view of the user whom it names, and of
//! him to whom it delivers something, has to be that of the bare machine that was given his own
//! events and what was delivered to him; after each hundred events, and at the end, those of all
//! users. All of it happens twice: with room for all pages, and with so few frames and slots that
//! events are out of frames.
use crate::guest::READY;
use crate::happening::{CheckEvent, USERS, channel_of, next_happening, ready_line};
use anyhow::{Context, Result, bail};
use cp_core::Sizes;
use machine_devices::{Delivery, is_logged_on};
use s370_num::DevAddr;
use side_by_side::{Sequence, SideBySide, SideError};
use std::alloc::{AllocError, Global};
use user_names::UserNo;

/// How many events there are.
const EVENTS: u32 = 20_000;

/// After so many events the views of all users are compared.
const SOME: u32 = 100;

/// The sizes of storage that users have, in turn.
const STORAGES: [&str; 4] = ["8K", "12K", "16K", "32K"];

/// What came about.
#[derive(Clone, Copy)]
struct Counts {
    messages: u64,
    decks: u64,
    served: u64,
}

/// The users with their machines.
#[derive(Drop)]
struct Talkers {
    machines: SideBySide,
    sequence: Sequence,
    /// Of each user, how many of the lines are typed that make his machine ready.
    ready: [usize; USERS as usize],
    counts: Counts,
}

/// Returns the directory of all users, each with console, reader, punch and printer.
fn directory(alloc: Global) -> Result<String, AllocError> {
    let mut text = String::new(alloc);
    for number in 0..USERS {
        let storage = STORAGES[usize::from(number % 4)];
        let user = format!(in alloc; "USER U{number} PW {storage}\n")?;
        text.push_str(user.as_str())?;
        let channel = channel_of(UserNo::new(number));
        let devices = format!(in alloc; "CONSOLE {channel}09 3215\nSPOOL {channel}0C READER\n")?;
        text.push_str(devices.as_str())?;
        let output = format!(in alloc; "SPOOL {channel}0D PUNCH\nSPOOL {channel}0E PRINTER\n")?;
        text.push_str(output.as_str())?;
    }
    Ok(text)
}

impl Talkers {
    /// Returns all users, who are off, on so many frames and slots.
    fn boot(alloc: Global, frames: u32, slots: u32) -> Result<Talkers> {
        let Some(sizes) = Sizes::new(frames, slots) else {
            bail!("{frames} frames or {slots} slots are too many");
        };
        Ok(Talkers {
            machines: SideBySide::boot(alloc, directory(alloc)?.as_bytes(), sizes)?,
            sequence: Sequence::new(370),
            ready: [0; USERS as usize],
            counts: Counts {
                messages: 0,
                decks: 0,
                served: 0,
            },
        })
    }

    /// Lets the next event happen to some user, and compares his views, and those of the user to
    /// whom it delivered something.
    fn next_event(&mut self, alloc: Global) -> Result<()> {
        let user = UserNo::new((self.sequence.next_number() % u32::from(USERS)) as u8);
        let printed = self.machines.bare(user)?.printed();
        if self.is_getting_ready(user)? {
            self.get_ready(alloc, user)?;
        } else {
            let files = self.machines.files();
            let what = next_happening(alloc, &mut self.sequence, user, files)?;
            self.apply_event(alloc, user, what)?;
        }
        self.compare_after(user, printed)?;
        if let Some(delivered) = self.machines.delivered() {
            self.machines.compare(delivered.to)?;
        }
        Ok(())
    }

    /// Compares a user's views but those of disks; of the lines that his console has printed, only
    /// those from `printed` on.
    fn compare_after(&self, user: UserNo, printed: usize) -> Result<(), SideError> {
        self.machines.compare_registers(user)?;
        self.machines.compare_console(user, printed)?;
        self.machines.compare_storage(user)?;
        self.machines.compare_devices(user)
    }

    /// Returns whether a user's next event is a line that makes his machine ready: mostly so, by
    /// the sequence, if not all of them were typed; if he is off, they begin anew.
    fn is_getting_ready(&mut self, user: UserNo) -> Result<bool> {
        if !is_logged_on(self.machines.bare(user)?.mode()) {
            self.ready[user.index() % 16] = 0;
        }
        let is_ready = self.ready[user.index() % 16] >= READY.len();
        Ok(!is_ready && self.sequence.next_number() % 4 != 0)
    }

    /// Types the next line that makes a user's machine ready, and counts it, unless it was out of
    /// frames.
    fn get_ready(&mut self, alloc: Global, user: UserNo) -> Result<()> {
        let place = self.ready[user.index() % 16];
        let before = self.machines.out_of_frames();
        let what = ready_line(alloc, user, place)?;
        self.apply_event(alloc, user, what)?;
        if self.machines.out_of_frames() == before {
            self.ready[user.index() % 16] = place.saturating_add(1);
        }
        Ok(())
    }

    /// Lets an event happen to a user, and counts what it delivered or served.
    fn apply_event(
        &mut self,
        alloc: Global,
        user: UserNo,
        what: CheckEvent,
    ) -> Result<(), SideError> {
        match what {
            CheckEvent::Run(units) => {
                self.machines.run(user, units)?;
            }
            CheckEvent::Serve(device) => self.serve(user, device)?,
            CheckEvent::Tick => self.machines.tick(user)?,
            CheckEvent::Deck(cards) => self.machines.deck(alloc, user, &cards)?,
            CheckEvent::Transfer(id, to) => {
                self.machines.transfer(alloc, user, id, to)?;
                self.count_delivered();
            }
            CheckEvent::Line(typed) => {
                self.machines.line(alloc, user, typed.as_bytes())?;
                self.count_delivered();
            }
        }
        Ok(())
    }

    /// Serves a device of a user, and counts it if there was a program.
    fn serve(&mut self, user: UserNo, device: DevAddr) -> Result<(), SideError> {
        if self.machines.serve(user, device)? {
            self.counts.served = self.counts.served.saturating_add(1);
        }
        Ok(())
    }

    /// Counts the message or the deck that the last line delivered, if it delivered one.
    fn count_delivered(&mut self) {
        match self.machines.delivered() {
            Some(delivered) => match delivered.what {
                Delivery::Message(_) => self.counts.messages = self
                    .counts
                    .messages
                    .saturating_add(1),
                Delivery::Deck(_) => self.counts.decks = self.counts.decks.saturating_add(1),
            },
            None => {}
        }
    }

    /// Compares all views of all users.
    fn compare_all(&self) -> Result<(), SideError> {
        for number in 0..USERS {
            self.machines.compare(UserNo::new(number))?;
        }
        Ok(())
    }

    /// Lets all events happen one after another, compares views after each, and those of all users
    /// after each hundred and at the end.
    fn play(&mut self, alloc: Global) -> Result<()> {
        for event in 0..EVENTS {
            self.next_event(alloc)
                .context(format_args!("after event {event}"))?;
            if event % SOME == 0 {
                self.compare_all()
                    .context(format_args!("of all, after event {event}"))?;
            }
        }
        self.compare_all().context("at the end")
    }
}

/// Plays all events on so many frames and slots, and returns what was counted, and how many events
/// were out of frames.
fn played(alloc: Global, frames: u32, slots: u32) -> Result<(Counts, u64)> {
    let mut talkers = Talkers::boot(alloc, frames, slots)?;
    talkers.play(alloc)?;
    Ok((talkers.counts, talkers.machines.out_of_frames()))
}

/// Plays all events twice, with many and with few frames, and prints what was counted, or fails at
/// the first event after which a view differs.
pub fn play<R: AllocGlobal + Print>(rt: &R) -> Result<()> {
    for (frames, slots) in [(64, 256), (16, 24)] {
        let (counts, out) = played(rt.alloc(), frames, slots).context(format_args!(
            "on {frames} frames and {slots} slots"
        ))?;
        let Counts {
            messages,
            decks,
            served,
        } = counts;
        println!(rt;
            "{frames} frames: {messages} messages, {decks} decks, {served} serves, {out} out of frames"
        )?;
    }
    Ok(())
}
