//! The machines, and the events that are for one of them alone.
use crate::disks::disks_of;
use crate::view::{SideError, View};
use bare_installation::Bare;
use ckd_volume::Volume;
use cp_console::responses::Response;
use cp_core::{Event, Sizes, System};
use cp_directory::{User, UserDevices, read_directory};
use machine_devices::{Delivered, Ended, Places, Reply, UserResponse};
use s370_intr::{Ran, Reason};
use s370_num::DevAddr;
use s370_store::PlainStorage;
use std::alloc::Global;
use user_names::UserNo;

/// A user's bare machine.
#[derive(Drop)]
pub(crate) struct Beside {
    pub(crate) bare: Bare,
}

/// A system, and for each of its users a bare machine with a storage of the same size and the same
/// devices.
#[derive(Drop)]
pub struct SideBySide {
    pub(crate) system: System,
    pub(crate) machines: Vec<Beside>,
    /// How many files there were so far.
    pub(crate) files: u64,
    pub(crate) out_of_frames: u64,
    pub(crate) delivered: Option<Delivered>,
}

/// Returns a user's addresses of console, reader, punch and printer, as a machine has them.
fn places_in(devices: UserDevices) -> Places {
    Places {
        console: devices.console,
        reader: devices.reader,
        punch: devices.punch,
        printer: devices.printer,
    }
}

/// Returns the bare machine of a user, with disks that have copies of the cylinders of his
/// minidisks.
fn machine_of(alloc: Global, user: &User, volumes: &[Volume]) -> Result<Bare, SideError> {
    let storage = PlainStorage::new(alloc, user.storage().blocks())?;
    let disks = disks_of(alloc, user, volumes)?;
    Ok(Bare::new(alloc, storage, places_in(user.devices()), disks)?)
}

/// Returns a new bare machine for each user.
fn machines_of(
    alloc: Global,
    users: &[User],
    volumes: &[Volume],
) -> Result<Vec<Beside>, SideError> {
    let mut machines = Vec::new(alloc);
    for user in users {
        machines.push(Beside {
            bare: machine_of(alloc, user, volumes)?,
        })?;
    }
    Ok(machines)
}

/// Returns the reply to an event that ended so, shows this, adds so many lines to the console and
/// delivers nothing.
pub(crate) fn reply(ended: Ended, said: UserResponse, lines: usize) -> Reply {
    Reply {
        ended,
        said,
        lines,
        delivered: None,
    }
}

/// Returns an error that names this view, unless `is_same` is true.
pub(crate) fn same(is_same: bool, view: View) -> Result<(), SideError> {
    if is_same {
        Ok(())
    } else {
        Err(SideError::Differs(view))
    }
}

/// Returns how many units were done if frames ran out, else how many were asked for.
fn units_of(asked: u32, ended: Ended) -> u32 {
    match ended {
        Ended::Ran(ran) if ran.reason == Reason::FramesOut => ran.units,
        _ => asked,
    }
}

impl SideBySide {
    /// Returns the system of a directory without minidisks and a bare machine for each user, all
    /// off.
    pub fn boot(alloc: Global, directory: &[u8], sizes: Sizes) -> Result<SideBySide, SideError> {
        SideBySide::boot_on(alloc, directory, Vec::new(alloc), sizes)
    }

    /// Returns the system of a directory with minidisks on these volumes and a bare machine for
    /// each user, all off.
    pub fn boot_on(
        alloc: Global,
        directory: &[u8],
        volumes: Vec<Volume>,
        sizes: Sizes,
    ) -> Result<SideBySide, SideError> {
        let directory = read_directory(alloc, directory)?;
        let machines = machines_of(alloc, directory.users(), &volumes)?;
        let Ok(system) = System::boot(alloc, directory, volumes, sizes) else {
            return Err(SideError::NotBooted);
        };
        Ok(SideBySide {
            system,
            machines,
            files: 0,
            out_of_frames: 0,
            delivered: None,
        })
    }

    /// Returns the bare machine of a user; an error if there is no such user.
    pub fn bare(&self, user: UserNo) -> Result<&Bare, SideError> {
        match self.machines.get(user.index()) {
            Some(other_users) => Ok(&other_users.bare),
            None => Err(SideError::NoSuchUser),
        }
    }

    /// Borrows the bare machine of a user for changes; an error if there is no such user.
    pub(crate) fn bare_mut(&mut self, user: UserNo) -> Result<&mut Bare, SideError> {
        match self.machines.get_mut(user.index()) {
            Some(other_users) => Ok(&mut other_users.bare),
            None => Err(SideError::NoSuchUser),
        }
    }

    /// Returns how many files have got a number so far.
    pub fn files(&self) -> u64 {
        self.files
    }

    /// Returns what the last event delivered, and to whom, if it delivered anything.
    pub fn delivered(&self) -> Option<Delivered> {
        self.delivered
    }

    /// Returns how many events were out of frames.
    pub fn out_of_frames(&self) -> u64 {
        self.out_of_frames
    }

    /// Returns how many pages have been paged in so far.
    pub fn page_ins(&self) -> u64 {
        self.system.page_ins()
    }

    /// Returns whether an event was out of frames, counts it then, and drops what the last event
    /// delivered; an error if the reply of such an event has anything else.
    pub(crate) fn count_out_of_frames(&mut self, answered: Reply) -> Result<bool, SideError> {
        self.delivered = None;
        // The prover finds what a reply may hold only where a function names it.
        let _delivered: Option<Delivered> = answered.delivered;
        if answered.ended != Ended::FramesOut {
            return Ok(false);
        }
        self.out_of_frames = self.out_of_frames.saturating_add(1);
        let nothing = reply(Ended::FramesOut, UserResponse::Nothing, 0);
        same(answered == nothing, View::Answer)?;
        Ok(true)
    }

    /// Lets a user's machine in the system and his bare one run for so many units, compares the
    /// replies, and returns how many were done and why it ended.
    pub fn run(&mut self, user: UserNo, units: u32) -> Result<Ran, SideError> {
        let answered = self.system.apply(&Event::Run(user, units))?;
        let _is_out = self.count_out_of_frames(answered)?;
        let asked = units_of(units, answered.ended);
        let bare = self.bare_mut(user)?;
        let before = bare.printed();
        let reported = bare.units(asked);
        let lines = bare.printed().saturating_sub(before);
        let Ended::Ran(ran) = answered.ended else {
            return Err(SideError::Differs(View::Answer));
        };
        if ran.reason == Reason::FramesOut {
            self.out_of_frames = self.out_of_frames.saturating_add(1);
            same(ran.units == reported.ran.units, View::Answer)?;
            let wanted = reply(answered.ended, UserResponse::Nothing, lines);
            same(answered == wanted, View::Answer)?;
            return Ok(ran);
        }
        let wanted = reply(
            Ended::Ran(reported.ran),
            UserResponse::of(reported.notice),
            lines,
        );
        same(answered == wanted, View::Answer)?;
        Ok(ran)
    }

    /// Steps the timers of a user's machine in the system and of his bare one, and compares the
    /// replies.
    pub fn tick(&mut self, user: UserNo) -> Result<(), SideError> {
        let answered = self.system.apply(&Event::Tick(user))?;
        if self.count_out_of_frames(answered)? {
            return Ok(());
        }
        self.bare_mut(user)?.tick();
        // The prover finds what a reply may hold only where a function names it.
        let silence: Option<Response> = None;
        let wanted = reply(Ended::Done, UserResponse::of(silence), 0);
        same(answered == wanted, View::Answer)
    }

    /// Serves the device of this address of a user's machine in the system and of his bare one,
    /// compares the replies, and returns whether it had a program.
    ///
    /// If the system is out of frames, only the system is asked, and false is returned.
    pub fn serve(&mut self, user: UserNo, device: DevAddr) -> Result<bool, SideError> {
        let answered = self.system.apply(&Event::Serve(user, device))?;
        if self.count_out_of_frames(answered)? {
            return Ok(false);
        }
        let bare = self.bare_mut(user)?;
        let before = bare.printed();
        let done = bare.serve(device)?;
        let lines = bare.printed().saturating_sub(before);
        // The prover finds what a reply may hold only where a function names it.
        let silence: Option<Response> = None;
        let wanted = reply(Ended::Served(done), UserResponse::of(silence), lines);
        same(answered == wanted, View::Answer)?;
        Ok(done)
    }
}
