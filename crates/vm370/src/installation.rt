//! The system as sessions know it.
ghost use Rattle.std.specs.Prelude.{◌≡◌, ◌<◌, ◌≤◌, length, slice_get};
ghost use Rattle.cp_core.specs.Stated.{states_device};
ghost use Rattle.user_names.specs.Users.{name_of};
ghost use Rattle.sessions.specs.Installed.{names_of};
ghost use Rattle.vm370.specs.Goes.{known_users, seen_in, system_goes};

use cp_core::{CpError, System, one_by_saved, printed_lines_do_not_matter};
use machine_devices::{
    Event, FileNote, Reply, SeenDevices, only_lines_turn, what_works_has_a_program,
};
use machine_panel::Mode;
use s370_num::DevAddr;
use s370_psw::Psw;
use s370_subchannels::Subchannel;
use saved_bytes::{Input, RestoreError};
use sessions::{Installation, Refused};
use std::alloc::{AllocError, Global};
use std::marker::Model;
use user_names::{UserNo, name_of};

/// The machines of many users, on one system.
#[derive(Drop)]
pub struct SharedMachines {
    system: System,
}

impl Model for SharedMachines {
    ghost use Rattle.cp_core.specs.System.{SystemView};

    ghost Value = { SystemView };

    ghost view = { λ m. m.system };
}

impl SharedMachines {
    /// Returns the installation of a system.
    pub fn new(system: System) -> SharedMachines
        ensures { result ≡ system }
    {
        SharedMachines { system }
    }

    /// Returns the system.
    pub fn system(&self) -> &System
        ensures { result.now ≡ self.now }
    {
        &self.system
    }

    /// Returns this user, who has to be one of the system's.
    fn place(&self, user: UserNo) -> UserNo
        requires { user < length (seen_in self.now).users }
        ensures user { result ≡ user }
        ensures machine { result < length self.now.users }
        ensures directory { result < length self.now.directory }
    {
        // There are as many machines as users of the directory.
        let _users = self.system.users();
        user
    }
}

impl Installation for SharedMachines {
    ghost goes = { system_goes };

    /// Returns how many users the system has.
    fn users(&self) -> usize {
        users_of(&self.system)
    }

    /// Returns the name of a user; empty if there is no such user.
    fn name(&self, user: UserNo) -> &[u8] {
        name_in(&self.system, user)
    }

    /// Returns whether the directory gives a user a device or a minidisk of this address.
    fn has_device(&self, user: UserNo, address: u16) -> bool {
        states_device(&self.system, user, DevAddr::new(address))
    }

    /// Returns whether a user's machine is on, and whether it runs.
    fn mode(&self, user: UserNo) -> Mode {
        match self.system.mode(self.place(user)) {
            Some(mode) => mode,
            None => unreachable!(),
        }
    }

    /// Returns whether a user's machine is ready for a slice.
    fn is_ready(&self, user: UserNo) -> bool {
        self.system.is_ready(user)
    }

    /// Returns the PSW of a user's machine.
    fn psw(&self, user: UserNo) -> Psw {
        match self.system.psw(self.place(user)) {
            Some(psw) => psw,
            None => unreachable!(),
        }
    }

    /// Returns the general registers of a user's machine.
    fn registers(&self, user: UserNo) -> [u32; 16] {
        match self.system.registers(self.place(user)) {
            Some(registers) => registers,
            None => unreachable!(),
        }
    }

    /// Returns a byte of a user's storage, also of a page that is in no frame; None past the last.
    fn storage_byte(&self, user: UserNo, address: u32) -> Option<u8> {
        self.system.storage(user, address)
    }

    /// Returns the subchannels of a user's machine.
    fn subchannels(&self, user: UserNo) -> &[Subchannel] {
        match self.system.subchannels(self.place(user)) {
            Some(list) => list,
            None => unreachable!(),
        }
    }

    /// Returns a user's console, reader, punch and printer, with their files.
    fn devices(&self, user: UserNo) -> SeenDevices<'_> {
        match self.system.spool(self.place(user)) {
            Some(devices) => devices,
            None => unreachable!(),
        }
    }

    /// Returns how many lines a user's console has printed since they were last dropped.
    fn printed(&self, user: UserNo) -> usize {
        match self.system.printed(self.place(user)) {
            Some(lines) => lines,
            None => unreachable!(),
        }
    }

    /// Returns a line that a user's console has printed; None past the last.
    fn console_output(&self, user: UserNo, line: usize) -> Option<&[u8]> {
        self.system.console_output(user, line)
    }

    /// Returns how many files have a number.
    fn files(&self) -> usize {
        self.system.files().len()
    }

    /// Returns the owner and the kind of the file of this place, from 0, if there is one.
    fn file(&self, place: usize) -> Option<FileNote> {
        self.system.files().get(place).copied()
    }

    /// Applies an event to the system, and returns the reply.
    fn apply_event(&mut self, _alloc: Global, event: &Event<'_>) -> Result<Reply, Refused> {
        // There are as many machines as users of the directory, before it and after it.
        let _users = self.system.users();
        match self.system.apply(event) {
            Ok(reply) => {
                let _users = self.system.users();
                Ok(reply)
            }
            Err(CpError::Memory) => Err(Refused::Memory),
            Err(CpError::Spent) => Err(Refused::Spent),
            Err(CpError::NoSuchUser) => unreachable!(),
            Err(CpError::NoSuchDevice) => unreachable!(),
        }
    }

    /// Drops the lines that the consoles of all users have printed.
    fn forget_printed(&mut self) {
        self.system.forget_printed();
    }

    /// Drops the entries of the closed files that have a number but of the first `since`.
    fn forget_files(&mut self, since: usize) {
        self.system.forget_files(since);
    }

    /// Appends the state of the system, and returns true.
    fn save(&self, out: &mut Vec<u8>) -> Result<bool, AllocError> {
        self.system.save(out)?;
        Ok(true)
    }

    /// Appends what the state has of one user, of the frames and of his storage, and returns true.
    fn save_user(&self, user: UserNo, out: &mut Vec<u8>) -> Result<bool, AllocError> {
        self.system.save_user(self.place(user), out)?;
        Ok(true)
    }

    /// Reads a state from the input, and returns this system with that state.
    fn restore(self, input: &mut Input<'_>) -> Result<SharedMachines, RestoreError> {
        let SharedMachines { system } = self;
        let system = system.restore(input)?;
        Ok(SharedMachines { system })
    }

    /// States that bytes are those of one state of a system, and that no event changes what it was
    /// booted from.
    fn one_by_saved() {
        one_by_saved();
    }

    /// States that an event turns no machine on or off but that of the user whom it names, and a run
    /// or a serve none; and that it starts no device but that user's.
    fn events_turn_their_own() {
        only_lines_turn();
        what_works_has_a_program();
    }

    /// States that lines that were printed before do not matter to what follows.
    fn printed_lines_do_not_matter() {
        printed_lines_do_not_matter();
    }
}

/// Returns how many users a system has.
fn users_of(system: &System) -> usize
    ensures value { result ≡ length (known_users system.now.directory) }
    ensures machines { result ≡ length system.now.users }
    ensures few { result ≤ 64 }
{
    system.users()
}

/// Returns the name of a user; empty if there is no such user.
fn name_in(system: &System, user: UserNo) -> &[u8]
    ensures { result.now ≡ name_of (names_of (seen_in system.now)) user }
{
    name_of(system.directory().users(), user)
}

/// Returns whether the directory gives a user a device or a minidisk of this address.
fn states_device(system: &System, user: UserNo, device: DevAddr) -> bool
    ensures { result ≡ states_device device (slice_get system.now.directory user) }
{
    match system.directory().users().get(user.index()) {
        Some(user) => user.has_device(device),
        None => false,
    }
}
