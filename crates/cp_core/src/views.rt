//! What is seen of a user's machine with its devices. No view takes memory; where there is no such
//! user the answer is `None`.
ghost use Rattle.std.specs.Prelude.{◌≡◌, ◌<◌, ◌↔◌, IfSome, IsSome, length, slice_get};
ghost use Rattle.std.specs.List.{find};
ghost use Rattle.std.specs.Option.{option_map};
ghost use Rattle.s370_subchannels.specs.Subchannels.{AreAscending};
ghost use Rattle.machine_channels.specs.Disks.{is_disk_at};
ghost use Rattle.cp_volumes.specs.Seen.{seen_disk};
ghost use Rattle.cp_core.specs.UserMachines.{seat_with, user_with};
ghost use Rattle.cp_core.specs.System.{machine_at, user_at};

use crate::system::System;
use crate::user_machine::UserMachine;
use cp_volumes::SeenDisk;
use machine_devices::SeenDevices;
use machine_panel::Mode;
use s370_intr::Pending;
use s370_num::{DevAddr, StorageKey};
use s370_psw::Psw;
use s370_subchannels::Subchannel;
use user_names::UserNo;

impl System {
    /// Returns a user's machine with its devices, but without the bytes of its storage; None if
    /// there is no such user.
    pub(crate) fn user(&self, user: UserNo) -> Option<&UserMachine>
        ensures some { IsSome result ↔ (user < length self.now.users) }
        ensures user { IfSome result
            (λ found. user_at self.now user
            ≡ user_with (seat_with (user_at self.now user).devices found.now) self.now.volumes
            (machine_at self.now user).core.processor.bytes) }
    {
        let place = user.index();
        if place >= self.users() {
            return None;
        }
        Some(&self.users[place])
    }

    /// Returns the general registers of a user's machine; None if there is no such user.
    pub fn registers(&self, user: UserNo) -> Option<[u32; 16]>
        ensures some { IsSome result ↔ (user < length self.now.users) }
        ensures value { IfSome result
            (λ general. general ≡ (machine_at self.now user).core.processor.cpu.general) }
    {
        match self.user(user) {
            Some(user) => Some(user.machine.cpu().general),
            None => None,
        }
    }

    /// Returns the control registers of a user's machine; None if there is no such user.
    pub fn control(&self, user: UserNo) -> Option<[u32; 16]>
        ensures some { IsSome result ↔ (user < length self.now.users) }
        ensures value { IfSome result
            (λ control. control ≡ (machine_at self.now user).core.processor.cpu.control) }
    {
        match self.user(user) {
            Some(user) => Some(user.machine.cpu().control),
            None => None,
        }
    }

    /// Returns the PSW of a user's machine; None if there is no such user.
    pub fn psw(&self, user: UserNo) -> Option<Psw>
        ensures some { IsSome result ↔ (user < length self.now.users) }
        ensures value { IfSome result
            (λ psw. psw ≡ (machine_at self.now user).core.processor.cpu.psw) }
    {
        match self.user(user) {
            Some(user) => Some(user.machine.cpu().psw),
            None => None,
        }
    }

    /// Returns whether a user's machine is on, and whether it runs; None if there is no such user.
    pub fn mode(&self, user: UserNo) -> Option<Mode>
        ensures some { IsSome result ↔ (user < length self.now.users) }
        ensures value { IfSome result (λ mode. mode ≡ (machine_at self.now user).mode) }
    {
        match self.user(user) {
            Some(user) => Some(user.machine.mode()),
            None => None,
        }
    }

    /// Returns the external conditions that are pending for a user's machine; None if there is no
    /// such user.
    pub fn pending(&self, user: UserNo) -> Option<Pending>
        ensures some { IsSome result ↔ (user < length self.now.users) }
        ensures value { IfSome result
            (λ pending. pending ≡ (machine_at self.now user).core.pending) }
    {
        match self.user(user) {
            Some(user) => Some(user.machine.pending()),
            None => None,
        }
    }

    /// Returns the subchannels of a user's devices, in the order of their addresses; None if there
    /// is no such user.
    ///
    /// Each has the state of its device, and the program that it was given or the status that is
    /// pending.
    pub fn subchannels(&self, user: UserNo) -> Option<&[Subchannel]>
        ensures some { IsSome result ↔ (user < length self.now.users) }
        ensures value { IfSome result
            (λ list. list.now ≡ (machine_at self.now user).core.subchannels) }
        ensures order { IfSome result (λ list. AreAscending list.now) }
    {
        match self.user(user) {
            Some(user) => Some(user.machine.subchannels()),
            None => None,
        }
    }

    /// Returns the storage key of a block of 2048 bytes of a user; None past his storage, or if
    /// there is no such user.
    pub fn key(&self, user: UserNo, block: u32) -> Option<StorageKey>
        ensures { result ≡ slice_get (machine_at self.now user).core.processor.keys block }
    {
        match self.user(user) {
            Some(user) => user.keys.get(block as usize).copied(),
            None => None,
        }
    }

    /// Returns a byte of a user's storage; None past it, or if there is no such user.
    pub fn storage(&self, user: UserNo, address: u32) -> Option<u8>
        ensures { result ≡ slice_get (machine_at self.now user).core.processor.bytes address }
    {
        if user.index() >= self.users() {
            return None;
        }
        self.frames.byte(user, address)
    }

    /// Returns how many lines a user's console has printed since they were last dropped; None if
    /// there is no such user.
    pub fn printed(&self, user: UserNo) -> Option<usize>
        ensures some { IsSome result ↔ (user < length self.now.users) }
        ensures value { IfSome result (λ lines. lines ≡ length (machine_at self.now user).output) }
    {
        match self.user(user) {
            Some(user) => Some(user.machine.printed()),
            None => None,
        }
    }

    /// Returns the text of a line that a user's console has printed; None past the last line, or if
    /// there is no such user.
    ///
    /// Unfinished and waiting lines are in the console of [`System::spool`].
    pub fn console_output(&self, user: UserNo, line: usize) -> Option<&[u8]>
        ensures { option_map (λ text. text.now) result
            ≡ slice_get (machine_at self.now user).output line }
    {
        match self.user(user) {
            Some(user) => user.machine.console_output(line),
            None => None,
        }
    }

    /// Returns a user's console, reader, punch and printer with their files; None if there is no
    /// such user.
    ///
    /// That is the reader's decks with their numbers, the open files of punch and printer, and
    /// those that they have closed, each with its target.
    pub fn spool(&self, user: UserNo) -> Option<SeenDevices<'_>>
        ensures some { IsSome result ↔ (user < length self.now.users) }
        ensures value { IfSome result (λ devices. devices ≡ (user_at self.now user).devices) }
    {
        let place = user.index();
        if place >= self.users() {
            return None;
        }
        Some(self.devices_of(place))
    }

    /// Returns a user's minidisk at this address, with its cylinders, its arm and its sense; None
    /// if he has none there, or if there is no such user.
    pub fn minidisk(&self, user: UserNo, device: DevAddr) -> Option<SeenDisk<'_>>
        ensures { option_map seen_disk result
            ≡ option_map (λ disk. disk.unit)
            (find (is_disk_at device) (user_at self.now user).disks) }
    {
        let user = self.user(user)?;
        self.volumes.seen(&user.minidisks, device)
    }
}
