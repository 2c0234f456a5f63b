//! What is compared of a user and his bare machine.
use crate::devices::{compare_console_device, compare_printer, compare_punch, compare_reader};
use crate::disks::compare_disk;
use crate::machines::{SideBySide, same};
use crate::view::{SideError, View};
use s370_store::BLOCK_SIZE;
use user_names::UserNo;

impl SideBySide {
    /// Compares all views of a user, with all bytes of storage and the whole console, with those of
    /// his bare machine; the error is the first view that differs.
    pub fn compare(&self, user: UserNo) -> Result<(), SideError> {
        self.compare_registers(user)?;
        self.compare_console(user, 0)?;
        self.compare_storage(user)?;
        self.compare_devices(user)?;
        self.compare_disks(user)
    }

    /// Compares a user's registers, PSW, mode, what is pending and how many lines were printed with
    /// those of his bare machine; the error is the first view that differs.
    pub fn compare_registers(&self, user: UserNo) -> Result<(), SideError> {
        let bare = self.bare(user)?;
        let system = &self.system;
        let general = system.registers(user) == Some(*bare.general());
        same(general, View::General)?;
        let control = system.control(user) == Some(*bare.control());
        same(control, View::Control)?;
        same(system.psw(user) == Some(bare.psw()), View::Psw)?;
        same(system.mode(user) == Some(bare.mode()), View::Mode)?;
        let pending = system.pending(user) == Some(bare.pending());
        same(pending, View::Pending)?;
        let printed = system.printed(user) == Some(bare.printed());
        same(printed, View::Console)
    }

    /// Compares the lines that a user's console has printed, from `first` on, with those of his
    /// bare machine; the error is that they differ.
    pub fn compare_console(&self, user: UserNo, first: usize) -> Result<(), SideError> {
        let bare = self.bare(user)?;
        for line in first..bare.printed() {
            let is_same = self.system.console_output(user, line) == bare.console_output(line);
            same(is_same, View::Console)?;
        }
        Ok(())
    }

    /// Compares the bytes of a user's storage and its keys with those of his bare machine; the
    /// error is the first view that differs.
    pub fn compare_storage(&self, user: UserNo) -> Result<(), SideError> {
        let bare = self.bare(user)?;
        let mut address = 0u32;
        for byte in bare.storage() {
            same(
                self.system.storage(user, address) == Some(*byte),
                View::Storage,
            )?;
            address = address.wrapping_add(1);
        }
        same(self.system.storage(user, address).is_none(), View::Storage)?;
        self.compare_keys(user, address / BLOCK_SIZE)
    }

    /// Compares a user's subchannels and devices, with their lines, decks and files, with those of
    /// his bare machine; the error is the first view that differs.
    pub fn compare_devices(&self, user: UserNo) -> Result<(), SideError> {
        let bare = self.bare(user)?;
        let Some(subchannels) = self.system.subchannels(user) else {
            return Err(SideError::NoSuchUser);
        };
        same(subchannels == bare.subchannels(), View::Subchannels)?;
        let Some(devices) = self.system.spool(user) else {
            return Err(SideError::NoSuchUser);
        };
        compare_console_device(devices.console(), bare.devices().console())?;
        compare_reader(&devices, &bare.devices())?;
        compare_punch(&devices, &bare.devices())?;
        compare_printer(&devices, &bare.devices())?;
        let target = devices.target() == bare.devices().target();
        same(target, View::Punch)
    }

    /// Compares a user's minidisks, their arms, sense and tracks, with the disks of his bare
    /// machine; the error is the first view that differs.
    pub fn compare_disks(&self, user: UserNo) -> Result<(), SideError> {
        for disk in self.bare(user)?.disks() {
            match self.system.minidisk(user, disk.address()) {
                Some(seen) => compare_disk(&seen, disk.unit())?,
                None => return Err(SideError::Differs(View::Arm)),
            }
        }
        Ok(())
    }
}
