//! IPL, which the owner of a machine does for it.
ghost use Rattle.std.specs.Prelude.{◌≡◌, ◌<◌, ◌≤◌, Some, length};
ghost use Rattle.machine_devices.specs.Devices.{kind_in};
ghost use Rattle.machine_devices.specs.Lines.{ipl_told};
ghost use Rattle.machine_devices.specs.declared.places.AttachedDevice.TheVariants as kinds;
ghost use Rattle.machine_devices.specs.Borrowed.{LoadEnds, borrowed};

use crate::devices::Devices;
use crate::feeding::load_fed;
use crate::line::LineOutcome;
use crate::loading::start_loaded;
use crate::places::AttachedDevice;
use cp_console::responses::Response;
use cp_spool::Queues;
use machine_channels::Channels;
use machine_panel::{LineError, Machine};
use s370_channel::ChannelError;
use s370_num::DevAddr;
use s370_store::Storage;

/// Returns the outcome of an IPL: silent if it went well, else the response that it failed.
fn loaded(well: bool) -> LineOutcome
    ensures { result ≡ ipl_told well }
{
    if well {
        LineOutcome::Silent
    } else {
        LineOutcome::Said(Response::IplFailed)
    }
}

impl Devices {
    /// Does IPL: loads the machine from the reader or the disk at this address, and starts it if
    /// that ends well; else, or at any other address, the outcome says why not.
    ///
    /// If the channels are whole and there is no room for a page that this needs, nothing has
    /// happened but that such pages were paged in; else, with an error, nothing is said of the
    /// machine. Memory is taken only for a reader or a disk: where the channels are not whole, only
    /// for the answer and the notice of the machine's stop.
    pub(crate) fn ipl<S: Storage, C: Channels<S>>(
        &mut self,
        queues: &mut Queues,
        machine: &mut Machine,
        storage: &mut S,
        channels: &mut C,
        device: DevAddr,
    ) -> Result<LineOutcome, LineError>
        requires size { 8192 ≤ length (S.memory storage.old).bytes }
        requires user { self.old.user < length queues.old.users }
        requires ready { C.IsReady storage.old }
        ensures { let kind = kind_in self.old.places (C.disks channels.old) device in
            LoadEnds C.Channels.own C.Disks S.Storage kind device
            (borrowed self.old queues.old machine.old storage.old channels.old)
            (borrowed self.new queues.new machine.new storage.new channels.new) result }
    {
        match self.kind_at(channels, device.get()) {
            Some(AttachedDevice::Reader) => self.load_reader(
                queues, machine, storage, channels, device,
            ),
            Some(AttachedDevice::Disk(index)) => self.load_disk(
                queues, machine, storage, channels, device, index,
            ),
            _ => Ok(LineOutcome::Said(Response::DeviceNotFound)),
        }
    }

    /// Runs the loading program of the reader, and resets the other devices, the disks and the
    /// machine; then starts the machine, or prints that IPL failed if the program ended badly.
    fn load_reader<S: Storage, C: Channels<S>>(
        &mut self,
        queues: &mut Queues,
        machine: &mut Machine,
        storage: &mut S,
        channels: &mut C,
        device: DevAddr,
    ) -> Result<LineOutcome, LineError>
        requires size { 8192 ≤ length (S.memory storage.old).bytes }
        requires user { self.old.user < length queues.old.users }
        requires ready { C.IsReady storage.old }
        ensures { LoadEnds C.Channels.own C.Disks S.Storage (Some kinds.Reader) device
            (borrowed self.old queues.old machine.old storage.old channels.old)
            (borrowed self.new queues.new machine.new storage.new channels.new) result }
    {
        match machine.make_room(1) {
            Ok(()) => {}
            Err(_) => return Err(LineError::Memory),
        }
        let ending = match load_fed(&mut self.reader, queues, self.user, storage, channels) {
            Ok(ending) => ending,
            Err(ChannelError::Memory) => return Err(LineError::Memory),
            Err(ChannelError::Absent(_)) => return Err(LineError::FramesOut),
        };
        self.reset_except_reader();
        channels.reset_disks();
        machine.reset();
        match start_loaded(machine, storage, device, &ending) {
            Ok(well) => Ok(loaded(well)),
            // The page of the PSW is not present.
            Err(_) => Err(LineError::FramesOut),
        }
    }

    /// Resets the disks, runs the loading program of the one of this index, and resets the other
    /// devices and the machine; then starts the machine, or prints that IPL failed if the program
    /// ended badly.
    fn load_disk<S: Storage, C: Channels<S>>(
        &mut self,
        queues: &Queues,
        machine: &mut Machine,
        storage: &mut S,
        channels: &mut C,
        device: DevAddr,
        index: usize,
    ) -> Result<LineOutcome, LineError>
        requires size { 8192 ≤ length (S.memory storage.old).bytes }
        requires ready { C.IsReady storage.old }
        requires inside { index < length (C.disks channels.old) }
        ensures { LoadEnds C.Channels.own C.Disks S.Storage (Some (kinds.Disk index)) device
            (borrowed self.old queues.now machine.old storage.old channels.old)
            (borrowed self.new queues.now machine.new storage.new channels.new) result }
    {
        match machine.make_room(1) {
            Ok(()) => {}
            Err(_) => return Err(LineError::Memory),
        }
        let ending = match channels.load_disk(storage, index) {
            Ok(ending) => ending,
            Err(ChannelError::Memory) => return Err(LineError::Memory),
            Err(ChannelError::Absent(_)) => return Err(LineError::FramesOut),
        };
        self.reset();
        machine.reset();
        match start_loaded(machine, storage, device, &ending) {
            Ok(well) => Ok(loaded(well)),
            // The page of the PSW is not present.
            Err(_) => Err(LineError::FramesOut),
        }
    }
}
