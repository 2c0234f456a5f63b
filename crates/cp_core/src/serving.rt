//! A device of a user is served.
ghost use Rattle.std.specs.Prelude.{◌≡◌, ◌<◌, length, true};
ghost use Rattle.machine_devices.specs.Borrowed.{borrowed};
ghost use Rattle.cp_core.specs.Serving.{ServeSupplied};

use cp_spool::Queues;
use machine_channels::Channels;
use machine_devices::Devices;
use machine_panel::{LineError, Machine};
use s370_channel::ChannelError;
use s370_num::DevAddr;
use s370_store::Storage;

/// Runs the channel program that was started on a device, as a whole or not at all, and makes its
/// status pending; returns whether there was one.
pub(crate) fn serve_supplied<S: Storage, C: Channels<S>>(
    devices: &mut Devices,
    queues: &mut Queues,
    machine: &mut Machine,
    storage: &mut S,
    channels: &mut C,
    device: DevAddr,
) -> Result<bool, LineError>
    requires whole { C.is_whole ≡ true }
    requires ready { C.IsReady storage.old }
    requires owner { devices.old.user < length queues.old.users }
    ensures { ServeSupplied C.Channels.own C.Disks S.Storage device
        (borrowed devices.old queues.old machine.old storage.old channels.old)
        (borrowed devices.new queues.new machine.new storage.new channels.new) result }
{
    if machine.program(device).is_none() {
        return Ok(false);
    }
    match devices.serve(queues, machine, storage, channels, device) {
        Ok(done) => Ok(done),
        Err(ChannelError::Memory) => Err(LineError::Memory),
        Err(ChannelError::Absent(_)) => Err(LineError::FramesOut),
    }
}
