//! The devices of a machine are served.
ghost use Rattle.std.specs.Prelude.{◌≡◌, ◌<◌, ◌++◌, IfOk, OnErr, OnOk, Some, length};
ghost use Rattle.s370_subchannels.specs.Programs.{program_of};
ghost use Rattle.machine_devices.specs.Devices.{IsAttached, kind_in};
ghost use Rattle.machine_devices.specs.declared.places.AttachedDevice.TheVariants as kinds;
ghost use Rattle.machine_devices.specs.Borrowed.{IsServed, Runs, ServeEnds, borrowed};

use crate::devices::Devices;
use crate::feeding::run_fed;
use crate::places::AttachedDevice;
use cp_console::console_line::ConsoleLine;
use cp_console::responses::Response;
use cp_spool::Queues;
use machine_channels::{Channels, UnitRecord};
use machine_panel::Machine;
use s370_channel::{Caw, ChannelError};
use s370_num::DevAddr;
use s370_store::Storage;
use std::alloc::AllocError;
use unit_record::Console;

/// A channel program that was started on a device.
#[derive(Clone, Copy)]
struct StartedProgram {
    /// The address of the device.
    device: DevAddr,
    /// The channel address word.
    start: Caw,
}

impl Devices {
    /// Runs the channel program that was started on the device of this address, if there is one,
    /// and makes its status pending; returns whether there was one.
    ///
    /// The program runs as a whole on these channels. If there was none, nothing has happened. An
    /// error is reported only where memory was refused, or a page is not present that the program
    /// needs. If the channels are whole, there is no room for that page then, and nothing has
    /// happened but that pages were paged in which the program needs.
    ///
    /// # Errors
    ///
    /// A `ChannelError`: refused memory that a command, a dry run, the analysis or the lines that a
    /// console prints need, or an absent page.
    pub fn serve<S: Storage, C: Channels<S>>(
        &mut self,
        queues: &mut Queues,
        machine: &mut Machine,
        storage: &mut S,
        channels: &mut C,
        device: DevAddr,
    ) -> Result<bool, ChannelError>
        requires user { self.old.user < length queues.old.users }
        requires ready { C.IsReady storage.old }
        ensures served { IfOk result (λ done. IsServed C.Channels.own C.Disks S.Storage device
            (borrowed self.old queues.old machine.old storage.old channels.old) done
            (borrowed self.new queues.new machine.new storage.new channels.new)) }
        ensures ends { let kind = kind_in self.old.places (C.disks channels.old) device in
            let start = program_of device machine.old.subchannels in
            ServeEnds C.Channels.own C.Disks S.Storage kind start
            (borrowed self.old queues.old machine.old storage.old channels.old)
            (borrowed self.new queues.new machine.new storage.new channels.new) result }
    {
        let Some(kind) = self.kind_at(channels, device.get()) else {
            return Ok(false);
        };
        let Some(start) = machine.program(device) else {
            return Ok(false);
        };
        let program = StartedProgram { device, start };
        match self.run_kind(queues, machine, storage, channels, kind, program) {
            Ok(()) => Ok(true),
            Err(error) => Err(error),
        }
    }

    /// Runs a program on its device, which is of this kind, and makes its status pending.
    fn run_kind<S: Storage, C: Channels<S>>(
        &mut self,
        queues: &mut Queues,
        machine: &mut Machine,
        storage: &mut S,
        channels: &mut C,
        kind: AttachedDevice,
        program: StartedProgram,
    ) -> Result<(), ChannelError>
        requires attached { IsAttached (C.disks channels.old) kind }
        requires user { self.old.user < length queues.old.users }
        requires ready { C.IsReady storage.old }
        ensures runs { OnOk result (Runs C.Channels.own C.Disks S.Storage kind program.device
            program.start
            (borrowed self.old queues.old machine.old storage.old channels.old)
            (borrowed self.new queues.new machine.new storage.new channels.new)) }
        ensures ends { ServeEnds C.Channels.own C.Disks S.Storage (Some kind) (Some program.start)
            (borrowed self.old queues.old machine.old storage.old channels.old)
            (borrowed self.new queues.new machine.new storage.new channels.new) result }
    {
        let StartedProgram { device, start } = program;
        let key = start.key;
        let ending = match kind {
            AttachedDevice::Console => {
                return self.run_console(queues, machine, storage, channels, program);
            }
            AttachedDevice::Reader => {
                return self.run_reader(queues, machine, storage, channels, program);
            }
            AttachedDevice::Punch => match channels.run(
                storage,
                start,
                UnitRecord::Punch,
                &mut self.punch,
            ) {
                Ok(ending) => ending,
                Err(error) => return Err(error),
            },
            AttachedDevice::Printer => match channels.run(
                storage,
                start,
                UnitRecord::Printer,
                &mut self.printer,
            ) {
                Ok(ending) => ending,
                Err(error) => return Err(error),
            },
            AttachedDevice::Disk(index) => match channels.run_disk(storage, start, index) {
                Ok(ending) => ending,
                Err(error) => return Err(error),
            },
        };
        machine.end_program(device, key, ending);
        Ok(())
    }

    /// Runs a program on the reader, removes from the queue what it has read, and makes its status
    /// pending.
    fn run_reader<S: Storage, C: Channels<S>>(
        &mut self,
        queues: &mut Queues,
        machine: &mut Machine,
        storage: &mut S,
        channels: &mut C,
        program: StartedProgram,
    ) -> Result<(), ChannelError>
        requires user { self.old.user < length queues.old.users }
        requires ready { C.IsReady storage.old }
        ensures runs { let kind = kinds.Reader in
            OnOk result (Runs C.Channels.own C.Disks S.Storage kind program.device program.start
            (borrowed self.old queues.old machine.old storage.old channels.old)
            (borrowed self.new queues.new machine.new storage.new channels.new)) }
        ensures ends { let kind = Some kinds.Reader in
            ServeEnds C.Channels.own C.Disks S.Storage kind (Some program.start)
            (borrowed self.old queues.old machine.old storage.old channels.old)
            (borrowed self.new queues.new machine.new storage.new channels.new) result }
    {
        let StartedProgram { device, start } = program;
        let key = start.key;
        let ending = match run_fed(
            &mut self.reader,
            queues,
            self.user,
            storage,
            channels,
            start,
        ) {
            Ok(ending) => ending,
            Err(error) => return Err(error),
        };
        machine.end_program(device, key, ending);
        Ok(())
    }

    /// Runs a program on the console, sets its mark of attention, makes its status pending, and
    /// moves the lines that the console has finished to those that the machine has printed.
    fn run_console<S: Storage, C: Channels<S>>(
        &mut self,
        queues: &Queues,
        machine: &mut Machine,
        storage: &mut S,
        channels: &mut C,
        program: StartedProgram,
    ) -> Result<(), ChannelError>
        requires { C.IsReady storage.old }
        ensures runs { let kind = kinds.Console in
            OnOk result (Runs C.Channels.own C.Disks S.Storage kind program.device program.start
            (borrowed self.old queues.now machine.old storage.old channels.old)
            (borrowed self.new queues.now machine.new storage.new channels.new)) }
        ensures ends { let kind = Some kinds.Console in
            ServeEnds C.Channels.own C.Disks S.Storage kind (Some program.start)
            (borrowed self.old queues.now machine.old storage.old channels.old)
            (borrowed self.new queues.now machine.new storage.new channels.new) result }
    {
        let StartedProgram { device, start } = program;
        let key = start.key;
        let ending = match channels.run(storage, start, UnitRecord::Console, &mut self.console) {
            Ok(ending) => ending,
            Err(error) => return Err(error),
        };
        machine.set_attention(device, self.console.attention());
        machine.end_program(device, key, ending);
        match print_written(machine, &self.console) {
            Ok(()) => {}
            Err(_) => return Err(ChannelError::Memory),
        }
        self.console.forget_lines();
        Ok(())
    }
}

/// Appends the lines that a console has finished to those that the machine has printed.
fn print_written(machine: &mut Machine, console: &Console) -> Result<(), AllocError>
    ensures printed { OnOk result
        (machine.new ≡ record machine.old {
          output = machine.old.output ++ console.now.lines;
          room = machine.new.room;
        }) }
    ensures some { OnErr result (0 < length console.now.lines) }
{
    for line in console.lines() {
        machine.make_room(1)?;
        machine.print(&Response::Written(ConsoleLine::of(line.as_slice())));
    }
    Ok(())
}
