//! What the devices of a machine, and the operator, change of it next to its units and its lines.
ghost use Rattle.std.specs.Prelude.{◌≡◌, ◌+◌, ◌<◌, ◌≤◌, ◌++◌, ◌∷◌, [], ℕ, List, OnErr, OnOk};
ghost use Rattle.cp_console.specs.Responses.{text_of};
ghost use Rattle.s370_subchannels.specs.Programs.{program_ended, program_of};
ghost use Rattle.s370_subchannels.specs.Subchannels.{attended, reset as reset_devices};
ghost use Rattle.s370_subchannels.specs.Subchannels.{with_attention};
ghost use Rattle.machine_panel.specs.Machine.{nothing_pending, reset_cpu};
ghost use Rattle.machine_panel.specs.declared.machine.Mode.TheVariants.{Running, Stopped};

use crate::machine::{Machine, Mode, reset_cpu};
use cp_console::responses::Response;
use s370_channel::Caw;
use s370_intr::Pending;
use s370_num::{AccessKey, DevAddr};
use s370_psw::Psw;
use s370_walk::Ending;
use std::alloc::AllocError;

impl Machine {
    /// Returns the channel address word of the program on which the device works, if it works.
    pub fn program(&self, device: DevAddr) -> Option<Caw>
        ensures { result ≡ program_of device self.now.subchannels }
    {
        self.subchannels.program(device.get())
    }

    /// Makes the channel status word of an ended program pending at its device; if there is no such
    /// device, nothing changes.
    pub fn end_program(&mut self, device: DevAddr, key: AccessKey, ending: Ending)
        ensures { self.new ≡ record
            self.old { subchannels = program_ended device key ending self.old.subchannels } }
    {
        self.subchannels.end_program(device.get(), key, ending);
    }

    /// Sets whether the device has attention to give when its program ends; if there is no such
    /// device, nothing changes.
    pub fn set_attention(&mut self, device: DevAddr, gives: bool)
        ensures { self.new ≡ record
            self.old { subchannels = with_attention device gives self.old.subchannels } }
    {
        self.subchannels.set_attention(device.get(), gives);
    }

    /// Gives the device attention, which is pending at once, or at the end of its program if it
    /// works; if there is no such device, nothing changes.
    pub fn attend(&mut self, device: DevAddr)
        ensures { self.new ≡ record
            self.old { subchannels = attended device self.old.subchannels } }
    {
        self.subchannels.attend(device.get());
    }

    /// Makes room on the console for at least so many more lines and the notice of the machine's
    /// stop.
    ///
    /// # Errors
    ///
    /// `AllocError` if memory is refused; the machine is then as it was, except perhaps for more room.
    pub fn make_room(&mut self, lines: usize) -> Result<(), AllocError>
        requires { lines ≤ 65536 }
        ensures ok { OnOk result (lines < self.new.room) }
        ensures err { OnErr result (self.old.room < lines + 1) }
        ensures kept { self.new ≡ record self.old { room = self.new.room } }
        ensures room { self.old.room ≤ self.new.room }
    {
        self.output.make_room(lines + 1)
    }

    /// Appends a line to the console's printed lines; there has to be room for it and for the
    /// notice of the machine's stop.
    pub fn print(&mut self, response: &Response)
        requires { 1 < self.old.room }
        ensures printed { self.new
            ≡ record self.old {
              output = self.old.output ++ text_of response.now ∷ [];
              room = self.new.room;
            } }
        ensures room { self.new.room + 1 ≡ self.old.room }
    {
        self.output.print(response);
    }

    /// Stops the machine and resets PSW, control registers, pending conditions and devices; general
    /// registers, storage and printed lines stay.
    pub fn reset(&mut self)
        ensures { self.new ≡ record self.old {
          cpu = reset_cpu self.old.cpu.general;
          pending = nothing_pending;
          subchannels = reset_devices self.old.subchannels;
          mode = Stopped;
        } }
    {
        self.cpu = reset_cpu(self.cpu.general);
        self.pending = Pending::NOTHING;
        self.subchannels.reset();
        self.mode = Mode::Stopped;
    }

    /// Sets the PSW and sets the mode to running; the console has to have room for the notice of a
    /// stop.
    pub fn start(&mut self, psw: Psw)
        requires { 0 < self.old.room }
        ensures { self.new ≡ record
            self.old { cpu = record self.old.cpu { psw = psw }; mode = Running } }
    {
        self.cpu.psw = psw;
        self.mode = Mode::Running;
    }
}
