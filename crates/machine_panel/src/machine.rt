//! A machine but for its storage.
ghost use Rattle.std.specs.Prelude.{◌≡◌, ◌≤◌, [], length, slice_get};
ghost use Rattle.std.specs.Option.{option_map};
ghost use Rattle.s370_store.specs.Memory.{Memory, cleared_memory};
ghost use Rattle.s370_subchannels.specs.Subchannels.{AreAscending};
ghost use Rattle.machine_panel.specs.Machine.{cleared, machine_of, reset_cpu, switched_off, unused};

use cp_console::output::ConsoleOutput;
use s370_intr::Pending;
use s370_psw::Psw;
use s370_rows::Cpu;
use s370_store::Supply;
use s370_subchannels::{Subchannel, Subchannels};
use std::alloc::Global;
use std::marker::Model;

/// Whether a machine is switched on, and whether it runs.
#[derive(Clone, Copy, Debug, PartialEq, Eq)]
pub enum Mode {
    /// Nobody is logged on; the machine does nothing.
    Off,
    /// It does no units, and takes lines as commands.
    Stopped,
    /// It does units.
    Running,
}

/// A System/370 with its panel, but for its storage, which is lent to each of its calls.
///
/// A machine that runs has room for the notice of its stop, so a run takes no memory.
#[derive(Drop)]
pub struct Machine {
    pub(crate) cpu: Cpu,
    pub(crate) pending: Pending,
    pub(crate) subchannels: Subchannels,
    pub(crate) mode: Mode,
    pub(crate) output: ConsoleOutput,
}

impl Model for Machine {
    ghost use Rattle.std.specs.Prelude.{◌≡◌, ◌≤◌};
    ghost use Rattle.machine_panel.specs.declared.machine.Mode.TheVariants.{Running};
    ghost use Rattle.machine_panel.specs.Machine.{Parts};

    ghost Value = { Parts };

    ghost view = { λ m. record {
      cpu = m.cpu;
      pending = m.pending;
      subchannels = m.subchannels;
      mode = m.mode;
      output = m.output.lines;
      room = m.output.room;
    } };

    ghost invariant = { λ m. m.mode ≡ Running → 1 ≤ m.output.room };
}

/// Returns a processor as after a reset, with these general registers: PSW zero, and control
/// registers zero, except that register 0 is 000000E0.
pub(crate) fn reset_cpu(general: [u32; 16]) -> Cpu
    ensures { result ≡ reset_cpu general }
{
    let mut control = [0; 16];
    control[0] = 0xE0;
    Cpu {
        general,
        control,
        psw: Psw::from_word(0),
    }
}

impl Machine {
    /// Returns a machine that is off, with these devices, which are reset, and no printed line.
    pub fn new(alloc: Global, mut subchannels: Subchannels) -> Machine
        ensures machine { (m : Memory)
            → machine_of result (cleared_memory m) ≡ unused m subchannels }
    {
        subchannels.reset();
        Machine {
            cpu: reset_cpu([0; 16]),
            pending: Pending::NOTHING,
            subchannels,
            mode: Mode::Off,
            output: ConsoleOutput::new(alloc),
        }
    }

    /// Does LOGON: resets the machine, makes general registers, storage and keys zero, and sets the
    /// mode to stopped; printed lines stay.
    pub fn switch_on<S: Supply>(&mut self, storage: &mut S)
        ensures machine { machine_of self.new (S.Storage.memory storage.new)
            ≡ cleared (machine_of self.old (S.Storage.memory storage.old)) }
        ensures cleared { S.Cleared storage.old storage.new }
        ensures size { length (S.Storage.memory storage.new).bytes
            ≡ length (S.Storage.memory storage.old).bytes }
        ensures keys { length (S.Storage.memory storage.new).keys
            ≡ length (S.Storage.memory storage.old).keys }
    {
        self.cpu = reset_cpu([0; 16]);
        self.pending = Pending::NOTHING;
        self.subchannels.reset();
        self.mode = Mode::Stopped;
        storage.clear();
    }

    /// Does LOGOFF: resets the machine, makes general registers, storage and keys zero, and sets
    /// the mode to off; printed lines stay.
    pub fn switch_off<S: Supply>(&mut self, storage: &mut S)
        ensures machine { machine_of self.new (S.Storage.memory storage.new)
            ≡ switched_off (machine_of self.old (S.Storage.memory storage.old)) }
        ensures cleared { S.Cleared storage.old storage.new }
        ensures size { length (S.Storage.memory storage.new).bytes
            ≡ length (S.Storage.memory storage.old).bytes }
        ensures keys { length (S.Storage.memory storage.new).keys
            ≡ length (S.Storage.memory storage.old).keys }
    {
        self.switch_on(storage);
        self.mode = Mode::Off;
    }

    /// Borrows the registers and the PSW.
    pub fn cpu(&self) -> &Cpu
        ensures { result.now ≡ self.now.cpu }
    {
        &self.cpu
    }

    /// Returns the external conditions that are pending.
    pub fn pending(&self) -> Pending
        ensures { result ≡ self.now.pending }
    {
        self.pending
    }

    /// Borrows the subchannels of the devices, in the order of their addresses.
    pub fn subchannels(&self) -> &[Subchannel]
        ensures list { result.now ≡ self.now.subchannels }
        ensures order { AreAscending result.now }
    {
        self.subchannels.list()
    }

    /// Returns the mode of the machine: off, stopped or running.
    pub fn mode(&self) -> Mode
        ensures { result ≡ self.now.mode }
    {
        // Exhaustive: a new field fails to compile here. None has bytes of storage, which is
        // lent to each call.
        let Machine {
            cpu: _,
            pending: _,
            subchannels: _,
            mode,
            output: _,
        } = self;
        *mode
    }

    /// Returns how many printed lines the console has.
    pub fn printed(&self) -> usize
        ensures { result ≡ length self.now.output }
    {
        self.output.len()
    }

    /// Returns the text of the console's printed line at this index, if there is one.
    pub fn console_output(&self, line: usize) -> Option<&[u8]>
        ensures { option_map (λ text. text.now) result ≡ slice_get self.now.output line }
    {
        self.output.get(line)
    }

    /// Removes the console's printed lines and gives back their memory; the room for further lines
    /// stays.
    ///
    /// Whatever the machine does goes on as before ([`crate::printed_lines_do_not_matter`]).
    pub fn forget_lines(&mut self)
        ensures { self.new ≡ record self.old { output = [] } }
    {
        self.output.forget();
    }
}
