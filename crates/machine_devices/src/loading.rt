//! The initial program loading of a machine.
ghost use Rattle.std.specs.Prelude.{◌≡◌, ◌<◌, ◌≤◌, IfErr, IfOk, length};
ghost use Rattle.machine_panel.specs.Machine.{machine_of};
ghost use Rattle.machine_devices.specs.Loading.{LacksPsw, is_good, left_by};

use cp_console::responses::Response;
use machine_panel::Machine;
use s370_channel::ChannelError;
use s370_num::DevAddr;
use s370_psw::Psw;
use s370_rows::reach;
use s370_store::{Access, Range, Storage, load_doubleword, store_halfword};
use s370_walk::{ChannelStatus, Ending, UnitStatus};

/// Where the device's address is stored, in the PSW that is loaded.
const IPL_PSW: Range = Range { start: 0, count: 8 };

/// Stores the device's address at location 2 and starts the machine by the PSW at location 0 if the
/// loading program ended well, else prints that it failed; returns whether it ended well.
///
/// There is room for a line and for the notice of the machine's stop.
pub(crate) fn start_loaded<S: Storage>(
    machine: &mut Machine,
    storage: &mut S,
    device: DevAddr,
    ending: &Ending,
) -> Result<bool, ChannelError>
    requires size { 8192 ≤ length (S.memory storage.old).bytes }
    requires room { 1 < machine.old.room }
    ensures well { IfOk result (λ well. well ≡ is_good ending.now) }
    ensures left { let before = machine_of machine.old (S.memory storage.old) in
        let after = machine_of machine.new (S.memory storage.new) in
        IfOk result (λ well. after
        ≡ left_by (is_good ending.now) device before (S.memory storage.old).bytes) }
    ensures stopped { IfErr result (LacksPsw (S.present storage.old)) }
    ensures rest { S.Keeps storage.old storage.new }
{
    if !is_good(ending) {
        machine.print(&Response::IplFailed);
        return Ok(false);
    }
    match reach(storage, IPL_PSW, Access::Store) {
        Ok(()) => {}
        Err(page) => return Err(ChannelError::Absent(page)),
    }
    store_halfword(storage, 2, device.get());
    machine.start(Psw::from_word(load_doubleword(storage, 0)));
    Ok(true)
}

/// Returns whether a program ended normally, and without any channel status.
fn is_good(ending: &Ending) -> bool
    ensures { result ≡ is_good ending.now }
{
    ending.unit == UnitStatus::ENDED && ending.channel == ChannelStatus::NONE
}
