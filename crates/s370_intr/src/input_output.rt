//! What input/output instructions are answered.
ghost use Rattle.std.specs.Prelude.{◌≡◌, ◌≤◌, length};
ghost use Rattle.s370_rows.specs.State.{state_of};
ghost use Rattle.s370_intr.specs.InputOutput.{AskNeeds, answered, configuration_of};
ghost use Rattle.s370_intr.specs.Units.{Meets};

use s370_rows::{Cpu, IoOperation};
use s370_store::{Page, Storage};
use s370_subchannels::{Subchannels, answer};

/// Carries out SIO, TIO, HIO or TCH for the device of this address and sets the condition code.
///
/// If a page that is needed is absent, nothing is changed.
///
/// # Errors
///
/// A page that is needed and absent; nothing has changed.
#[inline(never)]
pub fn answer_asked<S: Storage>(
    cpu: &mut Cpu,
    subchannels: &mut Subchannels,
    storage: &mut S,
    operation: IoOperation,
    device: u16,
) -> Result<(), Page>
    requires { 8192 ≤ length (S.memory storage.old).bytes }
    ensures answer { let before = configuration_of
        (state_of cpu.old (S.memory storage.old)) subchannels.old in
        let after = configuration_of (state_of cpu.new (S.memory storage.new)) subchannels.new in
        Meets (answered operation device before) (AskNeeds operation device before)
        (S.present storage.old) before result after }
    ensures rest { S.Keeps storage.old storage.new }
{
    match answer(subchannels, storage, operation, device) {
        Ok(condition) => {
            cpu.psw.set_condition(condition);
            Ok(())
        }
        Err(page) => Err(page),
    }
}
