//! Interruptions of a guest.
ghost use Rattle.std.specs.Prelude.{◌≡◌, ℕ, ◌≤◌, length};
ghost use Rattle.s370_rows.specs.State.{state_of};
ghost use Rattle.s370_intr.specs.Swap.{MeetsSwap, swapped};

use s370_intr::{Class, swap};
use s370_psw::Ilc;
use s370_rows::Cpu;
use s370_store::{Page, Storage};

/// Interrupts a guest: stores his virtual PSW in his page 0, with this code and instruction length,
/// and loads the new PSW of this class from there.
///
/// # Errors
///
/// A page that is needed and absent; nothing has changed.
#[inline(always)]
pub fn reflect<S: Storage>(
    cpu: &mut Cpu,
    storage: &mut S,
    class: Class,
    code: u16,
    ilc: Ilc,
) -> Result<(), Page>
    requires { 8192 ≤ length (S.memory storage.old).bytes }
    ensures reflected { let before = state_of cpu.old (S.memory storage.old) in
        let after = state_of cpu.new (S.memory storage.new) in
        MeetsSwap (swapped before class code ilc) (S.present storage.old) before result after }
    ensures rest { S.Keeps storage.old storage.new }
{
    swap(cpu, storage, class, code, ilc)
}
