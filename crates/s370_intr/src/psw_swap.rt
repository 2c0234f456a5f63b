//! The swap of program status words.
ghost use Rattle.std.specs.Prelude.{◌≡◌, ℕ, ◌≤◌, length};
ghost use Rattle.s370_rows.specs.State.{state_of};
ghost use Rattle.s370_intr.specs.Swap.{MeetsSwap, swapped};

use crate::class::Class;
use s370_num::AccessKey;
use s370_psw::{Ilc, Psw};
use s370_rows::{Cpu, reach};
use s370_store::{Access, Page, Range, Storage, load_doubleword, store_doubleword};

/// The locations of all old and new program status words.
const PSWS: Range = Range {
    start: 24,
    count: 104,
};

/// Stores the processor's PSW with this code and length code as the old PSW of its class, and loads
/// the new PSW of that class.
///
/// Keys are not tested. All the locations lie in page 0; if that is absent, nothing is changed.
///
/// # Errors
///
/// A page that is needed and absent; nothing has changed.
#[inline(always)]
pub fn swap<S: Storage>(
    cpu: &mut Cpu,
    storage: &mut S,
    class: Class,
    code: u16,
    ilc: Ilc,
) -> Result<(), Page>
    requires { 8192 ≤ length (S.memory storage.old).bytes }
    ensures swap { let before = state_of cpu.old (S.memory storage.old) in
        let after = state_of cpu.new (S.memory storage.new) in
        MeetsSwap (swapped before class code ilc) (S.present storage.old) before result after }
    ensures rest { S.Keeps storage.old storage.new }
{
    let word = cpu.psw.to_word(code, ilc);
    match storage.find_block(0, Access::Store, AccessKey::ZERO) {
        Some(block) => {
            storage.store_in(block, class.old_psw_address(), &word.to_be_bytes());
            let mut into = [0u8; 8];
            storage.load_in(block, class.new_psw_address(), &mut into);
            cpu.psw = Psw::from_word(u64::from_be_bytes(into));
            return Ok(());
        }
        None => {}
    }
    reach(storage, PSWS, Access::Store)?;
    store_doubleword(storage, class.old_psw_address(), word);
    cpu.psw = Psw::from_word(load_doubleword(storage, class.new_psw_address()));
    Ok(())
}
