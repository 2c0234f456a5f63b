//! Leave to access storage.
ghost use Rattle.std.specs.Prelude.{◌≡◌, ℕ, ◌+◌, ◌≤◌, Bool, true, false, List, [], ◌∷◌, Ok, length};
ghost use Rattle.std.specs.Prelude.{slice_range};
ghost use Rattle.s370_store.specs.Access.{IsVerdict, Test, test_of, tested};
ghost use Rattle.s370_store.specs.declared.Access.TheVariants.{Fetch, Store};
ghost use Rattle.s370_store.specs.Memory.{with_stored};
ghost use Rattle.s370_rows.specs.State.{State, state_of};
ghost use Rattle.s370_rows.specs.Rows.{Grants, Reaches};

use crate::cpu::Cpu;
use crate::ending::Refusal;
use s370_num::AccessKey;
use s370_psw::ProgramCode;
use s370_store::{Access, Fault, Page, Range, Storage, check_two};

/// Returns `Ok` if a range of at most 256 bytes may be accessed with the PSW's key, or else the
/// refusal.
///
/// # Errors
///
/// A `Refusal`: the program interruption, or an absent page that has to be brought first. Nothing
/// has changed.
#[inline(always)]
pub fn grant<S: Storage>(
    cpu: &Cpu,
    storage: &S,
    range: Range,
    access: Access,
) -> Result<(), Refusal>
    requires { range.count ≤ 256 }
    ensures { Grants (state_of cpu.now (S.memory storage.now)) (S.present storage.now)
        (tested access range ∷ []) result }
{
    refusal_of(storage.check(range, access, cpu.psw.key()))
}

/// Returns `Ok` if two ranges of at most 256 bytes may be accessed with the PSW's key, or else the
/// refusal.
///
/// # Errors
///
/// A `Refusal`: the program interruption, or an absent page that has to be brought first. Nothing
/// has changed.
#[inline(always)]
pub fn grant_two<S: Storage>(
    cpu: &Cpu,
    storage: &S,
    first: Range,
    first_access: Access,
    second: Range,
    second_access: Access,
) -> Result<(), Refusal>
    requires first { first.count ≤ 256 }
    requires second { second.count ≤ 256 }
    ensures { Grants (state_of cpu.now (S.memory storage.now)) (S.present storage.now)
        (tested first_access first ∷ tested second_access second ∷ []) result }
{
    let answer = check_two(
        storage,
        first,
        first_access,
        second,
        second_access,
        cpu.psw.key(),
    );
    refusal_of(answer)
}

/// Returns `Ok` if the pages of a range in storage are present, whatever its keys.
///
/// # Errors
///
/// A page of the range that is absent.
#[inline(always)]
pub fn reach<S: Storage>(storage: &S, range: Range, access: Access) -> Result<(), Page>
    requires short { range.count ≤ 256 }
    requires inside { range.start + range.count ≤ length (S.memory storage.now).bytes }
    ensures { Reaches (length (S.memory storage.now).bytes) (S.present storage.now)
        (tested access range ∷ []) result }
{
    match storage.check(range, access, AccessKey::ZERO) {
        Ok(()) => Ok(()),
        Err(Fault::Absent(page)) => Err(page),
        // The bytes lie in storage, and key 0 passes.
        Err(Fault::Addressing) => unreachable!(),
        Err(Fault::Protection) => unreachable!(),
    }
}

/// Copies bytes with the PSW's key if the storage grants it and can do it at once, and returns
/// whether it did; else nothing changes.
///
/// All bytes are read before any is written. If the result is false, nothing has changed.
#[inline(always)]
pub fn copy_granted<S: Storage>(cpu: &Cpu, storage: &mut S, from: u32, to: u32, count: u32) -> bool
    requires { count ≤ 2048 }
    ensures granted { let m = state_of cpu.now (S.memory storage.old) in
        result ≡ true → Grants m (S.present storage.old)
        (test_of Store to count ∷ test_of Fetch from count ∷ [])
        (Ok tt) }
    ensures moved { result ≡ true
        → S.memory storage.new
        ≡ with_stored (S.memory storage.old) to
        (slice_range (S.memory storage.old).bytes from (from + count)) }
    ensures still { result ≡ false → S.memory storage.new ≡ S.memory storage.old }
    ensures rest { S.Keeps storage.old storage.new }
{
    storage.copy_at_once(from, to, count, cpu.psw.key())
}

/// Turns the fault of a check into the instruction's refusal: a program exception, or an absent
/// page.
#[inline(always)]
fn refusal_of(answer: Result<(), Fault>) -> Result<(), Refusal>
    ensures { (m : State) → (present : ℕ → Bool) → (ts : List Test)
        → IsVerdict (length m.bytes) m.keys present m.cpu.psw.key ts answer
        → Grants m present ts result }
{
    match answer {
        Ok(()) => Ok(()),
        Err(Fault::Addressing) => Err(Refusal::Program(ProgramCode::Addressing)),
        Err(Fault::Protection) => Err(Refusal::Program(ProgramCode::Protection)),
        Err(Fault::Absent(page)) => Err(Refusal::Absent(page)),
    }
}
