//! The instruction that is carried out: GA22-7000, "Execute".
ghost use Rattle.std.specs.Prelude.{◌≡◌, length};
ghost use Rattle.s370_rows.specs.State.{state_of};
ghost use Rattle.s370_cpu.specs.Fetch.{MeetsFetch};
ghost use Rattle.s370_cpu.specs.Execute.{executed, joined};

use crate::fetch::fetch;
use s370_rows::{Cpu, Instruction, Refusal};
use s370_store::Storage;

/// The operation code of EX.
pub const EXECUTE: u8 = 0x44;

/// Returns EX's target with the rightmost byte of R1 ORed into its second byte, unless R1 is
/// register 0.
#[inline(always)]
fn modified_target(cpu: &Cpu, i: Instruction, target: Instruction) -> Instruction
    ensures { result ≡ joined cpu.now i target }
{
    if i.r1().number() == 0 {
        return target;
    }
    let low = (cpu.general[i.r1().index()] & 0xFF) as u8;
    Instruction {
        second_byte: target.second_byte | low,
        ..target
    }
}

/// Fetches and returns the target of EX (44), as EX changes it; returns any other instruction as it
/// is.
///
/// # Errors
///
/// A `Refusal`: the program interruption, or an absent page that has to be brought first. Nothing
/// has changed.
#[inline(always)]
pub fn target_of<S: Storage>(cpu: &Cpu, storage: &S, i: Instruction) -> Result<Instruction, Refusal>
    ensures { let m = state_of cpu.now (S.memory storage.now) in
        MeetsFetch (executed m i) m (S.present storage.now) result }
{
    if i.opcode != EXECUTE {
        return Ok(i);
    }
    let target = fetch(cpu, storage, cpu.indexed(i.r2(), i.second_half))?;
    Ok(modified_target(cpu, i, target))
}
