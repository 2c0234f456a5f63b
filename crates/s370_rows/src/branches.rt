//! Branches.
ghost use Rattle.std.specs.Prelude.{◌≡◌, ℕ, ◌<◌};
ghost use Rattle.s370_rows.specs.Branches.{conditional_branch, counted_branch, index_branch};
ghost use Rattle.s370_rows.specs.Branches.{index_is, linked_branch};
ghost use Rattle.s370_rows.specs.Registers.{link_of};

use crate::cpu::Cpu;
use crate::ending::Completion;
use crate::place::Place;
use s370_num::Register;

/// When a branch on an index is taken.
#[derive(Clone, Copy, PartialEq, Eq)]
pub enum IndexBranch {
    /// 86 BXH
    High,
    /// 87 BXLE
    LowOrEqual,
}

/// Does BCTR (06) and BCT (46): takes 1 from a register and, if it is not zero then and `may` is
/// true, returns a branch.
///
/// `may` says whether there is an address to branch to.
///
/// `may` says whether there is an address to branch to.
#[inline(always)]
pub fn branch_on_count(cpu: &mut Cpu, register: Register, may: bool, target: u32) -> Completion
    ensures { counted_branch cpu.old register may target
        ≡ record { ending = result; cpu = cpu.new } }
{
    let less = cpu.general[register.index()].wrapping_sub(1);
    cpu.general[register.index()] = less;
    if may && less > 0 {
        Completion::Branch(target)
    } else {
        Completion::Done
    }
}

/// Does BCR (07) and BC (47): returns a branch if the mask selects the condition code and `may` is
/// true; nothing changes.
#[inline(always)]
pub fn branch_on_condition(cpu: &Cpu, mask: u8, may: bool, target: u32) -> Completion
    requires { mask < 16 }
    ensures { conditional_branch cpu.now mask may target
        ≡ record { ending = result; cpu = cpu.now } }
{
    let bit = mask >> (3 - cpu.psw.condition().get()) & 1;
    if may && bit == 1 {
        Completion::Branch(target)
    } else {
        Completion::Done
    }
}

/// Returns the link information: instruction length code, condition code, program mask and next
/// address.
#[inline(always)]
fn link_of(cpu: &Cpu, place: Place) -> u32
    ensures { result ≡ link_of cpu.now place }
{
    let condition = cpu.psw.condition().get() as u32 * 0x1000_0000;
    let mask = cpu.psw.program_mask() as u32 * 0x100_0000;
    place.ilc.get() as u32 * 0x4000_0000 + condition + mask + place.next.get()
}

/// Does BALR (05) and BAL (45): sets a register to the link information and returns a branch if
/// `may` is true.
#[inline(always)]
pub fn branch_and_link(
    cpu: &mut Cpu,
    place: Place,
    register: Register,
    may: bool,
    target: u32,
) -> Completion
    ensures { linked_branch cpu.old place register may target
        ≡ record { ending = result; cpu = cpu.new } }
{
    cpu.general[register.index()] = link_of(cpu, place);
    if may {
        Completion::Branch(target)
    } else {
        Completion::Done
    }
}

/// Returns whether a sum is above the comparand (`High`), or at most equal to it (`LowOrEqual`), as
/// signed numbers.
#[inline(always)]
fn index_is(kind: IndexBranch, sum: u32, comparand: u32) -> bool
    ensures { result ≡ index_is kind sum comparand }
{
    match kind {
        IndexBranch::High => comparand.cast_signed() < sum.cast_signed(),
        IndexBranch::LowOrEqual => sum.cast_signed() <= comparand.cast_signed(),
    }
}

/// Does BXH (86) and BXLE (87): adds register R3 to R1 and returns a branch if the sum is high, or
/// low or equal, against the odd register of R3's pair.
#[inline(always)]
pub fn branch_on_index(
    kind: IndexBranch,
    cpu: &mut Cpu,
    first: Register,
    third: Register,
    target: u32,
) -> Completion
    ensures { index_branch kind cpu.old first third target
        ≡ record { ending = result; cpu = cpu.new } }
{
    let sum = cpu.general[first.index()].wrapping_add(cpu.general[third.index()]);
    let comparand = cpu.general[third.index() / 2 * 2 + 1];
    cpu.general[first.index()] = sum;
    if index_is(kind, sum, comparand) {
        Completion::Branch(target)
    } else {
        Completion::Done
    }
}
