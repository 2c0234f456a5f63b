//! What a step of the loop did, and where the next instruction is.
ghost use Rattle.std.specs.Prelude.{◌≡◌};
ghost use Rattle.s370_cpu.specs.Held.{next_after};

use s370_num::Addr24;

/// What a step did with the instruction whose turn it was.
///
/// An instruction that follows lies in the same block as the one before it or right after that
/// block, at an even address: so the loop tests less before it goes on with it.
#[derive(Clone, Copy, PartialEq, Eq, Debug)]
pub enum Stepped {
    /// It was done, and the next one follows it, at this address.
    Follows(Addr24),
    /// It was done, and the next one is at this address, to which it branched or where it is itself.
    Elsewhere(Addr24),
    /// Nothing was done: it is not a frequent one, or something keeps it from being done here.
    LeftOut,
    /// Nothing was done: FF is the operation code of no instruction.
    Unassigned,
}

impl Stepped {
    /// Returns the address of the next instruction, if the step was done.
    #[inline(always)]
    pub fn next(self) -> Option<Addr24>
        ensures { result ≡ next_after self }
    {
        match self {
            Stepped::Follows(next) | Stepped::Elsewhere(next) => Some(next),
            Stepped::LeftOut | Stepped::Unassigned => None,
        }
    }
}
