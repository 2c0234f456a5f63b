//! What no instruction does, whatever it is.
ghost use Rattle.s370_cpu.specs.Laws.{ChangedBytesWereTested, FewTests, ProblemStateHolds};
ghost use Rattle.s370_cpu.specs.Laws.{ProtectionHolds, StorageKeepsItsSize, UnitsAreProtected};
ghost use Rattle.s370_cpu.specs.Laws.{UnitsAskForFewPages, UnitsStayInTheirRights};

/// Proves that each byte that an instruction changes was tested for storing, and that the size of
/// storage stays; it has no effect.
pub fn changed_bytes_were_tested()
    ensures bytes { ChangedBytesWereTested }
    ensures size { StorageKeepsItsSize }
{}

/// Proves that with a key other than zero an instruction changes bytes only in blocks of the same
/// key; it has no effect.
pub fn protection_holds()
    ensures instruction { ProtectionHolds }
    ensures unit { UnitsAreProtected }
{}

/// States that in the problem state no instruction changes a storage key, a control register, the
/// system mask, the PSW key or one of PSW bits 12 to 15.
///
/// Only an interruption leads out of the problem state.
pub fn problem_state_holds()
    ensures instruction { ProblemStateHolds }
    ensures unit { UnitsStayInTheirRights }
{}

/// Proves that an instruction tests at most two ranges of storage, of at most 256 bytes each; it
/// has no effect.
///
/// A long move and a long compare go by parts.
pub fn few_ranges_are_tested()
    ensures { FewTests }
{}

/// Proves that the pages that an instruction asks for are all in one list of at most eight; it has
/// no effect.
///
/// The instruction lies in two pages at most, as do the target of EX and each range of its
/// operands.
pub fn few_pages_are_asked_for()
    ensures { UnitsAskForFewPages }
{}
