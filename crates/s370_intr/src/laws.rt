//! How many pages a unit and a run need, whatever the state.
ghost use Rattle.s370_intr.specs.Laws.{NinePages, NinePagesEach};

/// Proves that all pages that a unit needs, whatever the state, are in one list of at most nine; it
/// has no effect.
///
/// They are two of the instruction, two of the target of EX, four of its operands, and page 0. So
/// the pages of a run are in a list of at most nine for each unit that it did, and nine more if a
/// page was absent at its end.
pub fn a_unit_needs_at_most_nine_pages()
    ensures unit { NinePages }
    ensures run { NinePagesEach }
{}
