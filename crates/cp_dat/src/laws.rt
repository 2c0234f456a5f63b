//! What comes for a unit, whatever the unit.
ghost use Rattle.cp_dat.specs.Laws.{ComesOnce, StaysToTheEnd};

/// States that no page is paged in twice for a unit, and that each page that was is in a frame
/// until the unit ends.
pub fn a_page_comes_once_for_a_unit()
    ensures once { ComesOnce }
    ensures stays { StaysToTheEnd }
{}
