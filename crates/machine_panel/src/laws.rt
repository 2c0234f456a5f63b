//! Laws of a machine, as functions that promise them.
ghost use Rattle.machine_panel.specs.Forgotten.{PrintedLinesDoNotMatter};

/// Proves that a machine does the same without the lines that were printed before; it has no
/// effect.
pub fn printed_lines_do_not_matter()
    ensures { PrintedLinesDoNotMatter }
{}
