//! What whole commands come to, whatever the device had before.
ghost use Rattle.unit_record.specs.Laws.{KeepsEightyBytes, PrintsOneEntry, PunchesOneCard};
ghost use Rattle.unit_record.specs.Laws.{ReadsDecksInOrder, WritesOn, WritesOneLine};
ghost use Rattle.unit_record.specs.Laws.{WritesTwoLines};

/// Proves that a punch command adds one card of its bytes to the open file, with blanks for missing
/// ones; it has no effect.
pub fn a_punch_adds_one_card()
    ensures one { PunchesOneCard }
    ensures whole { KeepsEightyBytes }
{}

/// Proves that a write of the printer adds one entry with its code and its bytes; it has no effect.
pub fn a_write_adds_one_entry()
    ensures { PrintsOneEntry }
{}

/// Proves that the cards of a deck are read in order, each once, and then the next deck; it has no
/// effect.
///
/// The read after the last card is refused with unit exception.
pub fn decks_are_read_in_order()
    ensures { ReadsDecksInOrder }
{}

/// Proves that no character that is written to a console is lost; it has no effect.
///
/// A write that ends the line makes one line of all that fits into 132 characters, else a line of
/// 132 and one of the rest. A write that does not end it leaves the line to be gone on with.
pub fn written_text_is_kept()
    ensures one_line { WritesOneLine }
    ensures two_lines { WritesTwoLines }
    ensures on { WritesOn }
{}
