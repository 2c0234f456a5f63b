//! A line as a card.
ghost use Rattle.std.specs.Prelude.{◌≡◌};
ghost use Rattle.session_script.specs.Cards.{card_of, punched};

use s370_num::ebcdic::ebcdic_of;

/// The columns of a card.
pub(crate) const COLUMNS: usize = 80;

/// What stands for a character that has no byte, and after the last one.
const BLANK: u8 = 0x40;

/// Returns a card with the EBCDIC bytes of the first 80 characters of a line, and blanks after
/// them.
pub(crate) fn card_of(line: &[u8]) -> [u8; 80]
    ensures { result ≡ card_of line.now }
{
    let mut card = [BLANK; COLUMNS];
    let end = line.len().min(COLUMNS);
    for column in 0..end {
        card[column] = punched(line[column]);
    }
    card
}

/// Returns the EBCDIC byte of a character, or a blank if it has none.
fn punched(character: u8) -> u8
    ensures { result ≡ punched character }
{
    ebcdic_of(character).unwrap_or(BLANK)
}
