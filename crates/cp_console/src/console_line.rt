//! A line that was written on a console.
ghost use Rattle.std.specs.Prelude.{◌≡◌, ◌≤◌, length, take};
ghost use Rattle.cp_console.specs.ConsoleLine.{characters_of};

/// The most characters of a line that is written on a console: a message of a user's name and text
/// has at most so many.
pub const MOST_CHARACTERS: usize = 144;

/// A line that a program, or another user, wrote on a console.
#[derive(Clone, Copy, Debug, PartialEq, Eq)]
pub struct ConsoleLine {
    characters: [u8; 144],
    length: u8,
}

impl ConsoleLine {
    /// Returns a line of the first [`MOST_CHARACTERS`] of these characters, or all if there are
    /// fewer.
    pub fn of(text: &[u8]) -> ConsoleLine
        ensures { characters_of result ≡ take 144 text.now }
    {
        let length = MOST_CHARACTERS.min(text.len());
        let mut characters = [b' '; 144];
        characters[..length].copy_from_slice(&text[..length]);
        ConsoleLine {
            characters,
            length: length as u8,
        }
    }

    /// Borrows the characters of the line.
    pub fn as_slice(&self) -> &[u8]
        ensures characters { result.now ≡ characters_of self.now }
        ensures short { length result.now ≤ 144 }
    {
        let length = usize::from(self.length).min(MOST_CHARACTERS);
        &self.characters[..length]
    }
}
