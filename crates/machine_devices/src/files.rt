//! What files of the control program are, and the lines that `QUERY FILES` says.
ghost use Rattle.std.specs.Prelude.{◌≡◌, IfOk, map};
ghost use Rattle.machine_devices.specs.Files.{deck_line, sender_name};

use cp_console::printing::file_line;
use cp_spool::SeenDeck;
use std::alloc::{AllocError, Global};
use unit_record::Sender;
use user_names::{Named, UserNo};

/// What a file was when it got its number; and of one that a device closed its place among all that
/// this device has closed, from 0.
#[derive(Clone, Copy, Debug, PartialEq, Eq)]
pub enum FileKind {
    /// A deck that the operator gave.
    Deck,
    /// A file of the punch.
    Punch(usize),
    /// A file of the printer.
    Printer(usize),
}

/// Whose a file was when it got its number, and what.
#[derive(Clone, Copy, Debug, PartialEq, Eq)]
pub struct FileNote {
    /// The number of the user who closed it, or to whom the operator gave the deck.
    pub user: UserNo,
    /// What it was.
    pub kind: FileKind,
}

/// The files that a line closed: of the punch and of the printer the place of its file among all
/// that it has closed, from 0.
#[derive(Clone, Copy, Debug, PartialEq, Eq)]
pub struct ClosedFiles {
    /// That of the punch.
    pub punched: Option<usize>,
    /// That of the printer.
    pub printed: Option<usize>,
}

impl ClosedFiles {
    /// None at all.
    pub const NONE: ClosedFiles = ClosedFiles {
        punched: None,
        printed: None,
    };
}

/// Returns the line that reports a deck of the reader: its number, the name of its sender among
/// these users, and how many cards it has; the only error is that memory is refused.
///
/// ```text
/// let line = deck_line(alloc, &users, deck)?; // b"FILE 0001 FROM A CARDS 3"
/// ```
///
/// # Errors
///
/// `AllocError` if memory is refused.
pub fn deck_line<N: Named>(
    alloc: Global,
    users: &[N],
    deck: &SeenDeck<'_>,
) -> Result<Vec<u8>, AllocError>
    ensures { IfOk result (λ line. line.items ≡ deck_line (map N.name users.now) deck.now) }
{
    file_line(
        alloc,
        deck.label(),
        sender_name(users, deck.sender()),
        deck.count(),
    )
}

/// Returns the name of the sender of a deck: `SYSTEM` for the operator, empty for a user who is not
/// there.
fn sender_name<N: Named>(users: &[N], sender: Sender) -> &[u8]
    ensures { result.now ≡ sender_name (map N.name users.now) sender }
{
    match sender {
        Sender::System => b"SYSTEM",
        Sender::User(user) => match users.get(usize::from(user)) {
            Some(user) => user.name(),
            None => &[],
        },
    }
}
