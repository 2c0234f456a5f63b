//! A single machine that forgets the lines that its console has printed, and the entries of closed
//! files.
ghost use Rattle.std.specs.Prelude.{◌≡◌, ◌∷◌, []};
ghost use Rattle.machine_devices.specs.Dropped.{AreDropped, IsDropped, closed_of};
ghost use Rattle.machine_devices.specs.declared.files.FileNote.{FileNote};
ghost use Rattle.bare_installation.specs.Forgotten.{EventsGoOn, GoesOnAs, forgotten};

use crate::bare::Bare;
use machine_devices::{FileKind, FileNote};

impl Bare {
    /// Drops the lines that the console has printed, and gives back their memory.
    pub fn forget_printed(&mut self)
        ensures { self.new ≡ forgotten self.old }
    {
        self.machine.forget_lines();
    }

    /// Drops the entries of all files that have a number but of the first `since`, and gives back
    /// their memory; what follows goes on as with them.
    ///
    /// A file that the reader still has as a deck keeps its entries.
    pub fn forget_files(&mut self, since: usize)
        ensures on { GoesOnAs self.old self.new }
        ensures gone { AreDropped since self.new.files (self.new.equipped ∷ []) }
        ensures lines { self.new.equipped.machine.output ≡ self.old.equipped.machine.output }
    {
        for place in since..self.files.len() {
            if let Some(note) = self.files.get(place).copied() {
                self.forget_file(note);
            }
        }
    }

    /// Drops the entries of the file of this note.
    fn forget_file(&mut self, note: FileNote)
        ensures on { GoesOnAs self.old self.new }
        ensures gone { let machines = self.new.equipped ∷ [] in
            IsDropped machines (closed_of machines note) }
        ensures stays { let before = self.old.equipped ∷ [] in
            let after = self.new.equipped ∷ [] in
            (other : FileNote) → IsDropped before (closed_of before other)
            → IsDropped after (closed_of after other) }
        ensures lines { self.new.equipped.machine.output ≡ self.old.equipped.machine.output }
        ensures files { self.new.files ≡ self.old.files }
    {
        match note.kind {
            FileKind::Punch(place) => self.queues.forget_punched(note.user, place),
            FileKind::Printer(place) => self.queues.forget_printed(note.user, place),
            FileKind::Deck => {}
        }
    }
}

/// States that lines that were printed before, and entries of closed files, do not matter: an event
/// leaves the same of a machine without them.
pub fn printed_lines_do_not_matter()
    ensures { EventsGoOn }
{}
