//! A system that forgets the lines that its consoles have printed, and the entries of closed files.
//!
//! They do not matter to what events leave ([`printed_lines_do_not_matter`]), so a system whose
//! lines and files were written elsewhere needs no memory for them.
ghost use Rattle.std.specs.Prelude.{◌≡◌, map};
ghost use Rattle.machine_devices.specs.Dropped.{AreDropped, IsDropped, closed_of, outputs_of};
ghost use Rattle.machine_devices.specs.declared.files.FileNote.{FileNote};
ghost use Rattle.cp_core.specs.Forgotten.{GoesOnAs, StepsGoOn, forgotten, seat_unprinted};

use crate::system::System;
use crate::user_machine::UserMachine;
use machine_devices::{FileKind, FileNote};

impl UserMachine {
    /// Drops the lines that the user's console has printed.
    fn forget_lines(&mut self)
        ensures { self.new ≡ seat_unprinted self.old }
    {
        self.machine.forget_lines();
    }
}

/// Drops the lines that the consoles of these users have printed.
fn forget_each(users: &mut [UserMachine])
    ensures { users.new ≡ map seat_unprinted users.old }
{
    for user in users.iter_mut() {
        user.forget_lines();
    }
}

impl System {
    /// Drops the lines that the consoles of all users have printed, and gives back their memory.
    pub fn forget_printed(&mut self)
        ensures { self.new ≡ forgotten self.old }
    {
        forget_each(&mut self.users);
    }

    /// Drops the entries of all files that have a number but of the first `since`, and gives back
    /// their memory; what follows goes on as with them.
    ///
    /// A file that a reader still has as a deck keeps its entries.
    pub fn forget_files(&mut self, since: usize)
        ensures on { GoesOnAs self.old self.new }
        ensures gone { AreDropped since self.new.files self.new.users }
        ensures lines { outputs_of self.new.users ≡ outputs_of self.old.users }
        ensures kept { self.new.kept ≡ self.old.kept }
    {
        for place in since..self.files.len() {
            if let Some(note) = self.files.get(place).copied() {
                self.forget_file(note);
            }
        }
    }

    /// Drops the entries of the file of this note.
    fn forget_file(&mut self, note: FileNote)
        ensures on { GoesOnAs self.old self.new }
        ensures gone { IsDropped self.new.users (closed_of self.new.users note) }
        ensures stays { (other : FileNote)
            → IsDropped self.old.users (closed_of self.old.users other)
            → IsDropped self.new.users (closed_of self.new.users other) }
        ensures lines { outputs_of self.new.users ≡ outputs_of self.old.users }
        ensures kept { self.new.kept ≡ self.old.kept }
        ensures files { self.new.files ≡ self.old.files }
    {
        match note.kind {
            FileKind::Punch(place) => self.queues.forget_punched(note.user, place),
            FileKind::Printer(place) => self.queues.forget_printed(note.user, place),
            FileKind::Deck => {}
        }
    }
}

/// States that lines that consoles have printed before do not matter: a step of a system without
/// them is one of the system that still has them.
pub fn printed_lines_do_not_matter()
    ensures { StepsGoOn }
{}
