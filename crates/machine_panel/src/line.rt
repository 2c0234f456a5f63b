//! What lines ask of a machine alone.
ghost use Rattle.std.specs.Prelude.{◌≡◌, ◌<◌, ℕ, List, [], Some, None, IfOk, OnErr, OnOk, length};
ghost use Rattle.std.specs.Prelude.{true, false};
ghost use Rattle.s370_store.specs.Access.{Touches};
ghost use Rattle.s370_intr.specs.Run.{AllNeeded, IsLacking};
ghost use Rattle.machine_panel.specs.Machine.{machine_of};
ghost use Rattle.machine_panel.specs.Panel.{line, line_needs, line_room};

use crate::machine::{Machine, Mode};
use cp_console::commands::{Change, DisplayItem};
use cp_console::responses::Response;
use s370_num::Addr24;
use s370_store::Supply;
use thiserror::Error;

/// Why a line was not obeyed. Nothing has happened then.
#[derive(Clone, Copy, Debug, PartialEq, Eq, Drop, Error)]
pub enum LineError {
    /// A growth was refused.
    #[error("no memory is left")]
    Memory,
    /// It has to access a page that is not present, and there is no room for it.
    #[error("there is no room for a page that is wanted")]
    FramesOut,
}

/// What a line asks of a machine alone, once it was read.
#[derive(Clone, Copy, Debug, PartialEq, Eq)]
pub enum PanelLine {
    /// Nothing.
    Nothing,
    /// Nothing but that this is said; the console does not print it.
    Says(Response),
    /// That the machine stops, of which nothing is said.
    Stop,
    /// `BEGIN`: the machine runs, at an address where one is given.
    Begin(Option<Addr24>),
    /// `EXTERNAL`: the interrupt key is pressed.
    External,
    /// `DISPLAY`.
    Display(DisplayItem),
    /// `STORE`.
    Store(Change),
}

impl Machine {
    /// Carries out what a line asks of the machine itself, without its devices, and returns the
    /// response, if there is one; on an error the machine is as it was.
    ///
    /// # Errors
    ///
    /// A `LineError`: refused memory, or no room for a page that is needed.
    pub fn answer<S: Supply>(
        &mut self,
        storage: &mut S,
        asked: PanelLine,
    ) -> Result<Option<Response>, LineError>
        ensures ok { let before = machine_of self.old (S.Storage.memory storage.old) in
            let after = machine_of self.new (S.Storage.memory storage.new) in
            IfOk result (λ reply. line asked before ≡ record { machine = after; reply = reply }) }
        ensures err { let before = machine_of self.old (S.Storage.memory storage.old) in
            let after = machine_of self.new (S.Storage.memory storage.new) in
            OnErr result (after ≡ before) }
        ensures memory { result ≡ Err LineError.Memory → self.old.room < line_room asked }
        ensures frames { result ≡ Err LineError.FramesOut
            → IsLacking (Touches (line_needs asked)) (length (S.Storage.memory storage.old).bytes)
            (S.IsShort storage.new) }
        ensures supply { (pages : List ℕ) × S.Brought storage.old pages storage.new
            × AllNeeded (Touches (line_needs asked)) pages }
        ensures size { length (S.Storage.memory storage.new).bytes
            ≡ length (S.Storage.memory storage.old).bytes }
    {
        match asked {
            PanelLine::Nothing => Ok(None),
            PanelLine::Says(response) => Ok(Some(response)),
            PanelLine::Stop => {
                self.mode = Mode::Stopped;
                Ok(None)
            }
            PanelLine::Begin(address) => match self.begin(address) {
                Ok(()) => Ok(None),
                Err(_) => Err(LineError::Memory),
            },
            PanelLine::External => {
                self.external();
                Ok(None)
            }
            PanelLine::Display(place) => self.display(storage, place),
            PanelLine::Store(change) => self.store(storage, change),
        }
    }
}
