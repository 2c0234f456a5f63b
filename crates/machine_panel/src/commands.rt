//! The commands of the panel that change or show a machine.
ghost use Rattle.std.specs.Prelude.{◌≡◌, ◌<◌, ℕ, List, None, Some, IfOk, OnErr, OnOk, Result};
ghost use Rattle.std.specs.Prelude.{length, true};
ghost use Rattle.s370_store.specs.Memory.{Memory};
ghost use Rattle.s370_rows.specs.State.{state_of};
ghost use Rattle.s370_store.specs.Access.{Touches};
ghost use Rattle.s370_intr.specs.Run.{AllNeeded, IsLacking};
ghost use Rattle.cp_console.specs.Responses.{is_panel, text_of};
ghost use Rattle.machine_panel.specs.DisplayStore.{changed, displayed, shown, stored, touched};
ghost use Rattle.machine_panel.specs.Machine.{machine_of, printed, reset};
ghost use Rattle.machine_panel.specs.Panel.{line};
ghost use Rattle.machine_panel.specs.declared.line.PanelLine.TheVariants as lines;
ghost use Rattle.cp_console.specs.declared.responses.Response.TheVariants.{SystemReset};

use crate::display_store::{change, display};
use crate::line::LineError;
use crate::machine::{Machine, Mode};
use cp_console::commands::{Change, DisplayItem};
use cp_console::responses::Response;
use s370_num::Addr24;
use s370_rows::Cpu;
use s370_store::{FramesOut, Supply};
use std::alloc::AllocError;

impl Machine {
    /// Does BEGIN: makes room for the notice of a stop, sets the instruction address if one is
    /// given, and sets the mode to running.
    pub(crate) fn begin(&mut self, address: Option<Addr24>) -> Result<(), AllocError>
        ensures ok { (m : Memory)
            → OnOk result (line (lines.Begin address) (machine_of self.old m)
            ≡ record { machine = machine_of self.new m; reply = None }) }
        ensures err { (m : Memory)
            → OnErr result (machine_of self.new m ≡ machine_of self.old m) }
        ensures memory { OnErr result (self.old.room < 1) }
    {
        self.output.make_room(1)?;
        match address {
            Some(address) => self.cpu.psw.set_address(address),
            None => {}
        }
        self.mode = Mode::Running;
        Ok(())
    }

    /// Does SYSTEM RESET: resets the machine and prints a response; general registers, storage,
    /// keys and printed lines stay.
    ///
    /// # Errors
    ///
    /// `AllocError` if memory is refused; the machine is then as it was.
    pub fn system_reset(&mut self) -> Result<(), AllocError>
        ensures ok { (m : Memory)
            → OnOk result (machine_of self.new m
            ≡ printed (reset (machine_of self.old m)) (text_of SystemReset)) }
        ensures err { (m : Memory)
            → OnErr result (machine_of self.new m ≡ machine_of self.old m) }
        ensures memory { OnErr result (self.old.room < 1) }
    {
        let answer = 1;
        self.output.make_room(answer)?;
        self.reset();
        self.output.print(&Response::SystemReset);
        Ok(())
    }

    /// Does EXTERNAL: makes the condition of the interrupt key pending.
    pub(crate) fn external(&mut self)
        ensures { (m : Memory)
            → line lines.External (machine_of self.old m)
            ≡ record { machine = machine_of self.new m; reply = None } }
    {
        self.pending.key = true;
    }

    /// Does DISPLAY: prints what an item holds and returns that response; absent pages that are
    /// shown are paged in.
    ///
    /// A machine that runs keeps the room for the notice of its stop.
    pub(crate) fn display<S: Supply>(
        &mut self,
        storage: &mut S,
        place: DisplayItem,
    ) -> Result<Option<Response>, LineError>
        ensures ok { let before = machine_of self.old (S.Storage.memory storage.old) in
            let after = machine_of self.new (S.Storage.memory storage.new) in
            IfOk result (λ reply. line (lines.Display place) before
            ≡ record { machine = after; reply = reply }) }
        ensures err { let before = machine_of self.old (S.Storage.memory storage.old) in
            let after = machine_of self.new (S.Storage.memory storage.new) in
            OnErr result (after ≡ before) }
        ensures memory { result ≡ Err LineError.Memory → self.old.room < 2 }
        ensures frames { result ≡ Err LineError.FramesOut
            → IsLacking (Touches (shown place)) (length (S.Storage.memory storage.old).bytes)
            (S.IsShort storage.new) }
        ensures supply { (pages : List ℕ) × S.Brought storage.old pages storage.new
            × AllNeeded (Touches (shown place)) pages }
        ensures size { length (S.Storage.memory storage.new).bytes
            ≡ length (S.Storage.memory storage.old).bytes }
    {
        match self.output.make_room(2) {
            Ok(()) => {}
            Err(_) => return Err(LineError::Memory),
        }
        match display_supplied(&self.cpu, storage, &place) {
            Ok(response) => {
                self.output.print(&response);
                Ok(Some(response))
            }
            Err(FramesOut) => Err(LineError::FramesOut),
        }
    }

    /// Does STORE: changes an item, prints a response and returns it; absent pages that are changed
    /// are paged in.
    ///
    /// A machine that runs keeps the room for the notice of its stop.
    pub(crate) fn store<S: Supply>(
        &mut self,
        storage: &mut S,
        change: Change,
    ) -> Result<Option<Response>, LineError>
        ensures ok { let before = machine_of self.old (S.Storage.memory storage.old) in
            let after = machine_of self.new (S.Storage.memory storage.new) in
            IfOk result (λ reply. line (lines.Store change) before
            ≡ record { machine = after; reply = reply }) }
        ensures err { let before = machine_of self.old (S.Storage.memory storage.old) in
            let after = machine_of self.new (S.Storage.memory storage.new) in
            OnErr result (after ≡ before) }
        ensures memory { result ≡ Err LineError.Memory → self.old.room < 2 }
        ensures frames { result ≡ Err LineError.FramesOut
            → IsLacking (Touches (touched change)) (length (S.Storage.memory storage.old).bytes)
            (S.IsShort storage.new) }
        ensures supply { (pages : List ℕ) × S.Brought storage.old pages storage.new
            × AllNeeded (Touches (touched change)) pages }
        ensures size { length (S.Storage.memory storage.new).bytes
            ≡ length (S.Storage.memory storage.old).bytes }
    {
        match self.output.make_room(2) {
            Ok(()) => {}
            Err(_) => return Err(LineError::Memory),
        }
        match change_supplied(&mut self.cpu, storage, &change) {
            Ok(response) => {
                self.output.print(&response);
                Ok(Some(response))
            }
            Err(FramesOut) => Err(LineError::FramesOut),
        }
    }
}

/// Returns the response with what an item holds, after paging in each absent page that is shown.
fn display_supplied<S: Supply>(
    cpu: &Cpu,
    storage: &mut S,
    place: &DisplayItem,
) -> Result<Response, FramesOut>
    ensures ok { let s = state_of cpu.now (S.Storage.memory storage.old) in
        IfOk result (λ response. response ≡ displayed place.now s) }
    ensures kept { IfOk result (λ response. is_panel response ≡ true) }
    ensures err { OnErr result
        (IsLacking (Touches (shown place.now)) (length (S.Storage.memory storage.old).bytes)
        (S.IsShort storage.new)) }
    ensures supply { (pages : List ℕ) × S.Brought storage.old pages storage.new
        × AllNeeded (Touches (shown place.now)) pages }
    ensures still { S.Storage.memory storage.new ≡ S.Storage.memory storage.old }
{
    loop {
        match display(*place, cpu, storage) {
            Ok(response) => return Ok(response),
            Err(page) => {
                storage.bring(page)?;
            }
        }
    }
}

/// Changes an item as a command says and returns the response, after paging in each absent page
/// that is changed.
fn change_supplied<S: Supply>(
    cpu: &mut Cpu,
    storage: &mut S,
    change_of: &Change,
) -> Result<Response, FramesOut>
    ensures ok { let before = state_of cpu.old (S.Storage.memory storage.old) in
        let after = state_of cpu.new (S.Storage.memory storage.new) in
        IfOk result (λ response. (response ≡ stored change_of.now before)
        × (after ≡ changed change_of.now before)) }
    ensures kept { IfOk result (λ response. is_panel response ≡ true) }
    ensures unchanged { let before = state_of cpu.old (S.Storage.memory storage.old) in
        let after = state_of cpu.new (S.Storage.memory storage.new) in
        OnErr result (after ≡ before) }
    ensures err { OnErr result
        (IsLacking (Touches (touched change_of.now)) (length (S.Storage.memory storage.old).bytes)
        (S.IsShort storage.new)) }
    ensures supply { (pages : List ℕ) × S.Brought storage.old pages storage.new
        × AllNeeded (Touches (touched change_of.now)) pages }
    ensures size { length (S.Storage.memory storage.new).bytes
        ≡ length (S.Storage.memory storage.old).bytes }
{
    loop {
        match change(*change_of, cpu, storage) {
            Ok(response) => return Ok(response),
            Err(page) => {
                storage.bring(page)?;
            }
        }
    }
}
