//! Ticks of the interval timer.
ghost use Rattle.std.specs.Prelude.{◌≡◌, ◌+◌, ◌≤◌, ℕ, List, [], ◌∷◌, OnErr, OnOk, Result, length};
ghost use Rattle.s370_intr.specs.Run.{AllNeeded, IsLacking};
ghost use Rattle.s370_intr.specs.Timer.{tick, timed};
ghost use Rattle.machine_panel.specs.Machine.{machine_of};
ghost use Rattle.machine_panel.specs.Tick.{TickNeeds, ticked};

use crate::machine::{Machine, Mode};
use s370_intr::{Pending, tick};
use s370_store::{FramesOut, Supply, UnitSupply};

impl Machine {
    /// Subtracts 256 from the interval timer of a machine that runs, which may make the timer
    /// condition pending; page 0 is paged in for it.
    ///
    /// If there is no room for page 0, nothing has changed. This takes no memory.
    ///
    /// # Errors
    ///
    /// `FramesOut` if there is no room for a page that is needed; no byte has changed.
    pub fn tick<S: UnitSupply>(&mut self, storage: &mut S) -> Result<(), FramesOut>
        requires large { 8192 ≤ length (S.Storage.memory storage.old).bytes }
        requires between { S.IsBetween storage.old }
        ensures ok { let before = machine_of self.old (S.Storage.memory storage.old) in
            let after = machine_of self.new (S.Storage.memory storage.new) in
            OnOk result (after ≡ ticked before) }
        ensures err { let before = machine_of self.old (S.Storage.memory storage.old) in
            let after = machine_of self.new (S.Storage.memory storage.new) in
            OnErr result (after ≡ before) }
        ensures frames { let before = machine_of self.old (S.Storage.memory storage.old) in
            OnErr result (IsLacking (TickNeeds before) (length (S.Storage.memory storage.old).bytes)
            (S.IsOut storage.new)) }
        ensures supply { let before = machine_of self.old (S.Storage.memory storage.old) in
            (pages : List ℕ) × S.Came storage.old (pages ∷ []) storage.new
            × AllNeeded (TickNeeds before) pages
            × (length pages ≤ 1) }
        ensures between { S.IsBetween storage.new }
        ensures room { length self.new.output + self.new.room
            ≡ length self.old.output + self.old.room }
    {
        match self.mode {
            Mode::Running => tick_supplied(&mut self.pending, storage),
            Mode::Off | Mode::Stopped => Ok(()),
        }
    }
}

/// Steps the interval timer, for which page 0 is paged in, and then ends the hold on that page.
fn tick_supplied<S: UnitSupply>(pending: &mut Pending, storage: &mut S) -> Result<(), FramesOut>
    requires large { 8192 ≤ length (S.Storage.memory storage.old).bytes }
    requires between { S.IsBetween storage.old }
    ensures ok { OnOk result (timed (S.Storage.memory storage.new).bytes pending.new
        ≡ tick (timed (S.Storage.memory storage.old).bytes pending.old)) }
    ensures err { OnErr result
        (timed (S.Storage.memory storage.new).bytes pending.new
        ≡ timed (S.Storage.memory storage.old).bytes pending.old) }
    ensures keys { (S.Storage.memory storage.new).keys ≡ (S.Storage.memory storage.old).keys }
    ensures frames { OnErr result
        (IsLacking (λ page. page ≡ 0) (length (S.Storage.memory storage.old).bytes)
        (S.IsOut storage.new)) }
    ensures supply { (pages : List ℕ) × S.Came storage.old (pages ∷ []) storage.new
        × AllNeeded (λ page. page ≡ 0) pages
        × (length pages ≤ 1) }
    ensures between { S.IsBetween storage.new }
{
    let ticked = bring_and_tick(pending, storage);
    storage.let_go();
    ticked
}

/// Steps the interval timer, after paging in page 0 if it is absent; if there is no room for it,
/// nothing has changed.
fn bring_and_tick<S: UnitSupply>(pending: &mut Pending, storage: &mut S) -> Result<(), FramesOut>
    requires { 8192 ≤ length (S.Storage.memory storage.old).bytes }
    ensures ok { OnOk result (timed (S.Storage.memory storage.new).bytes pending.new
        ≡ tick (timed (S.Storage.memory storage.old).bytes pending.old)) }
    ensures err { OnErr result
        (timed (S.Storage.memory storage.new).bytes pending.new
        ≡ timed (S.Storage.memory storage.old).bytes pending.old) }
    ensures keys { (S.Storage.memory storage.new).keys ≡ (S.Storage.memory storage.old).keys }
    ensures frames { OnErr result
        (IsLacking (λ page. page ≡ 0) (length (S.Storage.memory storage.old).bytes)
        (S.Supply.IsShort storage.new)) }
    ensures supply { (pages : List ℕ) × S.Supply.Brought storage.old pages storage.new
        × AllNeeded (λ page. page ≡ 0) pages × (length pages ≤ 1) }
    ensures size { length (S.Storage.memory storage.new).bytes
        ≡ length (S.Storage.memory storage.old).bytes }
{
    loop {
        match tick(pending, storage) {
            Ok(()) => return Ok(()),
            Err(page) => {
                storage.bring(page)?;
            }
        }
    }
}
