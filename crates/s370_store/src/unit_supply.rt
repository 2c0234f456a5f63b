//! A storage that brings absent pages for one unit of operation after another.
//!
//! What is brought for a unit is held until the unit ends: it tries, brings the page that was
//! absent and tries again, each page but once, since what is held is present; and then it lets go.
//! So a unit brings no more pages than it needs, and a storage that can hold nine says that there
//! is no room only where there is none for any unit.
//!
//! Whatever was brought from a state between units on, letting go leads to such a state again, and
//! just the pages that were brought came from one to the other, as those of one unit.
ghost use Rattle.std.specs.Prelude.{◌≡◌, ◌≤◌, ℕ, List, [], ◌∷◌, ◌++◌, length, replicate, true};
ghost use Rattle.std.specs.Prelude.{Contains};

use crate::{PlainStorage, Supply};

/// A storage whose absent pages are brought for a unit, and held until it ends.
///
/// ```
/// let done = loop {
///     match try_it(storage) {
///         Ok(()) => break Ok(()),
///         Err(page) => ..                    // Supply::bring
///     }
/// };
/// storage.let_go();
/// done
/// ```
pub trait UnitSupply: Supply {
    /// Between two units: nothing is held, and there is room to hold the nine pages that a unit may
    /// need.
    ghost IsBetween: { Self → Type 0 };

    /// There is no room for this page, though nothing is held.
    ghost IsOut: { Self → ℕ → Type 0 };

    /// From one state between units to another just these pages came, for each unit in turn, in
    /// this order; what this storage is borrowed from stays.
    ghost Came: { Self → List (List ℕ) → Self → Type 0 };

    /// What was brought is held no longer. It stays present, until another page takes its place.
    ghost LetsGo: { Self → Self → Type 0 };

    /// Ends the hold on all pages that `bring` made present; they stay present until others take
    /// their frames, and no byte or key changes.
    fn let_go(&mut self)
        ensures memory { Self.memory self.new ≡ Self.memory self.old }
        ensures let_go { LetsGo self.old self.new };

    /// What was brought is present, whatever was brought after it.
    ghost held: { (s t : Self) (pages : List ℕ) (page : ℕ) → Self.Brought s pages t
        → Contains pages page
        → Self.present t page ≡ true };

    /// Letting go ends a unit.
    ghost let_go_between: { (s t u : Self) (pages : List ℕ) → IsBetween s → Self.Brought s pages t
        → LetsGo t u
        → IsBetween u };

    /// What was brought has come, for one unit.
    ghost let_go_came: { (s t u : Self) (pages : List ℕ) → Self.Brought s pages t → LetsGo t u
        → Came s (pages ∷ []) u };

    /// If there was no room next to at most nine pages that are held, there is none.
    ghost let_go_out: { (s t u : Self) (pages : List ℕ) (page : ℕ) → IsBetween s
        → Self.Brought s pages t
        → length pages ≤ 9 → Self.IsShort t page → LetsGo t u → IsOut u page };

    /// An access holds nothing.
    ghost between_kept: { (s t : Self) → Self.KeepsRest s t → IsBetween s → IsBetween t };

    /// No page comes by an access, for so many units.
    ghost came_none: { (s t : Self) (units : ℕ) → IsBetween s → Self.KeepsRest s t
        → Came s (replicate units []) t };

    /// What has come has as many bytes.
    ghost came_size: { (s t : Self) (units : List (List ℕ)) → Came s units t
        → length (Self.memory t).bytes ≡ length (Self.memory s).bytes };

    /// What comes for some units and then for others comes for all of them.
    ghost came_on: { (s t u : Self) (before after : List (List ℕ)) → Came s before t
        → Came t after u
        → Came s (before ++ after) u };
}

/// All of it is there, so nothing is ever held.
impl UnitSupply for PlainStorage {
    ghost use Rattle.std.specs.Prelude.{refl};
    ghost use Rattle.s370_store.specs.Plain.{PlainRest, plain_memory, plain_rest_on};

    ghost IsBetween = { λ _. Unit {0} };

    ghost IsOut = { λ _ _. ⊥ };

    ghost Came = { λ s _ t. PlainRest s t };

    ghost LetsGo = { PlainRest };

    /// Does nothing: no page is ever held.
    #[inline]
    fn let_go(&mut self)
        ensures memory { plain_memory self.new ≡ plain_memory self.old }
        ensures let_go { PlainRest self.old self.new }
    {}

    ghost held = { λ s t pages page brought listed. refl };

    ghost let_go_between = { λ s t u pages between brought let_go. tt };

    ghost let_go_came = { λ s t u pages brought let_go. plain_rest_on s t u brought let_go };

    ghost let_go_out = { λ s t u pages page between brought few short let_go. short };

    ghost between_kept = { λ s t kept between. tt };

    ghost came_none = { λ s t units between rest. rest };

    ghost came_size = { λ s t units paged_in. paged_in };

    ghost came_on = { λ s t u before after a b. plain_rest_on s t u a b };
}
