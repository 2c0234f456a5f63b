//! A storage that brings its absent pages.
ghost use Rattle.std.specs.Prelude.{◌≡◌, ℕ, ◌<◌, List, [], ◌∷◌, ◌++◌, OnOk, OnErr, length};
ghost use Rattle.s370_store.specs.Access.{IsAbsent};
ghost use Rattle.s370_store.specs.Memory.{cleared_memory};

use crate::{Keyed, Page, PlainStorage};
use thiserror::Error;

/// There is no room for a page that is wanted: no frame is free for it, and no other page can leave
/// one.
#[derive(Clone, Copy, Debug, PartialEq, Eq, Error)]
#[error("there is no room for a page that is wanted")]
pub struct FramesOut;

/// A storage whose absent pages can be brought.
///
/// Code that has to go on where a page is absent is written over it once, for a storage that is all
/// there as for one that is borrowed from frames: it tries, brings the page that was absent, and
/// tries again.
///
/// ```
/// loop {
///     match try_it(storage) {
///         Ok(value) => return Ok(value),
///         Err(page) => storage.bring(page)?,
///     }
/// }
/// ```
pub trait Supply: Keyed {
    /// How many more pages can be brought.
    ghost spare: { Self → ℕ };

    /// There is no room for this page, which is not present.
    ghost IsShort: { Self → ℕ → Type 0 };

    /// From one to the other just these pages were brought, in this order; what this storage is
    /// borrowed from stays.
    ghost Brought: { Self → List ℕ → Self → Type 0 };

    /// What clearing leaves of all that this storage is borrowed from.
    ghost Cleared: { Self → Self → Type 0 };

    /// Sets all bytes and keys to zero, as at power-on; pages may be absent.
    fn clear(&mut self)
        ensures memory { Self.memory self.new ≡ cleared_memory (Self.memory self.old) }
        ensures cleared { Cleared self.old self.new };

    /// Makes an absent page present, if there is room for it; no byte and no key changes.
    ///
    /// # Errors
    ///
    /// `FramesOut` if there is no room for a page that is needed; no byte has changed.
    fn bring(&mut self, page: Page) -> Result<(), FramesOut>
        requires { IsAbsent (length (Self.memory self.old).bytes) (Self.present self.old) page.0 }
        ensures memory { Self.memory self.new ≡ Self.memory self.old }
        ensures fewer { OnOk result (spare self.new < spare self.old) }
        ensures brought { OnOk result (Brought self.old (page.0 ∷ []) self.new) }
        ensures refused { OnErr result (Brought self.old [] self.new) }
        ensures short { OnErr result (IsShort self.new page.0) };

    /// What an access keeps brings nothing.
    ghost brought_none: { (s t : Self) → Self.Keyed.KeepsRest s t → Brought s [] t };

    /// What is brought twice is brought.
    ghost brought_on: { (s t u : Self) (before after : List ℕ) → Brought s before t
        → Brought t after u
        → Brought s (before ++ after) u };

    /// An access takes no room.
    ghost spare_kept: { (s t : Self) → Self.Keyed.KeepsRest s t → spare t ≡ spare s };
}

/// All of it is there, so nothing is ever brought: `bring` does nothing, whatever it is asked for.
impl Supply for PlainStorage {
    ghost use Rattle.std.specs.Prelude.{refl};
    ghost use Rattle.s370_store.specs.Plain.{PlainRest, plain_memory, plain_rest_on};

    ghost spare = { λ _. 0 };

    ghost IsShort = { λ _ _. ⊥ };

    ghost Brought = { λ s _ t. PlainRest s t };

    ghost Cleared = { λ _ _. Unit {0} };

    /// Sets all bytes and storage keys to zero.
    fn clear(&mut self) {
        PlainStorage::zero(self);
    }

    /// Does nothing and returns `Ok`: no page is ever absent.
    fn bring(&mut self, _page: Page) -> Result<(), FramesOut>
        ensures memory { plain_memory self.new ≡ plain_memory self.old }
        ensures done { result ≡ Ok tt }
    {
        Ok(())
    }

    ghost brought_none = { λ s t rest. rest };

    ghost brought_on = { λ s t u before after a b. plain_rest_on s t u a b };

    ghost spare_kept = { λ s t k. refl };
}
