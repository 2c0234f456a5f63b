//! A storage that says whether there is room for every page of it.
ghost use Rattle.std.specs.Prelude.{◌≡◌, ◌<◌, ◌*◌, ℕ, List, length, Contains};

use s370_store::{PlainStorage, UnitSupply};

/// A storage whose absent pages can be brought, and that says where none is refused, as long as
/// what was brought is let go in time.
pub trait AmpleSupply: UnitSupply {
    /// There is room for every page: for as many as are nowhere, whatever is held.
    ghost IsAmple: { Self → Type 0 };

    /// If there is room for every page, there is room for each.
    ghost ample_out: { (s : Self) (page : ℕ) → IsAmple s
        → page * 4096 < length (Self.memory s).bytes
        → Self.IsOut s page → ⊥ };

    /// An access takes no room.
    ghost ample_kept: { (s t : Self) → Self.Keeps s t → IsAmple s → IsAmple t };

    /// What is brought takes the room that was left for it.
    ghost ample_brought: { (s t : Self) (pages : List ℕ) → Self.Brought s pages t
        → length (Self.memory t).bytes ≡ length (Self.memory s).bytes
        → ((page : ℕ) → Contains pages page → page * 4096 < length (Self.memory s).bytes)
        → IsAmple s → IsAmple t };

    /// Letting go takes no room.
    ghost ample_let_go: { (s t : Self) → Self.LetsGo s t
        → length (Self.memory t).bytes ≡ length (Self.memory s).bytes
        → IsAmple s → IsAmple t };
}

/// All of it is there.
impl AmpleSupply for PlainStorage {
    ghost IsAmple = { λ _. Unit {0} };

    ghost ample_out = { λ s page ample inside out. out };

    ghost ample_kept = { λ s t kept ample. tt };

    ghost ample_brought = { λ s t pages brought size inside ample. tt };

    ghost ample_let_go = { λ s t let_go size ample. tt };
}
