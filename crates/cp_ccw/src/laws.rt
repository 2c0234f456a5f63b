//! Real storage holds the guest's: what a run over real addresses takes for granted.
ghost use Rattle.std.specs.Prelude.{◌≡◌, ℕ, ◌≤◌, ◌%◌, List, Option, length};
ghost use Rattle.cp_frames.specs.declared.numbers.UserPage.{UserPage};
ghost use Rattle.s370_store.specs.Memory.{memory_of};
ghost use Rattle.s370_walk.specs.Mapped.{IsMapped, Named, Program};
ghost use Rattle.s370_walk.specs.Unstuck.{ArePresent};
ghost use Rattle.cp_ccw.specs.Layout.{real_bytes, real_keys, is_real_page, real_of};
ghost use Rattle.cp_ccw.specs.Mapped.{IsLent, AreHeld};

/// States that what is at a user's addresses is at the addresses of his frames, under the same
/// keys.
pub fn real_storage_is_mapped()
    ensures { (storage keys area : List ℕ) (owners : List (Option UserPage)) (user : ℕ)
        → length storage ≤ 4294967295 → length owners ≤ 4096
        → IsLent storage keys area owners user }
{}

/// States that a run over real addresses takes no more for granted, if the program names only
/// addresses on pages that are in frames, or past storage.
pub fn held_programs_are_mapped()
    ensures mapped { (storage keys own : List ℕ) (owners : List (Option UserPage)) (user : ℕ)
        (c : Program)
        → length storage ≤ 4294967295 → length owners ≤ 4096 → length storage % 4096 ≡ 0
        → AreHeld c owners user (length storage)
        → IsMapped (real_of owners user (length storage)) (Named c) (memory_of storage keys)
        (memory_of (real_bytes storage owners user own)
        (real_keys storage keys owners user (length own))) }
    ensures present { (storage : List ℕ) (owners : List (Option UserPage)) (user : ℕ)
        → ArePresent (real_of owners user (length storage)) (is_real_page storage owners user) }
{}
