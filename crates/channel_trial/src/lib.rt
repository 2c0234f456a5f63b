//! Dry runs of channel programs, which tell the pages that a program touches and the bytes that it
//! leaves there. A page is absent until the program comes to it, and present from then on. Pages
//! that were not touched keep their bytes, and a dry run leaves what the program's walk will leave.
//!
//! ```
//! use channel_trial::limits_of; // `cp_trial` has the storage, and an example of a dry run
//! use s370_channel::{Caw, MOST_COMMANDS};
//! let start = Caw::from_word(0x1000_0800).ok_or("no address")?;
//! assert_eq!(rt; limits_of(start).commands, MOST_COMMANDS);
//! ```
#![tactic(auto)]

mod tried;

ghost use Rattle.std.specs.Prelude.{◌≡◌, ◌⊎◌, ℕ, Bool, List, false, slice_index_or, true};
ghost use Rattle.channel_trial.specs.Pages.{IsIn, KeepsUntouched};

use s370_channel::AmpleSupply;
pub use tried::{
    DryRun, TriedLoading, a_view_is_tried_for_its_device, limits_of, try_loading, try_program,
};

/// A storage for a dry run, which has room for each page and knows which were touched.
pub trait TrialSupply: AmpleSupply {
    /// Whether each of its pages was touched.
    ghost flags: { Self → List Bool };

    /// The pages that were touched are present.
    ghost present_flags: { (s : Self) (page : ℕ)
        → Self.present s page ≡ slice_index_or (flags s) page false };

    /// A page that has come was needed by one of the units.
    ghost came_for: { (s t : Self) (units : List (List ℕ)) → Self.Came s units t → (page : ℕ)
        → Self.present t page ≡ true → (Self.present s page ≡ true) ⊎ IsIn units page };

    /// Pages that were not touched have the bytes that they had.
    ghost came_beside: { (s t : Self) (units : List (List ℕ)) → Self.Came s units t
        → KeepsUntouched (Self.present t) (Self.memory s).bytes (Self.memory t).bytes };
}
