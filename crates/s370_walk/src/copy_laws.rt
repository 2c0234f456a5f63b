//! The laws of copied programs: each function is one about definitions.
ghost use Rattle.s370_walk.specs.CopyLaws as laws;

use crate::traits::Device;

/// States that a copy with real addresses ends as the copy with the guest's addresses does, with
/// the same device, and that real storage is then still the guest's.
pub fn real_walks_are_the_copys<D: Device>()
    ensures { laws.EndsAsTheCopy D }
{}

/// States that a run of the copy over real addresses is one of the guest's own program with words
/// and lists as they were copied, and as they become too if the program is steady.
pub fn real_walks_are_the_guests<D: Device>()
    ensures frozen { laws.EndsAsTheFrozen D }
    ensures steady { laws.EndsAsTheSteady D }
{}

/// States that a program that runs after one more command ends as it does by itself.
pub fn prefixed_walks_are_walks<D: Device>()
    ensures raised { laws.EndsBehindACommand D }
    ensures lowered { laws.EndsByItself D }
{}

/// States that a run over real addresses, each of which lies in a frame that is present, never
/// needs a page that is not.
pub fn real_walks_are_never_stuck<D: Device>()
    ensures { laws.NeedsNoPage D }
{}
