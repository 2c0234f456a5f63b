//! The laws: each function is one about definitions.
ghost use Rattle.cp_needs.specs.Laws as laws;

use s370_walk::Device;

/// States that a program no input of which can change its words walks by the words with which it
/// began, and never needs another page if those that it needs are present.
pub fn fixed_programs_need_their_pages<D: Device>()
    ensures steady { laws.StaysAsItBegan D }
    ensures enough { laws.NeedsItsPages D }
{}
