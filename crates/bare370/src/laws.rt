//! What a session of a machine of its own is, in its own terms.
ghost use Rattle.bare370.specs.Histories.{AreHistories};

/// States that the events of a session are a history of the machine, whose life is made of what
/// happens to it alone ([`bare_installation::each_is_life`]).
pub fn sessions_are_histories()
    ensures { AreHistories }
{}
