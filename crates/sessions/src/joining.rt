//! The order in which started programs join the serve queue.
ghost use Rattle.sessions.specs.Started.{StartsAreComplete, StartsAreInOrder};

/// States which programs join the serve queue after an event: those of the user's devices that work
/// and were started since, each once, in the order of their starts.
pub fn starts_are_in_order()
    ensures ordered { StartsAreInOrder }
    ensures complete { StartsAreComplete }
{}
