//! What the program's events are to the desk's promises.
ghost use Rattle.logon_desk_cli.specs.Histories.{AreOneHistory};

/// States that the events of a frame after those of the frames before it are one history of the
/// desk, so all that `logon_desk::keeps_its_promises` says of histories holds at each frame.
pub fn are_one_history()
    ensures { AreOneHistory }
{}
