//! What the desk promises, whatever happens.
ghost use Rattle.logon_desk.specs.Laws.{HasAuthority, HasBounds, HasSecrets, IsComplete};
ghost use Rattle.logon_desk.specs.Laws.{IsIsolated, TakesTurns, WaitsBriefly};

/// States that the desk keeps its promises in all histories: who is on, who types and sees lines,
/// and how long anything waits.
///
/// Whoever is on has given the user's name and password at that connection, and the host has said
/// that they are right; a line of the script is typed by nobody else, a line of the transcript is
/// shown to nobody else, and each of them is; no byte is lost or left from another connection; a
/// password is only for the host; a wrong one and an unknown name are answered alike; guesses at one
/// name from one address are judged one after another, and no other guess waits for them; and all
/// that is kept has bounds.
pub fn keeps_its_promises()
    ensures authority { HasAuthority }
    ensures isolation { IsIsolated }
    ensures completeness { IsComplete }
    ensures secrets { HasSecrets }
    ensures turns { TakesTurns }
    ensures waiting { WaitsBriefly }
    ensures bounds { HasBounds }
{}
