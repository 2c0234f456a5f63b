//! What is the same for all installations.
ghost use Rattle.sessions.specs.Alike.{TranscriptsAgree};

use crate::installation::Installation;

/// States that the same events with the same replies, which leave the same decks and printed lines,
/// have the same transcript, if the users have the same names.
///
/// So a user of the system reads what the user of a machine of its own reads, but for the name.
pub fn transcripts_agree<I: Installation, J: Installation>()
    ensures { TranscriptsAgree I.goes J.goes }
{}
