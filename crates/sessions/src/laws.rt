//! What follows for the users of a session, and for one that goes on from a saved state.
ghost use Rattle.sessions.specs.Fair.{ServesAreFair, SlicesAreFair};
ghost use Rattle.sessions.specs.OneTranscript.{HaveOneReply, TranscriptsAreOne};
ghost use Rattle.sessions.specs.Queued.{BeginsWithWhatWorks, BeginsWithWhoIsOn, KeepsWhatWorks};
ghost use Rattle.sessions.specs.Queued.{KeepsWhoIsOn, ServesReachAll, SlicesReachAll};
ghost use Rattle.sessions.specs.Runs.{GoesOn, RestoredContinue, RunsAreASession};

use crate::installation::Installation;
use cp_dispatch::is_fair;
use session_script::reads_grammar;

/// States that a user with j others before him in the queue who stays on and ready has one of the
/// next j + 1 slices, and a program that stays in the serve queue likewise a serve.
///
/// So nobody in a session waits for ever.
pub fn sessions_are_fair<I: Installation>()
    ensures slices { SlicesAreFair I.goes }
    ensures serves { ServesAreFair I.goes }
{
    is_fair();
}

/// States that the queue has the users who are logged on, each once, and nobody else: when a session
/// begins, and after whatever is done.
///
/// So, of as many successive slices as users are on, each user who is on and stays ready has one.
pub fn queue_has_who_is_on<I: Installation>()
    ensures first { BeginsWithWhoIsOn }
    ensures stays { KeepsWhoIsOn I.goes }
    ensures slices { SlicesReachAll I.goes }
{
    is_fair();
    I::events_turn_their_own();
}

/// States that the serve queue has the programs of the devices that work, each once, and no other:
/// when a session begins, and after whatever is done.
///
/// So, of as many successive serves as devices work, each program that stays waiting has one.
pub fn serve_queue_has_what_works<I: Installation>()
    ensures first { BeginsWithWhatWorks }
    ensures stays { KeepsWhatWorks I.goes }
    ensures serves { ServesReachAll I.goes }
{
    is_fair();
    I::events_turn_their_own();
}

/// States that runs that each go on from the state which the run before saved do one script, and
/// write its transcript.
///
/// It holds however often the program is started anew.
pub fn restored_sessions_go_on<I: Installation>()
    ensures restored { RestoredContinue I.goes }
    ensures join { GoesOn I.goes }
    ensures runs { RunsAreASession I.goes }
{
    reads_grammar();
    I::one_by_saved();
    I::printed_lines_do_not_matter();
}

/// States that the same acts write one transcript, if no event is cut short for want of frames and
/// events of such installations have one reply.
pub fn a_transcript_is_one<I: Installation>()
    ensures { HaveOneReply I.goes → TranscriptsAreOne I.goes }
{}
