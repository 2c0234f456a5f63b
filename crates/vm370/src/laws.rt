//! What a session of a system is, in its own terms.
ghost use Rattle.sessions.specs.OneTranscript.{TranscriptsAreOne};
ghost use Rattle.vm370.specs.Goes.{system_goes};
ghost use Rattle.vm370.specs.Histories.{AreHistories, BootsAreOfOneBase};

use crate::installation::SharedMachines;
use cp_core::a_reply_is_one;
use sessions::a_transcript_is_one;

/// States that the events of a session are a history of the system, of which each user has the
/// machine that his own events leave ([`cp_core::each_is_bare`]).
pub fn sessions_are_histories()
    ensures { AreHistories }
{}

/// States that systems that were booted from one directory, with volumes of the same serial numbers
/// and sizes, are of one base: a state that one of them has saved can be restored in each of them
/// ([`sessions::restored_sessions_go_on`]).
pub fn boots_are_of_one_base()
    ensures { BootsAreOfOneBase }
{}

/// States that the same script has one transcript in two systems of which the same is seen at first,
/// however many frames and slots each has, if no event of either is cut short for want of frames.
///
/// The turns that are dealt are part of it: each goes to the same user or device.
pub fn transcripts_are_one()
    ensures { TranscriptsAreOne system_goes }
{
    a_reply_is_one();
    a_transcript_is_one::<SharedMachines>();
}
