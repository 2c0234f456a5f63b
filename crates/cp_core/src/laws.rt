//! The main law: each user's machine equals a machine of its own; and that its replies are one.
ghost use Rattle.cp_core.specs.Alone.{EachEqualsABareMachine, EachEqualsABareMachineThroughStates};
ghost use Rattle.cp_core.specs.OneReply.{HistoriesAreOne, RepliesAreOne};

use crate::saved::one_by_saved;
use crate::system::each_is_bare;
use machine_devices::a_life_comes_to_one_end;

/// States that after any events each user's machine equals the machine of its own that was given
/// that user's own events, whoever else was logged on there.
///
/// The second clause states the same of a system that was saved and restored, however often.
pub fn each_equals_a_bare_machine()
    ensures whole { EachEqualsABareMachine }
    ensures restored { EachEqualsABareMachineThroughStates }
{
    each_is_bare();
    a_life_comes_to_one_end();
    one_by_saved();
}

/// States that the same event of a user's machine has one reply, whoever else is there, if it is
/// not cut short for want of frames; and that the same events have the same replies and leave the
/// same machines, however many frames there are.
pub fn a_reply_is_one()
    ensures reply { RepliesAreOne }
    ensures history { HistoriesAreOne }
{
    a_life_comes_to_one_end();
}
