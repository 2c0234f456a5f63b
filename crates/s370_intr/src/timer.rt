//! The interval timer.
ghost use Rattle.std.specs.Prelude.{◌≡◌, ◌≤◌, length};
ghost use Rattle.s370_intr.specs.Timer.{MeetsTick, is_negative, timed};

use crate::pending::Pending;
use s370_rows::reach;
use s370_store::{Access, Page, Range, Storage, load_word, store_word};

/// The location of the interval timer.
const TIMER: Range = Range {
    start: 80,
    count: 4,
};

/// What a tick takes from the interval timer.
const STEP: u32 = 256;

/// Subtracts 256 from the interval timer at location 80, and makes the timer condition pending if
/// that makes it negative.
///
/// GA22-7000, "Interval Timer". Keys are not tested. If page 0 is absent, nothing is changed.
///
/// # Errors
///
/// A page that is needed and absent; nothing has changed.
pub fn tick<S: Storage>(pending: &mut Pending, storage: &mut S) -> Result<(), Page>
    requires { 8192 ≤ length (S.memory storage.old).bytes }
    ensures tick { MeetsTick (S.present storage.old)
        (timed (S.memory storage.old).bytes pending.old) result
        (timed (S.memory storage.new).bytes pending.new) }
    ensures rest { S.Keeps storage.old storage.new }
{
    reach(storage, TIMER, Access::Store)?;
    let before = load_word(storage, TIMER.start);
    let after = before.wrapping_sub(STEP);
    store_word(storage, TIMER.start, after);
    pending.timer = pending.timer || (!is_negative(before) && is_negative(after));
    Ok(())
}

/// Returns whether a word is negative: its sign bit is one.
fn is_negative(word: u32) -> bool
    ensures { result ≡ is_negative word }
{
    word >= 0x8000_0000
}
