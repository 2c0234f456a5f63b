//! The channel program of an initial program loading (GA22-7000, "Initial Program Loading").
ghost use Rattle.std.specs.Prelude.{IfOk, IfErr};
ghost use Rattle.s370_walk.specs.Walk.{Over, Reaches, live};
ghost use Rattle.s370_channel.specs.Loading.{MatchLoading, loading, loading_limits};
ghost use Rattle.s370_channel.specs.Halts.{MatchHaltLoading};
ghost use Rattle.s370_channel.specs.Progress.{setting};

use crate::limits::Limits;
use crate::running::{ChannelError, RunStop, begin, go_on};
use crate::starting::{MOST_COMMANDS, first_spot};
use s370_num::AccessKey;
use s370_store::Storage;
use s370_walk::{Ccw, CommandCode, Device, Ending, Flags, Progress, WordForm};

/// Its first command, which is in no storage: to read 24 bytes to location 0, and then to go on
/// with the word at 8.
const IMPLIED: Ccw = Ccw {
    command: CommandCode { code: 0x02 },
    address: 0,
    flags: Flags { bits: 0x60 },
    count: 24,
    next: 8,
    skipped: 16,
};

/// Its key is zero, and its first command counts.
pub(crate) const LIMITS: Limits = Limits {
    key: AccessKey::ZERO,
    commands: MOST_COMMANDS,
    prefix: 0,
};

/// Runs the channel program of an initial program loading to its end, or until memory is refused or
/// a page is absent.
pub(crate) fn load<F: WordForm, S: Storage, D: Device>(
    program: &F,
    storage: &mut S,
    device: &mut D,
) -> Result<Ending, RunStop>
    ensures reaches { IfOk result
        (λ ending. Reaches (live (F.written program.now)) (setting D.machine loading_limits)
        (loading D.machine (S.memory storage.old) device.old)
        (Over ending (S.memory storage.new) device.new)) }
    ensures rest { S.Keeps storage.old storage.new }
    ensures halts { IfErr result
        (MatchHaltLoading (F.written program.now) D.machine D.needs_memory (S.present storage.old)
        (S.memory storage.old) device.old
        (S.memory storage.new) device.new) }
{
    match begin(program, storage, device, &LIMITS, &first_spot(0), IMPLIED)? {
        Progress::At(spot) => go_on(program, storage, device, &LIMITS, spot),
        Progress::Ended(ending) => Ok(ending),
    }
}

/// Runs the channel program of an initial program loading and returns its ending.
///
/// It has gone well if the ending has the unit status
/// [`UnitStatus::ENDED`](s370_walk::UnitStatus::ENDED) and no channel status.
///
/// # Errors
///
/// A `ChannelError`: refused memory that a command needs, or an absent page.
pub fn run_ipl<F: WordForm, S: Storage, D: Device>(
    program: &F,
    storage: &mut S,
    device: &mut D,
) -> Result<Ending, ChannelError>
    ensures reaches { IfOk result
        (λ ending. Reaches (live (F.written program.now)) (setting D.machine loading_limits)
        (loading D.machine (S.memory storage.old) device.old)
        (Over ending (S.memory storage.new) device.new)) }
    ensures rest { S.Keeps storage.old storage.new }
    ensures stuck { IfErr result
        (MatchLoading (F.written program.now) D.machine D.needs_memory (S.present storage.old)
        (S.memory storage.old) device.old) }
{
    match load(program, storage, device) {
        Ok(ending) => Ok(ending),
        Err(halt) => Err(halt.error()),
    }
}
