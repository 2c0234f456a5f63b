//! Programs whose words are read as they are reached, in the storage of their own machine.
ghost use Rattle.std.specs.Prelude.{IfErr, IfOk};
ghost use Rattle.s370_channel.specs.Guest.{guest_written};
ghost use Rattle.s370_channel.specs.Loading.{MatchLoading};
ghost use Rattle.machine_channels.specs.Channels.{WalksLoading};
ghost use Rattle.s370_channel.specs.Reading.{as_reached};
ghost use Rattle.s370_channel.specs.Runs.{IsStopped, ReportsAbsent, Walks};

use s370_channel::{Caw, ChannelError, Guest, Limits, MOST_COMMANDS, run, run_ipl};
use s370_store::Storage;
use s370_walk::{Device, Ending};

/// Runs the program with this start for a device, each word read when it is reached, and returns
/// how it ended.
#[tactic(auto, using(crate::proofs::Away::told_away))]
pub(crate) fn run_live<S: Storage, D: Device>(
    storage: &mut S,
    start: Caw,
    device: &mut D,
) -> Result<Ending, ChannelError>
    ensures walk { IfOk result
        (λ ending. Walks as_reached D.machine start
        (S.memory storage.old) device.old ending
        (S.memory storage.new) device.new) }
    ensures absent { IfErr result (ReportsAbsent (S.present storage.old)) }
    ensures stopped { IfErr result
        (IsStopped D.machine D.needs_memory (S.present storage.old) start
        (S.memory storage.old) device.old) }
    ensures rest { S.Keeps storage.old storage.new }
{
    let limits = Limits {
        key: start.key,
        commands: MOST_COMMANDS,
        prefix: 0,
    };
    run(&Guest, storage, start.address.get(), &limits, device)
}

/// Runs the program of an initial program loading for a device, each word read when it is reached,
/// and returns how it ended.
pub(crate) fn load_live<S: Storage, D: Device>(
    storage: &mut S,
    device: &mut D,
) -> Result<Ending, ChannelError>
    ensures walk { IfOk result
        (λ ending. WalksLoading D.machine (S.memory storage.old) device.old ending
        (S.memory storage.new) device.new) }
    ensures stuck { IfErr result
        (MatchLoading guest_written D.machine D.needs_memory (S.present storage.old)
        (S.memory storage.old) device.old) }
    ensures rest { S.Keeps storage.old storage.new }
{
    run_ipl(&Guest, storage, device)
}
