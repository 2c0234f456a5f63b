//! The run of a program over a storage that has its pages.
ghost use Rattle.std.specs.Prelude.{◌≡◌, IfErr, IfOk};
ghost use Rattle.cp_needs.specs.Words.{IsFixedStill};
ghost use Rattle.s370_channel.specs.Guest.{guest_written};
ghost use Rattle.s370_channel.specs.Progress.{MatchStuck, setting};
ghost use Rattle.s370_channel.specs.declared.running.ChannelError.TheVariants as errors;
ghost use Rattle.s370_walk.specs.Walk.{Fetching, Over, Reaches, live, start_spot};

use s370_channel::{ChannelError, Guest, Limits, run};
use s370_store::Storage;
use s370_walk::{Device, Ending};

/// Runs the program from an address on, each word read when it is reached, and returns how it
/// ended; no input must be able to change it, and the pages that it needs have to be present.
///
/// It stops only if memory is refused.
///
/// # Errors
///
/// A `ChannelError`: refused memory that a command or the analysis needs.
pub fn run_held<S: Storage, D: Device>(
    storage: &mut S,
    start: u32,
    limits: &Limits,
    device: &mut D,
) -> Result<Ending, ChannelError>
    requires still { IsFixedStill (S.memory storage.old) (S.present storage.old) start }
    ensures reaches { IfOk result
        (λ ending. Reaches (live guest_written) (setting D.machine limits.now)
        (Fetching (start_spot start) (S.memory storage.old) device.old)
        (Over ending (S.memory storage.new) device.new)) }
    ensures memory { IfErr result (λ error. error ≡ errors.Memory) }
    ensures short { IfErr result
        (MatchStuck guest_written (setting D.machine limits.now) D.needs_memory
        (S.present storage.old)
        (Fetching (start_spot start) (S.memory storage.old) device.old)) }
    ensures rest { S.Keeps storage.old storage.new }
{
    run(&Guest, storage, start, limits, device)
}
