//! The run of a guest's program that was given real addresses.
ghost use Rattle.std.specs.Prelude.{◌≡◌, IfOk, IfErr};
ghost use Rattle.cp_dat.specs.Lent.{KeepsStored};
ghost use Rattle.s370_store.specs.Memory.{Memory};
ghost use Rattle.s370_channel.specs.Guest.{guest_text};
ghost use Rattle.s370_channel.specs.declared.running.ChannelError.TheVariants as errors;
ghost use Rattle.s370_walk.specs.Copy.{guest_of, IsPlace};
ghost use Rattle.cp_ccw.specs.Shown.{KeepsReal};
ghost use Rattle.cp_ccw.specs.Translated.{IsTranslatedFor};
ghost use Rattle.cp_ccw.specs.Runs.{dat_of, IsGuestsRun};

use crate::real::Real;
use crate::table::Table;
use cp_dat::Dat;
use s370_channel::{ChannelError, Limits, run};
use s370_store::Storage;
use s370_walk::{Device, Ending};

/// Links past the places stand for addresses at which the guest has no word.
const PAST: u32 = 0x8000_0000;

/// Returns the guest's address of a place in a table, or of a link past all places.
fn guest_address(table: &Table, at: u32) -> u32
    ensures { result ≡ guest_of table.now.places.items at }
{
    match table.places.get(at as usize) {
        Some(place) => place.address,
        None => at.saturating_sub(PAST),
    }
}

/// Runs a translated program over real storage, and returns how it ended, with the guest's address.
///
/// It ends as the guest's own program does over his storage, where its words stay as they were when
/// they were copied.
///
/// No page is ever absent; an error is reported only where the device is refused memory.
///
/// # Errors
///
/// A `ChannelError`: refused memory that a command or the analysis needs.
pub fn run_translated<'a, 'b, 'c, D: Device>(
    table: &Table,
    real: &mut Real<'a, 'b, 'c>,
    limits: &Limits,
    device: &mut D,
) -> Result<Ending, ChannelError>
    ensures runs { IfOk result (λ ending. (m0 : Memory)
        → IsTranslatedFor (dat_of real.old) table.now.places.items table.now.nodes.items m0
        → IsPlace table.now.places.items (guest_text m0) table.now.start
        → IsGuestsRun D.machine limits.now m0 (guest_of table.now.places.items table.now.start)
        (dat_of real.old) device.old ending (dat_of real.new) device.new) }
    ensures never_absent { IfErr result (λ error. (m0 : Memory)
        → IsTranslatedFor (dat_of real.old) table.now.places.items table.now.nodes.items m0
        → error ≡ errors.Memory) }
    ensures again { (m0 : Memory)
        → IsTranslatedFor (dat_of real.old) table.now.places.items table.now.nodes.items m0
        → IsTranslatedFor (dat_of real.new) table.now.places.items table.now.nodes.items m0 }
    ensures rest { KeepsReal real.old real.new }
{
    let ending = match run(table, real, table.start, limits, device) {
        Ok(ending) => ending,
        Err(error) => return Err(error),
    };
    Ok(Ending {
        at: guest_address(table, ending.at),
        unit: ending.unit,
        channel: ending.channel,
        count: ending.count,
    })
}

/// Runs a translated program over the frames of a user's storage, and returns how it ended, as
/// [`run_translated`] does over real storage.
pub(crate) fn run_lent<'a, D: Device>(
    table: &Table,
    storage: &mut Dat<'a>,
    limits: &Limits,
    device: &mut D,
) -> Result<Ending, ChannelError>
    ensures runs { IfOk result (λ ending. (m0 : Memory)
        → IsTranslatedFor storage.old table.now.places.items table.now.nodes.items m0
        → IsPlace table.now.places.items (guest_text m0) table.now.start
        → IsGuestsRun D.machine limits.now m0 (guest_of table.now.places.items table.now.start)
        storage.old device.old ending storage.new device.new) }
    ensures never_absent { IfErr result (λ error. (m0 : Memory)
        → IsTranslatedFor storage.old table.now.places.items table.now.nodes.items m0
        → error ≡ errors.Memory) }
    ensures rest { KeepsStored storage.old storage.new }
{
    let mut own = [0u8; 0];
    let frames = storage.frame_count();
    let _bytes = storage.size();
    let mut real = Real {
        dat: storage,
        frames,
        area: &mut own,
    };
    run_translated(table, &mut real, limits, device)
}
