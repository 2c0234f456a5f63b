//! The card reader of a machine feeds from the queue of its user.
ghost use Rattle.std.specs.Prelude.{◌≡◌, ◌<◌, true, OnErr};
ghost use Rattle.std.specs.Prelude.{is_ok, length};
ghost use Rattle.unit_record.specs.Reader.{reader_machine};
ghost use Rattle.machine_channels.specs.Channels.{ProgramNeeds};
ghost use Rattle.machine_channels.specs.declared.channels.UnitRecord.TheVariants as units;
ghost use Rattle.cp_spool.specs.Queues.{KeepsOthers, files_of};
ghost use Rattle.cp_spool.specs.Reader.{part_new};
ghost use Rattle.machine_devices.specs.Borrowed.{LoadsFed, ReportsOut, RunsFed, reader_on};

use cp_spool::{FedReader, Queues, SpoolReader};
use machine_channels::{Channels, UnitRecord};
use s370_channel::{Caw, ChannelError};
use s370_store::Storage;
use s370_walk::Ending;
use std::mem::replace;
use user_names::UserNo;

/// Runs the program with this start on the reader, which feeds from the queue of this user, and
/// removes from the queue what it has read, also if there is an error.
///
/// It walks as on a reader that has the decks itself. An error is reported only where memory was
/// refused, a page is not present, or there is no room for one.
pub(crate) fn run_fed<S: Storage, C: Channels<S>>(
    reader: &mut SpoolReader,
    queues: &mut Queues,
    user: UserNo,
    storage: &mut S,
    channels: &mut C,
    start: Caw,
) -> Result<Ending, ChannelError>
    requires user { user < length queues.old.users }
    requires ready { C.IsReady storage.old }
    ensures runs { RunsFed C.Channels.own S.Storage start storage.old storage.new
        (reader_on queues.old user reader.old) (reader_on queues.new user reader.new) result }
    ensures whole { let Needs = ProgramNeeds C.holds reader_machine start (S.memory storage.old)
        (reader_on queues.old user reader.old) in
        C.is_whole ≡ true → ReportsOut C.Channels.own S.Storage Needs storage.old storage.new
        ((S.memory storage.new ≡ S.memory storage.old) × (reader.new ≡ reader.old)
        × (files_of queues.new.users user ≡ files_of queues.old.users user)) result }
    ensures punched { (files_of queues.new.users user).punched
        ≡ (files_of queues.old.users user).punched }
    ensures printed { (files_of queues.new.users user).printed
        ≡ (files_of queues.old.users user).printed }
    ensures disks { C.disks channels.new ≡ C.disks channels.old }
    ensures other_users { KeepsOthers user queues.old.users queues.new.users }
    ensures others { C.KeepsOthers channels.old channels.new }
    ensures kept { C.Reuses channels.old storage.old start units.Reader (is_ok result)
        channels.new }
{
    let mut fed = FedReader::new(queues, user, replace(reader, SpoolReader::new()));
    let ended = channels.run(storage, start, UnitRecord::Reader, &mut fed);
    let (left, progress) = fed.into_parts();
    *reader = left;
    queues.remove_read(user, progress);
    ended
}

/// Resets the reader and runs the program of an initial program loading on it, fed from the queue
/// of this user, from which it removes what it has read; with an error, reader and queue stay.
///
/// It walks as on a reader that has the decks itself.
pub(crate) fn load_fed<S: Storage, C: Channels<S>>(
    reader: &mut SpoolReader,
    queues: &mut Queues,
    user: UserNo,
    storage: &mut S,
    channels: &mut C,
) -> Result<Ending, ChannelError>
    requires user { user < length queues.old.users }
    requires ready { C.IsReady storage.old }
    ensures loads { LoadsFed C.Channels.own S.Storage storage.old storage.new
        (reader_on queues.old user part_new) (reader_on queues.new user reader.new) result }
    ensures punched { (files_of queues.new.users user).punched
        ≡ (files_of queues.old.users user).punched }
    ensures printed { (files_of queues.new.users user).printed
        ≡ (files_of queues.old.users user).printed }
    ensures disks { C.disks channels.new ≡ C.disks channels.old }
    ensures stays { OnErr result ((reader.new ≡ reader.old) × (queues.new ≡ queues.old)) }
    ensures other_users { KeepsOthers user queues.old.users queues.new.users }
    ensures others { C.KeepsOthers channels.old channels.new }
    ensures kept { channels.new ≡ channels.old }
{
    let mut fed = FedReader::new(queues, user, SpoolReader::new());
    let ended = channels.load(storage, &mut fed);
    let (left, progress) = fed.into_parts();
    match ended {
        Ok(ending) => {
            *reader = left;
            queues.remove_read(user, progress);
            Ok(ending)
        }
        Err(error) => Err(error),
    }
}
