//! What is done with the machine of one user while its storage is borrowed from frames: a run, a
//! tick, a line, a serve.
ghost use Rattle.std.specs.Prelude.{◌≡◌, ℕ, List};
ghost use Rattle.cp_directory.specs.Users.{DirectoryUser};
ghost use Rattle.cp_frames.specs.Layout.{FrameSupply};
ghost use Rattle.cp_dat.specs.Lent.{KeepsFrames, lent_bytes, lent_memory, lent_pool, user_of};
ghost use Rattle.cp_dat.specs.Supplied.{IsBetweenUnits};
ghost use Rattle.machine_devices.specs.Equipped.{Equipped};
ghost use Rattle.cp_core.specs.Lending.{KeepsLent, MayBeLent, MayLend, SharedLeft, kept_in};
ghost use Rattle.cp_core.specs.Lending.{machine_of, machine_on, seat_of};
ghost use Rattle.cp_resident.specs.Reuse.{ReuseValue};

use crate::serving::serve_supplied;
use crate::world::UserList;
use arrayvec::ArrayVec;
use cp_dat::Dat;
use cp_directory::Directory;
use cp_frames::Frames;
use cp_resident::{GuestChannels, Reuse};
use cp_spool::Queues;
use cp_trap::VirtualCpu;
use cp_volumes::{SharedDisk, Volumes};
use machine_devices::{Devices, LineOutcome, TypedLine};
use machine_panel::{LineError, Machine};
use s370_intr::Ran;
use s370_num::{DevAddr, StorageKey};
use s370_store::{FramesOut, UnitSupply};
use std::alloc::Global;
use user_names::UserNo;

/// What is lent to an operation next to the storage: the machine with its devices, and what users
/// share.
#[derive(Drop)]
pub(crate) struct Lent<'a> {
    pub(crate) machine: &'a mut Machine,
    pub(crate) devices: &'a mut Devices,
    pub(crate) queues: &'a mut Queues,
    pub(crate) volumes: &'a mut Volumes,
    pub(crate) minidisks: &'a mut Vec<SharedDisk>,
    /// The cached programs of the devices.
    pub(crate) reuse: &'a mut Reuse,
}

/// What is done with the machine of one user.
pub(crate) trait UserOp {
    /// What it returns.
    type Answer;

    /// Among these users, what it leaves of the machine with its devices and of the frames of this
    /// one, and says.
    ghost Does: { Self → List DirectoryUser → ℕ → Equipped → FrameSupply → Self.Answer → Equipped
        → FrameSupply
        → Type 0 };

    /// To this one with this machine, over these frames, what it leaves of the programs that are
    /// kept.
    ghost Keeps: { Self → ℕ → Equipped → FrameSupply → Self.Answer → ReuseValue → ReuseValue
        → Type 0 };

    /// Does the operation with a user's machine and his storage, and returns its answer. No frame
    /// is pinned before and after.
    fn work(
        &self,
        directory: &Directory,
        lent: &mut Lent<'_>,
        storage: &mut Dat<'_>,
    ) -> Self::Answer
        requires { MayBeLent lent.old (lent_bytes storage.old) (lent_pool storage.old).supply }
        ensures does { let before = machine_of lent.old (lent_memory storage.old) in
            let after = machine_of lent.new (lent_memory storage.new) in
            Does self.now directory.now (user_of storage.old) before (lent_pool storage.old).supply
            result
            after (lent_pool storage.new).supply }
        ensures keeps { let before = machine_of lent.old (lent_memory storage.old) in
            Keeps self.now (user_of storage.old) before (lent_pool storage.old).supply result
            (kept_in lent.old) (kept_in lent.new) }
        ensures lent { KeepsLent lent.old lent.new }
        ensures kept { KeepsFrames storage.old storage.new }
        ensures between { IsBetweenUnits (lent_pool storage.new).supply };
}

/// What users share, as it is borrowed for an operation with the machine of one of them.
#[derive(Drop)]
pub(crate) struct Shared<'a> {
    /// The user whose machine it is.
    pub(crate) user: UserNo,
    pub(crate) directory: &'a Directory,
    pub(crate) queues: &'a mut Queues,
    pub(crate) volumes: &'a mut Volumes,
    pub(crate) frames: &'a mut Frames,
}

/// Does an operation with a user's machine, whose storage is borrowed from the frames, with these
/// keys, and returns its answer.
#[inline(always)]
pub(crate) fn with_storage<W: UserOp>(
    machine: &mut Machine,
    devices: &mut Devices,
    minidisks: &mut Vec<SharedDisk>,
    keys: &mut [StorageKey],
    reuse: &mut Reuse,
    shared: &mut Shared<'_>,
    work: &W,
) -> W::Answer
    requires { let seat = seat_of machine.old devices.old minidisks.old.items keys.old reuse.old in
        MayLend shared.old seat }
    ensures does { let old = seat_of machine.old devices.old minidisks.old.items keys.old
        reuse.old in
        let new = seat_of machine.new devices.new minidisks.new.items keys.new reuse.new in
        let user = shared.old.user in
        W.Does work.now shared.old.directory.now user (machine_on shared.old user old)
        shared.old.frames.now.supply result (machine_on shared.new user new)
        shared.new.frames.now.supply }
    ensures keeps { let old = seat_of machine.old devices.old minidisks.old.items keys.old
        reuse.old in
        let user = shared.old.user in
        W.Keeps work.now user (machine_on shared.old user old) shared.old.frames.now.supply result
        reuse.old reuse.new }
    ensures left { let old = seat_of machine.old devices.old minidisks.old.items keys.old
        reuse.old in
        let new = seat_of machine.new devices.new minidisks.new.items keys.new reuse.new in
        SharedLeft shared.old shared.new old new }
{
    let mut lent = Lent {
        machine,
        devices,
        queues: shared.queues,
        volumes: shared.volumes,
        minidisks,
        reuse,
    };
    let mut storage = Dat::new(shared.frames, keys, shared.user);
    work.work(shared.directory, &mut lent, &mut storage)
}

/// The machine is let run for at most so many units. This takes no memory.
#[derive(Clone, Copy)]
pub(crate) struct Units(pub(crate) u32);

impl UserOp for Units {
    type Answer = Ran;

    ghost use Rattle.cp_core.specs.UserOp.{HasRun};

    ghost Does = { λ units directory. HasRun units.0 };

    ghost Keeps = { λ units user e supply ran old new. new ≡ old };

    /// Lets the machine run for at most so many units, and returns how many it did and why it
    /// ended.
    #[inline(always)]
    fn work(&self, _directory: &Directory, lent: &mut Lent<'_>, storage: &mut Dat<'_>) -> Ran {
        lent.machine.run::<VirtualCpu, Dat<'_>>(storage, self.0)
    }
}

/// The interval timer ticks. This takes no memory.
#[derive(Clone, Copy)]
pub(crate) struct Tick;

impl UserOp for Tick {
    type Answer = Result<(), FramesOut>;

    ghost use Rattle.cp_core.specs.UserOp.{HasTicked};

    ghost Does = { λ tick directory. HasTicked };

    ghost Keeps = { λ tick user e supply done old new. new ≡ old };

    /// Steps the interval timer of the machine, if it runs; an error if there is no room for page
    /// 0.
    fn work(
        &self,
        _directory: &Directory,
        lent: &mut Lent<'_>,
        storage: &mut Dat<'_>,
    ) -> Result<(), FramesOut> {
        lent.machine.tick(storage)
    }
}

/// The deck of this number is withdrawn from the reader. This takes no memory.
#[derive(Clone, Copy)]
pub(crate) struct Withdrawal(pub(crate) u64);

impl UserOp for Withdrawal {
    type Answer = ();

    ghost use Rattle.cp_core.specs.UserOp.{HasWithdrawn};

    ghost Does = { λ withdrawal directory. HasWithdrawn withdrawal.0 };

    ghost Keeps = { λ withdrawal user e supply done old new. new ≡ old };

    /// Withdraws the deck of this number from the queue of the reader, unless it is current.
    fn work(&self, _directory: &Directory, lent: &mut Lent<'_>, _storage: &mut Dat<'_>) {
        lent.devices.purge(lent.queues, self.0);
    }
}

/// A user types a line.
#[derive(Drop)]
pub(crate) struct Line<'a> {
    pub(crate) alloc: Global,
    /// The user.
    pub(crate) user: UserNo,
    /// Whether each user is logged on.
    pub(crate) on: ArrayVec<bool, 64>,
    pub(crate) typed: &'a [u8],
}

impl<'a> UserOp for Line<'a> {
    type Answer = Result<LineOutcome, LineError>;

    ghost use Rattle.cp_core.specs.UserList.{world_by};
    ghost use Rattle.cp_core.specs.Keeps.{LineKeeps};
    ghost use Rattle.cp_core.specs.UserOp.{HasTyped};

    ghost Does = { λ line directory user. HasTyped (world_by directory line) user line.typed.now };

    ghost Keeps = { λ line user e supply reported old new.
        LineKeeps line.typed.now e reported old new };

    /// Does what the line asks that the user typed, with the pages that this needs paged in, unpins
    /// all frames, and returns its outcome.
    fn work(
        &self,
        directory: &Directory,
        lent: &mut Lent<'_>,
        storage: &mut Dat<'_>,
    ) -> Result<LineOutcome, LineError> {
        let world = UserList {
            users: directory.users(),
            own: self.user,
            on: self.on.as_slice(),
        };
        let mut channels = GuestChannels::take_from(
            self.alloc,
            lent.volumes,
            lent.minidisks,
            lent.reuse,
        );
        let line = TypedLine {
            typed: self.typed,
            users: &world,
        };
        let reported = lent.devices.line(
            self.alloc,
            lent.queues,
            lent.machine,
            storage,
            &mut channels,
            &line,
        );
        storage.let_go();
        channels.return_to(lent.volumes, lent.minidisks, lent.reuse);
        reported
    }
}

/// A device is served.
#[derive(Clone, Copy)]
pub(crate) struct Service {
    pub(crate) alloc: Global,
    pub(crate) device: DevAddr,
}

impl UserOp for Service {
    type Answer = Result<bool, LineError>;

    ghost use Rattle.cp_core.specs.Keeps.{ServeKeeps};
    ghost use Rattle.cp_core.specs.UserOp.{HasServed};

    ghost Does = { λ service directory. HasServed service.device };

    ghost Keeps = { λ service. ServeKeeps service.device };

    /// Runs the channel program that was started on the device, if there is one, and returns
    /// whether there was one.
    fn work(
        &self,
        _directory: &Directory,
        lent: &mut Lent<'_>,
        storage: &mut Dat<'_>,
    ) -> Result<bool, LineError> {
        let mut channels = GuestChannels::take_from(
            self.alloc,
            lent.volumes,
            lent.minidisks,
            lent.reuse,
        );
        let served = serve_supplied(
            lent.devices,
            lent.queues,
            lent.machine,
            storage,
            &mut channels,
            self.device,
        );
        channels.return_to(lent.volumes, lent.minidisks, lent.reuse);
        served
    }
}
