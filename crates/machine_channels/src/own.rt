//! The channels of a machine of its own, with disk units of its own.
ghost use Rattle.std.specs.Prelude.{◌≡◌, map};
ghost use Rattle.machine_channels.specs.Disks.{cleared_disk, reset_disk};
ghost use Rattle.machine_channels.specs.DedicatedChannels.{disks_of};

use crate::channels::{Channels, Disks, UnitRecord};
use crate::disks::{AttachedDisk, clear_each, reset_each};
use crate::running::{load_live, run_live};
use channel_trial::{DryRun, TriedLoading};
use s370_channel::{Caw, ChannelError};
use s370_store::Storage;
use s370_walk::Ending;

/// Each program is read as it is reached, in the machine's own storage; each disk has a volume of
/// its own.
#[derive(Drop)]
pub struct DedicatedChannels {
    disks: Vec<AttachedDisk>,
}

impl DedicatedChannels {
    /// Returns channels with these disks, in this order.
    pub fn new(disks: Vec<AttachedDisk>) -> DedicatedChannels
        ensures { disks_of result ≡ disks.items }
    {
        DedicatedChannels { disks }
    }

    /// Returns the disks, in the order in which they were attached.
    pub fn disks(&self) -> &[AttachedDisk]
        ensures { result.now ≡ disks_of self.now }
    {
        self.disks.as_slice()
    }

    /// Resets the disks: they have no sense and no command under way, and their arms stay.
    pub fn reset(&mut self)
        ensures { disks_of self.new ≡ map reset_disk (disks_of self.old) }
    {
        reset_each(&mut self.disks);
    }

    /// Clears the disks, as for a LOGON: they are reset, and the arms are over cylinder 0, with
    /// head 0 chosen.
    pub fn clear(&mut self)
        ensures { disks_of self.new ≡ map cleared_disk (disks_of self.old) }
    {
        clear_each(&mut self.disks);
    }
}

impl Disks for DedicatedChannels {
    ghost use Rattle.machine_channels.specs.DedicatedChannels.{disks_of};

    ghost disks = { disks_of };

    ghost KeepsOthers = { λ _ _. Unit {0} };

    ghost Forgets = { λ _ _. Unit {0} };

    ghost others_same = { λ _. tt };

    ghost others_on = { λ _ _ _ _ _. tt };

    /// Returns the index of the first disk with this address, if there is one.
    fn disk_at(&self, device: u16) -> Option<usize> {
        self.disks
            .iter()
            .position(|disk| disk.address().get() == device)
    }

    /// Resets the disks: the arms stay.
    fn reset_disks(&mut self) {
        self.reset();
    }

    /// Clears the disks, as for a LOGON: the arms are over cylinder 0, with head 0 chosen.
    fn clear_disks(&mut self) {
        self.clear();
    }
}

impl<S: Storage> Channels<S> for DedicatedChannels {
    ghost use Rattle.std.specs.Prelude.{false};
    ghost use Rattle.s370_channel.specs.Reading.{as_reached};

    ghost reads = { as_reached };

    ghost is_whole = { false };

    ghost holds = { λ _ _ _. ⊥ };

    ghost IsReady = { λ _. Unit {0} };

    ghost IsOut = { λ _ _. ⊥ };

    ghost IsFilled = { λ _ _. ⊥ };

    ghost Came = { λ n s _ t. S.Keeps s t };

    ghost HadRoom = { λ _ _ _ _ _ _. Unit {0} };

    ghost HadRoomToLoad = { λ _ _ _ _ _. Unit {0} };

    ghost Reuses = { λ _ _ _ _ _ _. Unit {0} };

    ghost ReusesDisk = { λ _ _ _ _ _ _. Unit {0} };

    /// Runs the program with this start for a device that is no disk, each word read when it is
    /// reached.
    fn run<D: DryRun>(
        &mut self,
        storage: &mut S,
        start: Caw,
        _unit: UnitRecord,
        device: &mut D,
    ) -> Result<Ending, ChannelError> {
        run_live(storage, start, device)
    }

    /// Runs the program with this start for the disk of this index, each word read when it is
    /// reached.
    fn run_disk(
        &mut self,
        storage: &mut S,
        start: Caw,
        index: usize,
    ) -> Result<Ending, ChannelError> {
        self.disks[index].run(storage, start)
    }

    /// Runs the program of an initial program loading for a device that is no disk, each word read
    /// when it is reached.
    fn load<D: TriedLoading>(
        &mut self,
        storage: &mut S,
        device: &mut D,
    ) -> Result<Ending, ChannelError> {
        load_live(storage, device)
    }

    /// Resets all disks, and runs the program of an initial program loading on that of this index,
    /// each word read when it is reached.
    fn load_disk(&mut self, storage: &mut S, index: usize) -> Result<Ending, ChannelError> {
        self.reset();
        self.disks[index].load(storage)
    }

    ghost came_none = { λ n s ready. S.keeps_same s };

    ghost came_kept = { λ n s t u units paged_in kept. S.keeps_on s t u paged_in kept };

    ghost ready_kept = { λ s t kept ready. tt };

    ghost came_size = { λ n s t units paged_in. S.keeps_size s t paged_in };

    ghost came_keys = { λ n s t units paged_in. S.keeps_keys s t paged_in };
}
