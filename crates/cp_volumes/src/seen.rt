//! A minidisk as its user sees it.
ghost use Rattle.std.specs.Prelude.{◌≡◌, ◌==◌, option_copied};
ghost use Rattle.std.specs.List.{find};
ghost use Rattle.std.specs.Option.{option_map};
ghost use Rattle.machine_channels.specs.Disks.{is_disk_at};
ghost use Rattle.cp_minidisk.specs.Minidisk.{own_arm};
ghost use Rattle.cp_volumes.specs.Shared.{disks_on};

use crate::shared_disk::SharedDisk;
use crate::volumes::Volumes;
use ckd_volume::{Arm, Volume};
use cp_minidisk::{Extent, Minidisk};
use s370_num::DevAddr;

/// The cylinders of a minidisk, on their volume, its arm and its sense. It is borrowed from a
/// system, and takes no memory.
///
/// ```
/// let disk = system.minidisk(user, device)?;
/// let first = usize::from(disk.extent().start());
/// let track = disk.volume()?.cylinder(first).track(18); // the last track of the minidisk's first cylinder
/// let sense = disk.arm().sense;
/// ```
#[derive(Clone, Copy)]
pub struct SeenDisk<'a> {
    pub(crate) volume: Option<&'a Volume>,
    pub(crate) minidisk: Minidisk,
}

impl<'a> SeenDisk<'a> {
    /// Returns the volume on which the minidisk is. It is `None` only for a minidisk without
    /// cylinders.
    pub fn volume(&self) -> Option<&Volume>
        ensures { option_copied result ≡ option_copied self.now.volume }
    {
        self.volume
    }

    /// Returns which cylinders of the volume the minidisk has.
    pub fn extent(&self) -> Extent
        ensures { result ≡ self.now.minidisk.extent }
    {
        self.minidisk.extent()
    }

    /// Returns where the minidisk's arm is, counted from its own first cylinder, whether it may be
    /// written, and its sense.
    pub fn arm(&self) -> Arm
        ensures { result ≡ own_arm self.now.minidisk }
    {
        Arm {
            cylinder: self.minidisk.cylinder(),
            head: self.minidisk.head(),
            home: 0,
            writable: self.minidisk.extent().is_writable(),
            sense: self.minidisk.sense(),
        }
    }
}

impl Volumes {
    ghost use Rattle.cp_volumes.specs.Seen.{seen_disk};

    /// Returns the first of these minidisks at this address, as its user sees it, if there is one.
    #[tactic(auto, using(crate::proofs::Seats::unit_found))]
    pub fn seen(&self, minidisks: &[SharedDisk], device: DevAddr) -> Option<SeenDisk<'_>>
        ensures { option_map seen_disk result
            ≡ option_map (λ disk. disk.unit)
            (find (is_disk_at device) (disks_on self.now minidisks.now)) }
    {
        let disk = found(minidisks, device)?;
        Some(SeenDisk {
            volume: self.volume(disk.volume()),
            minidisk: *disk.minidisk(),
        })
    }
}

/// Returns the first of these minidisks at this address, if there is one.
fn found(minidisks: &[SharedDisk], device: DevAddr) -> Option<&SharedDisk>
    ensures { option_copied result ≡ find (λ disk. disk.address == device) minidisks.now }
{
    minidisks.iter().find(|disk| disk.address() == device)
}
