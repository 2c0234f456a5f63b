//! What is proved of minidisks on volumes: each function is a law about definitions.
ghost use Rattle.s370_walk.specs.Viewed.{IsViewed};
ghost use Rattle.ckd_volume.specs.Unit.{disk_machine};
ghost use Rattle.cp_minidisk.specs.Part.{disk_seen, part_machine};
ghost use Rattle.cp_minidisk.specs.PartLaws as parts;

/// States that a minidisk as a device of its own walks each program as the disk that its user sees,
/// and that the other cylinders of its volume stay.
pub fn a_part_walks_as_its_disk()
    ensures walks { parts.WalksAsItsDisk }
    ensures other_disks { parts.LeavesItsNeighbours }
{}

/// States that the extent of a minidisk stays, whatever program runs; and if it is only read, so do
/// all cylinders of the volume.
pub fn a_part_keeps_its_extent()
    ensures extent { parts.KeepsItsExtent }
    ensures read_only { parts.NeverWrites }
{}

/// States that what a user sees of a part of a volume, his disk, is enough for each walk: a program
/// that was tried on the disk was tried on the part.
pub fn a_part_is_seen_as_its_disk()
    ensures { IsViewed part_machine disk_machine disk_seen }
{}
