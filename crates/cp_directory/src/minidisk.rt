//! The minidisks of users.
use crate::extent::DiskExtent;
use s370_num::DevAddr;

/// A disk of a user: an extent of a volume, at an address.
#[derive(Clone, Copy, Debug, PartialEq, Eq)]
pub struct MinidiskStatement {
    /// The number of the line that states it, from 1.
    pub line: usize,
    /// Where the user's machine finds it.
    pub address: DevAddr,
    /// What it has of its volume.
    pub extent: DiskExtent,
}
