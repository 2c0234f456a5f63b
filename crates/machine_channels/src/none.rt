//! No disks.

use crate::channels::Disks;

/// The disks of a machine that has none.
#[derive(Clone, Copy)]
pub struct NoDisks;

impl Disks for NoDisks {
    ghost use Rattle.std.specs.Prelude.{[]};

    ghost disks = { λ _. [] };

    ghost KeepsOthers = { λ _ _. Unit {0} };

    ghost Forgets = { λ _ _. Unit {0} };

    ghost others_same = { λ _. tt };

    ghost others_on = { λ _ _ _ _ _. tt };

    /// Returns None: there is no disk.
    fn disk_at(&self, _device: u16) -> Option<usize> {
        None
    }

    /// Does nothing: there is no disk.
    fn reset_disks(&mut self) {}

    /// Does nothing: there is no disk.
    fn clear_disks(&mut self) {}
}
