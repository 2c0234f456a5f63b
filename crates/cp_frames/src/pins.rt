//! Which frames are pinned.
ghost use Rattle.std.specs.Prelude.{◌≡◌, ◌<◌, false, length, replicate, slice_index_or};
ghost use Rattle.std.specs.Prelude.{slice_set, IfOk};

use std::alloc::{AllocError, Global};
use std::marker::Model;

/// Which frames are pinned, in rounds: to unpin all frames is to begin another round, which takes
/// the same time however many there are.
#[derive(Drop)]
pub struct FramePins {
    /// The last round in which each frame was pinned; 0 if it was unpinned since.
    rounds: Vec<u64>,
    /// The present round. A frame is pinned if its round is this one.
    present: u64,
}

impl Model for FramePins {
    ghost use Rattle.std.specs.Prelude.{◌==◌, ◌<◌, ◌≤◌, All, Bool, List, map};

    ghost Value = { List Bool };

    ghost view = { λ p. map (λ round. round == p.present) p.rounds.items };

    ghost invariant = { λ p. (0 < p.present) × All (λ round. round ≤ p.present) p.rounds.items };
}

impl FramePins {
    /// Returns the pins of this many frames, none of which is pinned.
    ///
    /// # Errors
    ///
    /// `AllocError` if memory is refused.
    pub fn new(alloc: Global, count: usize) -> Result<FramePins, AllocError>
        ensures { IfOk result (λ pins. pins ≡ replicate count false) }
    {
        let rounds = vec![in alloc; 0u64; count]?;
        Ok(FramePins { rounds, present: 1 })
    }

    /// Returns how many frames there are.
    pub fn len(&self) -> usize
        ensures { result ≡ length self.now }
    {
        self.rounds.len()
    }

    /// Returns whether a frame is pinned.
    pub fn is_pinned(&self, frame: usize) -> bool
        requires { frame < length self.now }
        ensures { result ≡ slice_index_or self.now frame false }
    {
        self.rounds[frame] == self.present
    }

    /// Pins or unpins a frame.
    pub fn set(&mut self, frame: usize, is_pinned: bool)
        requires { frame < length self.old }
        ensures { self.new ≡ slice_set self.old frame is_pinned }
    {
        if is_pinned {
            self.rounds[frame] = self.present;
        } else {
            self.rounds[frame] = 0;
        }
    }

    /// Unpins all frames.
    pub fn clear(&mut self)
        ensures { self.new ≡ replicate (length self.old) false }
    {
        if self.present == u64::MAX {
            // No run has so many rounds.
            self.rounds.fill(0);
            self.present = 1;
        } else {
            self.present += 1;
        }
    }
}
