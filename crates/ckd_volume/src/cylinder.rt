//! A cylinder: the tracks that the heads of the arm reach without a seek.
ghost use Rattle.std.specs.Prelude.{◌≡◌, ◌<◌, ◌/◌, ◌%◌, [], ◌∷◌, length, Option, Some, None, IfOk};
ghost use Rattle.std.specs.Prelude.{IfSome, IsSome, ◌↔◌};
ghost use Rattle.ckd_volume.specs.Volume.{blank_tracks, home_of};
ghost use Rattle.ckd_volume.specs.Front.{track_at};

use ckd_track::Track;
use std::alloc::{AllocError, Global};
use std::marker::Model;

/// How many heads an arm has, and so how many tracks a cylinder.
pub const HEADS: usize = 19;

/// The tracks of one cylinder, by head.
#[derive(Drop)]
pub struct Cylinder {
    tracks: Vec<Track>,
}

impl Model for Cylinder {
    ghost use Rattle.std.specs.Prelude.{◌≡◌, List, length};
    ghost use Rattle.ckd_track.specs.Track.{TrackFormat};

    ghost Value = { List TrackFormat };

    ghost view = { λ c. c.tracks.items };

    ghost invariant = { λ c. length c.tracks.items ≡ 19 };
}

/// Returns the usual home address of a track: flag 00, cylinder and head.
pub fn home_address(cylinder: u16, head: u8) -> [u8; 5]
    ensures { result ≡ home_of cylinder head }
{
    [0, (cylinder / 256) as u8, (cylinder % 256) as u8, 0, head]
}

impl Cylinder {
    ghost use Rattle.std.specs.Borrow.{sem};
    ghost use Rattle.ckd_volume.specs.Lending.{LendsTrack, LendsHead};

    /// Returns a new cylinder of this number with 19 tracks that have no record.
    ///
    /// # Errors
    ///
    /// `AllocError` if memory is refused.
    #[tactic(auto, using(crate::proofs::Blanks::tracks_on))]
    pub fn blank(alloc: Global, number: u16) -> Result<Cylinder, AllocError>
        ensures { IfOk result (λ c. c ≡ blank_tracks number 0 19) }
    {
        let mut tracks = Vec::with_capacity(alloc, HEADS)?;
        for head in 0..19u8 {
            let track = Track::blank(alloc, home_address(number, head))?;
            tracks.push(track)?;
        }
        Ok(Cylinder { tracks })
    }

    /// Returns a copy of the cylinder with all its tracks.
    ///
    /// # Errors
    ///
    /// `AllocError` if memory is refused.
    #[tactic(auto, using(std::proofs::lemmas::List::take_all))]
    pub fn copy(&self, alloc: Global) -> Result<Cylinder, AllocError>
        ensures { IfOk result (λ c. c ≡ self.now) }
    {
        let mut tracks = Vec::with_capacity(alloc, HEADS)?;
        for track in &self.tracks {
            let copy = track.copy(alloc)?;
            tracks.push(copy)?;
        }
        Ok(Cylinder { tracks })
    }

    /// Returns how many tracks the cylinder has, one for each head.
    pub fn heads(&self) -> usize
        ensures count { result ≡ length self.now }
        ensures always { result ≡ 19 }
    {
        // Exhaustive: a new field fails to compile here.
        let Cylinder { tracks } = self;
        tracks.len()
    }

    /// Borrows the track under this head.
    pub fn track(&self, head: usize) -> &Track
        requires { head < 19 }
        ensures { result.now ≡ track_at self.now head }
    {
        &self.tracks[head]
    }

    /// Borrows the track under this head for writing.
    pub(crate) fn track_mut(&mut self, head: usize) -> &mut Track
        requires { head < 19 }
        ensures* writes_back { sem 𝓛 (LendsTrack self.entry head result) }
        ensures value { result.now ≡ track_at self.old head }
    {
        &mut self.tracks[head]
    }

    /// Borrows the track under this head for writing, or returns `None` if there is no such head.
    pub(crate) fn head_mut(&mut self, head: usize) -> Option<&mut Track>
        ensures* writes_back { sem 𝓛 (LendsHead self.entry head result) }
        ensures some { IsSome result ↔ (head < 19) }
        ensures value { IfSome result (λ track. track.now ≡ track_at self.old head) }
    {
        self.tracks.get_mut(head)
    }
}
