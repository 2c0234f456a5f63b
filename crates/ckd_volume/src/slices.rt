//! Bytes of a command in slices, as they move one by one.
ghost use Rattle.std.specs.Prelude.{◌≡◌, ◌≤◌, ◌+◌, length, nat_le};
ghost use Rattle.std.specs.List.{slice_range};
ghost use Rattle.ckd_volume.specs.Moves.{gave_slice, took_slice, lacks, ready};

use crate::panel::{ControlUnit, LONGEST};
use crate::parts::PendingCommand;

impl ControlUnit {
    /// Returns whether at least `count` held bytes are left to be given.
    pub(crate) fn has(&self, count: usize) -> bool
        ensures { result ≡ nat_le (self.now.given + count) (length self.now.bytes) }
    {
        let held = self.bytes.len();
        count <= held && self.given <= held - count
    }

    /// Fills `into` with the next held bytes, which have to be there, and moves on past them.
    pub(crate) fn give_slice(&mut self, into: &mut [u8])
        requires { self.old.given + length into.old ≤ length self.old.bytes }
        ensures bytes { into.new
            ≡ slice_range self.old.bytes self.old.given (self.old.given + length into.old) }
        ensures after { self.new ≡ gave_slice self.old (length into.old) }
    {
        let end = self.given + into.len();
        into.copy_from_slice(&self.bytes[self.given..end]);
        self.given = end;
    }

    /// Appends bytes to those that the command has taken, as far as there is room, and drops the
    /// others.
    #[tactic(auto, using(std::proofs::lemmas::List::take_all))]
    pub(crate) fn take_slice(&mut self, from: &[u8])
        ensures { self.new ≡ took_slice self.old from.now }
    {
        let room = LONGEST - self.bytes.len();
        let taken = if from.len() <= room {
            from
        } else {
            &from[..room]
        };
        match self.bytes.extend_from_slice(taken) {
            Ok(()) => {}
            Err(_) => unreachable!(),
        }
    }

    /// Returns how many bytes a Write Count, Key and Data still needs: of its first eight, and then
    /// of those that they announce.
    fn bytes_needed(&self) -> u32
        ensures { result ≡ lacks self.now.bytes }
    {
        let held = self.bytes.len() as u32;
        if held < 8 {
            return 8 - held;
        }
        let content = 256 * u32::from(self.bytes[6]) + u32::from(self.bytes[7]);
        (8 + u32::from(self.bytes[5]) + content).saturating_sub(held)
    }

    /// Returns a number of bytes that are sure to be given or taken before the command wants no
    /// more.
    pub(crate) fn ready(&self) -> u32
        ensures { result ≡ ready self.now self.now.job }
    {
        match self.job {
            PendingCommand::WriteRecord(_) => self.bytes_needed(),
            _ => u32::MAX,
        }
    }
}
