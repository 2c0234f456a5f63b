//! The bytes of a connection that wait to be taken.
ghost use Rattle.std.specs.Prelude.{◌≡◌, ◌++◌, [], length, IfNone, IfSome, ◌∷◌};
ghost use Rattle.std.specs.Result.{OnOk};

use std::alloc::{AllocError, Global};
use std::collections::VecDeque;
use std::marker::Model;

/// Bytes that have come and were not taken, the first first.
#[derive(Drop)]
pub struct WaitingBytes {
    bytes: VecDeque<u8>,
}

impl Model for WaitingBytes {
    ghost use Rattle.std.specs.Prelude.{ℕ, List};

    ghost Value = { List ℕ };

    ghost view = { λ w. w.bytes.items };
}

impl WaitingBytes {
    /// Returns a buffer in which no byte waits.
    pub fn new(alloc: Global) -> WaitingBytes
        ensures { result ≡ [] }
    {
        WaitingBytes {
            bytes: VecDeque::new(alloc),
        }
    }

    /// Returns how many bytes wait.
    pub fn len(&self) -> usize
        ensures { result ≡ length self.now }
    {
        self.bytes.len()
    }

    /// Appends these bytes to those that wait.
    ///
    /// # Errors
    ///
    /// `AllocError` if memory is refused; what this is then is not specified.
    pub fn add(&mut self, bytes: &[u8]) -> Result<(), AllocError>
        ensures { OnOk result (self.new ≡ self.old ++ bytes.now) }
    {
        for byte in bytes {
            self.bytes.push_back(*byte)?;
        }
        Ok(())
    }

    /// Removes and returns the first byte that waits, if there is one.
    pub fn take(&mut self) -> Option<u8>
        ensures none { IfNone result ((self.old ≡ []) × (self.new ≡ [])) }
        ensures some { IfSome result (λ byte. self.old ≡ byte ∷ self.new) }
    {
        self.bytes.pop_front()
    }
}
