//! A writer that keeps nothing.
ghost use Rattle.std.specs.Prelude.{[], None};

use s370_num::host::{HostFault, HostFile, HostWriter};

/// Where what nobody reads is written.
#[derive(Drop)]
pub(crate) struct Nowhere;

impl HostFile for Nowhere {
    ghost failures = { λ _. 0 };

    /// Returns how often a write has failed: never.
    fn failures(&self) -> u64 {
        0
    }
}

impl HostWriter for Nowhere {
    ghost contents = { λ _. None };

    ghost held = { λ _. [] };

    /// Drops these bytes, and returns that all of them were written.
    fn write(&mut self, bytes: &[u8]) -> Result<usize, HostFault> {
        Ok(bytes.len())
    }

    /// Does nothing, as no byte is held back.
    fn flush(&mut self) -> Result<(), HostFault> {
        Ok(())
    }
}
