//! Host files in memory, whose device never fails: their count of failures stays 0.
ghost use Rattle.std.specs.Prelude.{◌≡◌, ◌<◌, ◌≤◌, [], Some, IsOk, IfOk, length};
ghost use Rattle.std.specs.Io.KnownBytes.{ReadConsumes, WriteAppends};
ghost use Rattle.s370_num.specs.Host.{Counts};

use crate::host::{HostFault, HostFile, HostReader, HostWriter};

/// Bytes that are read as a file is.
#[derive(Drop)]
pub struct Bytes<'a> {
    /// The bytes that are left.
    pub rest: &'a [u8],
}

impl<'a> Bytes<'a> {
    /// Returns a reader of these bytes, which begins at the first.
    pub fn new(bytes: &'a [u8]) -> Bytes<'a>
        ensures { result.rest.now ≡ bytes.now }
    {
        Bytes { rest: bytes }
    }
}

impl HostFile for Bytes<'_> {
    ghost failures = { λ _. 0 };

    /// Returns zero: reading from memory never fails.
    fn failures(&self) -> u64 {
        0
    }
}

impl HostReader for Bytes<'_> {
    ghost remaining = { λ s. Some s.rest.now };

    /// Copies as many bytes as are left and `buf` has room for into the front of `buf`, and returns
    /// how many.
    fn read(&mut self, buf: &mut [u8]) -> Result<usize, HostFault>
        ensures always { IsOk result }
        ensures bound { IfOk result (λ n. n ≤ length buf.new) }
        ensures bytes { ReadConsumes (Some self.old.rest.now) (Some self.new.rest.now) result
            buf.new }
        ensures counts { Counts 0 0 result }
    {
        let count = buf.len().min(self.rest.len());
        let (front, rest) = self.rest.split_at(count);
        buf[..count].copy_from_slice(front);
        self.rest = rest;
        Ok(count)
    }
}

/// What is written is appended.
impl HostFile for Vec<u8> {
    ghost failures = { λ _. 0 };

    /// Returns zero: no device is involved.
    fn failures(&self) -> u64 {
        0
    }
}

impl HostWriter for Vec<u8> {
    ghost contents = { λ v. Some v.items };

    ghost held = { λ _. [] };

    /// Appends all of `bytes` to the vector and returns how many there are; fails only if memory is
    /// refused.
    fn write(&mut self, bytes: &[u8]) -> Result<usize, HostFault>
        ensures whole { IfOk result (λ n. n ≡ length bytes.now) }
        ensures bound { IfOk result (λ n. n ≤ length bytes.now) }
        ensures some { 0 < length bytes.now → IfOk result (λ n. 0 < n) }
        ensures bytes { WriteAppends (Some self.old.items) (Some self.new.items) result bytes.now }
        ensures counts { Counts 0 0 result }
    {
        self.extend_from_slice(bytes)?;
        Ok(bytes.len())
    }

    /// Does nothing: no byte is held back.
    fn flush(&mut self) -> Result<(), HostFault> {
        Ok(())
    }
}
