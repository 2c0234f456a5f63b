//! A fake for tests: a host file of which one call fails.
ghost use Rattle.std.specs.Prelude.{◌≡◌, ◌==◌};
ghost use Rattle.s370_num.specs.Host.{one_more};

use crate::host::{HostFault, HostFile, HostReader, HostWriter};

/// For tests: a host file of which the call after `left` more of them fails, and does nothing.
///
/// It counts that failure and those of the file that it stands for.
#[derive(Drop)]
pub struct Failing<F> {
    /// The file that it stands for.
    pub file: F,
    /// How many calls succeed before the one that fails.
    pub left: u64,
    /// How many calls have failed.
    pub failures: u64,
}

impl<F> Failing<F> {
    /// Returns a file that passes `left` calls on to `file`, and then fails the next call.
    pub fn new(file: F, left: u64) -> Failing<F>
        ensures file { result.file ≡ file }
        ensures left { result.left ≡ left }
        ensures none { result.failures ≡ 0 }
    {
        Failing {
            file,
            left,
            failures: 0,
        }
    }

    /// Counts this call, and returns whether it is the one to fail: whether `left` was zero.
    fn count_call(&mut self) -> bool
        ensures due { result ≡ (self.old.left == 0) }
        ensures file { self.new.file ≡ self.old.file }
        ensures failures { self.new.failures ≡ self.old.failures }
    {
        let is_due = self.left == 0;
        self.left = self.left.wrapping_sub(1);
        is_due
    }

    /// Adds one to the count of failures, and returns `HostFault::Device` with the new count.
    fn fail(&mut self) -> HostFault
        ensures file { self.new.file ≡ self.old.file }
        ensures more { self.new.failures ≡ one_more self.old.failures }
        ensures fault { result ≡ HostFault.Device self.new.failures }
    {
        self.failures = self.failures.saturating_add(1);
        HostFault::Device(self.failures)
    }
}

impl<F> HostFile for Failing<F> {
    ghost failures = { λ s. s.failures };

    /// Returns the count of failures: the one made here, and those of the inner file.
    fn failures(&self) -> u64 {
        self.failures
    }
}

impl<R: HostReader> HostReader for Failing<R> {
    ghost remaining = { λ s. R.remaining s.file };

    /// Reads from the inner file, or fails if this is the call to fail; each `Device` failure is
    /// counted.
    fn read(&mut self, buf: &mut [u8]) -> Result<usize, HostFault> {
        if self.count_call() {
            return Err(self.fail());
        }
        match self.file.read(buf) {
            Err(HostFault::Device(_)) => Err(self.fail()),
            other => other,
        }
    }
}

impl<W: HostWriter> HostWriter for Failing<W> {
    ghost contents = { λ s. W.contents s.file };

    ghost held = { λ s. W.held s.file };

    /// Writes to the inner file, or fails if this is the call to fail; each `Device` failure is
    /// counted.
    fn write(&mut self, bytes: &[u8]) -> Result<usize, HostFault> {
        if self.count_call() {
            return Err(self.fail());
        }
        match self.file.write(bytes) {
            Err(HostFault::Device(_)) => Err(self.fail()),
            other => other,
        }
    }

    /// Flushes the inner file, or fails if this is the call to fail; each `Device` failure is
    /// counted.
    fn flush(&mut self) -> Result<(), HostFault> {
        if self.count_call() {
            return Err(self.fail());
        }
        match self.file.flush() {
            Err(HostFault::Device(_)) => Err(self.fail()),
            other => other,
        }
    }
}
