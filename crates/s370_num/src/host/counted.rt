//! A reader or a writer of std with a count of its failures.
ghost use Rattle.std.specs.Prelude.{◌≡◌};
ghost use Rattle.std.specs.Io.Buffered.{writer_buffer, writer_contents};
ghost use Rattle.s370_num.specs.Host.{one_more};
ghost use Rattle.s370_num.specs.Counted.{failures_of, file_of};

use crate::host::{HostFault, HostFile, HostReader, HostWriter};
use std::alloc::Allocator;
use std::io::{BufWriter, ErrorKind, Read, Write};

/// A file of the host or a standard stream, and how often it failed.
///
/// A read or a write that was interrupted is made again, and is no failure. A write of nothing,
/// where there was something to write, is one. A program reads `Counted::new(fs::open(rt, path)?)`,
/// and writes to `Counted::new(BufWriter::new(alloc, file)?)`.
#[derive(Drop)]
pub struct Counted<F> {
    file: F,
    failures: u64,
}

impl<F> Counted<F> {
    /// Returns a counted file around `file`, with a count of zero failures.
    pub fn new(file: F) -> Counted<F>
        ensures file { file_of result ≡ file }
        ensures none { failures_of result ≡ 0 }
    {
        Counted { file, failures: 0 }
    }

    /// Adds one to the count of failures, and returns `HostFault::Device` with the new count.
    fn fail(&mut self) -> HostFault
        ensures file { self.new.file ≡ self.old.file }
        ensures more { self.new.failures ≡ one_more self.old.failures }
        ensures fault { result ≡ HostFault.Device self.new.failures }
    {
        self.failures = self.failures.saturating_add(1);
        HostFault::Device(self.failures)
    }
}

impl<F> HostFile for Counted<F> {
    ghost failures = { λ s. s.failures };

    /// Returns the count of failures.
    fn failures(&self) -> u64 {
        self.failures
    }
}

impl<R: Read> HostReader for Counted<R> {
    ghost remaining = { λ s. R.remaining s.file };

    /// Reads bytes of the host's file into the front of `buf` and returns how many; an interrupted
    /// read is tried again, and any other failure is counted.
    fn read(&mut self, buf: &mut [u8]) -> Result<usize, HostFault> {
        'tries: for _ in 0..u64::MAX {
            match self.file.read(buf) {
                Ok(count) => return Ok(count),
                Err(error) => {
                    if error.kind() != ErrorKind::Interrupted {
                        return Err(self.fail());
                    }
                }
            }
        }
        Err(self.fail())
    }
}

/// Of a buffer it is known what it holds back; of other writers of std it is not, nor of that which
/// the buffer writes to, whose `flush` is called after the buffer is empty.
impl<W: Write + Drop, A: Allocator> HostWriter for Counted<BufWriter<W, A>> {
    ghost contents = { λ s. writer_contents W.contents s.file };

    ghost held = { λ s. writer_buffer s.file };

    /// Writes a front part of `bytes` to the host's file and returns how many; an interrupted write
    /// is tried again, and any other failure, or a write of no byte, is counted.
    fn write(&mut self, bytes: &[u8]) -> Result<usize, HostFault> {
        'tries: for _ in 0..u64::MAX {
            match self.file.write(bytes) {
                Ok(count) => {
                    if count == 0 && !bytes.is_empty() {
                        return Err(self.fail());
                    }
                    return Ok(count);
                }
                Err(error) => {
                    if error.kind() != ErrorKind::Interrupted {
                        return Err(self.fail());
                    }
                }
            }
        }
        Err(self.fail())
    }

    /// Flushes the host's file; a failure is counted.
    fn flush(&mut self) -> Result<(), HostFault> {
        match self.file.flush() {
            Ok(()) => Ok(()),
            Err(_) => Err(self.fail()),
        }
    }
}
