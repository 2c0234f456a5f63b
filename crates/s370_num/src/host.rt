//! Files of the host: bytes that come and go, and how often the host failed.
//!
//! A reader or a writer counts its failures, and a failure says its number. So who calls it knows
//! from the error alone which failure it was, and from the count that there was none.

ghost use Rattle.std.specs.Prelude.{◌≡◌, ℕ, ◌<◌, ◌≤◌, ◌-◌, ◌^◌, List, [], Option, IfOk, OnOk};
ghost use Rattle.std.specs.Prelude.{OnErr, length};
ghost use Rattle.std.specs.Io.KnownBytes.{Appends, Consumes, IsAtEnd, Keeps, ReadConsumes};
ghost use Rattle.std.specs.Io.KnownBytes.{WriteAppends};
ghost use Rattle.s370_num.specs.declared.host.HostFault.TheVariants.{Memory};
ghost use Rattle.s370_num.specs.Host.{AppendsFront, Counts, ReadsFront};

use std::alloc::{AllocError, Global};
use thiserror::Error;

mod counted;
pub mod failing;
mod memory;

pub use counted::Counted;
pub use memory::Bytes;

/// Why a call of a host file failed.
#[derive(Clone, Copy, Debug, PartialEq, Eq, Drop, Error)]
pub enum HostFault {
    /// The program's memory could not grow. This is no failure of the file, and is not counted.
    #[error("the program's memory could not grow")]
    Memory,
    /// The host failed, for the time that is reported, counted from 1 since the file was opened.
    #[error("failure {0} of a host file")]
    Device(u64),
}

impl From<AllocError> for HostFault {
    ghost from_gives = { λ _ fault. fault ≡ Memory };

    /// Returns `HostFault::Memory`: the program's memory could not grow.
    fn from(_error: AllocError) -> HostFault {
        HostFault::Memory
    }
}

/// A file of the host, which counts its failures.
pub trait HostFile {
    /// How many of its calls have failed.
    ghost failures: { Self → ℕ };

    /// Returns how many calls of this file have failed; the count stops at the greatest `u64`.
    fn failures(&self) -> u64
        ensures { result ≡ failures self.now };
}

/// A host file that is read.
pub trait HostReader: HostFile {
    /// The bytes that are left, where they are known: of a file on a disk nothing is.
    ghost remaining: { Self → Option (List ℕ) };

    /// Reads bytes into the front of `buf` and returns how many; none only at the end of the file,
    /// or if `buf` is empty.
    ///
    /// # Errors
    ///
    /// `Device` with the number of the failure, or `Memory`.
    fn read(&mut self, buf: &mut [u8]) -> Result<usize, HostFault>
        ensures bound { IfOk result (λ n. n ≤ length buf.new) }
        ensures bytes { ReadConsumes (remaining self.old) (remaining self.new) result buf.new }
        ensures counts { Counts (Self.failures self.old) (Self.failures self.new) result };
}

/// A host file that is written.
pub trait HostWriter: HostFile {
    /// The bytes that were written, where they are known: of a file on a disk nothing is. Those
    /// that are still held back are among them.
    ghost contents: { Self → Option (List ℕ) };

    /// The bytes that were written and are still held back, so that the host does not have them.
    ghost held: { Self → List ℕ };

    /// Appends a front part of `bytes` to the file and returns how many bytes it has; at least one,
    /// unless `bytes` is empty.
    ///
    /// # Errors
    ///
    /// `Device` with the number of the failure, or `Memory`.
    fn write(&mut self, bytes: &[u8]) -> Result<usize, HostFault>
        ensures bound { IfOk result (λ n. n ≤ length bytes.now) }
        ensures some { 0 < length bytes.now → IfOk result (λ n. 0 < n) }
        ensures bytes { WriteAppends (contents self.old) (contents self.new) result bytes.now }
        ensures counts { Counts (Self.failures self.old) (Self.failures self.new) result };

    /// Passes on to the host all bytes that were written but are still in a buffer.
    ///
    /// # Errors
    ///
    /// `Device` with the number of the failure, or `Memory`.
    fn flush(&mut self) -> Result<(), HostFault>
        ensures flushed { OnOk result (held self.new ≡ []) }
        ensures bytes { Keeps (contents self.old) (contents self.new) }
        ensures counts { Counts (Self.failures self.old) (Self.failures self.new) result };
}

/// Appends all the bytes to a file; if a write fails, a front part of them may have been written.
///
/// # Errors
///
/// `Device` with the number of the failure, or `Memory`.
pub fn write_all<W: HostWriter>(writer: &mut W, bytes: &[u8]) -> Result<(), HostFault>
    ensures ok { OnOk result (Appends (W.contents writer.old) (W.contents writer.new) bytes.now) }
    ensures err { OnErr result
        (AppendsFront (W.contents writer.old) (W.contents writer.new) bytes.now) }
    ensures counts { Counts (W.HostFile.failures writer.old) (W.HostFile.failures writer.new)
        result }
{
    let mut done = 0;
    while done < bytes.len() {
        done += writer.write(&bytes[done..])?;
    }
    Ok(())
}

/// Reads all that is left of a file into a new vector; on a failure, the bytes read until then are
/// lost.
///
/// # Errors
///
/// `Device` with the number of the failure, or `Memory`.
pub fn read_all<R: HostReader>(alloc: Global, reader: &mut R) -> Result<Vec<u8>, HostFault>
    ensures ok { IfOk result
        (λ all. Consumes (R.remaining reader.old) (R.remaining reader.new) all.items) }
    ensures end { OnOk result (IsAtEnd (R.remaining reader.new)) }
    ensures err { OnErr result (ReadsFront (R.remaining reader.old) (R.remaining reader.new)) }
    ensures counts { Counts (R.HostFile.failures reader.old) (R.HostFile.failures reader.new)
        result }
{
    let mut all = Vec::new(alloc);
    let mut buf = [0u8; 4096];
    'reads: loop {
        let count = reader.read(&mut buf)?;
        if count == 0 {
            return Ok(all);
        }
        all.extend_from_slice(&buf[..count])?;
    }
}
