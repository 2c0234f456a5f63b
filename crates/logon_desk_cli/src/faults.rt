//! What the program says of a failure, and its exit status.
ghost use Rattle.std.specs.Prelude.{◌≡◌, IfOk, string_bytes};
ghost use Rattle.std.specs.IoError.{error_kind};
ghost use Rattle.std.proofs.Common.{ap};
ghost use Rattle.logon_desk_cli.specs.Faults.{fault_text, io_failure, status_of};
ghost use Rattle.logon_desk_cli.specs.declared.faults.DeskFailure.TheVariants.{Memory};

use program_host::ProgramFailure;
use std::alloc::{AllocError, Global};
use std::io;

/// Why the program ends before its end.
#[derive(Clone, Copy, Debug, Drop, PartialEq, Eq)]
pub enum DeskFailure {
    /// A file of the host failed, or has a line that is no UTF-8 text.
    File,
    /// A growth was refused.
    Memory,
    /// A word of the command line is no UTF-8 text.
    Usage,
}

impl From<io::Error> for DeskFailure {
    ghost from_gives = { λ error failure. failure ≡ io_failure (error_kind error) };

    /// Returns the failure of the program for an error of a file.
    fn from(error: io::Error) -> DeskFailure {
        match error.kind() {
            io::ErrorKind::OutOfMemory => DeskFailure::Memory,
            _ => DeskFailure::File,
        }
    }
}

impl From<AllocError> for DeskFailure {
    ghost from_gives = { λ _ failure. failure ≡ Memory };

    /// Returns the failure that memory was refused.
    fn from(_error: AllocError) -> DeskFailure {
        DeskFailure::Memory
    }
}

impl ProgramFailure for DeskFailure {
    ghost use Rattle.std.specs.Prelude.{None};
    ghost use Rattle.logon_desk_cli.specs.declared.faults.DeskFailure.TheVariants.{Memory, Usage};

    ghost text = { fault_text };

    ghost code = { status_of };

    ghost unsaved = { λ _. None };

    ghost is_memory = { λ failure. failure ≡ Memory };

    ghost is_usage = { λ failure. failure ≡ Usage };

    ghost memory_told = { λ failure memory. ap fault_text memory };

    /// Returns the failure that memory was refused.
    fn no_memory() -> DeskFailure {
        DeskFailure::Memory
    }

    /// Returns the failure that the words are not those of the program.
    fn wrong_words() -> DeskFailure {
        DeskFailure::Usage
    }

    /// Returns whether the words are not those of the program.
    fn is_wrong_words(&self) -> bool {
        *self == DeskFailure::Usage
    }

    /// Returns the line that tells the failure, without its end.
    fn line(&self, alloc: Global) -> Result<String, AllocError> {
        match self {
            DeskFailure::File => String::from_str(alloc, "fault: file Device 1"),
            DeskFailure::Memory => String::from_str(alloc, "fault: memory Memory"),
            DeskFailure::Usage => String::from_str(alloc, "wrong words"),
        }
    }

    /// Returns the exit status of the program.
    fn status(&self) -> u8 {
        match self {
            DeskFailure::File => 3,
            DeskFailure::Memory => 4,
            DeskFailure::Usage => 2,
        }
    }

    /// Returns no path: the program saves no image.
    fn unsaved_path(&self) -> Option<&str> {
        None
    }
}
