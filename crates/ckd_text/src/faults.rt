//! What the programs say of a failure, and their exit status.
ghost use Rattle.std.specs.Prelude.{◌≡◌, IfOk, string_bytes};
ghost use Rattle.std.proofs.Common.{ap};
ghost use Rattle.ckd_text.specs.declared.faults.ToolFailure.TheVariants.{Memory};
ghost use Rattle.ckd_text.specs.Faults.{fault_text, file_failure, image_failure, status_of};
ghost use Rattle.ckd_text.specs.Faults.{text_failure};

use crate::reader::TextError;
use ckd_image::ImageError;
use program_host::ProgramFailure;
use s370_num::host::HostFault;
use std::alloc::{AllocError, Global};

/// Why a program ends before its end.
#[derive(Drop, PartialEq, Eq)]
pub enum ToolFailure {
    /// This line of the text, counted from 1, is the first that is refused.
    Text(u64),
    /// The image is none.
    Image(ImageError),
    /// A file of the host failed, for this time in number.
    File(u64),
    /// A growth was refused.
    Memory,
    /// The words are not those of the program.
    Usage,
}

impl From<TextError> for ToolFailure {
    ghost from_gives = { λ error failure. failure ≡ text_failure error };

    /// Returns the failure of a program for an error of a text.
    fn from(error: TextError) -> ToolFailure {
        match error {
            TextError::Memory => ToolFailure::Memory,
            TextError::Line(line) => ToolFailure::Text(line),
        }
    }
}

impl From<ImageError> for ToolFailure {
    ghost from_gives = { λ error failure. failure ≡ image_failure error };

    /// Returns the failure of a program for an error of an image.
    fn from(error: ImageError) -> ToolFailure {
        match error {
            ImageError::Memory => ToolFailure::Memory,
            ImageError::Device(count) => ToolFailure::File(count),
            refusal => ToolFailure::Image(refusal),
        }
    }
}

impl From<HostFault> for ToolFailure {
    ghost from_gives = { λ fault failure. failure ≡ file_failure fault };

    /// Returns the failure of a program for a failure of a host file.
    fn from(fault: HostFault) -> ToolFailure {
        match fault {
            HostFault::Memory => ToolFailure::Memory,
            HostFault::Device(count) => ToolFailure::File(count),
        }
    }
}

impl From<AllocError> for ToolFailure {
    ghost from_gives = { λ _ failure. failure ≡ Memory };

    /// Returns `ToolFailure::Memory`, whatever the allocation was for.
    fn from(_error: AllocError) -> ToolFailure {
        ToolFailure::Memory
    }
}

/// Returns, in a new string without a line end, the line of a failure, which a program prints
/// unless it is a usage error.
///
/// It is `fault:`, what failed, the name of the refusal and its numbers.
///
/// # Errors
///
/// `AllocError` if memory is refused.
pub fn fault_line(alloc: Global, failure: &ToolFailure) -> Result<String, AllocError>
    ensures { IfOk result (λ line. string_bytes line ≡ fault_text failure.now) }
{
    match failure {
        ToolFailure::Text(line) => format!(in alloc; "fault: text Line {line}"),
        ToolFailure::Image(error) => ckd_image::fault_line(alloc, *error),
        ToolFailure::File(count) => format!(in alloc; "fault: file Device {count}"),
        ToolFailure::Memory => String::from_str(alloc, "fault: memory Memory"),
        ToolFailure::Usage => String::from_str(alloc, "wrong words"),
    }
}

/// Returns the exit status of a failure: 1 for refused input, 2 for a usage error, 3 for a host
/// file, 4 for memory.
pub fn status(failure: &ToolFailure) -> u8
    ensures { result ≡ status_of failure.now }
{
    match failure {
        ToolFailure::Text(_) => 1,
        ToolFailure::Image(error) => ckd_image::status(*error),
        ToolFailure::File(_) => 3,
        ToolFailure::Memory => 4,
        ToolFailure::Usage => 2,
    }
}

impl ProgramFailure for ToolFailure {
    ghost use Rattle.std.specs.Prelude.{None};
    ghost use Rattle.ckd_text.specs.declared.faults.ToolFailure.TheVariants.{Memory, Usage};

    ghost text = { fault_text };

    ghost code = { status_of };

    ghost unsaved = { λ _. None };

    ghost is_memory = { λ failure. failure ≡ Memory };

    ghost is_usage = { λ failure. failure ≡ Usage };

    ghost memory_told = { λ failure memory. ap fault_text memory };

    /// Returns the failure that memory was refused.
    fn no_memory() -> ToolFailure {
        ToolFailure::Memory
    }

    /// Returns the failure that the words are not those of the program.
    fn wrong_words() -> ToolFailure {
        ToolFailure::Usage
    }

    /// Returns whether the words are not those of the program.
    fn is_wrong_words(&self) -> bool {
        *self == ToolFailure::Usage
    }

    /// Returns the line that tells the failure, without its end.
    fn line(&self, alloc: Global) -> Result<String, AllocError> {
        fault_line(alloc, self)
    }

    /// Returns the exit status of the program.
    fn status(&self) -> u8 {
        status(self)
    }

    /// Returns no path: these programs save no image in place of another.
    fn unsaved_path(&self) -> Option<&str> {
        None
    }
}
