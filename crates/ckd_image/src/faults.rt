//! Why an image is not read or written, and what a program says of it.
ghost use Rattle.std.specs.Prelude.{◌≡◌, IfOk, string_bytes};
ghost use Rattle.ckd_image.specs.Told.{image_status, image_text};

use std::alloc::{AllocError, Global};
use thiserror::Error;

/// Why an image is not read or written.
#[derive(Clone, Copy, Debug, PartialEq, Eq, Drop, Error)]
pub enum ImageError {
    /// The allocator refused a growth.
    #[error("no memory is left for the image")]
    Memory,
    /// The header is not that of an image.
    #[error("the header is not that of an image")]
    BadMagic,
    /// The image ends before it is whole.
    #[error("the image ends before it is whole")]
    Truncated,
    /// The track under this head of this cylinder has more records than it has room for.
    #[error("the records of track {1} of cylinder {0} do not fit")]
    BadTrack(u16, u8),
    /// Bytes are after the image.
    #[error("bytes stand behind the image")]
    Trailing,
    /// The file failed, and the number says for which time.
    #[error("failure {0} of the file")]
    Device(u64),
    /// The number of all records is wrong.
    #[error("the number of all records is wrong")]
    BadTotal,
}

/// Returns, in a new string without a line end, the line that a program prints for this error.
///
/// It is `fault:`, what failed, the name of the refusal and its numbers.
///
/// # Errors
///
/// `AllocError` if memory is refused.
pub fn fault_line(alloc: Global, error: ImageError) -> Result<String, AllocError>
    ensures { IfOk result (λ line. string_bytes line ≡ image_text error) }
{
    match error {
        ImageError::Memory => String::from_str(alloc, "fault: memory Memory"),
        ImageError::BadMagic => String::from_str(alloc, "fault: image BadMagic"),
        ImageError::Truncated => String::from_str(alloc, "fault: image Truncated"),
        ImageError::BadTrack(cylinder, head) => {
            format!(in alloc; "fault: image BadTrack {cylinder} {head}")
        }
        ImageError::Trailing => String::from_str(alloc, "fault: image Trailing"),
        ImageError::Device(count) => format!(in alloc; "fault: file Device {count}"),
        ImageError::BadTotal => String::from_str(alloc, "fault: image BadTotal"),
    }
}

/// Returns the exit status of a program for this error: 1 for a bad image, 3 for a failure of the
/// file, 4 for memory.
pub fn status(error: ImageError) -> u8
    ensures { result ≡ image_status error }
{
    match error {
        ImageError::Memory => 4,
        ImageError::Device(_) => 3,
        _ => 1,
    }
}
