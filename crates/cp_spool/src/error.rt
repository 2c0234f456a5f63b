//! Why the queues refuse.
ghost use Rattle.std.specs.Prelude.{◌≡◌};
ghost use Rattle.cp_spool.specs.Saved.{restore_error};

use saved_bytes::RestoreError;
use thiserror::Error;

/// Why something is not done with spool files. Then they are as they were.
#[derive(Clone, Copy, Debug, PartialEq, Eq, Error)]
pub enum SpoolError {
    /// A growth was refused.
    #[error("no memory is left")]
    Memory,
    /// No file of this id waits in that reader.
    #[error("there is no such file")]
    NoSuchFile,
    /// There is no user of this number.
    #[error("there is no such user")]
    NoSuchUser,
}

impl From<SpoolError> for RestoreError {
    ghost from_gives = { λ error restore. restore ≡ restore_error error };

    /// Returns `Memory` for refused memory, else `Malformed`: no state names such a user or file.
    fn from(error: SpoolError) -> RestoreError {
        match error {
            SpoolError::Memory => RestoreError::Memory,
            SpoolError::NoSuchFile | SpoolError::NoSuchUser => RestoreError::Malformed,
        }
    }
}
