//! What stays the same while a program runs.

use s370_num::AccessKey;

/// The key of a program, and how many commands it may start.
#[derive(Clone, Copy, PartialEq, Eq)]
pub struct Limits {
    /// The key that accesses to data are tested with.
    pub key: AccessKey,
    /// How many commands may be started, those before the program's own included.
    pub commands: u32,
    /// How many commands are before the program's own.
    pub prefix: u32,
}
