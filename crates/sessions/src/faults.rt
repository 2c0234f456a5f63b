//! Why a session does not reach its end.
ghost use Rattle.std.specs.Prelude.{◌≡◌};
ghost use Rattle.sessions.specs.Session.{fault_error, play_error, refusal_error, refused_error};
ghost use Rattle.sessions.specs.declared.faults.PlayError.TheVariants.{Memory};
ghost use Rattle.sessions.specs.declared.faults.SessionError.TheVariants as ends;

use crate::installation::Refused;
use s370_num::host::HostFault;
use session_script::ScriptError;
use std::alloc::AllocError;
use thiserror::Error;

/// Why something that a script asks for was not done, or its lines were not written.
#[derive(Clone, Copy, Debug, PartialEq, Eq, Drop, Error)]
pub enum PlayError {
    /// A growth was refused.
    #[error("no memory is left")]
    Memory,
    /// A host file failed, and the number says for which time.
    #[error("failure {0} of a host file")]
    Device(u64),
    /// The installation is spent.
    #[error("the installation is spent")]
    Spent,
}

/// Why a session did not go to its end.
#[derive(Clone, Copy, Debug, PartialEq, Eq, Drop, Error)]
pub enum SessionError {
    /// A growth was refused.
    #[error("no memory is left")]
    Memory,
    /// The first line of the script, counted from 1, that is no line of a script.
    #[error("line {0} of the script names an unknown user or is misspelled")]
    Line(u64),
    /// A host file failed, and the number says for which time.
    #[error("failure {0} of a host file")]
    Device(u64),
    /// The system is spent.
    #[error("the system is spent")]
    Spent,
}

impl From<HostFault> for PlayError {
    ghost from_gives = { λ fault error. error ≡ fault_error fault };

    /// Returns the error of a script's event for a fault of the host.
    fn from(fault: HostFault) -> PlayError {
        match fault {
            HostFault::Memory => PlayError::Memory,
            HostFault::Device(count) => PlayError::Device(count),
        }
    }
}

impl From<Refused> for PlayError {
    ghost from_gives = { λ refused error. error ≡ refused_error refused };

    /// Returns the error of a script's event for why an installation refused it.
    fn from(refused: Refused) -> PlayError {
        match refused {
            Refused::Memory => PlayError::Memory,
            Refused::Spent => PlayError::Spent,
        }
    }
}

impl From<AllocError> for PlayError {
    ghost from_gives = { λ _ error. error ≡ Memory };

    /// Returns the error that memory was refused.
    fn from(_error: AllocError) -> PlayError {
        PlayError::Memory
    }
}

impl From<PlayError> for SessionError {
    ghost from_gives = { λ error end. end ≡ play_error error };

    /// Returns the error of a session for that of one of its events.
    fn from(error: PlayError) -> SessionError {
        match error {
            PlayError::Memory => SessionError::Memory,
            PlayError::Device(count) => SessionError::Device(count),
            PlayError::Spent => SessionError::Spent,
        }
    }
}

impl From<HostFault> for SessionError {
    ghost from_gives = { λ fault end. end ≡ play_error (fault_error fault) };

    /// Returns the error of a session for a fault of the host.
    fn from(fault: HostFault) -> SessionError {
        match fault {
            HostFault::Memory => SessionError::Memory,
            HostFault::Device(count) => SessionError::Device(count),
        }
    }
}

impl From<ScriptError> for SessionError {
    ghost from_gives = { λ refusal end. end ≡ refusal_error refusal };

    /// Returns the error of a session for why its script was refused.
    fn from(refusal: ScriptError) -> SessionError {
        match refusal {
            ScriptError::Memory => SessionError::Memory,
            ScriptError::Line(number) => SessionError::Line(number),
        }
    }
}

impl From<AllocError> for SessionError {
    ghost from_gives = { λ _ end. end ≡ ends.Memory };

    /// Returns the error that memory was refused.
    fn from(_error: AllocError) -> SessionError {
        SessionError::Memory
    }
}
