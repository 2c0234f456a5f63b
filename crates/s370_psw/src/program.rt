//! The causes of program interruptions.

ghost use Rattle.std.specs.Prelude.{◌≡◌, Some};
ghost use Rattle.s370_psw.specs.ProgramCode.{program_number, program_name};

use std::fmt;

/// Why a program was interrupted (GA22-7000, "Program Interruption").
#[derive(Clone, Copy, PartialEq, Eq)]
pub enum ProgramCode {
    Operation,
    PrivilegedOperation,
    Execute,
    Protection,
    Addressing,
    Specification,
    Data,
    FixedPointOverflow,
    FixedPointDivide,
}

impl ProgramCode {
    /// Returns the interruption code of the program exception, 1 to 9.
    #[inline(always)]
    pub fn number(self) -> u16
        ensures { result ≡ program_number self }
    {
        match self {
            ProgramCode::Operation => 1,
            ProgramCode::PrivilegedOperation => 2,
            ProgramCode::Execute => 3,
            ProgramCode::Protection => 4,
            ProgramCode::Addressing => 5,
            ProgramCode::Specification => 6,
            ProgramCode::Data => 7,
            ProgramCode::FixedPointOverflow => 8,
            ProgramCode::FixedPointDivide => 9,
        }
    }

    /// Returns the name of the program exception, for messages.
    pub fn as_str(self) -> &'static str
        ensures { result.now ≡ program_name self }
    {
        match self {
            ProgramCode::Operation => "operation",
            ProgramCode::PrivilegedOperation => "privileged operation",
            ProgramCode::Execute => "execute",
            ProgramCode::Protection => "protection",
            ProgramCode::Addressing => "addressing",
            ProgramCode::Specification => "specification",
            ProgramCode::Data => "data",
            ProgramCode::FixedPointOverflow => "fixed-point overflow",
            ProgramCode::FixedPointDivide => "fixed-point divide",
        }
    }
}

impl fmt::Display for ProgramCode {
    ghost output = { λ code. Some (program_name code) };

    /// Writes the name of the program exception, padded as the formatter asks.
    fn fmt<W: fmt::Write>(&self, f: &mut fmt::Formatter<W>) -> fmt::Result {
        f.pad(self.as_str())
    }
}
