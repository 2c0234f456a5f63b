//! The classes of interruptions.
ghost use Rattle.std.specs.Prelude.{◌≡◌};
ghost use Rattle.s370_intr.specs.Swap.{old_psw_of, new_psw_of};

/// A class of interruptions: each has a place for the program status word that it stores, and one
/// for the word that it loads (GA22-7000, "Assigned Storage Locations").
#[derive(Clone, Copy, PartialEq, Eq)]
pub enum Class {
    External,
    SupervisorCall,
    Program,
    MachineCheck,
    InputOutput,
}

impl Class {
    /// Returns the address at which an interruption of this class stores the old PSW.
    #[inline]
    pub fn old_psw_address(self) -> u32
        ensures { result ≡ old_psw_of self }
    {
        match self {
            Class::External => 24,
            Class::SupervisorCall => 32,
            Class::Program => 40,
            Class::MachineCheck => 48,
            Class::InputOutput => 56,
        }
    }

    /// Returns the address from which an interruption of this class loads the new PSW.
    #[inline]
    pub fn new_psw_address(self) -> u32
        ensures { result ≡ new_psw_of self }
    {
        match self {
            Class::External => 88,
            Class::SupervisorCall => 96,
            Class::Program => 104,
            Class::MachineCheck => 112,
            Class::InputOutput => 120,
        }
    }
}
