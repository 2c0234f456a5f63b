//! Where an instruction is.
use s370_num::Addr24;
use s370_psw::Ilc;

/// What an instruction that is carried out is given of its place: the address of the next
/// instruction, and the length code that an interruption stores. Under EX both are those of EX.
#[derive(Clone, Copy, Debug, PartialEq, Eq)]
pub struct Place {
    /// Where the next instruction is.
    pub next: Addr24,
    /// How many halfwords the instruction has.
    pub ilc: Ilc,
}
