//! The processor: one instruction, from its fetch to its end, over any storage.
//!
//! Its one theorem: [`step`] leaves the registers, the program status word, the bytes and the keys,
//! and answers the stop, that the instruction table in `specs/` does (IBM System/370 Principles of
//! Operation, GA22-7000); or it answers that a page is not present, which the instruction has to
//! access, and has changed nothing. It is given the registers and a storage, and it takes no
//! interruption: who calls it swaps the program status words, and goes on with an instruction for
//! the supervisor state by [`supervise`], of which the same holds over the table of those.
//!
//! A loop over instructions does the same by [`step_held`], which looks for operands in the blocks
//! where the last ones lay and answers where the next instruction is, or that it has changed
//! nothing; then the caller has [`step_in`] or [`step`] do the unit. That is always allowed:
//! carrying out an instruction in the loop makes it faster, and changes nothing else. The loop does
//! not do SSK, SIO, TIO, HIO, TCH, SVC, CVB, instructions whose overflow would interrupt, and
//! whatever ends in an exception or needs a page that is absent. [`supervise_held`] does privileged
//! instructions that set no storage key and ask no device; they may change masks, so the caller
//! looks at what is pending before it goes on.
//!
//! Of the table itself five laws hold, over all instructions: a byte that is changed was tested for
//! storing ([`changed_bytes_were_tested`]), its block's key in storage matches the protection key
//! ([`protection_holds`]), the problem state gives itself no rights ([`problem_state_holds`]), an
//! instruction tests at most two ranges of at most 256 bytes ([`few_ranges_are_tested`]), and so it
//! asks for at most eight pages ([`few_pages_are_asked_for`]).
//!
//! ```
//! use s370_cpu::{Stop, step};
//! use s370_psw::{Ilc, Psw};
//! use s370_rows::Cpu;
//! use s370_store::{PlainStorage, Storage};
//!
//! let mut cpu = Cpu { general: [0; 16], control: [0; 16], psw: Psw::from_word(0x1000) };
//! let mut storage = PlainStorage::new(alloc, 4)?;
//! storage.store(0x1000, &[0x41, 0x10, 0, 42, 0x0A, 7]); // LA 1,42 and SVC 7
//! assert!(rt; step(&mut cpu, &mut storage) == Stop::Done);
//! assert_eq!(rt; cpu.general[1], 42);
//! assert!(rt; step(&mut cpu, &mut storage) == Stop::Svc(7, Ilc::ONE));
//! ```
#![tactic(auto)]

mod conclude;
mod control;
mod execute;
mod fetch;
mod fetch_rows;
mod held;
mod held_codes;
mod held_control;
mod known;
mod laws;
mod opcodes;
mod register_rows;
mod stepped;
mod store_rows;
mod unit;

pub use conclude::Stop;
pub use control::supervise;
pub use held::{move_granted_parts, step_held};
pub use held_control::supervise_held;
pub use known::load_known_in;
pub use laws::{
    changed_bytes_were_tested, few_pages_are_asked_for, few_ranges_are_tested, problem_state_holds,
    protection_holds,
};
pub use stepped::Stepped;
pub use unit::{step, step_in};
