//! The instructions that work on strings of bytes in a storage.
//!
//! Its one theorem: each function here answers and leaves what its row of the instruction table in
//! `specs/` does (IBM System/370 Principles of Operation, GA22-7000, "General Instructions"), over
//! any storage; or it answers what refuses it, or that a page is not present, which the row has to
//! access, and has changed nothing.
//!
//! ```
//! use s370_bytes::{Combine, combine_row};
//! use s370_psw::Psw;
//! use s370_rows::{Completion, Cpu, Instruction, Tested};
//! use s370_store::{PlainStorage, Storage, load_word};
//!
//! let mut cpu = Cpu { general: [0; 16], control: [0; 16], psw: Psw::from_word(0) };
//! let mut storage = PlainStorage::new(alloc, 4)?;
//! storage.store(0x900, &[0x0F, 0xF0, 0, 0]);
//! storage.store(0xA00, &[0xFF, 0xFF, 0, 0]);
//! // XC X'900'(4),X'A00', without base registers
//! let xc = Instruction { opcode: 0xD7, second_byte: 3, second_half: 0x0900, third_half: 0x0A00 };
//! let done = combine_row(Combine::ExclusiveOr, &mut cpu, &mut storage, xc, &mut Tested);
//! assert!(rt; done == Ok(Completion::Done));
//! assert_eq!(rt; load_word(&storage, 0x900), 0xF00F_0000);
//! assert_eq!(rt; cpu.psw.condition().get(), 1); // the result is not zero
//! ```
#![tactic(auto)]

mod combine;
mod compare;
mod decimal;
mod digits;
mod long;
mod masks;
mod multiple;
mod translate;

pub use combine::{Combine, combine_row, move_row};
pub use compare::compare_row;
pub use decimal::{binary_row, decimal_row};
pub use digits::{Layout, layout_row};
pub use long::{compare_long_row, move_long_parts, move_long_row};
pub use masks::{compare_characters_row, insert_characters_row, store_characters_row};
pub use multiple::{
    load_multiple_row, load_registers, store_multiple_row, store_registers, words_range,
};
pub use translate::{translate_row, translate_test_row};
