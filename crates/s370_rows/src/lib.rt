//! The registers of the processor, the form of an instruction, and what instructions do to
//! registers and operands.
//!
//! Its one theorem: each function here leaves the registers, or names the address, that the
//! definition of its rule in `specs/` does (IBM System/370 Principles of Operation, GA22-7000,
//! "Instruction Formats", "Address Generation" and "General Instructions"). How an instruction is
//! fetched, and which one an operation code names, is not known here.
//!
//! A row of the instruction table has three parts: what refuses it before any test, the ranges of
//! storage that it tests in order, and what it then leaves or is refused by. `specs/Rows.antt` has
//! that form, and judges every row by one definition; [`grant`] and [`grant_two`] give leave to
//! access the ranges, [`copy_granted`] where one look is enough.
//!
//! ```
//! use s370_num::ConditionCode;
//! use s370_rows::{Arithmetic, compute};
//!
//! // ADD of 1 to the greatest number: the low bits of the sum, and an overflow, which sets code 3
//! let sum = compute(Arithmetic::Add, ConditionCode::ZERO, 0x7FFF_FFFF, 1);
//! assert_eq!(rt; sum.value, 0x8000_0000);
//! assert!(rt; sum.overflows);
//! assert_eq!(rt; sum.condition, ConditionCode::THREE);
//! ```
#![tactic(auto)]

mod access;
mod arithmetic;
mod branches;
mod cpu;
mod ending;
mod halfword;
mod held;
mod immediate;
mod instruction;
mod load;
mod mask;
mod operand;
mod pair;
mod place;
mod product;
mod rows;
mod shift;
mod swap;

pub use access::{copy_granted, grant, grant_two, reach};
pub use arithmetic::{Arithmetic, Computed, compute, kept, order_of, sign_of, zero_of};
pub use branches::{
    IndexBranch, branch_and_link, branch_on_condition, branch_on_count, branch_on_index,
};
pub use cpu::Cpu;
pub use ending::{Completion, IoOperation, Refusal};
pub use halfword::halfword_operand;
pub use held::{HeldBlock, source_block, target_block};
pub use immediate::{ByteChange, ByteTest, ChangedByte, change_byte, test_byte};
pub use instruction::Instruction;
pub use load::{insert_byte_row, load_address_row, set_program_mask_row};
pub use mask::{select_bytes, selected_count};
pub use operand::{Reach, Tested, byte_at, doubleword_at, halfword_at, store_word_at, word_at};
pub use place::Place;
pub use product::{Quotient, divide_row, multiply_halfword_row, multiply_row};
pub use rows::{arithmetic_row, overflow_ending};
pub use shift::{ComputedPair, Shift, shift_pair_row, shift_row};
pub use swap::{compare_and_swap, compare_and_swap_pair};
