//! Operations on a byte of storage.
ghost use Rattle.std.specs.Prelude.{◌≡◌, ℕ};
ghost use Rattle.s370_rows.specs.Immediate.{byte_code, changed_byte, selected_code, tested_byte};

use crate::arithmetic::{order_of, zero_of};
use s370_num::ConditionCode;

/// A test of a byte by the immediate one.
#[derive(Clone, Copy, PartialEq, Eq)]
pub enum ByteTest {
    /// 91 TM
    UnderMask,
    /// 95 CLI
    CompareLogical,
}

/// A change of a byte, mostly by the immediate one.
#[derive(Clone, Copy, PartialEq, Eq)]
pub enum ByteChange {
    /// 92 MVI
    Move,
    /// 94 NI
    And,
    /// 96 OI
    Or,
    /// 97 XI
    ExclusiveOr,
    /// 93 TS
    TestAndSet,
}

/// What a byte is changed to, and the condition code.
#[derive(Clone, Copy, PartialEq, Eq)]
pub struct ChangedByte {
    pub byte: u8,
    pub condition: ConditionCode,
}

/// Returns the condition code that TM (91) or CLI (95) gives for a byte and an immediate byte.
#[inline(always)]
pub fn test_byte(test: ByteTest, byte: u8, immediate: u8) -> ConditionCode
    ensures { result ≡ byte_code test byte immediate }
{
    match test {
        ByteTest::UnderMask => selected_code(byte, immediate),
        ByteTest::CompareLogical => order_of(byte as u32, immediate as u32),
    }
}

/// Returns TM's condition code of the bits that a mask selects: 0 if all are zero, 3 if all are
/// one, 1 if mixed.
#[inline(always)]
fn selected_code(byte: u8, mask: u8) -> ConditionCode
    ensures { result ≡ selected_code byte mask }
{
    let selected = byte & mask;
    if selected == 0 {
        ConditionCode::ZERO
    } else if selected == mask {
        ConditionCode::THREE
    } else {
        ConditionCode::ONE
    }
}

/// Returns the byte and condition code that MVI (92), TS (93), NI (94), OI (96) or XI (97) gives;
/// MVI keeps the code.
#[inline(always)]
pub fn change_byte(
    change: ByteChange,
    condition: ConditionCode,
    byte: u8,
    immediate: u8,
) -> ChangedByte
    ensures { result ≡ changed_byte change condition byte immediate }
{
    match change {
        ByteChange::Move => ChangedByte {
            byte: immediate,
            condition,
        },
        ByteChange::And => tested_byte(byte & immediate),
        ByteChange::Or => tested_byte(byte | immediate),
        ByteChange::ExclusiveOr => tested_byte(byte ^ immediate),
        ByteChange::TestAndSet => ChangedByte {
            byte: 0xFF,
            condition: ConditionCode::new(byte >> 7),
        },
    }
}

/// Returns this byte, with condition code 0 if it is zero, else 1.
#[inline(always)]
fn tested_byte(byte: u8) -> ChangedByte
    ensures { result ≡ tested_byte byte }
{
    ChangedByte {
        byte,
        condition: zero_of(byte as u32),
    }
}
