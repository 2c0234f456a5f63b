//! Halfword operands.
ghost use Rattle.std.specs.Prelude.{◌≡◌, ℕ};
ghost use Rattle.s370_rows.specs.Halfword.{halfword_operand};

/// Returns a halfword as a word, its sign extended: the operand of LH, CH, AH, SH and MH.
#[inline(always)]
pub fn halfword_operand(half: u16) -> u32
    ensures { result ≡ halfword_operand half }
{
    (half.cast_signed() as i32).cast_unsigned()
}
