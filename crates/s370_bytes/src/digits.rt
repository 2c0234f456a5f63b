//! Strings of decimal digits, zoned and packed.
ghost use Rattle.std.specs.Prelude.{◌≡◌, ℕ, ◌+◌, ◌<◌, ◌≤◌, length, slice_range};
ghost use Rattle.s370_store.specs.Access.{IsGranted};
ghost use Rattle.s370_store.specs.Memory.{with_stored};
ghost use Rattle.s370_rows.specs.State.{state_of};
ghost use Rattle.s370_rows.specs.Rows.{MeetsRow};
ghost use Rattle.s370_bytes.specs.Digits.{from_right, digit, exchanged, laid_out, string_of};
ghost use Rattle.s370_bytes.specs.Digits.{digits_laid_out};

use s370_rows::{Completion, Cpu, Instruction, Refusal, grant_two};
use s370_store::{Access, Range, Storage};

/// How digits are laid out anew.
#[derive(Clone, Copy, PartialEq, Eq)]
pub enum Layout {
    MoveWithOffset,
    Pack,
    Unpack,
}

/// Returns the byte at index `place` from the right, or zero past the left end.
#[inline(always)]
fn from_right(bytes: &[u8], place: usize) -> u8
    ensures { result ≡ from_right bytes.now place }
{
    if place < bytes.len() {
        bytes[bytes.len() - 1 - place]
    } else {
        0
    }
}

/// Returns the half byte at index `place` from the right, or zero past the left end.
#[inline(always)]
fn digit(bytes: &[u8], place: usize) -> u8
    ensures value { result ≡ digit bytes.now place }
    ensures below { result < 16 }
{
    let byte = from_right(bytes, place / 2);
    if place % 2 == 0 { byte % 16 } else { byte / 16 }
}

/// Returns a byte with its two halves exchanged.
#[inline(always)]
fn exchanged(byte: u8) -> u8
    ensures { result ≡ exchanged byte }
{
    byte % 16 * 16 + byte / 16
}

/// Returns byte `place`, counted from the right, of the result of MVO, PACK or UNPK.
#[inline(always)]
fn laid_out(layout: Layout, target: &[u8], source: &[u8], place: usize) -> u8
    requires { place < 16 }
    ensures { result ≡ laid_out layout target.now source.now place }
{
    match layout {
        Layout::MoveWithOffset => {
            let low = if place == 0 {
                from_right(target, 0) % 16
            } else {
                digit(source, 2 * place - 1)
            };
            digit(source, 2 * place) * 16 + low
        }
        Layout::Pack => {
            if place == 0 {
                exchanged(from_right(source, 0))
            } else {
                from_right(source, 2 * place) % 16 * 16 + from_right(source, 2 * place - 1) % 16
            }
        }
        Layout::Unpack => {
            if place == 0 {
                exchanged(from_right(source, 0))
            } else {
                240 + digit(source, place + 1)
            }
        }
    }
}

/// Fills `made` with the result of MVO, PACK or UNPK on `target` and `source`.
#[inline]
fn lay_out(layout: Layout, target: &[u8], source: &[u8], made: &mut [u8])
    requires same { length made.old ≡ length target.now }
    requires short { length target.now ≤ 16 }
    ensures { made.new ≡ string_of (length target.now) (laid_out layout target.now source.now) }
{
    for k in 0..target.len() {
        made[k] = laid_out(layout, target, source, target.len() - 1 - k);
    }
}

/// Does MVO, PACK or UNPK on two ranges of storage, both of which are read whole before one is
/// stored.
#[inline(always)]
fn lay_out_at<S: Storage>(
    layout: Layout,
    storage: &mut S,
    to: u32,
    from: u32,
    target: &mut [u8],
    source: &mut [u8],
    made: &mut [u8],
)
    requires same { length made.old ≡ length target.old }
    requires short { length target.old ≤ 16 }
    requires source_short { length source.old ≤ 16 }
    requires target { IsGranted (length (S.memory storage.old).bytes) (S.present storage.old) to
        (length target.old) }
    requires source { IsGranted (length (S.memory storage.old).bytes) (S.present storage.old) from
        (length source.old) }
    ensures stored { S.memory storage.new ≡ with_stored (S.memory storage.old) to
        (string_of (length target.old)
        (laid_out layout (slice_range (S.memory storage.old).bytes to (to + length target.old))
        (slice_range (S.memory storage.old).bytes from (from + length source.old)))) }
    ensures rest { S.Keeps storage.old storage.new }
{
    storage.load(to, target);
    storage.load(from, source);
    lay_out(layout, target, source, made);
    storage.store(to, made);
}

/// Does MVO (F1), PACK (F2) or UNPK (F3): lays out the second operand's digits in the first
/// operand.
///
/// The condition code stays. Both operands are read whole before the result is stored.
///
/// # Errors
///
/// A `Refusal`: the program interruption, or an absent page that has to be brought first. Nothing
/// has changed.
pub fn layout_row<S: Storage>(
    layout: Layout,
    cpu: &Cpu,
    storage: &mut S,
    i: Instruction,
) -> Result<Completion, Refusal>
    ensures row { let before = state_of cpu.now (S.memory storage.old) in
        let after = state_of cpu.now (S.memory storage.new) in
        MeetsRow (digits_laid_out layout before i) (S.present storage.old) before result after }
    ensures rest { S.Keeps storage.old storage.new }
{
    let to = cpu.based(i.second_half).get();
    let from = cpu.based(i.third_half).get();
    let count = i.r1().index() + 1;
    let count_2 = i.r2().index() + 1;
    let first = Range {
        start: to,
        count: count as u32,
    };
    let second = Range {
        start: from,
        count: count_2 as u32,
    };
    grant_two(cpu, storage, first, Access::Store, second, Access::Fetch)?;
    let mut target = [0u8; 16];
    let mut source = [0u8; 16];
    let mut made = [0u8; 16];
    lay_out_at(
        layout,
        storage,
        to,
        from,
        &mut target[..count],
        &mut source[..count_2],
        &mut made[..count],
    );
    Ok(Completion::Done)
}
