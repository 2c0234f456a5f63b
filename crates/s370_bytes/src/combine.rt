//! Strings that are changed from left to right.
ghost use Rattle.std.specs.Prelude.{◌≡◌, ℕ, ◌+◌, ◌==◌, ◌<◌, ◌≤◌, length, slice_index, slice_range};
ghost use Rattle.std.specs.Prelude.{take, true, false};
ghost use Rattle.std.specs.Int.{to_be_bytes, w64};
ghost use Rattle.s370_store.specs.Memory.{with_stored};
ghost use Rattle.s370_rows.specs.Arithmetic.{zero_code};
ghost use Rattle.s370_rows.specs.State.{state_of};
ghost use Rattle.s370_rows.specs.Reach.{MeetsBy};
ghost use Rattle.s370_bytes.specs.declared.combine.Combine.{Combine};
ghost use Rattle.s370_bytes.specs.Combine.{combined, combined_condition, string_combined, made_of};
ghost use Rattle.s370_bytes.specs.Combine.{lag_of, lagged};
ghost use Rattle.s370_bytes.specs.Strings.{number};

use crate::compare::front_number;
use crate::long::set_all;
use s370_num::ConditionCode;
use s370_rows::{Completion, Cpu, Instruction, Reach, byte_at};
use s370_store::{Access, Storage};

/// The left halves of eight bytes.
const ZONES: u64 = 0xF0F0_F0F0_F0F0_F0F0;

/// The right halves of eight bytes.
const NUMERICS: u64 = 0x0F0F_0F0F_0F0F_0F0F;

/// What is made of a byte of each operand.
#[derive(Clone, Copy, PartialEq, Eq)]
pub enum Combine {
    Move,
    MoveNumerics,
    MoveZones,
    And,
    Or,
    ExclusiveOr,
}

impl Combine {
    /// Returns the byte that the operation makes of a target byte `x` and a source byte `y`.
    #[inline(always)]
    fn byte(self, x: u8, y: u8) -> u8
        ensures { result ≡ combined self x y }
    {
        match self {
            Combine::Move => y,
            Combine::MoveNumerics => x / 16 * 16 + y % 16,
            Combine::MoveZones => y / 16 * 16 + x % 16,
            Combine::And => x & y,
            Combine::Or => x | y,
            Combine::ExclusiveOr => x ^ y,
        }
    }

    /// Combines each of the eight bytes of two numbers as the operation says.
    #[inline(always)]
    fn eight(self, x: u64, y: u64) -> u64
        ensures { (k : ℕ) → k < 8
            → slice_index (to_be_bytes w64 result) k
            ≡ combined self (slice_index (to_be_bytes w64 x) k)
            (slice_index (to_be_bytes w64 y) k) }
    {
        match self {
            Combine::Move => y,
            Combine::MoveNumerics => x & ZONES | y & NUMERICS,
            Combine::MoveZones => y & ZONES | x & NUMERICS,
            Combine::And => x & y,
            Combine::Or => x | y,
            Combine::ExclusiveOr => x ^ y,
        }
    }
}

/// Returns after how many bytes a byte that was written is read as source, or `count` if none is.
#[inline(always)]
pub fn lag_of(to: u32, from: u32, count: u32) -> u32
    requires { 0 < count }
    ensures value { result ≡ lag_of to from count }
    ensures some { 0 < result }
    ensures within { result ≤ count }
{
    if from < to && to - from < count {
        to - from
    } else {
        count
    }
}

/// Combines `target` in place with `source`; past the first `lag` bytes, the source is the new
/// target byte `lag` before.
#[inline]
fn combine_all(operation: Combine, target: &mut [u8], source: &[u8], lag: usize)
    requires same { length target.old ≡ length source.now }
    requires some { 0 < lag }
    requires within { lag ≤ length target.old }
    ensures size { length target.new ≡ length target.old }
    ensures each { (k : ℕ) → k < length target.old
        → slice_index target.new k
        ≡ combined operation (slice_index target.old k) (lagged source.now target.new lag k) }
{
    for k in 0..lag {
        target[k] = operation.byte(target[k], source[k]);
    }
    for k in lag..target.len() {
        target[k] = operation.byte(target[k], target[k - lag]);
    }
}

/// Overwrites each byte past the first `lag` with the byte `lag` before it, so that the front
/// repeats.
#[inline]
fn repeat(bytes: &mut [u8], lag: usize)
    requires some { 0 < lag }
    requires within { lag ≤ length bytes.old }
    ensures size { length bytes.new ≡ length bytes.old }
    ensures each { (k : ℕ) → k < length bytes.old
        → slice_index bytes.new k ≡ lagged bytes.old bytes.new lag k }
{
    for k in lag..bytes.len() {
        bytes[k] = bytes[k - lag];
    }
}

/// Returns whether all bytes are zero.
#[inline]
pub fn is_zero(bytes: &[u8]) -> bool
    ensures { result ≡ (number bytes.now == 0) }
{
    for byte in bytes {
        if *byte != 0 {
            return false;
        }
    }
    true
}

/// Returns condition code 0 if all bytes are zero, else 1.
#[inline(always)]
fn condition_of(bytes: &[u8]) -> ConditionCode
    ensures { result ≡ zero_code (number bytes.now) }
{
    if is_zero(bytes) {
        ConditionCode::ZERO
    } else {
        ConditionCode::ONE
    }
}

/// Sets condition code 0 or 1 by whether the result is all zero, unless the operation is a move.
#[inline(always)]
fn set_combined_condition(operation: Combine, cpu: &mut Cpu, made: &[u8])
    ensures { cpu.new ≡ combined_condition operation cpu.old made.now }
{
    match operation {
        Combine::And | Combine::Or | Combine::ExclusiveOr => {
            cpu.psw.set_condition(condition_of(made))
        }
        Combine::Move | Combine::MoveNumerics | Combine::MoveZones => {}
    }
}

/// Combines two ranges of storage from left to right and stores the result, which stays in `made`;
/// `other` is a buffer.
#[inline(always)]
fn combine_through<S: Storage, R: Reach<S>>(
    operation: Combine,
    storage: &mut S,
    target: R::Span,
    to: u32,
    source: R::Span,
    from: u32,
    made: &mut [u8],
    other: &mut [u8],
)
    requires some { 0 < length made.old }
    requires short { length made.old ≤ 256 }
    requires same { length made.old ≡ length other.old }
    requires inside { to + length made.old ≤ length (S.memory storage.old).bytes }
    requires target { R.Covers storage.old to (length made.old) target }
    requires source { R.Covers storage.old from (length made.old) source }
    ensures stored { S.memory storage.new
        ≡ with_stored (S.memory storage.old) to
        (made_of operation (S.memory storage.old).bytes to from (length made.old)) }
    ensures made { made.new ≡ made_of operation (S.memory storage.old).bytes to from
        (length made.old) }
    ensures rest { S.Keeps storage.old storage.new }
{
    R::load(storage, target, to, made);
    R::load(storage, source, from, other);
    let lag = lag_of(to, from, made.len() as u32);
    combine_all(operation, made, other, lag as usize);
    R::store(storage, target, to, made);
}

/// Combines two ranges of storage through buffers, and sets the condition code unless it is a move.
///
/// A short string goes through short buffers, which take less time to make.
#[inline(never)]
fn combine_long<S: Storage, R: Reach<S>>(
    operation: Combine,
    cpu: &mut Cpu,
    storage: &mut S,
    target: R::Span,
    to: u32,
    source: R::Span,
    from: u32,
    count: u32,
)
    requires some { 0 < count }
    requires short { count ≤ 256 }
    requires inside { to + count ≤ length (S.memory storage.old).bytes }
    requires target { R.Covers storage.old to count target }
    requires source { R.Covers storage.old from count source }
    ensures stored { S.memory storage.new
        ≡ with_stored (S.memory storage.old) to
        (made_of operation (S.memory storage.old).bytes to from count) }
    ensures condition { cpu.new
        ≡ combined_condition operation cpu.old
        (made_of operation (S.memory storage.old).bytes to from count) }
    ensures rest { S.Keeps storage.old storage.new }
{
    let count = count as usize;
    if count <= 16 {
        let mut bytes = [0u8; 16];
        let mut other = [0u8; 16];
        let (made, other) = (&mut bytes[..count], &mut other[..count]);
        combine_through::<S, R>(operation, storage, target, to, source, from, made, other);
        set_combined_condition(operation, cpu, made);
    } else {
        let mut bytes = [0u8; 256];
        let mut other = [0u8; 256];
        let (made, other) = (&mut bytes[..count], &mut other[..count]);
        combine_through::<S, R>(operation, storage, target, to, source, from, made, other);
        set_combined_condition(operation, cpu, made);
    }
}

/// Returns a number whose first `count` bytes are those of `front`, the others those of `bytes`.
#[inline(always)]
fn with_front(bytes: u64, front: u64, count: usize) -> u64
    requires some { 0 < count }
    requires few { count ≤ 8 }
    ensures front { (k : ℕ) → k < count
        → slice_index (to_be_bytes w64 result) k ≡ slice_index (to_be_bytes w64 front) k }
    ensures rest { (k : ℕ) → count ≤ k
        → slice_index (to_be_bytes w64 result) k ≡ slice_index (to_be_bytes w64 bytes) k }
{
    let others = 64 - 8 * count;
    bytes ^ ((bytes ^ front) >> others << others)
}

/// Combines the first `count` bytes of `target` in place with those of `source`, all at once as
/// numbers; the others stay.
#[inline(always)]
fn combine_front(operation: Combine, target: &mut [u8; 8], source: &[u8; 8], count: usize)
    requires some { 0 < count }
    requires few { count ≤ 8 }
    ensures each { (k : ℕ) → k < count
        → slice_index target.new k
        ≡ combined operation (slice_index target.old k) (slice_index source.now k) }
    ensures rest { (k : ℕ) → count ≤ k → slice_index target.new k ≡ slice_index target.old k }
{
    let bytes = u64::from_be_bytes(*target);
    let made = operation.eight(bytes, u64::from_be_bytes(*source));
    *target = with_front(bytes, made, count).to_be_bytes();
}

/// Sets the condition code for the first `count` bytes of a result, unless the operation is a move.
#[inline(always)]
fn set_front_condition(operation: Combine, cpu: &mut Cpu, made: [u8; 8], count: u32)
    requires some { 0 < count }
    requires few { count ≤ 8 }
    ensures { cpu.new ≡ combined_condition operation cpu.old (take count made) }
{
    match operation {
        Combine::And | Combine::Or | Combine::ExclusiveOr => {
            let condition = if front_number(made, count) == 0 {
                ConditionCode::ZERO
            } else {
                ConditionCode::ONE
            };
            cpu.psw.set_condition(condition);
        }
        Combine::Move | Combine::MoveNumerics | Combine::MoveZones => {}
    }
}

/// Combines at most eight bytes, none of which is read after it was written, and sets the condition
/// code unless it is a move; eight bytes from each address on may be loaded and stored.
///
/// Eight bytes are loaded and stored, and those past `count` stay as they are.
#[inline(always)]
fn combine_short<S: Storage, R: Reach<S>>(
    operation: Combine,
    cpu: &mut Cpu,
    storage: &mut S,
    target: R::Span,
    to: u32,
    source: R::Span,
    from: u32,
    count: u32,
)
    requires some { 0 < count }
    requires few { count ≤ 8 }
    requires apart { lag_of to from count ≡ count }
    requires inside { to + count ≤ length (S.memory storage.old).bytes }
    requires target { R.Covers storage.old to 8 target }
    requires source { R.Covers storage.old from 8 source }
    ensures stored { S.memory storage.new
        ≡ with_stored (S.memory storage.old) to
        (made_of operation (S.memory storage.old).bytes to from count) }
    ensures condition { cpu.new
        ≡ combined_condition operation cpu.old
        (made_of operation (S.memory storage.old).bytes to from count) }
    ensures rest { S.Keeps storage.old storage.new }
{
    let mut made = [0u8; 8];
    let mut other = [0u8; 8];
    R::load(storage, target, to, &mut made);
    R::load(storage, source, from, &mut other);
    combine_front(operation, &mut made, &other, count as usize);
    R::store(storage, target, to, &made);
    set_front_condition(operation, cpu, made, count);
}

/// Does MVN (D1), MVZ (D3), NC (D4), OC (D6) or XC (D7): combines the first operand with the second
/// from left to right, and sets the condition code unless it is a move.
///
/// # Errors
///
/// What `R` says of an operand that is refused. Nothing has changed.
#[inline(always)]
pub fn combine_row<S: Storage, R: Reach<S>>(
    operation: Combine,
    cpu: &mut Cpu,
    storage: &mut S,
    i: Instruction,
    reach: &mut R,
) -> Result<Completion, R::Refused>
    requires ready { R.IsReady storage.old cpu.old.psw.key reach.old }
    ensures row { let before = state_of cpu.old (S.memory storage.old) in
        let after = state_of cpu.new (S.memory storage.new) in
        MeetsBy R.Refused R.Refuses (string_combined operation before i) (S.present storage.old)
        before result after }
    ensures rest { S.Keeps storage.old storage.new }
    ensures ready { R.IsReady storage.old cpu.old.psw.key reach.new }
{
    let to = cpu.based(i.second_half);
    let from = cpu.based(i.third_half);
    let count = i.second_byte as u32 + 1;
    let (target, source) = reach.both(cpu, storage, Access::Store, to, count, from, count)?;
    let (to, from) = (to.get(), from.get());
    if count <= 8
        && lag_of(to, from, count) == count
        && R::holds_eight(target, to)
        && R::holds_eight(source, from)
    {
        combine_short::<S, R>(operation, cpu, storage, target, to, source, from, count);
    } else {
        combine_long::<S, R>(operation, cpu, storage, target, to, source, from, count);
    }
    Ok(Completion::Done)
}

/// Does MVC from the byte before its target, which fills that with the byte.
#[inline(always)]
fn fill<S: Storage, R: Reach<S>>(
    storage: &mut S,
    target: R::Span,
    to: u32,
    source: R::Span,
    from: u32,
    count: u32,
)
    requires some { 0 < count }
    requires short { count ≤ 256 }
    requires follows { to ≡ from + 1 }
    requires inside { to + count ≤ length (S.memory storage.old).bytes }
    requires target { R.Covers storage.old to count target }
    requires source { R.Covers storage.old from 1 source }
    ensures stored { S.memory storage.new
        ≡ with_stored (S.memory storage.old) to
        (made_of Combine.Move (S.memory storage.old).bytes to from count) }
    ensures rest { S.Keeps storage.old storage.new }
{
    let byte = byte_at::<S, R>(storage, source, from);
    let mut buffer = [0u8; 256];
    let bytes = &mut buffer[..count as usize];
    set_all(bytes, byte);
    R::store(storage, target, to, bytes);
}

/// Copies a range of storage as if byte by byte from left to right, through a buffer of its length.
#[inline(always)]
fn move_through<S: Storage, R: Reach<S>>(
    storage: &mut S,
    target: R::Span,
    to: u32,
    source: R::Span,
    from: u32,
    bytes: &mut [u8],
)
    requires some { 0 < length bytes.old }
    requires short { length bytes.old ≤ 256 }
    requires inside { to + length bytes.old ≤ length (S.memory storage.old).bytes }
    requires target { R.Covers storage.old to (length bytes.old) target }
    requires source { R.Covers storage.old from (length bytes.old) source }
    ensures stored { S.memory storage.new
        ≡ with_stored (S.memory storage.old) to
        (made_of Combine.Move (S.memory storage.old).bytes to from (length bytes.old)) }
    ensures rest { S.Keeps storage.old storage.new }
{
    R::load(storage, source, from, bytes);
    let lag = lag_of(to, from, bytes.len() as u32);
    repeat(bytes, lag as usize);
    R::store(storage, target, to, bytes);
}

/// Copies at most 256 bytes of storage, which may overlap, as if byte by byte from left to right.
#[inline(never)]
fn move_near<S: Storage, R: Reach<S>>(
    storage: &mut S,
    target: R::Span,
    to: u32,
    source: R::Span,
    from: u32,
    count: u32,
)
    requires some { 0 < count }
    requires short { count ≤ 256 }
    requires inside { to + count ≤ length (S.memory storage.old).bytes }
    requires target { R.Covers storage.old to count target }
    requires source { R.Covers storage.old from count source }
    ensures stored { S.memory storage.new
        ≡ with_stored (S.memory storage.old) to
        (made_of Combine.Move (S.memory storage.old).bytes to from count) }
    ensures rest { S.Keeps storage.old storage.new }
{
    let mut bytes = [0u8; 256];
    move_through::<S, R>(
        storage,
        target,
        to,
        source,
        from,
        &mut bytes[..count as usize],
    );
}

/// Copies a range of storage as if byte by byte from left to right, by one copy if that gives the
/// same, or by one byte that fills the range.
#[inline(always)]
fn move_string<S: Storage, R: Reach<S>>(
    storage: &mut S,
    target: R::Span,
    to: u32,
    source: R::Span,
    from: u32,
    count: u32,
)
    requires some { 0 < count }
    requires short { count ≤ 256 }
    requires inside { to + count ≤ length (S.memory storage.old).bytes }
    requires source_inside { from + count ≤ length (S.memory storage.old).bytes }
    requires target { R.Covers storage.old to count target }
    requires source { R.Covers storage.old from count source }
    ensures stored { S.memory storage.new
        ≡ with_stored (S.memory storage.old) to
        (made_of Combine.Move (S.memory storage.old).bytes to from count) }
    ensures rest { S.Keeps storage.old storage.new }
{
    if lag_of(to, from, count) >= count {
        R::copy(storage, source, from, target, to, count);
    } else if to - from == 1 {
        fill::<S, R>(storage, target, to, source, from, count);
    } else {
        move_near::<S, R>(storage, target, to, source, from, count);
    }
}

/// Does MVC (D2): copies the second operand over the first, as if byte by byte from left to right.
///
/// It is [`combine_row`] of [`Combine::Move`], mostly by one copy.
///
/// # Errors
///
/// What `R` says of an operand that is refused. Nothing has changed.
#[inline(always)]
pub fn move_row<S: Storage, R: Reach<S>>(
    cpu: &Cpu,
    storage: &mut S,
    i: Instruction,
    reach: &mut R,
) -> Result<Completion, R::Refused>
    requires ready { R.IsReady storage.old cpu.now.psw.key reach.old }
    ensures row { let before = state_of cpu.now (S.memory storage.old) in
        let after = state_of cpu.now (S.memory storage.new) in
        MeetsBy R.Refused R.Refuses (string_combined Combine.Move before i) (S.present storage.old)
        before result after }
    ensures rest { S.Keeps storage.old storage.new }
    ensures ready { R.IsReady storage.old cpu.now.psw.key reach.new }
{
    let to = cpu.based(i.second_half);
    let from = cpu.based(i.third_half);
    let count = i.second_byte as u32 + 1;
    let (target, source) = reach.both(cpu, storage, Access::Store, to, count, from, count)?;
    move_string::<S, R>(storage, target, to.get(), source, from.get(), count);
    Ok(Completion::Done)
}
