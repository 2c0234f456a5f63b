//! Strings of bytes against each other.
ghost use Rattle.std.specs.Prelude.{◌≡◌, ◌≢◌, ℕ, ◌+◌, ◌<◌, ◌≤◌, true, length, slice_index};
ghost use Rattle.std.specs.Prelude.{slice_range, take};
ghost use Rattle.s370_rows.specs.State.{state_of};
ghost use Rattle.s370_rows.specs.Reach.{MeetsBy};
ghost use Rattle.s370_rows.specs.Arithmetic.{order_code};
ghost use Rattle.s370_bytes.specs.Compare.{equal_pairs, string_order, strings_compared};
ghost use Rattle.s370_bytes.specs.Strings.{number};

use s370_num::ConditionCode;
use s370_rows::{Completion, Cpu, Instruction, Reach, order_of};
use s370_store::{Access, Storage};

/// Returns whether eight bytes from index `start` on are equal in both lists.
#[inline(always)]
fn is_equal_group(xs: &[u8], ys: &[u8], start: usize) -> bool
    requires same { length xs.now ≡ length ys.now }
    requires inside { start + 8 ≤ length xs.now }
    ensures { result ≡ true
        → (k : ℕ) → k < 8 → slice_index xs.now (start + k) ≡ slice_index ys.now (start + k) }
{
    xs[start..start + 8] == ys[start..start + 8]
}

/// Returns how many bytes at the front are equal in both lists, counted in whole groups of eight.
#[inline]
fn equal_groups(xs: &[u8], ys: &[u8]) -> usize
    requires { length xs.now ≡ length ys.now }
    ensures within { result ≤ length xs.now }
    ensures equal { (k : ℕ) → k < result → slice_index xs.now k ≡ slice_index ys.now k }
{
    for k in 0..xs.len() / 8 {
        let start = 8 * k;
        if !is_equal_group(xs, ys, start) {
            return start;
        }
    }
    xs.len() / 8 * 8
}

/// Returns how many bytes at the front are equal in both lists.
#[inline]
pub fn equal_front(xs: &[u8], ys: &[u8]) -> usize
    requires { length xs.now ≡ length ys.now }
    ensures value { result ≡ equal_pairs xs.now ys.now }
    ensures within { result ≤ length xs.now }
    ensures equal { (k : ℕ) → k < result → slice_index xs.now k ≡ slice_index ys.now k }
    ensures first { result < length xs.now → slice_index xs.now result ≢ slice_index ys.now result }
{
    for k in equal_groups(xs, ys)..xs.len() {
        if xs[k] != ys[k] {
            return k;
        }
    }
    xs.len()
}

/// Returns the condition code of comparing two strings of one length: 0 if equal, 1 if `xs` is low,
/// 2 if it is high.
#[inline]
pub fn string_order(xs: &[u8], ys: &[u8]) -> ConditionCode
    requires { length xs.now ≡ length ys.now }
    ensures { result ≡ string_order xs.now ys.now }
{
    let front = equal_front(xs, ys);
    if front == xs.len() {
        return ConditionCode::ZERO;
    }
    order_of(xs[front] as u32, ys[front] as u32)
}

/// Returns the condition code of comparing two numbers: 0 if equal, 1 if `a` is low, 2 if it is
/// high.
#[inline(always)]
pub fn number_order(a: u64, b: u64) -> ConditionCode
    ensures { result ≡ order_code a b }
{
    if a == b {
        ConditionCode::ZERO
    } else if a < b {
        ConditionCode::ONE
    } else {
        ConditionCode::TWO
    }
}

/// Returns the first `count` of eight bytes as a number.
#[inline(always)]
pub fn front_number(bytes: [u8; 8], count: u32) -> u64
    requires { count ≤ 8 }
    ensures { result ≡ number (take count bytes) }
{
    if count == 0 {
        return 0;
    }
    u64::from_be_bytes(bytes) >> (64 - 8 * count)
}

/// Returns at most eight bytes of storage as a number, where eight may be loaded.
#[inline(always)]
fn number_at<S: Storage, R: Reach<S>>(storage: &S, span: R::Span, start: u32, count: u32) -> u64
    requires few { count ≤ 8 }
    requires covers { R.Covers storage.now start 8 span }
    ensures { result ≡ number (slice_range (S.memory storage.now).bytes start (start + count)) }
{
    let mut bytes = [0u8; 8];
    R::load(storage, span, start, &mut bytes);
    front_number(bytes, count)
}

/// Loads two strings into `xs` and `ys`, and returns the condition code of comparing them.
#[inline(always)]
fn order_through<S: Storage, R: Reach<S>>(
    storage: &S,
    left: R::Span,
    first: u32,
    right: R::Span,
    second: u32,
    xs: &mut [u8],
    ys: &mut [u8],
) -> ConditionCode
    requires some { 0 < length xs.old }
    requires short { length xs.old ≤ 256 }
    requires same { length xs.old ≡ length ys.old }
    requires left { R.Covers storage.now first (length xs.old) left }
    requires right { R.Covers storage.now second (length xs.old) right }
    ensures { let bytes = (S.memory storage.now).bytes in result ≡ string_order
        (slice_range bytes first (first + length xs.old))
        (slice_range bytes second (second + length xs.old)) }
{
    R::load(storage, left, first, xs);
    R::load(storage, right, second, ys);
    string_order(xs, ys)
}

/// Returns the condition code of comparing two strings through buffers.
///
/// Short strings go through short buffers, which take less time to make.
#[inline(never)]
fn order_long<S: Storage, R: Reach<S>>(
    storage: &S,
    left: R::Span,
    first: u32,
    right: R::Span,
    second: u32,
    count: u32,
) -> ConditionCode
    requires some { 0 < count }
    requires short { count ≤ 256 }
    requires left { R.Covers storage.now first count left }
    requires right { R.Covers storage.now second count right }
    ensures { let bytes = (S.memory storage.now).bytes in result ≡ string_order
        (slice_range bytes first (first + count))
        (slice_range bytes second (second + count)) }
{
    let count = count as usize;
    if count <= 16 {
        let mut xs = [0u8; 16];
        let mut ys = [0u8; 16];
        let (xs, ys) = (&mut xs[..count], &mut ys[..count]);
        order_through::<S, R>(storage, left, first, right, second, xs, ys)
    } else {
        let mut xs = [0u8; 256];
        let mut ys = [0u8; 256];
        let (xs, ys) = (&mut xs[..count], &mut ys[..count]);
        order_through::<S, R>(storage, left, first, right, second, xs, ys)
    }
}

/// Does CLC (D5): compares two strings of storage and sets the condition code.
///
/// # Errors
///
/// What `R` says of an operand that is refused. Nothing has changed.
#[inline(always)]
pub fn compare_row<S: Storage, R: Reach<S>>(
    cpu: &mut Cpu,
    storage: &S,
    i: Instruction,
    reach: &mut R,
) -> Result<Completion, R::Refused>
    requires ready { R.IsReady storage.now cpu.old.psw.key reach.old }
    ensures row { let before = state_of cpu.old (S.memory storage.now) in
        let after = state_of cpu.new (S.memory storage.now) in
        MeetsBy R.Refused R.Refuses (strings_compared before i) (S.present storage.now)
        before result after }
    ensures ready { R.IsReady storage.now cpu.old.psw.key reach.new }
{
    let first = cpu.based(i.second_half);
    let second = cpu.based(i.third_half);
    let count = i.second_byte as u32 + 1;
    let (left, right) = reach.both(cpu, storage, Access::Fetch, first, count, second, count)?;
    let (first, second) = (first.get(), second.get());
    let order = if count <= 8 && R::holds_eight(left, first) && R::holds_eight(right, second) {
        let x = number_at::<S, R>(storage, left, first, count);
        let y = number_at::<S, R>(storage, right, second, count);
        number_order(x, y)
    } else {
        order_long::<S, R>(storage, left, first, right, second, count)
    };
    cpu.psw.set_condition(order);
    Ok(Completion::Done)
}
