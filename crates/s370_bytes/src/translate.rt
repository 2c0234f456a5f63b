//! Strings that are translated or tested by a table.
ghost use Rattle.std.specs.Prelude.{◌≡◌, ◌≢◌, ℕ, ◌+◌, ◌^◌, ◌<◌, ◌≤◌, true, length};
ghost use Rattle.std.specs.Prelude.{slice_index, slice_range};
ghost use Rattle.s370_store.specs.Memory.{with_stored};
ghost use Rattle.s370_rows.specs.State.{state_of};
ghost use Rattle.s370_rows.specs.Reach.{MeetsBy};
ghost use Rattle.s370_bytes.specs.Translate.{are_disjoint, translation, string_translated, zeros};
ghost use Rattle.s370_bytes.specs.Translate.{scanned, string_scanned};

use s370_num::{Addr24, ConditionCode};
use s370_rows::{Completion, Cpu, Instruction, Reach, byte_at};
use s370_store::{Access, Storage};

/// How many bytes a table has, all of which are tested for access.
const TABLE_SIZE: u32 = 256;

/// Returns whether a string and a table of 256 bytes have no byte in common.
#[inline(always)]
fn are_disjoint(to: u32, count: u32, table: u32) -> bool
    requires to { to < 2 ^ 24 }
    requires short { count ≤ 256 }
    requires table { table < 2 ^ 24 }
    ensures { result ≡ are_disjoint to count table }
{
    to + count <= table || table + 256 <= to
}

/// Replaces each byte of `bytes` by the byte of `table` whose index it is.
#[inline]
fn translate_all(bytes: &mut [u8], table: &[u8])
    requires whole { length table.now ≡ 256 }
    ensures size { length bytes.new ≡ length bytes.old }
    ensures each { (k : ℕ) → k < length bytes.old
        → slice_index bytes.new k ≡ slice_index table.now (slice_index bytes.old k) }
{
    for k in 0..bytes.len() {
        bytes[k] = table[bytes[k] as usize];
    }
}

/// Translates a range of storage by a table that does not overlap it, through buffers of their
/// lengths.
#[inline(always)]
fn translate_through<S: Storage, R: Reach<S>>(
    storage: &mut S,
    target: R::Span,
    to: u32,
    source: R::Span,
    from: u32,
    bytes: &mut [u8],
    table: &mut [u8],
)
    requires some { 0 < length bytes.old }
    requires short { length bytes.old ≤ 256 }
    requires whole { length table.old ≡ 256 }
    requires apart { are_disjoint to (length bytes.old) from ≡ true }
    requires inside { to + length bytes.old ≤ length (S.memory storage.old).bytes }
    requires target { R.Covers storage.old to (length bytes.old) target }
    requires table { R.Covers storage.old from 256 source }
    ensures stored { S.memory storage.new
        ≡ with_stored (S.memory storage.old) to
        (translation (S.memory storage.old).bytes to from (length bytes.old)) }
    ensures rest { S.Keeps storage.old storage.new }
{
    R::load(storage, target, to, bytes);
    R::load(storage, source, from, table);
    translate_all(bytes, table);
    R::store(storage, target, to, bytes);
}

/// Translates at most 256 bytes by a table that does not overlap them, through buffers.
///
/// A short string goes through a short buffer, which takes less time to make.
#[inline(never)]
fn translate_long<S: Storage, R: Reach<S>>(
    storage: &mut S,
    target: R::Span,
    to: u32,
    source: R::Span,
    from: u32,
    count: u32,
)
    requires some { 0 < count }
    requires short { count ≤ 256 }
    requires apart { are_disjoint to count from ≡ true }
    requires inside { to + count ≤ length (S.memory storage.old).bytes }
    requires target { R.Covers storage.old to count target }
    requires table { R.Covers storage.old from 256 source }
    ensures stored { S.memory storage.new
        ≡ with_stored (S.memory storage.old) to
        (translation (S.memory storage.old).bytes to from count) }
    ensures rest { S.Keeps storage.old storage.new }
{
    let mut table = [0u8; 256];
    if count <= 16 {
        let mut bytes = [0u8; 16];
        let bytes = &mut bytes[..count as usize];
        translate_through::<S, R>(storage, target, to, source, from, bytes, &mut table);
    } else {
        let mut bytes = [0u8; 256];
        let bytes = &mut bytes[..count as usize];
        translate_through::<S, R>(storage, target, to, source, from, bytes, &mut table);
    }
}

/// Replaces the first `count` of eight bytes by bytes of a table in storage.
#[inline(always)]
fn translate_front<S: Storage, R: Reach<S>>(
    storage: &S,
    source: R::Span,
    from: u32,
    bytes: &mut [u8; 8],
    count: usize,
)
    requires few { count ≤ 8 }
    requires low { from < 2 ^ 24 }
    requires table { R.Covers storage.now from 256 source }
    ensures each { (k : ℕ) → k < count
        → slice_index bytes.new k
        ≡ slice_index (S.memory storage.now).bytes (from + slice_index bytes.old k) }
    ensures rest { (k : ℕ) → count ≤ k → slice_index bytes.new k ≡ slice_index bytes.old k }
    ensures names { (k : ℕ) → slice_index bytes.old k < 256 }
{
    for k in 0..count {
        bytes[k] = byte_at::<S, R>(storage, source, from + bytes[k] as u32);
    }
}

/// Translates at most eight bytes by a table that does not overlap them; eight bytes from `to` on
/// may be loaded and stored.
///
/// Eight bytes are loaded and stored, and those past `count` stay as they are.
#[inline(always)]
fn translate_short<S: Storage, R: Reach<S>>(
    storage: &mut S,
    target: R::Span,
    to: u32,
    source: R::Span,
    from: u32,
    count: u32,
)
    requires low { from < 2 ^ 24 }
    requires few { count ≤ 8 }
    requires apart { are_disjoint to count from ≡ true }
    requires inside { to + count ≤ length (S.memory storage.old).bytes }
    requires target { R.Covers storage.old to 8 target }
    requires table { R.Covers storage.old from 256 source }
    ensures stored { S.memory storage.new
        ≡ with_stored (S.memory storage.old) to
        (translation (S.memory storage.old).bytes to from count) }
    ensures rest { S.Keeps storage.old storage.new }
{
    let mut bytes = [0u8; 8];
    R::load(storage, target, to, &mut bytes);
    translate_front::<S, R>(storage, source, from, &mut bytes, count as usize);
    R::store(storage, target, to, &bytes);
}

/// Translates a range of storage in place, byte by byte, by a table that may overlap it.
#[inline(never)]
fn translate_each<S: Storage, R: Reach<S>>(
    storage: &mut S,
    target: R::Span,
    to: u32,
    source: R::Span,
    from: u32,
    count: u32,
)
    requires to_low { to < 2 ^ 24 }
    requires from_low { from < 2 ^ 24 }
    requires short { count ≤ 256 }
    requires inside { to + count ≤ length (S.memory storage.old).bytes }
    requires target { R.Covers storage.old to count target }
    requires table { R.Covers storage.old from 256 source }
    ensures stored { S.memory storage.new
        ≡ with_stored (S.memory storage.old) to
        (translation (S.memory storage.old).bytes to from count) }
    ensures rest { S.Keeps storage.old storage.new }
{
    for k in 0..count {
        let name = byte_at::<S, R>(storage, target, to + k);
        let byte = byte_at::<S, R>(storage, source, from + name as u32);
        R::store(storage, target, to + k, &[byte]);
    }
}

/// Does TR (DC): replaces each byte of the first operand by the table's byte whose index it is,
/// from left to right.
///
/// # Errors
///
/// What `R` says of an operand that is refused. Nothing has changed.
#[inline(always)]
pub fn translate_row<S: Storage, R: Reach<S>>(
    cpu: &Cpu,
    storage: &mut S,
    i: Instruction,
    reach: &mut R,
) -> Result<Completion, R::Refused>
    requires ready { R.IsReady storage.old cpu.now.psw.key reach.old }
    ensures row { let before = state_of cpu.now (S.memory storage.old) in
        let after = state_of cpu.now (S.memory storage.new) in
        MeetsBy R.Refused R.Refuses (string_translated before i) (S.present storage.old)
        before result after }
    ensures rest { S.Keeps storage.old storage.new }
    ensures ready { R.IsReady storage.old cpu.now.psw.key reach.new }
{
    let to = cpu.based(i.second_half);
    let from = cpu.based(i.third_half);
    let count = i.second_byte as u32 + 1;
    let (target, source) = reach.both(cpu, storage, Access::Store, to, count, from, TABLE_SIZE)?;
    let (to, from) = (to.get(), from.get());
    if !are_disjoint(to, count, from) {
        translate_each::<S, R>(storage, target, to, source, from, count);
    } else if count <= 8 && R::holds_eight(target, to) {
        translate_short::<S, R>(storage, target, to, source, from, count);
    } else {
        translate_long::<S, R>(storage, target, to, source, from, count);
    }
    Ok(Completion::Done)
}

/// Returns how many bytes at the front of `names` have a zero in `table`.
#[inline]
fn zeros(table: &[u8], names: &[u8]) -> usize
    requires { length table.now ≡ 256 }
    ensures value { result ≡ zeros table.now names.now }
    ensures within { result ≤ length names.now }
{
    for k in 0..names.len() {
        if table[names[k] as usize] != 0 {
            return k;
        }
    }
    names.len()
}

/// Sets what TRT leaves: the condition code and, if a byte of `names` has a function byte other
/// than zero, registers 1 and 2.
#[inline]
fn scan(cpu: &mut Cpu, first: Addr24, names: &[u8], table: &[u8])
    requires whole { length table.now ≡ 256 }
    requires short { length names.now ≤ 256 }
    ensures { cpu.new ≡ scanned cpu.old first (length names.now) names.now table.now }
{
    let place = zeros(table, names);
    if place == names.len() {
        cpu.psw.set_condition(ConditionCode::ZERO);
        return;
    }
    let address = first.wrapping_add(place as u32).get();
    let byte = table[names[place] as usize];
    cpu.general[1] = cpu.general[1] / 0x100_0000 * 0x100_0000 + address;
    cpu.general[2] = cpu.general[2] / 0x100 * 0x100 + byte as u32;
    cpu.psw.set_condition(if place + 1 == names.len() {
        ConditionCode::TWO
    } else {
        ConditionCode::ONE
    });
}

/// Scans a string by a table through buffers, and sets what TRT leaves.
#[inline(never)]
fn scan_string<S: Storage, R: Reach<S>>(
    cpu: &mut Cpu,
    storage: &S,
    string: R::Span,
    first: Addr24,
    source: R::Span,
    from: u32,
    count: u32,
)
    requires some { 0 < count }
    requires short { count ≤ 256 }
    requires inside { first + count ≤ length (S.memory storage.now).bytes }
    requires whole { from + 256 ≤ length (S.memory storage.now).bytes }
    requires string { R.Covers storage.now first count string }
    requires table { R.Covers storage.now from 256 source }
    ensures { let bytes = (S.memory storage.now).bytes in
        cpu.new
        ≡ scanned cpu.old first count (slice_range bytes first (first + count))
        (slice_range bytes from (from + 256)) }
{
    let mut buffer = [0u8; 256];
    let mut table = [0u8; 256];
    let names = &mut buffer[..count as usize];
    R::load(storage, string, first.get(), names);
    R::load(storage, source, from, &mut table);
    scan(cpu, first, names, &table);
}

/// Does TRT (DD): sets registers 1 and 2 from the first byte whose table byte is not zero, if there
/// is one, and sets the condition code.
///
/// # Errors
///
/// What `R` says of an operand that is refused. Nothing has changed.
#[inline(always)]
pub fn translate_test_row<S: Storage, R: Reach<S>>(
    cpu: &mut Cpu,
    storage: &S,
    i: Instruction,
    reach: &mut R,
) -> Result<Completion, R::Refused>
    requires ready { R.IsReady storage.now cpu.old.psw.key reach.old }
    ensures row { let before = state_of cpu.old (S.memory storage.now) in
        let after = state_of cpu.new (S.memory storage.now) in
        MeetsBy R.Refused R.Refuses (string_scanned before i) (S.present storage.now)
        before result after }
    ensures ready { R.IsReady storage.now cpu.old.psw.key reach.new }
{
    let first = cpu.based(i.second_half);
    let from = cpu.based(i.third_half);
    let count = i.second_byte as u32 + 1;
    let (string, source) = reach.both(cpu, storage, Access::Fetch, first, count, from, TABLE_SIZE)?;
    scan_string::<S, R>(cpu, storage, string, first, source, from.get(), count);
    Ok(Completion::Done)
}
