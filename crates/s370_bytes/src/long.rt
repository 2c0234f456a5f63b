//! The long move and the long comparison, a part of at most 256 bytes at a time.
ghost use Rattle.std.specs.Prelude.{◌≡◌, ℕ, ◌+◌, ◌*◌, ◌%◌, ◌^◌, ◌<◌, ◌≤◌, ◌⊎◌, true, false, length};
ghost use Rattle.std.specs.Prelude.{min, slice_range, replicate};
ghost use Rattle.s370_rows.specs.declared.instruction.Instruction.{Instruction};
ghost use Rattle.s370_store.specs.Access.{IsGranted};
ghost use Rattle.s370_store.specs.Memory.{with_stored};
ghost use Rattle.s370_rows.specs.Formats.{r1_of, r2_of};
ghost use Rattle.s370_rows.specs.State.{state_of};
ghost use Rattle.s370_rows.specs.Rows.{MeetsRow};
ghost use Rattle.s370_bytes.specs.Long.{ArePairs, AreParts, operand_of, with_operand, past};
ghost use Rattle.s370_bytes.specs.Long.{counts_code, destroys, part_moved, long_moved, longest};
ghost use Rattle.s370_bytes.specs.Long.{part_ordered, pairs_ordered, part_compared, long_compared};
ghost use Rattle.s370_bytes.specs.Strings.{padded};

use crate::compare::equal_front;
use s370_num::{Addr24, ConditionCode, Register};
use s370_psw::ProgramCode;
use s370_rows::{Completion, Cpu, Instruction, Refusal, copy_granted, grant_two, order_of};
use s370_store::{Access, Range, Storage};

/// A long operand: its address, its length and the byte above the length.
#[derive(Clone, Copy, Debug, PartialEq, Eq)]
pub struct Operand {
    /// Where it begins.
    pub address: Addr24,
    /// How many bytes it has, in 24 bits.
    pub count: u32,
    /// The byte above the count, which pads the second operand.
    pub pad: u8,
}

impl Operand {
    /// Returns the operand whose address, count and pad byte a register pair holds.
    #[inline(always)]
    fn of(cpu: &Cpu, register: Register) -> Operand
        requires { register < 15 }
        ensures value { result ≡ operand_of cpu.now register }
        ensures count { result.count < 2 ^ 24 }
        ensures registers { length cpu.now.general ≡ 16 }
    {
        let general = &cpu.general;
        let second = general[register.index() + 1];
        Operand {
            address: Addr24::wrapping(general[register.index()]),
            count: second % 0x100_0000,
            pad: (second >> 24) as u8,
        }
    }

    /// Returns the operand that is left after its first `count` bytes.
    #[inline(always)]
    fn past(&self, count: u32) -> Operand
        requires enough { count ≤ self.now.count }
        requires count_below { self.now.count < 2 ^ 24 }
        ensures value { result ≡ past self.now count }
        ensures count { result.count < 2 ^ 24 }
    {
        Operand {
            address: self.address.wrapping_add(count),
            count: self.count - count,
            pad: self.pad,
        }
    }

    /// Sets a register pair's address to this operand's and subtracts `count` from its count; the
    /// byte above that stays.
    #[inline(always)]
    fn advance_pair(self, cpu: &mut Cpu, register: Register, count: u32)
        requires register { register < 15 }
        requires enough { count ≤ (operand_of cpu.old register).count }
        requires left { self ≡ past (operand_of cpu.old register) count }
        ensures { cpu.new ≡ with_operand cpu.old register self }
    {
        cpu.general[register.index()] = self.address.get();
        cpu.general[register.index() + 1] -= count;
    }

    /// Sets a register pair to this operand: to its address, and to its pad byte and count.
    #[inline(always)]
    fn write_pair(self, cpu: &mut Cpu, register: Register)
        requires register { register < 15 }
        requires count_below { self.count < 2 ^ 24 }
        ensures { cpu.new ≡ with_operand cpu.old register self }
    {
        cpu.general[register.index()] = self.address.get();
        cpu.general[register.index() + 1] = self.pad as u32 * 0x100_0000 + self.count;
    }
}

/// Returns the condition code of comparing the counts of two operands.
#[inline(always)]
fn counts_code(first: Operand, second: Operand) -> ConditionCode
    ensures { result ≡ counts_code first second }
{
    order_of(first.count, second.count)
}

/// Returns whether MVCL would read a byte of the second operand after writing over it.
#[inline(always)]
fn destroys(first: Operand, second: Operand) -> bool
    ensures { result ≡ destroys first second }
{
    let distance = (first.address.get() + (0x100_0000 - second.address.get())) % 0x100_0000;
    0 < distance && distance < first.count.min(second.count)
}

/// Sets each byte of `bytes` to `pad`.
#[inline]
pub fn set_all(bytes: &mut [u8], pad: u8)
    ensures { bytes.new ≡ replicate (length bytes.old) pad }
{
    for k in 0..bytes.len() {
        bytes[k] = pad;
    }
}

/// Fills `into` with `count` bytes of storage and, after them, with pad bytes.
#[inline]
fn load_padded<S: Storage>(storage: &S, from: u32, pad: u8, into: &mut [u8], count: u32)
    requires within { count ≤ length into.old }
    requires short { length into.old ≤ 256 }
    requires source { 0 < count
        → IsGranted (length (S.memory storage.now).bytes) (S.present storage.now) from count }
    ensures { into.new ≡ padded (slice_range (S.memory storage.now).bytes from (from + count)) pad
        (length into.old) }
{
    set_all(into, pad);
    if count > 0 {
        storage.load(from, &mut into[..count as usize]);
    }
}

/// Stores `count` bytes from one address at another, and pad bytes after them up to the length of
/// the buffer `made`.
#[inline(always)]
fn move_through<S: Storage>(
    storage: &mut S,
    to: u32,
    from: u32,
    pad: u8,
    made: &mut [u8],
    count: u32,
)
    requires within { count ≤ length made.old }
    requires short { length made.old ≤ 256 }
    requires target { IsGranted (length (S.memory storage.old).bytes) (S.present storage.old) to
        (length made.old) }
    requires source { 0 < count
        → IsGranted (length (S.memory storage.old).bytes) (S.present storage.old) from count }
    ensures stored { S.memory storage.new ≡ with_stored (S.memory storage.old) to
        (padded (slice_range (S.memory storage.old).bytes from (from + count)) pad
        (length made.old)) }
    ensures rest { S.Keeps storage.old storage.new }
{
    load_padded(storage, from, pad, made, count);
    storage.store(to, made);
}

/// Stores `moved` bytes from one address at another, and pad bytes after them up to `count`,
/// through a buffer.
#[inline(never)]
fn move_pads<S: Storage>(storage: &mut S, to: u32, from: u32, pad: u8, count: u32, moved: u32)
    requires within { moved ≤ count }
    requires short { count ≤ 256 }
    requires target { IsGranted (length (S.memory storage.old).bytes) (S.present storage.old) to
        count }
    requires source { 0 < moved
        → IsGranted (length (S.memory storage.old).bytes) (S.present storage.old) from moved }
    ensures stored { S.memory storage.new
        ≡ with_stored (S.memory storage.old) to
        (padded (slice_range (S.memory storage.old).bytes from (from + moved)) pad count) }
    ensures rest { S.Keeps storage.old storage.new }
{
    let mut made = [0u8; 256];
    move_through(storage, to, from, pad, &mut made[..count as usize], moved);
}

/// Stores `moved` bytes from one address at another, and pad bytes after them up to `count`.
#[inline(always)]
fn move_padded<S: Storage>(storage: &mut S, to: u32, from: u32, pad: u8, count: u32, moved: u32)
    requires some { 0 < count }
    requires within { moved ≤ count }
    requires short { count ≤ 256 }
    requires target { IsGranted (length (S.memory storage.old).bytes) (S.present storage.old) to
        count }
    requires source { 0 < moved
        → IsGranted (length (S.memory storage.old).bytes) (S.present storage.old) from moved }
    ensures stored { S.memory storage.new
        ≡ with_stored (S.memory storage.old) to
        (padded (slice_range (S.memory storage.old).bytes from (from + moved)) pad count) }
    ensures rest { S.Keeps storage.old storage.new }
{
    if moved < count {
        move_pads(storage, to, from, pad, count, moved);
    } else {
        storage.copy(from, to, count);
    }
}

/// Does one part of MVCL, of at most 256 bytes: stores it, updates both register pairs and, if it
/// is the last, sets the condition code.
fn move_part<S: Storage>(
    cpu: &mut Cpu,
    storage: &mut S,
    r1: Register,
    r2: Register,
) -> Result<Completion, Refusal>
    requires first { r1 < 15 }
    requires second { r2 < 15 }
    requires some { 0 < (operand_of cpu.old r1).count }
    ensures row { let before = state_of cpu.old (S.memory storage.old) in
        let after = state_of cpu.new (S.memory storage.new) in
        MeetsRow (part_moved before r1 r2) (S.present storage.old) before result after }
    ensures rest { S.Keeps storage.old storage.new }
{
    let first = Operand::of(cpu, r1);
    let second = Operand::of(cpu, r2);
    let count = first.count.min(256);
    let count_2 = second.count.min(count);
    let to = first.address.get();
    let from = second.address.get();
    let target = Range { start: to, count };
    let source = Range {
        start: from,
        count: count_2,
    };
    grant_two(cpu, storage, target, Access::Store, source, Access::Fetch)?;
    move_padded(storage, to, from, second.pad, count, count_2);
    first.past(count).write_pair(cpu, r1);
    second.past(count_2).write_pair(cpu, r2);
    if first.count == count {
        cpu.psw.set_condition(counts_code(first, second));
        Ok(Completion::Done)
    } else {
        Ok(Completion::Again)
    }
}

/// Does one part of MVCL (0E), of at most 256 bytes, and updates both register pairs; the last
/// part, or overlap, sets the condition code, else the result is `Again`.
///
/// # Errors
///
/// A `Refusal`: the program interruption, or an absent page that has to be brought first. Nothing
/// has changed.
pub fn move_long_row<S: Storage>(
    cpu: &mut Cpu,
    storage: &mut S,
    i: Instruction,
) -> Result<Completion, Refusal>
    ensures row { let before = state_of cpu.old (S.memory storage.old) in
        let after = state_of cpu.new (S.memory storage.new) in
        MeetsRow (long_moved before i) (S.present storage.old) before result after }
    ensures rest { S.Keeps storage.old storage.new }
{
    let r1 = i.r1();
    let r2 = i.r2();
    if r1.number() % 2 != 0 {
        return Err(Refusal::Program(ProgramCode::Specification));
    }
    if r2.number() % 2 != 0 {
        return Err(Refusal::Program(ProgramCode::Specification));
    }
    let first = Operand::of(cpu, r1);
    let second = Operand::of(cpu, r2);
    if first.count == 0 {
        cpu.psw.set_condition(counts_code(first, second));
        return Ok(Completion::Done);
    }
    if destroys(first, second) {
        cpu.psw.set_condition(ConditionCode::THREE);
        return Ok(Completion::Done);
    }
    move_part(cpu, storage, r1, r2)
}

/// Returns whether `count` bytes from `to` on include neither of the two bytes from `start` on.
#[inline(always)]
fn excludes(to: u32, count: u32, start: u32) -> bool
    requires to { to < 2 ^ 24 }
    requires count { count ≤ 2048 }
    requires start { start < 2 ^ 24 }
    ensures { result ≡ true → (start + 1 < to) ⊎ (to + count ≤ start) }
{
    start + 1 < to || to + count <= start
}

/// Returns how many whole parts of MVCL, none of them the last, can be one copy, at most `limit`:
/// as many as lie in one block at each place, or one.
#[inline(always)]
fn parts_at_once(first: &Operand, second: &Operand, limit: u32) -> u32
    ensures within { result ≤ limit }
    ensures few { result ≤ 8 }
    ensures more { 0 < result → 256 * result < first.now.count }
    ensures whole { 256 * result ≤ second.now.count }
    ensures block { 1 < result → first.now.address % 2048 + 256 * result ≤ 2048 }
    ensures block_2 { 1 < result → second.now.address % 2048 + 256 * result ≤ 2048 }
{
    if first.count <= 256 {
        return 0;
    }
    let whole = at_most((first.count - 1) / 256, second.count / 256);
    let room = at_most(
        2048 - first.address.get() % 2048,
        2048 - second.address.get() % 2048,
    );
    let parts = at_most(whole, limit);
    if parts <= 1 {
        return parts;
    }
    if room < 512 {
        return 1;
    }
    at_most(parts, room / 256)
}

/// Copies so many parts of MVCL at once, updates both register pairs and returns `parts`; or
/// changes nothing and returns 0.
///
/// It is 0 if the parts include one of the two bytes from `start` on, or are not granted.
#[inline(always)]
fn move_whole_parts<S: Storage>(
    cpu: &mut Cpu,
    storage: &mut S,
    start: Addr24,
    r1: Register,
    r2: Register,
    parts: u32,
) -> u32
    requires first { r1 < 15 }
    requires second { r2 < 15 }
    requires apart { ArePairs r1 r2 }
    requires some { 0 < parts }
    requires few { parts ≤ 8 }
    requires more { 256 * parts < (operand_of cpu.old r1).count }
    requires whole { 256 * parts ≤ (operand_of cpu.old r2).count }
    requires block { 1 < parts → (operand_of cpu.old r1).address % 2048 + 256 * parts ≤ 2048 }
    requires block_2 { 1 < parts → (operand_of cpu.old r2).address % 2048 + 256 * parts ≤ 2048 }
    requires intact { destroys (operand_of cpu.old r1) (operand_of cpu.old r2) ≡ false }
    ensures parts { let before = state_of cpu.old (S.memory storage.old) in
        let after = state_of cpu.new (S.memory storage.new) in
        (i : Instruction) → r1_of i ≡ r1 → r2_of i ≡ r2
        → AreParts result start (S.present storage.old) i before after }
    ensures within { result ≤ parts }
    ensures rest { S.Keeps storage.old storage.new }
{
    let count = 256 * parts;
    let first = Operand::of(cpu, r1);
    let second = Operand::of(cpu, r2);
    let to = first.address.get();
    let from = second.address.get();
    if !excludes(to, count, start.get()) {
        return 0;
    }
    if !copy_granted(cpu, storage, from, to, count) {
        return 0;
    }
    first.past(count).advance_pair(cpu, r1, count);
    second.past(count).advance_pair(cpu, r2, count);
    parts
}

/// Does parts of MVCL (0E) by one copy, at most `limit`, updates both register pairs and returns
/// how many it did; if 0, nothing has changed.
///
/// Each part has 256 bytes and is not the last, and none includes one of the two bytes from `start`
/// on.
///
/// Those that lie in one block are one copy.
#[inline(always)]
pub fn move_long_parts<S: Storage>(
    cpu: &mut Cpu,
    storage: &mut S,
    start: Addr24,
    second_byte: u8,
    limit: u32,
) -> u32
    ensures parts { let i : Instruction = record {
      opcode = 0x0E;
      second_byte = second_byte;
      second_half = 0;
      third_half = 0;
    } in
        let before = state_of cpu.old (S.memory storage.old) in
        let after = state_of cpu.new (S.memory storage.new) in
        AreParts result start (S.present storage.old) i before after }
    ensures within { result ≤ limit }
    ensures rest { S.Keeps storage.old storage.new }
{
    let r1 = Register::new(second_byte >> 4);
    let r2 = Register::new(second_byte & 0xF);
    if r1.number() % 2 != 0 {
        return 0;
    }
    if r2.number() % 2 != 0 {
        return 0;
    }
    if r1.number() == r2.number() {
        return 0;
    }
    let first = Operand::of(cpu, r1);
    let second = Operand::of(cpu, r2);
    let parts = parts_at_once(&first, &second, limit);
    if parts == 0 {
        return 0;
    }
    if destroys(first, second) {
        return 0;
    }
    move_whole_parts(cpu, storage, start, r1, r2, parts)
}

/// Returns the smaller of two numbers.
#[inline(always)]
fn at_most(a: u32, b: u32) -> u32
    ensures value { result ≡ min a b }
    ensures first { result ≤ a }
    ensures second { result ≤ b }
{
    if a < b { a } else { b }
}

/// Returns how many pairs of bytes the next part of CLCL compares: the greater count, but at most
/// 256.
#[inline(always)]
fn longest(first: &Operand, second: &Operand) -> u32
    ensures value { result ≡ longest first.now second.now }
    ensures short { result ≤ 256 }
{
    let longer = if first.count < second.count {
        second.count
    } else {
        first.count
    };
    if longer < 256 { longer } else { 256 }
}

/// Moves both register pairs past the bytes that were found equal and, if CLCL is over, sets the
/// condition code.
#[inline]
fn conclude(
    cpu: &mut Cpu,
    r1: Register,
    r2: Register,
    count_1: u32,
    count_2: u32,
    left: &[u8],
    right: &[u8],
) -> Completion
    requires first { r1 < 15 }
    requires second { r2 < 15 }
    requires short { length left.now ≤ 256 }
    requires right { length right.now ≡ length left.now }
    requires count_1 { count_1 ≤ (operand_of cpu.old r1).count }
    requires count_2 { count_2 ≤ (operand_of cpu.old r2).count }
    ensures { part_ordered cpu.old r1 r2 (length left.now) count_1 count_2 left.now right.now
        ≡ record { ending = result; cpu = cpu.new } }
{
    let first = Operand::of(cpu, r1);
    let second = Operand::of(cpu, r2);
    let front = equal_front(left, right);
    first
        .past(at_most(front as u32, count_1))
        .write_pair(cpu, r1);
    second
        .past(at_most(front as u32, count_2))
        .write_pair(cpu, r2);
    if front < left.len() {
        cpu.psw
            .set_condition(order_of(left[front] as u32, right[front] as u32));
        Completion::Done
    } else if first.count == count_1 && second.count == count_2 {
        cpu.psw.set_condition(ConditionCode::ZERO);
        Completion::Done
    } else {
        Completion::Again
    }
}

/// Compares two padded ranges through two buffers, moves both register pairs on and, if CLCL is
/// over, sets the condition code.
#[inline(always)]
fn compare_at<S: Storage>(
    cpu: &mut Cpu,
    storage: &S,
    r1: Register,
    r2: Register,
    count: u32,
    left: &mut [u8],
    right: &mut [u8],
) -> Completion
    requires first { r1 < 15 }
    requires second { r2 < 15 }
    requires short { count ≤ 256 }
    requires left { length left.old ≡ count }
    requires right { length right.old ≡ count }
    requires source { 0 < min count (operand_of cpu.old r1).count
        → IsGranted (length (S.memory storage.now).bytes) (S.present storage.now)
        (operand_of cpu.old r1).address
        (min count (operand_of cpu.old r1).count) }
    requires source_2 { 0 < min count (operand_of cpu.old r2).count
        → IsGranted (length (S.memory storage.now).bytes) (S.present storage.now)
        (operand_of cpu.old r2).address
        (min count (operand_of cpu.old r2).count) }
    ensures { pairs_ordered (S.memory storage.now).bytes cpu.old r1 r2 count
        ≡ record { ending = result; cpu = cpu.new } }
{
    let first = Operand::of(cpu, r1);
    let second = Operand::of(cpu, r2);
    let count_1 = at_most(count, first.count);
    let count_2 = at_most(count, second.count);
    load_padded(storage, first.address.get(), second.pad, left, count_1);
    load_padded(storage, second.address.get(), second.pad, right, count_2);
    conclude(cpu, r1, r2, count_1, count_2, left, right)
}

/// Does one part of CLCL, of at most 256 pairs of bytes: moves both register pairs on and, if CLCL
/// is over, sets the condition code.
fn compare_part<S: Storage>(
    cpu: &mut Cpu,
    storage: &S,
    r1: Register,
    r2: Register,
) -> Result<Completion, Refusal>
    requires first { r1 < 15 }
    requires second { r2 < 15 }
    ensures { let before = state_of cpu.old (S.memory storage.now) in
        let after = state_of cpu.new (S.memory storage.now) in
        MeetsRow (part_compared before r1 r2) (S.present storage.now) before result after }
{
    let first = Operand::of(cpu, r1);
    let second = Operand::of(cpu, r2);
    let count = longest(&first, &second);
    let left = Range {
        start: first.address.get(),
        count: at_most(count, first.count),
    };
    let right = Range {
        start: second.address.get(),
        count: at_most(count, second.count),
    };
    grant_two(cpu, storage, left, Access::Fetch, right, Access::Fetch)?;
    let mut left = [0u8; 256];
    let mut right = [0u8; 256];
    Ok(compare_at(
        cpu,
        storage,
        r1,
        r2,
        count,
        &mut left[..count as usize],
        &mut right[..count as usize],
    ))
}

/// Does or refuses one part of CLCL (0F), of at most 256 pairs of bytes: moves both register pairs
/// on and, with the last part, sets the condition code; before that the result is `Again`.
///
/// # Errors
///
/// A `Refusal`: the program interruption, or an absent page that has to be brought first. Nothing
/// has changed.
pub fn compare_long_row<S: Storage>(
    cpu: &mut Cpu,
    storage: &S,
    i: Instruction,
) -> Result<Completion, Refusal>
    ensures { let before = state_of cpu.old (S.memory storage.now) in
        let after = state_of cpu.new (S.memory storage.now) in
        MeetsRow (long_compared before i) (S.present storage.now) before result after }
{
    let r1 = i.r1();
    let r2 = i.r2();
    if r1.number() % 2 != 0 {
        return Err(Refusal::Program(ProgramCode::Specification));
    }
    if r2.number() % 2 != 0 {
        return Err(Refusal::Program(ProgramCode::Specification));
    }
    if Operand::of(cpu, r1).count == 0 && Operand::of(cpu, r2).count == 0 {
        cpu.psw.set_condition(ConditionCode::ZERO);
        return Ok(Completion::Done);
    }
    compare_part(cpu, storage, r1, r2)
}
