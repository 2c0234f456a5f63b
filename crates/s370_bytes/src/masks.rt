//! Characters of a register that a mask chooses.
ghost use Rattle.std.specs.Prelude.{◌≡◌, ℕ, ◌+◌, ◌<◌, ◌≤◌, length, slice_range, take};
ghost use Rattle.s370_store.specs.Memory.{with_stored};
ghost use Rattle.s370_rows.specs.State.{state_of};
ghost use Rattle.s370_rows.specs.Reach.{MeetsBy};
ghost use Rattle.s370_bytes.specs.Strings.{number};
ghost use Rattle.s370_bytes.specs.Masks.{is_chosen, chosen_count, chosen, inserted, bytes_of};
ghost use Rattle.s370_bytes.specs.Masks.{tested_count, inserted_code, with_inserted};
ghost use Rattle.s370_bytes.specs.Masks.{characters_inserted, characters_stored};
ghost use Rattle.s370_bytes.specs.Masks.{characters_compared};

use crate::compare::{front_number, number_order};
use s370_num::{ConditionCode, Register};
use s370_rows::{Completion, Cpu, Instruction, Reach};
use s370_store::Storage;

/// Returns whether a four-bit mask selects byte `place` of a register, of which the leftmost is 0.
#[inline(always)]
fn is_chosen(mask: u8, place: u32) -> bool
    requires { place < 4 }
    ensures { result ≡ is_chosen mask place }
{
    mask >> (3 - place) & 1 == 1
}

/// Returns how many bytes of a register a four-bit mask selects.
#[inline(always)]
fn chosen_count(mask: u8) -> u32
    ensures value { result ≡ chosen_count mask }
    ensures few { result ≤ 4 }
{
    // four bits for each mask, the lowest for mask 0
    let counts = 0x4332_3221_3221_2110u64;
    ((counts >> (4 * (mask % 16))) % 16) as u32
}

/// Returns how many bytes are tested for access: as many as a mask selects, but at least one.
#[inline(always)]
fn tested_count(count: u32) -> u32
    ensures { result ≡ tested_count count }
{
    if count == 0 { 1 } else { count }
}

/// Copies the bytes that a mask selects to the front of `into`, in order.
#[tactic(auto, unfolding(crate::specs::Masks::chosen_count, crate::specs::Masks::chosen))]
fn gather(mask: u8, bytes: &[u8; 4], into: &mut [u8; 4])
    ensures { take (chosen_count mask) into.new ≡ chosen mask bytes.now }
{
    let mut place = 0;
    for k in 0..4u32 {
        if is_chosen(mask, k) {
            into[place] = bytes[k as usize];
            place += 1;
        }
    }
}

/// Overwrites the bytes that a mask selects with the first ones of `from`, in order.
#[inline(always)]
#[tactic(auto, unfolding(crate::specs::Masks::chosen_count))]
fn insert(mask: u8, bytes: &mut [u8; 4], from: &[u8])
    requires { chosen_count mask ≤ length from.now }
    ensures { bytes.new ≡ inserted mask bytes.old from.now }
{
    let mut place = 0;
    for k in 0..4u32 {
        if is_chosen(mask, k) {
            bytes[k as usize] = from[place];
            place += 1;
        }
    }
}

/// Returns ICM's condition code of inserting the first `count` of eight bytes: 0 if they are all
/// zero, 1 if the first bit is one, else 2.
#[inline(always)]
fn front_code(bytes: [u8; 8], count: u32) -> ConditionCode
    requires { count ≤ 8 }
    ensures { result ≡ inserted_code (take count bytes) }
{
    if front_number(bytes, count) == 0 {
        return ConditionCode::ZERO;
    }
    if bytes[0] >= 128 {
        ConditionCode::ONE
    } else {
        ConditionCode::TWO
    }
}

/// Returns eight bytes, of which the first `count` are those of storage from `start` on.
#[inline(always)]
fn front_at<S: Storage, R: Reach<S>>(storage: &S, span: R::Span, start: u32, count: u32) -> [u8; 8]
    requires few { count ≤ 8 }
    requires covers { R.Covers storage.now start (tested_count count) span }
    ensures { take count result
        ≡ slice_range (S.memory storage.now).bytes start (start + count) }
{
    let mut bytes = [0u8; 8];
    if R::holds_eight(span, start) {
        R::load(storage, span, start, &mut bytes);
    } else if count > 0 {
        R::load(storage, span, start, &mut bytes[..count as usize]);
    }
    bytes
}

/// Overwrites the bytes of a register that a mask selects with the first ones of `from`, and sets
/// ICM's condition code.
#[inline(always)]
fn insert_front(cpu: &mut Cpu, register: Register, mask: u8, from: [u8; 8])
    ensures { cpu.new ≡ with_inserted cpu.old register mask (take (chosen_count mask) from) }
{
    let mut bytes = cpu.general[register.index()].to_be_bytes();
    insert(mask, &mut bytes, &from);
    cpu.general[register.index()] = u32::from_be_bytes(bytes);
    cpu.psw.set_condition(front_code(from, chosen_count(mask)));
}

/// Does ICM (BF): loads bytes of storage into the bytes of a register that the mask selects, and
/// sets the condition code.
///
/// # Errors
///
/// What `R` says of an operand that is refused. Nothing has changed.
#[inline(always)]
pub fn insert_characters_row<S: Storage, R: Reach<S>>(
    cpu: &mut Cpu,
    storage: &S,
    i: Instruction,
    reach: &mut R,
) -> Result<Completion, R::Refused>
    requires ready { R.IsReady storage.now cpu.old.psw.key reach.old }
    ensures row { let before = state_of cpu.old (S.memory storage.now) in
        let after = state_of cpu.new (S.memory storage.now) in
        MeetsBy R.Refused R.Refuses (characters_inserted before i) (S.present storage.now)
        before result after }
    ensures ready { R.IsReady storage.now cpu.old.psw.key reach.new }
{
    let start = cpu.based(i.second_half);
    let mask = i.r2().number();
    let count = chosen_count(mask);
    let span = reach.fetched(cpu, storage, start, tested_count(count))?;
    let from = front_at::<S, R>(storage, span, start.get(), count);
    insert_front(cpu, i.r1(), mask, from);
    Ok(Completion::Done)
}

/// Stores the first bytes of a list, if any; each number of bytes has a store of its own, which
/// copies a fixed number of them.
#[inline(always)]
fn store_front<S: Storage, R: Reach<S>>(
    storage: &mut S,
    span: R::Span,
    start: u32,
    bytes: &[u8; 4],
    count: u32,
)
    requires few { count ≤ 4 }
    requires covers { R.Covers storage.old start (tested_count count) span }
    ensures stored { S.memory storage.new
        ≡ with_stored (S.memory storage.old) start (take count bytes.now) }
    ensures rest { S.Keeps storage.old storage.new }
{
    match count {
        0 => {}
        1 => R::store(storage, span, start, &bytes[..1]),
        2 => R::store(storage, span, start, &bytes[..2]),
        3 => R::store(storage, span, start, &bytes[..3]),
        _ => R::store(storage, span, start, &bytes[..4]),
    }
}

/// Does STCM (BE): stores the bytes of a register that the mask selects, one after another.
///
/// # Errors
///
/// What `R` says of an operand that is refused. Nothing has changed.
#[inline(always)]
pub fn store_characters_row<S: Storage, R: Reach<S>>(
    cpu: &Cpu,
    storage: &mut S,
    i: Instruction,
    reach: &mut R,
) -> Result<Completion, R::Refused>
    requires ready { R.IsReady storage.old cpu.now.psw.key reach.old }
    ensures row { let before = state_of cpu.now (S.memory storage.old) in
        let after = state_of cpu.now (S.memory storage.new) in
        MeetsBy R.Refused R.Refuses (characters_stored before i) (S.present storage.old)
        before result after }
    ensures rest { S.Keeps storage.old storage.new }
    ensures ready { R.IsReady storage.old cpu.now.psw.key reach.new }
{
    let start = cpu.based(i.second_half);
    let mask = i.r2().number();
    let count = chosen_count(mask);
    let span = reach.stored(cpu, storage, start, tested_count(count))?;
    let mut made = [0u8; 4];
    gather(mask, &cpu.general[i.r1().index()].to_be_bytes(), &mut made);
    store_front::<S, R>(storage, span, start.get(), &made, count);
    Ok(Completion::Done)
}

/// Returns the bytes of a register that a mask selects as a number.
#[inline(always)]
fn chosen_number(cpu: &Cpu, register: Register, mask: u8) -> u64
    ensures { result ≡ number (chosen mask (bytes_of cpu.now register)) }
{
    let mut left = [0u8; 4];
    gather(
        mask,
        &cpu.general[register.index()].to_be_bytes(),
        &mut left,
    );
    let [a, b, c, d] = left;
    front_number([a, b, c, d, 0, 0, 0, 0], chosen_count(mask))
}

/// Does CLM (BD): compares the bytes of a register that the mask selects with storage, and sets the
/// condition code.
///
/// # Errors
///
/// What `R` says of an operand that is refused. Nothing has changed.
#[inline(always)]
pub fn compare_characters_row<S: Storage, R: Reach<S>>(
    cpu: &mut Cpu,
    storage: &S,
    i: Instruction,
    reach: &mut R,
) -> Result<Completion, R::Refused>
    requires ready { R.IsReady storage.now cpu.old.psw.key reach.old }
    ensures row { let before = state_of cpu.old (S.memory storage.now) in
        let after = state_of cpu.new (S.memory storage.now) in
        MeetsBy R.Refused R.Refuses (characters_compared before i) (S.present storage.now)
        before result after }
    ensures ready { R.IsReady storage.now cpu.old.psw.key reach.new }
{
    let start = cpu.based(i.second_half);
    let mask = i.r2().number();
    let count = chosen_count(mask);
    let span = reach.fetched(cpu, storage, start, tested_count(count))?;
    let from = front_at::<S, R>(storage, span, start.get(), count);
    let left = chosen_number(cpu, i.r1(), mask);
    cpu.psw
        .set_condition(number_order(left, front_number(from, count)));
    Ok(Completion::Done)
}
