//! Several registers, loaded from or stored into the words of a storage.
ghost use Rattle.std.specs.Prelude.{◌≡◌, ℕ, ◌+◌, ◌*◌, ◌<◌, ◌≤◌};
ghost use Rattle.s370_store.specs.Memory.{with_stored};
ghost use Rattle.s370_rows.specs.Formats.{r1_of, r2_of};
ghost use Rattle.s370_rows.specs.State.{state_of};
ghost use Rattle.s370_rows.specs.Reach.{MeetsBy};
ghost use Rattle.s370_bytes.specs.Multiple.{loaded_from, multiple_loaded, multiple_stored};
ghost use Rattle.s370_bytes.specs.Multiple.{register_count, words_from};

use s370_num::{Addr24, Register};
use s370_rows::{Completion, Cpu, Instruction, Reach, store_word_at, word_at};
use s370_store::{Range, Storage};

/// Returns how many registers there are from `first` to `last`, where 0 follows 15.
#[inline(always)]
fn count_of(first: Register, last: Register) -> u32
    ensures value { result ≡ register_count first last }
    ensures few { result ≤ 16 }
    ensures some { 0 < result }
{
    (last.number() as u32 + 16 - first.number() as u32) % 16 + 1
}

/// Writes four registers to `words`, four bytes each; `first` is the number of the first one, where
/// 0 follows 15.
#[inline(always)]
fn fill_four(words: &mut [u8; 16], registers: &[u32; 16], first: usize)
    requires { first < 32 }
    ensures { words.new ≡ words_from registers.now first 4 }
{
    for k in 0..4u32 {
        let word = registers[(first + k as usize) % 16].to_be_bytes();
        let start = 4 * k as usize;
        words[start..start + 4].copy_from_slice(&word);
    }
}

/// Returns the range of storage that LM or STM accesses: one word for each of registers R1 to R3.
#[inline(always)]
pub fn words_range(address: Addr24, i: Instruction) -> Range
    ensures start { result.start ≡ address }
    ensures count { result.count ≡ 4 * register_count (r1_of i) (r2_of i) }
    ensures few { result.count ≤ 64 }
    ensures some { 0 < result.count }
{
    Range {
        start: address.get(),
        count: 4 * count_of(i.r1(), i.r2()),
    }
}

/// Stores groups of four registers in the words from an address on; `first` is the number of the
/// first register, and 0 follows 15.
#[inline(always)]
fn store_groups<S: Storage, R: Reach<S>>(
    registers: &[u32; 16],
    storage: &mut S,
    span: R::Span,
    address: Addr24,
    first: usize,
    groups: u32,
)
    requires register { first < 16 }
    requires few { groups ≤ 4 }
    requires covers { R.Covers storage.old address (16 * groups) span }
    ensures stored { S.memory storage.new
        ≡ with_stored (S.memory storage.old) address
        (words_from registers.now first (4 * groups)) }
    ensures rest { S.Keeps storage.old storage.new }
{
    let start = address.get();
    for k in 0..groups {
        let mut words = [0u8; 16];
        fill_four(&mut words, registers, first + 4 * k as usize);
        R::store(storage, span, start + 16 * k, &words);
    }
}

/// Stores R1 to R3 of `registers` in the words from an address on; 0 follows 15.
#[inline(always)]
pub fn store_registers<S: Storage, R: Reach<S>>(
    registers: &[u32; 16],
    storage: &mut S,
    span: R::Span,
    address: Addr24,
    i: Instruction,
)
    requires covers { R.Covers storage.old address (4 * register_count (r1_of i) (r2_of i)) span }
    ensures stored { S.memory storage.new
        ≡ with_stored (S.memory storage.old) address
        (words_from registers.now (r1_of i) (register_count (r1_of i) (r2_of i))) }
    ensures rest { S.Keeps storage.old storage.new }
{
    let start = address.get();
    let first = i.r1().index();
    let count = count_of(i.r1(), i.r2());
    store_groups::<S, R>(registers, storage, span, address, first, count / 4);
    for k in count / 4 * 4..count {
        let word = registers[(first + k as usize) % 16];
        store_word_at::<S, R>(storage, span, start + 4 * k, word);
    }
}

/// Sets four registers to the words in `words`; `first` is the number of the first one, where 0
/// follows 15.
#[inline(always)]
fn take_four(registers: &mut [u32; 16], words: &[u8; 16], first: usize)
    requires { first < 32 }
    ensures { registers.new ≡ loaded_from words.now registers.old 0 first 4 }
{
    for k in 0..4u32 {
        let start = 4 * k as usize;
        let mut word = [0u8; 4];
        word.copy_from_slice(&words[start..start + 4]);
        registers[(first + k as usize) % 16] = u32::from_be_bytes(word);
    }
}

/// Loads groups of four registers from the words from an address on; `first` is the number of the
/// first register, and 0 follows 15.
#[inline(always)]
fn load_groups<S: Storage, R: Reach<S>>(
    registers: &mut [u32; 16],
    storage: &S,
    span: R::Span,
    address: Addr24,
    first: usize,
    groups: u32,
)
    requires register { first < 16 }
    requires few { groups ≤ 4 }
    requires covers { R.Covers storage.now address (16 * groups) span }
    ensures { registers.new ≡ loaded_from (S.memory storage.now).bytes registers.old address first
        (4 * groups) }
{
    let start = address.get();
    for k in 0..groups {
        let mut words = [0u8; 16];
        R::load(storage, span, start + 16 * k, &mut words);
        take_four(registers, &words, first + 4 * k as usize);
    }
}

/// Loads R1 to R3 of `registers` from the words from an address on; 0 follows 15.
#[inline(always)]
pub fn load_registers<S: Storage, R: Reach<S>>(
    registers: &mut [u32; 16],
    storage: &S,
    span: R::Span,
    address: Addr24,
    i: Instruction,
)
    requires covers { R.Covers storage.now address (4 * register_count (r1_of i) (r2_of i)) span }
    ensures { registers.new ≡ loaded_from (S.memory storage.now).bytes registers.old address
        (r1_of i)
        (register_count (r1_of i) (r2_of i)) }
{
    let start = address.get();
    let first = i.r1().index();
    let count = count_of(i.r1(), i.r2());
    load_groups::<S, R>(registers, storage, span, address, first, count / 4);
    for k in count / 4 * 4..count {
        registers[(first + k as usize) % 16] = word_at::<S, R>(storage, span, start + 4 * k);
    }
}

/// Does STM (90): stores general registers R1 to R3 in the words from an address on; 0 follows 15.
///
/// # Errors
///
/// What `R` says of an operand that is refused. Nothing has changed.
#[inline(always)]
pub fn store_multiple_row<S: Storage, R: Reach<S>>(
    cpu: &Cpu,
    storage: &mut S,
    i: Instruction,
    reach: &mut R,
) -> Result<Completion, R::Refused>
    requires ready { R.IsReady storage.old cpu.now.psw.key reach.old }
    ensures row { let before = state_of cpu.now (S.memory storage.old) in
        let after = state_of cpu.now (S.memory storage.new) in
        MeetsBy R.Refused R.Refuses (multiple_stored before i) (S.present storage.old) before result
        after }
    ensures rest { S.Keeps storage.old storage.new }
    ensures ready { R.IsReady storage.old cpu.now.psw.key reach.new }
{
    let address = cpu.based(i.second_half);
    let span = reach.stored(cpu, storage, address, words_range(address, i).count)?;
    store_registers::<S, R>(&cpu.general, storage, span, address, i);
    Ok(Completion::Done)
}

/// Does LM (98): loads general registers R1 to R3 from the words from an address on; 0 follows 15.
///
/// # Errors
///
/// What `R` says of an operand that is refused. Nothing has changed.
#[inline(always)]
pub fn load_multiple_row<S: Storage, R: Reach<S>>(
    cpu: &mut Cpu,
    storage: &S,
    i: Instruction,
    reach: &mut R,
) -> Result<Completion, R::Refused>
    requires ready { R.IsReady storage.now cpu.old.psw.key reach.old }
    ensures row { let before = state_of cpu.old (S.memory storage.now) in
        let after = state_of cpu.new (S.memory storage.now) in
        MeetsBy R.Refused R.Refuses (multiple_loaded before i) (S.present storage.now) before result
        after }
    ensures ready { R.IsReady storage.now cpu.old.psw.key reach.new }
{
    let address = cpu.based(i.second_half);
    let span = reach.fetched(cpu, storage, address, words_range(address, i).count)?;
    load_registers::<S, R>(&mut cpu.general, storage, span, address, i);
    Ok(Completion::Done)
}
