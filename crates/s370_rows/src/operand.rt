//! How a row comes to its operands.
//!
//! A row is written once, over a [`Reach`]: its address, what it asks leave for, its body and what
//! it stores. [`Tested`] tests each operand and says what refuses it; [`HeldBlock`] looks for it in
//! the blocks that are held, and says nothing where it is not there.
ghost use Rattle.std.specs.Prelude.{◌≡◌, ℕ, ◌+◌, ◌<◌, ◌≤◌, Bool, [], ◌∷◌, Err, IfErr, IfOk, None};
ghost use Rattle.std.specs.Prelude.{length, slice_index, slice_range, true};
ghost use Rattle.std.specs.Int.{to_be_bytes, w32};
ghost use Rattle.s370_store.specs.Access.{test_of};
ghost use Rattle.s370_store.specs.Memory.{with_stored};
ghost use Rattle.s370_store.specs.declared.Access.TheVariants.{Fetch, Store};
ghost use Rattle.s370_rows.specs.State.{State, state_of};
ghost use Rattle.s370_rows.specs.Rows.{MeetsRow, Row, doubleword_at, fault_of, half_at, word_at};

use crate::access::{grant, grant_two};
use crate::cpu::Cpu;
use crate::ending::Refusal;
use crate::held::{HeldBlock, source_block, target_block};
use s370_num::Addr24;
use s370_store::{Access, Block, Range, Storage};

/// A way to the operands of a row.
pub trait Reach<S: Storage> {
    /// What it says where a row is refused.
    type Refused;

    /// Where it has found an operand.
    type Span: Copy;

    /// It may be asked for operands with this protection key.
    ghost IsReady: { S → ℕ → Self → Type 0 };

    /// What it says of a row that is refused at a state, and what that leaves.
    ghost Refuses: { Row → (ℕ → Bool) → State → Self.Refused → State → Type 0 };

    /// So many bytes from an address on may be loaded and stored there.
    ghost Covers: { S → ℕ → ℕ → Self.Span → Type 0 };

    /// Returns where an operand is that may be fetched.
    fn fetched(
        &mut self,
        cpu: &Cpu,
        storage: &S,
        start: Addr24,
        count: u32,
    ) -> Result<Self::Span, Self::Refused>
        requires some { 0 < count }
        requires short { count ≤ 256 }
        requires ready { IsReady storage.now cpu.now.psw.key self.old }
        ensures ready { IsReady storage.now cpu.now.psw.key self.new }
        ensures passes { IfOk result (λ _. fault_of (state_of cpu.now (S.memory storage.now))
            (test_of Fetch start count ∷ []) ≡ None) }
        ensures covers { IfOk result (λ span. Covers storage.now start count span) }
        ensures refused { let m = state_of cpu.now (S.memory storage.now) in
            IfErr result (λ why. (r : Row) → r.refused ≡ None
            → r.tests ≡ (test_of Fetch start count ∷ [])
            → Refuses r (S.present storage.now) m why m) };

    /// Returns where an operand is that may be stored.
    fn stored(
        &mut self,
        cpu: &Cpu,
        storage: &S,
        start: Addr24,
        count: u32,
    ) -> Result<Self::Span, Self::Refused>
        requires some { 0 < count }
        requires short { count ≤ 256 }
        requires ready { IsReady storage.now cpu.now.psw.key self.old }
        ensures ready { IsReady storage.now cpu.now.psw.key self.new }
        ensures passes { IfOk result (λ _. fault_of (state_of cpu.now (S.memory storage.now))
            (test_of Store start count ∷ []) ≡ None) }
        ensures covers { IfOk result (λ span. Covers storage.now start count span) }
        ensures refused { let m = state_of cpu.now (S.memory storage.now) in
            IfErr result (λ why. (r : Row) → r.refused ≡ None
            → r.tests ≡ (test_of Store start count ∷ [])
            → Refuses r (S.present storage.now) m why m) };

    /// Returns where two operands are, of which the second one is fetched.
    fn both(
        &mut self,
        cpu: &Cpu,
        storage: &S,
        access: Access,
        first: Addr24,
        first_count: u32,
        second: Addr24,
        second_count: u32,
    ) -> Result<(Self::Span, Self::Span), Self::Refused>
        requires some { 0 < first_count }
        requires short { first_count ≤ 256 }
        requires second_some { 0 < second_count }
        requires second_short { second_count ≤ 256 }
        requires ready { IsReady storage.now cpu.now.psw.key self.old }
        ensures ready { IsReady storage.now cpu.now.psw.key self.new }
        ensures passes { IfOk result (λ _. fault_of (state_of cpu.now (S.memory storage.now))
            (test_of access first first_count ∷ test_of Fetch second second_count ∷ []) ≡ None) }
        ensures inside { IfOk result
            (λ _. first + first_count ≤ length (S.memory storage.now).bytes) }
        ensures second_inside { IfOk result
            (λ _. second + second_count ≤ length (S.memory storage.now).bytes) }
        ensures first { IfOk result (λ spans. Covers storage.now first first_count spans.0) }
        ensures second { IfOk result (λ spans. Covers storage.now second second_count spans.1) }
        ensures refused { let m = state_of cpu.now (S.memory storage.now) in
            IfErr result (λ why. (r : Row) → r.refused ≡ None
            → r.tests ≡ (test_of access first first_count ∷ test_of Fetch second second_count ∷ [])
            → Refuses r (S.present storage.now) m why m) };

    /// Returns what is said of a row that this refuses.
    fn told(refusal: Refusal) -> Self::Refused
        ensures { (r : Row) → (present : ℕ → Bool) → (m n : State)
            → MeetsRow r present m (Err refusal) n → Refuses r present m result n };

    /// Fills `into` with the bytes from `start` on.
    fn load(storage: &S, span: Self::Span, start: u32, into: &mut [u8])
        requires covers { Covers storage.now start (length into.old) span }
        requires some { 0 < length into.old }
        requires short { length into.old ≤ 256 }
        ensures { into.new
            ≡ slice_range (S.memory storage.now).bytes start (start + length into.old) };

    /// Overwrites storage from `start` on with the bytes of `from`.
    fn store(storage: &mut S, span: Self::Span, start: u32, from: &[u8])
        requires covers { Covers storage.old start (length from.now) span }
        requires some { 0 < length from.now }
        requires short { length from.now ≤ 256 }
        ensures stored { S.memory storage.new
            ≡ with_stored (S.memory storage.old) start from.now }
        ensures rest { S.Keeps storage.old storage.new };

    /// Copies at most 256 bytes from one place to another, as if all were read before any is written.
    fn copy(storage: &mut S, source: Self::Span, from: u32, target: Self::Span, to: u32, count: u32)
        requires source { Covers storage.old from count source }
        requires target { Covers storage.old to count target }
        requires some { 0 < count }
        requires short { count ≤ 256 }
        ensures stored { S.memory storage.new
            ≡ with_stored (S.memory storage.old) to
            (slice_range (S.memory storage.old).bytes from (from + count)) }
        ensures rest { S.Keeps storage.old storage.new };

    /// Returns whether eight bytes from `start` on are certainly there, of which fewer were found.
    fn holds_eight(span: Self::Span, start: u32) -> bool
        ensures { (s : S) → (count : ℕ) → result ≡ true → Covers s start count span
            → Covers s start 8 span };

    /// A part of what it covers is covered.
    ghost part: { (s : S) (start count at n : ℕ) (span : Self.Span) → Covers s start count span
        → start ≤ at → at + n ≤ start + count → Covers s at n span };

    /// What is stored uncovers nothing.
    ghost covers_kept: { (s t : S) (start count : ℕ) (span : Self.Span) → S.Keeps s t
        → Covers s start count span → Covers t start count span };

    /// A row that is refused changes nothing.
    ghost still: { (r : Row) (present : ℕ → Bool) (m : State) (why : Self.Refused) (n : State)
        → Refuses r present m why n → n ≡ m };
}

/// Each operand is tested, and what refuses it is said.
#[derive(Drop)]
pub struct Tested;

impl<S: Storage> Reach<S> for Tested {
    type Refused = Refusal;

    type Span = ();

    ghost use Rattle.std.specs.Prelude.{Err, length, ⊤};
    ghost use Rattle.s370_store.specs.Access.{IsGranted};
    ghost use Rattle.s370_rows.specs.Rows.{MeetsRow};
    ghost use Rattle.s370_rows.specs.Ways.{granted_kept, granted_part, refused_still};

    ghost IsReady = { λ s key reach. ⊤ };

    ghost Refuses = { λ r present old why new. MeetsRow r present old (Err why) new };

    ghost Covers = { λ s start count span. IsGranted (length (S.memory s).bytes) (S.present s) start
        count };

    #[inline(always)]
    fn fetched(
        &mut self,
        cpu: &Cpu,
        storage: &S,
        start: Addr24,
        count: u32,
    ) -> Result<(), Refusal> {
        let start = start.get();
        grant(cpu, storage, Range { start, count }, Access::Fetch)
    }

    #[inline(always)]
    fn stored(&mut self, cpu: &Cpu, storage: &S, start: Addr24, count: u32) -> Result<(), Refusal> {
        let start = start.get();
        grant(cpu, storage, Range { start, count }, Access::Store)
    }

    #[inline(always)]
    fn both(
        &mut self,
        cpu: &Cpu,
        storage: &S,
        access: Access,
        first: Addr24,
        first_count: u32,
        second: Addr24,
        second_count: u32,
    ) -> Result<((), ()), Refusal> {
        let first = Range {
            start: first.get(),
            count: first_count,
        };
        let second = Range {
            start: second.get(),
            count: second_count,
        };
        grant_two(cpu, storage, first, access, second, Access::Fetch)?;
        Ok(((), ()))
    }

    #[inline(always)]
    fn told(refusal: Refusal) -> Refusal {
        refusal
    }

    #[inline(always)]
    fn load(storage: &S, _span: (), start: u32, into: &mut [u8]) {
        storage.load(start, into);
    }

    #[inline(always)]
    fn store(storage: &mut S, _span: (), start: u32, from: &[u8]) {
        storage.store(start, from);
    }

    #[inline(always)]
    fn copy(storage: &mut S, _source: (), from: u32, _target: (), to: u32, count: u32) {
        storage.copy(from, to, count);
    }

    #[inline(always)]
    fn holds_eight(_span: (), _start: u32) -> bool {
        false
    }

    ghost part = { λ s start count at n span h low high. granted_part h low high };

    ghost covers_kept = { λ s t start count span kept h. granted_kept (S.keeps_size s t kept)
        (S.keeps_present s t kept) h };

    ghost still = { λ r present m why n h. refused_still r present m why n h };
}

impl<S: Storage> Reach<S> for HeldBlock {
    type Refused = ();

    type Span = Block;

    ghost use Rattle.std.specs.Prelude.{◌≡◌};
    ghost use Rattle.s370_rows.specs.Reach.{AreHeld, LieIn};
    ghost use Rattle.s370_rows.specs.Ways.{lie_kept, lie_part};

    ghost IsReady = { λ s key reach. AreHeld (S.IsPlaced s) (S.memory s) (S.present s) key reach };

    ghost Refuses = { λ r present old why new. new ≡ old };

    ghost Covers = { λ s start count span. LieIn (S.IsPlaced s) start count span };

    #[inline(always)]
    fn fetched(&mut self, cpu: &Cpu, storage: &S, start: Addr24, count: u32) -> Result<Block, ()> {
        match source_block(cpu, storage, self, start, count) {
            Some(found) => Ok(found),
            None => Err(()),
        }
    }

    #[inline(always)]
    fn stored(&mut self, cpu: &Cpu, storage: &S, start: Addr24, count: u32) -> Result<Block, ()> {
        match target_block(cpu, storage, self, start, count) {
            Some(found) => Ok(found),
            None => Err(()),
        }
    }

    #[inline(always)]
    fn both(
        &mut self,
        cpu: &Cpu,
        storage: &S,
        access: Access,
        first: Addr24,
        first_count: u32,
        second: Addr24,
        second_count: u32,
    ) -> Result<(Block, Block), ()> {
        let one = match access {
            Access::Store => target_block(cpu, storage, self, first, first_count),
            Access::Fetch => source_block(cpu, storage, self, first, first_count),
        };
        let one = match one {
            Some(found) => found,
            None => return Err(()),
        };
        match source_block(cpu, storage, self, second, second_count) {
            Some(other) => Ok((one, other)),
            None => Err(()),
        }
    }

    #[inline(always)]
    fn told(_refusal: Refusal) {}

    #[inline(always)]
    fn load(storage: &S, span: Block, start: u32, into: &mut [u8]) {
        storage.load_in(span, start, into);
    }

    #[inline(always)]
    fn store(storage: &mut S, span: Block, start: u32, from: &[u8]) {
        storage.store_in(span, start, from);
    }

    #[inline(always)]
    fn copy(storage: &mut S, source: Block, from: u32, target: Block, to: u32, count: u32) {
        storage.copy_in(source, from, target, to, count);
    }

    #[inline(always)]
    fn holds_eight(span: Block, start: u32) -> bool {
        start.wrapping_sub(span.first) <= 2040
    }

    ghost part = { λ s start count at n span h low high. lie_part h low high };

    ghost covers_kept = { λ s t start count span kept h.
        lie_kept (S.placed_kept s t span kept) h };

    ghost still = { λ r present m why n h. h };
}

/// Returns the byte at an address.
#[inline(always)]
pub fn byte_at<S: Storage, R: Reach<S>>(storage: &S, span: R::Span, start: u32) -> u8
    requires { R.Covers storage.now start 1 span }
    ensures { result ≡ slice_index (S.memory storage.now).bytes start }
{
    let mut into = [0u8; 1];
    R::load(storage, span, start, &mut into);
    into[0]
}

/// Returns the halfword at an address.
#[inline(always)]
pub fn halfword_at<S: Storage, R: Reach<S>>(storage: &S, span: R::Span, start: u32) -> u16
    requires { R.Covers storage.now start 2 span }
    ensures { result ≡ half_at (S.memory storage.now).bytes start }
{
    let mut into = [0u8; 2];
    R::load(storage, span, start, &mut into);
    u16::from_be_bytes(into)
}

/// Returns the word at an address.
#[inline(always)]
pub fn word_at<S: Storage, R: Reach<S>>(storage: &S, span: R::Span, start: u32) -> u32
    requires { R.Covers storage.now start 4 span }
    ensures { result ≡ word_at (S.memory storage.now).bytes start }
{
    let mut into = [0u8; 4];
    R::load(storage, span, start, &mut into);
    u32::from_be_bytes(into)
}

/// Returns the doubleword at an address.
#[inline(always)]
pub fn doubleword_at<S: Storage, R: Reach<S>>(storage: &S, span: R::Span, start: u32) -> u64
    requires { R.Covers storage.now start 8 span }
    ensures { result ≡ doubleword_at (S.memory storage.now).bytes start }
{
    let mut into = [0u8; 8];
    R::load(storage, span, start, &mut into);
    u64::from_be_bytes(into)
}

/// Stores four bytes from an address on, the highest first.
#[inline(always)]
pub fn store_word_at<S: Storage, R: Reach<S>>(storage: &mut S, span: R::Span, start: u32, word: u32)
    requires { R.Covers storage.old start 4 span }
    ensures stored { S.memory storage.new
        ≡ with_stored (S.memory storage.old) start (to_be_bytes w32 word) }
    ensures rest { S.Keeps storage.old storage.new }
{
    R::store(storage, span, start, &word.to_be_bytes());
}
