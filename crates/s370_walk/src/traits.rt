//! Devices, and the forms in which channel programs are written.
ghost use Rattle.std.specs.Prelude.{◌≡◌, ℕ, ◌<◌, ◌≤◌, ◌+◌, ◌-◌, ◌*◌, Bool, true, false, length};
ghost use Rattle.std.specs.Prelude.{List, if◌then◌else◌, IfOk, OnOk, OnErr};
ghost use Rattle.s370_walk.specs.Hardware.{Machine, FetchTells, given, after_giving, after_taking};
ghost use Rattle.s370_walk.specs.Walk.{Written};

use crate::bits::UnitStatus;
use crate::parts::{Answer, Ccw, Order, Position};
use s370_store::{Page, Storage};
use std::alloc::AllocError;

/// A device, which answers a command, then gives or takes bytes, and then finishes.
///
/// Whoever writes one says what it is by total functions on its state
/// ([`Machine`](../specs/Hardware.antt)), and shows that its code is those functions: there is no
/// other law.
pub trait Device {
    ghost use Rattle.s370_walk.specs.declared.parts.Order.{Order};

    /// The device as total functions on its state.
    ghost machine: { Machine Self };

    /// Whether a command needs memory: it keeps a record. No other is ever refused any.
    ghost needs_memory: { Self → Order → Bool };

    /// Begins a command and returns how many bytes it moves and in which direction, or refuses it
    /// and returns the unit status.
    ///
    /// A command that keeps a record takes the memory for it here, so that its bytes and its end
    /// need none. Where memory is refused nothing has happened.
    ///
    /// # Errors
    ///
    /// `AllocError` if memory is refused; nothing has changed.
    fn command(&mut self, order: Order) -> Result<Answer, AllocError>
        ensures answer { IfOk result (λ answer. answer ≡ machine.answer self.old order) }
        ensures after { OnOk result (self.new ≡ machine.started self.old order) }
        ensures memory { OnErr result (self.new ≡ self.old) }
        ensures needed { OnErr result (needs_memory self.old order ≡ true) };

    /// Returns whether the device moves no more bytes for this command, though fewer have moved
    /// than it announced.
    fn is_done(&self) -> bool
        ensures { result ≡ machine.done self.now };

    /// Returns the device's next byte and moves on past it.
    fn give(&mut self) -> u8
        ensures byte { result ≡ machine.gives self.old }
        ensures after { self.new ≡ machine.gave self.old };

    /// Passes a byte to the device, which keeps it as the next one of its command.
    fn take(&mut self, byte: u8)
        ensures { self.new ≡ machine.took self.old byte };

    /// Ends the command that the device began and did not refuse, and returns its unit status.
    fn finish(&mut self) -> UnitStatus
        ensures status { result ≡ machine.status self.old }
        ensures after { self.new ≡ machine.finished self.old };

    /// Returns a number of bytes that the device is sure to give or take before it is done: 1,
    /// unless a device returns more.
    ///
    /// The body given here returns 1, so that one byte at a time is moved.
    fn ready(&self) -> u32
        requires { machine.done self.now ≡ false }
        ensures giving { (n : ℕ) → n < result
            → machine.done (after_giving machine self.now n) ≡ false }
        ensures taking { (bytes : List ℕ) → length bytes < result
            → machine.done (after_taking machine self.now bytes) ≡ false }
    {
        1
    }

    /// Fills `into` with the device's next bytes, those that `give` would return one by one.
    fn give_bytes(&mut self, into: &mut [u8])
        ensures bytes { into.new ≡ given machine self.old (length into.old) }
        ensures after { self.new ≡ after_giving machine self.old (length into.old) }
    {
        'bytes: for slot in into.iter_mut() {
            *slot = self.give();
        }
    }

    /// Passes all of `from` to the device, as `take` would one byte at a time.
    fn take_bytes(&mut self, from: &[u8])
        ensures { self.new ≡ after_taking machine self.old from.now }
    {
        'bytes: for byte in from {
            self.take(*byte);
        }
    }
}

/// How the words of a program are written.
pub trait WordForm {
    /// The form as functions on storage.
    ghost written: { Self → Written };

    /// Returns the channel command word at an address, or `None` if no such word can lie there.
    ///
    /// # Errors
    ///
    /// A page that is needed and absent.
    fn fetch<S: Storage>(&self, storage: &S, at: u32) -> Result<Option<Ccw>, Page>
        ensures { FetchTells (length (S.memory storage.now).bytes) (S.present storage.now)
            ((written self.now).word_asks at)
            ((written self.now).text (S.memory storage.now) at) result };

    /// Returns the address at which block `number` of a word's data area begins, or `None` if it
    /// has none.
    ///
    /// Block 0 is where the area begins; each other block has 2048 bytes.
    ///
    /// # Errors
    ///
    /// A page that is needed and absent.
    fn block<S: Storage>(
        &self,
        storage: &S,
        position: &Position,
        number: u32,
    ) -> Result<Option<u32>, Page>
        requires { number ≤ 32 }
        ensures { FetchTells (length (S.memory storage.now).bytes) (S.present storage.now)
            ((written self.now).block_asks position.now number)
            ((written self.now).block
            (S.memory storage.now) position.now number) result };
}
