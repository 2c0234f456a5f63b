//! Bytes that move in one piece, as they would move one by one.
ghost use Rattle.std.specs.Prelude.{◌≡◌, ◌≢◌, ℕ, ◌+◌, ◌%◌, ◌<◌, ◌≤◌, List, Some, false, length};
ghost use Rattle.std.specs.Prelude.{IfSome, IfNone};
ghost use Rattle.std.specs.List.{slice_range};
ghost use Rattle.s370_store.specs.Access.{IsGranted};
ghost use Rattle.s370_store.specs.Memory.{with_stored};
ghost use Rattle.s370_walk.specs.Hardware.{given, after_giving, after_taking};
ghost use Rattle.s370_walk.specs.Walk.{Moving, Reaches, Written, live, place_in, rest};
ghost use Rattle.s370_walk.specs.declared.parts.Direction.TheVariants.{Gives};
ghost use Rattle.s370_channel.specs.Progress.{setting, onward, HasMoved};

use crate::limits::Limits;
use crate::moving::place;
use s370_store::{Access, Range, Storage};
use s370_walk::{Device, Direction, Flags, Position, Transfer, WordForm};

/// Returns how many bytes from an address on can move at once: at most 256, inside one block,
/// within the count and ready at the device.
fn piece<D: Device>(device: &D, p: &Position, address: u32) -> u32
    requires going { D.machine.done device.now ≡ false }
    ensures short { result ≤ 256 }
    ensures count { result ≤ p.now.count }
    ensures left { result ≤ p.now.transfer.left }
    ensures block { address % 2048 + result ≤ 2048 }
    ensures giving { (n : ℕ) → n < result
        → D.machine.done (after_giving D.machine device.now n) ≡ false }
    ensures taking { (bytes : List ℕ) → length bytes < result
        → D.machine.done (after_taking D.machine device.now bytes) ≡ false }
{
    let counted = least(p.count as u32, p.transfer.left);
    let inside = least(2048 - address % 2048, 256);
    least(least(counted, inside), device.ready())
}

/// Returns the smaller of two numbers.
fn least(one: u32, other: u32) -> u32
    ensures one { result ≤ one }
    ensures other { result ≤ other }
{
    if one < other { one } else { other }
}

/// Returns the position `n` bytes further: count and rest are `n` less, and `last` is the address
/// of the last byte.
fn many_on(p: &Position, n: u32, last: u32) -> Position
    requires count { n ≤ p.now.count }
    requires left { n ≤ p.now.transfer.left }
    ensures { result ≡ onward p.now n (Some last) }
{
    Position {
        at: p.at,
        started: p.started,
        word: p.word,
        count: p.count - n as u16,
        before: Some(last),
        transfer: Transfer {
            command: p.transfer.command,
            kind: p.transfer.kind,
            left: p.transfer.left - n,
        },
    }
}

/// Takes `n` bytes from the device and stores them from an address on, without any test.
fn store_input_piece<S: Storage, D: Device>(storage: &mut S, device: &mut D, address: u32, n: u32)
    requires granted { IsGranted (length (S.memory storage.old).bytes) (S.present storage.old)
        address n }
    requires short { n ≤ 256 }
    ensures stored { S.memory storage.new
        ≡ with_stored (S.memory storage.old) address (given D.machine device.old n) }
    ensures device { device.new ≡ after_giving D.machine device.old n }
    ensures rest { S.Keeps storage.old storage.new }
{
    let mut buffer = [0u8; 256];
    let bytes = &mut buffer[..n as usize];
    device.give_bytes(bytes);
    storage.store(address, bytes);
}

/// Loads `n` bytes from an address on and passes them to the device, without any test.
fn send_output_piece<S: Storage, D: Device>(storage: &S, device: &mut D, address: u32, n: u32)
    requires granted { IsGranted (length (S.memory storage.now).bytes) (S.present storage.now)
        address n }
    requires short { n ≤ 256 }
    ensures { device.new
        ≡ after_taking D.machine device.old
        (slice_range (S.memory storage.now).bytes address (address + n)) }
{
    let mut buffer = [0u8; 256];
    let bytes = &mut buffer[..n as usize];
    storage.load(address, bytes);
    device.take_bytes(bytes);
}

/// Takes at least two bytes from the device, stores them and returns the new position; or does
/// nothing and returns `None`.
fn store_input_bytes<S: Storage, D: Device>(
    storage: &mut S,
    device: &mut D,
    limits: &Limits,
    p: &Position,
    address: u32,
) -> Option<Position>
    requires going { D.machine.done device.old ≡ false }
    requires gives { p.now.transfer.kind ≡ Gives }
    ensures reaches { IfSome result
        (λ then. (w : Written) → place_in w (S.memory storage.old) p.now ≡ Some address
        → Reaches (live w) (setting D.machine limits.now)
        (Moving p.now (S.memory storage.old) device.old)
        (Moving then (S.memory storage.new) device.new)) }
    ensures on { IfSome result (HasMoved p.now) }
    ensures none { IfNone result (S.memory storage.new ≡ S.memory storage.old) }
    ensures idle { IfNone result (device.new ≡ device.old) }
    ensures rest { S.Keeps storage.old storage.new }
{
    if p.word.flags.has(Flags::SKIP) {
        return None;
    }
    let n = piece(device, p, address);
    if n < 2 {
        return None;
    }
    let end = address.checked_add(n)?;
    let range = Range {
        start: address,
        count: n,
    };
    let Ok(()) = storage.check(range, Access::Store, limits.key) else {
        return None;
    };
    store_input_piece(storage, device, address, n);
    Some(many_on(p, n, end - 1))
}

/// Loads at least two bytes, passes them to the device and returns the new position; or does
/// nothing and returns `None`.
fn send_output_bytes<S: Storage, D: Device>(
    storage: &S,
    device: &mut D,
    limits: &Limits,
    p: &Position,
    address: u32,
) -> Option<Position>
    requires going { D.machine.done device.old ≡ false }
    requires takes { p.now.transfer.kind ≢ Gives }
    ensures reaches { IfSome result
        (λ then. (w : Written) → place_in w (S.memory storage.now) p.now ≡ Some address
        → Reaches (live w) (setting D.machine limits.now)
        (Moving p.now (S.memory storage.now) device.old)
        (Moving then (S.memory storage.now) device.new)) }
    ensures on { IfSome result (HasMoved p.now) }
    ensures idle { IfNone result (device.new ≡ device.old) }
{
    let n = piece(device, p, address);
    if n < 2 {
        return None;
    }
    let end = address.checked_add(n)?;
    let range = Range {
        start: address,
        count: n,
    };
    let Ok(()) = storage.check(range, Access::Fetch, limits.key) else {
        return None;
    };
    send_output_piece(storage, device, address, n);
    Some(many_on(p, n, end - 1))
}

/// Moves at least two bytes at once and returns the new position; or does nothing and returns
/// `None`.
pub(crate) fn move_many<F: WordForm, S: Storage, D: Device>(
    program: &F,
    storage: &mut S,
    device: &mut D,
    limits: &Limits,
    p: &Position,
) -> Option<Position>
    requires going { D.machine.done device.old ≡ false }
    requires within { p.now.count ≤ p.now.word.count }
    ensures reaches { IfSome result
        (λ then. Reaches (live (F.written program.now)) (setting D.machine limits.now)
        (Moving p.now (S.memory storage.old) device.old)
        (Moving then (S.memory storage.new) device.new)) }
    ensures on { IfSome result (HasMoved p.now) }
    ensures none { IfNone result (S.memory storage.new ≡ S.memory storage.old) }
    ensures idle { IfNone result (device.new ≡ device.old) }
    ensures rest { S.Keeps storage.old storage.new }
{
    let Ok(Some(address)) = place(program, storage, p) else {
        return None;
    };
    match p.transfer.kind {
        Direction::Gives => store_input_bytes(storage, device, limits, p, address),
        Direction::Takes => send_output_bytes(storage, device, limits, p, address),
        Direction::TakesUpTo => send_output_bytes(storage, device, limits, p, address),
    }
}
