//! Bytes between a device and the area of a word.
ghost use Rattle.std.specs.Prelude.{◌≡◌, ℕ, ◌<◌, ◌≤◌, IfOk, IfErr, length, ◌≢◌};
ghost use Rattle.s370_walk.specs.Blocks.{begins_block, after};
ghost use Rattle.s370_walk.specs.Hardware.{FetchTells};
ghost use Rattle.s370_walk.specs.Walk.{Moving, next, Reaches, live, rest, stepped, place_in};
ghost use Rattle.s370_walk.specs.Stuck.{place_asks};
ghost use Rattle.s370_walk.specs.declared.parts.Direction.TheVariants.{Gives};
ghost use Rattle.s370_channel.specs.declared.moving.Moved.TheVariants.{Done};
ghost use Rattle.s370_channel.specs.Progress.{setting, moved_state, IsOut, IsOneOn, IsFurther};
ghost use Rattle.s370_channel.specs.Halts.{Lacks, HaltsIn, HasMovedTo};

use crate::endings::{end_with_check, left_of};
use crate::limits::Limits;
use crate::pieces::move_many;
use s370_store::{Access, Fault, Page, Range, Storage, load_byte, store_byte};
use s370_walk::{ChannelStatus, Device, Direction, Ending, Flags, Position, Transfer, WordForm};

/// What a transfer leads to.
pub(crate) enum Moved {
    /// So far, with no check.
    Done(Position),
    /// To a check.
    Stopped(Ending),
}

/// Where a transfer needs an absent page.
#[derive(Clone, Copy)]
pub(crate) struct MissingPage {
    /// The page.
    pub(crate) page: Page,
    /// The next byte.
    pub(crate) position: Position,
}

/// Returns whether the next byte begins a block, given the address of the byte before it, if any.
fn is_first_of_block(before: Option<u32>) -> bool
    ensures { result ≡ begins_block before }
{
    match before {
        None => true,
        Some(a) => a % 2048 == 2047,
    }
}

/// Returns the address after an address, or `None` if no address is given or the next one is over
/// 32 bits.
fn one_further(before: Option<u32>) -> Option<u32>
    ensures { result ≡ after before }
{
    match before {
        None => None,
        Some(a) => { if a == u32::MAX { None } else { Some(a + 1) } }
    }
}

/// Returns the address of the next byte to move, or `None` if its block has no address.
pub(crate) fn place<F: WordForm, S: Storage>(
    program: &F,
    storage: &S,
    p: &Position,
) -> Result<Option<u32>, Page>
    requires { p.now.count ≤ p.now.word.count }
    ensures { FetchTells (length (S.memory storage.now).bytes) (S.present storage.now)
        (place_asks (F.written program.now) p.now)
        (place_in (F.written program.now) (S.memory storage.now) p.now) result }
{
    if is_first_of_block(p.before) {
        let index = (p.word.count - p.count) as u32;
        program.block(storage, p, (index + 2047) / 2048)
    } else {
        Ok(one_further(p.before))
    }
}

/// Returns the position one byte further: count and rest are one less, and `before` is the byte's
/// address.
fn one_on(p: &Position, before: Option<u32>) -> Moved
    requires count { 0 < p.now.count }
    requires left { 0 < p.now.transfer.left }
    ensures { result ≡ Done (stepped p.now before) }
{
    Moved::Done(Position {
        at: p.at,
        started: p.started,
        word: p.word,
        count: p.count - 1,
        before,
        transfer: Transfer {
            command: p.transfer.command,
            kind: p.transfer.kind,
            left: p.transfer.left - 1,
        },
    })
}

/// Takes a byte from the device and stores it, or drops it if the word skips; or stops the transfer
/// with a check.
#[tactic(auto, using(crate::proofs::Stuck::lacks_giving_place, crate::proofs::Stuck::lacks_giving_byte))]
fn store_input_byte<F: WordForm, S: Storage, D: Device>(
    program: &F,
    storage: &mut S,
    device: &mut D,
    limits: &Limits,
    p: &Position,
) -> Result<Moved, Page>
    requires count { 0 < p.now.count }
    requires left { 0 < rest D.machine p.now device.old }
    requires gives { p.now.transfer.kind ≡ Gives }
    requires within { p.now.count ≤ p.now.word.count }
    ensures next { IfOk result
        (λ r. next (live (F.written program.now)) (setting D.machine limits.now)
        (Moving p.now (S.memory storage.old) device.old)
        ≡ moved_state r (S.memory storage.new) device.new) }
    ensures on { IfOk result (IsOneOn p.now) }
    ensures rest { S.Keeps storage.old storage.new }
    ensures lacks { IfErr result
        (λ page. Lacks (F.written program.now) D.machine (S.present storage.old)
        (Moving p.now (S.memory storage.old) device.old) page.0) }
    ensures still { IfErr result (λ page. S.memory storage.new ≡ S.memory storage.old) }
    ensures idle { IfErr result (λ page. device.new ≡ device.old) }
{
    if p.word.flags.has(Flags::SKIP) {
        let _ = device.give();
        return Ok(one_on(p, p.before));
    }
    let Some(address) = place(program, storage, p)? else {
        return Ok(Moved::Stopped(end_with_check(
            device,
            p.at,
            ChannelStatus::PROGRAM_CHECK,
            p.count,
        )));
    };
    let one_byte = Range {
        start: address,
        count: 1,
    };
    match storage.check(one_byte, Access::Store, limits.key) {
        Ok(()) => {
            let byte = device.give();
            store_byte(storage, address, byte);
            Ok(one_on(p, Some(address)))
        }
        Err(Fault::Protection) => Ok(Moved::Stopped(end_with_check(
            device,
            p.at,
            ChannelStatus::PROTECTION_CHECK,
            p.count,
        ))),
        Err(Fault::Addressing) => Ok(Moved::Stopped(end_with_check(
            device,
            p.at,
            ChannelStatus::PROGRAM_CHECK,
            p.count,
        ))),
        Err(Fault::Absent(page)) => Err(page),
    }
}

/// Loads a byte and passes it to the device, or stops the transfer with a check.
#[tactic(auto, using(crate::proofs::Stuck::lacks_taking_place, crate::proofs::Stuck::lacks_taking_byte))]
fn send_output_byte<F: WordForm, S: Storage, D: Device>(
    program: &F,
    storage: &S,
    device: &mut D,
    limits: &Limits,
    p: &Position,
) -> Result<Moved, Page>
    requires count { 0 < p.now.count }
    requires left { 0 < rest D.machine p.now device.old }
    requires takes { p.now.transfer.kind ≢ Gives }
    requires within { p.now.count ≤ p.now.word.count }
    ensures next { IfOk result
        (λ r. next (live (F.written program.now)) (setting D.machine limits.now)
        (Moving p.now (S.memory storage.now) device.old)
        ≡ moved_state r (S.memory storage.now) device.new) }
    ensures on { IfOk result (IsOneOn p.now) }
    ensures lacks { IfErr result
        (λ page. Lacks (F.written program.now) D.machine (S.present storage.now)
        (Moving p.now (S.memory storage.now) device.old) page.0) }
    ensures idle { IfErr result (λ page. device.new ≡ device.old) }
{
    let Some(address) = place(program, storage, p)? else {
        return Ok(Moved::Stopped(end_with_check(
            device,
            p.at,
            ChannelStatus::PROGRAM_CHECK,
            p.count,
        )));
    };
    let one_byte = Range {
        start: address,
        count: 1,
    };
    match storage.check(one_byte, Access::Fetch, limits.key) {
        Ok(()) => {
            let byte = load_byte(storage, address);
            device.take(byte);
            Ok(one_on(p, Some(address)))
        }
        Err(Fault::Protection) => Ok(Moved::Stopped(end_with_check(
            device,
            p.at,
            ChannelStatus::PROTECTION_CHECK,
            p.count,
        ))),
        Err(Fault::Addressing) => Ok(Moved::Stopped(end_with_check(
            device,
            p.at,
            ChannelStatus::PROGRAM_CHECK,
            p.count,
        ))),
        Err(Fault::Absent(page)) => Err(page),
    }
}

/// Moves one byte between device and storage, in the direction of the transfer, or stops it with a
/// check.
fn move_byte<F: WordForm, S: Storage, D: Device>(
    program: &F,
    storage: &mut S,
    device: &mut D,
    limits: &Limits,
    p: &Position,
) -> Result<Moved, Page>
    requires count { 0 < p.now.count }
    requires left { 0 < rest D.machine p.now device.old }
    requires within { p.now.count ≤ p.now.word.count }
    ensures next { IfOk result
        (λ r. next (live (F.written program.now)) (setting D.machine limits.now)
        (Moving p.now (S.memory storage.old) device.old)
        ≡ moved_state r (S.memory storage.new) device.new) }
    ensures on { IfOk result (IsOneOn p.now) }
    ensures rest { S.Keeps storage.old storage.new }
    ensures lacks { IfErr result
        (λ page. Lacks (F.written program.now) D.machine (S.present storage.old)
        (Moving p.now (S.memory storage.old) device.old) page.0) }
    ensures still { IfErr result (λ page. S.memory storage.new ≡ S.memory storage.old) }
    ensures idle { IfErr result (λ page. device.new ≡ device.old) }
{
    match p.transfer.kind {
        Direction::Gives => store_input_byte(program, storage, device, limits, p),
        Direction::Takes => send_output_byte(program, storage, device, limits, p),
        Direction::TakesUpTo => send_output_byte(program, storage, device, limits, p),
    }
}

/// Moves as many bytes as can move in one piece, or else one byte, or stops the transfer with a
/// check.
#[tactic(auto, using(s370_walk::proofs::Reaching::reach_next))]
fn move_on<F: WordForm, S: Storage, D: Device>(
    program: &F,
    storage: &mut S,
    device: &mut D,
    limits: &Limits,
    p: &Position,
) -> Result<Moved, MissingPage>
    requires count { 0 < p.now.count }
    requires left { 0 < rest D.machine p.now device.old }
    requires within { p.now.count ≤ p.now.word.count }
    ensures reaches { IfOk result
        (λ r. Reaches (live (F.written program.now)) (setting D.machine limits.now)
        (Moving p.now (S.memory storage.old) device.old)
        (moved_state r (S.memory storage.new) device.new)) }
    ensures on { IfOk result (IsFurther p.now) }
    ensures rest { S.Keeps storage.old storage.new }
    ensures lacks { IfErr result
        (λ lacking. Lacks (F.written program.now) D.machine (S.present storage.old)
        (Moving p.now (S.memory storage.old) device.old) lacking.page.0) }
    ensures same_position { IfErr result (λ lacking. lacking.position ≡ p.now) }
    ensures still { IfErr result (λ lacking. S.memory storage.new ≡ S.memory storage.old) }
    ensures idle { IfErr result (λ lacking. device.new ≡ device.old) }
{
    match move_many(program, storage, device, limits, p) {
        Some(then) => Ok(Moved::Done(then)),
        None => match move_byte(program, storage, device, limits, p) {
            Ok(moved) => Ok(moved),
            Err(page) => Err(MissingPage { page, position: *p }),
        },
    }
}

/// Moves bytes until the count or the device has run out, a check stops it, or a page is absent.
#[tactic(auto, using(s370_walk::proofs::Reaching::reach_on))]
pub(crate) fn transfer<F: WordForm, S: Storage, D: Device>(
    program: &F,
    storage: &mut S,
    device: &mut D,
    limits: &Limits,
    position: Position,
) -> Result<Moved, MissingPage>
    requires { position.count ≤ position.word.count }
    ensures reaches { IfOk result
        (λ r. Reaches (live (F.written program.now)) (setting D.machine limits.now)
        (Moving position (S.memory storage.old) device.old)
        (moved_state r (S.memory storage.new) device.new)) }
    ensures out { IfOk result (IsOut D.machine position device.new) }
    ensures rest { S.Keeps storage.old storage.new }
    ensures halts { IfErr result
        (λ lacking. HaltsIn (F.written program.now) (setting D.machine limits.now)
        (S.present storage.old)
        (Moving position (S.memory storage.old) device.old)
        (S.memory storage.new) device.new lacking) }
    ensures moved { IfErr result
        (λ lacking. HasMovedTo position (S.memory storage.old) device.old
        lacking.position (S.memory storage.new) device.new) }
{
    let mut p = position;
    'bytes: while p.count > 0 && left_of(device, &p) > 0 {
        match move_on(program, storage, device, limits, &p)? {
            Moved::Done(then) => p = then,
            Moved::Stopped(ending) => return Ok(Moved::Stopped(ending)),
        }
    }
    Ok(Moved::Done(p))
}
