//! How a word ends: what it leads to, or with which status the program is over.
ghost use Rattle.std.specs.Prelude.{◌≡◌, ◌<◌, ◌⊎◌};
ghost use Rattle.s370_store.specs.Memory.{Memory};
ghost use Rattle.s370_walk.specs.Walk.{Form, Moving, next, closed, failure, failed, state_of};
ghost use Rattle.s370_walk.specs.Walk.{ending, rest, tells_length};
ghost use Rattle.s370_channel.specs.Progress.{setting, IsBehind};

use crate::limits::Limits;
use s370_walk::{
    Ccw, ChannelStatus, Device, Direction, Ending, Flags, NextCcw, Position, Progress, Transfer,
    UnitStatus,
};

/// Returns an ending at a word, whose unit status is `status` with channel end and device end
/// added.
pub(crate) fn end_at(at: u32, status: UnitStatus, channel: ChannelStatus, count: u16) -> Ending
    ensures { result ≡ ending at status channel count }
{
    Ending {
        at,
        unit: UnitStatus::ENDED.with(status),
        channel,
        count,
    }
}

/// Finishes the device's command and returns the program's ending, with a channel check.
pub(crate) fn end_with_check<D: Device>(
    device: &mut D,
    at: u32,
    check: ChannelStatus,
    count: u16,
) -> Ending
    ensures ending { result ≡ ending at (D.machine.status device.old) check count }
    ensures after { device.new ≡ D.machine.finished device.old }
{
    end_at(at, device.finish(), check, count)
}

/// Returns the ending of a program with a program check, after finishing the device's command if
/// one is under way.
pub(crate) fn end_with_program_check<D: Device>(
    device: &mut D,
    role: Option<Transfer>,
    at: u32,
) -> Ending
    ensures ending { result ≡ failure D.machine role at device.old }
    ensures after { device.new ≡ failed D.machine role device.old }
{
    match role {
        Some(_) => end_with_check(device, at, ChannelStatus::PROGRAM_CHECK, 0),
        None => end_at(at, UnitStatus::NONE, ChannelStatus::PROGRAM_CHECK, 0),
    }
}

/// Returns what follows a command that is over: the next command if it chains and ended well, else
/// the program's ending.
///
/// An incorrect length, or an unusual unit status, ends the program in spite of chaining.
pub(crate) fn chain_or_end(
    prefix: u32,
    wrong: bool,
    status: UnitStatus,
    at: u32,
    started: u32,
    word: &Ccw,
    count: u16,
) -> Progress
    ensures { result ≡ closed prefix wrong status at started word.now count }
{
    if wrong {
        return Progress::Ended(end_at(at, status, ChannelStatus::INCORRECT_LENGTH, count));
    }
    let chains = word.flags.has(Flags::CHAIN_COMMAND) && !word.flags.has(Flags::CHAIN_DATA);
    if chains && !status.has(UnitStatus::UNUSUAL) {
        Progress::At(NextCcw {
            at: if status.has(UnitStatus::STATUS_MODIFIER) {
                word.skipped
            } else {
                word.next
            },
            role: None,
            jumped: started == prefix,
            started,
        })
    } else {
        Progress::Ended(end_at(at, status, ChannelStatus::NONE, count))
    }
}

/// Returns whether an incorrect length is reported at this word: by its flags and the direction of
/// the transfer.
fn minds_length(p: &Position) -> bool
    ensures { result ≡ tells_length p.now }
{
    let exact = match p.transfer.kind {
        Direction::Gives => true,
        Direction::Takes => true,
        Direction::TakesUpTo => false,
    };
    let flags = p.word.flags;
    exact && (flags.has(Flags::CHAIN_DATA) || !flags.has(Flags::SUPPRESS_LENGTH))
}

/// Returns how many bytes the device still has to move: zero if it is done.
pub(crate) fn left_of<D: Device>(device: &D, p: &Position) -> u32
    ensures { result ≡ rest D.machine p.now device.now }
{
    if device.is_done() { 0 } else { p.transfer.left }
}

/// Ends a word whose count is zero or whose device has nothing left, and returns what follows; the
/// device's command ends too, unless the count is zero and data are chained.
///
/// The device's command is finished, unless the count is zero and data are chained.
#[tactic(auto, unfolding(crate::specs::Progress::weight))]
pub(crate) fn end_word<D: Device>(device: &mut D, limits: &Limits, p: &Position) -> Progress
    requires { (p.now.count ≡ 0) ⊎ (rest D.machine p.now device.old ≡ 0) }
    ensures next { (form : Form) (m : Memory)
        → next form (setting D.machine limits.now) (Moving p.now m device.old)
        ≡ state_of result m device.new }
    ensures lighter { IsBehind limits.now.commands p.now result }
{
    let wrong = minds_length(p);
    if p.count == 0 {
        if p.word.flags.has(Flags::CHAIN_DATA) {
            return Progress::At(NextCcw {
                at: p.word.next,
                role: Some(p.transfer),
                jumped: false,
                started: p.started,
            });
        }
        let left = left_of(device, p);
        let status = device.finish();
        chain_or_end(
            limits.prefix,
            left != 0 && wrong,
            status,
            p.at,
            p.started,
            &p.word,
            p.count,
        )
    } else {
        let status = device.finish();
        chain_or_end(
            limits.prefix,
            wrong,
            status,
            p.at,
            p.started,
            &p.word,
            p.count,
        )
    }
}
