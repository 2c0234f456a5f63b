//! The run of a channel program over any form of words, storage and device.
ghost use Rattle.std.specs.Prelude.{◌≡◌, ℕ, ◌+◌, ◌<◌, ◌≤◌, IfOk, IfErr, None, Some, length};
ghost use Rattle.s370_walk.specs.Walk.{Moving, Fetching, Over, next, judged, moving, Good};
ghost use Rattle.s370_walk.specs.Walk.{state_of, entered, Reaches, start_spot, live};
ghost use Rattle.s370_channel.specs.Progress.{setting, IsLighter, IsFollowed, MatchStuck};
ghost use Rattle.s370_channel.specs.Halts.{HaltsBeyond, HaltsIn, HaltsOn, HasMovedTo, IsReady};
ghost use Rattle.s370_channel.specs.Halts.{MatchHalt, MatchHaltBegun, stands};
ghost use Rattle.s370_channel.specs.declared.running.Place.TheVariants.{Next};

use crate::endings::{chain_or_end, end_at, end_with_program_check, end_word};
use crate::judging::{Verdict, judge};
use crate::limits::Limits;
use crate::moving::{MissingPage, Moved, transfer};
use crate::starting::first_spot;
use s370_store::{Page, Storage};
use s370_walk::{
    Answer, Ccw, ChannelStatus, Device, Direction, Ending, NextCcw, Order, Position, Progress,
    Transfer, UnitStatus, WordForm,
};
use thiserror::Error;

/// Moves the rest of a word's bytes, ends the word, and returns the next word's place or the
/// program's ending.
fn obey<F: WordForm, S: Storage, D: Device>(
    program: &F,
    storage: &mut S,
    device: &mut D,
    limits: &Limits,
    position: Position,
) -> Result<Progress, MissingPage>
    requires count { 0 < position.count }
    requires within { position.count ≤ position.word.count }
    ensures reaches { IfOk result
        (λ r. Reaches (live (F.written program.now)) (setting D.machine limits.now)
        (Moving position (S.memory storage.old) device.old)
        (state_of r (S.memory storage.new) device.new)) }
    ensures followed { IfOk result (IsFollowed limits.now.commands position) }
    ensures rest { S.Keeps storage.old storage.new }
    ensures halts { IfErr result
        (λ lacking. HaltsIn (F.written program.now) (setting D.machine limits.now)
        (S.present storage.old)
        (Moving position (S.memory storage.old) device.old)
        (S.memory storage.new) device.new lacking) }
    ensures moved { IfErr result
        (λ lacking. HasMovedTo position (S.memory storage.old) device.old
        lacking.position (S.memory storage.new) device.new) }
{
    match transfer(program, storage, device, limits, position)? {
        Moved::Stopped(ending) => Ok(Progress::Ended(ending)),
        Moved::Done(p) => Ok(end_word(device, limits, &p)),
    }
}

/// Returns the position before the first byte of a word.
fn position(spot: &NextCcw, started: u32, word: Ccw, transfer: Transfer) -> Position
    ensures { result ≡ moving spot.now started word transfer }
{
    Position {
        at: spot.at,
        started,
        word,
        count: word.count,
        before: None,
        transfer,
    }
}

/// Where a run is.
#[derive(Clone, Copy)]
pub(crate) enum Place {
    /// Before a word.
    Next(NextCcw),
    /// Within a word, before one of its bytes.
    Within(Position),
}

/// Why a run halts.
#[derive(Clone, Copy)]
pub(crate) enum RunStop {
    /// A device was refused the memory that a command needs.
    Memory,
    /// A page is not present that the step needs at this place; all before it was done.
    Absent(Page, Place),
}

/// Starts a word's command at the device, moves its bytes, and returns the next word's place or the
/// program's ending.
#[tactic(auto, unfolding(crate::specs::Progress::weight))]
pub(crate) fn begin<F: WordForm, S: Storage, D: Device>(
    program: &F,
    storage: &mut S,
    device: &mut D,
    limits: &Limits,
    spot: &NextCcw,
    word: Ccw,
) -> Result<Progress, RunStop>
    requires started { spot.now.started < limits.now.commands }
    requires role { spot.now.role ≡ None }
    requires count { 0 < word.count }
    ensures reaches { IfOk result
        (λ r. Reaches (live (F.written program.now)) (setting D.machine limits.now)
        (entered (setting D.machine limits.now) spot.now word None
        (S.memory storage.old) device.old)
        (state_of r (S.memory storage.new) device.new)) }
    ensures lighter { IfOk result (IsLighter limits.now.commands spot.now) }
    ensures rest { S.Keeps storage.old storage.new }
    ensures halts { IfErr result
        (MatchHaltBegun (F.written program.now) (setting D.machine limits.now) D.needs_memory
        (S.present storage.old) spot.now word (S.memory storage.old) device.old
        (S.memory storage.new) device.new) }
    ensures beyond { IfErr result (HaltsBeyond limits.now.commands spot.now) }
{
    let order = Order {
        command: word.command,
        first: spot.started == limits.prefix,
        flags: word.flags,
    };
    let started = spot.started + 1;
    let answer = match device.command(order) {
        Ok(answer) => answer,
        Err(_) => return Err(RunStop::Memory),
    };
    let wanted = match answer {
        Answer::Refused(status) => {
            return Ok(Progress::Ended(end_at(spot.at, status, ChannelStatus::NONE, word.count)));
        }
        Answer::Immediate => return Ok(chain_or_end(
            limits.prefix,
            false,
            UnitStatus::NONE,
            spot.at,
            started,
            &word,
            word.count,
        )),
        Answer::Input(left) => Transfer {
            command: word.command,
            kind: Direction::Gives,
            left,
        },
        Answer::Output(left) => Transfer {
            command: word.command,
            kind: Direction::Takes,
            left,
        },
        Answer::OutputUpTo(left) => Transfer {
            command: word.command,
            kind: Direction::TakesUpTo,
            left,
        },
    };
    match obey(
        program,
        storage,
        device,
        limits,
        position(spot, started, word, wanted),
    ) {
        Ok(then) => Ok(then),
        Err(lacking) => Err(RunStop::Absent(lacking.page, Place::Within(lacking.position))),
    }
}

/// Goes on with a command whose data are chained to another word, and returns what follows that
/// word.
#[tactic(auto, using(s370_walk::proofs::Reaching::reach_from), unfolding(crate::specs::Progress::weight))]
fn resume<F: WordForm, S: Storage, D: Device>(
    program: &F,
    storage: &mut S,
    device: &mut D,
    limits: &Limits,
    spot: &NextCcw,
    word: Ccw,
    wanted: Transfer,
) -> Result<Progress, RunStop>
    requires good { judged limits.now.commands spot.now word ≡ Good }
    requires role { spot.now.role ≡ Some wanted }
    requires text { (F.written program.now).text (S.memory storage.old) spot.now.at
        ≡ Some word }
    ensures reaches { IfOk result
        (λ r. Reaches (live (F.written program.now)) (setting D.machine limits.now)
        (Fetching spot.now (S.memory storage.old) device.old)
        (state_of r (S.memory storage.new) device.new)) }
    ensures lighter { IfOk result (IsLighter limits.now.commands spot.now) }
    ensures rest { S.Keeps storage.old storage.new }
    ensures halts { IfErr result
        (MatchHalt (F.written program.now) (setting D.machine limits.now) D.needs_memory
        (S.present storage.old)
        (Fetching spot.now (S.memory storage.old) device.old)
        (S.memory storage.new) device.new) }
    ensures beyond { IfErr result (HaltsBeyond limits.now.commands spot.now) }
{
    match obey(
        program,
        storage,
        device,
        limits,
        position(spot, spot.started, word, wanted),
    ) {
        Ok(then) => Ok(then),
        Err(lacking) => Err(RunStop::Absent(lacking.page, Place::Within(lacking.position))),
    }
}

/// Fetches one word, carries it out or jumps, and returns the next place or the program's ending.
///
/// A word that is bad, or cannot be fetched, ends the program with a program check.
#[tactic(auto, using(s370_walk::proofs::Reaching::reach_from, s370_walk::proofs::Reaching::reach_next, crate::proofs::Halts::lacks_word), unfolding(crate::specs::Progress::weight))]
fn one_word<F: WordForm, S: Storage, D: Device>(
    program: &F,
    storage: &mut S,
    device: &mut D,
    limits: &Limits,
    spot: &NextCcw,
) -> Result<Progress, RunStop>
    ensures reaches { IfOk result
        (λ r. Reaches (live (F.written program.now)) (setting D.machine limits.now)
        (Fetching spot.now (S.memory storage.old) device.old)
        (state_of r (S.memory storage.new) device.new)) }
    ensures lighter { IfOk result (IsLighter limits.now.commands spot.now) }
    ensures rest { S.Keeps storage.old storage.new }
    ensures halts { IfErr result
        (MatchHalt (F.written program.now) (setting D.machine limits.now) D.needs_memory
        (S.present storage.old)
        (Fetching spot.now (S.memory storage.old) device.old)
        (S.memory storage.new) device.new) }
    ensures on { IfErr result
        (HaltsOn limits.now.commands (Next spot.now) (S.memory storage.old) device.old
        (S.memory storage.new) device.new) }
{
    let found = match program.fetch(storage, spot.at) {
        Ok(found) => found,
        Err(page) => return Err(RunStop::Absent(page, Place::Next(*spot))),
    };
    let Some(word) = found else {
        return Ok(Progress::Ended(end_with_program_check(device, spot.role, spot.at)));
    };
    match judge(limits.commands, spot, &word) {
        Verdict::Bad => Ok(Progress::Ended(end_with_program_check(device, spot.role, spot.at))),
        Verdict::Jump => Ok(Progress::At(NextCcw {
            at: word.next,
            role: spot.role,
            jumped: true,
            started: spot.started,
        })),
        Verdict::Good => match spot.role {
            None => Ok(begin(program, storage, device, limits, spot, word)?),
            Some(wanted) => resume(program, storage, device, limits, spot, word, wanted),
        },
    }
}

/// Why a program could not be run.
#[derive(Clone, Copy, Debug, PartialEq, Eq, Error)]
pub enum ChannelError {
    /// A device was refused the memory that a command needs.
    #[error("out of memory")]
    Memory,
    /// A page of its words, its lists or its data is not present.
    #[error("page {} is absent", .0.0)]
    Absent(Page),
}

impl RunStop {
    ghost use Rattle.s370_channel.specs.Halts.{error_of};

    /// Returns the error that is reported for a run that stopped; where it stopped is dropped.
    pub(crate) fn error(self) -> ChannelError
        ensures { result ≡ error_of self }
    {
        match self {
            RunStop::Memory => ChannelError::Memory,
            RunStop::Absent(page, _) => ChannelError::Absent(page),
        }
    }
}

/// Runs the program from a word on to its end, or until memory is refused or a page is absent.
#[tactic(auto, using(s370_walk::proofs::Reaching::reach_on))]
pub(crate) fn go_on<F: WordForm, S: Storage, D: Device>(
    program: &F,
    storage: &mut S,
    device: &mut D,
    limits: &Limits,
    from: NextCcw,
) -> Result<Ending, RunStop>
    ensures reaches { IfOk result
        (λ ending. Reaches (live (F.written program.now)) (setting D.machine limits.now)
        (Fetching from (S.memory storage.old) device.old)
        (Over ending (S.memory storage.new) device.new)) }
    ensures rest { S.Keeps storage.old storage.new }
    ensures halts { IfErr result
        (MatchHalt (F.written program.now) (setting D.machine limits.now) D.needs_memory
        (S.present storage.old)
        (Fetching from (S.memory storage.old) device.old)
        (S.memory storage.new) device.new) }
    ensures on { IfErr result
        (HaltsOn limits.now.commands (Next from) (S.memory storage.old) device.old
        (S.memory storage.new) device.new) }
{
    let mut spot = from;
    'words: loop {
        match one_word(program, storage, device, limits, &spot) {
            Ok(Progress::At(then)) => spot = then,
            Ok(Progress::Ended(ending)) => return Ok(ending),
            Err(error) => return Err(error),
        }
    }
}

/// Runs the program from a place, perhaps within a word, to its end, or until memory is refused or
/// a page is absent.
pub(crate) fn go_from<F: WordForm, S: Storage, D: Device>(
    program: &F,
    storage: &mut S,
    device: &mut D,
    limits: &Limits,
    from: Place,
) -> Result<Ending, RunStop>
    requires { IsReady from }
    ensures reaches { IfOk result
        (λ ending. Reaches (live (F.written program.now)) (setting D.machine limits.now)
        (stands from (S.memory storage.old) device.old)
        (Over ending (S.memory storage.new) device.new)) }
    ensures rest { S.Keeps storage.old storage.new }
    ensures halts { IfErr result
        (MatchHalt (F.written program.now) (setting D.machine limits.now) D.needs_memory
        (S.present storage.old)
        (stands from (S.memory storage.old) device.old)
        (S.memory storage.new) device.new) }
    ensures on { IfErr result
        (HaltsOn limits.now.commands from (S.memory storage.old) device.old
        (S.memory storage.new) device.new) }
{
    match from {
        Place::Next(spot) => go_on(program, storage, device, limits, spot),
        Place::Within(position) => {
            match obey(program, storage, device, limits, position) {
                Ok(Progress::At(spot)) => go_on(program, storage, device, limits, spot),
                Ok(Progress::Ended(ending)) => Ok(ending),
                Err(lacking) => Err(RunStop::Absent(lacking.page, Place::Within(lacking.position))),
            }
        }
    }
}

/// Runs the channel program that starts at an address over a device and storage, and returns its
/// ending.
///
/// # Errors
///
/// A `ChannelError`: refused memory that a command needs, or an absent page.
pub fn run<F: WordForm, S: Storage, D: Device>(
    program: &F,
    storage: &mut S,
    start: u32,
    limits: &Limits,
    device: &mut D,
) -> Result<Ending, ChannelError>
    ensures reaches { IfOk result
        (λ ending. Reaches (live (F.written program.now)) (setting D.machine limits.now)
        (Fetching (start_spot start) (S.memory storage.old) device.old)
        (Over ending (S.memory storage.new) device.new)) }
    ensures rest { S.Keeps storage.old storage.new }
    ensures stuck { IfErr result
        (MatchStuck (F.written program.now) (setting D.machine limits.now) D.needs_memory
        (S.present storage.old)
        (Fetching (start_spot start) (S.memory storage.old) device.old)) }
{
    match go_on(program, storage, device, limits, first_spot(start)) {
        Ok(ending) => Ok(ending),
        Err(halt) => Err(halt.error()),
    }
}
