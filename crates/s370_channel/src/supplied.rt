//! The run of a channel program whose absent pages are brought when it comes to them.
//!
//! It goes on at the very word or byte at which a page was absent: so its walk is that of a storage
//! which is all there, and what is brought is what it touches.
ghost use Rattle.std.specs.Prelude.{◌≡◌, ◌+◌, ◌-◌, ◌*◌, ◌^◌, ◌<◌, ◌≤◌, ℕ, List, [], ◌∷◌, IfErr};
ghost use Rattle.std.specs.Prelude.{IfOk, length};
ghost use Rattle.s370_walk.specs.Stuck.{IsAsked};
ghost use Rattle.s370_walk.specs.Walk.{Fetching, Over, Reaches, live, start_spot};
ghost use Rattle.s370_channel.specs.Guest.{guest_written};
ghost use Rattle.s370_channel.specs.Halts.{IsReady, place_weight, stands};
ghost use Rattle.s370_channel.specs.Loading.{loading, loading_limits};
ghost use Rattle.s370_channel.specs.Progress.{rest_of, setting};
ghost use Rattle.s370_channel.specs.Supplied.{AllSuch, EachSuch, IsAskedFor, IsFarther, IsLack};
ghost use Rattle.s370_channel.specs.Supplied.{IsLoadingOut, IsOutOfMemory, IsTouched, gone_state};

use crate::guest::Guest;
use crate::limits::Limits;
use crate::loading::{LIMITS, load};
use crate::room::AmpleSupply;
use crate::running::{ChannelError, Place, RunStop, go_from};
use crate::starting::first_spot;
use s370_store::FramesOut;
use s370_walk::{Device, Ending, Transfer};

/// What a step leads to, with all that follows it for which no page is lacking.
enum Advance {
    /// The end of the program.
    Finished(Ending),
    /// A later step that needs an absent page.
    Further(Place),
}

/// Why a step is not done.
#[derive(Clone, Copy)]
enum Shortage {
    /// A device was refused the memory that a command needs.
    Memory,
    /// There is no room for a page.
    Room,
}

/// Returns what a transfer's rest counts in the weight of a place: zero without a transfer.
fn rest_in(role: Option<Transfer>) -> u128
    ensures rest { result ≡ rest_of role }
    ensures small { result < 2 ^ 34 }
{
    match role {
        None => 0,
        Some(transfer) => 2 + 2 * u128::from(transfer.left),
    }
}

/// Returns what the commands that may still be started count in the weight of a place.
fn commands_left(commands: u32, started: u32) -> u128
    ensures value { result ≡ (commands - started) * 2 ^ 34 }
    ensures small { result < 2 ^ 66 }
{
    u128::from(commands.saturating_sub(started)) * 0x4_0000_0000
}

/// Returns a bound on the work left from a place, which falls with each step of the program.
#[tactic(auto, unfolding(crate::specs::Progress::weight))]
fn weight_of(commands: u32, place: &Place) -> u128
    ensures { result ≡ place_weight commands place.now }
{
    match *place {
        Place::Next(spot) => {
            let left = commands_left(commands, spot.started);
            let jump = if spot.jumped { 0 } else { 1 };
            2 * (left + rest_in(spot.role) + jump) + 1
        }
        Place::Within(position) => {
            let left = commands_left(commands, position.started);
            2 * (left + rest_in(Some(position.transfer)))
        }
    }
}

/// Runs the program until it ends or stops further on at an absent page; the pages that it needs
/// for that are made present.
fn bring_and_advance<S: AmpleSupply, D: Device>(
    storage: &mut S,
    device: &mut D,
    limits: &Limits,
    from: Place,
) -> Result<Advance, Shortage>
    requires { IsReady from }
    ensures reaches { IfOk result
        (λ gone. Reaches (live guest_written) (setting D.machine limits.now)
        (stands from (S.Storage.memory storage.old) device.old)
        (gone_state gone (S.Storage.memory storage.new) device.new)) }
    ensures farther { IfOk result (IsFarther limits.now.commands from) }
    ensures lack { IfErr result
        (IsLack guest_written (setting D.machine limits.now) D.needs_memory
        (stands from (S.Storage.memory storage.old) device.old)
        (length (S.Storage.memory storage.new).bytes) (S.Supply.IsShort storage.new)) }
    ensures supply { (pages : List ℕ) × S.Supply.Brought storage.old pages storage.new
        × IsAskedFor guest_written D.machine
        (stands from (S.Storage.memory storage.old) device.old)
        (length (S.Storage.memory storage.old).bytes) pages
        × (length pages ≤ 9) }
    ensures keys { (S.Storage.memory storage.new).keys ≡ (S.Storage.memory storage.old).keys }
    ensures size { length (S.Storage.memory storage.new).bytes
        ≡ length (S.Storage.memory storage.old).bytes }
{
    'page: loop {
        match go_from(&Guest, storage, device, limits, from) {
            Ok(ending) => return Ok(Advance::Finished(ending)),
            Err(RunStop::Memory) => return Err(Shortage::Memory),
            Err(RunStop::Absent(page, place)) => {
                if weight_of(limits.commands, &place) < weight_of(limits.commands, &from) {
                    return Ok(Advance::Further(place));
                }
                match storage.bring(page) {
                    Ok(()) => {}
                    Err(FramesOut) => return Err(Shortage::Room),
                }
            }
        }
    }
}

/// Runs the program until it ends or stops further on at an absent page, and then ends the hold on
/// the pages that it made present.
///
/// The storage has room for every page.
fn advance_supplied<S: AmpleSupply, D: Device>(
    storage: &mut S,
    device: &mut D,
    limits: &Limits,
    from: Place,
) -> Result<Advance, ChannelError>
    requires ready { IsReady from }
    requires between { S.UnitSupply.IsBetween storage.old }
    requires ample { S.IsAmple storage.old }
    ensures reaches { IfOk result
        (λ gone. Reaches (live guest_written) (setting D.machine limits.now)
        (stands from (S.Storage.memory storage.old) device.old)
        (gone_state gone (S.Storage.memory storage.new) device.new)) }
    ensures farther { IfOk result (IsFarther limits.now.commands from) }
    ensures memory { IfErr result
        (IsOutOfMemory guest_written (setting D.machine limits.now) D.needs_memory
        (stands from (S.Storage.memory storage.old) device.old)) }
    ensures paged_in { (pages : List ℕ) × S.UnitSupply.Came storage.old (pages ∷ []) storage.new
        × AllSuch (IsAsked guest_written D.machine
        (stands from (S.Storage.memory storage.old) device.old)) pages }
    ensures between { S.UnitSupply.IsBetween storage.new }
    ensures ample { S.IsAmple storage.new }
    ensures keys { (S.Storage.memory storage.new).keys ≡ (S.Storage.memory storage.old).keys }
{
    let gone = bring_and_advance(storage, device, limits, from);
    storage.let_go();
    match gone {
        Ok(gone) => Ok(gone),
        Err(lack) => match lack {
            Shortage::Memory => Err(ChannelError::Memory),
            // There is room for every page.
            Shortage::Room => unreachable!(),
        },
    }
}

/// Runs the program from a place to its end, and makes absent pages present as it needs them.
fn run_supplied_from<S: AmpleSupply, D: Device>(
    storage: &mut S,
    device: &mut D,
    limits: &Limits,
    from: Place,
) -> Result<Ending, ChannelError>
    requires ready { IsReady from }
    requires between { S.UnitSupply.IsBetween storage.old }
    requires ample { S.IsAmple storage.old }
    ensures reaches { IfOk result
        (λ ending. Reaches (live guest_written) (setting D.machine limits.now)
        (stands from (S.Storage.memory storage.old) device.old)
        (Over ending (S.Storage.memory storage.new) device.new)) }
    ensures memory { IfErr result
        (IsOutOfMemory guest_written (setting D.machine limits.now) D.needs_memory
        (stands from (S.Storage.memory storage.old) device.old)) }
    ensures paged_in { (units : List (List ℕ)) × S.UnitSupply.Came storage.old units storage.new
        × EachSuch (IsTouched guest_written (setting D.machine limits.now)
        (stands from (S.Storage.memory storage.old) device.old)) units }
    ensures between { S.UnitSupply.IsBetween storage.new }
    ensures ample { S.IsAmple storage.new }
    ensures keys { (S.Storage.memory storage.new).keys ≡ (S.Storage.memory storage.old).keys }
{
    let mut place = from;
    'unit: loop {
        let gone = match advance_supplied(storage, device, limits, place) {
            Ok(gone) => gone,
            Err(error) => return Err(error),
        };
        match gone {
            Advance::Finished(ending) => return Ok(ending),
            Advance::Further(then) => place = then,
        }
    }
}

/// Runs the program that starts at an address to its end; absent pages are made present as it needs
/// them.
///
/// The storage has room for every page.
///
/// # Errors
///
/// `ChannelError::Memory` if a command is refused memory; no page is reported as absent.
pub fn run_supplied<S: AmpleSupply, D: Device>(
    storage: &mut S,
    start: u32,
    limits: &Limits,
    device: &mut D,
) -> Result<Ending, ChannelError>
    requires between { S.UnitSupply.IsBetween storage.old }
    requires ample { S.IsAmple storage.old }
    ensures reaches { IfOk result
        (λ ending. Reaches (live guest_written) (setting D.machine limits.now)
        (Fetching (start_spot start) (S.Storage.memory storage.old) device.old)
        (Over ending (S.Storage.memory storage.new) device.new)) }
    ensures memory { IfErr result
        (IsOutOfMemory guest_written (setting D.machine limits.now) D.needs_memory
        (Fetching (start_spot start) (S.Storage.memory storage.old) device.old)) }
    ensures paged_in { (units : List (List ℕ)) × S.UnitSupply.Came storage.old units storage.new
        × EachSuch (IsTouched guest_written (setting D.machine limits.now)
        (Fetching (start_spot start) (S.Storage.memory storage.old) device.old))
        units }
    ensures between { S.UnitSupply.IsBetween storage.new }
    ensures ample { S.IsAmple storage.new }
    ensures keys { (S.Storage.memory storage.new).keys ≡ (S.Storage.memory storage.old).keys }
{
    run_supplied_from(storage, device, limits, Place::Next(first_spot(start)))
}

/// Runs the channel program of an initial program loading; absent pages are made present as it
/// needs them.
///
/// # Errors
///
/// `ChannelError::Memory` if a command is refused memory; no page is reported as absent.
pub fn load_supplied<S: AmpleSupply, D: Device>(
    storage: &mut S,
    device: &mut D,
) -> Result<Ending, ChannelError>
    requires between { S.UnitSupply.IsBetween storage.old }
    requires ample { S.IsAmple storage.old }
    ensures reaches { IfOk result
        (λ ending. Reaches (live guest_written) (setting D.machine loading_limits)
        (loading D.machine (S.Storage.memory storage.old) device.old)
        (Over ending (S.Storage.memory storage.new) device.new)) }
    ensures memory { IfErr result
        (IsLoadingOut guest_written D.machine D.needs_memory
        (S.Storage.memory storage.old) device.old) }
    ensures paged_in { (units : List (List ℕ)) × S.UnitSupply.Came storage.old units storage.new
        × EachSuch (IsTouched guest_written (setting D.machine loading_limits)
        (loading D.machine (S.Storage.memory storage.old) device.old)) units }
    ensures between { S.UnitSupply.IsBetween storage.new }
    ensures ample { S.IsAmple storage.new }
    ensures keys { (S.Storage.memory storage.new).keys ≡ (S.Storage.memory storage.old).keys }
{
    match load(&Guest, storage, device) {
        Ok(ending) => Ok(ending),
        Err(RunStop::Memory) => Err(ChannelError::Memory),
        Err(RunStop::Absent(_, place)) => run_supplied_from(storage, device, &LIMITS, place),
    }
}
