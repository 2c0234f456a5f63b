//! What a script asks for, one after another: events that happen, and turns that are dealt.
ghost use Rattle.std.specs.Prelude.{◌≡◌, [], ◌∷◌, All, Bool, IfOk, OnErr, OnOk, map};
ghost use Rattle.std.specs.Io.KnownBytes.{Appends};
ghost use Rattle.s370_num.specs.Host.{AppendsFront};
ghost use Rattle.session_script.specs.Script.{IsOfDevice, IsOfUser, said};
ghost use Rattle.sessions.specs.Schedule.{IsOf, Serves, Slices, acts, asked_said, cards_said};
ghost use Rattle.sessions.specs.Schedule.{passed, scene, turn, turns, within};
ghost use Rattle.sessions.specs.Session.{Accounts, IsPartly, IsPlayed};
ghost use Rattle.sessions.specs.Transcript.{ended, passed_lines};

use crate::answers::apply_and_queue;
use crate::faults::PlayError;
use crate::installation::Installation;
use crate::schedule::{Detail, SLICE_UNITS, first_ready, is_on, update_ready_queue};
use crate::transcript::idle_line;
use cp_dispatch::Policy;
use machine_devices::Event;
use s370_num::DevAddr;
use s370_num::host::{HostWriter, write_all};
use session_script::ScriptEvent;
use std::alloc::{AllocError, Global};
use unit_record::Card;

/// What an event of the script asks for.
#[derive(Clone, Copy)]
pub(crate) enum Asked<'a> {
    /// That this happens to a machine.
    Event(Event<'a>),
    /// That so many turns are dealt.
    Turns(u32),
}

/// Applies the events and deals the turns of a script one after another, writes the lines of each
/// as soon as it is done, updates the serve queue, and puts who logs on at the end of the queue of
/// users, or removes who logs off. An event's lines are written in full, whatever `detail` is.
pub(crate) fn play<I: Installation, W: HostWriter>(
    alloc: Global,
    installation: &mut I,
    policy: &mut Policy,
    detail: Detail,
    events: &[ScriptEvent<'_>],
    writer: &mut W,
) -> Result<(), PlayError>
    requires users { All (λ e. IsOfUser (I.goes.seen installation.old).users (said e)) events.now }
    requires devices { All (λ e. IsOfDevice (I.goes.seen installation.old).users (said e))
        events.now }
    requires dealing { IsOf (I.goes.seen installation.old) policy.old }
    ensures ok { OnOk result
        (IsPlayed I.goes (acts (map said events.now)) (scene installation.old policy.old detail)
        (scene installation.new policy.new detail) (W.contents writer.old)
        (W.contents writer.new)) }
    ensures err { OnErr result
        (IsPartly I.goes (acts (map said events.now)) (scene installation.old policy.old detail)
        installation.new (W.contents writer.old) (W.contents writer.new)) }
    ensures why { Accounts result (I.goes.is_spent installation.old)
        (I.goes.is_spent installation.new)
        (W.HostFile.failures writer.old) (W.HostFile.failures writer.new) }
{
    for event in events {
        let cards = cards_of(alloc, event)?;
        match asked_by(event, &cards) {
            Asked::Event(event) => {
                let user = event.user();
                let was_on = is_on(installation, user);
                apply_and_queue(alloc, installation, policy, Detail::Whole, &event, writer)?;
                let is_on = is_on(installation, user);
                update_ready_queue(policy, user, was_on, is_on);
            }
            Asked::Turns(turns) => deal(alloc, installation, policy, detail, turns, writer)?,
        }
    }
    Ok(())
}

/// Returns the cards of an event that is a deck; of another event none.
fn cards_of(alloc: Global, event: &ScriptEvent<'_>) -> Result<Vec<Card>, AllocError>
    ensures { IfOk result (λ cards. cards.items ≡ cards_said (said event.now)) }
{
    match event {
        ScriptEvent::Deck(_, cards) => cards.to_vec(alloc),
        _ => Ok(Vec::new(alloc)),
    }
}

/// Returns what an event of the script asks for, where these are its cards.
fn asked_by<'b, 'c: 'b>(event: &ScriptEvent<'c>, cards: &'b [Card]) -> Asked<'b>
    requires { cards.now ≡ cards_said (said event.now) }
    ensures { asked_said result ≡ said event.now }
{
    match *event {
        ScriptEvent::Run(user, units) => Asked::Event(Event::Run(user, units)),
        ScriptEvent::Line(user, typed) => Asked::Event(Event::Line(user, typed)),
        ScriptEvent::Tick(user) => Asked::Event(Event::Tick(user)),
        ScriptEvent::Serve(user, device) => {
            Asked::Event(Event::Serve(user, DevAddr::new(device)))
        }
        ScriptEvent::Deck(user, _) => Asked::Event(Event::Deck(user, cards)),
        ScriptEvent::Transfer(user, id, to) => {
            Asked::Event(Event::Transfer(user, u64::from(id), to))
        }
        ScriptEvent::Auto(turns) => Asked::Turns(turns),
    }
}

/// Deals this many turns, one after another, which moves users and programs to the ends of their
/// queues, and writes the lines of each.
fn deal<I: Installation, W: HostWriter>(
    alloc: Global,
    installation: &mut I,
    policy: &mut Policy,
    detail: Detail,
    count: u32,
    writer: &mut W,
) -> Result<(), PlayError>
    requires dealing { IsOf (I.goes.seen installation.old) policy.old }
    ensures ok { OnOk result
        (IsPlayed I.goes (turns count) (scene installation.old policy.old detail)
        (scene installation.new policy.new detail) (W.contents writer.old)
        (W.contents writer.new)) }
    ensures err { OnErr result
        (IsPartly I.goes (turns count) (scene installation.old policy.old detail)
        installation.new (W.contents writer.old) (W.contents writer.new)) }
    ensures why { Accounts result (I.goes.is_spent installation.old)
        (I.goes.is_spent installation.new)
        (W.HostFile.failures writer.old) (W.HostFile.failures writer.new) }
{
    for _turn in 0..count {
        turn(alloc, installation, policy, detail, writer)?;
    }
    Ok(())
}

/// Deals a turn: a slice to the first user in the queue who is ready, and then a serve to the first
/// program in the serve queue; writes the lines of both, or that there was neither.
fn turn<I: Installation, W: HostWriter>(
    alloc: Global,
    installation: &mut I,
    policy: &mut Policy,
    detail: Detail,
    writer: &mut W,
) -> Result<(), PlayError>
    requires dealing { IsOf (I.goes.seen installation.old) policy.old }
    ensures ok { OnOk result (IsPlayed I.goes (turn) (scene installation.old policy.old detail)
        (scene installation.new policy.new detail) (W.contents writer.old)
        (W.contents writer.new)) }
    ensures err { OnErr result (IsPartly I.goes (turn) (scene installation.old policy.old detail)
        installation.new (W.contents writer.old) (W.contents writer.new)) }
    ensures why { Accounts result (I.goes.is_spent installation.old)
        (I.goes.is_spent installation.new)
        (W.HostFile.failures writer.old) (W.HostFile.failures writer.new) }
{
    let had_slice = slice(alloc, installation, policy, detail, writer)?;
    serve(alloc, installation, policy, detail, had_slice, writer)
}

/// Gives a slice to the first user in the queue who is ready, moves those before him and then him
/// to its end, writes the lines, and returns whether there was such a user.
fn slice<I: Installation, W: HostWriter>(
    alloc: Global,
    installation: &mut I,
    policy: &mut Policy,
    detail: Detail,
    writer: &mut W,
) -> Result<bool, PlayError>
    requires dealing { IsOf (I.goes.seen installation.old) policy.old }
    ensures ok { IfOk result
        (λ had. IsPlayed I.goes (Slices ∷ []) (scene installation.old policy.old detail)
        (within had installation.new policy.new detail) (W.contents writer.old)
        (W.contents writer.new)) }
    ensures err { OnErr result
        (IsPartly I.goes (Slices ∷ []) (scene installation.old policy.old detail)
        installation.new (W.contents writer.old) (W.contents writer.new)) }
    ensures why { Accounts result (I.goes.is_spent installation.old)
        (I.goes.is_spent installation.new)
        (W.HostFile.failures writer.old) (W.HostFile.failures writer.new) }
{
    let Some(place) = first_ready(installation, policy.users()) else {
        return Ok(false);
    };
    let user = policy.slice(place);
    let event = Event::Run(user, SLICE_UNITS);
    apply_and_queue(alloc, installation, policy, detail, &event, writer)?;
    Ok(true)
}

/// Moves the first program in the serve queue to its end, serves it and writes its lines; if there
/// is none, and nobody had the slice of the turn, writes that the turn was idle.
fn serve<I: Installation, W: HostWriter>(
    alloc: Global,
    installation: &mut I,
    policy: &mut Policy,
    detail: Detail,
    had_slice: bool,
    writer: &mut W,
) -> Result<(), PlayError>
    requires dealing { IsOf (I.goes.seen installation.old) policy.old }
    ensures ok { OnOk result
        (IsPlayed I.goes (Serves ∷ []) (within had_slice installation.old policy.old detail)
        (scene installation.new policy.new detail) (W.contents writer.old)
        (W.contents writer.new)) }
    ensures err { OnErr result
        (IsPartly I.goes (Serves ∷ []) (within had_slice installation.old policy.old detail)
        installation.new (W.contents writer.old) (W.contents writer.new)) }
    ensures why { Accounts result (I.goes.is_spent installation.old)
        (I.goes.is_spent installation.new)
        (W.HostFile.failures writer.old) (W.HostFile.failures writer.new) }
{
    match policy.serve() {
        Some(program) => {
            let event = Event::Serve(program.user, program.device);
            apply_and_queue(alloc, installation, policy, detail, &event, writer)
        }
        None => pass(detail, had_slice, writer),
    }
}

/// Writes the line of an idle turn, if nobody had its slice and the detail does not leave that line
/// out.
fn pass<W: HostWriter>(detail: Detail, had_slice: bool, writer: &mut W) -> Result<(), PlayError>
    ensures ok { OnOk result
        (Appends (W.contents writer.old) (W.contents writer.new)
        (ended (passed_lines detail had_slice))) }
    ensures err { OnErr result
        (AppendsFront (W.contents writer.old) (W.contents writer.new)
        (ended (passed_lines detail had_slice))) }
    ensures why { (is : Bool)
        → Accounts result is is (W.HostFile.failures writer.old) (W.HostFile.failures writer.new) }
{
    if !had_slice {
        write_all(writer, idle_line(detail))?;
    }
    Ok(())
}
