//! The transcript: the lines of an event and its reply.
ghost use Rattle.std.specs.Prelude.{◌≡◌, ◌++◌, ◌∷◌, ◌<◌, [], IfOk, OnOk, length, map};
ghost use Rattle.user_names.specs.Users.{name_of};
ghost use Rattle.sessions.specs.Installed.{as_said, machine_at, names_of, user_at};
ghost use Rattle.sessions.specs.Schedule.{Idle};
ghost use Rattle.sessions.specs.Transcript.{CutsBack, delivered_lines, ended, ending_lines};
ghost use Rattle.sessions.specs.Transcript.{frames_line, idle_lines, lacking_lines, last_lines};
ghost use Rattle.sessions.specs.Transcript.{queue_lines, ran_line, reason_word, reply_lines};
ghost use Rattle.sessions.specs.Transcript.{said_lines, scant_lines, served_line, served_lines};
ghost use Rattle.sessions.specs.Transcript.{served_word, told_line, end_lines, written_lines};

use crate::installation::Installation;
use crate::schedule::Detail;
use cp_console::printing;
use machine_devices::{Delivered, Delivery, Ended, Event, Reply, UserResponse, deck_line};
use s370_intr::{Ran, Reason};
use s370_num::DevAddr;
use std::alloc::{AllocError, Global};
use user_names::UserNo;

/// Returns the transcript's lines for the reply to an event of this user: what he was shown, what
/// his console printed, a message at another terminal, and how the event ended.
///
/// Each is ended by LF.
#[tactic(auto, using(crate::proofs::Endings::four_ended))]
pub(crate) fn print_reply<I: Installation>(
    alloc: Global,
    installation: &I,
    detail: Detail,
    user: UserNo,
    event: &Event<'_>,
    reply: &Reply,
) -> Result<Vec<u8>, AllocError>
    requires { user < length (I.goes.seen installation.now).users }
    ensures { let seen = user_at (I.goes.seen installation.now) user in
        IfOk result (λ text. text.items
        ≡ ended (reply_lines detail (names_of (I.goes.seen installation.now)) user
        (as_said event.now) seen.devices.reader.decks seen.machine.output reply.now)) }
{
    let mut text = Vec::new(alloc);
    append_response(alloc, &mut text, installation, user, reply.said)?;
    append_written(&mut text, installation, user, reply)?;
    append_message(&mut text, installation, reply.delivered)?;
    append_ending(
        alloc,
        &mut text,
        detail,
        installation.name(user),
        event,
        reply.ended,
    )?;
    Ok(text)
}

/// Appends the lines of what was said to this user: a response, or a line for each of his decks.
fn append_response<I: Installation>(
    alloc: Global,
    out: &mut Vec<u8>,
    installation: &I,
    user: UserNo,
    said: UserResponse,
) -> Result<(), AllocError>
    requires { user < length (I.goes.seen installation.now).users }
    ensures { let names = names_of (I.goes.seen installation.now) in OnOk result
        (out.new.items ≡ out.old.items
        ++ ended (said_lines names (name_of names user)
        (user_at (I.goes.seen installation.now) user).devices.reader.decks said)) }
{
    match said {
        UserResponse::Said(response) => {
            let text = printing::reply(alloc, &response)?;
            append_line(out, installation.name(user), &text)
        }
        UserResponse::Files => {
            let names = names(alloc, installation)?;
            append_decks(alloc, out, installation, &names, user)
        }
        UserResponse::Nothing => Ok(()),
    }
}

/// Returns a new list of the names of all users.
pub(crate) fn names<I: Installation>(
    alloc: Global,
    installation: &I,
) -> Result<Vec<Vec<u8>>, AllocError>
    ensures { IfOk result (λ names. map (λ name. name.items) names.items
        ≡ names_of (I.goes.seen installation.now)) }
{
    let mut names = Vec::new(alloc);
    for number in 0..installation.users() {
        let name = installation.name(UserNo::new(number as u8));
        names.push(name.to_vec(alloc)?)?;
    }
    Ok(names)
}

/// Appends a line for each deck of a user's reader, in their order.
#[tactic(auto, using(crate::proofs::Decks::one_more, crate::proofs::Decks::no_more))]
pub(crate) fn append_decks<I: Installation>(
    alloc: Global,
    out: &mut Vec<u8>,
    installation: &I,
    names: &[Vec<u8>],
    user: UserNo,
) -> Result<(), AllocError>
    requires user { user < length (I.goes.seen installation.now).users }
    requires names { map (λ name. name.items) names.now ≡ names_of (I.goes.seen installation.now) }
    ensures { let names = names_of (I.goes.seen installation.now) in OnOk result
        (out.new.items ≡ out.old.items
        ++ ended (queue_lines names (name_of names user)
        (user_at (I.goes.seen installation.now) user).devices.reader.decks)) }
{
    let devices = installation.devices(user);
    for index in 0..devices.decks() {
        let Some(deck) = devices.deck(index) else {
            unreachable!();
        };
        let line = deck_line(alloc, names, &deck)?;
        append_line(out, installation.name(user), &line)?;
    }
    Ok(())
}

/// Appends the lines that a user's console has printed by an event, if that was a serve.
fn append_written<I: Installation>(
    out: &mut Vec<u8>,
    installation: &I,
    user: UserNo,
    reply: &Reply,
) -> Result<(), AllocError>
    requires { user < length (I.goes.seen installation.now).users }
    ensures { OnOk result (out.new.items ≡ out.old.items
        ++ ended (written_lines (name_of (names_of (I.goes.seen installation.now)) user)
        reply.now.lines (machine_at (I.goes.seen installation.now) user).output
        reply.now.ended)) }
{
    match reply.ended {
        Ended::Served(_) => append_last_lines(out, installation, user, reply.lines),
        Ended::Ran(_) | Ended::Done | Ended::FramesOut => Ok(()),
    }
}

/// Appends the last so many lines that the console of this user has printed.
#[tactic(auto, using(crate::proofs::Written::one_more, crate::proofs::Written::no_more))]
fn append_last_lines<I: Installation>(
    out: &mut Vec<u8>,
    installation: &I,
    user: UserNo,
    count: usize,
) -> Result<(), AllocError>
    requires { user < length (I.goes.seen installation.now).users }
    ensures { OnOk result (out.new.items ≡ out.old.items
        ++ ended (map (told_line (name_of (names_of (I.goes.seen installation.now)) user))
        (last_lines count (machine_at (I.goes.seen installation.now) user).output))) }
{
    let printed = installation.printed(user);
    for index in printed.saturating_sub(count)..printed {
        let Some(line) = installation.console_output(user, index) else {
            unreachable!();
        };
        append_line(out, installation.name(user), line)?;
    }
    Ok(())
}

/// Appends the line of a message at its receiver's terminal, if one was delivered.
fn append_message<I: Installation>(
    out: &mut Vec<u8>,
    installation: &I,
    delivered: Option<Delivered>,
) -> Result<(), AllocError>
    ensures { OnOk result (out.new.items ≡ out.old.items
        ++ ended (delivered_lines (names_of (I.goes.seen installation.now)) delivered)) }
{
    let Some(Delivered { to, what }) = delivered else {
        return Ok(());
    };
    match what {
        Delivery::Deck(_) => Ok(()),
        Delivery::Message(line) => append_line(out, installation.name(to), line.as_slice()),
    }
}

/// Appends the line `u: text`.
fn append_line(out: &mut Vec<u8>, name: &[u8], text: &[u8]) -> Result<(), AllocError>
    ensures { OnOk result (out.new.items ≡ out.old.items
        ++ ended (told_line name.now text.now ∷ [])) }
{
    out.extend_from_slice(name)?;
    out.extend_from_slice(b": ")?;
    out.extend_from_slice(text)?;
    out.push(b'\n')?;
    Ok(())
}

/// Appends the line of how an event ended, if a full transcript has one for it.
fn append_full_ending(
    alloc: Global,
    out: &mut Vec<u8>,
    name: &[u8],
    event: &Event<'_>,
    ending: Ended,
) -> Result<(), AllocError>
    ensures { OnOk result (out.new.items ≡ out.old.items
        ++ ended (ending_lines name.now (as_said event.now) ending)) }
{
    match ending {
        Ended::Ran(ran) => append_ran(alloc, out, name, ran),
        Ended::Served(done) => append_serve(alloc, out, name, event, done),
        Ended::Done => Ok(()),
        Ended::FramesOut => append_frames_out(out, name),
    }
}

/// Appends the line of how the serve of an event ended; nothing for another event.
fn append_serve(
    alloc: Global,
    out: &mut Vec<u8>,
    name: &[u8],
    event: &Event<'_>,
    done: bool,
) -> Result<(), AllocError>
    ensures { OnOk result (out.new.items ≡ out.old.items
        ++ ended (served_lines name.now (as_said event.now) done)) }
{
    match event {
        Event::Serve(_, device) => append_served(alloc, out, name, *device, done),
        Event::Run(_, _)
        | Event::Line(_, _)
        | Event::Tick(_)
        | Event::Deck(_, _)
        | Event::Transfer(_, _, _) => Ok(()),
    }
}

/// Appends the line `= u SERVED addr`, or `= u IDLE addr`.
fn append_served(
    alloc: Global,
    out: &mut Vec<u8>,
    name: &[u8],
    device: DevAddr,
    done: bool,
) -> Result<(), AllocError>
    ensures { OnOk result (out.new.items ≡ out.old.items
        ++ ended (served_line name.now device done ∷ [])) }
{
    let device = device.to_string(alloc)?;
    out.extend_from_slice(b"= ")?;
    out.extend_from_slice(name)?;
    out.extend_from_slice(served_word(done))?;
    out.extend_from_slice(device.as_bytes())?;
    out.push(b'\n')?;
    Ok(())
}

/// Returns the word for whether a served device was working: `SERVED` or `IDLE`, between blanks.
fn served_word(done: bool) -> &'static [u8]
    ensures { result.now ≡ served_word done }
{
    if done { b" SERVED " } else { b" IDLE " }
}

/// Appends the line `= u units REASON`.
fn append_ran(alloc: Global, out: &mut Vec<u8>, name: &[u8], ran: Ran) -> Result<(), AllocError>
    ensures { OnOk result (out.new.items ≡ out.old.items ++ ended (ran_line name.now ran ∷ [])) }
{
    let units = ran.units.to_string(alloc)?;
    out.extend_from_slice(b"= ")?;
    out.extend_from_slice(name)?;
    out.push(b' ')?;
    out.extend_from_slice(units.as_bytes())?;
    out.push(b' ')?;
    out.extend_from_slice(reason_word(ran.reason))?;
    out.push(b'\n')?;
    Ok(())
}

/// Appends the line of how an event ended, if a transcript of this detail has one for it.
fn append_ending(
    alloc: Global,
    out: &mut Vec<u8>,
    detail: Detail,
    name: &[u8],
    event: &Event<'_>,
    ending: Ended,
) -> Result<(), AllocError>
    ensures { OnOk result (out.new.items ≡ out.old.items
        ++ ended (end_lines detail name.now (as_said event.now) ending)) }
{
    match detail {
        Detail::Whole => append_full_ending(alloc, out, name, event, ending),
        Detail::Terminals => append_terse_ending(alloc, out, name, ending),
    }
}

/// Appends the line of how an event ended, if it was out of frames.
fn append_terse_ending(
    alloc: Global,
    out: &mut Vec<u8>,
    name: &[u8],
    ending: Ended,
) -> Result<(), AllocError>
    ensures { OnOk result (out.new.items ≡ out.old.items ++ ended (scant_lines name.now ending)) }
{
    match ending {
        Ended::Ran(ran) => append_run_out_of_frames(alloc, out, name, ran),
        Ended::FramesOut => append_frames_out(out, name),
        Ended::Served(_) | Ended::Done => Ok(()),
    }
}

/// Appends the line of how a run ended, if it was out of frames.
fn append_run_out_of_frames(
    alloc: Global,
    out: &mut Vec<u8>,
    name: &[u8],
    ran: Ran,
) -> Result<(), AllocError>
    ensures { OnOk result (out.new.items ≡ out.old.items
        ++ ended (lacking_lines name.now ran ran.reason)) }
{
    match ran.reason {
        Reason::FramesOut => append_ran(alloc, out, name, ran),
        Reason::Count | Reason::Wait | Reason::DisabledWait | Reason::EcMode | Reason::Stopped =>
            Ok(()),
    }
}

/// Returns the line of a turn that had neither slice nor serve, or none if the detail leaves it
/// out.
pub(crate) fn idle_line(detail: Detail) -> &'static [u8]
    ensures { result.now ≡ ended (idle_lines detail) }
{
    match detail {
        Detail::Whole => b"= IDLE\n",
        Detail::Terminals => &[],
    }
}

/// Appends the line `= u FRAMES`.
fn append_frames_out(out: &mut Vec<u8>, name: &[u8]) -> Result<(), AllocError>
    ensures { OnOk result (out.new.items ≡ out.old.items ++ ended (frames_line name.now ∷ [])) }
{
    out.extend_from_slice(b"= ")?;
    out.extend_from_slice(name)?;
    out.extend_from_slice(b" FRAMES\n")?;
    Ok(())
}

/// Returns the word for why a run did no further unit.
fn reason_word(reason: Reason) -> &'static [u8]
    ensures { result.now ≡ reason_word reason }
{
    match reason {
        Reason::Count => b"COUNT",
        Reason::Wait => b"WAIT",
        Reason::DisabledWait => b"DISABLEDWAIT",
        Reason::EcMode => b"ECMODE",
        Reason::Stopped => b"STOPPED",
        Reason::FramesOut => b"FRAMES",
    }
}

/// States that a transcript cut at its LFs is the lines that were reported, one for one, if no text
/// holds an LF.
pub fn cuts_back()
    ensures { CutsBack }
{}
