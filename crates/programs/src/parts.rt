//! The requests of an input, and what the program writes for each.
//!
//! A part of a script is a line with the decimal number of its bytes, and then these, whole lines
//! of a script. After the lines that come of a part follow lines that begin with `>`, as none of an
//! event does: the files that it has closed for the operator, each with its entries after `> |`;
//! who has logged on or off and whose machine was started or stopped; and that the part is done; or
//! that a line of it is refused, and nothing of it was done.
//!
//! The line `END` asks for the end. The line `SAVE` asks for the state of the session: the answer
//! is a line with its size, its bytes, and the line `> DONE`. The line `HOLDS` asks what users hold:
//! the answer is a line for each, with the cards of his punch's open file and the lines of his
//! printer's, and the line `> DONE`. The line `FILES` asks for the decks of readers: the answer has
//! the lines that `QUERY FILES` shows each user, and the line `> DONE`. The line `VIEW` with the
//! number of a user asks for what the state has of him, of the frames and of his storage: the
//! answer is as that to `SAVE`. The line `SEEK`, a line with a size and these bytes run single
//! units until one has left what is sought: the answer is the transcript of these units, the line
//! `> FOUND` if it has, and the line `> DONE`. The line `STATE`, a line with a size and these bytes
//! let the session go on from that state.
//!
//! ```text
//! 13
//! LINE A LOGON
//! ```
//!
//! ```text
//! A: LOGON OK
//! > ON A
//! > DONE
//! ```
ghost use Rattle.std.specs.Prelude.{◌≡◌, ◌++◌, ◌∷◌, ◌⊎◌, ℕ, List, [], IfErr, IfOk, OnErr, OnOk};
ghost use Rattle.std.specs.Prelude.{length};
ghost use Rattle.std.specs.Prelude.{true};
ghost use Rattle.std.specs.Io.KnownBytes.{Appends};
ghost use Rattle.s370_num.specs.Host.{AppendsFront, Counts};
ghost use Rattle.sessions.specs.Runs.{IsRestored};
ghost use Rattle.sessions.specs.Transcript.{ended};
ghost use Rattle.programs.specs.Parts.{Answers, AnswersPart, AnswersSeek, InputAccounts};
ghost use Rattle.programs.specs.Parts.{IsAnsweredPartly, IsSeekAnsweredPartly};
ghost use Rattle.programs.specs.Parts.{IsBrokenOff, IsCausedBy, IsLeft, IsStateGiven};
ghost use Rattle.programs.specs.Parts.{IsPartAnsweredPartly, IsRestoredPartly};
ghost use Rattle.programs.specs.Parts.{IsSavedAs, IsToldPartly, IsViewedAs, PartAccounts};
ghost use Rattle.programs.specs.Parts.{done_line, held_text, idle_lines, news_since, readers_text};
ghost use Rattle.programs.specs.Parts.{seek_lines, told_state};

use crate::faults::Failure;
use crate::requests::{FollowRequest, NextRequest, next_input};
use machine_panel::Mode;
use s370_num::host::{HostFault, HostReader, HostWriter, write_all};
use sessions::{Detail, Follower, Installation, Part, Seeking};
use std::alloc::{AllocError, Global};

/// What is left of an input that was followed.
pub enum Left<I> {
    /// The end was asked for: the session is over.
    ProgramEnd(I),
    /// The input has ended without that.
    Cut(I),
}

/// Answers the requests of an input until it asks for the end or has no more, closes the session,
/// and returns the installation and which of both it was.
///
/// Each answer is written, and not held back, before the next request is read.
///
/// # Errors
///
/// A file that fails and refused memory end it, and so do an input that has no requests (`File(1)`)
/// and a state that is not one of this installation (`State`). What was answered before is written.
pub fn follow_parts<R: HostReader, W: HostWriter, I: Installation + Drop>(
    alloc: Global,
    installation: I,
    detail: Detail,
    reader: &mut R,
    writer: &mut W,
) -> Result<Left<I>, Failure>
    ensures ok { IfOk result
        (λ left. IsLeft I.goes detail installation left (R.remaining reader.old)
        (R.remaining reader.new)
        (W.contents writer.old) (W.contents writer.new)) }
    ensures flushed { OnOk result (W.held writer.new ≡ []) }
    ensures err { IfErr result
        (IsBrokenOff I.goes detail installation (R.remaining reader.old) (R.remaining reader.new)
        (W.contents writer.old) (W.contents writer.new)
        (record {
          reader_old = R.HostFile.failures reader.old;
          reader_new = R.HostFile.failures reader.new;
          writer_old = W.HostFile.failures writer.old;
          writer_new = W.HostFile.failures writer.new;
        })) }
    ensures told { W.held writer.old ≡ []
        → (R.HostFile.failures reader.new ≡ R.HostFile.failures reader.old → ⊥)
        → W.held writer.new ≡ [] }
    ensures why { InputAccounts result (R.HostFile.failures reader.old)
        (R.HostFile.failures reader.new)
        (W.HostFile.failures writer.old) (W.HostFile.failures writer.new) }
{
    let mut follower = Follower::begin(alloc, installation, detail)?;
    for _ in 0..u64::MAX {
        match next_input(alloc, reader)? {
            NextRequest::Asked(request) => follower = answer(
                alloc, follower, detail, request, writer,
            )?,
            NextRequest::End => return Ok(Left::ProgramEnd(follower.close(writer)?)),
            NextRequest::Nothing => return Ok(Left::Cut(follower.close(writer)?)),
        }
    }
    // No input has so many parts.
    Err(Failure::File(1))
}

/// Does what a request asks: a part, to write the state, that of a user, what users hold or the
/// decks of their readers, or to go on from a state; writes the answer, flushes the writer and
/// returns the follower after it.
fn answer<W: HostWriter, I: Installation + Drop>(
    alloc: Global,
    follower: Follower<I>,
    detail: Detail,
    request: FollowRequest,
    writer: &mut W,
) -> Result<Follower<I>, Failure>
    requires { follower.detail ≡ detail }
    ensures ok { IfOk result
        (λ left. (answer : List ℕ) × Answers I.goes follower request answer left
        × Appends (W.contents writer.old) (W.contents writer.new) answer) }
    ensures detail { IfOk result (λ left. left.detail ≡ detail) }
    ensures flushed { OnOk result (W.held writer.new ≡ []) }
    ensures err { OnErr result
        (IsAnsweredPartly I.goes follower request (W.contents writer.old) (W.contents writer.new)) }
    ensures cause { IfErr result (IsCausedBy (IsStateGiven request)
        (I.goes.is_spent follower.world ≡ true)) }
    ensures why { PartAccounts result (W.HostFile.failures writer.old)
        (W.HostFile.failures writer.new) }
{
    match request {
        FollowRequest::Part(part) => follow_part(alloc, follower, detail, &part, writer),
        FollowRequest::Save => {
            save(alloc, &follower, writer)?;
            Ok(follower)
        }
        FollowRequest::Holds => {
            tell_held(alloc, &follower, writer)?;
            Ok(follower)
        }
        FollowRequest::Files => {
            tell_readers(alloc, &follower, writer)?;
            Ok(follower)
        }
        FollowRequest::View(user) => {
            view(alloc, &follower, user, writer)?;
            Ok(follower)
        }
        FollowRequest::Seek(text) => seek(alloc, follower, &text, writer),
        FollowRequest::State(state) => restore_state(alloc, follower, &state, writer),
    }
}

/// Writes the state between a line with its size and the line `> DONE`, or the line `> REFUSED 0`
/// if there are no states, and flushes the writer.
fn save<W: HostWriter, I: Installation + Drop>(
    alloc: Global,
    follower: &Follower<I>,
    writer: &mut W,
) -> Result<(), Failure>
    ensures ok { OnOk result ((answer : List ℕ) × IsSavedAs I.goes follower.now answer
        × Appends (W.contents writer.old) (W.contents writer.new) answer) }
    ensures flushed { OnOk result (W.held writer.new ≡ []) }
    ensures err { OnErr result
        (IsToldPartly (IsSavedAs I.goes follower.now) (W.contents writer.old)
        (W.contents writer.new)) }
    ensures cause { IfErr result (IsCausedBy ⊥ ⊥) }
    ensures why { PartAccounts result (W.HostFile.failures writer.old)
        (W.HostFile.failures writer.new) }
{
    let mut state = Vec::new(alloc);
    let is_there = follower.save(&mut state)?;
    tell_state(alloc, is_there, &state, writer)
}

/// Writes the state of the user of this number as [`save`] writes that of all, or the line `>
/// REFUSED 0` if there is none, and flushes the writer.
fn view<W: HostWriter, I: Installation + Drop>(
    alloc: Global,
    follower: &Follower<I>,
    user: u32,
    writer: &mut W,
) -> Result<(), Failure>
    ensures ok { OnOk result ((answer : List ℕ) × IsViewedAs I.goes follower.now user answer
        × Appends (W.contents writer.old) (W.contents writer.new) answer) }
    ensures flushed { OnOk result (W.held writer.new ≡ []) }
    ensures err { OnErr result
        (IsToldPartly (IsViewedAs I.goes follower.now user) (W.contents writer.old)
        (W.contents writer.new)) }
    ensures cause { IfErr result (IsCausedBy ⊥ ⊥) }
    ensures why { PartAccounts result (W.HostFile.failures writer.old)
        (W.HostFile.failures writer.new) }
{
    let mut state = Vec::new(alloc);
    let is_there = follower.save_user(user, &mut state)?;
    tell_state(alloc, is_there, &state, writer)
}

/// Writes a state, if there is one, between a line with its size and the line `> DONE`, else the
/// line `> REFUSED 0`, and flushes the writer.
fn tell_state<W: HostWriter>(
    alloc: Global,
    is_there: bool,
    state: &[u8],
    writer: &mut W,
) -> Result<(), Failure>
    ensures ok { OnOk result (Appends (W.contents writer.old) (W.contents writer.new)
        (told_state is_there state.now)) }
    ensures flushed { OnOk result (W.held writer.new ≡ []) }
    ensures err { OnErr result ((W.contents writer.new ≡ W.contents writer.old)
        ⊎ AppendsFront (W.contents writer.old) (W.contents writer.new)
        (told_state is_there state.now)) }
    ensures cause { IfErr result (IsCausedBy ⊥ ⊥) }
    ensures why { PartAccounts result (W.HostFile.failures writer.old)
        (W.HostFile.failures writer.new) }
{
    if !is_there {
        write_flushed(writer, b"> REFUSED 0\n")?;
        return Ok(());
    }
    let size = state.len();
    let head = format!(in alloc; "> STATE {size}\n")?;
    write_all_flushed(writer, head.as_bytes(), state, b"> DONE\n")?;
    Ok(())
}

/// Writes a line for each user with what he holds by files that he has not closed, and the line
/// `> DONE`, and flushes the writer.
fn tell_held<W: HostWriter, I: Installation + Drop>(
    alloc: Global,
    follower: &Follower<I>,
    writer: &mut W,
) -> Result<(), Failure>
    ensures ok { OnOk result
        (Appends (W.contents writer.old) (W.contents writer.new) (held_text I.goes follower.now)) }
    ensures flushed { OnOk result (W.held writer.new ≡ []) }
    ensures err { OnErr result (AppendsFront (W.contents writer.old) (W.contents writer.new)
        (held_text I.goes follower.now)) }
    ensures cause { IfErr result (IsCausedBy ⊥ ⊥) }
    ensures why { PartAccounts result (W.HostFile.failures writer.old)
        (W.HostFile.failures writer.new) }
{
    let lines = follower.held(alloc)?;
    tell_lines(&lines, writer)
}

/// Writes the lines that `QUERY FILES` shows each user, and the line `> DONE`, and flushes the
/// writer.
fn tell_readers<W: HostWriter, I: Installation + Drop>(
    alloc: Global,
    follower: &Follower<I>,
    writer: &mut W,
) -> Result<(), Failure>
    ensures ok { OnOk result (Appends (W.contents writer.old) (W.contents writer.new)
        (readers_text I.goes follower.now)) }
    ensures flushed { OnOk result (W.held writer.new ≡ []) }
    ensures err { OnErr result (AppendsFront (W.contents writer.old) (W.contents writer.new)
        (readers_text I.goes follower.now)) }
    ensures cause { IfErr result (IsCausedBy ⊥ ⊥) }
    ensures why { PartAccounts result (W.HostFile.failures writer.old)
        (W.HostFile.failures writer.new) }
{
    let lines = follower.readers(alloc)?;
    tell_lines(&lines, writer)
}

/// Writes lines that answer a question, and the line `> DONE`, and flushes the writer.
fn tell_lines<W: HostWriter>(lines: &[u8], writer: &mut W) -> Result<(), Failure>
    ensures ok { OnOk result (Appends (W.contents writer.old) (W.contents writer.new)
        (lines.now ++ ended (done_line ∷ []))) }
    ensures flushed { OnOk result (W.held writer.new ≡ []) }
    ensures err { OnErr result (AppendsFront (W.contents writer.old) (W.contents writer.new)
        (lines.now ++ ended (done_line ∷ []))) }
    ensures cause { IfErr result (IsCausedBy ⊥ ⊥) }
    ensures why { PartAccounts result (W.HostFile.failures writer.old)
        (W.HostFile.failures writer.new) }
{
    write_all(writer, lines)?;
    write_flushed(writer, b"> DONE\n")?;
    Ok(())
}

/// Seeks what a text asks for, which writes the transcript lines of its units, then writes whether
/// it was found, and the line `> DONE`, or the line `> REFUSED 0` if the text does not ask for
/// anything, and flushes the writer.
fn seek<W: HostWriter, I: Installation + Drop>(
    alloc: Global,
    follower: Follower<I>,
    text: &[u8],
    writer: &mut W,
) -> Result<Follower<I>, Failure>
    ensures ok { IfOk result
        (λ left. (answer : List ℕ) × AnswersSeek I.goes follower text.now answer left
        × Appends (W.contents writer.old) (W.contents writer.new) answer) }
    ensures detail { IfOk result (λ left. left.detail ≡ follower.detail) }
    ensures flushed { OnOk result (W.held writer.new ≡ []) }
    ensures err { OnErr result
        (IsSeekAnsweredPartly I.goes follower text.now (W.contents writer.old)
        (W.contents writer.new)) }
    ensures cause { IfErr result (IsCausedBy ⊥ (I.goes.is_spent follower.world ≡ true)) }
    ensures why { PartAccounts result (W.HostFile.failures writer.old)
        (W.HostFile.failures writer.new) }
{
    match follower.seek(alloc, text, writer)? {
        Seeking::Done(follower, found) => {
            write_flushed(writer, seek_report(found))?;
            Ok(follower)
        }
        Seeking::Refused(follower) => {
            write_flushed(writer, b"> REFUSED 0\n")?;
            Ok(follower)
        }
    }
}

/// Returns the line `> FOUND`, if what is sought was found, and the line `> DONE`.
fn seek_report(found: bool) -> &'static [u8]
    ensures { result.now ≡ ended (seek_lines found) }
{
    if found {
        b"> FOUND\n> DONE\n"
    } else {
        b"> DONE\n"
    }
}

/// Returns the follower that a state restores, writes the line `> DONE` and flushes the writer; an
/// error, and no line, if it is no state of this follower.
fn restore_state<W: HostWriter, I: Installation + Drop>(
    alloc: Global,
    follower: Follower<I>,
    state: &[u8],
    writer: &mut W,
) -> Result<Follower<I>, Failure>
    ensures ok { IfOk result (λ left. IsRestored I.goes follower state.now left
        × Appends (W.contents writer.old) (W.contents writer.new) (ended (done_line ∷ []))) }
    ensures flushed { OnOk result (W.held writer.new ≡ []) }
    ensures err { OnErr result
        (IsRestoredPartly I.goes follower state.now (W.contents writer.old)
        (W.contents writer.new)) }
    ensures cause { IfErr result (IsCausedBy (Unit {0}) ⊥) }
    ensures why { PartAccounts result (W.HostFile.failures writer.old)
        (W.HostFile.failures writer.new) }
{
    let follower = follower.restored(alloc, state)?;
    write_flushed(writer, b"> DONE\n")?;
    Ok(follower)
}

/// Does a part, which writes its transcript lines, then writes what it reports, or which line of it
/// is refused, and flushes the writer.
fn follow_part<W: HostWriter, I: Installation + Drop>(
    alloc: Global,
    follower: Follower<I>,
    detail: Detail,
    part: &[u8],
    writer: &mut W,
) -> Result<Follower<I>, Failure>
    requires { follower.detail ≡ detail }
    ensures ok { IfOk result
        (λ left. (answer : List ℕ) × AnswersPart I.goes follower part.now answer left
        × Appends (W.contents writer.old) (W.contents writer.new) answer) }
    ensures detail { IfOk result (λ left. left.detail ≡ detail) }
    ensures flushed { OnOk result (W.held writer.new ≡ []) }
    ensures err { OnErr result
        (IsPartAnsweredPartly I.goes follower part.now (W.contents writer.old)
        (W.contents writer.new)) }
    ensures cause { IfErr result (IsCausedBy ⊥ (I.goes.is_spent follower.world ≡ true)) }
    ensures why { PartAccounts result (W.HostFile.failures writer.old)
        (W.HostFile.failures writer.new) }
{
    // There are as many users as machines.
    let _users = follower.installation().users();
    let closed = follower.installation().files();
    let modes = follower.modes(alloc)?;
    match follower.part(alloc, part, writer)? {
        Part::Done(mut follower) => {
            let reported = part_report(alloc, &follower, detail, closed, &modes)?;
            write_flushed(writer, &reported)?;
            follower.forget_files(closed);
            Ok(follower)
        }
        Part::Refused(follower, line) => {
            let reported = format!(in alloc; "> REFUSED {line}\n")?;
            write_flushed(writer, reported.as_bytes())?;
            Ok(follower)
        }
    }
}

/// Returns the lines that a part which was done reports: the files that it closed, who logged on or
/// off, runs or has stopped, `> IDLE` if all wait and the transcript is one of terminals, and `>
/// DONE`.
fn part_report<I: Installation + Drop>(
    alloc: Global,
    follower: &Follower<I>,
    detail: Detail,
    closed: usize,
    modes: &[Mode],
) -> Result<Vec<u8>, AllocError>
    requires { length modes.now ≡ length (I.goes.seen follower.now.world).users }
    ensures { IfOk result (λ reported. reported.items
        ≡ ended (news_since I.goes detail closed modes.now follower.now)) }
{
    // There are as many users as machines.
    let _users = follower.installation().users();
    let mut reported = follower.closed_since(alloc, closed)?;
    let changes = follower.changes_since(alloc, modes)?;
    reported.extend_from_slice(&changes)?;
    reported.extend_from_slice(idle_line(detail, follower.is_idle()))?;
    reported.extend_from_slice(b"> DONE\n")?;
    Ok(reported)
}

/// Returns the line `> IDLE` if `is_idle` is true and the transcript is one of terminals, else
/// none.
fn idle_line(detail: Detail, is_idle: bool) -> &'static [u8]
    ensures { result.now ≡ ended (idle_lines detail is_idle) }
{
    match (detail, is_idle) {
        (Detail::Terminals, true) => b"> IDLE\n",
        (Detail::Terminals, false) | (Detail::Whole, true) | (Detail::Whole, false) => &[],
    }
}

/// Writes these lines, and flushes the writer.
fn write_flushed<W: HostWriter>(writer: &mut W, reported: &[u8]) -> Result<(), HostFault>
    ensures ok { OnOk result
        (Appends (W.contents writer.old) (W.contents writer.new) reported.now) }
    ensures err { OnErr result
        (AppendsFront (W.contents writer.old) (W.contents writer.new) reported.now) }
    ensures flushed { OnOk result (W.held writer.new ≡ []) }
    ensures counts { Counts (W.HostFile.failures writer.old) (W.HostFile.failures writer.new)
        result }
{
    write_all(writer, reported)?;
    writer.flush()
}

/// Writes three texts one after another, and flushes the writer.
fn write_all_flushed<W: HostWriter>(
    writer: &mut W,
    first: &[u8],
    second: &[u8],
    third: &[u8],
) -> Result<(), HostFault>
    ensures ok { OnOk result (Appends (W.contents writer.old) (W.contents writer.new)
        (first.now ++ second.now ++ third.now)) }
    ensures err { OnErr result (AppendsFront (W.contents writer.old) (W.contents writer.new)
        (first.now ++ second.now ++ third.now)) }
    ensures flushed { OnOk result (W.held writer.new ≡ []) }
    ensures counts { Counts (W.HostFile.failures writer.old) (W.HostFile.failures writer.new)
        result }
{
    write_all(writer, first)?;
    write_all(writer, second)?;
    write_flushed(writer, third)
}
