//! What the program makes of each line.
ghost use Rattle.std.specs.Prelude.{◌≡◌, ◌<◌, ◌≤◌, ◌^◌, ◌++◌, [], length, true, false, IfOk, List};
ghost use Rattle.std.specs.Prelude.{count_by};
ghost use Rattle.std.specs.List.{filter};
ghost use Rattle.std.specs.Result.{OnOk};
ghost use Rattle.logon_desk.specs.Desk.{Does, Event};
ghost use Rattle.logon_desk_cli.specs.Answered.{AreEvents, Begins, IsAnswered, TakesFrame};
ghost use Rattle.logon_desk_cli.specs.Answered.{TakesLine, answer, came_at, is_read};
ghost use Rattle.logon_desk_cli.specs.Answered.{read_lines, still_waits};
ghost use Rattle.logon_desk_cli.specs.Events.{MakesRoom, MakesRoomFor, all_served, given, is_for};
ghost use Rattle.logon_desk_cli.specs.Events.{is_open, run};
ghost use Rattle.logon_desk_cli.specs.Events.{served, takes, takes_next};
ghost use Rattle.logon_desk_cli.specs.Printed.{printed};

use crate::faults::DeskFailure;
use crate::frame::{Frame, FrameError, TimedFrame, frame_of};
use crate::printing::{print, print_number};
use logon_desk::{DeskAction, LogonDesk, MOST_WAITING, Outputs};
use program_host::{ProcessHost, ProgramEnd, ProgramHost, finish, wrong_use};
use std::alloc::{AllocError, Global};
use std::fs;
use std::io::{BufRead, BufReader};
use std::marker::Model;
use std::rt::{Env, Files};
use terminal_lines::Bytes;
use user_names::{MOST_USERS, UserNo};

/// The most that are about to log on at once.
const MOST_STRANGERS: usize = 80;

/// The most places for connections.
const MOST_PLACES: usize = 1024;

/// Runs the logon desk on the lines of the file that the argument after the part's name names, or of
/// standard input, and writes what it does to standard output; reports a failure on standard error.
pub fn program<R: AllocGlobal + Env + Files + Input + Print + Eprint>(
    rt: &R,
) -> ProgramEnd<DeskFailure> {
    let mut host = ProcessHost::new(rt);
    let ended = run(rt, &mut host);
    finish(rt.alloc(), &mut host, ended)
}

/// Takes the lines of the file that the arguments name, or of standard input. A wrong use is
/// reported here.
fn run<R: AllocGlobal + Env + Files + Input + Print + Eprint>(
    rt: &R,
    host: &mut ProcessHost<'_, R>,
) -> Result<(), DeskFailure> {
    let alloc = rt.alloc();
    let words = match host.words(alloc) {
        Ok(words) => words,
        Err(error) => return Err(wrong_use(host, &error, "")),
    };
    match words.as_slice() {
        [_, path, ..] => take_lines(rt, BufReader::new(alloc, fs::open(rt, path.as_str())?)?),
        _ => take_lines(rt, BufReader::new(alloc, rt.reader())?),
    }
}

/// Takes lines and writes on standard output what the desk does for each, until they end or one is
/// malformed or does not fit.
fn take_lines<R: AllocGlobal + Print, B: BufRead + Drop>(
    rt: &R,
    reader: B,
) -> Result<(), DeskFailure> {
    let alloc = rt.alloc();
    let mut session = Session::new(alloc);
    for line in reader.lines(alloc) {
        let line = line?;
        let is_read = session.take(alloc, line.as_bytes())?;
        rt.write_all(session.printed())?;
        session.forget();
        if !is_read {
            break;
        }
    }
    Ok(())
}

/// The program between two lines.
#[derive(Drop)]
pub struct Session {
    names: Vec<Bytes>,
    desk: Option<LogonDesk>,
    reading: Vec<usize>,
    text: Bytes,
}

impl Model for Session {
    ghost use Rattle.logon_desk_cli.specs.Answered.{Program};

    ghost Value = { Program };

    ghost view = { λ s. record {
      names = s.names.items;
      desk = s.desk;
      reading = s.reading.items;
      text = s.text;
    } };
}

impl Session {
    /// Returns a session before its first line, without users and without a desk.
    pub fn new(alloc: Global) -> Session
        ensures { result ≡ Rattle.logon_desk_cli.specs.Answered.nothing_read }
    {
        Session {
            names: Vec::new(alloc),
            desk: None,
            reading: Vec::new(alloc),
            text: Bytes::new(alloc),
        }
    }

    /// Returns the text that is to be written.
    pub fn printed(&self) -> &[u8]
        ensures { result.now ≡ self.now.text }
    {
        self.text.as_slice()
    }

    /// Removes the text, after it was written.
    pub fn forget(&mut self)
        ensures { self.new ≡ record self.old { text = [] } }
    {
        self.text.clear();
    }

    /// Does what a line says, and appends the lines for what the desk does to the text; false if
    /// the line is malformed or does not fit here.
    ///
    /// # Errors
    ///
    /// `AllocError` if memory is refused; what this is then is not specified.
    pub fn take(&mut self, alloc: Global, line: &[u8]) -> Result<bool, AllocError>
        ensures { IfOk result (λ taken. TakesLine self.old line.now taken self.new) }
    {
        match frame_of(alloc, line) {
            Ok(TimedFrame { time, frame }) => self.take_frame(alloc, time, frame),
            Err(FrameError::Memory) => Err(AllocError),
            Err(FrameError::Faulty) => Ok(false),
        }
    }

    /// Does what a frame says, and appends the lines for what the desk does to the text; false if
    /// it does not fit here.
    fn take_frame(&mut self, alloc: Global, now: u64, frame: Frame) -> Result<bool, AllocError>
        requires { now < 2 ^ 62 }
        ensures { IfOk result (λ taken. TakesFrame self.old now frame taken self.new) }
    {
        match &mut self.desk {
            Some(desk) => {
                if !is_for(desk, &frame) {
                    return Ok(false);
                }
                answer(alloc, desk, now, &frame, &mut self.reading, &mut self.text)?;
                Ok(true)
            }
            None => self.begin(alloc, frame),
        }
    }

    /// Takes a frame before there is a desk: adds a user, or makes the desk with so many places;
    /// false for another frame, for too many places, or for a user too many, who is added all the
    /// same.
    fn begin(&mut self, alloc: Global, frame: Frame) -> Result<bool, AllocError>
        ensures { IfOk result (λ taken. Begins self.old frame taken self.new) }
    {
        match frame {
            Frame::User(name) => {
                self.names.push(name)?;
                Ok(self.names.len() <= MOST_USERS)
            }
            Frame::Room(places) if places <= MOST_PLACES && self.names.len() <= MOST_USERS => {
                self.desk = Some(LogonDesk::new(alloc, &self.names, places)?);
                print_number(b"THAT", 0, &mut self.text)?;
                Ok(true)
            }
            _ => Ok(false),
        }
    }
}

/// Returns whether a frame fits a desk: whether that has its place or user, and it is none from
/// before the desk.
fn is_for(desk: &LogonDesk, frame: &Frame) -> bool
    ensures { result ≡ is_for desk.now frame.now }
{
    match frame {
        Frame::Open { place, .. }
        | Frame::Came { place, .. }
        | Frame::Gone(place)
        | Frame::Says { place, .. } => *place < desk.connections(),
        Frame::Show { user, .. }
        | Frame::Keep { user, .. }
        | Frame::Turn { user, .. }
        | Frame::Done(user) => *user < desk.users(),
        Frame::Passed => true,
        Frame::User(_) | Frame::Room(_) => false,
    }
}

/// Does what a frame says and what is due then at a desk, appends the lines for that to the text,
/// and keeps in `reading` the places whose bytes are still to be taken.
fn answer(
    alloc: Global,
    desk: &mut LogonDesk,
    now: u64,
    frame: &Frame,
    reading: &mut Vec<usize>,
    text: &mut Bytes,
) -> Result<(), AllocError>
    requires now { now < 2 ^ 62 }
    requires is_for { is_for desk.old frame.now ≡ true }
    ensures { OnOk result
        (IsAnswered desk.old now frame.now reading.old.items text.old
        desk.new reading.new.items text.new) }
{
    let mut outputs = Outputs::new(alloc);
    note_reading(desk, frame, reading)?;
    apply_event(alloc, desk, now, frame, &mut outputs)?;
    print_all(outputs.as_slice(), text)?;
    print_read(desk, reading, text)?;
    *reading = still_reading(alloc, desk, reading)?;
    print_number(b"THAT", desk.strangers(), text)
}

/// Makes room for a connection that a frame opens, applies the frame to the desk, and takes the
/// bytes and does what is due at each place.
fn apply_event(
    alloc: Global,
    desk: &mut LogonDesk,
    now: u64,
    frame: &Frame,
    out: &mut Outputs,
) -> Result<(), AllocError>
    requires now { now < 2 ^ 62 }
    requires is_for { is_for desk.old frame.now ≡ true }
    ensures { OnOk result
        ((events : List Event) × AreEvents desk.old now frame.now events
        × Does (run desk.old events) out.old desk.new out.new) }
{
    make_room_for(alloc, desk, frame, out)?;
    give(alloc, desk, now, frame, out)?;
    serve(alloc, desk, now, out)?;
    Ok(())
}

/// Appends the place to which a frame's bytes have come to `reading`, if it has a connection.
fn note_reading(desk: &LogonDesk, frame: &Frame, reading: &mut Vec<usize>) -> Result<(), AllocError>
    ensures { OnOk result (reading.new.items ≡ reading.old.items ++ came_at desk.now frame.now) }
{
    match frame {
        Frame::Came { place, .. } if is_open(desk, *place) => {
            reading.push(*place)?;
            Ok(())
        }
        _ => Ok(()),
    }
}

/// Returns whether there is such a place, and it has a connection.
fn is_open(desk: &LogonDesk, place: usize) -> bool
    ensures { result ≡ is_open desk.now place }
{
    place < desk.connections() && desk.is_open(place)
}

/// Makes room for a connection if this frame opens one: if too many are about to log on, one is
/// ended.
fn make_room_for(
    alloc: Global,
    desk: &mut LogonDesk,
    frame: &Frame,
    out: &mut Outputs,
) -> Result<(), AllocError>
    ensures is_for { OnOk result (is_for desk.new frame.now ≡ is_for desk.old frame.now) }
    ensures room { OnOk result
        ((room : List Event) × MakesRoomFor desk.old frame.now room
        × Does (run desk.old room) out.old desk.new out.new) }
{
    match frame {
        Frame::Open { .. } => end_busiest_stranger(alloc, desk, out),
        _ => Ok(()),
    }
}

/// Ends a connection of those about to log on, from the busiest address, if there are 80 or more.
fn end_busiest_stranger(
    alloc: Global,
    desk: &mut LogonDesk,
    out: &mut Outputs,
) -> Result<(), AllocError>
    ensures places { OnOk result (length desk.new.connections ≡ length desk.old.connections) }
    ensures room { OnOk result
        ((room : List Event) × MakesRoom desk.old room
        × Does (run desk.old room) out.old desk.new out.new) }
{
    if desk.strangers() < MOST_STRANGERS {
        return Ok(());
    }
    match desk.busiest() {
        Some(place) => {
            desk.close(alloc, place, out)?;
            Ok(())
        }
        None => Ok(()),
    }
}

/// Applies a frame to the desk: opens, closes, bytes, answers, lines, states and what is done; the
/// bytes of a place without a connection are dropped.
fn give(
    alloc: Global,
    desk: &mut LogonDesk,
    now: u64,
    frame: &Frame,
    out: &mut Outputs,
) -> Result<(), AllocError>
    requires now { now < 2 ^ 62 }
    requires is_for { is_for desk.old frame.now ≡ true }
    ensures { OnOk result
        (Does (run desk.old (given desk.old now frame.now)) out.old desk.new out.new) }
{
    match frame {
        Frame::Open { place, address } => desk.open(alloc, *place, *address, now, out),
        Frame::Came { place, bytes } if desk.is_open(*place) => desk.receive(
            alloc,
            *place,
            bytes.as_slice(),
            out,
        ),
        Frame::Gone(place) => desk.close(alloc, *place, out),
        Frame::Says {
            place,
            is_right,
            guess,
        } => desk.answer(alloc, *place, guess, *is_right, now, out),
        Frame::Show { user, text } => desk.print(alloc, user_no(desk, *user), text.as_slice(), out),
        Frame::Keep { user, line } => desk.keep(alloc, user_no(desk, *user), line),
        Frame::Turn { user, state } => {
            desk.set_mode(user_no(desk, *user), *state > 0, *state == 2);
            Ok(())
        }
        Frame::Done(user) => {
            desk.end_typed_line(user_no(desk, *user));
            Ok(())
        }
        _ => Ok(()),
    }
}

/// Returns the user of this number, who has to be one of the desk's.
fn user_no(desk: &LogonDesk, user: usize) -> UserNo
    requires { user < length desk.now.accounts }
    ensures { result ≡ user }
{
    // There are no more users than have numbers.
    let _users = desk.users();
    UserNo::new(user as u8)
}

/// Takes at each place all bytes that can be taken, and then does what is due there.
fn serve(alloc: Global, desk: &mut LogonDesk, now: u64, out: &mut Outputs) -> Result<(), AllocError>
    requires { now < 2 ^ 62 }
    ensures { OnOk result (Does (run desk.old (all_served desk.old now)) out.old desk.new out.new) }
{
    for place in 0..desk.connections() {
        serve_place(alloc, desk, place, now, out)?;
    }
    Ok(())
}

/// Takes all bytes that can be taken at a place, and then does what is due there.
fn serve_place(
    alloc: Global,
    desk: &mut LogonDesk,
    place: usize,
    now: u64,
    out: &mut Outputs,
) -> Result<(), AllocError>
    requires { now < 2 ^ 62 }
    ensures { OnOk result
        (Does (run desk.old (served desk.old place now)) out.old desk.new out.new) }
{
    take_all(alloc, desk, place, now, out)?;
    if place < desk.connections() {
        desk.wake(alloc, place, now, out)?;
    }
    Ok(())
}

/// Takes the bytes that wait at a place, as long as the next one can be taken now.
fn take_all(
    alloc: Global,
    desk: &mut LogonDesk,
    place: usize,
    now: u64,
    out: &mut Outputs,
) -> Result<(), AllocError>
    requires { now < 2 ^ 62 }
    ensures { OnOk result
        (Does (run desk.old (takes MOST_WAITING desk.old place now)) out.old desk.new out.new) }
{
    for taken in 0..MOST_WAITING {
        if !takes_next(desk, place) {
            return Ok(());
        }
        desk.take(alloc, place, now, out)?;
    }
    Ok(())
}

/// Returns whether there is such a place, a byte waits there, and it is taken there now.
fn takes_next(desk: &LogonDesk, place: usize) -> bool
    ensures value { result ≡ takes_next desk.now place }
    ensures within { result ≡ true → place < length desk.now.connections }
{
    place < desk.connections() && desk.waiting(place) > 0 && desk.is_taking(place)
}

/// Appends the lines for these actions of the desk to `text`.
fn print_all(outputs: &[DeskAction], text: &mut Bytes) -> Result<(), AllocError>
    ensures { OnOk result (text.new ≡ text.old ++ printed outputs.now) }
{
    for output in outputs {
        print(output, text)?;
    }
    Ok(())
}

/// Returns a new list of those of these places at which bytes still wait.
fn still_reading(
    alloc: Global,
    desk: &LogonDesk,
    reading: &[usize],
) -> Result<Vec<usize>, AllocError>
    ensures { IfOk result (λ places. places.items ≡ filter (still_waits desk.now) reading.now) }
{
    reading
        .iter()
        .filter(|place| still_waits(desk, **place))
        .copied()
        .collect(alloc)
}

/// Appends a line to `text` for each of these places that has a connection at which no byte waits.
fn print_read(desk: &LogonDesk, reading: &[usize], text: &mut Bytes) -> Result<(), AllocError>
    ensures { OnOk result (text.new ≡ text.old ++ read_lines desk.now reading.now) }
{
    for place in reading {
        if is_read(desk, *place) {
            print_number(b"READ", *place, text)?;
        }
    }
    Ok(())
}

/// Returns whether there is such a place, and it has a connection at which no byte waits.
fn is_read(desk: &LogonDesk, place: usize) -> bool
    ensures { result ≡ is_read desk.now place }
{
    is_open(desk, place) && desk.waiting(place) == 0
}

/// Returns whether there is such a place, and it has a connection at which a byte waits.
fn still_waits(desk: &LogonDesk, place: usize) -> bool
    ensures { result ≡ still_waits desk.now place }
{
    is_open(desk, place) && desk.waiting(place) > 0
}
