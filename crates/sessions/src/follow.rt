//! A script that is given part by part: each is judged and done where the parts before it have led.
//!
//! What was written since the beginning is the transcript of all that was done, as if it had been
//! one script: parts that are joined are followed as one, and one that was followed to its end is a
//! session ([`parts_are_a_session`]).
ghost use Rattle.std.specs.Prelude.{◌≡◌, ◌⊎◌, ℕ, All, Bool, [], Err, IfErr, IfOk, IfSome, Ok};
ghost use Rattle.std.specs.Prelude.{OnErr, OnOk, length, map, true};
ghost use Rattle.std.specs.Io.KnownBytes.{Keeps};
ghost use Rattle.sessions.specs.Continuing.{ContinuesAs};
ghost use Rattle.sessions.specs.Files.{lines_since};
ghost use Rattle.session_script.specs.Script.{IsOfDevice, IsOfUser, IsRefusal, ScriptTakesMemory};
ghost use Rattle.session_script.specs.Script.{said, script_of};
ghost use Rattle.sessions.specs.Follow.{Became, BeginsWithNothing, EndsAsSession, HasWholeLines};
ghost use Rattle.sessions.specs.Follow.{IsFollowedPartly, PartTakesMemory, PartsJoin, part_of};
ghost use Rattle.sessions.specs.Follow.{unended_line};
ghost use Rattle.std.specs.List.{list_all};
ghost use Rattle.sessions.specs.Held.{holds_lines};
ghost use Rattle.sessions.specs.Installed.{is_stated, names_of};
ghost use Rattle.sessions.specs.News.{changed_lines, is_idle, modes_of};
ghost use Rattle.machine_devices.specs.Dropped.{AreDropped, outputs_of};
ghost use Rattle.sessions.specs.Readers.{reader_lines};
ghost use Rattle.sessions.specs.Runs.{AppendsScene, IsRestored, IsSceneSaved};
ghost use Rattle.sessions.specs.Saved.{AppendsUser};
ghost use Rattle.sessions.specs.Schedule.{Scene};
ghost use Rattle.sessions.specs.Seek.{BecameSought, IsTextSoughtPartly, SeekTakesMemory};
ghost use Rattle.sessions.specs.Session.{Accounts, at_first};
ghost use Rattle.sessions.specs.Transcript.{ended};
ghost use Rattle.sessions.specs.declared.files.Telling.TheVariants.{Answer};

use crate::acts::play;
use crate::faults::PlayError;
use crate::files::{Telling, operator_file_lines};
use crate::held::held_lines;
use crate::installation::Installation;
use crate::known::read_events;
use crate::news::{mode_change_lines, modes};
use crate::readers::reader_lines;
use crate::schedule::{Detail, first_policy, first_ready};
use crate::seek::{read_seek, seek_units};
use crate::transcript::names;
use cp_dispatch::{Policy, Program};
use machine_panel::Mode;
use s370_num::host::HostWriter;
use saved_bytes::{Input, RestoreError};
use session_script::{ScriptError, ScriptEvent, reads_grammar};
use std::alloc::{AllocError, Global};
use std::marker::Model;
use user_names::UserNo;

/// An installation that goes on from where a script has led it.
///
/// # Examples
///
/// ```
/// use bare370::machine_of;
/// use sessions::follow::{Follower, Part};
/// use sessions::schedule::Detail;
///
/// let machine = machine_of(alloc, 4, Vec::new(alloc))?;
/// let follower = Follower::begin(alloc, machine, Detail::Whole)?;
/// let mut transcript = Vec::new(alloc);
/// let Part::Done(follower) = follower.part(alloc, b"LINE BARE LOGON\n", &mut transcript)? else {
///     return Err("the part is refused")?;
/// };
/// let refused = follower.part(alloc, b"LINE NOBODY LOGON\n", &mut transcript)?;
/// assert!(rt; matches!(&refused, Part::Refused(_, 1)));
/// assert_eq!(rt; transcript.as_slice(), b"BARE: LOGON OK\n".as_slice());
/// ```
#[derive(Drop)]
pub struct Follower<I: Installation> {
    installation: I,
    policy: Policy,
    detail: Detail,
}

impl<I: Installation> Model for Follower<I> {
    ghost use Rattle.sessions.specs.Schedule.{IsOf, Scene, scene};

    ghost Value = { Scene I };

    ghost view = { λ f. scene f.installation f.policy f.detail };

    ghost invariant = { λ f. IsOf (I.goes.seen f.installation) f.policy };
}

/// What became of a part of a script.
#[derive(Drop)]
pub enum Part<I: Installation> {
    /// It was done.
    Done(Follower<I>),
    /// Nothing of it was: this line of it, counted from 1, is the first that is refused.
    Refused(Follower<I>, u64),
}

/// What became of a text that asks to seek.
#[derive(Drop)]
pub enum Seeking<I: Installation> {
    /// Units were run; whether the last of them has left what is sought.
    Done(Follower<I>, bool),
    /// None was: the text does not say what is sought, and who runs.
    Refused(Follower<I>),
}

impl<I: Installation + Drop> Follower<I> {
    /// Returns a follower of an installation, with the policy of its users, by which no part has
    /// been done.
    ///
    /// # Errors
    ///
    /// `AllocError` if memory is refused.
    pub fn begin(alloc: Global, installation: I, detail: Detail) -> Result<Follower<I>, AllocError>
        ensures { IfOk result (λ follower. follower ≡ at_first I.goes detail installation) }
    {
        let policy = first_policy(alloc, &installation)?;
        Ok(Follower {
            installation,
            policy,
            detail,
        })
    }

    /// Returns the installation as it is.
    pub fn installation(&self) -> &I
        ensures { result.now ≡ self.now.world }
    {
        &self.installation
    }

    /// Does a part of the script, writes its transcript lines and drops the consoles' printed
    /// lines; if a line is refused or the last one is not ended, does nothing and returns that
    /// line's number.
    ///
    /// What consoles have printed is dropped then, since it was written. After a failure there is
    /// nothing that goes on.
    ///
    /// # Errors
    ///
    /// A `PlayError`: refused memory, a failure of the writer, or a spent installation. A beginning
    /// may be written.
    pub fn part<W: HostWriter>(
        self,
        alloc: Global,
        text: &[u8],
        writer: &mut W,
    ) -> Result<Part<I>, PlayError>
        ensures ok { IfOk result (λ part.
            Became I.goes text.now self part (W.contents writer.old) (W.contents writer.new)) }
        ensures unwritten { (same : Scene I) (n : ℕ) → result ≡ Ok (Part.Refused same n)
            → writer.new ≡ writer.old }
        ensures err { OnErr result ((writer.new ≡ writer.old)
            ⊎ IsFollowedPartly I.goes text.now self (W.contents writer.old)
            (W.contents writer.new)) }
        ensures why { Accounts result (I.goes.is_spent self.world) (I.goes.is_spent self.world)
            (W.HostFile.failures writer.old) (W.HostFile.failures writer.new) }
        ensures memory { result ≡ Err PlayError.Memory
            → PartTakesMemory (I.goes.seen self.world).users text.now }
    {
        let Follower {
            mut installation,
            mut policy,
            detail,
        } = self;
        let events = match read_part(alloc, &installation, text) {
            Ok(events) => events,
            Err(ScriptError::Line(line)) => {
                return Ok(Part::Refused(
                    Follower {
                        installation,
                        policy,
                        detail,
                    },
                    line,
                ));
            }
            Err(ScriptError::Memory) => return Err(PlayError::Memory),
        };
        play(
            alloc,
            &mut installation,
            &mut policy,
            detail,
            &events,
            writer,
        )?;
        installation.forget_printed();
        Ok(Part::Done(Follower {
            installation,
            policy,
            detail,
        }))
    }

    /// Runs single units of a user until one of them has left what is sought, or until he had as many
    /// as are asked for, and writes their transcript lines; does nothing if the text does not ask
    /// for that.
    ///
    /// The text is a line `I`, `G` or `W` with six hexadecimal digits, for an instruction address, a
    /// general register or a word of storage, and then the line `RUN` of a script. A register or word
    /// is found when it has another value than at first. After a failure there is nothing that goes
    /// on.
    ///
    /// # Errors
    ///
    /// A `PlayError`: refused memory, a failure of the writer, or a spent installation. A beginning
    /// may be written.
    ///
    /// # Examples
    ///
    /// ```
    /// use bare370::machine_of;
    /// use sessions::follow::{Follower, Seeking};
    /// use sessions::schedule::Detail;
    ///
    /// let machine = machine_of(alloc, 4, Vec::new(alloc))?;
    /// let follower = Follower::begin(alloc, machine, Detail::Whole)?;
    /// let mut transcript = Vec::new(alloc);
    /// let asked = b"I 000000\nRUN BARE 9\n";
    /// let Seeking::Done(_, is_found) = follower.seek(alloc, asked, &mut transcript)? else {
    ///     return Err("the text asks for nothing")?;
    /// };
    /// assert!(rt; is_found);
    /// assert_eq!(rt; transcript.as_slice(), b"= BARE 0 STOPPED\n".as_slice());
    /// ```
    pub fn seek<W: HostWriter>(
        self,
        alloc: Global,
        text: &[u8],
        writer: &mut W,
    ) -> Result<Seeking<I>, PlayError>
        ensures ok { IfOk result (λ seeking. BecameSought I.goes text.now self seeking
            (W.contents writer.old) (W.contents writer.new)) }
        ensures unwritten { (same : Scene I) → result ≡ Ok (Seeking.Refused same)
            → writer.new ≡ writer.old }
        ensures err { OnErr result ((writer.new ≡ writer.old)
            ⊎ IsTextSoughtPartly I.goes text.now self (W.contents writer.old)
            (W.contents writer.new)) }
        ensures why { Accounts result (I.goes.is_spent self.world) (I.goes.is_spent self.world)
            (W.HostFile.failures writer.old) (W.HostFile.failures writer.new) }
        ensures memory { result ≡ Err PlayError.Memory
            → SeekTakesMemory (I.goes.seen self.world).users text.now }
    {
        let Follower {
            mut installation,
            mut policy,
            detail,
        } = self;
        let Some(seek) = read_seek(alloc, &installation, text)? else {
            return Ok(Seeking::Refused(Follower {
                installation,
                policy,
                detail,
            }));
        };
        let found = seek_units(alloc, &mut installation, &mut policy, detail, &seek, writer)?;
        Ok(Seeking::Done(
            Follower {
                installation,
                policy,
                detail,
            },
            found,
        ))
    }

    /// Drops the entries of the files that were closed since there were so many, which were written
    /// as the answer to their part; what follows goes on as with them.
    pub fn forget_files(&mut self, files: usize)
        ensures on { ContinuesAs I.goes self.old self.new }
        ensures chain { (first : Scene I) → ContinuesAs I.goes first self.old
            → ContinuesAs I.goes first self.new }
        ensures gone { AreDropped files (I.goes.seen self.new.world).files
            (I.goes.seen self.new.world).machines }
        ensures lines { outputs_of (I.goes.seen self.new.world).machines
            ≡ outputs_of (I.goes.seen self.old.world).machines }
    {
        I::printed_lines_do_not_matter();
        self.installation.forget_files(files);
    }

    /// Flushes the writer, and returns the installation: the session is over.
    ///
    /// The files for the operator were written in the answers to the parts that closed them.
    ///
    /// # Errors
    ///
    /// A `PlayError`: a failure of the writer.
    pub fn close<W: HostWriter>(self, writer: &mut W) -> Result<I, PlayError>
        ensures installation { IfOk result (λ installation. installation ≡ self.world) }
        ensures unwritten { Keeps (W.contents writer.old) (W.contents writer.new) }
        ensures flushed { OnOk result (W.held writer.new ≡ []) }
        ensures why { (is : Bool) → Accounts result is is (W.HostFile.failures writer.old)
            (W.HostFile.failures writer.new) }
    {
        writer.flush()?;
        Ok(self.installation)
    }

    /// Appends the state of the policy and of the installation, and returns true; if the
    /// installation has no states, it appends nothing and returns false.
    ///
    /// # Errors
    ///
    /// `AllocError` if memory is refused; `out` may have a part of it then.
    pub fn save(&self, out: &mut Vec<u8>) -> Result<bool, AllocError>
        ensures { IfOk result (λ is. AppendsScene I.goes self.now is out.old.items out.new.items) }
    {
        // Exhaustive: a new field fails to compile here. The detail is no part of a state.
        let Follower {
            installation,
            policy,
            detail: _,
        } = self;
        let front = out.len();
        policy.save(out)?;
        let has_states = installation.save(out)?;
        if !has_states {
            out.truncate(front);
        }
        Ok(has_states)
    }

    /// Appends what the state has of the user of this number, of the frames and of his storage, and
    /// returns true; if there is no such user, or there are no states, it appends nothing and
    /// returns false.
    ///
    /// # Errors
    ///
    /// `AllocError` if memory is refused; `out` may have a part of it then.
    pub fn save_user(&self, user: u32, out: &mut Vec<u8>) -> Result<bool, AllocError>
        ensures { IfOk result
            (λ is. AppendsUser I.goes self.now.world user is out.old.items out.new.items) }
    {
        if user as usize >= self.installation.users() {
            return Ok(false);
        }
        self.installation.save_user(UserNo::new(user as u8), out)
    }

    /// Returns the follower that these bytes restore in the place of this one, by which no part has
    /// been done.
    ///
    /// # Errors
    ///
    /// `Malformed` if that follower is not saved as exactly these bytes, `Memory` if memory is
    /// refused.
    pub fn restored(self, alloc: Global, bytes: &[u8]) -> Result<Follower<I>, RestoreError>
        ensures { IfOk result (IsRestored I.goes self bytes.now) }
    {
        let follower = self.read(alloc, &mut Input::new(bytes))?;
        if follower.is_saved_as(alloc, bytes)? {
            Ok(follower)
        } else {
            Err(RestoreError::Malformed)
        }
    }

    /// Returns whether the follower is saved as exactly these bytes.
    fn is_saved_as(&self, alloc: Global, bytes: &[u8]) -> Result<bool, AllocError>
        ensures { IfOk result (λ is. is ≡ true → IsSceneSaved I.goes self.now bytes.now) }
    {
        let mut again = Vec::new(alloc);
        let has_states = self.save(&mut again)?;
        Ok(has_states && again.as_slice() == bytes)
    }

    /// Reads a policy and the state of the installation from the input, and returns this follower
    /// with them.
    ///
    /// # Errors
    ///
    /// `Malformed` if the input is bad, or if a program is of a device that its user has not;
    /// `Memory` if memory is refused.
    fn read(self, alloc: Global, input: &mut Input<'_>) -> Result<Follower<I>, RestoreError>
        ensures base { IfOk result (λ made. I.goes.HasSameBase self.world made.world) }
        ensures users { IfOk result
            (λ made. (I.goes.seen made.world).users ≡ (I.goes.seen self.world).users) }
        ensures detail { IfOk result (λ made. made.detail ≡ self.detail) }
    {
        let Follower {
            installation,
            policy: _,
            detail,
        } = self;
        let policy = Policy::read(alloc, installation.users(), input)?;
        let installation = installation.restore(input)?;
        if !are_stated(&installation, policy.programs()) {
            return Err(RestoreError::Malformed);
        }
        Ok(Follower {
            installation,
            policy,
            detail,
        })
    }

    /// Returns the lines of the files that were closed for the operator since there were so many
    /// files, as the answer to a part has them, each ended by LF.
    ///
    /// # Errors
    ///
    /// `AllocError` if memory is refused.
    pub fn closed_since(&self, alloc: Global, files: usize) -> Result<Vec<u8>, AllocError>
        ensures { IfOk result (λ text. text.items
            ≡ ended (lines_since Answer files (I.goes.seen self.now.world))) }
    {
        operator_file_lines(alloc, &self.installation, Telling::Answer, files)
    }

    /// Returns a line for each user with the entries of the open files of his punch and his printer,
    /// each ended by LF.
    ///
    /// # Errors
    ///
    /// `AllocError` if memory is refused.
    pub fn held(&self, alloc: Global) -> Result<Vec<u8>, AllocError>
        ensures { let seen = I.goes.seen self.now.world in
            IfOk result (λ text. text.items ≡ ended (holds_lines seen (length seen.users))) }
    {
        held_lines(alloc, &self.installation)
    }

    /// Returns the lines that `QUERY FILES` shows each user, each ended by LF.
    ///
    /// # Errors
    ///
    /// `AllocError` if memory is refused.
    pub fn readers(&self, alloc: Global) -> Result<Vec<u8>, AllocError>
        ensures { let seen = I.goes.seen self.now.world in
            IfOk result (λ text. text.items ≡ ended (reader_lines seen (length seen.users))) }
    {
        reader_lines(alloc, &self.installation)
    }

    /// Returns a new list of the mode of each user's machine.
    ///
    /// # Errors
    ///
    /// `AllocError` if memory is refused.
    pub fn modes(&self, alloc: Global) -> Result<Vec<Mode>, AllocError>
        ensures { IfOk result (λ modes. modes.items ≡ modes_of (I.goes.seen self.now.world)) }
    {
        modes(alloc, &self.installation)
    }

    /// Returns the lines of who has logged on or off, and whose machine was started or stopped,
    /// since the machines were in these modes, as the answer to a part has them, each ended by LF.
    ///
    /// # Errors
    ///
    /// `AllocError` if memory is refused.
    pub fn changes_since(&self, alloc: Global, olds: &[Mode]) -> Result<Vec<u8>, AllocError>
        requires { length olds.now ≡ length (I.goes.seen self.now.world).machines }
        ensures { let seen = I.goes.seen self.now.world in
            IfOk result (λ text. text.items
            ≡ ended (changed_lines (names_of seen) olds.now (modes_of seen))) }
    {
        // There are as many users as machines.
        let _users = self.installation.users();
        let names = names(alloc, &self.installation)?;
        let news = modes(alloc, &self.installation)?;
        mode_change_lines(alloc, &names, olds, &news)
    }

    /// Returns whether no user in the queue is ready for a slice, and the serve queue is empty.
    pub fn is_idle(&self) -> bool
        ensures { result ≡ is_idle I.goes self.now }
    {
        self.policy.programs().is_empty()
            && first_ready(&self.installation, self.policy.users()).is_none()
    }
}

/// Returns whether each of these programs is of a device that its user has.
fn are_stated<I: Installation>(installation: &I, programs: &[Program]) -> bool
    ensures { result ≡ list_all (is_stated (I.goes.seen installation.now).users) programs.now }
{
    programs
        .iter()
        .all(|program| is_stated(installation, *program))
}

/// Returns whether a program is of a device that its user has.
fn is_stated<I: Installation>(installation: &I, program: Program) -> bool
    ensures { result ≡ is_stated (I.goes.seen installation.now).users program }
{
    program.user.index() < installation.users()
        && installation.has_device(program.user, program.device.get())
}

/// Returns the events that a part of a script names, or the number of its first line that is
/// refused: also of a last line that is not ended.
fn read_part<'a, I: Installation>(
    alloc: Global,
    installation: &I,
    text: &'a [u8],
) -> Result<Vec<ScriptEvent<'a>>, ScriptError>
    ensures ok { IfOk result
        (λ events. script_of (I.goes.seen installation.now).users text.now
        ≡ Ok (map said events.items)) }
    ensures whole { OnOk result (HasWholeLines text.now) }
    ensures users { IfOk result
        (λ events. All (λ e. IsOfUser (I.goes.seen installation.now).users (said e))
        events.items) }
    ensures devices { IfOk result
        (λ events. All (λ e. IsOfDevice (I.goes.seen installation.now).users (said e))
        events.items) }
    ensures err { IfErr result (IsRefusal (part_of (I.goes.seen installation.now).users text.now)) }
    ensures memory { result ≡ Err ScriptError.Memory
        → ScriptTakesMemory (I.goes.seen installation.now).users text.now }
{
    let events = read_events(alloc, installation, text)?;
    match unended(text) {
        None => Ok(events),
        Some(line) => Err(ScriptError::Line(line)),
    }
}

/// Returns the number of the last line of a text, counted from 1, if no LF ends it.
fn unended(text: &[u8]) -> Option<u64>
    ensures { result ≡ unended_line text.now }
{
    let mut line = 1;
    let mut is_ended = true;
    for byte in text {
        is_ended = *byte == b'\n';
        if is_ended {
            line += 1;
        }
    }
    if is_ended { None } else { Some(line) }
}

/// States that parts that are followed one after another are one script, and that one that was
/// followed to its end is a session.
pub fn parts_are_a_session<I: Installation>()
    ensures nothing { BeginsWithNothing I.goes }
    ensures join { PartsJoin I.goes }
    ensures session { EndsAsSession I.goes }
{
    reads_grammar();
    I::printed_lines_do_not_matter();
}
