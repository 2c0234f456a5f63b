//! What a session needs of the machines that its script speaks to.
ghost use Rattle.std.specs.Prelude.{◌≡◌, ◌<◌, ◌≤◌, ◌⊎◌, Bool, true, false, Err, IfOk, IfSome};
ghost use Rattle.std.specs.Prelude.{OnErr, OnOk, length, slice_get};
ghost use Rattle.std.specs.Option.{option_map};
ghost use Rattle.s370_subchannels.specs.Subchannels.{AreAscending};
ghost use Rattle.session_script.specs.Script.{IsOfDevice, IsOfUser};
ghost use Rattle.session_script.specs.Users.{has_device};
ghost use Rattle.user_names.specs.Users.{name_of};
ghost use Rattle.machine_devices.specs.Dropped.{AreDropped, outputs_of};
ghost use Rattle.sessions.specs.Continuing.{IsToGoOn, but_printed};
ghost use Rattle.sessions.specs.Installed.{Installation as Goings, as_said, machine_at};
ghost use Rattle.sessions.specs.Installed.{names_of, subchannels_at, user_at};
ghost use Rattle.sessions.specs.Queued.{StartsItsOwn, TurnsItsOwn};
ghost use Rattle.sessions.specs.Saved.{AppendsState, AppendsUser, IsOneBySaved, KeepsBase};
ghost use Rattle.sessions.specs.Schedule.{ready_in};

use machine_devices::{Event, FileNote, Reply, SeenDevices};
use machine_panel::Mode;
use s370_psw::Psw;
use s370_subchannels::Subchannel;
use saved_bytes::{Input, RestoreError};
use std::alloc::{AllocError, Global};
use thiserror::Error;
use user_names::UserNo;

/// Why an event did not happen.
#[derive(Clone, Copy, Debug, PartialEq, Eq, Drop, Error)]
pub enum Refused {
    /// A growth was refused.
    #[error("no memory is left")]
    Memory,
    /// Want of memory has ended the installation before.
    #[error("the installation is spent")]
    Spent,
}

/// The machines of one or several users, to which events happen: many on one system, or one of its
/// own.
pub trait Installation {
    /// What is seen of it, and what happens to it.
    ghost goes: { Goings Self };

    /// Returns how many users there are.
    fn users(&self) -> usize
        ensures value { result ≡ length ((goes).seen self.now).users }
        ensures machines { result ≡ length ((goes).seen self.now).machines }
        ensures few { result ≤ 64 };

    /// Returns the name of a user.
    fn name(&self, user: UserNo) -> &[u8]
        ensures { result.now ≡ name_of (names_of ((goes).seen self.now)) user };

    /// Returns whether a user has a device of this address.
    fn has_device(&self, user: UserNo, address: u16) -> bool
        requires { user < length ((goes).seen self.now).users }
        ensures { result ≡ has_device ((goes).seen self.now).users user address };

    /// Returns whether a user's machine is on, and whether it runs.
    fn mode(&self, user: UserNo) -> Mode
        requires { user < length ((goes).seen self.now).users }
        ensures { result ≡ (machine_at ((goes).seen self.now) user).mode };

    /// Returns whether a user's machine is ready for a slice.
    fn is_ready(&self, user: UserNo) -> bool
        requires { user < length ((goes).seen self.now).users }
        ensures { result ≡ ready_in ((goes).seen self.now) user };

    /// Returns the PSW of a user's machine.
    fn psw(&self, user: UserNo) -> Psw
        requires { user < length ((goes).seen self.now).users }
        ensures { result ≡ (machine_at ((goes).seen self.now) user).core.processor.cpu.psw };

    /// Returns the general registers of a user's machine.
    fn registers(&self, user: UserNo) -> [u32; 16]
        requires { user < length ((goes).seen self.now).users }
        ensures { result ≡ (machine_at ((goes).seen self.now) user).core.processor.cpu.general };

    /// Returns a byte of a user's storage, also of a page that is in no frame; None past the last.
    fn storage_byte(&self, user: UserNo, address: u32) -> Option<u8>
        requires { user < length ((goes).seen self.now).users }
        ensures { result ≡ slice_get
            (machine_at ((goes).seen self.now) user).core.processor.bytes address };

    /// Returns the subchannels of a user's machine.
    fn subchannels(&self, user: UserNo) -> &[Subchannel]
        requires { user < length ((goes).seen self.now).users }
        ensures list { result.now ≡ subchannels_at ((goes).seen self.now) user }
        ensures order { AreAscending result.now };

    /// Returns a user's console, reader, punch and printer, with their files.
    fn devices(&self, user: UserNo) -> SeenDevices<'_>
        requires { user < length ((goes).seen self.now).users }
        ensures { result ≡ (user_at ((goes).seen self.now) user).devices };

    /// Returns how many lines a user's console has printed since they were last dropped.
    fn printed(&self, user: UserNo) -> usize
        requires { user < length ((goes).seen self.now).users }
        ensures { result ≡ length (machine_at ((goes).seen self.now) user).output };

    /// Returns a line that a user's console has printed; None past the last.
    fn console_output(&self, user: UserNo, line: usize) -> Option<&[u8]>
        requires { user < length ((goes).seen self.now).users }
        ensures { option_map (λ text. text.now) result
            ≡ slice_get (machine_at ((goes).seen self.now) user).output line };

    /// Returns how many files have a number.
    fn files(&self) -> usize
        ensures { result ≡ length ((goes).seen self.now).files };

    /// Returns the owner and the kind of the file of this place, from 0, if there is one.
    fn file(&self, place: usize) -> Option<FileNote>
        ensures { result ≡ slice_get ((goes).seen self.now).files place };

    /// Applies an event to the machine of the user whom it names, and returns the reply.
    ///
    /// # Errors
    ///
    /// A `Refused`: refused memory, or a spent installation.
    fn apply_event(&mut self, alloc: Global, event: &Event<'_>) -> Result<Reply, Refused>
        requires user { IsOfUser ((goes).seen self.old).users (as_said event.now) }
        requires device { IsOfDevice ((goes).seen self.old).users (as_said event.now) }
        ensures ok { IfOk result
            (λ reply. (goes).Happens self.old (as_said event.now) reply self.new) }
        ensures err { OnErr result
            ((self.new ≡ self.old) ⊎ (goes).Lacks self.old (as_said event.now) self.new) }
        ensures memory { result ≡ Err Refused.Memory → (goes).May self.old (as_said event.now) }
        ensures users { ((goes).seen self.new).users ≡ ((goes).seen self.old).users }
        ensures alive { OnOk result ((goes).is_spent self.new ≡ false) }
        ensures spent { result ≡ Err Refused.Spent → (goes).is_spent self.old ≡ true };

    /// Drops the lines that consoles have printed, and changes nothing else that is seen.
    fn forget_printed(&mut self)
        ensures on { (goes).GoesOnAs self.old self.new }
        ensures seen { (goes).seen self.new ≡ but_printed ((goes).seen self.old) };

    /// Drops the entries of the closed files that have a number but of the first `since`, unless a
    /// reader has them as a deck; what follows goes on as with them.
    fn forget_files(&mut self, since: usize)
        ensures on { (goes).GoesOnAs self.old self.new }
        ensures gone { AreDropped since ((goes).seen self.new).files
            ((goes).seen self.new).machines }
        ensures lines { outputs_of ((goes).seen self.new).machines
            ≡ outputs_of ((goes).seen self.old).machines }
        ensures users { ((goes).seen self.new).users ≡ ((goes).seen self.old).users };

    /// Appends the state of the installation, and returns true; returns false if it has no states.
    ///
    /// # Errors
    ///
    /// `AllocError` if memory is refused; `out` may have a part of it then.
    fn save(&self, out: &mut Vec<u8>) -> Result<bool, AllocError>
        ensures { IfOk result (λ is. AppendsState (goes) self.now is out.old.items out.new.items) };

    /// Appends what the state has of one user, of the frames and of his storage, and returns true;
    /// returns false if there are no states.
    ///
    /// # Errors
    ///
    /// `AllocError` if memory is refused; `out` may have a part of it then.
    fn save_user(&self, user: UserNo, out: &mut Vec<u8>) -> Result<bool, AllocError>
        requires { user < length ((goes).seen self.now).users }
        ensures { IfOk result
            (λ is. AppendsUser (goes) self.now user is out.old.items out.new.items) };

    /// Restores a state into this installation, which was only booted, without checking that `save`
    /// would write these bytes.
    ///
    /// What is restored is lawful whatever the bytes are; whoever saves it again sees whether it
    /// was saved so.
    ///
    /// # Errors
    ///
    /// `Malformed` if the bytes are no state, or the installation has no states; `Memory` if memory
    /// is refused.
    fn restore(self, input: &mut Input<'_>) -> Result<Self, RestoreError>
        ensures base { IfOk result (λ made. (goes).HasSameBase self made) }
        ensures users { IfOk result
            (λ made. ((goes).seen made).users ≡ ((goes).seen self).users) };

    /// States that an event turns no machine on or off but that of the user whom it names, and a run
    /// or a serve none; and that it starts no device but that user's.
    fn events_turn_their_own()
        ensures turns { TurnsItsOwn (goes) }
        ensures starts { StartsItsOwn (goes) };

    /// States that bytes are those of one state of a base, and that no event changes the base.
    fn one_by_saved()
        ensures base { KeepsBase (goes) }
        ensures saved { IsOneBySaved (goes) };

    /// States that lines that were printed before do not matter: what is to follow goes on as
    /// without them.
    fn printed_lines_do_not_matter()
        ensures { IsToGoOn (goes) };
}
