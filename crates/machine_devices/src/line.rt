//! Lines that are typed to a machine with devices.
ghost use Rattle.std.specs.Prelude.{◌≡◌, ◌<◌, ◌≤◌, List, [], IfOk, OnErr, OnOk, Err};
ghost use Rattle.std.specs.Prelude.{length};
ghost use Rattle.s370_store.specs.Memory.{Memory};
ghost use Rattle.machine_channels.specs.Disks.{DiskAt};
ghost use Rattle.cp_spool.specs.Queues.{UserFiles};
ghost use Rattle.machine_devices.specs.Equipped.{equipped};
ghost use Rattle.machine_devices.specs.Lent.{KeepsOtherUsers, devices_on, devices_with};
ghost use Rattle.machine_devices.specs.Comes.{HasClosed};
ghost use Rattle.machine_devices.specs.Spooling.{open_files};
ghost use Rattle.machine_devices.specs.Lines.{files_closed, outcome, said};
ghost use Rattle.machine_devices.specs.Lines.{requested, typed_at, was_reset};
ghost use Rattle.machine_devices.specs.Borrowed.{LinePagesIn, LineDrops, LineEnds, LogoffEnds};
ghost use Rattle.machine_devices.specs.Borrowed.{borrowed, machine_in};

use crate::devices::Devices;
use crate::files::ClosedFiles;
use crate::request::{Request, request_of};
use crate::world::UserDirectory;
use cp_console::console_line::ConsoleLine;
use cp_console::lines::ConsoleText;
use cp_console::responses::Response;
use cp_spool::Queues;
use machine_channels::{Channels, Disks};
use machine_panel::{LineError, Machine};
use s370_store::Supply;
use std::alloc::Global;
use unit_record::Arrival;

/// A line that a user typed, and the users whom he may name in it.
#[derive(Drop)]
pub struct TypedLine<'a, W> {
    /// What he typed.
    pub typed: &'a [u8],
    /// The users of his installation.
    pub users: &'a W,
}

/// What a line is answered.
#[derive(Clone, Copy, Debug, PartialEq, Eq)]
pub enum LineOutcome {
    /// Nothing.
    Silent,
    /// A response.
    Said(Response),
    /// The files of the reader, one line each: the decks of the reader, in their order.
    Files,
    /// That the line was sent to the user of this number, whose console is to print it.
    Sent(u8, ConsoleLine),
    /// That this file was closed: its owner gives it a number.
    Closed(ClosedFiles),
    /// That the machine was switched off, and these files were closed: their owner gives them
    /// numbers.
    LoggedOff(ClosedFiles),
}

impl LineOutcome {
    /// Returns the outcome of a line with this response, or a silent one if there is none.
    #[inline]
    pub fn of(response: Option<Response>) -> LineOutcome
        ensures { result ≡ said response }
    {
        match response {
            None => LineOutcome::Silent,
            Some(response) => LineOutcome::Said(response),
        }
    }

    /// Returns the files that the line closed: of any outcome but `Closed` and `LoggedOff` none.
    pub fn closed(&self) -> ClosedFiles
        ensures { result ≡ files_closed self.now }
    {
        match self {
            LineOutcome::Closed(files) | LineOutcome::LoggedOff(files) => *files,
            LineOutcome::Silent
            | LineOutcome::Said(_)
            | LineOutcome::Files
            | LineOutcome::Sent(_, _) => ClosedFiles::NONE,
        }
    }
}

impl Devices {
    /// Does what a line asks that is typed to a machine with these devices, which changes machine,
    /// storage, devices, disks and files as the line says, and returns its outcome.
    ///
    /// After an error the machine, its devices and its files are as they were; pages may have been
    /// paged in. After an IPL this is said only of `FramesOut` on channels that are whole.
    ///
    /// # Errors
    ///
    /// A `LineError`: refused memory, or no room for a page that is needed.
    pub fn line<S: Supply, C: Channels<S>, W: UserDirectory>(
        &mut self,
        alloc: Global,
        queues: &mut Queues,
        machine: &mut Machine,
        storage: &mut S,
        channels: &mut C,
        line: &TypedLine<'_, W>,
    ) -> Result<LineOutcome, LineError>
        requires size { 8192 ≤ length (S.Storage.memory storage.old).bytes }
        requires user { self.old.user < length queues.old.users }
        requires ready { C.IsReady storage.old }
        ensures ends { let before = machine_in C.Disks S.Storage
            (borrowed self.old queues.old machine.old storage.old channels.old) in
            let after = machine_in C.Disks S.Storage
            (borrowed self.new queues.new machine.new storage.new channels.new) in
            LineEnds C.is_whole (W.known line.now.users.now) line.now.typed.now before after
            result }
        ensures drops { let before = machine_in C.Disks S.Storage
            (borrowed self.old queues.old machine.old storage.old channels.old) in
            LineDrops C.is_whole C.Disks (requested line.now.typed.now before) before channels.old
            channels.new result }
        ensures brings { let before = machine_in C.Disks S.Storage
            (borrowed self.old queues.old machine.old storage.old channels.old) in
            LinePagesIn C.Channels.own S.Storage S.Supply.own
            (requested line.now.typed.now before) before storage.old storage.new result }
        ensures other_users { KeepsOtherUsers self.old queues.old self.new queues.new }
    {
        let text = ConsoleText::new(line.typed);
        let has_console = self.places().console.is_some();
        match request_of(machine.mode(), has_console, text.as_slice()) {
            Request::LogsOn => {
                machine.switch_on(storage);
                self.reset();
                channels.clear_disks();
                Ok(LineOutcome::Said(Response::LogonOk))
            }
            Request::LogsOff => self.do_logoff(alloc, queues, machine, storage, channels),
            Request::Resets => self.reset_machine(machine, channels),
            Request::Types => self.type_line(machine, text.as_slice()),
            Request::Loads(device) => self.ipl(queues, machine, storage, channels, device),
            Request::Asks(command) => self.obey(alloc, queues, line.users, &command),
            Request::Alone(asked) => match machine.answer(storage, asked) {
                Ok(response) => Ok(LineOutcome::of(response)),
                Err(error) => Err(error),
            },
        }
    }

    /// Does LOGOFF: closes the open files, makes the current deck wait again, switches the machine
    /// off and zeroes its storage, resets the devices and clears the disks; returns which files it
    /// closed.
    fn do_logoff<S: Supply, D: Disks>(
        &mut self,
        alloc: Global,
        queues: &mut Queues,
        machine: &mut Machine,
        storage: &mut S,
        disks: &mut D,
    ) -> Result<LineOutcome, LineError>
        requires { self.old.user < length queues.old.users }
        ensures ends { let before = machine_in D.Disks S.Storage
            (borrowed self.old queues.old machine.old storage.old disks.old) in
            let after = machine_in D.Disks S.Storage
            (borrowed self.new queues.new machine.new storage.new disks.new) in
            LogoffEnds before after result }
        ensures asked { OnErr result (HasClosed (open_files (devices_on self.old queues.old))) }
        ensures memory { result ≡ Err LineError.FramesOut → ⊥ }
        ensures cleared { OnOk result (S.Cleared storage.old storage.new) }
        ensures not_cleared { OnErr result (S.Brought storage.old [] storage.new) }
        ensures others { D.KeepsOthers disks.old disks.new }
        ensures dropped { OnOk result (D.Forgets disks.old disks.new) }
        ensures kept { OnErr result (disks.new ≡ disks.old) }
        ensures other_users { KeepsOtherUsers self.old queues.old self.new queues.new }
        ensures size { length (S.Storage.memory storage.new).bytes
            ≡ length (S.Storage.memory storage.old).bytes }
    {
        let closed = self.open_files(queues);
        match self.close_for_logoff(alloc, queues) {
            Ok(()) => {}
            Err(_) => return Err(LineError::Memory),
        }
        machine.switch_off(storage);
        self.reset();
        disks.clear_disks();
        Ok(LineOutcome::LoggedOff(closed))
    }

    /// Does SYSTEM RESET: resets the machine, the devices and the disks, and returns the response.
    fn reset_machine<D: Disks>(
        &mut self,
        machine: &mut Machine,
        disks: &mut D,
    ) -> Result<LineOutcome, LineError>
        ensures ok { (files : UserFiles) (m : Memory)
            → IfOk result (λ reported.
            outcome (equipped machine.new (devices_with self.new files) (D.disks disks.new) m)
            reported
            ≡ was_reset (equipped machine.old (devices_with self.old files) (D.disks disks.old)
            m)) }
        ensures err { (files : UserFiles) (m : Memory)
            → OnErr result (equipped machine.new (devices_with self.new files) (D.disks disks.new) m
            ≡ equipped machine.old (devices_with self.old files) (D.disks disks.old) m) }
        ensures memory { result ≡ Err LineError.FramesOut → ⊥ }
        ensures user { self.new.user ≡ self.old.user }
        ensures others { D.KeepsOthers disks.old disks.new }
        ensures dropped { OnOk result (D.Forgets disks.old disks.new) }
        ensures kept { OnErr result (disks.new ≡ disks.old) }
    {
        match machine.system_reset() {
            Ok(()) => {}
            Err(_) => return Err(LineError::Memory),
        }
        self.reset();
        disks.reset_disks();
        Ok(LineOutcome::Said(Response::SystemReset))
    }

    /// Queues a line for the console, if there is one, and gives attention there; if too many lines
    /// wait, the line is dropped, and that it was lost is printed and returned.
    fn type_line(&mut self, machine: &mut Machine, text: &[u8]) -> Result<LineOutcome, LineError>
        requires { length text.now ≤ 132 }
        ensures ok { (files : UserFiles) (disks : List DiskAt) (m : Memory)
            → IfOk result (λ reported.
            outcome (equipped machine.new (devices_with self.new files) disks m) reported
            ≡ typed_at self.old.places.console text.now
            (equipped machine.old (devices_with self.old files) disks m)) }
        ensures err { (files : UserFiles) (disks : List DiskAt) (m : Memory)
            → OnErr result (equipped machine.new (devices_with self.new files) disks m
            ≡ equipped machine.old (devices_with self.old files) disks m) }
        ensures memory { result ≡ Err LineError.FramesOut → ⊥ }
        ensures user { self.new.user ≡ self.old.user }
    {
        let Some(device) = self.places.console else {
            return Ok(LineOutcome::Silent);
        };
        match self.console.line(text) {
            Ok(Arrival::Kept) => {
                machine.attend(device);
                Ok(LineOutcome::Silent)
            }
            Ok(Arrival::Lost) => {
                match machine.make_room(1) {
                    Ok(()) => {}
                    Err(_) => return Err(LineError::Memory),
                }
                machine.print(&Response::LineLost);
                Ok(LineOutcome::Said(Response::LineLost))
            }
            Err(_) => Err(LineError::Memory),
        }
    }
}
