//! The commands that concern the files of a machine's devices, and other users.
ghost use Rattle.std.specs.Prelude.{◌≡◌, ◌<◌, IsSome, List, is_some, if◌then◌else◌, length, IfOk};
ghost use Rattle.std.specs.Prelude.{OnErr, Err};
ghost use Rattle.user_names.specs.Users.{user_of};
ghost use Rattle.cp_console.specs.declared.responses.Response.TheVariants as responses;
ghost use Rattle.machine_panel.specs.Machine.{Machine as WholeMachine};
ghost use Rattle.unit_record.specs.Reader.{queued_at};
ghost use Rattle.machine_channels.specs.Disks.{DiskAt};
ghost use Rattle.cp_spool.specs.Queues.{UserFiles};
ghost use Rattle.machine_devices.specs.Lent.{KeepsOtherUsers, devices_on, devices_with};
ghost use Rattle.machine_devices.specs.Comes.{CanReceive, CommandMayTakeMemory, HasOpen};
ghost use Rattle.machine_devices.specs.Devices.{part_at};
ghost use Rattle.machine_devices.specs.Lines.{IsObeyed, SendsTo, close_answered, files_told};
ghost use Rattle.machine_devices.specs.Lines.{outcome, printer_answered, punch_answered};
ghost use Rattle.machine_devices.specs.Lines.{spool_answered, target_of};
ghost use Rattle.machine_devices.specs.Spooling.{with_deck_purged};

use crate::devices::Devices;
use crate::files::ClosedFiles;
use crate::line::LineOutcome;
use crate::places::AttachedDevice;
use crate::world::UserDirectory;
use cp_console::console_line::ConsoleLine;
use cp_console::device_commands::DeviceCommand;
use cp_console::printing::message_line;
use cp_console::responses::Response;
use cp_spool::Queues;
use machine_panel::LineError;
use s370_num::DevAddr;
use std::alloc::Global;
use unit_record::Target;

/// Returns the target that a name says: `SYSTEM` is the operator, another name is a user's; None if
/// there is no such user.
fn target_of<W: UserDirectory>(world: &W, name: &[u8]) -> Option<Target>
    ensures { result ≡ target_of (W.known world.now) name.now }
{
    if name == b"SYSTEM".as_slice() {
        return Some(Target::System);
    }
    match world.user_of(name) {
        Some(user) => Some(Target::User(user)),
        None => None,
    }
}

/// Does MSG: returns the line that the user of this name is to be sent, or the response that there
/// is no such user or that he is not logged on.
fn message_outcome<W: UserDirectory>(
    alloc: Global,
    world: &W,
    name: &[u8],
    text: &[u8],
) -> Result<LineOutcome, LineError>
    ensures ok { IfOk result (λ reported.
        SendsTo (user_of (W.known world.now).names name.now) (W.known world.now) text.now
        reported) }
    ensures asked { result ≡ Err LineError.Memory
        → CanReceive (user_of (W.known world.now).names name.now) (W.known world.now) }
    ensures memory { result ≡ Err LineError.FramesOut → ⊥ }
{
    let Some(user) = world.user_of(name) else {
        return Ok(LineOutcome::Said(Response::UserNotFound));
    };
    if !world.is_on(user) {
        return Ok(LineOutcome::Said(Response::UserNotLoggedOn));
    }
    match message_line(alloc, world.own_name(), text) {
        Ok(line) => Ok(LineOutcome::Sent(user, ConsoleLine::of(&line))),
        Err(_) => Err(LineError::Memory),
    }
}

impl Devices {
    /// Does a command that concerns the files of these devices or other users, and returns its
    /// outcome; if it is not obeyed, nothing has happened.
    pub(crate) fn obey<W: UserDirectory>(
        &mut self,
        alloc: Global,
        queues: &mut Queues,
        world: &W,
        command: &DeviceCommand<'_>,
    ) -> Result<LineOutcome, LineError>
        requires { self.old.user < length queues.old.users }
        ensures ok { (m : WholeMachine) (disks : List DiskAt)
            → IfOk result (λ reported. IsObeyed (W.known world.now) command.now
            (record { machine = m; devices = devices_on self.old queues.old; disks = disks })
            reported
            (record { machine = m; devices = devices_on self.new queues.new; disks = disks })) }
        ensures err { OnErr result
            (devices_on self.new queues.new ≡ devices_on self.old queues.old) }
        ensures memory { result ≡ Err LineError.Memory
            → CommandMayTakeMemory (W.known world.now) command.now
            (devices_on self.old queues.old) }
        ensures frames { result ≡ Err LineError.FramesOut → ⊥ }
        ensures other_users { KeepsOtherUsers self.old queues.old self.new queues.new }
    {
        match command {
            DeviceCommand::QueryFiles => Ok(self.tell_files(queues)),
            DeviceCommand::QueryUsers => Ok(LineOutcome::Said(Response::Users(world.users_on()))),
            DeviceCommand::Spool(device, name) => {
                Ok(self.answer_spool(world, *device, name.as_slice()))
            }
            DeviceCommand::Close(device) => self.answer_close(alloc, queues, *device),
            DeviceCommand::Purge(file) => Ok(self.answer_purge(queues, *file)),
            DeviceCommand::Message(name, text) => {
                message_outcome(alloc, world, name.as_slice(), text.as_slice())
            }
        }
    }

    /// Does QUERY FILES: returns that the decks of the reader are to be listed, or that there are
    /// none.
    fn tell_files(&self, queues: &Queues) -> LineOutcome
        ensures { result ≡ files_told (devices_on self.now queues.now).reader.decks }
    {
        if queues.decks(self.user) == 0 {
            LineOutcome::Said(Response::NoFiles)
        } else {
            LineOutcome::Files
        }
    }

    /// Does PURGE: removes the deck of this number from the reader's queue, if one that is not
    /// current has it, and returns the response.
    fn answer_purge(&self, queues: &mut Queues, file: u64) -> LineOutcome
        requires { self.now.user < length queues.old.users }
        ensures reported { result ≡ LineOutcome.Said
            (if is_some (queued_at (devices_on self.now queues.old).reader file)
            then responses.Purged else responses.FileNotFound) }
        ensures after { devices_on self.now queues.new
            ≡ with_deck_purged (devices_on self.now queues.old) file }
        ensures other_users { KeepsOtherUsers self.now queues.old self.now queues.new }
    {
        if self.purge(queues, file) {
            LineOutcome::Said(Response::Purged)
        } else {
            LineOutcome::Said(Response::FileNotFound)
        }
    }

    /// Does SPOOL: sets the punch's target by a name, if this is the address of the punch and there
    /// is such a user, and returns the response.
    fn answer_spool<W: UserDirectory>(
        &mut self,
        world: &W,
        device: DevAddr,
        name: &[u8],
    ) -> LineOutcome
        ensures reported { (m : WholeMachine) (files : UserFiles) (disks : List DiskAt)
            → outcome (record { machine = m; devices = devices_with self.new files; disks = disks })
            result
            ≡ spool_answered (W.known world.now) device name.now
            (record { machine = m; devices = devices_with self.old files; disks = disks }) }
        ensures user { self.new.user ≡ self.old.user }
    {
        match self.part_at(device.get()) {
            Some(AttachedDevice::Punch) => match target_of(world, name) {
                Some(target) => {
                    self.set_punch_target(target);
                    LineOutcome::Said(Response::Spooled)
                }
                None => LineOutcome::Said(Response::UserNotFound),
            },
            _ => LineOutcome::Said(Response::DeviceNotFound),
        }
    }

    /// Does CLOSE: closes the open file of the punch or printer at this address, and returns which
    /// it closed, or the response that there is none.
    fn answer_close(
        &mut self,
        alloc: Global,
        queues: &mut Queues,
        device: DevAddr,
    ) -> Result<LineOutcome, LineError>
        requires { self.old.user < length queues.old.users }
        ensures ok { (m : WholeMachine) (disks : List DiskAt)
            → IfOk result (λ reported.
            outcome (record {
              machine = m;
              devices = devices_on self.new queues.new;
              disks = disks;
            }) reported
            ≡ close_answered device (record {
              machine = m;
              devices = devices_on self.old queues.old;
              disks = disks;
            })) }
        ensures err { OnErr result
            (devices_on self.new queues.new ≡ devices_on self.old queues.old) }
        ensures asked { let before = devices_on self.old queues.old in
            result ≡ Err LineError.Memory → HasOpen (part_at before device) before }
        ensures memory { result ≡ Err LineError.FramesOut → ⊥ }
        ensures other_users { KeepsOtherUsers self.old queues.old self.new queues.new }
    {
        let open = self.open_files(queues);
        match self.part_at(device.get()) {
            Some(AttachedDevice::Punch) => self.close_punched(alloc, queues, open.punched),
            Some(AttachedDevice::Printer) => self.close_printed(alloc, queues, open.printed),
            _ => Ok(LineOutcome::Said(Response::DeviceNotFound)),
        }
    }

    /// Closes the open file of the punch and returns that its index among the closed ones is
    /// `place`; if `place` is None, returns the response that there is no open file.
    fn close_punched(
        &mut self,
        alloc: Global,
        queues: &mut Queues,
        place: Option<usize>,
    ) -> Result<LineOutcome, LineError>
        requires { self.old.user < length queues.old.users }
        ensures ok { (m : WholeMachine) (disks : List DiskAt)
            → IfOk result (λ reported.
            outcome (record {
              machine = m;
              devices = devices_on self.new queues.new;
              disks = disks;
            }) reported
            ≡ punch_answered place (record {
              machine = m;
              devices = devices_on self.old queues.old;
              disks = disks;
            })) }
        ensures err { OnErr result
            (devices_on self.new queues.new ≡ devices_on self.old queues.old) }
        ensures asked { result ≡ Err LineError.Memory → IsSome place }
        ensures memory { result ≡ Err LineError.FramesOut → ⊥ }
        ensures other_users { KeepsOtherUsers self.old queues.old self.new queues.new }
    {
        if place.is_none() {
            return Ok(LineOutcome::Said(Response::NoFile));
        }
        match self.close_punch(alloc, queues) {
            Ok(()) => Ok(LineOutcome::Closed(ClosedFiles {
                punched: place,
                printed: None,
            })),
            Err(_) => Err(LineError::Memory),
        }
    }

    /// Closes the open file of the printer and returns that its index among the closed ones is
    /// `place`; if `place` is None, returns the response that there is no open file.
    fn close_printed(
        &mut self,
        alloc: Global,
        queues: &mut Queues,
        place: Option<usize>,
    ) -> Result<LineOutcome, LineError>
        requires { self.old.user < length queues.old.users }
        ensures ok { (m : WholeMachine) (disks : List DiskAt)
            → IfOk result (λ reported.
            outcome (record {
              machine = m;
              devices = devices_on self.new queues.new;
              disks = disks;
            }) reported
            ≡ printer_answered place
            (record { machine = m; devices = devices_on self.old queues.old; disks = disks })) }
        ensures err { OnErr result
            (devices_on self.new queues.new ≡ devices_on self.old queues.old) }
        ensures asked { result ≡ Err LineError.Memory → IsSome place }
        ensures memory { result ≡ Err LineError.FramesOut → ⊥ }
        ensures other_users { KeepsOtherUsers self.old queues.old self.new queues.new }
    {
        if place.is_none() {
            return Ok(LineOutcome::Said(Response::NoFile));
        }
        match self.close_printer(alloc, queues) {
            Ok(()) => Ok(LineOutcome::Closed(ClosedFiles {
                punched: None,
                printed: place,
            })),
            Err(_) => Err(LineError::Memory),
        }
    }
}
