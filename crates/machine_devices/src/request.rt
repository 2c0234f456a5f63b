//! What a line asks of a machine with devices.
ghost use Rattle.std.specs.Prelude.{◌≡◌, Ok};
ghost use Rattle.cp_console.specs.Asked.{asked_of};
ghost use Rattle.cp_console.specs.Commands.{command_of};
ghost use Rattle.machine_devices.specs.Requests.{asked_request, command_request, off_request};
ghost use Rattle.machine_devices.specs.Requests.{plain_request, request_in};

use cp_console::commands::{Command, CommandError, read_command};
use cp_console::device_commands::DeviceCommand;
use cp_console::lines::{Asked, asked_of};
use cp_console::responses::Response;
use machine_panel::{Mode, PanelLine};
use s370_num::DevAddr;

/// What a line asks of a machine with devices.
#[derive(PartialEq, Eq, Drop)]
pub enum Request<'a> {
    /// LOGON switches the machine on.
    LogsOn,
    /// LOGOFF.
    LogsOff,
    /// SYSTEM RESET.
    Resets,
    /// A line for the console of a machine that runs.
    Types,
    /// IPL: the machine is loaded from the device of this address.
    Loads(DevAddr),
    /// A command that concerns devices' files or other users.
    Asks(DeviceCommand<'a>),
    /// What the machine alone answers.
    Alone(PanelLine),
}

/// Returns what a line that was cut and cleaned asks of a machine in this mode, with a console or
/// without one.
pub(crate) fn request_of(mode: Mode, has_console: bool, text: &[u8]) -> Request<'_>
    ensures { result ≡ request_in mode has_console text.now }
{
    match mode {
        Mode::Off => off_request(text),
        Mode::Stopped | Mode::Running => on_request(mode, has_console, text),
    }
}

/// Returns the request of a line to a machine that is on.
fn on_request(mode: Mode, has_console: bool, text: &[u8]) -> Request<'_>
    ensures { result ≡ asked_request mode has_console (asked_of text.now) }
{
    match asked_of(text) {
        Asked::Stop => Request::Alone(PanelLine::Stop),
        Asked::Command(text) => command_request(text),
        Asked::Plain(text) => plain_request(mode, has_console, text),
    }
}

/// Returns the request of a line that is not addressed to the control program: to a machine that
/// runs, a line for its console, if it has one; to one that is stopped, a command.
fn plain_request(mode: Mode, has_console: bool, text: &[u8]) -> Request<'_>
    ensures { result ≡ plain_request mode has_console text.now }
{
    match mode {
        Mode::Running => {
            if has_console {
                Request::Types
            } else {
                Request::Alone(PanelLine::Says(Response::NoConsole))
            }
        }
        Mode::Stopped => command_request(text),
        Mode::Off => Request::Alone(PanelLine::Nothing),
    }
}

/// Returns the request of a line to a machine that is off: LOGON, or only a response.
fn off_request(text: &[u8]) -> Request<'_>
    ensures { result ≡ off_request (command_of text.now) }
{
    match read_command(text) {
        Ok(Command::Logon) => Request::LogsOn,
        _ => Request::Alone(PanelLine::Says(Response::NotLoggedOn)),
    }
}

/// Returns the request of a command's text, or that of a response if it is no command.
fn command_request(text: &[u8]) -> Request<'_>
    ensures { result ≡ command_request (command_of text.now) }
{
    match read_command(text) {
        Ok(command) => request_by(command),
        Err(CommandError::Unknown) => Request::Alone(PanelLine::Says(Response::UnknownCommand)),
        Err(CommandError::Operand(place)) => {
            Request::Alone(PanelLine::Says(Response::BadOperand(place)))
        }
        // No command takes memory to be read.
        Err(CommandError::Memory) => Request::Alone(PanelLine::Nothing),
    }
}

/// Returns the request of a command to a machine that is on.
fn request_by(command: Command<'_>) -> Request<'_>
    ensures { result ≡ command_request (Ok command.entry) }
{
    match command {
        Command::Nothing => Request::Alone(PanelLine::Nothing),
        Command::Logon => Request::Alone(PanelLine::Says(Response::AlreadyLoggedOn)),
        Command::Logoff => Request::LogsOff,
        Command::Begin(address) => Request::Alone(PanelLine::Begin(address)),
        Command::SystemReset => Request::Resets,
        Command::External => Request::Alone(PanelLine::External),
        Command::Display(place) => Request::Alone(PanelLine::Display(place)),
        Command::Store(change) => Request::Alone(PanelLine::Store(change)),
        Command::Ipl(device) => Request::Loads(device),
        Command::Device(command) => Request::Asks(command),
    }
}
