//! The lines that the bytes of a terminal make, by telnet (RFC 854) or plain.
ghost use Rattle.std.specs.Prelude.{◌≡◌, IfOk};
ghost use Rattle.std.specs.Result.{OnOk};
ghost use Rattle.terminal_lines.specs.Decoder.{after_byte, after_command, after_option, after_text};
ghost use Rattle.terminal_lines.specs.Decoder.{nothing_typed, printable, with_character};

use crate::bytes::Bytes;
use std::alloc::{AllocError, Global};
use std::marker::Model;
use std::mem;

/// The most characters of a line that are taken.
pub const LINE_LENGTH: usize = 130;

const BACKSPACE: u8 = 8;

const NEWLINE: u8 = 10;

const RETURN: u8 = 13;

const RUBOUT: u8 = 127;

const PARAMETERS_END: u8 = 240;

const BREAK: u8 = 243;

const INTERRUPT: u8 = 244;

const ARE_YOU_THERE: u8 = 246;

const ERASE_CHARACTER: u8 = 247;

const ERASE_LINE: u8 = 248;

const PARAMETERS: u8 = 250;

const WILL: u8 = 251;

const WONT: u8 = 252;

const DO: u8 = 253;

const DONT: u8 = 254;

const COMMAND: u8 = 255;

const ECHO: u8 = 1;

/// What the next byte is.
#[derive(Clone, Copy, Drop)]
pub enum Expects {
    /// Text.
    Text,
    /// A command of telnet.
    Command,
    /// The option that this command is about.
    Option(u8),
    /// A parameter of an option.
    Parameter,
    /// A parameter of an option, or the end of the parameters.
    ParameterEnd,
}

/// What comes of a byte.
#[derive(Drop)]
pub enum Decoded {
    /// Nothing.
    Nothing,
    /// A line is whole.
    Line(Bytes),
    /// An option is declined by this command.
    Declines {
        /// WONT or DONT.
        command: u8,
        /// The option.
        option: u8,
    },
    /// The terminal asks whether somebody is there.
    AreYouThere,
}

/// The line that is being typed at a terminal.
#[derive(Drop)]
pub struct LineDecoder {
    line: Bytes,
    expects: Expects,
    is_after_return: bool,
}

impl Model for LineDecoder {
    ghost use Rattle.terminal_lines.specs.Typed.{Typed};

    ghost Value = { Typed };

    ghost view = { λ d. record {
      line = d.line;
      expects = d.expects;
      is_after_return = d.is_after_return;
    } };
}

impl LineDecoder {
    /// Returns the decoder of a terminal at which nothing was typed.
    pub fn new(alloc: Global) -> LineDecoder
        ensures { result ≡ nothing_typed }
    {
        LineDecoder {
            line: Bytes::new(alloc),
            expects: Expects::Text,
            is_after_return: false,
        }
    }

    /// Takes the next byte of a terminal, and returns what it completes: a line, an option to
    /// decline, the question whether somebody is there, or nothing.
    ///
    /// # Errors
    ///
    /// `AllocError` if memory is refused; what this is then is not specified.
    pub fn take(&mut self, alloc: Global, byte: u8) -> Result<Decoded, AllocError>
        ensures { IfOk result (λ decoded. after_byte self.old byte
            ≡ record { typed = self.new; decoded = decoded }) }
    {
        match self.expects {
            Expects::Text => self.take_text(alloc, byte),
            Expects::Command => self.take_command(alloc, byte),
            Expects::Option(command) => Ok(self.take_option(command, byte)),
            Expects::Parameter => {
                if byte == COMMAND {
                    self.expects = Expects::ParameterEnd;
                }
                Ok(Decoded::Nothing)
            }
            Expects::ParameterEnd => {
                self.expects = if byte == PARAMETERS_END {
                    Expects::Text
                } else {
                    Expects::Parameter
                };
                Ok(Decoded::Nothing)
            }
        }
    }

    /// Takes a byte of text, which is added to the line if there is room, erases a character, ends
    /// the line and returns it, begins a telnet command, or, as LF or NUL after CR, does nothing.
    fn take_text(&mut self, alloc: Global, byte: u8) -> Result<Decoded, AllocError>
        ensures { IfOk result (λ decoded. after_text self.old byte
            ≡ record { typed = self.new; decoded = decoded }) }
    {
        if byte == COMMAND {
            self.expects = Expects::Command;
            return Ok(Decoded::Nothing);
        }
        let was_return = self.is_after_return;
        self.is_after_return = byte == RETURN;
        self.expects = Expects::Text;
        match byte {
            NEWLINE | 0 if was_return => Ok(Decoded::Nothing),
            RETURN | NEWLINE => Ok(Decoded::Line(mem::replace(&mut self.line, Bytes::new(alloc)))),
            BACKSPACE | RUBOUT => {
                self.line.pop();
                Ok(Decoded::Nothing)
            }
            _ => {
                add(&mut self.line, printable(byte))?;
                Ok(Decoded::Nothing)
            }
        }
    }

    /// Takes the byte after IAC: another IAC adds a blank, others erase a character or the line,
    /// begin an option or parameters, or ask for somebody; a break or interrupt drops the line and
    /// returns `#CP`.
    fn take_command(&mut self, alloc: Global, byte: u8) -> Result<Decoded, AllocError>
        ensures { IfOk result (λ decoded. after_command self.old byte
            ≡ record { typed = self.new; decoded = decoded }) }
    {
        self.expects = match byte {
            PARAMETERS => Expects::Parameter,
            WILL | WONT | DO | DONT => Expects::Option(byte),
            _ => Expects::Text,
        };
        match byte {
            COMMAND => {
                self.is_after_return = false;
                add(&mut self.line, b' ')?;
                Ok(Decoded::Nothing)
            }
            ERASE_CHARACTER => {
                self.line.pop();
                Ok(Decoded::Nothing)
            }
            ERASE_LINE => {
                self.line.clear();
                Ok(Decoded::Nothing)
            }
            BREAK | INTERRUPT => {
                self.line.clear();
                Ok(Decoded::Line(Bytes::of(alloc, b"#CP")?))
            }
            ARE_YOU_THERE => Ok(Decoded::AreYouThere),
            _ => Ok(Decoded::Nothing),
        }
    }

    /// Takes the option of a telnet command, and returns that it is declined, if the command is
    /// WILL, or DO for another option than ECHO.
    fn take_option(&mut self, command: u8, option: u8) -> Decoded
        ensures { after_option self.old command option
            ≡ record { typed = self.new; decoded = result } }
    {
        self.expects = Expects::Text;
        match command {
            WILL => Decoded::Declines {
                command: DONT,
                option,
            },
            DO if option != ECHO => Decoded::Declines {
                command: WONT,
                option,
            },
            _ => Decoded::Nothing,
        }
    }
}

/// Appends a character to a line, if it has fewer than 130.
fn add(line: &mut Bytes, character: u8) -> Result<(), AllocError>
    ensures { OnOk result (line.new ≡ with_character line.old character) }
{
    if line.as_slice().len() < LINE_LENGTH {
        line.push(character)?;
    }
    Ok(())
}

/// Returns the character that a byte is in a line: a blank for what is no printable ASCII
/// character.
pub fn printable(byte: u8) -> u8
    ensures { result ≡ printable byte }
{
    if byte >= b' ' && byte < RUBOUT {
        byte
    } else {
        b' '
    }
}
