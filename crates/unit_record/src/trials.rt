//! Devices as a program would use them that is only tried: each is borrowed, and stays as it is.
//!
//! A walk over one of these has the ending and the storage of the walk over the device: so it says
//! which pages the device's own program will touch. It takes no memory.
ghost use Rattle.std.specs.Prelude.{◌≡◌};
ghost use Rattle.unit_record.specs.Console.{read_answer as line_answer};
ghost use Rattle.unit_record.specs.Trials.{ViewsConsole, ViewsPrinter, ViewsPunch, console_seen};
ghost use Rattle.unit_record.specs.Trials.{printer_seen, punch_seen};

use crate::console::Console;
use crate::front::{COMMAND_REJECT, NO_OPERATION, is_sense};
use crate::outgoing::Outgoing;
use crate::printer::Printer;
use crate::punch::Punch;
use crate::record::RecordBytes;
use s370_walk::{Answer, Device, Order, UnitStatus};
use std::alloc::AllocError;
use std::collections::VecDeque;
use std::marker::Model;

/// A console on trial: it reads the lines that wait where they are, and keeps none that is written.
#[derive(Drop)]
pub struct ConsoleTrial<'a> {
    waiting: &'a VecDeque<RecordBytes>,
    read: usize,
    sense: u8,
    giving: Outgoing,
}

impl<'a> Model for ConsoleTrial<'a> {
    ghost use Rattle.std.specs.Prelude.{drop, length, ◌≤◌};
    ghost use Rattle.unit_record.specs.Trials.{ConsoleSeen};

    ghost Value = { ConsoleSeen };

    ghost view = { λ c. record {
      waiting = drop c.read c.waiting.now.items;
      sense = c.sense;
      giving = c.giving;
    } };

    ghost invariant = { λ c. c.read ≤ length c.waiting.now.items };
}

impl<'a> ConsoleTrial<'a> {
    ghost use Rattle.unit_record.specs.Trials.{seen_read};

    /// Makes the next waiting line that the dry run has not read yet the one to give, or refuses
    /// the read if there is none; the console keeps its lines.
    fn read(&mut self) -> Answer
        ensures answer { result ≡ line_answer self.old.waiting }
        ensures after { self.new ≡ seen_read self.old self.old.waiting }
    {
        match self.waiting.get(self.read) {
            None => Answer::Refused(UnitStatus::UNIT_EXCEPTION),
            Some(line) => {
                let bytes = line.len();
                self.giving = Outgoing::of(RecordBytes::of(line.as_slice()));
                self.read += 1;
                Answer::Input(bytes as u32)
            }
        }
    }
}

impl<'a> Device for ConsoleTrial<'a> {
    ghost use Rattle.s370_walk.specs.Short.{nothing_needed};
    ghost use Rattle.unit_record.specs.Trials.{console_trial};

    ghost machine = { console_trial };

    ghost needs_memory = { nothing_needed };

    /// Returns what a console would answer to a command, and keeps only the bytes to give or the
    /// sense of a rejected one; nothing is written.
    fn command(&mut self, order: Order) -> Result<Answer, AllocError> {
        Ok(match order.command.code {
            0x01 | 0x09 => Answer::OutputUpTo(132),
            0x0A => self.read(),
            NO_OPERATION => Answer::Immediate,
            _ if is_sense(order) => {
                self.giving = Outgoing::of(RecordBytes::of(&[self.sense]));
                Answer::Input(1)
            }
            _ => {
                self.sense = COMMAND_REJECT;
                Answer::Refused(UnitStatus::UNIT_CHECK)
            }
        })
    }

    /// Returns false: no command ends before the bytes that it announced.
    fn is_done(&self) -> bool {
        false
    }

    /// Returns the greatest number: only the count ends a command.
    fn ready(&self) -> u32 {
        u32::MAX
    }

    /// Returns the next byte of the line or sense that is read and moves on past it, or returns
    /// zero if none is left.
    fn give(&mut self) -> u8 {
        self.giving.give()
    }

    /// Does nothing: bytes that are written in a dry run are dropped.
    fn take(&mut self, _byte: u8) {}

    /// Returns no status beyond the end of the command.
    fn finish(&mut self) -> UnitStatus {
        UnitStatus::NONE
    }
}

/// A punch on trial.
#[derive(Drop)]
pub struct PunchTrial {
    sense: u8,
}

impl Model for PunchTrial {
    ghost use Rattle.unit_record.specs.Trials.{SenseSeen};

    ghost Value = { SenseSeen };

    ghost view = { λ p. record { sense = p.sense } };
}

impl Device for PunchTrial {
    ghost use Rattle.s370_walk.specs.Short.{nothing_needed};
    ghost use Rattle.unit_record.specs.Trials.{punch_trial};

    ghost machine = { punch_trial };

    ghost needs_memory = { nothing_needed };

    /// Returns what a punch would answer to a command; a rejected one sets the sense, and no card
    /// is punched.
    fn command(&mut self, order: Order) -> Result<Answer, AllocError> {
        Ok(match order.command.code {
            0x01 => Answer::Output(80),
            NO_OPERATION => Answer::Immediate,
            _ if is_sense(order) => Answer::Input(1),
            _ => {
                self.sense = COMMAND_REJECT;
                Answer::Refused(UnitStatus::UNIT_CHECK)
            }
        })
    }

    /// Returns false: no command ends before the bytes that it announced.
    fn is_done(&self) -> bool {
        false
    }

    /// Returns the greatest number: only the count ends a command.
    fn ready(&self) -> u32 {
        u32::MAX
    }

    /// Returns the sense byte.
    fn give(&mut self) -> u8 {
        self.sense
    }

    /// Does nothing: bytes that are punched in a dry run are dropped.
    fn take(&mut self, _byte: u8) {}

    /// Returns no status beyond the end of the command.
    fn finish(&mut self) -> UnitStatus {
        UnitStatus::NONE
    }
}

/// A printer on trial.
#[derive(Drop)]
pub struct PrinterTrial {
    sense: u8,
}

impl Model for PrinterTrial {
    ghost use Rattle.unit_record.specs.Trials.{SenseSeen};

    ghost Value = { SenseSeen };

    ghost view = { λ p. record { sense = p.sense } };
}

impl Device for PrinterTrial {
    ghost use Rattle.s370_walk.specs.Short.{nothing_needed};
    ghost use Rattle.unit_record.specs.Trials.{printer_trial};

    ghost machine = { printer_trial };

    ghost needs_memory = { nothing_needed };

    /// Returns what a printer would answer to a command; a rejected one sets the sense, and nothing
    /// is printed.
    fn command(&mut self, order: Order) -> Result<Answer, AllocError> {
        Ok(match order.command.code {
            0x01 | 0x09 | 0x11 | 0x19 | 0x89 => Answer::OutputUpTo(132),
            0x0B | 0x13 | 0x1B | 0x8B => Answer::Immediate,
            NO_OPERATION => Answer::Immediate,
            _ if is_sense(order) => Answer::Input(1),
            _ => {
                self.sense = COMMAND_REJECT;
                Answer::Refused(UnitStatus::UNIT_CHECK)
            }
        })
    }

    /// Returns false: no command ends before the bytes that it announced.
    fn is_done(&self) -> bool {
        false
    }

    /// Returns the greatest number: only the count ends a command.
    fn ready(&self) -> u32 {
        u32::MAX
    }

    /// Returns the sense byte.
    fn give(&mut self) -> u8 {
        self.sense
    }

    /// Does nothing: bytes that are printed in a dry run are dropped.
    fn take(&mut self, _byte: u8) {}

    /// Returns no status beyond the end of the command.
    fn finish(&mut self) -> UnitStatus {
        UnitStatus::NONE
    }
}

impl Console {
    /// Returns a console for a dry run, which begins as this one is now and leaves it as it is.
    pub fn trial(&self) -> ConsoleTrial<'_>
        ensures { result ≡ console_seen self.now }
    {
        ConsoleTrial {
            waiting: &self.waiting,
            read: 0,
            sense: self.sense,
            giving: self.giving.copy(),
        }
    }
}

impl Punch {
    /// Returns a punch for a dry run, which begins with the sense of this one and leaves it as it
    /// is.
    pub fn trial(&self) -> PunchTrial
        ensures { result ≡ punch_seen self.now }
    {
        PunchTrial {
            sense: self.sense(),
        }
    }
}

impl Printer {
    /// Returns a printer for a dry run, which begins with the sense of this one and leaves it as it
    /// is.
    pub fn trial(&self) -> PrinterTrial
        ensures { result ≡ printer_seen self.now }
    {
        PrinterTrial {
            sense: self.sense(),
        }
    }
}

/// Proves that the devices for dry runs behave as a view of the real ones in each walk; it has no
/// effect.
pub fn trials_view_their_devices()
    ensures console { ViewsConsole }
    ensures punch { ViewsPunch }
    ensures printer { ViewsPrinter }
{}
