//! External conditions.
ghost use Rattle.std.specs.Prelude.{◌≡◌, ℕ};
ghost use Rattle.s370_intr.specs.Units.{enabled_of, external_code, has_subclass, is_any, without};

use s370_rows::Cpu;

/// External conditions: those that wait to interrupt, or some of them.
#[derive(Clone, Copy, Debug, PartialEq, Eq)]
pub struct Pending {
    /// The interval timer went below zero.
    pub timer: bool,
    /// The operator pressed the interrupt key.
    pub key: bool,
}

impl Pending {
    /// No condition is pending.
    pub const NOTHING: Pending = Pending {
        timer: false,
        key: false,
    };

    /// Returns those of the pending external conditions that PSW and control register 0 let
    /// interrupt.
    #[inline(always)]
    pub fn enabled(self, cpu: &Cpu) -> Pending
        ensures { result ≡ enabled_of cpu.now self }
    {
        Pending {
            timer: self.timer && (cpu.psw.enables_external() && has_timer_subclass(cpu)),
            key: self.key && (cpu.psw.enables_external() && has_key_subclass(cpu)),
        }
    }

    /// Returns whether at least one external condition is pending.
    #[inline(always)]
    pub fn is_any(self) -> bool
        ensures { result ≡ is_any self }
    {
        self.timer || self.key
    }

    /// Returns the interruption code of all the pending external conditions together.
    #[inline]
    pub fn code(self) -> u16
        ensures { result ≡ external_code self }
    {
        let timer: u16 = if self.timer { 0x80 } else { 0 };
        let key: u16 = if self.key { 0x40 } else { 0 };
        timer | key
    }

    /// Returns the pending external conditions except for those that were taken.
    #[inline]
    pub fn without(self, taken: Pending) -> Pending
        ensures { result ≡ without self taken }
    {
        Pending {
            timer: self.timer && !taken.timer,
            key: self.key && !taken.key,
        }
    }
}

/// Returns whether bit 24 of control register 0 lets the timer interrupt.
#[inline(always)]
fn has_timer_subclass(cpu: &Cpu) -> bool
    ensures { result ≡ has_subclass cpu.now 24 }
{
    cpu.control[0] >> 7 & 1 == 1
}

/// Returns whether bit 25 of control register 0 lets the interrupt key interrupt.
#[inline(always)]
fn has_key_subclass(cpu: &Cpu) -> bool
    ensures { result ≡ has_subclass cpu.now 25 }
{
    cpu.control[0] >> 6 & 1 == 1
}
