//! The program status word in basic control mode.

ghost use Rattle.std.specs.Prelude.{◌≡◌, ℕ, ◌+◌, ◌*◌, ◌^◌, ◌<◌, ◌≤◌, ◌==◌};
ghost use Rattle.s370_psw.specs.Laws.{IsInRange, ReadsBack, LoadsBack, HoldsCodes, WritesBack};
ghost use Rattle.s370_psw.specs.Laws.{WritesAllBack};

use crate::length::Ilc;
use byteorder::{BigEndian, ByteOrder};
use s370_num::{AccessKey, Addr24, ConditionCode};
use std::marker::Model;

/// A program status word as the processor holds it: without interruption code and instruction
/// length code, which it has only where it is stored (GA22-7000, "Program-Status-Word Format in BC
/// Mode").
#[derive(Clone, Copy, PartialEq, Eq, Debug)]
pub struct Psw {
    // bits 0 to 15, as they are stored: the system mask, the key and the four flags
    left: u16,
    condition: ConditionCode,
    program_mask: u8,
    address: Addr24,
}

impl Model for Psw {
    ghost use Rattle.std.specs.Prelude.{◌≡◌, ℕ, ◌/◌, ◌%◌, ◌^◌, ◌<◌, ◌==◌};
    ghost use Rattle.s370_psw.specs.Fields.{Fields, left_of};

    ghost Value = { Fields };

    ghost view = { λ p. record {
      system_mask = p.left / 2 ^ 8;
      key = p.left / 2 ^ 4 % 2 ^ 4;
      extended = p.left / 2 ^ 3 % 2 == 1;
      machine_check = p.left / 2 ^ 2 % 2 == 1;
      wait = p.left / 2 % 2 == 1;
      problem = p.left % 2 == 1;
      condition = p.condition;
      program_mask = p.program_mask;
      address = p.address;
    } };

    ghost invariant = { λ p. p.program_mask < 16 };

    ghost inverse = { λ p. record {
      left = left_of p;
      condition = p.condition;
      program_mask = p.program_mask;
      address = p.address;
    } };
}

/// Between storage and the processor.
impl Psw {
    ghost use Rattle.s370_psw.specs.Fields.{fields_of, word_of, loaded, stored};

    /// Returns the PSW that loading these eight bytes gives; bits 16 to 33, with the two codes, are
    /// dropped.
    #[inline]
    pub fn from_bytes(bytes: &[u8; 8]) -> Psw
        ensures { result ≡ loaded bytes.now }
    {
        Psw::from_word(BigEndian::read_u64(bytes))
    }

    /// Returns the eight bytes that storing the PSW gives, with this interruption code and length
    /// code.
    #[inline]
    pub fn to_bytes(self, code: u16, length_code: Ilc) -> [u8; 8]
        ensures { result ≡ stored self code length_code }
    {
        let mut bytes = [0; 8];
        BigEndian::write_u64(&mut bytes, self.to_word(code, length_code));
        bytes
    }

    /// Returns the PSW that loading these 64 bits gives; bits 16 to 33, with the two codes, are
    /// dropped.
    #[inline]
    pub fn from_word(word: u64) -> Psw
        ensures { result ≡ fields_of word }
    {
        Psw {
            left: (word >> 48) as u16,
            condition: ConditionCode::new((word >> 28 & 3) as u8),
            program_mask: (word >> 24 & 0xF) as u8,
            address: Addr24::wrapping((word & 0xFF_FFFF) as u32),
        }
    }

    /// Returns the 64 bits that storing the PSW gives, with this interruption code and length code.
    #[inline]
    pub fn to_word(self, code: u16, length_code: Ilc) -> u64
        ensures { result ≡ word_of self code length_code }
    {
        let codes = code as u64 * 0x1_0000_0000 + length_code.get() as u64 * 0x4000_0000;
        let program = self.condition.get() as u64 * 0x1000_0000
            + self.program_mask as u64 * 0x100_0000;
        self.left as u64 * 0x1_0000_0000_0000 + codes + program + self.address.get() as u64
    }
}

/// What the fields say.
impl Psw {
    ghost use Rattle.s370_psw.specs.Fields.{enables_channel, enables_external};

    /// Returns the address of the next instruction.
    #[inline(always)]
    pub fn address(&self) -> Addr24
        ensures { result ≡ self.now.address }
    {
        self.address
    }

    /// Returns the PSW's access key, with which accesses to storage are tested.
    #[inline(always)]
    pub fn key(&self) -> AccessKey
        ensures { result ≡ self.now.key }
    {
        AccessKey::new((self.left >> 4 & 0xF) as u8)
    }

    /// Returns the condition code.
    #[inline(always)]
    pub fn condition(&self) -> ConditionCode
        ensures { result ≡ self.now.condition }
    {
        self.condition
    }

    /// Returns the four mask bits of program exceptions; the leftmost is that of fixed-point
    /// overflow.
    #[inline(always)]
    pub fn program_mask(&self) -> u8
        ensures value { result ≡ self.now.program_mask }
        ensures below { result < 16 }
    {
        self.program_mask
    }

    /// Returns the eight mask bits of interruptions: channel 0 is the leftmost, external the
    /// rightmost.
    #[inline(always)]
    pub fn system_mask(&self) -> u8
        ensures { result ≡ self.now.system_mask }
    {
        (self.left >> 8) as u8
    }

    /// Returns whether bit 12 is one, which asks for extended control mode.
    #[inline(always)]
    pub fn is_ec(&self) -> bool
        ensures { result ≡ self.now.extended }
    {
        self.left >> 3 & 1 == 1
    }

    /// Returns whether bit 13 is one, which lets machine checks interrupt.
    #[inline(always)]
    pub fn machine_check(&self) -> bool
        ensures { result ≡ self.now.machine_check }
    {
        self.left >> 2 & 1 == 1
    }

    /// Returns whether bit 14 is one: the processor waits for an interruption.
    #[inline(always)]
    pub fn waits(&self) -> bool
        ensures { result ≡ self.now.wait }
    {
        self.left >> 1 & 1 == 1
    }

    /// Returns whether bit 15 is one: the processor is in the problem state, without privileged
    /// instructions.
    #[inline(always)]
    pub fn is_problem(&self) -> bool
        ensures { result ≡ self.now.problem }
    {
        self.left & 1 == 1
    }

    /// Returns whether the system mask lets this channel interrupt: channels 0 to 5 have a bit
    /// each, and all higher ones share one.
    #[inline(always)]
    pub fn enables_channel(&self, channel: u8) -> bool
        ensures { result ≡ enables_channel self.now channel }
    {
        let place = if channel < 6 { channel } else { 6 };
        self.system_mask() >> (7 - place) & 1 == 1
    }

    /// Returns whether the system mask lets external conditions interrupt: its rightmost bit.
    #[inline(always)]
    pub fn enables_external(&self) -> bool
        ensures { result ≡ enables_external self.now }
    {
        self.system_mask() & 1 == 1
    }

    /// Returns whether the system mask is zero: no channel and no external condition may interrupt.
    #[inline(always)]
    pub fn is_disabled(&self) -> bool
        ensures { result ≡ (self.now.system_mask == 0) }
    {
        self.system_mask() == 0
    }
}

/// What instructions change.
impl Psw {
    /// Sets the system mask, and nothing else of the PSW.
    #[inline(always)]
    pub fn set_system_mask(&mut self, mask: u8)
        ensures { self.new ≡ record self.old { system_mask = mask } }
    {
        self.left = mask as u16 * 0x100 + (self.left & 0xFF);
    }

    /// Sets the address of the next instruction.
    #[inline(always)]
    pub fn set_address(&mut self, address: Addr24)
        ensures { self.new ≡ record self.old { address = address } }
    {
        self.address = address;
    }

    /// Sets the condition code.
    #[inline(always)]
    pub fn set_condition(&mut self, condition: ConditionCode)
        ensures { self.new ≡ record self.old { condition = condition } }
    {
        self.condition = condition;
    }

    /// Sets the four mask bits of program exceptions.
    #[inline(always)]
    pub fn set_program_mask(&mut self, mask: u8)
        requires { mask < 16 }
        ensures { self.new ≡ record self.old { program_mask = mask } }
    {
        self.program_mask = mask;
    }

    /// Sets whether the processor waits (bit 14).
    #[inline(always)]
    pub fn set_wait(&mut self, wait: bool)
        ensures { self.new ≡ record self.old { wait = wait } }
    {
        self.left = self.left - (self.left >> 1 & 1) * 2 + wait as u16 * 2;
    }

    /// Sets whether the processor is in the problem state (bit 15).
    #[inline(always)]
    pub fn set_problem(&mut self, problem: bool)
        ensures { self.new ≡ record self.old { problem = problem } }
    {
        let even = (self.left >> 1) * 2;
        self.left = if problem { even + 1 } else { even };
    }
}

/// Proves that each field of a PSW is no wider than its bits; it changes nothing.
#[inline(always)]
pub fn fields_in_range(psw: &Psw)
    ensures { IsInRange psw.now }
{
    let _ = psw.address.get();
    let _ = psw.key().get();
    let _ = psw.condition.get();
    let _mask = psw.system_mask();
}

/// Proves the laws of storing and loading a PSW; it has no effect.
///
/// A PSW that is stored with any codes and loaded again is the same PSW, its codes are in their
/// bits, and a PSW that is loaded and stored again has the bits that it had, except those of the
/// codes.
pub fn storing_and_loading()
    ensures reads_back { ReadsBack }
    ensures loads_back { LoadsBack }
    ensures holds_codes { HoldsCodes }
    ensures writes_back { WritesBack }
    ensures writes_all_back { WritesAllBack }
{}
