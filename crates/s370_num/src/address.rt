//! Storage addresses, words and device addresses.

ghost use Rattle.std.specs.Prelude.{◌≡◌, ℕ, ◌+◌, ◌*◌, ◌/◌, ◌%◌, ◌^◌, ◌<◌, ◌↔◌, IsSome, IfSome};
ghost use Rattle.std.specs.Prelude.{Some};
ghost use Rattle.std.specs.Int.{w32, cast_signed, cast_unsigned, from_be_bytes, to_be_bytes};
ghost use Rattle.s370_num.specs.Address.{storage_address, channel_of, address_text, word_text};
ghost use Rattle.s370_num.specs.Address.{device_text};

use byteorder::{BigEndian, ByteOrder};
use std::fmt;
use std::marker::Model;

/// An address of main storage: a number below 2^24.
#[derive(Clone, Copy, PartialEq, Eq, PartialOrd, Ord, Debug)]
pub struct Addr24 {
    value: u32,
}

impl Model for Addr24 {
    ghost use Rattle.std.specs.Prelude.{ℕ, ◌^◌, ◌<◌};

    ghost Value = { ℕ };

    ghost view = { λ a. a.value };

    ghost invariant = { λ a. a.value < 2 ^ 24 };

    ghost inverse = { λ n. record { value = n } };
}

impl Addr24 {
    /// Returns the address with this number, if it has no more than 24 bits.
    #[inline(always)]
    pub fn new(value: u32) -> Option<Addr24>
        ensures found { IsSome result ↔ (value < 2 ^ 24) }
        ensures value { IfSome result (λ address. address ≡ value) }
    {
        if value < 0x100_0000 {
            Some(Addr24 { value })
        } else {
            None
        }
    }

    /// Returns the address in the right 24 bits of a number; the other bits are dropped.
    #[inline(always)]
    pub fn wrapping(value: u32) -> Addr24
        ensures { result ≡ storage_address value }
    {
        Addr24 {
            value: value & 0xFF_FFFF,
        }
    }

    /// Returns the address as a number.
    #[inline(always)]
    pub fn get(self) -> u32
        ensures value { result ≡ self }
        ensures below { result < 2 ^ 24 }
    {
        self.value
    }

    /// Returns the address that is `bytes` bytes further on; past the last address, counting goes
    /// on at zero.
    #[inline(always)]
    pub fn wrapping_add(self, bytes: u32) -> Addr24
        ensures { result ≡ storage_address (self + bytes) }
    {
        Addr24::wrapping(self.value.wrapping_add(bytes))
    }
}

/// A word: 32 bits, which instructions take as a number without a sign or as one in two's
/// complement.
#[derive(Clone, Copy, PartialEq, Eq, Debug)]
pub struct Word {
    bits: u32,
}

impl Model for Word {
    ghost use Rattle.std.specs.Prelude.{ℕ};

    ghost Value = { ℕ };

    ghost view = { λ w. w.bits };

    ghost inverse = { λ n. record { bits = n } };
}

impl Word {
    /// Returns the word that is this number without a sign.
    #[inline(always)]
    pub fn from_unsigned(number: u32) -> Word
        ensures { result ≡ number }
    {
        Word { bits: number }
    }

    /// Returns the word as a number without a sign.
    #[inline(always)]
    pub fn unsigned(self) -> u32
        ensures { result ≡ self }
    {
        self.bits
    }

    /// Returns the word that is this number in two's complement.
    #[inline(always)]
    pub fn from_signed(number: i32) -> Word
        ensures { result ≡ cast_unsigned w32 number }
    {
        Word {
            bits: number.cast_unsigned(),
        }
    }

    /// Returns the word as a number in two's complement, from -2^31 to 2^31 - 1.
    #[inline(always)]
    pub fn signed(self) -> i32
        ensures { result ≡ cast_signed w32 self }
    {
        self.bits.cast_signed()
    }

    /// Returns the word that is in storage as these bytes, the leftmost first.
    #[inline(always)]
    pub fn from_bytes(bytes: &[u8; 4]) -> Word
        ensures { result ≡ from_be_bytes w32 bytes.now }
    {
        Word {
            bits: BigEndian::read_u32(bytes),
        }
    }

    /// Returns the bytes of the word as they are in storage, the leftmost first.
    #[inline(always)]
    pub fn to_bytes(self) -> [u8; 4]
        ensures { result ≡ to_be_bytes w32 self }
    {
        let mut bytes = [0; 4];
        BigEndian::write_u32(&mut bytes, self.bits);
        bytes
    }
}

/// The address of a device: a channel, and a unit of that channel.
#[derive(Clone, Copy, PartialEq, Eq, PartialOrd, Ord, Debug)]
pub struct DevAddr {
    value: u16,
}

impl Model for DevAddr {
    ghost use Rattle.std.specs.Prelude.{ℕ};

    ghost Value = { ℕ };

    ghost view = { λ d. d.value };

    ghost inverse = { λ n. record { value = n } };
}

impl DevAddr {
    /// Returns the device address with this number.
    #[inline(always)]
    pub fn new(value: u16) -> DevAddr
        ensures { result ≡ value }
    {
        DevAddr { value }
    }

    /// Returns the device address as a number.
    #[inline(always)]
    pub fn get(self) -> u16
        ensures { result ≡ self }
    {
        self.value
    }

    /// Returns the channel to which the device is attached: the high eight bits of its address.
    #[inline(always)]
    pub fn channel(self) -> u8
        ensures { result ≡ channel_of self }
    {
        (self.value >> 8) as u8
    }
}

impl fmt::Display for Addr24 {
    ghost output = { λ address. Some (address_text address) };

    /// Writes the address as six hexadecimal digits.
    fn fmt<W: fmt::Write>(&self, f: &mut fmt::Formatter<W>) -> fmt::Result {
        let [_, high, middle, low] = self.value.to_be_bytes();
        write!(f, "{high:02X}{middle:02X}{low:02X}")
    }
}

impl fmt::Display for Word {
    ghost output = { λ word. Some (word_text word) };

    /// Writes the word as eight hexadecimal digits.
    fn fmt<W: fmt::Write>(&self, f: &mut fmt::Formatter<W>) -> fmt::Result {
        let [highest, high, middle, low] = self.bits.to_be_bytes();
        write!(f, "{highest:02X}{high:02X}{middle:02X}{low:02X}")
    }
}

impl fmt::Display for DevAddr {
    ghost output = { λ device. Some (device_text device) };

    /// Writes the device address as three hexadecimal digits, or four if the channel needs two.
    fn fmt<W: fmt::Write>(&self, f: &mut fmt::Formatter<W>) -> fmt::Result {
        let [channel, unit] = self.value.to_be_bytes();
        write!(f, "{channel:X}{unit:02X}")
    }
}
