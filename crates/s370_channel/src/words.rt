//! The words of a channel: command word, status word and address word (GA22-7000, "Channel-Command
//! Word", "Channel-Status Word" and "Channel-Address Word").
ghost use Rattle.std.specs.Prelude.{◌≡◌};
ghost use Rattle.s370_channel.specs.Words.{ccw_of, ccw_bytes, csw_of, csw_bytes, ending_word};
ghost use Rattle.s370_channel.specs.Words.{caw_of};

use byteorder::{BigEndian, ByteOrder};
use s370_num::{AccessKey, Addr24};
use s370_walk::{ChannelStatus, CommandCode, Ending, Flags, UnitStatus};

/// A channel command word: what a device is to do, and with which bytes of storage.
#[derive(Clone, Copy, PartialEq, Eq)]
pub struct StoredCcw {
    /// What is to be done.
    pub command: CommandCode,
    /// Where the data lie, or the list of their addresses; of a transfer in channel, where it
    /// leads.
    pub address: Addr24,
    /// How.
    pub flags: Flags,
    /// How many bytes.
    pub count: u16,
}

impl StoredCcw {
    /// Returns the channel command word that eight bytes of storage hold; bits 40 to 47 are
    /// ignored.
    pub fn from_bytes(bytes: &[u8; 8]) -> StoredCcw
        ensures { result ≡ ccw_of bytes.now }
    {
        StoredCcw {
            command: CommandCode { code: bytes[0] },
            address: Addr24::wrapping(BigEndian::read_u24(&bytes[1..])),
            flags: Flags { bits: bytes[4] },
            count: BigEndian::read_u16(&bytes[6..]),
        }
    }

    /// Returns the eight bytes of the channel command word, with zeros in bits 40 to 47.
    pub fn to_bytes(self) -> [u8; 8]
        ensures { result ≡ ccw_bytes self }
    {
        let mut bytes = [0; 8];
        bytes[0] = self.command.code;
        BigEndian::write_u24(&mut bytes[1..], self.address.get());
        bytes[4] = self.flags.bits;
        BigEndian::write_u16(&mut bytes[6..], self.count);
        bytes
    }
}

/// A channel status word: how a channel program ended.
#[derive(Clone, Copy, PartialEq, Eq)]
pub struct Csw {
    /// The key of the program.
    pub key: AccessKey,
    /// Eight bytes past the last word that was used, or the one that failed. A program over real
    /// storage has words past 24 bits; of this address the low 24 are stored.
    pub address: u32,
    /// The status of the device.
    pub unit: UnitStatus,
    /// The status of the channel.
    pub channel: ChannelStatus,
    /// The count that is left in the last word.
    pub count: u16,
}

impl Csw {
    /// Returns the channel status word of a program with this key that has ended; its address is 8
    /// past the last word.
    pub fn of_ending(key: AccessKey, ending: Ending) -> Csw
        ensures { result ≡ ending_word key ending }
    {
        Csw {
            key,
            address: ending.at.wrapping_add(8),
            unit: ending.unit,
            channel: ending.channel,
            count: ending.count,
        }
    }

    /// Returns the channel status word that eight bytes of storage hold; bits 4 to 7 are ignored.
    pub fn from_bytes(bytes: &[u8; 8]) -> Csw
        ensures { result ≡ csw_of bytes.now }
    {
        Csw {
            key: AccessKey::new(bytes[0] / 16),
            address: BigEndian::read_u24(&bytes[1..]),
            unit: UnitStatus { bits: bytes[4] },
            channel: ChannelStatus { bits: bytes[5] },
            count: BigEndian::read_u16(&bytes[6..]),
        }
    }

    /// Returns the eight bytes of the channel status word, as they are stored at location 64.
    pub fn to_bytes(self) -> [u8; 8]
        ensures { result ≡ csw_bytes self }
    {
        let mut bytes = [0; 8];
        bytes[0] = self.key.get() * 16;
        BigEndian::write_u24(&mut bytes[1..], Addr24::wrapping(self.address).get());
        bytes[4] = self.unit.bits;
        bytes[5] = self.channel.bits;
        BigEndian::write_u16(&mut bytes[6..], self.count);
        bytes
    }
}

/// A channel address word: where a channel program begins, and its key.
#[derive(Clone, Copy, PartialEq, Eq)]
pub struct Caw {
    /// The key that the accesses of the program to its data are tested with.
    pub key: AccessKey,
    /// Where its first word is.
    pub address: Addr24,
}

impl Caw {
    /// Returns the channel address word in 32 bits, or `None` if bits 4 to 7 are not zero or the
    /// address is not on a doubleword.
    pub fn from_word(word: u32) -> Option<Caw>
        ensures { result ≡ caw_of word }
    {
        if word / 0x100_0000 % 16 != 0 || word % 8 != 0 {
            return None;
        }
        Some(Caw {
            key: AccessKey::new((word / 0x1000_0000) as u8),
            address: Addr24::wrapping(word),
        })
    }
}
