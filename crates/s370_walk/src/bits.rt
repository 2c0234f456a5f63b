//! The bits of command words and status words (GA22-7000, "Channel-Command Word" and
//! "Channel-Status Word").
ghost use Rattle.std.specs.Prelude.{◌≡◌, ◌%◌, ◌==◌};
ghost use Rattle.s370_walk.specs.Bits.{has_bits, both};

/// The command code of a command word.
#[derive(Clone, Copy, Debug, PartialEq, Eq)]
pub struct CommandCode {
    /// The eight bits.
    pub code: u8,
}

impl CommandCode {
    /// Returns whether the command code is that of a transfer in channel: its low four bits are
    /// 1000.
    #[inline(always)]
    pub fn is_transfer_in_channel(self) -> bool
        ensures { result ≡ (self.code % 16 == 8) }
    {
        self.code % 16 == 8
    }

    /// Returns whether the low four bits of the command code are zero, which no command has.
    #[inline(always)]
    pub fn is_invalid(self) -> bool
        ensures { result ≡ (self.code % 16 == 0) }
    {
        self.code % 16 == 0
    }

    /// Returns whether the command code is that of a control command: its low two bits are 11.
    #[inline(always)]
    pub fn is_control(self) -> bool
        ensures { result ≡ (self.code % 4 == 3) }
    {
        self.code % 4 == 3
    }
}

/// The flags of a command word, bits 32 to 39.
#[derive(Clone, Copy, Debug, PartialEq, Eq)]
pub struct Flags {
    /// The eight bits.
    pub bits: u8,
}

impl Flags {
    /// No flag.
    pub const NONE: Flags = Flags { bits: 0 };
    /// Chain data (CD): the next word goes on with the same command.
    pub const CHAIN_DATA: Flags = Flags { bits: 0x80 };
    /// Chain command (CC): the next word is a command.
    pub const CHAIN_COMMAND: Flags = Flags { bits: 0x40 };
    /// Suppress the indication of an incorrect length (SLI).
    pub const SUPPRESS_LENGTH: Flags = Flags { bits: 0x20 };
    /// Skip: what an input gives is not stored.
    pub const SKIP: Flags = Flags { bits: 0x10 };
    /// Program-controlled interruption (PCI).
    pub const PROGRAM_CONTROLLED: Flags = Flags { bits: 0x08 };
    /// Indirect data addressing (IDA).
    pub const INDIRECT: Flags = Flags { bits: 0x04 };
    /// What a word has to have zero: PCI, and bits 38 and 39.
    pub const INVALID: Flags = Flags { bits: 0x0B };

    /// Returns whether at least one of the flags in `flags` is set.
    #[inline(always)]
    pub fn has(self, flags: Flags) -> bool
        ensures { result ≡ has_bits self.bits flags.bits }
    {
        self.bits & flags.bits != 0
    }
}

/// What a device says at the end of a command, or at its start: bits 32 to 39 of a channel status
/// word.
#[derive(Clone, Copy, Debug, PartialEq, Eq)]
pub struct UnitStatus {
    /// The eight bits.
    pub bits: u8,
}

impl UnitStatus {
    /// Nothing to say.
    pub const NONE: UnitStatus = UnitStatus { bits: 0 };
    /// The operator asks for attention.
    pub const ATTENTION: UnitStatus = UnitStatus { bits: 0x80 };
    /// The word after the next one is the next command.
    pub const STATUS_MODIFIER: UnitStatus = UnitStatus { bits: 0x40 };
    /// The control unit is free again.
    pub const CONTROL_UNIT_END: UnitStatus = UnitStatus { bits: 0x20 };
    /// The device cannot be started now.
    pub const BUSY: UnitStatus = UnitStatus { bits: 0x10 };
    /// The channel is free again.
    pub const CHANNEL_END: UnitStatus = UnitStatus { bits: 0x08 };
    /// The device is free again.
    pub const DEVICE_END: UnitStatus = UnitStatus { bits: 0x04 };
    /// Something went wrong, which a sense command says.
    pub const UNIT_CHECK: UnitStatus = UnitStatus { bits: 0x02 };
    /// Something that is not usual, as the end of a file.
    pub const UNIT_EXCEPTION: UnitStatus = UnitStatus { bits: 0x01 };
    /// Channel end and device end, which every ending has.
    pub const ENDED: UnitStatus = UnitStatus { bits: 0x0C };
    /// Unit check and unit exception: no next command is chained.
    pub const UNUSUAL: UnitStatus = UnitStatus { bits: 0x03 };

    /// Returns whether at least one of the bits in `status` is set.
    #[inline(always)]
    pub fn has(self, status: UnitStatus) -> bool
        ensures { result ≡ has_bits self.bits status.bits }
    {
        self.bits & status.bits != 0
    }

    /// Returns the union of two unit statuses: the bits that either of them has.
    #[inline(always)]
    pub fn with(self, status: UnitStatus) -> UnitStatus
        ensures { result ≡ both self status }
    {
        UnitStatus {
            bits: self.bits | status.bits,
        }
    }
}

/// What the channel says at the end of a program: bits 40 to 47 of a channel status word.
#[derive(Clone, Copy, PartialEq, Eq)]
pub struct ChannelStatus {
    /// The eight bits.
    pub bits: u8,
}

impl ChannelStatus {
    /// Nothing to say.
    pub const NONE: ChannelStatus = ChannelStatus { bits: 0 };
    /// A program-controlled interruption.
    pub const PROGRAM_CONTROLLED: ChannelStatus = ChannelStatus { bits: 0x80 };
    /// The device had other bytes than the words count.
    pub const INCORRECT_LENGTH: ChannelStatus = ChannelStatus { bits: 0x40 };
    /// The channel program is wrong, or names what lies past storage.
    pub const PROGRAM_CHECK: ChannelStatus = ChannelStatus { bits: 0x20 };
    /// The key of the program does not fit.
    pub const PROTECTION_CHECK: ChannelStatus = ChannelStatus { bits: 0x10 };
    /// Data were wrong on their way.
    pub const CHANNEL_DATA_CHECK: ChannelStatus = ChannelStatus { bits: 0x08 };
    /// The channel is faulty.
    pub const CHANNEL_CONTROL_CHECK: ChannelStatus = ChannelStatus { bits: 0x04 };
    /// The control unit answered wrongly.
    pub const INTERFACE_CONTROL_CHECK: ChannelStatus = ChannelStatus { bits: 0x02 };
    /// Words were fetched too late.
    pub const CHAINING_CHECK: ChannelStatus = ChannelStatus { bits: 0x01 };
}
