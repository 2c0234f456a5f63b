//! How an instruction ends, before the processor goes on.
use s370_psw::ProgramCode;
use s370_store::Page;

/// What an instruction asks of a device, or of a channel.
#[derive(Clone, Copy, Debug, PartialEq, Eq)]
pub enum IoOperation {
    /// 9C SIO, SIOF: start a channel program.
    Start,
    /// 9D TIO: take the status that is pending.
    Test,
    /// 9E HIO, HDV: withdraw a channel program.
    Halt,
    /// 9F TCH: whether a device of the channel has a status pending.
    TestChannel,
}

/// How an instruction ended that was carried out.
#[derive(Clone, Copy, PartialEq, Eq)]
pub enum Completion {
    /// It is done, and the next instruction follows.
    Done,
    /// It is done, and the next instruction is at this address, of which 24 bits count.
    Branch(u32),
    /// A part of it is done, and it is next again.
    Again,
    /// It is done, and then the program is interrupted with this code. Only registers have changed.
    Interrupted(ProgramCode),
    /// A supervisor call with this number; nothing else is done.
    SupervisorCall(u8),
    /// The device of this address, or its channel, is asked; nothing else is done. Who has the
    /// devices sets the condition code.
    InputOutput(IoOperation, u16),
}

/// Why an instruction was not carried out. It changed nothing.
#[derive(Clone, Copy, PartialEq, Eq)]
pub enum Refusal {
    /// It is suppressed by a program interruption.
    Program(ProgramCode),
    /// It needs this page, which is not present; nothing is decided before the page is brought.
    Absent(Page),
}
