//! The operation codes.
ghost use Rattle.std.specs.Prelude.{◌≡◌};
ghost use Rattle.s370_cpu.specs.Opcodes.{opcode_at};

use s370_bytes::{Combine, Layout};
use s370_rows::{Arithmetic, ByteChange, ByteTest, IndexBranch, IoOperation, Shift};

/// When a branch is taken, and what else it does.
#[derive(Clone, Copy, PartialEq, Eq)]
pub enum Branching {
    /// Where one less is left in a register.
    Count,
    /// Where the mask has the condition code's bit.
    Condition,
    /// Always; a register takes the link information.
    Link,
}

/// An instruction for the supervisor state only.
#[derive(Clone, Copy, Debug, PartialEq, Eq)]
pub enum Control {
    SetStorageKey,
    InsertStorageKey,
    SetSystemMask,
    LoadPsw,
    /// The system mask is stored, then joined by and.
    StoreThenAnd,
    /// The system mask is stored, then joined by or.
    StoreThenOr,
    StoreControl,
    LoadControl,
    /// What a device or a channel is asked.
    InputOutput(IoOperation),
}

/// A family of rows that access no storage.
#[derive(Clone, Copy)]
pub enum RegisterRow {
    SetProgramMask,
    /// An operation on two registers.
    Register(Arithmetic),
    Multiply,
    Divide,
    LoadAddress,
    ShiftWord(Shift),
    ShiftPair(Shift),
    /// A branch to the address in a register.
    BranchRegister(Branching),
    /// A branch to the second operand's address.
    BranchTo(Branching),
    BranchOnIndex(IndexBranch),
}

/// A family of rows that fetch their operands, and change registers alone.
#[derive(Clone, Copy)]
pub enum FetchRow {
    /// An operation on a register and a word of storage.
    Word(Arithmetic),
    /// An operation on a register and a halfword of storage.
    Halfword(Arithmetic),
    MultiplyWord,
    MultiplyHalfword,
    DivideWord,
    ConvertToBinary,
    InsertCharacter,
    InsertCharacters,
    CompareCharacters,
    LoadMultiple,
    /// A test of a byte by the immediate one.
    TestByte(ByteTest),
    CompareStrings,
    ScanString,
    CompareLong,
}

/// A family of rows that store an operand.
#[derive(Clone, Copy)]
pub enum StoreRow {
    StoreWord,
    StoreHalfword,
    StoreCharacter,
    StoreCharacters,
    StoreMultiple,
    ConvertToDecimal,
    /// A change of a byte, mostly by the immediate one.
    ChangeByte(ByteChange),
    SwapWord,
    SwapDoubleword,
    /// A string that is changed by another.
    CombineStrings(Combine),
    Translate,
    /// A string of digits in another layout.
    LayOut(Layout),
    MoveLong,
}

/// A row of the instruction table, or a family of rows that differ by their operation.
#[derive(Clone, Copy)]
pub enum Opcode {
    /// No instruction has this operation code.
    Invalid,
    /// An instruction for the supervisor state only.
    Supervised(Control),
    SupervisorCall,
    Execute,
    Computes(RegisterRow),
    Fetches(FetchRow),
    Stores(StoreRow),
}

const NONE: Opcode = Opcode::Invalid;

const SPM: Opcode = Opcode::Computes(RegisterRow::SetProgramMask);

const BALR: Opcode = Opcode::Computes(RegisterRow::BranchRegister(Branching::Link));

const BCTR: Opcode = Opcode::Computes(RegisterRow::BranchRegister(Branching::Count));

const BCR: Opcode = Opcode::Computes(RegisterRow::BranchRegister(Branching::Condition));

const SSK: Opcode = Opcode::Supervised(Control::SetStorageKey);

const ISK: Opcode = Opcode::Supervised(Control::InsertStorageKey);

const SVC: Opcode = Opcode::SupervisorCall;

const MVCL: Opcode = Opcode::Stores(StoreRow::MoveLong);

const CLCL: Opcode = Opcode::Fetches(FetchRow::CompareLong);

const LPR: Opcode = Opcode::Computes(RegisterRow::Register(Arithmetic::LoadPositive));

const LNR: Opcode = Opcode::Computes(RegisterRow::Register(Arithmetic::LoadNegative));

const LTR: Opcode = Opcode::Computes(RegisterRow::Register(Arithmetic::LoadAndTest));

const LCR: Opcode = Opcode::Computes(RegisterRow::Register(Arithmetic::LoadComplement));

const NR: Opcode = Opcode::Computes(RegisterRow::Register(Arithmetic::And));

const CLR: Opcode = Opcode::Computes(RegisterRow::Register(Arithmetic::CompareLogical));

const OR: Opcode = Opcode::Computes(RegisterRow::Register(Arithmetic::Or));

const XR: Opcode = Opcode::Computes(RegisterRow::Register(Arithmetic::ExclusiveOr));

const LR: Opcode = Opcode::Computes(RegisterRow::Register(Arithmetic::Load));

const CR: Opcode = Opcode::Computes(RegisterRow::Register(Arithmetic::Compare));

const AR: Opcode = Opcode::Computes(RegisterRow::Register(Arithmetic::Add));

const SR: Opcode = Opcode::Computes(RegisterRow::Register(Arithmetic::Subtract));

const MR: Opcode = Opcode::Computes(RegisterRow::Multiply);

const DR: Opcode = Opcode::Computes(RegisterRow::Divide);

const ALR: Opcode = Opcode::Computes(RegisterRow::Register(Arithmetic::AddLogical));

const SLR: Opcode = Opcode::Computes(RegisterRow::Register(Arithmetic::SubtractLogical));

const STH: Opcode = Opcode::Stores(StoreRow::StoreHalfword);

const LA: Opcode = Opcode::Computes(RegisterRow::LoadAddress);

const STC: Opcode = Opcode::Stores(StoreRow::StoreCharacter);

const IC: Opcode = Opcode::Fetches(FetchRow::InsertCharacter);

const EX: Opcode = Opcode::Execute;

const BAL: Opcode = Opcode::Computes(RegisterRow::BranchTo(Branching::Link));

const BCT: Opcode = Opcode::Computes(RegisterRow::BranchTo(Branching::Count));

const BC: Opcode = Opcode::Computes(RegisterRow::BranchTo(Branching::Condition));

const LH: Opcode = Opcode::Fetches(FetchRow::Halfword(Arithmetic::Load));

const CH: Opcode = Opcode::Fetches(FetchRow::Halfword(Arithmetic::Compare));

const AH: Opcode = Opcode::Fetches(FetchRow::Halfword(Arithmetic::Add));

const SH: Opcode = Opcode::Fetches(FetchRow::Halfword(Arithmetic::Subtract));

const MH: Opcode = Opcode::Fetches(FetchRow::MultiplyHalfword);

const CVD: Opcode = Opcode::Stores(StoreRow::ConvertToDecimal);

const CVB: Opcode = Opcode::Fetches(FetchRow::ConvertToBinary);

const ST: Opcode = Opcode::Stores(StoreRow::StoreWord);

const N: Opcode = Opcode::Fetches(FetchRow::Word(Arithmetic::And));

const CL: Opcode = Opcode::Fetches(FetchRow::Word(Arithmetic::CompareLogical));

const O: Opcode = Opcode::Fetches(FetchRow::Word(Arithmetic::Or));

const X: Opcode = Opcode::Fetches(FetchRow::Word(Arithmetic::ExclusiveOr));

const L: Opcode = Opcode::Fetches(FetchRow::Word(Arithmetic::Load));

const C: Opcode = Opcode::Fetches(FetchRow::Word(Arithmetic::Compare));

const A: Opcode = Opcode::Fetches(FetchRow::Word(Arithmetic::Add));

const S: Opcode = Opcode::Fetches(FetchRow::Word(Arithmetic::Subtract));

const M: Opcode = Opcode::Fetches(FetchRow::MultiplyWord);

const D: Opcode = Opcode::Fetches(FetchRow::DivideWord);

const AL: Opcode = Opcode::Fetches(FetchRow::Word(Arithmetic::AddLogical));

const SL: Opcode = Opcode::Fetches(FetchRow::Word(Arithmetic::SubtractLogical));

const SSM: Opcode = Opcode::Supervised(Control::SetSystemMask);

const LPSW: Opcode = Opcode::Supervised(Control::LoadPsw);

const BXH: Opcode = Opcode::Computes(RegisterRow::BranchOnIndex(IndexBranch::High));

const BXLE: Opcode = Opcode::Computes(RegisterRow::BranchOnIndex(IndexBranch::LowOrEqual));

const SRL: Opcode = Opcode::Computes(RegisterRow::ShiftWord(Shift::RightLogical));

const SLL: Opcode = Opcode::Computes(RegisterRow::ShiftWord(Shift::LeftLogical));

const SRA: Opcode = Opcode::Computes(RegisterRow::ShiftWord(Shift::Right));

const SLA: Opcode = Opcode::Computes(RegisterRow::ShiftWord(Shift::Left));

const SRDL: Opcode = Opcode::Computes(RegisterRow::ShiftPair(Shift::RightLogical));

const SLDL: Opcode = Opcode::Computes(RegisterRow::ShiftPair(Shift::LeftLogical));

const SRDA: Opcode = Opcode::Computes(RegisterRow::ShiftPair(Shift::Right));

const SLDA: Opcode = Opcode::Computes(RegisterRow::ShiftPair(Shift::Left));

const STM: Opcode = Opcode::Stores(StoreRow::StoreMultiple);

const TM: Opcode = Opcode::Fetches(FetchRow::TestByte(ByteTest::UnderMask));

const MVI: Opcode = Opcode::Stores(StoreRow::ChangeByte(ByteChange::Move));

const TS: Opcode = Opcode::Stores(StoreRow::ChangeByte(ByteChange::TestAndSet));

const NI: Opcode = Opcode::Stores(StoreRow::ChangeByte(ByteChange::And));

const CLI: Opcode = Opcode::Fetches(FetchRow::TestByte(ByteTest::CompareLogical));

const OI: Opcode = Opcode::Stores(StoreRow::ChangeByte(ByteChange::Or));

const XI: Opcode = Opcode::Stores(StoreRow::ChangeByte(ByteChange::ExclusiveOr));

const LM: Opcode = Opcode::Fetches(FetchRow::LoadMultiple);

const SIO: Opcode = Opcode::Supervised(Control::InputOutput(IoOperation::Start));

const TIO: Opcode = Opcode::Supervised(Control::InputOutput(IoOperation::Test));

const HIO: Opcode = Opcode::Supervised(Control::InputOutput(IoOperation::Halt));

const TCH: Opcode = Opcode::Supervised(Control::InputOutput(IoOperation::TestChannel));

const STNSM: Opcode = Opcode::Supervised(Control::StoreThenAnd);

const STOSM: Opcode = Opcode::Supervised(Control::StoreThenOr);

const STCTL: Opcode = Opcode::Supervised(Control::StoreControl);

const LCTL: Opcode = Opcode::Supervised(Control::LoadControl);

const CS: Opcode = Opcode::Stores(StoreRow::SwapWord);

const CDS: Opcode = Opcode::Stores(StoreRow::SwapDoubleword);

const CLM: Opcode = Opcode::Fetches(FetchRow::CompareCharacters);

const STCM: Opcode = Opcode::Stores(StoreRow::StoreCharacters);

const ICM: Opcode = Opcode::Fetches(FetchRow::InsertCharacters);

const MVN: Opcode = Opcode::Stores(StoreRow::CombineStrings(Combine::MoveNumerics));

const MVC: Opcode = Opcode::Stores(StoreRow::CombineStrings(Combine::Move));

const MVZ: Opcode = Opcode::Stores(StoreRow::CombineStrings(Combine::MoveZones));

const NC: Opcode = Opcode::Stores(StoreRow::CombineStrings(Combine::And));

const CLC: Opcode = Opcode::Fetches(FetchRow::CompareStrings);

const OC: Opcode = Opcode::Stores(StoreRow::CombineStrings(Combine::Or));

const XC: Opcode = Opcode::Stores(StoreRow::CombineStrings(Combine::ExclusiveOr));

const TR: Opcode = Opcode::Stores(StoreRow::Translate);

const TRT: Opcode = Opcode::Fetches(FetchRow::ScanString);

const MVO: Opcode = Opcode::Stores(StoreRow::LayOut(Layout::MoveWithOffset));

const PACK: Opcode = Opcode::Stores(StoreRow::LayOut(Layout::Pack));

const UNPK: Opcode = Opcode::Stores(StoreRow::LayOut(Layout::Unpack));

/// The row of each operation code, by the manual's names: sixteen for each first digit.
static OPCODES: [Opcode; 256] = [
    // 0x00
    NONE, NONE, NONE, NONE, SPM, BALR, BCTR, BCR, SSK, ISK, SVC, NONE, NONE, NONE, MVCL, CLCL,
    // 0x10
    LPR, LNR, LTR, LCR, NR, CLR, OR, XR, LR, CR, AR, SR, MR, DR, ALR, SLR,
    // 0x20
    NONE, NONE, NONE, NONE, NONE, NONE, NONE, NONE, NONE, NONE, NONE, NONE, NONE, NONE, NONE, NONE,
    // 0x30
    NONE, NONE, NONE, NONE, NONE, NONE, NONE, NONE, NONE, NONE, NONE, NONE, NONE, NONE, NONE, NONE,
    // 0x40
    STH, LA, STC, IC, EX, BAL, BCT, BC, LH, CH, AH, SH, MH, NONE, CVD, CVB,
    // 0x50
    ST, NONE, NONE, NONE, N, CL, O, X, L, C, A, S, M, D, AL, SL,
    // 0x60
    NONE, NONE, NONE, NONE, NONE, NONE, NONE, NONE, NONE, NONE, NONE, NONE, NONE, NONE, NONE, NONE,
    // 0x70
    NONE, NONE, NONE, NONE, NONE, NONE, NONE, NONE, NONE, NONE, NONE, NONE, NONE, NONE, NONE, NONE,
    // 0x80
    SSM, NONE, LPSW, NONE, NONE, NONE, BXH, BXLE, SRL, SLL, SRA, SLA, SRDL, SLDL, SRDA, SLDA,
    // 0x90
    STM, TM, MVI, TS, NI, CLI, OI, XI, LM, NONE, NONE, NONE, SIO, TIO, HIO, TCH,
    // 0xA0
    NONE, NONE, NONE, NONE, NONE, NONE, NONE, NONE, NONE, NONE, NONE, NONE, STNSM, STOSM, NONE,
    NONE,
    // 0xB0
    NONE, NONE, NONE, NONE, NONE, NONE, STCTL, LCTL, NONE, NONE, CS, CDS, NONE, CLM, STCM, ICM,
    // 0xC0
    NONE, NONE, NONE, NONE, NONE, NONE, NONE, NONE, NONE, NONE, NONE, NONE, NONE, NONE, NONE, NONE,
    // 0xD0
    NONE, MVN, MVC, MVZ, NC, CLC, OC, XC, NONE, NONE, NONE, NONE, TR, TRT, NONE, NONE,
    // 0xE0
    NONE, NONE, NONE, NONE, NONE, NONE, NONE, NONE, NONE, NONE, NONE, NONE, NONE, NONE, NONE, NONE,
    // 0xF0
    NONE, MVO, PACK, UNPK, NONE, NONE, NONE, NONE, NONE, NONE, NONE, NONE, NONE, NONE, NONE, NONE,
];

/// Returns the entry of the table of instructions for an operation code.
#[inline(always)]
pub fn opcode_of(first: u8) -> Opcode
    ensures { result ≡ opcode_at first }
{
    OPCODES[first as usize]
}
