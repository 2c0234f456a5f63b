//! What the users' programs are made of, and what their operators type.

/// What is in every user's storage: the PSWs of interruptions, the instructions that go on after
/// one, operands, and the timer.
pub const DATA: [&str; 19] = [
    // a supervisor call and a program interruption each go on with the next instruction
    "STORE 60 00000000000003000000000000000310",
    "STORE 300 82000020",
    "STORE 310 82000028",
    // so does an external interruption; the timer is about to go below zero
    "STORE 58 0000000000000320",
    "STORE 320 82000018",
    "STORE 50 00000300",
    // control register 0 with the timer and the interrupt key, with the timer alone, and with the
    // key alone
    "STORE 9A0 000000C00000008000000040",
    "STORE 800 0000004100000FFF7FFFFFFF80000000",
    "STORE 810 000000000012345DC1C2C3C4C5C6C7C8",
    "STORE 840 F1F2F3F4F5F6F7C8123456789012345C",
    "STORE 860 00000001AABBCCDD1122334455667788",
    // the targets of EX
    "STORE 880 D2000890089800001A1218340A110000",
    // PSWs: with a key and the problem state, waiting for any interruption, with masks, and waiting
    // for none
    "STORE 8D0 00000000000004000021000000000400",
    "STORE 8E0 0011000005000400FF02000000000404",
    "STORE 8F0 FE0000000F0004000002000000000400",
    "STORE 900 000102030405060708090A0B0C0D0E0F",
    // an address and a length of each operand of MVCL and CLCL
    "STORE 9C0 00000A000000008000000B0040000090",
    "STORE A00 C1C2C3C4C5C6C7C8C9D1D2D3D4D5D6D7",
    "STORE B00 C1C2C3C4C5C6C7C8C9D1D2D3D4D5D6D8",
];

/// Pieces of code, each a few instructions that can be one after the other.
pub const PIECES: [&str; 34] = [
    // A, ST, SR, ALR, SLR
    "5A100800501008041B121E341F56",
    // LH, MH, SH, CH
    "481008024C1008064B10080A49200802",
    // CVD, CVB
    "4E1008104F200810",
    // M, D, SLA, SLDA
    "5C2008005D4008048B2000038F400011",
    // MVC, XC
    "D20F08200800D70708280820",
    // CLC, NC
    "D50708000820D40708300800",
    // TR, TRT
    "DC0F08300900DD0F08300900",
    // PACK, UNPK
    "F27308500840F37308580850",
    // MVO, MVZ
    "F13208580840D30308590845",
    // LM and MVCL of 128 bytes
    "982509C00E24",
    // LM and CLCL of 128 bytes
    "982509C00F24",
    // CLCL, MVCL, with what the registers have
    "0F240E240E680FAC",
    // EX of MVC and of AR
    "4110000744100880442008884410088A",
    // EX of SVC
    "4410088C",
    // BALR, BCTR and branches that are not taken
    "05100660070747000000",
    // CS, CDS, ICM
    "BA120860BB240868BF1A0864",
    // STCM, CLM
    "BE150868BD1C086C",
    // TM, MVI, NI, OI
    "91F0087092AA087094F00871960F0872",
    // XI, CLI, TS
    "97FF087395AA087093000874",
    // STM, LM
    "900F08A098AF08A0",
    // supervisor calls
    "0A050AFF",
    // LPSW with a key and the problem state
    "820008E0",
    // LPSW that waits for an interruption
    "820008E8",
    // SSM, and LPSW with masks
    "800008F0820008D0",
    // SSK, ISK
    "413008000823094341301000084309A3",
    // STNSM, STOSM, STCTL
    "AC000878AD000879B6020980",
    // LCTL with subclasses of external interruptions, and STOSM that enables them
    "B70009A0AD01087A",
    "B70009A4",
    // LA and ST: a small number in the timer
    "410000FF50000050",
    // shifts
    "88100005892000078A3000038C400009",
    // codes that there are not, and EX of an odd address
    "B205000000FF44000881",
    // stores into the second page, and perhaps past storage
    "41700FFF50107010D20F70100A00",
    "507F7FFF",
    // an LPSW that waits for nothing, which stops the machine
    "820008F8",
];

/// Lines that an operator types now and then.
pub const TYPED: [&str; 24] = [
    "#CP STORE PSW 00000000 00000400",
    "#CP STORE PSW 00000000 00000400",
    "#CP STORE PSW 00000000 0F000400",
    "#CP STORE PSW 00010000 00000400",
    "#CP STORE PSW FF310000 08000400",
    "#CP BEGIN",
    "#CP BEGIN",
    "#CP BEGIN",
    "#CP BEGIN",
    "#CP BEGIN 400",
    "#CP BEGIN 400",
    "BEGIN 400",
    "#CP STORE 60 00000000000003000000000000000310",
    "#CP STORE 300 82000020",
    "#CP STORE 310 82000028",
    "#CP STORE G15 00001FFD",
    "#CP DISPLAY 28",
    "#CP DISPLAY X0",
    "#CP DISPLAY K800",
    "#CP EXTERNAL",
    "#CP STORE 50 00000100",
    "#CP DISPLAY 2000",
    "BEGIN",
    "#CP",
];
