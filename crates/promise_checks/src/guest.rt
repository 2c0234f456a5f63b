//! What a user types to make his machine ready, and what his operator types now and then.
//!
//! In these texts `@` stands for the channel of the user's devices, and `_` for the two digits of
//! his number.

/// A machine is made ready by these lines: a program that starts all four devices again and again,
/// and interruptions that go on with it. The devices are reported by their addresses on channel
/// `@`: console 09, reader 0C, punch 0D, printer 0E.
pub const READY: [&str; 20] = [
    "LOGON",
    // external, supervisor call, program and I/O interruptions go on with the old PSW
    "STORE 58 00000000000004880000000000000498",
    "STORE 68 0000000000000490",
    "STORE 78 0000000000000480",
    "STORE 480 82000038000000008200001800000000",
    "STORE 490 82000028000000008200002000000000",
    // the timer, and a channel address word for each device
    "STORE 50 00000400",
    "STORE 300 00000800000008100000082000000830",
    // each is stored in turn, and the device started; then TIO of each, and from the beginning
    "STORE 400 D203004803009C000@09D20300480304",
    "STORE 410 9C000@0CD203004803089C000@0D0700",
    "STORE 420 D2030048030C9C000@0E9D000@0C0700",
    "STORE 430 9D000@0D9D000@0E9D000@0907000700",
    "STORE 440 47F00400",
    // a line is written and one that waits is read; two cards are read, one is punched, a line is
    // printed
    "STORE 800 09000840600000180A00086020000028",
    "STORE 810 020008A0600000500200090020000050",
    "STORE 820 010008A0200000500900084020000018",
    "STORE 830 09000840200000180000000000000000",
    // HELLO FROM and the number
    "STORE 840 C8C5D3D3D640C6D9D6D440_",
    "STORE PSW FF000000 00000400",
    "BEGIN",
];

/// Lines that an operator types now and then: most change the channel programs, one word each.
pub const TYPED: [&str; 56] = [
    "#CP BEGIN",
    "#CP BEGIN",
    "#CP BEGIN",
    "#CP BEGIN 400",
    "#CP BEGIN 400",
    "#CP BEGIN 400",
    "BEGIN 400",
    "#CP",
    // all channels enabled, none, the external conditions alone, and waits with and without an end
    "#CP STORE PSW FF000000 00000400",
    "#CP STORE PSW FF000000 00000400",
    "#CP STORE PSW 00000000 00000400",
    "#CP STORE PSW 01000000 00000400",
    "#CP STORE PSW FF020000 00000400",
    "#CP STORE PSW 00020000 00000400",
    "#CP EXTERNAL",
    "#CP SYSTEM RESET",
    "#CP LOGOFF",
    "#CP LOGOFF",
    "#CP QUERY FILES",
    "#CP QUERY USERS",
    "#CP DISPLAY 40",
    "#CP DISPLAY 1FF0",
    "#CP STORE 1FFE C1C2C3C4",
    "#CP STORE 2FFE C1C2C3C4",
    "#CP STORE 7000 E7",
    "#CP LOGON",
    "QUERY FILES",
    // the channel address word of the console: with a key, off a doubleword, whole again
    "#CP STORE 300 F0000800",
    "#CP STORE 300 00000804",
    "#CP STORE 300 00000800",
    "#CP STORE 300 00000800",
    // the console: 132 bytes, part of a line, a read alone, sense, an unknown command, a line
    // chained from two places
    "#CP STORE 800 0900000060000084",
    "#CP STORE 800 0100084060000005",
    "#CP STORE 800 0A00086020000050",
    "#CP STORE 800 0400087020000001",
    "#CP STORE 800 0700084020000001",
    "#CP STORE 800 0900084080000005",
    "#CP STORE 800 0900084060000018",
    // the reader: one card, one that is skipped, one past storage, part of one, sense
    "#CP STORE 810 020008A020000050",
    "#CP STORE 810 020008A070000050",
    "#CP STORE 810 02001FF020000050",
    "#CP STORE 810 020008A000000028",
    "#CP STORE 810 0400087020000001",
    "#CP STORE 810 020008A060000050",
    // the punch: few bytes, two cards, a wrong command
    "#CP STORE 820 0100084020000005",
    "#CP STORE 820 0100084060000050",
    "#CP STORE 828 010008A020000050",
    "#CP STORE 820 0200084020000005",
    // the printer: immediate and then a line, more than it takes, a skipped line, sense
    "#CP STORE 830 0B00000060000001",
    "#CP STORE 838 1900084020000018",
    "#CP STORE 830 0900084020000085",
    "#CP STORE 830 0400087020000001",
    // HIO, TCH and TIO of the reader
    "#CP STORE 42A 9E000@0C",
    "#CP STORE 42A 9F000@0C",
    "#CP STORE 42A 9D000@0C",
    // the printer's own word again
    "#CP STORE 830 0900084020000018",
];

/// Texts of messages, and of lines for a console.
pub const TEXTS: [&str; 6] = [
    "HI",
    "ARE YOU THERE",
    "cards are on their way",
    "A LINE FOR THE CONSOLE",
    "1234567890 1234567890 1234567890 1234567890 1234567890 1234567890",
    "THE END  ",
];
