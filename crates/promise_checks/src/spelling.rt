//! Commands as users spell them, well and badly.
use side_by_side::Sequence;
use std::alloc::{AllocError, Global};

/// Commands, between vertical bars. `@` and the letter after it stand for an operand.
const COMMANDS: &str =
    "LOGON|LOGON|LOGON @u|LOGOFF|LOGOFF @u|SYSTEM RESET|SYSTEM|SYSTEM @t|SYSTEM RESET @n|BEGIN|BEGIN|BEGIN @a|\
    BEGIN @a @a|EXTERNAL|EXTERNAL @n|DISPLAY|DISPLAY PSW|DISPLAY PSW @n|DISPLAY G@n|DISPLAY X@n|DISPLAY K@a|\
    DISPLAY @a|DISPLAY @a @a|STORE PSW @w @w|STORE PSW @w|STORE G@n @w|STORE X@n @w|STORE @a @b|STORE @a @b|\
    STORE @a @b @b|STORE @a|IPL @d|IPL 00C|IPL 190|IPL @d @t|SPOOL @d TO @u|SPOOL 00D TO @u|SPOOL 00D TO @u|\
    SPOOL @d @u|SPOOL @d TO @u @u|CLOSE @d|CLOSE 00D|CLOSE 00E|CLOSE @d @d|PURGE @i|PURGE @i @i|QUERY FILES|\
    QUERY USERS|QUERY @t|MSG @u @t|MSG @u @t|@t";

/// Operands, good and bad: addresses, bytes to be stored, devices, files, registers, users, texts
/// and words.
const ADDRESSES: &str =
    "0|40|48|50|100|200|7FF|FFE|1000|1FF0|1FFF|2000|2FFF|3000|FFFFFF|000200|0000200|1g|10H|-1";

const BYTES: &str =
    "00|C1C2|0102030405060708|00000000000002000000000000000200|9C00000C9D00000C9C00000D9D00000D|\
    0200080060000050010008000000005|0|ABC|G0|0x12|0200080060000050010008002000005000|47F00200";

const DEVICES: &str = "009|00C|00D|00E|190|191|01F|109|00c|9|0009|600|FFF|00G";

const IDS: &str = "1|2|3|4|5|6|7|0|01|18446744073709551615|18446744073709551616|X";

const NUMBERS: &str = "0|1|2|7|9|10|15|16|01|1A|-1|99999999999999999999||00";

const USERS: &str = "A|B|C|DISKLESS|SYSTEM|a|NOBODY|BARE|A-B|TOOLONGANAME";

const TEXTS: &str = "HELLO|RESET|FILES|USERS|query files|FOO|#CP|#CP QUERY USERS||   |\
    A TEXT OF MANY WORDS {WITH} SIGNS ~ THAT EBCDIC LACKS: \u{e4} \t 12345678901234567890|\
    12345678901234567890123456789012345678901234567890123456789012345678901234567890123456789012345678901234567890\
    1234567890123456789012|\
    =|; / , % _ > ? : # @ ' =";

const WORDS: &str =
    "00000000|00000200|FF000000|00020000|FF020000|01000000|00080000|00010200|0000020|000002000|0000020G|ffffffff|\
    FFFFFFFF|";

/// What is before a command: most often what makes it one whether the machine runs or not.
const BEFORE: &str = "#CP |#CP |#CP |#CP |#CP |||#CP   |  #CP | |#cp |#CP";

/// Draws one of the texts of a list that bars separate from a sequence.
fn pick(sequence: &mut Sequence, list: &'static str) -> &'static str {
    let count = list.split('|').count();
    let place = sequence.next_number() as usize % count.max(1);
    list.split('|').nth(place).unwrap_or("")
}

/// Draws one of the operands that a letter names from a sequence.
fn next_operand(sequence: &mut Sequence, letter: char) -> &'static str {
    let list = match letter {
        'a' => ADDRESSES,
        'b' => BYTES,
        'd' => DEVICES,
        'i' => IDS,
        'n' => NUMBERS,
        'u' => USERS,
        't' => TEXTS,
        _ => WORDS,
    };
    pick(sequence, list)
}

/// Draws the next line that a user types from a sequence: a command with operands, good or bad.
pub fn next_line(alloc: Global, sequence: &mut Sequence) -> Result<String, AllocError> {
    let mut line = String::from_str(alloc, pick(sequence, BEFORE))?;
    let mut is_operand = false;
    for character in pick(sequence, COMMANDS).chars() {
        if is_operand {
            line.push_str(next_operand(sequence, character))?;
            is_operand = false;
        } else if character == '@' {
            is_operand = true;
        } else {
            line.push(character)?;
        }
    }
    Ok(line)
}
