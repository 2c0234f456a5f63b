//! Decimal and hexadecimal numbers.
ghost use Rattle.std.specs.Prelude.{◌≡◌, ◌^◌, ◌<◌, ◌≤◌, Option, Some, None, IfSome};
ghost use Rattle.text_words.specs.Numbers.{decimal_of, digit_value, hexadecimal_of, is_digit};

/// Returns whether a byte is a decimal digit.
pub fn is_digit(c: u8) -> bool
    ensures { result ≡ is_digit c }
{
    b'0' <= c && c <= b'9'
}

/// Returns the number that 1 to `most` decimal digits spell, or `None` if `digits` is anything
/// else.
///
/// Leading zeros are allowed.
pub fn decimal_of(most: usize, digits: &[u8]) -> Option<u32>
    requires { most ≤ 9 }
    ensures { result ≡ decimal_of most digits.now }
{
    if digits.is_empty() || digits.len() > most {
        return None;
    }
    let mut number = 0;
    for digit in digits {
        if !is_digit(*digit) {
            return None;
        }
        number = number * 10 + u32::from(*digit - b'0');
    }
    Some(number)
}

/// Returns the value of a hexadecimal digit, `0` to `9` or `A` to `F`, or `None` for any other
/// byte.
pub fn digit_value(c: u8) -> Option<u8>
    ensures value { result ≡ digit_value c }
    ensures below { IfSome result (λ digit. digit < 16) }
{
    match c {
        b'0'..=b'9' => Some(c - b'0'),
        b'A'..=b'F' => Some(c - b'A' + 10),
        _ => None,
    }
}

/// Returns the number that `least` to `most` hexadecimal digits, with letters in upper case, spell,
/// or `None` if `digits` is anything else.
///
/// Leading zeros are allowed.
pub fn hexadecimal_of(least: usize, most: usize, digits: &[u8]) -> Option<u32>
    requires { most ≤ 8 }
    ensures value { result ≡ hexadecimal_of least most digits.now }
    ensures below { IfSome result (λ number. number < 16 ^ most) }
{
    if digits.len() < least || digits.len() > most {
        return None;
    }
    let mut number = 0;
    for digit in digits {
        number = number * 16 + u32::from(digit_value(*digit)?);
    }
    Some(number)
}
