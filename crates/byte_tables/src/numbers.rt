//! Numbers in decimal digits.
ghost use Rattle.std.specs.Prelude.{◌≡◌, ◌<◌, ◌+◌, ◌*◌, ◌^◌, SomeIff, IsTrue};
ghost use Rattle.std.specs.List.{list_all};
ghost use Rattle.std.specs.Char.{digit_value};
ghost use Rattle.std.specs.Str.Parse.{digits_value};
ghost use Rattle.byte_tables.specs.Classes as classes;
ghost use Rattle.byte_tables.specs.Numbers as spec;

use crate::is_digit;

fn are_digits(text: &[u8]) -> bool
    ensures { result ≡ list_all classes.is_digit text.now }
{
    text.iter().all(|byte| is_digit(*byte))
}

/// Whether a text is a digit or more, as a length is (RFC 9110, section 8.6).
pub fn is_number(text: &[u8]) -> bool
    ensures number { result ≡ spec.is_number text.now }
{
    !text.is_empty() && are_digits(text)
}

// The number with one more digit, where a u64 can be it.
fn with_digit(number: u64, digit: u8) -> Option<u64>
    requires { IsTrue (classes.is_digit digit) }
    ensures { SomeIff result (number * 10 + digit_value digit < 2 ^ 64)
        (number * 10 + digit_value digit) }
{
    number.checked_mul(10)?.checked_add(u64::from(digit - b'0'))
}

/// The number that digits write, where a `u64` can be it.
pub fn number_of(digits: &[u8]) -> Option<u64>
    requires digits { IsTrue (list_all classes.is_digit digits.now) }
    ensures value { SomeIff result (digits_value 10 digits.now < 2 ^ 64)
        (digits_value 10 digits.now) }
{
    let mut number = 0;
    for digit in digits {
        number = with_digit(number, *digit)?;
    }
    Some(number)
}
