//! Decimal numbers, written and read.
ghost use Rattle.std.specs.Prelude.{◌≡◌, ◌≤◌, ◌+◌, ◌^◌, ◌++◌, min, IsTrue, true, OnOk};
ghost use Rattle.std.specs.Fmt.{decimal};
ghost use Rattle.std.specs.List.{list_all};
ghost use Rattle.script_text.specs.Numbers.{is_digit, is_number, number_of, decimal_in};
ghost use Rattle.script_text.specs.Lines.{number_in};

use group_model::{NoMemory, Octets};
use itoa::Buffer;

/// How many digits the number of an epoch or of a push has at the most.
const MOST_NUMBER_DIGITS: usize = 10;

/// One more than the greatest number of an epoch or of a push.
const NUMBER_LIMIT: u64 = 1 << 32;

/// Puts a number at the end of a text, in decimal.
pub fn append_number(number: u32, out: &mut Octets) -> Result<(), NoMemory>
    ensures { OnOk result (out.new ≡ out.old ++ decimal number) }
{
    out.extend(Buffer::new().format(number).as_bytes())
}

/// Puts a place in a file at the end of a text, in decimal.
pub fn append_place(place: u64, out: &mut Octets) -> Result<(), NoMemory>
    ensures { OnOk result (out.new ≡ out.old ++ decimal place) }
{
    out.extend(Buffer::new().format(place).as_bytes())
}

/// The number that a text is, of 1 to 10 decimal digits and below 2^32; `None` where it is none.
pub fn read_number(text: &[u8]) -> Option<u32>
    ensures { result ≡ number_in text.now }
{
    let number = read_decimal(text, MOST_NUMBER_DIGITS, NUMBER_LIMIT)?;
    Some(number as u32)
}

/// The number that 1 to `most_digits` decimal digits say, if it is below a limit; `None` where it says none.
///
/// Leading zeros are taken.
pub fn read_decimal(text: &[u8], most_digits: usize, limit: u64) -> Option<u64>
    ensures { result ≡ decimal_in most_digits limit text.now }
{
    read_below(text, most_digits, u128::from(limit))
}

/// The number that 1 to `most_digits` decimal digits say, if it is at most the greatest; `None` where it says none.
///
/// Leading zeros are taken.
pub fn read_decimal_to(text: &[u8], most_digits: usize, greatest: u64) -> Option<u64>
    ensures { result ≡ decimal_in most_digits (greatest + 1) text.now }
{
    read_below(text, most_digits, u128::from(greatest) + 1)
}

fn read_below(text: &[u8], most_digits: usize, limit: u128) -> Option<u64>
    requires { limit ≤ 2 ^ 64 }
    ensures { result ≡ decimal_in most_digits limit text.now }
{
    if !reads_as_number(text, most_digits) {
        return None;
    }
    let number = number_of(text, limit);
    if number < limit {
        Some(number as u64)
    } else {
        None
    }
}

fn reads_as_number(text: &[u8], most_digits: usize) -> bool
    ensures test { result ≡ is_number most_digits text.now }
    ensures digits { IsTrue result → list_all is_digit text.now ≡ true }
{
    1 <= text.len() && text.len() <= most_digits && are_digits(text)
}

fn are_digits(text: &[u8]) -> bool
    ensures { result ≡ list_all is_digit text.now }
{
    text.iter().all(|c| c.is_ascii_digit())
}

/// The number that digits say, up to a limit.
fn number_of(digits: &[u8], limit: u128) -> u128
    requires digits { list_all is_digit digits.now ≡ true }
    requires limit { limit ≤ 2 ^ 64 }
    ensures { result ≡ min (number_of digits.now) limit }
{
    let mut number = 0;
    for digit in digits {
        number = (number * 10 + u128::from(digit.saturating_sub(b'0'))).min(limit);
    }
    number
}
