//! Numbers in words.
ghost use Rattle.std.specs.Prelude.{◌≡◌, ◌≤◌, IfSome};
ghost use Rattle.command_words.specs.Arguments.{number_between};

use script_text::read_decimal_to;

/// How many digits a number has at the most.
const MOST_DIGITS: usize = 20;

/// The number that 1 to 20 decimal digits say, where it is from a least to a greatest one.
pub(crate) fn read_between(least: u64, greatest: u64, text: &[u8]) -> Option<u64>
    ensures number { result ≡ number_between least greatest text.now }
    ensures from { IfSome result (λ number. least ≤ number) }
    ensures to { IfSome result (λ number. number ≤ greatest) }
{
    let number = read_decimal_to(text, MOST_DIGITS, greatest)?;
    if least <= number { Some(number) } else { None }
}
