//! Times in words, in microseconds.
ghost use Rattle.std.specs.Prelude.{◌≡◌, ◌≤◌, ◌<◌, ◌==◌, ◌+◌, ◌*◌, ◌^◌, true, length, position, IfSome};
ghost use Rattle.std.specs.List.{list_all};
ghost use Rattle.std.specs.Char.{is_ascii_digit};
ghost use Rattle.std.specs.Str.Parse.{digits_value};
ghost use Rattle.can_logs.specs.Seconds.{millionths, seconds_parts, seconds_form, period_form};

use crate::map_lines::Period;

/// The most digits before the point of a time.
const MOST_DIGITS: usize = 12;

/// A time of seconds, with or without a fraction, in microseconds; `None` if it isn't of the form. The seventh digit of
/// a fraction and those behind it count for nothing.
#[tactic(auto, unfolding(crate::specs::Seconds::seconds_form))]
pub fn seconds(word: &[u8]) -> Option<u64>
    ensures exact { result ≡ seconds_form word.now }
    ensures few { IfSome result (λ micros. micros ≤ 2 * 10 ^ 18) }
{
    match place_of_point(word) {
        Some(at) => seconds_of(&word[..at], &word[at + 1..]),
        None => seconds_of(word, &[]),
    }
}

/// The place of the first point, counted from 0; `None` if there is none.
fn place_of_point(word: &[u8]) -> Option<usize>
    ensures exact { result ≡ position (λ byte. byte == 46) word.now }
    ensures within { IfSome result (λ at. at < length word.now) }
{
    word.iter().position(|byte| *byte == b'.')
}

/// The time of these digits before and behind a point.
fn seconds_of(whole: &[u8], fraction: &[u8]) -> Option<u64>
    ensures exact { result ≡ seconds_parts whole.now fraction.now }
    ensures few { IfSome result (λ micros. micros ≤ 2 * 10 ^ 18) }
{
    if whole.is_empty() || whole.len() > MOST_DIGITS {
        return None;
    }
    if !are_digits(whole) || !are_digits(fraction) {
        return None;
    }
    Some(number_of(whole) * 1_000_000 + millionths_of(fraction))
}

/// Whether each byte is a decimal digit.
fn are_digits(bytes: &[u8]) -> bool
    ensures { result ≡ list_all is_ascii_digit bytes.now }
{
    bytes.iter().all(u8::is_ascii_digit)
}

/// The number of decimal digits.
fn number_of(digits: &[u8]) -> u64
    requires digits { list_all is_ascii_digit digits.now ≡ true }
    requires few { length digits.now ≤ 12 }
    ensures value { result ≡ digits_value 10 digits.now }
    ensures few { result < 10 ^ 12 }
{
    let mut number = 0;
    for digit in digits {
        number = number * 10 + u64::from(*digit - b'0');
    }
    number
}

/// The millionths of a fraction of decimal digits.
fn millionths_of(fraction: &[u8]) -> u64
    requires { list_all is_ascii_digit fraction.now ≡ true }
    ensures value { result ≡ millionths fraction.now }
    ensures few { result ≤ 10 ^ 18 }
{
    let size = fraction.len();
    if size >= 6 {
        return number_of(&fraction[..6]);
    }
    number_of(fraction) * 10_u64.pow(6 - size as u32)
}

/// Such a time of at least a microsecond.
pub fn period(word: &[u8]) -> Option<Period>
    ensures { result ≡ period_form word.now }
{
    match seconds(word) {
        Some(0) => None,
        Some(micros) => Some(Period::of(micros)),
        None => None,
    }
}
