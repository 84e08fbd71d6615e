//! Decimal numbers of metres, in units of 1/65,536 metre.
ghost use Rattle.std.specs.Prelude.{◌≡◌, ◌+◌, ◌*◌, ◌^◌, ◌<◌, ◌≤◌, length, drop, Some, IfSome, IsTrue, position, unsigned_abs, ◌++◌};
ghost use Rattle.std.specs.List.{list_all, position_or_len};
ghost use Rattle.std.specs.Option.{option_map};
ghost use Rattle.pbd_script.specs.Lines.{is_digit, value};
ghost use Rattle.pbd_obj.specs.Decimals.{are_few_digits, decimal, exponent, is_mark, signed, split_decimal, units_of, with_digits};
ghost use Rattle.pbd_obj.specs.Sizes.{HasFewDigits, capped, capped_size, lowered, scaled_size};

use crate::words::{byte_at, is_minus, short_count, without_sign};
use pbd_script::lines::{are_digits, value_of};

/// The most digits of a number.
const MOST_DIGITS: usize = 24;

/// One more than the greatest size of a coordinate.
const TOO_GREAT: u128 = 536_870_913;

/// A decimal number as it is written: `digits` times ten to `power`, negated with a minus.
#[derive(Clone, Copy)]
pub struct Decimal {
    minus: bool,
    /// Below 10^24.
    digits: u128,
    /// In -123..=99.
    power: i64,
}

fn signed(minus: bool, n: u64) -> i64
    requires { n < 2 ^ 63 }
    ensures { result ≡ signed minus n }
{
    if minus { -(n as i64) } else { n as i64 }
}

fn first_mark(word: &[u8]) -> Option<usize>
    ensures { result ≡ position is_mark word.now }
{
    word.iter().position(|b| *b == b'e' || *b == b'E')
}

/// Where the `e` or `E` before an exponent stands, or the word's end.
#[tactic(auto, using(crate::proofs::Numbers::position_end, crate::proofs::Numbers::position_most))]
fn mark_at(word: &[u8]) -> usize
    ensures place { result ≡ position_or_len is_mark word.now }
    ensures within { result ≤ length word.now }
{
    first_mark(word).unwrap_or(word.len())
}

/// The exponent behind a number, from its `e` or `E` on, or 0 where nothing stands there. None comes where it is no exponent.
fn exponent(word: &[u8]) -> Option<i64>
    ensures value { result ≡ exponent word.now }
    ensures size { IfSome result (λ e. unsigned_abs e ≤ 99) }
{
    match word {
        [] => Some(0),
        [_, digits @ ..] => {
            let size = short_count(2, without_sign(digits))?;
            Some(signed(is_minus(digits), size))
        }
    }
}

/// The number that the digits before and behind a point make together.
fn joined_value(whole: &[u8], fraction: &[u8]) -> u128
    requires whole { IsTrue (list_all is_digit whole.now) }
    requires fraction { IsTrue (list_all is_digit fraction.now) }
    requires few { length whole.now + length fraction.now ≤ 24 }
    ensures value { result ≡ value (whole.now ++ fraction.now) }
    ensures size { result < 10 ^ 24 }
{
    value_of(whole) * 10u128.pow(fraction.len() as u32) + value_of(fraction)
}

fn are_few_digits(whole: &[u8], fraction: &[u8]) -> bool
    requires { length whole.now + length fraction.now < 2 ^ 63 }
    ensures { result ≡ are_few_digits (whole.now ++ fraction.now) }
{
    let count = whole.len() + fraction.len();
    1 <= count && count <= MOST_DIGITS && are_digits(whole) && are_digits(fraction)
}

fn with_digits(minus: bool, whole: &[u8], fraction: &[u8], exponent: i64) -> Option<Decimal>
    requires exponent { unsigned_abs exponent ≤ 99 }
    requires length { length whole.now + length fraction.now < 2 ^ 63 }
    ensures value { result ≡ with_digits minus whole.now fraction.now (Some exponent) }
    ensures bounds { IfSome result HasFewDigits }
{
    if !are_few_digits(whole, fraction) {
        return None;
    }
    Some(Decimal {
        minus,
        digits: joined_value(whole, fraction),
        power: exponent - fraction.len() as i64,
    })
}

/// What stands behind this place.
fn behind(word: &[u8], at: usize) -> &[u8]
    requires { at ≤ length word.now }
    ensures { result.now ≡ drop (at + 1) word.now }
{
    match &word[at..] {
        [_, rest @ ..] => rest,
        [] => &[],
    }
}

/// The decimal of the part before the exponent's mark, and of what follows from the mark on.
fn split_decimal(minus: bool, mantissa: &[u8], mark: &[u8]) -> Option<Decimal>
    ensures value { result ≡ split_decimal minus mantissa.now mark.now }
    ensures bounds { IfSome result HasFewDigits }
{
    let point = byte_at(mantissa, b'.');
    let whole = &mantissa[..point];
    with_digits(minus, whole, behind(mantissa, point), exponent(mark)?)
}

#[tactic(auto, unfolding(crate::specs::Decimals::decimal))]
fn decimal_of(word: &[u8]) -> Option<Decimal>
    ensures value { result ≡ decimal word.now }
    ensures bounds { IfSome result HasFewDigits }
{
    let number = without_sign(word);
    let mark = mark_at(number);
    split_decimal(is_minus(word), &number[..mark], &number[mark..])
}

#[tactic(auto, using(crate::proofs::Numbers::ten_le))]
fn raised(units: u128, places: u32) -> u128
    requires units { units < 10 ^ 29 }
    requires places { places ≤ 4 }
    ensures { result ≡ units * 10 ^ places }
{
    units * 10u128.pow(places)
}

#[tactic(auto, using(crate::proofs::Numbers::ten_le, crate::proofs::Numbers::ten_pos))]
fn lowered(units: u128, places: u32) -> u128
    requires units { units < 10 ^ 29 }
    requires places { places ≤ 30 }
    ensures { result ≡ lowered units places }
{
    let whole = 10u128.pow(places);
    (2 * units + whole) / (2 * whole)
}

/// The size of a number of units, or the first that is too great for a coordinate.
/// Four tens more make it too great or leave it 0, and by 30 tens fewer nothing is left of 24 digits.
fn size(digits: u128, power: i64) -> u64
    requires digits { digits < 10 ^ 24 }
    requires power { unsigned_abs power ≤ 123 }
    ensures value { result ≡ capped_size (scaled_size (digits * 65536) power) }
    ensures size { result ≤ 536870913 }
{
    let units = digits * 65_536;
    let places = power.unsigned_abs();
    let size = if power < 0 {
        lowered(units, places.min(30) as u32)
    } else {
        raised(units, places.min(4) as u32)
    };
    size.min(TOO_GREAT) as u64
}

/// The units that a decimal word writes, rounded to the nearest whole number, or the first number of
/// their sign that is too great for a coordinate.
/// None comes where it is no decimal.
pub fn units_of(word: &[u8]) -> Option<i64>
    ensures { result ≡ option_map capped (units_of word.now) }
{
    let d = decimal_of(word)?;
    Some(signed(d.minus, size(d.digits, d.power)))
}
