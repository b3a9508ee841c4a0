//! Numbers and colours as text, both ways.
ghost use Rattle.std.specs.Prelude.{◌≡◌, ◌<◌, ◌≤◌, ◌+◌, ◌*◌, ◌^◌, ◌++◌, ℕ, Some, None, OnOk, OnErr, IfSome, decimal, if◌then◌else◌, nat_lt, ◌&&◌, SomeIff};
ghost use Rattle.std.specs.Char.{digit_value, digit_char};
ghost use Rattle.dom_base.specs.Numerals.{colour_in, colour_text, is_numeral, number_in, value};

use crate::NoMemory;
use itoa::Buffer;

// A number with a further digit behind it, where it fits.
fn with_digit(number: u64, base: u32, digit: u32) -> Option<u64>
    ensures { SomeIff result (number * base + digit < 2 ^ 64) (number * base + digit) }
{
    let moved = number.checked_mul(u64::from(base))?;
    moved.checked_add(u64::from(digit))
}

// The number that digits of a base mean, where it fits.
pub(crate) fn number_of(word: &[u8], base: u32) -> Option<u64>
    requires low { 2 ≤ base }
    requires high { base ≤ 16 }
    ensures { result ≡ (if is_numeral base word.now && nat_lt (value base word.now) (2 ^ 64) then Some (value base word.now) else None) }
{
    if word.is_empty() {
        return None;
    }
    let mut number: u64 = 0;
    for c in word {
        let digit = char::from(*c).to_digit(base)?;
        number = with_digit(number, base, digit)?;
    }
    Some(number)
}

/// The number in a word of decimal digits; zeros may stand before it. None exactly where the word
/// is empty, has another byte, or means a number above `most`.
pub fn read_number(word: &[u8], most: u64) -> Option<u64>
    ensures value { result ≡ number_in most word.now }
    ensures bound { IfSome result (λ n. n ≤ most) }
{
    let number = number_of(word, 10)?;
    if number <= most { Some(number) } else { None }
}

/// Writes a number in decimal digits, without leading zeros, at the end. On `NoMemory` `into`
/// is as before.
#[tactic(auto, using(crate::proofs::NumeralLaws::number_again))]
pub fn write_number(n: u64, into: &mut Vec<u8>) -> Result<(), NoMemory>
    ensures ok { OnOk result (into.new.items ≡ into.old.items ++ decimal n) }
    ensures err { OnErr result (into.new.items ≡ into.old.items) }
    ensures again { (most : ℕ) → n ≤ most → number_in most (decimal n) ≡ Some n }
{
    let mut buffer = Buffer::new();
    into.extend_from_slice(buffer.format(n).as_bytes())?;
    Ok(())
}

/// The colour in a word of eight hexadecimal digits of either case. None exactly for another word.
pub fn read_colour(word: &[u8]) -> Option<u32>
    ensures { result ≡ colour_in word.now }
{
    if word.len() != 8 {
        return None;
    }
    let number = number_of(word, 16)?;
    Some(number as u32)
}

pub(crate) fn hex_digit(value: u8) -> u8
    requires { value < 16 }
    ensures { result ≡ digit_char value }
{
    if value < 10 {
        b'0' + value
    } else {
        b'a' + (value - 10)
    }
}

/// Writes a colour as eight hexadecimal digits of lower case at the end. On `NoMemory` `into` is
/// as before.
#[tactic(auto, using(crate::proofs::NumeralLaws::colour_again), unfolding(crate::specs::Numerals::colour_text))]
pub fn write_colour(colour: u32, into: &mut Vec<u8>) -> Result<(), NoMemory>
    ensures ok { OnOk result (into.new.items ≡ into.old.items ++ colour_text colour) }
    ensures err { OnErr result (into.new.items ≡ into.old.items) }
    ensures again { colour_in (colour_text colour) ≡ Some colour }
{
    let [a, b, c, d] = colour.to_be_bytes();
    into.extend_from_slice(&[
        hex_digit(a / 16),
        hex_digit(a % 16),
        hex_digit(b / 16),
        hex_digit(b % 16),
        hex_digit(c / 16),
        hex_digit(c % 16),
        hex_digit(d / 16),
        hex_digit(d % 16),
    ])?;
    Ok(())
}
