//! Bytes as hexadecimal text, both ways.
ghost use Rattle.std.specs.Prelude.{◌≡◌, ◌<◌, [], ◌∷◌, IfOk, MatchOption, None, Some};
ghost use Rattle.line_text.specs.Hexadecimal.{is_blank, hex_digit, hex_pair, hex_bytes, hex_text, digit_text};

use dom_base::NoMemory;
use std::alloc::{AllocFailed, Global};

/// Why a text gave no bytes.
#[derive(Clone, Copy, Debug)]
pub enum HexError {
    NotHex,
    NoMemory,
}

impl<T: Drop> From<AllocFailed<T>> for HexError {
    ghost use Rattle.line_text.specs.declared.hexadecimal.HexError.TheVariants.{NoMemory};

    ghost from_gives = { λ _ e. e ≡ NoMemory };

    fn from(_: AllocFailed<T>) -> Self {
        HexError::NoMemory
    }
}

fn is_space(c: u8) -> bool
    ensures { result ≡ is_blank c }
{
    c == b' ' || c == b'\n' || c == b'\r'
}

fn value_of(c: u8) -> Option<u8>
    ensures { result ≡ hex_digit c }
{
    match c {
        b'0'..=b'9' => Some(c - b'0'),
        b'a'..=b'f' => Some(c - b'a' + 10),
        b'A'..=b'F' => Some(c - b'A' + 10),
        _ => None,
    }
}

// The first byte of a text, and what follows it.
fn first_of(text: &[u8]) -> Option<(u8, &[u8])>
    ensures { MatchOption result (text.now ≡ []) (λ p. text.now ≡ p.0 ∷ p.1.now) }
{
    let (first, tail) = text.split_first()?;
    Some((*first, tail))
}

// The byte that two digits mean.
fn pair_of(first: u8, second: u8) -> Option<u8>
    ensures { result ≡ hex_pair first second }
{
    let high = value_of(first)?;
    let low = value_of(second)?;
    Some(16 * high + low)
}

/// The bytes that a text means: pairs of hexadecimal digits of either case. Spaces, line feeds and
/// carriage returns before, behind and between the pairs are skipped; anything else is no such text.
pub fn read_hex(alloc: Global, text: &[u8]) -> Result<Vec<u8>, HexError>
    ensures ok { IfOk result (λ bytes. hex_bytes text.now ≡ Some bytes.items) }
    ensures not_hex { result ≡ Err HexError.NotHex → hex_bytes text.now ≡ None }
{
    let mut bytes = Vec::new(alloc);
    let mut rest = text;
    while let Some((first, tail)) = first_of(rest) {
        if is_space(first) {
            rest = tail;
            continue;
        }
        let Some((second, tail)) = first_of(tail) else {
            return Err(HexError::NotHex);
        };
        let Some(byte) = pair_of(first, second) else {
            return Err(HexError::NotHex);
        };
        bytes.push(byte)?;
        rest = tail;
    }
    Ok(bytes)
}

fn digit(x: u8) -> u8
    requires { x < 16 }
    ensures { result ≡ digit_text x }
{
    if x <= 9 { x + 48 } else { x + 87 }
}

/// The bytes as lower-case hexadecimal text.
pub fn write_hex(alloc: Global, bytes: &[u8]) -> Result<Vec<u8>, NoMemory>
    ensures { IfOk result (λ text. text.items ≡ hex_text bytes.now) }
{
    let mut text = Vec::new(alloc);
    for byte in bytes {
        text.extend_from_slice(&[digit(*byte / 16), digit(*byte % 16)])?;
    }
    Ok(text)
}
