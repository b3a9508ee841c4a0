//! Addresses as text, both ways.
ghost use Rattle.std.specs.Prelude.{◌≡◌, ◌≤◌, ◌<◌, ◌++◌, ◌∷◌, ◌≢◌, ◌/◌, ◌%◌, ◌^◌, [], ◌==◌, Some, None, OnOk, OnErr, MatchOption, IsTrue, decimal, map, position, take, length, vec_len};
ghost use Rattle.std.specs.List.{slice_split, join_with_byte, list_any};
ghost use Rattle.std.specs.Int.{w16, to_be_bytes};
ghost use Rattle.dom_base.specs.AddrText.{addr_in, addr_of_octets, addr_of_groups, addr_text, colon, dot, four_groups, group_in, group_text, number_of_groups, octet_in};
ghost use Rattle.dom_base.specs.declared.addr.Addr.TheVariants.{V4, V6};

use crate::numerals::{hex_digit, number_of};
use crate::{Addr, NoMemory, read_number, write_number};

fn place_of(mark: u8, word: &[u8]) -> Option<usize>
    ensures { result ≡ position (λ c. c == mark) word.now }
{
    word.iter().position(|c| *c == mark)
}

fn has(mark: u8, word: &[u8]) -> bool
    ensures { result ≡ list_any (λ c. c == mark) word.now }
{
    word.contains(&mark)
}

// The bytes before the first mark, and the bytes behind it.
fn cut_at(mark: u8, word: &[u8]) -> Option<(&[u8], &[u8])>
    ensures { MatchOption result
        (slice_split (λ c. c == mark) word.now ≡ word.now ∷ [])
        (λ x. slice_split (λ c. c == mark) word.now ≡ x.0.now ∷ slice_split (λ c. c == mark) x.1.now) }
{
    let place = place_of(mark, word)?;
    Some((&word[..place], &word[place + 1..]))
}

// The parts of a word that has just three marks.
fn four_parts(mark: u8, word: &[u8]) -> Option<(&[u8], &[u8], &[u8], &[u8])>
    ensures { MatchOption result
        (length (slice_split (λ c. c == mark) word.now) ≢ 4)
        (λ x. slice_split (λ c. c == mark) word.now ≡ x.0.now ∷ x.1.now ∷ x.2.now ∷ x.3.now ∷ []) }
{
    let (a, rest) = cut_at(mark, word)?;
    let (b, rest) = cut_at(mark, rest)?;
    let (c, d) = cut_at(mark, rest)?;
    match cut_at(mark, d) {
        Some((_fourth, _rest)) => None,
        None => Some((a, b, c, d)),
    }
}

// The first four parts of a word, and the bytes behind its fourth mark.
fn first_four(mark: u8, word: &[u8]) -> Option<(&[u8], &[u8], &[u8], &[u8], &[u8])>
    ensures { MatchOption result
        (length (slice_split (λ c. c == mark) word.now) ≤ 4)
        (λ x. slice_split (λ c. c == mark) word.now ≡ x.0.now ∷ x.1.now ∷ x.2.now ∷ x.3.now ∷ slice_split (λ c. c == mark) x.4.now) }
{
    let (a, rest) = cut_at(mark, word)?;
    let (b, rest) = cut_at(mark, rest)?;
    let (c, rest) = cut_at(mark, rest)?;
    let (d, rest) = cut_at(mark, rest)?;
    Some((a, b, c, d, rest))
}

#[tactic(auto, unfolding(crate::specs::AddrText::octet_in))]
fn read_octet(word: &[u8]) -> Option<u8>
    ensures { result ≡ octet_in word.now }
{
    if word.len() > 3 {
        return None;
    }
    let number = read_number(word, 255)?;
    Some(number as u8)
}

fn read_octets(word: &[u8]) -> Option<Addr>
    ensures { result ≡ addr_of_octets (slice_split (λ c. c == dot) word.now) }
{
    let (a, b, c, d) = four_parts(b'.', word)?;
    let first = read_octet(a)?;
    let second = read_octet(b)?;
    let third = read_octet(c)?;
    let fourth = read_octet(d)?;
    Some(Addr::V4(u32::from_be_bytes([first, second, third, fourth])))
}

fn read_group(word: &[u8]) -> Option<u16>
    ensures { result ≡ group_in word.now }
{
    if word.len() > 4 {
        return None;
    }
    let number = number_of(word, 16)?;
    Some(number as u16)
}

// The number that four groups mean, the highest first.
fn four_groups(a: u16, b: u16, c: u16, d: u16) -> u64
    ensures value { result ≡ number_of_groups 0 (a ∷ b ∷ c ∷ d ∷ []) }
    ensures small { result < 2 ^ 64 }
{
    let two = u64::from(a) * 65536 + u64::from(b);
    let three = two * 65536 + u64::from(c);
    three * 65536 + u64::from(d)
}

fn read_groups(word: &[u8]) -> Option<Addr>
    ensures { result ≡ addr_of_groups (slice_split (λ c. c == colon) word.now) }
{
    let (a, b, c, d, rest) = first_four(b':', word)?;
    let (e, f, g, h) = four_parts(b':', rest)?;
    let first = read_group(a)?;
    let second = read_group(b)?;
    let third = read_group(c)?;
    let fourth = read_group(d)?;
    let fifth = read_group(e)?;
    let sixth = read_group(f)?;
    let seventh = read_group(g)?;
    let eighth = read_group(h)?;
    let high = four_groups(first, second, third, fourth);
    let low = four_groups(fifth, sixth, seventh, eighth);
    Some(Addr::V6(u128::from(high) * 0x1_0000_0000_0000_0000 + u128::from(low)))
}

/// The address in a word. An IPv4 address is four decimal numbers up to 255, of one to three
/// digits each, with single dots between them; an IPv6 address is eight groups of one to four
/// hexadecimal digits of either case with single colons between them (RFC 4291, section 2.2,
/// form 1; the short form with `::` is not read). None exactly for another word.
#[tactic(auto, unfolding(crate::specs::AddrText::addr_in))]
pub fn read_addr(word: &[u8]) -> Option<Addr>
    ensures { result ≡ addr_in word.now }
{
    if has(b':', word) {
        read_groups(word)
    } else {
        read_octets(word)
    }
}

// Writes four octets with dots between them at the end. On `NoMemory` a part of them may stand
// there.
fn push_octets(a: u8, b: u8, c: u8, d: u8, into: &mut Vec<u8>) -> Result<(), NoMemory>
    ensures ok { OnOk result (into.new.items ≡ into.old.items ++ join_with_byte dot (map decimal (a ∷ b ∷ c ∷ d ∷ []))) }
    ensures err { OnErr result (take (vec_len into.old) into.new.items ≡ into.old.items) }
{
    write_number(u64::from(a), into)?;
    into.push(b'.')?;
    write_number(u64::from(b), into)?;
    into.push(b'.')?;
    write_number(u64::from(c), into)?;
    into.push(b'.')?;
    write_number(u64::from(d), into)?;
    Ok(())
}

#[tactic(auto, using(crate::proofs::AddrLaws::v4_again), unfolding(crate::specs::AddrText::addr_text))]
fn write_octets(number: u32, into: &mut Vec<u8>) -> Result<(), NoMemory>
    ensures ok { OnOk result (into.new.items ≡ into.old.items ++ addr_text (V4 number)) }
    ensures err { OnErr result (take (vec_len into.old) into.new.items ≡ into.old.items) }
    ensures again { addr_in (addr_text (V4 number)) ≡ Some (V4 number) }
{
    let [a, b, c, d] = number.to_be_bytes();
    push_octets(a, b, c, d, into)
}

// The four digits of a group.
fn digits(group: u16) -> [u8; 4]
    ensures { result ≡ group_text group }
{
    let [high, low] = group.to_be_bytes();
    [
        hex_digit(high / 16),
        hex_digit(high % 16),
        hex_digit(low / 16),
        hex_digit(low % 16),
    ]
}

// Four groups with colons between them.
fn four_texts(number: u64) -> [u8; 19]
    ensures { result ≡ join_with_byte colon (map group_text (four_groups number)) }
{
    let [a, b, c, d] = digits((number / 0x1_0000_0000_0000 % 0x1_0000) as u16);
    let [e, f, g, h] = digits((number / 0x1_0000_0000 % 0x1_0000) as u16);
    let [i, j, k, l] = digits((number / 0x1_0000 % 0x1_0000) as u16);
    let [m, n, o, p] = digits((number % 0x1_0000) as u16);
    [
        a, b, c, d, b':', e, f, g, h, b':', i, j, k, l, b':', m, n, o, p,
    ]
}

// Writes two parts with a colon between them at the end. On `NoMemory` a part of them may stand
// there.
fn push_parts(first: &[u8], second: &[u8], into: &mut Vec<u8>) -> Result<(), NoMemory>
    ensures ok { OnOk result (into.new.items ≡ into.old.items ++ (first.now ++ colon ∷ second.now)) }
    ensures err { OnErr result (take (vec_len into.old) into.new.items ≡ into.old.items) }
{
    into.extend_from_slice(first)?;
    into.push(b':')?;
    into.extend_from_slice(second)?;
    Ok(())
}

#[tactic(auto, using(crate::proofs::AddrLaws::v6_again), unfolding(crate::specs::AddrText::addr_text))]
fn write_groups(number: u128, into: &mut Vec<u8>) -> Result<(), NoMemory>
    ensures ok { OnOk result (into.new.items ≡ into.old.items ++ addr_text (V6 number)) }
    ensures err { OnErr result (take (vec_len into.old) into.new.items ≡ into.old.items) }
    ensures again { addr_in (addr_text (V6 number)) ≡ Some (V6 number) }
{
    let high = (number / 0x1_0000_0000_0000_0000) as u64;
    let low = (number % 0x1_0000_0000_0000_0000) as u64;
    let first = four_texts(high);
    let second = four_texts(low);
    push_parts(&first, &second, into)
}

/// Writes an address at the end: an IPv4 address as four decimal numbers with dots between them,
/// an IPv6 address as eight groups of four lower-case hexadecimal digits with colons between
/// them. On `NoMemory` `into` is as before.
pub fn write_addr(addr: Addr, into: &mut Vec<u8>) -> Result<(), NoMemory>
    ensures ok { OnOk result (into.new.items ≡ into.old.items ++ addr_text addr) }
    ensures err { OnErr result (into.new.items ≡ into.old.items) }
    ensures again { addr_in (addr_text addr) ≡ Some addr }
{
    let before = into.len();
    let written = match addr {
        Addr::V4(number) => write_octets(number, into),
        Addr::V6(number) => write_groups(number, into),
    };
    if written.is_err() {
        into.truncate(before);
    }
    written
}
