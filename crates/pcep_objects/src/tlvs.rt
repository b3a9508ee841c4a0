//! The TLVs behind the fixed part of a body.
ghost use Rattle.std.specs.Prelude.{◌≡◌, ◌+◌, ◌≤◌, ◌++◌, length, take, drop, IfOk, OnOk};
ghost use Rattle.std.specs.Option.{option_or};
ghost use Rattle.pcep_objects.specs.Layouts.{word_behind};
ghost use Rattle.pcep_objects.specs.Tlvs.{tlv_at, tlvs_of, tlv_text, word_among, word_here, GivesTlv};

use crate::object::TlvFault;
use crate::octets::put_octets;
use dom_base::{NoMemory, half, word};

/// A type and a value at the front, and how many octets they take.
fn read_tlv(bytes: &[u8]) -> Result<(u16, &[u8], usize), TlvFault>
    ensures found { GivesTlv result (tlv_at bytes.now) }
    ensures some { IfOk result (λ x. 4 ≤ x.2) }
    ensures within { IfOk result (λ x. x.2 ≤ length bytes.now) }
{
    if bytes.len() < 4 {
        return Err(TlvFault::PastEnd);
    }
    let len = half(bytes, 2) as usize;
    let padded = 4 + (len + 3) / 4 * 4;
    if bytes.len() < padded {
        return Err(TlvFault::PastEnd);
    }
    let (_, behind) = bytes.split_at(4);
    let (value, _) = behind.split_at(len);
    Ok((half(bytes, 0), value, padded))
}

/// What was found before, or the number in a TLV.
fn first_of(found: Option<u32>, kind: u16, type_here: u16, value: &[u8]) -> Option<u32>
    ensures { result ≡ option_or found (word_here kind (record { kind = type_here; value = value.now })) }
{
    match found {
        Some(number) => Some(number),
        None => {
            if type_here == kind && value.len() == 4 {
                Some(word(value, 0))
            } else {
                None
            }
        }
    }
}

/// The number in the first TLV of a type that has four octets, if all the bytes are TLVs.
fn word_of_tlv(kind: u16, bytes: &[u8]) -> Result<Option<u32>, TlvFault>
    ensures { result ≡ word_among kind (tlvs_of bytes.now) }
{
    let mut found: Option<u32> = None;
    let mut rest = bytes;
    while !rest.is_empty() {
        let (type_here, value, len) = read_tlv(rest)?;
        found = first_of(found, kind, type_here, value);
        let (_, after) = rest.split_at(len);
        rest = after;
    }
    Ok(found)
}

/// The number in a TLV behind the fixed part of a body, of this length.
pub(crate) fn tlv_behind(len: usize, content: &[u8], kind: u16) -> Result<Option<u32>, TlvFault>
    ensures found { result ≡ word_behind len content.now kind }
    ensures long { IfOk result (λ _. len ≤ length content.now) }
{
    if content.len() < len {
        return Err(TlvFault::PastEnd);
    }
    let (_, rest) = content.split_at(len);
    word_of_tlv(kind, rest)
}

/// Appends a TLV of one word.
pub(crate) fn put_tlv(text: &mut Vec<u8>, kind: u16, word: u32) -> Result<(), NoMemory>
    ensures { OnOk result (text.new.items ≡ text.old.items ++ tlv_text kind word) }
{
    let [high, low] = kind.to_be_bytes();
    let [a, b, c, d] = word.to_be_bytes();
    put_octets(text, &[high, low, 0, 4, a, b, c, d])
}
