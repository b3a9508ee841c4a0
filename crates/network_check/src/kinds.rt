//! What the values of settings may be.
ghost use Rattle.std.specs.Prelude.{◌≡◌, ◌≤◌, ◌&&◌, ◌||◌, is_some, length, nat_le};
ghost use Rattle.std.specs.List.{list_all};
ghost use Rattle.toml.specs.View.{items_view, view};
ghost use Rattle.plant_text.specs.Rules.{is_digit as is_digit_code, is_letter as is_letter_code, is_name as is_peer_name};
ghost use Rattle.plant_text.specs.SettingsText.{item_count, numbers_in};
ghost use Rattle.network_check.specs.Kinds.{allowed, are_numbers as are_numbers_data, is_address, is_class, is_colour, is_fourth, is_kind, is_name, is_number, spells_fourth};

use dom_base::{Addr, read_addr, read_colour};
use plant_text::NAME_MAX;
use te_links::SRLGS_MAX;
use toml::Value;

/// What a value may be.
#[derive(Clone, Copy)]
pub enum Kind {
    /// Rows, or a table, that are looked at by themselves.
    Rows,
    /// A whole number, from the first to the second.
    Whole(u64, u64),
    Address,
    /// An address of IPv4.
    Fourth,
    Flag,
    Text,
    /// The name of a peer.
    Name,
    /// The class of a peer.
    Class,
    Colour,
    /// The numbers of shared risk groups.
    Numbers,
}

// ---- values

fn is_whole(value: &Value, least: u64, most: u64) -> bool
    ensures { result ≡ is_number least most (view value.now) }
{
    let Some(number) = value.as_integer() else {
        return false;
    };
    if number < 0 {
        return false;
    }
    let whole = number as u64;
    least <= whole && whole <= most
}

fn has_address(value: &Value) -> bool
    ensures { result ≡ is_address (view value.now) }
{
    match value.as_str() {
        Some(text) => read_addr(text.as_bytes()).is_some(),
        None => false,
    }
}

fn is_v4(word: &[u8]) -> bool
    ensures { result ≡ spells_fourth word.now }
{
    match read_addr(word) {
        Some(Addr::V4(_)) => true,
        _ => false,
    }
}

fn has_fourth(value: &Value) -> bool
    ensures { result ≡ is_fourth (view value.now) }
{
    match value.as_str() {
        Some(text) => is_v4(text.as_bytes()),
        None => false,
    }
}

fn has_colour(value: &Value) -> bool
    ensures { result ≡ is_colour (view value.now) }
{
    match value.as_str() {
        Some(text) => read_colour(text.as_bytes()).is_some(),
        None => false,
    }
}

fn is_letter(c: u8) -> bool
    ensures { result ≡ is_letter_code c }
{
    (b'A' <= c && c <= b'Z') || (b'a' <= c && c <= b'z')
}

fn is_digit(c: u8) -> bool
    ensures { result ≡ is_digit_code c }
{
    b'0' <= c && c <= b'9'
}

fn are_letters_or_digits(name: &[u8]) -> bool
    ensures { result ≡ list_all (λ d. is_letter_code d || is_digit_code d) name.now }
{
    name.iter().all(|c| is_letter(*c) || is_digit(*c))
}

fn is_short_name(name: &[u8]) -> bool
    ensures { result ≡ is_peer_name name.now }
{
    match name {
        [] => false,
        [first, others @ ..] => {
            is_letter(*first) && are_letters_or_digits(others) && name.len() <= NAME_MAX
        }
    }
}

fn has_name(value: &Value) -> bool
    ensures { result ≡ is_name (view value.now) }
{
    match value.as_str() {
        Some(text) => is_short_name(text.as_bytes()),
        None => false,
    }
}

fn has_class(value: &Value) -> bool
    ensures { result ≡ is_class (view value.now) }
{
    match value.as_str() {
        Some(text) => text == "client" || text == "neighbour" || text == "parent",
        None => false,
    }
}

fn are_whole(items: &[Value]) -> bool
    ensures { result ≡ is_some (numbers_in (items_view items.now)) }
{
    for item in items {
        if !is_whole(item, 0, u64::from(u32::MAX)) {
            return false;
        }
    }
    true
}

fn are_few(items: &[Value]) -> bool
    ensures { result ≡ nat_le (item_count (items_view items.now)) SRLGS_MAX }
{
    items.len() <= SRLGS_MAX
}

fn are_groups(items: &[Value]) -> bool
    ensures { result ≡ (nat_le (item_count (items_view items.now)) SRLGS_MAX && is_some (numbers_in (items_view items.now))) }
{
    are_few(items) && are_whole(items)
}

#[tactic(auto, using(crate::proofs::Kinding::by_items))]
fn are_numbers(value: &Value) -> bool
    ensures { result ≡ are_numbers_data (view value.now) }
{
    match value.as_array() {
        Some(items) => are_groups(items.as_slice()),
        None => false,
    }
}

// ---- kinds

/// Whether a value is of a kind.
pub(crate) fn fits(kind: Kind, value: &Value) -> bool
    ensures { result ≡ is_kind kind (view value.now) }
{
    match kind {
        Kind::Rows => true,
        Kind::Whole(least, most) => is_whole(value, least, most),
        Kind::Address => has_address(value),
        Kind::Fourth => has_fourth(value),
        Kind::Flag => value.as_bool().is_some(),
        Kind::Text => value.as_str().is_some(),
        Kind::Name => has_name(value),
        Kind::Class => has_class(value),
        Kind::Colour => has_colour(value),
        Kind::Numbers => are_numbers(value),
    }
}

/// What a value of a kind may be, in words; of a number the bounds are told by themselves.
pub(crate) fn kind_words(kind: Kind) -> &'static [u8]
    ensures { result.now ≡ allowed kind }
{
    match kind {
        Kind::Rows => b"rows",
        Kind::Whole(_, _) => b"",
        Kind::Address => b"an address in quotes",
        Kind::Fourth => b"an IPv4 address in quotes",
        Kind::Flag => b"true or false",
        Kind::Text => b"a text in quotes",
        Kind::Name => b"1 to 16 letters and digits in quotes, a letter first",
        Kind::Class => b"client, neighbour or parent in quotes",
        Kind::Colour => b"8 hexadecimal digits in quotes",
        Kind::Numbers => b"a list of at most 8 numbers up to 4294967295",
    }
}
