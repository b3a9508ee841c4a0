//! What the keys of rows say, as far as they can be read.
ghost use Rattle.std.specs.Prelude.{◌≡◌, ◌==◌, is_some, option_map};
ghost use Rattle.std.specs.Str.{bytes_eq};
ghost use Rattle.dom_base.specs.AddrOrder.{rank};
ghost use Rattle.toml.specs.Data.{as_str as string_of, get_member};
ghost use Rattle.toml.specs.View.{table_view, view};
ghost use Rattle.plant_text.specs.Names.{same_as};
ghost use Rattle.plant_text.specs.SettingsText.{addr_of, as_of, needed};
ghost use Rattle.network_check.specs.Keys.{agree, has_word as has_word_of, has_yes as has_yes_at, is_neighbour as is_neighbour_row, is_other as is_other_row, meet as do_meet, same_address as is_same_address, same_domain as is_same_domain, same_text as is_same_text, way_of as way_out_of};

use dom_base::{Addr, As, read_addr};
use toml::{Table, Value};

/// The value of a key.
pub(crate) fn value_at<'a>(table: &'a Table, key: &str) -> Option<&'a Value>
    ensures { option_map (λ v. view v.now) result ≡ get_member key.now (table_view table.now) }
{
    table.get(key)
}

pub(crate) fn has_key(table: &Table, key: &str) -> bool
    ensures { result ≡ is_some (get_member key.now (table_view table.now)) }
{
    value_at(table, key).is_some()
}

fn has_word(table: &Table, key: &str, word: &str) -> bool
    ensures { result ≡ has_word_of key.now word.now (table_view table.now) }
{
    match value_at(table, key) {
        Some(value) => match value.as_str() {
            Some(text) => text == word,
            None => false,
        },
        None => false,
    }
}

/// Whether a key is `true`.
pub(crate) fn has_yes(table: &Table, key: &str) -> bool
    ensures { result ≡ has_yes_at key.now (table_view table.now) }
{
    match value_at(table, key) {
        Some(value) => match value.as_bool() {
            Some(is) => is,
            None => false,
        },
        None => false,
    }
}

/// Whether a peer is a neighbour.
pub(crate) fn is_neighbour(table: &Table) -> bool
    ensures { result ≡ is_neighbour_row (table_view table.now) }
{
    has_word(table, "class", "neighbour")
}

/// Whether a peer is of another class.
pub(crate) fn is_other(table: &Table) -> bool
    ensures { result ≡ is_other_row (table_view table.now) }
{
    has_word(table, "class", "client") || has_word(table, "class", "parent")
}

// ---- values

fn domain_of(value: &Value) -> Option<As>
    ensures { result ≡ as_of (view value.now) }
{
    let number = value.as_integer()?;
    if 0 <= number && number <= 65_535 {
        Some(As(number as u16))
    } else {
        None
    }
}

fn address_of(value: &Value) -> Option<Addr>
    ensures { result ≡ addr_of (view value.now) }
{
    match value.as_str() {
        Some(text) => read_addr(text.as_bytes()),
        None => None,
    }
}

/// The domain at a key.
pub(crate) fn domain_at(table: &Table, key: &str) -> Option<As>
    ensures { result ≡ needed as_of key.now (table_view table.now) }
{
    match value_at(table, key) {
        Some(value) => domain_of(value),
        None => None,
    }
}

fn address_at(table: &Table, key: &str) -> Option<Addr>
    ensures { result ≡ needed addr_of key.now (table_view table.now) }
{
    match value_at(table, key) {
        Some(value) => address_of(value),
        None => None,
    }
}

fn text_at<'a>(table: &'a Table, key: &str) -> Option<&'a str>
    ensures { option_map (λ s. s.now) result ≡ needed string_of key.now (table_view table.now) }
{
    match value_at(table, key) {
        Some(value) => value.as_str(),
        None => None,
    }
}

/// The domain to which paths go on through a peer.
pub(crate) fn way_of(table: &Table) -> Option<As>
    ensures { result ≡ way_out_of (table_view table.now) }
{
    if has_yes(table, "down") && is_neighbour(table) {
        domain_at(table, "neighbour")
    } else {
        None
    }
}

// ---- what two keys say

/// Whether both can be read and are one domain.
pub(crate) fn agree_domains(one: Option<As>, other: Option<As>) -> bool
    ensures { result ≡ agree same_as one other }
{
    match one {
        Some(a) => match other {
            Some(b) => a.0 == b.0,
            None => false,
        },
        None => false,
    }
}

fn agree_addresses(one: Option<Addr>, other: Option<Addr>) -> bool
    ensures { result ≡ agree (λ x y. rank x == rank y) one other }
{
    match one {
        Some(a) => match other {
            Some(b) => a == b,
            None => false,
        },
        None => false,
    }
}

fn agree_texts(one: Option<&str>, other: Option<&str>) -> bool
    ensures { result ≡ agree bytes_eq (option_map (λ s. s.now) one.entry) (option_map (λ s. s.now) other.entry) }
{
    match one {
        Some(a) => match other {
            Some(b) => a == b,
            None => false,
        },
        None => false,
    }
}

/// Whether a key of one row and a key of another have one domain.
pub(crate) fn meet(a: &Table, key: &str, b: &Table, other: &str) -> bool
    ensures { result ≡ do_meet key.now (table_view a.now) other.now (table_view b.now) }
{
    agree_domains(domain_at(a, key), domain_at(b, other))
}

pub(crate) fn same_domain(key: &str, a: &Table, b: &Table) -> bool
    ensures { result ≡ is_same_domain key.now (table_view a.now) (table_view b.now) }
{
    meet(a, key, b, key)
}

pub(crate) fn same_address(key: &str, a: &Table, b: &Table) -> bool
    ensures { result ≡ is_same_address key.now (table_view a.now) (table_view b.now) }
{
    agree_addresses(address_at(a, key), address_at(b, key))
}

pub(crate) fn same_text(key: &str, a: &Table, b: &Table) -> bool
    ensures { result ≡ is_same_text key.now (table_view a.now) (table_view b.now) }
{
    agree_texts(text_at(a, key), text_at(b, key))
}
