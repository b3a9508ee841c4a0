//! The values of a settings text.
ghost use Rattle.std.specs.Prelude.{◌≡◌, ◌≤◌, ◌-◌, ◌^◌, [], IfSome, is_some, option_map};
ghost use Rattle.std.specs.List.{list_any};
ghost use Rattle.std.specs.Str.{bytes_eq};
ghost use Rattle.toml.specs.Data.{as_bool, as_str as string_of, get_member};
ghost use Rattle.toml.specs.View.{items_view, table_view, view};
ghost use Rattle.plant_text.specs.Given.{Gives};
ghost use Rattle.plant_text.specs.SettingsText.{addr_of, as_of, colour_of, needed, number, numbers_in, numbers_of, optional};

use crate::line::LineError;
use dom_base::{Addr, As, List, read_addr, read_colour};
use std::alloc::Global;
use toml::{Table, Value};

/// The value of a key.
pub(crate) fn value_at<'a>(table: &'a Table, key: &str) -> Option<&'a Value>
    ensures { option_map (λ v. view v.now) result ≡ get_member key.now (table_view table.now) }
{
    table.get(key)
}

/// Whether a key is one of these names.
pub(crate) fn is_one_of(key: &str, names: &[&str]) -> bool
    ensures { result ≡ list_any (λ name. bytes_eq key.now name.now) names.now }
{
    names.iter().any(|name| key == *name)
}

/// Whether a table has a key.
pub(crate) fn has_key(table: &Table, key: &str) -> bool
    ensures { result ≡ is_some (get_member key.now (table_view table.now)) }
{
    value_at(table, key).is_some()
}

// ---- what a value means

fn whole_of(value: &Value, most: u64) -> Option<u64>
    ensures value { result ≡ number most (view value.now) }
    ensures bound { IfSome result (λ n. n ≤ most) }
{
    let n = value.as_integer()?;
    if n < 0 {
        return None;
    }
    let whole = n as u64;
    if whole <= most { Some(whole) } else { None }
}

pub(crate) fn as_of_value(value: &Value) -> Option<As>
    ensures { result ≡ as_of (view value.now) }
{
    let number = whole_of(value, u64::from(u16::MAX))?;
    Some(As(number as u16))
}

pub(crate) fn addr_in(value: &Value) -> Option<Addr>
    ensures { result ≡ addr_of (view value.now) }
{
    match value.as_str() {
        Some(text) => read_addr(text.as_bytes()),
        None => None,
    }
}

fn colour_in(value: &Value) -> Option<u32>
    ensures { result ≡ colour_of (view value.now) }
{
    match value.as_str() {
        Some(text) => read_colour(text.as_bytes()),
        None => None,
    }
}

// ---- keys that a table must have

pub(crate) fn as_at(table: &Table, key: &str) -> Option<As>
    ensures { result ≡ needed as_of key.now (table_view table.now) }
{
    match value_at(table, key) {
        Some(value) => as_of_value(value),
        None => None,
    }
}

pub(crate) fn addr_at(table: &Table, key: &str) -> Option<Addr>
    ensures { result ≡ needed addr_of key.now (table_view table.now) }
{
    match value_at(table, key) {
        Some(value) => addr_in(value),
        None => None,
    }
}

pub(crate) fn colour_at(table: &Table, key: &str) -> Option<u32>
    ensures { result ≡ needed colour_of key.now (table_view table.now) }
{
    match value_at(table, key) {
        Some(value) => colour_in(value),
        None => None,
    }
}

pub(crate) fn whole_at(table: &Table, key: &str, most: u64) -> Option<u64>
    ensures value { result ≡ needed (number most) key.now (table_view table.now) }
    ensures bound { IfSome result (λ n. n ≤ most) }
{
    match value_at(table, key) {
        Some(value) => whole_of(value, most),
        None => None,
    }
}

pub(crate) fn port_at(table: &Table, key: &str) -> Option<u16>
    ensures { result ≡ needed (number (2 ^ 16 - 1)) key.now (table_view table.now) }
{
    let port = whole_at(table, key, u64::from(u16::MAX))?;
    Some(port as u16)
}

pub(crate) fn text_at<'a>(table: &'a Table, key: &str) -> Option<&'a str>
    ensures { option_map (λ s. s.now) result ≡ needed string_of key.now (table_view table.now) }
{
    match value_at(table, key) {
        Some(value) => value.as_str(),
        None => None,
    }
}

// ---- keys that it may have

pub(crate) fn whole_or(table: &Table, key: &str, most: u64, default: u64) -> Option<u64>
    requires { default ≤ most }
    ensures value { result ≡ optional (number most) default key.now (table_view table.now) }
    ensures bound { IfSome result (λ n. n ≤ most) }
{
    match value_at(table, key) {
        Some(value) => whole_of(value, most),
        None => Some(default),
    }
}

pub(crate) fn bool_or(table: &Table, key: &str, default: bool) -> Option<bool>
    ensures { result ≡ optional as_bool default key.now (table_view table.now) }
{
    match value_at(table, key) {
        Some(value) => value.as_bool(),
        None => Some(default),
    }
}

fn numbers_among(alloc: Global, items: &[Value]) -> Result<List<u32>, LineError>
    ensures { Gives result (numbers_in (items_view items.now)) }
{
    let mut numbers = List::new(alloc);
    for item in items {
        let Some(number) = whole_of(item, u64::from(u32::MAX)) else {
            return Err(LineError::Outside);
        };
        numbers.push(number as u32)?;
    }
    Ok(numbers)
}

pub(crate) fn numbers_or_none(
    alloc: Global,
    table: &Table,
    key: &str,
) -> Result<List<u32>, LineError>
    ensures { Gives result (optional numbers_of [] key.now (table_view table.now)) }
{
    let Some(value) = value_at(table, key) else {
        return Ok(List::new(alloc));
    };
    match value.as_array() {
        Some(items) => numbers_among(alloc, items.as_slice()),
        None => Err(LineError::Outside),
    }
}
