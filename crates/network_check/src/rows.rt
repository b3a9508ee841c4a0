//! The keys of the rows of settings: which lack, which are not known, and which have a value that they may not have.
ghost use Rattle.std.specs.Prelude.{◌≡◌, ◌++◌, ◌<◌, ◌^◌, IfOk, OnOk, length, map, option_map};
ghost use Rattle.std.specs.Str.Lines.{lines as lines_of};
ghost use Rattle.toml.specs.View.{items_view, table_view, view};
ghost use Rattle.plant_text.specs.SettingsText.{names};
ghost use Rattle.network_check.specs.Columns.{columns_text, domain_in, field_text, is_column, items_text, kind_text, label_of as row_called, labelled_text, lack_text, member_text, name_in, row_label, row_text, rows_text, strange_text, together_text, unknown_text, value_text};
ghost use Rattle.network_check.specs.Sections.{column, columns_of};
ghost use Rattle.network_check.specs.Stands.{line_of_key as key_stands_at, line_of_row as row_stands_at, stand_of};

use crate::fields::{Field, key_of, kind_of};
use crate::keys::value_at;
use crate::kinds::{Kind, fits, kind_words};
use crate::pairs::{tell_ends, tell_pairs};
use crate::places::{Page, key_line, row_line, top_line};
use crate::sections::{Section, fields_of, header_of, name_of as table_name};
use crate::told::{Piece, tell, write_pieces};
use dom_base::NoMemory;
use std::alloc::Global;
use toml::{Table, Value};

/// A row of settings: its table, its place there, and what it is called.
#[derive(Clone, Copy)]
pub struct Row<'a> {
    pub page: Page<'a>,
    pub section: Section,
    pub index: usize,
    pub label: &'a [u8],
}

/// The line of a row.
fn line_of_row(row: &Row<'_>) -> u32
    requires short { length (lines_of row.now.page.text.now) < 2 ^ 32 }
    ensures { result ≡ row_stands_at (stand_of row.now) }
{
    row_line(row.page.text, header_of(row.section), row.index)
}

/// The line of a key of a row.
pub(crate) fn line_of_key(row: &Row<'_>, key: &[u8]) -> u32
    requires short { length (lines_of row.now.page.text.now) < 2 ^ 32 }
    ensures { result ≡ key_stands_at (stand_of row.now) key.now }
{
    key_line(row.page.text, header_of(row.section), row.index, key)
}

// ---- the keys of a row

// What a key may be.
fn tell_kind<'x>(
    row: &Row<'x>,
    line: u32,
    what: &'x [u8],
    key: &'x [u8],
    kind: Kind,
    into: &mut Vec<u8>,
) -> Result<(), NoMemory>
    ensures { OnOk result (into.new.items ≡ into.old.items ++ kind_text (stand_of row.now) line what.now key.now kind) }
{
    match kind {
        Kind::Whole(least, most) => tell(
            row.page.file,
            line,
            &[
                Piece::Text(row.label),
                Piece::Text(b": "),
                Piece::Text(key),
                Piece::Text(what),
                Piece::Number(least),
                Piece::Text(b" to "),
                Piece::Number(most),
            ],
            into,
        ),
        other => tell(
            row.page.file,
            line,
            &[
                Piece::Text(row.label),
                Piece::Text(b": "),
                Piece::Text(key),
                Piece::Text(what),
                Piece::Text(kind_words(other)),
            ],
            into,
        ),
    }
}

// A value that its key may not have.
fn tell_value(
    row: &Row<'_>,
    field: &Field,
    value: &Value,
    into: &mut Vec<u8>,
) -> Result<(), NoMemory>
    requires short { length (lines_of row.now.page.text.now) < 2 ^ 32 }
    ensures { OnOk result (into.new.items ≡ into.old.items ++ value_text (stand_of row.now) (column field.now) (view value.now)) }
{
    let key = key_of(field).as_bytes();
    let kind = kind_of(field);
    if fits(kind, value) {
        return Ok(());
    }
    tell_kind(row, line_of_key(row, key), b" is not ", key, kind, into)
}

// A key that a row lacks.
fn tell_lack(row: &Row<'_>, field: &Field, into: &mut Vec<u8>) -> Result<(), NoMemory>
    requires short { length (lines_of row.now.page.text.now) < 2 ^ 32 }
    ensures { OnOk result (into.new.items ≡ into.old.items ++ lack_text (stand_of row.now) (column field.now)) }
{
    match field {
        Field::Must(key, kind) => {
            let line = line_of_row(row);
            let what = b" is missing: ";
            tell_kind(row, line, what, key.as_bytes(), *kind, into)
        }
        Field::May(_, _) => Ok(()),
    }
}

// A key that a row lacks, or whose value it may not have.
fn tell_field(
    row: &Row<'_>,
    table: &Table,
    field: &Field,
    into: &mut Vec<u8>,
) -> Result<(), NoMemory>
    requires short { length (lines_of row.now.page.text.now) < 2 ^ 32 }
    ensures { OnOk result (into.new.items ≡ into.old.items ++ field_text (stand_of row.now) (table_view table.now) (column field.now)) }
{
    match value_at(table, key_of(field)) {
        Some(value) => tell_value(row, field, value, into),
        None => tell_lack(row, field, into),
    }
}

fn tell_fields(
    row: &Row<'_>,
    table: &Table,
    fields: &[Field],
    into: &mut Vec<u8>,
) -> Result<(), NoMemory>
    requires short { length (lines_of row.now.page.text.now) < 2 ^ 32 }
    ensures { OnOk result (into.new.items ≡ into.old.items ++ columns_text (stand_of row.now) (table_view table.now) (map column fields.now)) }
{
    for field in fields {
        tell_field(row, table, field, into)?;
    }
    Ok(())
}

fn is_known(fields: &[Field], key: &str) -> bool
    ensures { result ≡ is_column (map column fields.now) key.now }
{
    for field in fields {
        if key == key_of(field) {
            return true;
        }
    }
    false
}

fn has_field(section: Section, key: &str) -> bool
    ensures { result ≡ is_column (columns_of section) key.now }
{
    is_known(fields_of(section), key)
}

// A key that is not known.
fn tell_strange<'x>(row: &Row<'x>, key: &'x str, into: &mut Vec<u8>) -> Result<(), NoMemory>
    requires short { length (lines_of row.now.page.text.now) < 2 ^ 32 }
    ensures { OnOk result (into.new.items ≡ into.old.items ++ strange_text (stand_of row.now) key.now) }
{
    if has_field(row.section, key) {
        return Ok(());
    }
    let name = key.as_bytes();
    tell(
        row.page.file,
        line_of_key(row, name),
        &[
            Piece::Text(row.label),
            Piece::Text(b": "),
            Piece::Name(name),
            Piece::Text(b" is no key there"),
        ],
        into,
    )
}

// Each key that is not known.
#[tactic(auto, using(crate::proofs::Rowing::names_seen))]
fn tell_unknown(row: &Row<'_>, table: &Table, into: &mut Vec<u8>) -> Result<(), NoMemory>
    requires short { length (lines_of row.now.page.text.now) < 2 ^ 32 }
    ensures { OnOk result (into.new.items ≡ into.old.items ++ unknown_text (stand_of row.now) (names (table_view table.now))) }
{
    for key in table.keys() {
        tell_strange(&*row, key.as_str(), into)?;
    }
    Ok(())
}

// Keys that do not go together.
fn tell_together(row: &Row<'_>, table: &Table, into: &mut Vec<u8>) -> Result<(), NoMemory>
    requires short { length (lines_of row.now.page.text.now) < 2 ^ 32 }
    ensures { OnOk result (into.new.items ≡ into.old.items ++ together_text row.now.section (stand_of row.now) (table_view table.now)) }
{
    match row.section {
        Section::Links => tell_ends(row, table, into),
        Section::Peers => tell_pairs(row, table, into),
        _other => Ok(()),
    }
}

/// The keys of a row: each that lacks or has a value that it may not have, each that is not known, and those that do not go together.
pub(crate) fn tell_table(row: &Row<'_>, table: &Table, into: &mut Vec<u8>) -> Result<(), NoMemory>
    requires short { length (lines_of row.now.page.text.now) < 2 ^ 32 }
    ensures { OnOk result (into.new.items ≡ into.old.items ++ row_text (stand_of row.now) (table_view table.now)) }
{
    tell_fields(row, table, fields_of(row.section), into)?;
    tell_unknown(row, table, into)?;
    tell_together(row, table, into)
}

// ---- the rows of a table

// The name of a row that has one.
fn name_of(value: &Value) -> Option<&str>
    ensures { option_map (λ s. s.now) result ≡ name_in (view value.now) }
{
    match value.get("name") {
        Some(name) => name.as_str(),
        None => None,
    }
}

// The number of a row's domain, where it has one.
fn domain_of(value: &Value) -> Option<u64>
    ensures { result ≡ domain_in (view value.now) }
{
    let Some(domain) = value.get("as") else {
        return None;
    };
    let Some(number) = domain.as_integer() else {
        return None;
    };
    if number < 0 {
        None
    } else {
        Some(number as u64)
    }
}

fn write_label<'x>(
    table: &'x [u8],
    name: Option<&'x str>,
    domain: Option<u64>,
    into: &mut Vec<u8>,
) -> Result<(), NoMemory>
    ensures { OnOk result (into.new.items ≡ into.old.items ++ row_label table.now (option_map (λ s. s.now) name.entry) domain) }
{
    let text = Piece::Text(table);
    match name {
        Some(own) => {
            let own = own.as_bytes();
            write_pieces(&[text, Piece::Text(b" "), Piece::Name(own)], into)
        }
        None => match domain {
            Some(number) => {
                write_pieces(
                    &[text, Piece::Text(b" of domain "), Piece::Number(number)],
                    into,
                )
            }
            None => write_pieces(&[text], into),
        },
    }
}

/// What a row is called: its table, and its name or the number of its domain, where it has one.
pub(crate) fn label_of(alloc: Global, table: &[u8], value: &Value) -> Result<Vec<u8>, NoMemory>
    ensures { IfOk result (λ label. label.items ≡ row_called table.now (view value.now)) }
{
    let mut label = Vec::new(alloc);
    write_label(table, name_of(value), domain_of(value), &mut label)?;
    Ok(label)
}

// The keys of a row, where it is a table.
fn tell_labelled(row: &Row<'_>, table: Option<&Table>, into: &mut Vec<u8>) -> Result<(), NoMemory>
    requires short { length (lines_of row.now.page.text.now) < 2 ^ 32 }
    ensures { OnOk result (into.new.items ≡ into.old.items ++ labelled_text (stand_of row.now) (option_map (λ t. table_view t.now) table.entry)) }
{
    match table {
        Some(table) => tell_table(row, table, into),
        None => tell(
            row.page.file,
            line_of_row(row),
            &[Piece::Text(row.label), Piece::Text(b": is no table")],
            into,
        ),
    }
}

fn tell_row(
    alloc: Global,
    page: &Page<'_>,
    section: Section,
    index: usize,
    value: &Value,
    into: &mut Vec<u8>,
) -> Result<(), NoMemory>
    requires short { length (lines_of page.now.text.now) < 2 ^ 32 }
    ensures { OnOk result (into.new.items ≡ into.old.items ++ member_text page.now.file.now page.now.text.now section index (view value.now)) }
{
    let label = label_of(alloc, table_name(section).as_bytes(), value)?;
    let row = Row {
        page: *page,
        section,
        index,
        label: &label,
    };
    tell_labelled(&row, value.as_table(), into)
}

fn tell_items(
    alloc: Global,
    page: &Page<'_>,
    section: Section,
    items: &[Value],
    into: &mut Vec<u8>,
) -> Result<(), NoMemory>
    requires short { length (lines_of page.now.text.now) < 2 ^ 32 }
    ensures { OnOk result (into.new.items ≡ into.old.items ++ items_text page.now.file.now page.now.text.now section 0 (items_view items.now)) }
{
    for i in 0..items.len() {
        tell_row(alloc, page, section, i, &items[i], into)?;
    }
    Ok(())
}

/// The keys of all rows of a table.
pub(crate) fn tell_rows(
    alloc: Global,
    page: &Page<'_>,
    section: Section,
    value: Option<&Value>,
    into: &mut Vec<u8>,
) -> Result<(), NoMemory>
    requires short { length (lines_of page.now.text.now) < 2 ^ 32 }
    ensures { OnOk result (into.new.items ≡ into.old.items ++ rows_text page.now.file.now page.now.text.now section (option_map (λ v. view v.now) value.entry)) }
{
    let Some(value) = value else {
        return Ok(());
    };
    let name = table_name(section).as_bytes();
    match value.as_array() {
        Some(items) => tell_items(alloc, page, section, items.as_slice(), into),
        None => tell(
            page.file,
            top_line(page.text, name),
            &[Piece::Text(name), Piece::Text(b": is no list of tables")],
            into,
        ),
    }
}
