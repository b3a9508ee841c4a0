//! What is told of settings that are at fault: the fault, and each key that lacks, is not known, or has a value that it may not have.
ghost use Rattle.std.specs.Prelude.{◌≡◌, ◌++◌, ◌<◌, ◌^◌, IfOk, OnOk, length, option_map};
ghost use Rattle.std.specs.Str.Lines.{lines as lines_of};
ghost use Rattle.toml.specs.View.{table_view, view};
ghost use Rattle.network_check.specs.Told.{shown};
ghost use Rattle.network_check.specs.Faulty.{first_line, header, label_at as called_at, line_at, parent_text, parent_value_text, row_at as row_in_table, row_fault, settings_fault, tables_text, too_many_text};
ghost use Rattle.network_check.specs.Columns.{row_text};
ghost use Rattle.network_check.specs.Stands.{stand};

use crate::keys::value_at;
use crate::places::{Page, row_line, top_line};
use crate::rows::{Row, label_of, tell_rows, tell_table};
use crate::sections::Section;
use crate::told::{Piece, tell, write_name, write_pieces};
use dom_base::NoMemory;
use network_files::fault_words;
use plant_text::NetFault;
use std::alloc::Global;
use toml::{Table, Value};

// ---- tables

// A table by itself, or the keys beside the tables.
fn tell_alone(
    page: &Page<'_>,
    section: Section,
    label: &[u8],
    table: &Table,
    into: &mut Vec<u8>,
) -> Result<(), NoMemory>
    requires short { length (lines_of page.now.text.now) < 2 ^ 32 }
    ensures { OnOk result (into.new.items ≡ into.old.items ++ row_text (stand page.now.file.now page.now.text.now section 0 label.now) (table_view table.now)) }
{
    let row = Row {
        page: *page,
        section,
        index: 0,
        label,
    };
    tell_table(&row, table, into)
}

fn tell_parent_table(
    alloc: Global,
    page: &Page<'_>,
    parent: &Table,
    into: &mut Vec<u8>,
) -> Result<(), NoMemory>
    requires short { length (lines_of page.now.text.now) < 2 ^ 32 }
    ensures { OnOk result (into.new.items ≡ into.old.items ++ parent_text page.now.file.now page.now.text.now (table_view parent.now)) }
{
    let links = value_at(parent, "link");
    tell_alone(page, Section::Parent, b"parent", parent, into)?;
    tell_rows(alloc, page, Section::ParentLinks, links, into)
}

fn tell_parent(
    alloc: Global,
    page: &Page<'_>,
    value: Option<&Value>,
    into: &mut Vec<u8>,
) -> Result<(), NoMemory>
    requires short { length (lines_of page.now.text.now) < 2 ^ 32 }
    ensures { OnOk result (into.new.items ≡ into.old.items ++ parent_value_text page.now.file.now page.now.text.now (option_map (λ v. view v.now) value.entry)) }
{
    let Some(value) = value else {
        return Ok(());
    };
    match value.as_table() {
        Some(table) => tell_parent_table(alloc, page, table, into),
        None => tell(
            page.file,
            top_line(page.text, b"parent"),
            &[Piece::Text(b"parent: is no table")],
            into,
        ),
    }
}

/// The keys of all tables.
pub(crate) fn tell_tables(
    alloc: Global,
    page: &Page<'_>,
    root: &Table,
    into: &mut Vec<u8>,
) -> Result<(), NoMemory>
    requires short { length (lines_of page.now.text.now) < 2 ^ 32 }
    ensures { OnOk result (into.new.items ≡ into.old.items ++ tables_text page.now.file.now page.now.text.now (table_view root.now)) }
{
    let elements = value_at(root, "element");
    tell_rows(alloc, page, Section::Elements, elements, into)?;
    tell_rows(alloc, page, Section::Links, value_at(root, "link"), into)?;
    tell_rows(alloc, page, Section::Peers, value_at(root, "peer"), into)?;
    tell_rows(alloc, page, Section::Denials, value_at(root, "deny"), into)?;
    tell_parent(alloc, page, value_at(root, "parent"), into)?;
    tell_alone(page, Section::Top, b"settings", root, into)
}

// ---- the first rule that is broken

fn header_of(alloc: Global, front: &[u8], table: &[u8], back: &[u8]) -> Result<Vec<u8>, NoMemory>
    ensures { IfOk result (λ word. word.items ≡ header front.now table.now back.now) }
{
    let mut word = Vec::new(alloc);
    write_pieces(
        &[Piece::Text(front), Piece::Text(table), Piece::Text(back)],
        &mut word,
    )?;
    Ok(word)
}

fn first_of(one: u32, other: u32, last: u32) -> u32
    ensures { result ≡ first_line one other last }
{
    if one > 0 {
        one
    } else if other > 0 {
        other
    } else {
        last
    }
}

// The line of a row of a table, of a table by itself, or of a key beside the tables.
fn line_of_row(alloc: Global, text: &[u8], table: &[u8], index: usize) -> Result<u32, NoMemory>
    requires short { length (lines_of text.now) < 2 ^ 32 }
    ensures { IfOk result (λ line. line ≡ line_at text.now table.now index) }
{
    let rows = header_of(alloc, b"[[", table, b"]]")?;
    let alone = header_of(alloc, b"[", table, b"]")?;
    Ok(first_of(
        row_line(text, &rows, index),
        row_line(text, &alone, 0),
        top_line(text, table),
    ))
}

// The row at a place of a table.
fn row_at<'a>(root: &'a Table, table: &str, index: usize) -> Option<&'a Value>
    ensures { option_map (λ v. view v.now) result ≡ row_in_table (table_view root.now) table.now index }
{
    let Some(value) = value_at(root, table) else {
        return None;
    };
    value.get(index)
}

// What the row at a place of a table is called.
fn label_at(alloc: Global, root: &Table, table: &str, index: usize) -> Result<Vec<u8>, NoMemory>
    ensures { IfOk result (λ label. label.items ≡ called_at (table_view root.now) table.now index) }
{
    let name = shown_name(alloc, table.as_bytes())?;
    match row_at(root, table, index) {
        Some(row) => label_of(alloc, &name, row),
        None => Ok(name),
    }
}

// A name, without what steers a terminal.
fn shown_name(alloc: Global, name: &[u8]) -> Result<Vec<u8>, NoMemory>
    ensures { IfOk result (λ word. word.items ≡ shown name.now) }
{
    let mut word = Vec::new(alloc);
    write_name(name, &mut word)?;
    Ok(word)
}

/// A rule that a row breaks.
pub(crate) fn tell_row_fault<'x>(
    alloc: Global,
    page: &Page<'_>,
    root: &'x Table,
    why: &'x [u8],
    table: &'x str,
    index: usize,
    into: &mut Vec<u8>,
) -> Result<(), NoMemory>
    requires short { length (lines_of page.now.text.now) < 2 ^ 32 }
    ensures { OnOk result (into.new.items ≡ into.old.items ++ row_fault page.now.file.now page.now.text.now (table_view root.now) why.now table.now index) }
{
    let line = line_of_row(alloc, page.text, table.as_bytes(), index)?;
    let label = label_at(alloc, root, table, index)?;
    tell(
        page.file,
        line,
        &[Piece::Text(why), Piece::Text(&label)],
        into,
    )
}

/// A table that has too many rows, or a row with too many shared risk groups.
pub(crate) fn tell_too_many(
    alloc: Global,
    page: &Page<'_>,
    table: &[u8],
    into: &mut Vec<u8>,
) -> Result<(), NoMemory>
    requires short { length (lines_of page.now.text.now) < 2 ^ 32 }
    ensures { OnOk result (into.new.items ≡ into.old.items ++ too_many_text page.now.file.now page.now.text.now table.now) }
{
    let line = line_of_row(alloc, page.text, table, 0)?;
    tell(
        page.file,
        line,
        &[Piece::Text(b"too many "), Piece::Name(table)],
        into,
    )
}

/// The fault that every command tells of the settings.
pub(crate) fn tell_fault(
    alloc: Global,
    page: &Page<'_>,
    root: &Table,
    fault: &NetFault,
    into: &mut Vec<u8>,
) -> Result<(), NoMemory>
    requires short { length (lines_of page.now.text.now) < 2 ^ 32 }
    ensures { OnOk result (into.new.items ≡ into.old.items ++ settings_fault page.now.file.now page.now.text.now (table_view root.now) fault.now) }
{
    match fault {
        NetFault::Shape(table, i) => {
            let table = table.as_str();
            tell_row_fault(alloc, page, root, b"shape ", table, *i as usize, into)
        }
        NetFault::Duplicate(table, i) => {
            let table = table.as_str();
            tell_row_fault(alloc, page, root, b"duplicate ", table, *i as usize, into)
        }
        NetFault::Unknown(table, i) => {
            let table = table.as_str();
            tell_row_fault(alloc, page, root, b"unknown ", table, *i as usize, into)
        }
        NetFault::NoParent(i) => {
            let why = b"no parent for ";
            tell_row_fault(alloc, page, root, why, "element", *i as usize, into)
        }
        NetFault::TooMany(table) => tell_too_many(alloc, page, table.as_str().as_bytes(), into),
        other => tell(page.file, 0, &[Piece::Text(fault_words(other))], into),
    }
}
