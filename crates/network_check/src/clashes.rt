//! Rules about rows of settings that stand beside one another: each row that repeats an earlier one, names a domain without an
//! element, or asks a parent where there is none. A row counts by those of its keys that can be read.
ghost use Rattle.std.specs.Prelude.{◌≡◌, ◌==◌, ◌&&◌, ◌++◌, ◌<◌, ◌^◌, [], OnOk, codes, length, map, option_map, take};
ghost use Rattle.std.specs.Str.{bytes_eq};
ghost use Rattle.std.specs.Str.Lines.{lines as lines_of};
ghost use Rattle.toml.specs.Data.{as_table as table_in, get_member};
ghost use Rattle.toml.specs.View.{table_view, view};
ghost use Rattle.plant_text.specs.SettingsText.{is_table};
ghost use Rattle.network_check.specs.Clashes.{are_known as are_all_known, broken_of, clash_text, clash_words as words_of_clash, clashes_text, count_clash, elements_of as elements_in, family_clashes, has_row, is_element as has_element, is_first as tells_first, is_like as is_like_row, is_nobody as is_nobody_there, is_own as is_own_row, is_such, is_too_many as tells_too_many, knows_domain, lacks_parent as lacks_a_parent, names_nobody as names_nobody_there, parent_clashes, parent_links_of, repeats as repeats_row, rows_clashes, rows_in, same_ends as have_same_ends, same_way as have_same_way, section_clashes, table_clashes, tables_clashes};

use crate::keys::{
    agree_domains, domain_at, has_yes, meet, same_address, same_domain, same_text, value_at, way_of,
};
use crate::places::Page;
use crate::sections::{Section, name_of};
use crate::settings::{tell_row_fault, tell_too_many};
use dom_base::{As, NoMemory, Text};
use plant_text::{DENY_MAX, ELEMENTS_MAX, LINKS_MAX, NetFault, PARENT_LINKS_MAX, PEERS_MAX};
use std::alloc::Global;
use toml::{Table, Value};

/// What is wrong with a row, as the rows beside it are.
#[derive(Clone, Copy)]
pub enum Clash {
    /// It repeats an earlier row.
    Duplicate,
    /// It names a domain without an element.
    Unknown,
    /// It asks a parent, and there is none.
    NoParent,
}

/// Settings that break a rule: where they stand, their document, and the first rule that they break, which is told before.
#[derive(Clone, Copy)]
pub struct Broken<'a> {
    pub page: Page<'a>,
    pub root: &'a Table,
    pub first: &'a NetFault,
}

// ---- rows

// The rows of a table.
#[tactic(auto, using(crate::proofs::Rowing::rows_seen))]
fn rows_of<'a>(value: Option<&'a Value>) -> &'a [Value]
    ensures { map view result.now ≡ rows_in (option_map (λ v. view v.now) value.entry) }
{
    match value {
        Some(value) => match value.as_array() {
            Some(items) => items.as_slice(),
            None => &[],
        },
        None => &[],
    }
}

fn elements_of(root: &Table) -> &[Value]
    ensures { map view result.now ≡ elements_in (table_view root.now) }
{
    rows_of(value_at(root, "element"))
}

// ---- a row repeats what another says

// Whether both links join the same domains.
fn same_ends(a: &Table, b: &Table) -> bool
    ensures { result ≡ have_same_ends (table_view a.now) (table_view b.now) }
{
    let straight = same_domain("a", a, b) && same_domain("b", a, b);
    straight || (meet(a, "a", b, "b") && meet(a, "b", b, "a"))
}

// Whether paths of one element go on to one domain through both peers.
fn same_way(a: &Table, b: &Table) -> bool
    ensures { result ≡ have_same_way (table_view a.now) (table_view b.now) }
{
    same_domain("as", a, b) && agree_domains(way_of(a), way_of(b))
}

// Whether a row says again what another says.
fn is_like(section: Section, a: &Table, b: &Table) -> bool
    ensures { result ≡ is_like_row section (table_view a.now) (table_view b.now) }
{
    match section {
        Section::Elements => same_domain("as", a, b) || same_address("id", a, b),
        Section::Links => same_ends(a, b),
        Section::Peers => same_text("name", a, b) || same_way(a, b),
        Section::Parent => same_address("id", a, b),
        Section::ParentLinks => same_address("near", a, b) || same_address("far", a, b),
        Section::Denials | Section::Top => false,
    }
}

fn is_row_like(section: Section, row: &Value, table: &Table) -> bool
    ensures { result ≡ is_such (λ a. is_like_row section a (table_view table.now)) (table_in (view row.now)) }
{
    match row.as_table() {
        Some(other) => is_like(section, other, table),
        None => false,
    }
}

fn has_like(section: Section, rows: &[Value], table: &Table) -> bool
    ensures { result ≡ has_row (λ a. is_like_row section a (table_view table.now)) (map view rows.now) }
{
    for row in rows {
        if is_row_like(section, row, table) {
            return true;
        }
    }
    false
}

// ---- a row names domains

fn is_own(row: &Value, domain: As) -> bool
    ensures { result ≡ is_such (is_own_row domain) (table_in (view row.now)) }
{
    match row.as_table() {
        Some(element) => agree_domains(domain_at(element, "as"), Some(domain)),
        None => false,
    }
}

fn has_own(elements: &[Value], domain: As) -> bool
    ensures { result ≡ has_row (is_own_row domain) (map view elements.now) }
{
    for row in elements {
        if is_own(row, domain) {
            return true;
        }
    }
    false
}

fn is_element(elements: &[Value], domain: Option<As>) -> bool
    ensures { result ≡ has_element (map view elements.now) domain }
{
    match domain {
        Some(domain) => has_own(elements, domain),
        None => false,
    }
}

fn is_known(row: &Value) -> bool
    ensures { result ≡ is_such knows_domain (table_in (view row.now)) }
{
    match row.as_table() {
        Some(element) => domain_at(element, "as").is_some(),
        None => false,
    }
}

// Whether every element's domain can be read.
fn are_known(elements: &[Value]) -> bool
    ensures { result ≡ are_all_known (map view elements.now) }
{
    for row in elements {
        if !is_known(row) {
            return false;
        }
    }
    true
}

// Whether a key names a domain that is no element's.
fn is_nobody(elements: &[Value], key: &str, table: &Table) -> bool
    ensures { result ≡ is_nobody_there (map view elements.now) key.now (table_view table.now) }
{
    let domain = domain_at(table, key);
    domain.is_some() && are_known(elements) && !is_element(elements, domain)
}

// ---- what is wrong with a row

fn repeats(section: Section, elements: &[Value], before: &[Value], table: &Table) -> bool
    ensures { result ≡ repeats_row section (map view elements.now) (map view before.now) (table_view table.now) }
{
    let is_again = has_like(section, before, table);
    match section {
        Section::Peers => is_again || is_element(elements, way_of(table)),
        _other => is_again,
    }
}

fn names_nobody(section: Section, elements: &[Value], table: &Table) -> bool
    ensures { result ≡ names_nobody_there section (map view elements.now) (table_view table.now) }
{
    match section {
        Section::Links => is_nobody(elements, "a", table) || is_nobody(elements, "b", table),
        Section::Peers => is_nobody(elements, "as", table),
        Section::Denials => is_nobody(elements, "at", table),
        _other => false,
    }
}

// Whether the settings have a parent, malformed or not.
fn has_parent(root: &Table) -> bool
    ensures { result ≡ is_table (get_member (codes "parent") (table_view root.now)) }
{
    match value_at(root, "parent") {
        Some(parent) => parent.is_table(),
        None => false,
    }
}

fn lacks_parent(section: Section, root: &Table, table: &Table) -> bool
    ensures { result ≡ lacks_a_parent section (table_view root.now) (table_view table.now) }
{
    match section {
        Section::Elements => has_yes(table, "parent") && !has_parent(root),
        _other => false,
    }
}

// ---- what is told of it

fn clash_words(clash: Clash) -> &'static [u8]
    ensures { result.now ≡ words_of_clash clash }
{
    match clash {
        Clash::Duplicate => b"duplicate ",
        Clash::Unknown => b"unknown ",
        Clash::NoParent => b"no parent for ",
    }
}

// Whether a fault is of this row.
fn is_at(table: &Text, place: u32, name: &str, index: usize) -> bool
    ensures { result ≡ (bytes_eq table.now name.now && (place == index)) }
{
    table.as_str() == name && place as usize == index
}

// Whether the first rule that is broken is this one of this row.
fn is_first(first: &NetFault, clash: Clash, name: &str, index: usize) -> bool
    ensures { result ≡ tells_first first.now clash name.now index }
{
    match clash {
        Clash::Duplicate => match first {
            NetFault::Duplicate(table, place) => is_at(table, *place, name, index),
            _other => false,
        },
        Clash::Unknown => match first {
            NetFault::Unknown(table, place) => is_at(table, *place, name, index),
            _other => false,
        },
        Clash::NoParent => match first {
            NetFault::NoParent(place) => *place as usize == index,
            _other => false,
        },
    }
}

fn tell_clash(
    alloc: Global,
    broken: &Broken<'_>,
    section: Section,
    index: usize,
    clash: Clash,
    is: bool,
    into: &mut Vec<u8>,
) -> Result<(), NoMemory>
    requires short { length (lines_of broken.now.page.text.now) < 2 ^ 32 }
    ensures { OnOk result (into.new.items ≡ into.old.items ++ clash_text (broken_of broken.now) section index clash is) }
{
    let name = name_of(section);
    if !is || is_first(broken.first, clash, name, index) {
        return Ok(());
    }
    let why = clash_words(clash);
    tell_row_fault(alloc, &broken.page, broken.root, why, name, index, into)
}

// What is wrong with a row, as the rows beside it are.
fn tell_row(
    alloc: Global,
    broken: &Broken<'_>,
    section: Section,
    before: &[Value],
    index: usize,
    table: Option<&Table>,
    into: &mut Vec<u8>,
) -> Result<(), NoMemory>
    requires short { length (lines_of broken.now.page.text.now) < 2 ^ 32 }
    ensures { OnOk result (into.new.items ≡ into.old.items ++ table_clashes (broken_of broken.now) section (map view before.now) index (option_map (λ t. table_view t.now) table.entry)) }
{
    let Some(table) = table else {
        return Ok(());
    };
    let elements = elements_of(broken.root);
    let again = repeats(section, elements, before, table);
    let nobody = names_nobody(section, elements, table);
    let orphan = lacks_parent(section, broken.root, table);
    tell_clash(alloc, broken, section, index, Clash::Duplicate, again, into)?;
    tell_clash(alloc, broken, section, index, Clash::Unknown, nobody, into)?;
    tell_clash(alloc, broken, section, index, Clash::NoParent, orphan, into)
}

// Each row behind those before it.
#[tactic(auto, using(crate::proofs::Rowing::rows_next))]
fn tell_rows(
    alloc: Global,
    broken: &Broken<'_>,
    section: Section,
    rows: &[Value],
    into: &mut Vec<u8>,
) -> Result<(), NoMemory>
    requires short { length (lines_of broken.now.page.text.now) < 2 ^ 32 }
    ensures { OnOk result (into.new.items ≡ into.old.items ++ rows_clashes (broken_of broken.now) section [] (map view rows.now)) }
{
    for i in 0..rows.len() {
        let table = rows[i].as_table();
        tell_row(alloc, broken, section, &rows[..i], i, table, into)?;
    }
    Ok(())
}

fn is_too_many(first: &NetFault, name: &str) -> bool
    ensures { result ≡ tells_too_many first.now name.now }
{
    match first {
        NetFault::TooMany(table) => table.as_str() == name,
        _other => false,
    }
}

fn tell_count(
    alloc: Global,
    broken: &Broken<'_>,
    section: Section,
    limit: u32,
    count: usize,
    into: &mut Vec<u8>,
) -> Result<(), NoMemory>
    requires short { length (lines_of broken.now.page.text.now) < 2 ^ 32 }
    ensures { OnOk result (into.new.items ≡ into.old.items ++ count_clash (broken_of broken.now) section limit count) }
{
    let name = name_of(section);
    if count <= limit as usize || is_too_many(broken.first, name) {
        return Ok(());
    }
    tell_too_many(alloc, &broken.page, name.as_bytes(), into)
}

// The first rows, up to a limit.
fn within(rows: &[Value], limit: u32) -> &[Value]
    ensures { map view result.now ≡ take limit (map view rows.now) }
{
    if rows.len() <= limit as usize {
        rows
    } else {
        &rows[..limit as usize]
    }
}

// The rows of a table; of those past its limit only that there are too many.
fn tell_section(
    alloc: Global,
    broken: &Broken<'_>,
    section: Section,
    limit: u32,
    rows: &[Value],
    into: &mut Vec<u8>,
) -> Result<(), NoMemory>
    requires short { length (lines_of broken.now.page.text.now) < 2 ^ 32 }
    ensures { OnOk result (into.new.items ≡ into.old.items ++ section_clashes (broken_of broken.now) section limit (map view rows.now)) }
{
    tell_count(alloc, broken, section, limit, rows.len(), into)?;
    tell_rows(alloc, broken, section, within(rows, limit), into)
}

// The parent, whose id may be that of an element.
fn tell_parent(
    alloc: Global,
    broken: &Broken<'_>,
    parent: Option<&Value>,
    into: &mut Vec<u8>,
) -> Result<(), NoMemory>
    requires short { length (lines_of broken.now.page.text.now) < 2 ^ 32 }
    ensures { OnOk result (into.new.items ≡ into.old.items ++ parent_clashes (broken_of broken.now) (option_map (λ v. view v.now) parent.entry)) }
{
    let Some(parent) = parent else {
        return Ok(());
    };
    let elements = elements_of(broken.root);
    let table = parent.as_table();
    tell_row(alloc, broken, Section::Parent, elements, 0, table, into)
}

// The links that the parent knows.
fn parent_links(root: &Table) -> &[Value]
    ensures { map view result.now ≡ parent_links_of (table_view root.now) }
{
    match value_at(root, "parent") {
        Some(parent) => rows_of(parent.get("link")),
        None => &[],
    }
}

fn tell_tables(alloc: Global, broken: &Broken<'_>, into: &mut Vec<u8>) -> Result<(), NoMemory>
    requires short { length (lines_of broken.now.page.text.now) < 2 ^ 32 }
    ensures { OnOk result (into.new.items ≡ into.old.items ++ tables_clashes (broken_of broken.now)) }
{
    let root = broken.root;
    let elements = elements_of(root);
    let links = rows_of(value_at(root, "link"));
    let peers = rows_of(value_at(root, "peer"));
    let deny = rows_of(value_at(root, "deny"));
    let most = ELEMENTS_MAX;
    tell_section(alloc, broken, Section::Elements, most, elements, into)?;
    tell_section(alloc, broken, Section::Links, LINKS_MAX, links, into)?;
    tell_section(alloc, broken, Section::Peers, PEERS_MAX, peers, into)?;
    tell_section(alloc, broken, Section::Denials, DENY_MAX, deny, into)
}

// The parent, and the links that it knows.
fn tell_family(alloc: Global, broken: &Broken<'_>, into: &mut Vec<u8>) -> Result<(), NoMemory>
    requires short { length (lines_of broken.now.page.text.now) < 2 ^ 32 }
    ensures { OnOk result (into.new.items ≡ into.old.items ++ family_clashes (broken_of broken.now)) }
{
    let most = PARENT_LINKS_MAX;
    let links = parent_links(broken.root);
    tell_parent(alloc, broken, value_at(broken.root, "parent"), into)?;
    tell_section(alloc, broken, Section::ParentLinks, most, links, into)
}

/// Each row that breaks a rule about the rows beside it, but for the first rule that is broken.
pub(crate) fn tell_clashes(
    alloc: Global,
    broken: &Broken<'_>,
    into: &mut Vec<u8>,
) -> Result<(), NoMemory>
    requires short { length (lines_of broken.now.page.text.now) < 2 ^ 32 }
    ensures { OnOk result (into.new.items ≡ into.old.items ++ clashes_text (broken_of broken.now)) }
{
    tell_tables(alloc, broken, into)?;
    tell_family(alloc, broken, into)
}
