//! The first rule that settings break.
ghost use Rattle.std.specs.Prelude.{◌≡◌, [], Some};
ghost use Rattle.plant_text.specs.Faults.{IsTold, Tells};
ghost use Rattle.plant_text.specs.Rules.{cut_rules, family_rules as family_rules_of, rows_from, rules as rules_of_sheet, table as table_rules, table_rules as table_rules_of, told, top_rules as top_rules_of};

use crate::fault::{Breach, NetError, NetFault};
use crate::limits::{DENY_MAX, ELEMENTS_MAX, LINKS_MAX, PARENT_LINKS_MAX, PEERS_MAX};
use crate::row::{Row, parent_breach, watch_breach, worker_breach};
use crate::sheet::Sheet;
use dom_base::{List, Text};
use std::alloc::Global;

// The fault that reports a breach.
fn refusal(alloc: Global, name: &str, index: u32, breach: Breach) -> NetError
    ensures { IsTold (Some (told name.now index breach)) result }
{
    let Ok(table) = Text::copy_of(alloc, name) else {
        return NetError::NoMemory;
    };
    NetError::Fault(match breach {
        Breach::TooMany => NetFault::TooMany(table),
        Breach::Shape => NetFault::Shape(table, index),
        Breach::Duplicate => NetFault::Duplicate(table, index),
        Breach::Unknown => NetFault::Unknown(table, index),
        Breach::NoParent => NetFault::NoParent(index),
    })
}

// The first rule that the rows of a table break.
fn check_rows<R: Row>(
    alloc: Global,
    name: &str,
    limit: u32,
    rows: &[R],
    sheet: &Sheet,
) -> Result<(), NetError>
    ensures { Tells (rows_from name.now limit (R.rules sheet.now) 0 [] rows.now) result }
{
    for i in 0..rows.len() {
        if i >= limit as usize {
            return Err(refusal(alloc, name, limit, Breach::TooMany));
        }
        if let Some(breach) = rows[i].breach(sheet, &rows[..i]) {
            return Err(refusal(alloc, name, i as u32, breach));
        }
    }
    Ok(())
}

// The rule that the row behind those of a table breaks.
fn check_cut(
    alloc: Global,
    name: &str,
    limit: u32,
    count: usize,
    cut: Option<Breach>,
) -> Result<(), NetError>
    ensures { Tells (cut_rules name.now limit count cut) result }
{
    let Some(breach) = cut else {
        return Ok(());
    };
    if count >= limit as usize {
        return Err(refusal(alloc, name, limit, Breach::TooMany));
    }
    Err(refusal(alloc, name, count as u32, breach))
}

// The first rule that a table breaks.
fn check_table<R: Row>(
    alloc: Global,
    name: &str,
    limit: u32,
    rows: &List<R>,
    cut: Option<Breach>,
    sheet: &Sheet,
) -> Result<(), NetError>
    ensures { Tells (table_rules name.now limit (R.rules sheet.now) rows.now cut) result }
{
    check_rows(alloc, name, limit, rows.as_slice(), sheet)?;
    check_cut(alloc, name, limit, rows.len(), cut)
}

fn check_tables(alloc: Global, sheet: &Sheet) -> Result<(), NetError>
    ensures { Tells (table_rules_of sheet.now) result }
{
    let parts = &sheet.parts;
    let cuts = &sheet.cuts;
    let elements = &parts.elements;
    check_table(
        alloc,
        "element",
        ELEMENTS_MAX,
        elements,
        cuts.elements,
        sheet,
    )?;
    check_table(alloc, "link", LINKS_MAX, &parts.links, cuts.links, sheet)?;
    check_table(alloc, "peer", PEERS_MAX, &parts.peers, cuts.peers, sheet)?;
    check_table(alloc, "deny", DENY_MAX, &parts.deny, cuts.deny, sheet)
}

fn check_parent(alloc: Global, sheet: &Sheet) -> Result<(), NetError>
    ensures { Tells (family_rules_of sheet.now) result }
{
    if let Some(breach) = parent_breach(sheet) {
        return Err(refusal(alloc, "parent", 0, breach));
    }
    let links = &sheet.parts.parent_links;
    let cut = sheet.cuts.parent_links;
    check_table(alloc, "parent.link", PARENT_LINKS_MAX, links, cut, sheet)
}

fn check_top(alloc: Global, sheet: &Sheet) -> Result<(), NetError>
    ensures { Tells (top_rules_of sheet.now) result }
{
    if let Some(breach) = worker_breach(sheet) {
        return Err(refusal(alloc, "workers", 0, breach));
    }
    if let Some(breach) = watch_breach(sheet) {
        return Err(refusal(alloc, "watch", 0, breach));
    }
    match &sheet.other {
        Some(name) => Err(refusal(alloc, name.as_str(), 0, Breach::Shape)),
        None => Ok(()),
    }
}

/// The first rule that settings break.
pub(crate) fn check(alloc: Global, sheet: &Sheet) -> Result<(), NetError>
    ensures { Tells (rules_of_sheet sheet.now) result }
{
    check_tables(alloc, sheet)?;
    check_parent(alloc, sheet)?;
    check_top(alloc, sheet)
}
