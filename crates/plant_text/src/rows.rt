//! The tables of a settings text.
ghost use Rattle.std.specs.Prelude.{◌≡◌, IfOk, string_bytes};
ghost use Rattle.std.specs.BTreeMap.{keys};
ghost use Rattle.std.specs.List.{list_all};
ghost use Rattle.toml.specs.Data.{get_member};
ghost use Rattle.toml.specs.View.{items_view, table_view, view};
ghost use Rattle.plant_text.specs.Given.{Gives};
ghost use Rattle.plant_text.specs.SettingsText.{has_only as has_only_keys, row_in, rows_in, rows_of, wrong_in};

use crate::fault::Breach;
use crate::forms::Formed;
use crate::line::LineError;
use crate::value::value_at;
use dom_base::{List, NoMemory};
use std::alloc::Global;
use toml::{Table, Value};

/// The rows of a table up to the first malformed row, and what is wrong with that row.
#[derive(Drop)]
pub struct Found<R> {
    pub rows: List<R>,
    pub cut: Option<Breach>,
}

fn knows_keys<R: Formed>(table: &Table) -> bool
    ensures { result ≡ list_all (λ k. (R.form).is_key (string_bytes k)) (keys table.now) }
{
    table.keys().all(|key| R::is_key(key.as_str()))
}

fn has_only<R: Formed>(table: &Table) -> bool
    ensures { result ≡ has_only_keys (R.form).is_key (table_view table.now) }
{
    knows_keys::<R>(table)
}

fn row_of<R: Formed>(alloc: Global, value: &Value) -> Result<R, LineError>
    ensures { Gives result (row_in R.form (view value.now)) }
{
    match value.as_table() {
        Some(table) => {
            if has_only::<R>(table) {
                R::read(alloc, table)
            } else {
                Err(LineError::Outside)
            }
        }
        None => Err(LineError::Outside),
    }
}

fn wrong_of<R: Formed>(value: &Value) -> Breach
    ensures { result ≡ wrong_in R.form (view value.now) }
{
    match value.as_table() {
        Some(table) => R::wrong(table),
        None => Breach::Shape,
    }
}

fn rows_among<R: Formed + Drop>(alloc: Global, items: &[Value]) -> Result<Found<R>, NoMemory>
    ensures { IfOk result (λ found. found ≡ rows_in R.form (items_view items.now)) }
{
    let mut rows = List::new(alloc);
    for item in items {
        match row_of::<R>(alloc, item) {
            Ok(row) => rows.push(row)?,
            Err(LineError::Outside) => {
                let cut = Some(wrong_of::<R>(item));
                return Ok(Found { rows, cut });
            }
            Err(LineError::NoMemory) => return Err(NoMemory),
        }
    }
    Ok(Found { rows, cut: None })
}

/// The rows of the table of this name.
pub(crate) fn rows_at<R: Formed + Drop>(
    alloc: Global,
    table: &Table,
    name: &str,
) -> Result<Found<R>, NoMemory>
    ensures { IfOk result (λ found. found ≡ rows_of R.form (get_member name.now (table_view table.now))) }
{
    let Some(value) = value_at(table, name) else {
        return Ok(Found {
            rows: List::new(alloc),
            cut: None,
        });
    };
    match value.as_array() {
        Some(items) => rows_among(alloc, items.as_slice()),
        None => Ok(Found {
            rows: List::new(alloc),
            cut: Some(Breach::Shape),
        }),
    }
}
