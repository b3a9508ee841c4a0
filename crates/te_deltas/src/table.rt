//! The rows in the order in which they came, each found by its name.
ghost use Rattle.std.specs.Prelude.{◌≡◌, ◌<◌, ◌++◌, ◌∷◌, [], true, not, None, length, slice_set, IfOk};
ghost use Rattle.te_links.specs.Faults.{rows_of_parts};
ghost use Rattle.te_deltas.specs.Changes.{has_name, name_of, rows_of, without};

use crate::name::{RowName, name_of_row};
use crate::rows::{empty_parts, push_row};
use dom_base::{As, NoMemory};
use std::alloc::Global;
use std::collections::BTreeMap;
use std::marker::Model;
use te_links::Parts;
use te_text::TextRow;

/// Rows with different names. A row that was taken out leaves its slot empty, so that
/// nothing moves.
#[derive(Drop)]
pub(crate) struct Table {
    slots: Vec<Option<TextRow>>,
    places: BTreeMap<RowName, usize>,
}

impl Model for Table {
    ghost use Rattle.std.specs.Prelude.{List};
    ghost use Rattle.te_text.specs.declared.row.TextRow.{TextRow};

    ghost Value = { List TextRow };

    ghost use Rattle.te_deltas.specs.Slots.{rows_kept, HoldsTable};

    ghost view = { rows_kept };

    ghost invariant = { HoldsTable };
}

fn empty_slot(slots: &mut Vec<Option<TextRow>>, place: usize)
    requires { place < length slots.old.items }
    ensures { slots.new.items ≡ slice_set slots.old.items place None }
{
    slots[place] = None;
}

impl Table {
    pub(crate) fn new(alloc: Global) -> Table
        ensures { result ≡ [] }
    {
        Table {
            slots: Vec::new(alloc),
            places: BTreeMap::new(alloc),
        }
    }

    /// Adds a row behind the others, unless its name is there.
    pub(crate) fn add(&mut self, row: TextRow) -> Result<bool, NoMemory>
        ensures added { IfOk result (λ added. added ≡ not (has_name (name_of row) self.old)) }
        ensures rows { IfOk result (λ added. added ≡ true → self.new ≡ self.old ++ row ∷ []) }
    {
        let name = name_of_row(&row);
        if self.places.contains_key(&name) {
            return Ok(false);
        }
        self.slots.reserve(1)?;
        self.places.insert(name, self.slots.len())?;
        match self.slots.push(Some(row)) {
            Ok(()) => {}
            Err(_) => unreachable!(),
        }
        Ok(true)
    }

    /// Takes the row of a name out, if it is there.
    pub(crate) fn take_out(&mut self, name: RowName) -> bool
        ensures there { result ≡ has_name name self.old }
        ensures rows { self.new ≡ without name self.old }
    {
        let Some(place) = self.places.remove(&name) else {
            return false;
        };
        empty_slot(&mut self.slots, place);
        true
    }

    /// The rows by their kinds.
    pub(crate) fn into_parts(self, alloc: Global, own: As) -> Result<Parts, NoMemory>
        ensures { IfOk result (λ parts. rows_of_parts parts ≡ rows_of own self) }
    {
        let mut parts = empty_parts(alloc, own);
        for slot in self.slots {
            if let Some(row) = slot {
                push_row(&mut parts, row)?;
            }
        }
        Ok(parts)
    }
}
