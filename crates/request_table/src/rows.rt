//! Values under numbers that rise, in the order of their numbers.
ghost use Rattle.std.specs.Prelude.{◌≡◌, ◌≤◌, ◌<◌, ◌+◌, ◌++◌, ◌∷◌, [], AllPairs, MatchOption, OnOk, IsOk, length, nat_eq, slice_get};
ghost use Rattle.std.specs.Borrow.{sem};
ghost use Rattle.std.specs.Map.{lookup, remove_entry};
ghost use Rattle.std.specs.Option.{option_copied, option_copied_mut, option_map};
ghost use Rattle.request_table.specs.Rows.{AreBelow, HasNoPlace, IsPlaceOf};

use dom_base::NoMemory;
use slab::Slab;
use std::alloc::Global;
use std::marker::Model;

/// In which slot the value of a number is.
#[derive(Clone, Copy)]
pub(crate) struct Place {
    pub(crate) number: u64,
    pub(crate) slot: usize,
}

/// Values under their numbers. A value stays in its slot: where one is taken out, only the places behind it
/// move, which have 16 bytes each.
#[derive(Drop)]
pub(crate) struct Rows<X> {
    places: Vec<Place>,
    values: Slab<X>,
}

impl<X> Model for Rows<X> {
    ghost use Rattle.std.specs.Prelude.{ℕ, List};
    ghost use Rattle.dom_base.specs.Room.{Room};
    ghost use Rattle.request_table.specs.Rows.{HoldsRows, kept_of};

    ghost Value = { Room (List (ℕ × X)) };

    ghost view = { kept_of };

    ghost invariant = { HoldsRows };
}

// The place of a number.
fn place_of(places: &[Place], number: u64) -> Option<usize>
    requires { AllPairs (λ p q. p.number < q.number) places.now }
    ensures { MatchOption result (HasNoPlace places.now number) (IsPlaceOf places.now number) }
{
    match places.binary_search_by_key(&number, |place| place.number) {
        Ok(k) => Some(k),
        Err(_) => None,
    }
}

impl<X: Drop> Rows<X> {
    ghost use Rattle.request_table.specs.LentRows.{lends_value};

    pub(crate) fn new(alloc: Global) -> Rows<X>
        ensures { result.kept ≡ [] }
    {
        Rows {
            places: Vec::new(alloc),
            values: Slab::new(alloc),
        }
    }

    pub(crate) fn len(&self) -> usize
        ensures { result ≡ length self.now.kept }
    {
        self.places.as_slice().len()
    }

    /// Makes room for one more.
    pub(crate) fn reserve(&mut self) -> Result<(), NoMemory>
        ensures same { self.new.kept ≡ self.old.kept }
        ensures ok { OnOk result (1 ≤ self.new.spare) }
        ensures succeeds { 1 ≤ self.old.spare → IsOk result }
        ensures room { self.old.spare ≤ self.new.spare }
    {
        self.places.reserve(1)?;
        self.values.reserve(1)?;
        Ok(())
    }

    /// The value of a number.
    pub(crate) fn get(&self, number: u64) -> Option<&X>
        ensures { option_copied result ≡ lookup (nat_eq number) self.now.kept }
    {
        let Some(k) = place_of(self.places.as_slice(), number) else {
            return None;
        };
        self.values.get(self.places[k].slot)
    }

    /// The value of a number, for writing.
    pub(crate) fn get_mut(&mut self, number: u64) -> Option<&mut X>
        ensures* writes_back { sem 𝓛 (lends_value X.row self.entry number result) }
        ensures value { option_copied_mut result ≡ lookup (nat_eq number) self.old.kept }
    {
        let Some(k) = place_of(self.places.as_slice(), number) else {
            return None;
        };
        let slot = self.places[k].slot;
        match self.values.get_mut(slot) {
            Some(value) => Some(value),
            None => unreachable!(),
        }
    }

    /// The k-th number, and its value.
    pub(crate) fn at(&self, k: usize) -> Option<(u64, &X)>
        ensures { option_map (λ row. (row.0, row.1.now)) result ≡ slice_get self.now.kept k }
    {
        let Some(place) = self.places.get(k) else {
            return None;
        };
        match self.values.get(place.slot) {
            Some(value) => Some((place.number, value)),
            None => None,
        }
    }

    /// Adds a number above all others; takes no memory.
    pub(crate) fn push(&mut self, number: u64, value: X)
        requires above { AreBelow number self.old.kept }
        requires room { 1 ≤ self.old.spare }
        ensures kept { self.new.kept ≡ self.old.kept ++ (number, value) ∷ [] }
        ensures room { self.old.spare ≤ self.new.spare + 1 }
    {
        let slot = self.values.insert_reserved(value);
        self.places.push_reserved(Place { number, slot });
    }

    /// Takes a number out; takes no memory.
    pub(crate) fn remove(&mut self, number: u64) -> Option<X>
        ensures value { result ≡ lookup (nat_eq number) self.old.kept }
        ensures kept { self.new.kept ≡ remove_entry (nat_eq number) self.old.kept }
        ensures room { self.old.spare ≤ self.new.spare }
    {
        let Some(k) = place_of(self.places.as_slice(), number) else {
            return None;
        };
        let place = self.places.remove(k);
        self.values.try_remove(place.slot)
    }
}
