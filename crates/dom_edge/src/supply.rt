//! Values in memory that are handed out one at a time, in order.
ghost use Rattle.std.specs.Prelude.{◌≡◌, [], ◌∷◌, MatchOption};

use dom_base::List as Rows;
use std::marker::Model;
use std::vec;

// The values that are left.
#[derive(Drop)]
pub(crate) struct Supply<T> {
    rows: vec::IntoIter<T>,
}

impl<T> Model for Supply<T> {
    ghost use Rattle.std.specs.Prelude.{List};
    ghost use Rattle.std.specs.Vec.Iter.{into_iter_items};

    ghost Value = { List T };

    ghost view = { λ s. into_iter_items s.rows };
}

impl<T: Drop> Supply<T> {
    pub(crate) fn new(rows: Rows<T>) -> Self
        ensures { result ≡ rows }
    {
        Supply {
            rows: rows.into_vec().into_iter(),
        }
    }

    // The first of the values, where there is one.
    pub(crate) fn next(&mut self) -> Option<T>
        ensures { MatchOption result ((self.old ≡ []) × (self.new ≡ [])) (λ row. self.old ≡ row ∷ self.new) }
    {
        self.rows.next()
    }
}
