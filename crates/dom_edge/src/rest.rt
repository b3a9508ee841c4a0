//! What is left of bytes in memory, as slices take it from the front.
ghost use Rattle.std.specs.Prelude.{◌≡◌, ◌<◌, ◌==◌, length, take, min, ◌++◌};

use dom_base::Bytes;
use std::marker::Model;

// Bytes in memory, and how many of them were taken.
#[derive(Drop)]
pub(crate) struct Rest {
    bytes: Bytes,
    taken: usize,
}

impl Model for Rest {
    ghost use Rattle.std.specs.Prelude.{List, ℕ, ◌≤◌, drop, length};

    ghost Value = { List ℕ };

    ghost view = { λ r. drop r.taken r.bytes };

    ghost invariant = { λ r. r.taken ≤ length r.bytes };
}

impl Rest {
    pub(crate) fn new(bytes: Bytes) -> Self
        ensures { result ≡ bytes }
    {
        Rest { bytes, taken: 0 }
    }

    pub(crate) fn is_empty(&self) -> bool
        ensures { result ≡ (length self.now == 0) }
    {
        self.taken == self.bytes.len()
    }

    // Takes as many bytes as there are and as the slice has room for.
    pub(crate) fn take(&mut self, into: &mut [u8]) -> usize
        ensures count { result ≡ min (length self.old) (length into.old) }
        ensures same_length { length into.new ≡ length into.old }
        ensures taken { self.old ≡ take result into.new ++ self.new }
    {
        let rest = &self.bytes.as_slice()[self.taken..];
        let count = rest.len().min(into.len());
        into[..count].copy_from_slice(&rest[..count]);
        self.taken += count;
        count
    }
}
