//! How many requests each peer has pending.
ghost use Rattle.std.specs.Prelude.{◌≡◌, ◌≤◌, ◌<◌, ◌+◌, ◌^◌, [], OnOk, IsOk, if◌then◌else◌};
ghost use Rattle.dom_base.specs.declared.names.Peer.{Peer as Asker};
ghost use Rattle.request_table.specs.Pending.{same_peer};
ghost use Rattle.request_table.specs.Counts.{count_in};

use dom_base::{NoMemory, Peer};
use indexmap::IndexMap;
use std::alloc::Global;
use std::marker::Model;

/// A count for each peer that has asked.
#[derive(Drop)]
pub(crate) struct Counts {
    counts: IndexMap<Peer, usize>,
}

impl Model for Counts {
    ghost use Rattle.std.specs.Prelude.{ℕ, List};
    ghost use Rattle.dom_base.specs.Room.{Room};
    ghost use Rattle.dom_base.specs.declared.names.Peer.{Peer as Asker};
    ghost use Rattle.indexmap.specs.IndexMap.{spare};

    ghost Value = { Room (List (Asker × ℕ)) };

    ghost view = { λ a. record { kept = a.counts.entries; spare = spare a.counts } };
}

impl Counts {
    pub(crate) fn new(alloc: Global) -> Counts
        ensures { result.kept ≡ [] }
    {
        Counts {
            counts: IndexMap::new(alloc),
        }
    }

    /// Makes room for one more peer.
    pub(crate) fn reserve(&mut self) -> Result<(), NoMemory>
        ensures same { self.new.kept ≡ self.old.kept }
        ensures ok { OnOk result (1 ≤ self.new.spare) }
        ensures succeeds { 1 ≤ self.old.spare → IsOk result }
        ensures room { self.old.spare ≤ self.new.spare }
    {
        self.counts.reserve(1)?;
        Ok(())
    }

    /// The count of a peer.
    pub(crate) fn of(&self, peer: Peer) -> usize
        ensures { result ≡ count_in self.now.kept peer }
    {
        match self.counts.get(&peer) {
            Some(count) => *count,
            None => 0,
        }
    }

    /// One more of a peer; takes no memory.
    pub(crate) fn add(&mut self, peer: Peer)
        requires room { 1 ≤ self.old.spare }
        requires few { count_in self.old.kept peer + 1 < 2 ^ 64 }
        ensures counts { (p : Asker) → count_in self.new.kept p ≡ count_in self.old.kept p + (if same_peer peer p then 1 else 0) }
        ensures room { self.old.spare ≤ self.new.spare + 1 }
    {
        let count = self.of(peer);
        match self.counts.insert(peer, count + 1) {
            Ok(_) => {}
            Err(_) => unreachable!(),
        }
    }

    /// One less of a peer; takes no memory. A peer keeps its count where that falls to 0.
    pub(crate) fn take(&mut self, peer: Peer)
        requires some { 1 ≤ count_in self.old.kept peer }
        ensures counts { (p : Asker) → count_in self.old.kept p ≡ count_in self.new.kept p + (if same_peer peer p then 1 else 0) }
        ensures room { self.old.spare ≤ self.new.spare }
    {
        let Some(count) = self.counts.get_mut(&peer) else {
            unreachable!()
        };
        *count -= 1;
    }
}
