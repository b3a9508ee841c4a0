//! The cache.
ghost use Rattle.std.specs.Prelude.{◌≡◌, ◌≤◌, [], IfOk, OnOk, OnErr};
ghost use Rattle.border_costs.specs.Solutions.{AreRows};
ghost use Rattle.lru.specs.LruCache.{lru_cache};
ghost use Rattle.cost_cache.specs.Keys.{key_of};
ghost use Rattle.cost_cache.specs.Entries.{Has, IsGood, IsGoodEverywhere, KeepsOthers, IsAfter};

use crate::answer::{answer, keep};
use crate::kept::Kept;
use crate::key::Key;
use border_costs::{Answer, Ask};
use dom_base::NoMemory;
use lru::LruCache;
use std::alloc::Global;
use std::marker::Model;
use std::num::NonZeroUsize;
use te_links::Links;

/// Solved rows, kept under the element, generation, query, target and downstream rows of their
/// asks. The entry that was used longest ago goes first.
pub struct Cache {
    alloc: Global,
    entries: LruCache<Key, Kept>,
}

// Written, so that it is proved once: a derived one is proved anew in each crate that drops a value.
impl Drop for Cache {
    fn drop(self) {
        let Cache {
            alloc: _,
            entries: _,
        } = self;
    }
}

impl Model for Cache {
    ghost use Rattle.cost_cache.specs.Entries.{Entries};

    ghost Value = { Entries };

    ghost view = { λ c. c.entries };
}

impl Cache {
    /// An empty cache with room for so many entries. It is good for every element, generation and
    /// topology.
    pub fn new(alloc: Global, capacity: usize) -> Result<Cache, NoMemory>
        requires { 1 ≤ capacity }
        ensures empty { IfOk result (λ cache. cache ≡ lru_cache [] capacity) }
        ensures good { IfOk result IsGoodEverywhere }
    {
        let Some(capacity) = NonZeroUsize::new(capacity) else {
            unreachable!()
        };
        Ok(Cache {
            alloc,
            entries: LruCache::new(alloc, capacity)?,
        })
    }

    /// The rows of an ask over the topology of `links`, as `solve_rows` gives them. Where the cache
    /// has the key of the ask it reads no link; the entries and the source may be others than those
    /// of the ask under which the key was solved.
    pub fn solve<'a, G: Links<'a>>(&mut self, ask: &Ask, links: &mut G) -> Result<Answer, NoMemory>
        requires good { IsGood ask.now.at ask.now.generation (G.rows links.old) self.old }
        ensures rows { IfOk result (AreRows (G.rows links.old) ask.now) }
        ensures same { G.rows links.new ≡ G.rows links.old }
        ensures hit { Has self.old (key_of ask.now) → G.reads links.new ≡ G.reads links.old }
        ensures has { OnOk result (Has self.new (key_of ask.now)) }
        ensures others { OnOk result (IsAfter self.old (key_of ask.now) self.new) }
        ensures before { OnErr result (self.new ≡ self.old) }
        ensures good { IsGood ask.now.at ask.now.generation (G.rows links.old) self.new }
        ensures elsewhere { KeepsOthers (key_of ask.now) self.old self.new }
    {
        let key = Key::of(self.alloc, ask)?;
        if let Some(kept) = self.entries.peek(&key) {
            let rows = answer(self.alloc, ask, links, kept)?;
            self.entries.promote(&key);
            return Ok(rows);
        }
        let kept = keep(self.alloc, ask, links)?;
        let rows = answer(self.alloc, ask, links, &kept)?;
        self.entries.put(key, kept)?;
        Ok(rows)
    }
}
