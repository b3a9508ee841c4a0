//! Which keys a worker was asked for, and its last job, whose costs it may lack.
ghost use Rattle.std.specs.Prelude.{◌≡◌, ◌↔◌, [], IfOk, IfSome, OnOk, true};
ghost use Rattle.cost_cache.specs.Entries.{Has};
ghost use Rattle.cost_cache.specs.Keys.{key_of};
ghost use Rattle.lru.specs.LruCache.{lru_cache};
ghost use Rattle.server_loops.specs.WorkerSteps.{CanKeep, IsAsked, IsAskedNext, last_after};

use border_costs::{Ask, Job};
use cost_cache::{Cache, Key};
use dom_base::NoMemory;
use lru::LruCache;
use pce_parent::Work;
use std::alloc::Global;
use std::num::NonZeroUsize;
use te_links::Counted;

// How many keys are remembered.
const ASKED_MOST: usize = 256;

/// The last keys asked for, the last of them first, and the last job of a domain.
#[derive(Drop)]
pub(crate) struct Unkept {
    pub keys: LruCache<Key, ()>,
    pub last: Option<Job>,
}

impl Unkept {
    /// Nothing was asked for.
    pub(crate) fn new(alloc: Global) -> Result<Unkept, NoMemory>
        ensures keys { IfOk result (λ unkept. unkept.keys ≡ lru_cache [] ASKED_MOST) }
        ensures last { IfOk result (λ unkept. unkept.last ≡ None) }
    {
        let Some(most) = NonZeroUsize::new(ASKED_MOST) else {
            unreachable!()
        };
        Ok(Unkept {
            keys: LruCache::new(alloc, most)?,
            last: None,
        })
    }

    /// Whether the key of an ask is among those asked for. From now on it is.
    pub(crate) fn was_asked(&mut self, alloc: Global, ask: &Ask) -> Result<bool, NoMemory>
        ensures asked { IfOk result (λ known. (known ≡ true) ↔ IsAsked self.old.keys (key_of ask.now)) }
        ensures next { OnOk result (IsAskedNext self.old.keys (key_of ask.now) self.new.keys) }
        ensures last { self.new.last ≡ self.old.last }
    {
        let key = Key::of(alloc, ask)?;
        Ok(self.keys.put(key, ())?.is_some())
    }

    /// A job was finished. One of a domain is the last.
    pub(crate) fn finished(&mut self, work: Work)
        ensures keys { self.new.keys ≡ self.old.keys }
        ensures last { self.new.last ≡ last_after work self.old.last }
    {
        match work {
            Work::Domain(job) => self.last = Some(job),
            Work::Border(_job) => {}
        }
    }

    /// Keeps the costs of the last job.
    pub(crate) fn keep(&self, cache: &mut Cache) -> Result<(), NoMemory>
        requires can { IfSome self.now.last (CanKeep cache.old) }
        ensures has { OnOk result (IfSome self.now.last (λ job. Has cache.new (key_of job.ask))) }
    {
        let Some(job) = &self.last else {
            return Ok(());
        };
        let _rows = cache.solve(&job.ask, &mut Counted::new(&job.topology))?;
        Ok(())
    }
}
