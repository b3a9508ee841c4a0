//! The table of keys: issued, looked up and forgotten.
ghost use Rattle.std.specs.Prelude.{◌≡◌, ◌≢◌, ◌≤◌, ◌<◌, ◌+◌, ◌-◌, ◌↔◌, [], length, AllPairs, Err, IfOk, OnOk, OnErr};
ghost use Rattle.std.specs.Option.{option_copied};
ghost use Rattle.path_keys.specs.Keys.{live_at, live_most, life_most, segment_of, issue_of, expired_of, AreKeys};

use crate::KEYS_MAX;
use crate::issued::Issued;
use crate::places::{dead_count, drop_oldest, following, is_live_at, places_back};
use dom_base::{NoMemory, Tick};
use std::alloc::{AllocError, AllocFailed, Global};
use std::collections::VecDeque;
use std::marker::Model;

/// Why no key was issued.
#[derive(Clone, Copy, Debug, PartialEq, Eq)]
pub enum KeyError {
    KeysFull,
    NoMemory,
}

/// The keys of one element, and what each stands for.
#[derive(Drop)]
pub struct PathKeys<S> {
    life: u16,
    next: u16,
    clock: Tick,
    issued: VecDeque<Issued<S>>,
}

impl<S> Model for PathKeys<S> {
    ghost use Rattle.dom_base.specs.Room.{Room};
    ghost use Rattle.path_keys.specs.Keys.{Keys};

    ghost Value = { Room (Keys S) };

    ghost use Rattle.path_keys.specs.Fields.{room_of, HoldsKeys};

    ghost view = { room_of };

    ghost invariant = { HoldsKeys };
}

impl<S: Drop> PathKeys<S> {
    /// A table of no keys, each of which will live for so many ticks, 1 to 3,600.
    pub fn new(alloc: Global, life: u16) -> Result<PathKeys<S>, NoMemory>
        requires least { 1 ≤ life }
        requires most { life ≤ life_most }
        ensures { IfOk result (λ keys. keys.kept ≡ record { life = life; next = 1; clock = 0; issued = [] }) }
    {
        Ok(PathKeys {
            life,
            next: 1,
            clock: Tick(0),
            issued: VecDeque::new(alloc),
        })
    }

    /// Makes room for so many more keys. On `NoMemory` the keys are as before.
    pub fn reserve(&mut self, n: u32) -> Result<(), NoMemory>
        ensures same { self.new.kept ≡ self.old.kept }
        ensures ok { OnOk result (n ≤ self.new.spare) }
        ensures room { self.old.spare ≤ self.new.spare }
    {
        self.issued.reserve(n as usize)?;
        Ok(())
    }

    /// Issues the next key, which lives from now on for the life of the table. `now` never falls from
    /// call to call. Only keys that are dead are walked over, and each once.
    pub fn issue(&mut self, now: Tick, segment: S) -> Result<u16, KeyError>
        requires { self.old.kept.clock ≤ now.0 }
        ensures number { IfOk result (λ number. number ≡ self.old.kept.next) }
        ensures ok { OnOk result (self.new.kept ≡ issue_of self.old.kept now.0 segment) }
        ensures full { (result ≡ Err KeyError.KeysFull) ↔ (length (live_at self.old.kept now.0) ≡ live_most) }
        ensures keys { AreKeys self.new.kept }
        ensures err { OnErr result (self.new.kept ≡ self.old.kept) }
        ensures reserved { 0 < self.old.spare → result ≢ Err KeyError.NoMemory }
        ensures room { self.old.spare ≤ self.new.spare + 1 }
        ensures room_err { OnErr result (self.old.spare ≤ self.new.spare) }
    {
        let dead = dead_count(self.life, now, &self.issued);
        if self.issued.len() - dead >= KEYS_MAX {
            return Err(KeyError::KeysFull);
        }
        let number = self.next;
        let key = Issued {
            number,
            at: now,
            segment,
        };
        match self.issued.push_back(key) {
            Ok(()) => {}
            Err(_) => return Err(KeyError::NoMemory),
        }
        drop_oldest(&mut self.issued, dead);
        self.next = following(number);
        self.clock = now;
        Ok(number)
    }

    /// The number that the next key will have; takes no memory. The numbers of a table differ.
    pub fn next(&self) -> u16
        ensures number { result ≡ self.now.kept.next }
        ensures keys { AreKeys self.now.kept }
        ensures differ { AllPairs (λ a b. a.number ≢ b.number) self.now.kept.issued }
    {
        self.next
    }

    /// How many more keys may be live; takes no memory.
    pub fn free(&self, now: Tick) -> u32
        ensures { result + length (live_at self.now.kept now.0) ≡ live_most }
    {
        let dead = dead_count(self.life, now, &self.issued);
        (KEYS_MAX - (self.issued.len() - dead)) as u32
    }

    /// What a live key stands for; takes no memory.
    pub fn expand(&self, now: Tick, key: u16) -> Option<&S>
        ensures { option_copied result ≡ segment_of self.now.kept now.0 key }
    {
        let next = self.next;
        if key == 0 {
            return None;
        }
        let back = places_back(next, key);
        let count = self.issued.len();
        if back > count {
            return None;
        }
        let found = &self.issued[count - back];
        if is_live_at(self.life, now, found.at) {
            Some(&found.segment)
        } else {
            None
        }
    }

    /// Forgets the keys that are dead; takes no memory.
    pub fn expire(&mut self, now: Tick)
        requires { self.old.kept.clock ≤ now.0 }
        ensures kept { self.new.kept ≡ expired_of self.old.kept now.0 }
        ensures keys { AreKeys self.new.kept }
        ensures room { self.old.spare ≤ self.new.spare }
    {
        let dead = dead_count(self.life, now, &self.issued);
        drop_oldest(&mut self.issued, dead);
        self.clock = now;
    }
}
