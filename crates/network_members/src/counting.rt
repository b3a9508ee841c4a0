//! All elements of a network: their moment, and how many requests are pending.
ghost use Rattle.std.specs.Prelude.{◌≡◌, ◌≤◌, length, IfSome};
ghost use Rattle.network_members.specs.Elements.{at_domain};
ghost use Rattle.network_members.specs.Becoming.{AreBefore, AreTicked, HasElement, all_pending, owed_by, ticked_by};

use crate::elements::Elements;
use dom_base::{As, Peer, Tick};
use pce_element::{Element, World};

fn tick_all<W: World>(items: &mut Vec<Element<W>>, now: Tick)
    requires { AreBefore now.0 items.old.items }
    ensures { AreTicked now.0 items.old.items items.new.items }
{
    for i in 0..items.len() {
        items[i].tick(now);
    }
}

impl<W: World> Elements<W> {
    /// The moment, which never falls: keys expire; takes no memory.
    pub fn tick(&mut self, now: Tick)
        requires { AreBefore now.0 self.old }
        ensures { AreTicked now.0 self.old self.new }
    {
        tick_all(&mut self.items, now);
    }

    /// How many requests of a peer are pending at the element of a domain; takes no memory.
    pub fn owed(&self, at: As, peer: Peer) -> usize
        requires { HasElement at self.now }
        ensures { IfSome (at_domain at self.now) (λ e. result ≡ owed_by peer e) }
    {
        let i = self.place(at);
        self.items[i].owed(peer)
    }

    /// How many requests are pending; takes no memory.
    pub fn pending(&self) -> usize
        requires { length self.now ≤ 16 }
        ensures count { result ≡ all_pending self.now }
        ensures few { result ≤ 16384 }
    {
        let mut count = 0;
        for element in &self.items {
            count += element.pending();
        }
        count
    }
}
