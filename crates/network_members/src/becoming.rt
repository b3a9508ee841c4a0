//! One element of a network goes on.
ghost use Rattle.std.specs.Prelude.{◌≡◌, map, Some, IfOk, IfSome};
ghost use Rattle.pce_common.specs.plant_model.Element.{upped, down_of, next_lost_of};
ghost use Rattle.pce_element.specs.pce_common.Messages.{HasOnePart};
ghost use Rattle.network_members.specs.Elements.{at_domain, own_of, IsFirstAt};
ghost use Rattle.network_members.specs.Becoming.{Becomes, HasElement, taken_by, unchanged};

use crate::elements::{Elements, place_of};
use disclosure::Class;
use dom_base::{As, NoMemory, Peer, Tick};
use pce_common::model::Lost;
use pce_element::{Plan, World};
use pcep_messages::Message;

impl<W: World> Elements<W> {
    /// The place of the element of a domain.
    pub(crate) fn place(&self, at: As) -> usize
        requires { HasElement at self.now }
        ensures { IsFirstAt at result (map own_of self.now) }
    {
        match place_of(&self.domains, at) {
            Some(i) => i,
            None => unreachable!(),
        }
    }

    /// Plans what a message changes in the element of a domain; nothing changes yet.
    pub fn take(
        &mut self,
        at: As,
        peer: Peer,
        class: Class,
        message: Message,
        now: Tick,
    ) -> Result<Plan<W>, NoMemory>
        requires there { HasElement at self.old }
        requires part { HasOnePart message }
        ensures same { Becomes at unchanged self.old self.new }
        ensures from { IfOk result (λ plan. at_domain at self.new ≡ Some plan.from) }
        ensures taken { IfOk result (λ plan. IfSome (at_domain at self.old) (λ e. plan.taken ≡ taken_by W.show peer class now.0 message e)) }
    {
        let i = self.place(at);
        self.items[i].take(peer, class, message, now)
    }

    /// Makes a plan; takes no memory.
    pub fn make(&mut self, at: As, plan: Plan<W>)
        requires { at_domain at self.old ≡ Some plan.from }
        ensures { Becomes at (λ l. record l { element = plan.taken.element }) self.old self.new }
    {
        let i = self.place(at);
        self.items[i].make(plan);
    }

    /// A session of the element of a domain comes up; takes no memory.
    pub fn up(&mut self, at: As, peer: Peer)
        requires { HasElement at self.old }
        ensures { Becomes at (λ l. record l { element = upped peer l.element }) self.old self.new }
    {
        let i = self.place(at);
        self.items[i].up(peer);
    }

    /// A session of the element of a domain goes down; takes no memory.
    pub fn down(&mut self, at: As, peer: Peer)
        requires { HasElement at self.old }
        ensures { Becomes at (down_of peer) self.old self.new }
    {
        let i = self.place(at);
        self.items[i].down(peer);
    }

    /// Hands out the first lost request of the element of a domain; takes no memory.
    pub fn next_lost(&mut self, at: As) -> Option<Lost>
        requires { HasElement at self.old }
        ensures lost { IfSome (at_domain at self.old) (λ e. result ≡ (next_lost_of e.losing).0) }
        ensures rest { Becomes at (λ l. (next_lost_of l).1) self.old self.new }
    {
        let i = self.place(at);
        self.items[i].next_lost()
    }
}
