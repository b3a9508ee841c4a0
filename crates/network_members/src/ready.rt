//! Which jobs of the elements can be solved.
ghost use Rattle.std.specs.Prelude.{◌≡◌, ◌≤◌, length, slice_get};
ghost use Rattle.pce_common.specs.plant_model.Element.{ready_numbers};
ghost use Rattle.pce_common.specs.Rounds.{IsNext};
ghost use Rattle.network_members.specs.Elements.{at_domain};
ghost use Rattle.network_members.specs.Ready.{asked_in, jobs_in};

use crate::elements::Elements;
use dom_base::As;
use pce_common::{AskedJob, Behind};
use pce_element::{Element, World};

// How many requests of an element can be solved.
fn count_ready<W: World>(element: &Element<W>, most: usize) -> usize
    requires { length (ready_numbers element.now.losing.element.pending.rows) ≤ most }
    ensures { result ≡ length (ready_numbers element.now.losing.element.pending.rows) }
{
    for count in 0..most {
        if element.ready(count).is_none() {
            return count;
        }
    }
    most
}

impl<W: World> Elements<W> {
    /// The k-th job that can be solved, by the domain and then by its number; takes no memory.
    #[tactic(auto, using(crate::proofs::ReadyLemmas::ready_among, crate::proofs::ReadyLemmas::ready_behind, crate::proofs::ReadyLemmas::ready_none, crate::proofs::ReadyLemmas::own_at))]
    pub fn ready(&self, k: usize) -> Option<(As, u64)>
        ensures { result ≡ slice_get (jobs_in self.now) k }
    {
        let mut left = k;
        for i in 0..self.items.len() {
            let element = &self.items[i];
            if let Some(number) = element.ready(left) {
                return Some((self.domains[i], number));
            }
            left -= count_ready(element, left);
        }
        None
    }

    /// The next job of the element of a domain, in the order of those who asked and then of the numbers; takes no memory.
    pub fn next_job(&self, at: As, behind: Behind) -> Option<AskedJob>
        ensures { IsNext behind (asked_in (at_domain at self.now)) result }
    {
        match self.at(at) {
            Some(element) => element.next_job(behind),
            None => None,
        }
    }
}
