//! Which message on an inner link is carried first.
ghost use Rattle.std.specs.Prelude.{◌≡◌, false, true};
ghost use Rattle.network_links.specs.Carried.{flow_of};
ghost use Rattle.network_links.specs.Waiting.{IsAtMost, LooksFurther, WaitsNext, has_mail};

use crate::traffic::Traffic;
use dom_base::As;

fn is_before(p: (As, As), q: (As, As)) -> bool
    ensures before { result ≡ true → IsAtMost p q }
    ensures after { result ≡ false → IsAtMost q p }
{
    if p.0.0 == q.0.0 {
        p.1.0 < q.1.0
    } else {
        p.0.0 < q.0.0
    }
}

impl Traffic {
    /// Whether a message is on its way from one end of a link to the other; takes no memory.
    fn has_mail(&self, way: (As, As)) -> bool
        ensures { result ≡ has_mail (flow_of self.now) way }
    {
        self.is_on_its_way(way.0, way.1)
    }

    // One more way is looked at.
    fn look_at(&self, best: Option<(As, As)>, way: (As, As)) -> Option<(As, As)>
        ensures { LooksFurther (flow_of self.now) way best result }
    {
        if !self.has_mail(way) {
            return best;
        }
        match best {
            Some(found) if !is_before(way, found) => Some(found),
            _other => Some(way),
        }
    }

    /// The least pair of sender and receiver between which a message is on its way; takes no memory.
    pub fn waiting(&self) -> Option<(As, As)>
        ensures { WaitsNext (flow_of self.now) result }
    {
        let mut best = None;
        for k in 0..self.adjacencies() {
            let Some((lower, upper)) = self.adjacency_at(k) else {
                unreachable!()
            };
            best = self.look_at(best, (lower, upper));
            best = self.look_at(best, (upper, lower));
        }
        best
    }
}
