//! What an element knows of its domain.
ghost use Rattle.std.specs.Prelude.{◌≡◌, List, [], IfOk};
ghost use Rattle.dom_base.specs.declared.names.As.{As};
ghost use Rattle.pcep_subobjects.specs.declared.hop.Hop.{Hop};
ghost use Rattle.vspt_tree.specs.declared.branch.Best.{Best};
ghost use Rattle.pce_element.specs.Worlds.{IsKept, KeepsOneLess, KeepsOneMore, MayPin};

use dom_base::{As, List, NoMemory};
use pcep_subobjects::Hop;
use std::alloc::Global;
use vspt_tree::Best;

/// What an element knows of its domain, and all that it needs of it while it takes and answers requests.
pub trait World: Drop {
    /// What a pending request keeps of it.
    type Pin: Drop;

    /// What a key stands for.
    type Segment: Drop;

    /// What comes with a job that was solved.
    type Solved: Drop;

    // What a request pins in a domain of which nothing is known yet.
    ghost first: { As → Self.Pin };

    // What a request would pin now.
    ghost current: { Self → Self.Pin };

    // Each of these pins was given, and no other is out.
    ghost Keeps: { Self → List Self.Pin → Type 0 };

    // What a key stands for that is issued for a way, and what is shown of it.
    ghost stands: { Best → Self.Segment };

    ghost show: { Self.Segment → List Hop };

    /// A world of which nothing is known yet.
    fn begin(alloc: Global, own: As) -> Result<Self, NoMemory>
        ensures current { IfOk result (λ world. current world ≡ first own) }
        ensures none { IfOk result (λ world. Keeps world []) };

    /// A pin for a request; takes no memory.
    fn pin(&mut self) -> Self::Pin
        requires { MayPin (Keeps self.old) }
        ensures pin { result ≡ current self.old }
        ensures current { current self.new ≡ current self.old }
        ensures more { KeepsOneMore (Keeps self.old) result (Keeps self.new) };

    /// Takes a pin back; takes no memory.
    fn release(&mut self, pin: Self::Pin)
        requires { IsKept (Keeps self.old) pin }
        ensures current { current self.new ≡ current self.old }
        ensures less { KeepsOneLess (Keeps self.old) pin (Keeps self.new) };

    /// What a key stands for that is issued for a way.
    fn segment(alloc: Global, best: &Best) -> Result<Self::Segment, NoMemory>
        ensures { IfOk result (λ segment. segment ≡ stands best.now) };

    /// The hops that are shown when a key is expanded.
    fn hops(alloc: Global, segment: &Self::Segment) -> Result<List<Hop>, NoMemory>
        ensures { IfOk result (λ hops. hops ≡ show segment.now) };
}
