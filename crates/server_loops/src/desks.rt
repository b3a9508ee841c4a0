//! Where events go.
ghost use Rattle.std.specs.Prelude.{◌≡◌};
ghost use Rattle.server_loops.specs.Desks.{Desked, Goes, IsOwnLoad, Takes};
ghost use Rattle.server_loops.specs.Sites.{Stays};

use crate::sites::Sited;
use network_links::Rest;
use plant_model::{Event, Outcome, Refused};

/// Why a desk refused an event: what it goes to refused it, or the desk is spent.
#[derive(Clone, Copy)]
pub enum DeskRefused {
    Plant(Refused),
    Spent(u64),
}

/// A desk stands for the list of the events that were made through it with their answers, and for the
/// number at which it was spent.
pub trait Desk: Sited {
    ghost desked: { Self → Desked };

    /// Makes an event, unless the desk is spent. A desk that is spent makes none and stays spent.
    fn act(&mut self, event: Event) -> Result<Outcome, DeskRefused>
        requires { IsOwnLoad event }
        ensures goes { Goes (desked self.old) (desked self.new) event result }
        ensures stays { Stays Self.is_at self.old self.new };

    /// Takes the first message of an outside peer's inbox, unless the desk is spent, and tells what is left to do for the peer.
    fn take(&mut self, peer: u32) -> Result<Rest, DeskRefused>
        ensures takes { Takes (desked self.old) (desked self.new) peer result }
        ensures stays { Stays Self.is_at self.old self.new };

    /// The number that the first event that was refused as spent gave.
    fn spent(&self) -> Option<u64>
        ensures { result ≡ (desked self.now).spent };
}
