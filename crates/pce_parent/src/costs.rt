//! The cost at a place.
ghost use Rattle.std.specs.Prelude.{◌≡◌, ◌<◌, length};
ghost use Rattle.pce_parent.specs.Costs.{cost_at};

use dom_base::Cost;

/// The cost at a place; None where no walk to an end is known from there.
pub fn cost_of(costs: &[Option<Cost>], place: usize) -> Option<Cost>
    requires { place < length costs.now }
    ensures { result ≡ cost_at costs.now place }
{
    costs[place]
}
