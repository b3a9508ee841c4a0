//! The order in which a certificate names addresses.
ghost use Rattle.std.specs.Prelude.{◌↔◌, IsTrue};
ghost use Rattle.diverse_pairs.specs.Potentials.{AreRising};

use dom_base::Addr;

/// Whether potentials stand in strictly rising order of address, as a check asks of them.
pub fn is_rising(potentials: &[(Addr, u64)]) -> bool
    ensures { IsTrue result ↔ AreRising potentials.now }
{
    for index in 1..potentials.len() {
        let rises = potentials[index - 1].0 < potentials[index].0;
        if !rises {
            return false;
        }
    }
    true
}
