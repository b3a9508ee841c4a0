//! What a link weighs, and whether a query allows it.
ghost use Rattle.std.specs.Prelude.{◌≡◌, ◌↔◌, IsTrue};
ghost use Rattle.dom_base.specs.Admission.{Allows, Fits, weight as weight_of};
ghost use Rattle.dom_base.specs.declared.link.Link.{Link};
ghost use Rattle.path_constraints.specs.Asking.{AsksNothing};

use crate::bars::bars_link;
use dom_base::{Link, Metric, Query};

/// What a link adds to the cost of a path: its IGP metric, its TE metric, or 1 where hops are
/// counted (RFC 5440, section 7.8).
pub fn weight(link: &Link, metric: Metric) -> u32
    ensures { result ≡ weight_of metric link.now }
{
    match metric {
        Metric::Igp => link.igp,
        Metric::Te => link.te,
        Metric::Hops => 1,
    }
}

// Whether a link has the bandwidth that is asked for, and the colours: none of `exclude_any`, one
// of `include_any` unless that is 0, and all of `include_all` (RFC 3209, section 4.7.4).
pub(crate) fn fits(query: &Query, link: &Link) -> bool
    ensures { IsTrue result ↔ Fits query.now link.now }
{
    query.bandwidth <= link.bytes_per_second
        && link.colour & query.exclude_any == 0
        && (query.include_any == 0 || link.colour & query.include_any > 0)
        && link.colour & query.include_all == query.include_all
}

/// Whether a query allows a link: it has the bandwidth that is asked for and the colours (RFC 3209,
/// section 4.7.4), and no exclusion bars it (RFC 5521, section 2.1). A path may take each link that
/// is allowed and goes between nodes that no exclusion bars.
#[inline(always)]
pub fn allows(query: &Query, link: &Link) -> bool
    ensures { IsTrue result ↔ Allows query.now link.now }
{
    fits(query, link) && !bars_link(query, link)
}

/// Whether a query asks nothing of a link: then all links are allowed. One such call spares a look at
/// each of many links. Exclusions that bar no link count as something asked.
#[tactic(auto, using(crate::proofs::Free::all_allowed))]
pub fn asks_nothing(query: &Query) -> bool
    ensures asks { IsTrue result ↔ AsksNothing query.now }
    ensures allowed { IsTrue result → (l : Link) → Allows query.now l }
{
    query.bandwidth == 0
        && query.exclude_any == 0
        && query.include_any == 0
        && query.include_all == 0
        && query.exclusions.is_empty()
}
