//! The class of a peer, and what it is permitted.
ghost use Rattle.std.specs.Prelude.{◌≡◌, not};
ghost use Rattle.disclosure.specs.Policy.{can_expand, denies_from, is_denied, DenialIsTested};

use dom_base::As;

/// What a peer is to an element. Neighbours and parents are the closed peers: they are shown keys in
/// place of segments.
#[derive(Clone, Copy)]
pub enum Class {
    /// A client, and whether it may have keys expanded.
    Client { expand: bool },
    /// An element of this domain.
    Neighbour(As),
    Parent,
}

/// A row of policy: requests from one domain must not go on to another. A client counts as domain 0.
#[derive(Clone, Copy, Debug, PartialEq, Eq)]
pub struct Deny {
    pub from: As,
    pub next: As,
}

/// Whether a peer may have path keys expanded; takes no memory.
pub fn may_expand(class: Class) -> bool
    ensures { result ≡ can_expand class }
{
    match class {
        Class::Client { expand } => expand,
        Class::Neighbour(_) | Class::Parent => false,
    }
}

// Whether a row denies requests from one domain to another.
fn denies(deny: &[Deny], from: u16, next: u16) -> bool
    ensures { result ≡ denies_from from next deny.now }
{
    deny.iter()
        .any(|row| row.from.0 == from && row.next.0 == next)
}

/// Whether a request of a peer may go on to the next domain; takes no memory. No row is about a
/// parent.
pub fn allows(deny: &[Deny], class: Class, next: As) -> bool
    ensures { result ≡ not (is_denied deny.now class next) }
{
    match class {
        Class::Client { .. } => !denies(deny, 0, next.0),
        Class::Neighbour(number) => !denies(deny, number.0, next.0),
        Class::Parent => true,
    }
}

/// A law: the test finds no denial exactly where no row denies a request.
pub fn denial_is_tested()
    ensures { DenialIsTested }
{}
