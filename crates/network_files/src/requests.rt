//! The requests over the drawn network.
ghost use Rattle.std.specs.Prelude.{◌≡◌, ◌≤◌, ◌<◌, ◌+◌, IfOk};
ghost use Rattle.network_files.specs.Draws.{draws_most};
ghost use Rattle.network_files.specs.DrawnRequests.{drawn_ends, number_at, sequence};

use crate::drawn_rows::node;
use crate::draws::Draws;
use dom_base::{Addr, As, List, NoMemory};
use std::alloc::Global;

/// From where, and to where.
#[derive(Clone, Copy)]
pub struct Ends {
    pub source: Addr,
    pub target: Addr,
}

// The number of a node.
fn draw_number(draws: &mut Draws) -> u8
    requires { draws.old < draws_most }
    ensures number { result ≡ number_at draws.old }
    ensures drawn { draws.new ≡ draws.old + 1 }
{
    (1 + draws.next() % 50) as u8
}

/// From a node of the first domain to one of the last, by two draws.
pub fn draw_ends(draws: &mut Draws) -> Ends
    requires { draws.old + 2 ≤ draws_most }
    ensures ends { result ≡ drawn_ends draws.old }
    ensures drawn { draws.new ≡ draws.old + 2 }
{
    let source = node(1, draw_number(draws));
    let target = node(4, draw_number(draws));
    Ends { source, target }
}

/// All domains in their order.
pub fn sequence(alloc: Global) -> Result<List<As>, NoMemory>
    ensures { IfOk result (λ domains. domains ≡ sequence) }
{
    let mut domains = List::new(alloc);
    domains.push(As(1))?;
    domains.push(As(2))?;
    domains.push(As(3))?;
    domains.push(As(4))?;
    Ok(domains)
}
