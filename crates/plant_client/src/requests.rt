//! The requests to the drawn network.
ghost use Rattle.std.specs.Prelude.{◌≡◌, ◌≤◌, ◌<◌, ◌+◌, ◌*◌, length, IfOk, OnOk};
ghost use Rattle.network_files.specs.DrawnFiles.{links_draws};
ghost use Rattle.plant_client.specs.Requests.{question, requests_most, word_of};

use crate::question::Question;
use dom_base::NoMemory;
use network_files::{Draws, draw_ends, sequence};
use std::alloc::Global;

/// The bandwidth that each request asks for, in octets a second.
#[derive(Clone, Copy)]
pub enum Demand {
    /// One octet a second, so that a link without any bandwidth is no way.
    One,
    /// None, so that bandwidth excludes no link.
    Zero,
}

// The word of the bandwidth.
fn word_of(demand: Demand) -> u32
    ensures { result ≡ word_of demand }
{
    match demand {
        Demand::One => 0x3f80_0000,
        Demand::Zero => 0,
    }
}

/// The request behind so many others, by the next two draws.
pub(crate) fn draw_question(
    alloc: Global,
    demand: Demand,
    request: u16,
    draws: &mut Draws,
) -> Result<Question, NoMemory>
    requires within { request < requests_most }
    requires place { draws.old ≡ links_draws + 2 * request }
    ensures question { IfOk result (λ q. q ≡ question demand request) }
    ensures drawn { draws.new ≡ links_draws + 2 * (request + 1) }
{
    let ends = draw_ends(draws);
    Ok(Question {
        id: u32::from(request) + 1,
        source: ends.source,
        target: ends.target,
        bandwidth: Some(word_of(demand)),
        sequence: sequence(alloc)?,
    })
}
