//! The requests are put to the network, one behind the other.
ghost use Rattle.std.specs.Prelude.{◌≡◌, ◌≤◌, ◌<◌, ◌+◌, ◌*◌, IfErr, IfOk, Some};
ghost use Rattle.dom_edge.specs.Stores.{file_named};
ghost use Rattle.network_files.specs.DrawnFiles.{AreFiles, links_draws};
ghost use Rattle.network_files.specs.DrawnSettings.{settings};
ghost use Rattle.plant_client.specs.Asking.{Begins, Exchanges};
ghost use Rattle.plant_play.specs.Playing.{played_network};
ghost use Rattle.plant_client.specs.Bulk.{AreTallied, IsTallied, client, network};
ghost use Rattle.plant_client.specs.Requests.{question, questions, requests_most};

use crate::asking::{begin, exchange};
use crate::hearing::hear;
use crate::requests::{Demand, draw_question};
use crate::tally::Tally;
use dom_base::{As, Bytes, List, NoMemory, Text};
use dom_edge::{MemoryStore, Store};
use network_files::{Draws, draw_files, settings};
use plant_play::{Player, Stop};
use plant_text::{NetError, Network};
use std::alloc::Global;

/// How many requests can be asked for: each takes a key of an element, and an element has few more.
pub const REQUESTS_MAX: u16 = 8_000;

// The number of the only outside peer.
const CLIENT: u32 = 0;

// The settings with the client that asks.
fn network(alloc: Global) -> Result<Network, NoMemory>
    ensures { IfOk result (λ n. n ≡ network) }
{
    match settings(alloc)?.with_client(alloc, As(1)) {
        Ok(network) => Ok(network),
        Err(NetError::Fault(_)) => unreachable!(),
        Err(NetError::NoMemory) => Err(NoMemory),
    }
}

// Puts the request behind so many others; returns what is received.
fn ask_next<S: Store>(
    alloc: Global,
    store: &mut S,
    player: &mut Player,
    demand: Demand,
    request: u16,
    draws: &mut Draws,
) -> Result<Bytes, NoMemory>
    requires within { request < requests_most }
    requires place { draws.old ≡ links_draws + 2 * request }
    ensures exchanges { IfOk result (λ received. Exchanges (S.files store.old) client (question demand request) (played_network player.old) received (played_network player.new)) }
    ensures drawn { draws.new ≡ links_draws + 2 * (request + 1) }
    ensures files { S.files store.new ≡ S.files store.old }
{
    let question = draw_question(alloc, demand, request, draws)?;
    match exchange(alloc, store, player, CLIENT, &question) {
        Ok(received) => Ok(received),
        Err(_) => Err(NoMemory),
    }
}

// Puts so many requests; returns the tally of their answers.
fn ask_all<S: Store>(
    alloc: Global,
    store: &mut S,
    player: &mut Player,
    demand: Demand,
    count: u16,
    draws: &mut Draws,
) -> Result<Tally, NoMemory>
    requires few { count ≤ requests_most }
    requires place { draws.old ≡ links_draws }
    ensures tallied { IfOk result (AreTallied (S.files store.old) (questions demand count) (played_network player.old) (played_network player.new)) }
{
    let mut tally = Tally::new();
    for request in 0..count {
        let received = ask_next(alloc, store, player, demand, request, draws)?;
        let heard = hear(alloc, received.as_slice())?;
        tally = tally.with(heard)?;
    }
    Ok(tally)
}

// A network over the drawn files begins. They are those of its settings; a refused file would be answered by
// `NoMemory`.
fn begun(alloc: Global, store: &mut MemoryStore) -> Result<Player, NoMemory>
    ensures begins { IfOk result (λ player. Begins (Some (file_named store.old.files)) network client (played_network player)) }
    ensures files { Some (file_named store.new.files) ≡ Some (file_named store.old.files) }
{
    match begin(alloc, store, network(alloc)?, CLIENT) {
        Ok(player) => Ok(player),
        Err(_) => Err(NoMemory),
    }
}

// The requests are put to the network of these files.
fn play_over(
    alloc: Global,
    files: List<(Text, Bytes)>,
    demand: Demand,
    count: u16,
    draws: &mut Draws,
) -> Result<Tally, NoMemory>
    requires files { AreFiles files }
    requires few { count ≤ requests_most }
    requires place { draws.old ≡ links_draws }
    ensures { IfOk result (IsTallied demand count) }
{
    let mut store = MemoryStore::new(alloc, files, List::new(alloc));
    let mut player = begun(alloc, &mut store)?;
    ask_all(alloc, &mut store, &mut player, demand, count, draws)
}

/// Draws the network and as many requests, and puts them one behind the other, each when the network has come to its
/// end; returns the tally of the answers.
pub fn play(alloc: Global, demand: Demand, count: u16) -> Result<Tally, NoMemory>
    requires few { count ≤ requests_most }
    ensures tallied { IfOk result (IsTallied demand count) }
{
    let mut draws = Draws::new();
    let files = draw_files(alloc, &mut draws)?;
    play_over(alloc, files, demand, count, &mut draws)
}
