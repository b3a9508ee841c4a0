//! A client asks: topologies are loaded, a session is opened, paths are asked for, and the network goes on to its end.
ghost use Rattle.std.specs.Prelude.{◌≡◌, ◌≤◌, ◌++◌, ◌∷◌, [], length, map, IfErr, IfOk, MatchOption, None, OnOk, Some};
ghost use Rattle.pcep_subobjects.specs.Subobjects.{AreOctets};
ghost use Rattle.plant_text.specs.Settings.{row_of};
ghost use Rattle.plant_play.specs.Playing.{IsNewNetwork, played_network};
ghost use Rattle.plant_play.specs.Cues.{IsCueStop, IsFileStop, file_name};
ghost use Rattle.plant_client.specs.Asking.{ArePlayed, AskStops, Asks, Begins, Exchanges, IsPlayed, LoadsStop, Receives, asking_lines, load_line, name_in, named, received_in, session_lines, topologies};
ghost use Rattle.plant_client.specs.Questions.{question_text, sequence_most};

use crate::question::{Question, opening_bytes, question_bytes};
use dom_base::{As, Bytes, List, NoMemory, Text};
use dom_edge::Store;
use network_links::elements_of;
use plant_play::{Answer, Log, Outcome, Player, Stop, play_cue};
use plant_text::{ElementRow, LineEvent, Network};
use std::alloc::Global;

// ---- the topologies

fn row_of(rows: &[ElementRow], at: As) -> Option<&ElementRow>
    ensures { MatchOption result (row_of at rows.now ≡ None) (λ row. row_of at rows.now ≡ Some row.now) }
{
    for row in rows {
        if row.own.0 == at.0 {
            return Some(row);
        }
    }
    None
}

// The name of the file of an element's topology.
fn name_at(rows: &[ElementRow], at: As) -> Option<&Text>
    ensures { MatchOption result (name_in (row_of at rows.now) ≡ None) (λ name. name_in (row_of at rows.now) ≡ Some name.now) }
{
    match row_of(rows, at) {
        Some(row) => row.topology.as_ref(),
        None => None,
    }
}

fn add_named(
    alloc: Global,
    rows: &[ElementRow],
    at: As,
    into: &mut Vec<(As, Text)>,
) -> Result<(), NoMemory>
    ensures { OnOk result (into.new.items ≡ into.old.items ++ named at (name_in (row_of at rows.now))) }
{
    if let Some(name) = name_at(rows, at) {
        into.push((at, Text::copy_of(alloc, name.as_str())?))?;
    }
    Ok(())
}

// The domains whose topologies the settings name, rising, each with the name of its file.
fn topologies(alloc: Global, rows: &[ElementRow]) -> Result<Vec<(As, Text)>, NoMemory>
    ensures { IfOk result (λ found. found.items ≡ topologies rows.now) }
{
    let domains = elements_of(alloc, rows)?;
    let mut found = Vec::new(alloc);
    for at in domains.as_slice() {
        add_named(alloc, rows, *at, &mut found)?;
    }
    Ok(found)
}

// ---- lines that are played

// Plays a line; nobody reads its transcript.
fn play_line<S: Store>(
    alloc: Global,
    store: &mut S,
    player: &mut Player,
    event: LineEvent,
) -> Result<Answer, Stop>
    ensures plays { IfOk result (λ answer. IsPlayed (S.files store.old) event (played_network player.old) answer (played_network player.new)) }
    ensures refused { IfErr result (IsCueStop (S.files store.old) (file_name event) event (played_network player.old) (played_network player.new) (S.faults store.old, S.faults store.new) (S.failed_at store.new)) }
    ensures files { S.files store.new ≡ S.files store.old }
    ensures later { S.faults store.old ≤ S.faults store.new }
{
    let (answer, _log) = play_cue(alloc, store, player, 0, event, Log::unseen(alloc))?;
    Ok(answer)
}

// Plays a line whose answer is not looked at.
fn play_blindly<S: Store>(
    alloc: Global,
    store: &mut S,
    player: &mut Player,
    event: LineEvent,
) -> Result<(), Stop>
    ensures plays { OnOk result (ArePlayed (S.files store.old) (event ∷ []) (played_network player.old) (played_network player.new)) }
    ensures refused { IfErr result (IsCueStop (S.files store.old) (file_name event) event (played_network player.old) (played_network player.new) (S.faults store.old, S.faults store.new) (S.failed_at store.new)) }
    ensures files { S.files store.new ≡ S.files store.old }
    ensures later { S.faults store.old ≤ S.faults store.new }
{
    let _answer = play_line(alloc, store, player, event)?;
    Ok(())
}

// Plays a line that names no file.
fn play_alone<S: Store>(
    alloc: Global,
    store: &mut S,
    player: &mut Player,
    event: LineEvent,
) -> Result<(), Stop>
    requires alone { file_name event ≡ None }
    ensures plays { OnOk result (ArePlayed (S.files store.old) (event ∷ []) (played_network player.old) (played_network player.new)) }
    ensures refused { IfErr result (λ why. why ≡ Stop.NoMemory) }
    ensures files { S.files store.new ≡ S.files store.old }
    ensures later { S.faults store.old ≤ S.faults store.new }
{
    play_blindly(alloc, store, player, event)
}

fn load<S: Store>(
    alloc: Global,
    store: &mut S,
    player: &mut Player,
    topology: &(As, Text),
) -> Result<(), Stop>
    ensures loads { OnOk result (ArePlayed (S.files store.old) (load_line topology.now ∷ []) (played_network player.old) (played_network player.new)) }
    ensures refused { IfErr result (IsFileStop (S.files store.old) topology.now.1 (load_line topology.now) (played_network player.old) (played_network player.new) (S.faults store.old, S.faults store.new) (S.failed_at store.new)) }
    ensures files { S.files store.new ≡ S.files store.old }
    ensures later { S.faults store.old ≤ S.faults store.new }
{
    let name = Text::copy_of(alloc, topology.1.as_str())?;
    play_blindly(alloc, store, player, LineEvent::Load(topology.0, name))
}

fn load_all<S: Store>(
    alloc: Global,
    store: &mut S,
    player: &mut Player,
    topologies: &[(As, Text)],
) -> Result<(), Stop>
    ensures loads { OnOk result (ArePlayed (S.files store.old) (map load_line topologies.now) (played_network player.old) (played_network player.new)) }
    ensures stops { IfErr result (LoadsStop (S.files store.old) topologies.now (played_network player.old) (S.faults store.old, S.faults store.new) (S.failed_at store.new)) }
    ensures files { S.files store.new ≡ S.files store.old }
    ensures later { S.faults store.old ≤ S.faults store.new }
{
    for topology in topologies {
        load(alloc, store, player, topology)?;
    }
    Ok(())
}

// The network settles, and a session is opened.
fn open_session<S: Store>(
    alloc: Global,
    store: &mut S,
    player: &mut Player,
    client: u32,
) -> Result<(), Stop>
    ensures opens { OnOk result (ArePlayed (S.files store.old) (session_lines client) (played_network player.old) (played_network player.new)) }
    ensures refused { IfErr result (λ why. why ≡ Stop.NoMemory) }
    ensures files { S.files store.new ≡ S.files store.old }
    ensures later { S.faults store.old ≤ S.faults store.new }
{
    let opening = opening_bytes(alloc)?;
    play_alone(alloc, store, player, LineEvent::Settle)?;
    play_alone(alloc, store, player, LineEvent::Open(Some(client), 0))?;
    play_alone(alloc, store, player, LineEvent::Feed(Some(client), opening))
}

// A path is asked for, and the network goes on to its end.
fn put<S: Store>(
    alloc: Global,
    store: &mut S,
    player: &mut Player,
    client: u32,
    question: &Question,
) -> Result<(), Stop>
    requires few { length question.now.sequence ≤ sequence_most }
    ensures asks { OnOk result (ArePlayed (S.files store.old) (asking_lines client question.now) (played_network player.old) (played_network player.new)) }
    ensures octets { OnOk result (AreOctets (question_text question.now)) }
    ensures refused { IfErr result (λ why. why ≡ Stop.NoMemory) }
    ensures files { S.files store.new ≡ S.files store.old }
    ensures later { S.faults store.old ≤ S.faults store.new }
{
    let asked = question_bytes(alloc, question)?;
    play_alone(alloc, store, player, LineEvent::Feed(Some(client), asked))?;
    play_alone(alloc, store, player, LineEvent::Finish)
}

// ---- what comes back

fn received_in(alloc: Global, answer: Answer) -> Bytes
    ensures { result ≡ received_in answer }
{
    match answer {
        Ok(
            Outcome::Drained {
                bytes,
                ended: _ended,
            },
        ) => bytes,
        Ok(Outcome::Done | Outcome::Loaded(_)) | Err(_) => List::new(alloc),
    }
}

// What waits for the client is handed out.
fn receive<S: Store>(
    alloc: Global,
    store: &mut S,
    player: &mut Player,
    client: u32,
) -> Result<Bytes, Stop>
    ensures receives { IfOk result (λ received. Receives (S.files store.old) client (played_network player.old) received (played_network player.new)) }
    ensures refused { IfErr result (λ why. why ≡ Stop.NoMemory) }
    ensures files { S.files store.new ≡ S.files store.old }
    ensures later { S.faults store.old ≤ S.faults store.new }
{
    let answer = play_line(alloc, store, player, LineEvent::Drain(Some(client), 0))?;
    Ok(received_in(alloc, answer))
}

// A network that has just been made is loaded, and the client opens its session.
fn begin_new<S: Store>(
    alloc: Global,
    store: &mut S,
    player: &mut Player,
    named: &[(As, Text)],
    client: u32,
) -> Result<(), Stop>
    requires new { IsNewNetwork (played_network player.old).network (played_network player.old) }
    requires found { named.now ≡ topologies (played_network player.old).network.elements }
    ensures begins { OnOk result (Begins (S.files store.old) (played_network player.old).network client (played_network player.new)) }
    ensures stops { IfErr result (AskStops (S.files store.old) (played_network player.old).network (S.faults store.old, S.faults store.new) (S.failed_at store.new)) }
    ensures files { S.files store.new ≡ S.files store.old }
    ensures later { S.faults store.old ≤ S.faults store.new }
{
    load_all(alloc, store, player, named)?;
    open_session(alloc, store, player, client)
}

/// A network of these settings begins, with a session of its outside peer `client`: each topology that the settings name
/// is loaded, in rising order of domains; the network settles; and the client opens its session. It stops at the first
/// file that gives no topology.
pub fn begin<S: Store>(
    alloc: Global,
    store: &mut S,
    network: Network,
    client: u32,
) -> Result<Player, Stop>
    ensures begins { IfOk result (λ player. Begins (S.files store.old) network client (played_network player)) }
    ensures stops { IfErr result (AskStops (S.files store.old) network (S.faults store.old, S.faults store.new) (S.failed_at store.new)) }
    ensures files { S.files store.new ≡ S.files store.old }
    ensures later { S.faults store.old ≤ S.faults store.new }
{
    let topologies = topologies(alloc, network.parts().elements.as_slice())?;
    let mut player = Player::new(alloc, network)?;
    begin_new(alloc, store, &mut player, &topologies, client)?;
    Ok(player)
}

/// A client asks for a path: the network goes on until no message is on its way and no job can be solved; and what then
/// waits for the client is handed out.
pub fn exchange<S: Store>(
    alloc: Global,
    store: &mut S,
    player: &mut Player,
    client: u32,
    question: &Question,
) -> Result<Bytes, Stop>
    requires few { length question.now.sequence ≤ sequence_most }
    ensures exchanges { IfOk result (λ received. Exchanges (S.files store.old) client question.now (played_network player.old) received (played_network player.new)) }
    ensures refused { IfErr result (λ why. why ≡ Stop.NoMemory) }
    ensures files { S.files store.new ≡ S.files store.old }
    ensures later { S.faults store.old ≤ S.faults store.new }
{
    put(alloc, store, player, client, question)?;
    receive(alloc, store, player, client)
}

/// A network of these settings is asked for one path, as its outside peer `client`: it begins, the client asks, and
/// what it receives is handed out. It stops at the first file that gives no topology.
pub fn ask<S: Store>(
    alloc: Global,
    store: &mut S,
    network: Network,
    client: u32,
    question: &Question,
) -> Result<Bytes, Stop>
    requires few { length question.now.sequence ≤ sequence_most }
    ensures asks { IfOk result (λ received. Asks (S.files store.old) network client question.now received) }
    ensures stops { IfErr result (AskStops (S.files store.old) network (S.faults store.old, S.faults store.new) (S.failed_at store.new)) }
    ensures files { S.files store.new ≡ S.files store.old }
    ensures later { S.faults store.old ≤ S.faults store.new }
{
    let mut player = begin(alloc, store, network, client)?;
    exchange(alloc, store, &mut player, client, question)
}
