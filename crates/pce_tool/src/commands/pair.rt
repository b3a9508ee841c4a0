//! `pair`: the replies of a domain's element to a client that asks for a pair.
ghost use Rattle.std.specs.Prelude.{◌≤◌, ◌<◌, ◌+◌, ◌*◌, List, length, IfOk, MatchOption};
ghost use Rattle.dom_base.specs.declared.link.Link.{Link};
ghost use Rattle.diverse_pairs.specs.Conditions.{asked_of};
ghost use Rattle.diverse_pairs.specs.Pairs.{IsFeasiblePair};
ghost use Rattle.diverse_pairs.specs.Solution.{ShowsChosen};
ghost use Rattle.dom_base.specs.declared.limits.TheConstants.{COST_MAX};
ghost use Rattle.te_links.specs.declared.limits.TheConstants.{NODES_MAX, METRIC_MAX};
ghost use Rattle.pcep_messages.specs.Spelling.{message_text};
ghost use Rattle.pce_tool.specs.Commands.Pair.{ArePairAnswers, IsPairReply, IsPairReplyText, IsShownPath};
ghost use Rattle.pce_tool.specs.PairParts.{AreCosts, AreSmall, IsSmallAnswer};
ghost use Rattle.pce_tool.specs.Run.{Pair, Ends};
ghost use Rattle.pce_tool.specs.Worlds.{world};

use crate::commands::answer::message_bytes;
use crate::files::load_topology;
use crate::input::load_pair_request;
use crate::output::finish;
use crate::pair_reading::PairRequest;
use crate::status::Status;
use disclosure::open_hops;
use diverse_pairs::{PairForm, path_cost, solve_pair};
use dom_base::{Addr, COST_MAX, Cost, List, Metric, NoMemory, word_of_cost};
use dom_edge::{Sink, Source, Store};
use line_text::write_hex;
use one_domain::unknown_ends;
use pcep_messages::{Answer, Message, Path, Reply, Wanted, type_of_metric};
use std::alloc::Global;
use te_links::Topology;

// The costs of two paths, if their sum is within the greatest.
#[derive(Drop)]
struct Costs {
    one: Cost,
    other: Cost,
}

// The answers to the first and the second request.
#[derive(Drop)]
struct Answers {
    one: Answer,
    other: Answer,
}

fn costs_within(one: u64, other: u64) -> Option<Costs>
    requires one { one ≤ NODES_MAX * METRIC_MAX }
    requires other { other ≤ NODES_MAX * METRIC_MAX }
    ensures { MatchOption result (COST_MAX < one + other) (AreCosts one other) }
{
    if one + other > u64::from(COST_MAX) {
        return None;
    }
    let Some(first) = Cost::of(one as u32) else {
        unreachable!()
    };
    let Some(second) = Cost::of(other as u32) else {
        unreachable!()
    };
    Some(Costs {
        one: first,
        other: second,
    })
}

// The answer with a path.
fn path_answer(
    alloc: Global,
    metric: Metric,
    shown: &[Addr],
    cost: Cost,
) -> Result<Answer, NoMemory>
    requires few { length shown.now ≤ 1024 }
    ensures answer { IfOk result (IsShownPath metric shown.now cost) }
    ensures small { IfOk result IsSmallAnswer }
{
    let path = Path {
        hops: open_hops(alloc, shown)?,
        metric: Some((type_of_metric(metric), word_of_cost(cost))),
    };
    Ok(Answer::Paths(List::from_vec(vec![in alloc; path]?)))
}

// The answers without a path.
fn no_pair(topology: &Topology, wanted: &Wanted) -> Answers
    requires { (first second : List Link) → ¬ IsFeasiblePair topology.now wanted.now.query wanted.now.source wanted.now.target first second }
    ensures answers { ArePairAnswers topology.now wanted.now result.one result.other }
    ensures small { AreSmall result }
{
    let vector = unknown_ends(topology, wanted);
    Answers {
        one: Answer::NoPath { nature: 0, vector },
        other: Answer::NoPath { nature: 0, vector },
    }
}

// The answers with the chosen pair, if it is within the greatest cost.
fn paths_answers(
    alloc: Global,
    topology: &Topology,
    wanted: &Wanted,
    first: &[Addr],
    second: &[Addr],
) -> Result<Answers, NoMemory>
    requires chosen { ShowsChosen (asked_of topology.now wanted.now.query wanted.now.source wanted.now.target) first.now second.now }
    requires few_first { length first.now ≤ 1024 }
    requires few_second { length second.now ≤ 1024 }
    ensures answers { IfOk result (λ a. ArePairAnswers topology.now wanted.now a.one a.other) }
    ensures small { IfOk result AreSmall }
{
    let query = &wanted.query;
    let first_cost = path_cost(topology, query, first);
    let second_cost = path_cost(topology, query, second);
    let Some(costs) = costs_within(first_cost, second_cost) else {
        return Ok(no_pair(topology, wanted));
    };
    let one = path_answer(alloc, query.metric, first, costs.one)?;
    let other = path_answer(alloc, query.metric, second, costs.other)?;
    Ok(Answers { one, other })
}

fn pair_answers(alloc: Global, topology: &Topology, wanted: &Wanted) -> Result<Answers, NoMemory>
    ensures answers { IfOk result (λ a. ArePairAnswers topology.now wanted.now a.one a.other) }
    ensures small { IfOk result AreSmall }
{
    // A topology obeys the rules, so its nodes are few.
    let _nodes = topology.node_count();
    let certificate = solve_pair(alloc, topology, &wanted.query, wanted.source, wanted.target)?;
    match &certificate.form {
        PairForm::Paths { first, second, .. } => {
            paths_answers(alloc, topology, wanted, first.as_slice(), second.as_slice())
        }
        PairForm::Cut(_) => Ok(no_pair(topology, wanted)),
    }
}

// Two replies of one message, which are not too long together.
fn reply_of(alloc: Global, topology: &Topology, request: &PairRequest) -> Result<Message, NoMemory>
    ensures reply { IfOk result (IsPairReply topology.now request.now) }
    ensures fits { IfOk result (λ m. length (message_text m) ≤ 65532) }
{
    let Answers { one, other } = pair_answers(alloc, topology, &request.wanted)?;
    let first = Reply {
        flags: request.flags,
        id: request.first,
        answer: one,
    };
    let second = Reply {
        flags: request.flags,
        id: request.second,
        answer: other,
    };
    Ok(Message::PcRep(List::from_vec(vec![in alloc; first, second]?)))
}

// The replies as lower-case hexadecimal text with a line end.
fn replies_text(
    alloc: Global,
    topology: &Topology,
    request: &PairRequest,
) -> Result<Vec<u8>, NoMemory>
    ensures { IfOk result (λ text. IsPairReplyText topology.now request.now text.items) }
{
    let message = reply_of(alloc, topology, request)?;
    let bytes = message_bytes(alloc, &message)?;
    let mut text = write_hex(alloc, &bytes)?;
    text.push(b'\n')?;
    Ok(text)
}

/// Answers a request for a pair over one domain: the chosen pair, a path for each request.
pub(crate) fn run<S: Store, I: Source, K: Sink>(
    alloc: Global,
    topology: &str,
    store: &mut S,
    input: &mut I,
    out: &mut K,
) -> Status
    ensures { Ends (world (S.files store.old) (I.left input.old) (K.written out.old, K.written out.new) (S.faults store.old, S.faults store.new) (I.faults input.old, I.faults input.new) (K.faults out.old, K.faults out.new) (S.failed_at store.new)) (Pair topology.now) result }
{
    let topology = match load_topology(alloc, store, topology) {
        Ok(topology) => topology,
        Err(status) => return status,
    };
    let request = match load_pair_request(alloc, input, topology.own()) {
        Ok(request) => request,
        Err(status) => return status,
    };
    match replies_text(alloc, &topology, &request) {
        Ok(text) => finish(out, text.as_slice()),
        Err(_) => Status::NoMemory,
    }
}
