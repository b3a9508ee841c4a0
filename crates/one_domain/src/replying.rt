//! The reply to a client (RFC 5440, section 6.5).
ghost use Rattle.std.specs.Prelude.{◌≤◌, length, IfOk};
ghost use Rattle.pcep_messages.specs.Spelling.{message_text};
ghost use Rattle.one_domain.specs.Replies.{IsPathAnswer, IsAnswer, IsReply};

use crate::domain::{Chosen, DomainPath, search_domain};
use disclosure::open_hops;
use dom_base::{List, Metric, NoMemory, word_of_cost};
use pcep_codes::no_paths;
use pcep_messages::{Answer, Message, Path, Reply, Wanted, type_of_metric};
use std::alloc::Global;
use te_links::Topology;

/// A request for a path that stays in one domain, with the flags and the number of its RP.
#[derive(Drop)]
pub struct PathRequest {
    pub flags: u32,
    pub id: u32,
    pub wanted: Wanted,
}

// The answer with a path of least cost.
fn path_answer(alloc: Global, metric: Metric, chosen: &Chosen) -> Result<Answer, NoMemory>
    ensures { IfOk result (IsPathAnswer metric chosen.now) }
{
    let path = Path {
        hops: open_hops(alloc, chosen.hops.as_slice())?,
        metric: Some((type_of_metric(metric), word_of_cost(chosen.cost))),
    };
    Ok(Answer::Paths(List::from_vec(vec![in alloc; path]?)))
}

/// What the element of a domain answers a client: the chosen path of least cost, or that there is
/// none within the cap.
pub fn answer_of(alloc: Global, topology: &Topology, wanted: &Wanted) -> Result<Answer, NoMemory>
    ensures { IfOk result (IsAnswer topology.now wanted.now) }
{
    let DomainPath { chosen, vector } = search_domain(alloc, topology, wanted)?;
    match chosen {
        Some(chosen) => path_answer(alloc, wanted.query.metric, &chosen),
        None => Ok(Answer::NoPath {
            nature: no_paths::NONE_FOUND,
            vector,
        }),
    }
}

/// The reply to a client. It fits one message, since the path has no more links than the domain
/// has nodes.
pub fn reply_of(
    alloc: Global,
    topology: &Topology,
    request: &PathRequest,
) -> Result<Message, NoMemory>
    ensures reply { IfOk result (IsReply topology.now request.now) }
    ensures fits { IfOk result (λ m. length (message_text m) ≤ 65532) }
{
    let nodes = topology.node_count();
    prove!(nodes <= 1024);
    let reply = Reply {
        flags: request.flags,
        id: request.id,
        answer: answer_of(alloc, topology, &request.wanted)?,
    };
    Ok(Message::PcRep(List::from_vec(vec![in alloc; reply]?)))
}
