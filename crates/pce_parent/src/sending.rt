//! The requests to the children for one request.
ghost use Rattle.std.specs.Prelude.{◌≡◌, ◌++◌, [], ◌∷◌, IfOk, OnOk};
ghost use Rattle.std.specs.Option.{option_copied};
ghost use Rattle.dom_base.specs.declared.names.Peer.TheVariants.{Inner};
ghost use Rattle.pce_common.specs.plant_model.Parent.{all_waits, next_id, last_to};
ghost use Rattle.pce_common.specs.plant_model.Element.{way_to};
ghost use Rattle.pce_parent.specs.Sending.{IsSent, AreSent};

use crate::asking::Asking;
use crate::errands::Errand;
use crate::pending::row_at;
use crate::wait::{Wait, waits_for};
use dom_base::{List, NoMemory, Peer};
use pce_common::model::{Output, Outputs};
use pce_common::{Ways, after_id, request_message};
use pcep_messages::Wanted;
use request_table::Requests;
use std::alloc::Global;

/// The requests that were sent to the children so far.
#[derive(Drop)]
pub struct Sending {
    /// Every wait, also of other requests.
    pub taken: Vec<Wait>,
    /// The waits of this request.
    pub waits: Vec<Wait>,
    pub ways: Ways,
    pub outputs: Outputs,
}

fn all_waits(alloc: Global, requests: &Requests<Asking>) -> Result<Vec<Wait>, NoMemory>
    ensures { IfOk result (λ waits. waits.items ≡ all_waits requests.now.kept.rows) }
{
    let mut waits = Vec::new(alloc);
    for i in 0..requests.len() {
        let Some(row) = row_at(requests, i) else {
            unreachable!()
        };
        waits.extend_from_slice(row.item.waits())?;
    }
    Ok(waits)
}

fn last_to(ways: &Ways, peer: Peer) -> u32
    ensures { result ≡ last_to (way_to peer ways.now) }
{
    match ways.to(peer) {
        None => 0,
        Some(way) => way.last_id(),
    }
}

// The next id towards a peer; those that wait are passed over.
fn next_id(taken: &[Wait], ways: &Ways, peer: Peer) -> u32
    ensures { result ≡ next_id peer taken.now ways.now }
{
    let mut id = after_id(last_to(ways, peer));
    for _wait in taken {
        if !waits_for(taken, peer, id) {
            return id;
        }
        id = after_id(id);
    }
    id
}

// An errand is sent.
fn send_one(
    alloc: Global,
    wanted: &Wanted,
    errand: &Errand,
    sending: &mut Sending,
) -> Result<(), NoMemory>
    ensures { OnOk result (IsSent wanted.now errand.now sending.old sending.new) }
{
    let child = errand.child();
    let to = Peer::Inner(child);
    let id = next_id(&sending.taken, &sending.ways, to);
    let wait = Wait::new(child, id, errand.target());
    sending.taken.push(wait)?;
    sending.waits.push(wait)?;
    sending.ways.set_last(to, id);
    let message = request_message(alloc, id, wanted, errand.target(), &[child])?;
    sending.outputs.push(Output { to, message })?;
    Ok(())
}

/// Sends errands, one after the other, under ids that no request waits for.
pub fn send_all(
    alloc: Global,
    wanted: &Wanted,
    errands: &[Errand],
    requests: &Requests<Asking>,
    ways: &Ways,
) -> Result<Sending, NoMemory>
    ensures { IfOk result (AreSent wanted.now (all_waits requests.now.kept.rows) errands.now ways.now) }
{
    let mut sending = Sending {
        taken: all_waits(alloc, requests)?,
        waits: Vec::new(alloc),
        ways: ways.copy(alloc)?,
        outputs: List::new(alloc),
    };
    for errand in errands {
        send_one(alloc, wanted, errand, &mut sending)?;
    }
    Ok(sending)
}
