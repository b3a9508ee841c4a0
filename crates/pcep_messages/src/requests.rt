//! What a request asks for, or why it is refused.

ghost use Rattle.std.specs.Prelude.{◌≡◌, IfOk, None, Some, true, false};
ghost use Rattle.pcep_messages.specs.Said.{asks_key, iro_of, metrics_of, rp_of, xro_of};
ghost use Rattle.pcep_messages.specs.Refusals.{asked_type, first_of, request_rules};
ghost use Rattle.pcep_messages.specs.Requests.{Answers, bound_of, cap_of, demands_of, metric_of_type, query_of, sequence_of, units_of, wanted_of, without_bit};

use crate::message::{Asked, Refusal, Request, Wanted, Wish};
use crate::refusing::{asks_for_key, domain, find_asked_key, find_ends, find_request};
use crate::said::{find_bandwidth, find_bound, find_masks, find_rp};
use dom_base::{
    Addr, As, COST_MAX, Cost, Exclusion, List, Metric, NoMemory, Query, units_of_word,
    whole_of_word,
};
use path_constraints::copies_of_demands;
use pcep_objects::{Body, Object};
use pcep_subobjects::Hop;
use std::alloc::Global;

fn cap(bound: Option<u32>) -> Cost
    ensures { result ≡ cap_of bound }
{
    let most = match bound {
        Some(word) => whole_of_word(word).unwrap_or(0),
        None => COST_MAX,
    };
    Cost::of(most.min(COST_MAX)).unwrap()
}

fn units(word: Option<u32>) -> u64
    ensures { result ≡ units_of word }
{
    match word {
        Some(word) => units_of_word(word).unwrap_or(0),
        None => 0,
    }
}

fn exclusions(alloc: Global, objects: &[Object]) -> Result<List<Exclusion>, NoMemory>
    ensures { IfOk result (λ kept. kept ≡ demands_of (xro_of objects.now)) }
{
    for object in objects {
        if let Body::Xro(list) = &object.body {
            return copies_of_demands(alloc, list.as_slice());
        }
    }
    Ok(List::new(alloc))
}

fn domains(alloc: Global, route: &[Hop]) -> Result<List<As>, NoMemory>
    ensures { IfOk result (λ found. found ≡ sequence_of (Some route.now)) }
{
    let mut found = List::new(alloc);
    for hop in route {
        match domain(hop) {
            Some(number) => found.push(As(number))?,
            None => {}
        }
    }
    Ok(found)
}

fn sequence(alloc: Global, objects: &[Object]) -> Result<List<As>, NoMemory>
    ensures { IfOk result (λ found. found ≡ sequence_of (iro_of objects.now)) }
{
    for object in objects {
        if let Body::Iro(route) = &object.body {
            return domains(alloc, route.as_slice());
        }
    }
    Ok(List::new(alloc))
}

fn query(alloc: Global, objects: &[Object], own: As, metric: Metric) -> Result<Query, NoMemory>
    requires metric { metric ≡ metric_of_type (asked_type (metrics_of objects.now)) }
    ensures { IfOk result (λ query. query ≡ query_of own.0 objects.now) }
{
    let exclusions = exclusions(alloc, objects)?;
    let (exclude_any, include_any, include_all) = find_masks(objects).unwrap_or((0, 0, 0));
    Ok(Query {
        own,
        metric,
        cap: cap(find_bound(objects)),
        bandwidth: units(find_bandwidth(objects)),
        exclude_any,
        include_any,
        include_all,
        exclusions,
    })
}

fn wanted(
    alloc: Global,
    objects: &[Object],
    own: As,
    ends: (Addr, Addr),
    metric: Metric,
) -> Result<Wanted, NoMemory>
    requires metric { metric ≡ metric_of_type (asked_type (metrics_of objects.now)) }
    ensures { IfOk result (λ wanted. wanted ≡ wanted_of own.0 objects.now ends) }
{
    let query = query(alloc, objects, own, metric)?;
    let sequence = sequence(alloc, objects)?;
    let (source, target) = ends;
    Ok(Wanted {
        source,
        target,
        query,
        bandwidth_word: find_bandwidth(objects),
        bound_word: find_bound(objects),
        masks: find_masks(objects),
        sequence,
    })
}

fn refused(objects: &[Object], error: (u8, u8)) -> Refusal
    ensures { result ≡ Refusal.Wire (without_bit (rp_of objects.now)) error.0 error.1 }
{
    let rp = match find_rp(objects) {
        Some((rp, _must)) => Some(rp),
        None => None,
    };
    Refusal::Wire {
        rp,
        kind: error.0,
        value: error.1,
    }
}

/// What a request for a path key's segment asks for.
#[tactic(auto, using(crate::proofs::RefusalLaws::key_decides))]
fn key_request(objects: &[Object], own: As, rp: (u32, u32)) -> Result<Request, Refusal>
    requires rules { first_of (request_rules own.0 objects.now) ≡ None }
    requires rp { rp_of objects.now ≡ Some (rp, true) }
    requires key { asks_key (rp_of objects.now) ≡ true }
    ensures { Answers own.0 objects.now result }
{
    match find_asked_key(objects) {
        Ok((key, pce)) => Ok(Request {
            flags: rp.0,
            id: rp.1,
            wish: Wish::Expand { key, pce },
        }),
        Err(error) => Err(refused(objects, error)),
    }
}

/// What a request for a path asks for.
#[tactic(auto, using(crate::proofs::RefusalLaws::path_decides))]
fn path_request(
    alloc: Global,
    objects: &[Object],
    own: As,
    rp: (u32, u32),
) -> Result<Request, Refusal>
    requires rules { first_of (request_rules own.0 objects.now) ≡ None }
    requires rp { rp_of objects.now ≡ Some (rp, true) }
    requires key { asks_key (rp_of objects.now) ≡ false }
    ensures { Answers own.0 objects.now result }
{
    match find_ends(objects, own) {
        Ok((ends, metric)) => match wanted(alloc, objects, own, ends, metric) {
            Ok(wanted) => Ok(Request {
                flags: rp.0,
                id: rp.1,
                wish: Wish::Path(wanted),
            }),
            Err(NoMemory) => Err(Refusal::NoMemory),
        },
        Err(error) => Err(refused(objects, error)),
    }
}

/// What a request asks the element of the domain `own` for, or the error that it is answered with,
/// with the flags and the number of its RP where it has one. At the parent, whose number is 0, no
/// IRO is accepted.
#[tactic(auto, using(crate::proofs::RefusalLaws::refused_at_once))]
pub fn request_of(alloc: Global, asked: &Asked, own: As) -> Result<Request, Refusal>
    ensures { Answers own.0 asked.now.objects result }
{
    let objects = asked.objects.as_slice();
    match find_request(objects, own) {
        Ok(rp) => {
            if asks_for_key(Some((rp, true))) {
                key_request(objects, own, rp)
            } else {
                path_request(alloc, objects, own, rp)
            }
        }
        Err(error) => Err(refused(objects, error)),
    }
}
