//! The objects of requests (RFC 5440, section 7).
ghost use Rattle.std.specs.Prelude.{◌≡◌, map, IfOk};
ghost use Rattle.std.specs.Option.{option_to_list};
ghost use Rattle.plant_model.specs.Writing.{as_hop, bandwidth, bound, ends, ends_kind, iro, lspa, needed, xro};

use dom_base::{Addr, As, Exclusion, List, Metric, NoMemory};
use pcep_codes::{classes, kinds};
use pcep_messages::type_of_metric;
use pcep_objects::{Body, Object};
use pcep_subobjects::Hop;
use std::alloc::{AllocError, Global};

/// An object that has to be taken into account, of the first type of its class.
pub fn needed(class: u8, body: Body) -> Object
    ensures { result ≡ needed class body }
{
    Object {
        class,
        kind: kinds::FIRST,
        must: true,
        body,
    }
}

// The type of END-POINTS (RFC 5440, section 7.6).
fn ends_kind(source: Addr, target: Addr) -> u8
    ensures { result ≡ ends_kind source target }
{
    match (source, target) {
        (Addr::V6(_), Addr::V6(_)) => kinds::END_POINTS_IPV6,
        _ => kinds::FIRST,
    }
}

/// END-POINTS (RFC 5440, section 7.6).
pub fn ends(source: Addr, target: Addr) -> Object
    ensures { result ≡ ends source target }
{
    Object {
        class: classes::END_POINTS,
        kind: ends_kind(source, target),
        must: true,
        body: Body::EndPoints { source, target },
    }
}

pub(crate) fn masks_object(masks: Option<(u32, u32, u32)>) -> Option<Object>
    ensures { option_to_list result ≡ lspa masks }
{
    let Some((exclude_any, include_any, include_all)) = masks else {
        return None;
    };
    let body = Body::Lspa {
        exclude_any,
        include_any,
        include_all,
        setup: 0,
        holding: 0,
        flags: 0,
    };
    Some(needed(classes::LSPA, body))
}

pub(crate) fn bandwidth_object(word: Option<u32>) -> Option<Object>
    ensures { option_to_list result ≡ bandwidth word }
{
    match word {
        Some(word) => Some(needed(classes::BANDWIDTH, Body::Bandwidth(word))),
        None => None,
    }
}

pub(crate) fn bound_object(metric: Metric, word: Option<u32>) -> Option<Object>
    ensures { option_to_list result ≡ bound metric word }
{
    let Some(word) = word else {
        return None;
    };
    let body = Body::Metric {
        bound: true,
        computed: false,
        kind: type_of_metric(metric),
        word,
    };
    Some(needed(classes::METRIC, body))
}

fn domain_hops(alloc: Global, sequence: &[As]) -> Result<Vec<Hop>, AllocError>
    ensures { IfOk result (λ hops. hops.items ≡ map as_hop sequence.now) }
{
    sequence
        .iter()
        .map(|number| Hop::AsNumber {
            loose: false,
            number: *number,
        })
        .collect(alloc)
}

/// The domains that a request goes through, where there are any (RFC 5440, section 7.12).
pub fn sequence_object(alloc: Global, sequence: &[As]) -> Result<Option<Object>, NoMemory>
    ensures { IfOk result (λ object. option_to_list object ≡ iro sequence.now) }
{
    match sequence {
        [] => Ok(None),
        [_first, ..] => {
            let hops = domain_hops(alloc, sequence)?;
            Ok(Some(needed(classes::IRO, Body::Iro(List::from_vec(hops)))))
        }
    }
}

pub(crate) fn exclusions_object(exclusions: List<Exclusion>) -> Option<Object>
    ensures { option_to_list result ≡ xro exclusions }
{
    match exclusions.as_slice() {
        [] => None,
        [_first, ..] => Some(needed(classes::XRO, Body::Xro(exclusions))),
    }
}
