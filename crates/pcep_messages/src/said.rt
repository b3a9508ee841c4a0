//! What the objects of a request say.

ghost use Rattle.std.specs.Prelude.{◌≡◌, ◌==◌, None, count_by, if◌then◌else◌};
ghost use Rattle.std.specs.List.{list_all};
ghost use Rattle.pcep_messages.specs.Groups.{rp_in, first_said};
ghost use Rattle.pcep_messages.specs.Said.{first_with_bit, with_bit, is_passed_over, rp_of, end_points_in, end_points_of, bandwidth_in, bandwidth_of, masks_in, masks_of, metric_in, metrics_of, key_in, first_key, key_of};
ghost use Rattle.pcep_messages.specs.Refusals.{asked_type, is_bound, is_minimised};
ghost use Rattle.pcep_messages.specs.Requests.{bound_of};

use crate::groups::rp;
use dom_base::{Addr, As};
use pcep_codes::{kinds, metrics};
use pcep_objects::{Body, Object};
use pcep_subobjects::Hop;

/// The flags and the number of the first RP, and its P bit.
pub(crate) fn find_rp(objects: &[Object]) -> Option<((u32, u32), bool)>
    ensures { result ≡ rp_of objects.now }
{
    for object in objects {
        if let Some(said) = rp(object) {
            return Some((said, object.must));
        }
    }
    None
}

fn end_points(object: &Object) -> Option<(Addr, Addr)>
    ensures { result ≡ end_points_in object.now.body }
{
    match object.body {
        Body::EndPoints { source, target } => Some((source, target)),
        _ => None,
    }
}

fn end_points_with_bit(object: &Object, own: As) -> Option<((Addr, Addr), bool)>
    ensures { result ≡ (if is_passed_over own.0 object.now then None else with_bit (end_points_in object.now.body) object.now.must) }
{
    if own == As(0) && object.kind == kinds::END_POINTS_IPV6 {
        return None;
    }
    let said = end_points(object)?;
    Some((said, object.must))
}

/// The first END-POINTS, and its P bit. The parent passes those of type 2 over.
pub(crate) fn find_end_points(objects: &[Object], own: As) -> Option<((Addr, Addr), bool)>
    ensures { result ≡ end_points_of own.0 objects.now }
{
    for object in objects {
        if let Some(said) = end_points_with_bit(object, own) {
            return Some(said);
        }
    }
    None
}

fn bandwidth(object: &Object) -> Option<u32>
    ensures { result ≡ bandwidth_in object.now.body }
{
    match object.body {
        Body::Bandwidth(word) => Some(word),
        _ => None,
    }
}

/// The word of the first BANDWIDTH.
pub(crate) fn find_bandwidth(objects: &[Object]) -> Option<u32>
    ensures { result ≡ bandwidth_of objects.now }
{
    for object in objects {
        if let Some(word) = bandwidth(object) {
            return Some(word);
        }
    }
    None
}

fn masks(object: &Object) -> Option<(u32, u32, u32)>
    ensures { result ≡ masks_in object.now.body }
{
    match object.body {
        Body::Lspa {
            exclude_any,
            include_any,
            include_all,
            ..
        } => Some((exclude_any, include_any, include_all)),
        _ => None,
    }
}

/// The masks of colours of the first LSPA.
pub(crate) fn find_masks(objects: &[Object]) -> Option<(u32, u32, u32)>
    ensures { result ≡ masks_of objects.now }
{
    for object in objects {
        if let Some(said) = masks(object) {
            return Some(said);
        }
    }
    None
}

fn metric(object: &Object) -> Option<(bool, u8, u32)>
    ensures { result ≡ metric_in object.now.body }
{
    match object.body {
        Body::Metric {
            bound,
            kind,
            word,
            ..
        } => Some((bound, kind, word)),
        _ => None,
    }
}

/// The type of the first METRIC, or that of TE.
pub(crate) fn metric_type(objects: &[Object]) -> u8
    ensures { result ≡ asked_type (metrics_of objects.now) }
{
    for object in objects {
        if let Some((_, kind, _)) = metric(object) {
            return kind;
        }
    }
    metrics::TE
}

/// The word of the first METRIC that is a bound.
pub(crate) fn find_bound(objects: &[Object]) -> Option<u32>
    ensures { result ≡ bound_of (metrics_of objects.now) }
{
    for object in objects {
        if let Some((true, _, word)) = metric(object) {
            return Some(word);
        }
    }
    None
}

pub(crate) fn are_of_type(objects: &[Object], kind: u8) -> bool
    ensures { result ≡ list_all (λ m. m.1 == kind) (metrics_of objects.now) }
{
    objects
        .iter()
        .filter_map(|object| metric(object))
        .all(|metric| metric.1 == kind)
}

#[tactic(auto, unfolding(crate::specs::Refusals::is_bound))]
fn bounds(object: &Object) -> bool
    ensures { result ≡ is_bound object.now }
{
    matches!(metric(object), Some((true, _, _)))
}

#[tactic(auto, unfolding(crate::specs::Refusals::is_minimised))]
fn minimises(object: &Object) -> bool
    ensures { result ≡ is_minimised object.now }
{
    matches!(metric(object), Some((false, _, _)))
}

pub(crate) fn count_bounds(objects: &[Object]) -> usize
    ensures { result ≡ count_by is_bound objects.now }
{
    let mut count = 0;
    for object in objects {
        if bounds(object) {
            count += 1;
        }
    }
    count
}

pub(crate) fn count_minimised(objects: &[Object]) -> usize
    ensures { result ≡ count_by is_minimised objects.now }
{
    let mut count = 0;
    for object in objects {
        if minimises(object) {
            count += 1;
        }
    }
    count
}

fn first_key_of(route: &[Hop]) -> Option<(u16, Addr)>
    ensures { result ≡ first_key route.now }
{
    for hop in route {
        if let Hop::Key { key, pce, .. } = hop {
            return Some((*key, *pce));
        }
    }
    None
}

/// The path key that is asked for, and the element that keeps it.
pub(crate) fn find_key(objects: &[Object]) -> Option<(u16, Addr)>
    ensures { result ≡ key_of objects.now }
{
    for object in objects {
        if let Body::PathKey(route) = &object.body {
            return first_key_of(route.as_slice());
        }
    }
    None
}
