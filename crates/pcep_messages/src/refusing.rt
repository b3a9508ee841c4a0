//! Why a request is refused.

ghost use Rattle.std.specs.Prelude.{◌≡◌, None, Some, MatchResult, not, true, if◌then◌else◌};
ghost use Rattle.std.specs.List.{list_all};
ghost use Rattle.pcep_messages.specs.Said.{asks_key, end_points_of, iro_of, key_of, metrics_of, rp_of, xro_of};
ghost use Rattle.pcep_messages.specs.Requests.{metric_of_type};
ghost use Rattle.pcep_messages.specs.Refusals.{asked_type, ipv6_at, agree_on, unsupported, unsupported_among, among, are_measures, can_exclude, domain_in, domains, is_domain, has_twice, begins_with, can_follow, first_of, request_rules, key_rules, path_rules};

use crate::limits::{EXCLUSIONS_MAX, SEQUENCE_MAX};
use crate::metric::metric_of_type;
use crate::said::{
    are_of_type, count_bounds, count_minimised, find_end_points, find_key, find_rp, metric_type,
};
use dom_base::{Addr, As, Metric};
use path_constraints::find_unsupported;
use pcep_codes::{classes, errors, flags, kinds};
use pcep_objects::{Body, Object};
use pcep_subobjects::Hop;

// The error that END-POINTS of IPv6 give at the parent.
fn ipv6_at(own: As) -> Option<(u8, u8)>
    ensures { result ≡ ipv6_at own.0 }
{
    if own == As(0) {
        Some(errors::KIND_NOT_SERVED)
    } else {
        None
    }
}

/// The type and value of the error that an object of a class and type gives, if it has to be taken
/// into account.
fn unsupported_kind(own: As, class: u8, kind: u8) -> Option<(u8, u8)>
    ensures { result ≡ unsupported own.0 class kind }
{
    match class {
        classes::RRO | classes::SVEC | classes::LOAD_BALANCING => Some(errors::CLASS_NOT_SERVED),
        classes::BANDWIDTH if kind == kinds::BANDWIDTH_IN_USE => Some(errors::KIND_NOT_SERVED),
        classes::END_POINTS if kind == kinds::END_POINTS_IPV6 => ipv6_at(own),
        classes::OPEN
        | classes::NO_PATH
        | classes::ERO
        | classes::NOTIFICATION
        | classes::PCEP_ERROR
        | classes::CLOSE => {
            if kind == kinds::FIRST {
                Some(errors::CLASS_NOT_SERVED)
            } else {
                Some(errors::UNKNOWN_KIND)
            }
        }
        classes::RP
        | classes::END_POINTS
        | classes::BANDWIDTH
        | classes::METRIC
        | classes::LSPA
        | classes::IRO
        | classes::PATH_KEY
        | classes::XRO => {
            if kind == kinds::FIRST {
                None
            } else {
                Some(errors::UNKNOWN_KIND)
            }
        }
        _ => Some(errors::UNKNOWN_CLASS),
    }
}

fn unsupported_object(object: &Object, own: As) -> Option<(u8, u8)>
    ensures { result ≡ (if object.now.must then unsupported own.0 object.now.class object.now.kind else None) }
{
    if object.must {
        unsupported_kind(own, object.class, object.kind)
    } else {
        None
    }
}

fn find_unsupported_object(objects: &[Object], own: As) -> Option<(u8, u8)>
    ensures { result ≡ unsupported_among own.0 objects.now }
{
    for object in objects {
        if let Some(error) = unsupported_object(object, own) {
            return Some(error);
        }
    }
    None
}

/// The flags and the number of a request, or an error that does not depend on what it asks for.
pub(crate) fn find_request(objects: &[Object], own: As) -> Result<(u32, u32), (u8, u8)>
    ensures { MatchResult result
        (λ rp. (first_of (request_rules own.0 objects.now) ≡ None) × (rp_of objects.now ≡ Some (rp, true)))
        (λ e. first_of (request_rules own.0 objects.now) ≡ Some e) }
{
    if let Some(error) = find_unsupported_object(objects, own) {
        return Err(error);
    }
    match find_rp(objects) {
        None => Err(errors::RP_MISSING),
        Some((_, false)) => Err(errors::P_CLEAR),
        Some(((_, 0), true)) => Err(errors::PARAMETER_NOT_SERVED),
        Some(((flags, id), true)) => {
            if flags & flags::OTHER_PATH == 0 {
                Ok((flags, id))
            } else {
                Err(errors::PARAMETER_NOT_SERVED)
            }
        }
    }
}

/// The path key that is asked for, and the element that keeps it, or the error.
pub(crate) fn find_asked_key(objects: &[Object]) -> Result<(u16, Addr), (u8, u8)>
    ensures { MatchResult result
        (λ k. (first_of (key_rules objects.now) ≡ None) × (key_of objects.now ≡ Some k))
        (λ e. first_of (key_rules objects.now) ≡ Some e) }
{
    match find_key(objects) {
        Some(key) => Ok(key),
        None => Err(errors::PARAMETER_NOT_SERVED),
    }
}

fn agree(objects: &[Object], kind: u8) -> bool
    ensures { result ≡ agree_on kind objects.now }
{
    are_of_type(objects, kind) && count_bounds(objects) <= 1 && count_minimised(objects) <= 1
}

/// The measure of the path, unless there is no one metric with at most one bound.
fn find_metric(objects: &[Object]) -> Option<Metric>
    ensures { result ≡ (if are_measures objects.now then Some (metric_of_type (asked_type (metrics_of objects.now))) else None) }
{
    let kind = metric_type(objects);
    match metric_of_type(kind) {
        Some(metric) if agree(objects, kind) => Some(metric),
        _ => None,
    }
}

fn excludes(objects: &[Object]) -> bool
    ensures { result ≡ can_exclude (xro_of objects.now) }
{
    for object in objects {
        if let Body::Xro(list) = &object.body {
            return list.len() <= EXCLUSIONS_MAX && find_unsupported(list.as_slice()).is_none();
        }
    }
    true
}

pub(crate) fn domain(hop: &Hop) -> Option<u16>
    ensures { result ≡ domain_in hop.now }
{
    match hop {
        Hop::AsNumber { number, .. } => Some(number.0),
        _ => None,
    }
}

fn names_domain(hop: &Hop) -> bool
    ensures { result ≡ is_domain hop.now }
{
    match hop {
        Hop::AsNumber { number, .. } => number.0 != 0,
        _ => false,
    }
}

fn name_domains(route: &[Hop]) -> bool
    ensures { result ≡ list_all is_domain route.now }
{
    route.iter().all(|hop| names_domain(hop))
}

fn names(route: &[Hop], number: u16) -> bool
    ensures { result ≡ among (domains route.now) number }
{
    route
        .iter()
        .filter_map(|hop| domain(hop))
        .any(|n| n == number)
}

fn names_twice(route: &[Hop]) -> bool
    ensures { result ≡ has_twice (domains route.now) }
{
    let mut rest = route;
    while let [hop, others @ ..] = rest {
        if let Some(number) = domain(hop) {
            if names(others, number) {
                return true;
            }
        }
        rest = others;
    }
    false
}

fn begins_at(route: &[Hop], own: u16) -> bool
    ensures { result ≡ begins_with own (domains route.now) }
{
    for hop in route {
        if let Some(number) = domain(hop) {
            return number == own;
        }
    }
    false
}

fn follows(objects: &[Object], own: As) -> bool
    ensures { result ≡ can_follow own.0 (iro_of objects.now) }
{
    for object in objects {
        if let Body::Iro(route) = &object.body {
            let route = route.as_slice();
            return route.len() <= SEQUENCE_MAX
                && name_domains(route)
                && !names_twice(route)
                && begins_at(route, own.0);
        }
    }
    true
}

/// The ends of the path that is asked for and what it is measured by, or the error.
pub(crate) fn find_ends(objects: &[Object], own: As) -> Result<((Addr, Addr), Metric), (u8, u8)>
    ensures { MatchResult result
        (λ found. (first_of (path_rules own.0 objects.now) ≡ None)
        × (end_points_of own.0 objects.now ≡ Some (found.0, true))
        × (found.1 ≡ metric_of_type (asked_type (metrics_of objects.now))))
        (λ e. first_of (path_rules own.0 objects.now) ≡ Some e) }
{
    match find_end_points(objects, own) {
        None => Err(errors::END_POINTS_MISSING),
        Some((_, false)) => Err(errors::P_CLEAR),
        Some((ends, true)) => match find_metric(objects) {
            Some(metric) if excludes(objects) && follows(objects, own) => Ok((ends, metric)),
            _ => Err(errors::PARAMETER_NOT_SERVED),
        },
    }
}

/// Whether the flag of path keys is set.
pub(crate) fn asks_for_key(rp: Option<((u32, u32), bool)>) -> bool
    ensures { result ≡ asks_key rp }
{
    match rp {
        None => false,
        Some(((flags, _), _)) => flags & flags::PATH_KEY != 0,
    }
}
