//! Whether the parts of two keys are the same.
ghost use Rattle.std.specs.Prelude.{◌≡◌};
ghost use Rattle.std.specs.Cmp.Lexicographic.{pointwise};
ghost use Rattle.cost_cache.specs.Keys.{same_metric, same_excluded, same_exclusion, same_numbers, same_query, same_target, same_down};

use border_costs::{Down, Target};
use dom_base::{Excluded, Exclusion, Metric, Query};

fn equal_metrics(a: Metric, b: Metric) -> bool
    ensures { result ≡ same_metric a b }
{
    matches!(
        (a, b),
        (Metric::Igp, Metric::Igp) | (Metric::Te, Metric::Te) | (Metric::Hops, Metric::Hops)
    )
}

fn equal_excluded(a: &Excluded, b: &Excluded) -> bool
    ensures { result ≡ same_excluded a.now b.now }
{
    match (a, b) {
        (
            Excluded::Prefix {
                addr,
                length,
                attribute,
            },
            Excluded::Prefix {
                addr: other_addr,
                length: other_length,
                attribute: other_attribute,
            },
        ) => addr == other_addr && length == other_length && attribute == other_attribute,
        (Excluded::AsNumber(number), Excluded::AsNumber(other)) => number == other,
        (Excluded::Srlg(number), Excluded::Srlg(other)) => number == other,
        (
            Excluded::Other { kind, body },
            Excluded::Other {
                kind: other_kind,
                body: other_body,
            },
        ) => kind == other_kind && body.as_slice() == other_body.as_slice(),
        _ => false,
    }
}

fn equal_exclusion(a: &Exclusion, b: &Exclusion) -> bool
    ensures { result ≡ same_exclusion a.now b.now }
{
    a.avoid == b.avoid && equal_excluded(&a.what, &b.what)
}

fn equal_exclusions(a: &[Exclusion], b: &[Exclusion]) -> bool
    ensures { result ≡ pointwise same_exclusion a.now b.now }
{
    match (a, b) {
        ([], []) => true,
        ([first, rest @ ..], [other, others @ ..]) => {
            equal_exclusion(first, other) && equal_exclusions(rest, others)
        }
        _ => false,
    }
}

fn equal_numbers(a: &Query, b: &Query) -> bool
    ensures { result ≡ same_numbers a.now b.now }
{
    a.own == b.own
        && a.cap == b.cap
        && a.bandwidth == b.bandwidth
        && a.exclude_any == b.exclude_any
        && a.include_any == b.include_any
        && a.include_all == b.include_all
}

pub(crate) fn equal_queries(a: &Query, b: &Query) -> bool
    ensures { result ≡ same_query a.now b.now }
{
    equal_numbers(a, b)
        && equal_metrics(a.metric, b.metric)
        && equal_exclusions(a.exclusions.as_slice(), b.exclusions.as_slice())
}

pub(crate) fn equal_targets(a: Target, b: Target) -> bool
    ensures { result ≡ same_target a b }
{
    match (a, b) {
        (Target::Node(node), Target::Node(other)) => node == other,
        (Target::Next(next), Target::Next(other)) => next == other,
        _ => false,
    }
}

pub(crate) fn equal_downs(a: &[Down], b: &[Down]) -> bool
    ensures { result ≡ pointwise same_down a.now b.now }
{
    a == b
}
