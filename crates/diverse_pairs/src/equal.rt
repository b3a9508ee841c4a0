//! Whether two requests ask for the same.
ghost use Rattle.std.specs.Prelude.{◌≡◌, ◌↔◌, IsTrue};

use dom_base::{Addr, As, Excluded, Exclusion, Query};
use pcep_messages::{Wanted, Wish};

#[tactic(auto, using(dom_base::proofs::Ranks::same_addr))]
fn is_same_addr(one: Addr, other: Addr) -> bool
    ensures { IsTrue result ↔ (one ≡ other) }
{
    one == other
}

fn is_same_excluded(one: &Excluded, other: &Excluded) -> bool
    ensures { IsTrue result ↔ (one.now ≡ other.now) }
{
    match one {
        Excluded::Prefix {
            addr,
            length,
            attribute,
        } => match other {
            Excluded::Prefix {
                addr: a,
                length: l,
                attribute: t,
            } => {
                if !is_same_addr(*addr, *a) {
                    return false;
                }
                if length != l {
                    return false;
                }
                attribute == t
            }
            _ => false,
        },
        Excluded::AsNumber(number) => match other {
            Excluded::AsNumber(n) => number == n,
            _ => false,
        },
        Excluded::Srlg(number) => match other {
            Excluded::Srlg(n) => number == n,
            _ => false,
        },
        Excluded::Other { kind, body } => match other {
            Excluded::Other { kind: k, body: b } => kind == k && body.as_slice() == b.as_slice(),
            _ => false,
        },
    }
}

fn is_same_exclusion(one: &Exclusion, other: &Exclusion) -> bool
    ensures { IsTrue result ↔ (one.now ≡ other.now) }
{
    one.avoid == other.avoid && is_same_excluded(&one.what, &other.what)
}

fn are_same_exclusions(some: &[Exclusion], others: &[Exclusion]) -> bool
    ensures { IsTrue result ↔ (some.now ≡ others.now) }
{
    if some.len() != others.len() {
        return false;
    }
    for index in 0..some.len() {
        if !is_same_exclusion(&some[index], &others[index]) {
            return false;
        }
    }
    true
}

fn is_same_query(one: &Query, other: &Query) -> bool
    ensures { IsTrue result ↔ (one.now ≡ other.now) }
{
    one.own == other.own
        && one.metric == other.metric
        && one.cap == other.cap
        && one.bandwidth == other.bandwidth
        && one.exclude_any == other.exclude_any
        && one.include_any == other.include_any
        && one.include_all == other.include_all
        && are_same_exclusions(one.exclusions.as_slice(), other.exclusions.as_slice())
}

fn are_same_domains(some: &[As], others: &[As]) -> bool
    ensures { IsTrue result ↔ (some.now ≡ others.now) }
{
    if some.len() != others.len() {
        return false;
    }
    for index in 0..some.len() {
        if some[index].0 != others[index].0 {
            return false;
        }
    }
    true
}

fn are_same_words(one: &Wanted, other: &Wanted) -> bool
    ensures { IsTrue result ↔ ((one.now.bandwidth_word ≡ other.now.bandwidth_word) × (one.now.bound_word ≡ other.now.bound_word) × (one.now.masks ≡ other.now.masks)) }
{
    one.bandwidth_word == other.bandwidth_word
        && one.bound_word == other.bound_word
        && one.masks == other.masks
}

fn is_same_path(one: &Wanted, other: &Wanted) -> bool
    ensures { IsTrue result ↔ (one.now ≡ other.now) }
{
    if !is_same_addr(one.source, other.source) {
        return false;
    }
    if !is_same_addr(one.target, other.target) {
        return false;
    }
    if !are_same_words(one, other) {
        return false;
    }
    if !are_same_domains(one.sequence.as_slice(), other.sequence.as_slice()) {
        return false;
    }
    is_same_query(&one.query, &other.query)
}

/// Whether two wishes are for one path, or for what one key stands for.
pub(crate) fn is_same_wish(one: &Wish, other: &Wish) -> bool
    ensures { IsTrue result ↔ (one.now ≡ other.now) }
{
    match one {
        Wish::Path(path) => match other {
            Wish::Path(p) => is_same_path(path, p),
            Wish::Expand { .. } => false,
        },
        Wish::Expand { key, pce } => match other {
            Wish::Expand { key: k, pce: p } => {
                if key != k {
                    return false;
                }
                is_same_addr(*pce, *p)
            }
            Wish::Path(_) => false,
        },
    }
}
