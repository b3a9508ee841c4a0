//! The pair of requests of one message.
ghost use Rattle.std.specs.Prelude.{◌≡◌, ◌↔◌, ◌++◌, IsTrue, Err, IfOk, IfErr, Some, None};
ghost use Rattle.std.specs.Int.{w32, to_be_bytes};
ghost use Rattle.std.specs.List.{list_any};
ghost use Rattle.pcep_messages.specs.Refusals.{refusal_of};
ghost use Rattle.pcep_messages.specs.Requests.{Asks};
ghost use Rattle.diverse_pairs.specs.Asking.{is_svec as is_joining, plain, AnswersPair, AnswersPlain, AreJoined, ArePaired, NamesTwo, StaysFree};

use crate::copying::{copy_plain, is_svec};
use crate::equal::is_same_wish;
use dom_base::{As, NoMemory};
use pcep_messages::{Asked, Refusal, Request, Wish, request_of};
use pcep_objects::{Body, Object};
use std::alloc::Global;

/// Two requests for one path each; the two paths are to share no link.
#[derive(Drop)]
pub struct Pair {
    pub first: Request,
    pub second: Request,
}

/// Why requests ask for no pair.
#[derive(Clone, Copy)]
pub enum PairError {
    /// One of the first two is answered with this type and value of PCEP-ERROR.
    Refused(u8, u8),
    /// They are not two for one path within any cost and within the domain, joined by one SVEC for
    /// link diversity alone.
    NotBuilt,
    NoMemory,
}

impl From<NoMemory> for PairError {
    ghost use Rattle.diverse_pairs.specs.declared.asking.PairError.TheVariants.{NoMemory};

    ghost from_gives = { λ _ e. e ≡ NoMemory };

    fn from(_: NoMemory) -> Self {
        PairError::NoMemory
    }
}

// What a request asks for without its SVECs.
fn plain_request(alloc: Global, asked: &Asked, own: As) -> Result<Request, PairError>
    ensures { AnswersPlain own.0 asked.now.objects result }
{
    let objects = copy_plain(alloc, asked.objects.as_slice())?;
    match request_of(alloc, &Asked { objects }, own) {
        Ok(request) => Ok(request),
        Err(Refusal::Wire { rp: _, kind, value }) => Err(PairError::Refused(kind, value)),
        Err(Refusal::NoMemory) => Err(PairError::NoMemory),
    }
}

fn has_svec(objects: &[Object]) -> bool
    ensures { result ≡ list_any is_joining objects.now }
{
    for object in objects {
        if is_svec(object) {
            return true;
        }
    }
    false
}

// Whether octets are two numbers.
fn is_numbers(octets: &[u8], first: u32, second: u32) -> bool
    ensures { IsTrue result ↔ (octets.now ≡ to_be_bytes w32 first ++ to_be_bytes w32 second) }
{
    let one = first.to_be_bytes();
    let other = second.to_be_bytes();
    match octets.strip_prefix(one.as_slice()) {
        Some(rest) => rest == other.as_slice(),
        None => false,
    }
}

// Whether a body has the flag for link diversity alone, and names two requests.
fn names_two(body: &Body, first: u32, second: u32) -> bool
    ensures { IsTrue result ↔ NamesTwo body.now first second }
{
    let Body::Unread(octets) = body else {
        return false;
    };
    match octets.as_slice() {
        [_reserved, 0, 0, 1, numbers @ ..] => is_numbers(numbers, first, second),
        _ => false,
    }
}

// Whether the one SVEC is the first object, and joins two requests.
fn are_joined(one: &[Object], other: &[Object], first: u32, second: u32) -> bool
    ensures { IsTrue result ↔ AreJoined one.now other.now first second }
{
    match one {
        [svec, rest @ ..] => {
            is_svec(svec)
                && !has_svec(rest)
                && !has_svec(other)
                && names_two(&svec.body, first, second)
        }
        [] => false,
    }
}

// Whether a path is asked for within any cost and within the domain.
fn stays_free(wish: &Wish) -> bool
    ensures { IsTrue result ↔ StaysFree wish.now }
{
    match wish {
        Wish::Path(wanted) => wanted.bound_word.is_none() && wanted.sequence.len() <= 1,
        Wish::Expand { .. } => false,
    }
}

fn are_paired(one: &[Object], other: &[Object], first: &Request, second: &Request) -> bool
    ensures { IsTrue result ↔ ArePaired one.now other.now first.now second.now }
{
    are_joined(one, other, first.id, second.id)
        && first.id != second.id
        && stays_free(&first.wish)
        && first.flags == second.flags
        && is_same_wish(&first.wish, &second.wish)
}

/// The pair that the requests of a message ask the element of the domain `own` for: two for one path
/// within any cost and within the domain, joined by an SVEC in front of them that asks for link
/// diversity alone. Otherwise the first refusal of the first request, then of the second, each without
/// its SVECs; where neither is refused, `NotBuilt`.
pub fn pair_of(alloc: Global, asked: &[Asked], own: As) -> Result<Pair, PairError>
    ensures { AnswersPair own.0 asked.now result }
{
    let Some(one) = asked.first() else {
        return Err(PairError::NotBuilt);
    };
    let first = plain_request(alloc, one, own)?;
    let Some(other) = asked.get(1) else {
        return Err(PairError::NotBuilt);
    };
    let second = plain_request(alloc, other, own)?;
    let joined = are_paired(
        one.objects.as_slice(),
        other.objects.as_slice(),
        &first,
        &second,
    );
    if joined && asked.len() == 2 {
        Ok(Pair { first, second })
    } else {
        Err(PairError::NotBuilt)
    }
}
