//! A counter under two threads.
ghost use Rattle.std.specs.Prelude.{◌≡◌, ◌⊎◌, [], ◌∷◌, IfSome};
ghost use Rattle.plant_lock.specs.declared.counter.Change.TheVariants.{Add};
ghost use Rattle.plant_lock.specs.Seats.{IsAt, SameStart, own_entries, places_of, seen_by, shares_of};

use plant_lock::counter::{Change, Counter};
use plant_lock::{SplitError, TurnSeat, Turnstile};
use std::alloc::Global;
use std::sync::Wait;
use std::test::Fail;
use std::thread::{Threads, join};
use std::time::Clock;

type Added = (TurnSeat<Counter>, u64, u64);

// Adds once, with a new seat, and answers the place and the sum.
fn add<R: Wait + Clock>(
    rt: &R,
    stile: &Turnstile<Counter>,
    mut seat: TurnSeat<Counter>,
    n: u64,
) -> Option<Added>
    requires here { IsAt stile.now seat }
    requires fresh { (seen_by seat ≡ []) × (places_of seat ≡ []) }
    ensures here { IfSome result (λ r. IsAt stile.now r.0 × SameStart seat r.0 × (shares_of r.0 ≡ shares_of seat)) }
    ensures own { IfSome result (λ r. (places_of r.0 ≡ r.1 ∷ []) × (own_entries r.0 ≡ (Add n, r.2) ∷ [])) }
{
    let Ok((place, sum)) = stile.turn(rt, &mut seat, Change::Add(n)) else {
        return None;
    };
    Some((seat, place, sum))
}

// The place and the answer of each of two threads that add 2 and 3 to a counter at 0, and the sum
// that is left.
fn two_adds<R: Threads + Wait + Clock + Sync>(
    rt: &R,
    alloc: Global,
) -> Option<((u64, u64), (u64, u64), u64)>
    ensures answers { IfSome result (λ r. ((r.0.0 ≡ 0) × (r.0.1 ≡ 2) × (r.1.0 ≡ 1) × (r.1.1 ≡ 5)) ⊎ ((r.0.0 ≡ 1) × (r.0.1 ≡ 5) × (r.1.0 ≡ 0) × (r.1.1 ≡ 3))) }
    ensures sum { IfSome result (λ r. r.2 ≡ 5) }
{
    let Ok((stile, mut seat)) = Turnstile::open(alloc, Counter::new(), 2) else {
        return None;
    };
    let Ok(other) = stile.split(&mut seat) else {
        return None;
    };
    let shared = &stile;
    let (one, two) = join(
        rt,
        || -> Option<Added>
            requires { IsAt shared.now seat × (seen_by seat ≡ []) × (places_of seat ≡ []) }
            ensures { IfSome result (λ r. IsAt shared.entry.now r.0 × SameStart seat r.0 × (shares_of r.0 ≡ shares_of seat) × (places_of r.0 ≡ r.1 ∷ []) × (own_entries r.0 ≡ (Add 2, r.2) ∷ [])) }
        { add(rt, shared, seat, 2) },
        || -> Option<Added>
            requires { IsAt shared.now other × (seen_by other ≡ []) × (places_of other ≡ []) }
            ensures { IfSome result (λ r. IsAt shared.entry.now r.0 × SameStart other r.0 × (shares_of r.0 ≡ shares_of other) × (places_of r.0 ≡ r.1 ∷ []) × (own_entries r.0 ≡ (Add 3, r.2) ∷ [])) }
        { add(rt, shared, other, 3) },
    );
    let (mut seat, p, a) = one?;
    let (other, q, b) = two?;
    stile.join(&mut seat, other);
    let counter = stile.close(seat);
    Some(((p, a), (q, b), counter.sum()))
}

#[test]
fn two_threads_take_turns(rt: HostRuntime) -> Result<(), Fail> {
    let (one, two, sum) = two_adds(&rt, rt.alloc()).ok_or("an answer")?;
    assert!(rt; one == (0, 2) && two == (1, 5) || one == (1, 5) && two == (0, 3));
    assert_eq!(rt; sum, 5);
    Ok(())
}

// What a counter at 0 is read as by one of two seats, once each added and they are joined; a seat with one share is not
// split.
#[test]
fn a_joined_seat_reads_what_both_did(rt: HostRuntime) -> Result<(), Fail> {
    let (stile, mut seat) = Turnstile::open(rt.alloc(), Counter::new(), 2)?;
    let mut other = stile.split(&mut seat)?;
    assert!(rt; matches!(stile.split(&mut seat), Err(SplitError::NoSeat)));
    let first = stile.turn(&rt, &mut other, Change::Add(3))?;
    let second = stile.turn(&rt, &mut seat, Change::Add(2))?;
    stile.join(&mut seat, other);
    let read = stile.turn(&rt, &mut seat, Change::Read)?;
    assert_eq!(rt; [first, second, read], [(0, 3), (1, 5), (2, 5)]);
    Ok(())
}
