//! The numbers that keys get, up to the limit and round the last number, and how long keys live.
ghost use Rattle.std.specs.Prelude.{◌≤◌};

use dom_base::Tick;
use path_keys::{KeyError, PathKeys, is_life};
use std::test::Fail;

// Issues so many keys at a tick, each for its place among them, and answers the number of the last.
fn issue_all(keys: &mut PathKeys<u16>, now: Tick, count: u16) -> Option<u16>
    requires { keys.old.kept.clock ≤ now.0 }
    ensures { keys.new.kept.clock ≤ now.0 }
{
    let mut last = None;
    for i in 0..count {
        last = keys.issue(now, i).ok();
    }
    last
}

// What the key of a number stands for at a tick.
fn found(keys: &PathKeys<u16>, now: u64, key: u16) -> Option<u16> {
    keys.expand(Tick(now), key).copied()
}

// Whether no key more is issued at the first tick.
fn is_full(keys: &mut PathKeys<u16>) -> bool
    requires { keys.old.kept.clock ≤ 0 }
    ensures { keys.new.kept.clock ≤ 0 }
{
    keys.issue(Tick(0), 7) == Err(KeyError::KeysFull)
}

// Issues as many as may be live seven times more, and answers the number of the last.
fn go_round(keys: &mut PathKeys<u16>) -> Option<u16>
    requires { keys.old.kept.clock ≤ 600 }
    ensures { keys.new.kept.clock ≤ 4200 }
{
    let _second = issue_all(keys, Tick(600), 8_192);
    let _third = issue_all(keys, Tick(1_200), 8_192);
    let _fourth = issue_all(keys, Tick(1_800), 8_192);
    let _fifth = issue_all(keys, Tick(2_400), 8_192);
    let _sixth = issue_all(keys, Tick(3_000), 8_192);
    let _seventh = issue_all(keys, Tick(3_600), 8_192);
    issue_all(keys, Tick(4_200), 8_192)
}

// How many keys more there is room for once all have expired.
fn free_at_last(keys: &mut PathKeys<u16>) -> u32
    requires { keys.old.kept.clock ≤ 4800 }
{
    keys.expire(Tick(4_800));
    keys.free(Tick(4_800))
}

#[test]
fn numbers_go_round_and_keys_expire(rt: HostRuntime) -> Result<(), Fail> {
    let mut keys: PathKeys<u16> = PathKeys::new(rt.alloc(), 600)?;
    assert_eq!(rt; issue_all(&mut keys, Tick(0), 8_192), Some(8_192));
    assert!(rt; is_full(&mut keys));
    let seen = [
        found(&keys, 0, 0),
        found(&keys, 0, 8_193),
        found(&keys, 599, 8_192),
        found(&keys, 600, 8_192),
    ];
    assert_eq!(rt; seen, [None, None, Some(8_191), None]);
    assert_eq!(rt; go_round(&mut keys), Some(1));
    let seen = [
        found(&keys, 4_799, 65_535),
        found(&keys, 4_799, 1),
        found(&keys, 4_800, 1),
    ];
    assert_eq!(rt; seen, [Some(8_190), Some(8_191), None]);
    assert_eq!(rt; free_at_last(&mut keys), 8_192);
    assert!(rt; is_life(3_600) && !is_life(3_601) && !is_life(0));
    Ok(())
}
