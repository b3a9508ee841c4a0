//! What watchers read of what a publisher shows, in its thread and in threads beside it.
ghost use Rattle.std.specs.Prelude.{◌≡◌, []};
ghost use Rattle.ted_watch.specs.Watch.{published};

use dom_base::{As, NoMemory};
use std::sync::Wait;
use std::test::Fail;
use std::thread::{join, yield_now};
use ted_watch::{Publisher, Shown, Watcher, open_watch};

// A topology of three nodes and three links.
fn topology(at: u16, generation: u64) -> Shown
    ensures at { result.at.0 ≡ at }
    ensures generation { result.generation ≡ generation }
{
    Shown {
        at: As(at),
        generation,
        nodes: 3,
        links: 3,
    }
}

// A watcher that learnt what was shown, and one that was told nothing.
#[test]
fn what_is_shown_is_read(rt: HostRuntime) -> Result<(), Fail> {
    let (mut publisher, watchers) = open_watch(&rt, rt.alloc(), 2)?;
    let mut watchers = watchers.into_vec();
    let mut taught = watchers.pop().ok_or("a watcher")?;
    let mut untaught = watchers.pop().ok_or("another")?;
    assert_eq!(rt; publisher.last(As(1)), None);
    assert_eq!(rt; untaught.read(&rt, As(1)), None);
    publisher.show(topology(1, 1))?;
    assert_eq!(rt; publisher.last(As(1)), Some(1));
    assert_eq!(rt; publisher.last(As(2)), None);
    taught.learn(&publisher.tell());
    assert_eq!(rt; taught.read(&rt, As(1)), Some(topology(1, 1)));
    assert_eq!(rt; taught.read(&rt, As(2)), None);
    assert_eq!(rt; untaught.read(&rt, As(1)), Some(topology(1, 1)));
    assert_eq!(rt; untaught.read(&rt, As(2)), None);
    Ok(())
}

// Shows 1,000 generations of AS 1.
fn show_all<R: Wait + Drop>(publisher: &mut Publisher<R>) -> Result<(), NoMemory>
    requires { published publisher.old ≡ [] }
{
    for generation in 1..1001 {
        publisher.show(topology(1, generation))?;
    }
    Ok(())
}

// Reads AS 1 until its generation is 1,000, and says whether the generations never fell.
fn read_all<R: Wait>(rt: &R, mut watcher: Watcher) -> bool {
    let mut before = 0;
    let mut rises = true;
    for _ in rt.forever() {
        if let Some(shown) = watcher.read(rt, As(1)) {
            rises = rises && before <= shown.generation;
            before = shown.generation;
        }
        if before == 1000 {
            return rises;
        }
        yield_now();
    }
    unreachable!()
}

#[test]
fn two_threads_read_while_a_third_shows(rt: HostRuntime) -> Result<(), Fail> {
    let (mut publisher, watchers) = open_watch(&rt, rt.alloc(), 2)?;
    let mut watchers = watchers.into_vec();
    let one = watchers.pop().ok_or("a watcher")?;
    let two = watchers.pop().ok_or("another")?;
    let shared = &rt;
    let (shown, rise) = join(
        &rt,
        || -> Result<Publisher<&HostRuntime>, NoMemory>
            requires { published publisher ≡ [] }
        {
            show_all(&mut publisher)?;
            Ok(publisher)
        },
        || join(shared, || read_all(shared, one), || read_all(shared, two)),
    );
    assert_eq!(rt; rise, (true, true));
    assert_eq!(rt; shown?.last(As(1)), Some(1000));
    Ok(())
}
