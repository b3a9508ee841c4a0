//! The tally of the answers to many requests, where they ask for no bandwidth and where they ask for some.
use plant_client::{Demand, play, tell_tally};
use std::alloc::Global;
use std::test::Fail;

fn free(alloc: Global) -> Result<Vec<u8>, Fail> {
    let tally = play(alloc, Demand::Zero, 100)?;
    Ok(tell_tally(alloc, 100, tally)?)
}

fn barred(alloc: Global) -> Result<Vec<u8>, Fail> {
    let tally = play(alloc, Demand::One, 2)?;
    Ok(tell_tally(alloc, 2, tally)?)
}

#[test]
fn answers_of_requests(rt: HostRuntime) -> Result<(), Fail> {
    let free = free(rt.alloc())?;
    assert_eq!(rt;
        free.as_slice(),
        b"bulk 100 paths 100 none 0 sum 2573582 max 31854\n".as_slice()
    );
    let barred = barred(rt.alloc())?;
    assert_eq!(rt;
        barred.as_slice(),
        b"bulk 2 paths 0 none 2 sum 0 max 0\n".as_slice()
    );
    Ok(())
}
