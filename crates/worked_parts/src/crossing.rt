//! What goes to other threads: a network with all that it holds, what a turn at its lock hands in and out, and a desk and a bench there.
use plant_network::{Act, ActAnswer, Plant};
use std::sync::Wait;
use std::time::Clock;
use turn_desk::{TurnDesk, WorkBench};

fn goes_to_a_thread<T: Send>() {}

// A desk goes where its handle does.
fn desk_goes<R: Wait + Clock + Send>(_rt: &R) {
    goes_to_a_thread::<TurnDesk<R>>();
    goes_to_a_thread::<WorkBench<R>>();
}

#[test]
fn a_network_goes_to_threads(rt: HostRuntime) {
    goes_to_a_thread::<Plant>();
    goes_to_a_thread::<Act>();
    goes_to_a_thread::<ActAnswer>();
    desk_goes(&rt);
}
