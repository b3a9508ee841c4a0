//! Jobs last: a request that can be solved stays as it is until it ends, in every step of a network. Laws, as the contracts of calls
//! that do nothing.
ghost use Rattle.plant_laws.specs.Lasting.{BlindBegins, BlindStepsLast, ElementsKeepJobs, KeysAreBefore, LastsOn, LastsStill, OrderGives, ParentsKeepJobs, RunsAreInOrder, RunsHaveKeysBefore, StepsLast};

/// In each step the numbers of requests stay in order, a number that was given is never given again, and a request
/// that can be solved stays as it is until it ends.
pub fn steps_last()
    ensures { StepsLast }
{}

/// In every run the numbers of requests are in order.
pub fn runs_are_in_order()
    ensures { RunsAreInOrder }
{}

/// What lasts in each of several steps lasts over all of them.
pub fn lasts_over_steps()
    ensures still { LastsStill }
    ensures on { LastsOn }
{}

/// Where jobs last, a request that can be solved is the same, with its topology and its branches, as long as there is one of its
/// number: so its job is.
pub fn jobs_are_kept()
    ensures given { OrderGives }
    ensures elements { ElementsKeepJobs }
    ensures parents { ParentsKeepJobs }
{}

/// No element has issued a key after the moment of the network: in each step this stays so, and in every run it is so.
pub fn keys_are_before()
    ensures steps { KeysAreBefore }
    ensures runs { RunsHaveKeysBefore }
{}

/// In each step of the blind plant the numbers of requests stay in order, jobs last, and no key is issued after its moment; in
/// its beginning it is so.
pub fn blind_steps_last()
    ensures steps { BlindStepsLast }
    ensures begins { BlindBegins }
{}
