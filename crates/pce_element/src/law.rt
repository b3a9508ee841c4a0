//! A request that can be solved keeps its job, as a law.
ghost use Rattle.pce_element.specs.Lasting.{LastsOn, LastsStill, LastsWithRequests};

/// Over any number of calls a request that can be solved keeps its job until it ends, and its number is
/// never given again: `make` and `down` say so of the requests, and all else leaves them as they are.
pub fn jobs_last()
    ensures requests { LastsWithRequests }
    ensures over { LastsOn }
    ensures still { LastsStill }
{}
