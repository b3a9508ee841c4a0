//! Laws of the model: it agrees with the contracts of its parts, the wire is a codec, heeding changes the answers of
//! replies alone, and routes lead out of the network.
ghost use Rattle.plant_model.specs.Heeding.{HeedingKeeps, HeededJoins};
ghost use Rattle.plant_model.specs.Jobs.{JoinsWhatWasTold};
ghost use Rattle.plant_model.specs.Meeting.{BranchMeets, CheckMeets, LimitMeets, LiveMeets};
ghost use Rattle.plant_model.specs.RealWire.{WireIsCodec};
ghost use Rattle.plant_model.specs.Onwards.{RoutesDiffer, RoutesLeave};
ghost use Rattle.plant_model.specs.Routes.{EachHasRoute, NoRoutes, RoutesGoOut};

/// The model's branches, refusals and live generations agree with the contracts of those parts, and the
/// constant of the parent's limit is the model's.
pub fn model_meets_parts()
    ensures branches { BranchMeets }
    ensures requests { CheckMeets }
    ensures generations { LiveMeets }
    ensures limit { LimitMeets }
{}

/// A way that is joined leads to a node that the next domain told.
pub fn joins_what_was_told()
    ensures { JoinsWhatWasTold }
{}

/// Heeding changes nothing in a message of an outside peer but the answers of its replies; each path that is heeded
/// can be joined to those of an element.
pub fn heeding_keeps()
    ensures replies { HeedingKeeps }
    ensures joins { HeededJoins }
{}

/// A route of an element leads to an outside peer of its own that paths may go on through, a neighbour in the
/// domain that it is asked for, and each such peer has one; where there is none, there is no route.
pub fn routes_go_out()
    ensures peers { RoutesGoOut }
    ensures each { EachHasRoute }
    ensures none { NoRoutes }
{}

/// By the rules of settings the routes of an element lead to different domains, and to none of an element.
pub fn routes_are_apart()
    ensures differ { RoutesDiffer }
    ensures leave { RoutesLeave }
{}

/// The functions of messages, frames, refusals and words are a codec, on whose laws those of
/// networks rest.
pub fn wire_is_codec()
    ensures { WireIsCodec }
{}
