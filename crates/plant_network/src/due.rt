//! What is due in a network that goes on by itself, with topologies and without: the takes of an outside peer's inbox, and the
//! carrying of messages in the order of their pairs. Laws, as the contracts of calls that do nothing.
ghost use Rattle.disclosure.specs.Shown.{open_of};
ghost use Rattle.network_events.specs.plant_model.Blind.{Nothing, show_nothing};
ghost use Rattle.network_events.specs.plant_model.Plant.{Pin, Segment};
ghost use Rattle.plant_network.specs.DueLaws.{LeastIsCarried, RefusedTakesFindNothing, TakesLeaveLess};

/// A take that is accepted leaves less in the inbox.
pub fn takes_leave_less()
    ensures with_topologies { TakesLeaveLess Pin Segment open_of }
    ensures blind { TakesLeaveLess Nothing Nothing show_nothing }
{}

/// A take that is refused found nothing, and changes nothing.
pub fn refused_takes_find_nothing()
    ensures with_topologies { RefusedTakesFindNothing Pin Segment open_of }
    ensures blind { RefusedTakesFindNothing Nothing Nothing show_nothing }
{}

/// The message of the least pair can be carried.
pub fn least_is_carried()
    ensures with_topologies { LeastIsCarried Pin Segment open_of }
    ensures blind { LeastIsCarried Nothing Nothing show_nothing }
{}
