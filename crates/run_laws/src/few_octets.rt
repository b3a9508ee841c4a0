//! A bound on the requests that a network without a parent sends: the octets that it is fed. Laws, as the contracts of calls that do nothing.
ghost use Rattle.run_laws.specs.Counting.{AskedAreFew, FewAreShort, OverFewOctets, TakenAreFed};
ghost use Rattle.plant_laws.specs.Answered.{RequestsAreAnsweredOnceIn};
ghost use Rattle.plant_laws.specs.Certified.{SolvesCertifyIn};
ghost use Rattle.plant_laws.specs.Chains.{OneChainIn, QuietIsAnsweredIn};
ghost use Rattle.plant_laws.specs.Headline.{LeastAnswersIn, NoneAnswersIn};
ghost use Rattle.plant_laws.specs.Keys.{ExpandsRightlyIn};
ghost use Rattle.plant_laws.specs.Replies.{LeastRepliesIn, NoneRepliesIn};
ghost use Rattle.plant_laws.specs.UnderWay.{WaitsAreUnderWayIn};

/// In every run no more messages are taken from outside peers than octets were fed.
pub fn taken_are_fed()
    ensures { TakenAreFed }
{}

/// Without a parent no element sends a neighbour more requests than messages were taken from outside.
pub fn asked_are_few()
    ensures { AskedAreFew }
{}

/// So where no more octets were fed than there are ids, no element sends a neighbour more requests than there
/// are ids, and the laws of runs in which none wraps around hold.
pub fn few_are_short()
    ensures { FewAreShort }
{}

/// So, over the wire of PCEP, with no premises except the rules of settings, that there is no parent, and that no more
/// octets were fed than there are ids: what clients and closed peers are answered, certificates, quiet, what is
/// under way, one answer and one chain for each request, and what a key shows to whom.
pub fn laws_of_few_octets()
    ensures paths { OverFewOctets LeastAnswersIn }
    ensures none { OverFewOctets NoneAnswersIn }
    ensures told { OverFewOctets LeastRepliesIn }
    ensures told_none { OverFewOctets NoneRepliesIn }
    ensures certified { OverFewOctets SolvesCertifyIn }
    ensures quiet { OverFewOctets QuietIsAnsweredIn }
    ensures under_way { OverFewOctets WaitsAreUnderWayIn }
    ensures once { OverFewOctets RequestsAreAnsweredOnceIn }
    ensures chain { OverFewOctets OneChainIn }
    ensures keys { OverFewOctets ExpandsRightlyIn }
{}
