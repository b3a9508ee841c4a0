//! What a path is, and which one is least: the terms and the laws that the searches, the checker and
//! the border tables share. The laws are the contracts of calls that do nothing.
#![tactic(auto)]

ghost use Rattle.walk_laws.specs.Least.{CertificateIsLeast, LeastIsCertified, PathIsWalk, SegmentLeads};
ghost use Rattle.walk_laws.specs.Composition.{WalksJoin, WalksSplit, LabelIsJoin, LabelIsJoinAt, JoinComposes, JoinEnds, JoinReports};
ghost use Rattle.walk_laws.specs.Segments.{SegmentIsWalk, OneSegment, ShownComposes, ShownEnds, ShownReports};
ghost use Rattle.walk_laws.specs.TableJoins.{OneTableJoin, OneTableEnd};
ghost use Rattle.walk_laws.specs.Capped.{LabelUnderLowerCap, NoLabelUnderLowerCap, SegmentUnderLowerCap};

/// A law: where the conditions of a certificate hold, each label is the least over all walks.
pub fn certificate_is_least()
    ensures { CertificateIsLeast }
{}

/// A law: the least labels meet the conditions of a certificate.
pub fn least_is_certified()
    ensures { LeastIsCertified }
{}

/// A law: the path of a certificate is an admitted walk of the source's label.
pub fn path_is_walk()
    ensures { PathIsWalk }
{}

/// A law: the chosen segment is such a path.
pub fn segment_leads()
    ensures { SegmentLeads }
{}

/// A law: walks inside a domain that meet join to one, whose cost is the sum.
pub fn walks_join()
    ensures { WalksJoin }
{}

/// A law: a walk inside a domain splits behind any of its links.
pub fn walks_split()
    ensures { WalksSplit }
{}

/// A law: the labels of a search from all exits at once are the join of the border table.
pub fn label_is_join()
    ensures { LabelIsJoin }
{}

/// A law: in the last domain, the labels of a search from the destination are the join.
pub fn label_is_join_at()
    ensures { LabelIsJoinAt }
{}

/// The law of composition: where the rows beyond the border are the least costs of the rest, the
/// join is the least cost of the whole list of domains, and absent exactly where no walk is
/// feasible (RFC 5441, section 4.2).
pub fn join_composes()
    ensures { JoinComposes }
{}

/// The law of composition in the last domain.
pub fn join_ends()
    ensures { JoinEnds }
{}

/// The law of composition in a last domain with rows from beyond it: over any rows that
/// were told of the domain beyond, the join is the least cost of a walk that ends over one of them.
pub fn join_reports()
    ensures { JoinReports }
{}

/// A law: the chosen segment is a walk of its label.
pub fn segment_is_walk()
    ensures { SegmentIsWalk }
{}

/// A law: where no two links have one far address, a label has one chosen segment; so one text shows
/// it.
pub fn one_segment()
    ensures { OneSegment }
{}

/// A law: what the elements of a chain show, one behind the other (a chosen segment, the out link of
/// its exit, what is shown beyond), is a least walk through the domains.
pub fn shown_composes()
    ensures { ShownComposes }
{}

/// A law: in the last domain the chosen segment alone is a least walk.
pub fn shown_ends()
    ensures { ShownEnds }
{}

/// A law: where rows were told of the domain beyond the last, the chosen segment, the out link of its
/// exit and the least row of that link's head are a least walk.
pub fn shown_reports()
    ensures { ShownReports }
{}

/// A law: a border table has one join, at its border and in the last domain.
pub fn one_table_join()
    ensures join { OneTableJoin }
    ensures last { OneTableEnd }
{}

/// A law: under a lower cap a node has the label that it had where that is within the cap, and else
/// none.
pub fn label_under_lower_cap()
    ensures same { LabelUnderLowerCap }
    ensures none { NoLabelUnderLowerCap }
{}

/// A law: the chosen segment of a label under a lower cap is that under the cap.
pub fn segment_under_lower_cap()
    ensures { SegmentUnderLowerCap }
{}
