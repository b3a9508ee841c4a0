//! What the rows of an ask show. The laws are the contracts of calls that do nothing.
ghost use Rattle.border_costs.specs.Composing.{RowsCompose, RowsEnd, RowsReport, TableTellsPairs};
ghost use Rattle.border_costs.specs.OneAnswer.{OneAnswer};

/// A law: over right rows of the next domain, the rows of a domain tell the least costs of the whole
/// list of domains, and an entry has no row exactly where there is no walk (RFC 5441, section 4.2).
/// Where the last domain has rows that were told from beyond it, walks end over one of those.
pub fn rows_compose()
    ensures border { RowsCompose }
    ensures last { RowsEnd }
    ensures told { RowsReport }
{}

/// A law: the join of a border table with what lies beyond is the pair of each entry, so a border
/// table tells all that the rows of an ask say of costs and exits.
pub fn table_tells_pairs()
    ensures { TableTellsPairs }
{}

/// A law: an ask has one answer over a topology. So a search that ends early finds what one finds
/// that gives each node its label.
pub fn one_answer()
    ensures { OneAnswer }
{}
