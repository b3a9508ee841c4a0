//! The border table of an ask: a row for each entry and each way out.
ghost use Rattle.std.specs.Prelude.{◌≡◌, ◌<◌, ◌↔◌, ◌++◌, length, All, Contains, IsTrue, OnOk, IfOk};
ghost use Rattle.std.specs.List.{filter_map};
ghost use Rattle.std.specs.Arc.{arc_value};
ghost use Rattle.border_costs.specs.Tables.{IsBorderTable};
ghost use Rattle.border_costs.specs.Ways.{AreColumns, row_at};

use crate::job::{Ask, Job};
use crate::ways::{Way, ways_of};
use dom_base::{Addr, BorderRow, List, NoMemory, stands};
use path_search::{Labels, search};
use std::alloc::Global;
use te_links::{Counted, Links};

/// A way out, with the labels of all nodes over it alone.
#[derive(Drop)]
pub struct Column {
    pub way: Way,
    pub labels: Labels,
}

// A search for each way out.
fn columns_of<'a, G: Links<'a>>(
    alloc: Global,
    ask: &Ask,
    links: &mut G,
) -> Result<Vec<Column>, NoMemory>
    ensures columns { IfOk result (λ columns. AreColumns (G.rows links.old) ask.now.query ask.now.target columns.items) }
    ensures same { G.rows links.new ≡ G.rows links.old }
{
    let ways = ways_of(alloc, ask, links)?;
    let mut columns = Vec::new(alloc);
    for way in &ways {
        let labels = search(alloc, links, &ask.query, &[way.seed])?;
        columns.push(Column { way: *way, labels })?;
    }
    Ok(columns)
}

// The row of a node over a way out, if it has a label there.
fn row_of(column: &Column, place: u32, entry: Addr) -> Option<BorderRow>
    requires { place < length column.now.labels }
    ensures { result ≡ row_at place entry column.now }
{
    let Some(label) = column.labels.at(place) else {
        return None;
    };
    Some(BorderRow {
        entry,
        far: column.way.seed.exit,
        head: column.way.head,
        cost: label.cost,
    })
}

// Puts the rows of a node behind the others, in the order of the ways out.
fn push_rows(
    columns: &[Column],
    place: u32,
    entry: Addr,
    rows: &mut Vec<BorderRow>,
) -> Result<(), NoMemory>
    requires { All (λ c. place < length c.labels) columns.now }
    ensures { OnOk result (rows.new.items ≡ rows.old.items ++ filter_map (row_at place entry) columns.now) }
{
    for column in columns {
        if let Some(row) = row_of(column, place, entry) {
            rows.push(row)?;
        }
    }
    Ok(())
}

// The rows of all nodes that are entries of the ask, in the order of the nodes.
fn rows_of<'a, G: Links<'a>>(
    alloc: Global,
    ask: &Ask,
    links: &G,
    columns: &[Column],
) -> Result<Vec<BorderRow>, NoMemory>
    requires { AreColumns (G.rows links.now) ask.now.query ask.now.target columns.now }
    ensures { IfOk result (λ rows. IsBorderTable (G.rows links.now) ask.now rows.items) }
{
    let mut rows = Vec::new(alloc);
    for place in 0..links.node_count() {
        let node = links.node_at(place);
        if stands(ask.entries.as_slice(), node) {
            push_rows(columns, place, node, &mut rows)?;
        }
    }
    Ok(rows)
}

/// The border table of a job: a row for each entry of the ask and each way out, with the least cost
/// of a path from the entry over it, where there is such a path within the cap (RFC 5441, section
/// 4.2). A way out is an admitted link to the next domain: `far` is its far address, `head` the node
/// beyond it, and the cost is that of a path inside the domain to the link's tail and the link's
/// weight. For a target in this domain the target is the one way out, and both addresses. The rows
/// stand in the order of their entries, and for one entry in that of their far addresses, each once,
/// whatever the order of the ask's entries. They do not depend on what the next domain told.
///
/// It searches once for each way out, so it serves to disclose a domain's costs and to compare
/// others with them; `solve` answers a request by one search.
pub fn border_table(alloc: Global, job: &Job) -> Result<List<BorderRow>, NoMemory>
    ensures { IfOk result (IsBorderTable (arc_value job.now.topology) job.now.ask) }
{
    let mut links = Counted::new(&job.topology);
    let columns = columns_of(alloc, &job.ask, &mut links)?;
    let rows = rows_of(alloc, &job.ask, &links, &columns)?;
    Ok(List::from_vec(rows))
}
