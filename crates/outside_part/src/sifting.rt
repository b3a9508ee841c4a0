//! A reply, sifted.
ghost use Rattle.std.specs.Prelude.{◌≡◌, IfOk, map};
ghost use Rattle.std.specs.BTreeMap.{values};
ghost use Rattle.dom_base.specs.Words.{units, word_of};
ghost use Rattle.outside_part.specs.Sifting.{path_by, sifted_answer, sifted};

use crate::reported::Reported;
use crate::rows::rows_of;
use dom_base::{Addr, List, NoMemory, word_of_cost};
use pcep_messages::{Answer, Path, Reply};
use std::alloc::Global;
use std::collections::BTreeMap;

fn path_by(row: Reported) -> Path
    ensures { result ≡ path_by word_of row }
{
    Path {
        hops: row.hops,
        metric: Some((row.kind, word_of_cost(row.cost))),
    }
}

fn paths_by(alloc: Global, rows: BTreeMap<(Addr, u8), Reported>) -> Result<List<Path>, NoMemory>
    ensures { IfOk result (λ paths. paths ≡ map (path_by word_of) (values rows)) }
{
    let mut paths = List::new(alloc);
    for row in rows.into_values() {
        paths.push(path_by(row))?;
    }
    Ok(paths)
}

fn sifted_answer(alloc: Global, answer: &Answer, most: usize) -> Result<Answer, NoMemory>
    ensures { IfOk result (λ sifted. sifted ≡ sifted_answer units word_of most answer.now) }
{
    match answer {
        Answer::Paths(told) => {
            let rows = rows_of(alloc, told.as_slice(), most)?;
            Ok(Answer::Paths(paths_by(alloc, rows)?))
        }
        Answer::NoPath { nature, vector } => Ok(Answer::NoPath {
            nature: (*nature).min(1),
            vector: *vector,
        }),
    }
}

/// What is kept of a reply of an outside element (RFC 5440, section 6.5), if its paths may have `most`
/// hops. A path is kept where it has 1 to `most` hops, the first is a prefix, and each is a strict hop
/// to one address (RFC 3209, section 4.3.3.1) or a strict path key (RFC 5520, section 3.1); where its
/// METRIC is of a type from 1 to 3 (RFC 5440, section 7.8); and where the word of it means a cost,
/// rounded up, of at most `COST_MAX`. Of the kept paths with one first address and type the first of
/// least cost stays. They stand in order of first address and then of type, and their words are those
/// of their whole costs. A NO-PATH of a nature above 1 (RFC 5440, section 7.5) is given back with
/// nature 1, any other as it is.
pub fn sift(alloc: Global, reply: &Reply, most: usize) -> Result<Reply, NoMemory>
    ensures { IfOk result (λ kept. kept ≡ sifted units word_of most reply.now) }
{
    let answer = sifted_answer(alloc, &reply.answer, most)?;
    Ok(Reply {
        flags: reply.flags,
        id: reply.id,
        answer,
    })
}
