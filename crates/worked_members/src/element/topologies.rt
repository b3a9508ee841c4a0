//! Topologies of domain 2.
use crate::words::word;
use line_text::Words;
use std::test::Fail;

// Domain 2: two nodes, each an entry from domain 1, and each with a link to domain 3.
const D2: &[u8] = b"topology 2
node 10.2.0.1
node 10.2.0.2
out 10.2.0.1 10.3.0.1 10.23.0.1 10.23.0.2 3 1 1 1000 00000000
out 10.2.0.2 10.3.0.2 10.23.0.3 10.23.0.4 3 1 5 1000 00000000
entry 10.2.0.1 1
entry 10.2.0.2 1
";

// The same, with a weight of 50 in place of 5.
const D2B: &[u8] = b"topology 2
node 10.2.0.1
node 10.2.0.2
out 10.2.0.1 10.3.0.1 10.23.0.1 10.23.0.2 3 1 1 1000 00000000
out 10.2.0.2 10.3.0.2 10.23.0.3 10.23.0.4 3 1 50 1000 00000000
entry 10.2.0.1 1
entry 10.2.0.2 1
";

// The same, with an inner link from 10.2.0.1 to 10.2.0.2, and without links to domain 3.
const D2L: &[u8] = b"topology 2
node 10.2.0.1
node 10.2.0.2
link 10.2.0.1 10.2.0.2 10.22.0.1 10.22.0.2 1 7 1000 00000000
entry 10.2.0.1 1
entry 10.2.0.2 1
";

// No nodes.
const BARE: &[u8] = b"topology 2\n";

/// The topology of a name.
pub(crate) fn topology_text(words: &mut Words<'_>) -> Result<&'static [u8], Fail> {
    match word(words)? {
        b"d2" => Ok(D2),
        b"d2b" => Ok(D2B),
        b"d2l" => Ok(D2L),
        b"bare" => Ok(BARE),
        _ => Err(Fail::from("no topology")),
    }
}
