//! Topologies that are read, changed and written again.
ghost use Rattle.std.specs.Prelude.{◌≤◌, length};

use dom_base::{As, List};
use std::alloc::Global;
use std::test::Fail;
use te_deltas::{Change, apply, is_change_file, read_changes};
use te_generations::Generations;
use te_links::Topology;
use te_text::{read_topology, write_topology};

// A topology, changes to it, and the text of what they leave, one row behind the other. A tilde ends each part.
const ROWS: &[u8] = b"topology 1~~topology 1
~topology 0
~~topology 0
~topology 65535
~~topology 65535
~# a network\r\n\r\ntopology 007\r\nnode 10.0.0.02\nnode\t10.0.0.1\n \t
link 10.0.0.1 \t10.0.0.2 10.1.0.3 10.1.0.4 1 010 18446744073709551615 00FF00aB 7 0 4294967295
link 10.0.0.2 10.0.0.1 10.1.0.1 10.1.0.2 16777215 5 0 00000000
out 10.0.0.2 10.9.0.1 10.12.0.1 10.12.0.2 2 1 1 1000 ffffffff 1 2 3 4 5 6 7 8
entry 10.0.0.2 3
entry 10.0.0.1 65535
entry 10.0.0.1 3~~topology 7
node 10.0.0.1
node 10.0.0.2
link 10.0.0.2 10.0.0.1 10.1.0.1 10.1.0.2 16777215 5 0 00000000
link 10.0.0.1 10.0.0.2 10.1.0.3 10.1.0.4 1 10 18446744073709551615 00ff00ab 7 0 4294967295
out 10.0.0.2 10.9.0.1 10.12.0.1 10.12.0.2 2 1 1 1000 ffffffff 1 2 3 4 5 6 7 8
entry 10.0.0.1 3
entry 10.0.0.2 3
entry 10.0.0.1 65535
~topology 1
node ffff:FFFF:ffff:ffff:ffff:ffff:ffff:ffff
node 2001:DB8:0:0:0:0:a:1
node 2001:DB8:0:0:0:0:0:1
node 0001:0:0:0:0:0:0:00aB
node 0:0:0:0:0:0:0:0
node 10.0.255.001
~~topology 1
node 10.0.255.1
node 0000:0000:0000:0000:0000:0000:0000:0000
node 0001:0000:0000:0000:0000:0000:0000:00ab
node 2001:0db8:0000:0000:0000:0000:0000:0001
node 2001:0db8:0000:0000:0000:0000:000a:0001
node ffff:ffff:ffff:ffff:ffff:ffff:ffff:ffff
~topology 1
node 10.0.0.1
node 10.0.0.2
node 10.0.0.3
link 10.0.0.1 10.0.0.2 10.1.0.1 10.1.0.2 1 5 1000 00000000
link 10.0.0.2 10.0.0.3 10.1.0.3 10.1.0.4 1 10 1000 00000000
link 10.0.0.1 10.0.0.3 10.1.0.5 10.1.0.6 1 20 1000 00000000
~drop link 10.1.0.2
~topology 1
node 10.0.0.1
node 10.0.0.2
node 10.0.0.3
link 10.0.0.2 10.0.0.3 10.1.0.3 10.1.0.4 1 10 1000 00000000
link 10.0.0.1 10.0.0.3 10.1.0.5 10.1.0.6 1 20 1000 00000000
~topology 1
node 10.0.0.1
node 10.0.0.2
out 10.0.0.2 10.2.0.1 10.12.0.1 10.12.0.2 2 1 50 1000 00000000
entry 10.0.0.1 2
~drop entry 10.0.0.1 2\nadd entry 10.0.0.1 2\nadd node 10.0.0.9\ndrop node 10.0.0.9~topology 1
node 10.0.0.1
node 10.0.0.2
out 10.0.0.2 10.2.0.1 10.12.0.1 10.12.0.2 2 1 50 1000 00000000
entry 10.0.0.1 2
~topology 1
node 10.0.0.1
node 10.0.0.2
link 10.0.0.1 10.0.0.2 10.1.0.1 10.1.0.2 1 5 1000 00000000
out 10.0.0.2 10.2.0.1 10.12.0.1 10.12.0.2 2 1 50 1000 00000000
entry 10.0.0.1 2
~# all goes but a node
drop entry 10.0.0.1 2
drop out 10.12.0.2
drop link 10.1.0.2
drop node 10.0.0.2
add node 2001:db8:0:0:0:0:0:1
add link 10.0.0.1 2001:db8:0:0:0:0:0:1 10.1.0.3 10.1.0.2 1 7 1000 00000001 1 2 3 4 5 6 7 8
~topology 1
node 10.0.0.1
node 2001:0db8:0000:0000:0000:0000:0000:0001
link 10.0.0.1 2001:0db8:0000:0000:0000:0000:0000:0001 10.1.0.3 10.1.0.2 1 7 1000 00000001 1 2 3 4 5 6 7 8
~";

const COUNT: u32 = 8;

// The text before the next tilde, and the text behind it.
fn cut(text: &[u8]) -> Result<(&[u8], &[u8]), Fail> {
    match text.iter().position(|c| *c == b'~') {
        Some(place) => Ok((&text[..place], &text[place + 1..])),
        None => Err(Fail::from("a row lacks a part")),
    }
}

#[tactic(auto, using(line_text::proofs::Counts::lines_at_most))]
pub(crate) fn topology_of(alloc: Global, text: &[u8]) -> Result<Topology, Fail> {
    if text.len() > 65_536 {
        return Err(Fail::from("a long text"));
    }
    Ok(read_topology(alloc, text)?)
}

fn changes_of(alloc: Global, text: &[u8]) -> Result<List<Change>, Fail> {
    if !is_change_file(text) {
        return Err(Fail::from("a long text"));
    }
    Ok(read_changes(alloc, text)?)
}

// The topology of a text, with the changes of a text.
fn changed(alloc: Global, before: &[u8], changes: &[u8]) -> Result<Topology, Fail> {
    let topology = topology_of(alloc, before)?;
    let changes = changes_of(alloc, changes)?;
    Ok(apply(alloc, &topology, changes.as_slice())?)
}

// The text of that topology.
fn written(alloc: Global, before: &[u8], changes: &[u8]) -> Result<Vec<u8>, Fail> {
    let topology = changed(alloc, before, changes)?;
    Ok(write_topology(alloc, &topology)?.into_vec())
}

#[test]
fn topologies_are_changed_and_written(rt: HostRuntime) -> Result<(), Fail> {
    let mut rest = ROWS;
    for row in 0..COUNT {
        let (before, behind) = cut(rest)?;
        let (changes, behind) = cut(behind)?;
        let (after, behind) = cut(behind)?;
        let text = written(rt.alloc(), before, changes)?;
        assert_eq!(rt; text.as_slice(), after, "row {row}");
        rest = behind;
    }
    assert!(rt; rest.is_empty());
    Ok(())
}

// Any thread may take it.
pub(crate) fn goes_to_a_thread<T: Send>(_value: &T) {}

#[test]
fn generations_go_to_threads(rt: HostRuntime) -> Result<(), Fail> {
    goes_to_a_thread(&Generations::new(rt.alloc(), As(100))?);
    Ok(())
}
