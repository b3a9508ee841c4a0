//! What is told of the files of a network.
use dom_base::{Bytes, List, Text};
use dom_edge::MemoryStore;
use network_check::{Report, check};
use std::alloc::Global;
use std::test::Fail;

// The second element has the id of the first, a link joins one of them to nobody, and a row has a key too many.
const FAULTY: &[u8] = b"[[element]]
as = 1
id = \"192.0.2.1\"
[[element]]
as = 2
id = \"192.0.2.1\"
colour = 1
[[link]]
a = 1
b = 3
";

// Sound settings of one element.
const SOUND: &[u8] = b"[[element]]
as = 1
id = \"192.0.2.1\"
topology = \"one.txt\"
[[peer]]
name = \"r1\"
as = 1
class = \"client\"
[[peer]]
name = \"r2\"
as = 1
class = \"client\"
";

const TOPOLOGY: &[u8] = b"topology 1
node 10.1.0.1
node 10.1.0.1
entry 10.1.0.2 2
";

fn bytes(alloc: Global, text: &[u8]) -> Result<Bytes, Fail> {
    Ok(List::from_vec(text.to_vec(alloc)?))
}

// What is told of these settings, which may name the topology.
fn report(alloc: Global, settings: &[u8]) -> Result<Report, Fail> {
    let net = (Text::copy_of(alloc, "net.toml")?, bytes(alloc, settings)?);
    let one = (Text::copy_of(alloc, "one.txt")?, bytes(alloc, TOPOLOGY)?);
    let files = List::from_vec(vec![in alloc; net, one]?);
    let mut store = MemoryStore::new(alloc, files, List::new(alloc));
    Ok(check(alloc, &mut store, "net.toml")?)
}

#[test]
fn each_fault_of_settings_is_told(rt: HostRuntime) -> Result<(), Fail> {
    let report = report(rt.alloc(), FAULTY)?;
    assert_eq!(rt;
        report.text.as_slice(),
        b"net.toml 4 shape element of domain 2
net.toml 7 element of domain 2: colour is no key there
net.toml 4 duplicate element of domain 2
net.toml 8 unknown link
"
            .as_slice()
    );
    assert!(rt; report.is_faulty);
    Ok(())
}

#[test]
fn each_fault_of_topologies_is_told(rt: HostRuntime) -> Result<(), Fail> {
    let report = report(rt.alloc(), SOUND)?;
    assert_eq!(rt;
        report.text.as_slice(),
        b"net.toml 9 warning serve refuses peer r2: port 4189 is that of r1
one.txt 3 duplicate node
one.txt 4 unknown node
"
            .as_slice()
    );
    assert!(rt; report.is_faulty);
    Ok(())
}
