//! The lines of an operator, each as it is read.
use dom_base::read_number;
use plant_text::{LineError, Network, OperatorLine, Subject, read_network, read_operator_line};
use std::alloc::Global;
use std::test::Fail;

// The settings of an element and two peers.
const SETTINGS: &[u8] = b"[[element]]
as = 1
id = \"192.0.2.1\"
[[peer]]
name = \"c1\"
as = 1
class = \"client\"
[[peer]]
name = \"c2\"
as = 1
class = \"client\"
";

// A line, what it asks for, and a number: of a domain, or of a peer from 1, where 0 is none of the settings; of a link
// both, with two digits of the second.
const ROWS: &[u8] = b"load 7 a|load|7
change 7 a|change|7
stop|stop|0
show|all|0
show 7|element|7
show c2|peer|2
show zz|peer|0
show 65536|peer|0
shut c1|shut|1
shut zz|shut|0
break 1 2|break|102
write 7 a|write|7
# stop|nothing|0
stop now|outside|0
show c1 c2|outside|0
shut|outside|0
break 1|outside|0
write 7|outside|0
open c1 1|outside|0
receive c1 00|outside|0";

fn place(peer: Option<u32>) -> u64 {
    match peer {
        Some(place) => u64::from(place).saturating_add(1),
        None => 0,
    }
}

fn shown(subject: Subject) -> (&'static [u8], u64) {
    match subject {
        Subject::All => (b"all", 0),
        Subject::Element(at) => (b"element", u64::from(at.0)),
        Subject::Peer(peer) => (b"peer", place(peer)),
    }
}

fn asked(line: OperatorLine) -> (&'static [u8], u64) {
    match line {
        OperatorLine::Load(at, _) => (b"load", u64::from(at.0)),
        OperatorLine::Change(at, _) => (b"change", u64::from(at.0)),
        OperatorLine::Stop => (b"stop", 0),
        OperatorLine::Show(subject) => shown(subject),
        OperatorLine::Shut(peer) => (b"shut", place(peer)),
        OperatorLine::Break(a, b) => (
            b"break",
            u64::from(a.0)
                .saturating_mul(100)
                .saturating_add(u64::from(b.0)),
        ),
        OperatorLine::Write(at, _) => (b"write", u64::from(at.0)),
    }
}

// The call has no clause, so that the loop does not carry its contract.
fn read(alloc: Global, line: &[u8], network: &Network) -> (&'static [u8], u64) {
    match read_operator_line(alloc, line, network) {
        Ok(Some(line)) => asked(line),
        Ok(None) => (b"nothing", 0),
        Err(LineError::Outside) => (b"outside", 0),
        Err(LineError::NoMemory) => (b"memory", 0),
    }
}

#[test]
fn each_line_is_read(rt: HostRuntime) -> Result<(), Fail> {
    let alloc = rt.alloc();
    let network = read_network(alloc, SETTINGS).ok().ok_or("settings")?;
    for row in ROWS.split(|c| *c == b'\n') {
        let mut parts = row.split(|c| *c == b'|');
        let line = parts.next().unwrap_or(b"");
        let kind = parts.next().unwrap_or(b"");
        let number = parts.next().and_then(|digits| read_number(digits, 999));
        let told = read(alloc, line, &network);
        assert_eq!(rt; (told.0, Some(told.1)), (kind, number));
    }
    Ok(())
}
