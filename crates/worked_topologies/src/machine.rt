//! The clock and the sockets of the machine, and a stream that fails.
use dom_base::Tick;
use dom_edge::{
    Accepted, Clock, Got, Listener, Opened, Ports, Put, SocketLink, SocketPorts, WallClock, Wire,
};
use std::io::{self, ErrorKind, Read, Write};
use std::net::{IpAddr, Ipv4Addr, OpenStream, TcpListener, TcpStream};
use std::test::Fail;
use std::time::{Duration, Instant};

// The calls have no clause here, so that tests do not carry those of the traits.

fn now<C: Clock>(clock: &mut C) -> Tick {
    clock.now()
}

fn listen<P: Ports>(ports: &mut P, port: u16) -> Opened<P::Port> {
    ports.listen(port)
}

fn accept<L: Listener>(listener: &mut L) -> Accepted<L::Link> {
    listener.accept()
}

fn get<W: Wire>(link: &mut W, buffer: &mut [u8; 2]) -> Got {
    link.read(buffer)
}

fn put<W: Wire>(link: &mut W, text: &[u8; 2]) -> Put {
    link.write(text)
}

#[test]
fn the_clock_counts_seconds(rt: HostRuntime) {
    let mut clock = WallClock::new(rt);
    let first = now(&mut clock);
    let mut last = first;
    for _ in 0..110 {
        last = now(&mut clock);
    }
    assert!(rt; first < last, "the clock stood");
}

// Any thread may take it.
fn goes_to_a_thread<T: Send + 'static>(value: T) -> T {
    value
}

// A port that nobody listens at any more, and that could not be listened at while somebody did.
fn free_port<P: Ports>(rt: HostRuntime, ports: &mut P) -> Result<u16, Fail> {
    let held = TcpListener::bind(&rt, (Ipv4Addr::LOCALHOST, 0))?;
    let port = held.local_addr()?.port();
    match listen(ports, port) {
        Opened::Failed => Ok(port),
        Opened::Port(_) => Err(Fail::from("the port is in use")),
    }
}

// The next connection, where nobody waits to be taken before it is asked for.
fn meet<L: Listener>(rt: HostRuntime, listener: &mut L) -> Result<(L::Link, TcpStream), Fail> {
    if !matches!(accept(listener), Accepted::Quiet) {
        return Err(Fail::from("somebody came"));
    }
    let client = TcpStream::connect(&rt, (Ipv4Addr::LOCALHOST, listener.port()))?;
    match accept(listener) {
        Accepted::Link(link) => Ok((link, client)),
        _ => Err(Fail::from("nobody came")),
    }
}

// The result of a read, as a letter, or how many bytes came.
fn letter_of(got: Got) -> u8 {
    match got {
        Got::Bytes(2) => b'2',
        Got::Bytes(_) => b'b',
        Got::Quiet => b'q',
        Got::End => b'e',
        Got::Failed => b'f',
    }
}

// Bytes both ways, and then the end: what each read gave, how many bytes were written, and what came at either end.
fn talk<W: Wire>(link: &mut W, mut client: TcpStream) -> ([u8; 3], Put, [u8; 4]) {
    let mut came = [0; 2];
    let mut went = [0; 2];
    let quiet = letter_of(get(link, &mut came));
    let _sent = client.write_all(b"ab");
    let got = letter_of(get(link, &mut came));
    let put = put(link, b"cd");
    let _read = client.read_exact(&mut went);
    drop(client);
    let end = letter_of(get(link, &mut [0; 2]));
    ([quiet, got, end], put, [came[0], came[1], went[0], went[1]])
}

#[test]
fn sockets_carry_bytes_both_ways(rt: HostRuntime) -> Result<(), Fail> {
    let mut ports = SocketPorts::new(rt, rt.alloc(), IpAddr::V4(Ipv4Addr::LOCALHOST));
    let port = free_port(rt, &mut ports)?;
    let Opened::Port(listener) = listen(&mut ports, port) else {
        return Err(Fail::from("the port is free"));
    };
    let mut listener = goes_to_a_thread(listener);
    let start = Instant::now(&rt)?;
    let (mut link, client) = meet(rt, &mut listener)?;
    let (got, put, text) = talk(&mut link, client);
    assert!(rt; start.elapsed(&rt)? < Duration::from_secs(10));
    assert_eq!(rt; &got, b"q2e");
    assert_eq!(rt; put, Put::Bytes(2));
    assert_eq!(rt; &text, b"abcd");
    Ok(())
}

// A stream that answers each read and each write as its kind says; a read without a kind ends, and
// a write without one takes nothing.
#[derive(Drop)]
struct Broken {
    kind: Option<ErrorKind>,
}

impl Read for Broken {
    fn read(&mut self, _buffer: &mut [u8]) -> io::Result<usize> {
        match self.kind {
            Some(kind) => Err(io::Error::from(kind)),
            None => Ok(0),
        }
    }
}

impl Write for Broken {
    fn write(&mut self, _buffer: &[u8]) -> io::Result<usize> {
        match self.kind {
            Some(kind) => Err(io::Error::from(kind)),
            None => Ok(0),
        }
    }

    fn flush(&mut self) -> io::Result<()> {
        Ok(())
    }
}

impl OpenStream for Broken {}

// The results of a read and a write over a stream that is broken in that way.
fn answers(rt: HostRuntime, kind: Option<ErrorKind>) -> (Got, Put) {
    let mut link = SocketLink::new(rt, Broken { kind });
    (get(&mut link, &mut [0; 2]), put(&mut link, b"ab"))
}

#[test]
fn broken_streams_are_told_apart(rt: HostRuntime) {
    for (kind, wanted) in [
        (Some(ErrorKind::WouldBlock), Got::Quiet),
        (Some(ErrorKind::Interrupted), Got::Quiet),
        (Some(ErrorKind::ConnectionReset), Got::Failed),
        (None, Got::End),
    ] {
        assert_eq!(rt; answers(rt, kind), (wanted, Put::Failed));
    }
}
