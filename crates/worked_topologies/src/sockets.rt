//! What ends a wait at the sockets of the machine, who is told apart at a port, and whom a listener dials.
use dom_base::Addr;
use dom_edge::{Accepted, Bell, Got, Listener, Opened, Ports, Put, SocketPorts, Wire};
use std::io::{self, Read, Write};
use std::net::{IpAddr, Ipv4Addr, Net, OpenListener, SocketAddr, TcpListener, TcpStream};
use std::os::fd::{AsRawFd, RawFd};
use std::sync::atomic::AtomicU64;
use std::sync::atomic::Ordering::SeqCst;
use std::test::Fail;
use std::thread;
use std::time::{Clock, Duration, Instant};

const HERE: IpAddr = IpAddr::V4(Ipv4Addr::LOCALHOST);

// 127.0.0.1, 127.0.0.2 as an address of IPv6 that holds it, and 127.0.0.2 itself.
const FIRST: Addr = Addr::V4(0x7F00_0001);

const SECOND: Addr = Addr::V6(0xFFFF_7F00_0002);

const SECOND_ITSELF: Addr = Addr::V4(0x7F00_0002);

// The calls have no clause here, so that tests do not carry those of the traits.

fn accept<L: Listener>(listener: &mut L) -> Accepted<L::Link> {
    listener.accept()
}

fn listen_for<P: Ports>(ports: &mut P, port: u16, from: Option<Addr>) -> Opened<P::Port> {
    ports.listen_for(port, from)
}

fn dial<P: Ports>(ports: &mut P, to: Addr, port: u16) -> Opened<P::Port> {
    ports.dial(to, port)
}

fn put<W: Wire>(link: &mut W, piece: &[u8]) -> Put {
    if piece.is_empty() {
        return Put::Failed;
    }
    link.write(piece)
}

// The result of a read of two bytes, as a letter, or the first of the bytes that came.
fn get<W: Wire>(link: &mut W) -> u8 {
    let mut came = [0; 2];
    match link.read(&mut came) {
        Got::Bytes(_) => came[0],
        Got::Quiet => b'q',
        Got::End => b'e',
        Got::Failed => b'f',
    }
}

// The result of one more `accept`, as a letter: that of its connection's first read where there is one.
fn met<L: Listener>(listener: &mut L) -> u8 {
    match accept(listener) {
        Accepted::Link(mut link) => get(&mut link),
        Accepted::Quiet => b'q',
        Accepted::Failed => b'f',
    }
}

// A port that nobody listens at any more.
fn free_port(rt: HostRuntime) -> Result<u16, Fail> {
    let held = TcpListener::bind(&rt, (Ipv4Addr::LOCALHOST, 0))?;
    Ok(held.local_addr()?.port())
}

fn client(rt: HostRuntime, port: u16, says: &[u8]) -> Result<TcpStream, Fail> {
    let mut stream = TcpStream::connect(&rt, (Ipv4Addr::LOCALHOST, port))?;
    stream.write_all(says)?;
    Ok(stream)
}

// Writes, rings and goes, each once it was told to go on, and not at once.
fn disturb(rt: HostRuntime, mut client: TcpStream, bell: Bell) {
    let mut told = [0; 2];
    thread::sleep(&rt, Duration::from_millis(50));
    let _sent = client.write_all(b"ab");
    let _read = client.read_exact(&mut told);
    thread::sleep(&rt, Duration::from_millis(50));
    bell.ring();
    let _read = client.read_exact(&mut told);
    thread::sleep(&rt, Duration::from_millis(50));
}

#[test]
fn a_byte_a_bell_and_an_end_end_a_wait(rt: HostRuntime) -> Result<(), Fail> {
    let mut ports = SocketPorts::new(rt, rt.alloc(), HERE);
    let port = free_port(rt)?;
    let Opened::Port(mut listener) = listen_for(&mut ports, port, None) else {
        return Err(Fail::from("the port is free"));
    };
    let (Some(bell), Some(other)) = (listener.bell(), listener.bell()) else {
        return Err(Fail::from("no bell"));
    };
    let start = Instant::now(&rt)?;
    bell.ring();
    assert!(rt; matches!(accept(&mut listener), Accepted::Quiet));
    let stream = client(rt, port, b"")?;
    let Accepted::Link(mut link) = accept(&mut listener) else {
        return Err(Fail::from("nobody came"));
    };
    assert!(rt; link.came_from() == Some(FIRST));
    bell.ring();
    assert_eq!(rt; get(&mut link), b'q');
    let Ok(disturbs) = thread::spawn(&rt, move || disturb(rt, stream, other)) else {
        return Err(Fail::from("no thread"));
    };
    let byte = get(&mut link);
    let _told = put(&mut link, b"go");
    let rung = get(&mut link);
    let _told = put(&mut link, b"go");
    let end = get(&mut link);
    disturbs.join(&rt);
    assert_eq!(rt; &[byte, rung, end], b"aqe");
    assert!(rt; start.elapsed(&rt)? < Duration::from_secs(9));
    Ok(())
}

#[test]
fn a_dialled_port_that_opens_later_is_reached(rt: HostRuntime) -> Result<(), Fail> {
    let mut ports = SocketPorts::new(rt, rt.alloc(), HERE);
    let port = free_port(rt)?;
    let Opened::Port(mut listener) = dial(&mut ports, FIRST, port) else {
        return Err(Fail::from("nothing is asked for yet"));
    };
    let _bell = listener.bell();
    assert_eq!(rt; listener.port(), port);
    assert!(rt; matches!(accept(&mut listener), Accepted::Quiet));
    let there = TcpListener::bind(&rt, (Ipv4Addr::LOCALHOST, port))?;
    let Accepted::Link(mut link) = accept(&mut listener) else {
        return Err(Fail::from("not reached behind a pause"));
    };
    let (mut stream, _from) = there.accept()?;
    stream.write_all(b"ab")?;
    assert_eq!(rt; get(&mut link), b'a');
    assert!(rt; link.came_from() == Some(FIRST));
    Ok(())
}

// The machine, except that each connection that comes in at a port is told as one from an address of the test's: the first as one from
// 127.0.0.1, the second from 127.0.0.2, the third from 127.0.0.3, and so on in turn; and each reading of the clock is 100 seconds
// behind the one before it.
#[derive(Drop)]
struct Told {
    rt: HostRuntime,
    readings: AtomicU64,
}

#[derive(Drop)]
struct ToldListener {
    inner: TcpListener,
    came: AtomicU64,
}

impl Clock for Told {
    fn monotonic(&self) -> io::Result<Duration> {
        Ok(Duration::from_secs(self.readings.fetch_add(100, SeqCst)))
    }

    fn since_1970(&self) -> io::Result<Duration> {
        self.rt.since_1970()
    }

    fn sleep(&self, duration: Duration) {
        self.rt.sleep(duration)
    }
}

impl Net for Told {
    type Stream = TcpStream;

    type Listener = ToldListener;

    fn bind(&self, addr: SocketAddr) -> io::Result<ToldListener> {
        let inner = TcpListener::bind(&self.rt, addr)?;
        Ok(ToldListener {
            inner,
            came: AtomicU64::new(0),
        })
    }

    fn connect(&self, addr: SocketAddr) -> io::Result<TcpStream> {
        TcpStream::connect(&self.rt, addr)
    }
}

impl OpenListener for ToldListener {
    type Stream = TcpStream;

    fn accept(&self) -> io::Result<(TcpStream, SocketAddr)> {
        let (stream, from) = self.inner.accept()?;
        let last = (self.came.fetch_add(1, SeqCst) % 3) as u8 + 1;
        let told = IpAddr::V4(Ipv4Addr::new(127, 0, 0, last));
        Ok((stream, SocketAddr::new(told, from.port())))
    }

    fn set_nonblocking(&self, nonblocking: bool) -> io::Result<()> {
        self.inner.set_nonblocking(nonblocking)
    }
}

impl AsRawFd for ToldListener {
    fn as_raw_fd(&self) -> RawFd {
        self.inner.as_raw_fd()
    }
}

// Whether the other end closed it.
fn is_closed(stream: &mut TcpStream) -> bool {
    match stream.read(&mut [0; 2]) {
        Ok(count) => count == 0,
        Err(_) => true,
    }
}

#[test]
fn peers_at_one_port_are_told_apart(rt: HostRuntime) -> Result<(), Fail> {
    let told = Told {
        rt,
        readings: AtomicU64::new(0),
    };
    let mut ports = SocketPorts::new(&told, rt.alloc(), HERE);
    let port = free_port(rt)?;
    let Opened::Port(mut first) = listen_for(&mut ports, port, Some(FIRST)) else {
        return Err(Fail::from("the port is free"));
    };
    let Opened::Port(mut second) = listen_for(&mut ports, port, Some(SECOND)) else {
        return Err(Fail::from("the port is shared"));
    };
    for from in [Some(SECOND_ITSELF), None] {
        assert!(rt; matches!(listen_for(&mut ports, port, from), Opened::Failed));
    }
    let mut clients = Vec::new(rt.alloc());
    for says in [b"1a", b"2b", b"3c", b"4d", b"5e", b"6f"] {
        clients.push(client(rt, port, says)?)?;
    }
    assert_eq!(rt; met(&mut second), b'5');
    assert_eq!(rt; met(&mut first), b'4');
    for client in &mut clients {
        assert!(rt; is_closed(client));
    }
    Ok(())
}

#[test]
fn a_write_tells_what_was_taken_and_ends(rt: HostRuntime) -> Result<(), Fail> {
    let told = Told {
        rt,
        readings: AtomicU64::new(0),
    };
    let mut ports = SocketPorts::new(&told, rt.alloc(), HERE);
    let port = free_port(rt)?;
    let Opened::Port(mut listener) = listen_for(&mut ports, port, None) else {
        return Err(Fail::from("the port is free"));
    };
    let mut stream = client(rt, port, b"")?;
    let Accepted::Link(mut link) = accept(&mut listener) else {
        return Err(Fail::from("nobody came"));
    };
    let piece = vec![in rt.alloc(); 7u8; 60_000]?;
    let mut taken = 0usize;
    for _write in 0..10_000u32 {
        match put(&mut link, &piece) {
            Put::Bytes(count) => taken = taken.saturating_add(count),
            Put::Failed => break,
        }
    }
    drop(link);
    let mut came = Vec::new(rt.alloc());
    stream.read_to_end(&mut came)?;
    assert_eq!(rt; came.len(), taken);
    assert!(rt; taken % 60_000 != 0);
    Ok(())
}
