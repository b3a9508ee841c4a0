//! The command `serve`: a network over the real files, ports, threads, input and output.
use crate::awake::AwakeClock;
use crate::errors::{Answers, StandardError};
use crate::patient::Patient;
use crate::ports::NamedPorts;
use dom_base::{NoMemory, Text};
use dom_edge::{FileFolder, FileStore, InputSource, OutputSink, SocketPorts, WallCalendar};
use network_serving::{Recording, Served, Spawner, ThreadSpawner, serve};
use plant_text::NetFault;
use std::env::{self, VarError};
use std::fmt;
use std::net::{IpAddr, Ipv6Addr};
use std::sync::Wait;
use std::thread::Threads;
use std::time::Clock;

/// How the command ended, with its number and its text.
#[derive(Drop)]
pub enum Ended {
    /// The words are no command's.
    Usage,
    /// What PCE_LISTEN has is no address.
    NoAddress(String),
    Served(Served),
}

impl Ended {
    /// The exit status.
    pub(crate) fn number(&self) -> u8 {
        match self {
            Ended::Usage | Ended::NoAddress(_) => 1,
            Ended::Served(Served::Turns | Served::Stopped) => 0,
            Ended::Served(Served::ReadFault) => 2,
            Ended::Served(Served::BadNetwork { .. }) => 4,
            Ended::Served(Served::NoMemory) => 6,
            Ended::Served(Served::TooLarge(_)) => 9,
            Ended::Served(Served::NoThread) => 10,
            Ended::Served(Served::NoPort(_)) => 11,
            Ended::Served(Served::NoRecord(_)) => 12,
        }
    }

    /// Whether it ended by a fault that `check` tells, too.
    pub(crate) fn is_checked(&self) -> bool {
        matches!(self, Ended::Served(Served::BadNetwork { .. }))
    }

    /// Whether it ended by a file that could not be read.
    pub(crate) fn is_unread(&self) -> bool {
        matches!(self, Ended::Served(Served::ReadFault))
    }
}

fn fmt_bad<W: fmt::Write>(
    f: &mut fmt::Formatter<W>,
    file: &Text,
    line: u32,
    fault: &NetFault,
) -> fmt::Result {
    write!(f, "bad network {} {line} {fault}", file.as_str())
}

impl fmt::Display for Ended {
    fn fmt<W: fmt::Write>(&self, f: &mut fmt::Formatter<W>) -> fmt::Result {
        match self {
            Ended::Usage => write!(f, "usage"),
            Ended::NoAddress(text) => write!(f, "PCE_LISTEN is no address: {text}"),
            Ended::Served(Served::Turns | Served::Stopped) => write!(f, "ok"),
            Ended::Served(Served::ReadFault) => write!(f, "read fault"),
            Ended::Served(Served::BadNetwork { file, line, fault }) => fmt_bad(
                f, file, *line, fault,
            ),
            Ended::Served(Served::NoMemory) => write!(f, "no memory"),
            Ended::Served(Served::TooLarge(name)) => write!(f, "too large {}", name.as_str()),
            Ended::Served(Served::NoThread) => write!(f, "no thread"),
            Ended::Served(Served::NoPort(port)) => write!(f, "no port {port}"),
            Ended::Served(Served::NoRecord(name)) => write!(f, "no record {}", name.as_str()),
        }
    }
}

// Where it listens without PCE_LISTEN: this machine alone can connect there.
const LOOPBACK: &str = "127.0.0.1";

// Where PCE_LISTEN says that it listens.
fn listen_text(rt: &HostRuntime) -> Result<String, Ended> {
    match env::var(rt, "PCE_LISTEN") {
        Ok(text) => Ok(text),
        Err(VarError::NotPresent) => match LOOPBACK.to_string(rt.alloc()) {
            Ok(text) => Ok(text),
            Err(_) => Err(Ended::Served(Served::NoMemory)),
        },
        Err(VarError::NotUnicode) => Err(Ended::NoAddress(String::new(rt.alloc()))),
        Err(VarError::OutOfMemory) => Err(Ended::Served(Served::NoMemory)),
    }
}

// The address of that text, and what it is called: `all` are all of the machine.
fn place_of(text: &str) -> Option<(IpAddr, &str)> {
    if text == "all" {
        return Some((IpAddr::V6(Ipv6Addr::UNSPECIFIED), "all addresses"));
    }
    match text.parse::<IpAddr>() {
        Ok(address) => Some((address, text)),
        Err(_) => None,
    }
}

// What the record tells of the program that wrote it.
const VERSION: &str = "pce 0.1.0";

// The record that is asked for, where one is.
type Asked = Option<Recording<FileFolder<HostRuntime>, WallCalendar<HostRuntime>, StandardError>>;

// A record in the folder of that path.
fn recording_in(rt: &HostRuntime, path: String) -> Result<Asked, NoMemory> {
    let alloc = rt.alloc();
    let place = Text::from_string(path);
    let folder = FileFolder::new(alloc, *rt, Text::copy_of(alloc, place.as_str())?);
    Ok(Some(Recording {
        folder,
        place,
        calendar: WallCalendar::new(*rt),
        version: Text::copy_of(alloc, VERSION)?,
        log: StandardError::new(*rt),
    }))
}

// The record that PCE_RECORD asks for: the name of its folder begins with `/`, since the folder of the settings is entered.
fn recording_of(rt: &HostRuntime) -> Result<Asked, Ended> {
    match env::var(rt, "PCE_RECORD") {
        Ok(path) if path.as_str().starts_with("/") => match recording_in(rt, path) {
            Ok(asked) => Ok(asked),
            Err(_) => Err(Ended::Served(Served::NoMemory)),
        },
        Ok(_) | Err(VarError::NotUnicode) => Err(Ended::Usage),
        Err(VarError::NotPresent) => Ok(None),
        Err(VarError::OutOfMemory) => Err(Ended::Served(Served::NoMemory)),
    }
}

/// Serves the network of these settings, whose files `store` reads, until a signal ends the process, or an operator's
/// line does. `threads` is the handle of what
/// waits and starts threads.
pub(crate) fn serve_network<R>(
    rt: &HostRuntime,
    threads: R,
    store: &mut FileStore<HostRuntime>,
    settings: &str,
) -> Ended
where
    R: Threads + Wait + Clock + Copy + Send + Drop + 'static,
{
    let text = match listen_text(rt) {
        Ok(text) => text,
        Err(ended) => return ended,
    };
    let Some((address, at)) = place_of(text.as_str()) else {
        return Ended::NoAddress(text);
    };
    let alloc = rt.alloc();
    let mut spawner: Spawner<R> = Spawner::Threads(ThreadSpawner::new(threads, alloc));
    let mut told = None;
    let mut recording = match recording_of(rt) {
        Ok(asked) => asked,
        Err(ended) => return ended,
    };
    Ended::Served(serve(
        threads,
        alloc,
        settings,
        store,
        &mut NamedPorts::new(*rt, SocketPorts::new(*rt, alloc, address)),
        &mut spawner,
        &mut AwakeClock::new(*rt),
        FileStore::new(alloc, *rt),
        InputSource::new(Patient::new(*rt, rt.reader())),
        Answers::new(*rt, OutputSink::new(Patient::new(*rt, rt.stdout()))),
        &mut StandardError::new(*rt),
        at,
        u64::MAX,
        &mut told,
        &mut recording,
    ))
}
