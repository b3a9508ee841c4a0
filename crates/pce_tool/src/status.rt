//! How a run ended, with its number and its text.
ghost use Rattle.std.specs.Prelude.{◌≡◌};
ghost use Rattle.pce_tool.specs.Statuses.{number_of};

use crate::reading::Why;
use dom_base::Text;
use path_certificate::Place;
use plant_text::NetFault;
use std::fmt;

/// How a run ended. Each status has a number, which is the program's exit status, and a text.
#[derive(Drop)]
pub enum Status {
    /// The input was read to its end, and all was written.
    Ok,
    /// The words are no command.
    Usage,
    /// A file or the input could not be read.
    ReadFault,
    /// The output could not be written.
    WriteFault,
    /// A file of the run is refused: the first line that is at fault, from 1, and its fault.
    BadNetwork {
        file: Text,
        line: u32,
        fault: NetFault,
    },
    /// A file of a network that is checked is at fault.
    Faulty,
    /// This line of the input, from 1, is outside the form.
    BadLine(u32),
    NoMemory,
    /// The input is no request that the command answers.
    BadRequest(Why),
    /// The certificate does not hold: the first condition that is false.
    Refuted(Place),
    /// A file, by its name, or the `input` or a line of it has more bytes than its limit.
    TooLarge(Text),
}

impl Status {
    /// The exit status.
    pub fn number(&self) -> u8
        ensures { result ≡ number_of self.now }
    {
        match self {
            Status::Ok => 0,
            Status::Usage => 1,
            Status::ReadFault => 2,
            Status::WriteFault => 3,
            Status::BadNetwork { .. } | Status::Faulty => 4,
            Status::BadLine(_) => 5,
            Status::NoMemory => 6,
            Status::BadRequest(_) => 7,
            Status::Refuted(_) => 8,
            Status::TooLarge(_) => 9,
        }
    }
}

impl fmt::Display for Status {
    fn fmt<W: fmt::Write>(&self, f: &mut fmt::Formatter<W>) -> fmt::Result {
        match self {
            Status::Ok => write!(f, "ok"),
            Status::Usage => write!(f, "usage"),
            Status::ReadFault => write!(f, "read fault"),
            Status::WriteFault => write!(f, "write fault"),
            Status::BadNetwork { file, line, fault } => {
                write!(f, "bad network {} {line} {fault}", file.as_str())
            }
            Status::Faulty => write!(f, "faults found"),
            Status::BadLine(line) => write!(f, "bad line {line}"),
            Status::NoMemory => write!(f, "no memory"),
            Status::BadRequest(why) => write!(f, "bad request {why}"),
            Status::Refuted(place) => write!(f, "refuted {place}"),
            Status::TooLarge(name) => write!(f, "too large {}", name.as_str()),
        }
    }
}
