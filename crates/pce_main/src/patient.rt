//! The standard input and output of a server, where a call that would wait does wait.
use std::io::{self, ErrorKind, Read, Write};
use std::thread;
use std::time::{Clock, Duration};

// How long it sleeps between two tries, in milliseconds.
const PAUSE_MILLIS: u64 = 50;

// How often a write is tried: for a minute.
const WRITES: u32 = 1_200;

// Whether a call would have waited, or a signal cut it short.
fn is_quiet(error: &io::Error) -> bool {
    matches!(error.kind(), ErrorKind::WouldBlock | ErrorKind::Interrupted)
}

/// A reader or a writer that others may have set not to wait. A read tries again until something came, and a write for a minute.
#[derive(Drop)]
pub struct Patient<T, R> {
    inner: T,
    rt: R,
}

impl<T, R: Clock> Patient<T, R> {
    pub(crate) fn new(rt: R, inner: T) -> Self {
        Patient { inner, rt }
    }

    fn pause(&self) {
        thread::sleep(&self.rt, Duration::from_millis(PAUSE_MILLIS));
    }
}

impl<T: Read, R: Clock> Read for Patient<T, R> {
    fn read(&mut self, into: &mut [u8]) -> io::Result<usize> {
        for _try in 0..u64::MAX {
            match self.inner.read(into) {
                Err(error) if is_quiet(&error) => self.pause(),
                other => return other,
            }
        }
        Err(io::Error::from(ErrorKind::WouldBlock))
    }
}

impl<T: Write, R: Clock> Write for Patient<T, R> {
    fn write(&mut self, piece: &[u8]) -> io::Result<usize> {
        for _try in 0..WRITES {
            match self.inner.write(piece) {
                Err(error) if is_quiet(&error) => self.pause(),
                other => return other,
            }
        }
        Err(io::Error::from(ErrorKind::WouldBlock))
    }

    fn flush(&mut self) -> io::Result<()> {
        self.inner.flush()
    }
}
