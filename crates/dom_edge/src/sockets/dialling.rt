//! How long a listener that dials waits before it tries again.
use std::time::{Duration, Instant};

// The shortest pause and the longest one, in seconds.
const SHORTEST: u64 = 1;

const LONGEST: u64 = 60;

// The pause before the next try: none before the first; a second behind a connection that stood, from when it is over; and twice as
// long behind each try that failed.
#[derive(Clone, Copy)]
pub(super) struct Pause {
    seconds: u64,
    // None before it is counted from
    since: Option<Instant>,
}

impl Pause {
    pub(super) fn none() -> Pause {
        Pause {
            seconds: 0,
            since: None,
        }
    }

    // The pause behind a connection that stood. It is counted from the next look.
    pub(super) fn behind_connection() -> Pause {
        Pause {
            seconds: SHORTEST,
            since: None,
        }
    }

    // The pause behind a try that failed by then.
    pub(super) fn behind_failure(self, now: Instant) -> Pause {
        Pause {
            seconds: self.seconds.saturating_mul(2).clamp(SHORTEST, LONGEST),
            since: Some(now),
        }
    }

    // The same pause, counted from now on where it was not counted yet.
    pub(super) fn begun(self, now: Instant) -> Pause {
        match self.since {
            Some(_) => self,
            None => Pause {
                seconds: self.seconds,
                since: Some(now),
            },
        }
    }

    // What is left of it.
    pub(super) fn left(&self, now: Instant) -> Duration {
        let whole = Duration::from_secs(self.seconds);
        match self.since {
            Some(since) => whole.saturating_sub(now.duration_since(since)),
            None => whole,
        }
    }
}
