//! The state of a session, and the rows of its table.
ghost use Rattle.std.specs.Prelude.{◌≡◌, ◌<◌, true};
ghost use Rattle.pcep_session.specs.Listed.{listed};

use crate::actions::{Action, Actions, Own, Reason, send_error};
use crate::reports::{first_error, first_opening};
use crate::session::Input;
use dom_base::Tick;
use pcep_codes::timers::{UNKNOWN_SPAN, WAIT};
use pcep_codes::{VERSION, errors, messages, reasons};
use pcep_messages::{ErrorReport, Message};
use pcep_objects::{Agreed, Offer, OpenBody, negotiate};

/// The states of RFC 5440, appendix A, after the connection is there.
#[derive(Clone, Copy)]
pub enum Phase {
    Idle,
    OpenWait,
    KeepWait,
    Up,
    Down,
}

/// When the last four messages of unknown types came.
#[derive(Clone, Copy)]
pub struct Unknown {
    pub oldest: Option<Tick>,
    pub older: Option<Tick>,
    pub newer: Option<Tick>,
    pub newest: Option<Tick>,
}

/// What one side knows of a session.
#[derive(Clone, Copy)]
pub struct State {
    /// What this side offers.
    pub offer: Offer,
    pub phase: Phase,
    /// Whether the offer was changed once, as the peer asked.
    pub retried: bool,
    /// The terms that hold for this side; their Keepalive is that of its last Open.
    pub agreed: Agreed,
    /// The last tick.
    pub clock: Tick,
    /// The tick of entering the phase.
    pub since: Tick,
    /// The tick of the peer's last message.
    pub heard: Tick,
    /// The tick of this side's last Open or Keepalive.
    pub sent: Tick,
    pub unknown: Unknown,
}

impl State {
    ghost use Rattle.pcep_session.specs.Reports.{first_error_of, first_opening_of};
    ghost use Rattle.pcep_session.specs.Quiet.{after_quiet, is_nothing, is_quiet};
    ghost use Rattle.pcep_session.specs.Table.{new_state, turn_of, turn_in, entered, fails, ends, closes, has_passed, open_wait, refused_terms, refused, keep_wait, unknown_type, stateful, in_up, up_tick, at_tick, waits};

    pub(crate) fn new(offer: Offer, now: Tick) -> State
        ensures { result ≡ new_state offer now }
    {
        State {
            offer,
            phase: Phase::Idle,
            retried: false,
            agreed: Agreed {
                keepalive: offer.keepalive,
                dead: 0,
                stateful: false,
            },
            clock: now,
            since: now,
            heard: now,
            sent: now,
            unknown: Unknown {
                oldest: None,
                older: None,
                newer: None,
                newest: None,
            },
        }
    }

    pub(crate) fn step(&mut self, input: Input) -> Actions
        ensures actions { listed result ≡ (turn_of self.old input).actions }
        ensures next { self.new ≡ (turn_of self.old input).next }
    {
        match self.phase {
            Phase::Idle => self.step_idle(input),
            Phase::OpenWait => self.step_open_wait(input),
            Phase::KeepWait => self.step_keep_wait(input),
            Phase::Up => self.step_up(input),
            Phase::Down => Actions::none(),
        }
    }

    fn enter(&mut self, phase: Phase)
        ensures { self.new ≡ entered self.old phase }
    {
        self.phase = phase;
        self.since = self.clock;
    }

    // Whether so many seconds have gone by since a moment.
    fn passed(&self, from: Tick, seconds: u64) -> bool
        requires { seconds < 256 }
        ensures { result ≡ has_passed self.now from seconds }
    {
        self.clock.0 >= from.0 && self.clock.0 - from.0 >= seconds
    }

    fn fail(&mut self, error: u8) -> Actions
        ensures actions { listed result ≡ (fails self.old error).actions }
        ensures next { self.new ≡ (fails self.old error).next }
    {
        self.enter(Phase::Down);
        Actions::two(
            Action::Send(Own::Error(errors::SESSION, error)),
            Action::Down(Reason::Opening(error)),
        )
    }

    fn end(&mut self, reason: Reason) -> Actions
        ensures actions { listed result ≡ (ends self.old reason).actions }
        ensures next { self.new ≡ (ends self.old reason).next }
    {
        self.enter(Phase::Down);
        Actions::one(Action::Down(reason))
    }

    fn close(&mut self, code: u8, reason: Reason) -> Actions
        ensures actions { listed result ≡ (closes self.old code reason).actions }
        ensures next { self.new ≡ (closes self.old code reason).next }
    {
        self.enter(Phase::Down);
        Actions::two(Action::Send(Own::Close(code)), Action::Down(reason))
    }

    fn advance(&mut self, tick: Tick)
        ensures { self.new ≡ at_tick self.old tick }
    {
        self.clock = Tick(self.clock.0.max(tick.0));
    }

    fn wait(&mut self, error: u8) -> Actions
        ensures actions { listed result ≡ (waits self.old error).actions }
        ensures next { self.new ≡ (waits self.old error).next }
    {
        if self.passed(self.since, WAIT) {
            self.fail(error)
        } else {
            Actions::none()
        }
    }

    fn step_idle(&mut self, input: Input) -> Actions
        ensures actions { listed result ≡ (turn_in Phase.Idle self.old input).actions }
        ensures next { self.new ≡ (turn_in Phase.Idle self.old input).next }
    {
        match input {
            Input::Begin => {
                self.enter(Phase::OpenWait);
                self.sent = self.clock;
                Actions::one(Action::Send(Own::Open(self.offer)))
            }
            Input::Tick(tick) => {
                self.advance(tick);
                Actions::none()
            }
            Input::Got(_) | Input::Bad => Actions::none(),
        }
    }

    fn step_open_wait(&mut self, input: Input) -> Actions
        ensures actions { listed result ≡ (turn_in Phase.OpenWait self.old input).actions }
        ensures next { self.new ≡ (turn_in Phase.OpenWait self.old input).next }
    {
        match input {
            Input::Begin => Actions::none(),
            Input::Got(message) => {
                self.heard = self.clock;
                self.got_in_open_wait(message)
            }
            Input::Bad => self.fail(errors::INVALID_OPEN),
            Input::Tick(tick) => {
                self.advance(tick);
                self.wait(errors::OPEN_WAIT_EXPIRED)
            }
        }
    }

    fn step_keep_wait(&mut self, input: Input) -> Actions
        ensures actions { listed result ≡ (turn_in Phase.KeepWait self.old input).actions }
        ensures next { self.new ≡ (turn_in Phase.KeepWait self.old input).next }
    {
        match input {
            Input::Begin => Actions::none(),
            Input::Got(message) => {
                self.heard = self.clock;
                self.got_in_keep_wait(message)
            }
            Input::Bad => self.fail(errors::INVALID_OPEN),
            Input::Tick(tick) => {
                self.advance(tick);
                self.wait(errors::KEEP_WAIT_EXPIRED)
            }
        }
    }

    fn step_up(&mut self, input: Input) -> Actions
        ensures actions { listed result ≡ (turn_in Phase.Up self.old input).actions }
        ensures next { self.new ≡ (turn_in Phase.Up self.old input).next }
    {
        match input {
            Input::Begin => Actions::none(),
            Input::Got(message) => {
                self.heard = self.clock;
                self.got_in_up(message)
            }
            Input::Bad => self.close(reasons::MALFORMED, Reason::Malformed),
            Input::Tick(tick) => {
                self.advance(tick);
                self.tick_in_up()
            }
        }
    }

    fn got_in_open_wait(&mut self, message: Message) -> Actions
        ensures actions { listed result ≡ (open_wait self.old message).actions }
        ensures next { self.new ≡ (open_wait self.old message).next }
    {
        match message {
            Message::Open(body) => self.opened(body),
            Message::Close(_) => self.end(Reason::Peer),
            _ => self.fail(errors::INVALID_OPEN),
        }
    }

    fn opened(&mut self, body: OpenBody) -> Actions
        ensures actions { listed result ≡ (open_wait self.old (Message.Open body)).actions }
        ensures next { self.new ≡ (open_wait self.old (Message.Open body)).next }
    {
        if body.version != VERSION {
            return self.fail(errors::OTHER_VERSION);
        }
        self.enter(Phase::KeepWait);
        self.agreed = negotiate(self.offer, body.offer);
        self.sent = self.clock;
        Actions::one(Action::Send(Own::Keepalive))
    }

    fn got_in_keep_wait(&mut self, message: Message) -> Actions
        ensures actions { listed result ≡ (keep_wait self.old message).actions }
        ensures next { self.new ≡ (keep_wait self.old message).next }
    {
        match message {
            Message::Keepalive => {
                self.enter(Phase::Up);
                Actions::one(Action::Up)
            }
            Message::PcErr(reports) => self.refused_by(reports.as_slice()),
            Message::Close(_) => self.end(Reason::Peer),
            _ => self.fail(errors::INVALID_OPEN),
        }
    }

    fn refused_by(&mut self, reports: &[ErrorReport]) -> Actions
        ensures actions { listed result ≡ (refused self.old (first_error_of reports.now) (first_opening_of reports.now)).actions }
        ensures next { self.new ≡ (refused self.old (first_error_of reports.now) (first_opening_of reports.now)).next }
    {
        match first_error(reports) {
            Some((errors::SESSION, errors::NEGOTIABLE)) => self.other_terms(first_opening(reports)),
            _ => self.end(Reason::Peer),
        }
    }

    fn other_terms(&mut self, opening: Option<OpenBody>) -> Actions
        ensures actions { listed result ≡ (refused_terms self.old opening).actions }
        ensures next { self.new ≡ (refused_terms self.old opening).next }
    {
        match opening {
            Some(body) if !self.retried => {
                self.offer.keepalive = body.offer.keepalive;
                self.offer.dead = body.offer.dead;
                self.agreed.keepalive = body.offer.keepalive;
                self.retried = true;
                self.since = self.clock;
                self.sent = self.clock;
                Actions::one(Action::Send(Own::Open(self.offer)))
            }
            _ => self.fail(errors::NOT_NEGOTIABLE),
        }
    }

    fn got_in_up(&mut self, message: Message) -> Actions
        ensures actions { listed result ≡ (in_up self.old message).actions }
        ensures next { self.new ≡ (in_up self.old message).next }
    {
        match message {
            Message::Keepalive => Actions::none(),
            Message::Open(_) => Actions::one(send_error(errors::SECOND_OPEN)),
            Message::Close(_) => self.end(Reason::Peer),
            Message::Other(messages::PCRPT) => self.stateful(errors::REPORT_NOT_OFFERED),
            Message::Other(messages::PCUPD) => self.stateful(errors::UPDATE_NOT_OFFERED),
            Message::Other(_) => self.unknown_type(),
            message => Actions::one(Action::Pass(message)),
        }
    }

    fn stateful(&mut self, error: (u8, u8)) -> Actions
        ensures actions { listed result ≡ (stateful self.old error).actions }
        ensures next { self.new ≡ (stateful self.old error).next }
    {
        self.enter(Phase::Down);
        Actions::three(
            send_error(error),
            Action::Send(Own::Close(reasons::UNEXPLAINED)),
            Action::Down(Reason::Stateful),
        )
    }

    fn unknown_type(&mut self) -> Actions
        ensures actions { listed result ≡ (unknown_type self.old).actions }
        ensures next { self.new ≡ (unknown_type self.old).next }
    {
        let recent = match self.unknown.oldest {
            Some(at) => self.clock.0 <= at.0 || self.clock.0 - at.0 <= UNKNOWN_SPAN,
            None => false,
        };
        if recent {
            self.enter(Phase::Down);
            return Actions::three(
                send_error(errors::UNKNOWN_MESSAGE),
                Action::Send(Own::Close(reasons::UNKNOWN_MESSAGES)),
                Action::Down(Reason::Unknown),
            );
        }
        self.unknown = Unknown {
            oldest: self.unknown.older,
            older: self.unknown.newer,
            newer: self.unknown.newest,
            newest: Some(self.clock),
        };
        Actions::one(send_error(errors::UNKNOWN_MESSAGE))
    }

    fn tick_in_up(&mut self) -> Actions
        ensures actions { listed result ≡ (up_tick self.old).actions }
        ensures next { self.new ≡ (up_tick self.old).next }
    {
        let Agreed {
            keepalive,
            dead,
            ..
        } = self.agreed;
        if dead != 0 && self.passed(self.heard, u64::from(dead)) {
            return self.close(reasons::DEAD, Reason::Dead);
        }
        if keepalive != 0 && self.passed(self.sent, u64::from(keepalive)) {
            self.sent = self.clock;
            return Actions::one(Action::Send(Own::Keepalive));
        }
        Actions::none()
    }

    // Whether so many seconds have gone by since a moment, once a tick has come.
    fn will_pass(&self, now: Tick, from: Tick, seconds: u64) -> bool
        requires { seconds < 256 }
        ensures { result ≡ has_passed (at_tick self.now now) from seconds }
    {
        let clock = self.clock.0.max(now.0);
        clock >= from.0 && clock - from.0 >= seconds
    }

    // Whether a session that is open has nothing to say or to do at a tick.
    #[tactic(auto, using(crate::proofs::QuietLemmas::quiet_up))]
    fn is_quiet_in_up(&self, now: Tick) -> bool
        ensures { result ≡ is_nothing (up_tick (at_tick self.now now)).actions }
    {
        let Agreed {
            keepalive,
            dead,
            ..
        } = self.agreed;
        let is_dead = dead != 0 && self.will_pass(now, self.heard, u64::from(dead));
        let is_due = keepalive != 0 && self.will_pass(now, self.sent, u64::from(keepalive));
        !is_dead && !is_due
    }

    // Whether it has nothing to say or to do at a tick.
    #[tactic(auto, using(crate::proofs::QuietLemmas::quiet_idle, crate::proofs::QuietLemmas::quiet_down, crate::proofs::QuietLemmas::quiet_open_wait, crate::proofs::QuietLemmas::quiet_keep_wait, crate::proofs::QuietLemmas::quiet_in_up))]
    fn is_quiet(&self, now: Tick) -> bool
        ensures { result ≡ is_quiet now self.now }
    {
        match self.phase {
            Phase::Idle | Phase::Down => true,
            Phase::OpenWait | Phase::KeepWait => !self.will_pass(now, self.since, WAIT),
            Phase::Up => self.is_quiet_in_up(now),
        }
    }

    // A tick at which there is nothing to say or to do. A session that is over ignores it.
    #[tactic(auto, using(crate::proofs::QuietLemmas::quiet_next))]
    fn take_tick(&mut self, now: Tick)
        requires { is_quiet now self.old ≡ true }
        ensures { self.new ≡ (turn_of self.old (Input.Tick now)).next }
    {
        match self.phase {
            Phase::Idle | Phase::OpenWait | Phase::KeepWait | Phase::Up => self.advance(now),
            Phase::Down => {}
        }
    }

    pub(crate) fn tick_quietly(&mut self, now: Tick) -> bool
        ensures quiet { result ≡ is_quiet now self.old }
        ensures next { self.new ≡ after_quiet now self.old }
    {
        let quiet = self.is_quiet(now);
        if quiet {
            self.take_tick(now);
        }
        quiet
    }
}
