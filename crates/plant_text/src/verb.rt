//! The first words of lines.
ghost use Rattle.std.specs.Prelude.{◌≡◌};
ghost use Rattle.plant_text.specs.Lines.{verb_in, verb_word};

/// What the first word of a line of events says.
#[derive(Clone, Copy)]
pub(crate) enum Verb {
    Load,
    Change,
    Open,
    Shut,
    Feed,
    Receive,
    Take,
    Carry,
    Break,
    Solve,
    Tick,
    Drain,
    Settle,
    Finish,
    Certify,
    Disclose,
}

impl Verb {
    fn word(self) -> &'static str
        ensures { result.now ≡ verb_word self }
    {
        match self {
            Verb::Load => "load",
            Verb::Change => "change",
            Verb::Open => "open",
            Verb::Shut => "shut",
            Verb::Feed => "feed",
            Verb::Receive => "receive",
            Verb::Take => "take",
            Verb::Carry => "carry",
            Verb::Break => "break",
            Verb::Solve => "solve",
            Verb::Tick => "tick",
            Verb::Drain => "drain",
            Verb::Settle => "settle",
            Verb::Finish => "finish",
            Verb::Certify => "certify",
            Verb::Disclose => "disclose",
        }
    }
}

/// The verb of a word.
pub(crate) fn verb_of(word: &[u8]) -> Option<Verb>
    ensures { result ≡ verb_in word.now }
{
    let verbs = [
        Verb::Load,
        Verb::Change,
        Verb::Open,
        Verb::Shut,
        Verb::Feed,
        Verb::Receive,
        Verb::Take,
        Verb::Carry,
        Verb::Break,
        Verb::Solve,
        Verb::Tick,
        Verb::Drain,
        Verb::Settle,
        Verb::Finish,
        Verb::Certify,
        Verb::Disclose,
    ];
    verbs
        .iter()
        .copied()
        .find(|verb| word == verb.word().as_bytes())
}
