//! A value that is changed by acts, each of which has an answer.
ghost use Rattle.std.specs.Prelude.{◌≡◌, List, ◌∷◌};
ghost use Rattle.plant_lock.specs.History.{Legal, replay};

/// A value to which a turnstile lets one act after another be done.
pub trait Turned {
    /// What may be done to the value. An act for which there is no ticket is dropped.
    type Act: Drop;

    type Answer;

    // The plain state of the value.
    ghost State: { Type 0 };

    ghost plain: { Self → State };

    // The state admits the act.
    ghost admits: { State → Self.Act → Type 0 };

    // The state allows the answer to the act.
    ghost allows: { State → Self.Act → Self.Answer → Type 0 };

    // The state that an act with its answer leaves.
    ghost after: { State → Self.Act → Self.Answer → State };

    // An entry, an act with its answer, warrants an act.
    ghost warrants: { Self.Act → Self.Answer → Self.Act → Type 0 };

    /// Does the act.
    fn turn(&mut self, act: Self::Act) -> Self::Answer
        requires { admits (plain self.old) act }
        ensures allowed { allows (plain self.old) act result }
        ensures left { plain self.new ≡ after (plain self.old) act result };

    // After an entry that warrants an act, every state that a legal list of further entries leads to admits the act.
    ghost lasts: { (s : State) (a : Self.Act) (b : Self.Answer) (es : List (Self.Act × Self.Answer)) (next : Self.Act) → warrants a b next → admits s a → allows s a b → Legal admits allows after (after s a b) es → admits (replay after (after s a b) es) next };
}
