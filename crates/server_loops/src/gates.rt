//! What stands between the look at a job and its solution.
ghost use Rattle.std.specs.Prelude.{◌≡◌, ◌++◌, ◌∷◌, [], List, ℕ};
ghost use Rattle.dom_base.specs.declared.names.As.{As};

use dom_base::As;

/// A gate is passed before each job is solved. It stands for the list of the jobs that passed.
pub trait Gate {
    ghost passed: { Self → List (As × ℕ) };

    fn before(&mut self, at: As, number: u64)
        ensures { passed self.new ≡ passed self.old ++ (at, number) ∷ [] };
}
