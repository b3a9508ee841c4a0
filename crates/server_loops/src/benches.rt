//! Where jobs come from and solutions go.
ghost use Rattle.std.specs.Prelude.{◌≡◌, IfOk, IfSome};
ghost use Rattle.server_loops.specs.Benches.{Benched, Goes, IsGiven, WasGiven, Ready, Look, Finish};
ghost use Rattle.server_loops.specs.Sites.{Stays};

use crate::sites::Sited;
use dom_base::{As, NoMemory};
use pce_parent::{Done, Work};

/// What became of a solution: it was taken, its job was no longer ready, or there was no memory.
#[derive(Clone, Copy)]
pub enum Finished {
    Kept,
    Stranger,
    NoMemory,
}

/// A bench stands for the list of its calls with their answers, and for the topologies of its jobs
/// by element and generation, to which calls only add. A bench that is spent makes no call.
pub trait Bench: Sited {
    ghost benched: { Self → Benched };

    /// The k-th ready job, by its element and its number.
    fn ready(&mut self, k: usize) -> Option<(As, u64)>
        ensures goes { Goes (benched self.old) (benched self.new) (Ready k result) }
        ensures stays { Stays Self.is_at self.old self.new };

    /// A job, unless it is no longer ready.
    fn look(&mut self, at: As, number: u64) -> Result<Option<Work>, NoMemory>
        ensures goes { Goes (benched self.old) (benched self.new) (Look at number result) }
        ensures given { IfOk result (λ work. IfSome work (IsGiven (benched self.new))) }
        ensures stays { Stays Self.is_at self.old self.new };

    /// Hands a solution back. Its job is one that a look gave.
    fn finish(&mut self, done: Done) -> Finished
        requires { WasGiven (benched self.old) done }
        ensures goes { Goes (benched self.old) (benched self.new) (Finish done result) }
        ensures stays { Stays Self.is_at self.old self.new };

    /// The number at which the bench was spent. From then on it answers that no job is ready.
    fn spent(&self) -> Option<u64>
        ensures { result ≡ (benched self.now).spent };
}
