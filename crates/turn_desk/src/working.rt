//! What a worker calls.
ghost use Rattle.std.specs.Prelude.{◌≡◌, ◌++◌, [], IfOk, IfSome};
ghost use Rattle.plant_network.specs.declared.acts.Act.TheVariants.{Look as LookAt, Finish as FinishOf};
ghost use Rattle.plant_network.specs.declared.acts.Acted.TheVariants.{Looked as LookedAt};
ghost use Rattle.server_loops.specs.Benches as bench;
ghost use Rattle.turn_desk.specs.Desks.{IsFinish, IsOneTurn, IsStill, stand_of};
ghost use Rattle.turn_desk.specs.Works.{Asks, noted_call, noted_calls};
ghost use Rattle.turn_desk.specs.WorkBenches.{bench_of, desk_of};

use crate::circle::Circle;
use crate::desk::TurnDesk;
use crate::notes::Note;
use crate::workbench::WorkBench;
use dom_base::{As, NoMemory};
use dom_edge::Noted;
use plant_network::{Done, Work};
use server_loops::{Bench, Finished};
use std::snapshot::Snapshot;
use std::sync::Wait;
use std::thread;
use std::time::{Clock, Duration};

// How long a worker rests that ran out of memory, in milliseconds.
const REST_MILLIS: u64 = 100;

// One note more, unless the desk is spent by then.
fn note(noted: &mut Noted<Note>, spent: Option<u64>, note: &Note)
    ensures { noted_calls noted.new.items ≡ noted_calls noted.old.items ++ bench.made_by spent (noted_call note.now) }
{
    if spent.is_none() {
        *noted = noted.and(note);
    }
}

impl<R: Wait + Clock> WorkBench<R> {
    /// A bench for the worker of this index over a desk that has made no turn. The worker goes round this circle.
    pub fn new(desk: TurnDesk<R>, index: u32, circle: Circle) -> Self
        requires new { (stand_of desk).own ≡ [] }
        ensures calls { (bench_of result).calls ≡ [] }
        ensures desk { desk_of result ≡ stand_of desk }
    {
        WorkBench {
            desk,
            worker: index as usize,
            circle,
            noted: Noted::new(),
        }
    }

    /// The job that this worker was at, if it was at one, is anybody's.
    pub fn let_go(&self) {
        self.desk.let_go(self.worker);
    }

    /// Waits a tenth of a second, so that a worker that is out of memory keeps no processor busy.
    pub fn rest(&self) {
        thread::sleep(&self.desk.rt, Duration::from_millis(REST_MILLIS));
    }
}

impl<R: Wait + Clock> Bench for WorkBench<R> {
    ghost use Rattle.turn_desk.specs.WorkBenches.{bench_of};

    ghost benched = { λ b. bench_of b };

    fn ready(&mut self, k: usize) -> Option<(As, u64)>
        ensures goes { bench.Goes (bench_of self.old) (bench_of self.new) (bench.Ready k result) }
        ensures stays { IsStill (desk_of self.old) (desk_of self.new) }
        ensures asks { Asks result (desk_of self.old) (desk_of self.new) }
    {
        let found = self.desk.find(self.worker, &mut self.circle);
        note(&mut self.noted, self.desk.spent_at, &Note::Asked(k, found));
        if found.is_none() {
            self.desk.wait_for_jobs(self.worker);
        }
        found
    }

    fn look(&mut self, at: As, number: u64) -> Result<Option<Work>, NoMemory>
        ensures goes { bench.Goes (bench_of self.old) (bench_of self.new) (bench.Look at number result) }
        ensures given { IfOk result (λ work. IfSome work (bench.IsGiven (bench_of self.new))) }
        ensures stays { IsStill (desk_of self.old) (desk_of self.new) }
        ensures turn { IsOneTurn (LookAt at number) (λ acted. acted ≡ LookedAt result) (desk_of self.old) (desk_of self.new) }
    {
        let work = self.desk.look(at, number);
        let looked = Note::Looked(at, number, Snapshot::of(&work));
        note(&mut self.noted, self.desk.spent_at, &looked);
        if !matches!(work, Ok(Some(_))) {
            self.desk.let_go(self.worker);
        }
        work
    }

    fn finish(&mut self, done: Done) -> Finished
        requires { bench.WasGiven (bench_of self.old) done }
        ensures goes { bench.Goes (bench_of self.old) (bench_of self.new) (bench.Finish done result) }
        ensures stays { IsStill (desk_of self.old) (desk_of self.new) }
        ensures turn { IsOneTurn (FinishOf done) (IsFinish result) (desk_of self.old) (desk_of self.new) }
    {
        let solved = Snapshot::of(&done);
        let answer = self.desk.finish(done);
        let finished = Note::Finished(solved, answer);
        note(&mut self.noted, self.desk.spent_at, &finished);
        self.desk.let_go(self.worker);
        answer
    }

    fn spent(&self) -> Option<u64> {
        self.desk.spent_at
    }
}
