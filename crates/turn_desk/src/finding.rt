//! A job that is no other worker's is looked for at a desk.
ghost use Rattle.std.specs.Prelude.{◌≡◌};
ghost use Rattle.plant_network.specs.declared.acts.Act.TheVariants.{Next as AskNext};
ghost use Rattle.turn_desk.specs.Desks.{stand_of};
ghost use Rattle.turn_desk.specs.Works.{Finds, job_at};

use crate::answers::told_in;
use crate::circle::{Circle, Member};
use crate::desk::TurnDesk;
use dom_base::As;
use plant_network::{Act, AskedJob, Behind};
use std::sync::Wait;
use std::time::Clock;

// How many jobs of a member a worker asks for at most: more than other workers can be at.
const TRIES: usize = 16;

impl<R: Wait + Clock> TurnDesk<R> {
    // Whether the job is this worker's from now on.
    fn claim(&self, worker: usize, at: As, job: AskedJob) -> bool {
        match &self.bells {
            Some(bells) => bells.claims().claim(&self.rt, worker, (at, job.number)),
            None => true,
        }
    }

    /// What this worker has claimed is anybody's.
    pub(crate) fn let_go(&self, worker: usize) {
        if let Some(bells) = &self.bells {
            bells.claims().let_go(&self.rt, worker);
        }
    }

    /// This worker waits until a job may be ready.
    pub(crate) fn wait_for_jobs(&self, worker: usize) {
        if let Some(bells) = &self.bells {
            bells.wait_for_jobs(&self.rt, worker);
        }
    }

    // The next job of a member behind another.
    fn next_job(&mut self, at: As, behind: Behind) -> Option<AskedJob>
        ensures { Finds (job_at at result) (stand_of self.old) (stand_of self.new) }
    {
        match self.turn(Act::Next(at, behind)) {
            Ok(acted) => told_in(acted),
            Err(_number) => None,
        }
    }

    // The next job of a member that is no other worker's, behind those of whoever was served last; it is this worker's then. Behind
    // the last job the first one follows.
    fn find_at(&mut self, worker: usize, member: Member) -> Option<AskedJob>
        ensures { Finds (job_at member.at result) (stand_of self.old) (stand_of self.new) }
    {
        let mut behind = match member.asker {
            Some(asker) => Behind::Asker(asker),
            None => Behind::Nobody,
        };
        let mut is_round = member.asker.is_none();
        for _try in 0..TRIES {
            match self.next_job(member.at, behind) {
                Some(job) => {
                    if self.claim(worker, member.at, job) {
                        return Some(job);
                    }
                    behind = Behind::Job(job);
                }
                None => {
                    if is_round {
                        return None;
                    }
                    behind = Behind::Nobody;
                    is_round = true;
                }
            }
        }
        None
    }

    /// Goes round the members, from the one behind that which was served last, until one has a job that is no other worker's; it is
    /// this worker's then.
    pub(crate) fn find(&mut self, worker: usize, circle: &mut Circle) -> Option<(As, u64)>
        ensures { Finds result (stand_of self.old) (stand_of self.new) }
    {
        for _member in 0..circle.len() {
            let Some(member) = circle.next() else {
                return None;
            };
            if let Some(job) = self.find_at(worker, member) {
                circle.note(member.at, job.asker);
                return Some((member.at, job.number));
            }
        }
        None
    }
}
