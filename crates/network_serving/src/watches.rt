//! The tasks that answer watchers.
ghost use Rattle.std.specs.Prelude.{◌≡◌, ◌+◌, ◌≤◌, ◌<◌, [], All, IfErr, IfOk, length, replicate};
ghost use Rattle.ted_watch.specs.Watch.{carried, known, list_at, list_told};
ghost use Rattle.network_serving.specs.Duties.{watch_duties, watches_at};
ghost use Rattle.network_serving.specs.Ports.{watch_ports};
ghost use Rattle.network_serving.specs.Starting.{IsPlanEnd, called};
ghost use Rattle.network_serving.specs.Watches.{AreUnused, AreWatches, IsUnused};

use crate::duties::WATCHERS;
use crate::planning::{open_port, push_task};
use crate::served::Served;
use crate::tasks::Task;
use dom_base::List;
use dom_edge::{Listener, Ports};
use plant_text::Comes;
use std::alloc::Global;
use std::sync::Wait;
use std::time::Clock;
use ted_watch::{Told, Watcher};

// The last of these watchers, which knows what was told from now on.
#[tactic(auto, using(crate::proofs::Loads::learnt_all, crate::proofs::WatchTasks::last_unused))]
fn informed(watchers: &mut Vec<Watcher>, told: &Told) -> Watcher
    requires unused { All (IsUnused (list_told told.now)) watchers.old.items }
    requires some { 0 < length watchers.old.items }
    ensures known { known result ≡ carried told.now }
    ensures list { list_at result ≡ list_told told.now }
    ensures unused { All (IsUnused (list_told told.now)) watchers.new.items }
    ensures fewer { length watchers.new.items + 1 ≡ length watchers.old.items }
{
    match watchers.pop() {
        Some(watcher) => {
            let mut watcher = watcher;
            watcher.learn(told);
            watcher
        }
        None => unreachable!(),
    }
}

// Listens at the port of watchers, once for each who answers them.
#[tactic(auto, using(crate::proofs::Starts::want_plan))]
fn plan_at<Q: Ports, F: Drop, I: Drop, O: Drop, R: Wait + Clock + Copy + Drop>(
    rt: R,
    alloc: Global,
    ports: &mut Q,
    port: u16,
    watchers: List<Watcher>,
    told: &Told,
) -> Result<Vec<Task<Q::Port, F, I, O, R>>, Served>
    requires unused { AreUnused (list_told told.now) watchers }
    ensures ok { IfOk result (λ tasks. AreWatches Q.Port.opened_at Q.Port.heeds Q.Port.dialled_to (carried told.now) (list_told told.now) (watches_at port 0 WATCHERS) tasks.items) }
    ensures err { IfErr result (IsPlanEnd (replicate WATCHERS port) (called (Q.calls ports.old, Q.calls ports.new) (Q.faults ports.old, Q.faults ports.new) (Q.failed_at ports.new))) }
    ensures later { Q.faults ports.old ≤ Q.faults ports.new }
{
    let mut tasks = Vec::new(alloc);
    let mut watchers = watchers.into_vec();
    for index in 0..WATCHERS {
        let listener = open_port(ports, port, Comes::Anyone)?;
        let watcher = informed(&mut watchers, told);
        push_task(
            &mut tasks,
            Task::Watch {
                rt,
                index,
                watcher,
                listener,
            },
        )?;
    }
    Ok(tasks)
}

/// Listens at the port of watchers, where the settings have one, once for each who answers them. Each of these tasks has a watcher
/// that knows what was told.
pub(crate) fn plan_watches<Q: Ports, F: Drop, I: Drop, O: Drop, R: Wait + Clock + Copy + Drop>(
    rt: R,
    alloc: Global,
    ports: &mut Q,
    watch: Option<u16>,
    watchers: List<Watcher>,
    told: &Told,
) -> Result<Vec<Task<Q::Port, F, I, O, R>>, Served>
    requires unused { AreUnused (list_told told.now) watchers }
    ensures ok { IfOk result (λ tasks. AreWatches Q.Port.opened_at Q.Port.heeds Q.Port.dialled_to (carried told.now) (list_told told.now) (watch_duties watch) tasks.items) }
    ensures err { IfErr result (IsPlanEnd (watch_ports watch) (called (Q.calls ports.old, Q.calls ports.new) (Q.faults ports.old, Q.faults ports.new) (Q.failed_at ports.new))) }
    ensures later { Q.faults ports.old ≤ Q.faults ports.new }
{
    match watch {
        Some(port) => plan_at::<Q, F, I, O, R>(rt, alloc, ports, port, watchers, told),
        None => Ok(Vec::new(alloc)),
    }
}
