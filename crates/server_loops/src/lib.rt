//! The loops of a server's threads, over any network; no thread is started here. A session's loop over a desk and a link, a port that serves
//! one connection after the other, what carries messages between elements and what tells the time; a worker that takes ready jobs from a bench,
//! solves them outside every call of the bench, and hands the solutions back; and the lines of an operator, who loads topologies into a network
//! that runs. No call here waits but by what it is handed.
//!
//! A line of an operator is `load AS FILE`, `change AS FILE` or `stop`. It is answered under its number, and whatever is wrong with it, the
//! next line is read. After a load that was accepted the topology is shown to watchers.
#![tactic(auto)]

mod asking;
mod benches;
mod carrying;
mod charts;
mod desks;
mod gates;
mod guides;
mod lines;
mod loading;
mod operating;
mod port;
mod publishing;
mod sessions;
mod sites;
mod solving;
mod taking;
mod texts;
mod ticking;
mod turn;
mod unkept;
mod worker_turn;
mod working;

pub use benches::{Bench, Finished};
pub use carrying::{carry_guided, carry_links};
pub use charts::Chart;
pub use desks::{Desk, DeskRefused};
pub use gates::Gate;
pub use guides::Guide;
pub use network_links::Rest;
pub use operating::{Operated, operate};
pub use plant_model as model;
pub use port::{Ran, serve_port};
pub use publishing::publish;
pub use sessions::{Ended, serve_session};
pub use sites::Sited;
pub use ticking::{Ends, tick_on};
pub use working::{Worked, work};
