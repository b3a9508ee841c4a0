//! The commands of the program.
#![tactic(auto)]

mod commands;
mod count;
mod files;
mod input;
mod limits;
mod output;
mod pair_reading;
mod reading;
mod route;
mod span;
mod status;
mod top;

pub use commands::answer::reply_text;
pub use files::{load_certificate, load_pair_certificate, load_topology};
pub use limits::{CERTIFICATE_MAX, INPUT_MAX};
pub use network_files::SETTINGS_MAX;
pub use pair_reading::{PairRequest, read_pair_request};
pub use reading::{RequestError, Why, read_path_request};
pub use route::Route;
pub use status::Status;
pub use top::run;
