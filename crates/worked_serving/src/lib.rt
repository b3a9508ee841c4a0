//! Networks that are served: which tasks are started and why it ends before, over memory; and one over real sockets, whose client
//! is answered.
#![tactic(auto)]

#[cfg(test)]
mod memory;
#[cfg(test)]
mod sockets;
