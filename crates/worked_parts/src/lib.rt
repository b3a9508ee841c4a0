//! Tests of what no script over the built program shows, in the parts of a network and of its server: numbers of path keys that go
//! round, sessions over links with faults, what threads do with a value under its lock, with jobs that they share and with
//! what is shown to them, which values may go to them, what operators are answered, and calls that the program does not make.
#![tactic(auto)]

#[cfg(test)]
mod asking;
#[cfg(test)]
mod clerk;
#[cfg(test)]
mod counters;
#[cfg(test)]
mod crossing;
#[cfg(test)]
mod keys;
#[cfg(test)]
mod lines;
#[cfg(test)]
mod operator_lines;
#[cfg(test)]
mod script;
#[cfg(test)]
mod sessions;
#[cfg(test)]
mod stirs;
#[cfg(test)]
mod taped;
#[cfg(test)]
mod turns;
#[cfg(test)]
mod unused;
#[cfg(test)]
mod watching;
