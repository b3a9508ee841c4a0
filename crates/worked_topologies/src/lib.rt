//! Tables of tests: texts of topologies and changes, read, made and written again; the answers of a domain to asks, by a search
//! and by a cache; what is told of files at fault; and the outside in memory and in the machine. They stand above the crates
//! that they test, so that none of these is proved once more for its tests.
#![tactic(auto)]

#[cfg(test)]
mod asks;
#[cfg(test)]
mod checks;
#[cfg(test)]
mod files;
#[cfg(test)]
mod machine;
#[cfg(test)]
mod memory;
#[cfg(test)]
mod moments;
#[cfg(test)]
mod sockets;
#[cfg(test)]
mod texts;
