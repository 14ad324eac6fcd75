// Of `replay`: the commands of a server, on aggregates, on the validity circuits and on the parts of a full vector.
// Each has its rows in a frame of its own: see `Command::answer` of `replay`.
#![tactic(auto)]

pub mod aggregates;
pub mod circuits;
pub mod vectors;
