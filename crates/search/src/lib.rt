// The search for the first least family of a line, and reading a family back off its stays.
#![tactic(auto)]

pub mod chain;
pub mod least;
pub mod room;
mod stays;
