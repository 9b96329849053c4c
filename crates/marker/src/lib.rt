// The marker: accepts exactly the true families.
#![tactic(auto)]

mod chain;
mod level;
pub mod mark;
pub mod pack;
pub mod place;
pub mod reader;
mod records;
pub mod verdict;
