// Drawings: the first least family of a job pack, and its text.
#![tactic(auto)]

pub mod drawing;
pub mod memory;
pub mod pack;
#[cfg(test)]
mod tests;
pub mod text;
