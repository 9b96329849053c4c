// Measures: whether a link may stand for the part of the line that it skips.
#![tactic(auto)]

mod apart;
pub mod area;
mod link;
pub mod measure;
mod nearness;
mod plane;
pub mod segment;
pub mod strip;
#[cfg(test)]
mod tests;
