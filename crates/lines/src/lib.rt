// Lines of vertices, the levels of a job, and the faults by which calls refuse.
#![tactic(auto)]

pub mod area;
pub mod exact;
pub mod fault;
pub mod level;
pub mod line;
#[cfg(test)]
mod tests;
pub mod vertex;
