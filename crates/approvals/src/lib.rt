// A measure that goes by a list of approved links.
#![tactic(auto)]

mod approval;
pub mod approvals;
#[cfg(test)]
mod tests;
