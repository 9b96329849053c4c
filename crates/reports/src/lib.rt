// Reports: what each level of a family keeps, and what it costs.
#![tactic(auto)]

mod family;
pub mod link;
pub mod report;
pub mod row;
pub mod share;
#[cfg(test)]
mod tests;
pub mod text;
