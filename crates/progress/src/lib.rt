// How far long work is, told on standard error about once a second.
#![tactic(auto)]

pub mod line;
pub mod teller;
#[cfg(test)]
mod tests;
