// Layers over any measure, each a measure again: pins that no link may skip, and a reach that no link may pass.
#![tactic(auto)]

pub mod pins;
pub mod reach;
#[cfg(test)]
mod tests;
pub mod theorems;
