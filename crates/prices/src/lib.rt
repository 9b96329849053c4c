// Prices: what links cost, how costs are joined, and which is not dearer.
#![tactic(auto)]

pub mod count;
pub mod count_then_area;
pub mod price;
#[cfg(test)]
mod tests;
