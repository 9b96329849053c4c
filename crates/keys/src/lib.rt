// Keys: the pack of a job's first least family, which the marker finds valid.
#![tactic(auto)]

pub mod key;
#[cfg(test)]
mod tests;
