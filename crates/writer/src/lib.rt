// Writing packs into lent bytes.
#![tactic(auto)]

pub mod family;
pub mod job;
mod put;
#[cfg(test)]
mod round_trips;
#[cfg(test)]
mod tests;
