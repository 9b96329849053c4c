// The text form of a job: its pack is made of a text, and a text of a pack.
#![tactic(auto)]

mod draft;
pub mod error;
pub mod pack;
mod statement;
#[cfg(test)]
mod tests;
mod text;
pub mod unpack;
