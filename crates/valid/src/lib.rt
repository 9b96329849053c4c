// Family packs that the marker finds valid, read into memory.
#![tactic(auto)]

pub mod family;
