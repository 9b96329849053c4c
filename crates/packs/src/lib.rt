// Packs: jobs and families as bytes.
#![tactic(auto)]

pub mod bytes;
pub mod job;
pub mod kind;
pub mod place;
pub mod reader;
pub mod record;
