// Drawing and editing the job of a pack on a sheet, and the text of what happens.
#![tactic(auto)]

pub mod job;
mod perform;
pub mod script;
#[cfg(test)]
mod script_tests;
pub mod text;
pub mod watch;
#[cfg(test)]
mod watch_tests;
