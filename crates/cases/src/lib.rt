// Tests that call the library directly: the marker with levels of its own, and the text of every refusal.
#![tactic(auto)]

#[cfg(test)]
mod levels;
#[cfg(test)]
mod refusals;
