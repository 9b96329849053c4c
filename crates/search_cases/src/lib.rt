// Tests of the search: worked examples, refusals, every cell, memory with noise in it, a listing of all families of small lines,
// and reading chains off stays. Tests of the tables: what they answer outside their cells.
#![tactic(auto)]

#[cfg(test)]
mod cells;
#[cfg(test)]
mod chains;
#[cfg(test)]
mod examples;
#[cfg(test)]
mod listing;
#[cfg(test)]
mod memory;
#[cfg(test)]
mod outside;
#[cfg(test)]
mod refusals;
#[cfg(test)]
mod wrong;
