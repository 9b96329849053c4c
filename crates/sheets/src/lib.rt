// Sheets: a measure, a kind of price, levels and pins, which editors change and draw lines by, over and over.
#![tactic(auto)]

pub mod call;
mod levels;
pub mod replay;
pub mod sheet;
