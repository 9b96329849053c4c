// Pictures of families, in SVG.
#![tactic(auto)]

pub mod bounds;
pub mod family;
pub mod frame;
pub mod options;
pub mod picture;
mod shapes;
pub mod show;
#[cfg(test)]
mod tests;
