// The tables of a search: the grade of each link, and the least total of each level between each two vertices.
#![tactic(auto)]

mod fill;
pub mod grade_table;
pub mod price_table;
mod rows;
pub mod terms;
