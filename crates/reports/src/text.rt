// Reports as text: a table in Markdown.
ghost use Rattle.std.specs.Prelude.{◌≡◌, Some, IfOk, string_bytes};
ghost use Rattle.reports.specs.Text.{row_text, report_text};

use crate::report::Report;
use crate::row::Row;
use std::alloc::{AllocError, Global};
use std::fmt;

// The head of the table.
const HEAD: &str =
    "| Level | Tolerance | Weight | Links | Kept | Share | Longest | Enough | Price | Alone |\n|---|---|---|---|---|---|---|---|---|---|\n";

// The line of a row.
impl fmt::Display for Row {
    ghost output = { λ row. Some (row_text row) };

    fn fmt<W: fmt::Write>(&self, f: &mut fmt::Formatter<W>) -> fmt::Result {
        let (level, tolerance, weight) = (self.level, self.tolerance, self.weight);
        write!(f, "| {level} | {tolerance} | {weight}")?;
        let (links, kept, share) = (self.links, self.kept, self.share);
        write!(f, " | {links} | {kept} | {share}")?;
        let (longest, enough) = (self.longest, self.enough);
        write!(f, " | {longest} | {enough}")?;
        let (price, alone) = (self.price, self.alone);
        write!(f, " | {} {} | {} {} |", price.0, price.1, alone.0, alone.1)
    }
}

// The lines of a report: the table, an empty line, and that of the total.
pub fn report_text(heap: Global, report: &Report) -> Result<String, AllocError>
    ensures { IfOk result (λ s. string_bytes s ≡ report_text report.now) }
{
    let mut text = String::new(heap);
    text.push_str(HEAD)?;
    for row in &report.rows {
        writeln!(text, "{row}")?;
    }
    let (first, second) = report.total;
    text.push_str("\n")?;
    writeln!(text, "Total {first} {second}")?;
    Ok(text)
}
