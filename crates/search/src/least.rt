// The search: given a line, levels, a measure and a kind of price, the first least family, in lent memory.
ghost use Rattle.std.specs.Prelude.{◌≡◌, ℕ, ◌-◌, ◌*◌, ◌<◌, ◌≤◌, length, is_ok, IfOk, Ok, Decides, MatchResult, OnErr, OnOk, slice_index};
ghost use Rattle.families.specs.Least.{L, first_least};
ghost use Rattle.families.specs.Stay.{stay};
ghost use Rattle.tables.specs.Row.{KeptOutside, TableHolds};
ghost use Rattle.tables.specs.Terms.{costs, grants};
ghost use Rattle.measures.specs.Measure.{allowed_by};
ghost use Rattle.prices.specs.Price.{price_by};
ghost use Rattle.search.specs.Search.{judged_search, least_answer, Searchable, Cells, Least, RestKept};

use crate::room::Room;
use crate::stays::Walk;
use lines::fault::{Fault, Layer};
use lines::level::{Level, check_count, check_levels};
use lines::line::Line;
use measures::measure::Measure;
use prices::price::Price;
use tables::grade_table::{GradeTable, grade_links};
use tables::price_table::PriceTable;
use tables::terms::Terms;

// Judges levels and memory before a search.
fn check_search<M: Measure>(line: &Line, levels: &[Level], room: Room) -> Result<(), Fault>
    ensures { result ≡ judged_search M.Measure.LARGEST levels.now (length line.now.vertices.now) room.grades room.prices room.stays }
{
    check_count(levels.len(), Layer::Sheet)?;
    check_levels(levels, M::LARGEST, Layer::Sheet)?;
    room.check(levels.len(), line)
}

// The first least family by what the terms grant: fills the prices, writes the stays, and answers the total.
fn find_graded<P: Price>(terms: &Terms, prices: &mut [P], stays: &mut [u8]) -> P
    requires few { (1 ≤ length terms.now.levels.now) × (length terms.now.levels.now ≤ 8) }
    requires room { (length terms.now.levels.now * (length terms.now.line.vertices.now * length terms.now.line.vertices.now) ≤ length prices.old) × (length terms.now.line.vertices.now ≤ length stays.old) }
    ensures total { result ≡ L P.kind (costs P.link terms.now) (grants terms.now) (length terms.now.levels.now) 0 (length terms.now.line.vertices.now - 1) }
    ensures filled { TableHolds P.kind (costs P.link terms.now) (grants terms.now) prices.new (length terms.now.line.vertices.now) (length terms.now.levels.now) }
    ensures marked { (v : ℕ) → v < length terms.now.line.vertices.now → slice_index stays.new v ≡ stay (first_least P.kind (costs P.link terms.now) (grants terms.now) (length terms.now.levels.now) (length terms.now.line.vertices.now)) (length terms.now.levels.now) v }
    ensures prices_kept { KeptOutside P.kind prices.old prices.new 0 (length terms.now.levels.now * (length terms.now.line.vertices.now * length terms.now.line.vertices.now)) }
    ensures stays_kept { (v : ℕ) → length terms.now.line.vertices.now ≤ v → slice_index stays.new v ≡ slice_index stays.old v }
{
    let mut table = PriceTable::over(prices, terms.line.count());
    table.fill(terms);
    let walk = Walk {
        terms: *terms,
        prices: &table,
    };
    walk.mark_stays(stays);
    walk.total()
}

// Finds the first least family: writes grades, prices and stays, and answers the total; or answers the first fault and writes nothing.
// The lent memory is three slices, as the project rules, and no struct of them.
pub fn find_least<M: Measure, P: Price>(
    measure: &M,
    line: &Line,
    levels: &[Level],
    grades: &mut [u8],
    prices: &mut [P],
    stays: &mut [u8],
) -> Result<P, Fault>
    ensures answer { result ≡ least_answer P.Price.kind (price_by P.Price.link line.now.vertices.now levels.now) (allowed_by (M.Measure.says measure.now) line.now.vertices.now levels.now) M.Measure.LARGEST levels.now (length line.now.vertices.now) (length grades.old) (length prices.old) (length stays.old) }
    ensures accepts_exactly_lawful { Decides (is_ok result) (Searchable M.Measure.LARGEST levels.now (length line.now.vertices.now) (length grades.old) (length prices.old) (length stays.old)) }
    ensures nothing_smaller { IfOk result (λ sum. Least P.Price.kind (price_by P.Price.link line.now.vertices.now levels.now) (allowed_by (M.Measure.says measure.now) line.now.vertices.now levels.now) (length levels.now) (length line.now.vertices.now) stays.new sum) }
    ensures cells { OnOk result (Cells P.Price.kind (price_by P.Price.link line.now.vertices.now levels.now) (allowed_by (M.Measure.says measure.now) line.now.vertices.now levels.now) (length levels.now) (length line.now.vertices.now) grades.new prices.new stays.new) }
    ensures rest_kept { RestKept (length levels.now) (length line.now.vertices.now) grades.old grades.new prices.old prices.new stays.old stays.new }
    ensures refusal_leaves_memory { OnErr result ((grades.new ≡ grades.old) × (prices.new ≡ prices.old) × (stays.new ≡ stays.old)) }
{
    let room = Room {
        grades: grades.len(),
        prices: prices.len(),
        stays: stays.len(),
    };
    check_search::<M>(line, levels, room)?;
    grade_links(measure, line, levels, grades);
    let terms = Terms {
        line: *line,
        levels,
        grades: GradeTable::over(grades, line.count(), levels.len()),
    };
    Ok(find_graded(&terms, prices, stays))
}
