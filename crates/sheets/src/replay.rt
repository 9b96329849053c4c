// Calls that are tried on a sheet, one after another.
ghost use Rattle.std.specs.Prelude.{◌≡◌, length, min, take, Ok, IfOk, OnErr};
ghost use Rattle.lines.specs.Fault.{then};
ghost use Rattle.sheets.specs.Settings.{LawfulSettings, opened, open_answer};
ghost use Rattle.sheets.specs.Sheet.{settings_of};
ghost use Rattle.sheets.specs.Memory.{memory_of};
ghost use Rattle.sheets.specs.Call.{after_call, lent, room_of, drawing_told, told, memory_after};
ghost use Rattle.sheets.specs.History.{after, Performed, PerformedBoth};
ghost use Rattle.sheets.specs.declared.call.Call.TheVariants.{Draw};

use crate::call::{Answer, Call, Drawn, Outcome};
use crate::sheet::Sheet;
use arrayvec::ArrayVec;
use lines::fault::Fault;
use lines::level::Level;
use lines::line::Line;
use lines::vertex::Vertex;
use measures::measure::Measure;
use prices::price::Price;
use search::room::Room;

// Draws a line of these vertices in as much of each memory as is asked for, or in all of it.
fn draw_part<M: Measure, P: Price>(
    sheet: &Sheet<M, P>,
    vertices: &[Vertex],
    asked: Room,
    grades: &mut [u8],
    prices: &mut [P],
    stays: &mut [u8],
) -> Answer<P>
    ensures answer { LawfulSettings (settings_of M.Measure.LARGEST M.Measure.says sheet.now) → result ≡ drawing_told P.Price.kind P.Price.link (settings_of M.Measure.LARGEST M.Measure.says sheet.now) (lent asked (room_of (memory_of grades.old prices.old stays.old))) vertices.now }
    ensures memory_after { LawfulSettings (settings_of M.Measure.LARGEST M.Measure.says sheet.now) → memory_of grades.new prices.new stays.new ≡ memory_after P.Price.kind P.Price.link (settings_of M.Measure.LARGEST M.Measure.says sheet.now) (Draw vertices.entry asked) (memory_of grades.old prices.old stays.old) }
{
    let mut line = Line::built_in();
    line.make(vertices)?;
    let grades_lent = asked.grades.min(grades.len());
    let prices_lent = asked.prices.min(prices.len());
    let stays_lent = asked.stays.min(stays.len());
    let total = sheet.draw(
        &line,
        &mut grades[..grades_lent],
        &mut prices[..prices_lent],
        &mut stays[..stays_lent],
    )?;
    Ok(Outcome::Drew(Drawn {
        total,
        stays: ArrayVec::try_from(&stays[..line.count()]).unwrap_or_default(),
    }))
}

// Tries one call on a sheet.
fn perform<M: Measure, P: Price>(
    sheet: &mut Sheet<M, P>,
    call: &Call,
    grades: &mut [u8],
    prices: &mut [P],
    stays: &mut [u8],
) -> Answer<P>
    ensures answer { LawfulSettings (settings_of M.Measure.LARGEST M.Measure.says sheet.old) → result ≡ told P.Price.kind P.Price.link (settings_of M.Measure.LARGEST M.Measure.says sheet.old) (room_of (memory_of grades.old prices.old stays.old)) call.now }
    ensures settings_after { settings_of M.Measure.LARGEST M.Measure.says sheet.new ≡ after_call (settings_of M.Measure.LARGEST M.Measure.says sheet.old) call.now }
    ensures memory_after { LawfulSettings (settings_of M.Measure.LARGEST M.Measure.says sheet.old) → memory_of grades.new prices.new stays.new ≡ memory_after P.Price.kind P.Price.link (settings_of M.Measure.LARGEST M.Measure.says sheet.old) call.now (memory_of grades.old prices.old stays.old) }
{
    match *call {
        Call::Pin(v) => sheet.pin(v)?,
        Call::Release(v) => sheet.release(v)?,
        Call::Retune(k, t) => sheet.retune(k, t)?,
        Call::Draw(vertices, asked) => {
            return draw_part(sheet, vertices, asked, grades, prices, stays);
        }
    }
    Ok(Outcome::Done)
}

// Tries calls one after another on a sheet: as many as there are calls and places for their answers. Answers how many that is.
pub fn replay<M: Measure, P: Price>(
    sheet: &mut Sheet<M, P>,
    calls: &[Call],
    grades: &mut [u8],
    prices: &mut [P],
    stays: &mut [u8],
    answers: &mut [Answer<P>],
) -> usize
    ensures performs_all { result ≡ min (length calls.now) (length answers.old) }
    ensures performed { LawfulSettings (settings_of M.Measure.LARGEST M.Measure.says sheet.old) → Performed P.Price.kind P.Price.link (settings_of M.Measure.LARGEST M.Measure.says sheet.old) calls.now (memory_of grades.old prices.old stays.old) (memory_of grades.new prices.new stays.new) answers.old answers.new result }
    ensures settings_after { settings_of M.Measure.LARGEST M.Measure.says sheet.new ≡ after (settings_of M.Measure.LARGEST M.Measure.says sheet.old) (take result calls.now) }
    ensures keeps_lawful { LawfulSettings (settings_of M.Measure.LARGEST M.Measure.says sheet.old) → LawfulSettings (settings_of M.Measure.LARGEST M.Measure.says sheet.new) }
{
    let done = calls.len().min(answers.len());
    // A loop over places: behind a `zip` over `iter_mut` nothing would be known of the answers written.
    for q in 0..done {
        answers[q] = perform(sheet, &calls[q], grades, prices, stays);
    }
    done
}

// What a sheet is opened with, and the calls that are tried on it.
#[derive(Drop)]
pub struct Plan<'a, M> {
    pub n: usize,
    pub levels: &'a [Level],
    pub measure: M,
    pub calls: &'a [Call<'a>],
}

// Opens a sheet and tries calls on it: as many as there are calls and places for their answers. Answers how many that is; or refuses as opening does.
pub fn trial<M: Measure + Drop, P: Price>(
    plan: Plan<M>,
    grades: &mut [u8],
    prices: &mut [P],
    stays: &mut [u8],
    answers: &mut [Answer<P>],
) -> Result<usize, Fault>
    ensures answer { result ≡ then (open_answer plan.entry.n plan.entry.levels.now M.Measure.LARGEST) (λ _. Ok (min (length plan.entry.calls.now) (length answers.old))) }
    ensures performed { IfOk result (Performed P.Price.kind P.Price.link (opened plan.entry.n plan.entry.levels.now M.Measure.LARGEST (M.Measure.says plan.entry.measure)) plan.entry.calls.now (memory_of grades.old prices.old stays.old) (memory_of grades.new prices.new stays.new) answers.old answers.new) }
    ensures refusal_leaves_memory { OnErr result ((memory_of grades.new prices.new stays.new ≡ memory_of grades.old prices.old stays.old) × (answers.new ≡ answers.old)) }
{
    let mut sheet = Sheet::<M, P>::open(plan.n, plan.levels, plan.measure)?;
    Ok(replay(&mut sheet, plan.calls, grades, prices, stays, answers))
}

// Opens two sheets and tries calls on each, those of the second after those of the first; or refuses as the first opening that fails.
pub fn twin<M: Measure + Drop, P: Price>(
    first: Plan<M>,
    second: Plan<M>,
    grades: &mut [u8],
    prices: &mut [P],
    stays: &mut [u8],
    first_answers: &mut [Answer<P>],
    second_answers: &mut [Answer<P>],
) -> Result<(usize, usize), Fault>
    ensures answer { result ≡ then (open_answer first.entry.n first.entry.levels.now M.Measure.LARGEST) (λ _. then (open_answer second.entry.n second.entry.levels.now M.Measure.LARGEST) (λ _. Ok (min (length first.entry.calls.now) (length first_answers.old), min (length second.entry.calls.now) (length second_answers.old)))) }
    ensures performed { IfOk result (PerformedBoth P.Price.kind P.Price.link (opened first.entry.n first.entry.levels.now M.Measure.LARGEST (M.Measure.says first.entry.measure)) first.entry.calls.now (opened second.entry.n second.entry.levels.now M.Measure.LARGEST (M.Measure.says second.entry.measure)) second.entry.calls.now (memory_of grades.old prices.old stays.old) (memory_of grades.new prices.new stays.new) first_answers.old first_answers.new second_answers.old second_answers.new) }
    ensures refusal_leaves_memory { OnErr result ((memory_of grades.new prices.new stays.new ≡ memory_of grades.old prices.old stays.old) × (first_answers.new ≡ first_answers.old) × (second_answers.new ≡ second_answers.old)) }
{
    let mut one = Sheet::<M, P>::open(first.n, first.levels, first.measure)?;
    let mut other = Sheet::<M, P>::open(second.n, second.levels, second.measure)?;
    let done = replay(&mut one, first.calls, grades, prices, stays, first_answers);
    let also_done = replay(
        &mut other,
        second.calls,
        grades,
        prices,
        stays,
        second_answers,
    );
    Ok((done, also_done))
}
