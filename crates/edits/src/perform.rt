// Trying calls on a sheet under the measure and the price with their numbers, in memory of a heap.
ghost use Rattle.std.specs.Prelude.{◌≡◌, ◌<◌, map, length, IfOk, vec_items, slice_index_or, slice_set};
ghost use Rattle.packs.specs.Kind.{measure_largest};
ghost use Rattle.marker.specs.Pack.{measure_says};
ghost use Rattle.sheets.specs.Settings.{opened, LawfulSettings};
ghost use Rattle.sheets.specs.Sheet.{settings_of};
ghost use Rattle.sheets.specs.Memory.{memory_of};
ghost use Rattle.sheets.specs.Call.{after_call, room_of, told};
ghost use Rattle.sheets.specs.History.{history, ObeysSettings};
ghost use Rattle.sheets.specs.declared.call.Call.TheVariants.{Pin};
ghost use Rattle.edits.specs.Edit.{call_of};
ghost use Rattle.edits.specs.Perform.{formed, performed, performed_priced, performed_numbered, Gives, EachLeast, EachLeastPriced};

use crate::script::Edit;
use crate::watch::Watch;
use drawings::drawing::DrawError;
use drawings::memory::filled;
use lines::level::Level;
use lines::vertex::Vertex;
use measures::area::Area;
use measures::measure::Measure;
use measures::segment::Segment;
use measures::strip::Strip;
use packs::kind::{MeasureKind, PriceKind};
use prices::count::Count;
use prices::count_then_area::CountThenArea;
use prices::price::Price;
use search::room::Room;
use sheets::call::{Answer, Call, Drawn, Outcome};
use sheets::replay::replay;
use sheets::sheet::Sheet;
use std::alloc::{AllocError, Global};

// An answer with the form of its total.
fn form_of<P: Price>(answer: Answer<P>) -> Answer<(u32, u64)>
    ensures { result ≡ formed P.kind answer }
{
    match answer? {
        Outcome::Done => Ok(Outcome::Done),
        Outcome::Drew(drawn) => Ok(Outcome::Drew(Drawn {
            total: drawn.total.form(),
            stays: drawn.stays,
        })),
    }
}

// Answers with the forms of their totals.
fn forms_of<P: Price>(
    heap: Global,
    answers: Vec<Answer<P>>,
) -> Result<Vec<Answer<(u32, u64)>>, AllocError>
    ensures { IfOk result (λ forms. forms.items ≡ map (formed P.kind) answers.items) }
{
    answers.into_iter().map(form_of).collect(heap)
}

// Places for n answers.
fn places<P: Price>(heap: Global, n: usize) -> Result<Vec<Answer<P>>, AllocError>
    ensures { IfOk result (λ answers. length answers.items ≡ n) }
{
    let mut answers = Vec::new(heap);
    for _ in 0..n {
        answers.push(Ok(Outcome::Done))?;
    }
    Ok(answers)
}

// The calls that edits make on a sheet.
fn calls_of<'a>(
    heap: Global,
    edits: &[Edit],
    line: &'a [Vertex],
    room: Room,
) -> Result<Vec<Call<'a>>, AllocError>
    ensures { IfOk result (λ calls. calls.items ≡ map (call_of line.entry room) edits.now) }
{
    edits.iter().map(|edit| edit.call(line, room)).collect(heap)
}

// Tries call q on a sheet, and puts what it answers in place q.
fn replay_at<M: Measure, P: Price>(
    sheet: &mut Sheet<M, P>,
    calls: &[Call],
    q: usize,
    grades: &mut [u8],
    prices: &mut [P],
    stays: &mut [u8],
    answers: &mut [Answer<P>],
)
    requires lawful { LawfulSettings (settings_of M.Measure.LARGEST M.Measure.says sheet.old) }
    requires call { q < length calls.now }
    requires place { q < length answers.old }
    ensures answer { answers.new ≡ slice_set answers.old q (told P.Price.kind P.Price.link (settings_of M.Measure.LARGEST M.Measure.says sheet.old) (room_of (memory_of grades.old prices.old stays.old)) (slice_index_or calls.now q (Pin 0))) }
    ensures settings_after { settings_of M.Measure.LARGEST M.Measure.says sheet.new ≡ after_call (settings_of M.Measure.LARGEST M.Measure.says sheet.old) (slice_index_or calls.now q (Pin 0)) }
    ensures keeps_lawful { LawfulSettings (settings_of M.Measure.LARGEST M.Measure.says sheet.new) }
{
    replay(
        sheet,
        &calls[q..q + 1],
        grades,
        prices,
        stays,
        &mut answers[q..q + 1],
    );
}

// Tries calls on a sheet one after another, and tells the watch after each how many are performed.
fn replay_watched<M: Measure, P: Price, W: Watch>(
    sheet: &mut Sheet<M, P>,
    calls: &[Call],
    grades: &mut [u8],
    prices: &mut [P],
    stays: &mut [u8],
    answers: &mut [Answer<P>],
    watch: &mut W,
)
    requires lawful { LawfulSettings (settings_of M.Measure.LARGEST M.Measure.says sheet.old) }
    requires places { length answers.old ≡ length calls.now }
    ensures { ObeysSettings P.Price.kind P.Price.link (room_of (memory_of grades.old prices.old stays.old)) (history (settings_of M.Measure.LARGEST M.Measure.says sheet.old) calls.now answers.new (length calls.now)) }
{
    for q in 0..calls.len() {
        replay_at(sheet, calls, q, grades, prices, stays, answers);
        watch.done(q + 1);
    }
}

// A line and levels that a sheet is opened for, beside a measure and a kind of price, and the edits that are tried on it, in so much memory of a heap.
#[derive(Clone, Copy)]
pub(crate) struct Desk<'a> {
    pub(crate) heap: Global,
    pub(crate) line: &'a [Vertex],
    pub(crate) levels: &'a [Level],
    pub(crate) edits: &'a [Edit],
    pub(crate) room: Room,
}

impl Desk<'_> {
    // Tries the edits under a measure and a kind of price, and tells the watch after each how many are performed.
    fn perform<M: Measure + Drop, P: Price, W: Watch>(
        &self,
        measure: M,
        watch: &mut W,
    ) -> Result<Vec<Answer<(u32, u64)>>, DrawError>
        ensures told { Gives vec_items (performed P.Price.kind P.Price.link M.Measure.LARGEST (M.Measure.says measure) self.now.line.now self.now.levels.now self.now.room self.now.edits.now) result }
        ensures each_least { IfOk result (λ answers. EachLeast P.Price.kind P.Price.link (opened (length self.now.line.now) self.now.levels.now M.Measure.LARGEST (M.Measure.says measure)) self.now.line.now self.now.edits.now answers.items) }
    {
        let calls = calls_of(self.heap, self.edits, self.line, self.room)?;
        let mut grades = filled(self.heap, self.room.grades, 0u8)?;
        let mut prices = filled(self.heap, self.room.prices, P::neutral())?;
        let mut stays = filled(self.heap, self.room.stays, 0u8)?;
        let mut answers = places(self.heap, calls.len())?;
        let mut sheet = Sheet::<M, P>::open(self.line.len(), self.levels, measure)?;
        replay_watched(
            &mut sheet,
            calls.as_slice(),
            grades.as_mut_slice(),
            prices.as_mut_slice(),
            stays.as_mut_slice(),
            answers.as_mut_slice(),
            watch,
        );
        Ok(forms_of(self.heap, answers)?)
    }

    // Tries them under a measure and the price with its number. A price is a type, so its number is matched.
    fn perform_priced<M: Measure + Drop, W: Watch>(
        &self,
        measure: M,
        price: PriceKind,
        watch: &mut W,
    ) -> Result<Vec<Answer<(u32, u64)>>, DrawError>
        ensures told { Gives vec_items (performed_priced price M.Measure.LARGEST (M.Measure.says measure) self.now.line.now self.now.levels.now self.now.room self.now.edits.now) result }
        ensures each_least { IfOk result (λ answers. EachLeastPriced price (opened (length self.now.line.now) self.now.levels.now M.Measure.LARGEST (M.Measure.says measure)) self.now.line.now self.now.edits.now answers.items) }
    {
        match price {
            PriceKind::Count => self.perform::<M, Count, W>(measure, watch),
            PriceKind::CountThenArea => self.perform::<M, CountThenArea, W>(measure, watch),
        }
    }

    // Tries them under the measure and the price with their numbers. A measure has a constant, so its number is matched too.
    pub(crate) fn perform_numbered<W: Watch>(
        &self,
        measure: MeasureKind,
        price: PriceKind,
        watch: &mut W,
    ) -> Result<Vec<Answer<(u32, u64)>>, DrawError>
        ensures told { Gives vec_items (performed_numbered measure price self.now.line.now self.now.levels.now self.now.room self.now.edits.now) result }
        ensures each_least { IfOk result (λ answers. EachLeastPriced price (opened (length self.now.line.now) self.now.levels.now (measure_largest measure) (measure_says measure)) self.now.line.now self.now.edits.now answers.items) }
    {
        match measure {
            MeasureKind::Segment => self.perform_priced(Segment, price, watch),
            MeasureKind::Strip => self.perform_priced(Strip, price, watch),
            MeasureKind::Area => self.perform_priced(Area, price, watch),
        }
    }
}
