ghost use Rattle.std.specs.Prelude.{◌≡◌, length, is_ok, IfOk, Ok, Err, Decides, MatchResult, OnErr, cond};
ghost use Rattle.lines.specs.Fault.{then};
ghost use Rattle.sheets.specs.Levels.{Retunable};
ghost use Rattle.sheets.specs.Settings.{opened, open_answer, pin_told, after_pin, release_told, after_release, retune_told, after_retune, LawfulSettings};
ghost use Rattle.sheets.specs.Sheet.{settings_of};
ghost use Rattle.sheets.specs.Promise.{LeastEligible, TighterNoCheaper};
ghost use Rattle.sheets.specs.Memory.{memory_of, draw_answer, draw_judged, Drawable, least_total, drawn_over};

use crate::levels::Levels;
use layers::pins::Pins;
use lines::fault::{Cause, Fault, Layer};
use lines::level::{Level, check_count, check_levels};
use lines::line::Line;
use measures::measure::Measure;
use prices::price::Price;
use search::least::find_least;
use std::marker::PhantomData;

// A sheet for lines of one number of vertices: a measure with pins over it, the levels, and a kind of price.
#[derive(Drop)]
pub struct Sheet<M, P> {
    pins: Pins<M>,
    levels: Levels,
    price: PhantomData<P>,
}

impl<M: Measure + Drop, P: Price> Sheet<M, P> {
    // Opens a sheet without pins, or refuses.
    #[tactic(auto, using(crate::proofs::Opening::opens_lawful))]
    pub fn open(n: usize, levels: &[Level], measure: M) -> Result<Sheet<M, P>, Fault>
        ensures answer { MatchResult result (λ s. (open_answer n levels.now M.Measure.LARGEST ≡ Ok tt) × (settings_of M.Measure.LARGEST M.Measure.says s ≡ opened n levels.now M.Measure.LARGEST (M.Measure.says measure))) (λ f. open_answer n levels.now M.Measure.LARGEST ≡ Err f) }
        ensures accepts_exactly_lawful { Decides (is_ok result) (LawfulSettings (opened n levels.now M.Measure.LARGEST (M.Measure.says measure))) }
        ensures lawful { IfOk result (λ s. LawfulSettings (settings_of M.Measure.LARGEST M.Measure.says s)) }
    {
        let pins = Pins::over_in(measure, n, Layer::Sheet)?;
        check_count(levels.len(), Layer::Sheet)?;
        check_levels(levels, M::LARGEST, Layer::Sheet)?;
        Ok(Sheet {
            pins,
            levels: Levels::of(levels),
            price: PhantomData,
        })
    }
}

impl<M: Measure, P: Price> Sheet<M, P> {
    // Pins a vertex, or refuses.
    pub fn pin(&mut self, v: usize) -> Result<(), Fault>
        ensures answer { result ≡ pin_told (settings_of M.Measure.LARGEST M.Measure.says self.old) v }
        ensures settings_after { settings_of M.Measure.LARGEST M.Measure.says self.new ≡ after_pin (settings_of M.Measure.LARGEST M.Measure.says self.old) v }
        ensures keeps_lawful { LawfulSettings (settings_of M.Measure.LARGEST M.Measure.says self.old) → LawfulSettings (settings_of M.Measure.LARGEST M.Measure.says self.new) }
        ensures refusal_leaves_sheet { OnErr result (self.new ≡ self.old) }
    {
        self.pins.pin_in(v, Layer::Sheet)
    }

    // Releases a vertex, or refuses.
    pub fn release(&mut self, v: usize) -> Result<(), Fault>
        ensures answer { result ≡ release_told (settings_of M.Measure.LARGEST M.Measure.says self.old) v }
        ensures settings_after { settings_of M.Measure.LARGEST M.Measure.says self.new ≡ after_release (settings_of M.Measure.LARGEST M.Measure.says self.old) v }
        ensures keeps_lawful { LawfulSettings (settings_of M.Measure.LARGEST M.Measure.says self.old) → LawfulSettings (settings_of M.Measure.LARGEST M.Measure.says self.new) }
        ensures refusal_leaves_sheet { OnErr result (self.new ≡ self.old) }
    {
        self.pins.release_in(v, Layer::Sheet)
    }

    // Sets the tolerance of a level, or refuses.
    #[tactic(auto, using(crate::proofs::Retuning::retunes, crate::proofs::Retuning::stays_lawful))]
    pub fn retune(&mut self, k: usize, t: u32) -> Result<(), Fault>
        ensures answer { result ≡ retune_told (settings_of M.Measure.LARGEST M.Measure.says self.old) k t }
        ensures accepts_exactly_lawful { LawfulSettings (settings_of M.Measure.LARGEST M.Measure.says self.old) → Decides (is_ok result) (Retunable M.Measure.LARGEST (settings_of M.Measure.LARGEST M.Measure.says self.old).levels k t) }
        ensures settings_after { settings_of M.Measure.LARGEST M.Measure.says self.new ≡ after_retune (settings_of M.Measure.LARGEST M.Measure.says self.old) k t }
        ensures keeps_lawful { LawfulSettings (settings_of M.Measure.LARGEST M.Measure.says self.old) → LawfulSettings (settings_of M.Measure.LARGEST M.Measure.says self.new) }
        ensures refusal_leaves_sheet { OnErr result (self.new ≡ self.old) }
    {
        self.levels.retune(k, t, M::LARGEST)
    }

    // Draws a line: answers the total of its first least family, and writes grades, prices and stays; or refuses and writes nothing.
    pub fn draw(
        &self,
        line: &Line,
        grades: &mut [u8],
        prices: &mut [P],
        stays: &mut [u8],
    ) -> Result<P, Fault>
        ensures answer { result ≡ then (draw_judged (settings_of M.Measure.LARGEST M.Measure.says self.now) (length line.now.vertices.now) (length grades.old) (length prices.old) (length stays.old)) (λ _. Ok (least_total P.Price.kind P.Price.link (settings_of M.Measure.LARGEST M.Measure.says self.now) line.now.vertices.now)) }
        ensures answer_by_settings { LawfulSettings (settings_of M.Measure.LARGEST M.Measure.says self.now) → result ≡ then (draw_answer (settings_of M.Measure.LARGEST M.Measure.says self.now) (length line.now.vertices.now) (length grades.old) (length prices.old) (length stays.old)) (λ _. Ok (least_total P.Price.kind P.Price.link (settings_of M.Measure.LARGEST M.Measure.says self.now) line.now.vertices.now)) }
        ensures accepts_exactly_drawable { Decides (is_ok result) (Drawable (settings_of M.Measure.LARGEST M.Measure.says self.now) (length line.now.vertices.now) (length grades.old) (length prices.old) (length stays.old)) }
        ensures nothing_cheaper { IfOk result (λ sum. LeastEligible P.Price.kind P.Price.link (settings_of M.Measure.LARGEST M.Measure.says self.now) line.now.vertices.now stays.new sum) }
        ensures tighter_no_cheaper { IfOk result (λ sum. TighterNoCheaper P.Price.kind P.Price.link (settings_of M.Measure.LARGEST M.Measure.says self.now) line.now.vertices.now sum) }
        ensures memory_after { memory_of grades.new prices.new stays.new ≡ (cond (is_ok result) (drawn_over P.Price.kind P.Price.link (settings_of M.Measure.LARGEST M.Measure.says self.now) line.now.vertices.now (memory_of grades.old prices.old stays.old)) (memory_of grades.old prices.old stays.old)) }
    {
        let n = line.count();
        if n != self.pins.count() {
            return Err(Fault::new(Cause::OtherCount, Layer::Sheet, n));
        }
        find_least(
            &self.pins,
            line,
            self.levels.as_slice(),
            grades,
            prices,
            stays,
        )
    }
}
