ghost use Rattle.std.specs.Prelude.{◌≡◌, ◌≤◌, [], ◌∷◌, ◌++◌, ◌==◌, is_ok, position, Decides, MatchResult, OnOk};
ghost use Rattle.families.specs.Pin.{clear};
ghost use Rattle.lines.specs.declared.fault.Cause.TheVariants.{Limits};
ghost use Rattle.lines.specs.declared.fault.Layer.TheVariants.{Content};
ghost use Rattle.lines.specs.Fault.{fault};
ghost use Rattle.layers.specs.Pins.{is_inner, over_pins, pin_answer, release_answer, without, LawfulPins, LawfulPins-prop, Adds, TakesOut};
ghost use Rattle.layers.specs.Layered.{over_pins_rules};

use arrayvec::ArrayVec;
use lines::fault::{Cause, Fault, Layer};
use lines::level::Level;
use lines::line::{Line, check_size};
use measures::measure::Measure;

// Pins over a measure, for lines of one number of vertices: no link may skip a pin. The pins stand in the order of pinning.
#[derive(Drop)]
pub struct Pins<M> {
    below: M,
    // the number of vertices of a line, not of the pins
    count: usize,
    pins: ArrayVec<usize, 32>,
    pub ghost lawful: { LawfulPins count pins.items } by { LawfulPins-prop count pins.items },
}

impl<M: Drop> Pins<M> {
    // No pins yet, over the measure `below`, for lines of n vertices, for the layer that asks.
    pub fn over_in(below: M, n: usize, layer: Layer) -> Result<Pins<M>, Fault>
        ensures limits { Decides (is_ok result) ((2 ≤ n) × (n ≤ 256)) }
        ensures answer { MatchResult result (λ p. (p.below ≡ below) × (p.count ≡ n) × (p.pins.items ≡ [])) (λ f. f ≡ fault Limits layer 0) }
    {
        check_size(n, layer)?;
        Ok(Pins {
            below,
            count: n,
            pins: ArrayVec::new(),
        })
    }

    // No pins yet, over the measure `below`, for lines of n vertices. A call of its own beside `over_in`: who makes a layer names no layer.
    pub fn over(below: M, n: usize) -> Result<Pins<M>, Fault>
        ensures limits { Decides (is_ok result) ((2 ≤ n) × (n ≤ 256)) }
        ensures answer { MatchResult result (λ p. (p.below ≡ below) × (p.count ≡ n) × (p.pins.items ≡ [])) (λ f. f ≡ fault Limits Content 0) }
    {
        Pins::over_in(below, n, Layer::Content)
    }
}

impl<M> Pins<M> {
    ghost use Rattle.layers.specs.LayerAfter.{LayerAfter};

    // The measure below.
    pub fn below(&self) -> &M
        ensures { result.now ≡ self.now.below }
    {
        &self.below
    }

    // The number of vertices.
    pub fn count(&self) -> usize
        ensures { result ≡ self.now.count }
    {
        self.count
    }

    // The pins, in the order of pinning.
    pub fn pins(&self) -> &[usize]
        ensures { result.now ≡ self.now.pins.items }
    {
        &self.pins
    }

    // Pins v, for the layer that asks: it comes after the other pins.
    #[tactic(auto, using(crate::proofs::Listing::has_is))]
    pub fn pin_in(&mut self, v: usize, layer: Layer) -> Result<(), Fault>
        ensures answer { result ≡ pin_answer layer self.old.count self.old.pins.items v }
        ensures layer_after { LayerAfter result (self.old.pins.items ++ (v ∷ [])) self.old self.new }
        ensures pins_more { OnOk result (Adds v self.old.pins.items self.new.pins.items) }
    {
        if !self.is_inner(v) {
            return Err(Fault::new(Cause::Vertex, layer, v));
        }
        if self.pins.contains(&v) {
            return Err(Fault::new(Cause::Pinned, layer, v));
        }
        if self.pins.is_full() {
            return Err(Fault::new(Cause::Full, layer, 0));
        }
        self.pins.push(v);
        Ok(())
    }

    // Releases v, for the layer that asks: the other pins keep their order.
    #[tactic(auto, using(crate::proofs::Listing::found, crate::proofs::Listing::missing))]
    pub fn release_in(&mut self, v: usize, layer: Layer) -> Result<(), Fault>
        ensures answer { result ≡ release_answer layer self.old.count self.old.pins.items v }
        ensures layer_after { LayerAfter result (without v self.old.pins.items) self.old self.new }
        ensures pins_less { OnOk result (TakesOut v self.old.pins.items self.new.pins.items) }
    {
        if !self.is_inner(v) {
            return Err(Fault::new(Cause::Vertex, layer, v));
        }
        let Some(place) = self.place(v) else {
            return Err(Fault::new(Cause::NotPinned, layer, v));
        };
        self.pins.remove(place);
        Ok(())
    }

    // Pins v: it comes after the other pins. A call of its own beside `pin_in`: who pins a layer names no layer.
    pub fn pin(&mut self, v: usize) -> Result<(), Fault>
        ensures answer { result ≡ pin_answer Content self.old.count self.old.pins.items v }
        ensures layer_after { LayerAfter result (self.old.pins.items ++ (v ∷ [])) self.old self.new }
        ensures pins_more { OnOk result (Adds v self.old.pins.items self.new.pins.items) }
    {
        self.pin_in(v, Layer::Content)
    }

    // Releases v: the other pins keep their order. A call of its own beside `release_in`, as `pin` is.
    pub fn release(&mut self, v: usize) -> Result<(), Fault>
        ensures answer { result ≡ release_answer Content self.old.count self.old.pins.items v }
        ensures layer_after { LayerAfter result (without v self.old.pins.items) self.old self.new }
        ensures pins_less { OnOk result (TakesOut v self.old.pins.items self.new.pins.items) }
    {
        self.release_in(v, Layer::Content)
    }

    // Whether v is an inner vertex.
    fn is_inner(&self, v: usize) -> bool
        ensures { result ≡ is_inner self.now.count v }
    {
        v > 0 && v < self.count.saturating_sub(1)
    }

    // The place at which v stands among the pins, if it is pinned.
    fn place(&self, v: usize) -> Option<usize>
        ensures { result ≡ position (λ p. p == v) self.now.pins.items }
    {
        self.pins.iter().position(|p| *p == v)
    }

    // Whether no pin lies strictly between i and j.
    fn none_between(&self, i: usize, j: usize) -> bool
        ensures { result ≡ clear self.now.pins.items i j }
    {
        !self.pins.iter().any(|p| i < *p && *p < j)
    }
}

impl<M: Measure> Measure for Pins<M> {
    const LARGEST: u32 = M::LARGEST;

    ghost LARGEST = { M.Measure.LARGEST };

    ghost says = { λ p. over_pins p.pins.items (M.Measure.says p.below) };

    ghost rules = { λ m. over_pins_rules m.pins.items (M.Measure.rules m.below) };

    fn allows(&self, line: &Line, i: usize, j: usize, t: u32) -> bool {
        self.below.allows(line, i, j, t) && self.none_between(i, j)
    }

    // The pins are looked at once, for all levels.
    fn first_level(&self, line: &Line, levels: &[Level], i: usize, j: usize) -> Option<usize> {
        if !self.none_between(i, j) {
            return None;
        }
        self.below.first_level(line, levels, i, j)
    }
}
