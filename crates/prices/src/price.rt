ghost use Rattle.std.specs.Prelude.{◌≡◌, ℕ, Decides};
ghost use Rattle.families.specs.Price.{Kind, Same, Rules};
ghost use Rattle.prices.specs.Price.{LinkPrice, NoLinkIsNeutral};

use lines::line::Line;

// A kind of price is a type. `kind` is what its calls mean and `link` what a link costs; every kind shows its rules.
pub trait Price: Copy {
    ghost kind: { Kind Self };

    ghost link: { LinkPrice Self };

    // The price that changes nothing.
    fn neutral() -> Self
        ensures { result ≡ kind.neutral };

    // Two prices joined.
    fn join(self, other: Self) -> Self
        ensures { result ≡ kind.join self other };

    // Whether this price is not dearer than the other. No `PartialOrd`: an order may differ from that of the form.
    fn not_dearer(self, other: Self) -> bool
        ensures { result ≡ kind.not_dearer self other };

    // What the link from i to j costs at a weight; a pair that is no link costs the neutral price.
    fn of_link(line: &Line, i: usize, j: usize, weight: u32) -> Self
        ensures { result ≡ link line.now.vertices.now i j weight };

    // The price as two numbers, by which it is written down.
    fn form(self) -> (u32, u64)
        ensures { result ≡ kind.form self };

    // Whether both are the same price: their forms are equal.
    fn equals(self, other: Self) -> bool
        ensures { Decides result (Same kind self other) }
    {
        self.form() == other.form()
    }

    ghost rules: { Rules kind };

    ghost neutral_without_link: { NoLinkIsNeutral kind link };
}
