// Where a line lies in its picture, and how large things are drawn.
ghost use Rattle.std.specs.Prelude.{◌≡◌, ◌*◌, ◌≤◌};
ghost use Rattle.pictures.specs.Exact.{ExactMap};
ghost use Rattle.pictures.specs.Frame.{x_of, y_of, row_of, units_of, tall_of, frame_around, widest, frame_of};

use crate::bounds::Bounds;
use crate::picture::{Mark, Row};
use lines::vertex::Vertex;

// The frame of a picture. Distances of the line are multiplied by the factor; all sizes are whole multiples of the unit.
#[derive(Clone, Copy, PartialEq, Eq, Debug)]
pub struct Frame {
    // The left top of the line's bounding box, and where it lies in the picture.
    pub corner: Vertex,
    pub across: u32,
    pub down: u32,
    pub factor: u16,
    pub unit: u32,
    // Where the first row of the legend lies, and the size of the whole picture.
    pub legend: u32,
    pub width: u32,
    pub height: u32,
}

// The product.
pub(crate) fn times(a: u16, b: u32) -> u64
    ensures product { result ≡ a * b }
    ensures small { a ≤ 4001 → b ≤ 200000 → result ≤ 800200000 }
{
    u64::from(a) * u64::from(b)
}

// The largest of the tolerances, and at most 65,535.
fn widest(rows: &[Row]) -> u16
    ensures { result ≡ widest 0 rows.now }
{
    let mut most = 0;
    for row in rows {
        most = most.max(row.tolerance.min(65535) as u16);
    }
    most
}

impl Frame {
    // The frame of a line with bands, by its bounding box, and a legend of so many rows of levels, at most 8.
    pub fn of(ends: (Vertex, Vertex), marks: &[Mark], banded: &[Row], rows: u8) -> Frame
        ensures value { result ≡ frame_of ends marks.now banded.now rows }
        ensures exact { ExactMap result ends marks.now }
    {
        let bounds = Bounds::at(ends.0).with(ends.1).around(marks);
        Frame::around(bounds, widest(banded), rows.min(8) + 2)
    }

    // The frame of a line in a box, with a band so far around the line, and a legend of so many rows.
    fn around(bounds: Bounds, band: u16, rows: u8) -> Frame
        requires { rows ≤ 10 }
        ensures { result ≡ frame_around bounds band rows }
    {
        let wide = bounds.wide();
        let high = bounds.high();
        let side = u32::from(wide.max(high).max(1)) + 2 * u32::from(band);
        let factor = 4000 / (side.min(4001) as u16) + 1;
        let unit = (times(factor, side) / 800) as u32;
        let line = times(factor, u32::from(wide)) as u32;
        let inner = line.max(720 * unit);
        let margin = 40 * unit + times(factor, u32::from(band)) as u32;
        let legend = margin + times(factor, u32::from(high)) as u32 + margin + 8 * unit;
        Frame {
            corner: Vertex {
                x: bounds.left,
                y: bounds.top,
            },
            across: margin + (inner - line) / 2,
            down: margin,
            factor,
            unit,
            legend,
            width: inner + 2 * margin,
            height: legend + u32::from(rows) * 32 * unit + 24 * unit,
        }
    }

    // How far to the right of the picture's left edge a vertex lies.
    pub fn x(self, v: Vertex) -> u64
        ensures { result ≡ x_of self v }
    {
        u64::from(self.across) + times(self.factor, u32::from(v.x.abs_diff(self.corner.x)))
    }

    // How far below the picture's top edge a vertex lies: the higher, the less.
    pub fn y(self, v: Vertex) -> u64
        ensures { result ≡ y_of self v }
    {
        u64::from(self.down) + times(self.factor, u32::from(v.y.abs_diff(self.corner.y)))
    }

    // How many pixels high a picture is that is so many pixels wide.
    pub fn tall(self, pixels: u16) -> u64
        ensures { result ≡ tall_of self pixels }
    {
        times(pixels, self.height) / u64::from(self.width.max(1))
    }

    // So many units.
    pub fn units(self, n: u16) -> u64
        ensures { result ≡ units_of self n }
    {
        times(n, self.unit)
    }

    // How far below the picture's top edge a row of the legend lies, counted from 0.
    pub fn row(self, place: u8) -> u64
        ensures { result ≡ row_of self place }
    {
        u64::from(self.legend) + self.units(32 * u16::from(place))
    }
}
