// The picture of a family.
ghost use Rattle.std.specs.Prelude.{Some};
ghost use Rattle.pictures.specs.Picture.{opening_text, view_text, ground_text, original_text, strokes_text, font_text, whole_text, total_text, legend_text, picture_text};

use crate::frame::Frame;
use crate::shapes::{AllSpots, Bands, Chains, End, Entries, Label, Points, Swatch};
use lines::vertex::Vertex;
use std::fmt;

// A vertex and its stay.
#[derive(Clone, Copy, Debug)]
pub struct Mark {
    pub vertex: Vertex,
    pub stay: usize,
}

// A level that is drawn: its row in the legend, counted from 0, and what stands there.
#[derive(Clone, Copy, Debug)]
pub struct Row {
    pub place: u8,
    pub level: u8,
    pub tolerance: u32,
    pub links: usize,
    pub weight: u32,
}

// The beginning of a picture so many pixels wide.
#[derive(Clone, Copy)]
struct Opening {
    frame: Frame,
    pixels: u16,
}

impl fmt::Display for Opening {
    ghost output = { λ opening. Some (opening_text opening.frame opening.pixels) };

    fn fmt<W: fmt::Write>(&self, f: &mut fmt::Formatter<W>) -> fmt::Result {
        let wide = self.pixels;
        let high = self.frame.tall(wide);
        write!(
            f,
            "<svg xmlns='http://www.w3.org/2000/svg' width='{wide}' height='{high}'"
        )
    }
}

// The part of the plane that a picture shows.
#[derive(Clone, Copy)]
struct View(Frame);

impl fmt::Display for View {
    ghost output = { λ view. Some (view_text view.0) };

    fn fmt<W: fmt::Write>(&self, f: &mut fmt::Formatter<W>) -> fmt::Result {
        let Frame { width, height, .. } = self.0;
        writeln!(f, " viewBox='0 0 {width} {height}'>")
    }
}

// The white ground.
#[derive(Clone, Copy)]
struct Ground(Frame);

impl fmt::Display for Ground {
    ghost output = { λ ground. Some (ground_text ground.0) };

    fn fmt<W: fmt::Write>(&self, f: &mut fmt::Formatter<W>) -> fmt::Result {
        let Frame { width, height, .. } = self.0;
        writeln!(
            f,
            "<rect width='{width}' height='{height}' fill='#ffffff'/>"
        )
    }
}

// The line itself, thin and grey.
#[derive(Clone, Copy)]
struct Original<'a> {
    frame: Frame,
    marks: &'a [Mark],
}

impl fmt::Display for Original<'_> {
    ghost output = { λ line. Some (original_text line.frame line.marks.now) };

    fn fmt<W: fmt::Write>(&self, f: &mut fmt::Formatter<W>) -> fmt::Result {
        let frame = self.frame;
        let width = frame.units(2);
        let points = Points {
            frame,
            marks: self.marks,
            level: 0,
        };
        writeln!(
            f,
            "<polyline stroke='#777777' stroke-width='{width}' points='{points}'/>"
        )
    }
}

// The bands, the line itself and the chains.
#[derive(Clone, Copy)]
struct Strokes<'a> {
    frame: Frame,
    marks: &'a [Mark],
    banded: &'a [Row],
    rows: &'a [Row],
}

impl fmt::Display for Strokes<'_> {
    ghost output = { λ all. Some (strokes_text all.frame all.marks.now all.banded.now all.rows.now) };

    fn fmt<W: fmt::Write>(&self, f: &mut fmt::Formatter<W>) -> fmt::Result {
        let frame = self.frame;
        let marks = self.marks;
        let bands = Bands {
            frame,
            marks,
            rows: self.banded,
        };
        let line = Original { frame, marks };
        let chains = Chains {
            frame,
            marks,
            rows: self.rows,
        };
        writeln!(
            f,
            "<g fill='none' stroke-linecap='round' stroke-linejoin='round'>"
        )?;
        write!(f, "{bands}{line}")?;
        writeln!(f, "{chains}</g>")
    }
}

// The size of the text.
#[derive(Clone, Copy)]
struct Font(Frame);

impl fmt::Display for Font {
    ghost output = { λ font. Some (font_text font.0) };

    fn fmt<W: fmt::Write>(&self, f: &mut fmt::Formatter<W>) -> fmt::Result {
        let size = self.0.units(20);
        write!(f, "font-family='sans-serif' font-size='{size}'")
    }
}

// The row of a line of so many vertices in the legend.
#[derive(Clone, Copy)]
struct Whole {
    frame: Frame,
    count: usize,
}

impl fmt::Display for Whole {
    ghost output = { λ whole. Some (whole_text whole.frame whole.count) };

    fn fmt<W: fmt::Write>(&self, f: &mut fmt::Formatter<W>) -> fmt::Result {
        let frame = self.frame;
        let count = self.count;
        let swatch = Swatch {
            frame,
            place: 0,
            thick: 2,
        };
        let label = Label { frame, place: 0 };
        writeln!(f, "<path stroke='#777777' {swatch}/>")?;
        writeln!(f, "<text {label}>line of {count} vertices</text>")
    }
}

// The row of a total in the legend.
#[derive(Clone, Copy)]
struct Total {
    frame: Frame,
    place: u8,
    form: (u32, u64),
}

impl fmt::Display for Total {
    ghost output = { λ total. Some (total_text total.frame total.place total.form) };

    fn fmt<W: fmt::Write>(&self, f: &mut fmt::Formatter<W>) -> fmt::Result {
        let label = Label {
            frame: self.frame,
            place: self.place,
        };
        let (first, second) = self.form;
        writeln!(f, "<text {label}>total {first} {second}</text>")
    }
}

// The legend: a row for the line, one for each level, and one for the total.
#[derive(Clone, Copy)]
struct Legend<'a> {
    frame: Frame,
    count: usize,
    rows: &'a [Row],
    place: u8,
    form: (u32, u64),
}

impl fmt::Display for Legend<'_> {
    ghost output = { λ legend. Some (legend_text legend.frame legend.count legend.rows.now legend.place legend.form) };

    fn fmt<W: fmt::Write>(&self, f: &mut fmt::Formatter<W>) -> fmt::Result {
        let frame = self.frame;
        let font = Font(frame);
        let whole = Whole {
            frame,
            count: self.count,
        };
        let entries = Entries {
            frame,
            rows: self.rows,
        };
        let total = Total {
            frame,
            place: self.place,
            form: self.form,
        };
        writeln!(f, "<g {font}>")?;
        write!(f, "{whole}{entries}")?;
        writeln!(f, "{total}</g>")
    }
}

// A picture of a family, so many pixels wide: the levels that are drawn, those of them with a band, the ends of the line, the total
// and its row in the legend.
#[derive(Clone, Copy)]
pub struct Picture<'a> {
    pub frame: Frame,
    pub pixels: u16,
    pub marks: &'a [Mark],
    pub banded: &'a [Row],
    pub rows: &'a [Row],
    pub ends: (Vertex, Vertex),
    pub place: u8,
    pub total: (u32, u64),
}

impl fmt::Display for Picture<'_> {
    ghost output = { λ p. Some (picture_text p.frame p.pixels p.marks.now p.banded.now p.rows.now p.ends p.place p.total) };

    #[tactic(auto, unfolding(crate::specs::Picture::picture_text))]
    fn fmt<W: fmt::Write>(&self, f: &mut fmt::Formatter<W>) -> fmt::Result {
        let frame = self.frame;
        let marks = self.marks;
        let rows = self.rows;
        let opening = Opening {
            frame,
            pixels: self.pixels,
        };
        let view = View(frame);
        let ground = Ground(frame);
        let strokes = Strokes {
            frame,
            marks,
            banded: self.banded,
            rows,
        };
        let spots = AllSpots { frame, marks, rows };
        let first = End {
            frame,
            vertex: self.ends.0,
        };
        let last = End {
            frame,
            vertex: self.ends.1,
        };
        let legend = Legend {
            frame,
            count: marks.len(),
            rows,
            place: self.place,
            form: self.total,
        };
        write!(f, "{opening}{view}{ground}{strokes}")?;
        write!(f, "{spots}{first}{last}")?;
        writeln!(f, "{legend}</svg>")
    }
}
