// The parts of a picture, as text.
ghost use Rattle.std.specs.Prelude.{◌≡◌, Some};
ghost use Rattle.pictures.specs.Shapes.{colour_text, point_text, points_text, dot_text, dots_text, band_text, bands_text, chain_text, chains_text, spots_text, all_spots_text, swatch_text, label_text, caption_text, sample_text, entry_text, entries_text, end_text};

use crate::frame::{Frame, times};
use crate::picture::{Mark, Row};
use lines::vertex::Vertex;
use std::fmt;

// The colour of a level: colours that readers with any kind of colour vision tell apart.
pub(crate) fn colour(level: u8) -> &'static str
    ensures { result.now ≡ colour_text level }
{
    match level {
        1 => "#56b4e9",
        2 => "#e69f00",
        3 => "#0072b2",
        4 => "#d55e00",
        5 => "#009e73",
        6 => "#cc79a7",
        7 => "#f0e442",
        _ => "#000000",
    }
}

// A vertex, which prints its place if it lies on the chain of a level, and else nothing.
#[derive(Clone, Copy)]
struct Point {
    frame: Frame,
    mark: Mark,
    level: u8,
}

impl fmt::Display for Point {
    ghost output = { λ point. Some (point_text point.frame point.level point.mark) };

    fn fmt<W: fmt::Write>(&self, f: &mut fmt::Formatter<W>) -> fmt::Result {
        if self.mark.stay < usize::from(self.level) {
            return Ok(());
        }
        let x = self.frame.x(self.mark.vertex);
        let y = self.frame.y(self.mark.vertex);
        write!(f, " {x},{y}")
    }
}

// The chain of a level, which prints the places of its vertices. The chain of level 0 is the line.
#[derive(Clone, Copy)]
pub(crate) struct Points<'a> {
    pub frame: Frame,
    pub marks: &'a [Mark],
    pub level: u8,
}

impl fmt::Display for Points<'_> {
    ghost output = { λ chain. Some (points_text chain.frame chain.level chain.marks.now) };

    fn fmt<W: fmt::Write>(&self, f: &mut fmt::Formatter<W>) -> fmt::Result {
        let frame = self.frame;
        let level = self.level;
        for mark in self.marks {
            let point = Point {
                frame,
                mark: *mark,
                level,
            };
            write!(f, "{point}")?;
        }
        Ok(())
    }
}

// A vertex, which prints a circle if its stay is a level, and else nothing.
#[derive(Clone, Copy)]
struct Dot {
    frame: Frame,
    mark: Mark,
    level: u8,
}

impl fmt::Display for Dot {
    ghost output = { λ dot. Some (dot_text dot.frame dot.level dot.mark) };

    fn fmt<W: fmt::Write>(&self, f: &mut fmt::Formatter<W>) -> fmt::Result {
        if self.mark.stay != usize::from(self.level) {
            return Ok(());
        }
        let x = self.frame.x(self.mark.vertex);
        let y = self.frame.y(self.mark.vertex);
        let radius = self.frame.units(u16::from(self.level) + 3);
        writeln!(f, "<circle cx='{x}' cy='{y}' r='{radius}'/>")
    }
}

// The circles of the vertices whose stay is a level.
#[derive(Clone, Copy)]
struct Dots<'a> {
    frame: Frame,
    marks: &'a [Mark],
    level: u8,
}

impl fmt::Display for Dots<'_> {
    ghost output = { λ dots. Some (dots_text dots.frame dots.level dots.marks.now) };

    fn fmt<W: fmt::Write>(&self, f: &mut fmt::Formatter<W>) -> fmt::Result {
        let frame = self.frame;
        let level = self.level;
        for mark in self.marks {
            let dot = Dot {
                frame,
                mark: *mark,
                level,
            };
            write!(f, "{dot}")?;
        }
        Ok(())
    }
}

// The band of a level's tolerance around the line.
#[derive(Clone, Copy)]
struct Band<'a> {
    frame: Frame,
    marks: &'a [Mark],
    row: Row,
}

impl fmt::Display for Band<'_> {
    ghost output = { λ band. Some (band_text band.frame band.marks.now band.row) };

    fn fmt<W: fmt::Write>(&self, f: &mut fmt::Formatter<W>) -> fmt::Result {
        let frame = self.frame;
        let colour = colour(self.row.level);
        let width = times(frame.factor, self.row.tolerance) * 2;
        let points = Points {
            frame,
            marks: self.marks,
            level: 0,
        };
        writeln!(
            f,
            "<polyline stroke='{colour}' stroke-opacity='0.2' stroke-width='{width}' points='{points}'/>"
        )
    }
}

// The chain of a level, in its colour.
#[derive(Clone, Copy)]
struct Chain<'a> {
    frame: Frame,
    marks: &'a [Mark],
    row: Row,
}

impl fmt::Display for Chain<'_> {
    ghost output = { λ chain. Some (chain_text chain.frame chain.marks.now chain.row) };

    fn fmt<W: fmt::Write>(&self, f: &mut fmt::Formatter<W>) -> fmt::Result {
        let frame = self.frame;
        let level = self.row.level;
        let colour = colour(level);
        let width = frame.units(u16::from(level) + 2);
        let points = Points {
            frame,
            marks: self.marks,
            level,
        };
        writeln!(
            f,
            "<polyline stroke='{colour}' stroke-width='{width}' points='{points}'/>"
        )
    }
}

// The circles of a level, in its colour.
#[derive(Clone, Copy)]
struct Spots<'a> {
    frame: Frame,
    marks: &'a [Mark],
    row: Row,
}

impl fmt::Display for Spots<'_> {
    ghost output = { λ spots. Some (spots_text spots.frame spots.marks.now spots.row) };

    fn fmt<W: fmt::Write>(&self, f: &mut fmt::Formatter<W>) -> fmt::Result {
        let frame = self.frame;
        let level = self.row.level;
        let colour = colour(level);
        let dots = Dots {
            frame,
            marks: self.marks,
            level,
        };
        writeln!(f, "<g fill='{colour}'>")?;
        writeln!(f, "{dots}</g>")
    }
}

// Where the swatch of a row of the legend lies, so many units thick.
#[derive(Clone, Copy)]
pub(crate) struct Swatch {
    pub frame: Frame,
    pub place: u8,
    pub thick: u16,
}

impl fmt::Display for Swatch {
    ghost output = { λ swatch. Some (swatch_text swatch.frame swatch.place swatch.thick) };

    fn fmt<W: fmt::Write>(&self, f: &mut fmt::Formatter<W>) -> fmt::Result {
        let y = self.frame.row(self.place);
        let start = self.frame.units(48);
        let long = self.frame.units(40);
        let width = self.frame.units(self.thick);
        write!(f, "d='M{start},{y}h{long}' stroke-width='{width}'")
    }
}

// Where the text of a row of the legend lies.
#[derive(Clone, Copy)]
pub(crate) struct Label {
    pub frame: Frame,
    pub place: u8,
}

impl fmt::Display for Label {
    ghost output = { λ label. Some (label_text label.frame label.place) };

    fn fmt<W: fmt::Write>(&self, f: &mut fmt::Formatter<W>) -> fmt::Result {
        let x = self.frame.units(112);
        let y = self.frame.row(self.place);
        let lower = self.frame.units(7);
        write!(f, "x='{x}' y='{y}' dy='{lower}'")
    }
}

// What the legend says of a level.
#[derive(Clone, Copy)]
struct Caption(Row);

impl fmt::Display for Caption {
    ghost output = { λ caption. Some (caption_text caption.0) };

    fn fmt<W: fmt::Write>(&self, f: &mut fmt::Formatter<W>) -> fmt::Result {
        let Row {
            level,
            tolerance,
            links,
            weight,
            ..
        } = self.0;
        write!(
            f,
            "level {level}: tolerance {tolerance}, {links} links, weight {weight}"
        )
    }
}

// The swatch of a level in the legend.
#[derive(Clone, Copy)]
struct Sample {
    frame: Frame,
    row: Row,
}

impl fmt::Display for Sample {
    ghost output = { λ sample. Some (sample_text sample.frame sample.row) };

    fn fmt<W: fmt::Write>(&self, f: &mut fmt::Formatter<W>) -> fmt::Result {
        let level = self.row.level;
        let colour = colour(level);
        let swatch = Swatch {
            frame: self.frame,
            place: self.row.place,
            thick: u16::from(level) + 2,
        };
        writeln!(f, "<path stroke='{colour}' {swatch}/>")
    }
}

// The row of a level in the legend.
#[derive(Clone, Copy)]
struct Entry {
    frame: Frame,
    row: Row,
}

impl fmt::Display for Entry {
    ghost output = { λ entry. Some (entry_text entry.frame entry.row) };

    fn fmt<W: fmt::Write>(&self, f: &mut fmt::Formatter<W>) -> fmt::Result {
        let frame = self.frame;
        let row = self.row;
        let sample = Sample { frame, row };
        let label = Label {
            frame,
            place: row.place,
        };
        let caption = Caption(row);
        write!(f, "{sample}")?;
        writeln!(f, "<text {label}>{caption}</text>")
    }
}

// An end of the line, a black square.
#[derive(Clone, Copy)]
pub(crate) struct End {
    pub frame: Frame,
    pub vertex: Vertex,
}

impl fmt::Display for End {
    ghost output = { λ end. Some (end_text end.frame end.vertex) };

    fn fmt<W: fmt::Write>(&self, f: &mut fmt::Formatter<W>) -> fmt::Result {
        let x = self.frame.x(self.vertex);
        let y = self.frame.y(self.vertex);
        let half = self.frame.units(7);
        let side = self.frame.units(14);
        write!(f, "<rect transform='translate({x},{y})' ")?;
        writeln!(
            f,
            "x='-{half}' y='-{half}' width='{side}' height='{side}'/>"
        )
    }
}

// The bands of levels, the finest first.
#[derive(Clone, Copy)]
pub(crate) struct Bands<'a> {
    pub frame: Frame,
    pub marks: &'a [Mark],
    pub rows: &'a [Row],
}

impl fmt::Display for Bands<'_> {
    ghost output = { λ all. Some (bands_text all.frame all.marks.now all.rows.now) };

    fn fmt<W: fmt::Write>(&self, f: &mut fmt::Formatter<W>) -> fmt::Result {
        let frame = self.frame;
        let marks = self.marks;
        for row in self.rows {
            let band = Band {
                frame,
                marks,
                row: *row,
            };
            write!(f, "{band}")?;
        }
        Ok(())
    }
}

// The chains of levels, the finest first.
#[derive(Clone, Copy)]
pub(crate) struct Chains<'a> {
    pub frame: Frame,
    pub marks: &'a [Mark],
    pub rows: &'a [Row],
}

impl fmt::Display for Chains<'_> {
    ghost output = { λ all. Some (chains_text all.frame all.marks.now all.rows.now) };

    fn fmt<W: fmt::Write>(&self, f: &mut fmt::Formatter<W>) -> fmt::Result {
        let frame = self.frame;
        let marks = self.marks;
        for row in self.rows {
            let chain = Chain {
                frame,
                marks,
                row: *row,
            };
            write!(f, "{chain}")?;
        }
        Ok(())
    }
}

// The circles of levels, the smallest first.
#[derive(Clone, Copy)]
pub(crate) struct AllSpots<'a> {
    pub frame: Frame,
    pub marks: &'a [Mark],
    pub rows: &'a [Row],
}

impl fmt::Display for AllSpots<'_> {
    ghost output = { λ all. Some (all_spots_text all.frame all.marks.now all.rows.now) };

    fn fmt<W: fmt::Write>(&self, f: &mut fmt::Formatter<W>) -> fmt::Result {
        let frame = self.frame;
        let marks = self.marks;
        for row in self.rows {
            let spots = Spots {
                frame,
                marks,
                row: *row,
            };
            write!(f, "{spots}")?;
        }
        Ok(())
    }
}

// The rows of levels in the legend.
#[derive(Clone, Copy)]
pub(crate) struct Entries<'a> {
    pub frame: Frame,
    pub rows: &'a [Row],
}

impl fmt::Display for Entries<'_> {
    ghost output = { λ all. Some (entries_text all.frame all.rows.now) };

    fn fmt<W: fmt::Write>(&self, f: &mut fmt::Formatter<W>) -> fmt::Result {
        let frame = self.frame;
        for row in self.rows {
            let entry = Entry { frame, row: *row };
            write!(f, "{entry}")?;
        }
        Ok(())
    }
}
