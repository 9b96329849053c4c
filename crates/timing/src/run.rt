// One run over many lines, timed.
use lines::level::Level;
use lines::line::Line;
use lines::vertex::Vertex;
use measures::measure::Measure;
use prices::price::Price;
use search::least::find_least;
use std::io;
use std::time::Instant;
use tables::grade_table::grade_links;

// How many lines, vertices and levels, and whether times are shown: a flag, since no value goes with it.
#[derive(Clone, Copy)]
pub struct Task {
    pub lines: usize,
    pub vertices: usize,
    levels: usize,
    shown: bool,
}

impl Task {
    pub fn new(lines: usize, vertices: usize, levels: usize, shown: bool) -> Task {
        Task {
            lines,
            vertices: vertices.clamp(2, 256),
            levels: levels.min(8),
            shown,
        }
    }
}

// The lines of a task, end to end, and the measure and the levels that they are searched under.
#[derive(Drop)]
pub struct Run<'a, M> {
    measure: &'a M,
    task: Task,
    all: &'a [Vertex],
    levels: &'a [Level],
}

impl<'a, M: Measure> Run<'a, M> {
    pub fn new(measure: &'a M, task: Task, all: &'a [Vertex], levels: &'a [Level]) -> Run<'a, M> {
        let m = task.levels.min(levels.len());
        Run {
            measure,
            task,
            all,
            levels: &levels[..m],
        }
    }

    // Grades every line once.
    fn grade_all(&self, grades: &mut [u8]) {
        for part in self.all.chunks(self.task.vertices.max(1)) {
            let mut line = Line::built_in();
            let _ = line.make(part);
            grade_links(self.measure, &line, self.levels, grades);
        }
    }

    // Searches every line once, and answers the sums of the two numbers of the totals.
    fn search_all<P: Price>(
        &self,
        grades: &mut [u8],
        prices: &mut [P],
        stays: &mut [u8],
    ) -> (u64, u64) {
        let mut first = 0u64;
        let mut second = 0u64;
        for part in self.all.chunks(self.task.vertices.max(1)) {
            let mut line = Line::built_in();
            let _ = line.make(part);
            if let Ok(total) = find_least(self.measure, &line, self.levels, grades, prices, stays) {
                let (f, s) = total.form();
                first = first.wrapping_add(u64::from(f));
                second = second.wrapping_add(s);
            }
        }
        (first, second)
    }

    // Prints the sums of the run and, if asked for, the microseconds that grading and the whole search took.
    pub fn time<P: Price>(
        &self,
        rt: &HostRuntime,
        name: &str,
        price: &str,
        prices: &mut [P],
    ) -> io::Result<()> {
        let mut grades = [0u8; 65536];
        let mut stays = [0u8; 256];
        let start = Instant::now(rt)?;
        self.grade_all(&mut grades);
        let grading = start.elapsed(rt)?.as_micros();
        let start = Instant::now(rt)?;
        let (first, second) = self.search_all(&mut grades, prices, &mut stays);
        let whole = start.elapsed(rt)?.as_micros();
        println!(rt; "{name} {price} total {first} {second}")?;
        if self.task.shown {
            println!(rt; "{name} {price} grading {grading} whole {whole}")?;
        }
        Ok(())
    }
}
