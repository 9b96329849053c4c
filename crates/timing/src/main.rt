// Times grading and the whole search on lines drawn from a fixed start.
#![tactic(auto)]

mod run;
mod walk;

use anyhow::Context;
use arguments::{arguments, begin_with, take_progress};
use lines::level::Level;
use lines::vertex::Vertex;
use measures::area::Area;
use measures::segment::Segment;
use measures::strip::Strip;
use prices::count::Count;
use prices::count_then_area::CountThenArea;
use prices::price::Price;
use progress::teller::Teller;
use run::{Run, Task};
use std::io;
use std::process::ExitCode;
use walk::draw_lines;

const HELP: &str = "timing [--progress] LINES VERTICES LEVELS [time]
Draws so many lines of so many vertices from a fixed start and searches each under so many levels. Prints for each measure and price the sums of both numbers of the totals,
and with time also how many microseconds grading alone and the whole search took.
--progress  tells on standard error, at most once a second, how many of the measures with each price are done
Example: timing --progress 200 100 4 time
";

// The number in an argument.
fn number(text: &str) -> anyhow::Result<usize> {
    text.parse::<usize>()
        .context("LINES, VERTICES and LEVELS are whole numbers")
}

// Eight levels of weight 1 whose tolerances rise by a factor.
fn eight_levels(first: u32, factor: u32) -> [Level; 8] {
    let mut levels = [Level {
        tolerance: first,
        weight: 1,
    }; 8];
    let mut tolerance = first;
    for level in levels.iter_mut() {
        level.tolerance = tolerance;
        tolerance = tolerance.saturating_mul(factor);
    }
    levels
}

// Times all measures under one price.
fn all_measures<P: Price>(
    rt: &HostRuntime,
    price: &str,
    task: Task,
    all: &[Vertex],
    prices: &mut [P],
    teller: &mut Teller<HostRuntime>,
) -> io::Result<()> {
    let plane = eight_levels(8, 2);
    let area = eight_levels(500, 4);
    Run::new(&Segment, task, all, &plane).time(rt, "segment", price, prices)?;
    teller.tell_next();
    Run::new(&Strip, task, all, &plane).time(rt, "strip", price, prices)?;
    teller.tell_next();
    Run::new(&Area, task, all, &area).time(rt, "area", price, prices)?;
    teller.tell_next();
    Ok(())
}

// Times all measures under both prices, by the arguments.
fn time_all(rt: &HostRuntime) -> anyhow::Result<()> {
    let mut words = arguments(rt)?;
    let progress = take_progress(&mut words);
    let shown = words.last().is_some_and(|word| word.as_str() == "time");
    let Some(words) = begin_with(rt, words, 3 + usize::from(shown), HELP)? else {
        return Ok(());
    };
    let task = Task::new(
        number(words[0].as_str())?,
        number(words[1].as_str())?,
        number(words[2].as_str())?,
        shown,
    );
    let heap = rt.alloc();
    let mut teller = Teller::new(rt, progress, Some(6), "runs");
    let all = draw_lines(heap, task.lines, task.vertices)?;
    let mut counts = vec![in heap; Count { count: 0 }; 524288]?;
    all_measures(
        rt,
        "count",
        task,
        all.as_slice(),
        counts.as_mut_slice(),
        &mut teller,
    )?;
    let mut pairs = vec![in heap; CountThenArea { count: 0, area: 0 }; 524288]?;
    all_measures(
        rt,
        "count-area",
        task,
        all.as_slice(),
        pairs.as_mut_slice(),
        &mut teller,
    )?;
    Ok(())
}

fn main(rt: HostRuntime) -> ExitCode {
    match time_all(&rt) {
        Ok(()) => ExitCode::SUCCESS,
        Err(error) => {
            let _ = rt.eprintln(error);
            ExitCode::FAILURE
        }
    }
}
