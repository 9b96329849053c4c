// Reads lines of a program's name and a pack in hexadecimal digits, and prints what that program prints for the pack.
#![tactic(auto)]

use anyhow::anyhow;
use arguments::begin_telling;
use drawings::drawing::DrawError;
use drawings::pack::draw_pack;
use drawings::text::drawing_text;
use edits::job::draw_job;
use edits::script::Edit;
use edits::text::edits_text;
use hexadecimal::unhex;
use marker::pack::mark_pack;
use marker::verdict::Verdict;
use progress::teller::Teller;
use std::alloc::Global;
use std::io::{BufRead, BufReader};
use std::process::ExitCode;

const HELP: &str = "compared [--progress] < PACKS
Reads lines of mark, least or draw, a space, and a pack in hexadecimal digits, and prints what the program of that name prints for the pack, or not hex.
--progress  tells on standard error, at most once a second, how many lines are done
Example: compared --progress < crates/compared/stdin
";

// The line of the verdict.
fn mark(heap: Global, bytes: &[u8]) -> anyhow::Result<String> {
    let verdict = Verdict(mark_pack(bytes));
    Ok(format!(in heap; "{verdict}\n")?)
}

// The lines of the first least family, or of the refusal.
fn least(heap: Global, bytes: &[u8]) -> anyhow::Result<String> {
    match draw_pack(heap, bytes) {
        Err(DrawError::Refused(fault)) => Ok(format!(in heap; "{fault}\n")?),
        drawing => Ok(drawing_text(heap, &drawing?)?),
    }
}

// The lines of what a sheet draws, or of the refusal.
fn draw(heap: Global, bytes: &[u8]) -> anyhow::Result<String> {
    match draw_job(heap, bytes) {
        Err(DrawError::Refused(fault)) => Ok(format!(in heap; "{fault}\n")?),
        edited => Ok(edits_text(heap, &[Edit::Draw], &edited?)?),
    }
}

// What the program of this name prints.
fn printed(heap: Global, name: &str, bytes: &[u8]) -> anyhow::Result<String> {
    match name {
        "mark" => mark(heap, bytes),
        "least" => least(heap, bytes),
        "draw" => draw(heap, bytes),
        _ => Err(anyhow!("a line must begin with mark, least or draw")),
    }
}

// Prints what the programs print for the packs on standard input.
fn run(rt: &HostRuntime) -> anyhow::Result<()> {
    let Some((progress, _)) = begin_telling(rt, 0, HELP)? else {
        return Ok(());
    };
    let heap = rt.alloc();
    let mut teller = Teller::new(rt, progress, None, "lines");
    for line in BufReader::new(heap, rt.stdin())?.lines(heap) {
        let line = line?;
        let (name, digits) = line.split_once(' ').unwrap_or((line.as_str(), ""));
        match unhex(heap, digits.as_bytes())? {
            Some(bytes) => rt.print(printed(heap, name, bytes.as_slice())?)?,
            None => rt.println("not hex")?,
        }
        teller.tell_next();
    }
    Ok(())
}

fn main(rt: HostRuntime) -> ExitCode {
    match run(&rt) {
        Ok(()) => ExitCode::SUCCESS,
        Err(error) => {
            let _ = rt.eprintln(error);
            ExitCode::FAILURE
        }
    }
}
