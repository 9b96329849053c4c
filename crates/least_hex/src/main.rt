// Reads job packs as lines of hexadecimal digits and prints the first least family of each, or the line of its refusal.
#![tactic(auto)]

use arguments::begin_telling;
use drawings::drawing::DrawError;
use drawings::pack::draw_pack;
use drawings::text::drawing_text;
use hexadecimal::unhex;
use progress::teller::Teller;
use std::alloc::Global;
use std::io::{BufRead, BufReader};
use std::process::ExitCode;

const HELP: &str = "least_hex [--progress] < JOBS
Reads job packs, one a line in hexadecimal digits, and prints the first least family of each, or the line of its refusal, or not hex.
--progress  tells on standard error, at most once a second, how many lines are done
Example: least_hex --progress < crates/least_hex/stdin
";

// The text of the job's drawing, or the line of the refusal.
fn drawn(heap: Global, bytes: &[u8]) -> anyhow::Result<String> {
    match draw_pack(heap, bytes) {
        Err(DrawError::Refused(fault)) => Ok(format!(in heap; "{fault}\n")?),
        drawing => Ok(drawing_text(heap, &drawing?)?),
    }
}

// Draws the jobs on standard input.
fn run(rt: &HostRuntime) -> anyhow::Result<()> {
    let Some((progress, _)) = begin_telling(rt, 0, HELP)? else {
        return Ok(());
    };
    let heap = rt.alloc();
    let mut teller = Teller::new(rt, progress, None, "lines");
    for line in BufReader::new(heap, rt.stdin())?.lines(heap) {
        match unhex(heap, line?.as_bytes())? {
            Some(bytes) => rt.print(drawn(heap, bytes.as_slice())?)?,
            None => rt.println("not hex")?,
        }
        teller.tell_next();
    }
    Ok(())
}

fn main(rt: HostRuntime) -> ExitCode {
    match run(&rt) {
        Ok(()) => ExitCode::SUCCESS,
        Err(error) => {
            let _ = rt.eprintln(error);
            ExitCode::FAILURE
        }
    }
}
