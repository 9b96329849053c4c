// Reads family packs as lines of hexadecimal digits and prints a verdict for each.
#![tactic(auto)]

use arguments::begin_telling;
use hexadecimal::unhex;
use marker::pack::mark_pack;
use marker::verdict::Verdict;
use progress::teller::Teller;
use std::io::{BufRead, BufReader};
use std::process::ExitCode;

const HELP: &str = "mark_hex [--progress] < PACKS
Reads family packs, one a line in hexadecimal digits, and prints the verdict of each, or not hex.
--progress  tells on standard error, at most once a second, how many lines are done
Example: mark_hex --progress < crates/mark_hex/stdin
";

// Marks the packs on standard input.
fn run(rt: &HostRuntime) -> anyhow::Result<()> {
    let Some((progress, _)) = begin_telling(rt, 0, HELP)? else {
        return Ok(());
    };
    let heap = rt.alloc();
    let mut teller = Teller::new(rt, progress, None, "lines");
    for line in BufReader::new(heap, rt.stdin())?.lines(heap) {
        match unhex(heap, line?.as_bytes())? {
            Some(bytes) => println!(rt; "{}", Verdict(mark_pack(bytes.as_slice())))?,
            None => rt.println("not hex")?,
        }
        teller.tell_next();
    }
    Ok(())
}

fn main(rt: HostRuntime) -> ExitCode {
    match run(&rt) {
        Ok(()) => ExitCode::SUCCESS,
        Err(error) => {
            let _ = rt.eprintln(error);
            ExitCode::FAILURE
        }
    }
}
