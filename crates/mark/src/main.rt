// Reads a family pack from standard input and prints its verdict; a refusal ends with status 1.
#![tactic(auto)]

use arguments::begin;
use marker::pack::mark_pack;
use marker::verdict::Verdict;
use std::io::Read;
use std::process::ExitCode;

const HELP: &str = "mark < FAMILY
Reads a family pack and prints its verdict: valid F S with the form of its total, or the line of the refusal with status 1.
Example: mark < samples/five.family
";

// Marks standard input, and answers whether it holds a family.
fn mark(rt: &HostRuntime) -> anyhow::Result<bool> {
    if begin(rt, 0, HELP)?.is_none() {
        return Ok(true);
    }
    let mut bytes = Vec::new(rt.alloc());
    rt.stdin().read_to_end(&mut bytes)?;
    let verdict = mark_pack(bytes.as_slice());
    println!(rt; "{}", Verdict(verdict))?;
    Ok(verdict.is_ok())
}

fn main(rt: HostRuntime) -> ExitCode {
    match mark(&rt) {
        Ok(true) => ExitCode::SUCCESS,
        Ok(false) => ExitCode::FAILURE,
        Err(error) => {
            let _ = rt.eprintln(error);
            ExitCode::FAILURE
        }
    }
}
