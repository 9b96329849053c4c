// Reads a job pack from standard input and writes its key to standard output: the pack of its first least family.
// A refusal is told on standard error, for standard output is bytes, and ends with status 1.
#![tactic(auto)]

use arguments::begin;
use keys::key::key_pack;
use std::io::{Read, Write};
use std::process::ExitCode;

const HELP: &str = "key < JOB > FAMILY
Reads a job pack and writes its key: the family pack of the first least family of its line.
Example: key < samples/five.job > five.family
";

// Writes the key of the job on standard input.
fn key(rt: &HostRuntime) -> anyhow::Result<()> {
    if begin(rt, 0, HELP)?.is_none() {
        return Ok(());
    }
    let heap = rt.alloc();
    let mut bytes = Vec::new(heap);
    rt.stdin().read_to_end(&mut bytes)?;
    let pack = key_pack(heap, bytes.as_slice())?;
    rt.stdout().write_all(pack.as_slice())?;
    Ok(())
}

fn main(rt: HostRuntime) -> ExitCode {
    match key(&rt) {
        Ok(()) => ExitCode::SUCCESS,
        Err(error) => {
            let _ = rt.eprintln(error);
            ExitCode::FAILURE
        }
    }
}
