// Reads the text of a job from standard input and writes its pack to standard output.
#![tactic(auto)]

use arguments::begin;
use std::io::{Read, Write};
use std::process::ExitCode;
use texts::pack::pack_text;

const HELP: &str = "pack < TEXT > JOB
Reads the text of a job and writes its job pack.
Example: pack < samples/river.txt > river.job
";

// Packs the text on standard input. Nothing is written before the whole pack is made.
fn pack(rt: &HostRuntime) -> anyhow::Result<()> {
    if begin(rt, 0, HELP)?.is_none() {
        return Ok(());
    }
    let heap = rt.alloc();
    let mut text = Vec::new(heap);
    rt.stdin().read_to_end(&mut text)?;
    let pack = pack_text(heap, text.as_slice())?;
    rt.stdout().write_all(pack.as_slice())?;
    Ok(())
}

fn main(rt: HostRuntime) -> ExitCode {
    match pack(&rt) {
        Ok(()) => ExitCode::SUCCESS,
        Err(error) => {
            let _ = rt.eprintln(error);
            ExitCode::FAILURE
        }
    }
}
