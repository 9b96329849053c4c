// Takes texts of jobs through pack, key, mark and unpack, and prints of each the verdict on its key and the key's text.
#![tactic(auto)]

use arguments::{arguments, begin_with};
use keys::key::key_pack;
use marker::pack::mark_pack;
use marker::verdict::Verdict;
use std::alloc::Global;
use std::fs;
use std::process::ExitCode;
use texts::pack::pack_text;
use texts::unpack::unpack_text;

const HELP: &str = "pipeline TEXT ...
Takes the text of a job in each of the files TEXT through pack, key, mark and unpack, and prints the verdict on its key and the text of the key.
Example: pipeline samples/path.txt samples/river.txt
";

// Follows the text of one file.
fn follow(rt: &HostRuntime, heap: Global, path: &str) -> anyhow::Result<()> {
    let text = fs::read(rt, path)?;
    let job = pack_text(heap, text.as_slice())?;
    let key = key_pack(heap, job.as_slice())?;
    let verdict = Verdict(mark_pack(key.as_slice()));
    let read = unpack_text(heap, key.as_slice())?;
    let again = pack_text(heap, read.as_bytes())?;
    let same = again == job;
    let (job, key) = (job.len(), key.len());
    println!(rt;
        "{path}: job of {job} bytes, key of {key} bytes, {verdict}, its text gives the job back: {same}"
    )?;
    rt.print(read)?;
    Ok(())
}

// Follows the texts that the arguments name, of which there is at least one.
fn run(rt: &HostRuntime) -> anyhow::Result<()> {
    let words = arguments(rt)?;
    let wanted = words.len().max(1);
    let Some(paths) = begin_with(rt, words, wanted, HELP)? else {
        return Ok(());
    };
    for path in &paths {
        follow(rt, rt.alloc(), path)?;
    }
    Ok(())
}

fn main(rt: HostRuntime) -> ExitCode {
    match run(&rt) {
        Ok(()) => ExitCode::SUCCESS,
        Err(error) => {
            let _ = rt.eprintln(error);
            ExitCode::FAILURE
        }
    }
}
