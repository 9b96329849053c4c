// Reads a job pack from standard input and prints what a sheet draws of it; a refusal ends with status 1.
#![tactic(auto)]

use arguments::begin;
use drawings::drawing::DrawError;
use edits::job::draw_job;
use edits::script::Edit;
use edits::text::edits_text;
use std::io::Read;
use std::process::ExitCode;

const HELP: &str = "draw < JOB
Reads a job pack, draws its line on a small sheet and prints the chain of each level and the total.
Example: draw < samples/five.job
";

// Draws the job on standard input, and answers whether nothing was refused.
fn draw(rt: &HostRuntime) -> anyhow::Result<bool> {
    if begin(rt, 0, HELP)?.is_none() {
        return Ok(true);
    }
    let heap = rt.alloc();
    let mut bytes = Vec::new(heap);
    rt.stdin().read_to_end(&mut bytes)?;
    let edited = draw_job(heap, bytes.as_slice());
    if let Err(DrawError::Refused(fault)) = edited {
        println!(rt; "{fault}")?;
        return Ok(false);
    }
    let edited = edited?;
    rt.print(edits_text(heap, &[Edit::Draw], &edited)?)?;
    Ok(edited.all_accepted())
}

fn main(rt: HostRuntime) -> ExitCode {
    match draw(&rt) {
        Ok(true) => ExitCode::SUCCESS,
        Ok(false) => ExitCode::FAILURE,
        Err(error) => {
            let _ = rt.eprintln(error);
            ExitCode::FAILURE
        }
    }
}
