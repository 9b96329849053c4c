// Reads a job pack from standard input and prints its first least family; a refusal ends with status 1.
#![tactic(auto)]

use arguments::begin;
use drawings::drawing::DrawError;
use drawings::pack::draw_pack;
use drawings::text::drawing_text;
use std::io::Read;
use std::process::ExitCode;

const HELP: &str = "least < JOB
Reads a job pack and prints the first least family of its line: the chain of each level and the total.
Example: least < samples/five.job
";

// Draws the job on standard input, and answers whether it is lawful.
fn draw(rt: &HostRuntime) -> anyhow::Result<bool> {
    if begin(rt, 0, HELP)?.is_none() {
        return Ok(true);
    }
    let heap = rt.alloc();
    let mut bytes = Vec::new(heap);
    rt.stdin().read_to_end(&mut bytes)?;
    let drawing = draw_pack(heap, bytes.as_slice());
    if let Err(DrawError::Refused(fault)) = drawing {
        println!(rt; "{fault}")?;
        return Ok(false);
    }
    rt.print(drawing_text(heap, &drawing?)?)?;
    Ok(true)
}

fn main(rt: HostRuntime) -> ExitCode {
    match draw(&rt) {
        Ok(true) => ExitCode::SUCCESS,
        Ok(false) => ExitCode::FAILURE,
        Err(error) => {
            let _ = rt.eprintln(error);
            ExitCode::FAILURE
        }
    }
}
