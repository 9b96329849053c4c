// Reads a job pack or a family pack from standard input and prints its text; a refusal ends with status 1.
#![tactic(auto)]

use arguments::begin;
use drawings::drawing::DrawError;
use std::io::Read;
use std::process::ExitCode;
use texts::unpack::unpack_text;

const HELP: &str = "unpack < PACK > TEXT
Reads a job pack or a family pack and prints the text of the job, and of a family its chains and its total in lines that begin with #.
Example: unpack < samples/five.family
";

// Prints the text of the pack on standard input, and answers whether it is lawful.
fn unpack(rt: &HostRuntime) -> anyhow::Result<bool> {
    if begin(rt, 0, HELP)?.is_none() {
        return Ok(true);
    }
    let heap = rt.alloc();
    let mut bytes = Vec::new(heap);
    rt.stdin().read_to_end(&mut bytes)?;
    let text = unpack_text(heap, bytes.as_slice());
    if let Err(DrawError::Refused(fault)) = text {
        println!(rt; "{fault}")?;
        return Ok(false);
    }
    rt.print(text?)?;
    Ok(true)
}

fn main(rt: HostRuntime) -> ExitCode {
    match unpack(&rt) {
        Ok(true) => ExitCode::SUCCESS,
        Ok(false) => ExitCode::FAILURE,
        Err(error) => {
            let _ = rt.eprintln(error);
            ExitCode::FAILURE
        }
    }
}
