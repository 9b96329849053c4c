// Reads a family pack from standard input and prints its report; a refusal ends with status 1.
#![tactic(auto)]

use arguments::begin;
use drawings::drawing::DrawError;
use reports::report::report_pack;
use reports::text::report_text;
use std::io::Read;
use std::process::ExitCode;

const HELP: &str = "report < FAMILY
Reads a family pack and prints a table of its levels: what each keeps, what it costs, and what it would cost alone.
Example: report < samples/five.family
";

// Reports of the family on standard input, and answers whether it is a true one.
fn report(rt: &HostRuntime) -> anyhow::Result<bool> {
    if begin(rt, 0, HELP)?.is_none() {
        return Ok(true);
    }
    let heap = rt.alloc();
    let mut bytes = Vec::new(heap);
    rt.stdin().read_to_end(&mut bytes)?;
    let report = report_pack(heap, bytes.as_slice());
    if let Err(DrawError::Refused(fault)) = report {
        println!(rt; "{fault}")?;
        return Ok(false);
    }
    rt.print(report_text(heap, &report?)?)?;
    Ok(true)
}

fn main(rt: HostRuntime) -> ExitCode {
    match report(&rt) {
        Ok(true) => ExitCode::SUCCESS,
        Ok(false) => ExitCode::FAILURE,
        Err(error) => {
            let _ = rt.eprintln(error);
            ExitCode::FAILURE
        }
    }
}
