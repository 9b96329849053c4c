// Reads lines of a job pack in hexadecimal digits, a space, and edits between semicolons, and prints what each edit did, or the line of what cannot be read.
#![tactic(auto)]

use arguments::begin_telling;
use drawings::drawing::DrawError;
use edits::job::edit_job;
use edits::script::{ScriptError, read_script};
use edits::text::edits_text;
use hexadecimal::unhex;
use progress::teller::Teller;
use std::alloc::Global;
use std::io::{BufRead, BufReader};
use std::process::ExitCode;

const HELP: &str = "edit_hex [--progress] < JOBS
Reads job packs with scripts, one a line: the pack in hexadecimal digits, a space, and edits between semicolons. Prints what each edit did, or what cannot be read.
--progress  tells on standard error, at most once a second, how many lines are done
Example: edit_hex --progress < crates/edit_hex/stdin
";

// The text of the edits that a script orders of the job, or the line of the script or of the pack that cannot be read.
fn edited(heap: Global, bytes: &[u8], script: &[u8]) -> anyhow::Result<String> {
    let edits = read_script(heap, script);
    if let Err(error @ ScriptError::Line(_)) = edits {
        return Ok(format!(in heap; "{error}\n")?);
    }
    let edits = edits?;
    let edited = edit_job(heap, bytes, edits.as_slice());
    if let Err(DrawError::Refused(fault)) = edited {
        return Ok(format!(in heap; "{fault}\n")?);
    }
    Ok(edits_text(heap, edits.as_slice(), &edited?)?)
}

// Edits the jobs on standard input.
fn run(rt: &HostRuntime) -> anyhow::Result<()> {
    let Some((progress, _)) = begin_telling(rt, 0, HELP)? else {
        return Ok(());
    };
    let heap = rt.alloc();
    let mut teller = Teller::new(rt, progress, None, "lines");
    for line in BufReader::new(heap, rt.stdin())?.lines(heap) {
        let line = line?;
        let (digits, edits) = line.split_once(' ').unwrap_or((line.as_str(), ""));
        let script = edits.replace(heap, ';', "\n")?;
        match unhex(heap, digits.as_bytes())? {
            Some(bytes) => rt.print(edited(heap, bytes.as_slice(), script.as_bytes())?)?,
            None => rt.println("not hex")?,
        }
        teller.tell_next();
    }
    Ok(())
}

fn main(rt: HostRuntime) -> ExitCode {
    match run(&rt) {
        Ok(()) => ExitCode::SUCCESS,
        Err(error) => {
            let _ = rt.eprintln(error);
            ExitCode::FAILURE
        }
    }
}
