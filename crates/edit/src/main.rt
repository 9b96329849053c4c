// Reads a job pack from a file and a script from standard input, tries the script's edits on a sheet and prints what each did.
#![tactic(auto)]

use arguments::begin_telling;
use drawings::drawing::DrawError;
use edits::job::edit_job_watched;
use edits::script::{ScriptError, read_script};
use edits::text::edits_text;
use edits::watch::Watch;
use progress::teller::Teller;
use std::fs;
use std::io::Read;
use std::process::ExitCode;

const HELP: &str = "edit [--progress] JOB < SCRIPT
Reads a job pack from the file JOB and a script of edits, pin V, release V, retune K T and draw, and prints what each of them did on a sheet.
--progress  tells on standard error, at most once a second, how many edits are performed
Example: echo draw | edit samples/five.job
";

// Tells how many edits are performed.
#[derive(Drop)]
struct Told<'a>(Teller<'a, HostRuntime>);

impl Watch for Told<'_> {
    fn done(&mut self, edits: usize) {
        self.0.tell(edits);
    }
}

// Tries the script on standard input, and answers whether both it and the job could be read.
fn edit(rt: &HostRuntime, path: &str, progress: bool) -> anyhow::Result<bool> {
    let heap = rt.alloc();
    let bytes = fs::read(rt, path)?;
    let mut script = Vec::new(heap);
    rt.stdin().read_to_end(&mut script)?;
    let edits = read_script(heap, script.as_slice());
    if let Err(error @ ScriptError::Line(_)) = edits {
        println!(rt; "{error}")?;
        return Ok(false);
    }
    let edits = edits?;
    let mut told = Told(Teller::new(rt, progress, Some(edits.len()), "edits"));
    let edited = edit_job_watched(heap, bytes.as_slice(), edits.as_slice(), &mut told);
    if let Err(DrawError::Refused(fault)) = edited {
        println!(rt; "{fault}")?;
        return Ok(false);
    }
    rt.print(edits_text(heap, edits.as_slice(), &edited?)?)?;
    Ok(true)
}

// Edits the job that the argument names.
fn run(rt: &HostRuntime) -> anyhow::Result<bool> {
    let Some((progress, words)) = begin_telling(rt, 1, HELP)? else {
        return Ok(true);
    };
    edit(rt, words[0].as_str(), progress)
}

fn main(rt: HostRuntime) -> ExitCode {
    match run(&rt) {
        Ok(true) => ExitCode::SUCCESS,
        Ok(false) => ExitCode::FAILURE,
        Err(error) => {
            let _ = rt.eprintln(error);
            ExitCode::FAILURE
        }
    }
}
