// Reads a family pack, a job pack or the text of a job from standard input and writes a picture of the family, or of the job's first least family.
#![tactic(auto)]

use arguments::{Asked, arguments, asked};
use pictures::options::{Options, read_options};
use pictures::show::{ShowError, family_pack, show_pack};
use std::io::Read;
use std::process::ExitCode;

const HELP: &str = "show [--level K] [--width PX] [--tolerance] < PACK > PICTURE
Reads a family pack, a job pack or the text of a job and writes an SVG picture of the family, or of the job's first least family.
--level K    draws the chain of level K alone
--width PX   makes the picture PX pixels wide; 1000 if not given
--tolerance  shades each level's tolerance around the line; the measure must be segment
Example: show --width 600 < samples/coast.txt > coast.svg
";

// Shows what is on standard input, and answers whether it is lawful.
fn show(rt: &HostRuntime, options: Options) -> anyhow::Result<bool> {
    let heap = rt.alloc();
    let mut bytes = Vec::new(heap);
    rt.stdin().read_to_end(&mut bytes)?;
    let pack = family_pack(heap, bytes.as_slice())?;
    let picture = show_pack(heap, pack.as_slice(), options);
    if let Err(ShowError::Refused(fault)) = picture {
        println!(rt; "{fault}")?;
        return Ok(false);
    }
    rt.print(picture?)?;
    Ok(true)
}

// Reads the options and shows what is on standard input.
fn run(rt: &HostRuntime) -> anyhow::Result<bool> {
    let words = arguments(rt)?;
    if asked(words.as_slice(), 0) == Asked::Help {
        rt.print(HELP)?;
        return Ok(true);
    }
    match read_options(words.as_slice()) {
        Ok(options) => show(rt, options),
        Err(error) => {
            rt.eprint(HELP)?;
            Err(error.into())
        }
    }
}

fn main(rt: HostRuntime) -> ExitCode {
    match run(&rt) {
        Ok(true) => ExitCode::SUCCESS,
        Ok(false) => ExitCode::FAILURE,
        Err(error) => {
            let _ = rt.eprintln(error);
            ExitCode::FAILURE
        }
    }
}
