// The arguments of programs, and what they ask for.
#![tactic(auto)]

ghost use Rattle.std.specs.Prelude.{◌≡◌, map, string_bytes, vec_items, vec_len, IfOk, IfSome};
ghost use Rattle.arguments.specs.Asked.{asks_help, asked_by, asks_progress, behind_progress, BeginsWith};

mod request;
#[cfg(test)]
mod tests;

use anyhow::anyhow;
pub use request::Asked;
use std::env::Env;
use std::io::Print;
use std::{env, io};

// Whether one of the arguments is --help.
fn asks_help(words: &[String]) -> bool
    ensures { result ≡ asks_help (map string_bytes words.now) }
{
    words
        .iter()
        .any(|word| word.as_bytes() == b"--help".as_slice())
}

// What the arguments of a program that takes so many ask for.
pub fn asked(words: &[String], wanted: usize) -> Asked
    ensures { result ≡ asked_by (map string_bytes words.now) wanted }
{
    if asks_help(words) {
        Asked::Help
    } else if words.len() == wanted {
        Asked::Work
    } else {
        Asked::Unknown
    }
}

// The arguments of the program, behind its name. The system gives them, and no contract says which they are.
pub fn arguments<R: Env + AllocGlobal>(rt: &R) -> io::Result<Vec<String>> {
    Ok(env::args(rt)?.skip(1).collect(rt.alloc())?)
}

// Takes off a --progress that stands first, and answers whether one did.
pub fn take_progress(words: &mut Vec<String>) -> bool
    ensures answer { result ≡ asks_progress (map string_bytes words.old.items) }
    ensures rest { words.new.items ≡ behind_progress result words.old.items }
{
    let asked = match words.first() {
        Some(word) => word.as_bytes() == b"--progress".as_slice(),
        None => false,
    };
    if asked {
        words.remove(0);
    }
    asked
}

// The arguments with which a program that takes so many begins its work. If they ask for help, that is printed and there is no work;
// arguments that the program does not take are an error, in front of which it is told on standard error.
pub fn begin<R: Env + AllocGlobal + Print + Eprint>(
    rt: &R,
    wanted: usize,
    help: &'static str,
) -> anyhow::Result<Option<Vec<String>>>
    ensures { IfOk result (λ begun. IfSome begun (λ words. vec_len words ≡ wanted)) }
{
    begin_with(rt, arguments(rt)?, wanted, help)
}

// The same, of arguments that were read.
pub fn begin_with<R: Print + Eprint>(
    rt: &R,
    words: Vec<String>,
    wanted: usize,
    help: &'static str,
) -> anyhow::Result<Option<Vec<String>>>
    ensures answer { BeginsWith (asked_by (map string_bytes words.items) wanted) words result }
    ensures count { IfOk result (λ begun. IfSome begun (λ begun_words. vec_len begun_words ≡ wanted)) }
{
    match asked(words.as_slice(), wanted) {
        Asked::Work => Ok(Some(words)),
        Asked::Help => {
            rt.print(help)?;
            Ok(None)
        }
        // An error of anyhow holds 120 bytes.
        Asked::Unknown => {
            rt.eprint(help)?;
            Err(anyhow!("wrong arguments"))
        }
    }
}

// The same for a program that may be asked for its progress in front of its arguments: whether it is, and the arguments behind.
pub fn begin_telling<R: Env + AllocGlobal + Print + Eprint>(
    rt: &R,
    wanted: usize,
    help: &'static str,
) -> anyhow::Result<Option<(bool, Vec<String>)>>
    ensures { IfOk result (λ begun. IfSome begun (λ work. vec_len work.1 ≡ wanted)) }
{
    let mut words = arguments(rt)?;
    let progress = take_progress(&mut words);
    match begin_with(rt, words, wanted, help)? {
        Some(words) => Ok(Some((progress, words))),
        None => Ok(None),
    }
}
