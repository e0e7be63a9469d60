//! The program `powerbook`.
#![tactic(auto)]

use pw_commands::{Fault, Progress, name_unreadable, run, run_watched, tell};
use std::io::{ErrorKind, IsTerminal, Write};
use std::process::ExitCode;
use std::rt::Env;
use std::{env, io};

// The exit status for words that no command has.
const WRONG_WORDS: u8 = 2;

fn main(rt: HostRuntime) -> ExitCode {
    ExitCode::from(status_of(&rt))
}

fn status_of(rt: &HostRuntime) -> u8 {
    let (mut input, mut out, mut err) = (rt.stdin(), rt.stdout(), rt.stderr());
    let owned = match words_of(rt) {
        Ok(words) => words,
        Err(error) if error.kind() == ErrorKind::OutOfMemory => {
            return tell(rt.alloc(), Fault::Memory, &mut err);
        }
        Err(_) => {
            let _ = err.write_all(b"powerbook: a word isn't UTF-8\n");
            return WRONG_WORDS;
        }
    };
    let mut words = Vec::new(rt.alloc());
    for word in owned.iter() {
        if words.push(word.as_str()).is_err() {
            return tell(rt.alloc(), Fault::Memory, &mut err);
        }
    }
    if !err.is_terminal() {
        return run(rt, words.as_slice(), &mut input, &mut out, &mut err);
    }
    name_unreadable(rt, words.as_slice(), &mut err);
    let mut told = Progress::new(rt, rt.stderr(), true);
    run_watched(
        rt,
        words.as_slice(),
        &mut input,
        &mut out,
        &mut err,
        &mut told,
    )
}

// The words behind the program's name. A word that is no text is an error.
fn words_of<R: Env + AllocGlobal>(rt: &R) -> io::Result<Vec<String>> {
    let mut words = Vec::new(rt.alloc());
    for word in env::args(rt)?.skip(1) {
        words.push(word)?;
    }
    Ok(words)
}
