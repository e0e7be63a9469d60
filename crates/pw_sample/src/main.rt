//! A cooperative to try powerbook on: an office file, and days of uploads.
#![tactic(auto)]

mod arguments;
mod desk;
mod draws;
mod fault;
mod figures;
mod folder;
mod frames;
mod meter;
mod moment;
mod office;
mod rows;
mod sample;

use crate::arguments::{Asked, USAGE, read_words};
use crate::sample::make_sample;
use std::io::{ErrorKind, Write};
use std::process::ExitCode;
use std::{env, io};

// The exit status for words that ask for nothing.
const WRONG_WORDS: u8 = 2;

// The exit status where a folder, a file, a stream or memory failed.
const FAILED: u8 = 3;

fn main(rt: HostRuntime) -> ExitCode {
    ExitCode::from(status_of(&rt))
}

fn status_of(rt: &HostRuntime) -> u8 {
    match words_of(rt) {
        Ok(words) => match read_words(words.as_slice()) {
            Some(asked) => obey(rt, asked),
            None => tell(rt, USAGE, WRONG_WORDS),
        },
        Err(error) if error.kind() == ErrorKind::OutOfMemory => {
            tell(rt, "powerbook-sample: no memory\n", FAILED)
        }
        Err(_) => tell(rt, "powerbook-sample: a word isn't UTF-8\n", WRONG_WORDS),
    }
}

// The words behind the program's name. A word that is no text is an error.
fn words_of(rt: &HostRuntime) -> io::Result<Vec<String>> {
    let mut words = Vec::new(rt.alloc());
    for word in env::args(rt)?.skip(1) {
        words.push(word)?;
    }
    Ok(words)
}

fn obey(rt: &HostRuntime, asked: Asked<'_>) -> u8 {
    match asked {
        Asked::Help => match rt.stdout().write_all(USAGE.as_bytes()) {
            Ok(()) => 0,
            Err(_) => tell(rt, "powerbook-sample: can't write\n", FAILED),
        },
        Asked::Sample {
            meters,
            days,
            seed,
            out,
        } => match make_sample(rt, meters, days, seed, out) {
            Ok(()) => 0,
            Err(fault) => {
                let _ = writeln!(rt.stderr(), "{fault}");
                FAILED
            }
        },
    }
}

// Writes a text to standard error, and answers a status.
fn tell(rt: &HostRuntime, text: &str, status: u8) -> u8 {
    let _ = rt.stderr().write_all(text.as_bytes());
    status
}
