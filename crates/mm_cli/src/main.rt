//! The program `mmpkg`: it makes packages, and runs lists of commands on them.
//!
//! - `telling`: what is told to people on standard error, beside what is printed.
//! - `records`: the records that were read and are not answered yet, for the words about their fields.
//! - `kits`: which record or file of a kit is refused.
//! - `slips`: records that are taken, and are hardly meant as they are.
#![tactic(auto)]

mod kits;
mod records;
mod slips;
mod telling;

use crate::telling::{run_told, warn_of_name};
use mm_arguments::read_aids;
use mm_definitions::answers::Fault;
use mm_definitions::ends::UntilEnd;
use mm_definitions::streams::Io;
use mm_program::program;
use mm_work::{Stop, USAGE, tell_bytes, tell_stop};
use std::io::BufReader;
use std::process::ExitCode;
use std::{env, io};

/// Runs the program on the words of its caller.
fn run_words(rt: &HostRuntime) -> io::Result<u8> {
    let alloc = rt.alloc();
    let words: Vec<String> = env::args(rt)?.collect(alloc)?;
    let mut texts = Vec::with_capacity(alloc, words.len())?;
    for word in &words {
        texts.push(word.as_str())?;
    }
    warn_of_name(rt, texts.as_slice());
    if let Ok(aids) = read_aids(alloc, texts.as_slice()) {
        if aids.words || aids.progress {
            return run_told(rt, texts.as_slice(), aids);
        }
    }
    let mut input = Io::new(UntilEnd::new(BufReader::new(alloc, rt.reader())?));
    let mut output = Io::new(io::writer(rt));
    Ok(program(rt, texts.as_slice(), &mut input, &mut output))
}

/// What is printed where the words can't be had: words that are no text are wrong arguments, and else memory was refused.
fn tell_no_words(rt: &HostRuntime, error: io::Error) -> u8 {
    let mut output = Io::new(io::writer(rt));
    if error.kind() == io::ErrorKind::OutOfMemory {
        tell_stop(&mut output, Stop::Fault(Fault::MEMORY))
    } else {
        tell_bytes(&mut output, b"Usage: mmpkg <COMMAND>\n", USAGE)
    }
}

fn main(rt: HostRuntime) -> ExitCode {
    match run_words(&rt) {
        Ok(status) => ExitCode::from(status),
        Err(error) => ExitCode::from(tell_no_words(&rt, error)),
    }
}
