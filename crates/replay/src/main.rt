//! Lays out cases: `replay` reads a document and what is asked of its layout from each line of standard input. It compares what
//! comes of it with what the line states, or else answers with that on a line of standard output. `replay --help` writes the usage.
#![tactic(auto)]

mod answer;
mod case;
mod case_part;
mod compared;
mod hostile;
mod layout;
mod node;
mod refusal;
mod run;
mod stated;
mod text;
mod words;

use run::run;
use std::io::{BufReader, BufWriter, ErrorKind, Write};
use std::process::ExitCode;
use std::rt::Env;
use std::{env, io};

const USAGE: &str =
    "usage: replay [--hostile | --help], with cases on standard input, one a line (docs/CASES.md)";

/// Why `replay` stopped: with what it says, and its status.
#[derive(Clone, Copy)]
struct EarlyEnd(&'static str, u8);

const WORDS: EarlyEnd = EarlyEnd(USAGE, 2);

const FAILED: EarlyEnd = EarlyEnd("error: reading or writing failed", 1);

const DIFFERS: EarlyEnd = EarlyEnd("error: a case is otherwise than stated", 1);

impl From<io::Error> for EarlyEnd {
    fn from(_error: io::Error) -> EarlyEnd {
        FAILED
    }
}

// The words after the program's name. One that is no text is a wrong word.
fn arguments<R: AllocGlobal + Env>(rt: &R) -> Result<Vec<String>, EarlyEnd> {
    let words = env::args(rt).map_err(|error| match error.kind() {
        ErrorKind::OutOfMemory => FAILED,
        _ => WORDS,
    })?;
    words.skip(1).collect(rt.alloc()).map_err(|_| FAILED)
}

fn answer_cases<R: AllocGlobal + Input + Print>(rt: &R, hostile: bool) -> Result<(), EarlyEnd> {
    let mut reader = BufReader::new(rt.alloc(), rt.reader())?;
    let mut out = BufWriter::new(rt.alloc(), io::writer(rt))?;
    let tally = run(rt.alloc(), hostile, &mut reader, &mut out)?;
    out.flush()?;
    if tally.different == 0 {
        Ok(())
    } else {
        Err(DIFFERS)
    }
}

fn replay<R: AllocGlobal + Env + Input + Print>(rt: &R) -> Result<(), EarlyEnd> {
    match arguments(rt)?.as_slice() {
        [] => answer_cases(rt, false),
        [word] if word.as_str() == "--hostile" => answer_cases(rt, true),
        [word] if word.as_str() == "--help" => Ok(println!(rt; "{USAGE}")?),
        _ => Err(WORDS),
    }
}

fn main(rt: HostRuntime) -> ExitCode {
    match replay(&rt) {
        Ok(()) => ExitCode::SUCCESS,
        Err(EarlyEnd(message, status)) => {
            // Where standard error takes no message, the status is what is left.
            let _ = rt.eprintln(message);
            ExitCode::from(status)
        }
    }
}
