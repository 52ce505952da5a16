//! Lays an S-expression out: `sexp WIDTH [crlf] [deferred]` reads one from standard input, and writes its layout within
//! this many columns to standard output. With `crlf` lines end in CR LF, and with `deferred` indents are written late.
#![tactic(auto)]

mod decimals;
mod document;
mod ending;
mod error;
mod expression;
mod input;
mod output;
mod parse;
mod run;
mod words;

use ending::SexpEnd;
use error::RunError;
use std::io::{BufWriter, ErrorKind, Write};
use std::process::ExitCode;
use std::rt::Env;
use std::{env, io};
use words::options;

// The words after the program's name. One that is no text is a bad word, like any that asks for no layout.
fn arguments<R: Env + AllocGlobal>(rt: &R) -> Result<Vec<String>, SexpEnd> {
    let words = env::args(rt).map_err(|error| match error.kind() {
        ErrorKind::OutOfMemory => SexpEnd::Failed,
        _ => SexpEnd::BadWords,
    })?;
    words
        .skip(1)
        .collect(rt.alloc())
        .map_err(|_| SexpEnd::Failed)
}

fn lay_out<R: Env + AllocGlobal + Input + Print>(rt: &R) -> Result<(), SexpEnd> {
    let words = arguments(rt)?;
    let options = options(&words).ok_or(SexpEnd::BadWords)?;
    let mut writer = BufWriter::new(rt.alloc(), io::writer(rt)).map_err(|_| SexpEnd::Failed)?;
    run::run(rt.alloc(), options, &mut rt.reader(), &mut writer)?;
    writer.flush().map_err(RunError::Write)?;
    Ok(())
}

fn main(rt: HostRuntime) -> ExitCode {
    match lay_out(&rt) {
        Ok(()) => ExitCode::SUCCESS,
        Err(ending) => {
            // Where standard error takes no message, the status is what is left.
            let _ = rt.eprintln(ending.message());
            ExitCode::from(ending.status())
        }
    }
}
