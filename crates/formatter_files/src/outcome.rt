//! How a file or a program came out: what is said of it, and the ending.
ghost use Rattle.std.specs.Prelude.{◌≡◌, ◌⊎◌, IfErr, IfOk};
ghost use Rattle.clap.specs.Words.{kind_of};
ghost use Rattle.formatter_files.specs.Endings.{EndsAfter, ending_after};

use crate::action::WriteConflict;
use crate::ending::Ending;
use crate::request_error::RequestError;
use crate::source::name_of;
use std::alloc::AllocError;
use std::io;
use std::io::ErrorKind;

/// What failed.
#[derive(Debug, Drop)]
pub(crate) enum FileError {
    /// What was done with one file. The others may come out well.
    File(io::Error),
    /// Standard output, which takes nothing more.
    Output(io::Error),
}

impl From<io::Error> for FileError {
    fn from(error: io::Error) -> FileError {
        FileError::File(error)
    }
}

impl From<AllocError> for FileError {
    fn from(error: AllocError) -> FileError {
        FileError::File(io::Error::from(error))
    }
}

/// How something came out. An error is said on standard error; where that takes no message, the status is what is left.
pub fn ending_of<R: Eprint>(
    rt: &R,
    program: &str,
    name: &str,
    outcome: io::Result<Ending>,
) -> Ending
    ensures ok { IfOk outcome (λ ending. result ≡ ending) }
    ensures err { IfErr outcome (λ error. result ≡ Ending.Failed) }
{
    match outcome {
        Ok(ending) => ending,
        Err(error) => {
            let _ = eprintln!(rt; "{program}: {name}: {error}");
            Ending::Failed
        }
    }
}

/// How the program ends where standard output fails. This is said on standard error, but for a pipe that its reader closed.
pub(crate) fn ending_without_output<R: Eprint>(rt: &R, program: &str, error: io::Error) -> Ending
    ensures { result ≡ Ending.Failed }
{
    if error.kind() == ErrorKind::BrokenPipe {
        return Ending::Failed;
    }
    ending_of(rt, program, "<stdout>", Err(error))
}

/// How a file came out, after its error is said. What is left is an error of standard output.
pub(crate) fn said<R: Eprint>(
    rt: &R,
    program: &str,
    file: &str,
    outcome: Result<Ending, FileError>,
) -> io::Result<Ending> {
    match outcome {
        Ok(ending) => Ok(ending),
        Err(FileError::File(error)) => Ok(ending_of(rt, program, name_of(file), Err(error))),
        Err(FileError::Output(error)) => Err(error),
    }
}

/// How the program ends where files are to be replaced and to be compared alone, after this is said on standard error.
fn ending_after_conflict<R: Eprint>(rt: &R, conflict: WriteConflict) -> Ending
    ensures { result ≡ Ending.BadWords }
{
    let _ = eprintln!(rt; "error: {conflict}\n\nFor more information, try '--help'.");
    Ending::BadWords
}

/// How the program ends after an error of its words, after its text is printed; or that this failed.
fn ending_after_words<R: Eprint + Print>(rt: &R, program: &str, error: &clap::Error) -> Ending
    ensures { (result ≡ ending_after (kind_of error.now)) ⊎ (result ≡ Ending.Failed) }
{
    match error.print(rt) {
        Ok(()) => Ending::after(error.kind()),
        Err(failure) => ending_without_output(rt, program, failure),
    }
}

/// How the program ends where its words ask for nothing that is done, after the reason is printed.
pub fn ending_after<R: Eprint + Print>(rt: &R, program: &str, error: &RequestError) -> Ending
    ensures { EndsAfter error.now result }
{
    match error {
        RequestError::Words(error) => ending_after_words(rt, program, error),
        RequestError::Conflict(conflict) => ending_after_conflict(rt, *conflict),
    }
}
