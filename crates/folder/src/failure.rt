// What goes wrong outside documents 01 and 02, its words on standard error, and the exit status.
ghost use Rattle.std.specs.Prelude.{◌≡◌, IsOk, IsErr};
ghost use Rattle.std.specs.Process.{exit_status};

use std::fmt::InlineText;
use std::io::Write;
use std::process::ExitCode;
use std::{fmt, io, str};

// Why a run did not come to its end.
#[derive(Clone, Copy, Debug)]
pub enum Failure<'a> {
    // A file could not be opened or read, or standard output could not be written.
    File { name: &'a [u8], error: io::Error },
    // A line of the calls, the file of that name, is malformed; lines count from 1.
    Malformed { name: &'a [u8], line: u64 },
    // The calls, the file of that name, went on and on. No file is so long.
    Endless { name: &'a [u8] },
    // A line of the worksites, the file of that name, is malformed; lines count from 1.
    MalformedWorksites { name: &'a [u8], line: u64 },
}

// The name of a file, as it is said.
#[derive(Clone, Copy)]
struct Name<'a>(&'a [u8]);

impl fmt::Display for Name<'_> {
    fn fmt<W: fmt::Write>(&self, f: &mut fmt::Formatter<W>) -> fmt::Result {
        match str::from_utf8(self.0) {
            Ok(name) => write!(f, "{name}"),
            Err(_) => write!(f, "{}", self.0.escape_ascii()),
        }
    }
}

impl fmt::Display for Failure<'_> {
    fn fmt<W: fmt::Write>(&self, f: &mut fmt::Formatter<W>) -> fmt::Result {
        match self {
            Failure::File { name, error } => {
                let text = InlineText::<128>::of(error);
                let words = without_code(text.as_str());
                write!(f, "{}: {words}", Name(name))
            }
            Failure::Malformed { name, line } => {
                write!(
                    f,
                    "{}: line {line} is malformed, and no call is made from it on",
                    Name(name)
                )
            }
            Failure::Endless { name } => write!(f, "{}: the file has no end", Name(name)),
            Failure::MalformedWorksites { name, line } => {
                write!(
                    f,
                    "{}: line {line} is malformed, and no gap is looked at",
                    Name(name)
                )
            }
        }
    }
}

// The text of an error without the number that std puts after the system's words, as ` (os error 2)`.
fn without_code(text: &str) -> &str {
    match text.split_once(" (os error ") {
        Some((words, _)) => words,
        None => text,
    }
}

// Ends a run: says what failed, where something did, and gives the exit status.
pub fn end_run<E: Write>(outcome: Result<(), Failure>, errors: &mut E) -> ExitCode
    ensures done { IsOk outcome.entry → exit_status result ≡ 0 }
    ensures failed { IsErr outcome.entry → exit_status result ≡ 1 }
{
    match outcome {
        Ok(()) => ExitCode::SUCCESS,
        Err(failure) => {
            let _ = writeln!(errors, "{failure}");
            ExitCode::FAILURE
        }
    }
}
