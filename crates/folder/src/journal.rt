// The journal of a working folder, printed.
ghost use Rattle.std.specs.Prelude.{◌≡◌, OnOk};
ghost use Rattle.std.specs.Process.{exit_status};
ghost use Rattle.folder.specs.Outcomes.{Printed, journal_of};

use crate::failure::{Failure, end_run};
use crate::opening::{Names, open_folder};
use crate::pieces::run_calls;
use std::io::Write;
use std::process::ExitCode;
use std::rt::Files;

// Makes the calls and prints their journal; there is none where the plan is refused.
fn print_folder<'a, R: Files, W: Write>(
    rt: &R,
    names: Names<'a>,
    output: &mut W,
) -> Result<(), Failure<'a>>
    ensures { OnOk result (Printed journal_of (W.contents output.old) (W.contents output.new)) }
{
    if let Some((board, mut file)) = open_folder(rt, names, output)? {
        run_calls(board, &mut file, names.calls, output)?;
    }
    Ok(())
}

// Prints the journal of the plan and the calls of those names, and gives the exit status.
pub fn print_journal<R: Files, W: Write, E: Write>(
    rt: &R,
    names: Names,
    output: &mut W,
    errors: &mut E,
) -> ExitCode
    ensures { exit_status result ≡ 0 → Printed journal_of (W.contents output.old) (W.contents output.new) }
{
    end_run(print_folder(rt, names, output), errors)
}
