// The shift sheet, printed.
ghost use Rattle.std.specs.Prelude.{◌≡◌, OnOk, IfErr};
ghost use Rattle.std.specs.Io.KnownBytes.{Appends};
ghost use Rattle.std.specs.Process.{exit_status};
ghost use Rattle.rules.specs.Board.{board_of};
ghost use Rattle.rules.specs.Sheet.{sheet};
ghost use Rattle.folder.specs.Outcomes.{IsFile, PageAfter, Printed, sheet_of};

use crate::failure::{Failure, end_run};
use crate::open_board::Board;
use crate::opening::{Names, open_folder};
use crate::output::print;
use crate::pieces::run_calls;
use std::io::{Read, Write, sink};
use std::process::ExitCode;
use std::rt::Files;

// Prints the sheet of a board: 33 lines of 73 bytes are room enough.
pub fn print_page<W: Write>(board: &Board, output: &mut W) -> Result<(), Failure<'static>>
    ensures written { OnOk result (Appends (W.contents output.old) (W.contents output.new)
        (sheet (board_of board.now))) }
    ensures failed { IfErr result IsFile }
{
    let mut page = [0; 33 * 73];
    let lines = sheet::write_page(board.register(), &mut page);
    print(output, &page[..73 * lines])
}

// Makes the calls of a file on the board, and prints the sheet after them, where all of them were made.
fn print_page_after<'a, F: Read, W: Write>(
    opened: Board,
    file: &mut F,
    name: &'a [u8],
    output: &mut W,
) -> Result<(), Failure<'a>>
    ensures { PageAfter (board_of opened) (F.remaining file.old) (W.contents output.old) (W.contents output.new)
        result }
{
    let board = run_calls(opened, file, name, &mut sink())?;
    print_page(&board, output)
}

// Prints the sheet after the calls; there is none where the plan is refused.
fn print_folder<'a, R: Files, W: Write>(
    rt: &R,
    names: Names<'a>,
    output: &mut W,
) -> Result<(), Failure<'a>>
    ensures { OnOk result (Printed sheet_of (W.contents output.old) (W.contents output.new)) }
{
    if let Some((board, mut file)) = open_folder(rt, names, output)? {
        print_page_after(board, &mut file, names.calls, output)?;
    }
    Ok(())
}

// Prints the sheet after the calls of the plan and the calls of those names, where all of them were made, and gives the
// exit status.
pub fn print_sheet<R: Files, W: Write, E: Write>(
    rt: &R,
    names: Names,
    output: &mut W,
    errors: &mut E,
) -> ExitCode
    ensures { exit_status result ≡ 0 → Printed sheet_of (W.contents output.old) (W.contents output.new) }
{
    end_run(print_folder(rt, names, output), errors)
}
