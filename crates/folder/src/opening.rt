// A working folder opened: the board of its plan, and the file of its calls.
ghost use Rattle.std.specs.Prelude.{ℕ, List, IfOk, IfErr, option_map};
ghost use Rattle.folder.specs.Outcomes.{IsFile, PlanOpened};

use crate::failure::Failure;
use crate::input::{open, read_file};
use crate::open_board::Board;
use crate::output::print_number;
use std::io::Write;
use std::rt::Files;

// The longest plan has 65 lines of 19 bytes; one byte more shows a text that is too long.
pub const PLAN_SIZE: usize = 65 * 19 + 1;

// The names of the two files of a working folder.
#[derive(Clone, Copy)]
pub struct Names<'a> {
    pub plan: &'a [u8],
    pub calls: &'a [u8],
}

// Opens the board of a plan's text. Where the plan is refused there is none: its answer is printed.
fn open_plan<W: Write>(text: &[u8], output: &mut W) -> Result<Option<Board>, Failure<'static>>
    ensures opened { IfOk result (PlanOpened text.now (W.contents output.old) (W.contents output.new)) }
    ensures failed { IfErr result IsFile }
{
    let (board, answer) = Board::open(text);
    match answer {
        Ok(()) => Ok(Some(board)),
        Err(refusal) => {
            print_number(output, u16::from(refusal))?;
            Ok(None)
        }
    }
}

// Opens the board of the plan and the file of the calls; the calls are opened only once the plan is accepted. Where it
// is refused there is neither.
pub fn open_folder<'a, R: Files, W: Write>(
    rt: &R,
    names: Names<'a>,
    output: &mut W,
) -> Result<Option<(Board, R::File)>, Failure<'a>>
    ensures opened { IfOk result (λ opened. (plan : List ℕ)
        × PlanOpened plan (W.contents output.old) (W.contents output.new) (option_map (λ o. o.0) opened)) }
    ensures failed { IfErr result IsFile }
{
    let mut text = [0; PLAN_SIZE];
    let filled = read_file(rt, names.plan, &mut text);
    filled.check(names.plan)?;
    let Some(board) = open_plan(&text[..filled.bytes], output)? else {
        return Ok(None);
    };
    let file = open(rt, names.calls).map_err(|error| Failure::File {
        name: names.calls,
        error,
    })?;
    Ok(Some((board, file)))
}
