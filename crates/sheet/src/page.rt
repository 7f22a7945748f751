// The page: a line for each live authority in the register's order, and the last line, in a lent buffer.
ghost use Rattle.std.specs.Prelude.{◌*◌, ◌≤◌, ◌≡◌, true, ◌++◌, map, length, drop};
ghost use Rattle.columns.specs.Cells.{cell_line, cells_fit};
ghost use Rattle.rules.specs.Answer.{answer_no, lines_no};
ghost use Rattle.rules.specs.Call.{minute_of};
ghost use Rattle.rules.specs.Step.{Kept};
ghost use Rattle.rules.specs.Board.{board_of};
ghost use Rattle.rules.specs.Sheet.{authority_line, page_of, sheet_lines, sheet, SheetPost};

use crate::rows::{authority_cells, total_cells};
use columns::Cell;
use rules::{Refusal, Register};

// A line has 72 columns and a line feed; a page has 33 lines at most.
const LINE_SIZE: usize = 73;

const PAGE_SIZE: usize = 33 * LINE_SIZE;

// The columns of an authority's line: kind has 7, minutes in hand 9, the others 8.
const WIDTHS: [usize; 9] = [8, 7, 8, 8, 8, 8, 8, 9, 8];

// The columns of the last line: two of 9, and blanks.
const TOTAL_WIDTHS: [usize; 3] = [9, 9, 54];

// Fills the whole slice with a line of cells that fit their columns.
// Kept: as columns' `fill_line`.
fn fill_cells<const N: usize>(line: &mut [u8], widths: &[usize; N], cells: &[Cell; N])
    requires { (length line.old ≡ length (cell_line widths.now cells.now)) × (cells_fit widths.now cells.now ≡ true) }
    ensures { line.new ≡ cell_line widths.now cells.now }
{
    let mut at = 0;
    for (width, cell) in widths.iter().zip(cells) {
        columns::fill_cell(&mut line[at..at + *width], *cell);
        at += *width;
    }
    line[at] = b'\n';
}

// Writes the lines of the live authorities to the front of the buffer; later bytes stay.
// Kept: a line's place by its index, as in calls' `run_lines`; `Kept`, as board's `call` says.
fn write_authorities(register: &Register, page: &mut [u8])
    requires { Kept register.now × (2409 ≤ length page.old) }
    ensures { let r = register.now in
        let lines = map (authority_line (minute_of r.day r.time)) r.authorities.items in
        page.new ≡ page_of lines ++ drop (73 * length lines) page.old }
{
    let now = stamps::minute_of(register.day, register.time);
    for (i, authority) in register.authorities.iter().enumerate() {
        let at = LINE_SIZE * i;
        fill_cells(
            &mut page[at..at + LINE_SIZE],
            &WIDTHS,
            &authority_cells(*authority, now),
        );
    }
}

// Writes the sheet of a register to the front of a buffer with room for a page, and gives the number of lines, 73 bytes
// each; later bytes stay.
// Kept: `Kept`, as board's `call` says.
pub fn write_page(register: &Register, page: &mut [u8]) -> usize
    requires { Kept register.now × (2409 ≤ length page.old) }
    ensures lines { result ≡ length (sheet_lines (board_of register.now)) }
    ensures size { length (sheet (board_of register.now)) ≡ 73 * result }
    ensures bytes { page.new ≡ sheet (board_of register.now) ++ drop (73 * result) page.old }
{
    write_authorities(register, page);
    let live = register.authorities.len();
    let at = LINE_SIZE * live;
    fill_cells(
        &mut page[at..at + LINE_SIZE],
        &TOTAL_WIDTHS,
        &total_cells(register),
    );
    live + 1
}

// Writes the sheet of a register as `write_page` does. A buffer that is shorter than a page is refused and stays as it
// was.
// Kept: `Kept`, as board's `call` says.
pub fn write_sheet(register: &Register, page: &mut [u8]) -> Result<usize, Refusal>
    requires { Kept register.now }
    ensures { SheetPost register.now page.old (answer_no result) (lines_no result) page.new }
{
    if page.len() < PAGE_SIZE {
        return Err(Refusal::ShortPage);
    }
    Ok(write_page(register, page))
}
