// A cell of a page: a number, a number behind a minus sign, or nothing, right-justified in fixed columns of a lent
// text; and a difference as a cell.
ghost use Rattle.std.specs.Prelude.{◌≡◌, true, length, replicate};
ghost use Rattle.columns.specs.Cells as Cells;
ghost use Rattle.columns.specs.declared.cells.Cell.TheVariants as Cell;

use crate::reading::blanks_of;
use crate::write::{fill_column, is_fitting};

// What stands in a cell.
#[derive(Clone, Copy, Debug, PartialEq, Eq)]
pub enum Cell {
    Empty,
    Number(u32),
    Minus(u32),
}

// a minus b.
#[tactic(auto, unfolding(crate::specs::Cells::difference))]
pub fn difference(a: u32, b: u32) -> Cell
    ensures { result ≡ Cells.difference a b }
{
    if a < b {
        Cell::Minus(b - a)
    } else {
        Cell::Number(a - b)
    }
}

// The cell has no more bytes than width. A minus sign takes one.
#[tactic(auto, using(crate::proofs::CellsLaws::cell_kinds))]
fn is_cell_fitting(width: usize, c: Cell) -> bool
    ensures { result ≡ Cells.cell_fits width c }
{
    match c {
        Cell::Empty => true,
        Cell::Number(n) => is_fitting(width, n),
        Cell::Minus(n) => width > 0 && is_fitting(width - 1, n),
    }
}

// Fills the whole slice with a number behind a minus sign that fits: the number, and the sign in place of the last
// blank.
#[tactic(auto, using(crate::proofs::CellsLaws::minus_steps))]
fn fill_minus(t: &mut [u8], n: u32)
    requires { Cells.cell_fits (length t.old) (Cell.Minus n) ≡ true }
    ensures { t.new ≡ Cells.cell (length t.old) (Cell.Minus n) }
{
    fill_column(t, n);
    let at = blanks_of(t) - 1;
    t[at] = b'-';
}

// Fills the whole slice with a cell. False, and no byte changed, where the cell does not fit.
// Kept: a bool, as columns' `write_line`.
#[tactic(auto, using(crate::proofs::CellsLaws::cell_kinds))]
pub fn fill_cell(t: &mut [u8], c: Cell) -> bool
    ensures { Cells.Filled t.old c t.new result }
{
    if !is_cell_fitting(t.len(), c) {
        return false;
    }
    match c {
        Cell::Empty => t.fill(b' '),
        Cell::Number(n) => {
            fill_column(t, n);
        }
        Cell::Minus(n) => fill_minus(t, n),
    }
    true
}
