// The cells of the shift sheet's lines: those of a live authority, and those of the last line.
ghost use Rattle.std.specs.Prelude.{◌*◌, ◌^◌, ◌<◌, ◌≡◌, true};
ghost use Rattle.columns.specs.Cells.{cell_fits, cells_fit};
ghost use Rattle.rules.specs.Board.{board_of};
ghost use Rattle.rules.specs.Sheet.{stage_no, site_no, minutes_in_hand, authority_cells, authority_widths};
ghost use Rattle.rules.specs.Sheet.{total_cells, total_widths};
ghost use Rattle.rules.specs.Step.{Kept};

use columns::{Cell, difference};
use rules::{Authority, Register};

// 1 pending, 2 in force.
fn stage_no(a: Authority) -> u32
    ensures { result ≡ stage_no a }
{
    if a.in_force { 2 } else { 1 }
}

// 1 on, 2 clear.
fn site_no(a: Authority) -> u32
    ensures { result ≡ site_no a }
{
    if a.workers_on { 1 } else { 2 }
}

// Start plus the term's minutes, minus now; nothing where there is no term.
fn minutes_in_hand(a: Authority, now: u32) -> Cell
    requires { (a.start < 10000 * 1440) × (now < 10 ^ 8) }
    ensures { (result ≡ minutes_in_hand now a) × (cell_fits 9 result ≡ true) }
{
    if a.minutes == 0 {
        return Cell::Empty;
    }
    difference(a.start + u32::from(a.minutes), now)
}

// The line of a live authority; its last cell is the authority whose officer's agreement it rests on, 0 for none.
pub fn authority_cells(a: Authority, now: u32) -> [Cell; 9]
    requires { (a.start < 10000 * 1440) × (now < 10 ^ 8) }
    ensures { (result ≡ authority_cells now a) × (cells_fit authority_widths result ≡ true) }
{
    [
        Cell::Number(u32::from(a.number.0)),
        Cell::Number(u32::from(u16::from(a.kind))),
        Cell::Number(sets::least(a.limits)),
        Cell::Number(sets::greatest(a.limits)),
        Cell::Number(u32::from(a.officer)),
        Cell::Number(stage_no(a)),
        Cell::Number(site_no(a)),
        minutes_in_hand(a, now),
        Cell::Number(u32::from(a.agreed.0)),
    ]
}

// The last line: the portions held, those of the two sets, and the gates blocked, and blanks.
// Kept: `Kept`, as board's `call` says.
pub fn total_cells(register: &Register) -> [Cell; 3]
    requires { Kept register.now }
    ensures { (result ≡ total_cells (board_of register.now)) × (cells_fit total_widths result ≡ true) }
{
    let held = sets::union(register.exclusive_held, register.twa_held);
    [
        Cell::Number(sets::size(held)),
        Cell::Number(sets::size(register.blocks)),
        Cell::Empty,
    ]
}
