// The lines of the gaps in a lent buffer, and the answer.
ghost use Rattle.std.specs.Prelude.{◌*◌, ◌≡◌, ◌≤◌, ◌++◌, All, map, length, drop};
ghost use Rattle.rules.specs.Answer.{answer_no, lines_no};
ghost use Rattle.rules.specs.Worksites.{gap_line, gap_lines, WorksitesPost};

use crate::gaps::{due, gaps_of, is_any_too_far};
use crate::list::{is_list, is_stated, is_twa};
use rules::Refusal;

// A line has two columns of 8 and a line feed; a list has 31 lines at most.
const LINE_SIZE: usize = 17;

const LINES_SIZE: usize = 31 * LINE_SIZE;

// Writes the line of a gap: the metres and what is due.
fn write_line(line: &mut [u8], kind: u16, stated: u16, gap: u32)
    requires { (length line.old ≡ 17) × (gap ≤ 999999) }
    ensures { line.new ≡ gap_line kind stated gap }
{
    columns::write_line(line, &[8; 2], &[gap, due(kind, stated, gap)]);
}

// Writes the lines of the gaps to the front of a buffer with room for them; later bytes stay.
fn write_lines(kind: u16, stated: u16, gaps: &[u32], lines: &mut [u8])
    requires { (17 * length gaps.now ≤ length lines.old) × All (λ gap. gap ≤ 999999) gaps.now }
    ensures { lines.new ≡ gap_lines kind stated gaps.now
        ++ drop (length (gap_lines kind stated gaps.now)) lines.old }
{
    for (i, gap) in gaps.iter().enumerate() {
        let at = LINE_SIZE * i;
        write_line(&mut lines[at..at + LINE_SIZE], kind, stated, *gap);
    }
}

// Says for each gap between the worksites of an authority what is due: a line each at the front of the buffer, and how
// many there are. A buffer under 31 lines, what is no list for the kind, and a TWA's gap that is too far are refused,
// in this order; then nothing is written.
pub fn write_gaps(
    kind: u16,
    stated: u16,
    from: &[u32],
    to: &[u32],
    lines: &mut [u8],
) -> Result<usize, Refusal>
    ensures { WorksitesPost kind stated from.now to.now lines.old (answer_no result) (lines_no result) lines.new }
{
    if lines.len() < LINES_SIZE {
        return Err(Refusal::ShortLine);
    }
    if !(is_stated(kind, stated) & is_list(from, to)) {
        return Err(Refusal::Worksites);
    }
    let gaps = gaps_of(from, to);
    if is_twa(kind) & is_any_too_far(&gaps) {
        return Err(Refusal::TooFarApart);
    }
    write_lines(kind, stated, &gaps, lines);
    Ok(gaps.len())
}
