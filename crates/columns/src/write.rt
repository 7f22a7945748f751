// Writing a number into a lent text, and a line of numbers into a lent buffer.
ghost use Rattle.std.specs.Prelude.{◌≡◌, true, cond, ◌++◌, ◌+◌, ◌≤◌, length, take, drop, Some, None};
ghost use Rattle.columns.specs.Column.{column, fits, ColumnFilled};
ghost use Rattle.columns.specs.Line.{line, all_fit, writable, Written};
ghost use Rattle.columns.specs.Steps.{mark};

// Entry w is the least number that does not fit w columns.
const TOO_WIDE: [u32; 10] = [
    0,
    10,
    100,
    1_000,
    10_000,
    100_000,
    1_000_000,
    10_000_000,
    100_000_000,
    1_000_000_000,
];

// n has no more digits than width.
pub fn is_fitting(width: usize, n: u32) -> bool
    ensures { result ≡ fits width n }
{
    match TOO_WIDE.get(width) {
        Some(least) => n < *least,
        None => true,
    }
}

// The byte of a column before the last: a blank once nothing is left of the number.
fn mark_of(rest: u32) -> u8
    ensures { result ≡ mark rest }
{
    if rest == 0 {
        b' '
    } else {
        b'0' + (rest % 10) as u8
    }
}

// Fills the whole slice with a number that fits.
// Kept: std's `write!(part, "{n:>6}")` takes three times as long (10 million numbers: 0.07 s by hand, 0.21 s by std),
// and the journal program, which writes two a line, would be slower than before.
// Kept: an index, and not `iter_mut().rev()`: a proof knows nothing of what is written through an adapter of
// `iter_mut`.
#[tactic(auto, using(crate::proofs::Filling::filling))]
fn fill(t: &mut [u8], n: u32)
    requires { fits (length t.old) n ≡ true }
    ensures { t.new ≡ column (length t.old) n }
{
    let Some((last, before)) = t.split_last_mut() else {
        return;
    };
    *last = b'0' + (n % 10) as u8;
    let mut rest = n / 10;
    for i in (0..before.len()).rev() {
        before[i] = mark_of(rest);
        rest /= 10;
    }
}

// Fills the whole slice with a number right-justified behind blanks. False, and no byte changed, where it does not fit.
// Kept: a bool, as `write_line` below.
pub fn fill_column(t: &mut [u8], n: u32) -> bool
    ensures { ColumnFilled t.old n t.new result }
{
    if !is_fitting(t.len(), n) {
        return false;
    }
    fill(t, n);
    true
}

// Writes a number that fits into the width bytes from at; the other bytes stay.
fn put(t: &mut [u8], at: usize, width: usize, n: u32)
    requires { (at + width ≤ length t.old) × (fits width n ≡ true) }
    ensures { t.new ≡ take at t.old ++ (column width n ++ drop (at + width) t.old) }
{
    fill(&mut t[at..at + width], n);
}

// The length of the line, where it can be written into room bytes.
fn line_size(widths: &[u8], numbers: &[u32], room: usize) -> Option<usize>
    ensures { result ≡ cond (writable room widths.now numbers.now) (Some (length (line widths.now numbers.now))) None }
{
    if widths.len() != numbers.len() {
        return None;
    }
    if room == 0 {
        return None;
    }
    let mut size = 1;
    for (width, number) in widths.iter().zip(numbers) {
        let width = usize::from(*width);
        if !is_fitting(width, *number) {
            return None;
        }
        if room - size < width {
            return None;
        }
        size += width;
    }
    Some(size)
}

// Fills the whole slice with the line.
// Kept: an offset, here and in sheet's `fill_cells`: the widths differ, so that no chunks give the parts.
// Kept: beside `fill_cells`: one over both would take its step as a closure on a lent part, and each would need a law
// of its own that says what the closure leaves there.
fn fill_line(t: &mut [u8], widths: &[u8], numbers: &[u32])
    requires { (all_fit widths.now numbers.now ≡ true) × (length t.old ≡ length (line widths.now numbers.now)) }
    ensures { t.new ≡ line widths.now numbers.now }
{
    let mut at = 0;
    for (width, number) in widths.iter().zip(numbers) {
        let width = usize::from(*width);
        put(t, at, width, *number);
        at += width;
    }
    t[at] = b'\n';
}

// Writes the numbers, each in columns of its width, and a line feed to the front of the buffer; later bytes stay.
// False, and no byte changed, where there are not as many numbers as widths, one does not fit its width, or the
// buffer is too short.
// Kept: a bool, and no Option or Result: there is no value and no reason beside it.
// Kept: widths and numbers apart: the widths are those of every such line, and the numbers this line's.
pub fn write_line(buf: &mut [u8], widths: &[u8], numbers: &[u32]) -> bool
    ensures { Written widths.now numbers.now buf.old buf.new result }
{
    let Some(size) = line_size(widths, numbers, buf.len()) else {
        return false;
    };
    fill_line(&mut buf[..size], widths, numbers);
    true
}
