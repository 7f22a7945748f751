// A text of worksites read: the kind and the officer's statement on its first line, then a worksite a line.
ghost use Rattle.std.specs.Prelude.{◌≡◌, ◌≤◌, min, map, length};
ghost use Rattle.worksites.specs.ListText.{pair_in, pairs_in, ListRead};

use arrayvec::ArrayVec;
use columns::{is_line_feed, read_column};

// A line has two columns of 8 and a line feed.
const LINE_SIZE: usize = 17;

// The first line, and one worksite more than a list has: what stands behind it makes no difference.
const MOST_LINES: usize = 1 + 32 + 1;

// As much of a text as is read.
pub const TEXT_SIZE: usize = MOST_LINES * LINE_SIZE;

// What the officer sends: the kind, the statement, and from and to of each worksite.
#[derive(Clone, Drop)]
pub struct WorksiteList {
    pub kind: u16,
    pub stated: u16,
    pub from: ArrayVec<u32, 33>,
    pub to: ArrayVec<u32, 33>,
}

// The two numbers on a line: a text of 17 bytes, and any other is malformed.
fn read_pair(line: &[u8]) -> Option<(u32, u32)>
    ensures { result ≡ pair_in line.now }
{
    let (first, rest) = line.split_at_checked(8)?;
    let (second, end) = rest.split_at_checked(8)?;
    if !is_line_feed(end) {
        return None;
    }
    let first = read_column(first, 99_999_999)?;
    let second = read_column(second, 99_999_999)?;
    Some((first, second))
}

// The numbers on the lines of a text, up to a malformed one.
fn read_pairs(text: &[u8]) -> ArrayVec<(u32, u32), 34>
    ensures { result.items ≡ pairs_in text.now }
{
    let mut pairs = ArrayVec::new();
    for line in text.chunks_exact(LINE_SIZE).take(MOST_LINES) {
        let Some(pair) = read_pair(line) else {
            return pairs;
        };
        pairs.push(pair);
    }
    pairs
}

// A number as one of 16 bits: a greater one counts as the greatest.
fn narrowed(n: u32) -> u16
    ensures { result ≡ min n 65535 }
{
    // Kept: a cast, which the check proves to lose nothing.
    n.min(65535) as u16
}

// The worksites on the lines behind the first: their froms and their tos.
fn worksites_on(pairs: &[(u32, u32)]) -> (ArrayVec<u32, 33>, ArrayVec<u32, 33>)
    requires { length pairs.now ≤ 33 }
    ensures from { result.0.items ≡ map (λ p. p.0) pairs.now }
    ensures to { result.1.items ≡ map (λ p. p.1) pairs.now }
{
    let mut from = ArrayVec::new();
    let mut to = ArrayVec::new();
    for (start, end) in pairs {
        from.push(*start);
        to.push(*end);
    }
    (from, to)
}

// The kind, the statement and the worksites of a text; or, where a line is malformed, its number: lines count from 1,
// and a text with none has a malformed line 1.
pub fn read_list(text: &[u8]) -> Result<WorksiteList, usize>
    ensures { ListRead text.now result }
{
    let pairs = read_pairs(text);
    let Some(((kind, stated), worksites)) = pairs.split_first() else {
        return Err(1);
    };
    if LINE_SIZE * pairs.len() != text.len().min(TEXT_SIZE) {
        return Err(pairs.len() + 1);
    }
    let (from, to) = worksites_on(worksites);
    Ok(WorksiteList {
        kind: narrowed(*kind),
        stated: narrowed(*stated),
        from,
        to,
    })
}
