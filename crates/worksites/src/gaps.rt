// The gaps between worksites, and what is due for each, by document 02's numbers.
ghost use Rattle.std.specs.Prelude.{◌≡◌, ◌-◌, ◌≤◌, length};
ghost use Rattle.lists.specs.Search.{any};
ghost use Rattle.rules.specs.Worksites.{gaps, is_too_far, due_in_lpa, due_in_twa, due};

use crate::list::is_lpa;
use arrayvec::ArrayVec;

// What is due for a gap, but where the officer states it.
// Kept: numbers, and no enum: for a near gap it is the very number that the officer stated.
const ONE_WORKSITE: u32 = 1;

const MIDWAY: u32 = 3;

const EACH_END: u32 = 4;

const SEVERAL: u32 = 5;

// The gaps between 1 to 32 worksites: each next start minus the last end.
pub fn gaps_of(from: &[u32], to: &[u32]) -> ArrayVec<u32, 31>
    requires { (1 ≤ length from.now) × (length from.now ≤ 32) }
    ensures { result.items ≡ gaps from.now to.now }
{
    let mut gaps = ArrayVec::new();
    for (last_end, next_start) in to.iter().zip(&from[1..]) {
        // Kept: saturating, and no `requires` that the worksites ascend: in a list nothing is cut off.
        gaps.push(next_start.saturating_sub(*last_end));
    }
    gaps
}

// A gap is above 3500 metres.
pub fn is_any_too_far(gaps: &[u32]) -> bool
    ensures { result ≡ any is_too_far gaps.now }
{
    gaps.iter().any(|gap| 3500 < *gap)
}

// Of an LPA: under 500 metres what is stated, up to 1000 midway, above 1000 each end.
#[tactic(auto, unfolding(rules::specs::Worksites::due_in_lpa))]
fn due_in_lpa(stated: u16, gap: u32) -> u32
    ensures { result ≡ due_in_lpa stated gap }
{
    if gap < 500 {
        u32::from(stated)
    } else if gap <= 1000 {
        MIDWAY
    } else {
        EACH_END
    }
}

// Of a TWA: under 1000 metres one worksite, from 1000 on several.
#[tactic(auto, unfolding(rules::specs::Worksites::due_in_twa))]
fn due_in_twa(gap: u32) -> u32
    ensures { result ≡ due_in_twa gap }
{
    if gap < 1000 { ONE_WORKSITE } else { SEVERAL }
}

// What is due for a gap.
#[tactic(auto, unfolding(rules::specs::Worksites::due))]
pub fn due(kind: u16, stated: u16, gap: u32) -> u32
    ensures { result ≡ due kind stated gap }
{
    if is_lpa(kind) {
        due_in_lpa(stated, gap)
    } else {
        due_in_twa(gap)
    }
}
