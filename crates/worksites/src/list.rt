// What the officer sends: whether the statement is one of those for the kind, and whether the worksites are a list.
ghost use Rattle.std.specs.Prelude.{◌≡◌, length};
ghost use Rattle.rules.specs.Worksites.{is_lpa_no, is_twa_no, is_stated, are_worksites, is_list};

use rules::Kind;

pub fn is_lpa(kind: u16) -> bool
    ensures { result ≡ is_lpa_no kind }
{
    kind == Kind::Lpa as u16
}

pub fn is_twa(kind: u16) -> bool
    ensures { result ≡ is_twa_no kind }
{
    kind == Kind::Twa as u16
}

// The most worksites of a list, and the greatest metres.
const MOST_WORKSITES: usize = 32;

const MOST_METRES: u32 = 999_999;

// 1 or 2 for an LPA, 0 for a TWA; another kind has no statement.
#[tactic(auto, unfolding(rules::specs::Worksites::is_stated))]
pub fn is_stated(kind: u16, stated: u16) -> bool
    ensures { result ≡ is_stated kind stated }
{
    is_lpa(kind) & (1 <= stated) & (stated <= 2) | is_twa(kind) & (stated == 0)
}

// Each worksite begins at or after the end of the one before it, and ends at or after its own beginning; there are as
// many froms as tos.
fn are_worksites(from: &[u32], to: &[u32]) -> bool
    ensures { result ≡ are_worksites 0 from.now to.now }
{
    if from.len() != to.len() {
        return false;
    }
    let mut last_end = 0;
    for (start, end) in from.iter().zip(to) {
        let is_worksite = (last_end <= *start) & (*start <= *end) & (*end <= MOST_METRES);
        if !is_worksite {
            return false;
        }
        last_end = *end;
    }
    true
}

// 1 to 32 worksites.
#[tactic(auto, unfolding(rules::specs::Worksites::is_list))]
pub fn is_list(from: &[u32], to: &[u32]) -> bool
    ensures { result ≡ is_list from.now to.now }
{
    (1 <= from.len()) & (from.len() <= MOST_WORKSITES) & are_worksites(from, to)
}
