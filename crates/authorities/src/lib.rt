// The live authorities that a register holds, by ascending number, which is the order of their requests: searches, and
// what the sets of held portions and needed gates say of them (02, order 8).
#![tactic(auto)]

ghost use Rattle.std.specs.Prelude.{◌≡◌, find};
ghost use Rattle.lists.specs.Search.{first};
ghost use Rattle.rules.specs.Board.{is_authority, no_authority};
ghost use Rattle.rules.specs.Stored.{holds_as};
ghost use Rattle.authorities.specs.Sorts.{kind_test, limits_if};

mod holding;
mod overlap;
mod stored;

pub use holding::{holder, is_held};
pub use overlap::is_overlapped;
use rules::{Authority, AuthorityNo, Kind};
pub use stored::{StoredSets, gather};

// The two sorts of authority, whose portions are held apart: LPAs and TOAs, which are exclusive, and TWAs.
#[derive(Clone, Copy, Debug, PartialEq, Eq)]
pub enum Sort {
    Exclusive,
    Twa,
}

// The kind is one of the sort.
fn is_of(kind: Kind, sort: Sort) -> bool
    ensures { result ≡ kind_test sort kind }
{
    match sort {
        Sort::Exclusive => kind != Kind::Twa,
        Sort::Twa => kind == Kind::Twa,
    }
}

// The limits, where the authority is in force and of the sort; else none.
fn limits_if(a: Authority, sort: Sort) -> u64
    ensures { result ≡ limits_if (kind_test sort) a }
{
    if a.in_force && is_of(a.kind, sort) {
        a.limits
    } else {
        0
    }
}

// The authority with that number.
pub fn find(authorities: &[Authority], n: AuthorityNo) -> Option<Authority>
    ensures { result ≡ find (is_authority n) authorities.now }
{
    authorities.iter().copied().find(|a| a.number == n)
}

// The limits of the authority with that number; none where it isn't live.
pub fn limits_of(authorities: &[Authority], n: AuthorityNo) -> u64
    ensures { result ≡ (first (is_authority n) no_authority authorities.now).limits }
{
    find(authorities, n).unwrap_or_default().limits
}

// The authority in force of the sort whose limits hold the portion.
fn in_force_at(authorities: &[Authority], p: u16, sort: Sort) -> Option<Authority>
    ensures { result ≡ find (holds_as (kind_test sort) p) authorities.now }
{
    authorities.iter().copied().find(|a| a.in_force
        && sets::has(a.limits, p)
        && is_of(a.kind, sort))
}
