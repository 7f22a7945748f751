// The trains on the board, by ascending number: searches. Each is left when what it looks for is found.
#![tactic(auto)]

ghost use Rattle.std.specs.Prelude.{◌≡◌, find};
ghost use Rattle.lists.specs.Search.{any};
ghost use Rattle.rules.specs.Board.{is_train, touches};
ghost use Rattle.rules.specs.Refusals.{in_the_way, is_other_at};
ghost use Rattle.trains.specs.Trains.{SearchesEnds};

use rules::{Authority, AuthorityNo, Kind, Train, TrainNo};

// The first train that passes the test by one of its ends, its head or its rear.
// Kept: a loop with a label, as document 01 names the form of this search.
#[tactic(auto, unfolding(crate::specs::Trains::SearchesEnds))]
fn search_ends<F: Fn(Train, u16) -> bool>(trains: &[Train], passes: F) -> Option<Train>
    requires { F.IsAlwaysCallable passes }
    ensures { SearchesEnds (F.post passes) trains.now result }
{
    let mut found = None;
    'search: for t in trains {
        for end in [t.head, t.rear] {
            if passes(*t, end) {
                found = Some(*t);
                break 'search;
            }
        }
    }
    found
}

// The train with that number, whichever its end.
#[tactic(auto, using(crate::proofs::TrainLaws::numbered_by_ends))]
pub fn find_train(trains: &[Train], n: TrainNo) -> Option<Train>
    ensures { result ≡ find (is_train n) trains.now }
{
    search_ends(trains, |t, _| t.number == n)
}

// A train touches the set of portions.
#[tactic(auto, using(crate::proofs::TrainLaws::touching_by_ends))]
pub fn is_any_touching(trains: &[Train], set: u64) -> bool
    ensures { result ≡ any (touches set) trains.now }
{
    search_ends(trains, |_, end| sets::has(set, end)).is_some()
}

// A train is in the way of a CONTINUE from old to a (refusal 12).
#[tactic(auto, using(crate::proofs::TrainLaws::in_the_way_by_ends))]
pub fn is_any_in_the_way(trains: &[Train], old: AuthorityNo, a: Authority) -> bool
    ensures { result ≡ any (in_the_way old a) trains.now }
{
    search_ends(trains, |t, end| {
        sets::has(a.limits, end)
            && (a.kind == Kind::Twa || t.with != old || !sets::has(a.limits, t.head))
    })
    .is_some()
}

// Another train than n touches the portion.
#[tactic(auto, using(crate::proofs::TrainLaws::another_by_ends))]
pub fn is_another_at(trains: &[Train], n: TrainNo, p: u16) -> bool
    ensures { result ≡ any (is_other_at n p) trains.now }
{
    search_ends(trains, |t, end| t.number != n && p != 99 && end == p).is_some()
}
