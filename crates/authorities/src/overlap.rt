// Refusal 13, decided from the sets of held portions (02, order 8).
ghost use Rattle.std.specs.Prelude.{◌≡◌};
ghost use Rattle.rules.specs.Board.{board_of};
ghost use Rattle.rules.specs.Stored.{limits_as, rested_on, left_as, overlaps_held};
ghost use Rattle.authorities.specs.Sorts.{kind_test};

use crate::{Sort, find, limits_if};
use rules::{Authority, AuthorityNo, Kind, Register};

// The limits of the authority with that number, where it is live, in force and of the sort; else none.
fn limits_as(register: &Register, n: AuthorityNo, sort: Sort) -> u64
    ensures { result ≡ limits_as (kind_test sort) (board_of register.now) n }
{
    limits_if(find(&register.authorities, n).unwrap_or_default(), sort)
}

// The authority on whose officer's agreement a TWA or a TOA rests; 0, no authority's number, for an LPA.
fn rested_on(a: Authority) -> AuthorityNo
    ensures { result ≡ rested_on a }
{
    match a.kind {
        Kind::Twa | Kind::Toa => a.agreed,
        Kind::Lpa => AuthorityNo(0),
    }
}

// What the set of a sort has left without the limits of old and of the authority that a rests on.
#[tactic(auto, unfolding(rules::specs::Stored::left_as))]
fn left_as(register: &Register, held: u64, old: AuthorityNo, a: Authority, sort: Sort) -> u64
    ensures { result ≡ left_as (kind_test sort) held (board_of register.now) old a }
{
    let without_old = sets::difference(held, limits_as(register, old, sort));
    sets::difference(without_old, limits_as(register, rested_on(a), sort))
}

// 13 for a: its limits share a portion with what is left of either set, old not counted.
#[tactic(auto, unfolding(rules::specs::Stored::overlaps_held))]
pub fn is_overlapped(register: &Register, old: AuthorityNo, a: Authority) -> bool
    ensures { result
        ≡ overlaps_held register.now.exclusive_held register.now.twa_held (board_of register.now) old a }
{
    let exclusive = left_as(register, register.exclusive_held, old, a, Sort::Exclusive);
    let twa = left_as(register, register.twa_held, old, a, Sort::Twa);
    sets::overlap(a.limits, sets::union(exclusive, twa))
}
