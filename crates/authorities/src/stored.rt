// The sets that a register stores of its live authorities, made anew (02, order 8).
ghost use Rattle.std.specs.Prelude.{◌≡◌, ◌≤◌, ◌||◌, cond, length};
ghost use Rattle.lists.specs.Search.{any};
ghost use Rattle.rules.specs.Board.{board_of, needs};
ghost use Rattle.rules.specs.Refusals.{in_force_needs};
ghost use Rattle.authorities.specs.Sorts.{kind_test};
ghost use Rattle.authorities.specs.Stored.{held_as, needed_again, sets_again};

use crate::{Sort, limits_if};
use arrayvec::ArrayVec;
use rules::{Authority, Gate, Register};

// The portions that LPAs and TOAs in force have in their limits, those that TWAs in force have, and the gates that an
// authority in force needs.
#[derive(Clone, Copy, Debug, PartialEq, Eq)]
pub struct StoredSets {
    pub exclusive_held: u64,
    pub twa_held: u64,
    pub needed: u64,
}

// The portions that authorities in force of the sort have in their limits.
fn held_as(authorities: &[Authority], sort: Sort) -> u64
    ensures { result ≡ held_as (kind_test sort) authorities.now }
{
    authorities
        .iter()
        .fold(0, |held, a| sets::union(held, limits_if(*a, sort)))
}

// An authority in force needs the gate.
#[tactic(auto, unfolding(rules::specs::Refusals::in_force_needs))]
fn is_still_needed(authorities: &[Authority], gate: Gate) -> bool
    ensures { result ≡ any (in_force_needs gate) authorities.now }
{
    authorities
        .iter()
        .any(|a| a.in_force && gates::is_needed(a.limits, gate))
}

// The same of a gate that either limits need; any other is needed as it was.
fn is_needed_again(authorities: &[Authority], gate: Gate, was: bool, x: u64, y: u64) -> bool
    ensures { result ≡ cond (needs x gate || needs y gate) (any (in_force_needs gate) authorities.now) was }
{
    if gates::is_needed(x, gate) || gates::is_needed(y, gate) {
        is_still_needed(authorities, gate)
    } else {
        was
    }
}

// The gates that an authority in force needs, from those needed before: x and y are the limits of the authorities that
// a call may have put in force or ended.
#[tactic(auto, using(gates::proofs::Needs::building), unfolding(crate::specs::Stored::needed_again))]
fn needed_again(
    gates: &ArrayVec<Gate, 64>,
    authorities: &[Authority],
    needed: u64,
    x: u64,
    y: u64,
) -> u64
    ensures value { result ≡ needed_again gates.now.items authorities.now needed x y }
    ensures fits { length gates.now.items ≤ 64 }
{
    let mut set: u64 = 0;
    for (i, gate) in gates.iter().enumerate() {
        // Kept: a cast, as in gates' `needed`.
        let g = i as u16;
        if is_needed_again(authorities, *gate, sets::has(needed, g), x, y) {
            set = sets::with(set, g);
        }
    }
    set
}

// The three sets, made anew from the live authorities and from the gates needed before.
#[tactic(auto, unfolding(rules::specs::Board::board_of, crate::specs::Stored::sets_again))]
pub fn gather(register: &Register, needed: u64, x: u64, y: u64) -> StoredSets
    ensures { result ≡ sets_again (board_of register.now) needed x y }
{
    StoredSets {
        exclusive_held: held_as(&register.authorities, Sort::Exclusive),
        twa_held: held_as(&register.authorities, Sort::Twa),
        needed: needed_again(&register.gates, &register.authorities, needed, x, y),
    }
}
