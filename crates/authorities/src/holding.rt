// Which authority in force holds a portion, asked of the sets first: E and W of MOVE.
ghost use Rattle.std.specs.Prelude.{◌≡◌, find};
ghost use Rattle.lists.specs.Search.{any};
ghost use Rattle.rules.specs.Step.{Kept};
ghost use Rattle.rules.specs.Stored.{holds_as};
ghost use Rattle.authorities.specs.Sorts.{kind_test};

use crate::{Sort, in_force_at};
use rules::{Authority, Register};

// An authority in force of the sort has the portion in its limits.
pub fn is_held(register: &Register, p: u16, sort: Sort) -> bool
    requires { Kept register.now }
    ensures { result ≡ any (holds_as (kind_test sort) p) register.now.authorities.items }
{
    match sort {
        Sort::Exclusive => sets::has(register.exclusive_held, p),
        Sort::Twa => sets::has(register.twa_held, p),
    }
}

// That authority: it is looked for only where there is one.
pub fn holder(register: &Register, p: u16, sort: Sort) -> Option<Authority>
    requires { Kept register.now }
    ensures { result ≡ find (holds_as (kind_test sort) p) register.now.authorities.items }
{
    if !is_held(register, p, sort) {
        return None;
    }
    in_force_at(&register.authorities, p, sort)
}
