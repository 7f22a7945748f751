// The conditions for refusal that are more than one search: full, unprotected, and those on terms (02, order 1).
ghost use Rattle.std.specs.Prelude.{◌≡◌, false};
ghost use mathlib.Core.List.{Memᴰ};
ghost use Rattle.rules.specs.Board.{board_of, is_in_force};
ghost use Rattle.rules.specs.Refusals.{full, unprotected, overlaps, too_soon, outside_term};
ghost use Rattle.rules.specs.Step.{Kept};

use rules::{Authority, AuthorityNo, Kind, Register, Seven};
use stamps::minute_of;

// 9: 32 held, or 9999 allotted.
#[tactic(auto, unfolding(rules::specs::Board::board_of, rules::specs::Refusals::full))]
pub fn is_full(register: &Register) -> bool
    ensures { result ≡ full (board_of register.now) }
{
    32 <= register.authorities.len() || 9999 <= register.last.0
}

// 11: a gate that the authority needs isn't blocked.
#[tactic(auto, using(gates::proofs::Needs::unprotected_subset), unfolding(rules::specs::Board::board_of))]
pub fn is_unprotected(register: &Register, a: Authority) -> bool
    ensures { result ≡ unprotected (board_of register.now) a }
{
    !sets::subset(gates::needed(&register.gates, a.limits), register.blocks)
}

// 13, decided from the sets: another in force shares a portion with a, which is live and pending; old isn't counted.
#[tactic(auto, using(rules::proofs::HeldSets::kept_13))]
pub fn is_overlapped(register: &Register, old: AuthorityNo, a: Authority) -> bool
    requires kept { Kept register.now }
    requires live { Memᴰ a register.now.authorities.items }
    requires pending { is_in_force a ≡ false }
    ensures { result ≡ overlaps (board_of register.now) old a }
{
    authorities::is_overlapped(register, old, a)
}

// 21: the start is before the call or less than 10,080 minutes after it.
#[tactic(auto, unfolding(rules::specs::Refusals::too_soon, rules::specs::Refusals::minute))]
pub fn is_too_soon(s: Seven, start: u32) -> bool
    ensures { result ≡ too_soon s start }
{
    let start = u64::from(start);
    let now = u64::from(minute_of(s.day, s.time));
    start < now + 10080
}

// 22: an LPA has no term or the call's minute is outside it.
#[tactic(auto, unfolding(rules::specs::Refusals::outside_term, rules::specs::Refusals::in_term, rules::specs::Refusals::minute))]
pub fn is_outside_term(s: Seven, a: Authority) -> bool
    ensures { result ≡ outside_term s a }
{
    let start = u64::from(a.start);
    let end = start + u64::from(a.minutes);
    let now = u64::from(minute_of(s.day, s.time));
    a.kind == Kind::Lpa && (a.minutes == 0 || !(start <= now && now < end))
}
