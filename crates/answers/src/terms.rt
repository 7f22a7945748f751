// The answer to TERM (02, order 1).
ghost use Rattle.std.specs.Prelude.{◌≡◌};
ghost use Rattle.rules.specs.Board.{board_of};
ghost use Rattle.rules.specs.Call.{minute_of};
ghost use Rattle.rules.specs.Refusals.{lowest, term_refusals};
ghost use Rattle.rules.specs.Answer.{answer_no};

use crate::conditions::is_too_soon;
use authorities::find;
use rules::{AuthorityNo, Kind, Refusal, Register, Seven};
use stamps::minute_of;

#[tactic(auto, using(authorities::proofs::AuthorityLaws::not_found, authorities::proofs::AuthorityLaws::found), unfolding(rules::specs::Board::board_of, rules::specs::Refusals::lowest, rules::specs::Refusals::not_pending_lpa))]
pub fn answer_term(
    register: &Register,
    s: Seven,
    n: AuthorityNo,
    day: u16,
    time: u16,
) -> Result<(), Refusal>
    ensures { answer_no result ≡ lowest (term_refusals (board_of register.now) s n (minute_of day time)) }
{
    let a = find(&register.authorities, n).ok_or(Refusal::NotLive)?;
    if a.kind != Kind::Lpa || a.in_force {
        return Err(Refusal::Stage);
    }
    if a.minutes != 0 {
        return Err(Refusal::AlreadySo);
    }
    if is_too_soon(s, minute_of(day, time)) {
        return Err(Refusal::Notice);
    }
    Ok(())
}
