// The agreements by which a TOA and a TWA may share portions: the answers to AGREE, which records that of a TOA's
// officer with a pending TWA, and to JOIN (02, order 4), which records that of a TWA's officer with a pending TOA.
ghost use Rattle.std.specs.Prelude.{◌≡◌};
ghost use Rattle.rules.specs.Board.{board_of};
ghost use Rattle.rules.specs.Refusals.{lowest, agree_refusals, join_refusals, not_at_distance};
ghost use Rattle.rules.specs.Answer.{answer_no};
ghost use Rattle.answers.specs.Agreement.{agreement_of, agreement_with, same_kind};

use authorities::find;
use rules::{Authority, AuthorityNo, Kind, Refusal, Register};

// The authority is of that kind.
fn is_kind(a: Authority, kind: Kind) -> bool
    ensures { result ≡ same_kind kind a.kind }
{
    a.kind == kind
}

// 6, 7 and 8 of AGREE and JOIN, with the two found: x, whose number is n, is in force and y is pending.
fn decide_agreement(
    x: Authority,
    x_kind: Kind,
    y: Authority,
    y_kind: Kind,
    n: AuthorityNo,
    officer: u16,
) -> Result<(), Refusal>
    ensures { result ≡ agreement_with x_kind x y_kind y n officer }
{
    if !(is_kind(x, x_kind) && x.in_force && is_kind(y, y_kind) && !y.in_force) {
        return Err(Refusal::Stage);
    }
    if x.officer != officer {
        return Err(Refusal::Officer);
    }
    if y.agreed == n {
        return Err(Refusal::AlreadySo);
    }
    Ok(())
}

// 5, 6, 7 and 8 of AGREE and JOIN: the officer of n, in force, agrees, and m, pending, records it.
#[tactic(auto, using(authorities::proofs::AuthorityLaws::not_found, authorities::proofs::AuthorityLaws::found), unfolding(rules::specs::Board::board_of))]
fn answer_agreement(
    register: &Register,
    n: AuthorityNo,
    n_kind: Kind,
    m: AuthorityNo,
    m_kind: Kind,
    officer: u16,
) -> Result<(), Refusal>
    ensures { result ≡ agreement_of (board_of register.now) n_kind n m_kind m officer }
{
    let x = find(&register.authorities, n).ok_or(Refusal::NotLive)?;
    let y = find(&register.authorities, m).ok_or(Refusal::NotLive)?;
    decide_agreement(x, n_kind, y, m_kind, n, officer)
}

pub fn answer_agree(
    register: &Register,
    toa: AuthorityNo,
    twa: AuthorityNo,
    officer: u16,
) -> Result<(), Refusal>
    ensures { answer_no result ≡ lowest (agree_refusals (board_of register.now) toa twa officer) }
{
    answer_agreement(register, toa, Kind::Toa, twa, Kind::Twa, officer)
}

// 24: the distance is under 500 or over 1000.
#[tactic(auto, unfolding(rules::specs::Refusals::not_at_distance))]
fn is_not_at_distance(distance: u16) -> bool
    ensures { result ≡ not_at_distance distance }
{
    !(500..=1000).contains(&distance)
}

#[tactic(auto, unfolding(rules::specs::Refusals::lowest, rules::specs::Refusals::not_to_join, rules::specs::Refusals::not_officer))]
pub fn answer_join(
    register: &Register,
    twa: AuthorityNo,
    toa: AuthorityNo,
    officer: u16,
    distance: u16,
) -> Result<(), Refusal>
    ensures { answer_no result ≡ lowest (join_refusals (board_of register.now) twa toa officer distance) }
{
    answer_agreement(register, twa, Kind::Twa, toa, Kind::Toa, officer)?;
    if is_not_at_distance(distance) {
        return Err(Refusal::Distance);
    }
    Ok(())
}
