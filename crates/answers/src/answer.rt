// The answer to each call: accepted, or the lowest refusal whose condition holds.
#![tactic(auto, using(authorities::proofs::AuthorityLaws::not_found, authorities::proofs::AuthorityLaws::found, crate::proofs::Waiting::held_live, rules::proofs::HeldSets::kept_16), unfolding(rules::specs::Board::board_of, rules::specs::Refusals::lowest, rules::specs::Refusals::not_officer, rules::specs::Refusals::occupied))]

ghost use Rattle.std.specs.Prelude.{◌≡◌, Some};
ghost use mathlib.Core.List.{Memᴰ};
ghost use Rattle.rules.specs.Board.{board_of};
ghost use Rattle.rules.specs.Refusals.{lowest, request_refusals, withdraw_refusals, block_refusals, unblock_refusals};
ghost use Rattle.rules.specs.Refusals.{grant_refusals, clear_refusals, reoccupy_refusals, hand_over_refusals};
ghost use Rattle.rules.specs.Refusals.{fulfil_refusals, of_continue, continue_refusals, own};
ghost use Rattle.rules.specs.Answer.{answer_no};
ghost use Rattle.rules.specs.Step.{Kept};
ghost use Rattle.answers.specs.Held.{held_by, not_at_stage};

use crate::agreements::{answer_agree, answer_join};
use crate::bookings::{answer_book_in, answer_book_out};
use crate::conditions::{is_full, is_outside_term, is_overlapped, is_unprotected};
use crate::terms::answer_term;
use authorities::find;
use gates::can_be_blocked;
use movements::{answer_move, answer_passed};
use rules::{Authority, AuthorityNo, Call, GateNo, Kind, Refusal, Register, Seven};

// A stage that a call asks for.
#[derive(Clone, Copy, Debug, PartialEq, Eq)]
enum Stage {
    Pending,
    InForce,
    Either,
}

// 6: the authority isn't at the stage.
fn is_not_at_stage(a: Authority, stage: Stage) -> bool
    ensures { result ≡ not_at_stage stage a }
{
    match stage {
        Stage::Pending => a.in_force,
        Stage::InForce => !a.in_force,
        Stage::Either => false,
    }
}

// 5, 6 and 7: the live authority with that number, at the stage that is asked for, and the officer's own.
fn held(
    register: &Register,
    n: AuthorityNo,
    stage: Stage,
    officer: u16,
) -> Result<Authority, Refusal>
    ensures { result ≡ held_by (board_of register.now) n stage officer }
{
    let a = find(&register.authorities, n).ok_or(Refusal::NotLive)?;
    if is_not_at_stage(a, stage) {
        return Err(Refusal::Stage);
    }
    if a.officer != officer {
        return Err(Refusal::Officer);
    }
    Ok(a)
}

fn answer_request(register: &Register) -> Result<(), Refusal>
    ensures { answer_no result ≡ lowest (request_refusals (board_of register.now)) }
{
    if is_full(register) {
        return Err(Refusal::Full);
    }
    Ok(())
}

fn answer_withdraw(register: &Register, n: AuthorityNo, officer: u16) -> Result<(), Refusal>
    ensures { answer_no result ≡ lowest (withdraw_refusals (board_of register.now) n officer) }
{
    held(register, n, Stage::Pending, officer)?;
    Ok(())
}

fn answer_block(register: &Register, g: GateNo) -> Result<(), Refusal>
    ensures { answer_no result ≡ lowest (block_refusals (board_of register.now) g) }
{
    if sets::has(register.blocks, g.0) {
        return Err(Refusal::AlreadySo);
    }
    if !can_be_blocked(register, g) {
        return Err(Refusal::NoFacility);
    }
    Ok(())
}

fn answer_unblock(register: &Register, g: GateNo) -> Result<(), Refusal>
    requires { Kept register.now }
    ensures { answer_no result ≡ lowest (unblock_refusals (board_of register.now) g) }
{
    if !sets::has(register.blocks, g.0) {
        return Err(Refusal::AlreadySo);
    }
    if sets::has(register.needed, g.0) {
        return Err(Refusal::StillNeeded);
    }
    Ok(())
}

fn answer_grant(register: &Register, s: Seven, n: AuthorityNo, officer: u16) -> Result<(), Refusal>
    requires { Kept register.now }
    ensures { answer_no result ≡ lowest (grant_refusals (board_of register.now) s n officer) }
{
    let a = held(register, n, Stage::Pending, officer)?;
    if is_unprotected(register, a) {
        return Err(Refusal::Unprotected);
    }
    if trains::is_any_touching(&register.trains, a.limits) {
        return Err(Refusal::Occupied);
    }
    if is_overlapped(register, AuthorityNo(0), a) {
        return Err(Refusal::Overlap);
    }
    if is_outside_term(s, a) {
        return Err(Refusal::Term);
    }
    Ok(())
}

fn answer_clear(register: &Register, n: AuthorityNo, officer: u16) -> Result<(), Refusal>
    ensures { answer_no result ≡ lowest (clear_refusals (board_of register.now) n officer) }
{
    let a = held(register, n, Stage::InForce, officer)?;
    if !a.workers_on {
        return Err(Refusal::AlreadySo);
    }
    Ok(())
}

fn answer_reoccupy(register: &Register, n: AuthorityNo, officer: u16) -> Result<(), Refusal>
    ensures { answer_no result ≡ lowest (reoccupy_refusals (board_of register.now) n officer) }
{
    let a = held(register, n, Stage::InForce, officer)?;
    if a.workers_on {
        return Err(Refusal::AlreadySo);
    }
    if a.kind == Kind::Twa && trains::is_any_touching(&register.trains, a.limits) {
        return Err(Refusal::Occupied);
    }
    Ok(())
}

fn answer_hand_over(register: &Register, n: AuthorityNo, out: u16, into: u16) -> Result<(), Refusal>
    ensures { answer_no result ≡ lowest (hand_over_refusals (board_of register.now) n out into) }
{
    held(register, n, Stage::Either, out)?;
    if out == into {
        return Err(Refusal::AlreadySo);
    }
    Ok(())
}

fn answer_fulfil(
    register: &Register,
    n: AuthorityNo,
    officer: u16,
    assurances: u16,
) -> Result<(), Refusal>
    ensures { answer_no result ≡ lowest (fulfil_refusals (board_of register.now) n officer assurances) }
{
    let a = held(register, n, Stage::InForce, officer)?;
    if a.workers_on {
        return Err(Refusal::Site);
    }
    if assurances != 7 {
        return Err(Refusal::Assurance);
    }
    Ok(())
}

// 6, 7, 11, 12, 13 and 22 of CONTINUE, with the two found, of which y is asked to be live.
// Kept: a function of its own. With the two searches in it the check stops at its limit of case splits.
#[tactic(auto, using(authorities::proofs::Finding::refusals), unfolding(rules::specs::Board::board_of, rules::specs::Refusals::occupied_beside))]
fn decide_continue(
    register: &Register,
    s: Seven,
    old: AuthorityNo,
    x: Authority,
    y: Authority,
    officer_old: u16,
    officer_new: u16,
) -> Result<(), Refusal>
    requires kept { Kept register.now }
    requires live { Memᴰ y register.now.authorities.items }
    ensures { answer_no result
        ≡ lowest (of_continue (board_of register.now) s old x y officer_old officer_new) }
{
    if !x.in_force || y.in_force {
        return Err(Refusal::Stage);
    }
    if x.officer != officer_old || y.officer != officer_new {
        return Err(Refusal::Officer);
    }
    if is_unprotected(register, y) {
        return Err(Refusal::Unprotected);
    }
    if trains::is_any_in_the_way(&register.trains, old, y) {
        return Err(Refusal::Occupied);
    }
    if is_overlapped(register, old, y) {
        return Err(Refusal::Overlap);
    }
    if is_outside_term(s, y) {
        return Err(Refusal::Term);
    }
    Ok(())
}

fn answer_continue(
    register: &Register,
    s: Seven,
    old: AuthorityNo,
    new: AuthorityNo,
    officer_old: u16,
    officer_new: u16,
) -> Result<(), Refusal>
    requires { Kept register.now }
    ensures { answer_no result
        ≡ lowest (continue_refusals (board_of register.now) s old new officer_old officer_new) }
{
    let x = find(&register.authorities, old).ok_or(Refusal::NotLive)?;
    let y = find(&register.authorities, new).ok_or(Refusal::NotLive)?;
    decide_continue(register, s, old, x, y, officer_old, officer_new)
}

// The lowest of the call's own refusals, from 5 on, whose condition holds, or none. `s` has the call's stamp.
#[tactic(auto, unfolding(rules::specs::Refusals::own))]
pub fn answer_of(register: &Register, s: Seven, c: Call) -> Result<(), Refusal>
    requires { Kept register.now }
    ensures { answer_no result ≡ lowest (own (board_of register.now) s (Some c)) }
{
    match c {
        Call::Request { .. } => answer_request(register),
        Call::Withdraw { authority, officer } => answer_withdraw(register, authority, officer),
        Call::Agree { toa, twa, officer } => answer_agree(register, toa, twa, officer),
        Call::Block { gate } => answer_block(register, gate),
        Call::Unblock { gate } => answer_unblock(register, gate),
        Call::Grant { authority, officer } => answer_grant(register, s, authority, officer),
        Call::Clear { authority, officer } => answer_clear(register, authority, officer),
        Call::Reoccupy { authority, officer } => answer_reoccupy(register, authority, officer),
        Call::HandOver {
            authority,
            out,
            into,
        } => answer_hand_over(register, authority, out, into),
        Call::Fulfil {
            authority,
            officer,
            assurances,
        } => answer_fulfil(register, authority, officer, assurances),
        Call::Continue {
            old,
            new,
            officer_old,
            officer_new,
        } => answer_continue(register, s, old, new, officer_old, officer_new),
        Call::Move {
            train,
            gate,
            authority,
            officer,
        } => answer_move(register, train, gate, authority, officer),
        Call::Passed { train } => answer_passed(register, train),
        Call::Term {
            authority,
            day,
            time,
            ..
        } => answer_term(register, s, authority, day, time),
        Call::Join {
            twa,
            toa,
            officer,
            distance,
        } => answer_join(register, twa, toa, officer, distance),
        Call::BookOut { gate, .. } => answer_book_out(register, gate),
        Call::BookIn {
            gate,
            paper,
            certified,
            ..
        } => answer_book_in(register, gate, paper, certified),
    }
}
