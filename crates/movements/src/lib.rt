// The answers to MOVE and PASSED.
#![tactic(auto)]

ghost use Rattle.std.specs.Prelude.{◌≡◌};
ghost use Rattle.rules.specs.Board.{board_of, gate_at};
ghost use Rattle.rules.specs.Refusals.{lowest, no_room, taken, worked_on, not_there, barred, pilot, not_piloted};
ghost use Rattle.rules.specs.Refusals.{move_refusals, passed_refusals};
ghost use Rattle.rules.specs.Answer.{answer_no};
ghost use Rattle.rules.specs.Step.{Kept};

use authorities::{Sort, holder, is_held};
use rules::{Authority, AuthorityNo, Gate, GateNo, Refusal, Register, TrainNo};

// 9: from outside, 32 trains on the board.
#[tactic(auto, unfolding(rules::specs::Board::board_of, rules::specs::Refusals::no_room))]
fn has_no_room(register: &Register, gate: Gate) -> bool
    ensures { result ≡ no_room (board_of register.now) gate }
{
    gate.from == 99 && 32 <= register.trains.len()
}

// 17: from outside, the train is on the board; else it isn't there with head and rear both at "from".
#[tactic(auto, using(trains::proofs::TrainLaws::train_there, trains::proofs::TrainLaws::train_missing), unfolding(rules::specs::Board::board_of, rules::specs::Refusals::not_there, rules::specs::Refusals::is_at))]
fn is_not_there(register: &Register, t: TrainNo, gate: Gate) -> bool
    ensures { result ≡ not_there (board_of register.now) t gate }
{
    match trains::find_train(&register.trains, t) {
        Some(_) if gate.from == 99 => true,
        Some(x) => x.head != gate.from || x.rear != gate.from,
        None => gate.from != 99,
    }
}

// 12: no E, and another train touches "to".
// Kept: `&`. With `&&` the journal program takes 2 % longer where it was measured.
#[tactic(auto, unfolding(rules::specs::Board::board_of, rules::specs::Refusals::taken, rules::specs::Refusals::any_e, rules::specs::Refusals::is_e))]
fn is_taken(register: &Register, t: TrainNo, to: u16) -> bool
    requires { Kept register.now }
    ensures { result ≡ taken (board_of register.now) t to }
{
    !is_held(register, to, Sort::Exclusive) & trains::is_another_at(&register.trains, t, to)
}

// 14: W has workers on.
#[tactic(auto, using(authorities::proofs::AuthorityLaws::holders), unfolding(rules::specs::Board::board_of, rules::specs::Refusals::worked_on, rules::specs::Refusals::is_w))]
fn is_worked_on(register: &Register, to: u16) -> bool
    requires { Kept register.now }
    ensures { result ≡ worked_on (board_of register.now) to }
{
    match holder(register, to, Sort::Twa) {
        Some(w) => w.workers_on,
        None => false,
    }
}

// 18: the gate is blocked, and "to" is in the set of neither sort.
#[tactic(auto, unfolding(rules::specs::Board::board_of, rules::specs::Refusals::barred, rules::specs::Refusals::any_e, rules::specs::Refusals::any_w, rules::specs::Refusals::is_e, rules::specs::Refusals::is_w))]
fn is_barred(register: &Register, g: GateNo, to: u16) -> bool
    requires { Kept register.now }
    ensures { result ≡ barred (board_of register.now) g to }
{
    sets::has(register.blocks, g.0)
        & !is_held(register, to, Sort::Exclusive)
        & !is_held(register, to, Sort::Twa)
}

// E, else W, else none.
#[tactic(auto, using(authorities::proofs::AuthorityLaws::holders), unfolding(rules::specs::Board::board_of, rules::specs::Refusals::pilot, rules::specs::Refusals::is_e, rules::specs::Refusals::is_w))]
fn pilot(register: &Register, to: u16) -> Authority
    requires { Kept register.now }
    ensures { result ≡ pilot (board_of register.now) to }
{
    match holder(register, to, Sort::Exclusive) {
        Some(e) => e,
        None => match holder(register, to, Sort::Twa) {
            Some(w) => w,
            None => Authority::default(),
        },
    }
}

// 19: authority and officer aren't those of E, else those of W, else 0 and 0.
#[tactic(auto, unfolding(rules::specs::Refusals::not_piloted))]
fn is_not_piloted(register: &Register, to: u16, n: AuthorityNo, officer: u16) -> bool
    requires { Kept register.now }
    ensures { result ≡ not_piloted (board_of register.now) to n officer }
{
    let pilot = pilot(register, to);
    n != pilot.number || officer != pilot.officer
}

// Let E be the exclusive authority and W the TWA in force whose limits hold the gate's "to". They are looked for only
// where a condition asks who they are, and where the set of their sort has the portion.
#[tactic(auto, unfolding(rules::specs::Board::board_of, rules::specs::Refusals::lowest))]
pub fn answer_move(
    register: &Register,
    t: TrainNo,
    g: GateNo,
    n: AuthorityNo,
    officer: u16,
) -> Result<(), Refusal>
    requires { Kept register.now }
    ensures { answer_no result
        ≡ lowest (
        move_refusals (board_of register.now) t g (gate_at (board_of register.now).gates g) n officer) }
{
    let gate = gates::gate_at(&register.gates, g);
    if has_no_room(register, gate) {
        return Err(Refusal::Full);
    }
    if is_taken(register, t, gate.to) {
        return Err(Refusal::Occupied);
    }
    if is_worked_on(register, gate.to) {
        return Err(Refusal::Site);
    }
    if is_not_there(register, t, gate) {
        return Err(Refusal::NoTrain);
    }
    if is_barred(register, g, gate.to) {
        return Err(Refusal::Blocked);
    }
    if is_not_piloted(register, gate.to, n, officer) {
        return Err(Refusal::NotPiloted);
    }
    Ok(())
}

#[tactic(auto, using(trains::proofs::TrainLaws::train_there, trains::proofs::TrainLaws::train_missing), unfolding(rules::specs::Board::board_of, rules::specs::Refusals::lowest))]
pub fn answer_passed(register: &Register, t: TrainNo) -> Result<(), Refusal>
    ensures { answer_no result ≡ lowest (passed_refusals (board_of register.now) t) }
{
    let x = trains::find_train(&register.trains, t).ok_or(Refusal::NoTrain)?;
    if x.head == x.rear {
        return Err(Refusal::AlreadySo);
    }
    Ok(())
}
