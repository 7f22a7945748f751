// The answers to BOOK OUT and BOOK IN (02, order 6).
ghost use Rattle.std.specs.Prelude.{◌≡◌};
ghost use Rattle.rules.specs.Board.{board_of};
ghost use Rattle.rules.specs.Refusals.{lowest, book_out_refusals, book_in_refusals};
ghost use Rattle.rules.specs.Answer.{answer_no};

use gates::{booking_at, gate_at};
use rules::{GateNo, PaperNo, Refusal, Register};

#[tactic(auto, unfolding(rules::specs::Board::board_of, rules::specs::Board::is_out, rules::specs::Refusals::lowest))]
pub fn answer_book_out(register: &Register, g: GateNo) -> Result<(), Refusal>
    ensures { answer_no result ≡ lowest (book_out_refusals (board_of register.now) g) }
{
    let booking = booking_at(&register.bookings, g);
    if booking.paper != PaperNo(0) {
        return Err(Refusal::AlreadySo);
    }
    let gate = gate_at(&register.gates, g);
    if gate.kind != 4 {
        return Err(Refusal::NoFacility);
    }
    Ok(())
}

// 5 is that the paper is not the one booked: a gate that isn't out has none.
#[tactic(auto, unfolding(rules::specs::Board::board_of, rules::specs::Refusals::lowest, rules::specs::Refusals::not_booked, rules::specs::Refusals::restores_blocked))]
pub fn answer_book_in(
    register: &Register,
    g: GateNo,
    paper: PaperNo,
    certified: bool,
) -> Result<(), Refusal>
    ensures { answer_no result ≡ lowest (book_in_refusals (board_of register.now) g paper certified) }
{
    let booking = booking_at(&register.bookings, g);
    if booking.paper != paper {
        return Err(Refusal::NotLive);
    }
    if certified && sets::has(register.blocks, g.0) {
        return Err(Refusal::BlockOn);
    }
    Ok(())
}
